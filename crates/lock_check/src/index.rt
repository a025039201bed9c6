// An index: the versions of packages, a line for each.

ghost use Rattle.lock_check.specs.Index.{HasNoTab, package_in, version_in};
ghost use Rattle.std.specs.Prelude.{◌≡◌, ◌↔◌, IfSome, None};

use lock_files::Shown;
use nodejs_semver::{Failure, VersionRef};
use npm_reading::{Reading, version_flaw};
use std::alloc::{AllocError, Global};
use std::collections::BTreeMap;
use std::fmt;

/// The versions of each package, in the order of the lines.
#[derive(Drop)]
pub struct Index<'t> {
    of_packages: BTreeMap<&'t str, Vec<VersionRef<'t>>>,
    // The versions of a package that is not there.
    none: Vec<VersionRef<'t>>,
}

/// The parts of a line.
#[derive(Clone, Copy)]
pub struct Line<'t> {
    pub package: &'t str,
    pub version: &'t str,
}

/// A line that is not one of an index, by its number from 1.
#[derive(Clone, Copy)]
pub struct BadLine<'t> {
    pub number: usize,
    pub fault: LineFault<'t>,
}

/// What is wrong with a line.
#[derive(Clone, Copy)]
pub enum LineFault<'t> {
    /// It has no tab.
    NoTab,
    /// What stands behind the package is no version to npm.
    NoVersion(&'t str),
}

impl<'t> Index<'t> {
    /// The index of a text. Returns `Refused` with the first line that is not one of an index.
    pub fn of(alloc: Global, text: &'t str) -> Result<Index<'t>, Failure<BadLine<'t>>> {
        let mut index = Index {
            of_packages: BTreeMap::new(alloc),
            none: Vec::new(alloc),
        };
        index.add_lines(alloc, text)?;
        Ok(index)
    }

    fn add_lines(&mut self, alloc: Global, text: &'t str) -> Result<(), Failure<BadLine<'t>>> {
        for (before, line) in text.lines().enumerate() {
            match read(line) {
                Ok((package, version)) => self.add(alloc, package, version)?,
                Err(fault) => {
                    let number = before.saturating_add(1);
                    return Err(Failure::Refused(BadLine { number, fault }));
                }
            }
        }
        Ok(())
    }

    fn add(
        &mut self,
        alloc: Global,
        name: &'t str,
        version: VersionRef<'t>,
    ) -> Result<(), AllocError> {
        if let Some(versions) = self.of_packages.get_mut(name) {
            versions.push(version)?;
            return Ok(());
        }
        let mut versions = Vec::new(alloc);
        versions.push(version)?;
        self.of_packages.insert(name, versions)?;
        Ok(())
    }

    /// The versions of a package; none if the index does not have it.
    pub fn versions(&self, name: &str) -> &[VersionRef<'t>] {
        let Some(versions) = self.of_packages.get(name) else {
            return self.none.as_slice();
        };
        versions.as_slice()
    }
}

// The package and the version of a line.
fn read(line: &str) -> Result<(&str, VersionRef<'_>), LineFault<'_>> {
    let Some(Line { package, version }) = cut(line) else {
        return Err(LineFault::NoTab);
    };
    let reading = Reading {
        loose: false,
        include_prerelease: false,
    };
    match npm_reading::version(version, reading) {
        Ok(read) => Ok((package, read)),
        Err(_) => Err(LineFault::NoVersion(version)),
    }
}

/// The parts of a line, or `None` if it has no tab: the package, and the version up to a second tab
/// or the end.
pub fn cut(line: &str) -> Option<Line<'_>>
    ensures none { (result ≡ None) ↔ HasNoTab line.now }
    ensures package { IfSome result (λ it. it.package.now ≡ package_in line.now) }
    ensures version { IfSome result (λ it. it.version.now ≡ version_in line.now) }
{
    let Some((package, behind)) = line.split_once('\t') else {
        return None;
    };
    let version = match behind.split_once('\t') {
        Some((version, _)) => version,
        None => behind,
    };
    Some(Line { package, version })
}

impl fmt::Display for BadLine<'_> {
    fn fmt<W: fmt::Write>(&self, f: &mut fmt::Formatter<W>) -> fmt::Result {
        write!(f, "line {}: ", self.number)?;
        match self.fault {
            LineFault::NoTab => f.write_str("no tab behind the package"),
            LineFault::NoVersion(text) => write_no_version(f, text),
        }
    }
}

// A text that is no version, and its flaw.
fn write_no_version<W: fmt::Write>(f: &mut fmt::Formatter<W>, text: &str) -> fmt::Result {
    write!(f, "{} is no version", Shown(text))?;
    match version_flaw(text) {
        Some(flaw) => write!(f, ": {flaw}"),
        None => Ok(()),
    }
}
