// How the dependencies of a lock file stand to an index.

ghost use Rattle.lock_check.specs.Outlooks.{class_of, class_word, count_in, is_same_class};
ghost use Rattle.lock_check.specs.Outlooks.{is_shown, latest_in, reason_words, wanted_in};
ghost use Rattle.std.specs.Option.{option_copied};
ghost use Rattle.std.specs.Prelude.{◌≡◌, ◌<◌, length};

use crate::finding::Finding;
use crate::index::Index;
use crate::raises::{Latest, Prospect, Raise, Reason, prospect_of};
use lock_files::{Dependency, Lock, Package, Shown, Specifier, package_of};
use nodejs_semver::VersionRef;
use std::alloc::{AllocError, Global};
use std::fmt;

/// A dependency, and how it stands to the index.
#[derive(Clone, Copy)]
pub struct Outlook<'a, 'i, 't> {
    pub dependency: Dependency<'a>,
    /// The package that a registry is asked for.
    pub package: &'a str,
    /// What the lock file has as its version.
    pub locked: Option<&'a str>,
    pub standing: Standing<'i, 't>,
}

/// How a dependency stands to the index.
#[derive(Clone, Copy)]
pub enum Standing<'i, 't> {
    /// The index has its package. What its locked version may be raised to.
    Listed(Raise<'i, 't>),
    /// The index has no version of its package.
    Unlisted,
    /// It is not looked up.
    Skipped(Omission),
}

/// Why a dependency is not looked up.
#[derive(Clone, Copy, PartialEq, Eq)]
pub enum Omission {
    /// What it wants is no range that is asked of a registry.
    NoRange,
    /// npm may read another range in its text than is read here, or none.
    Unsure,
    /// No package is locked for it.
    Missing,
    /// The package is a link.
    Link,
    /// What is locked is no version.
    NoVersion,
}

/// Standings that are counted as one.
#[derive(Clone, Copy, PartialEq, Eq)]
pub enum Class {
    /// It may be raised, or there is a newer version that its range does not accept.
    Outdated,
    Current,
    Unlisted,
    Skipped,
}

/// How many packages and dependencies there are, and how many dependencies are of each class.
#[derive(Clone, Copy)]
pub struct Totals {
    packages: usize,
    dependencies: usize,
    outdated: usize,
    current: usize,
    unlisted: usize,
    skipped: usize,
    malformed: usize,
}

impl Class {
    /// The word for it.
    pub fn word(self) -> &'static str
        ensures { result.now ≡ class_word self }
    {
        match self {
            Class::Outdated => "outdated",
            Class::Current => "current",
            Class::Unlisted => "unlisted",
            Class::Skipped => "skipped",
        }
    }

    fn is(self, class: Class) -> bool
        ensures { result ≡ is_same_class class self }
    {
        self == class
    }

    /// Whether a dependency of this class is told of. If it is quiet, none is that is not outdated.
    pub fn is_shown(self, is_quiet: bool) -> bool
        ensures { result ≡ is_shown is_quiet self }
    {
        match self {
            Class::Outdated => true,
            Class::Current => false,
            Class::Unlisted | Class::Skipped => !is_quiet,
        }
    }
}

impl<'i, 't> Standing<'i, 't> {
    /// How it is counted.
    pub fn class(self) -> Class
        ensures { result ≡ class_of self.entry }
    {
        match self {
            Standing::Listed(raise) if raise.wanted.is_some() || raise.latest.is_some() => {
                Class::Outdated
            }
            Standing::Listed(_) => Class::Current,
            Standing::Unlisted => Class::Unlisted,
            Standing::Skipped(_) => Class::Skipped,
        }
    }

    /// The version to which the locked one may be raised.
    pub fn wanted(self) -> Option<&'i VersionRef<'t>>
        ensures { option_copied result ≡ wanted_in self.entry }
    {
        match self {
            Standing::Listed(raise) => raise.wanted,
            Standing::Unlisted | Standing::Skipped(_) => None,
        }
    }

    /// The newest version, if the range does not accept it.
    pub fn latest(self) -> Option<Latest<'i, 't>>
        ensures { result ≡ latest_in self.entry }
    {
        match self {
            Standing::Listed(raise) => raise.latest,
            Standing::Unlisted | Standing::Skipped(_) => None,
        }
    }
}

impl Omission {
    fn words(self) -> &'static str {
        match self {
            Omission::NoRange => "no range of a registry",
            Omission::Unsure => "a range text that npm may read otherwise",
            Omission::Missing => "missing",
            Omission::Link => "a link",
            Omission::NoVersion => "locked to no version",
        }
    }
}

impl Reason {
    /// What is told of it.
    pub fn words(self) -> &'static str
        ensures { result.now ≡ reason_words self }
    {
        match self {
            Reason::PreRelease => "a pre-release",
            Reason::Above => "above the range",
            Reason::Below => "below the range",
            Reason::Between => "between parts of the range",
        }
    }
}

/// How each dependency that was found stands to the index, in the same order.
pub fn outlooks<'a, 'i, 't>(
    alloc: Global,
    lock: Lock<'a>,
    index: &'i Index<'t>,
    findings: &[Finding<'a>],
) -> Result<Vec<Outlook<'a, 'i, 't>>, AllocError> {
    let mut outlooks = Vec::new(alloc);
    for finding in findings {
        outlooks.push(outlook_of(alloc, lock, index, finding.dependency)?)?;
    }
    Ok(outlooks)
}

fn outlook_of<'a, 'i, 't>(
    alloc: Global,
    lock: Lock<'a>,
    index: &'i Index<'t>,
    dependency: Dependency<'a>,
) -> Result<Outlook<'a, 'i, 't>, AllocError> {
    let package = package_of(dependency.name, dependency.wanted.text());
    let nearest = lock.nearest(alloc, dependency.package.folder, dependency.name)?;
    let locked = match nearest {
        Some(nearest) => nearest.text("version"),
        None => None,
    };
    let standing = match (dependency.wanted.specifier(), nearest) {
        (Specifier::Range(text), Some(nearest)) => {
            let locked = locked.unwrap_or("");
            standing_of(alloc, text, nearest, locked, index.versions(package))?
        }
        (Specifier::Range(_), None) => Standing::Skipped(Omission::Missing),
        _ => Standing::Skipped(Omission::NoRange),
    };
    Ok(Outlook {
        dependency,
        package,
        locked,
        standing,
    })
}

// How a package that is locked by the text of a version stands to these versions, by the range of
// another text.
fn standing_of<'i, 't>(
    alloc: Global,
    wanted: &str,
    nearest: Package<'_>,
    locked: &str,
    versions: &'i [VersionRef<'t>],
) -> Result<Standing<'i, 't>, AllocError> {
    if nearest.is("link") {
        return Ok(Standing::Skipped(Omission::Link));
    }
    Ok(match prospect_of(alloc, wanted, locked, versions)? {
        Prospect::NoRange => Standing::Skipped(Omission::NoRange),
        Prospect::Unsure => Standing::Skipped(Omission::Unsure),
        _ if versions.is_empty() => Standing::Unlisted,
        Prospect::NoVersion => Standing::Skipped(Omission::NoVersion),
        Prospect::Read(raise) => Standing::Listed(raise),
    })
}

impl fmt::Display for Outlook<'_, '_, '_> {
    fn fmt<W: fmt::Write>(&self, f: &mut fmt::Formatter<W>) -> fmt::Result {
        write!(f, "{}, ", self.dependency)?;
        match self.standing {
            Standing::Listed(raise) => write_raise(f, self.locked.unwrap_or(""), raise),
            Standing::Unlisted => write!(f, "{} is not in the index", Shown(self.package)),
            Standing::Skipped(omission) => write!(f, "skipped: {}", omission.words()),
        }
    }
}

fn write_raise<W: fmt::Write>(
    f: &mut fmt::Formatter<W>,
    locked: &str,
    raise: Raise<'_, '_>,
) -> fmt::Result {
    write!(f, "locked: {}", Shown(locked))?;
    if let Some(version) = raise.wanted {
        write!(f, "; wanted: {version}")?;
    }
    match raise.latest {
        Some(latest) => write!(f, "; latest: {}, {}", latest.version, latest.reason.words()),
        None => Ok(()),
    }
}

impl Totals {
    /// The totals of these dependencies, in a lock file of which so many fields are malformed.
    pub fn of(lock: Lock<'_>, outlooks: &[Outlook<'_, '_, '_>], malformed: usize) -> Totals
        ensures dependencies { result.dependencies ≡ length outlooks.now }
        ensures outdated { result.outdated ≡ count_in Class.Outdated outlooks.now }
        ensures current { result.current ≡ count_in Class.Current outlooks.now }
        ensures unlisted { result.unlisted ≡ count_in Class.Unlisted outlooks.now }
        ensures skipped { result.skipped ≡ count_in Class.Skipped outlooks.now }
        ensures malformed { result.malformed ≡ malformed }
    {
        Totals {
            packages: lock.packages.len(),
            dependencies: outlooks.len(),
            outdated: count_in(outlooks, Class::Outdated),
            current: count_in(outlooks, Class::Current),
            unlisted: count_in(outlooks, Class::Unlisted),
            skipped: count_in(outlooks, Class::Skipped),
            malformed,
        }
    }

    /// The exit status: 2 if something is malformed, else 1 if a dependency is outdated, and else
    /// 0.
    pub fn exit_status(self) -> u8
        ensures trouble { 0 < self.malformed → result ≡ 2 }
        ensures outdated { self.malformed ≡ 0 → 0 < self.outdated → result ≡ 1 }
        ensures clean { self.malformed ≡ 0 → self.outdated ≡ 0 → result ≡ 0 }
    {
        if self.malformed > 0 {
            2
        } else if self.outdated > 0 {
            1
        } else {
            0
        }
    }

    /// The totals by their names.
    pub fn named(self) -> [(&'static str, usize); 7] {
        [
            ("packages", self.packages),
            ("dependencies", self.dependencies),
            ("outdated", self.outdated),
            ("current", self.current),
            ("unlisted", self.unlisted),
            ("skipped", self.skipped),
            ("malformed", self.malformed),
        ]
    }
}

fn count_in(outlooks: &[Outlook<'_, '_, '_>], class: Class) -> usize
    ensures { result ≡ count_in class outlooks.now }
{
    let mut count = 0;
    for outlook in outlooks {
        if outlook.standing.class().is(class) {
            count += 1;
        }
    }
    count
}

impl fmt::Display for Totals {
    fn fmt<W: fmt::Write>(&self, f: &mut fmt::Formatter<W>) -> fmt::Result {
        let Totals {
            packages,
            dependencies,
            outdated,
            current,
            unlisted,
            skipped,
            malformed,
        } = self;
        write!(
            f,
            "{packages} packages, {dependencies} dependencies: {outdated} outdated, "
        )?;
        write!(
            f,
            "{current} current, {unlisted} not in the index, {skipped} skipped, "
        )?;
        write!(f, "{malformed} malformed")
    }
}
