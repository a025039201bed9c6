// The calls on versions made of numbers.

ghost use Rattle.std.specs.Prelude.{◌<◌};

use crate::memory::ample::Calls;
use crate::memory::versions::{self, WORDS};
use nodejs_semver::{Identifier, Version, VersionRef};
use std::alloc::{AllocError, Global};

// Pre-releases and build metadata.
const LISTS: &[(&str, &str)] = &[("", ""), ("0", ""), ("a", ""), ("", "b"), ("a.7", "b.7")];

/// Makes each call on versions about those of a number.
pub fn ask(alloc: Global, calls: &mut Calls, number: u64) -> Result<(), AllocError> {
    versions::ask_about(alloc, calls, Version::from((number, number, number)), WORDS)?;
    with_pre(alloc, calls, number)?;
    for &(pre_release, build) in LISTS {
        from_texts(alloc, calls, number, pre_release, build)?;
    }
    new(alloc, calls, number, false, false)?;
    new(alloc, calls, number, true, false)?;
    new(alloc, calls, number, false, true)?;
    new(alloc, calls, number, true, true)
}

// Makes each call on the version that a call made.
fn ask_made(
    alloc: Global,
    calls: &mut Calls,
    made: Result<Version, AllocError>,
) -> Result<(), AllocError> {
    match calls.made(made) {
        Ok(version) => versions::ask_about(alloc, calls, version, WORDS),
        Err(error) => Err(error),
    }
}

fn with_pre(alloc: Global, calls: &mut Calls, number: u64) -> Result<(), AllocError> {
    let version = Version::with_pre(alloc, number, number, number, number);
    ask_made(alloc, calls, version)
}

// Makes the version of these numbers and lists, of its own and borrowed, if both are lists.
fn from_texts(
    alloc: Global,
    calls: &mut Calls,
    number: u64,
    pre_release: &str,
    build: &str,
) -> Result<(), AllocError> {
    let (pre_release, build) = (pre_release.as_bytes(), build.as_bytes());
    if !Identifier::is_list(pre_release) || !Identifier::is_list(build) {
        return Ok(());
    }
    let lent = VersionRef::from_texts(number, number, number, pre_release, build);
    calls.asked(lent.to_string(alloc))?;
    calls.asked(lent.to_version(alloc))?;
    let version = Version::from_texts(alloc, number, number, number, pre_release, build);
    ask_made(alloc, calls, version)
}

// Makes a version of a number, with the number in its lists or not.
fn new(
    alloc: Global,
    calls: &mut Calls,
    number: u64,
    pre_release: bool,
    build: bool,
) -> Result<(), AllocError> {
    match list(alloc, number, pre_release) {
        Ok(pre_release) => with_build(alloc, calls, number, pre_release, build),
        Err(error) => Err(error),
    }
}

fn with_build(
    alloc: Global,
    calls: &mut Calls,
    number: u64,
    pre_release: Vec<Identifier>,
    build: bool,
) -> Result<(), AllocError> {
    match list(alloc, number, build) {
        Ok(build) => with_lists(alloc, calls, number, pre_release, build),
        Err(error) => Err(error),
    }
}

fn with_lists(
    alloc: Global,
    calls: &mut Calls,
    number: u64,
    pre_release: Vec<Identifier>,
    build: Vec<Identifier>,
) -> Result<(), AllocError> {
    match calls.made(Version::new(alloc, number, number, number, pre_release, build)) {
        Ok(version) => versions::ask_about(alloc, calls, version, WORDS),
        Err(_) => Err(AllocError),
    }
}

// The list of a number, or an empty one.
fn list(alloc: Global, number: u64, there: bool) -> Result<Vec<Identifier>, AllocError> {
    let mut list = Vec::new(alloc);
    if there {
        list.push(Identifier::Numeric(number))?;
    }
    Ok(list)
}
