// The calls on versions and ranges that borrow their text.

use crate::memory::ample::Calls;
use crate::memory::ranges::OTHERS;
use nodejs_semver::{RangeRef, VersionRef};
use npm_reading::Reading;
use std::alloc::{AllocError, Global};

// A few words of `inc`.
const INCREMENTS: &[&str] = &["major", "prerelease", "premajor"];

/// Makes each call that may allocate on the version that borrows this text.
pub fn ask_version(alloc: Global, calls: &mut Calls, text: &str) -> Result<(), AllocError> {
    match calls.made(VersionRef::parse(text)) {
        Ok(version) => about_version(alloc, calls, &version),
        Err(_) => Ok(()),
    }
}

fn about_version(
    alloc: Global,
    calls: &mut Calls,
    version: &VersionRef<'_>,
) -> Result<(), AllocError> {
    calls.asked(version.to_version(alloc))?;
    calls.asked(version.to_string(alloc))?;
    for &word in INCREMENTS {
        calls.tried(version.inc(alloc, word, Some("beta"), None))?;
    }
    Ok(())
}

/// Makes each call that may allocate on the range that borrows this text.
pub fn ask_range(alloc: Global, calls: &mut Calls, text: &str) -> Result<(), AllocError> {
    calls.tried(npm_reading::range(alloc, text, Reading::default()))?;
    let loosely = Reading {
        loose: true,
        include_prerelease: false,
    };
    calls.tried(npm_reading::range(alloc, text, loosely))?;
    match calls.answered(RangeRef::parse(alloc, text)) {
        Ok(Some(range)) => about(alloc, calls, &range),
        Ok(None) => Ok(()),
        Err(error) => Err(error),
    }
}

// Makes each call that may allocate on a range.
fn about<'a>(alloc: Global, calls: &mut Calls, range: &RangeRef<'a>) -> Result<(), AllocError> {
    calls.asked(range.to_range(alloc))?;
    calls.asked(range.to_string(alloc))?;
    calls.found(range.min_version(alloc))?;
    calls.found(range.min_version_with_prerelease(alloc))?;
    for &other in OTHERS {
        beside(alloc, calls, range, other)?;
    }
    Ok(())
}

// Makes each call that may allocate on two ranges, in both orders.
fn beside<'a>(
    alloc: Global,
    calls: &mut Calls,
    one: &RangeRef<'a>,
    other: &'a str,
) -> Result<(), AllocError> {
    match calls.answered(RangeRef::parse(alloc, other)) {
        Ok(Some(other)) => both_orders(alloc, calls, one, &other),
        Ok(None) => Ok(()),
        Err(error) => Err(error),
    }
}

fn both_orders<'a>(
    alloc: Global,
    calls: &mut Calls,
    one: &RangeRef<'a>,
    other: &RangeRef<'a>,
) -> Result<(), AllocError> {
    pair(alloc, calls, one, other)?;
    pair(alloc, calls, other, one)
}

// Makes each call on two ranges.
fn pair<'a>(
    alloc: Global,
    calls: &mut Calls,
    one: &RangeRef<'a>,
    other: &RangeRef<'a>,
) -> Result<(), AllocError> {
    calls.found(one.intersect(alloc, other))?;
    calls.found(one.difference(alloc, other))?;
    calls.asked(one.union(alloc, other))?;
    calls.found(one.least_beyond(alloc, other))
}
