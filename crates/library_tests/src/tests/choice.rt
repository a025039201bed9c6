// Versions chosen from lists, by one range or by several.

use super::{found_prints, prints};
use nodejs_semver::{Failure, Range, RangeRef, Version, VersionRef, newest_release};
use std::alloc::{AllocError, Global};
use std::test::Fail;

// The greatest of these versions that a range accepts. The versions outlive the text of the range.
fn newest_of<'t>(
    alloc: Global,
    range: &str,
    versions: &[VersionRef<'t>],
) -> Option<VersionRef<'t>> {
    match RangeRef::parse(alloc, range) {
        Ok(range) => range.max_satisfying(versions).map(VersionRef::copy),
        Err(_) => None,
    }
}

fn oldest_of<'t>(
    alloc: Global,
    range: &str,
    versions: &[VersionRef<'t>],
) -> Option<VersionRef<'t>> {
    match RangeRef::parse(alloc, range) {
        Ok(range) => range.min_satisfying(versions).map(VersionRef::copy),
        Err(_) => None,
    }
}

#[test]
fn versions_outlive_the_range(rt: HostRuntime) -> Result<(), Fail> {
    let versions = [VersionRef::parse("1.2.0")?, VersionRef::parse("1.4.0")?];
    assert!(rt; newest_of(rt.alloc(), "^1.0", &versions).as_ref() == Some(&versions[1]));
    assert!(rt; oldest_of(rt.alloc(), "^1.0", &versions).as_ref() == Some(&versions[0]));
    assert!(rt; newest_of(rt.alloc(), "^2.0", &versions).is_none());
    Ok(())
}

#[test]
fn the_newest_release(rt: HostRuntime) -> Result<(), Fail> {
    let versions = [
        VersionRef::parse("1.4.0+a")?,
        VersionRef::parse("1.4.0+b")?,
        VersionRef::parse("2.0.0-rc.1")?,
        VersionRef::parse("1.3.0")?,
    ];
    // Of equal ones it is the last.
    let newest = newest_release(&versions).map(VersionRef::copy);
    assert!(rt; found_prints(rt.alloc(), newest, "1.4.0+b"));
    assert!(rt; newest_release(&[VersionRef::parse("2.0.0-rc.1")?]).is_none());
    Ok(())
}

// The greatest of the versions that both ranges accept.
fn shared(one: &str, other: &str, versions: &[Version], alloc: Global) -> Option<u64> {
    match (RangeRef::parse(alloc, one), RangeRef::parse(alloc, other)) {
        (Ok(one), Ok(other)) => {
            RangeRef::max_satisfying_all(&[one, other], versions).map(|found| found.minor())
        }
        _ => None,
    }
}

#[test]
fn one_version_for_all_ranges(rt: HostRuntime) {
    let versions = [1, 3, 5].map(|minor| Version::from((1u64, minor, 0u64)));
    assert!(rt; shared("^1.2", "<1.4", &versions, rt.alloc()) == Some(3));
    assert!(rt; shared("^1.2", "<1.3", &versions, rt.alloc()).is_none());
}

fn least_prints(alloc: Global, ranges: &[RangeRef<'_>], text: &str) -> bool {
    match RangeRef::least_of_all(alloc, ranges) {
        Ok(Some(version)) => prints(alloc, &version, text),
        _ => false,
    }
}

#[test]
fn least_of_borrowed_ranges(rt: HostRuntime) -> Result<(), Fail> {
    let alloc = rt.alloc();
    let ranges = [
        RangeRef::parse(alloc, ">=1.2.3-a")?,
        RangeRef::parse(alloc, ">=1.0.0")?,
    ];
    assert!(rt; least_prints(alloc, &ranges, "1.2.3"));
    assert!(rt; least_prints(alloc, &[], "0.0.0-0"));
    Ok(())
}

fn copy_prints(alloc: Global, range: &RangeRef<'_>, text: &str) -> bool {
    match range.copy(alloc) {
        Ok(copy) => prints(alloc, &copy, text),
        Err(AllocError) => false,
    }
}

#[test]
fn borrowed_ranges_are_copied(rt: HostRuntime) -> Result<(), Fail> {
    let range = RangeRef::parse(rt.alloc(), ">=1.2.3-a.1 <2.0.0+b || 3.x")?;
    assert!(rt; copy_prints(rt.alloc(), &range, ">=1.2.3-a.1 <2.0.0+b||>=3.0.0 <4.0.0-0"));
    Ok(())
}

#[test]
fn a_refusal_is_none(rt: HostRuntime) -> Result<(), Fail> {
    let alloc = rt.alloc();
    assert!(rt; Failure::refused_as_none(Range::parse(alloc, "next"))?.is_none());
    assert!(rt; Failure::refused_as_none(Range::parse(alloc, "^1"))?.is_some());
    Ok(())
}
