// The examples in the comments of the library: `tools/readme --check` compares them.

use nodejs_semver::cuts::{Bound, Interval};
use nodejs_semver::diagnosis::{
    Expected, IgnoredKind, IgnoredWord, VersionFlaw, ignored_words, version_flaw,
};
use nodejs_semver::{Failure, Range, Version, VersionRef, newest_release};
use std::test::Fail;

#[test]
fn range_parse(rt: HostRuntime) -> Result<(), Fail> {
    let alloc = rt.alloc();
    let range = Range::parse(alloc, "^1.2 || 3.0.0-rc.1")?;
    assert!(rt; range == Range::parse(alloc, ">=1.2.0 <2.0.0-0 || =v3.0.0-rc.1")?);
    assert!(rt; Range::parse(alloc, "latest").is_err());
    Ok(())
}

#[test]
fn intersect(rt: HostRuntime) -> Result<(), Fail> {
    let alloc = rt.alloc();
    let one = Range::parse(alloc, ">=1.2.3-a")?;
    let other = Range::parse(alloc, ">=1.0.0")?;
    // It accepts 1.2.3-a, which the second range does not accept.
    assert!(rt; one.intersect(alloc, &other) == Ok(Some(one)));
    Ok(())
}

#[test]
fn difference(rt: HostRuntime) -> Result<(), Fail> {
    let alloc = rt.alloc();
    let one = Range::parse(alloc, "^1.2")?;
    let other = Range::parse(alloc, "1.5.0")?;
    let left = Range::parse(alloc, ">=1.2.0 <1.5.0 || >1.5.0 <2.0.0-0").ok();
    assert!(rt; one.difference(alloc, &other) == Ok(left));
    Ok(())
}

#[test]
fn max_satisfying(rt: HostRuntime) -> Result<(), Fail> {
    let alloc = rt.alloc();
    let range = Range::parse(alloc, "^1")?;
    let versions = [Version::from((1u64, 2, 0)), Version::from((2u64, 0, 0))];
    assert!(rt; range.max_satisfying(&versions) == Some(&versions[0]));
    Ok(())
}

#[test]
fn min_satisfying(rt: HostRuntime) -> Result<(), Fail> {
    let alloc = rt.alloc();
    let range = Range::parse(alloc, ">1.0.0")?;
    let versions = [Version::from((1u64, 0, 0)), Version::from((1u64, 2, 0))];
    assert!(rt; range.min_satisfying(&versions) == Some(&versions[1]));
    Ok(())
}

#[test]
fn is_new_max(rt: HostRuntime) -> Result<(), Fail> {
    let alloc = rt.alloc();
    let range = Range::parse(alloc, "^1")?;
    let mut best = None;
    for (major, minor) in [(1u64, 2), (1, 4), (2, 0), (1, 3)] {
        let version = Version::from((major, minor, 0));
        if range.is_new_max(&version, best.as_ref()) {
            best = Some(version);
        }
    }
    assert!(rt; best == Some(Version::from((1u64, 4, 0))));
    Ok(())
}

#[test]
fn is_new_min(rt: HostRuntime) -> Result<(), Fail> {
    let alloc = rt.alloc();
    let range = Range::parse(alloc, "^1")?;
    let best = Version::from((1u64, 4, 0));
    assert!(rt; range.is_new_min(&Version::from((1u64, 2, 0)), Some(&best)));
    Ok(())
}

#[test]
fn max_satisfying_all(rt: HostRuntime) -> Result<(), Fail> {
    let alloc = rt.alloc();
    let versions = [VersionRef::parse("1.3.0")?, VersionRef::parse("1.5.0")?];
    let ranges = [Range::parse(alloc, "^1.2")?, Range::parse(alloc, "<1.4")?];
    assert!(rt; Range::max_satisfying_all(&ranges, &versions) == Some(&versions[0]));
    Ok(())
}

#[test]
fn the_newest_release(rt: HostRuntime) -> Result<(), Fail> {
    let versions = [
        VersionRef::parse("1.2.0")?,
        VersionRef::parse("2.0.0-rc.1")?,
    ];
    assert!(rt; newest_release(&versions) == Some(&versions[0]));
    Ok(())
}

#[test]
fn refused_as_none(rt: HostRuntime) -> Result<(), Fail> {
    let alloc = rt.alloc();
    let range = Failure::refused_as_none(Range::parse(alloc, "next"))?;
    assert!(rt; range.is_none());
    Ok(())
}

#[test]
fn min_version(rt: HostRuntime) -> Result<(), Fail> {
    let alloc = rt.alloc();
    let range = Range::parse(alloc, ">1.0.0 <1.0.1-5")?;
    let smallest = Version::parse(alloc, "1.0.1-0").ok();
    assert!(rt; range.min_version(alloc) == Ok(smallest));
    Ok(())
}

#[test]
fn least_beyond(rt: HostRuntime) -> Result<(), Fail> {
    let alloc = rt.alloc();
    let wide = Range::parse(alloc, "^1")?;
    let narrow = Range::parse(alloc, "^1.2")?;
    let smallest = Some(Version::from((1u64, 0, 0)));
    assert!(rt; wide.least_beyond(alloc, &narrow) == Ok(smallest));
    assert!(rt; narrow.least_beyond(alloc, &wide) == Ok(None));
    Ok(())
}

#[test]
fn least_of_all(rt: HostRuntime) -> Result<(), Fail> {
    let alloc = rt.alloc();
    let ranges = [
        Range::parse(alloc, ">=1.2.3-a")?,
        Range::parse(alloc, ">=1.0.0")?,
    ];
    let least = Some(Version::from((1u64, 2, 3)));
    assert!(rt; Range::least_of_all(alloc, &ranges) == Ok(least));
    Ok(())
}

#[test]
fn min_version_with_prerelease(rt: HostRuntime) -> Result<(), Fail> {
    let alloc = rt.alloc();
    let range = Range::parse(alloc, ">1.0.0 <1.0.1-0")?;
    assert!(rt; range.min_version_with_prerelease(alloc) == Ok(None));
    let range = Range::parse(alloc, ">1.0.0")?;
    let first = Version::parse(alloc, "1.0.1-0").ok();
    assert!(rt; range.min_version_with_prerelease(alloc) == Ok(first));
    Ok(())
}

#[test]
fn version_flaws(rt: HostRuntime) {
    assert!(rt; version_flaw("1.2.3-rc.1").is_none());
    assert!(rt; version_flaw("5.0.0.9 oops") == Some(VersionFlaw::Ignored { at: 5 }));
    let what = Expected::Digit;
    assert!(rt; version_flaw("1.x") == Some(VersionFlaw::Expected { what, at: 2 }));
}

#[test]
fn ignored_range_words(rt: HostRuntime) {
    let mut words = ignored_words(">=1.0.0, <2.0.0");
    let (start, end, kind) = (0, 8, IgnoredKind::Malformed);
    assert!(rt; words.next() == Some(IgnoredWord { start, end, kind }));
    assert!(rt; words.next().is_none());
}

#[test]
fn union(rt: HostRuntime) -> Result<(), Fail> {
    let alloc = rt.alloc();
    let one = Range::parse(alloc, "^1.2")?;
    let other = Range::parse(alloc, ">=2.0.0-rc.1 || ~1.4")?;
    let either = Range::parse(alloc, "^1.2 || >=2.0.0-rc.1 || ~1.4").ok();
    assert!(rt; one.union(alloc, &other).ok() == either);
    Ok(())
}

#[test]
fn is_subset(rt: HostRuntime) -> Result<(), Fail> {
    let alloc = rt.alloc();
    let narrow = Range::parse(alloc, ">=1 <3")?;
    let wide = Range::parse(alloc, "1 || 2")?;
    assert!(rt; narrow.is_subset(alloc, &wide) == Ok(true));
    Ok(())
}

#[test]
fn simplify(rt: HostRuntime) -> Result<(), Fail> {
    let alloc = rt.alloc();
    let versions = [VersionRef::parse("2.1.0")?];
    let range = Range::parse(alloc, "^1 || ^2 || ^3")?;
    let simple = range.simplify(alloc, &versions).ok();
    assert!(rt; simple == Range::parse(alloc, "^2").ok());
    Ok(())
}

#[test]
fn least_start(rt: HostRuntime) -> Result<(), Fail> {
    let alloc = rt.alloc();
    let range = Range::parse(alloc, "^2.1 || ^1.2.3")?;
    assert!(rt; range.least_start() == Some(&Version::from((1u64, 2, 3))));
    Ok(())
}

#[test]
fn from_intervals(rt: HostRuntime) -> Result<(), Fail> {
    let alloc = rt.alloc();
    let lower = Bound::Before(Version::from((1u64, 2, 0)));
    let upper = Bound::Before(Version::with_pre(alloc, 2, 0, 0, 0)?);
    let mut intervals = Vec::new(alloc);
    if let Some(interval) = Interval::new(lower, upper) {
        intervals.push(interval)?;
    }
    let range = Range::from_intervals(intervals).ok();
    assert!(rt; range == Range::parse(alloc, "^1.2").ok());
    Ok(())
}
