// Ranges that are made of intervals.

use super::prints;
use nodejs_semver::cuts::{Bound, Interval};
use nodejs_semver::{Identifier, Range, Version};
use std::alloc::Global;

// The list of the interval from a version on.
fn from_version(alloc: Global, version: Version) -> Option<Vec<Interval<Version>>> {
    match Interval::new(Bound::Before(version), Bound::Unbounded) {
        Some(interval) => vec![in alloc; interval].ok(),
        None => None,
    }
}

// Whether the range of these intervals prints so.
fn makes(alloc: Global, intervals: Vec<Interval<Version>>, text: &str) -> bool {
    match Range::from_intervals(intervals) {
        Ok(range) => prints(alloc, &range, text),
        Err(_) => false,
    }
}

// Whether no range has these intervals, which are returned.
fn returns_all(intervals: Vec<Interval<Version>>) -> bool {
    let len = intervals.len();
    match Range::from_intervals(intervals) {
        Ok(_) => false,
        Err(returned) => returned.len() == len,
    }
}

fn makes_from(alloc: Global, version: Version, text: &str) -> bool {
    match from_version(alloc, version) {
        Some(intervals) => makes(alloc, intervals, text),
        None => false,
    }
}

fn returns_from(alloc: Global, version: Version) -> bool {
    match from_version(alloc, version) {
        Some(intervals) => returns_all(intervals),
        None => false,
    }
}

// 1.2.3 with a pre-release of this one identifier.
fn with_identifier(alloc: Global, identifier: Identifier) -> Option<Version> {
    match vec![in alloc; identifier] {
        Ok(list) => Version::new(alloc, 1, 2, 3, list, Vec::new(alloc)).ok(),
        Err(_) => None,
    }
}

fn with_text(alloc: Global, text: &str) -> Option<Version> {
    match String::from_str(alloc, text) {
        Ok(text) => with_identifier(alloc, Identifier::AlphaNumeric(text)),
        Err(_) => None,
    }
}

fn returns_text(alloc: Global, text: &str) -> bool {
    match with_text(alloc, text) {
        Some(version) => returns_from(alloc, version),
        None => false,
    }
}

#[test]
fn identifiers_are_spelled_by_their_texts(rt: HostRuntime) {
    assert!(rt; returns_text(rt.alloc(), "12"));
    assert!(rt; returns_text(rt.alloc(), "a.b"));
    assert!(rt; !returns_text(rt.alloc(), "a12"));
}

#[test]
fn ranges_have_their_intervals(rt: HostRuntime) {
    let great = Version::from((9_007_199_254_740_992u64, 0, 0));
    assert!(rt; makes_from(rt.alloc(), great, ">=9007199254740992.0.0"));
    let greater = Version::from((1u64, 9_007_199_254_740_993, 0));
    assert!(rt; returns_from(rt.alloc(), greater));
    assert!(rt; returns_all(Vec::new(rt.alloc())));
}
