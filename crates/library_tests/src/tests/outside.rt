// Sides of a range. The program's lines `out` ask with pre-releases excluded.

use super::prints;
use nodejs_semver::{OutsideDirection, Range, RangeError, Version};
use std::alloc::Global;

// A range, a version that lies outside it only with pre-releases excluded, and the side.
const BY_THE_FLAG: &[(&str, &str, OutsideDirection)] = &[
    ("0.7.x", "0.7.2-beta", OutsideDirection::Higher),
    (">1.2.3", "1.3.0-alpha", OutsideDirection::Lower),
];

fn is_outside_by_the_flag(range: &Range, version: &Version, direction: OutsideDirection) -> bool {
    range.outside(version, direction, false) == Ok(true)
        && range.outside(version, direction, true) == Ok(false)
}

fn range_decides(alloc: Global, range: &str, version: &Version, side: OutsideDirection) -> bool {
    match Range::parse(alloc, range) {
        Ok(range) => is_outside_by_the_flag(&range, version, side),
        Err(_) => false,
    }
}

fn flag_decides(alloc: Global, range: &str, version: &str, side: OutsideDirection) -> bool {
    match Version::parse(alloc, version) {
        Ok(version) => range_decides(alloc, range, &version, side),
        Err(_) => false,
    }
}

#[test]
fn outside_counts_pre_releases_by_the_flag(rt: HostRuntime) {
    for &(range, version, side) in BY_THE_FLAG {
        assert!(rt; flag_decides(rt.alloc(), range, version, side), "{range}");
    }
}

const SIGNS: &[(OutsideDirection, &str, char)] = &[
    (OutsideDirection::Higher, ">", '>'),
    (OutsideDirection::Lower, "<", '<'),
];

#[test]
fn direction_prints_its_sign(rt: HostRuntime) {
    for &(direction, text, _) in SIGNS {
        assert!(rt; prints(rt.alloc(), &direction, text), "{text}");
    }
}

#[test]
fn direction_try_from_reads_its_sign(rt: HostRuntime) {
    for &(direction, text, sign) in SIGNS {
        assert!(rt; OutsideDirection::try_from(sign) == Ok(direction), "{text}");
    }
    let refused = OutsideDirection::try_from('=');
    assert!(rt; refused == Err(RangeError::InvalidOutsideDirection('=')));
}
