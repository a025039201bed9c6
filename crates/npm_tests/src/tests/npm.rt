// The sides of a range by name.

use nodejs_semver::{Range, Version};
use std::alloc::Global;

fn lies(range: &Range, version: &Version, above: bool, below: bool) -> bool {
    npm_reading::gtr(version, range, false) == above
        && npm_reading::ltr(version, range, false) == below
}

fn version_lies(alloc: Global, range: &Range, version: &str, above: bool, below: bool) -> bool {
    match Version::parse(alloc, version) {
        Ok(version) => lies(range, &version, above, below),
        Err(_) => false,
    }
}

fn stands(alloc: Global, range: &str, version: &str, above: bool, below: bool) -> bool {
    match Range::parse(alloc, range) {
        Ok(range) => version_lies(alloc, &range, version, above, below),
        Err(_) => false,
    }
}

const SIDES: &[(&str, &str, bool, bool)] = &[
    ("^1.2", "2.0.0", true, false),
    ("^1.2", "1.1.9", false, true),
    ("^1.2", "1.3.0", false, false),
    // It lies within the interval and is not accepted, so it is outside on both sides.
    ("0.7.x", "0.7.2-beta", true, true),
];

#[test]
fn sides_by_name(rt: HostRuntime) {
    for &(range, version, above, below) in SIDES {
        assert!(rt;
            stands(rt.alloc(), range, version, above, below),
            "{range}, {version}"
        );
    }
}
