// Ranges that are asked as they were read. The expected answers are those of node-semver.

use nodejs_semver::VersionRef;
use npm_reading::{ReadRange, Reading};
use std::alloc::Global;
use std::test::Fail;

// Whether the range of a text, so read, accepts the version of another.
fn admits(alloc: Global, reading: Reading, range: &str, version: &str) -> Option<bool> {
    let range = ReadRange::parse(alloc, range, reading).ok()?;
    let version = npm_reading::version(version, Reading::default()).ok()?;
    Some(range.satisfies(&version))
}

// Range texts, whether they are read loosely and with pre-releases included, and a version with
// whether it is accepted.
const ASKED: &[(&str, bool, bool, &str, bool)] = &[
    ("^1.2", false, false, "1.3.0-beta", false),
    ("^1.2", false, true, "1.3.0-beta", true),
    ("^1.2", false, true, "2.0.0-0", false),
    ("^1.2.3-beta.2", false, false, "1.2.3-beta.4", true),
    ("* || 1.0.0-a", false, false, "1.0.0-a", false),
    ("* || 1.0.0-a", false, true, "1.0.0-b", true),
    ("==1.2.3beta || ^02.1", true, false, "1.2.3-beta", true),
    ("^01", true, false, "1.0.0-a", false),
    ("^01", true, true, "1.0.0-a", true),
];

#[test]
fn a_range_is_asked_as_it_was_read(rt: HostRuntime) {
    for &(text, loose, include_prerelease, version, accepted) in ASKED {
        let reading = Reading {
            loose,
            include_prerelease,
        };
        assert!(rt; admits(rt.alloc(), reading, text, version) == Some(accepted));
    }
    assert!(rt; admits(rt.alloc(), Reading::default(), "^01", "1.0.0").is_none());
}

#[test]
fn the_best_is_chosen_as_the_range_was_read(rt: HostRuntime) -> Result<(), Fail> {
    let versions = [
        VersionRef::parse("1.3.0-beta")?,
        VersionRef::parse("1.2.0")?,
        VersionRef::parse("2.0.0-0")?,
    ];
    let reading = Reading {
        loose: false,
        include_prerelease: true,
    };
    let range = ReadRange::parse(rt.alloc(), "^1.2", reading)?;
    assert!(rt; range.max_satisfying(&versions) == Some(&versions[0]));
    assert!(rt; range.min_satisfying(&versions) == Some(&versions[1]));
    assert!(rt; range.text() == "^1.2" && range.reading() == reading);
    let range = ReadRange::parse(rt.alloc(), "^1.2", Reading::default())?;
    assert!(rt; range.max_satisfying(&versions) == Some(&versions[1]));
    Ok(())
}
