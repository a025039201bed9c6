// The fast reader: which texts it returns a version for, and that `parse` reads every text as
// before.

use super::{found_prints, long_text};
use semver_core::Version;
use semver_core::readers::{version_fast, version_loose};
use std::alloc::Global;
use std::test::Fail;

// Common texts, and how their versions print.
const COMMON: &[(&str, &str)] = &[
    ("1.2.3", "1.2.3"),
    ("v1.2.3", "1.2.3"),
    ("01.002.3", "1.2.3"),
    ("1.2.3-alpha.1", "1.2.3-alpha.1"),
    ("1.2.3+build.7", "1.2.3+build.7"),
    ("1.2.3-alpha.1+build.7", "1.2.3-alpha.1+build.7"),
    ("1.2.3beta", "1.2.3-beta"),
    ("1.2.3a+b", "1.2.3-a+b"),
    ("1.2.3--", "1.2.3--"),
    ("9007199254740991.0.0", "9007199254740991.0.0"),
    ("1.2.3-18446744073709551615", "1.2.3-18446744073709551615"),
    ("1.2.3-18446744073709551616", "1.2.3-18446744073709551616"),
];

// Other texts, and how the versions at their fronts print.
const LOOSE: &[(&str, &str)] = &[
    ("1.2.3.4", "1.2.3"),
    ("V1.2.3", "1.2.3"),
    (" 1.2.3", "1.2.3"),
    ("v 1.2.3", "1.2.3"),
    ("1.2.3-", "1.2.3"),
    ("1.2.3+", "1.2.3"),
    ("1.2.3-+b", "1.2.3"),
    ("1.2.3+a+b", "1.2.3+a"),
    ("1.2.3-a..b", "1.2.3-a"),
    ("1.2.3-a+", "1.2.3-a"),
    ("1.2.3 ", "1.2.3"),
    ("1.2.3-a\u{141}", "1.2.3-a"),
];

// Texts without a version.
const NONE: &[&str] = &[
    "",
    "v",
    "1.2",
    "1..3",
    "foo",
    "vv1.2.3",
    "1.2.9007199254740992",
];

// Whether the fast reader returns the version that prints so.
fn reads_fast(alloc: Global, text: &str, printed: &str) -> bool {
    match version_fast(alloc, text) {
        Ok(found) => found_prints(alloc, found, printed),
        Err(_) => false,
    }
}

fn reads_loose(alloc: Global, text: &str, printed: &str) -> bool {
    match version_loose(alloc, text) {
        Ok(found) => found_prints(alloc, found, printed),
        Err(_) => false,
    }
}

fn parses(alloc: Global, text: &str, printed: &str) -> bool {
    found_prints(alloc, Version::parse(alloc, text).ok(), printed)
}

fn is_uncommon(alloc: Global, text: &str) -> bool {
    match version_fast(alloc, text) {
        Ok(None) => true,
        _ => false,
    }
}

fn read_by_both(alloc: Global, text: &str, printed: &str) -> bool {
    reads_fast(alloc, text, printed) && reads_loose(alloc, text, printed)
}

fn read_by_the_loose_one(alloc: Global, text: &str, printed: &str) -> bool {
    is_uncommon(alloc, text) && reads_loose(alloc, text, printed)
}

#[test]
fn common_texts_are_read_by_both(rt: HostRuntime) {
    for &(text, printed) in COMMON {
        assert!(rt;
            read_by_both(rt.alloc(), text, printed) && parses(rt.alloc(), text, printed),
            "{text:?}"
        );
    }
}

#[test]
fn other_texts_are_left_to_the_loose_reader(rt: HostRuntime) {
    for &(text, printed) in LOOSE {
        assert!(rt;
            read_by_the_loose_one(rt.alloc(), text, printed) && parses(rt.alloc(), text, printed),
            "{text:?}"
        );
    }
    for &text in NONE {
        assert!(rt; is_uncommon(rt.alloc(), text), "{text:?}");
    }
}

fn long_is_read_by_both(alloc: Global, text: &str) -> bool {
    read_by_both(alloc, text, text) && Version::parse(alloc, text).is_err()
}

// The readers have no limit of length; `parse` has one, which the text of 257 bytes exceeds.
#[test]
fn long_texts_are_read_by_both(rt: HostRuntime) -> Result<(), Fail> {
    let text = long_text(rt.alloc(), "1.1.1-", "X", 251)?;
    assert!(rt; long_is_read_by_both(rt.alloc(), &text));
    Ok(())
}
