// Version texts as node-semver's strict reading has them.

ghost use Rattle.std.specs.Prelude.{◌≡◌, IfErr, IfOk};
ghost use Rattle.nodejs_semver.specs.Failures.{NoValue};
ghost use Rattle.npm_words.specs.VersionText.{IsVersionText};
ghost use Rattle.nodejs_semver.specs.Versions.{VersionValue};

use super::{long_text, prints};
use nodejs_semver::{MAX_SAFE_INTEGER, SemverError};
use npm_reading::Reading;
use std::alloc::Global;

// The first number of the version that a text is.
fn major_of(text: &str) -> Result<u64, SemverError>
    ensures ok { IfOk result (λ n. (v : VersionValue)
        × IsVersionText MAX_SAFE_INTEGER text.now v × (n ≡ v.major)) }
    ensures refused { IfErr result (λ _. NoValue (IsVersionText MAX_SAFE_INTEGER text.now)) }
{
    let strict = Reading {
        loose: false,
        include_prerelease: false,
    };
    match npm_reading::version(text, strict) {
        Ok(version) => Ok(version.major()),
        Err(error) => Err(error),
    }
}

// Whether the text is a version.
fn is_version(text: &str) -> bool {
    npm_reading::version(text, Reading::default()).is_ok()
}

// Texts, and what node-semver prints of their versions, with their builds.
const READ: &[(&str, &str)] = &[
    ("1.2.3", "1.2.3"),
    ("v1.2.3", "1.2.3"),
    (" \u{3000}v0.20.0\n", "0.20.0"),
    ("0.0.9007199254740991", "0.0.9007199254740991"),
    ("1.2.3-0.a-1.00a+7.x", "1.2.3-0.a-1.00a+7.x"),
    ("1.2.3--", "1.2.3--"),
];

// Texts of which node-semver reads no version. The port reads a front of most.
const REJECTED: &[&str] = &[
    "",
    "1.2",
    "1.2.x",
    "01.2.3",
    "1.02.3",
    "1.2.00",
    "1.2.3-01",
    "1.2.3-a.00",
    "0.0.9007199254740992",
    "1.2.3beta",
    "V1.2.3",
    "=1.2.3",
    "vv1.2.3",
    "v 1.2.3",
    "1.2.3.4",
    "1.2.3-",
    "1.2.3-a..b",
    "1.2.3+",
    "1.2.3+a+b",
    "1.2.3 4",
];

fn reads_as(alloc: Global, text: &str, printed: &str) -> bool {
    match npm_reading::version(text, Reading::default()) {
        Ok(version) => prints(alloc, &version, printed),
        Err(_) => false,
    }
}

#[test]
fn versions_are_read_strictly(rt: HostRuntime) {
    for (text, printed) in READ {
        assert!(rt; reads_as(rt.alloc(), text, printed));
    }
    for text in REJECTED {
        assert!(rt; !is_version(text));
    }
    assert!(rt; major_of("v20.1.0") == Ok(20));
}

// Whether a text of `1.2.3`, and this character so many times behind it, is a version.
fn is_version_before(alloc: Global, behind: &str, count: usize) -> bool {
    match long_text(alloc, "1.2.3", behind, count) {
        Ok(text) => is_version(text.as_str()),
        Err(_) => false,
    }
}

// 256 characters may stand in a text, which are more bytes here.
#[test]
fn characters_are_counted(rt: HostRuntime) {
    assert!(rt; is_version_before(rt.alloc(), "\u{3000}", 251));
    assert!(rt; !is_version_before(rt.alloc(), "\u{3000}", 252));
    assert!(rt; is_version_before(rt.alloc(), " ", 251));
    assert!(rt; !is_version_before(rt.alloc(), " ", 252));
}

// Texts, and what node-semver's `clean` makes of them, with the build; `-` where that is nothing.
const CLEANED: &[(&str, &str)] = &[
    (" =v1.2.3 ", "1.2.3"),
    ("= v1.2.3", "1.2.3"),
    ("v v1.2.3", "1.2.3"),
    ("v=v=1.2.3-a+b", "1.2.3-a+b"),
    (">1.2.3", "-"),
    ("1.2.3 foo", "-"),
    ("==01.2.3", "-"),
    ("=1.2", "-"),
    ("v", "-"),
    ("", "-"),
];

fn cleans_to(alloc: Global, text: &str, printed: &str) -> bool {
    match npm_reading::clean(text) {
        Ok(version) => prints(alloc, &version, printed),
        Err(_) => printed == "-",
    }
}

// Whether a text of this front, this character so many times and `1.2.3` is one that is cleaned.
fn is_cleaned_behind(alloc: Global, front: &str, between: &str, count: usize) -> bool {
    match long_text(alloc, front, between, count) {
        Ok(text) => cleans(alloc, text),
        Err(_) => false,
    }
}

fn cleans(alloc: Global, mut text: String) -> bool {
    text.push_str("1.2.3").is_ok() && cleans_to(alloc, text.as_str(), "1.2.3")
}

// What is taken off is not counted.
#[test]
fn versions_are_cleaned(rt: HostRuntime) {
    for (text, printed) in CLEANED {
        assert!(rt; cleans_to(rt.alloc(), text, printed));
    }
    assert!(rt; is_cleaned_behind(rt.alloc(), "", "=", 300));
    assert!(rt; is_cleaned_behind(rt.alloc(), "", " ", 300));
    assert!(rt; !is_cleaned_behind(rt.alloc(), "=", " ", 300));
}

// Texts, and the builds of their versions as node-semver keeps them, with dots between their
// identifiers: in the strict reading, and in the loose one.
const BUILDS: &[(&str, Option<&str>, Option<&str>)] = &[
    ("1.0.0+01", Some("01"), Some("01")),
    (
        " v1.2.3-rc.1+00.0a.-.007\n",
        Some("00.0a.-.007"),
        Some("00.0a.-.007"),
    ),
    (
        "1.2.3+18446744073709551616",
        Some("18446744073709551616"),
        Some("18446744073709551616"),
    ),
    ("1.2.3-a", Some(""), Some("")),
    ("=v\u{3000}01.2.3beta+00", None, Some("00")),
    ("1.2.3-01", None, Some("")),
    ("1.2.3+", None, None),
    ("1.2.3+a+b", None, None),
    ("+01", None, None),
];

#[test]
fn builds_are_as_written(rt: HostRuntime) {
    let loosely = Reading {
        loose: true,
        include_prerelease: false,
    };
    for &(text, strict, loose) in BUILDS {
        assert!(rt;
            npm_reading::build_text(text, Reading::default()) == strict,
            "{text}"
        );
        assert!(rt; npm_reading::build_text(text, loosely) == loose, "{text}");
    }
}
