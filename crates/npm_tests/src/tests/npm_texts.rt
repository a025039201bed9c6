// Version texts as node-semver's loose reading has them, and the versions that its `coerce` finds.
// The expected answers are those of node-semver.

ghost use Rattle.std.specs.Prelude.{◌≡◌, IfErr, IfOk};
ghost use Rattle.nodejs_semver.specs.Failures.{NoValue};
ghost use Rattle.npm_words.specs.VersionText.{IsLooseVersionText};
ghost use Rattle.nodejs_semver.specs.Versions.{VersionValue};

use super::{found_prints, prints};
use nodejs_semver::{MAX_SAFE_INTEGER, SemverError, VersionRef};
use npm_reading::{Coercion, Reading};
use std::alloc::{AllocError, Global};

const LOOSELY: Reading = Reading {
    loose: true,
    include_prerelease: false,
};

// The first number of the version that a text is, read loosely.
fn major_of(text: &str) -> Result<u64, SemverError>
    ensures ok { IfOk result (λ n. (v : VersionValue)
        × IsLooseVersionText MAX_SAFE_INTEGER text.now v × (n ≡ v.major)) }
    ensures refused { IfErr result (λ _. NoValue (IsLooseVersionText MAX_SAFE_INTEGER text.now)) }
{
    let loose = Reading {
        loose: true,
        include_prerelease: false,
    };
    match npm_reading::version(text, loose) {
        Ok(version) => Ok(version.major()),
        Err(error) => Err(error),
    }
}

// Texts, and what node-semver prints of their versions, with their builds.
const LOOSE: &[(&str, &str)] = &[
    ("1.2.3", "1.2.3"),
    (" = v01.02.003 ", "1.2.3"),
    ("v\u{3000}=v1.2.3\n", "1.2.3"),
    ("1.2.3beta", "1.2.3-beta"),
    ("1.2.3-01", "1.2.3-1"),
    ("1.2.3-", "1.2.3--"),
    ("1.2.3-.5", "1.2.3--.5"),
    ("1.2.3--", "1.2.3--"),
    ("1.2.34.5", "1.2.3-4.5"),
    ("1.2.90071992547409913.a", "1.2.9007199254740991-3.a"),
    ("1.2.30a.b+c", "1.2.30-a.b+c"),
    ("0.0.9007199254740991", "0.0.9007199254740991"),
];

// Texts of which node-semver reads no version, loose or not.
const REJECTED: &[&str] = &[
    "",
    "=",
    "1.2",
    "1.2.x",
    "^1.2.3",
    "V1.2.3",
    "1 .2.3",
    "1.2.3=",
    "1.2.3 4",
    "1.2.3.4",
    "1.2.34.",
    "1.2.3+",
    "1.2.3a..b",
    "0.0.9007199254740992",
    "1.2.90071992547409921.a",
];

fn reads_as(alloc: Global, text: &str, printed: &str) -> bool {
    match npm_reading::version(text, LOOSELY) {
        Ok(version) => prints(alloc, &version, printed),
        Err(_) => false,
    }
}

#[test]
fn versions_are_read_loosely(rt: HostRuntime) {
    for (text, printed) in LOOSE {
        assert!(rt; reads_as(rt.alloc(), text, printed));
    }
    for text in REJECTED {
        assert!(rt; npm_reading::version(text, LOOSELY).is_err());
    }
    assert!(rt; major_of("= 020.1.0") == Ok(20));
}

// Whether `coerce` finds a version in a text.
fn is_found(text: &str) -> bool {
    npm_reading::coerce(text).is_some()
}

// Texts, and what node-semver prints of the version that it finds from the left and from the right;
// `-` where it finds none.
const FOUND: &[(&str, &str, &str)] = &[
    ("node-20.11 (LTS)", "20.11.0", "20.11.0"),
    ("v1.2-rc.3", "1.2.0", "3.0.0"),
    ("1.2.3-4.5", "1.2.3", "4.5.0"),
    ("1.2.3.4", "1.2.3", "2.3.4"),
    ("1.2.3.4.5", "1.2.3", "3.4.5"),
    ("app-2 1.4.0", "2.0.0", "1.4.0"),
    ("..1..2", "1.0.0", "2.0.0"),
    ("x1y2z3", "1.0.0", "3.0.0"),
    ("1.2.", "1.2.0", "1.2.0"),
    ("1.2.3.04", "1.2.3", "-"),
    ("01.2", "-", "-"),
    (
        "1234567890123456.1",
        "1234567890123456.1.0",
        "1234567890123456.1.0",
    ),
    ("12345678901234567.1.2", "1.2.0", "1.2.0"),
    ("1.12345678901234567.3", "1.0.0", "3.0.0"),
    ("9007199254740992", "-", "-"),
    ("1.2.9007199254740992", "-", "-"),
    ("", "-", "-"),
    ("no number", "-", "-"),
];

// The same where node-semver is loose, for texts with leading zeros.
const FOUND_LOOSELY: &[(&str, &str, &str)] = &[
    ("01.2", "1.2.0", "1.2.0"),
    ("1.2.3.04", "1.2.3", "2.3.4"),
    ("a01.02.03b", "1.2.3", "1.2.3"),
    ("9007199254740992", "-", "-"),
];

// The same with pre-releases included.
const FOUND_WITH_PRERELEASE: &[(&str, &str, &str)] = &[
    ("v1.2-rc.3+b.4 (LTS)", "1.2.0-rc.3+b.4", "1.2.0-rc.3+b.4"),
    ("1.2.3.4-rc", "1.2.3", "2.3.4-rc"),
    ("app-2 1.4.0-b.1", "2.0.0", "1.4.0-b.1"),
    ("2 1-2.3", "2.0.0", "1.0.0-2.3"),
    ("1+2+3", "1.0.0+2", "2.0.0+3"),
    ("1.2.3-a..b", "1.2.3-a", "1.2.3-a"),
    ("1.2.3-a.01+b", "1.2.3-a", "-"),
    ("1.2.3-01+b", "1.2.3", "-"),
    ("1-2.01", "1.0.0-2", "-"),
    ("1.2.3-+b", "1.2.3", "1.2.3"),
    ("1.2.3--", "1.2.3--", "1.2.3--"),
    ("01.2-a", "-", "-"),
    ("", "-", "-"),
];

const FOUND_LOOSELY_WITH_PRERELEASE: &[(&str, &str, &str)] = &[
    ("01.2-a", "1.2.0-a", "1.2.0-a"),
    ("1-2.01", "1.0.0-2", "2.1.0"),
    ("1.2.3-01+b", "1.2.3", "1.0.0+b"),
];

fn finds(alloc: Global, found: Option<VersionRef<'_>>, printed: &str) -> bool {
    if printed == "-" {
        found.is_none()
    } else {
        found_prints(alloc, found, printed)
    }
}

// Whether these are the versions that are found in a text by these options, from the left and from
// the right.
fn finds_both(alloc: Global, text: &str, options: Coercion, first: &str, last: &str) -> bool {
    let found = npm_reading::coerce_with(text, options);
    let found_last = npm_reading::coerce_with(
        text,
        Coercion {
            rtl: true,
            ..options
        },
    );
    finds(alloc, found, first) && finds(alloc, found_last, last)
}

#[test]
fn pre_releases_are_found_in_texts(rt: HostRuntime) -> Result<(), AllocError> {
    let alloc = rt.alloc();
    let strict = Coercion {
        include_prerelease: true,
        ..Coercion::default()
    };
    let loose = Coercion {
        loose: true,
        ..strict
    };
    for (text, first, last) in FOUND_WITH_PRERELEASE {
        assert!(rt; finds_both(alloc, text, strict, first, last));
    }
    for (text, first, last) in FOUND_LOOSELY_WITH_PRERELEASE {
        assert!(rt; finds_both(alloc, text, loose, first, last));
    }
    let longest = format!(in alloc; "1-{}", "a".repeat(alloc, 250)?)?;
    assert!(rt; npm_reading::coerce_with(longest.as_str(), strict).is_some());
    let too_long = format!(in alloc; "{longest}a")?;
    assert!(rt; npm_reading::coerce_with(too_long.as_str(), strict).is_none());
    Ok(())
}

#[test]
fn versions_are_found_in_texts(rt: HostRuntime) {
    let loose = Coercion {
        loose: true,
        ..Coercion::default()
    };
    for (text, first, last) in FOUND {
        assert!(rt; finds(rt.alloc(), npm_reading::coerce(text), first));
        assert!(rt; finds_both(rt.alloc(), text, Coercion::default(), first, last));
    }
    for (text, first, last) in FOUND_LOOSELY {
        assert!(rt; finds_both(rt.alloc(), text, loose, first, last));
    }
    assert!(rt; is_found("about 1.5 s"));
    assert!(rt; !is_found("about 01.5 s"));
}
