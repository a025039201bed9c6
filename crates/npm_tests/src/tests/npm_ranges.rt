// Range texts as node-semver's strict reading has them. The expected answers are those of
// node-semver.

ghost use Rattle.std.specs.Prelude.{◌≡◌, ◌⊎◌, IfOk, List, false};
ghost use Rattle.nodejs_semver.specs.Failures.{NoValue, RefusedOnlyIf};
ghost use Rattle.npm_words.specs.Alternatives.{HasAlternativesIn, accepts};
ghost use Rattle.npm_words.specs.Table.{Comparison};
ghost use Rattle.nodejs_semver.specs.Parsing.{Parses};
ghost use Rattle.nodejs_semver.specs.Versions.{VersionValue};

use super::prints;
use nodejs_semver::{Failure, MAX_SAFE_INTEGER, SemverError, VersionRef};
use npm_reading::Reading;
use std::alloc::Global;

// Whether a range text is read, and not rejected.
fn is_range(alloc: Global, text: &str) -> bool {
    let included = Reading {
        include_prerelease: true,
        ..Reading::default()
    };
    npm_reading::range(alloc, text, Reading::default()).is_ok()
        && npm_reading::range(alloc, text, included).is_ok()
}

// Whether the range of a text accepts the version of another.
fn admits(
    alloc: Global,
    include: bool,
    range: &str,
    version: &str,
) -> Result<bool, Failure<SemverError>>
    ensures ok { IfOk result (λ answer. (a : List (List Comparison)) × (v : VersionValue)
        × HasAlternativesIn false MAX_SAFE_INTEGER include range.now a
        × Parses MAX_SAFE_INTEGER version.now v × (answer ≡ accepts include a v)) }
    ensures refused { RefusedOnlyIf result
        (NoValue (HasAlternativesIn false MAX_SAFE_INTEGER include range.now)
        ⊎ NoValue (Parses MAX_SAFE_INTEGER version.now)) }
{
    let strict = Reading {
        loose: false,
        include_prerelease: include,
    };
    let range = npm_reading::range(alloc, range, strict)?;
    let version = VersionRef::parse(version)?;
    Ok(range.satisfies_with_prerelease(&version, include))
}

// Texts, without pre-releases included, with a version that the range accepts and one that it does
// not.
const READ: &[(&str, &str, &str)] = &[
    ("1 - x", "9.9.9", "0.9.9"),
    ("1  -  2", "2.9.9", "3.0.0"),
    ("1.2.3 - 2", "1.2.3", "1.2.2"),
    ("^*", "0.0.0", "1.0.0-a"),
    ("> =1", "1.0.0", "0.9.9"),
    ("~> >1", "1.9.9", "2.0.0"),
    ("==1", "1.9.9", "2.0.0"),
    (">=v0.0.0", "0.0.0", "0.0.0-a"),
    (">=0 >=0.0.0-a", "0.0.0-a", "1.0.0-a"),
    ("x.9007199254740992", "9.9.9", "1.0.0-a"),
    ("<9007199254740991.x.x", "9.9.9", "9007199254740991.0.0-a"),
    ("^0.0.3 || ~1.2 || 3.x", "1.2.9", "1.3.0"),
    ("^0.0.3 || ~1.2 || 3.x", "0.0.3", "0.0.4"),
    ("^1.2.3-beta.2", "1.2.3-beta.3", "1.2.4-beta.3"),
    ("=1.2.3-a || 2", "1.2.3-a", "1.2.3"),
    ("* || 1.0.0-a", "1.0.0", "1.0.0-a"),
    ("1.0.0-a ||", "1.0.0", "1.0.0-a"),
    ("||", "0.0.0", "0.0.0-a"),
    ("<=1.2", "1.2.9", "1.3.0"),
    (">1.2", "1.3.0", "1.2.9"),
    ("<1.0.0-0", "0.0.3", "1.0.0-0"),
];

// The same with pre-releases included.
const READ_WITH: &[(&str, &str, &str)] = &[
    ("1.2.3 - 2", "1.2.3-a", "3.0.0-a"),
    ("1.2.3+b - 2", "1.2.3", "1.2.3-a"),
    ("~1", "1.2.3-a", "1.0.0-a"),
    ("^1", "1.0.0-a", "2.0.0-0"),
    ("2 || >2 <1", "2.0.0-a", "1.0.0"),
    (">=0.0.0", "1.0.0-a", "0.0.0-a"),
    ("<=1.2", "0.0.0-a", "1.3.0-a"),
];

// Texts that node-semver rejects. The port reads some words of most.
const REJECTED: &[&str] = &[
    ">=1.0.0, <2.0.0",
    "> = 1",
    "^01.2",
    "1.2.3-01",
    "latest",
    "==1.2.3",
    "v=1.2.3",
    "1 -2",
    "foo || 1",
    ">9007199254740991",
    "^9007199254740991",
    "* || <9007199254740992",
];

fn tells(alloc: Global, include: bool, text: &str, version: &str, wanted: bool) -> bool {
    match admits(alloc, include, text, version) {
        Ok(answer) => answer == wanted,
        Err(_) => false,
    }
}

fn prints_as(alloc: Global, text: &str, printed: &str) -> bool {
    match npm_reading::range(alloc, text, Reading::default()) {
        Ok(range) => prints(alloc, &range, printed),
        Err(_) => false,
    }
}

#[test]
fn ranges_are_read_strictly(rt: HostRuntime) {
    for (text, accepted, rejected) in READ {
        assert!(rt; tells(rt.alloc(), false, text, accepted, true));
        assert!(rt; tells(rt.alloc(), false, text, rejected, false));
    }
    for (text, accepted, rejected) in READ_WITH {
        assert!(rt; tells(rt.alloc(), true, text, accepted, true));
        assert!(rt; tells(rt.alloc(), true, text, rejected, false));
    }
    for text in REJECTED {
        assert!(rt; !is_range(rt.alloc(), text));
    }
}

// Where no version satisfies the comparators of any alternative.
#[test]
fn empty_ranges_print(rt: HostRuntime) {
    assert!(rt; prints_as(rt.alloc(), ">1 <1", "<0.0.0-0"));
    assert!(rt; prints_as(rt.alloc(), "1 2 || >*", "<0.0.0-0"));
    assert!(rt; prints_as(rt.alloc(), "1 2 || 3", ">=3.0.0 <4.0.0-0"));
}
