// Range texts as node-semver has them by its option `loose`. The expected answers are those of
// node-semver.

ghost use Rattle.std.specs.Prelude.{◌≡◌, ◌⊎◌, IfOk, List, true};
ghost use Rattle.nodejs_semver.specs.Failures.{NoValue, RefusedOnlyIf};
ghost use Rattle.npm_words.specs.Alternatives.{HasAlternativesIn, accepts};
ghost use Rattle.npm_words.specs.Table.{Comparison};
ghost use Rattle.nodejs_semver.specs.Parsing.{Parses};
ghost use Rattle.nodejs_semver.specs.Versions.{VersionValue};

use nodejs_semver::{Failure, MAX_SAFE_INTEGER, SemverError, VersionRef};
use npm_reading::Reading;
use std::alloc::Global;

// Without pre-releases included.
const LOOSELY: Reading = Reading {
    loose: true,
    include_prerelease: false,
};

// Whether the range of a text accepts the version of another.
fn admits(
    alloc: Global,
    include: bool,
    range: &str,
    version: &str,
) -> Result<bool, Failure<SemverError>>
    ensures ok { IfOk result (λ answer. (a : List (List Comparison)) × (v : VersionValue)
        × HasAlternativesIn true MAX_SAFE_INTEGER include range.now a
        × Parses MAX_SAFE_INTEGER version.now v × (answer ≡ accepts include a v)) }
    ensures refused { RefusedOnlyIf result
        (NoValue (HasAlternativesIn true MAX_SAFE_INTEGER include range.now)
        ⊎ NoValue (Parses MAX_SAFE_INTEGER version.now)) }
{
    let reading = Reading {
        loose: true,
        include_prerelease: include,
    };
    let range = npm_reading::range(alloc, range, reading)?;
    let version = VersionRef::parse(version)?;
    Ok(range.satisfies_with_prerelease(&version, include))
}

// `1.2.3beta.` and the number 1 with 134 zeros in front of it.
const LONG_PRE_RELEASE: &str = "1.2.3beta.0000000000000000000000000000000000000000000000000000000\
    00000000000000000000000000000000000000000000000000000000000000000000000000000001";

// Texts that the strict reading rejects, without pre-releases included, with a version that the
// range accepts and one that it does not.
const READ: &[(&str, &str, &str)] = &[
    ("==1.2.3", "1.2.3", "1.2.4"),
    ("=v=1.2.3+b", "1.2.3", "1.2.4"),
    (">=vv1.2.3", "1.2.3", "1.2.2"),
    ("v=1.2.3 || 2", "2.9.9", "1.2.4"),
    ("01.02.03", "1.2.3", "1.2.4"),
    ("^01.2", "1.9.0", "2.0.0"),
    ("x.01", "9.9.9", "1.0.0-a"),
    ("1 - 02", "2.9.9", "3.0.0"),
    ("1.2.3beta", "1.2.3-beta", "1.2.3"),
    ("~1.2.3beta.01", "1.2.3-beta.1", "1.2.3-beta.0"),
    ("^0.0.3a", "0.0.3-b", "0.0.4"),
    ("1.2.3rc1 - 1.3", "1.2.3-rc2", "1.4.0"),
    ("1.x.xa", "1.9.9", "2.0.0"),
    ("< =2.0.0-01", "2.0.0-1", "2.0.0-2"),
    (">=0.0.0 || 1.0.0a", "1.0.0", "1.0.0-a"),
    (">=1.0.0, <2.0.0", "0.5.0", "2.0.0"),
    ("1 - ==2.0.0", "2.0.0", "2.0.1"),
    ("=v1.2.3 - vv2.0.0", "2.0.0", "1.2.2"),
    ("foo 1.2.3", "1.2.3", "1.2.4"),
    ("1.2.3 , foo <(2) || 3", "3.1.0", "1.2.4"),
    ("1.2.3\t@a/b", "1.2.3", "1.2.4"),
    ("* foo", "1.2.3", "1.2.3-a"),
    ("* && <2.0.0-b", "2.0.0-a", "2.0.0-b"),
    (".5 v1, ~1.2", "1.2.9", "1.3.0"),
    ("latest || 1", "1.2.9", "2.0.0"),
    ("1||@next || foo,", "1.2.9", "1.2.9-a"),
    ("-1 1.2.3 x|2, --", "1.2.3", "1.2.4"),
    ("| 1.2 -1.0.0", "1.2.9", "1.3.0"),
    ("foo *", "1.2.3", "1.2.3-a"),
    ("foo bar || 1", "1.2.9", "2.0.0"),
    ("foo >=0", "0.0.0", "0.0.0-a"),
    ("foo x bar || 1.2", "1.2.3", "1.3.0"),
    ("foo >=0 bar || 1.0.0-a", "1.0.0", "1.0.0-a"),
    ("foo *.1 || 1", "2.0.0", "1.0.0-a"),
    ("1.2.3.4 1", "1.2.9", "2.0.0"),
    (">=1.0.0.0 <2 || v1.2.x.4-a", "1.9.9", "2.0.0"),
    ("1.2- 1", "1.9.9", "2.0.0"),
    (">=2.0-beta.1 || ^1.0.0 ^1.beta", "1.9.9", "2.0.0"),
    ("a* 1", "1.9.9", "2.0.0"),
    ("1.00.0", "1.0.0", "1.0.1"),
    ("^1.00 || ~2.000.01", "2.0.1", "2.1.0"),
    ("x.00 <2", "1.9.9", "2.0.0"),
    ("0.00.1", "0.0.1", "0.0.2"),
    ("00.1.2 || v0.00", "0.0.9", "0.1.0"),
    ("^00.1.2", "0.9.0", "1.0.0"),
    ("^0.00.3", "0.0.9", "0.1.0"),
    ("^v00.1", "0.9.0", "1.0.0"),
    ("~0.0.00", "0.0.9", "0.1.0"),
    (">=00 || 1.0.0-a", "1.0.0-a", "1.0.0-b"),
    ("1.2.34.5", "1.2.3-4.5", "1.2.34"),
    ("^1.2.10.5-a || 3", "1.2.1-0.5-a", "1.2.1-0.5"),
    ("1.2.x4.5", "1.2.9", "1.3.0"),
    ("1.2.x4", "1.2.9", "1.3.0"),
    ("^0.*.X0a-1+b || 3", "3.1.0", "1.0.0"),
    ("1.x.x0.01 - 2.0.x7", "2.0.9", "2.1.0"),
    (
        "1.x.01111111111111111111111111111111111111",
        "1.9.9",
        "2.0.0",
    ),
    (
        "^000000000000000000000000000000000000001.2",
        "1.9.0",
        "2.0.0",
    ),
    (LONG_PRE_RELEASE, "1.2.3-beta.1", "1.2.3-beta"),
    ("1.*, 2.*", "2.9.9", "1.0.0"),
    ("1.2. 1", "1.9.9", "2.0.0"),
    ("1.2.x. 1.x.y 1..2 ~1.2.3-a. ^1", "1.9.9", "2.0.0"),
    ("v 1.2 >v 1.2.3+", "1.2.9", "1.3.0"),
    ("1.2.3 -", "1.2.3", "1.2.4"),
    ("^1 foo= || 2 ^", "2.9.9", "3.0.0"),
    ("foo ^ || 1", "1.2.9", "2.0.0"),
    (">>1 ^~2 =>3 1", "1.9.9", "2.0.0"),
    ("1.2.3-", "1.2.3--", "1.2.3"),
    ("~1.2.3-.a+b 1 - || ^0.1.x-", "1.2.3--.b", "1.2.3--"),
    ("1x 1", "1.9.9", "2.0.0"),
    ("- 1", "1.9.9", "2.0.0"),
    ("\u{e9} 1", "1.9.9", "2.0.0"),
    ("<>*1.2 1", "1.9.9", "2.0.0"),
    ("foo= 1 2", "2.9.9", "1.0.0"),
    ("foo= vv1 2", "2.9.9", "1.0.0"),
    ("foov= 1 <3", "1.9.9", "2.0.0"),
    ("foo== 1 <3", "1.9.9", "2.0.0"),
    ("1.2.3v= 1 2", "2.9.9", "1.0.0"),
    (">1.2.3-rc.1.dev= 1 2", "2.9.9", "1.0.0"),
    ("1.2.3+v= 1 2", "2.9.9", "1.0.0"),
    ("1.0.1-0v= 1 <3", "1.9.9", "2.0.0"),
    ("1.2v= 1 <3", "1.9.9", "2.0.0"),
    ("1.2,v= 1 <3", "1.9.9", "2.0.0"),
    ("1.2.3,1.2.3v= 1 2", "2.9.9", "1.0.0"),
    ("x,1.2.3v= 1 2", "2.9.9", "1.0.0"),
    ("1.x.3-v= 1 2", "2.9.9", "1.0.0"),
    ("1.x.3v= 1 <3", "1.9.9", "2.0.0"),
    ("1.02.x-v= 1 <3", "1.9.9", "2.0.0"),
    ("1.1.2.3v= 1 <3", "1.9.9", "2.0.0"),
    ("foo> 1> 2 3", "3.9.9", "2.0.0"),
    ("foo> ^1", "1.9.9", "2.0.0"),
    ("foo^ bar 1", "1.9.9", "2.0.0"),
    ("> = 1", "1.9.9", "2.0.0"),
    ("~> = 1", "1.9.9", "2.0.0"),
    ("~> foo= 1 2", "2.9.9", "1.9.9"),
    ("- 1 - 1.2", "1.2.9", "1.3.0"),
    ("1 - v 2.0.0", "2.0.0", "1.0.0"),
    ("v 1.0.0 - =2.0.0", "1.0.0", "2.0.0"),
];

// Texts with pre-releases included.
const READ_WITH: &[(&str, &str, &str)] = &[
    ("^01", "1.0.0-a", "2.0.0-0"),
    ("1.2.3beta - 2", "1.2.3-beta", "1.2.3-a"),
    ("^0.0.3", "0.0.3-a", "0.0.4-0"),
    ("^00.1.2", "0.9.0-a", "0.1.2-a"),
    ("==1.2.3", "1.2.3", "1.2.3-a"),
    ("^1 and ^2, 1.0.0-a", "1.0.0-a", "1.0.0"),
    ("1 - v 2.0.0", "1.0.0-a", "2.0.1-0"),
    ("= 1.0.0 - 2", "1.0.0-0", "1.0.0-a"),
];

// Texts that node-semver rejects loosely too.
const REJECTED: &[&str] = &[
    "foo",
    "latest",
    "latest || foo,",
    "foo bar",
    "foo ^* bar",
    "^9007199254740992",
    "1.2.3.4",
    "1.2-",
    "workspace:*",
    "^^1",
    "1.2.3.",
    "v",
    "foo -",
    "foo * ^",
    "foo= 1",
];

// Texts that node-semver reads loosely, and `npm_reading::range` does not.
const LEFT_OUT: &[&str] = &[">1000000000000000000000 1"];

fn tells(alloc: Global, include: bool, text: &str, version: &str, wanted: bool) -> bool {
    match admits(alloc, include, text, version) {
        Ok(answer) => answer == wanted,
        Err(_) => false,
    }
}

#[test]
fn ranges_are_read_loosely(rt: HostRuntime) {
    for (text, accepted, rejected) in READ {
        assert!(rt; npm_reading::range(rt.alloc(), text, Reading::default()).is_err());
        assert!(rt; tells(rt.alloc(), false, text, accepted, true));
        assert!(rt; tells(rt.alloc(), false, text, rejected, false));
    }
    for (text, accepted, rejected) in READ_WITH {
        assert!(rt; tells(rt.alloc(), true, text, accepted, true));
        assert!(rt; tells(rt.alloc(), true, text, rejected, false));
    }
    for text in REJECTED {
        assert!(rt; npm_reading::range(rt.alloc(), text, LOOSELY).is_err());
    }
    for text in LEFT_OUT {
        assert!(rt; npm_reading::range(rt.alloc(), text, LOOSELY).is_err());
    }
}
