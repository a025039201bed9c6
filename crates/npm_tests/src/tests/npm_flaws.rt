// What is wrong with version texts as node-semver's strict reading has them, and how it prints.

ghost use Rattle.std.specs.Prelude.{◌↔◌, IsTrue};
ghost use Rattle.npm_words.specs.VersionText.{IsVersionText};
ghost use Rattle.nodejs_semver.specs.Versions.{VersionValue};

use super::{long_text, prints};
use nodejs_semver::MAX_SAFE_INTEGER;
use npm_reading::{Flaw, RangeFlaw, Reading, Wrong};
use std::alloc::Global;

// Whether the text is a version.
fn is_version(text: &str) -> bool
    ensures { IsTrue result ↔ ((v : VersionValue) × IsVersionText MAX_SAFE_INTEGER text.now v) }
{
    npm_reading::version_flaw(text).is_none()
}

// Texts that are versions.
const VERSIONS: &[&str] = &[
    "1.2.3",
    "v1.2.3",
    " \u{3000}v0.20.0\n",
    "0.0.9007199254740991",
    "1.2.3-0.a-1.00a+7.x",
    "1.2.3--",
    "1.2.3+001",
];

// Others, what is wrong with each, and at which byte.
const FLAWED: &[(&str, Wrong, usize)] = &[
    ("", Wrong::Digit, 0),
    ("  ", Wrong::Digit, 2),
    ("latest", Wrong::Digit, 0),
    ("1", Wrong::Dot, 1),
    ("1.2", Wrong::Dot, 3),
    ("1.2.", Wrong::Digit, 4),
    ("1.2.x", Wrong::Digit, 4),
    ("1 .2.3", Wrong::Dot, 1),
    ("=1.2.3", Wrong::Mark, 0),
    ("V1.2.3", Wrong::Mark, 0),
    ("vv1.2.3", Wrong::Mark, 1),
    ("v 1.2.3", Wrong::Digit, 1),
    ("01.2.3", Wrong::LeadingZero, 1),
    ("1.02.3", Wrong::LeadingZero, 3),
    ("1.2.00", Wrong::LeadingZero, 5),
    ("1.2.3-01", Wrong::LeadingZero, 8),
    ("1.2.3-a.00+b", Wrong::LeadingZero, 10),
    ("9007199254740992.0.0", Wrong::NumberTooGreat, 15),
    ("0.0.90071992547409910", Wrong::NumberTooGreat, 20),
    ("1.2.3beta", Wrong::MissingHyphen, 5),
    ("1.2.3.4", Wrong::Behind, 5),
    ("1.2.3, the second", Wrong::Behind, 5),
    ("1.2.3 4", Wrong::Behind, 6),
    ("1.2.3-a_b", Wrong::Behind, 7),
    ("1.2.3+a+b", Wrong::Behind, 7),
    ("1.2.3-", Wrong::Identifier, 6),
    ("1.2.3-a..b", Wrong::Identifier, 8),
    ("1.2.3+ ", Wrong::Identifier, 6),
    ("\u{e9}1.2.3", Wrong::Digit, 0),
    ("\u{3000}\u{3042}", Wrong::Digit, 3),
];

#[test]
fn versions_have_no_flaw(rt: HostRuntime) {
    for text in VERSIONS {
        assert!(rt; is_version(text));
        assert!(rt; npm_reading::version(text, Reading::default()).is_ok());
    }
}

#[test]
fn a_flaw_has_its_kind_and_place(rt: HostRuntime) {
    for (text, wrong, at) in FLAWED {
        let flaw = Flaw::At {
            wrong: *wrong,
            at: *at,
        };
        assert!(rt; npm_reading::version_flaw(text) == Some(flaw));
        assert!(rt; npm_reading::version(text, Reading::default()).is_err());
    }
}

// Whether the text of six characters and so many `X` has this flaw, or none.
fn long_has_flaw(alloc: Global, count: usize, flaw: Option<Flaw>) -> bool {
    match long_text(alloc, "1.1.1-", "X", count) {
        Ok(text) => npm_reading::version_flaw(&text) == flaw,
        Err(_) => false,
    }
}

// The same of a version and so many times U+3000, which is three bytes.
fn wide_has_flaw(alloc: Global, count: usize, flaw: Option<Flaw>) -> bool {
    match long_text(alloc, "1.2.3", "\u{3000}", count) {
        Ok(text) => npm_reading::version_flaw(&text) == flaw,
        Err(_) => false,
    }
}

#[test]
fn a_text_of_257_characters_is_too_long(rt: HostRuntime) {
    assert!(rt; long_has_flaw(rt.alloc(), 250, None));
    assert!(rt; long_has_flaw(rt.alloc(), 251, Some(Flaw::TooLong)));
    assert!(rt; wide_has_flaw(rt.alloc(), 251, None));
    assert!(rt; wide_has_flaw(rt.alloc(), 252, Some(Flaw::TooLong)));
}

// What is wrong, and what it prints at byte 12.
const PRINTED: &[(Wrong, &str)] = &[
    (Wrong::Mark, "a mark other than one v at byte 12"),
    (Wrong::LeadingZero, "a leading zero before byte 12"),
    (
        Wrong::NumberTooGreat,
        "a number above 9007199254740991 at byte 12",
    ),
    (
        Wrong::MissingHyphen,
        "expected a hyphen before the pre-release at byte 12",
    ),
    (Wrong::Digit, "expected a digit at byte 12"),
    (Wrong::Dot, "expected a dot at byte 12"),
    (Wrong::Identifier, "expected an identifier at byte 12"),
    (Wrong::Behind, "text behind the version at byte 12"),
];

#[test]
fn flaws_print(rt: HostRuntime) {
    let alloc = rt.alloc();
    assert!(rt; prints(alloc, &Flaw::TooLong, "longer than 256 characters"));
    for (wrong, text) in PRINTED {
        let flaw = Flaw::At {
            wrong: *wrong,
            at: 12,
        };
        assert!(rt; prints(alloc, &flaw, text));
    }
}

// Range texts that are read.
const RANGES: &[&str] = &[
    "",
    "*",
    "^1.2 || >=2.0.0 <3",
    "1.2.3 - 2.3",
    " ~> >1 ||",
    ">1 <1",
];

// Others, with the bytes of the first alternative that is rejected and of its first malformed word.
const FLAWED_RANGES: &[(&str, usize, usize, usize, usize)] = &[
    ("latest", 0, 6, 0, 6),
    (">=1.0.0, <2.0.0", 0, 15, 0, 8),
    ("^1.2 || >=2.0.0, <3 || 4", 8, 19, 8, 16),
    ("1 ||  ^01.2  || foo", 6, 11, 6, 11),
    ("||\u{3000}==1.2.3", 5, 12, 5, 12),
    ("^1 || >9007199254740991", 6, 23, 6, 23),
    (" 1\u{3000}2- <3", 1, 10, 5, 7),
    ("^1 ~> >1.2 <", 0, 12, 11, 12),
    ("1 - 2 3", 0, 7, 2, 3),
    ("1.2 >9007199254740991 foo", 0, 25, 4, 21),
    ("1.2.3 - 01.2.3", 0, 14, 8, 14),
    ("1 - 9007199254740992.0.0", 0, 24, 4, 24),
    ("=1.2.3 - 2.0.0", 0, 14, 0, 6),
    ("1.2.3 - x.y.z", 0, 13, 8, 13),
    ("1 ||  = 1.2.3\u{3000}- 2 ", 6, 19, 6, 13),
    ("1 - v 2.0.0", 0, 11, 4, 11),
    (">=1 - 02", 0, 8, 0, 3),
    ("foo - 1", 0, 7, 0, 3),
    ("1 - 2 - 3", 0, 9, 2, 3),
    ("1 -2", 0, 4, 2, 4),
    ("1 - ", 0, 3, 2, 3),
];

#[test]
fn a_range_flaw_has_its_place(rt: HostRuntime) {
    for text in RANGES {
        assert!(rt; npm_reading::range_flaw(text, false).is_none());
    }
    for &(text, start, end, word_start, word_end) in FLAWED_RANGES {
        let flaw = RangeFlaw {
            start,
            end,
            word_start,
            word_end,
        };
        assert!(rt; npm_reading::range_flaw(text, false) == Some(flaw));
    }
}
