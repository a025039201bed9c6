// What is wrong with version texts, what is ignored in range texts, and how both print.

ghost use Rattle.std.specs.Prelude.{◌↔◌, IsTrue};
ghost use Rattle.nodejs_semver.specs.Diagnosis.IgnoredWords.{IsWhollyBounded};
ghost use Rattle.nodejs_semver.specs.Diagnosis.VersionFlaws.{IsExact};

use super::{long_text, prints};
use nodejs_semver::diagnosis::{
    Expected, IgnoredKind, IgnoredWord, VersionFlaw, ignored_words, version_flaw,
};
use nodejs_semver::{MAX_SAFE_INTEGER, Range, Version};
use std::alloc::Global;

// Whether the whole text is one version.
fn is_exact(text: &str) -> bool
    ensures { IsTrue result ↔ IsExact MAX_SAFE_INTEGER text.now }
{
    version_flaw(text).is_none()
}

// Whether each word of a range text has bounds.
fn is_read_whole(text: &str) -> bool
    ensures { IsTrue result ↔ IsWhollyBounded MAX_SAFE_INTEGER text.now }
{
    ignored_words(text).next().is_none()
}

// Texts that are one version as a whole.
const EXACT: &[&str] = &[
    "1.2.3",
    "v1.2.3",
    "V 1.2.3",
    " \u{feff}1.2.3",
    "01.2.3",
    "1.2.3-rc.1+build.7",
    "1.2.3beta",
    "9007199254740991.0.0",
];

// Texts with a version at the front, and where the text behind it begins.
const IGNORED: &[(&str, usize)] = &[
    ("5.0.0.9 oops", 5),
    ("1.2.3 ", 5),
    ("1.2.3-", 5),
    ("1.2.3-+b", 5),
    ("1.2.3+a+b", 7),
    ("1.2.3-a..b", 7),
    ("v1.2.3-a\u{141}", 8),
];

// Other texts, what was expected, where, and how that prints.
const EXPECTED: &[(&str, Expected, usize, &str)] = &[
    ("", Expected::Digit, 0, "expected a digit at byte 0"),
    ("five", Expected::Digit, 0, "expected a digit at byte 0"),
    ("v", Expected::Digit, 1, "expected a digit at byte 1"),
    (" v1.2.3", Expected::Digit, 1, "expected a digit at byte 1"),
    (
        "\u{a9}1.2.3",
        Expected::Digit,
        0,
        "expected a digit at byte 0",
    ),
    ("1", Expected::Dot, 1, "expected a dot at byte 1"),
    ("1x.2.3", Expected::Dot, 1, "expected a dot at byte 1"),
    ("1.x", Expected::Digit, 2, "expected a digit at byte 2"),
    ("1. 2.3", Expected::Digit, 2, "expected a digit at byte 2"),
    ("1.2", Expected::Dot, 3, "expected a dot at byte 3"),
    ("1.2.", Expected::Digit, 4, "expected a digit at byte 4"),
];

// Texts with a number above the limit, and where it begins.
const GREAT: &[(&str, usize)] = &[
    ("1.2.9007199254740992", 4),
    ("v99999999999999999999x", 1),
    ("1.99999999999999999999", 2),
];

// Whether the flaw is this one.
fn has_flaw(text: &str, flaw: VersionFlaw) -> bool {
    version_flaw(text) == Some(flaw)
}

fn has_version(alloc: Global, text: &str) -> bool {
    Version::parse(alloc, text).is_ok()
}

#[test]
fn a_text_that_is_one_version_has_no_flaw(rt: HostRuntime) {
    for &text in EXACT {
        assert!(rt; is_exact(text) && has_version(rt.alloc(), text), "{text:?}");
    }
}

fn is_ignored(alloc: Global, text: &str, at: usize) -> bool {
    has_flaw(text, VersionFlaw::Ignored { at }) && has_version(alloc, text)
}

#[test]
fn text_behind_a_version_is_ignored(rt: HostRuntime) {
    for &(text, at) in IGNORED {
        assert!(rt; is_ignored(rt.alloc(), text, at), "{text:?}");
    }
}

// Whether the text is no version, for this flaw, and the flaw prints so.
fn is_rejected(alloc: Global, text: &str, flaw: VersionFlaw, message: &str) -> bool {
    has_flaw(text, flaw) && prints(alloc, &flaw, message) && !has_version(alloc, text)
}

#[test]
fn a_rejected_text_says_what_was_expected(rt: HostRuntime) {
    for &(text, what, at, message) in EXPECTED {
        let flaw = VersionFlaw::Expected { what, at };
        assert!(rt; is_rejected(rt.alloc(), text, flaw, message), "{text:?}");
    }
}

fn is_too_great(alloc: Global, text: &str, at: usize) -> bool {
    has_flaw(text, VersionFlaw::NumberTooGreat { at }) && !has_version(alloc, text)
}

#[test]
fn a_number_above_the_limit_is_named(rt: HostRuntime) {
    for &(text, at) in GREAT {
        assert!(rt; is_too_great(rt.alloc(), text, at), "{text:?}");
    }
}

#[test]
fn flaws_print(rt: HostRuntime) {
    let alloc = rt.alloc();
    assert!(rt; prints(alloc, &VersionFlaw::TooLong, "longer than 256 bytes"));
    assert!(rt;
        prints(
            alloc,
            &VersionFlaw::Ignored { at: 12 },
            "ignored from byte 12"
        )
    );
}

// Whether the text of six bytes and so many `X` has this flaw, or none.
fn long_has_flaw(alloc: Global, count: usize, flaw: Option<VersionFlaw>) -> bool {
    match long_text(alloc, "1.1.1-", "X", count) {
        Ok(text) => version_flaw(&text) == flaw,
        Err(_) => false,
    }
}

#[test]
fn a_text_of_257_bytes_is_too_long(rt: HostRuntime) {
    assert!(rt; long_has_flaw(rt.alloc(), 250, None));
    assert!(rt; long_has_flaw(rt.alloc(), 251, Some(VersionFlaw::TooLong)));
}

// Range texts of which a word or more is ignored, and the malformed words and those without bounds,
// from the left.
const TEXTS: &[(&str, &[(usize, usize, IgnoredKind)])] = &[
    (">=1.0.0, <2.0.0", &[(0, 8, IgnoredKind::Malformed)]),
    ("foo 1.2.3", &[(0, 3, IgnoredKind::Malformed)]),
    ("1.2.3 foo", &[(6, 9, IgnoredKind::Malformed)]),
    ("foo", &[(0, 3, IgnoredKind::Malformed)]),
    ("^*", &[(0, 2, IgnoredKind::WithoutBounds)]),
    ("=x 1", &[(0, 2, IgnoredKind::WithoutBounds)]),
    ("2 - 1", &[(0, 5, IgnoredKind::WithoutBounds)]),
    ("1.2.3-b - 1.2.3-a", &[(0, 17, IgnoredKind::WithoutBounds)]),
    ("^0.x.1 || 2", &[(0, 6, IgnoredKind::WithoutBounds)]),
    (
        "1 || >= || \u{feff}~x ",
        &[
            (5, 7, IgnoredKind::Malformed),
            (14, 16, IgnoredKind::WithoutBounds),
        ],
    ),
    ("1|||2", &[(3, 5, IgnoredKind::Malformed)]),
    (
        "\u{141} 9007199254740992",
        &[
            (0, 2, IgnoredKind::Malformed),
            (3, 19, IgnoredKind::Malformed),
        ],
    ),
];

// Range texts of which nothing is ignored.
const WHOLE: &[&str] = &[
    "",
    " || ",
    "1.2.3",
    "^1.2 || >=3.0.0-rc.1 <4",
    "~> 1 2 - 3",
    "<*.1",
    ">x",
    "1.2.3-a - 1.2.3-b",
];

// Whether the ignored words of the text are these.
fn ignores(text: &str, words: &[(usize, usize, IgnoredKind)]) -> bool {
    let mut found = ignored_words(text);
    for &(start, end, kind) in words {
        if found.next() != Some(IgnoredWord { start, end, kind }) {
            return false;
        }
    }
    found.next() == None
}

#[test]
fn ignored_words_are_listed(rt: HostRuntime) {
    for &(text, words) in TEXTS {
        assert!(rt; ignores(text, words), "{text:?}");
    }
}

fn has_range(alloc: Global, text: &str) -> bool {
    Range::parse(alloc, text).is_ok()
}

#[test]
fn texts_that_are_read_whole_have_no_ignored_word(rt: HostRuntime) {
    for &text in WHOLE {
        assert!(rt;
            is_read_whole(text) && has_range(rt.alloc(), text),
            "{text:?}"
        );
    }
}

#[test]
fn ignored_words_print(rt: HostRuntime) {
    let alloc = rt.alloc();
    let mut words = ignored_words("^* foo");
    let first = words.next().expect(&rt, "a first word");
    assert!(rt;
        prints(
            alloc,
            &first,
            "ignored: word without bounds at bytes 0 to 2"
        )
    );
    let second = words.next().expect(&rt, "a second word");
    assert!(rt; prints(alloc, &second, "ignored: malformed word at bytes 3 to 6"));
}
