// Ranges: what no line can ask of them.

use super::{hash_of, is_same, is_text, long_text};
use nodejs_semver::{Range, Version};
use std::alloc::Global;

// Whether the range equals the one of this text.
fn equals(alloc: Global, range: &Range, text: &str) -> bool {
    is_same(Range::parse(alloc, text).ok(), range)
}

// Whether the range holds every version.
fn holds_all(alloc: Global, any: &Range, pre: &Version) -> bool {
    any.satisfies(&Version::from((5u8, 0, 0)))
        && !pre.satisfies(any)
        && pre.satisfies_with_prerelease(any, true)
        && equals(alloc, any, "")
}

fn any_holds(alloc: Global, pre: &Version) -> bool {
    match Range::any(alloc) {
        Ok(any) => holds_all(alloc, &any, pre),
        Err(_) => false,
    }
}

fn any_holds_all(alloc: Global) -> bool {
    match Version::with_pre(alloc, 5, 0, 0, 1) {
        Ok(pre) => any_holds(alloc, &pre),
        Err(_) => false,
    }
}

#[test]
fn any_holds_every_version(rt: HostRuntime) {
    assert!(rt; any_holds_all(rt.alloc()));
}

// What is asked of a range.
#[derive(Clone, Copy)]
enum Question<'a> {
    // Whether its copy is equal, hashes alike and prints so.
    Copies(&'a str),
    // Whether it equals the range of a text.
    Equals(&'a str),
    Differs(&'a str),
    Prints(&'a str),
}

fn copies_equal(alloc: Global, range: &Range, text: &str) -> bool {
    match range.copy(alloc) {
        Ok(copy) => {
            copy == *range
                && hash_of(&copy) == hash_of(range)
                && is_text(copy.to_string(alloc), text)
        }
        Err(_) => false,
    }
}

fn answer(alloc: Global, range: &Range, question: Question<'_>) -> bool {
    match question {
        Question::Copies(text) => copies_equal(alloc, range, text),
        Question::Equals(text) => equals(alloc, range, text),
        Question::Differs(text) => !equals(alloc, range, text),
        Question::Prints(text) => is_text(range.to_string(alloc), text),
    }
}

// Whether the text is one of a range, and the answer is yes.
fn is_true(alloc: Global, text: &str, question: Question<'_>) -> bool {
    match Range::parse(alloc, text) {
        Ok(range) => answer(alloc, &range, question),
        Err(_) => false,
    }
}

const BUILT: &str = ">=2.0.0+a <3.0.0-0 || 7.x";

#[test]
fn copy_is_the_whole_range(rt: HostRuntime) {
    let copies = Question::Copies(">=2.0.0+a <3.0.0-0||>=7.0.0 <8.0.0-0");
    assert!(rt; is_true(rt.alloc(), BUILT, copies));
}

#[test]
fn eq_ignores_build_metadata(rt: HostRuntime) {
    let equals = Question::Equals(">=2.0.0+b <3.0.0-0 || 7.x");
    assert!(rt; is_true(rt.alloc(), BUILT, equals));
    assert!(rt; is_true(rt.alloc(), BUILT, Question::Differs(">=2.0.0 <3.0.0-0")));
}

// Texts of equal ranges.
const ALIKE: &[(&str, &str)] = &[
    (">2 <1", ">=3.0.0 || <1.0.0"),
    ("1 - 2foo", ">=1.0.0 <2.0.0-0"),
    ("foo 1.2.3", "1.2.3"),
    ("1.2.3||", " 1.2.3 || "),
    ("> > 1", ">=2.0.0"),
];

#[test]
fn parse_reads_equal_ranges(rt: HostRuntime) {
    for &(left, right) in ALIKE {
        assert!(rt;
            is_true(rt.alloc(), left, Question::Equals(right)),
            "{left}"
        );
    }
}

// The one whitespace character that no line can hold.
#[test]
fn parse_takes_a_line_feed_for_whitespace(rt: HostRuntime) {
    let prints = Question::Prints(">=1.0.0 <2.0.0");
    assert!(rt; is_true(rt.alloc(), ">=1.0.0\n<2.0.0", prints));
}

fn reads_words(alloc: Global, word: &str, again: &str, count: usize) -> bool {
    match long_text(alloc, word, again, count) {
        Ok(text) => is_true(alloc, &text, Question::Prints(word)),
        Err(_) => false,
    }
}

#[test]
fn parse_reads_twenty_thousand_words(rt: HostRuntime) {
    assert!(rt; reads_words(rt.alloc(), ">=0.0.0", " >=0.0.0", 19_999));
}
