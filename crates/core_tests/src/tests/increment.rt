// Increments that no line can ask: results that are not read again, 64-bit numbers and conversions.

use super::{found_prints, made_by_hand, one_identifier, text_identifier};
use semver_core::{Failure, IdentifierBase, IncrementError, Version};
use std::alloc::Global;

// What is asked of a version.
#[derive(Clone, Copy)]
enum Question {
    // Whether the next version by a word prints so.
    LeadsTo(&'static str, &'static str),
    // Whether the pre-release after the next one, both by an identifier, prints so.
    LeadsTwiceTo(&'static str, &'static str),
    // Whether the next version by a word has a number above 64 bits.
    Overflows(&'static str),
}

// Whether there is a version, and the answer is yes.
fn is_true(alloc: Global, version: Option<Version>, question: Question) -> bool {
    match version {
        Some(version) => answer(alloc, &version, question),
        None => false,
    }
}

fn answer(alloc: Global, version: &Version, question: Question) -> bool {
    match question {
        Question::LeadsTo(word, text) => leads_to(alloc, version, word, None, text),
        Question::LeadsTwiceTo(identifier, text) => leads_twice(alloc, version, identifier, text),
        Question::Overflows(word) => overflows(alloc, version, word),
    }
}

fn leads_to(
    alloc: Global,
    version: &Version,
    word: &str,
    identifier: Option<&str>,
    text: &str,
) -> bool {
    found_prints(alloc, version.inc(alloc, word, identifier, None).ok(), text)
}

fn leads_twice(alloc: Global, version: &Version, identifier: &str, text: &str) -> bool {
    match version.inc(alloc, "prerelease", Some(identifier), None) {
        Ok(next) => leads_to(alloc, &next, "prerelease", Some(identifier), text),
        Err(_) => false,
    }
}

fn overflows(alloc: Global, version: &Version, word: &str) -> bool {
    match version.inc(alloc, word, None, None) {
        Err(Failure::Refused(IncrementError::Overflow)) => true,
        _ => false,
    }
}

// The identifier `1` stands in a result as one `AlphaNumeric`, which `1` does not match.
#[test]
fn inc_of_a_result_that_is_not_read_again(rt: HostRuntime) {
    let version = Version::with_pre(rt.alloc(), 1, 2, 3, 0).ok();
    let leads = Question::LeadsTwiceTo("1", "1.2.3-1.0");
    assert!(rt; is_true(rt.alloc(), version, leads));
}

const MAX: u64 = u64::MAX;

// Three numbers and a word that raises one of them past 64 bits.
const OVERFLOWS: &[(u64, u64, u64, &str)] = &[
    (MAX, 0, 0, "major"),
    (MAX, 0, 0, "premajor"),
    (1, MAX, 5, "minor"),
    (1, MAX, 5, "preminor"),
    (1, 2, MAX, "patch"),
    (1, 2, MAX, "prepatch"),
    (1, 2, MAX, "prerelease"),
];

#[test]
fn inc_returns_overflow_past_64_bits(rt: HostRuntime) {
    for &(major, minor, patch, word) in OVERFLOWS {
        let version = Some(Version::from((major, minor, patch)));
        assert!(rt;
            is_true(rt.alloc(), version, Question::Overflows(word)),
            "{word}"
        );
    }
    let last = Version::with_pre(rt.alloc(), 1, 2, 3, MAX).ok();
    assert!(rt; is_true(rt.alloc(), last, Question::Overflows("pre")));
}

// The version of `1`, the greatest number and `0`, with this text as its one identifier.
fn great_minor(alloc: Global, identifier: &str) -> Option<Version> {
    let pre_release = one_identifier(alloc, text_identifier(alloc, identifier));
    made_by_hand(alloc, MAX, 0, pre_release, Some(Vec::new(alloc)))
}

#[test]
fn inc_keeps_the_greatest_number(rt: HostRuntime) {
    let version = Version::with_pre(rt.alloc(), MAX, 0, 0, 0).ok();
    let major = Question::LeadsTo("major", "18446744073709551615.0.0");
    assert!(rt; is_true(rt.alloc(), version, major));
    let minor = Question::LeadsTo("minor", "1.18446744073709551615.0");
    assert!(rt; is_true(rt.alloc(), great_minor(rt.alloc(), "a"), minor));
}

#[test]
fn identifier_base_converts(rt: HostRuntime) {
    assert!(rt; IdentifierBase::default() == IdentifierBase::Value(0));
    assert!(rt; IdentifierBase::from(true) == IdentifierBase::Value(1));
    assert!(rt; IdentifierBase::from(false) == IdentifierBase::False);
    assert!(rt; IdentifierBase::from(7u64) == IdentifierBase::Value(7));
    assert!(rt; IdentifierBase::from(7usize) == IdentifierBase::Value(7));
}

// Whether the copy of the error equals it.
fn copies_equal(alloc: Global, error: &IncrementError) -> bool {
    match error.copy(alloc) {
        Ok(copy) => copy == *error,
        Err(_) => false,
    }
}

fn invalid_copies_equal(alloc: Global, identifier: &str) -> bool {
    match String::from_str(alloc, identifier) {
        Ok(text) => is_copied(alloc, &IncrementError::InvalidIdentifier(text)),
        Err(_) => false,
    }
}

fn is_copied(alloc: Global, error: &IncrementError) -> bool {
    copies_equal(alloc, error) && *error != IncrementError::Overflow
}

#[test]
fn copy_of_an_error_is_equal(rt: HostRuntime) {
    assert!(rt; copies_equal(rt.alloc(), &IncrementError::Overflow));
    assert!(rt; invalid_copies_equal(rt.alloc(), "a/b"));
}
