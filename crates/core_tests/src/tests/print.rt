// What is printed where no line asks: with a width, of values made by hand, and read again.

use super::{
    found_prints, is_same, is_text, long_text, made_by_hand, one_identifier, prints,
    text_identifier,
};
use semver_core::laws::{identifier_in_field, reread, version_in_field};
use semver_core::{Failure, Identifier, SemverError, Version, VersionDiff};
use std::alloc::Global;
use std::fmt::Display;
use std::test::Fail;

#[derive(Clone, Copy)]
enum Kind {
    Number,
    Text,
    Version,
    Difference,
}

// A value of each kind that prints, by its text.
const PRINTED: &[(Kind, &str)] = &[
    (Kind::Number, "7"),
    (Kind::Text, "rc"),
    (Kind::Version, "1.2.3-a+7"),
    (Kind::Difference, "premajor"),
];

// Whether a value prints as this text in a wide field, in a narrow one with zeros, and cut to one
// character.
fn prints_as<D: Display>(alloc: Global, value: &D, text: &str) -> bool {
    match format!(in alloc; "{value:*>60}|{value:03}|{value:^.1}") {
        Ok(printed) => is_thrice(alloc, &printed, text),
        Err(_) => false,
    }
}

fn is_thrice(alloc: Global, printed: &str, text: &str) -> bool {
    match format!(in alloc; "{text}|{text}|{text}") {
        Ok(wanted) => printed == wanted.as_str(),
        Err(_) => false,
    }
}

fn identifier_prints_as(alloc: Global, text: &str) -> bool {
    match text_identifier(alloc, text) {
        Some(identifier) => prints_as(alloc, &identifier, text),
        None => false,
    }
}

fn version_prints_as(alloc: Global, text: &str) -> bool {
    match Version::parse(alloc, text) {
        Ok(version) => prints_as(alloc, &version, text),
        Err(_) => false,
    }
}

fn is_unstyled(alloc: Global, kind: Kind, text: &str) -> bool {
    match kind {
        Kind::Number => prints_as(alloc, &Identifier::Numeric(7), text),
        Kind::Text => identifier_prints_as(alloc, text),
        Kind::Version => version_prints_as(alloc, text),
        Kind::Difference => prints_as(alloc, &VersionDiff::PreMajor, text),
    }
}

#[test]
fn width_fill_and_precision_change_nothing(rt: HostRuntime) {
    for &(kind, text) in PRINTED {
        assert!(rt; is_unstyled(rt.alloc(), kind, text), "{text}");
    }
}

fn is_same_in_field(alloc: Global, text: &str) -> bool {
    match Version::parse(alloc, text) {
        Ok(version) => is_text(version_in_field(alloc, &version, 60, 1), text),
        Err(_) => false,
    }
}

fn number_in_field(alloc: Global, number: u64, text: &str) -> bool {
    is_text(
        identifier_in_field(alloc, &Identifier::Numeric(number), 60, 1),
        text,
    )
}

#[test]
fn versions_and_identifiers_in_a_field(rt: HostRuntime) {
    assert!(rt; is_same_in_field(rt.alloc(), "1.2.3-a"));
    assert!(rt; number_in_field(rt.alloc(), 7, "7"));
}

fn number_prints(alloc: Global, number: u64, text: &str) -> bool {
    prints(alloc, &Identifier::Numeric(number), text)
}

fn text_prints(alloc: Global, text: &str) -> bool {
    match text_identifier(alloc, text) {
        Some(identifier) => prints(alloc, &identifier, text),
        None => false,
    }
}

#[test]
fn identifier_prints_its_number_or_text(rt: HostRuntime) {
    assert!(rt; number_prints(rt.alloc(), u64::MAX, "18446744073709551615"));
    assert!(rt; text_prints(rt.alloc(), "a b"));
}

// The version 1.2.3-0 with this text as the one identifier of its build.
fn with_build(alloc: Global, text: &str) -> Option<Version> {
    let pre_release = one_identifier(alloc, Some(Identifier::Numeric(0)));
    let build = one_identifier(alloc, text_identifier(alloc, text));
    made_by_hand(alloc, 2, 3, pre_release, build)
}

#[test]
fn version_made_by_hand_prints(rt: HostRuntime) {
    assert!(rt; found_prints(rt.alloc(), with_build(rt.alloc(), "a"), "1.2.3-0+a"));
}

// How long the printed version of a text is.
fn printed_length(alloc: Global, text: &str) -> usize {
    match Version::parse(alloc, text) {
        Ok(version) => length(alloc, &version),
        Err(_) => 0,
    }
}

fn length(alloc: Global, version: &Version) -> usize {
    match version.to_string(alloc) {
        Ok(printed) => printed.len(),
        Err(_) => 0,
    }
}

// How long the printed version of a text is that goes on with so many characters `b`.
fn long_length(alloc: Global, front: &str, count: usize) -> usize {
    match long_text(alloc, front, "b", count) {
        Ok(text) => printed_length(alloc, &text),
        Err(_) => 0,
    }
}

// Whether the error is a rejection, and no allocation failure.
fn is_refused(error: Option<Failure<SemverError>>) -> bool {
    match error {
        Some(Failure::Refused(SemverError)) => true,
        _ => false,
    }
}

// Whether such a text is rejected, and not for an allocation failure.
fn long_is_rejected(alloc: Global, front: &str, count: usize) -> bool {
    match long_text(alloc, front, "b", count) {
        Ok(text) => is_refused(Version::parse(alloc, &text).err()),
        Err(_) => false,
    }
}

#[test]
fn version_may_print_a_text_that_is_too_long(rt: HostRuntime) {
    assert!(rt; long_length(rt.alloc(), "1.2.3", 251) == 257);
    assert!(rt; long_is_rejected(rt.alloc(), "1.2.3-", 251));
}

#[test]
fn reread_gives_the_version(rt: HostRuntime) {
    let version = Version::from((1u64, 2u64, 3u64));
    assert!(rt; is_same(reread(rt.alloc(), &version).ok(), &version));
}

// The same of a version with both lists.
#[test]
#[tactic(auto, unfolding(semver_core::specs::Text::Identifiers::is_listed))]
fn reread_gives_a_version_with_identifiers(rt: HostRuntime) -> Result<(), Fail> {
    let version = Version::from_texts(rt.alloc(), 1, 2, 3, b"a.7", b"b")?;
    assert!(rt; is_same(reread(rt.alloc(), &version).ok(), &version));
    Ok(())
}
