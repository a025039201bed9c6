// The calls on versions.

use crate::memory::ample::Calls;
use crate::memory::{borrowed, json, texts};
use nodejs_semver::readers::{version_fast, version_loose};
use nodejs_semver::{Failure, Identifier, IdentifierBase, IncrementError, Version, VersionParts};
use semver_core::laws::{identifier_in_field, version_in_field};
use semver_core::scan;
use std::alloc::{AllocError, Global};

/// The words of `inc`, and two that are none.
pub const WORDS: &[&str] = &[
    "major",
    "minor",
    "patch",
    "premajor",
    "preminor",
    "prepatch",
    "prerelease",
    "pre",
    "release",
    "prefix",
    "fake",
];

// Identifiers of several lengths, one that is a number, and texts that are no identifier.
const IDENTIFIERS: &[&str] = &[
    "",
    "7",
    "beta",
    "alpha",
    "a.7",
    "a/b",
    "an-identifier-of-more-than-forty-characters",
];

const BASES: &[IdentifierBase] = &[
    IdentifierBase::False,
    IdentifierBase::Value(0),
    IdentifierBase::Value(1),
    IdentifierBase::Value(2),
    IdentifierBase::Value(u64::MAX),
];

// A few of them, for versions of millions of bytes.
const FEW: &[&str] = &["major", "prerelease", "fake"];

/// Makes each call on versions about those with so many identifiers in each of their lists.
pub fn ask_counts(alloc: Global, calls: &mut Calls, from: u32, to: u32) -> Result<(), AllocError> {
    for count in from..=to {
        ask_many(alloc, calls, count as usize)?;
    }
    Ok(())
}

fn ask_many(alloc: Global, calls: &mut Calls, count: usize) -> Result<(), AllocError> {
    ask_found(alloc, calls, texts::version(alloc, count), WORDS)?;
    ask(alloc, calls, "1.2.3", WORDS)?;
    ask(alloc, calls, "1.2", WORDS)
}

// A beginning of a version, and the letter that goes on.
const BEGINNINGS: &[(&str, char)] = &[
    ("1.2.3-", 'a'),
    ("1.2.3+", 'a'),
    ("1.2.3-a.", 'a'),
    ("1.2.3-0+", 'a'),
    ("v 1.2.3-", 'a'),
    ("1.2.3-", '1'),
    ("1.2.", '1'),
    ("", '1'),
    ("1.2.3 ", '1'),
];

/// Makes each call on versions about one of so many bytes, most of them in one identifier.
pub fn ask_long(alloc: Global, calls: &mut Calls, length: usize) -> Result<(), AllocError> {
    for &(beginning, letter) in BEGINNINGS {
        let text = texts::long(alloc, beginning, letter, length);
        ask_found(alloc, calls, text, FEW)?;
    }
    Ok(())
}

// Makes each call on versions about that of a text, if there is one.
fn ask_found(
    alloc: Global,
    calls: &mut Calls,
    text: Result<String, AllocError>,
    words: &[&str],
) -> Result<(), AllocError> {
    match text {
        Ok(text) => ask(alloc, calls, &text, words),
        Err(error) => Err(error),
    }
}

// Makes each call on versions about that of a text.
fn ask(alloc: Global, calls: &mut Calls, text: &str, words: &[&str]) -> Result<(), AllocError> {
    calls.tried(Version::parse(alloc, text))?;
    calls.found(version_fast(alloc, text))?;
    borrowed::ask_version(alloc, calls, text)?;
    calls.found(scan::identifiers(alloc, text, 0))?;
    calls.found(scan::identifiers(alloc, text, text.len().min(6)))?;
    match calls.made(version_loose(alloc, text)) {
        Ok(Some(version)) => ask_about(alloc, calls, version, words),
        Ok(None) => Ok(()),
        Err(error) => Err(error),
    }
}

/// Makes each call on a version, with these words for `inc`.
pub fn ask_about(
    alloc: Global,
    calls: &mut Calls,
    version: Version,
    words: &[&str],
) -> Result<(), AllocError> {
    match lent(alloc, calls, &version, words) {
        Ok(()) => take_apart(alloc, calls, version),
        Err(error) => Err(error),
    }
}

// Makes each call on a borrowed version.
fn lent(
    alloc: Global,
    calls: &mut Calls,
    version: &Version,
    words: &[&str],
) -> Result<(), AllocError> {
    calls.asked(version.copy(alloc))?;
    for &word in words {
        inc(alloc, calls, version, word)?;
    }
    for identifier in version.build() {
        calls.asked(identifier.copy(alloc))?;
        calls.asked(identifier_in_field(alloc, identifier, 101, 1))?;
    }
    calls.asked(version_in_field(alloc, version, 101, 1))?;
    calls.asked(Identifier::copy_list(alloc, version.pre_release()))?;
    json::ask_version(alloc, calls, version)
}

// Takes a version apart, and makes it again.
fn take_apart(alloc: Global, calls: &mut Calls, version: Version) -> Result<(), AllocError> {
    match calls.made(version.into_parts(alloc)) {
        Ok(parts) => rebuild(alloc, calls, parts),
        Err(_) => Err(AllocError),
    }
}

// Copies the parts of a version, and makes it again.
fn rebuild(alloc: Global, calls: &mut Calls, parts: VersionParts) -> Result<(), AllocError> {
    match calls.asked(parts.copy(alloc)) {
        Ok(()) => made_again(alloc, calls, parts),
        Err(error) => Err(error),
    }
}

fn made_again(alloc: Global, calls: &mut Calls, parts: VersionParts) -> Result<(), AllocError> {
    let VersionParts {
        major,
        minor,
        patch,
        pre_release,
        build,
    } = parts;
    match calls.made(Version::new(alloc, major, minor, patch, pre_release, build)) {
        Ok(_) => Ok(()),
        Err(_) => Err(AllocError),
    }
}

// Asks for the next version without an identifier (an empty one) and with some, and with each base.
fn inc(alloc: Global, calls: &mut Calls, version: &Version, word: &str) -> Result<(), AllocError> {
    for &identifier in IDENTIFIERS {
        for &base in BASES {
            let next = version.inc(alloc, word, Some(identifier), Some(base));
            copy_error(alloc, calls, next)?;
        }
    }
    Ok(())
}

// Copies the error of a call, if it has one.
fn copy_error(
    alloc: Global,
    calls: &mut Calls,
    next: Result<Version, Failure<IncrementError>>,
) -> Result<(), AllocError> {
    match calls.rejected(next) {
        Ok(Some(error)) => calls.asked(error.copy(alloc)),
        Ok(None) => Ok(()),
        Err(error) => Err(error),
    }
}
