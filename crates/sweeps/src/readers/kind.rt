// The kinds of texts, and what the two readers of a kind make of a text.

use crate::readers::ignored;
use nodejs_semver::cuts::Bound;
use nodejs_semver::diagnosis::{VersionFlaw, version_flaw};
use nodejs_semver::readers::{is_blank, range_fast, range_loose, version_fast, version_loose};
use nodejs_semver::{Range, Version};
use std::alloc::{AllocError, Global};
use std::fmt;

/// What a text is read as.
#[derive(Clone, Copy)]
pub enum Kind {
    Version,
    Range,
}

/// What the fast reader makes of a text: nothing, what the loose reader returns, or something else.
/// The last stands also for a text whose diagnosis does not fit what the loose reader returns.
#[derive(Clone, Copy)]
pub enum Comparison {
    NotRead,
    ReadAlike,
    ReadOtherwise,
}

impl Kind {
    /// Asks both readers about a text.
    pub fn compare(self, alloc: Global, text: &str) -> Result<Comparison, AllocError> {
        match self {
            Kind::Version => compare_versions(alloc, text),
            Kind::Range => compare_ranges(alloc, text),
        }
    }
}

impl fmt::Display for Kind {
    fn fmt<W: fmt::Write>(&self, f: &mut fmt::Formatter<W>) -> fmt::Result {
        f.write_str(match self {
            Kind::Version => "version",
            Kind::Range => "range",
        })
    }
}

fn compare_versions(alloc: Global, text: &str) -> Result<Comparison, AllocError> {
    let fast = version_fast(alloc, text)?;
    let loose = version_loose(alloc, text)?;
    if !is_told(alloc, text, &loose)? {
        return Ok(Comparison::ReadOtherwise);
    }
    Ok(match (&fast, &loose) {
        (None, _) => Comparison::NotRead,
        (Some(fast), Some(loose)) if is_same_version(fast, loose) => Comparison::ReadAlike,
        _ => Comparison::ReadOtherwise,
    })
}

// Whether the diagnosis of a text fits what the loose reader returns: a flaw that rejects the text
// exactly if that is nothing, and a place behind the version exactly if the text ends further on.
fn is_told(alloc: Global, text: &str, loose: &Option<Version>) -> Result<bool, AllocError> {
    Ok(match (version_flaw(text), loose) {
        (None, Some(_)) => true,
        (Some(VersionFlaw::Ignored { at }), Some(version)) => match text.get(..at) {
            Some(front) => is_exactly(alloc, front, version)?,
            None => false,
        },
        (Some(VersionFlaw::NumberTooGreat { .. } | VersionFlaw::Expected { .. }), None) => true,
        _ => false,
    })
}

// Whether the whole text is this version.
fn is_exactly(alloc: Global, text: &str, version: &Version) -> Result<bool, AllocError> {
    let read = version_loose(alloc, text)?;
    Ok(version_flaw(text).is_none() && read.is_some_and(|read| is_same_version(&read, version)))
}

// The loose reader cannot be asked about a blank text, and the fast one must not read it.
fn compare_ranges(alloc: Global, text: &str) -> Result<Comparison, AllocError> {
    let fast = range_fast(alloc, text)?;
    let loose = if is_blank(text) {
        None
    } else {
        range_loose(alloc, text)?
    };
    if !ignored::are_told(alloc, text)? {
        return Ok(Comparison::ReadOtherwise);
    }
    Ok(match (&fast, &loose) {
        (None, _) => Comparison::NotRead,
        (Some(fast), Some(loose)) if is_same_range(fast, loose) => Comparison::ReadAlike,
        _ => Comparison::ReadOtherwise,
    })
}

// Whether two versions are equal and have equal builds, which `==` ignores.
fn is_same_version(one: &Version, other: &Version) -> bool {
    one == other && one.build() == other.build()
}

fn is_same_bound(one: &Bound<Version>, other: &Bound<Version>) -> bool {
    match (one, other) {
        (Bound::Unbounded, Bound::Unbounded) => true,
        (Bound::Before(one), Bound::Before(other)) | (Bound::After(one), Bound::After(other)) => {
            is_same_version(one, other)
        }
        _ => false,
    }
}

/// Whether two ranges are equal and their bounds have equal builds, which `==` ignores.
pub fn is_same_range(one: &Range, other: &Range) -> bool {
    one == other
        && one.intervals().iter().zip(other.intervals()).all(|(one, other)| {
            is_same_bound(one.lower(), other.lower()) && is_same_bound(one.upper(), other.upper())
        })
}
