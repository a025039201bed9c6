mod builds;
mod cuts;
mod difference;
mod documented;
mod error;
mod fast_versions;
mod increment;
mod keys;
mod laws;
mod lent;
mod lists;
mod print;
mod scan;
mod version;

use semver_core::{Identifier, Version};
use std::alloc::{AllocError, Global};
use std::fmt::Display;
use std::hash::{DefaultHasher, Hash, Hasher};

// A function that owns several values is dear to prove, since each of its exits lets go of all of
// them. So a test asserts what helpers return, and each of these owns one value and lends it.

// Whether the value prints as this text.
fn prints<T: Display>(alloc: Global, value: &T, text: &str) -> bool {
    is_text(value.to_string(alloc), text)
}

// Whether there is a text, and it is this one.
fn is_text(found: Result<String, AllocError>, text: &str) -> bool {
    match found {
        Ok(found) => found.as_str() == text,
        Err(_) => false,
    }
}

// Whether there is a value, and it prints as this text.
fn found_prints<T: Display + Drop>(alloc: Global, found: Option<T>, text: &str) -> bool {
    match found {
        Some(value) => prints(alloc, &value, text),
        None => false,
    }
}

// Whether there is a value, and it equals this one.
fn is_same<T: PartialEq + Drop>(found: Option<T>, value: &T) -> bool {
    match found {
        Some(found) => found == *value,
        None => false,
    }
}

// The text that begins so and goes on with another so many times.
fn long_text(alloc: Global, head: &str, rest: &str, count: usize) -> Result<String, AllocError> {
    let mut text = String::from_str(alloc, head)?;
    for _ in 0..count {
        text.push_str(rest)?;
    }
    Ok(text)
}

// An identifier of this text, whatever its characters.
fn text_identifier(alloc: Global, text: &str) -> Option<Identifier> {
    match String::from_str(alloc, text) {
        Ok(text) => Some(Identifier::AlphaNumeric(text)),
        Err(_) => None,
    }
}

// The list of one identifier.
fn one_identifier(alloc: Global, identifier: Option<Identifier>) -> Option<Vec<Identifier>> {
    match identifier {
        Some(identifier) => vec![in alloc; identifier].ok(),
        None => None,
    }
}

// The version that begins with 1 and has these numbers and lists.
fn made_by_hand(
    alloc: Global,
    minor: u64,
    patch: u64,
    pre_release: Option<Vec<Identifier>>,
    build: Option<Vec<Identifier>>,
) -> Option<Version> {
    match (pre_release, build) {
        (Some(pre_release), Some(build)) => {
            Version::new(alloc, 1, minor, patch, pre_release, build).ok()
        }
        (_, _) => None,
    }
}

// What the value hashes to.
fn hash_of<T: Hash>(value: &T) -> u64 {
    let mut state = DefaultHasher::new();
    value.hash(&mut state);
    state.finish()
}
