mod algebra;
mod borrowed_ranges;
mod calling;
mod calling_laws;
mod choice;
mod diagnosis;
mod documented;
mod error;
mod fast_ranges;
mod json;
mod kinds;
mod laws;
mod library;
mod lists;
mod made;
mod outside;
mod print;
mod questions;
mod range;

use nodejs_semver::{Failure, SemverError};
use std::alloc::{AllocError, Global};
use std::fmt::Display;
use std::hash::{DefaultHasher, Hash, Hasher};

// A function that owns several values is dear to prove, since each of its exits lets go of all of
// them. So a test asserts what helpers return, and each of these owns one value and lends it.

// Whether the value prints as this text.
fn prints<T: Display>(alloc: Global, value: &T, text: &str) -> bool {
    is_text(value.to_string(alloc), text)
}

// Whether there is a text, and it is this one.
fn is_text(found: Result<String, AllocError>, text: &str) -> bool {
    match found {
        Ok(found) => found.as_str() == text,
        Err(_) => false,
    }
}

// Whether there is a value, and it prints as this text.
fn found_prints<T: Display + Drop>(alloc: Global, found: Option<T>, text: &str) -> bool {
    match found {
        Some(value) => prints(alloc, &value, text),
        None => false,
    }
}

// Whether there is a value, and it equals this one.
fn is_same<T: PartialEq + Drop>(found: Option<T>, value: &T) -> bool {
    match found {
        Some(found) => found == *value,
        None => false,
    }
}

// Whether the error is a rejection, and no allocation failure.
fn is_refused(error: Option<Failure<SemverError>>) -> bool {
    match error {
        Some(Failure::Refused(SemverError)) => true,
        _ => false,
    }
}

// The text that begins so and goes on with another so many times.
fn long_text(alloc: Global, head: &str, rest: &str, count: usize) -> Result<String, AllocError> {
    let mut text = String::from_str(alloc, head)?;
    for _ in 0..count {
        text.push_str(rest)?;
    }
    Ok(text)
}

// What the value hashes to.
fn hash_of<T: Hash>(value: &T) -> u64 {
    let mut state = DefaultHasher::new();
    value.hash(&mut state);
    state.finish()
}
