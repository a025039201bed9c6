mod documented;
mod laws;
mod npm;
mod npm_flaws;
mod npm_loose_ranges;
mod npm_ranges;
mod npm_readings;
mod npm_texts;
mod npm_versions;
mod reading_texts;
mod readme;
mod sets;
mod simplified;
mod spans;

use std::alloc::{AllocError, Global};
use std::fmt::Display;

// A function that owns several values is dear to prove, since each of its exits lets go of all of
// them. So a test asserts what helpers return, and each of these owns one value and lends it.

// Whether the value prints as this text.
fn prints<T: Display>(alloc: Global, value: &T, text: &str) -> bool {
    is_text(value.to_string(alloc), text)
}

// Whether there is a text, and it is this one.
fn is_text(found: Result<String, AllocError>, text: &str) -> bool {
    match found {
        Ok(found) => found.as_str() == text,
        Err(_) => false,
    }
}

// Whether there is a value, and it prints as this text.
fn found_prints<T: Display + Drop>(alloc: Global, found: Option<T>, text: &str) -> bool {
    match found {
        Some(value) => prints(alloc, &value, text),
        None => false,
    }
}

// The text that begins so and goes on with another so many times.
fn long_text(alloc: Global, head: &str, rest: &str, count: usize) -> Result<String, AllocError> {
    let mut text = String::from_str(alloc, head)?;
    for _ in 0..count {
        text.push_str(rest)?;
    }
    Ok(text)
}
