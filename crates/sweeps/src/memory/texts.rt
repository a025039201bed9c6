// Texts of many sizes.

use std::alloc::{AllocError, Global};
use std::fmt::Write;

/// A text of so many bytes: a beginning, and then a letter as often as it fits.
pub fn long(
    alloc: Global,
    beginning: &str,
    letter: char,
    length: usize,
) -> Result<String, AllocError> {
    let mut text = String::from_str(alloc, beginning)?;
    for _ in beginning.len()..length {
        text.push(letter)?;
    }
    Ok(text)
}

/// A version with so many identifiers in its pre-release and in its build metadata.
pub fn version(alloc: Global, count: usize) -> Result<String, AllocError> {
    let mut text = String::from_str(alloc, "1.2.3")?;
    push_identifiers(&mut text, '-', count)?;
    push_identifiers(&mut text, '+', count)?;
    Ok(text)
}

// Appends so many identifiers behind a mark, as in `-a.7.a`.
fn push_identifiers(text: &mut String, mark: char, count: usize) -> Result<(), AllocError> {
    for place in 0..count {
        text.push(if place == 0 { mark } else { '.' })?;
        text.push(if place % 2 == 0 { 'a' } else { '7' })?;
    }
    Ok(())
}

/// A range of so many intervals, as `^1.2.3-a||^2.2.3-a`, with a last piece behind each.
pub fn range(alloc: Global, count: usize, behind: &str) -> Result<String, AllocError> {
    let mut text = String::new(alloc);
    for major in 0..count {
        if major > 0 {
            text.push_str("||")?;
        }
        write!(text, "^{major}.2.3-a{behind}")?;
    }
    Ok(text)
}
