// What the ignored words of a range text say of it.

use crate::readers::kind::is_same_range;
use nodejs_semver::diagnosis::{IgnoredWord, ignored_words};
use nodejs_semver::readers::{is_blank, range_loose};
use nodejs_semver::{Failure, Range};
use std::alloc::{AllocError, Global};

/// Whether the ignored words of a range text are those of its parts, one part after another; each
/// part means the same without its ignored words; and `Range::parse` rejects the text exactly if
/// nothing but ignored words stands in any part, and some stand in each.
pub fn are_told(alloc: Global, text: &str) -> Result<bool, AllocError> {
    let mut words = ignored_words(text);
    let mut start = 0usize;
    let mut rejected = true;
    for part in text.split("||") {
        for word in ignored_words(part) {
            if words.next() != Some(moved(word, start)) {
                return Ok(false);
            }
        }
        let left = without_words(alloc, part)?;
        if !means_the_same(alloc, part, &left)? {
            return Ok(false);
        }
        rejected = rejected && !is_blank(part) && is_blank(&left);
        start = start.saturating_add(part.len()).saturating_add(2);
    }
    Ok(words.next().is_none() && is_rejected(alloc, text)? == rejected)
}

// A word of a part that begins at a place.
fn moved(word: IgnoredWord, start: usize) -> IgnoredWord {
    IgnoredWord {
        start: word.start.saturating_add(start),
        end: word.end.saturating_add(start),
        kind: word.kind,
    }
}

// A part with a space in place of each ignored word.
fn without_words(alloc: Global, part: &str) -> Result<String, AllocError> {
    let mut left = String::new(alloc);
    let mut place = 0;
    for word in ignored_words(part) {
        left.push_str(part.get(place..word.start).unwrap_or("?"))?;
        left.push(' ')?;
        place = word.end;
    }
    left.push_str(part.get(place..).unwrap_or("?"))?;
    Ok(left)
}

// Whether a part means the same as what is left of it, which is nothing if that is blank.
fn means_the_same(alloc: Global, part: &str, left: &str) -> Result<bool, AllocError> {
    if is_blank(part) {
        return Ok(is_blank(left));
    }
    let range = range_loose(alloc, part)?;
    if is_blank(left) {
        return Ok(range.is_none());
    }
    Ok(match (range, range_loose(alloc, left)?) {
        (Some(range), Some(left)) => is_same_range(&range, &left),
        _ => false,
    })
}

fn is_rejected(alloc: Global, text: &str) -> Result<bool, AllocError> {
    match Range::parse(alloc, text) {
        Ok(_) => Ok(false),
        Err(Failure::Refused(_)) => Ok(true),
        Err(Failure::Memory(error)) => Err(error),
    }
}
