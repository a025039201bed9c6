//! The first malformed end of a hyphen range, or word of an alternative, in node-semver's strict
//! reading.
//!
//! This is for the crates of this repository.

ghost use Rattle.npm_words.specs.MalformedEnds.{IsMalformedPart, IsWrongEnd};
ghost use Rattle.npm_words.specs.{MalformedWords.{IsLeft, IsRightWord}, Words.{IfNone, IfSome}};
ghost use Rattle.{npm_words.specs.Words.{MAX_SAFE_INTEGER, NoValue, length}, std.specs.Prelude.ℕ};
ghost use Rattle.std.specs.{Prelude.◌≤◌, Str.IsUtf8};

use crate::comparators::row;
use crate::hyphens::{end_texts, is_lower_end, is_upper_end};
use crate::words::word_front;
use semver_pieces::{skip_spaces, skip_to_boundary};

// What stands behind the word at the front, if that is well-formed and its comparators are valid.
fn right_word(include: bool, text: &[u8]) -> Option<&[u8]>
    requires { IsUtf8 text.now }
    ensures some { IfSome result
        (λ behind. IsRightWord MAX_SAFE_INTEGER include text.now behind.now) }
    ensures none { IfNone result (NoValue (IsRightWord MAX_SAFE_INTEGER include text.now)) }
{
    let (word, behind) = word_front(false, text)?;
    row(include, word.sign, &word.partial, word.text)?;
    Some(behind)
}

// What is left of a text behind the words at its front that are right.
fn skip_right_words(include: bool, text: &[u8]) -> &[u8]
    requires { IsUtf8 text.now }
    ensures left { IsLeft MAX_SAFE_INTEGER include result.now text.now }
    ensures wrong { NoValue (IsRightWord MAX_SAFE_INTEGER include result.now) }
    ensures utf8 { IsUtf8 result.now }
    ensures fits { length result.now ≤ length text.now }
{
    let mut rest = text;
    'words: while let Some(behind) = right_word(include, rest) {
        rest = skip_spaces(behind);
    }
    rest
}

// Where the first end begins and ends that is none, of a text that has the form of a hyphen range.
fn wrong_end(include: bool, text: &[u8]) -> Option<(usize, usize)>
    requires { IsUtf8 text.now }
    ensures some { IfSome result
        (λ place. IsWrongEnd MAX_SAFE_INTEGER include text.now place.0 place.1) }
    ensures none { IfNone result
        ((start end : ℕ) → IsWrongEnd MAX_SAFE_INTEGER include text.now start end → ⊥) }
    ensures fits { IfSome result
        (λ place. (place.0 ≤ length text.now) × (place.1 ≤ length text.now)) }
{
    let (first, second) = end_texts(text)?;
    if !is_lower_end(include, first) {
        return Some((0, first.len()));
    }
    if !is_upper_end(include, second) {
        return Some((text.len() - second.len(), text.len()));
    }
    None
}

/// Where what is malformed begins and ends in an alternative that is: the first such end, if it
/// has the form of a hyphen range with one, or else the first such word.
pub fn malformed_part(include: bool, text: &[u8]) -> (usize, usize)
    requires { IsUtf8 text.now }
    ensures part { IsMalformedPart MAX_SAFE_INTEGER include text.now result.0 result.1 }
    ensures fits { (result.0 ≤ length text.now) × (result.1 ≤ length text.now) }
{
    match wrong_end(include, text) {
        Some(place) => place,
        None => {
            let rest = skip_right_words(include, text);
            let behind = skip_to_boundary(rest);
            (text.len() - rest.len(), text.len() - behind.len())
        }
    }
}
