// Texts of up to eight characters that the grammar of versions or of ranges makes. All are ASCII,
// so that they have as many characters as bytes.

ghost use Rattle.std.specs.Prelude.{◌<◌};

use crate::readers::kind::Kind;
use rand::seq::IndexedRandom;
use rand::{Rng, RngExt};
use std::alloc::{AllocError, Global};

const LONGEST: usize = 8;

const DIGITS: [&str; 4] = ["0", "1", "2", "9"];

const WILDCARDS: [&str; 3] = ["x", "X", "*"];

const PRE_RELEASES: [&str; 8] = ["-a", "-0", "a", "-1a", "--", "-a.1", "-01", "b-c"];

const BUILDS: [&str; 4] = ["+b", "+1", "+-", "+b.1"];

const VERSION_MARKS: [&str; 5] = ["v", "V", " ", "v ", "V "];

const RESTS: [&str; 4] = [".4", " ", "||", "+"];

const PARTIAL_MARKS: [&str; 2] = ["v", "v "];

const SIGNS: [&str; 12] = ["", "", "", "^", "~", ">=", ">", "=", "<=", "<", "~>", "> "];

const BETWEEN_WORDS: [&str; 6] = [" ", " ", "  ", "||", "|| ", " || "];

/// A text that the grammar of a kind makes, by random choices.
pub fn text<R: Rng>(alloc: Global, rng: &mut R, kind: Kind) -> Result<String, AllocError> {
    let mut text = String::new(alloc);
    match kind {
        Kind::Version => add_version(rng, &mut text)?,
        Kind::Range => add_range(rng, &mut text)?,
    }
    Ok(text)
}

// Adds one of some pieces, if the text is then no longer than `end`.
fn add_one_of<R: Rng>(
    rng: &mut R,
    text: &mut String,
    pieces: &[&str],
    end: usize,
) -> Result<(), AllocError> {
    match pieces.choose(rng) {
        Some(piece) if piece.len() <= end.saturating_sub(text.len()) => text.push_str(piece),
        _ => Ok(()),
    }
}

// Adds a digit, and sometimes a second one.
fn add_number<R: Rng>(rng: &mut R, text: &mut String, end: usize) -> Result<(), AllocError> {
    add_one_of(rng, text, &DIGITS, end)?;
    if rng.random_ratio(1, 8) {
        add_one_of(rng, text, &DIGITS, end)?;
    }
    Ok(())
}

// Adds a pre-release, build metadata, both or neither.
fn add_qualifier<R: Rng>(rng: &mut R, text: &mut String, end: usize) -> Result<(), AllocError> {
    if rng.random_ratio(1, 2) {
        add_one_of(rng, text, &PRE_RELEASES, end)?;
    }
    if rng.random_ratio(1, 4) {
        add_one_of(rng, text, &BUILDS, end)?;
    }
    Ok(())
}

// Adds a version, with a mark or whitespace before it and with a rest behind it in some texts.
fn add_version<R: Rng>(rng: &mut R, text: &mut String) -> Result<(), AllocError> {
    if rng.random_ratio(1, 4) {
        add_one_of(rng, text, &VERSION_MARKS, LONGEST - 5)?;
    }
    add_number(rng, text, LONGEST - 4)?;
    text.push('.')?;
    add_number(rng, text, LONGEST - 2)?;
    text.push('.')?;
    add_number(rng, text, LONGEST)?;
    add_qualifier(rng, text, LONGEST)?;
    if rng.random_ratio(1, 8) {
        add_one_of(rng, text, &RESTS, LONGEST)?;
    }
    Ok(())
}

fn add_component<R: Rng>(rng: &mut R, text: &mut String, end: usize) -> Result<(), AllocError> {
    if rng.random_ratio(1, 4) {
        add_one_of(rng, text, &WILDCARDS, end)
    } else {
        add_number(rng, text, end)
    }
}

// Adds a partial of one to three components.
fn add_partial<R: Rng>(rng: &mut R, text: &mut String, end: usize) -> Result<(), AllocError>
    requires { 0 < end }
{
    if rng.random_ratio(1, 8) {
        add_one_of(rng, text, &PARTIAL_MARKS, end - 1)?;
    }
    add_component(rng, text, end)?;
    for _ in 0..2 {
        if end.saturating_sub(text.len()) < 2 || rng.random_ratio(1, 4) {
            return Ok(());
        }
        text.push('.')?;
        add_component(rng, text, end)?;
    }
    add_qualifier(rng, text, end)
}

// Adds a word, if there is room for a character or more: a hyphen range, or a partial with a sign
// or none before it.
fn add_word<R: Rng>(rng: &mut R, text: &mut String) -> Result<(), AllocError> {
    if text.len() <= LONGEST - 5 && rng.random_ratio(1, 4) {
        add_partial(rng, text, LONGEST - 4)?;
        text.push_str(" - ")?;
    } else {
        add_one_of(rng, text, &SIGNS, LONGEST - 1)?;
    }
    add_partial(rng, text, LONGEST)
}

// Adds words, with whitespace or bars between them.
fn add_range<R: Rng>(rng: &mut R, text: &mut String) -> Result<(), AllocError> {
    add_word(rng, text)?;
    for _ in 1..LONGEST {
        let behind_word = text.len();
        if rng.random_ratio(1, 2) {
            add_one_of(rng, text, &BETWEEN_WORDS, LONGEST - 1)?;
        }
        if text.len() == behind_word {
            break;
        }
        add_word(rng, text)?;
    }
    Ok(())
}
