// What npm's reading finds wrong with a text.

ghost use Rattle.npm_reading.specs.RangeFlaws.{IsRangeFlaw};
ghost use Rattle.npm_reading.specs.declared.range_flaws.RangeFlaw.{RangeFlaw};
ghost use Rattle.npm_words.specs.Alternatives.{HasAlternativesIn};
ghost use Rattle.npm_words.specs.Flaws.{IsFlaw};
ghost use Rattle.npm_words.specs.Table.{Comparison};
ghost use Rattle.npm_words.specs.VersionText.{IsVersionText};
ghost use Rattle.npm_words.specs.declared.flaws.Flaw.{Flaw};
ghost use Rattle.nodejs_semver_c.specs.Answers.{OnText};
ghost use Rattle.nodejs_semver_c.specs.Flaws.{told_flaw, wrong_number, wrong_place};
ghost use Rattle.semver_core.specs.Values.Versions.{VersionValue};
ghost use Rattle.semver_core.specs.declared.TheConstants.{MAX_SAFE_INTEGER};
ghost use Rattle.std.specs.Prelude.{◌≡◌, ◌⊎◌, List, false};

use crate::{
    NOTHING, OK, WRONG_BEHIND, WRONG_DIGIT, WRONG_DOT, WRONG_IDENTIFIER, WRONG_LEADING_ZERO,
    WRONG_MARK, WRONG_MISSING_HYPHEN, WRONG_NUMBER, WRONG_TOO_LONG, read,
};
use nodejs_semver::MAX_LENGTH;
use npm_reading::{Flaw, RangeFlaw, Wrong, range_flaw, version_flaw};

/// What npm's reading finds wrong with a version text: `flaw` gets one of `WRONG_MARK` to
/// `WRONG_TOO_LONG`, and `place` the byte. There is nothing exactly if npm reads the text.
///
/// Returns `OK`, `NOTHING`, `NOT_UTF8` or `TOO_LONG`.
#[unsafe(no_mangle)]
pub extern "C" fn nodejs_semver_version_npm_flaw(
    version: &[u8],
    flaw: &mut u32,
    place: &mut usize,
) -> u32
    ensures { let kept = (flaw.new ≡ flaw.old) × (place.new ≡ place.old) in
        OnText version.now result kept (((result ≡ NOTHING)
        × ((v : VersionValue) × IsVersionText MAX_SAFE_INTEGER version.now v) × kept)
        ⊎ ((f : Flaw) × (result ≡ OK) × IsFlaw MAX_SAFE_INTEGER version.now f
        × (flaw.new ≡ wrong_number f) × (place.new ≡ wrong_place f))) }
{
    match read::text(version) {
        Ok(text) => tell_flaw(text, flaw, place),
        Err(status) => status,
    }
}

fn tell_flaw(text: &str, flaw: &mut u32, place: &mut usize) -> u32
    ensures { ((result ≡ NOTHING)
        × ((v : VersionValue) × IsVersionText MAX_SAFE_INTEGER text.now v)
        × ((flaw.new ≡ flaw.old) × (place.new ≡ place.old)))
        ⊎ ((f : Flaw) × (result ≡ OK) × IsFlaw MAX_SAFE_INTEGER text.now f
        × (flaw.new ≡ wrong_number f) × (place.new ≡ wrong_place f)) }
{
    match version_flaw(text) {
        None => NOTHING,
        Some(found) => {
            (*flaw, *place) = told(found);
            OK
        }
    }
}

// The number of a flaw, and its place.
fn told(flaw: Flaw) -> (u32, usize)
    ensures { (result.0 ≡ wrong_number flaw) × (result.1 ≡ wrong_place flaw) }
{
    match flaw {
        Flaw::TooLong => (WRONG_TOO_LONG, MAX_LENGTH),
        Flaw::At {
            wrong: Wrong::Mark,
            at,
        } => (WRONG_MARK, at),
        Flaw::At {
            wrong: Wrong::LeadingZero,
            at,
        } => (WRONG_LEADING_ZERO, at),
        Flaw::At {
            wrong: Wrong::NumberTooGreat,
            at,
        } => (WRONG_NUMBER, at),
        Flaw::At {
            wrong: Wrong::MissingHyphen,
            at,
        } => (WRONG_MISSING_HYPHEN, at),
        Flaw::At {
            wrong: Wrong::Digit,
            at,
        } => (WRONG_DIGIT, at),
        Flaw::At {
            wrong: Wrong::Dot,
            at,
        } => (WRONG_DOT, at),
        Flaw::At {
            wrong: Wrong::Identifier,
            at,
        } => (WRONG_IDENTIFIER, at),
        Flaw::At {
            wrong: Wrong::Behind,
            at,
        } => (WRONG_BEHIND, at),
    }
}

/// An alternative of a range text that npm's reading rejects. A place is a byte.
#[repr(C)]
#[derive(Clone, Copy)]
pub struct Alternative {
    /// The place of its first byte.
    pub start: usize,
    /// The place behind its last byte.
    pub end: usize,
    /// The place of the first byte of what is malformed in it.
    pub word_start: usize,
    /// The place behind the last byte of what is malformed in it.
    pub word_end: usize,
}

/// What npm's reading finds wrong with a range text: `flaw` gets the first alternative that is
/// malformed, and what is malformed in it. There is nothing exactly if npm reads the text.
///
/// Returns `OK`, `NOTHING`, `NOT_UTF8` or `TOO_LONG`.
#[unsafe(no_mangle)]
pub extern "C" fn nodejs_semver_range_npm_flaw(
    range: &[u8],
    include_prerelease: bool,
    flaw: &mut Alternative,
) -> u32
    ensures { OnText range.now result (flaw.new ≡ flaw.old) (((result ≡ NOTHING)
        × ((alternatives : List (List Comparison)) × HasAlternativesIn false MAX_SAFE_INTEGER
        include_prerelease range.now alternatives) × (flaw.new ≡ flaw.old))
        ⊎ ((f : RangeFlaw) × (result ≡ OK)
        × IsRangeFlaw MAX_SAFE_INTEGER include_prerelease range.now f
        × (flaw.new ≡ told_flaw f))) }
{
    match read::text(range) {
        Ok(text) => tell_range_flaw(text, include_prerelease, flaw),
        Err(status) => status,
    }
}

fn tell_range_flaw(text: &str, include_prerelease: bool, flaw: &mut Alternative) -> u32
    ensures { ((result ≡ NOTHING)
        × ((alternatives : List (List Comparison)) × HasAlternativesIn false MAX_SAFE_INTEGER
        include_prerelease text.now alternatives) × (flaw.new ≡ flaw.old))
        ⊎ ((f : RangeFlaw) × (result ≡ OK)
        × IsRangeFlaw MAX_SAFE_INTEGER include_prerelease text.now f × (flaw.new ≡ told_flaw f)) }
{
    match range_flaw(text, include_prerelease) {
        None => NOTHING,
        Some(found) => {
            *flaw = Alternative {
                start: found.start,
                end: found.end,
                word_start: found.word_start,
                word_end: found.word_end,
            };
            OK
        }
    }
}
