// What is wrong with a version text, and which words of a range text are ignored.

ghost use Rattle.nodejs_semver.specs.Diagnosis.IgnoredWords.{AreIgnored};
ghost use Rattle.nodejs_semver.specs.Diagnosis.VersionFlaws.{IsExact, IsFlaw};
ghost use Rattle.nodejs_semver.specs.declared.diagnosis.ranges.IgnoredWord.{IgnoredWord};
ghost use Rattle.nodejs_semver.specs.declared.diagnosis.versions.VersionFlaw.{VersionFlaw};
ghost use Rattle.nodejs_semver_c.specs.Answers.{OnText};
ghost use Rattle.nodejs_semver_c.specs.Numbers.{flaw_number, flaw_place};
ghost use Rattle.nodejs_semver_c.specs.Words.{TellsWords, fitted, told_word, word_number};
ghost use Rattle.semver_core.specs.declared.TheConstants.{MAX_SAFE_INTEGER};
ghost use Rattle.std.specs.Prelude.{◌≡◌, ◌⊎◌, ◌-◌, ◌^◌, ◌++◌, ◌∷◌, [], List, length, min};

use crate::{
    FLAW_DIGIT, FLAW_DOT, FLAW_IGNORED, FLAW_NUMBER, FLAW_TOO_LONG, NOTHING, OK, TOO_SMALL,
    WORD_MALFORMED, WORD_WITHOUT_BOUNDS, read,
};
use nodejs_semver::MAX_LENGTH;
use nodejs_semver::diagnosis::{
    Expected, IgnoredKind, IgnoredWord, VersionFlaw, ignored_words, version_flaw,
};

/// What is wrong with a version text: `flaw` gets one of `FLAW_DIGIT` to `FLAW_TOO_LONG`, and
/// `place` the byte. There is nothing exactly if the whole text is one version.
///
/// Returns `OK`, `NOTHING`, `NOT_UTF8` or `TOO_LONG`.
#[unsafe(no_mangle)]
pub extern "C" fn nodejs_semver_version_flaw(
    version: &[u8],
    flaw: &mut u32,
    place: &mut usize,
) -> u32
    ensures { let kept = (flaw.new ≡ flaw.old) × (place.new ≡ place.old) in
        OnText version.now result kept (
        ((result ≡ NOTHING) × IsExact MAX_SAFE_INTEGER version.now × kept)
        ⊎ ((f : VersionFlaw) × (result ≡ OK) × IsFlaw MAX_SAFE_INTEGER version.now f
        × (flaw.new ≡ flaw_number f) × (place.new ≡ flaw_place f))) }
{
    match read::text(version) {
        Ok(text) => tell_flaw(text, flaw, place),
        Err(status) => status,
    }
}

fn tell_flaw(text: &str, flaw: &mut u32, place: &mut usize) -> u32
    ensures { ((result ≡ NOTHING) × IsExact MAX_SAFE_INTEGER text.now
        × ((flaw.new ≡ flaw.old) × (place.new ≡ place.old)))
        ⊎ ((f : VersionFlaw) × (result ≡ OK) × IsFlaw MAX_SAFE_INTEGER text.now f
        × (flaw.new ≡ flaw_number f) × (place.new ≡ flaw_place f)) }
{
    match version_flaw(text) {
        None => NOTHING,
        Some(found) => {
            (*flaw, *place) = told(found);
            OK
        }
    }
}

// The number of a flaw, and its place.
fn told(flaw: VersionFlaw) -> (u32, usize)
    ensures { (result.0 ≡ flaw_number flaw) × (result.1 ≡ flaw_place flaw) }
{
    match flaw {
        VersionFlaw::TooLong => (FLAW_TOO_LONG, MAX_LENGTH),
        VersionFlaw::NumberTooGreat { at } => (FLAW_NUMBER, at),
        VersionFlaw::Expected {
            what: Expected::Digit,
            at,
        } => (FLAW_DIGIT, at),
        VersionFlaw::Expected {
            what: Expected::Dot,
            at,
        } => (FLAW_DOT, at),
        VersionFlaw::Ignored { at } => (FLAW_IGNORED, at),
    }
}

/// An ignored word of a range text.
#[repr(C)]
#[derive(Clone, Copy)]
pub struct Word {
    /// The place of its first byte.
    pub start: usize,
    /// The place behind its last byte.
    pub end: usize,
    /// `WORD_MALFORMED` or `WORD_WITHOUT_BOUNDS`.
    pub kind: u32,
}

/// The words of a range text that the port's reading ignores: `words` gets as many, from the left,
/// as it has room for, and `len` their number.
///
/// Returns `OK`, `TOO_SMALL`, `NOT_UTF8` or `TOO_LONG`.
#[unsafe(no_mangle)]
pub extern "C" fn nodejs_semver_range_ignored_words(
    range: &[u8],
    words: &mut [Word],
    len: &mut usize,
) -> u32
    ensures { let kept = (words.new ≡ words.old) × (len.new ≡ len.old) in
        OnText range.now result kept (
        (ws : List IgnoredWord) × AreIgnored MAX_SAFE_INTEGER range.now ws
        × TellsWords ws words.old words.new len.new result) }
{
    let text = ok_or_return!(read::text(range));
    *len = tell_words(text, words);
    if *len <= words.len() { OK } else { TOO_SMALL }
}

// Tells the first ignored words, and returns the number of all.
fn tell_words(text: &str, words: &mut [Word]) -> usize
    ensures { (ws : List IgnoredWord) × AreIgnored MAX_SAFE_INTEGER text.now ws
        × (words.new ≡ fitted told_word ws words.old)
        × (result ≡ min (length ws) (2 ^ 64 - 1)) }
{
    let mut left = ignored_words(text);
    let mut count = 0usize;
    'words: while let Some(word) = left.next() {
        tell_word(word, count, words);
        count = count.saturating_add(1);
    }
    count
}

// Tells a word behind the `at` words before it, if there is room.
fn tell_word(word: IgnoredWord, at: usize, words: &mut [Word])
    ensures { (front : List IgnoredWord) (old : List Word) → at ≡ min (length front) (2 ^ 64 - 1)
        → words.old ≡ fitted told_word front old
        → words.new ≡ fitted told_word (front ++ word ∷ []) old }
{
    if at < words.len() {
        words[at] = told_word(word);
    }
}

fn told_word(word: IgnoredWord) -> Word
    ensures { result ≡ told_word word }
{
    Word {
        start: word.start,
        end: word.end,
        kind: number_of(word.kind),
    }
}

fn number_of(kind: IgnoredKind) -> u32
    ensures { result ≡ word_number kind }
{
    match kind {
        IgnoredKind::Malformed => WORD_MALFORMED,
        IgnoredKind::WithoutBounds => WORD_WITHOUT_BOUNDS,
    }
}
