// A text, and carets under the place where something is wrong.

ghost use Rattle.std.specs.Prelude.{◌≡◌};

use npm_reading::{Flaw, Wrong, range_flaw, version_flaw};
use std::fmt;

/// A reason, the text below it, and carets under its bytes between two places, or under the first.
/// Every character that is not printable ASCII is escaped.
#[derive(Clone, Copy, Debug)]
pub struct Marked<'a> {
    pub reason: &'static str,
    pub text: &'a str,
    pub start: usize,
    pub end: usize,
}

impl<'a> Marked<'a> {
    /// The whole text is marked.
    pub fn whole(reason: &'static str, text: &'a str) -> Marked<'a>
        ensures { result.text.now ≡ text.now }
    {
        Marked {
            reason,
            text,
            start: 0,
            end: text.len(),
        }
    }

    /// Why npm does not read a text as a version.
    pub fn no_version(text: &'a str) -> Marked<'a>
        ensures { result.text.now ≡ text.now }
    {
        let end = text.len();
        match version_flaw(text) {
            None => Marked::whole("no version", text),
            Some(Flaw::TooLong) => Marked::whole("longer than 256 characters", text),
            Some(Flaw::At { wrong, at }) => Marked {
                reason: words(wrong),
                text,
                start: at,
                end: if is_behind(wrong) { end } else { at },
            },
        }
    }

    /// Why npm does not read a text as a range: its first malformed word.
    pub fn no_range(text: &'a str, include_prerelease: bool) -> Marked<'a>
        ensures { result.text.now ≡ text.now }
    {
        match range_flaw(text, include_prerelease) {
            None => Marked::whole("no range", text),
            Some(flaw) => Marked {
                reason: "malformed word",
                text,
                start: flaw.word_start,
                end: flaw.word_end,
            },
        }
    }
}

impl fmt::Display for Marked<'_> {
    fn fmt<W: fmt::Write>(&self, f: &mut fmt::Formatter<W>) -> fmt::Result {
        write!(f, "{}\n  ", self.reason)?;
        for letter in self.text.chars() {
            write_shown(letter, f)?;
        }
        f.write_str("\n  ")?;
        for (at, letter) in self.text.char_indices() {
            if at < self.start {
                write_times(" ", shown_len(letter), f)?;
            } else if at == self.start || at < self.end {
                write_times("^", shown_len(letter), f)?;
            }
        }
        if self.start >= self.text.len() {
            f.write_str("^")?;
        }
        Ok(())
    }
}

// What is wrong, in words.
fn words(wrong: Wrong) -> &'static str {
    match wrong {
        Wrong::Mark => "a mark where a number begins",
        Wrong::LeadingZero => "a leading zero",
        Wrong::NumberTooGreat => "a number above 9007199254740991",
        Wrong::MissingHyphen => "a - is missing before a pre-release",
        Wrong::Digit => "a digit is expected",
        Wrong::Dot => "a dot is expected",
        Wrong::Identifier => "an identifier is expected",
        Wrong::Behind => "text after a version",
    }
}

fn is_behind(wrong: Wrong) -> bool {
    matches!(wrong, Wrong::Behind)
}

fn is_plain(letter: char) -> bool {
    matches!(letter, ' '..='~') && letter != '\\'
}

fn write_shown<W: fmt::Write>(letter: char, f: &mut fmt::Formatter<W>) -> fmt::Result {
    if is_plain(letter) {
        f.write_char(letter)
    } else {
        write!(f, "{}", letter.escape_unicode())
    }
}

// How many characters a character is written as.
fn shown_len(letter: char) -> usize {
    if is_plain(letter) {
        1
    } else {
        letter.escape_unicode().count()
    }
}

fn write_times<W: fmt::Write>(mark: &str, times: usize, f: &mut fmt::Formatter<W>) -> fmt::Result {
    for _ in 0..times {
        f.write_str(mark)?;
    }
    Ok(())
}
