// How flaws and ignored words print.

ghost use Rattle.nodejs_semver.specs.Words.{flaw_text, Some};
ghost use Rattle.nodejs_semver.specs.Words.{word_text};

use crate::diagnosis::{Expected, IgnoredKind, IgnoredWord, VersionFlaw};
use semver_pieces::write_at;
use std::fmt;

/// A flaw prints as a message with its place, as in `expected a digit at byte 2`. Width, fill and
/// precision change nothing.
impl fmt::Display for VersionFlaw {
    ghost output = { λ flaw. Some (flaw_text flaw) };

    ghost styled_output = { λ flaw _. Some (flaw_text flaw) };

    fn fmt<W: fmt::Write>(&self, f: &mut fmt::Formatter<W>) -> fmt::Result {
        match *self {
            VersionFlaw::TooLong => f.write_str("longer than 256 bytes"),
            VersionFlaw::NumberTooGreat { at } => {
                write_at("a number above 9007199254740991 at byte ", at, f)
            }
            VersionFlaw::Expected { what, at } => match what {
                Expected::Digit => write_at("expected a digit at byte ", at, f),
                Expected::Dot => write_at("expected a dot at byte ", at, f),
            },
            VersionFlaw::Ignored { at } => write_at("ignored from byte ", at, f),
        }
    }
}

/// An ignored word prints as its kind and its place, as in `ignored: malformed word at bytes 0 to
/// 8`. Width, fill and precision change nothing.
impl fmt::Display for IgnoredWord {
    ghost output = { λ word. Some (word_text word) };

    ghost styled_output = { λ word _. Some (word_text word) };

    fn fmt<W: fmt::Write>(&self, f: &mut fmt::Formatter<W>) -> fmt::Result {
        let message = match self.kind {
            IgnoredKind::Malformed => "ignored: malformed word at bytes ",
            IgnoredKind::WithoutBounds => "ignored: word without bounds at bytes ",
        };
        write_at(message, self.start, f)?;
        write_at(" to ", self.end, f)
    }
}
