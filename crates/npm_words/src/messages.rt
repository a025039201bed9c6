// How the flaws of version texts and of range texts print.

ghost use Rattle.npm_words.specs.Messages.{flaw_text, wrong_text};
ghost use Rattle.std.specs.Prelude.{Some, ◌≡◌};

use crate::flaws::{Flaw, Wrong};
use semver_pieces::write_at;
use std::fmt;

// What is wrong, before its place.
fn wrong_message(wrong: Wrong) -> &'static str
    ensures { result.now ≡ wrong_text wrong }
{
    match wrong {
        Wrong::Mark => "a mark other than one v at byte ",
        Wrong::LeadingZero => "a leading zero before byte ",
        Wrong::NumberTooGreat => "a number above 9007199254740991 at byte ",
        Wrong::MissingHyphen => "expected a hyphen before the pre-release at byte ",
        Wrong::Digit => "expected a digit at byte ",
        Wrong::Dot => "expected a dot at byte ",
        Wrong::Identifier => "expected an identifier at byte ",
        Wrong::Behind => "text behind the version at byte ",
    }
}

/// A flaw prints as a message with its place, as in `a leading zero before byte 3`. Width, fill and
/// precision change nothing.
impl fmt::Display for Flaw {
    ghost output = { λ flaw. Some (flaw_text flaw) };

    ghost styled_output = { λ flaw _. Some (flaw_text flaw) };

    fn fmt<W: fmt::Write>(&self, f: &mut fmt::Formatter<W>) -> fmt::Result {
        match *self {
            Flaw::TooLong => f.write_str("longer than 256 characters"),
            Flaw::At { wrong, at } => write_at(wrong_message(wrong), at, f),
        }
    }
}
