// How the flaws of version texts and of range texts print.

ghost use Rattle.{npm_reading.specs.Messages.range_flaw_text, std.specs.Prelude.Some};

use crate::range_flaws::RangeFlaw;
use semver_pieces::write_at;
use std::fmt;

/// A flaw prints as a message with its place, as in `malformed word at bytes 8 to 16`. Width,
/// fill and precision change nothing.
impl fmt::Display for RangeFlaw {
    ghost output = { λ flaw. Some (range_flaw_text flaw) };

    ghost styled_output = { λ flaw _. Some (range_flaw_text flaw) };

    fn fmt<W: fmt::Write>(&self, f: &mut fmt::Formatter<W>) -> fmt::Result {
        write_at("malformed word at bytes ", self.word_start, f)?;
        write_at(" to ", self.word_end, f)
    }
}
