// Messages with a place.

ghost use Rattle.std.specs.Prelude.{◌++◌};
ghost use Rattle.semver_core.specs.Words.{decimal, DisplaysStyledOnOk, Some};

use itoa::Buffer;
use std::fmt;

/// Writes a message and a place.
pub fn write_at<W: fmt::Write>(message: &str, at: usize, f: &mut fmt::Formatter<W>) -> fmt::Result
    ensures { DisplaysStyledOnOk W.write_str_gives f.old result
        (Some (message.now ++ decimal at)) f.new }
{
    f.write_str(message)?;
    f.write_str(Buffer::new().format(at))
}
