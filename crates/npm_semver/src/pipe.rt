// Standard output, whose reader may close it early.

ghost use Rattle.npm_semver.specs.Outcomes.{IsUnlessClosed};

use std::io;
use std::io::ErrorKind;

/// Returns how a write to standard output ended. Where its reader has closed the pipe, as `head`
/// does, that is no error: it wants no more.
pub fn unless_closed(written: io::Result<()>) -> io::Result<()>
    ensures { IsUnlessClosed written result }
{
    let Err(error) = written else {
        return Ok(());
    };
    match error.kind() {
        ErrorKind::BrokenPipe => Ok(()),
        _ => Err(error),
    }
}
