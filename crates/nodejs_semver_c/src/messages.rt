// What a status says, and the version of the library.

ghost use Rattle.nodejs_semver_c.specs.Answers.{Kept, Prints};
ghost use Rattle.nodejs_semver_c.specs.Messages.{library_version, message_of};
ghost use Rattle.std.specs.Prelude.{◌≡◌, IfNone, IfSome, MatchOption, None, Some};

use crate::print::{Text, print};
use crate::{
    BAD_ARGUMENT, BAD_IDENTIFIER, BAD_RANGE, BAD_VERSION, NO_MEMORY, NOT_A_PRERELEASE, NOT_UTF8,
    NOTHING, OK, OVERFLOW, TOO_LONG, TOO_SMALL,
};

/// Prints what a status says, as `bad version`.
///
/// Returns `OK`, `TOO_SMALL`, `BAD_ARGUMENT` where there is no such status, or `TOO_LONG`.
#[unsafe(no_mangle)]
pub extern "C" fn nodejs_semver_message(status: u32, out: &mut [u8], len: &mut usize) -> u32
    ensures { MatchOption (message_of status)
        ((result ≡ BAD_ARGUMENT) × Kept out.old out.new len.old len.new)
        (λ text. Prints text out.old out.new len.old len.new result) }
{
    match message_of(status) {
        Some(text) => print(&Text(text), out, len),
        None => BAD_ARGUMENT,
    }
}

// The version of the library.
const VERSION: &str = "1.0.0";

/// Prints the version of the library, as `1.0.0`: that of the object which is loaded, where
/// NODEJS_SEMVER_VERSION is that of the header.
///
/// Returns `OK`, `TOO_SMALL` or `TOO_LONG`.
#[unsafe(no_mangle)]
pub extern "C" fn nodejs_semver_version_text(out: &mut [u8], len: &mut usize) -> u32
    ensures { Prints library_version out.old out.new len.old len.new result }
{
    print(&Text(VERSION), out, len)
}

fn message_of(status: u32) -> Option<&'static str>
    ensures some { IfSome result (λ text. message_of status ≡ Some text.now) }
    ensures none { IfNone result (message_of status ≡ None) }
{
    match status {
        OK => Some("answered"),
        NOTHING => Some("nothing"),
        TOO_SMALL => Some("buffer too small"),
        NOT_UTF8 => Some("not UTF-8"),
        BAD_VERSION => Some("bad version"),
        BAD_RANGE => Some("bad range"),
        BAD_ARGUMENT => Some("bad argument"),
        BAD_IDENTIFIER => Some("bad identifier"),
        NOT_A_PRERELEASE => Some("not a prerelease"),
        OVERFLOW => Some("overflow"),
        NO_MEMORY => Some("no memory"),
        TOO_LONG => Some("too long"),
        _ => None,
    }
}
