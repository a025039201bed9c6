// Texts are written into the buffers of C. This takes no memory.

ghost use Rattle.nodejs_semver.specs.Printing.Text.{range_text};
ghost use Rattle.nodejs_semver_c.specs.Answers.{Prints, PrintsFound};
ghost use Rattle.nodejs_semver_c.specs.Internal.Pieces.{Adds};
ghost use Rattle.semver_core.specs.Printing.Text.{version_text};
ghost use Rattle.std.specs.Prelude.{◌≡◌, ◌-◌, ◌^◌, ℕ, List, length, min};

use crate::pieces::{put, put_bytes, put_range, put_version};
use crate::read::MOST_BYTES;
use crate::{NOTHING, OK, TOO_LONG, TOO_SMALL};
use nodejs_semver::{RangeRef, Version, VersionRef};

/// What has a text, which is put into a buffer piece by piece.
pub trait Printed {
    ghost text: { Self → List ℕ };

    /// Puts the text behind the texts that were put before.
    fn put(&self, out: &mut [u8], len: &mut usize)
        ensures { Adds (text self.now) out.old out.new len.old len.new };
}

impl Printed for Version {
    ghost text = { λ v. version_text v };

    fn put(&self, out: &mut [u8], len: &mut usize) {
        put_version(self, out, len);
    }
}

impl<'a> Printed for VersionRef<'a> {
    ghost text = { λ v. version_text v };

    fn put(&self, out: &mut [u8], len: &mut usize) {
        put_version(self, out, len);
    }
}

impl<'a> Printed for RangeRef<'a> {
    ghost text = { λ r. range_text r };

    fn put(&self, out: &mut [u8], len: &mut usize) {
        put_range(self.intervals(), out, len);
    }
}

/// A text that is printed as it is.
#[derive(Drop)]
pub struct Text<'a>(pub &'a str);

impl<'a> Printed for Text<'a> {
    ghost text = { λ t. t.0.now };

    fn put(&self, out: &mut [u8], len: &mut usize) {
        put(self.0, out, len);
    }
}

/// Bytes that are printed as they are.
#[derive(Drop)]
pub struct Bytes<'a>(pub &'a [u8]);

impl<'a> Printed for Bytes<'a> {
    ghost text = { λ t. t.0.now };

    #[inline(always)]
    fn put(&self, out: &mut [u8], len: &mut usize) {
        put_bytes(self.0, out, len);
    }
}

/// Prints a value into a buffer, and puts the length of its text into `len`. The length is counted
/// first, so that a buffer that is too small stays as it is.
pub fn print<T: Printed>(value: &T, out: &mut [u8], len: &mut usize) -> u32
    ensures { Prints (T.text value.now) out.old out.new len.old len.new result }
{
    let needed = counted(value);
    if needed > MOST_BYTES {
        return TOO_LONG;
    }
    *len = needed;
    if out.len() < needed {
        return TOO_SMALL;
    }
    let mut end = 0;
    value.put(out, &mut end);
    OK
}

// The length of a text.
pub fn counted<T: Printed>(value: &T) -> usize
    ensures { result ≡ min (length (T.text value.now)) (2 ^ 64 - 1) }
{
    let mut len = 0;
    value.put(&mut [], &mut len);
    len
}

/// Prints what is found, if there is any.
pub fn print_found<T: Printed + Drop>(found: Option<T>, out: &mut [u8], len: &mut usize) -> u32
    ensures { PrintsFound T.text found out.old out.new len.old len.new result }
{
    match &found {
        Some(value) => print(value, out, len),
        None => NOTHING,
    }
}
