// How identifiers and versions print.

ghost use Rattle.std.specs.Prelude.{◌++◌, ◌∷◌};
ghost use Rattle.semver_core.specs.Words.{[], decimal, DisplaysStyledOnOk, id_text, id_view};
ghost use Rattle.semver_core.specs.Words.{marked_list, Some, version_text};

use crate::{Identifier, IdentifierRefs, Version, VersionRef, Versioned};
use itoa::Buffer;
use std::fmt;

// Each digit with a dot behind it.
const DIGITS: &str = "0.1.2.3.4.5.6.7.8.9.";

// A number in decimal. The length of a short one is known, so that it is copied without a call.
#[inline(always)]
pub(crate) fn write_decimal<W: fmt::Write>(number: u64, f: &mut fmt::Formatter<W>) -> fmt::Result
    ensures { DisplaysStyledOnOk W.write_str_gives f.old result (Some (decimal number)) f.new }
{
    if number < 10 {
        let at = 2 * number as usize;
        return f.write_str(&DIGITS[at..at + 1]);
    }
    if number < 100 {
        return f.write_str(Buffer::new().format(number as u8));
    }
    f.write_str(Buffer::new().format(number))
}

// A number in decimal, where a call is less than what is written beside it.
#[inline(never)]
pub(crate) fn write_number<W: fmt::Write>(number: u64, f: &mut fmt::Formatter<W>) -> fmt::Result
    ensures { DisplaysStyledOnOk W.write_str_gives f.old result (Some (decimal number)) f.new }
{
    write_decimal(number, f)
}

// A number in decimal and a dot. A digit is written together with the dot.
#[inline(always)]
pub(crate) fn write_dotted<W: fmt::Write>(number: u64, f: &mut fmt::Formatter<W>) -> fmt::Result
    ensures { DisplaysStyledOnOk W.write_str_gives f.old result
        (Some (decimal number ++ 46 ∷ [])) f.new }
{
    if number < 10 {
        let at = 2 * number as usize;
        return f.write_str(&DIGITS[at..at + 2]);
    }
    write_decimal(number, f)?;
    f.write_str(".")
}

/// A number prints in decimal, and a text as it is. Width, fill and precision change nothing.
impl fmt::Display for Identifier {
    ghost output = { λ id. Some (id_text (id_view id)) };

    ghost styled_output = { λ id _. Some (id_text (id_view id)) };

    fn fmt<W: fmt::Write>(&self, f: &mut fmt::Formatter<W>) -> fmt::Result {
        fmt::Display::fmt(&self.as_ref(), f)
    }
}

// A mark and the identifiers joined by dots, or nothing where there are none.
#[inline(always)]
pub(crate) fn write_list<W: fmt::Write>(
    mark: &str,
    ids: IdentifierRefs<'_>,
    f: &mut fmt::Formatter<W>,
) -> fmt::Result
    ensures { DisplaysStyledOnOk W.write_str_gives f.old result
        (Some (marked_list mark.now ids.entry)) f.new }
{
    if ids.is_empty() {
        return Ok(());
    }
    let mut sign = mark;
    let mut others = ids;
    'ids: while let Some(id) = others.next() {
        f.write_str(sign)?;
        fmt::Display::fmt(&id, f)?;
        sign = ".";
    }
    Ok(())
}

/// A version prints as `major.minor.patch`, then `-` and the pre-release where there is one, then
/// `+` and the build where there is one, the identifiers of each joined by dots, as in
/// `1.2.3-rc.1+build.7`. Width, fill and precision change nothing.
///
/// What is printed is read back by `Version::parse` where it has at most 256 bytes, the three
/// numbers are at most `MAX_SAFE_INTEGER`, and each `AlphaNumeric` is a run of ASCII letters,
/// digits and `-` that is not a number of 64 bits in digits. `laws::printed_versions_come_back` and
/// `laws::reread` say so.
impl fmt::Display for Version {
    ghost output = { λ v. Some (version_text v) };

    ghost styled_output = { λ v _. Some (version_text v) };

    fn fmt<W: fmt::Write>(&self, f: &mut fmt::Formatter<W>) -> fmt::Result {
        self.print(f)
    }
}

/// Prints as the `Version` of the same five values: `01` of a text prints as `1`.
impl<'a> fmt::Display for VersionRef<'a> {
    ghost output = { λ v. Some (version_text v) };

    ghost styled_output = { λ v _. Some (version_text v) };

    fn fmt<W: fmt::Write>(&self, f: &mut fmt::Formatter<W>) -> fmt::Result {
        self.print(f)
    }
}
