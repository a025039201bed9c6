// Puts numbers, versions and ranges behind the output, as they print, without a formatter.
#![tactic(auto, using(crate::proofs::Bytes::extended))]

ghost use Rattle.std.specs.Prelude.{◌≡◌, ◌≤◌, ◌<◌, ◌++◌, ◌∷◌, ◌^◌, [], ℕ, List, length};
ghost use Rattle.std.specs.Prelude.{OnOk, OnErr, false};
ghost use Rattle.std.specs.Fmt.{decimal};
ghost use Rattle.semver_core.specs.Lists.{is_empty};
ghost use Rattle.semver_core.specs.Printing.Text.{id_text, marked_list, version_text};
ghost use Rattle.semver_core.specs.Values.Views.{lent_id_view};
ghost use Rattle.semver_answers.specs.Internal.Puts.{Extends, le_value, part_text, release_text};

pub(crate) mod ranges;

use crate::output::Output;
use itoa::Buffer;
use semver_core::{IdentifierRef, IdentifierRefs, NextVersion, Versioned};
use std::alloc::AllocError;

// The digits of a number and a dot, as a number whose lowest byte is the first.
#[inline(always)]
#[tactic(auto, using(crate::proofs::Bytes::part))]
fn part(number: u64) -> u64
    requires { number < 100 }
    ensures value { result ≡ le_value (part_text number) }
    ensures small { result < 2 ^ 24 }
{
    if number < 10 {
        48 + number + 256 * 46
    } else {
        48 + number / 10 + 256 * (48 + number % 10) + 65536 * 46
    }
}

// The digits of a number.
#[inline(always)]
#[tactic(auto, using(crate::proofs::Bytes::digits))]
fn digits(number: u64) -> u64
    requires { number < 100 }
    ensures value { result ≡ le_value (decimal number) }
    ensures small { result < 2 ^ 16 }
{
    if number < 10 {
        48 + number
    } else {
        48 + number / 10 + 256 * (48 + number % 10)
    }
}

// How many bytes the digits take.
#[inline(always)]
#[tactic(auto, using(crate::proofs::Bytes::width))]
fn width(number: u64) -> usize
    requires { number < 100 }
    ensures value { result ≡ length (decimal number) }
    ensures small { result ≤ 2 }
{
    if number < 10 { 1 } else { 2 }
}

// The digits of a number and a dot before a text of at most five bytes.
#[inline(always)]
#[tactic(auto, using(crate::proofs::Bytes::before))]
fn before(number: u64, rest: u64) -> u64
    requires number { number < 100 }
    requires rest { rest < 2 ^ 40 }
    ensures value { (text : List ℕ) → rest ≡ le_value text
        → result ≡ le_value (part_text number ++ text) }
    ensures small { rest < 2 ^ 16 → result < 2 ^ 40 }
{
    if number < 10 {
        part(number) + rest * 65536
    } else {
        part(number) + rest * 16777216
    }
}

// Puts a number in decimal.
#[tactic(auto, using(crate::proofs::Bytes::extended, crate::proofs::Bytes::digits_text))]
fn put_number(number: u64, output: &mut Output) -> Result<(), AllocError>
    ensures ok { OnOk result (output.new ≡ output.old ++ decimal number) }
    ensures err { OnErr result (Extends output.old output.new) }
{
    if number < 100 {
        return output.put_front(digits(number).to_le_bytes(), width(number));
    }
    output.put(Buffer::new().format(number).as_bytes())
}

#[inline(never)]
fn put_long(major: u64, minor: u64, patch: u64, output: &mut Output) -> Result<(), AllocError>
    ensures ok { OnOk result
        (output.new ≡ output.old ++ release_text major minor patch) }
    ensures err { OnErr result (Extends output.old output.new) }
{
    put_number(major, output)?;
    output.push(b'.')?;
    put_number(minor, output)?;
    output.push(b'.')?;
    put_number(patch, output)
}

// Puts three numbers with dots between them; short ones by one store of eight bytes.
#[inline(always)]
fn put_release(major: u64, minor: u64, patch: u64, output: &mut Output) -> Result<(), AllocError>
    ensures ok { OnOk result
        (output.new ≡ output.old ++ release_text major minor patch) }
    ensures err { OnErr result (Extends output.old output.new) }
{
    if major < 100 && minor < 100 && patch < 100 {
        let text = before(major, before(minor, digits(patch)));
        let len = width(major) + width(minor) + width(patch) + 2;
        return output.put_front(text.to_le_bytes(), len);
    }
    put_long(major, minor, patch, output)
}

#[inline(always)]
fn put_id(id: IdentifierRef<'_>, output: &mut Output) -> Result<(), AllocError>
    ensures ok { OnOk result
        (output.new ≡ output.old ++ id_text (lent_id_view id.entry)) }
    ensures err { OnErr result (Extends output.old output.new) }
{
    match id {
        IdentifierRef::Numeric(number) => put_number(number, output),
        IdentifierRef::AlphaNumeric(text) => output.put(text.as_bytes()),
    }
}

// Puts a mark and the identifiers joined by dots, of which there is one at least.
#[inline(never)]
fn put_ids(mark: u8, ids: IdentifierRefs<'_>, output: &mut Output) -> Result<(), AllocError>
    requires { is_empty ids ≡ false }
    ensures ok { OnOk result
        (output.new ≡ output.old ++ marked_list (mark ∷ []) ids.entry) }
    ensures err { OnErr result (Extends output.old output.new) }
{
    if let Some(text) = ids.printed() {
        output.push(mark)?;
        return output.put(text);
    }
    let mut sign = mark;
    let mut others = ids;
    'ids: while let Some(id) = others.next() {
        output.push(sign)?;
        put_id(id, output)?;
        sign = b'.';
    }
    Ok(())
}

// Puts a mark and the identifiers joined by dots, or nothing where there are none.
#[inline(always)]
fn put_list(mark: u8, ids: IdentifierRefs<'_>, output: &mut Output) -> Result<(), AllocError>
    ensures ok { OnOk result
        (output.new ≡ output.old ++ marked_list (mark ∷ []) ids.entry) }
    ensures err { OnErr result (Extends output.old output.new) }
{
    if ids.is_empty() {
        return Ok(());
    }
    put_ids(mark, ids, output)
}

/// Puts a version. Where an allocation fails, a part of it may be put.
#[inline(always)]
pub(crate) fn put_version<V: Versioned>(version: &V, output: &mut Output) -> Result<(), AllocError>
    ensures ok { OnOk result
        (output.new ≡ output.old ++ version_text (V.value version.now)) }
    ensures err { OnErr result (Extends output.old output.new) }
{
    put_release(version.major(), version.minor(), version.patch(), output)?;
    put_list(b'-', version.pre_release(), output)?;
    put_list(b'+', version.build(), output)
}

/// Puts a next version. Where an allocation fails, a part of it may be put.
#[inline(always)]
pub(crate) fn put_next_version(
    version: &NextVersion<'_>,
    output: &mut Output,
) -> Result<(), AllocError>
    ensures ok { OnOk result (output.new ≡ output.old ++ version_text version.now) }
    ensures err { OnErr result (Extends output.old output.new) }
{
    put_release(version.major(), version.minor(), version.patch(), output)?;
    // A hyphen stands before the first identifier, and a dot before each other one.
    let mut mark = b'-';
    let mut ids = version.pre_release();
    'ids: while let Some(id) = ids.next() {
        output.push(mark)?;
        put_id(id, output)?;
        mark = b'.';
    }
    put_list(b'+', version.build(), output)
}
