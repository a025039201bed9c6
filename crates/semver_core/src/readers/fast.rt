//! The reader of common version texts.

ghost use Rattle.std.specs.Prelude.{◌≡◌, ◌≤◌, ℕ, List};
ghost use Rattle.semver_core.specs.Text.Numbers.{IsTriple};
ghost use Rattle.semver_core.specs.Words.{common_of, HasIdentifiers, IfOk, qualified, VersionValue};
ghost use Rattle.semver_core.specs.Words.{IsCommon, NoValue, OnErr, small_len, triple_at, whole_at};
ghost use Rattle.semver_core.specs.Words.{IfNone, IfSome, length, part_at, Reads};

use crate::reach::{OfLines, OfText, Reach};
use crate::readers::loose::{begins_lists, front_of_numbers, lists_at, stands_at};
use crate::{MAX_SAFE_INTEGER, Version, scan};
use std::alloc::{AllocError, Global};

// A number with a dot behind it, and the place behind the dot.
#[inline(always)]
fn number_and_dot<R: Reach>(bytes: &[u8], at: usize) -> Option<(u64, usize)>
    requires { R.stands bytes.now at }
    ensures found { result ≡ part_at MAX_SAFE_INTEGER bytes.now at }
    ensures place { IfSome result (λ found. R.stands bytes.now found.1) }
{
    let Some((number, end)) = scan::digits::<R>(bytes, at) else {
        return None;
    };
    if !stands_at::<R>(bytes, end, b'.') {
        return None;
    }
    Some((number, end + 1))
}

// Three numbers with dots between them, and the place behind them.
#[inline(always)]
fn three_numbers<R: Reach>(bytes: &[u8], at: usize) -> Option<(u64, u64, u64, usize)>
    requires { R.stands bytes.now at }
    ensures found { result ≡ triple_at MAX_SAFE_INTEGER bytes.now at }
    ensures place { IfSome result (λ found. R.stands bytes.now found.3) }
{
    let Some((major, second)) = number_and_dot::<R>(bytes, at) else {
        return None;
    };
    let Some((minor, third)) = number_and_dot::<R>(bytes, second) else {
        return None;
    };
    let Some((patch, end)) = scan::digits::<R>(bytes, third) else {
        return None;
    };
    Some((major, minor, patch, end))
}

// The numbers of `leading_triple` in a text that no line feed ends.
#[inline(never)]
fn text_triple(text: &[u8]) -> Option<(u64, u64, u64, usize)>
    ensures found { result ≡ triple_at MAX_SAFE_INTEGER text.now 0 }
    ensures place { IfSome result (λ found. found.3 ≤ length text.now) }
{
    three_numbers::<OfText>(text, 0)
}

// The numbers of `triple_front`, and the place behind them.
#[inline(always)]
#[tactic(auto, using(crate::proofs::Text::Digits::last_feed))]
fn leading_triple(text: &[u8]) -> Option<(u64, u64, u64, usize)>
    ensures found { result ≡ triple_at MAX_SAFE_INTEGER text.now 0 }
    ensures place { IfSome result (λ found. found.3 ≤ length text.now) }
{
    match text {
        [.., b'\n'] => three_numbers::<OfLines>(text, 0),
        _ => text_triple(text),
    }
}

/// Returns the three numbers joined by dots that a text begins with, and what follows them: of
/// `1.2.3-beta` they are 1, 2, 3 and `-beta`. Lines of which the last one ends with a line feed are
/// read with no test for their end. This is for the crates of this repository.
#[inline(always)]
pub fn triple_front(text: &[u8]) -> Option<(u64, u64, u64, &[u8])>
    ensures some { IfSome result (λ found.
        IsTriple MAX_SAFE_INTEGER text.now found.0 found.1 found.2 found.3.now) }
    // Nothing is read only where no such numbers stand at the front.
    ensures none { IfNone result ((M m p : ℕ) (rest : List ℕ) →
        IsTriple MAX_SAFE_INTEGER text.now M m p rest → ⊥) }
{
    let (major, minor, patch, end) = leading_triple(text)?;
    Some((major, minor, patch, &text[end..]))
}

// How many bytes a `v` at the front takes.
#[inline(always)]
fn small_len<R: Reach>(text: &str) -> usize
    requires { R.stands text.now 0 }
    ensures value { result ≡ small_len text.now }
    ensures place { R.stands text.now result }
{
    usize::from(stands_at::<R>(text.as_bytes(), 0, b'v'))
}

// The three numbers of a text that begins with them, or with `v` and them, and the place behind
// them.
#[inline(always)]
pub(crate) fn leading_numbers<R: Reach>(text: &str) -> Option<(u64, u64, u64, usize)>
    requires { R.stands text.now 0 }
    ensures found { result ≡ triple_at MAX_SAFE_INTEGER text.now (small_len text.now) }
    ensures place { IfSome result (λ found. R.stands text.now found.3) }
{
    three_numbers::<R>(text.as_bytes(), small_len::<R>(text))
}

// The numbers of the version at the front of a text, and the place behind them.
#[inline(always)]
#[tactic(auto, using(crate::proofs::Text::Fronts::front_read))]
pub(crate) fn numbers(text: &str) -> Option<(u64, u64, u64, usize)>
    ensures some { IfSome result (λ found.
        Reads MAX_SAFE_INTEGER text.now (qualified text.now found)) }
    ensures none { IfNone result (NoValue (Reads MAX_SAFE_INTEGER text.now)) }
    ensures place { IfSome result (λ found. found.3 ≤ length text.now) }
{
    match leading_numbers::<OfText>(text) {
        Some(found) => Some(found),
        None => loose_numbers(text),
    }
}

// `numbers` of a text that does not begin with the numbers or with `v` and the numbers. They are
// looked for once more only where they would begin elsewhere.
#[cold]
#[inline(never)]
fn loose_numbers(text: &str) -> Option<(u64, u64, u64, usize)>
    requires { triple_at MAX_SAFE_INTEGER text.now (small_len text.now) ≡ None }
    ensures some { IfSome result (λ found.
        Reads MAX_SAFE_INTEGER text.now (qualified text.now found)) }
    ensures none { IfNone result (NoValue (Reads MAX_SAFE_INTEGER text.now)) }
    ensures place { IfSome result (λ found. found.3 ≤ length text.now) }
{
    let at = front_of_numbers(text);
    if at == small_len::<OfText>(text) {
        return None;
    }
    three_numbers::<OfText>(text.as_bytes(), at)
}

// The version of three numbers and the qualifier that goes from a place to the end of the text.
#[inline(never)]
#[tactic(auto, using(crate::proofs::Text::Fronts::lists_found))]
fn version_of_whole(
    alloc: Global,
    text: &str,
    major: u64,
    minor: u64,
    patch: u64,
    at: usize,
) -> Result<Option<Version>, AllocError>
    requires { at ≤ length text.now }
    ensures found { IfOk result (λ found. found ≡ whole_at text.now (major, minor, patch, at)) }
    ensures memory { OnErr result (HasIdentifiers (qualified text.now (major, minor, patch, at))) }
{
    let (qualifier, end) = lists_at(alloc, text, at)?;
    if end < text.len() {
        return Ok(None);
    }
    Ok(Some(Version::from_parts(major, minor, patch, qualifier)))
}

// The version of a common text, or nothing, as `common_of` computes it from the text.
#[inline(always)]
fn read(alloc: Global, text: &str) -> Result<Option<Version>, AllocError>
    ensures found { IfOk result (λ found. found ≡ common_of MAX_SAFE_INTEGER text.now) }
    ensures memory { OnErr result
        ((v : VersionValue) × Reads MAX_SAFE_INTEGER text.now v × HasIdentifiers v) }
{
    let Some((major, minor, patch, end)) = leading_numbers::<OfText>(text) else {
        return Ok(None);
    };
    if end == text.len() {
        return Ok(Some(Version::release(major, minor, patch)));
    }
    if !begins_lists::<OfText>(text, end) {
        return Ok(None);
    }
    version_of_whole(alloc, text, major, minor, patch, end)
}

/// Reads a common version text, of any length: `v` or nothing, three numbers joined by dots, a
/// pre-release, build metadata, and the end of the text.
///
/// Returns `None` on every other text, also where `version_loose` returns a version: on `V1.2.3`,
/// `v 1.2.3`, ` 1.2.3`, and wherever something is left over, as in `1.2.3.4`, `1.2.3-` or
/// `1.2.3+a+b`. On a common text both readers return the same version (`laws::both_readers`).
///
/// Fails only if allocation fails, which happens only where the version at the front of the text
/// has a pre-release or build metadata.
#[inline(always)]
#[tactic(auto, using(crate::proofs::Text::Fronts::read_common))]
pub fn version_fast(alloc: Global, text: &str) -> Result<Option<Version>, AllocError>
    // The version is the one that the whole text is.
    ensures some { IfOk result (λ found. IfSome found (λ v. IsCommon MAX_SAFE_INTEGER text.now v)) }
    // Every common text is read.
    ensures none { IfOk result (λ found.
        IfNone found (NoValue (IsCommon MAX_SAFE_INTEGER text.now))) }
    // Allocation fails only where the text has a version with identifiers.
    ensures memory { OnErr result
        ((v : VersionValue) × Reads MAX_SAFE_INTEGER text.now v × HasIdentifiers v) }
{
    read(alloc, text)
}
