// Questions about versions.

ghost use Rattle.nodejs_semver_c.specs.Answers.{FailsBy, Kept, OnText, OnVersion, Prints};
ghost use Rattle.nodejs_semver_c.specs.Answers.{PrintsNext, PrintsResult};
ghost use Rattle.nodejs_semver_c.specs.Internal.Failures.{IsMisuse};
ghost use Rattle.nodejs_semver_c.specs.Numbers.{base_of, fault_number, kind_number, order_number};
ghost use Rattle.semver_core.specs.Difference.{kind_between};
ghost use Rattle.semver_core.specs.Increments.Table.{answer_of_inc, by_word, checked};
ghost use Rattle.semver_core.specs.Increments.View.{fault_of};
ghost use Rattle.semver_core.specs.Printing.Text.{version_text};
ghost use Rattle.semver_core.specs.Values.Order.{build_order, precedence};
ghost use Rattle.semver_core.specs.declared.increment.IdentifierBase.{IdentifierBase};
ghost use Rattle.std.specs.List.{starts_with};
ghost use Rattle.std.specs.Prelude.{◌≡◌, ⊤, IfErr, IfNone, IfOk, IfSome, List, ℕ, Ok, Some, codes};
ghost use Rattle.std.specs.Prelude.{nat_eq};

use crate::print::{Bytes, print};
use crate::{
    BAD_ARGUMENT, BAD_IDENTIFIER, BASE_NONE, BASE_ONE, BASE_ZERO, KIND_MAJOR, KIND_MINOR,
    KIND_NONE, KIND_PATCH, KIND_PREMAJOR, KIND_PREMINOR, KIND_PREPATCH, KIND_PRERELEASE, NO_MEMORY,
    NOT_A_PRERELEASE, OK, OVERFLOW, read,
};
use nodejs_semver::{
    Failure, Identifier, IdentifierBase, IncrementError, Version, VersionDiff, VersionRef,
    cmp_build,
};
use std::alloc::Global;
use std::cmp::Ordering;

/// Whether a text is a version: the status is `OK` or says why not.
///
/// Returns `OK`, `BAD_ARGUMENT`, `NOT_UTF8`, `BAD_VERSION` or `TOO_LONG`.
#[unsafe(no_mangle)]
pub extern "C" fn nodejs_semver_version_check(reading: u32, version: &[u8]) -> u32
    ensures { OnVersion reading version.now result ⊤ (λ v. result ≡ OK) }
{
    match read::version(reading, version) {
        Ok(_) => OK,
        Err(status) => status,
    }
}

/// Prints the version of a text: in the port's reading `v1.2.3 oops` as `1.2.3`.
///
/// Returns `OK`, `TOO_SMALL`, `BAD_ARGUMENT`, `NOT_UTF8`, `BAD_VERSION` or `TOO_LONG`.
#[unsafe(no_mangle)]
pub extern "C" fn nodejs_semver_version_print(
    reading: u32,
    version: &[u8],
    out: &mut [u8],
    len: &mut usize,
) -> u32
    ensures { OnVersion reading version.now result (Kept out.old out.new len.old len.new)
        (λ v. Prints (version_text v) out.old out.new len.old len.new result) }
{
    if read::is_printed_release(reading, version) {
        return print(&Bytes(version), out, len);
    }
    match read::version(reading, version) {
        Ok(version) => print(&version, out, len),
        Err(status) => status,
    }
}

/// How the first version compares to the second: `order` gets -1, 0 or 1. Build metadata does not
/// count.
///
/// Returns `OK`, `BAD_ARGUMENT`, `NOT_UTF8`, `BAD_VERSION` or `TOO_LONG`.
#[unsafe(no_mangle)]
pub extern "C" fn nodejs_semver_version_compare(
    reading: u32,
    version: &[u8],
    other: &[u8],
    order: &mut i32,
) -> u32
    ensures { let kept = order.new ≡ order.old in
        OnVersion reading version.now result kept (λ v.
        OnVersion reading other.now result kept (λ w.
        (result ≡ OK) × (order.new ≡ order_number (precedence v w)))) }
{
    let version = ok_or_return!(read::version(reading, version));
    let other = ok_or_return!(read::version(reading, other));
    *order = number_of(version.cmp(&other));
    OK
}

/// How the first version compares to the second: `order` gets -1, 0 or 1. Of versions that are
/// equal by precedence the build metadata decides, identifier by identifier; none is below some.
///
/// Returns `OK`, `BAD_ARGUMENT`, `NOT_UTF8`, `BAD_VERSION` or `TOO_LONG`.
#[unsafe(no_mangle)]
pub extern "C" fn nodejs_semver_version_compare_build(
    reading: u32,
    version: &[u8],
    other: &[u8],
    order: &mut i32,
) -> u32
    ensures { let kept = order.new ≡ order.old in
        OnVersion reading version.now result kept (λ v.
        OnVersion reading other.now result kept (λ w.
        (result ≡ OK) × (order.new ≡ order_number (build_order v w)))) }
{
    let version = ok_or_return!(read::version(reading, version));
    let other = ok_or_return!(read::version(reading, other));
    *order = number_of(cmp_build(&version, &other));
    OK
}

pub fn number_of(order: Ordering) -> i32
    ensures { result ≡ order_number order }
{
    match order {
        Ordering::Less => -1,
        Ordering::Equal => 0,
        Ordering::Greater => 1,
    }
}

/// The kind of difference between two versions: `kind` gets one of `KIND_NONE` to
/// `KIND_PRERELEASE`.
///
/// Returns `OK`, `BAD_ARGUMENT`, `NOT_UTF8`, `BAD_VERSION` or `TOO_LONG`.
#[unsafe(no_mangle)]
pub extern "C" fn nodejs_semver_version_diff(
    reading: u32,
    version: &[u8],
    other: &[u8],
    kind: &mut u32,
) -> u32
    ensures { let kept = kind.new ≡ kind.old in
        OnVersion reading version.now result kept (λ v.
        OnVersion reading other.now result kept (λ w.
        (result ≡ OK) × (kind.new ≡ kind_number (kind_between v w)))) }
{
    let version = ok_or_return!(read::version(reading, version));
    let other = ok_or_return!(read::version(reading, other));
    *kind = kind_of(version.diff(&other));
    OK
}

pub fn kind_of(kind: Option<VersionDiff>) -> u32
    ensures { result ≡ kind_number kind }
{
    match kind {
        None => KIND_NONE,
        Some(VersionDiff::Major) => KIND_MAJOR,
        Some(VersionDiff::Minor) => KIND_MINOR,
        Some(VersionDiff::Patch) => KIND_PATCH,
        Some(VersionDiff::PreMajor) => KIND_PREMAJOR,
        Some(VersionDiff::PreMinor) => KIND_PREMINOR,
        Some(VersionDiff::PrePatch) => KIND_PREPATCH,
        Some(VersionDiff::PreRelease) => KIND_PRERELEASE,
    }
}

/// Prints the next version by a word, as `minor` or `prerelease`. An empty identifier is none. The
/// base, one of `BASE_ZERO`, `BASE_ONE` and `BASE_NONE`, says what a new pre-release list begins to
/// count with.
///
/// Returns `OK`, `TOO_SMALL`, `NOT_UTF8`, `BAD_VERSION`, `BAD_ARGUMENT`, `BAD_IDENTIFIER`,
/// `NOT_A_PRERELEASE`, `OVERFLOW`, `NO_MEMORY` or `TOO_LONG`.
#[unsafe(no_mangle)]
pub extern "C" fn nodejs_semver_version_inc(
    alloc: Global,
    reading: u32,
    version: &[u8],
    word: &[u8],
    identifier: &[u8],
    base: u32,
    out: &mut [u8],
    len: &mut usize,
) -> u32
    ensures { let kept = Kept out.old out.new len.old len.new in
        OnVersion reading version.now result kept (λ v. OnText word.now result kept (
        OnText identifier.now result kept (
        PrintsNext (λ base. answer_of_inc v word.now (Some identifier.now) (Some base))
        (base_of base) out.old out.new len.old len.new result))) }
{
    let version = ok_or_return!(read::version(reading, version));
    let word = ok_or_return!(read::text(word));
    let identifier = ok_or_return!(read::text(identifier));
    let Some(base) = base_of(base) else {
        return BAD_ARGUMENT;
    };
    print_next(alloc, &version, word, identifier, base, out, len)
}

fn print_next(
    alloc: Global,
    version: &VersionRef<'_>,
    word: &str,
    identifier: &str,
    base: IdentifierBase,
    out: &mut [u8],
    len: &mut usize,
) -> u32
    ensures { PrintsResult
        (answer_of_inc version.now word.now (Some identifier.now) (Some base))
        out.old out.new len.old len.new result }
{
    match next_version(alloc, version, word, identifier, base) {
        Ok(next) => print(&next, out, len),
        Err(status) => status,
    }
}

/// The next version by a word, or the status that says why there is none.
pub fn next_version(
    alloc: Global,
    version: &VersionRef<'_>,
    word: &str,
    identifier: &str,
    base: IdentifierBase,
) -> Result<Version, u32>
    ensures ok { IfOk result (λ next.
        answer_of_inc version.now word.now (Some identifier.now) (Some base) ≡ Ok next) }
    ensures refused { IfErr result
        (FailsBy (answer_of_inc version.now word.now (Some identifier.now) (Some base))) }
{
    match version.inc(alloc, word, Some(identifier), Some(base)) {
        Ok(next) => Ok(next),
        Err(Failure::Refused(error)) => Err(status_of(&error)),
        Err(Failure::Memory(_)) => {
            Err(misuse(version, word, identifier, base).unwrap_or(NO_MEMORY))
        }
    }
}

// The status of an increment that its words reject, which takes no memory to see. `None` also where
// a number cannot rise, and where the identifier is the version's list already.
#[cold]
fn misuse(
    version: &VersionRef<'_>,
    word: &str,
    identifier: &str,
    base: IdentifierBase,
) -> Option<u32>
    ensures { IsMisuse
        (answer_of_inc version.now word.now (Some identifier.now) (Some base)) result }
{
    if begins_pre(word)
        && let Some(status) = misused_identifier(identifier, base)
    {
        return Some(status);
    }
    misused_word(version, word)
}

fn begins_pre(word: &str) -> bool
    ensures { result ≡ starts_with nat_eq word.now (codes "pre") }
{
    word.starts_with("pre")
}

// The status of the checks of a word that begins with `pre`.
#[tactic(auto, unfolding(semver_core::specs::Text::Identifiers::is_listed))]
fn misused_identifier(identifier: &str, base: IdentifierBase) -> Option<u32>
    ensures none { IfNone result (checked identifier.now base ≡ Ok tt) }
    ensures some { IfSome result (λ status. IfOk (checked identifier.now base) (λ _. ⊥)
        × IfErr (checked identifier.now base) (λ fault. status ≡ fault_number fault)) }
{
    if identifier.is_empty() && matches!(base, IdentifierBase::False) {
        Some(BAD_ARGUMENT)
    } else if Identifier::is_list(identifier.as_bytes()) {
        None
    } else {
        Some(BAD_IDENTIFIER)
    }
}

fn misused_word(version: &VersionRef<'_>, word: &str) -> Option<u32>
    ensures { (id : List ℕ) (base : IdentifierBase)
        → IsMisuse (by_word word.now id base version.now) result }
{
    match word {
        "major" | "minor" | "patch" => None,
        "premajor" | "preminor" | "prepatch" => None,
        "prerelease" => None,
        "pre" => None,
        "release" if version.is_release() => Some(NOT_A_PRERELEASE),
        "release" => None,
        _ => Some(BAD_ARGUMENT),
    }
}

/// The base that a number of C stands for.
pub fn base_of(base: u32) -> Option<IdentifierBase>
    ensures { result ≡ base_of base }
{
    match base {
        BASE_ZERO => Some(IdentifierBase::Value(0)),
        BASE_ONE => Some(IdentifierBase::Value(1)),
        BASE_NONE => Some(IdentifierBase::False),
        _ => None,
    }
}

fn status_of(error: &IncrementError) -> u32
    ensures { result ≡ fault_number (fault_of error.now) }
{
    match error {
        IncrementError::InvalidIncrementArgument(_) => BAD_ARGUMENT,
        IncrementError::InvalidIdentifier(_) => BAD_IDENTIFIER,
        IncrementError::NotAPrerelease(_) => NOT_A_PRERELEASE,
        IncrementError::Overflow => OVERFLOW,
    }
}
