// Ranges that are made of ranges that the caller keeps.

ghost use Rattle.nodejs_semver.specs.Ranges.Algebra.{difference, intersection};
ghost use Rattle.nodejs_semver.specs.Ranges.Least.{IsLeastOf};
ghost use Rattle.nodejs_semver.specs.Ranges.Subsets.{IsSubset};
ghost use Rattle.nodejs_semver.specs.Ranges.Unions.{union};
ghost use Rattle.nodejs_semver.specs.Ranges.View.{TakesMemory};
ghost use Rattle.nodejs_semver_c.specs.Answers.{NoMemoryOnlyIf};
ghost use Rattle.nodejs_semver_c.specs.KeptRanges.{OnKeptRange, RangeKept, TellsRange};
ghost use Rattle.nodejs_semver_c.specs.KeptSets.{TellsBeyond, TellsFoundRange};
ghost use Rattle.nodejs_semver_c.specs.Subsets.{MayTake, MayTry, shows_no_subset};
ghost use Rattle.std.specs.Prelude.{◌≡◌, ◌⊎◌, ◌<◌, ◌↔◌, [], IfOk, IfSome, IsTrue, OnErr, is_some};
ghost use Rattle.std.specs.Prelude.{length, true};

use crate::intervals::{Interval, IntervalParts, kept_range, tell_range};
use crate::kept::{Parts, tell};
use crate::subsets::is_subset;
use crate::{NO_MEMORY, NOTHING, OK};
use nodejs_semver::{RangeRef, Version};
use std::alloc::{AllocError, Global};

/// What two ranges have in common. It is told as `nodejs_semver_range_read` tells a range.
///
/// Returns `OK`, `NOTHING`, `TOO_SMALL`, `BAD_VERSION`, `BAD_RANGE`, `NO_MEMORY` or `TOO_LONG`.
#[unsafe(no_mangle)]
pub extern "C" fn nodejs_semver_intersect<'t>(
    alloc: Global,
    range: &[Interval<'t>],
    other: &[Interval<'t>],
    intervals: &mut [IntervalParts],
    count: &mut usize,
    out: &mut [u8],
    len: &mut usize,
) -> u32
    ensures { let same = RangeKept intervals.old intervals.new count.old count.new
        out.old out.new len.old len.new in
        OnKeptRange range.now result same (λ r. OnKeptRange other.now result same (λ s.
        TellsFoundRange (intersection r s) intervals.old intervals.new count.old count.new
        out.old out.new len.old len.new result
        ⊎ NoMemoryOnlyIf result same (IsTrue (is_some (intersection r s))))) }
{
    let range = ok_or_return!(kept_range(alloc, range));
    let other = ok_or_return!(kept_range(alloc, other));
    match range.intersect(alloc, &other) {
        Ok(found) => tell_found(found, intervals, count, out, len),
        Err(_) => NO_MEMORY,
    }
}

/// What the first range holds and the second does not. It is told as `nodejs_semver_range_read`
/// tells a range.
///
/// Returns `OK`, `NOTHING`, `TOO_SMALL`, `BAD_VERSION`, `BAD_RANGE`, `NO_MEMORY` or `TOO_LONG`.
#[unsafe(no_mangle)]
pub extern "C" fn nodejs_semver_difference<'t>(
    alloc: Global,
    range: &[Interval<'t>],
    other: &[Interval<'t>],
    intervals: &mut [IntervalParts],
    count: &mut usize,
    out: &mut [u8],
    len: &mut usize,
) -> u32
    ensures { let same = RangeKept intervals.old intervals.new count.old count.new
        out.old out.new len.old len.new in
        OnKeptRange range.now result same (λ r. OnKeptRange other.now result same (λ s.
        TellsFoundRange (difference r s) intervals.old intervals.new count.old count.new
        out.old out.new len.old len.new result
        ⊎ NoMemoryOnlyIf result same
        (IsTrue (is_some (difference r s)) ⊎ (1 < length s)))) }
{
    let range = ok_or_return!(kept_range(alloc, range));
    let other = ok_or_return!(kept_range(alloc, other));
    match range.difference(alloc, &other) {
        Ok(found) => tell_found(found, intervals, count, out, len),
        Err(_) => NO_MEMORY,
    }
}

/// The union of two ranges, which accepts what either accepts. It is told as
/// `nodejs_semver_range_read` tells a range.
///
/// Returns `OK`, `TOO_SMALL`, `BAD_VERSION`, `BAD_RANGE`, `NO_MEMORY` or `TOO_LONG`.
#[unsafe(no_mangle)]
pub extern "C" fn nodejs_semver_union<'t>(
    alloc: Global,
    range: &[Interval<'t>],
    other: &[Interval<'t>],
    intervals: &mut [IntervalParts],
    count: &mut usize,
    out: &mut [u8],
    len: &mut usize,
) -> u32
    ensures { let same = RangeKept intervals.old intervals.new count.old count.new
        out.old out.new len.old len.new in
        OnKeptRange range.now result same (λ r. OnKeptRange other.now result same (λ s.
        TellsRange (union r s) intervals.old intervals.new count.old count.new
        out.old out.new len.old len.new result
        ⊎ NoMemoryOnlyIf result same (TakesMemory (union r s)))) }
{
    let range = ok_or_return!(kept_range(alloc, range));
    let other = ok_or_return!(kept_range(alloc, other));
    match range.union(alloc, &other) {
        Ok(found) => tell_range(&found, intervals, count, out, len),
        Err(_) => NO_MEMORY,
    }
}

// Tells the range that is found, if there is any.
fn tell_found(
    found: Option<RangeRef<'_>>,
    told: &mut [IntervalParts],
    count: &mut usize,
    out: &mut [u8],
    len: &mut usize,
) -> u32
    ensures { TellsFoundRange found.entry told.old told.new count.old count.new
        out.old out.new len.old len.new result }
{
    match &found {
        Some(range) => tell_range(range, told, count, out, len),
        None => NOTHING,
    }
}

/// The smallest version that the first range accepts and the second does not, told as
/// `nodejs_semver_least_version` tells one. With the flag both accept pre-releases within their
/// bounds. There is no such version exactly if `nodejs_semver_is_subset` answers yes.
///
/// Returns `OK`, `NOTHING`, `TOO_SMALL`, `BAD_VERSION`, `BAD_RANGE`, `NO_MEMORY` or `TOO_LONG`.
#[unsafe(no_mangle)]
pub extern "C" fn nodejs_semver_least_beyond<'t>(
    alloc: Global,
    range: &[Interval<'t>],
    other: &[Interval<'t>],
    include_prerelease: bool,
    parts: &mut Parts,
    out: &mut [u8],
) -> u32
    ensures { let same = (parts.new ≡ parts.old) × (out.new ≡ out.old) in
        OnKeptRange range.now result same (λ r. OnKeptRange other.now result same (λ s.
        TellsBeyond include_prerelease r s parts.old parts.new out.old out.new result)) }
{
    let range = ok_or_return!(kept_range(alloc, range));
    let other = ok_or_return!(kept_range(alloc, other));
    tell_beyond(alloc, &range, &other, include_prerelease, parts, out)
}

fn tell_beyond<'t>(
    alloc: Global,
    range: &RangeRef<'t>,
    other: &RangeRef<'t>,
    include_prerelease: bool,
    parts: &mut Parts,
    out: &mut [u8],
) -> u32
    ensures { TellsBeyond include_prerelease range.now other.now
        parts.old parts.new out.old out.new result }
{
    match least_beyond(alloc, range, other, include_prerelease) {
        Ok(Some(version)) => tell(&version, parts, out),
        Ok(None) => NOTHING,
        Err(_) => NO_MEMORY,
    }
}

// The smallest version that the first range accepts and the second does not, pre-releases being
// included or not.
fn least_beyond<'t>(
    alloc: Global,
    range: &RangeRef<'t>,
    other: &RangeRef<'t>,
    include_prerelease: bool,
) -> Result<Option<Version>, AllocError>
    ensures least { IfOk result
        (IsLeastOf (shows_no_subset include_prerelease range.now other.now)) }
    ensures build { IfOk result (λ found. IfSome found (λ v. v.build ≡ [])) }
    ensures memory { OnErr result (MayTake include_prerelease range.now other.now) }
{
    if include_prerelease {
        least_left(alloc, range, other)
    } else {
        range.least_beyond(alloc, other)
    }
}

// The smallest version of what is left of the first range without the second.
fn least_left<'t>(
    alloc: Global,
    range: &RangeRef<'t>,
    other: &RangeRef<'t>,
) -> Result<Option<Version>, AllocError>
    ensures least { IfOk result (IsLeastOf (shows_no_subset true range.now other.now)) }
    ensures build { IfOk result (λ found. IfSome found (λ v. v.build ≡ [])) }
    ensures memory { OnErr result (MayTake true range.now other.now) }
{
    match range.difference(alloc, other)? {
        Some(left) => left.min_version_with_prerelease(alloc),
        None => Ok(None),
    }
}

/// Whether the second range accepts every version that the first accepts.
///
/// Returns `OK`, `BAD_VERSION`, `BAD_RANGE`, `NO_MEMORY` or `TOO_LONG`.
#[unsafe(no_mangle)]
pub extern "C" fn nodejs_semver_is_subset<'t>(
    alloc: Global,
    range: &[Interval<'t>],
    other: &[Interval<'t>],
    include_prerelease: bool,
    answer: &mut bool,
) -> u32
    ensures { let same = answer.new ≡ answer.old in
        OnKeptRange range.now result same (λ r. OnKeptRange other.now result same (λ s.
        ((result ≡ OK) × (IsTrue answer.new ↔ IsSubset include_prerelease r s))
        ⊎ NoMemoryOnlyIf result same (MayTry include_prerelease r s))) }
{
    let range = ok_or_return!(kept_range(alloc, range));
    let other = ok_or_return!(kept_range(alloc, other));
    match is_subset(alloc, include_prerelease, &range, &other) {
        Ok(found) => {
            *answer = found;
            OK
        }
        Err(_) => NO_MEMORY,
    }
}
