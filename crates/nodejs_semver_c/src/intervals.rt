// Ranges that the caller keeps, as arrays of intervals.

ghost use Rattle.nodejs_semver_c.specs.Answers.{OnRange};
ghost use Rattle.nodejs_semver_c.specs.Internal.Keeps.{RefusesInterval, is_sound, keeps};
ghost use Rattle.nodejs_semver_c.specs.Internal.Pieces.{Adds};
ghost use Rattle.nodejs_semver_c.specs.Kept.{IsKept, RefusesKept, kept_texts, kept_value};
ghost use Rattle.nodejs_semver_c.specs.Kept.{list_text, parts_of};
ghost use Rattle.nodejs_semver_c.specs.KeptRanges.{IsKeptRange, RangeKept, RefusesBound};
ghost use Rattle.nodejs_semver_c.specs.KeptRanges.{RefusesIntervals, RefusesKeptRange, TellsRange};
ghost use Rattle.nodejs_semver_c.specs.KeptRanges.{bound_texts, is_spelled, kept_span, lower_of};
ghost use Rattle.nodejs_semver_c.specs.KeptRanges.{lower_parts, no_parts, range_texts, span_parts};
ghost use Rattle.nodejs_semver_c.specs.KeptRanges.{upper_of, upper_parts};
ghost use Rattle.semver_core.specs.Printing.RoundTrip.{is_readable};
ghost use Rattle.semver_core.specs.declared.TheConstants.{MAX_SAFE_INTEGER};
ghost use Rattle.std.specs.List.{Any, list_all};
ghost use Rattle.std.specs.Prelude.{◌&&◌, ◌++◌, ◌+◌, ◌-◌, ◌<◌, ◌^◌, ◌||◌, ◌≡◌, ◌≤◌, ◌⊎◌, [], IfErr};
ghost use Rattle.std.specs.Prelude.{IfOk, OnOk, drop, false, length, map, min, true, ℕ};

use crate::asked::is_below;
use crate::kept::{Parts, Version, check, cmp_kept, lent};
use crate::pieces::put_ids;
use crate::read::{self, MOST_BYTES, reading_of};
use crate::{
    BAD_ARGUMENT, BAD_RANGE, BOUND_CLOSED, BOUND_NONE, BOUND_OPEN, NO_MEMORY, OK, TOO_LONG,
    TOO_SMALL,
};
use nodejs_semver::{IdentifierRefs, MAX_SAFE_INTEGER, RangeRef, VersionRef, cuts};
use semver_pieces::Intervals;
use smallvec::SmallVec;
use std::alloc::Global;

/// How many intervals memory may hold, of 128 bytes each.
pub const MOST_INTERVALS: usize = 72_057_594_037_927_935;

/// A bound of an interval in the memory of the caller.
#[repr(C)]
#[derive(Drop)]
pub struct Bound<'a> {
    /// `BOUND_NONE`, `BOUND_CLOSED` or `BOUND_OPEN`.
    pub kind: u32,
    /// Its version.
    pub version: Version<'a>,
}

/// An interval in the memory of the caller. A range that is kept is an array of one or more.
#[repr(C)]
#[derive(Drop)]
pub struct Interval<'a> {
    /// The bound below.
    pub lower: Bound<'a>,
    /// The bound above.
    pub upper: Bound<'a>,
}

/// What is read of a bound.
#[repr(C)]
#[derive(Clone, Copy)]
pub struct BoundParts {
    /// `BOUND_NONE`, `BOUND_CLOSED` or `BOUND_OPEN`.
    pub kind: u32,
    /// The parts of its version, which are zeros where there is no bound.
    pub version: Parts,
}

/// What is read of an interval.
#[repr(C)]
#[derive(Clone, Copy)]
pub struct IntervalParts {
    /// The bound below.
    pub lower: BoundParts,
    /// The bound above.
    pub upper: BoundParts,
}

/// The range that the caller keeps, or the status that rejects its intervals.
#[inline(always)]
pub fn kept_range<'a>(alloc: Global, intervals: &[Interval<'a>]) -> Result<RangeRef<'a>, u32>
    ensures ok { IfOk result (IsKeptRange intervals.now) }
    ensures refused { IfErr result (RefusesKeptRange intervals.now) }
{
    if intervals.len() > MOST_INTERVALS {
        return Err(TOO_LONG);
    }
    let Ok(mut list) = SmallVec::with_capacity(alloc, intervals.len()) else {
        return Err(fault_without_memory(intervals));
    };
    fill(intervals, &mut list)?;
    if list.is_empty() {
        return Err(BAD_RANGE);
    }
    Ok(RangeRef::of_some(list))
}

// The status that rejects some intervals, where there is no memory for the list of them.
#[cold]
fn fault_without_memory(intervals: &[Interval<'_>]) -> u32
    ensures { Any (λ i. RefusesInterval i result) intervals.now
        ⊎ ((result ≡ NO_MEMORY) × (list_all keeps intervals.now ≡ true)) }
{
    for interval in intervals {
        if let Err(status) = check_interval(interval) {
            return status;
        }
    }
    NO_MEMORY
}

// Puts the intervals into an empty list that has room for them.
fn fill<'a>(intervals: &[Interval<'a>], list: &mut Intervals<VersionRef<'a>>) -> Result<(), u32>
    requires empty { list.old.items ≡ [] }
    requires room { length intervals.now ≤ list.old.capacity }
    ensures ok { OnOk result ((list.new.items ≡ map kept_span intervals.now)
        × (list_all keeps intervals.now ≡ true)) }
    ensures refused { IfErr result (λ status.
        Any (λ i. RefusesInterval i status) intervals.now) }
{
    for interval in intervals {
        list.push_reserved(kept_interval(interval)?);
    }
    Ok(())
}

// The interval of two bounds, or the status that rejects it.
#[inline(always)]
fn kept_interval<'a>(interval: &Interval<'a>) -> Result<cuts::Interval<VersionRef<'a>>, u32>
    ensures ok { IfOk result (λ s. (s ≡ kept_span interval.now) × (keeps interval.now ≡ true)) }
    ensures refused { IfErr result (RefusesInterval interval.now) }
{
    check_interval(interval)?;
    Ok(lent_interval(interval))
}

#[inline(always)]
#[tactic(auto, using(crate::proofs::Asking::spelled_bounds))]
fn lent_interval<'a>(interval: &Interval<'a>) -> cuts::Interval<VersionRef<'a>>
    requires { keeps interval.now ≡ true }
    ensures { result ≡ kept_span interval.now }
{
    cuts::Interval::of_ordered(lent_lower(&interval.lower), lent_upper(&interval.upper))
}

#[inline(always)]
#[tactic(auto, using(crate::proofs::Asking::spelled_texts))]
fn lent_lower<'a>(bound: &Bound<'a>) -> cuts::Bound<VersionRef<'a>>
    requires { is_spelled bound.now ≡ true }
    ensures { result ≡ lower_of bound.now }
{
    match bound.kind {
        BOUND_NONE => cuts::Bound::Unbounded,
        BOUND_CLOSED => cuts::Bound::Before(lent(&bound.version)),
        _ => cuts::Bound::After(lent(&bound.version)),
    }
}

#[inline(always)]
#[tactic(auto, using(crate::proofs::Asking::spelled_texts))]
fn lent_upper<'a>(bound: &Bound<'a>) -> cuts::Bound<VersionRef<'a>>
    requires { is_spelled bound.now ≡ true }
    ensures { result ≡ upper_of bound.now }
{
    match bound.kind {
        BOUND_NONE => cuts::Bound::Unbounded,
        BOUND_CLOSED => cuts::Bound::After(lent(&bound.version)),
        _ => cuts::Bound::Before(lent(&bound.version)),
    }
}

/// Looks whether a range has these intervals, or returns the status that rejects them. Nothing is
/// moved or allocated.
#[inline(always)]
pub fn check_range(range: &[Interval<'_>]) -> Result<(), u32>
    ensures ok { OnOk result (IsKeptRange range.now (map kept_span range.now)) }
    ensures refused { IfErr result (RefusesIntervals range.now) }
{
    if range.len() > MOST_INTERVALS {
        return Err(TOO_LONG);
    }
    for interval in range {
        check_interval(interval)?;
    }
    if range.is_empty() {
        return Err(BAD_RANGE);
    }
    Ok(())
}

// Most intervals are from a closed bound to an open one, as those of a caret; these are looked at
// with no call.
#[inline(always)]
fn check_interval(interval: &Interval<'_>) -> Result<(), u32>
    ensures ok { OnOk result (keeps interval.now ≡ true) }
    ensures refused { IfErr result (RefusesInterval interval.now) }
{
    if interval.lower.kind == BOUND_CLOSED && interval.upper.kind == BOUND_OPEN {
        check_usual(interval)
    } else {
        check_unusual(interval)
    }
}

#[inline(always)]
#[tactic(auto, using(crate::proofs::Asking::sound_bounds))]
fn check_usual(interval: &Interval<'_>) -> Result<(), u32>
    requires lower { interval.now.lower.kind ≡ BOUND_CLOSED }
    requires upper { interval.now.upper.kind ≡ BOUND_OPEN }
    ensures ok { OnOk result (keeps interval.now ≡ true) }
    ensures refused { IfErr result (RefusesInterval interval.now) }
{
    check_version(&interval.lower.version)?;
    check_version(&interval.upper.version)?;
    if cmp_kept(&interval.lower.version, &interval.upper.version).is_lt() {
        Ok(())
    } else {
        Err(BAD_RANGE)
    }
}

#[inline(never)]
#[tactic(auto, using(crate::proofs::Asking::sound_bounds))]
fn check_unusual(interval: &Interval<'_>) -> Result<(), u32>
    ensures ok { OnOk result (keeps interval.now ≡ true) }
    ensures refused { IfErr result (RefusesInterval interval.now) }
{
    check_bound(&interval.lower)?;
    check_bound(&interval.upper)?;
    if is_below(&interval.lower, &interval.upper) {
        Ok(())
    } else {
        Err(BAD_RANGE)
    }
}

// As a lower and as an upper bound it may be one of a range for the same versions.
#[inline(always)]
fn check_bound(bound: &Bound<'_>) -> Result<(), u32>
    ensures ok { OnOk result (is_sound bound.now ≡ true) }
    ensures refused { IfErr result (λ status. RefusesBound bound.now status
        ⊎ ((status ≡ BAD_RANGE) × (is_sound bound.now ≡ false))) }
{
    match bound.kind {
        BOUND_NONE => Ok(()),
        BOUND_CLOSED | BOUND_OPEN => check_version(&bound.version),
        _ => Err(BAD_RANGE),
    }
}

// No number of the version of a bound is above the limit by more than one.
#[inline(always)]
fn check_version(version: &Version<'_>) -> Result<(), u32>
    ensures ok { OnOk result (IsKept version.now (kept_value version.now)
        × (is_readable (MAX_SAFE_INTEGER + 1) (kept_value version.now) ≡ true)) }
    ensures refused { IfErr result (λ status. RefusesKept version.now status
        ⊎ ((status ≡ BAD_RANGE)
        × (is_readable (MAX_SAFE_INTEGER + 1) (kept_value version.now) ≡ false))) }
{
    check(version)?;
    let most = MAX_SAFE_INTEGER + 1;
    if version.major > most || version.minor > most || version.patch > most {
        return Err(BAD_RANGE);
    }
    Ok(())
}

/// Reads a range, so that it can be kept: `intervals` gets the parts of its intervals, and `out`
/// the texts of their versions, in the order of the bounds, of each version that of the build
/// metadata behind that of the pre-release. `count` gets the number of the intervals, and `len` the
/// length of the texts. If the array or the buffer is too small, these two alone are written.
///
/// Returns `OK`, `TOO_SMALL`, `BAD_ARGUMENT`, `NOT_UTF8`, `BAD_RANGE`, `NO_MEMORY` or `TOO_LONG`.
#[unsafe(no_mangle)]
pub extern "C" fn nodejs_semver_range_read(
    alloc: Global,
    reading: u32,
    range: &[u8],
    include_prerelease: bool,
    intervals: &mut [IntervalParts],
    count: &mut usize,
    out: &mut [u8],
    len: &mut usize,
) -> u32
    ensures { let same = RangeKept intervals.old intervals.new count.old count.new
        out.old out.new len.old len.new in
        OnRange reading include_prerelease range.now result same (λ r.
        TellsRange r intervals.old intervals.new count.old count.new
        out.old out.new len.old len.new result) }
{
    let Some(reading) = reading_of(reading) else {
        return BAD_ARGUMENT;
    };
    let text = ok_or_return!(read::text(range));
    // A look at what is read moves no range.
    match &reading.spelled_range(alloc, include_prerelease, text) {
        Ok(range) => tell_range(range, intervals, count, out, len),
        Err(failure) => reading.status_of(include_prerelease, text, failure),
    }
}

/// Tells the intervals of a range, and puts the texts of their versions to the front of a buffer.
pub fn tell_range(
    range: &RangeRef<'_>,
    told: &mut [IntervalParts],
    count: &mut usize,
    out: &mut [u8],
    len: &mut usize,
) -> u32
    ensures { TellsRange range.now told.old told.new count.old count.new
        out.old out.new len.old len.new result }
{
    let intervals = range.intervals();
    let needed = counted_texts(intervals);
    if needed > MOST_BYTES {
        return TOO_LONG;
    }
    *count = intervals.len();
    *len = needed;
    if told.len() < intervals.len() || out.len() < needed {
        return TOO_SMALL;
    }
    tell_intervals(intervals, told, out);
    OK
}

fn counted_texts(intervals: &[cuts::Interval<VersionRef<'_>>]) -> usize
    ensures { result ≡ min (length (range_texts intervals.now)) (2 ^ 64 - 1) }
{
    let mut len = 0;
    put_range_texts(intervals, &mut [], &mut len);
    len
}

#[inline(always)]
fn put_range_texts(intervals: &[cuts::Interval<VersionRef<'_>>], out: &mut [u8], len: &mut usize)
    ensures { Adds (range_texts intervals.now) out.old out.new len.old len.new }
{
    for interval in intervals {
        put_bound_texts(interval.lower(), out, len);
        put_bound_texts(interval.upper(), out, len);
    }
}

#[inline(always)]
fn put_bound_texts(bound: &cuts::Bound<VersionRef<'_>>, out: &mut [u8], len: &mut usize)
    ensures { Adds (bound_texts bound.now) out.old out.new len.old len.new }
{
    match bound {
        cuts::Bound::Unbounded => {}
        cuts::Bound::Before(version) | cuts::Bound::After(version) => {
            put_texts(version, out, len);
        }
    }
}

#[inline(always)]
fn put_texts(version: &VersionRef<'_>, out: &mut [u8], len: &mut usize)
    ensures { Adds (kept_texts version.now) out.old out.new len.old len.new }
{
    put_ids(version.pre_release(), out, len);
    put_ids(version.build(), out, len);
}

// Tells the intervals, and puts their texts to the front of a buffer that has room for them.
#[inline(always)]
fn tell_intervals(
    intervals: &[cuts::Interval<VersionRef<'_>>],
    told: &mut [IntervalParts],
    out: &mut [u8],
)
    requires room { length intervals.now ≤ length told.old }
    requires small { length (range_texts intervals.now) < 2 ^ 63 }
    ensures told { told.new ≡ map span_parts intervals.now ++ drop (length intervals.now) told.old }
    ensures texts { (len : ℕ) × Adds (range_texts intervals.now) out.old out.new 0 len }
{
    let mut len = 0;
    'intervals: for at in 0..intervals.len() {
        told[at] = tell_interval(&intervals[at], out, &mut len);
    }
}

// The parts of an interval, whose texts are put.
#[inline(always)]
fn tell_interval(
    interval: &cuts::Interval<VersionRef<'_>>,
    out: &mut [u8],
    len: &mut usize,
) -> IntervalParts
    requires { len.old < 2 ^ 64 }
    ensures texts { Adds (bound_texts interval.now.lower ++ bound_texts interval.now.upper)
        out.old out.new len.old len.new }
    ensures parts { len.new < 2 ^ 64 - 1 → result ≡ span_parts interval.now }
    ensures len { (len.old ≤ len.new) × (len.new < 2 ^ 64) }
{
    IntervalParts {
        lower: tell_lower(interval.lower(), out, len),
        upper: tell_upper(interval.upper(), out, len),
    }
}

#[inline(always)]
fn tell_lower(bound: &cuts::Bound<VersionRef<'_>>, out: &mut [u8], len: &mut usize) -> BoundParts
    requires { len.old < 2 ^ 64 }
    ensures texts { Adds (bound_texts bound.now) out.old out.new len.old len.new }
    ensures parts { len.new < 2 ^ 64 - 1 → result ≡ lower_parts bound.now }
    ensures len { (len.old ≤ len.new) × (len.new < 2 ^ 64) }
{
    match bound {
        cuts::Bound::Unbounded => no_bound(),
        cuts::Bound::Before(version) => tell_bound(BOUND_CLOSED, version, out, len),
        cuts::Bound::After(version) => tell_bound(BOUND_OPEN, version, out, len),
    }
}

#[inline(always)]
fn tell_upper(bound: &cuts::Bound<VersionRef<'_>>, out: &mut [u8], len: &mut usize) -> BoundParts
    requires { len.old < 2 ^ 64 }
    ensures texts { Adds (bound_texts bound.now) out.old out.new len.old len.new }
    ensures parts { len.new < 2 ^ 64 - 1 → result ≡ upper_parts bound.now }
    ensures len { (len.old ≤ len.new) × (len.new < 2 ^ 64) }
{
    match bound {
        cuts::Bound::Unbounded => no_bound(),
        cuts::Bound::Before(version) => tell_bound(BOUND_OPEN, version, out, len),
        cuts::Bound::After(version) => tell_bound(BOUND_CLOSED, version, out, len),
    }
}

#[inline(always)]
fn tell_bound(kind: u32, version: &VersionRef<'_>, out: &mut [u8], len: &mut usize) -> BoundParts
    requires { len.old < 2 ^ 64 }
    ensures texts { Adds (kept_texts version.now) out.old out.new len.old len.new }
    ensures parts { len.new < 2 ^ 64 - 1
        → result ≡ record { kind = kind; version = parts_of version.now } }
    ensures len { (len.old ≤ len.new) × (len.new < 2 ^ 64) }
{
    let pre_release_len = tell_list(version.pre_release(), out, len);
    let build_len = tell_list(version.build(), out, len);
    BoundParts {
        kind,
        version: Parts {
            major: version.major(),
            minor: version.minor(),
            patch: version.patch(),
            pre_release_len,
            build_len,
        },
    }
}

// Puts the text of a list, and returns its length.
#[inline(always)]
fn tell_list(ids: IdentifierRefs<'_>, out: &mut [u8], len: &mut usize) -> usize
    requires { len.old < 2 ^ 64 }
    ensures text { Adds (list_text ids.entry) out.old out.new len.old len.new }
    ensures size { len.new < 2 ^ 64 - 1 → result ≡ length (list_text ids.entry) }
    ensures len { (len.old ≤ len.new) × (len.new < 2 ^ 64) }
{
    let start = *len;
    put_ids(ids, out, len);
    *len - start
}

#[inline(always)]
fn no_bound() -> BoundParts
    ensures { result ≡ record { kind = BOUND_NONE; version = no_parts } }
{
    let version = Parts {
        major: 0,
        minor: 0,
        patch: 0,
        pre_release_len: 0,
        build_len: 0,
    };
    BoundParts {
        kind: BOUND_NONE,
        version,
    }
}
