// The intersection and the difference of two ranges, printed. An intersection has an interval for
// each pair of intervals that meet, and a difference up to as many, and as many more as the first
// range has: these can be very many. A large one is never made as a whole, but part by part: what
// comes of a few intervals of the first range is put behind the output before the next few are
// looked at.

ghost use Rattle.std.specs.Prelude.{◌≡◌, ◌++◌, ◌<◌, ◌||◌, false, IfOk, OnErr, OnOk};
ghost use Rattle.std.specs.Option.{is_some};
ghost use Rattle.semver_core.specs.declared.TheConstants.{MAX_SAFE_INTEGER};
ghost use Rattle.nodejs_semver.specs.Printing.Text.{range_text};
ghost use Rattle.nodejs_semver.specs.Ranges.View.{IsRange};
ghost use Rattle.semver_answers.specs.Names.{or_none};
ghost use Rattle.semver_answers.specs.Internal.Parts.{combined, text_behind};
ghost use Rattle.semver_answers.specs.Internal.Puts.{Extends};
ghost use Rattle.semver_answers.specs.Lines.{ended};

use crate::names::put_range_found;
use crate::output::Output;
use crate::pair::put_of_two;
use crate::put::ranges::put_range;
use nodejs_semver::cuts::{Bound, Interval};
use nodejs_semver::{RangeRef, VersionRef};
use std::alloc::{AllocError, Global};

// How many pairs of intervals are looked at at once.
const PAIRS: usize = 32768;

// In how many parts a difference is made at most.
const PARTS: usize = 32;

// Behind a part whose text is shorter, the next part is of twice as many intervals.
const SHORT: usize = 65536;

/// What is made of two ranges.
#[derive(Clone, Copy)]
pub(crate) enum Combination {
    /// What they have in common.
    Intersection,
    /// What the second one leaves of the first.
    Difference,
}

/// The text of an intersection or a difference, or `none`, with a line feed.
#[inline(always)]
#[tactic(auto, using(crate::proofs::Replies::value_put))]
pub(crate) fn put_combined<'t>(
    asked: Combination,
    alloc: Global,
    r: &RangeRef<'t>,
    s: &RangeRef<'t>,
    output: &mut Output,
) -> Result<(), AllocError>
    ensures ok { OnOk result (output.new
        ≡ output.old ++ ended (or_none range_text (combined asked r.now s.now))) }
    ensures err { OnErr result (Extends output.old output.new) }
{
    if let ([one], [other]) = (r.intervals(), s.intervals()) {
        return put_of_two(asked, one, other, output);
    }
    // There may be very many intervals. Both ways to print them give the same text.
    if r.intervals().len() > PAIRS / s.intervals().len() && !stand_along(asked, r, s) {
        return put_in_parts(asked, alloc, r, s, output);
    }
    match asked {
        Combination::Intersection => put_range_found(r.intersect(alloc, s), output),
        Combination::Difference => put_range_found(r.difference(alloc, s), output),
    }
}

// The same of a large one.
#[inline(never)]
#[tactic(auto, using(crate::proofs::Bytes::extended, crate::proofs::Growth::ended_text))]
fn put_in_parts<'t>(
    asked: Combination,
    alloc: Global,
    r: &RangeRef<'t>,
    s: &RangeRef<'t>,
    output: &mut Output,
) -> Result<(), AllocError>
    ensures ok { OnOk result (output.new
        ≡ output.old ++ ended (or_none range_text (combined asked r.now s.now))) }
    ensures err { OnErr result (Extends output.old output.new) }
{
    if put_parts(asked, alloc, r.intervals(), s, output)? {
        output.put(b"\n")
    } else {
        output.put(b"none\n")
    }
}

// Whether the intervals of the first range, and of an intersection those of the second too, stand
// in order along the line, without an overlap. Then few pairs meet, and they are found by search.
#[inline(never)]
fn stand_along(asked: Combination, r: &RangeRef<'_>, s: &RangeRef<'_>) -> bool {
    let is_enough = matches!(asked, Combination::Difference);
    are_along(r.intervals()) && (is_enough || are_along(s.intervals()))
}

fn are_along(intervals: &[Interval<VersionRef<'_>>]) -> bool {
    intervals.is_sorted_by(|one, next| !one.reaches(next))
}

// How many of so many intervals are combined at once with so many others. Each part of a difference
// takes as long as it takes to put the others in order, so there are not many parts.
fn count_at_once(asked: Combination, count: usize, others: usize) -> usize
    requires { 0 < others }
    ensures { 0 < result }
{
    let few = (PAIRS / others).max(1);
    match asked {
        Combination::Intersection => few,
        Combination::Difference => few.max(count / PARTS + 1),
    }
}

// How many of all are combined at once behind a part of so many, whose text is so long. Where
// little comes of them, fewer and larger parts take less time; they grow up to a quarter of all.
fn count_behind(count: usize, len: usize, all: usize) -> usize
    requires { 0 < count }
    ensures { 0 < result }
{
    if len < SHORT && count < all / 8 {
        count.saturating_mul(2)
    } else {
        count
    }
}

// Puts what comes of the intervals of a range, some after others. Returns whether there is
// anything.
#[tactic(auto, using(crate::proofs::Bytes::goes_on, crate::proofs::Growth::range_part))]
fn put_parts<'t>(
    asked: Combination,
    alloc: Global,
    these: &[Interval<VersionRef<'t>>],
    s: &RangeRef<'t>,
    output: &mut Output,
) -> Result<bool, AllocError>
    requires { IsRange MAX_SAFE_INTEGER these.now }
    ensures ok { OnOk result (output.new
        ≡ output.old ++ text_behind false (combined asked these.now s.now)) }
    ensures err { OnErr result (Extends output.old output.new) }
    ensures any { IfOk result (λ any. any ≡ is_some (combined asked these.now s.now)) }
{
    let mut at_once = count_at_once(asked, these.len(), s.intervals().len());
    let mut any = false;
    let mut at = 0;
    'parts: while at < these.len() {
        let end = at + at_once.min(these.len() - at);
        let begun = output.len();
        any = put_part(asked, alloc, &these[at..end], s, any, output)?;
        at_once = count_behind(at_once, output.len() - begun, these.len());
        at = end;
    }
    Ok(any)
}

// Puts what comes of some intervals of a range, behind what there is already. Returns whether there
// is anything.
fn put_part<'t>(
    asked: Combination,
    alloc: Global,
    some: &[Interval<VersionRef<'t>>],
    s: &RangeRef<'t>,
    any: bool,
    output: &mut Output,
) -> Result<bool, AllocError>
    requires { IsRange MAX_SAFE_INTEGER some.now }
    ensures ok { OnOk result (output.new
        ≡ output.old ++ text_behind any (combined asked some.now s.now)) }
    ensures err { OnErr result (Extends output.old output.new) }
    ensures any { IfOk result (λ now. now ≡ (any || is_some (combined asked some.now s.now))) }
{
    let part = range_of_copies(alloc, some)?;
    let found = combine(asked, alloc, &part, s)?;
    put_behind(&found, any, output)
}

fn combine<'t>(
    asked: Combination,
    alloc: Global,
    r: &RangeRef<'t>,
    s: &RangeRef<'t>,
) -> Result<Option<RangeRef<'t>>, AllocError>
    ensures { IfOk result (λ found. found ≡ combined asked r.now s.now) }
{
    match asked {
        Combination::Intersection => r.intersect(alloc, s),
        Combination::Difference => r.difference(alloc, s),
    }
}

// The range of copies of some intervals of a range.
fn range_of_copies<'t>(
    alloc: Global,
    some: &[Interval<VersionRef<'t>>],
) -> Result<RangeRef<'t>, AllocError>
    requires { IsRange MAX_SAFE_INTEGER some.now }
    ensures { IfOk result (λ range. range ≡ some.now) }
{
    let mut copies = Vec::with_capacity(alloc, some.len())?;
    for interval in some {
        let (lower, upper) = (copy_of(interval.lower()), copy_of(interval.upper()));
        copies.push(Interval::of_ordered(lower, upper))?;
    }
    match RangeRef::from_intervals(copies) {
        Ok(range) => Ok(range),
        Err(_) => unreachable!(),
    }
}

// A copy of a bound. By a call of `Interval::copy` here, that call in `difference` would no longer
// be inlined, which costs each line `minus` some 30 instructions.
fn copy_of<'t>(bound: &Bound<VersionRef<'t>>) -> Bound<VersionRef<'t>>
    ensures { result ≡ bound.now }
{
    match bound {
        Bound::Unbounded => Bound::Unbounded,
        Bound::Before(version) => Bound::Before(version.copy()),
        Bound::After(version) => Bound::After(version.copy()),
    }
}

// Puts a range, if there is one, behind what there is already.
#[tactic(auto, using(crate::proofs::Bytes::extended))]
fn put_behind(
    found: &Option<RangeRef<'_>>,
    any: bool,
    output: &mut Output,
) -> Result<bool, AllocError>
    ensures ok { OnOk result
        (output.new ≡ output.old ++ text_behind any found.now) }
    ensures err { OnErr result (Extends output.old output.new) }
    ensures any { IfOk result (λ now. now ≡ (any || is_some found.now)) }
{
    let Some(range) = found else {
        return Ok(any);
    };
    if any {
        output.put(b"||")?;
    }
    put_range(range, output)?;
    Ok(true)
}
