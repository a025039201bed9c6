// Lists of intervals: what two of them have in common, and what one leaves of another.

ghost use Rattle.std.specs.Prelude.{◌++◌, ◌<◌, ◌∷◌, ◌≡◌, ◌≢◌, ◌⊎◌, IsOkAnd};
ghost use Rattle.nodejs_semver.specs.Words.{[], clip, covers, flat_map, if_any, IfOk, is_interval};
ghost use Rattle.nodejs_semver.specs.Words.{is_some, IsAlong, IsTrue, length, list_all, list_any};
ghost use Rattle.nodejs_semver.specs.Words.{IsNear, meet, meets_of, minus, OnErr, OnOk};
ghost use Rattle.nodejs_semver.specs.Words.{option_to_list, remainder, Start, true, Unbounded};

use crate::Allocated;
use crate::range::Intervals;
use semver_core::cuts::{Interval, Point};
use smallvec::SmallVec;
use std::alloc::Global;

/// Puts the intersections of all pairs at the end, the first list outside. Inlined into `common`,
/// the loop over the pairs would cost an intersection of single intervals some 40 instructions.
#[inline(never)]
pub(crate) fn push_all_intersections<V: Point>(
    alloc: Global,
    found: &mut Intervals<V>,
    these: &[Interval<V>],
    others: &[Interval<V>],
) -> Allocated<()>
    requires { list_all (is_interval V.cmp) others.now ≡ true }
    ensures items { OnOk result (found.new.items
        ≡ found.old.items ++ meets_of V.cmp these.now others.now) }
    ensures memory { OnErr result (0 < length (meets_of V.cmp these.now others.now)) }
{
    let are_along = are_along(others);
    for interval in these {
        let near = near(interval, others, are_along);
        for another in near {
            // Most pairs do not meet.
            if interval.meets(another) {
                push_common(alloc, found, interval, another, near.len())?;
            }
        }
    }
    Ok(())
}

/// The differences: what is left of these intervals, in order, when the others are taken away one
/// after another.
///
/// That is what of each of them lies within the complement of the others, so each is clipped to the
/// complement's pieces, which stand in order along the line. For n intervals, m others and k
/// results that is about n log m + m log m + k steps, which no clause promises; taking the others
/// away one by one would copy each survivor m times.
pub(crate) fn differences<V: Point>(
    alloc: Global,
    these: &[Interval<V>],
    others: &[Interval<V>],
) -> Allocated<Intervals<V>>
    requires { list_all (is_interval V.cmp) these.now ≡ true }
    ensures items { IfOk result (λ r. r.items ≡ minus V.cmp these.now others.now) }
    // The complement of one other interval is not made.
    ensures memory { OnErr result
        ((0 < length (minus V.cmp these.now others.now)) ⊎ (length others.now ≢ 1)) }
{
    if others.len() == 1 {
        return remainders(alloc, these, &others[0]);
    }
    let pieces = complement(alloc, others)?;
    clipped(alloc, these, &pieces)
}

/// Whether some interval of the first list meets some interval of the second: whether they have an
/// intersection.
pub(crate) fn meet_somewhere<V: Point>(these: &[Interval<V>], others: &[Interval<V>]) -> bool
    requires { list_all (is_interval V.cmp) others.now ≡ true }
    ensures { result ≡ is_some (if_any (meets_of V.cmp these.now others.now)) }
{
    let are_along = are_along(others);
    for interval in these {
        for other in near(interval, others, are_along) {
            if interval.meets(other) {
                return true;
            }
        }
    }
    false
}

/// Whether some interval of the first list covers some interval of the second.
pub(crate) fn cover_somewhere<V: Point>(these: &[Interval<V>], others: &[Interval<V>]) -> bool
    requires { list_all (is_interval V.cmp) others.now ≡ true }
    ensures { result ≡ list_any (λ s. list_any (λ t. covers V.cmp s t) others.now) these.now }
{
    let are_along = are_along(others);
    for interval in these {
        for other in near(interval, others, are_along) {
            if interval.covers(other) {
                return true;
            }
        }
    }
    false
}

// How many intervals make a search among them cost less than going through them.
const MANY: usize = 16;

// Whether there are many intervals, which stand in order along the line and do not overlap.
fn are_along<V: Point>(intervals: &[Interval<V>]) -> bool
    requires { list_all (is_interval V.cmp) intervals.now ≡ true }
    ensures { IsTrue result → IsAlong V.cmp Start intervals.now }
{
    intervals.len() >= MANY && intervals.is_sorted_by(|one, next| !one.reaches(next))
}

// Some of the others that stand together, and outside of which none meets the interval: of those
// that stand along the line, the ones that meet it.
fn near<'a, V: Point>(
    interval: &Interval<V>,
    others: &'a [Interval<V>],
    are_along: bool,
) -> &'a [Interval<V>]
    requires { IsTrue are_along → IsAlong V.cmp Start others.now }
    ensures { IsNear V.cmp interval.now others.now result.now }
{
    if !are_along {
        return others;
    }
    let first = others.partition_point(|other| !other.reaches(interval));
    let (_, behind) = others.split_at(first);
    let end = behind.partition_point(|other| interval.reaches(other));
    let (near, _) = behind.split_at(end);
    near
}

// Out of the loop over the pairs, which then keeps no interval of its own.
#[inline(never)]
fn push_common<V: Point>(
    alloc: Global,
    found: &mut Intervals<V>,
    interval: &Interval<V>,
    other: &Interval<V>,
    room: usize,
) -> Allocated<()>
    ensures items { OnOk result (found.new.items
        ≡ found.old.items ++ option_to_list (meet V.cmp interval.now other.now)) }
    ensures memory { OnErr result (IsTrue (is_some (meet V.cmp interval.now other.now))) }
{
    push(interval.intersect(alloc, other), found, room)
}

// The complement: what the intervals leave of the whole line, in order along it. It is found by
// halves, so that each piece is copied about log m times for m intervals.
fn complement<V: Point>(alloc: Global, intervals: &[Interval<V>]) -> Allocated<Intervals<V>>
    ensures { IfOk result (λ r. r.items
        ≡ minus V.cmp (record { lower = Unbounded; upper = Unbounded } ∷ []) intervals.now) }
{
    if intervals.len() < 4 {
        // Of three there are four pieces at most.
        let mut left = SmallVec::from_buf(alloc, [Interval::default()]);
        for interval in intervals {
            left = remainders(alloc, &left, interval)?;
        }
        return Ok(left);
    }
    let (front, back) = intervals.split_at(intervals.len() / 2);
    let before = complement(alloc, front)?;
    let after = complement(alloc, back)?;
    clipped(alloc, &before, &after)
}

// What of each interval lies within each of the pieces, which stand in order along the line.
fn clipped<V: Point>(
    alloc: Global,
    these: &[Interval<V>],
    pieces: &[Interval<V>],
) -> Allocated<Intervals<V>>
    requires { IsAlong V.cmp Start pieces.now }
    ensures { IfOk result (λ r. r.items
        ≡ flat_map (λ s. flat_map (λ t. option_to_list (clip V.cmp s t)) pieces.now) these.now) }
{
    let mut found = SmallVec::new(alloc);
    for interval in these {
        push_clipped(alloc, &mut found, interval, pieces)?;
    }
    Ok(found)
}

// What is left of each interval below and above one other.
fn remainders<V: Point>(
    alloc: Global,
    these: &[Interval<V>],
    other: &Interval<V>,
) -> Allocated<Intervals<V>>
    ensures items { IfOk result (λ r. r.items
        ≡ flat_map (λ s. remainder V.cmp s other.now) these.now) }
    ensures memory { OnErr result
        (0 < length (flat_map (λ s. remainder V.cmp s other.now) these.now)) }
{
    let mut left = SmallVec::new(alloc);
    for interval in these {
        if interval.meets(other) {
            push(interval.left_below(alloc, other), &mut left, these.len())?;
            push(interval.left_above(alloc, other), &mut left, these.len())?;
        } else {
            push(interval.copy(alloc).map(Some), &mut left, these.len())?;
        }
    }
    Ok(left)
}

// Puts what of one interval lies within each of the pieces at the end. Those that do so stand
// together.
fn push_clipped<V: Point>(
    alloc: Global,
    found: &mut Intervals<V>,
    interval: &Interval<V>,
    pieces: &[Interval<V>],
) -> Allocated<()>
    requires { IsAlong V.cmp Start pieces.now }
    ensures { OnOk result (found.new.items
        ≡ found.old.items
        ++ flat_map (λ t. option_to_list (clip V.cmp interval.now t)) pieces.now) }
{
    let first = pieces.partition_point(|piece| !piece.reaches(interval));
    let (_, near) = pieces.split_at(first);
    for piece in near {
        let Some(part) = interval.clip(alloc, piece)? else {
            return Ok(());
        };
        push(Ok(Some(part)), found, pieces.len())?;
    }
    Ok(())
}

// Puts the interval at the end, if one was made. A list without room takes some for so many more,
// at most 31 at once.
#[inline(always)]
fn push<V: Point>(
    part: Allocated<Option<Interval<V>>>,
    found: &mut Intervals<V>,
    room: usize,
) -> Allocated<()>
    ensures items { OnOk result (IsOkAnd part (λ p.
        found.new.items ≡ found.old.items ++ option_to_list p)) }
    ensures memory { OnErr result (IfOk part (λ p. IsTrue (is_some p))) }
{
    let interval = match part {
        Ok(Some(interval)) => interval,
        Ok(None) => return Ok(()),
        Err(error) => return Err(error),
    };
    if found.len() == found.capacity() {
        found.reserve(room.min(30) + 1)?;
    }
    found.push_reserved(interval);
    Ok(())
}
