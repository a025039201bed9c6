// The parts of the keys of what intervals accept.

ghost use Rattle.std.specs.Prelude.{◌≡◌, ◌++◌, IfOk, OnOk};
ghost use Rattle.key_spans.specs.Internal.Kinds.{all_of_kind, first_place, of_kind, place};
ghost use Rattle.key_spans.specs.Internal.Kinds.{stretch};
ghost use Rattle.key_spans.specs.Internal.Pieces.{IsCanonicalOf};
ghost use Rattle.key_spans.specs.Internal.Places.{bound_stretch, greater, lesser, own_part};
ghost use Rattle.key_spans.specs.Internal.Places.{pre_stretches};
ghost use Rattle.nodejs_semver.specs.Internal.Shorthands.{spans_of};
ghost use Rattle.nodejs_semver.specs.Ranges.View.{bound_of, span_of};

use crate::canon::{Part, canonical};
use crate::marks::{END, key_behind, key_of, lowest, next_key, release_key};
use nodejs_semver::{VersionPoint, Versioned};
use semver_core::cuts::{Bound, Interval};
use std::alloc::{AllocError, Global};

// Which versions of an interval are wanted.
#[derive(Clone, Copy)]
pub(crate) enum Kind {
    Releases,
    // The pre-releases of the numbers of a bound that is one.
    PreReleases,
    Versions,
}

// Where those of an interval without a lower bound start.
fn first_place(kind: Kind) -> &'static [u8]
    ensures { result.now ≡ first_place kind }
{
    match kind {
        Kind::Releases => &[0, 0, 0, 3],
        Kind::PreReleases => &[],
        Kind::Versions => &[0, 0, 0, 1, 0, 0],
    }
}

// The key of the first of them past a bound; for pre-releases it is that of a release, if none is
// between.
fn place<V: VersionPoint>(
    alloc: Global,
    kind: Kind,
    bound: &Bound<V>,
    none: &[u8],
) -> Result<Vec<u8>, AllocError>
    ensures { IfOk result (λ bytes.
        bytes.items ≡ place kind (bound_of V.value bound.now) none.now) }
{
    match bound {
        Bound::Unbounded => none.to_vec(alloc),
        Bound::Before(version) => match kind {
            Kind::Releases => release_key(alloc, version),
            _ => key_of(alloc, version),
        },
        Bound::After(version) if version.is_release() => match kind {
            Kind::Releases => next_key(alloc, version, true),
            Kind::PreReleases => key_of(alloc, version),
            Kind::Versions => next_key(alloc, version, false),
        },
        Bound::After(version) => match kind {
            Kind::Releases => release_key(alloc, version),
            _ => key_behind(alloc, version),
        },
    }
}

// The part of an interval; of pre-releases all that lie between its bounds.
fn part_of<V: VersionPoint>(
    alloc: Global,
    kind: Kind,
    interval: &Interval<V>,
) -> Result<Part, AllocError>
    ensures { IfOk result (λ part. part ≡ stretch kind (span_of V.value interval.now)) }
{
    let start = place(alloc, kind, interval.lower(), first_place(kind))?;
    let stop = place(alloc, kind, interval.upper(), &END)?;
    Ok(Part { start, stop })
}

// The greater of two strings of bytes.
fn greater_of<'s>(first: &'s [u8], second: &'s [u8]) -> &'s [u8]
    ensures { result.now ≡ greater first.now second.now }
{
    if first.cmp(second).is_le() {
        second
    } else {
        first
    }
}

// The lesser of two strings of bytes.
fn lesser_of<'s>(first: &'s [u8], second: &'s [u8]) -> &'s [u8]
    ensures { result.now ≡ lesser first.now second.now }
{
    if first.cmp(second).is_le() {
        first
    } else {
        second
    }
}

// The pre-releases of a version's numbers within a part.
fn own_part<V: Versioned>(alloc: Global, within: &Part, version: &V) -> Result<Part, AllocError>
    ensures { IfOk result (λ part.
        part ≡ own_part within.now.start within.now.stop (V.value version.now)) }
{
    let (major, minor, patch) = (version.major(), version.minor(), version.patch());
    let lowest = lowest(major, minor, patch).key(alloc)?;
    let release = release_key(alloc, version)?;
    let start = greater_of(&within.start, &lowest);
    let stop = lesser_of(&within.stop, &release);
    Part::between(alloc, start, stop)
}

// Adds the pre-releases that a bound lets in within a part: those of its numbers, if it is one.
fn add_bound<V: VersionPoint>(
    alloc: Global,
    within: &Part,
    bound: &Bound<V>,
    parts: &mut Vec<Part>,
) -> Result<(), AllocError>
    ensures { OnOk result (parts.new.items ≡ parts.old.items
        ++ bound_stretch within.now.start within.now.stop (bound_of V.value bound.now)) }
{
    let (Bound::Before(version) | Bound::After(version)) = bound else {
        return Ok(());
    };
    if !version.is_release() {
        parts.push(own_part(alloc, within, version)?)?;
    }
    Ok(())
}

// Adds the pre-releases of an interval.
fn add_pre<V: VersionPoint>(
    alloc: Global,
    interval: &Interval<V>,
    parts: &mut Vec<Part>,
) -> Result<(), AllocError>
    ensures { OnOk result (parts.new.items
        ≡ parts.old.items ++ pre_stretches (span_of V.value interval.now)) }
{
    let within = part_of(alloc, Kind::PreReleases, interval)?;
    add_bound(alloc, &within, interval.lower(), parts)?;
    add_bound(alloc, &within, interval.upper(), parts)
}

// Adds those of an interval.
fn add_kind<V: VersionPoint>(
    alloc: Global,
    kind: Kind,
    interval: &Interval<V>,
    parts: &mut Vec<Part>,
) -> Result<(), AllocError>
    ensures { OnOk result (parts.new.items
        ≡ parts.old.items ++ of_kind kind (span_of V.value interval.now)) }
{
    match kind {
        Kind::PreReleases => add_pre(alloc, interval, parts),
        _ => Ok(parts.push(part_of(alloc, kind, interval)?)?),
    }
}

// The canonical list of those of intervals.
pub(crate) fn parts_of<V: VersionPoint>(
    alloc: Global,
    kind: Kind,
    intervals: &[Interval<V>],
) -> Result<Vec<Part>, AllocError>
    ensures { IfOk result (λ parts.
        IsCanonicalOf (all_of_kind kind (spans_of V.value intervals.now)) parts.items) }
{
    let mut parts = Vec::new(alloc);
    for interval in intervals {
        add_kind(alloc, kind, interval, &mut parts)?;
    }
    canonical(alloc, parts)
}
