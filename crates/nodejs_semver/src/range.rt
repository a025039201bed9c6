// Ranges: lists of intervals of versions.

ghost use Rattle.std.specs.Prelude.{◌+◌, ◌≡◌, ◌≤◌, IfOk, IsOk, OnErr, true};
ghost use Rattle.nodejs_semver.specs.Words.{any_version, AreTaking, if_any, is_range_span, IsRange};
ghost use Rattle.nodejs_semver.specs.Words.{list_all, MAX_SAFE_INTEGER, spans_of, TakesMemory};

mod algebra;
pub(crate) mod best;
mod equality;
pub(crate) mod gate;
mod index;
mod interval_lists;
mod least;
mod made;
mod neighbours;
mod outside;
pub(crate) mod owned;
mod parse;
mod print;
mod simplified;
mod subsets;
mod unions;

use crate::Allocated;
pub use crate::range::outside::{OutsideDirection, RangeError};
pub use crate::range::parse::{RangeReader, word_field};
use semver_core::cuts::{Interval, Point};
use semver_core::{Version, VersionPoint, VersionRef};
pub(crate) use semver_pieces::Intervals;
use smallvec::SmallVec;
use std::alloc::{AllocError, Global};
use std::marker::Model;

/// A range: the versions of one or more intervals, which may own or borrow their versions. See
/// [`Range`](crate::Range) and [`RangeRef`](crate::RangeRef).
///
/// A range keeps its intervals and not the text that it was read from, so it prints in a normal
/// form: `^1.2` prints `>=1.2.0 <2.0.0-0`.
#[derive(Drop)]
#[derive_where(Debug; V)]
pub struct RangeOf<V: VersionPoint> {
    intervals: Intervals<V>,
}

/// In clauses, a range is the list of its intervals, with the values of its versions.
impl<V: VersionPoint> Model for RangeOf<V> {
    ghost use Rattle.nodejs_semver.specs.Words.{IsRange, List, MAX_SAFE_INTEGER, Span, spans_of};
    ghost use Rattle.nodejs_semver.specs.Words.{VersionValue};

    ghost Value = { List (Span VersionValue) };

    ghost view = { λ r. spans_of V.value r.intervals.items };

    ghost invariant = { λ r. IsRange MAX_SAFE_INTEGER (spans_of V.value r.intervals.items) };
}

/// A range with versions of its own. It is what a range text such as `^1.2 || >=3.0.0-rc` names.
pub type Range = RangeOf<Version>;

/// A range that borrows its text: its bounds are read where they stand. One interval stands inline,
/// so that most ranges allocate nothing.
pub type RangeRef<'a> = RangeOf<VersionRef<'a>>;

impl<V: VersionPoint> RangeOf<V> {
    /// A copy of the whole range, builds included. Fails only if allocation fails, which happens
    /// only where it has more than one interval, or a bound with build metadata or with a
    /// pre-release other than `0` alone.
    pub fn copy(&self, alloc: Global) -> Result<RangeOf<V>, AllocError>
        ensures whole { IfOk result (λ r. r ≡ self.now) }
        ensures memory { OnErr result (TakesMemory self.now) }
    {
        let intervals = copy_intervals(alloc, self.items())?;
        Ok(RangeOf { intervals })
    }

    /// The intervals, whoever owns their versions.
    ///
    /// This is for the crates of this repository.
    #[inline(always)]
    pub fn items(&self) -> &[Interval<V>]
        ensures value { spans_of V.value result.now ≡ self.now }
        ensures valid { IsRange MAX_SAFE_INTEGER self.now }
    {
        &self.intervals
    }

    // The range of these intervals, or none where there is no interval.
    #[inline(always)]
    pub(crate) fn of_intervals(intervals: Intervals<V>) -> Option<RangeOf<V>>
        requires { list_all (is_range_span (MAX_SAFE_INTEGER + 1))
            (spans_of V.value intervals.items) ≡ true }
        ensures { result ≡ if_any (spans_of V.value intervals.items) }
    {
        if intervals.is_empty() {
            None
        } else {
            Some(RangeOf { intervals })
        }
    }

    /// The range of these intervals, of which there are some.
    ///
    /// This is for the crates of this repository.
    pub fn of_some(intervals: Intervals<V>) -> RangeOf<V>
        requires { IsRange MAX_SAFE_INTEGER (spans_of V.value intervals.items) }
        ensures { result ≡ spans_of V.value intervals.items }
    {
        RangeOf { intervals }
    }
}

impl Range {
    /// The range with one interval, which has no bounds. It holds every version, but `satisfies`
    /// accepts releases alone, since it names no pre-release; `satisfies_with_prerelease` with the
    /// flag accepts every version. Nothing is allocated, so it never fails.
    pub fn any(alloc: Global) -> Result<Range, AllocError>
        ensures value { IfOk result (λ r. r ≡ any_version) }
        ensures succeeds { IsOk result }
    {
        let mut intervals = SmallVec::new(alloc);
        intervals.push_reserved(Interval::default());
        Ok(RangeOf { intervals })
    }

    /// The intervals, in the order in which the text names them: one or more, which may overlap.
    #[tactic(auto, using(crate::proofs::Values::spans_same))]
    pub fn intervals(&self) -> &[Interval<Version>]
        ensures value { result.now ≡ self.now }
        ensures valid { IsRange MAX_SAFE_INTEGER self.now }
    {
        self.items()
    }
}

impl<'a> RangeRef<'a> {
    /// The intervals, in the order in which the text names them: one or more, which may overlap.
    #[tactic(auto, using(crate::proofs::Values::spans_same))]
    pub fn intervals(&self) -> &[Interval<VersionRef<'a>>]
        ensures value { result.now ≡ self.now }
        ensures valid { IsRange MAX_SAFE_INTEGER self.now }
    {
        self.items()
    }
}

/// Copies of the intervals.
pub(crate) fn copy_intervals<V: Point>(
    alloc: Global,
    intervals: &[Interval<V>],
) -> Allocated<Intervals<V>>
    ensures whole { IfOk result (λ copies. copies.items ≡ intervals.now) }
    ensures room { IfOk result (λ copies. 1 ≤ copies.capacity) }
    ensures memory { OnErr result (AreTaking V.takes intervals.now) }
{
    let mut copies = SmallVec::with_capacity(alloc, intervals.len())?;
    for interval in intervals {
        copies.push_reserved(interval.copy(alloc)?);
    }
    Ok(copies)
}
