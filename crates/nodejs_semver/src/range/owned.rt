// Borrowed ranges with versions of their own.

ghost use Rattle.std.specs.Prelude.{◌<◌, ◌≡◌, ◌≢◌, ◌⊎◌, IfOk, IsSomeAnd, length, OnErr, true};
ghost use Rattle.nodejs_semver.specs.Words.{has_bound, list_any, takes_memory, TakesMemory};

use crate::range::Intervals;
use crate::{Allocated, Range, RangeOf, RangeRef};
use semver_core::cuts::Interval;
use semver_core::{Version, VersionRef};
use semver_pieces::owned_interval;
use smallvec::SmallVec;
use std::alloc::{AllocError, Global};

impl<'a> RangeRef<'a> {
    /// The range with versions of its own. Fails only if allocation fails, which happens only
    /// where it has more than one interval, or a bound with build metadata or with a pre-release
    /// other than `0` alone. So it never fails for `^1.2` and `~1.2.3`, whose upper bounds end in
    /// `-0`.
    #[tactic(auto, using(crate::proofs::Values::spans_same))]
    pub fn to_range(&self, alloc: Global) -> Result<Range, AllocError>
        ensures whole { IfOk result (λ range. range ≡ self.now) }
        ensures memory { OnErr result (TakesMemory self.now) }
    {
        let intervals = owned_intervals(alloc, self.intervals())?;
        Ok(RangeOf { intervals })
    }
}

/// The range with versions of its own, if there is one.
pub(crate) fn owned_range(alloc: Global, range: Option<RangeRef<'_>>) -> Allocated<Option<Range>>
    ensures whole { IfOk result (λ r. r ≡ range.entry) }
    ensures memory { OnErr result (IsSomeAnd range.entry TakesMemory) }
{
    match range {
        Some(range) => range.to_range(alloc).map(Some),
        None => Ok(None),
    }
}

/// The intervals with versions of their own. Mostly there is one.
pub(crate) fn owned_intervals(
    alloc: Global,
    intervals: &[Interval<VersionRef<'_>>],
) -> Allocated<Intervals<Version>>
    ensures whole { IfOk result (λ owned. owned.items ≡ intervals.now) }
    ensures some { OnErr result (0 < length intervals.now) }
    ensures memory { OnErr result ((length intervals.now ≢ 1)
        ⊎ (list_any (has_bound takes_memory) intervals.now ≡ true)) }
{
    let mut owned = SmallVec::with_capacity(alloc, intervals.len())?;
    for interval in intervals {
        owned.push_reserved(owned_interval(alloc, interval)?);
    }
    Ok(owned)
}
