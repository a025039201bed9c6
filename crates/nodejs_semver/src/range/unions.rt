// The union of two ranges.

ghost use Rattle.std.specs.Prelude.{◌++◌, ◌<◌, ◌||◌, ◌∷◌, ◌≡◌, ◌≤◌, ◌⊎◌};
ghost use Rattle.nodejs_semver.specs.Words.{Bool, IfOk, OnErr, OnOk, TakesMemory};
ghost use Rattle.nodejs_semver.specs.Words.{VersionValue, [], accepts, bound_of, has_bound};
ghost use Rattle.nodejs_semver.specs.Words.{length, lets_in, not, passes, span_of};
ghost use Rattle.nodejs_semver.specs.{Words.{IfSome, spans_of, true}, Internal.Questions.is_said};
ghost use Rattle.nodejs_semver.specs.Internal.Index.{IsIndexOf};
ghost use Rattle.nodejs_semver.specs.Ranges.Unions.{says_all, union};

use crate::RangeOf;
use crate::range::gate::lets_in;
use crate::range::index::Index;
use crate::range::{Intervals, copy_intervals};
use semver_core::VersionPoint;
use semver_core::cuts::{Bound, Interval};
use std::alloc::{AllocError, Global};

impl<V: VersionPoint> RangeOf<V> {
    /// The union: it accepts what either range accepts, and nothing else, whether pre-releases are
    /// included or not. Fails only if allocation fails, which happens only where the union has more
    /// than one interval, or a bound with build metadata or with another pre-release than `0`.
    ///
    /// It has the intervals of this range, in order, and then those of the other, save each that an
    /// interval of this range covers which lets in the versions of its bounds. Intervals that touch
    /// or overlap are not joined, since the bounds of each say which pre-releases it accepts.
    /// node-semver has no such call.
    ///
    /// ```rust
    /// let one = Range::parse(alloc, "^1.2")?;
    /// let other = Range::parse(alloc, ">=2.0.0-rc.1 || ~1.4")?;
    /// let either = Range::parse(alloc, "^1.2 || >=2.0.0-rc.1 || ~1.4").ok();
    /// assert!(rt; one.union(alloc, &other).ok() == either);
    /// ```
    ///
    /// As measured, time grows with n log n for n intervals of both. It grows with n squared where
    /// the other's intervals have pre-releases of different numbers at both ends, or where there is
    /// no memory for an index.
    pub fn union(&self, alloc: Global, other: &RangeOf<V>) -> Result<RangeOf<V>, AllocError>
        ensures list { IfOk result (λ r. r ≡ union self.now other.now) }
        // It accepts exactly what either accepts.
        ensures accepted { IfOk result (λ r. (v : VersionValue) → (include : Bool) →
            accepts r v include ≡ (accepts self.now v include || accepts other.now v include)) }
        ensures memory { OnErr result (TakesMemory (union self.now other.now)) }
    {
        let (these, others) = (self.items(), other.items());
        let mut intervals = copy_intervals(alloc, these)?;
        let index = Index::of_many(alloc, these);
        for interval in others {
            if !is_said(these, &index, interval) {
                push_copy(alloc, &mut intervals, interval)?;
            }
        }
        Ok(RangeOf::of_some(intervals))
    }
}

/// Puts a copy of the interval at the end of a list that has room for one.
pub(crate) fn push_copy<V: VersionPoint>(
    alloc: Global,
    found: &mut Intervals<V>,
    interval: &Interval<V>,
) -> Result<(), AllocError>
    requires { 1 ≤ found.old.capacity }
    ensures whole { OnOk result (found.new.items ≡ found.old.items ++ interval.now ∷ []) }
    ensures room { 1 ≤ found.new.capacity }
    ensures memory { OnErr result
        ((0 < length found.old.items) ⊎ (has_bound V.takes interval.now ≡ true)) }
{
    Ok(found.push(interval.copy(alloc)?)?)
}

// Whether one of these intervals says all of the other.
fn is_said<V: VersionPoint>(
    these: &[Interval<V>],
    index: &Option<Index<'_, V>>,
    other: &Interval<V>,
) -> bool
    requires { IfSome index.now (IsIndexOf (spans_of V.value these.now)) }
    ensures { result ≡ is_said V.value these.now other.now }
{
    if let Some(index) = index {
        if let Some(answer) = index.say_all(other) {
            return answer;
        }
    }
    these.iter().any(|interval| says_all(interval, other))
}

// Whether the interval covers the other one and lets in the versions of its bounds.
fn says_all<V: VersionPoint>(interval: &Interval<V>, other: &Interval<V>) -> bool
    ensures { result ≡ says_all (span_of V.value interval.now) (span_of V.value other.now) }
{
    interval.covers(other)
        && !keeps_out(interval, other.lower())
        && !keeps_out(interval, other.upper())
}

// Whether the bound has a version that the interval does not let in.
fn keeps_out<V: VersionPoint>(interval: &Interval<V>, bound: &Bound<V>) -> bool
    ensures { result ≡ passes (λ w. not (lets_in (span_of V.value interval.now) w))
        (bound_of V.value bound.now) }
{
    match bound {
        Bound::Unbounded => false,
        Bound::Before(version) | Bound::After(version) => !lets_in(interval, version),
    }
}
