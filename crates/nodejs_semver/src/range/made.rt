// Ranges that are made of intervals.

ghost use Rattle.std.specs.Prelude.{◌≡◌, ◌+◌, ◌↔◌, IfErr};
ghost use Rattle.nodejs_semver.specs.Words.{bound_of, IfOk, is_range_span, IsOk, IsRange};
ghost use Rattle.nodejs_semver.specs.Words.{map, MAX_SAFE_INTEGER, span_of};
ghost use Rattle.semver_core.specs.Values.Gate.{is_range_bound};

use crate::{MAX_SAFE_INTEGER, RangeOf, VersionPoint};
use semver_core::cuts::{Bound, Interval};
use smallvec::SmallVec;

impl<V: VersionPoint> RangeOf<V> {
    /// The range of these intervals, in this order; they may overlap. Its bounds say which
    /// pre-releases `satisfies` accepts, as those of a range that was read from a text.
    ///
    /// The intervals are returned to the caller exactly if no range has them: there is none, or the
    /// version of a bound has a number above `MAX_SAFE_INTEGER` + 1, or an identifier that its own
    /// text does not spell, as an `AlphaNumeric` of `12`, which is possible only if it was made by
    /// hand. Nothing is allocated.
    ///
    /// ```rust
    /// let lower = Bound::Before(Version::from((1u64, 2, 0)));
    /// let upper = Bound::Before(Version::with_pre(alloc, 2, 0, 0, 0)?);
    /// let mut intervals = Vec::new(alloc);
    /// if let Some(interval) = Interval::new(lower, upper) {
    ///     intervals.push(interval)?;
    /// }
    /// let range = Range::from_intervals(intervals).ok();
    /// assert!(rt; range == Range::parse(alloc, "^1.2").ok());
    /// ```
    pub fn from_intervals(intervals: Vec<Interval<V>>) -> Result<RangeOf<V>, Vec<Interval<V>>>
        // The range has these intervals.
        ensures list { IfOk result (λ range. range ≡ map (span_of V.value) intervals.items) }
        ensures returned { IfErr result (λ list. list ≡ intervals) }
        // A range is made exactly of what is a list of the intervals of one.
        ensures exact { IsOk result
            ↔ IsRange MAX_SAFE_INTEGER (map (span_of V.value) intervals.items) }
    {
        if intervals.is_empty() || !intervals.iter().all(is_of_range) {
            return Err(intervals);
        }
        let intervals = SmallVec::from_vec(intervals);
        Ok(RangeOf { intervals })
    }
}

// Whether the interval may be one of a range: its lower cut is below its upper one in any case.
#[tactic(auto, using(crate::proofs::Values::range_span))]
fn is_of_range<V: VersionPoint>(interval: &Interval<V>) -> bool
    ensures { result ≡ is_range_span (MAX_SAFE_INTEGER + 1) (span_of V.value interval.now) }
{
    let (lower, upper) = (interval.lower(), interval.upper());
    is_range_bound(lower) && is_range_bound(upper)
}

// Whether a version that the bound has is one of a bound of a range.
fn is_range_bound<V: VersionPoint>(bound: &Bound<V>) -> bool
    ensures { result ≡ is_range_bound (MAX_SAFE_INTEGER + 1) (bound_of V.value bound.now) }
{
    match bound {
        Bound::Unbounded => true,
        Bound::Before(version) | Bound::After(version) => {
            version.is_readable(MAX_SAFE_INTEGER + 1)
        }
    }
}
