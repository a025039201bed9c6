// The set algebra of ranges.

ghost use Rattle.std.specs.Prelude.{◌&&◌, ◌+◌, ◌<◌, ◌||◌, ◌≡◌, ◌⊎◌};
ghost use Rattle.nodejs_semver.specs.Words.{[], accepts, covers_one, difference, false, if_any};
ghost use Rattle.nodejs_semver.specs.Words.{IfOk, intersection, is_range_span, is_release, is_some};
ghost use Rattle.nodejs_semver.specs.Words.{IsTrue, length, list_all, list_holds, MAX_SAFE_INTEGER};
ghost use Rattle.nodejs_semver.specs.Words.{meet, not, OnErr, option_to_list, precedence, spans_of};
ghost use Rattle.nodejs_semver.specs.Words.{true, unwrap_or, VersionValue};

use crate::range::interval_lists;
use crate::{Allocated, Range, RangeOf, RangeRef};
use semver_core::VersionPoint;
use semver_core::cuts::Interval;
use smallvec::SmallVec;
use std::alloc::{AllocError, Global};

impl<V: VersionPoint> RangeOf<V> {
    /// The intersection: what the pairs of intervals have in common, for each interval of this
    /// range in order with each of the other's. Returns `None` if no pair meets. Fails only if
    /// allocation fails; where no pair meets it never does.
    ///
    /// Of equal lower bounds the other's is kept with its build, of equal upper bounds this
    /// range's. The intersection may accept pre-releases that only one of the two ranges accepts,
    /// since its bounds name them; for the smallest version that both accept, see `least_of_all`.
    ///
    /// ```rust
    /// let one = Range::parse(alloc, ">=1.2.3-a")?;
    /// let other = Range::parse(alloc, ">=1.0.0")?;
    /// // It accepts 1.2.3-a, which the second range does not accept.
    /// assert!(rt; one.intersect(alloc, &other) == Ok(Some(one)));
    /// ```
    ///
    /// The list is not normalised: n intervals and m others make at most n times m intervals, and
    /// that many if all pairs meet. As measured, memory grows with the number of intervals made.
    /// Time grows with n times m, or with n log m and that number where the other's intervals stand
    /// in order along the line.
    pub fn intersect(
        &self,
        alloc: Global,
        other: &RangeOf<V>,
    ) -> Result<Option<RangeOf<V>>, AllocError>
        ensures list { IfOk result (λ r. r ≡ intersection self.now other.now) }
        // It holds what both hold.
        ensures set { IfOk result (λ r. (v : VersionValue) →
            list_holds precedence (unwrap_or r []) v
            ≡ (list_holds precedence self.now v && list_holds precedence other.now v)) }
        // With pre-releases included it accepts what both accept.
        ensures all { IfOk result (λ r. (v : VersionValue) →
            accepts (unwrap_or r []) v true
            ≡ (accepts self.now v true && accepts other.now v true)) }
        // It accepts what both accept, and nothing that neither accepts.
        ensures both { IfOk result (λ r. (v : VersionValue) → accepts self.now v false ≡ true
            → accepts other.now v false ≡ true → accepts (unwrap_or r []) v false ≡ true) }
        ensures one { IfOk result (λ r. (v : VersionValue) → accepts (unwrap_or r []) v false ≡ true
            → (accepts self.now v false || accepts other.now v false) ≡ true) }
        ensures releases { IfOk result (λ r. (v : VersionValue) → is_release v ≡ true →
            accepts (unwrap_or r []) v false
            ≡ (accepts self.now v false && accepts other.now v false)) }
        // Allocation fails only if there is an intersection, never in place of `None`.
        ensures memory { OnErr result (IsTrue (is_some (intersection self.now other.now))) }
    {
        self.common(alloc, other)
    }

    /// The difference: what is left of each interval of this range, in order, once all of the
    /// other's are taken away. Returns `None` if nothing is left. Fails only if allocation fails;
    /// where nothing is left and the other range has one interval it never does.
    ///
    /// A bound that comes from the other range carries that bound's build. Pre-releases that this
    /// range holds and does not accept may be accepted by the difference, whose bounds may name
    /// others; see `least_beyond`.
    ///
    /// ```rust
    /// let one = Range::parse(alloc, "^1.2")?;
    /// let other = Range::parse(alloc, "1.5.0")?;
    /// let left = Range::parse(alloc, ">=1.2.0 <1.5.0 || >1.5.0 <2.0.0-0").ok();
    /// assert!(rt; one.difference(alloc, &other) == Ok(left));
    /// ```
    ///
    /// Each interval of this range is left in as many pieces as the other's have gaps in it: n
    /// intervals less m others make at most n times (m + 1) intervals. As measured, time grows with
    /// the size of the result, and with m log m.
    pub fn difference(
        &self,
        alloc: Global,
        other: &RangeOf<V>,
    ) -> Result<Option<RangeOf<V>>, AllocError>
        ensures list { IfOk result (λ r. r ≡ difference self.now other.now) }
        // It holds what this range holds and the other does not.
        ensures set { IfOk result (λ r. (v : VersionValue) →
            list_holds precedence (unwrap_or r []) v
            ≡ (list_holds precedence self.now v && not (list_holds precedence other.now v))) }
        // With pre-releases included it accepts what this range accepts and the other does not.
        ensures all { IfOk result (λ r. (v : VersionValue) →
            accepts (unwrap_or r []) v true
            ≡ (accepts self.now v true && not (accepts other.now v true))) }
        // It accepts what this range accepts and the other does not hold.
        ensures kept { IfOk result (λ r. (v : VersionValue) → accepts self.now v false ≡ true
            → list_holds precedence other.now v ≡ false → accepts (unwrap_or r []) v false ≡ true) }
        ensures releases { IfOk result (λ r. (v : VersionValue) → is_release v ≡ true →
            accepts (unwrap_or r []) v false
            ≡ (accepts self.now v false && not (accepts other.now v false))) }
        // Allocation fails only if something is left, or if the other range has several intervals,
        // whose complement is made first.
        ensures memory { OnErr result
            (IsTrue (is_some (difference self.now other.now)) ⊎ (1 < length other.now)) }
    {
        let left = interval_lists::differences(alloc, self.items(), other.items())?;
        Ok(RangeOf::of_intervals(left))
    }

    // What the pairs of intervals have in common.
    fn common(&self, alloc: Global, other: &RangeOf<V>) -> Allocated<Option<RangeOf<V>>>
        ensures list { IfOk result (λ r. r ≡ intersection self.now other.now) }
        ensures memory { OnErr result (IsTrue (is_some (intersection self.now other.now))) }
    {
        let (these, others) = (self.items(), other.items());
        if these.len() == 1 && others.len() == 1 {
            let (one, another) = (&these[0], &others[0]);
            if !one.meets(another) {
                return Ok(None);
            }
            return common_of_two(alloc, one, another);
        }
        let mut found = SmallVec::new(alloc);
        interval_lists::push_all_intersections(alloc, &mut found, these, others)?;
        Ok(RangeOf::of_intervals(found))
    }
}

// The range of what two intervals have in common, made where it goes, and out of the function that
// first asks whether they meet. A push onto an empty list would drop what filled its place.
#[inline(never)]
fn common_of_two<V: VersionPoint>(
    alloc: Global,
    one: &Interval<V>,
    another: &Interval<V>,
) -> Allocated<Option<RangeOf<V>>>
    requires { list_all (is_range_span (MAX_SAFE_INTEGER + 1))
        (spans_of V.value (option_to_list (meet V.cmp one.now another.now))) ≡ true }
    ensures list { IfOk result (λ r. r
        ≡ if_any (spans_of V.value (option_to_list (meet V.cmp one.now another.now)))) }
    ensures memory { OnErr result (IsTrue (is_some (meet V.cmp one.now another.now))) }
{
    let Some(both) = one.intersect(alloc, another)? else {
        return Ok(None);
    };
    Ok(RangeOf::of_intervals(SmallVec::from_buf(alloc, [both])))
}

impl Range {
    /// Whether some one interval of this range covers some one interval of the other, by their
    /// cuts: `>=1.2.3` allows all of `0.1 || 1.4`. This is not a subset test. For that, see
    /// `least_beyond`: `other.least_beyond(alloc, self)` is `None` exactly where this range accepts
    /// every version that the other accepts.
    #[tactic(auto, using(crate::proofs::Algebra::Clauses::ordered_intervals))]
    pub fn allows_all(&self, other: &Range) -> bool
        ensures { result ≡ covers_one self.now other.now }
    {
        interval_lists::cover_somewhere(self.intervals(), other.intervals())
    }

    /// Whether some interval of this range meets some interval of the other: whether `intersect`
    /// returns a range.
    #[tactic(auto, using(crate::proofs::Algebra::Clauses::ordered_intervals))]
    pub fn allows_any(&self, other: &Range) -> bool
        ensures { result ≡ is_some (intersection self.now other.now) }
    {
        interval_lists::meet_somewhere(self.intervals(), other.intervals())
    }
}

impl<'a> RangeRef<'a> {
    /// Whether some one interval of this range covers some one interval of the other, as
    /// `Range::allows_all` says.
    #[tactic(auto, using(crate::proofs::Algebra::Clauses::ordered_intervals))]
    pub fn allows_all(&self, other: &RangeRef<'_>) -> bool
        ensures { result ≡ covers_one self.now other.now }
    {
        interval_lists::cover_somewhere(self.intervals(), other.intervals())
    }

    /// Whether some interval of this range meets some interval of the other, as `Range::allows_any`
    /// says.
    #[tactic(auto, using(crate::proofs::Algebra::Clauses::ordered_intervals))]
    pub fn allows_any(&self, other: &RangeRef<'_>) -> bool
        ensures { result ≡ is_some (intersection self.now other.now) }
    {
        interval_lists::meet_somewhere(self.intervals(), other.intervals())
    }
}
