// An interval: all points between two cuts.
ghost use Rattle.std.specs.Prelude.{◌≡◌, ◌&&◌, ◌||◌};
ghost use Rattle.semver_core.specs.Words.{clip, covers, cut_cmp, has_bound, holds, IfErr, IfOk};
ghost use Rattle.semver_core.specs.Words.{interval, is_interval, is_lt, is_past, is_some, IsTrue};
ghost use Rattle.semver_core.specs.Words.{left_above, left_below, lower_cut, meet, not, OnErr};
ghost use Rattle.semver_core.specs.Words.{option_holds, remainders, true, upper_cut};

use crate::cuts::bound::{Bound, Point};
use crate::cuts::cut_order::{greater_lower, is_below, lesser_upper, lies_below};
use std::alloc::{AllocError, Global};
use std::cmp;
use std::marker::Model;

/// The points between a lower and an upper bound. The cut of the lower bound is below that of the
/// upper one; the interval may contain no points.
///
/// Intervals are equal, and hash alike, where both bounds are of the same kind and at equal points.
#[derive(Drop)]
#[derive_where(PartialEq, Eq)]
#[derive_where(Hash, Debug; V)]
pub struct Interval<V: Point> {
    lower: Bound<V>,
    upper: Bound<V>,
}

/// In clauses, an interval is its two bounds.
impl<V: Point> Model for Interval<V> {
    ghost use Rattle.std.specs.Prelude.{◌≡◌, true};
    ghost use Rattle.semver_core.specs.Cuts.{Span, is_interval};

    ghost Value = { Span V };

    ghost view = { λ i. record { lower = i.lower; upper = i.upper } };

    ghost invariant = { λ i.
        is_interval V.cmp (record { lower = i.lower; upper = i.upper }) ≡ true };

    ghost inverse = { λ s. record { lower = s.lower; upper = s.upper } };
}

impl<V: Point> Interval<V> {
    /// The bound below the interval.
    pub fn lower(&self) -> &Bound<V>
        ensures value { result.now ≡ self.now.lower }
        ensures ordered { is_interval V.cmp self.now ≡ true }
    {
        &self.lower
    }

    /// The bound above the interval.
    pub fn upper(&self) -> &Bound<V>
        ensures { result.now ≡ self.now.upper }
    {
        &self.upper
    }

    /// A copy of the whole interval. Fails only if allocation fails, which happens only where a
    /// copy of the point of one of its bounds takes memory.
    pub fn copy(&self, alloc: Global) -> Result<Self, AllocError>
        ensures whole { IfOk result (λ i. i ≡ self.now) }
        ensures memory { OnErr result (has_bound V.takes self.now ≡ true) }
    {
        Interval::of_copies(alloc, &self.lower, &self.upper)
    }

    // The interval between copies of two bounds that are known to be in order.
    #[inline(always)]
    fn of_copies(alloc: Global, lower: &Bound<V>, upper: &Bound<V>) -> Result<Self, AllocError>
        requires { is_interval V.cmp (record { lower = lower.now; upper = upper.now }) ≡ true }
        ensures whole { IfOk result (λ i. i ≡ record { lower = lower.now; upper = upper.now }) }
        ensures memory { OnErr result
            (has_bound V.takes (record { lower = lower.now; upper = upper.now }) ≡ true) }
    {
        let lower = lower.copy(alloc)?;
        let upper = upper.copy(alloc)?;
        Ok(Interval { lower, upper })
    }

    /// The interval between two bounds, and `None` exactly where the cut of the lower one is not
    /// below that of the upper one. The cut after v is below the cut before w exactly where `v <
    /// w`.
    pub fn new(lower: Bound<V>, upper: Bound<V>) -> Option<Self>
        ensures { result ≡ interval V.cmp (record { lower = lower; upper = upper }) }
    {
        if lies_below(&lower, &upper) {
            Some(Interval { lower, upper })
        } else {
            None
        }
    }

    /// The interval between two bounds that are known to be in order. Nothing is compared.
    #[inline(always)]
    pub fn of_ordered(lower: Bound<V>, upper: Bound<V>) -> Self
        requires { is_interval V.cmp (record { lower = lower; upper = upper }) ≡ true }
        ensures { result ≡ record { lower = lower; upper = upper } }
    {
        Interval { lower, upper }
    }

    /// Whether the point lies between the two cuts.
    pub fn contains(&self, point: &V) -> bool
        ensures { result ≡ holds V.cmp self.now point.now }
    {
        self.begins_below(point) && !self.ends_below(point)
    }

    /// Whether the interval begins below the point: its lower cut is not after the point. The point
    /// itself may lie above the interval.
    pub fn begins_below(&self, point: &V) -> bool
        ensures { result ≡ is_past V.cmp (lower_cut self.now.lower) point.now }
    {
        match &self.lower {
            Bound::Unbounded => true,
            Bound::Before(v) => v.cmp(point).is_le(),
            Bound::After(v) => v.cmp(point).is_lt(),
        }
    }

    /// Whether the interval ends below the point: its upper cut is not after the point.
    pub fn ends_below(&self, point: &V) -> bool
        ensures { result ≡ is_past V.cmp (upper_cut self.now.upper) point.now }
    {
        match &self.upper {
            Bound::Unbounded => false,
            Bound::Before(v) => v.cmp(point).is_le(),
            Bound::After(v) => v.cmp(point).is_lt(),
        }
    }

    /// Whether the other interval lies within this one: its lower cut is not below, and its upper
    /// cut not above.
    pub fn covers(&self, other: &Self) -> bool
        ensures { result ≡ covers V.cmp self.now other.now }
    {
        self.lower.cmp_lower(&other.lower).is_le() && other.upper.cmp_upper(&self.upper).is_le()
    }

    /// Whether the interval ends above the cut at which the other one begins. Two intervals meet
    /// exactly where each reaches the other.
    pub fn reaches(&self, other: &Self) -> bool
        ensures { result
            ≡ is_lt (cut_cmp V.cmp (lower_cut other.now.lower) (upper_cut self.now.upper)) }
    {
        lies_below(&other.lower, &self.upper)
    }

    /// Whether the two have an interval in common, whether it contains a point or not.
    #[inline(always)]
    pub fn meets(&self, other: &Self) -> bool
        ensures { result ≡ is_some (meet V.cmp self.now other.now) }
    {
        is_below(&other.lower, &self.upper) && is_below(&self.lower, &other.upper)
    }

    /// The intersection: the points of both intervals. Its bounds are the greater lower bound and
    /// the lesser upper bound; of equal lower bounds the other's is kept, of equal upper bounds
    /// self's. Returns `None` exactly where the two cuts leave no interval. The result may contain
    /// no points, as that of `>1` and `<2` over whole numbers.
    ///
    /// Both intervals are borrowed, so the two bounds are copied: the call fails only if that
    /// allocation fails, never in place of `None`. To consume both intervals and copy nothing, see
    /// `into_intersection`.
    #[inline(always)]
    pub fn intersect(&self, alloc: Global, other: &Self) -> Result<Option<Self>, AllocError>
        ensures bounds { IfOk result (λ r. r ≡ meet V.cmp self.now other.now) }
        ensures set { IfOk result (λ r. (v : V) →
            option_holds V.cmp r v ≡ (holds V.cmp self.now v && holds V.cmp other.now v)) }
        ensures memory { OnErr result (IsTrue (is_some (meet V.cmp self.now other.now))) }
    {
        if !self.meets(other) {
            return Ok(None);
        }
        let lower = greater_lower(&self.lower, &other.lower);
        let upper = lesser_upper(&self.upper, &other.upper);
        Ok(Some(Interval::of_copies(alloc, lower, upper)?))
    }

    /// The intersection, by moving the bounds of both intervals. It allocates nothing. Where
    /// `intersect` would return `None`, both intervals are returned to the caller.
    #[inline(always)]
    pub fn into_intersection(self, other: Self) -> Result<Self, (Self, Self)>
        ensures common { IfOk result (λ r. Some r ≡ meet V.cmp self other) }
        ensures none { IfErr result (λ both. meet V.cmp self other ≡ None) }
        ensures returned { IfErr result (λ both. both ≡ (self, other)) }
    {
        if !self.meets(&other) {
            return Err((self, other));
        }
        let lower = cmp::max_by(self.lower, other.lower, Bound::cmp_lower);
        let upper = cmp::min_by(self.upper, other.upper, Bound::cmp_upper);
        Ok(Interval { lower, upper })
    }

    /// The part of this interval that lies within the other: the points of `intersect`, but of
    /// equal bounds self's are kept on both sides. So what is clipped to pieces of the line keeps
    /// its own bounds, with their builds, wherever it can.
    ///
    /// Two bounds are copied: the call fails only if that allocation fails.
    #[inline(always)]
    pub fn clip(&self, alloc: Global, other: &Self) -> Result<Option<Self>, AllocError>
        ensures bounds { IfOk result (λ r. r ≡ clip V.cmp self.now other.now) }
        ensures set { IfOk result (λ r. (v : V) →
            option_holds V.cmp r v ≡ (holds V.cmp self.now v && holds V.cmp other.now v)) }
    {
        if !self.meets(other) {
            return Ok(None);
        }
        let lower = greater_lower(&other.lower, &self.lower);
        let upper = lesser_upper(&self.upper, &other.upper);
        Ok(Some(Interval::of_copies(alloc, lower, upper)?))
    }

    /// What is left of the interval below the other one, and above it. A new bound is the other's
    /// turned round, so `>=v` leaves `<v`. Where the two do not meet, all is left: a copy of self,
    /// then `None`. Fails only if allocation fails.
    pub fn subtract(
        &self,
        alloc: Global,
        other: &Self,
    ) -> Result<(Option<Self>, Option<Self>), AllocError>
        ensures bounds { IfOk result (λ r. r ≡ remainders V.cmp self.now other.now) }
        ensures set { IfOk result (λ r. (v : V) →
            (option_holds V.cmp r.0 v || option_holds V.cmp r.1 v)
            ≡ (holds V.cmp self.now v && not (holds V.cmp other.now v))) }
    {
        if !self.meets(other) {
            return Ok((Some(self.copy(alloc)?), None));
        }
        let below = self.left_below(alloc, other)?;
        let above = self.left_above(alloc, other)?;
        Ok((below, above))
    }

    /// What is left of the interval below another one that it meets: from its lower bound to the
    /// other's, turned round. Returns `None` where it does not begin below the other. Where the two
    /// do not meet, what lies between them belongs to it too; see `subtract`.
    ///
    /// Two bounds are copied: the call fails only if that allocation fails, never in place of
    /// `None`.
    #[inline(always)]
    pub fn left_below(&self, alloc: Global, other: &Self) -> Result<Option<Self>, AllocError>
        ensures bounds { IfOk result (λ r. r ≡ left_below V.cmp self.now other.now) }
        ensures memory { OnErr result (IsTrue (is_some (left_below V.cmp self.now other.now))) }
    {
        if self.lower.cmp_lower(&other.lower).is_lt() {
            Ok(Some(Interval::of_copies(alloc, &self.lower, &other.lower)?))
        } else {
            Ok(None)
        }
    }

    /// What is left of the interval above another one that it meets: from the other's upper bound,
    /// turned round, to its own. Returns `None` where it does not end above the other. Where the
    /// two do not meet, what lies between them belongs to it too; see `subtract`.
    ///
    /// Two bounds are copied: the call fails only if that allocation fails, never in place of
    /// `None`.
    #[inline(always)]
    pub fn left_above(&self, alloc: Global, other: &Self) -> Result<Option<Self>, AllocError>
        ensures bounds { IfOk result (λ r. r ≡ left_above V.cmp self.now other.now) }
        ensures memory { OnErr result (IsTrue (is_some (left_above V.cmp self.now other.now))) }
    {
        if other.upper.cmp_upper(&self.upper).is_lt() {
            Ok(Some(Interval::of_copies(alloc, &other.upper, &self.upper)?))
        } else {
            Ok(None)
        }
    }
}

/// The interval without bounds.
impl<V: Point> Default for Interval<V> {
    fn default() -> Interval<V>
        ensures { result ≡ record { lower = Bound.Unbounded; upper = Bound.Unbounded } }
    {
        Interval {
            lower: Bound::Unbounded,
            upper: Bound::Unbounded,
        }
    }
}
