// Bounds compared by the cuts that they make.
ghost use Rattle.std.specs.Prelude.{◌≡◌};
ghost use Rattle.semver_core.specs.Words.{cut_cmp, greater_lower, is_lt, lesser_upper, lower_cut};
ghost use Rattle.semver_core.specs.Words.{upper_cut};

use crate::cuts::bound::Bound;

/// Whether the cut of a lower bound is below that of an upper one.
#[inline(always)]
pub(crate) fn is_below<V: Ord>(lower: &Bound<V>, upper: &Bound<V>) -> bool
    ensures { result ≡ is_lt (cut_cmp V.cmp (lower_cut lower.now) (upper_cut upper.now)) }
{
    match (lower, upper) {
        (Bound::Unbounded, _) | (_, Bound::Unbounded) => true,
        (Bound::Before(v), Bound::After(w)) => v.cmp(w).is_le(),
        (Bound::Before(v), Bound::Before(w))
        | (Bound::After(v), Bound::Before(w))
        | (Bound::After(v), Bound::After(w)) => v.cmp(w).is_lt(),
    }
}

/// `is_below` as a call: inlined into the readers of range texts it cost them up to 6 %.
#[inline(never)]
pub(crate) fn lies_below<V: Ord>(lower: &Bound<V>, upper: &Bound<V>) -> bool
    ensures { result ≡ is_lt (cut_cmp V.cmp (lower_cut lower.now) (upper_cut upper.now)) }
{
    is_below(lower, upper)
}

/// The lower bound that is further up; on a tie, the second.
#[inline(always)]
pub(crate) fn greater_lower<'b, V: Ord>(a: &'b Bound<V>, b: &'b Bound<V>) -> &'b Bound<V>
    ensures { result.now ≡ greater_lower V.cmp a.now b.now }
{
    if a.cmp_lower(b).is_gt() { a } else { b }
}

/// The upper bound that is further down; on a tie, the first.
#[inline(always)]
pub(crate) fn lesser_upper<'b, V: Ord>(a: &'b Bound<V>, b: &'b Bound<V>) -> &'b Bound<V>
    ensures { result.now ≡ lesser_upper V.cmp a.now b.now }
{
    if a.cmp_upper(b).is_gt() { b } else { a }
}
