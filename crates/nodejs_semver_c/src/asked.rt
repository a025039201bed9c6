// Questions about intervals of the caller, where they stand. Numbers are compared first, and a text
// is looked at only where they are equal. Any bytes are taken, and intervals that no range has.

ghost use Rattle.nodejs_semver.specs.Ranges.Algebra.{intersection};
ghost use Rattle.nodejs_semver.specs.Ranges.Gate.{accepts};
ghost use Rattle.nodejs_semver.specs.Ranges.Outside.{is_outside};
ghost use Rattle.nodejs_semver_c.specs.Internal.Keeps.{lies_opposite};
ghost use Rattle.nodejs_semver_c.specs.Kept.{kept_value};
ghost use Rattle.nodejs_semver_c.specs.KeptRanges.{kept_span, lower_of, upper_of};
ghost use Rattle.nodejs_semver_c.specs.Numbers.{side_of};
ghost use Rattle.semver_core.specs.Cuts.{cut_cmp, holds, is_past, lower_cut, meet, upper_cut};
ghost use Rattle.semver_core.specs.Internal.Gate.{names};
ghost use Rattle.semver_core.specs.Values.Gate.{lets_in};
ghost use Rattle.semver_core.specs.Values.Order.{precedence};
ghost use Rattle.std.specs.List.{list_any};
ghost use Rattle.std.specs.Ordering.{is_lt};
ghost use Rattle.std.specs.Prelude.{◌&&◌, ◌||◌, ◌≡◌, is_some, map};

use crate::intervals::{Bound, Interval};
use crate::kept::{Version, cmp_kept};
use crate::{BOUND_CLOSED, BOUND_NONE};

/// Whether the cut of a lower bound is below that of an upper one.
#[inline(always)]
pub fn is_below(lower: &Bound<'_>, upper: &Bound<'_>) -> bool
    ensures { result ≡ is_lt (cut_cmp precedence (lower_cut (lower_of lower.now))
        (upper_cut (upper_of upper.now))) }
{
    if lower.kind == BOUND_NONE || upper.kind == BOUND_NONE {
        return true;
    }
    let order = cmp_kept(&lower.version, &upper.version);
    if lower.kind == BOUND_CLOSED && upper.kind == BOUND_CLOSED {
        order.is_le()
    } else {
        order.is_lt()
    }
}

// Whether a version lies past the cut of a lower bound.
#[inline(always)]
fn is_past_lower(bound: &Bound<'_>, version: &Version<'_>) -> bool
    ensures { result
        ≡ is_past precedence (lower_cut (lower_of bound.now)) (kept_value version.now) }
{
    match bound.kind {
        BOUND_NONE => true,
        BOUND_CLOSED => cmp_kept(&bound.version, version).is_le(),
        _ => cmp_kept(&bound.version, version).is_lt(),
    }
}

// Whether a version lies past the cut of an upper bound.
#[inline(always)]
fn is_past_upper(bound: &Bound<'_>, version: &Version<'_>) -> bool
    ensures { result
        ≡ is_past precedence (upper_cut (upper_of bound.now)) (kept_value version.now) }
{
    match bound.kind {
        BOUND_NONE => false,
        BOUND_CLOSED => cmp_kept(&bound.version, version).is_lt(),
        _ => cmp_kept(&bound.version, version).is_le(),
    }
}

// Whether the version of a bound is a pre-release of the same three numbers.
#[tactic(auto, using(semver_core::proofs::Text::Firsts::spelled_release))]
fn names(bound: &Bound<'_>, version: &Version<'_>) -> bool
    ensures lower { result ≡ names (lower_of bound.now) (kept_value version.now) }
    ensures upper { result ≡ names (upper_of bound.now) (kept_value version.now) }
{
    bound.kind != BOUND_NONE
        && !bound.version.pre_release.is_empty()
        && bound.version.major == version.major
        && bound.version.minor == version.minor
        && bound.version.patch == version.patch
}

// Whether an interval lets in a version, pre-releases not being included.
#[inline(always)]
#[tactic(auto, using(semver_core::proofs::Text::Firsts::spelled_release))]
fn lets_in(interval: &Interval<'_>, version: &Version<'_>) -> bool
    ensures { result ≡ lets_in (kept_span interval.now) (kept_value version.now) }
{
    version.pre_release.is_empty()
        || names(&interval.lower, version)
        || names(&interval.upper, version)
}

// Whether an interval holds a version and lets it in.
#[inline(always)]
fn accepts_one(interval: &Interval<'_>, version: &Version<'_>, include_prerelease: bool) -> bool
    ensures { result ≡ (holds precedence (kept_span interval.now) (kept_value version.now)
        && (include_prerelease || lets_in (kept_span interval.now) (kept_value version.now))) }
{
    is_past_lower(&interval.lower, version)
        && !is_past_upper(&interval.upper, version)
        && (include_prerelease || lets_in(interval, version))
}

/// Whether a range accepts a version.
#[inline(always)]
pub fn is_accepted(range: &[Interval<'_>], version: &Version<'_>, include_prerelease: bool) -> bool
    ensures { result
        ≡ accepts (map kept_span range.now) (kept_value version.now) include_prerelease }
{
    for interval in range {
        if accepts_one(interval, version, include_prerelease) {
            return true;
        }
    }
    false
}

/// Whether a version lies above a range, or below it where `above` is false.
#[inline(always)]
pub fn is_outside(
    range: &[Interval<'_>],
    version: &Version<'_>,
    above: bool,
    include_prerelease: bool,
) -> bool
    ensures { result ≡ is_outside (side_of above) include_prerelease (map kept_span range.now)
        (kept_value version.now) }
{
    if is_accepted(range, version, include_prerelease) {
        return false;
    }
    for interval in range {
        if !lies_opposite(interval, version, above) {
            return false;
        }
    }
    true
}

// Whether an interval lies below a version, or above it where `above` is false.
#[inline(always)]
fn lies_opposite(interval: &Interval<'_>, version: &Version<'_>, above: bool) -> bool
    ensures { result
        ≡ lies_opposite (side_of above) (kept_value version.now) (kept_span interval.now) }
{
    if above {
        interval.upper.kind != BOUND_NONE && is_past_lower(&interval.lower, version)
    } else if interval.lower.kind == BOUND_NONE {
        interval.upper.kind == BOUND_NONE
    } else {
        !is_past_upper(&interval.upper, version)
    }
}

// Whether two intervals have something in common. That each lies in order is asked last, since only
// intervals that no range has do not.
#[inline(always)]
#[tactic(auto, using(crate::proofs::Asking::kept_meet))]
fn meets_one(interval: &Interval<'_>, other: &Interval<'_>) -> bool
    ensures { result ≡ is_some (meet precedence (kept_span interval.now) (kept_span other.now)) }
{
    is_below(&other.lower, &interval.upper)
        && is_below(&interval.lower, &other.upper)
        && is_below(&interval.lower, &interval.upper)
        && is_below(&other.lower, &other.upper)
}

// Whether an interval has something in common with one of others.
#[inline(always)]
fn meets_some(interval: &Interval<'_>, others: &[Interval<'_>]) -> bool
    ensures { result ≡ list_any (λ t. is_some (meet precedence (kept_span interval.now) t))
        (map kept_span others.now) }
{
    for other in others {
        if meets_one(interval, other) {
            return true;
        }
    }
    false
}

/// Whether two ranges have something in common.
#[inline(always)]
pub fn have_common(range: &[Interval<'_>], other: &[Interval<'_>]) -> bool
    ensures { result ≡ is_some (intersection (map kept_span range.now) (map kept_span other.now)) }
{
    for interval in range {
        if meets_some(interval, other) {
            return true;
        }
    }
    false
}
