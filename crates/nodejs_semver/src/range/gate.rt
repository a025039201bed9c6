// Which versions a range accepts.

ghost use Rattle.std.specs.Prelude.{◌&&◌, ◌||◌, ◌∷◌, ◌≡◌, [], false};
ghost use Rattle.nodejs_semver.specs.Words.{accepts, bound_of, holds, is_past, IsRange, IsTrue};
ghost use Rattle.nodejs_semver.specs.Words.{lets_in, list_holds, lower_cut, MAX_SAFE_INTEGER};
ghost use Rattle.nodejs_semver.specs.Words.{names, precedence, span_of, spans_of, true, upper_cut};

use crate::RangeOf;
use semver_core::cuts::{Bound, Interval};
use semver_core::{Accepts, AcceptsRef, Version, VersionPoint, VersionRef, Versioned};

impl<V: VersionPoint> RangeOf<V> {
    /// Whether the range accepts this version. A pre-release is accepted only if the interval that
    /// holds it has a bound with a pre-release of the same three numbers: `>=1.2.3-a` accepts
    /// 1.2.3-b and 1.3.0, and not 1.3.0-b. So the range without bounds, which `Range::any` returns,
    /// accepts no pre-release.
    ///
    /// The version may be owned or borrowed, whichever the range is.
    pub fn satisfies<W: Versioned>(&self, version: &W) -> bool
        ensures gate { result ≡ accepts self.now (W.value version.now) false }
        ensures valid { IsRange MAX_SAFE_INTEGER self.now }
    {
        accepts(self.items(), version, false)
    }

    /// Whether the range accepts this version, as `satisfies` says; with the flag, pre-releases are
    /// accepted like releases, so that the intervals alone decide.
    pub fn satisfies_with_prerelease<W: Versioned>(
        &self,
        version: &W,
        include_prerelease: bool,
    ) -> bool
        ensures gate { result ≡ accepts self.now (W.value version.now) include_prerelease }
        ensures set { IsTrue include_prerelease
            → result ≡ list_holds precedence self.now (W.value version.now) }
        ensures valid { IsRange MAX_SAFE_INTEGER self.now }
    {
        accepts(self.items(), version, include_prerelease)
    }
}

/// What `satisfies_with_prerelease` returns.
impl<V: VersionPoint> Accepts for RangeOf<V> {
    ghost accepts = { accepts };

    fn accepts(&self, version: &Version, include_prerelease: bool) -> bool {
        self.satisfies_with_prerelease(version, include_prerelease)
    }
}

/// What `satisfies_with_prerelease` returns.
impl<V: VersionPoint> AcceptsRef for RangeOf<V> {
    ghost accepts = { accepts };

    fn accepts(&self, version: &VersionRef<'_>, include_prerelease: bool) -> bool {
        self.satisfies_with_prerelease(version, include_prerelease)
    }
}

// Whether some one of the intervals holds the version and lets it in. There is a loop for each
// answer to the flag, which then asks for no flag.
#[inline(always)]
pub(crate) fn accepts<V: VersionPoint, W: Versioned>(
    intervals: &[Interval<V>],
    version: &W,
    include_prerelease: bool,
) -> bool
    ensures { result
        ≡ accepts (spans_of V.value intervals.now) (W.value version.now) include_prerelease }
{
    if include_prerelease {
        hold(intervals, version)
    } else {
        satisfied(intervals, version)
    }
}

// Whether some one of the intervals holds the version.
fn hold<V: VersionPoint, W: Versioned>(intervals: &[Interval<V>], version: &W) -> bool
    ensures { result ≡ accepts (spans_of V.value intervals.now) (W.value version.now) true }
{
    intervals
        .iter()
        .any(|interval| accepts_one(interval, version, true))
}

// Whether some one of the intervals holds the version and lets it in, pre-releases not included.
fn satisfied<V: VersionPoint, W: Versioned>(intervals: &[Interval<V>], version: &W) -> bool
    ensures { result ≡ accepts (spans_of V.value intervals.now) (W.value version.now) false }
{
    intervals
        .iter()
        .any(|interval| accepts_one(interval, version, false))
}

/// Whether a range of this interval alone accepts this version, as `satisfies_with_prerelease`
/// says.
#[inline(always)]
pub fn interval_accepts(
    interval: &Interval<VersionRef<'_>>,
    version: &VersionRef<'_>,
    include_prerelease: bool,
) -> bool
    ensures { result ≡ accepts (interval.now ∷ []) version.now include_prerelease }
{
    accepts_one(interval, version, include_prerelease)
}

// Whether the interval holds the version and lets it in.
#[inline(always)]
pub(crate) fn accepts_one<V: VersionPoint, W: Versioned>(
    interval: &Interval<V>,
    version: &W,
    include_prerelease: bool,
) -> bool
    ensures { result ≡ (holds precedence (span_of V.value interval.now) (W.value version.now)
        && (include_prerelease || lets_in (span_of V.value interval.now) (W.value version.now))) }
{
    is_past_lower(interval.lower(), version)
        && !is_past_upper(interval.upper(), version)
        && (include_prerelease || lets_in(interval, version))
}

// Whether the version lies past the cut of the lower bound.
#[inline(always)]
#[tactic(auto, using(semver_core::proofs::Gate::past_named))]
pub(crate) fn is_past_lower<V: Versioned, W: Versioned>(bound: &Bound<V>, version: &W) -> bool
    ensures { result
        ≡ is_past precedence (lower_cut (bound_of V.value bound.now)) (W.value version.now) }
{
    match bound {
        Bound::Unbounded => true,
        Bound::Before(v) => version.cmp_precedence(v).is_ge(),
        Bound::After(v) => version.cmp_precedence(v).is_gt(),
    }
}

// Whether the version lies past the cut of the upper bound.
#[inline(always)]
#[tactic(auto, using(semver_core::proofs::Gate::past_named))]
pub(crate) fn is_past_upper<V: Versioned, W: Versioned>(bound: &Bound<V>, version: &W) -> bool
    ensures { result
        ≡ is_past precedence (upper_cut (bound_of V.value bound.now)) (W.value version.now) }
{
    match bound {
        Bound::Unbounded => false,
        Bound::Before(v) => version.cmp_precedence(v).is_ge(),
        Bound::After(v) => version.cmp_precedence(v).is_gt(),
    }
}

// Whether the interval lets in the version, pre-releases not being included.
#[inline]
pub(crate) fn lets_in<V: VersionPoint, W: Versioned>(interval: &Interval<V>, version: &W) -> bool
    ensures { result ≡ lets_in (span_of V.value interval.now) (W.value version.now) }
{
    version.is_release() || names(interval.lower(), version) || names(interval.upper(), version)
}

// Whether the bound's version is a pre-release of the same three numbers.
fn names<V: Versioned, W: Versioned>(bound: &Bound<V>, version: &W) -> bool
    ensures { result ≡ names (bound_of V.value bound.now) (W.value version.now) }
{
    match bound {
        Bound::Unbounded => false,
        Bound::Before(named) | Bound::After(named) => {
            !named.is_release()
                && named.major() == version.major()
                && named.minor() == version.minor()
                && named.patch() == version.patch()
        }
    }
}
