// The best of the versions of a slice, or of versions that come one after another.

ghost use Rattle.std.specs.Prelude.{◌++◌, ◌∷◌, ◌≡◌, if◌then◌else◌, [], All, Contains, false};
ghost use Rattle.nodejs_semver.specs.Words.{accepts, IfNone, IfSome, is_le, is_lt, is_release};
ghost use Rattle.nodejs_semver.specs.Ranges.Best.{IsMinOf};
ghost use Rattle.nodejs_semver.specs.Words.{IsMax, IsMaxOf, IsMin, List, list_all, map};
ghost use Rattle.nodejs_semver.specs.Words.{option_copied, option_map, precedence, replaces, Some};
ghost use Rattle.nodejs_semver.specs.Words.{spans_of, true, VersionValue};

use crate::RangeOf;
use crate::range::gate::accepts;
use semver_core::cuts::Interval;
use semver_core::{VersionPoint, Versioned};

impl<V: VersionPoint> RangeOf<V> {
    /// The greatest of the versions that the range accepts by `satisfies`. Returns `None` exactly
    /// where it accepts none. The versions may outlive the text of the range.
    ///
    /// Of equal versions, which differ in their builds alone, it is the last: `^1` chooses 1.2.0+b
    /// from 1.2.0+a and 1.2.0+b.
    ///
    /// ```rust
    /// let range = Range::parse(alloc, "^1")?;
    /// let versions = [Version::from((1u64, 2, 0)), Version::from((2u64, 0, 0))];
    /// assert!(rt; range.max_satisfying(&versions) == Some(&versions[0]));
    /// ```
    pub fn max_satisfying<'v, W: Versioned>(&self, versions: &'v [W]) -> Option<&'v W>
        ensures best { IsMaxOf W.value (λ v. accepts self.now v false)
            versions.now (option_copied result) }
        // It is a version of the slice that the range accepts, and none that it accepts is above.
        ensures member { IfSome result (λ v. Contains versions.now v.now) }
        ensures accepted { IfSome result (λ v. accepts self.now (W.value v.now) false ≡ true) }
        ensures greatest { IfSome result (λ v. All (λ w. accepts self.now (W.value w) false ≡ true
            → is_le (precedence (W.value w) (W.value v.now)) ≡ true) versions.now) }
        ensures none { IfNone result
            (All (λ w. accepts self.now (W.value w) false ≡ false) versions.now) }
    {
        greatest(self.items(), false, versions)
    }

    /// The smallest of the versions that the range accepts by `satisfies`. Returns `None` exactly
    /// where it accepts none.
    ///
    /// Of equal versions, which differ in their builds alone, it is the first.
    ///
    /// ```rust
    /// let range = Range::parse(alloc, ">1.0.0")?;
    /// let versions = [Version::from((1u64, 0, 0)), Version::from((1u64, 2, 0))];
    /// assert!(rt; range.min_satisfying(&versions) == Some(&versions[1]));
    /// ```
    pub fn min_satisfying<'v, W: Versioned>(&self, versions: &'v [W]) -> Option<&'v W>
        ensures best { IsMinOf W.value (λ v. accepts self.now v false)
            versions.now (option_copied result) }
        // It is a version of the slice that the range accepts, and none that it accepts is below.
        ensures member { IfSome result (λ v. Contains versions.now v.now) }
        ensures accepted { IfSome result (λ v. accepts self.now (W.value v.now) false ≡ true) }
        ensures smallest { IfSome result (λ v. All (λ w. accepts self.now (W.value w) false ≡ true
            → is_le (precedence (W.value v.now) (W.value w)) ≡ true) versions.now) }
        ensures none { IfNone result
            (All (λ w. accepts self.now (W.value w) false ≡ false) versions.now) }
    {
        least(self.items(), false, versions)
    }

    /// Whether a version takes the place of the best so far: the range accepts it by `satisfies`,
    /// and the best is not above it. So what `max_satisfying` finds in a list is found as the
    /// versions come, and no list is kept.
    ///
    /// ```rust
    /// let range = Range::parse(alloc, "^1")?;
    /// let mut best = None;
    /// for (major, minor) in [(1u64, 2), (1, 4), (2, 0), (1, 3)] {
    ///     let version = Version::from((major, minor, 0));
    ///     if range.is_new_max(&version, best.as_ref()) {
    ///         best = Some(version);
    ///     }
    /// }
    /// assert!(rt; best == Some(Version::from((1u64, 4, 0))));
    /// ```
    #[inline(always)]
    pub fn is_new_max<W: Versioned>(&self, version: &W, best: Option<&W>) -> bool
        ensures exact { result ≡ replaces (λ b v. is_le (precedence (W.value b) (W.value v)))
            (λ v. accepts self.now (W.value v) false) (option_copied best.entry) version.now }
        ensures best { (list : List W)
            → IsMaxOf W.value (λ v. accepts self.now v false) list (option_copied best.entry)
            → IsMaxOf W.value (λ v. accepts self.now v false) (list ++ version.now ∷ [])
            (if result then Some version.now else option_copied best.entry) }
    {
        is_new_max(self.items(), false, version, best)
    }

    /// Whether a version takes the place of the best so far in `min_satisfying`: the range accepts
    /// it by `satisfies`, and the best is above it.
    ///
    /// ```rust
    /// let range = Range::parse(alloc, "^1")?;
    /// let best = Version::from((1u64, 4, 0));
    /// assert!(rt; range.is_new_min(&Version::from((1u64, 2, 0)), Some(&best)));
    /// ```
    #[inline(always)]
    pub fn is_new_min<W: Versioned>(&self, version: &W, best: Option<&W>) -> bool
        ensures exact { result ≡ replaces (λ b v. is_lt (precedence (W.value v) (W.value b)))
            (λ v. accepts self.now (W.value v) false) (option_copied best.entry) version.now }
        ensures best { (list : List W)
            → IsMinOf W.value (λ v. accepts self.now v false) list (option_copied best.entry)
            → IsMinOf W.value (λ v. accepts self.now v false) (list ++ version.now ∷ [])
            (if result then Some version.now else option_copied best.entry) }
    {
        is_new_min(self.items(), false, version, best)
    }

    /// The greatest of the versions that each of the ranges accepts by `satisfies`, as one copy of
    /// a package that serves all who depend on it. Returns `None` exactly where no version is
    /// accepted by all; of no ranges it is the greatest version. Of equal versions it is the last.
    ///
    /// ```rust
    /// let versions = [VersionRef::parse("1.3.0")?, VersionRef::parse("1.5.0")?];
    /// let ranges = [Range::parse(alloc, "^1.2")?, Range::parse(alloc, "<1.4")?];
    /// assert!(rt; Range::max_satisfying_all(&ranges, &versions) == Some(&versions[0]));
    /// ```
    pub fn max_satisfying_all<'v, W: Versioned>(
        ranges: &[RangeOf<V>],
        versions: &'v [W],
    ) -> Option<&'v W>
        ensures best { IsMax (λ v. list_all (λ range. accepts range v false) ranges.now)
            (map W.value versions.now) (option_map (λ v. W.value v.now) result) }
        ensures element { IsMaxOf W.value
            (λ v. list_all (λ range. accepts range v false) ranges.now)
            versions.now (option_copied result) }
    {
        let mut best = None;
        for version in versions {
            if is_none_above(version, best) && all_accept(ranges, version) {
                best = Some(version);
            }
        }
        best
    }
}

/// The newest of the releases in a list, which npm calls `latest` where no tag says otherwise.
/// Returns `None` exactly where the list has no release. Of equal versions it is the last.
///
/// ```rust
/// let versions = [
///     VersionRef::parse("1.2.0")?,
///     VersionRef::parse("2.0.0-rc.1")?,
/// ];
/// assert!(rt; newest_release(&versions) == Some(&versions[0]));
/// ```
pub fn newest_release<W: Versioned>(versions: &[W]) -> Option<&W>
    ensures best { IsMax is_release (map W.value versions.now)
        (option_map (λ v. W.value v.now) result) }
    ensures element { IsMaxOf W.value is_release versions.now (option_copied result) }
{
    let mut best = None;
    for version in versions {
        if is_none_above(version, best) && version.is_release() {
            best = Some(version);
        }
    }
    best
}

/// The last of the greatest of the versions that the intervals accept.
///
/// This is for the crates of this repository.
pub fn greatest<'v, V: VersionPoint, W: Versioned>(
    intervals: &[Interval<V>],
    include: bool,
    versions: &'v [W],
) -> Option<&'v W>
    ensures best { IsMax (λ v. accepts (spans_of V.value intervals.now) v include)
        (map W.value versions.now) (option_map (λ v. W.value v.now) result) }
    ensures element { IsMaxOf W.value (λ v. accepts (spans_of V.value intervals.now) v include)
        versions.now (option_copied result) }
{
    let mut best = None;
    for version in versions {
        if is_new_max(intervals, include, version, best) {
            best = Some(version);
        }
    }
    best
}

/// The smallest of the versions that the intervals accept; on a tie, the first.
///
/// This is for the crates of this repository.
pub fn least<'v, V: VersionPoint, W: Versioned>(
    intervals: &[Interval<V>],
    include: bool,
    versions: &'v [W],
) -> Option<&'v W>
    ensures best { IsMin (λ v. accepts (spans_of V.value intervals.now) v include)
        (map W.value versions.now) (option_map (λ v. W.value v.now) result) }
    ensures element { IsMinOf W.value (λ v. accepts (spans_of V.value intervals.now) v include)
        versions.now (option_copied result) }
{
    let mut best = None;
    for version in versions {
        if is_new_min(intervals, include, version, best) {
            best = Some(version);
        }
    }
    best
}

// Whether the intervals accept a version, and the best so far is not above it.
#[inline(always)]
fn is_new_max<V: VersionPoint, W: Versioned>(
    intervals: &[Interval<V>],
    include: bool,
    version: &W,
    best: Option<&W>,
) -> bool
    ensures { result ≡ replaces (λ b v. is_le (precedence b v))
        (λ v. accepts (spans_of V.value intervals.now) v include)
        (option_map (λ v. W.value v.now) best.entry) (W.value version.now) }
{
    is_none_above(version, best) && accepts(intervals, version, include)
}

// Whether the intervals accept a version, and the best so far is above it.
#[inline(always)]
fn is_new_min<V: VersionPoint, W: Versioned>(
    intervals: &[Interval<V>],
    include: bool,
    version: &W,
    best: Option<&W>,
) -> bool
    ensures { result ≡ replaces (λ b v. is_lt (precedence v b))
        (λ v. accepts (spans_of V.value intervals.now) v include)
        (option_map (λ v. W.value v.now) best.entry) (W.value version.now) }
{
    match best {
        Some(best) => version.cmp_precedence(best).is_lt() && accepts(intervals, version, include),
        None => accepts(intervals, version, include),
    }
}

// Whether the best so far, if there is one, is not above a version.
#[inline(always)]
pub(crate) fn is_none_above<W: Versioned>(version: &W, best: Option<&W>) -> bool
    ensures { result ≡ replaces (λ b v. is_le (precedence b v)) (λ _. true)
        (option_map (λ v. W.value v.now) best.entry) (W.value version.now) }
{
    match best {
        Some(best) => best.cmp_precedence(version).is_le(),
        None => true,
    }
}

// Whether each of the ranges accepts a version.
pub(crate) fn all_accept<V: VersionPoint, W: Versioned>(ranges: &[RangeOf<V>], version: &W) -> bool
    ensures { result ≡ list_all (λ range. accepts range (W.value version.now) false) ranges.now }
{
    ranges.iter().all(
        |range| -> bool
            ensures { result ≡ accepts range.now (W.value version.entry.now) false }
        { range.satisfies(version) },
    )
}
