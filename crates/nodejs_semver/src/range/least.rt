// The least version that lists of intervals all accept, alone or beyond another list.
//
// Let v be accepted by each list that is kept, one or more, and not by the one that is removed. Of
// the lower cuts of the lists that are kept, the upper cuts of the removed one, and the cuts below
// the pre-releases that an upper bound of a kept list names, take the greatest that is not after v.
// The first version of v's kind past that cut, a release or a pre-release of the same three
// numbers, is not above v, and is accepted by each kept list and not by the removed one either. So
// the least version is among these first versions: these are the candidates, at most four for an
// interval of a kept list, and two for one of the removed list. With pre-releases included the
// candidates are the first versions past the lower cuts, one for an interval.

ghost use Rattle.nodejs_semver.specs.Internal.Candidates as spec;
ghost use Rattle.nodejs_semver.specs.Internal.Index.{wants};
ghost use Rattle.nodejs_semver.specs.Ranges.Least as stated;
ghost use Rattle.nodejs_semver.specs.contracts.range.RangeOf.{the_row};
ghost use Rattle.std.specs.Mem.{FitsInMemory};
ghost use Rattle.std.specs.Prelude.{◌-◌, ◌<◌, ◌^◌, ◌≡◌, ◌⊎◌, ⊤};
ghost use Rattle.nodejs_semver.specs.Words.{[], accepts, After, All, Any, Before, Beside, Bool};
ghost use Rattle.nodejs_semver.specs.Words.{bound_of, false, Far, flat_map, fold, IfNone, IfOk};
ghost use Rattle.nodejs_semver.specs.Words.{IfSome, is_release, IsOk, length, list_all, Near};
ghost use Rattle.nodejs_semver.specs.Words.{OnErr, OnOk, Some, span_of, spans_of, true, value_of};
ghost use Rattle.nodejs_semver.specs.Words.{VersionValue};

use crate::range::best::all_accept;
use crate::range::gate::accepts;
use crate::range::index::Indexes;
use crate::range::neighbours::{
    bare, bare_release, first_pre, owned, patch_after, pre_after, with_least_build,
};
use crate::readers::{lowest, release};
use crate::{Allocated, RangeOf};
use semver_core::cuts::{Bound, Interval};
use semver_core::{Version, VersionPoint, Versioned};
use std::alloc::{AllocError, Global};
use std::slice::from_ref;

impl<V: VersionPoint> RangeOf<V> {
    /// The smallest version that the range accepts by `satisfies`, where it stands in the range: of
    /// the versions with which the intervals begin it is the least, and has its build. Returns
    /// `None` only where an interval begins with none, as that of `>1.2.3` and that of `<2.0.0`;
    /// what such a range accepts, `min_version` says.
    ///
    /// ```rust
    /// let range = Range::parse(alloc, "^2.1 || ^1.2.3")?;
    /// assert!(rt; range.least_start() == Some(&Version::from((1u64, 2, 3))));
    /// ```
    pub fn least_start(&self) -> Option<&V>
        ensures least { IfSome result (λ v.
            stated.IsLeastOf (λ w. accepts self.now w false) (Some (V.value v.now))) }
        ensures build { IfSome result (λ v.
            (V.value v.now).build ≡ stated.least_build self.now (V.value v.now)) }
        ensures none { IfNone result
            (Any (λ s. (v : VersionValue) → s.lower ≡ Before v → ⊥) self.now) }
    {
        let intervals = self.items();
        let mut least = None;
        for interval in intervals {
            least = Some(lesser(least, start(interval)?));
        }
        least
    }

    /// The smallest version that the range accepts by `satisfies`. Returns `None` exactly where it
    /// accepts no version at all, as `>1.0.0 <1.0.1-0`.
    ///
    /// Fails only if allocation fails, which happens only where a bound of the range has a
    /// pre-release or build metadata, and then only where the range accepts a version, or where it
    /// has a lower bound `>v` of a pre-release v: then v with one more identifier is made before it
    /// is known to be accepted.
    ///
    /// A result that comes from a lower bound has that bound's build: from `>=v` it is v itself,
    /// from `>v` the next patch where v is a release, and else v with one more identifier, the
    /// number 0. So of `>1.2.3+b` it is 1.2.4+b. A result that an upper bound alone lets in, as
    /// 1.0.1-0 for `>1.0.0 <1.0.1-5`, or one of an interval without a lower bound, has no build. Of
    /// equal results it is the one of the first interval.
    ///
    /// As measured, time grows with n log n for n intervals, or with n squared where there is no
    /// memory for an index of them.
    ///
    /// ```rust
    /// let range = Range::parse(alloc, ">1.0.0 <1.0.1-5")?;
    /// let smallest = Version::parse(alloc, "1.0.1-0").ok();
    /// assert!(rt; range.min_version(alloc) == Ok(smallest));
    /// ```
    pub fn min_version(&self, alloc: Global) -> Result<Option<Version>, AllocError>
        ensures least { IfOk result (λ r. stated.IsLeastOf (λ v. accepts self.now v false) r) }
        ensures build { IfOk result (λ r. IfSome r (λ v. v.build ≡ stated.least_build self.now v)) }
        ensures memory { OnErr result (((v : VersionValue) × (accepts self.now v false ≡ true))
            ⊎ Any (λ s. (v : VersionValue) × (s.lower ≡ After v) × (is_release v ≡ false))
            self.now) }
        ensures bare { OnErr result (stated.names_identifiers self.now ≡ true) }
    {
        if let Some(version) = self.least_start() {
            return owned(alloc, version).map(Some);
        }
        match least_among::<V, Version>(alloc, from_ref(self), &[])? {
            None => Ok(None),
            Some(version) => with_least_build(alloc, version, self.items()).map(Some),
        }
    }

    /// The smallest version that this range accepts by `satisfies` and the other does not, without
    /// a build. Returns `None` exactly where the other accepts every version that this one accepts.
    ///
    /// Fails only if allocation fails, which happens only where a bound of one of them has a
    /// pre-release or build metadata, and then only where there is such a version, or where this
    /// range has a lower bound `>v` of a pre-release v, or the other an upper bound `<=v` of one:
    /// then v with one more identifier is made before it is known to be such a version.
    ///
    /// It is not the smallest version of the difference of the two: `>=1.2.3-a` beyond `>=1.0.0` is
    /// 1.2.3-a, which the second range holds and does not accept.
    ///
    /// As measured, time grows with n log n for n intervals of both ranges, or with n squared where
    /// there is no memory for an index of them.
    ///
    /// ```rust
    /// let wide = Range::parse(alloc, "^1")?;
    /// let narrow = Range::parse(alloc, "^1.2")?;
    /// let smallest = Some(Version::from((1u64, 0, 0)));
    /// assert!(rt; wide.least_beyond(alloc, &narrow) == Ok(smallest));
    /// assert!(rt; narrow.least_beyond(alloc, &wide) == Ok(None));
    /// ```
    pub fn least_beyond<W: VersionPoint>(
        &self,
        alloc: Global,
        other: &RangeOf<W>,
    ) -> Result<Option<Version>, AllocError>
        ensures least { IfOk result (λ r. stated.IsLeastOf (stated.beyond self.now other.now) r) }
        ensures build { IfOk result (λ r. IfSome r (λ v. v.build ≡ [])) }
        ensures memory { OnErr result
            (((v : VersionValue) × (stated.beyond self.now other.now v ≡ true))
            ⊎ Any (λ s. (v : VersionValue) × (s.lower ≡ After v) × (is_release v ≡ false)) self.now
            ⊎ Any (λ s. (v : VersionValue) × (s.upper ≡ After v) × (is_release v ≡ false))
            other.now) }
        ensures bare { OnErr result ((stated.names_identifiers self.now ≡ true)
            ⊎ (stated.names_identifiers other.now ≡ true)) }
    {
        least_among(alloc, from_ref(self), other.items())
    }

    /// The smallest version that each of the ranges accepts by `satisfies`, without a build.
    /// Returns `None` exactly where no version is accepted by all. Of no ranges it is 0.0.0-0, the
    /// smallest version.
    ///
    /// Fails only if allocation fails, which happens only where there are ranges, and a version is
    /// accepted by all or one of the ranges has a lower bound `>v` of a pre-release v: then v with
    /// one more identifier is made before it is known to be accepted.
    ///
    /// It is not the smallest version of the intersection: of `>=1.2.3-a` and `>=1.0.0` it is
    /// 1.2.3, while their intersection accepts 1.2.3-a, which the second range does not accept.
    ///
    /// As measured, time grows with the number of ranges times n log n for n intervals of all, or
    /// with n squared where there is no memory for an index of them.
    ///
    /// ```rust
    /// let ranges = [
    ///     Range::parse(alloc, ">=1.2.3-a")?,
    ///     Range::parse(alloc, ">=1.0.0")?,
    /// ];
    /// let least = Some(Version::from((1u64, 2, 3)));
    /// assert!(rt; Range::least_of_all(alloc, &ranges) == Ok(least));
    /// ```
    pub fn least_of_all(alloc: Global, ranges: &[RangeOf<V>]) -> Result<Option<Version>, AllocError>
        ensures least { IfOk result (λ r. stated.IsLeastOf
            (λ v. list_all (λ range. accepts range v false) ranges.now) r) }
        ensures build { IfOk result (λ r. IfSome r (λ v. v.build ≡ [])) }
        ensures memory { OnErr result
            (((v : VersionValue) × (list_all (λ range. accepts range v false) ranges.now ≡ true))
            ⊎ Any (λ range. Any
            (λ s. (v : VersionValue) × (s.lower ≡ After v) × (is_release v ≡ false)) range)
            ranges.now) }
        ensures none { ranges.now ≡ [] → IsOk result }
    {
        if ranges.is_empty() {
            let least = Version::with_pre(alloc, 0, 0, 0, 0)?;
            return Ok(Some(least));
        }
        least_among::<V, Version>(alloc, ranges, &[])
    }

    /// The smallest version that the range accepts with pre-releases included, as
    /// `satisfies_with_prerelease` does, without a build. Returns `None` exactly where the range
    /// holds no version, as `>1.0.0 <1.0.1-0`.
    ///
    /// Fails only if allocation fails, which happens only where the range holds a version, or where
    /// it has a lower bound `>v` of a pre-release v: then v with one more identifier is made before
    /// it is known to be held.
    ///
    /// There is one in every range that holds a version, although the order has endless descending
    /// chains, as 1.0.0-b, 1.0.0-ab, 1.0.0-aab and so on: what an interval holds begins at its
    /// lower bound, behind which one version comes first. It is v itself for `>=v`; for `>v` it is
    /// v with one more identifier, the number 0, where v is a pre-release, and else the pre-release
    /// `-0` of the next patch; and 0.0.0-0 without a lower bound.
    ///
    /// Time grows at most with the square of the number of intervals.
    ///
    /// ```rust
    /// let range = Range::parse(alloc, ">1.0.0 <1.0.1-0")?;
    /// assert!(rt; range.min_version_with_prerelease(alloc) == Ok(None));
    /// let range = Range::parse(alloc, ">1.0.0")?;
    /// let first = Version::parse(alloc, "1.0.1-0").ok();
    /// assert!(rt; range.min_version_with_prerelease(alloc) == Ok(first));
    /// ```
    pub fn min_version_with_prerelease(&self, alloc: Global) -> Result<Option<Version>, AllocError>
        ensures least { IfOk result (λ r. stated.IsLeastOf (λ v. accepts self.now v true) r) }
        ensures build { IfOk result (λ r. IfSome r (λ v. v.build ≡ [])) }
        ensures memory { OnErr result (((v : VersionValue) × (accepts self.now v true ≡ true))
            ⊎ Any (λ s. (v : VersionValue) × (s.lower ≡ After v) × (is_release v ≡ false))
            self.now) }
    {
        let intervals = self.items();
        let mut best: Option<Version> = None;
        for interval in intervals {
            consider_first(alloc, self, &mut best, interval.lower())?;
        }
        Ok(best)
    }
}

// The version with which the interval begins, which the interval accepts.
#[inline(always)]
fn start<V: VersionPoint>(interval: &Interval<V>) -> Option<&V>
    ensures some { IfSome result (λ v.
        spec.StartsWith (span_of V.value interval.now) (V.value v.now)) }
    ensures none { IfNone result (spec.BeginsOtherwise (span_of V.value interval.now)) }
{
    match interval.lower() {
        Bound::Before(version) => Some(version),
        _ => None,
    }
}

// The best so far, or the next version where that is below it.
#[inline(always)]
fn lesser<'v, V: Versioned>(best: Option<&'v V>, next: &'v V) -> &'v V
    ensures { V.value result.now ≡ spec.lesser (value_of V.value best.entry) (V.value next.now) }
{
    match best {
        Some(best) if best.cmp_precedence(next).is_le() => best,
        _ => next,
    }
}

// The search goes through the candidates for the least version of a set: `best` is the least so far
// that is in it.

// A set of versions, of which the least is searched for.
pub(crate) trait Search {
    // The versions in the set.
    ghost wanted: { Self → VersionValue → Bool };

    // Whether the least version is copied. Where it is only asked whether there is one, none is.
    ghost copies: { Self → Bool };

    // What the set wants of its parts: types no larger than memory, which is so wherever there is a
    // value of the type, and which references to values in a struct do not show; and indexes that
    // are those of its lists.
    ghost fits: { Self → Type 0 };

    // Whether the version, without its build, is in the set.
    fn wants<C: Versioned>(&self, version: &C) -> bool
        requires { fits self.now }
        ensures { result ≡ wanted self.now (spec.bare (C.value version.now)) };

    fn copies(&self) -> bool
        ensures { result ≡ copies self.now };
}

// The versions that each range of `kept` accepts and no interval of `removed`.
#[derive(Drop)]
pub(crate) struct Beyond<'a, V: VersionPoint, W: VersionPoint> {
    pub kept: &'a [RangeOf<V>],
    pub removed: &'a [Interval<W>],
    indexes: Option<Indexes<'a, V, W>>,
    pub copies: bool,
}

impl<'a, V: VersionPoint, W: VersionPoint> Beyond<'a, V, W> {
    // The versions, with indexes where there are many intervals.
    pub(crate) fn new(
        alloc: Global,
        kept: &'a [RangeOf<V>],
        removed: &'a [Interval<W>],
        copies: bool,
    ) -> Beyond<'a, V, W>
        ensures kept { result.kept.now ≡ kept.now }
        ensures removed { result.removed.now ≡ removed.now }
        ensures copies { result.copies ≡ copies }
        ensures indexed { IfSome result.indexes (λ i. (v : VersionValue) →
            wants i.kept.items i.removed v
            ≡ spec.wanted kept.now (spans_of W.value removed.now) v) }
    {
        let indexes = Indexes::of_many(alloc, kept, removed);
        Beyond {
            kept,
            removed,
            indexes,
            copies,
        }
    }
}

impl<'a, V: VersionPoint, W: VersionPoint> Search for Beyond<'a, V, W> {
    ghost wanted = { λ s. spec.wanted s.kept.now (spans_of W.value s.removed.now) };

    ghost copies = { λ s. s.copies };

    ghost fits = { λ s. FitsInMemory (the_row V.row V.Versioned (record { takes = V.takes })
        (record { cmp = V.cmp }) V.PartialEq (record { partial_cmp = V.partial_cmp }))
        × IfSome s.indexes (λ i. (v : VersionValue) → wants i.kept.items i.removed v
        ≡ spec.wanted s.kept.now (spans_of W.value s.removed.now) v) };

    #[tactic(auto, using(crate::proofs::Questions::Least::wanted_bare))]
    fn wants<C: Versioned>(&self, version: &C) -> bool {
        match &self.indexes {
            Some(indexes) => indexes.want(version),
            None => all_accept(self.kept, version) && !accepts(self.removed, version, false),
        }
    }

    fn copies(&self) -> bool {
        self.copies
    }
}

// The versions that the range accepts with pre-releases included.
impl<V: VersionPoint> Search for RangeOf<V> {
    ghost wanted = { λ range v. accepts range v true };

    ghost copies = { λ range. true };

    ghost fits = { λ range. ⊤ };

    #[tactic(auto, using(crate::proofs::Questions::Least::held_alike))]
    fn wants<C: Versioned>(&self, version: &C) -> bool {
        self.satisfies_with_prerelease(version, true)
    }

    fn copies(&self) -> bool {
        true
    }
}

// Whether the best so far is not above the version: nothing from the version on improves on it.
fn is_reached<C: Versioned>(best: &Option<Version>, version: &C) -> bool
    ensures { result ≡ spec.is_reached best.now (C.value version.now) }
{
    match best {
        None => false,
        Some(best) => best.cmp_precedence(version).is_le(),
    }
}

// Keeps the version, without its build, where it improves on the best so far. Otherwise nothing is
// copied.
#[inline(never)]
fn consider<S: Search, C: Versioned>(
    alloc: Global,
    search: &S,
    best: &mut Option<Version>,
    version: &C,
) -> Allocated<()>
    requires { S.fits search.now }
    ensures best { OnOk result (best.new
        ≡ spec.better_kept (S.copies search.now) (S.wanted search.now) best.old
        (spec.bare (C.value version.now))) }
    ensures memory { OnErr result (spec.Finds (S.copies search.now) (S.wanted search.now)) }
{
    if !is_reached(best, version) && search.wants(version) {
        *best = Some(if search.copies() {
            bare(alloc, version)?
        } else {
            Version::from((0u64, 0, 0))
        });
    }
    Ok(())
}

// Considers the first versions from this one on. Mostly a better one is known.
#[inline(always)]
#[tactic(auto, using(crate::proofs::Questions::Least::reached_near))]
fn consider_from<S: Search, C: Versioned>(
    alloc: Global,
    search: &S,
    best: &mut Option<Version>,
    version: &C,
) -> Allocated<()>
    requires { S.fits search.now }
    ensures best { OnOk result (best.new
        ≡ fold (spec.better_kept (S.copies search.now) (S.wanted search.now)) best.old
        (spec.firsts (Beside (C.value version.now) Near))) }
    ensures memory { OnErr result (spec.Finds (S.copies search.now) (S.wanted search.now)) }
{
    if is_reached(best, version) {
        return Ok(());
    }
    consider(alloc, search, best, version)?;
    if version.is_release() {
        return Ok(());
    }
    consider(alloc, search, best, &bare_release(version))
}

// Considers the first versions after this one. That after a pre-release is made before it is known
// to improve on the best so far.
fn consider_after<S: Search, C: Versioned>(
    alloc: Global,
    search: &S,
    best: &mut Option<Version>,
    version: &C,
) -> Allocated<()>
    requires fits { S.fits search.now }
    requires raisable { (C.value version.now).patch < 2 ^ 64 - 1 }
    ensures best { OnOk result (best.new
        ≡ fold (spec.better_kept (S.copies search.now) (S.wanted search.now)) best.old
        (spec.firsts (Beside (C.value version.now) Far))) }
    ensures memory { OnErr result (spec.Finds (S.copies search.now) (S.wanted search.now)
        ⊎ (is_release (C.value version.now) ≡ false)) }
{
    if is_reached(best, version) {
        return Ok(());
    }
    if version.is_release() {
        return consider(alloc, search, best, &patch_after(version));
    }
    let tried = consider(alloc, search, best, &pre_after(alloc, version)?);
    tried?;
    consider(alloc, search, best, &bare_release(version))
}

// Considers the first versions past the cut of a bound.
fn consider_past<S: Search, C: Versioned>(
    alloc: Global,
    search: &S,
    best: &mut Option<Version>,
    bound: &Bound<C>,
) -> Allocated<()>
    requires fits { S.fits search.now }
    requires raisable { spec.Raisable (bound_of C.value bound.now) }
    ensures best { OnOk result (best.new
        ≡ fold (spec.better_kept (S.copies search.now) (S.wanted search.now)) best.old
        (flat_map spec.firsts (spec.beside (bound_of C.value bound.now)))) }
    ensures memory { OnErr result (spec.Finds (S.copies search.now) (S.wanted search.now)
        ⊎ spec.IsAfterPre (bound_of C.value bound.now)) }
{
    match bound {
        Bound::Unbounded => Ok(()),
        Bound::Before(version) => consider_from(alloc, search, best, version),
        Bound::After(version) => consider_after(alloc, search, best, version),
    }
}

// Considers the first versions past the cut below the pre-releases that a bound names.
fn consider_named<S: Search, C: Versioned>(
    alloc: Global,
    search: &S,
    best: &mut Option<Version>,
    bound: &Bound<C>,
) -> Allocated<()>
    requires { S.fits search.now }
    ensures best { OnOk result (best.new
        ≡ fold (spec.better_kept (S.copies search.now) (S.wanted search.now)) best.old
        (flat_map spec.firsts (spec.below_named (bound_of C.value bound.now)))) }
    ensures memory { OnErr result (spec.Finds (S.copies search.now) (S.wanted search.now)) }
{
    match bound {
        Bound::Before(version) | Bound::After(version) if !version.is_release() => {
            consider_from(alloc, search, best, &first_pre(version))
        }
        _ => Ok(()),
    }
}

// Considers all candidates.
pub(crate) fn consider_all<S: Search, V: VersionPoint, W: VersionPoint>(
    alloc: Global,
    search: &S,
    best: &mut Option<Version>,
    kept: &[RangeOf<V>],
    removed: &[Interval<W>],
) -> Allocated<()>
    requires fits { S.fits search.now }
    requires removed { All spec.IsRaisable (spans_of W.value removed.now) }
    ensures best { OnOk result (best.new
        ≡ fold (spec.better_kept (S.copies search.now) (S.wanted search.now)) best.old
        (spec.candidates kept.now (spans_of W.value removed.now))) }
    ensures memory { OnErr result (spec.Finds (S.copies search.now) (S.wanted search.now)
        ⊎ Any spec.BeginsAfterPre kept.now ⊎ spec.EndsAfterPre (spans_of W.value removed.now)) }
{
    consider(alloc, search, best, &release(0, 0, 0))?;
    for range in kept {
        let intervals = range.items();
        for interval in intervals {
            consider_past(alloc, search, best, interval.lower())?;
            consider_named(alloc, search, best, interval.upper())?;
        }
    }
    for interval in removed {
        consider_past(alloc, search, best, interval.upper())?;
    }
    Ok(())
}

// The least version that each of the ranges, one or more, accepts and no interval of `removed`,
// without a build.
fn least_among<V: VersionPoint, W: VersionPoint>(
    alloc: Global,
    kept: &[RangeOf<V>],
    removed: &[Interval<W>],
) -> Allocated<Option<Version>>
    requires some { 0 < length kept.now }
    requires removed { All spec.IsRaisable (spans_of W.value removed.now) }
    ensures least { IfOk result (λ r.
        stated.IsLeastOf (spec.wanted kept.now (spans_of W.value removed.now)) r) }
    ensures build { IfOk result (λ r. IfSome r (λ v. v.build ≡ [])) }
    ensures memory { OnErr result (spec.MayAllocate true kept.now (spans_of W.value removed.now)) }
{
    let mut best = None;
    let search = Beyond::new(alloc, kept, removed, true);
    consider_all(alloc, &search, &mut best, kept, removed)?;
    Ok(best)
}

// Considers the first version past the cut of a lower bound, pre-releases included.
fn consider_first<S: Search, C: Versioned>(
    alloc: Global,
    search: &S,
    best: &mut Option<Version>,
    bound: &Bound<C>,
) -> Allocated<()>
    requires fits { S.fits search.now }
    requires raisable { spec.Raisable (bound_of C.value bound.now) }
    ensures best { OnOk result (best.new
        ≡ spec.better_kept (S.copies search.now) (S.wanted search.now) best.old
        (spec.first_past (bound_of C.value bound.now))) }
    ensures memory { OnErr result (spec.Finds (S.copies search.now) (S.wanted search.now)
        ⊎ spec.IsAfterPre (bound_of C.value bound.now)) }
{
    match bound {
        Bound::Unbounded => consider(alloc, search, best, &lowest(0, 0, 0)),
        Bound::Before(version) => consider(alloc, search, best, version),
        Bound::After(version) => {
            if version.is_release() {
                return consider(alloc, search, best, &first_pre(&patch_after(version)));
            }
            consider(alloc, search, best, &pre_after(alloc, version)?)
        }
    }
}
