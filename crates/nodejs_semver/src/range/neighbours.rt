// Versions beside another one, and the build that the least version has.

ghost use Rattle.nodejs_semver.specs.Internal.Candidates as spec;
ghost use Rattle.nodejs_semver.specs.Ranges.Least as stated;
ghost use Rattle.semver_core.specs.Values.Versions.{HasIdentifiers};
ghost use Rattle.std.specs.Prelude.{◌&&◌, ◌-◌, ◌<◌, ◌^◌, ◌≡◌, ◌⊎◌, [], All, false, find, true};
ghost use Rattle.nodejs_semver.specs.Words.{After, bound_of, build_by, holds, ids_view, IfOk};
ghost use Rattle.nodejs_semver.specs.Words.{IfSome, is_release, length, lets_in, OnErr};
ghost use Rattle.nodejs_semver.specs.Words.{option_map, precedence, Some, span_of, spans_of};

use crate::Allocated;
use crate::range::gate::accepts_one;
use crate::readers::{lowest, release};
use semver_core::cuts::{Bound, Interval};
use semver_core::{
    Identifier, IdentifierRef, IdentifierRefs, Version, VersionPoint, VersionRef, Versioned,
};
use std::alloc::{AllocError, Global};

// The release of the same three numbers.
pub(crate) fn bare_release<V: Versioned>(version: &V) -> VersionRef<'static>
    ensures { result ≡ spec.bare_release (V.value version.now) }
{
    release(version.major(), version.minor(), version.patch())
}

// The release after a release.
pub(crate) fn patch_after<V: Versioned>(version: &V) -> VersionRef<'static>
    requires { (V.value version.now).patch < 2 ^ 64 - 1 }
    ensures { result ≡ spec.patch_after (V.value version.now) }
{
    release(version.major(), version.minor(), version.patch() + 1)
}

// The first pre-release of the same three numbers.
pub(crate) fn first_pre<V: Versioned>(version: &V) -> VersionRef<'static>
    ensures { result ≡ spec.first_pre (V.value version.now) }
{
    lowest(version.major(), version.minor(), version.patch())
}

// The version after a pre-release.
pub(crate) fn pre_after<V: Versioned>(alloc: Global, version: &V) -> Allocated<Version>
    ensures { IfOk result (λ v. v ≡ spec.pre_after (V.value version.now)) }
{
    let mut pre_release = version.pre_release().to_list(alloc)?;
    pre_release.push(Identifier::Numeric(0))?;
    with_lists(alloc, version, pre_release, Vec::new(alloc))
}

// The first version after this one, without a build: the next patch of a release, and a pre-release
// with one more identifier.
fn following<V: Versioned>(alloc: Global, version: &V) -> Allocated<Version>
    requires { (V.value version.now).patch < 2 ^ 64 - 1 }
    ensures { IfOk result (λ next. stated.begins_with (After (V.value version.now))
        ≡ Some (record next { build = (V.value version.now).build })) }
{
    if version.is_release() {
        patch_after(version).to_version(alloc)
    } else {
        pre_after(alloc, version)
    }
}

// The version without its build.
pub(crate) fn bare<V: Versioned>(alloc: Global, version: &V) -> Allocated<Version>
    ensures value { IfOk result (λ v. v ≡ spec.bare (V.value version.now)) }
    ensures memory { OnErr result (is_release (V.value version.now) ≡ false) }
{
    if version.is_release() {
        return bare_release(version).to_version(alloc);
    }
    let mut ids = version.pre_release();
    if let (Some(IdentifierRef::Numeric(0)), None) = (ids.next(), ids.next()) {
        return first_pre(version).to_version(alloc);
    }
    let pre_release = version.pre_release().to_list(alloc)?;
    with_lists(alloc, version, pre_release, Vec::new(alloc))
}

// The whole version.
pub(crate) fn owned<V: Versioned>(alloc: Global, version: &V) -> Allocated<Version>
    ensures value { IfOk result (λ v. v ≡ V.value version.now) }
    ensures memory { OnErr result (HasIdentifiers (V.value version.now)) }
{
    let pre_release = version.pre_release().to_list(alloc)?;
    let build = version.build().to_list(alloc)?;
    with_lists(alloc, version, pre_release, build)
}

// A version that has no build, with this one.
fn with_build(alloc: Global, version: Version, build: IdentifierRefs<'_>) -> Allocated<Version>
    requires { version.build ≡ [] }
    ensures value { IfOk result (λ v. v ≡ record version { build = build.entry }) }
    ensures memory { OnErr result (0 < length build.entry) }
{
    if build.is_empty() {
        return Ok(version);
    }
    let pre_release = Identifier::copy_list(alloc, version.pre_release())?;
    let build = build.to_list(alloc)?;
    with_lists(alloc, &version, pre_release, build)
}

// The version of the three numbers of another and of these lists, which are dropped if allocation
// fails.
fn with_lists<V: Versioned>(
    alloc: Global,
    version: &V,
    pre_release: Vec<Identifier>,
    build: Vec<Identifier>,
) -> Allocated<Version>
    ensures value { IfOk result (λ v. v ≡ record (V.value version.now) {
      pre_release = ids_view pre_release.items;
      build = ids_view build.items;
    }) }
    ensures memory { OnErr result
        ((0 < length pre_release.items) ⊎ (0 < length build.items)) }
{
    let (major, minor, patch) = (version.major(), version.minor(), version.patch());
    match Version::new(alloc, major, minor, patch, pre_release, build) {
        Ok(version) => Ok(version),
        Err(_) => Err(AllocError),
    }
}

// The version with the build of the bound, where an interval above the bound begins with it.
fn with_build_by<V: Versioned>(
    alloc: Global,
    version: Version,
    bound: &Bound<V>,
) -> Allocated<Version>
    requires raisable { spec.Raisable (bound_of V.value bound.now) }
    requires bare { version.build ≡ [] }
    ensures value { IfOk result (λ v. v ≡ record version {
      build = build_by (stated.begins_with (bound_of V.value bound.now)) version;
    }) }
    ensures memory { OnErr result (spec.has_build (bound_of V.value bound.now) ≡ true) }
{
    match bound {
        Bound::Before(first) if first.cmp_precedence(&version).is_eq() => {
            with_build(alloc, version, first.build())
        }
        Bound::After(end) if end.build().is_empty() => Ok(version),
        Bound::After(end) if following(alloc, end)?.cmp(&version).is_eq() => {
            with_build(alloc, version, end.build())
        }
        _ => Ok(version),
    }
}

// The first interval that accepts the version.
fn first_accepting<'a, V: VersionPoint>(
    intervals: &'a [Interval<V>],
    version: &Version,
) -> Option<&'a Interval<V>>
    requires { All spec.IsRaisable (spans_of V.value intervals.now) }
    ensures value { option_map (λ s. span_of V.value s.now) result
        ≡ find (λ s. holds precedence s version.now && lets_in s version.now)
        (spans_of V.value intervals.now) }
    ensures raisable { IfSome result (λ s. spec.Raisable (bound_of V.value s.now.lower)) }
{
    intervals
        .iter()
        .find(|interval| accepts_one(interval, version, false))
}

// The version with the build of the bound with which the first interval that accepts it begins.
pub(crate) fn with_least_build<V: VersionPoint>(
    alloc: Global,
    version: Version,
    intervals: &[Interval<V>],
) -> Allocated<Version>
    requires raisable { All spec.IsRaisable (spans_of V.value intervals.now) }
    requires bare { version.build ≡ [] }
    ensures value { IfOk result (λ v. v ≡ record version {
      build = stated.least_build (spans_of V.value intervals.now) version;
    }) }
    ensures memory { OnErr result
        (stated.names_identifiers (spans_of V.value intervals.now) ≡ true) }
{
    match first_accepting(intervals, &version) {
        Some(interval) => with_build_by(alloc, version, interval.lower()),
        None => Ok(version),
    }
}
