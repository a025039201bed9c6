// What a locked version may be raised to, among the versions of its package in an index.

ghost use Rattle.lock_check.specs.Raises.{IsProspect, IsRaise, IsReason, is_above, is_beyond};
ghost use Rattle.lock_check.specs.Raises.{is_raised, may_be_newest};
ghost use Rattle.lock_check.specs.Readings.{HasAlternatives};
ghost use Rattle.nodejs_semver.specs.Ranges.Best.{IsMax};
ghost use Rattle.nodejs_semver.specs.Ranges.Outside.{is_outside};
ghost use Rattle.std.specs.Option.{option_copied};
ghost use Rattle.std.specs.Prelude.{◌≡◌, ◌&&◌, if◌then◌else◌, IfOk, IfSome, OnErr};
ghost use Rattle.std.specs.Prelude.{option_map, true};

use crate::reading::{NpmRange, range, version};
use nodejs_semver::{OutsideDirection, RangeRef, VersionRef, Versioned, newest_release};
use std::alloc::{AllocError, Global};

/// Why a range does not accept a version.
#[derive(Clone, Copy, PartialEq, Eq)]
pub enum Reason {
    /// It is a pre-release. The range would accept it, were pre-releases included.
    PreRelease,
    /// The range lies below it.
    Above,
    /// The range lies above it.
    Below,
    /// The range lies on both sides of it.
    Between,
}

/// The newest version of an index, which a range does not accept.
#[derive(Clone, Copy)]
pub struct Latest<'v, 't> {
    pub version: &'v VersionRef<'t>,
    pub reason: Reason,
}

/// What a locked version may be raised to.
#[derive(Clone, Copy)]
pub struct Raise<'v, 't> {
    /// The greatest version that the range accepts and that is above the locked one.
    pub wanted: Option<&'v VersionRef<'t>>,
    /// The newest version, if the range does not accept it, and it is above the locked one and
    /// above all that the range accepts. The newest is the greatest release, or the greatest of all
    /// where there is no release.
    pub latest: Option<Latest<'v, 't>>,
}

/// What the text of a range and the text of a locked version say of the versions of an index.
#[derive(Clone, Copy)]
pub enum Prospect<'v, 't> {
    /// The first text is no range to npm.
    NoRange,
    /// The first text may be another range to npm than it is here, or none.
    Unsure,
    /// The first text is a range, and the second one is no version.
    NoVersion,
    /// Both are read.
    Read(Raise<'v, 't>),
}

/// What the version that the second text is may be raised to, by the range of the first text, among
/// these versions. Fails only if an allocation fails, for a range text with `||`.
pub fn prospect_of<'v, 't>(
    alloc: Global,
    wanted: &str,
    locked: &str,
    versions: &'v [VersionRef<'t>],
) -> Result<Prospect<'v, 't>, AllocError>
    ensures ok { IfOk result (IsProspect wanted.now locked.now versions.now) }
    ensures memory { OnErr result (HasAlternatives wanted.now) }
{
    let range = match range(alloc, wanted)? {
        NpmRange::Read(range) => range,
        NpmRange::Rejected => return Ok(Prospect::NoRange),
        NpmRange::Unsure => return Ok(Prospect::Unsure),
    };
    let Some(version) = version(locked) else {
        return Ok(Prospect::NoVersion);
    };
    Ok(Prospect::Read(raise_of(&range, &version, versions)))
}

/// What a locked version may be raised to, by a range, among these versions.
pub fn raise_of<'v, 't>(
    range: &RangeRef<'_>,
    locked: &VersionRef<'_>,
    versions: &'v [VersionRef<'t>],
) -> Raise<'v, 't>
    ensures { IsRaise range.now locked.now versions.now result }
{
    let wanted = greatest_accepted(range, locked, versions);
    let latest = latest_of(range, locked, versions);
    Raise { wanted, latest }
}

// The greatest of the versions that the range accepts and that is above the locked one.
fn greatest_accepted<'v, 't>(
    range: &RangeRef<'_>,
    locked: &VersionRef<'_>,
    versions: &'v [VersionRef<'t>],
) -> Option<&'v VersionRef<'t>>
    ensures { IsMax (is_raised range.now locked.now) versions.now (option_copied result) }
{
    match range.max_satisfying(versions) {
        Some(best) => if_kept(best, is_above(best, locked)),
        None => None,
    }
}

// The newest version beyond the range, and why the range does not accept it.
fn latest_of<'v, 't>(
    range: &RangeRef<'_>,
    locked: &VersionRef<'_>,
    versions: &'v [VersionRef<'t>],
) -> Option<Latest<'v, 't>>
    ensures version { IsMax (λ v. may_be_newest versions.now v
        && is_beyond range.now locked.now versions.now v) versions.now
        (option_map (λ l. l.version.now) result) }
    ensures reason { IfSome result (λ l. IsReason range.now l.version.now l.reason) }
{
    match newest_beyond(range, locked, versions) {
        Some(version) => {
            let reason = reason_of(range, version);
            Some(Latest { version, reason })
        }
        None => None,
    }
}

// The newest of the versions, if it is beyond the range.
fn newest_beyond<'v, 't>(
    range: &RangeRef<'_>,
    locked: &VersionRef<'_>,
    versions: &'v [VersionRef<'t>],
) -> Option<&'v VersionRef<'t>>
    ensures { IsMax (λ v. may_be_newest versions.now v
        && is_beyond range.now locked.now versions.now v) versions.now (option_copied result) }
{
    let best = range.max_satisfying(versions);
    match newest(versions) {
        Some(newest) => if_kept(newest, is_above_both(newest, locked, best)),
        None => None,
    }
}

// The version, if it is to be kept.
fn if_kept<'v, 't>(version: &'v VersionRef<'t>, is_kept: bool) -> Option<&'v VersionRef<'t>>
    ensures { option_copied result ≡ (if is_kept then Some version.now else None) }
{
    if is_kept { Some(version) } else { None }
}

// Whether a version is above the locked one, and above the best one, if there is one.
fn is_above_both(
    version: &VersionRef<'_>,
    locked: &VersionRef<'_>,
    best: Option<&VersionRef<'_>>,
) -> bool
    ensures { result ≡ (is_above version.now locked.now
        && elim (option_copied best.entry) [ Some b ↦ is_above version.now b | None ↦ true ]) }
{
    is_above(version, locked)
        && match best {
            Some(best) => is_above(version, best),
            None => true,
        }
}

// The greatest release, or the greatest of all versions where there is no release.
fn newest<'v, 't>(versions: &'v [VersionRef<'t>]) -> Option<&'v VersionRef<'t>>
    ensures { IsMax (may_be_newest versions.now) versions.now (option_copied result) }
{
    match newest_release(versions) {
        Some(release) => Some(release),
        None => RangeRef::max_satisfying_all(&[], versions),
    }
}

// Whether a version is above another one.
fn is_above(version: &VersionRef<'_>, other: &VersionRef<'_>) -> bool
    ensures { result ≡ is_above version.now other.now }
{
    other.cmp_precedence(version).is_lt()
}

// Why the range does not accept the version.
fn reason_of(range: &RangeRef<'_>, version: &VersionRef<'_>) -> Reason
    ensures { IsReason range.now version.now result }
{
    if range.satisfies_with_prerelease(version, true) {
        Reason::PreRelease
    } else if lies_outside(range, version, OutsideDirection::Higher) {
        Reason::Above
    } else if lies_outside(range, version, OutsideDirection::Lower) {
        Reason::Below
    } else {
        Reason::Between
    }
}

// Whether the range lies on the other side of the version, with pre-releases included.
fn lies_outside(range: &RangeRef<'_>, version: &VersionRef<'_>, direction: OutsideDirection) -> bool
    ensures { result ≡ is_outside direction true range.now version.now }
{
    matches!(range.outside(version, direction, true), Ok(true))
}
