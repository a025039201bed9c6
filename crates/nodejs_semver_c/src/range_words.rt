// Common texts of ranges, read from their bytes: a caret or a tilde, and a release.

ghost use Rattle.nodejs_semver_c.specs.Internal.Common.{IsReleaseAt, IsWordText};
ghost use Rattle.nodejs_semver_c.specs.Kept.{kept_value};
ghost use Rattle.nodejs_semver_c.specs.KeptRanges.{kept_span};
ghost use Rattle.semver_core.specs.Values.Versions.{lowest};
ghost use Rattle.semver_core.specs.declared.TheConstants.{MAX_SAFE_INTEGER};
ghost use Rattle.semver_core.specs.declared.cuts.bound.Bound.TheVariants.{Before};
ghost use Rattle.std.specs.Prelude.{◌+◌, ◌<◌, ◌∷◌, ◌≡◌, [], IfSome};

use crate::common::release_front;
use crate::intervals::{Bound, Interval};
use crate::kept::Version;
use crate::{BOUND_CLOSED, BOUND_OPEN};
use nodejs_semver::MAX_SAFE_INTEGER;

// From a version on, below the pre-releases of the release with other numbers.
#[inline(always)]
#[tactic(auto, using(semver_core::proofs::Reading::IdentifierLists::short_lists))]
fn until<'a>(version: Version<'a>, major: u64, minor: u64, patch: u64) -> Interval<'a>
    ensures { kept_span result ≡ record {
      lower = Before (kept_value version.entry);
      upper = Before (lowest major minor patch);
    } }
{
    let end = Version {
        major,
        minor,
        patch,
        pre_release: b"0",
        build: b"",
    };
    Interval {
        lower: Bound {
            kind: BOUND_CLOSED,
            version,
        },
        upper: Bound {
            kind: BOUND_OPEN,
            version: end,
        },
    }
}

// The release that a whole text is, where it is not 0.0.0 and its numbers can rise.
#[inline(always)]
fn common_release(text: &[u8]) -> Option<Version<'_>>
    ensures at { IfSome result (λ p. IsReleaseAt text.now p []) }
    ensures some { IfSome result (λ p. 0 < p.major + p.minor + p.patch) }
    ensures rises { IfSome result (λ p. (p.major < MAX_SAFE_INTEGER)
        × (p.minor < MAX_SAFE_INTEGER) × (p.patch < MAX_SAFE_INTEGER)) }
{
    let (release, rest) = release_front(text)?;
    let (major, minor, patch) = (release.major, release.minor, release.patch);
    if !rest.is_empty() || (major, minor, patch) == (0, 0, 0) {
        return None;
    }
    if major >= MAX_SAFE_INTEGER || minor >= MAX_SAFE_INTEGER || patch >= MAX_SAFE_INTEGER {
        return None;
    }
    Some(release)
}

// The interval of a caret and a text. With pre-releases included npm has another one where the
// first number is 0.
#[inline(always)]
fn caret(include_prerelease: bool, text: &[u8]) -> Option<Interval<'_>>
    ensures { IfSome result (λ i. IsWordText include_prerelease (94 ∷ text.now) (kept_span i)) }
{
    let release = common_release(text)?;
    let (major, minor, patch) = (release.major, release.minor, release.patch);
    if major > 0 {
        return Some(until(release, major + 1, 0, 0));
    }
    if include_prerelease {
        return None;
    }
    if minor > 0 {
        Some(until(release, 0, minor + 1, 0))
    } else {
        Some(until(release, 0, 0, patch + 1))
    }
}

// The interval of a tilde and a text.
#[inline(always)]
fn tilde(include_prerelease: bool, text: &[u8]) -> Option<Interval<'_>>
    ensures { IfSome result (λ i. IsWordText include_prerelease (126 ∷ text.now) (kept_span i)) }
{
    let release = common_release(text)?;
    let (major, minor) = (release.major, release.minor);
    Some(until(release, major, minor + 1, 0))
}

/// The interval of a text that is a caret or a tilde, and a release without leading zeros. The
/// port's reading has it and npm's strict one. `None` is returned for others, of which most are
/// ranges too.
#[inline(always)]
pub fn range_word(include_prerelease: bool, text: &[u8]) -> Option<Interval<'_>>
    ensures { IfSome result (λ i. IsWordText include_prerelease text.now (kept_span i)) }
{
    match text {
        [b'^', rest @ ..] => caret(include_prerelease, rest),
        [b'~', rest @ ..] => tilde(include_prerelease, rest),
        _ => None,
    }
}
