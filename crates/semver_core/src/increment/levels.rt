// The words of increments, a row each.

ghost use Rattle.std.specs.Prelude.{◌≡◌};
ghost use Rattle.semver_core.specs.Words.{[], IfOk, parts_ref_value, ReturnsParts};
ghost use Rattle.semver_core.specs.Increments.Table as spec;
ghost use Rattle.semver_core.specs.Internal.IncrementSteps as steps;

use crate::increment::next::NextVersion;
use crate::increment::next_ids::NextIds;
use crate::increment::parts_ref::PartsRef;
use crate::increment::pre_release::{advance, is_kept};
use crate::increment::{IdentifierBase, IncrementError, one_more, refused_argument};
use crate::{Failure, IdentifierRefs};
use std::alloc::Global;

// The row of a word.
pub(super) fn by_word<'a>(
    alloc: Global,
    version: PartsRef<'a>,
    word: &str,
    id: &'a str,
    base: IdentifierBase,
) -> Result<NextVersion<'a>, Failure<IncrementError>>
    ensures { steps.IsAnswer
        (spec.by_word word.now id.now base (parts_ref_value version.entry)) result }
{
    let level = match word {
        "major" => return Ok(release_of(release_after(&version, Level::Major, true)?)),
        "minor" => return Ok(release_of(release_after(&version, Level::Minor, true)?)),
        "patch" => return Ok(release_of(release_after(&version, Level::Patch, true)?)),
        "premajor" => Some(Level::Major),
        "preminor" => Some(Level::Minor),
        "prepatch" => Some(Level::Patch),
        "prerelease" if version.pre_release.is_empty() => Some(Level::Patch),
        "prerelease" | "pre" => None,
        "release" => return release(alloc, version),
        _ => return Err(refused_argument(alloc, word)),
    };
    let start = match level {
        Some(level) => release_after(&version, level, false)?,
        None => version,
    };
    pre_step(alloc, start, id, base)
}

// A number that may rise.
#[derive(Clone, Copy)]
enum Level {
    Major,
    Minor,
    Patch,
}

// The next release of a level. With `own` that is a pre-release's own release, if it is of the
// level. Its build stands where it stood.
#[inline(always)]
fn release_after<'a>(
    version: &PartsRef<'a>,
    level: Level,
    own: bool,
) -> Result<PartsRef<'a>, Failure<IncrementError>>
    ensures value { ReturnsParts
        (steps.release_after level own (parts_ref_value version.now)) result }
    ensures bare { IfOk result (λ next. next.pre_release ≡ []) }
{
    let (major, minor, patch) = (version.major, version.minor, version.patch);
    let stays = own && !version.pre_release.is_empty();
    Ok(match level {
        Level::Major if stays && minor == 0 && patch == 0 => version.with_numbers(major, 0, 0),
        Level::Major => version.with_numbers(one_more(major)?, 0, 0),
        Level::Minor if stays && patch == 0 => version.with_numbers(major, minor, 0),
        Level::Minor => version.with_numbers(major, one_more(minor)?, 0),
        Level::Patch if stays => version.with_numbers(major, minor, patch),
        Level::Patch => version.with_numbers(major, minor, one_more(patch)?),
    })
}

fn release<'a>(
    alloc: Global,
    version: PartsRef<'a>,
) -> Result<NextVersion<'a>, Failure<IncrementError>>
    ensures { steps.IsAnswer (steps.by_release (parts_ref_value version.entry)) result }
{
    let is_release = version.pre_release.is_empty();
    let release = release_of(version);
    if is_release {
        let text = release.to_version(alloc)?.to_string(alloc)?;
        return Err(Failure::Refused(IncrementError::NotAPrerelease(text)));
    }
    Ok(release)
}

// The release of the same numbers.
#[inline(always)]
fn release_of<'a>(version: PartsRef<'a>) -> NextVersion<'a>
    ensures { result ≡ spec.release_of (parts_ref_value version.entry) }
{
    NextVersion::of(version, NextIds::of(IdentifierRefs::none(), None, 0))
}

// The pre-release of the same numbers that comes next.
fn pre_step<'a>(
    alloc: Global,
    version: PartsRef<'a>,
    id: &'a str,
    base: IdentifierBase,
) -> Result<NextVersion<'a>, Failure<IncrementError>>
    ensures { steps.IsAnswer (spec.pre_step id.now base (parts_ref_value version.entry)) result }
{
    let mut ids = advance(alloc, &version.pre_release, id, base)?;
    if !id.is_empty() && !is_kept(id, &ids) {
        ids = NextIds::begun(id, base);
    }
    Ok(NextVersion::of(version, ids))
}
