// The versions and ranges of a question's texts, and the fault where a text is none.

ghost use Rattle.std.specs.Prelude.{ℕ, List};
ghost use Rattle.semver_answers.specs.Replies.{IsRangeOf, IsVersionOf};
ghost use Rattle.semver_answers.specs.Internal.Results.{IsReadAs, ParsesRange, ParsesVersion};

use crate::fault::Fault;
use nodejs_semver::{Failure, RangeRef, SemverError, VersionRef};
use std::alloc::AllocError;

/// The version that was parsed, where it stands.
#[inline(always)]
pub(crate) fn version_of<'p, 'a>(
    parsed: &'p Result<VersionRef<'a>, SemverError>,
) -> Result<&'p VersionRef<'a>, Failure<Fault>>
    ensures { (text : List ℕ) → ParsesVersion text parsed.now
        → IsReadAs (λ v. v.now) result (IsVersionOf text) }
{
    match parsed {
        Ok(version) => Ok(version),
        Err(SemverError) => Err(Failure::Refused(Fault::BadVersion)),
    }
}

/// The range that was read, where it stands.
#[inline(always)]
pub(crate) fn range_of<'p, 'a>(
    parsed: &Result<&'p RangeRef<'a>, Failure<SemverError>>,
) -> Result<&'p RangeRef<'a>, Failure<Fault>>
    ensures { (text : List ℕ) → ParsesRange text parsed.now
        → IsReadAs (λ r. r.now) result (IsRangeOf text) }
{
    match parsed {
        Ok(range) => Ok(*range),
        Err(Failure::Refused(_)) => Err(Failure::Refused(Fault::BadRange)),
        Err(Failure::Memory(_)) => Err(Failure::Memory(AllocError)),
    }
}
