// What a range says of a version.

ghost use Rattle.std.specs.Prelude.{IfOk};
ghost use Rattle.lock_check.specs.Verdicts.{IsJudgement, IsVerdict};

use crate::reading::{NpmRange, range, version};
use nodejs_semver::{RangeRef, Version, VersionRef};
use std::alloc::{AllocError, Global};

/// What a range says of a version.
#[derive(Drop)]
pub enum Verdict {
    /// The range accepts the version.
    Accepted,
    /// The range rejects the version. The smallest version that it accepts, if it accepts any.
    Rejected(Option<Version>),
}

/// What the text of a range says of the text of a version.
#[derive(Drop)]
pub enum Judgement {
    /// The first text is no range to npm.
    NoRange,
    /// The first text may be another range to npm than it is here, or none.
    Unsure,
    /// The first text is a range, and the second one is no version.
    NoVersion,
    /// Both are read.
    Read(Verdict),
}

/// What the range says of the version. Fails only if allocation fails.
pub fn judge(
    alloc: Global,
    range: &RangeRef<'_>,
    version: &VersionRef<'_>,
) -> Result<Verdict, AllocError>
    ensures { IfOk result (IsVerdict range.now version.now) }
{
    if range.satisfies(version) {
        return Ok(Verdict::Accepted);
    }
    let smallest = range.min_version(alloc)?;
    Ok(Verdict::Rejected(smallest))
}

/// What the range of the first text says of the version that the second one is. Fails only if
/// allocation fails.
pub fn judge_texts(alloc: Global, wanted: &str, locked: &str) -> Result<Judgement, AllocError>
    ensures { IfOk result (IsJudgement wanted.now locked.now) }
{
    let range = match range(alloc, wanted)? {
        NpmRange::Read(range) => range,
        NpmRange::Rejected => return Ok(Judgement::NoRange),
        NpmRange::Unsure => return Ok(Judgement::Unsure),
    };
    let Some(version) = version(locked) else {
        return Ok(Judgement::NoVersion);
    };
    let verdict = judge(alloc, &range, &version)?;
    Ok(Judgement::Read(verdict))
}
