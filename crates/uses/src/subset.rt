//! Whether one range accepts all that another accepts, over their texts.

ghost use Rattle.nodejs_semver.specs.Cuts.{Span};
ghost use Rattle.nodejs_semver.specs.Failures.{MemoryOnlyIf, RefusedOnlyIf};
ghost use Rattle.nodejs_semver.specs.Ranges.Subsets.{MayTakeMemory};
ghost use Rattle.nodejs_semver.specs.Text.Meaning.{Means};
ghost use Rattle.nodejs_semver.specs.Versions.{VersionValue};
ghost use Rattle.std.specs.Prelude.{◌⊎◌, [], IfOk, List};
ghost use Rattle.uses.specs.Subset.{IsAnswer, TakesReading};

use nodejs_semver::{Failure, MAX_SAFE_INTEGER, Range, SemverError, Version};
use std::alloc::Global;

/// Whether a range accepts all that another accepts.
#[derive(Drop)]
pub enum Answer {
    /// The second range accepts every version that the first one accepts.
    Subset,
    /// The smallest version that the first range accepts and the second does not.
    Witness(Version),
}

/// Whether the range of the second text accepts every version that the range of the first one
/// accepts, by `satisfies`. Returns `Refused` only if one of the texts is no range. Memory is
/// missing only where reading one of them takes some, or where a witness has to be made.
pub fn compare(alloc: Global, first: &str, second: &str) -> Result<Answer, Failure<SemverError>>
    ensures ok { IfOk result (λ answer. (one other : List (Span VersionValue))
        × Means MAX_SAFE_INTEGER first.now one × Means MAX_SAFE_INTEGER second.now other
        × IsAnswer one other answer) }
    ensures refused { RefusedOnlyIf result (Means MAX_SAFE_INTEGER first.now []
        ⊎ Means MAX_SAFE_INTEGER second.now []) }
    ensures memory { MemoryOnlyIf result (TakesReading first.now ⊎ TakesReading second.now
        ⊎ ((one other : List (Span VersionValue)) × Means MAX_SAFE_INTEGER first.now one
        × Means MAX_SAFE_INTEGER second.now other × MayTakeMemory one other)) }
{
    let first = Range::parse(alloc, first)?;
    let second = Range::parse(alloc, second)?;
    match first.least_beyond(alloc, &second)? {
        None => Ok(Answer::Subset),
        Some(witness) => Ok(Answer::Witness(witness)),
    }
}
