//! The next version of a package, for a tool that publishes it.

ghost use Rattle.nodejs_semver.specs.Order.{precedence};
ghost use Rattle.nodejs_semver.specs.Parsing.{Parses};
ghost use Rattle.nodejs_semver.specs.Versions.{VersionValue};
ghost use Rattle.semver_core.specs.Increments.Table.{answer_of_inc};
ghost use Rattle.std.specs.Option.{option_copied};
ghost use Rattle.std.specs.Ordering.{is_lt};
ghost use Rattle.std.specs.Prelude.{◌≡◌, IfErr, IfOk, MatchResult, None, Ok, false, true};
ghost use Rattle.uses.specs.Release.{Explains};

use nodejs_semver::{Failure, IncrementError, MAX_SAFE_INTEGER, Version};
use std::alloc::Global;
use thiserror::Error;

/// Why there is no next version.
#[derive(Debug, Drop, Error)]
pub enum Refusal {
    /// The text of the current version has no version at its front, or is too long.
    #[error("the current version is no version: write three numbers, as 1.2.3")]
    NotAVersion,
    /// The word or the identifier is wrong, or a number cannot rise.
    #[error("no next version: {0}")]
    NotIncremented(IncrementError),
    /// The next version by this word is not above the current one, as by `prerelease` with `alpha`
    /// after 1.2.3-beta.0.
    #[error("the next version would not be above the current one")]
    NotAbove,
    /// An allocation failed.
    #[error("out of memory")]
    Memory,
}

/// The version to publish next, by a word such as `minor` and an identifier such as `beta`: it is
/// above the current one.
pub fn next(
    alloc: Global,
    current: &str,
    word: &str,
    identifier: Option<&str>,
) -> Result<Version, Refusal>
    ensures above { IfOk result (λ next. (v : VersionValue)
        × Parses MAX_SAFE_INTEGER current.now v
        × (answer_of_inc v word.now (option_copied identifier.entry) None ≡ Ok next)
        × (is_lt (precedence v next) ≡ true)) }
    ensures refused { IfErr result
        (Explains MAX_SAFE_INTEGER current.now word.now identifier.entry) }
{
    let version = match Version::parse(alloc, current) {
        Ok(version) => version,
        Err(Failure::Refused(_)) => return Err(Refusal::NotAVersion),
        Err(Failure::Memory(_)) => return Err(Refusal::Memory),
    };
    match version.inc(alloc, word, identifier, None) {
        Ok(next) => above(&version, next),
        Err(Failure::Refused(error)) => Err(Refusal::NotIncremented(error)),
        Err(Failure::Memory(_)) => Err(Refusal::Memory),
    }
}

// The next version, if it is above the current one.
fn above(current: &Version, next: Version) -> Result<Version, Refusal>
    ensures { MatchResult result
        (λ v. (v ≡ next) × (is_lt (precedence current.now next) ≡ true))
        (λ e. (e ≡ Refusal.NotAbove) × (is_lt (precedence current.now next) ≡ false)) }
{
    if current.cmp(&next).is_lt() {
        Ok(next)
    } else {
        Err(Refusal::NotAbove)
    }
}
