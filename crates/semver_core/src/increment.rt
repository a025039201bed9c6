// Increments: the next version by a word, as release tools ask for it.

ghost use Rattle.std.specs.Prelude.{◌≡◌, ◌≢◌, if◌then◌else◌};
ghost use Rattle.semver_core.specs.Words.{False, fault_of, HasIdentifiers, IfOk, MayAllocate};
ghost use Rattle.semver_core.specs.Words.{MemoryOnlyIf, OnErr, option_copied, parts_ref_value};
ghost use Rattle.semver_core.specs.Words.{RefusedWith, Returns, Value};
ghost use Rattle.semver_core.specs.Increments.Table as spec;
ghost use Rattle.semver_core.specs.Internal.IncrementSteps as steps;

use crate::increment::levels::by_word;
use crate::increment::next::NextVersion;
use crate::increment::parts_ref::PartsRef;
use crate::{Failure, Identifier, Version, VersionRef};
use std::alloc::{AllocError, Global};
use thiserror::Error;

mod levels;
pub mod next;
pub mod next_ids;
mod parts_ref;
mod pre_release;

/// What a new pre-release list begins to count with.
///
/// `Value(0)` counts from 0 and every other value counts from 1. The default is `Value(0)`.
#[derive(Clone, Copy, Debug, PartialEq, Eq)]
pub enum IdentifierBase {
    /// No number stands after a new identifier.
    False,
    /// A number stands after a new identifier.
    Value(u64),
}

/// The default is `Value(0)`.
impl Default for IdentifierBase {
    ghost is_default = { λ base. base ≡ Value 0 };

    fn default() -> IdentifierBase {
        IdentifierBase::Value(0)
    }
}

/// `true` counts from 1, and `false` is `False`.
impl From<bool> for IdentifierBase {
    ghost from_gives = { λ flag base. base ≡ (if flag then Value 1 else False) };

    fn from(flag: bool) -> IdentifierBase {
        if flag {
            IdentifierBase::Value(1)
        } else {
            IdentifierBase::False
        }
    }
}

/// The value itself. A literal needs a suffix, since there is an impl for each unsigned type:
/// `IdentifierBase::from(1u64)`.
impl From<u64> for IdentifierBase {
    ghost from_gives = { λ value base. base ≡ Value value };

    fn from(value: u64) -> IdentifierBase {
        IdentifierBase::Value(value)
    }
}

/// The value itself.
impl From<usize> for IdentifierBase {
    ghost from_gives = { λ value base. base ≡ Value value };

    fn from(value: usize) -> IdentifierBase {
        IdentifierBase::Value(value as u64)
    }
}

/// Why `Version::inc` returns no version.
#[derive(Debug, Drop, PartialEq, Eq, Error)]
pub enum IncrementError {
    /// The identifier is not non-empty runs of ASCII letters, digits and `-`, joined by `.`.
    #[error("invalid identifier: {0}")]
    InvalidIdentifier(String),
    /// The word is unknown, there is nothing to put into a pre-release, or the identifier is there
    /// already.
    #[error("invalid increment argument: {0}")]
    InvalidIncrementArgument(String),
    /// `release` was asked of a version that is one. It holds the printed version.
    #[error("version {0} is not a prerelease")]
    NotAPrerelease(String),
    /// A number that was to rise is `u64::MAX`.
    #[error("increment would overflow a version component")]
    Overflow,
}

impl IncrementError {
    /// A copy of the error. Fails only if allocation fails; copying `Overflow` never does.
    pub fn copy(&self, alloc: Global) -> Result<IncrementError, AllocError>
        ensures whole { IfOk result (λ e. fault_of e ≡ fault_of self.now) }
        ensures memory { OnErr result (fault_of self.now ≢ spec.Overflow) }
    {
        Ok(match self {
            Self::InvalidIdentifier(text) => Self::InvalidIdentifier(text.clone()?),
            Self::InvalidIncrementArgument(text) => Self::InvalidIncrementArgument(text.clone()?),
            Self::NotAPrerelease(text) => Self::NotAPrerelease(text.clone()?),
            Self::Overflow => Self::Overflow,
        })
    }
}

// One more, in 64 bits.
fn one_more(n: u64) -> Result<u64, Failure<IncrementError>>
    ensures value { Returns (spec.one_more n) result }
    ensures memory { MemoryOnlyIf result ⊥ }
{
    match n.checked_add(1) {
        Some(more) => Ok(more),
        None => Err(Failure::Refused(IncrementError::Overflow)),
    }
}

// The error for an argument, with its text.
fn refused_argument(alloc: Global, text: &str) -> Failure<IncrementError>
    ensures { RefusedWith (spec.InvalidIncrementArgument text.now) result }
{
    match String::from_str(alloc, text) {
        Ok(text) => Failure::Refused(IncrementError::InvalidIncrementArgument(text)),
        Err(error) => Failure::Memory(error),
    }
}

// The two checks of a word that begins with `pre`.
#[tactic(auto, unfolding(crate::specs::Text::Identifiers::is_listed))]
fn check(alloc: Global, id: &str, base: IdentifierBase) -> Result<(), Failure<IncrementError>>
    ensures value { Returns (spec.checked id.now base) result }
    ensures memory { MemoryOnlyIf result (MayAllocate (λ none. ⊥) (spec.checked id.now base)) }
{
    if id.is_empty() && matches!(base, IdentifierBase::False) {
        Err(refused_argument(alloc, "identifier is empty"))
    } else if Identifier::is_list(id.as_bytes()) {
        Ok(())
    } else {
        let id = String::from_str(alloc, id)?;
        Err(Failure::Refused(IncrementError::InvalidIdentifier(id)))
    }
}

// The checks of a word that begins with `pre`, and then the word. No identifier is an empty one,
// and no base is `Value(0)`.
fn next_of<'a>(
    alloc: Global,
    version: PartsRef<'a>,
    word: &str,
    identifier: Option<&'a str>,
    base: Option<IdentifierBase>,
) -> Result<NextVersion<'a>, Failure<IncrementError>>
    ensures { steps.IsAnswer (spec.answer_of_inc (parts_ref_value version.entry) word.now
        (option_copied identifier.entry) base) result }
{
    let id = identifier.unwrap_or("");
    let base = base.unwrap_or_default();
    if word.as_bytes().starts_with(b"pre") {
        check(alloc, id, base)?;
    }
    by_word(alloc, version, word, id, base)
}

impl Version {
    /// The next version by a word, as npm counts versions. This version is not changed.
    ///
    /// | word | the next version |
    /// |---|---|
    /// | `major` | the smallest `n.0.0` above: 2.0.0 after 1.2.3, and 1.0.0 after 1.0.0-1 |
    /// | `minor` | the smallest release above with patch 0 in the same major |
    /// | `patch` | the smallest release above in the same major and minor |
    /// | `premajor`, `preminor`, `prepatch` | the first pre-release of the next such version |
    /// | `prerelease` | the next pre-release: 1.2.4-0 after 1.2.3, and 1.2.3-a.1 after 1.2.3-a.0 |
    /// | `pre` | the next pre-release of the same three numbers, which for a release is below it |
    /// | `release` | this pre-release's release |
    ///
    /// Build metadata is kept. The words that begin with `pre` and are in the table let the
    /// pre-release list go on, in two steps. First the last number in it rises by one; a list
    /// without a number gets one at its end. Then, with an identifier, a list that does not begin
    /// with it and a number is replaced by it and a number. A new number is 0, or 1 for a base that
    /// is neither `False` nor `Value(0)`; with `False` no number follows a new identifier. An empty
    /// identifier is none, and no base is `Value(0)`. An identifier with dots or of digits alone
    /// becomes one `AlphaNumeric`, so the result may differ from its own printed text read again.
    ///
    /// These errors are checked in this order:
    /// - for a word that begins with `pre`, known or not: `InvalidIncrementArgument` if there is no
    /// identifier and the base is `False`, and `InvalidIdentifier` if the identifier is not
    /// non-empty runs of ASCII letters, digits and `-` joined by `.`;
    /// - `InvalidIncrementArgument` if the word is not in the table;
    /// - `NotAPrerelease` if the word is `release` and this version is a release;
    /// - `Overflow` if a number that is to rise is `u64::MAX`;
    /// - `InvalidIncrementArgument` if the base is `False` and the identifier is the whole list
    /// already.
    ///
    /// If an allocation fails, it returns `Memory` in their place or in place of the version. That
    /// happens only if the next version has a pre-release or build metadata, or if the error holds
    /// a text: never in place of `Overflow`.
    ///
    /// ```rust
    /// let release = Version::from((1u64, 2, 3));
    /// let beta = release.inc(alloc, "prerelease", Some("beta"), None).ok();
    /// assert!(rt; beta == Version::parse(alloc, "1.2.4-beta.0").ok());
    /// ```
    pub fn inc(
        &self,
        alloc: Global,
        word: &str,
        identifier: Option<&str>,
        base: Option<IdentifierBase>,
    ) -> Result<Version, Failure<IncrementError>>
        // It returns what the table says; `laws::least_increments` says which versions these are.
        ensures value { Returns
            (spec.answer_of_inc self.now word.now (option_copied identifier.entry) base) result }
        // Allocation fails only for a version with identifiers or for an error that holds a text,
        // and never in place of `Overflow`.
        ensures memory { let answer = spec.answer_of_inc self.now word.now
            (option_copied identifier.entry) base in
            MemoryOnlyIf result ((answer ≢ Err spec.Overflow) × IfOk answer HasIdentifiers) }
    {
        let next = next_of(alloc, PartsRef::of(self), word, identifier, base)?;
        Ok(next.to_version(alloc)?)
    }
}

impl<'a> VersionRef<'a> {
    /// The next version by a word, as `Version::inc` returns it, its identifiers where they stand:
    /// in the text of this version and in the asked identifier. Nothing is allocated, but for the
    /// text that an error holds.
    ///
    /// ```rust
    /// let candidate = VersionRef::parse("1.2.3-rc.1")?;
    /// let next = candidate.next(alloc, "prerelease", None, None)?;
    /// assert!(rt; next.to_version(alloc)? == Version::parse(alloc, "1.2.3-rc.2")?);
    /// ```
    #[inline(always)]
    pub fn next(
        &self,
        alloc: Global,
        word: &str,
        identifier: Option<&'a str>,
        base: Option<IdentifierBase>,
    ) -> Result<NextVersion<'a>, Failure<IncrementError>>
        // It returns what the table says; `laws::least_increments` says which versions these are.
        ensures value { Returns
            (spec.answer_of_inc self.now word.now (option_copied identifier.entry) base) result }
        // Allocation fails only for an error that holds a text, and never in place of `Overflow`.
        ensures memory { let answer = spec.answer_of_inc self.now word.now
            (option_copied identifier.entry) base in
            MemoryOnlyIf result ((answer ≢ Err spec.Overflow) × IfOk answer (λ next. ⊥)) }
    {
        next_of(alloc, PartsRef::of_ref(self), word, identifier, base)
    }

    /// The next version by a word, as `Version::inc` returns it. It has identifiers of its own.
    ///
    /// ```rust
    /// let release = VersionRef::parse("1.2.3")?;
    /// let beta = release.inc(alloc, "prerelease", Some("beta"), None).ok();
    /// assert!(rt; beta == Version::parse(alloc, "1.2.4-beta.0").ok());
    /// ```
    pub fn inc(
        &self,
        alloc: Global,
        word: &str,
        identifier: Option<&str>,
        base: Option<IdentifierBase>,
    ) -> Result<Version, Failure<IncrementError>>
        // It returns what the table says; `laws::least_increments` says which versions these are.
        ensures value { Returns
            (spec.answer_of_inc self.now word.now (option_copied identifier.entry) base) result }
        // Allocation fails only for a version with identifiers or for an error that holds a text,
        // and never in place of `Overflow`.
        ensures memory { let answer = spec.answer_of_inc self.now word.now
            (option_copied identifier.entry) base in
            MemoryOnlyIf result ((answer ≢ Err spec.Overflow) × IfOk answer HasIdentifiers) }
    {
        let next = next_of(alloc, PartsRef::of_ref(self), word, identifier, base)?;
        Ok(next.to_version(alloc)?)
    }
}
