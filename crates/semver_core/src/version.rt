// Versions: five values.

ghost use Rattle.std.specs.Prelude.{All, IfOk, IsTrue, length, Some, ◌<◌, ◌↔◌, ◌≡◌};
ghost use Rattle.semver_core.specs.Failures.{MemoryOnlyIf, NoValue, RefusedOnlyIf};
ghost use Rattle.semver_core.specs.Internal.Inside.{build_of, IsFull, pre_release_of};
ghost use Rattle.semver_core.specs.Values.Versions.{HasIdentifiers, release_value, VersionValue};
ghost use Rattle.semver_core.specs.Values.Versions.{is_release, IsId, IsVersion};
ghost use Rattle.semver_core.specs.Values.Views.{id_view, ids_view};
ghost use Rattle.semver_core.specs.{Text.Parsing.Parses, Text.VersionText.Reads};

pub mod accepts;
mod convert;
pub(crate) mod lists;
pub mod parts;
pub(crate) mod precedence;
pub mod versioned;

use crate::readers::version_loose;
use crate::version::lists::Qualifier;
use crate::{Failure, Identifier, MAX_LENGTH, MAX_SAFE_INTEGER, SemverError};
use std::alloc::Global;
use std::marker::Model;
use std::slice;

/// A version: three numbers, a pre-release and build metadata (SemVer 2.0.0).
///
/// Two versions are equal, and hash alike, where their numbers and pre-releases are: build metadata
/// does not count. The numbers are of 64 bits; those that are read from a text are at most
/// `MAX_SAFE_INTEGER`.
#[derive(Debug, Drop)]
pub struct Version {
    major: u64,
    minor: u64,
    patch: u64,
    qualifier: Qualifier,
}

/// In clauses, a version is its five values.
impl Model for Version {
    ghost use Rattle.semver_core.specs.Values.Versions.{VersionValue};

    ghost Value = { VersionValue };

    ghost use Rattle.semver_core.specs.Internal.Inside.{value_of, IsValid};

    ghost view = { value_of };

    ghost invariant = { IsValid };
}

impl Version {
    /// Reads the version at the front of a text of at most `MAX_LENGTH` bytes.
    ///
    /// The version is `v` or `V` or nothing, whitespace or none, three numbers joined by dots, a
    /// pre-release (behind `-`, which may be missing) and build metadata (behind `+`), as
    /// node-semver's loose grammar has it. Whatever follows is ignored: `1.2.3.4` is read as
    /// `1.2.3`.
    ///
    /// Returns `Refused` exactly if the text is longer or has no version at its front, and `Memory`
    /// only if the version has a pre-release or build metadata.
    ///
    /// ```rust
    /// let version = Version::parse(alloc, "v1.2.3-beta.1, the second beta")?;
    /// assert!(rt; version == Version::parse(alloc, "1.2.3-beta.1+another.build")?);
    /// assert!(rt; Version::parse(alloc, "1.2").is_err());
    /// ```
    #[inline(always)]
    #[tactic(auto, using(crate::proofs::Text::Ends::parsed))]
    pub fn parse(alloc: Global, text: &str) -> Result<Version, Failure<SemverError>>
        // What is read is a version of the text.
        ensures ok { IfOk result (λ v. Parses MAX_SAFE_INTEGER text.now v) }
        // The text is rejected only if it is too long or has no version at its front.
        ensures refused { RefusedOnlyIf result (NoValue (Parses MAX_SAFE_INTEGER text.now)) }
        // Allocation fails only for a version with identifiers.
        ensures memory { MemoryOnlyIf result
            ((v : VersionValue) × Parses MAX_SAFE_INTEGER text.now v × HasIdentifiers v) }
    {
        if text.len() > MAX_LENGTH {
            return Err(Failure::Refused(SemverError));
        }
        version_loose(alloc, text)?.ok_or(Failure::Refused(SemverError))
    }

    // The release of three numbers.
    #[inline(always)]
    pub(crate) fn release(major: u64, minor: u64, patch: u64) -> Version
        ensures { result ≡ release_value major minor patch }
    {
        Version {
            major,
            minor,
            patch,
            qualifier: Qualifier::Absent,
        }
    }

    // The version of three numbers and of what stands behind them.
    #[inline(always)]
    pub(crate) fn from_parts(major: u64, minor: u64, patch: u64, qualifier: Qualifier) -> Version
        requires { IsFull qualifier }
        ensures { result ≡ record (release_value major minor patch)
            { pre_release = pre_release_of qualifier; build = build_of qualifier } }
    {
        match &qualifier {
            Qualifier::Absent => {}
            Qualifier::One(id) => is_id(id),
            Qualifier::Lists(lists) => are_ids(&lists.ids),
        }
        Version {
            major,
            minor,
            patch,
            qualifier,
        }
    }

    /// The first number, which is raised for incompatible changes.
    pub fn major(&self) -> u64
        ensures value { result ≡ self.now.major }
        ensures valid { IsVersion self.now }
    {
        self.major
    }

    /// The second number, which is raised for compatible additions.
    pub fn minor(&self) -> u64
        ensures value { result ≡ self.now.minor }
        ensures valid { IsVersion self.now }
    {
        self.minor
    }

    /// The third number, which is raised for compatible fixes.
    pub fn patch(&self) -> u64
        ensures value { result ≡ self.now.patch }
        ensures valid { IsVersion self.now }
    {
        self.patch
    }

    /// The identifiers of the pre-release; none where the version is a release.
    #[tactic(auto, using(crate::proofs::Values::Lists::front_view))]
    pub fn pre_release(&self) -> &[Identifier]
        ensures value { ids_view result.now ≡ self.now.pre_release }
        ensures valid { IsVersion self.now }
    {
        match &self.qualifier {
            Qualifier::Absent => &[],
            Qualifier::One(id) => slice::from_ref(id),
            Qualifier::Lists(lists) => &lists.ids[..lists.pre_len],
        }
    }

    /// The identifiers of the build metadata, which no comparison looks at.
    #[tactic(auto, using(crate::proofs::Values::Lists::rest_view))]
    pub fn build(&self) -> &[Identifier]
        ensures value { ids_view result.now ≡ self.now.build }
        ensures valid { IsVersion self.now }
    {
        match &self.qualifier {
            Qualifier::Absent | Qualifier::One(_) => &[],
            Qualifier::Lists(lists) => &lists.ids[lists.pre_len..],
        }
    }

    /// Whether the version is a pre-release: its list of pre-release identifiers is not empty.
    pub fn is_prerelease(&self) -> bool
        ensures { IsTrue result ↔ (0 < length self.now.pre_release) }
    {
        !self.pre_release().is_empty()
    }

    /// Whether the version is a release: it has no pre-release identifiers. Build metadata does not
    /// count.
    pub fn is_release(&self) -> bool
        ensures { result ≡ is_release self.now }
    {
        self.pre_release().is_empty()
    }
}

// Proof helper: every `Identifier` of the program satisfies `IsId`. The read of the number has no
// effect at run time; it tells the proof that the number has 64 bits.
#[inline(always)]
fn is_id(id: &Identifier)
    ensures { IsId (id_view id.now) }
{
    match id {
        Identifier::Numeric(value) => {
            let _value = *value;
        }
        Identifier::AlphaNumeric(_) => {}
    }
}

// Proof helper: likewise each identifier of a list. The loop has no effect, so that the compiler
// drops it.
#[inline(always)]
fn are_ids(list: &[Identifier])
    ensures { All IsId (ids_view list.now) }
{
    'ids: for id in list {
        is_id(id);
    }
}
