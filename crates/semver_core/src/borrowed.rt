// Versions that borrow their text.

ghost use Rattle.std.specs.Prelude.{◌≡◌, ◌↔◌, ◌<◌, ◌∷◌, []};
ghost use Rattle.semver_core.specs.Words.{false, HasIdentifiers, IfOk, is_listed, is_release, IsOk};
ghost use Rattle.semver_core.specs.Words.{IsTrue, IsVersion, length, listed, Numeric, OnErr, true};

pub mod dotted;
pub mod identifier;
pub mod identifiers;
mod read;

use crate::cuts::Point;
use crate::{IdentifierRefs, Version};
use std::alloc::{AllocError, Global};
use std::marker::Model;

/// A version that borrows its text: three numbers, and the texts of its pre-release and of its
/// build metadata, whose identifiers are read where they stand. So nothing is allocated.
///
/// In contracts it is the same five values as a [`Version`](crate::Version).
#[derive(Debug, Drop)]
pub struct VersionRef<'a> {
    major: u64,
    minor: u64,
    patch: u64,
    pre_release: &'a [u8],
    build: &'a [u8],
}

/// In clauses, a borrowed version is the five values of a `Version`.
impl<'a> Model for VersionRef<'a> {
    ghost use Rattle.semver_core.specs.Values.Versions.{VersionValue};

    ghost Value = { VersionValue };

    ghost use Rattle.semver_core.specs.Internal.Borrowed.{IsListed, borrowed_value};

    ghost view = { borrowed_value };

    ghost invariant = { IsListed };
}

impl<'a> VersionRef<'a> {
    /// The version of three numbers and of the identifiers that two texts spell, joined by dots, as
    /// `rc.1`. An empty text spells none.
    ///
    /// It requires that both texts spell lists, which `Identifier::is_list` tests.
    #[inline(always)]
    #[tactic(auto, using(crate::proofs::Text::Listed::listed_valid))]
    pub fn from_texts(
        major: u64,
        minor: u64,
        patch: u64,
        pre_release: &'a [u8],
        build: &'a [u8],
    ) -> VersionRef<'a>
        requires pre_release { is_listed pre_release.now ≡ true }
        requires build { is_listed build.now ≡ true }
        ensures { result ≡ record {
          major = major;
          minor = minor;
          patch = patch;
          pre_release = listed pre_release.now;
          build = listed build.now;
        } }
    {
        VersionRef {
            major,
            minor,
            patch,
            pre_release,
            build,
        }
    }

    /// A copy of the version, which borrows the same text.
    #[inline(always)]
    pub fn copy(&self) -> VersionRef<'a>
        ensures { result ≡ self.now }
    {
        VersionRef {
            major: self.major,
            minor: self.minor,
            patch: self.patch,
            pre_release: self.pre_release,
            build: self.build,
        }
    }

    /// The version without its build metadata, which borrows the text that this one borrows.
    ///
    /// ```rust
    /// let version = VersionRef::parse("1.2.3-rc.1+exp")?;
    /// assert!(rt; version.without_build().build().is_empty());
    /// ```
    #[inline(always)]
    #[tactic(auto, using(crate::proofs::Text::Ends::lists_cut))]
    pub fn without_build(&self) -> VersionRef<'a>
        ensures { result ≡ record self.now { build = [] } }
    {
        VersionRef::from_texts(self.major, self.minor, self.patch, self.pre_release, b"")
    }

    /// The version with identifiers of its own. Fails only if allocation fails, which happens only
    /// where it has a pre-release or build metadata; it never fails for the pre-release `0` alone.
    #[inline(always)]
    #[tactic(auto, using(crate::proofs::Text::Listed::listed_some))]
    pub fn to_version(&self, alloc: Global) -> Result<Version, AllocError>
        ensures whole { IfOk result (λ v. v ≡ self.now) }
        ensures memory { OnErr result (HasIdentifiers self.now) }
        ensures zero { self.now.pre_release ≡ Numeric 0 ∷ [] → self.now.build ≡ [] → IsOk result }
    {
        let (pre_release, build) = (self.pre_release, self.build);
        let (major, minor, patch) = (self.major, self.minor, self.patch);
        Version::from_texts(alloc, major, minor, patch, pre_release, build)
    }

    /// The first number, which is raised for incompatible changes.
    #[inline(always)]
    pub fn major(&self) -> u64
        ensures value { result ≡ self.now.major }
        ensures valid { IsVersion self.now }
    {
        self.major
    }

    /// The second number, which is raised for compatible additions.
    #[inline(always)]
    pub fn minor(&self) -> u64
        ensures value { result ≡ self.now.minor }
        ensures valid { IsVersion self.now }
    {
        self.minor
    }

    /// The third number, which is raised for compatible fixes.
    #[inline(always)]
    pub fn patch(&self) -> u64
        ensures value { result ≡ self.now.patch }
        ensures valid { IsVersion self.now }
    {
        self.patch
    }

    /// The identifiers of the pre-release, one by one; none where the version is a release.
    #[inline(always)]
    pub fn pre_release(&self) -> IdentifierRefs<'a>
        ensures value { result ≡ self.now.pre_release }
        ensures valid { IsVersion self.now }
    {
        IdentifierRefs::of_text(self.pre_release)
    }

    /// The identifiers of the build metadata, one by one, which no comparison looks at.
    #[inline(always)]
    pub fn build(&self) -> IdentifierRefs<'a>
        ensures value { result ≡ self.now.build }
        ensures valid { IsVersion self.now }
    {
        IdentifierRefs::of_text(self.build)
    }

    /// Whether the version is a pre-release: its list of pre-release identifiers is not empty.
    #[tactic(auto, using(crate::proofs::Text::Listed::listed_counts))]
    pub fn is_prerelease(&self) -> bool
        ensures { IsTrue result ↔ (0 < length self.now.pre_release) }
    {
        !self.pre_release.is_empty()
    }

    /// Whether the version is a release: it has no pre-release identifiers. Build metadata does not
    /// count.
    #[inline(always)]
    #[tactic(auto, using(crate::proofs::Text::Firsts::spelled_release))]
    pub fn is_release(&self) -> bool
        ensures { result ≡ is_release self.now }
    {
        self.pre_release.is_empty()
    }
}

/// A copy borrows the same text and never fails.
impl<'a> Point for VersionRef<'a> {
    ghost takes = { λ v. false };

    fn copy(&self, _alloc: Global) -> Result<VersionRef<'a>, AllocError> {
        Ok(VersionRef::copy(self))
    }
}
