// The next version, its identifiers where they stand.

ghost use Rattle.std.specs.Prelude.{◌≡◌, IfOk, OnErr};
ghost use Rattle.semver_core.specs.Words.{HasIdentifiers, release_value};

use crate::increment::next_ids::NextIds;
use crate::increment::parts_ref::PartsRef;
use crate::version::lists::{Lists, Qualifier};
use crate::{IdentifierRefs, Version};
use std::alloc::{AllocError, Global};
use std::marker::Model;

/// The next version, as [`VersionRef::next`](crate::VersionRef::next) returns it. Its identifiers
/// are those of the version before it, where they stand, and the asked one; so nothing is
/// allocated.
///
/// In contracts it is the same five values as a [`Version`](crate::Version).
#[derive(Debug, Drop)]
pub struct NextVersion<'a> {
    major: u64,
    minor: u64,
    patch: u64,
    pre_release: NextIds<'a>,
    build: IdentifierRefs<'a>,
}

/// In clauses, the next version is the five values of a `Version`.
impl<'a> Model for NextVersion<'a> {
    ghost use Rattle.semver_core.specs.Values.Versions.{VersionValue};

    ghost Value = { VersionValue };

    ghost use Rattle.semver_core.specs.Internal.NextValue.{next_value};

    ghost view = { next_value };
}

impl<'a> NextVersion<'a> {
    // The version of the same numbers and build with this pre-release.
    #[inline(always)]
    pub(super) fn of(version: PartsRef<'a>, pre_release: NextIds<'a>) -> NextVersion<'a>
        ensures { result ≡ record (release_value version.entry.major version.entry.minor
            version.entry.patch) { pre_release = pre_release.entry; build = version.entry.build } }
    {
        NextVersion {
            major: version.major,
            minor: version.minor,
            patch: version.patch,
            pre_release,
            build: version.build,
        }
    }

    /// The version with identifiers of its own. Fails only if allocation fails, which happens only
    /// where it has a pre-release or build metadata.
    pub fn to_version(&self, alloc: Global) -> Result<Version, AllocError>
        ensures whole { IfOk result (λ v. v ≡ self.now) }
        ensures memory { OnErr result (HasIdentifiers self.now) }
    {
        let ids = &self.pre_release;
        let qualifier = if !self.build.is_empty() {
            Qualifier::Lists(Lists::with_build(alloc, ids.to_list(alloc)?, &self.build)?)
        } else {
            ids.to_qualifier(alloc)?
        };
        Ok(Version::from_parts(self.major, self.minor, self.patch, qualifier))
    }

    /// The first number.
    #[inline(always)]
    pub fn major(&self) -> u64
        ensures { result ≡ self.now.major }
    {
        self.major
    }

    /// The second number.
    #[inline(always)]
    pub fn minor(&self) -> u64
        ensures { result ≡ self.now.minor }
    {
        self.minor
    }

    /// The third number.
    #[inline(always)]
    pub fn patch(&self) -> u64
        ensures { result ≡ self.now.patch }
    {
        self.patch
    }

    /// The identifiers of the pre-release, one by one; none where the version is a release.
    #[inline(always)]
    pub fn pre_release(&self) -> NextIds<'a>
        ensures { result ≡ self.now.pre_release }
    {
        self.pre_release.copy()
    }

    /// The identifiers of the build metadata, one by one.
    #[inline(always)]
    pub fn build(&self) -> IdentifierRefs<'a>
        ensures { result ≡ self.now.build }
    {
        self.build.copy()
    }
}
