// Versions made of parts, taken apart and copied.

ghost use Rattle.std.specs.List.{list_all};
ghost use Rattle.std.specs.Prelude.{[], IfErr, IfOk, IsOk, length, OnErr, true, ◌+◌, ◌<◌, ◌==◌};
ghost use Rattle.std.specs.Prelude.{◌∷◌, ◌≡◌, ◌⊎◌};
ghost use Rattle.semver_core.specs.Text.Identifiers as id;
ghost use Rattle.semver_core.specs.Text.Identifiers.{is_listed, listed};
ghost use Rattle.semver_core.specs.Values.Memory.{takes_memory};
ghost use Rattle.semver_core.specs.Values.Versions.{HasIdentifiers, release_value};
ghost use Rattle.semver_core.specs.Values.Views.{ids_view, parts_value};

use crate::cuts::Point;
use crate::version::lists::{Lists, Qualifier};
use crate::{Identifier, IdentifierRefs, Version};
use std::alloc::{AllocError, Global};

/// The five values of a version, open to read and to change. Its equality counts all five, build
/// too.
#[derive(PartialEq, Eq, Debug, Drop)]
pub struct VersionParts {
    /// The major number.
    pub major: u64,
    /// The minor number.
    pub minor: u64,
    /// The patch number.
    pub patch: u64,
    /// The identifiers of the pre-release; none in a release.
    pub pre_release: Vec<Identifier>,
    /// The identifiers of the build metadata.
    pub build: Vec<Identifier>,
}

impl VersionParts {
    /// A copy of all five values. Fails only if allocation fails; empty lists allocate nothing.
    pub fn copy(&self, alloc: Global) -> Result<VersionParts, AllocError>
        ensures whole { IfOk result (λ p. parts_value p ≡ parts_value self.now) }
        ensures memory { OnErr result (HasIdentifiers (parts_value self.now)) }
    {
        let pre_release = Identifier::copy_list(alloc, &self.pre_release)?;
        let build = Identifier::copy_list(alloc, &self.build)?;
        Ok(VersionParts {
            major: self.major,
            minor: self.minor,
            patch: self.patch,
            pre_release,
            build,
        })
    }
}

impl Version {
    /// The version of these five values, whatever texts the identifiers hold: they are not read
    /// again.
    ///
    /// If allocation fails, the parts are returned to the caller. Two empty lists allocate nothing.
    pub fn new(
        alloc: Global,
        major: u64,
        minor: u64,
        patch: u64,
        pre_release: Vec<Identifier>,
        build: Vec<Identifier>,
    ) -> Result<Version, VersionParts>
        ensures ok { IfOk result (λ v. v ≡ record {
          major = major;
          minor = minor;
          patch = patch;
          pre_release = ids_view pre_release.items;
          build = ids_view build.items;
        }) }
        ensures handed_back { IfErr result (λ p. p ≡ record {
          major = major;
          minor = minor;
          patch = patch;
          pre_release = pre_release;
          build = build;
        }) }
        ensures bare { pre_release.items ≡ [] → build.items ≡ [] → IsOk result }
    {
        let (mut pre_release, mut build) = (pre_release, build);
        let pre_len = pre_release.len();
        let ids = if build.is_empty() {
            pre_release
        } else if let Ok(mut ids) = Vec::with_capacity(alloc, pre_len + build.len()) {
            let _ = ids.append(&mut pre_release);
            let _ = ids.append(&mut build);
            ids
        } else {
            return Err(VersionParts {
                major,
                minor,
                patch,
                pre_release,
                build,
            });
        };
        let lists = Qualifier::Lists(Lists { ids, pre_len });
        Ok(Version::from_parts(major, minor, patch, lists))
    }

    /// The pre-release `major.minor.patch-number`, with one identifier, which is numeric.
    ///
    /// Nothing is allocated, so it never fails.
    pub fn with_pre(
        _alloc: Global,
        major: u64,
        minor: u64,
        patch: u64,
        number: u64,
    ) -> Result<Version, AllocError>
        ensures value { IfOk result (λ v.
            v ≡ record (release_value major minor patch) { pre_release = id.Numeric number ∷ [] }) }
        ensures succeeds { IsOk result }
    {
        let one = Qualifier::One(Identifier::Numeric(number));
        Ok(Version::from_parts(major, minor, patch, one))
    }

    /// The version of three numbers and of the identifiers that two texts spell, joined by dots, as
    /// `rc.1`. An empty text spells none.
    ///
    /// It requires that both texts spell lists, which `Identifier::is_list` tests.
    ///
    /// Fails only if allocation fails, which never happens for two empty texts, nor for the
    /// pre-release `0` alone.
    ///
    /// ```rust
    /// let (pre_release, build) = (b"rc.1", b"exp");
    /// if Identifier::is_list(pre_release) && Identifier::is_list(build) {
    ///     let version = Version::from_texts(alloc, 1, 2, 3, pre_release, build).ok();
    ///     assert!(rt; version == Version::parse(alloc, "1.2.3-rc.1+exp").ok());
    /// }
    /// ```
    #[tactic(auto, using(crate::proofs::Text::Listed::zero_texts))]
    #[inline(always)]
    pub fn from_texts(
        alloc: Global,
        major: u64,
        minor: u64,
        patch: u64,
        pre_release: &[u8],
        build: &[u8],
    ) -> Result<Version, AllocError>
        requires pre_release { is_listed pre_release.now ≡ true }
        requires build { is_listed build.now ≡ true }
        ensures whole { IfOk result (λ v. v ≡ record {
          major = major;
          minor = minor;
          patch = patch;
          pre_release = listed pre_release.now;
          build = listed build.now;
        }) }
        ensures memory { OnErr result ((0 < length pre_release.now) ⊎ (0 < length build.now)) }
        ensures zero { listed pre_release.now ≡ id.Numeric 0 ∷ [] → build.now ≡ [] → IsOk result }
    {
        match (pre_release, build) {
            (b"", b"") => Ok(Version::release(major, minor, patch)),
            (text, b"") if is_zeros(text) => {
                let zero = Qualifier::One(Identifier::Numeric(0));
                Ok(Version::from_parts(major, minor, patch, zero))
            }
            _ => {
                let pre_release = IdentifierRefs::of_text(pre_release);
                let lists = Lists::copied(alloc, &pre_release, &IdentifierRefs::of_text(build))?;
                Ok(Version::from_parts(major, minor, patch, Qualifier::Lists(lists)))
            }
        }
    }

    /// The five values of the version.
    ///
    /// If allocation fails, the version is returned to the caller. A version without identifiers
    /// allocates nothing.
    ///
    /// ```rust
    /// let version = Version::parse(alloc, "1.2.3-beta.1+exp")?;
    /// match version.into_parts(alloc) {
    ///     Ok(parts) => assert!(rt; parts.patch == 3 && parts.pre_release.len() == 2),
    ///     Err(version) => assert!(rt; version.is_prerelease()),
    /// }
    /// ```
    pub fn into_parts(self, alloc: Global) -> Result<VersionParts, Version>
        ensures ok { IfOk result (λ p. parts_value p ≡ self) }
        ensures handed_back { IfErr result (λ v. v ≡ self) }
        ensures memory { OnErr result (HasIdentifiers self) }
    {
        let Version {
            major,
            minor,
            patch,
            qualifier,
        } = self;
        let split = match qualifier {
            Qualifier::Absent => Ok((Vec::new(alloc), Vec::new(alloc))),
            Qualifier::One(id) => {
                let mut one = Vec::new(alloc);
                match one.push(id) {
                    Ok(()) => Ok((one, Vec::new(alloc))),
                    Err(refused) => Err(Qualifier::One(refused.value)),
                }
            }
            Qualifier::Lists(lists) => lists.split().map_err(Qualifier::Lists),
        };
        match split {
            Ok((pre_release, build)) => Ok(VersionParts {
                major,
                minor,
                patch,
                pre_release,
                build,
            }),
            Err(qualifier) => Err(Version::from_parts(major, minor, patch, qualifier)),
        }
    }

    /// A copy of the whole version, build included. Fails only if allocation fails, which never
    /// happens for a version without identifiers, nor for one with the pre-release `0` alone.
    pub fn copy(&self, alloc: Global) -> Result<Version, AllocError>
        ensures whole { IfOk result (λ v. v ≡ self.now) }
        ensures memory { OnErr result (HasIdentifiers self.now) }
        ensures zero { self.now.pre_release ≡ id.Numeric 0 ∷ [] → self.now.build ≡ []
            → IsOk result }
    {
        let qualifier = match &self.qualifier {
            Qualifier::Absent => Qualifier::Absent,
            Qualifier::One(id) => Qualifier::One(id.copy(alloc)?),
            Qualifier::Lists(lists) => lists.copy(alloc)?,
        };
        Ok(Version::from_parts(self.major, self.minor, self.patch, qualifier))
    }
}

// Whether each byte is the digit 0: so the number 0 is spelled, as by `0` and `00`.
#[inline(always)]
fn is_zeros(text: &[u8]) -> bool
    ensures { result ≡ list_all (λ c. c == 48) text.now }
{
    text.iter().all(|byte| *byte == b'0')
}

/// A bound holds a version, in the order of versions.
impl Point for Version {
    ghost takes = { takes_memory };

    #[tactic(auto, using(crate::proofs::Taking::taking))]
    fn copy(&self, alloc: Global) -> Result<Version, AllocError> {
        Version::copy(self, alloc)
    }
}
