// Versions ask a set whether it accepts them.

ghost use Rattle.std.specs.Prelude.{◌≡◌};
ghost use Rattle.semver_core.specs.Words.{Bool, false, VersionValue};

use crate::{Version, VersionRef};

/// A set of versions that is asked one by one, as a range is.
///
/// An impl needs the method and the ghost member `accepts`, a function of the set, the version as
/// the contracts see it (`VersionValue`: five values) and the flag. The proof is that the method
/// returns what the member says. For instance:
///
/// ```
/// ghost use Rattle.std.specs.Prelude.{◌==◌};
///
/// // All versions of one major number.
/// struct Major(u64);
///
/// impl Accepts for Major {
///     ghost accepts = { λ set version include_prerelease. version.major == set.0 };
///
///     fn accepts(&self, version: &Version, _include_prerelease: bool) -> bool {
///         version.major() == self.0
///     }
/// }
/// ```
pub trait Accepts {
    /// Whether the set accepts a version; the flag includes pre-releases.
    ghost accepts: { Self → VersionValue → Bool → Bool };

    /// Whether the set accepts this version. The flag says whether pre-releases are included. What
    /// that changes is for the set to say: a range otherwise accepts a pre-release only where it
    /// names one of the same three numbers.
    fn accepts(&self, version: &Version, include_prerelease: bool) -> bool
        ensures { result ≡ accepts self.now version.now include_prerelease };
}

/// A set of versions that is asked about borrowed ones, as a borrowed range is. An impl needs what
/// one of [`Accepts`] needs.
pub trait AcceptsRef {
    /// Whether the set accepts a version; the flag includes pre-releases.
    ghost accepts: { Self → VersionValue → Bool → Bool };

    /// Whether the set accepts this version, as `Accepts::accepts` says.
    fn accepts(&self, version: &VersionRef<'_>, include_prerelease: bool) -> bool
        ensures { result ≡ accepts self.now version.now include_prerelease };
}

impl Version {
    /// Whether the set accepts this version, pre-releases not being included: `set.accepts(version,
    /// false)`. For a range see its own `satisfies`, which is the same question the other way
    /// round.
    pub fn satisfies<R: Accepts>(&self, range: &R) -> bool
        ensures { result ≡ R.accepts range.now self.now false }
    {
        range.accepts(self, false)
    }

    /// Whether the set accepts this version: `set.accepts(version, include_prerelease)`.
    pub fn satisfies_with_prerelease<R: Accepts>(&self, range: &R, include_prerelease: bool) -> bool
        ensures { result ≡ R.accepts range.now self.now include_prerelease }
    {
        range.accepts(self, include_prerelease)
    }
}

impl<'a> VersionRef<'a> {
    /// Whether the set accepts this version, pre-releases not being included, as
    /// `Version::satisfies` says.
    pub fn satisfies<R: AcceptsRef>(&self, range: &R) -> bool
        ensures { result ≡ R.accepts range.now self.now false }
    {
        self.satisfies_with_prerelease(range, false)
    }

    /// Whether the set accepts this version: `set.accepts(version, include_prerelease)`.
    pub fn satisfies_with_prerelease<R: AcceptsRef>(
        &self,
        range: &R,
        include_prerelease: bool,
    ) -> bool
        ensures { result ≡ R.accepts range.now self.now include_prerelease }
    {
        range.accepts(self, include_prerelease)
    }
}
