// The kind of difference between two versions.

ghost use Rattle.std.specs.Prelude.{◌≡◌, ◌↔◌, IsNone, Some};
ghost use Rattle.semver_core.specs.Words.{Equal, kind_between, kind_up, kind_word, precedence};

use crate::{Version, VersionRef, Versioned};
use std::cmp::Ordering;
use std::fmt;

/// A kind of difference between two versions, or of a release: what rises, and whether to a
/// pre-release.
#[derive(Clone, Copy, Debug, PartialEq, Eq, Hash)]
pub enum VersionDiff {
    /// The major number.
    Major,
    /// The minor number.
    Minor,
    /// The patch number.
    Patch,
    /// The major number, to a pre-release.
    PreMajor,
    /// The minor number, to a pre-release.
    PreMinor,
    /// The patch number, to a pre-release.
    PrePatch,
    /// The pre-release alone.
    PreRelease,
}

/// A kind of release, named as the kind of difference.
pub type ReleaseType = VersionDiff;

/// Writes the word of the kind, as `Version::inc` takes it. Width, fill and precision change
/// nothing.
impl fmt::Display for VersionDiff {
    ghost output = { λ kind. Some (kind_word kind) };

    ghost styled_output = { λ kind _. Some (kind_word kind) };

    fn fmt<W: fmt::Write>(&self, f: &mut fmt::Formatter<W>) -> fmt::Result {
        f.write_str(match self {
            VersionDiff::Major => "major",
            VersionDiff::Minor => "minor",
            VersionDiff::Patch => "patch",
            VersionDiff::PreMajor => "premajor",
            VersionDiff::PreMinor => "preminor",
            VersionDiff::PrePatch => "prepatch",
            VersionDiff::PreRelease => "prerelease",
        })
    }
}

// The kind that a version and a higher one differ by.
fn kind_up<V: Versioned>(low: &V, high: &V) -> VersionDiff
    ensures { result ≡ kind_up (V.value low.now) (V.value high.now) }
{
    let to_release = high.is_release();
    if !low.is_release() && to_release {
        return if low.minor() == 0 && low.patch() == 0 {
            VersionDiff::Major
        } else if high.patch() != 0 {
            VersionDiff::Patch
        } else if high.minor() != 0 {
            VersionDiff::Minor
        } else {
            VersionDiff::Major
        };
    }
    let (release, pre_release) = if low.major() != high.major() {
        (VersionDiff::Major, VersionDiff::PreMajor)
    } else if low.minor() != high.minor() {
        (VersionDiff::Minor, VersionDiff::PreMinor)
    } else if low.patch() != high.patch() {
        (VersionDiff::Patch, VersionDiff::PrePatch)
    } else {
        return VersionDiff::PreRelease;
    };
    if to_release { release } else { pre_release }
}

// The kind that two versions differ by.
fn kind_between<V: Versioned>(v: &V, w: &V) -> Option<VersionDiff>
    ensures { result ≡ kind_between (V.value v.now) (V.value w.now) }
{
    match v.cmp_precedence(w) {
        Ordering::Less => Some(kind_up(v, w)),
        Ordering::Equal => None,
        Ordering::Greater => Some(kind_up(w, v)),
    }
}

impl Version {
    /// The kind of difference between this version and another, in either order: `None` exactly
    /// where they are equal, so that build metadata makes no difference.
    ///
    /// A pre-release differs from a higher release by what was still to be released: by `Major`
    /// from 1.0.0-1 to any release above it. Elsewhere the first of the numbers that differs
    /// decides, and whether the higher version is a release.
    ///
    /// ```rust
    /// let beta = Version::parse(alloc, "1.3.0-beta")?;
    /// let kind = Version::from((1u64, 2, 3)).diff(&beta);
    /// assert!(rt; kind == Some(VersionDiff::PreMinor));
    /// ```
    #[tactic(auto, using(crate::proofs::Values::Compared::difference_symmetric))]
    pub fn diff(&self, other: &Version) -> Option<VersionDiff>
        ensures value { result ≡ kind_between self.now other.now }
        ensures none { IsNone result ↔ (precedence self.now other.now ≡ Equal) }
        ensures symmetric { result ≡ kind_between other.now self.now }
    {
        kind_between(self, other)
    }
}

impl<'a> VersionRef<'a> {
    /// The kind of difference between this version and another, as `Version::diff` returns it.
    #[tactic(auto, using(crate::proofs::Values::Compared::difference_symmetric))]
    pub fn diff(&self, other: &VersionRef<'_>) -> Option<VersionDiff>
        ensures value { result ≡ kind_between self.now other.now }
        ensures none { IsNone result ↔ (precedence self.now other.now ≡ Equal) }
        ensures symmetric { result ≡ kind_between other.now self.now }
    {
        kind_between(self, other)
    }
}
