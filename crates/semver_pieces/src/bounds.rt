// Comparators, and the two bounds of an interval that a word of a range text names.

ghost use Rattle.std.specs.Prelude.{◌+◌, ◌≡◌, ◌≤◌};
ghost use Rattle.semver_core.specs.Words.{lowest, release_value};
ghost use Rattle.semver_pieces.specs.Internal.Views.{bounds_view};
ghost use Rattle.semver_core.specs.declared.TheConstants.{MAX_SAFE_INTEGER};

use semver_core::VersionRef;
use semver_core::cuts::Bound;

/// A comparator of a range text.
#[derive(Clone, Copy)]
pub enum Comparator {
    AtLeast,
    Above,
    Equal,
    AtMost,
    Below,
}

/// The two bounds that a word of a range text names.
#[derive(Drop)]
pub struct Bounds<'a> {
    pub lower: Bound<VersionRef<'a>>,
    pub upper: Bound<VersionRef<'a>>,
}

/// Returns the version `major.minor.patch`.
#[inline(always)]
#[tactic(auto, using(semver_core::proofs::Reading::IdentifierLists::short_lists))]
pub fn release(major: u64, minor: u64, patch: u64) -> VersionRef<'static>
    ensures { result ≡ release_value major minor patch }
{
    VersionRef::from_texts(major, minor, patch, b"", b"")
}

/// Returns the version `major.minor.patch-0`.
#[inline(always)]
#[tactic(auto, using(semver_core::proofs::Reading::IdentifierLists::short_lists))]
pub fn lowest(major: u64, minor: u64, patch: u64) -> VersionRef<'static>
    ensures { result ≡ lowest major minor patch }
{
    VersionRef::from_texts(major, minor, patch, b"0", b"")
}

impl<'a> Bounds<'a> {
    /// `>=version`
    #[inline(always)]
    pub fn at_least(version: VersionRef<'a>) -> Bounds<'a>
        ensures { bounds_view result
            ≡ record { lower = Bound.Before version.entry; upper = Bound.Unbounded } }
    {
        Bounds {
            lower: Bound::Before(version),
            upper: Bound::Unbounded,
        }
    }

    /// `>version`
    #[inline(always)]
    pub fn above(version: VersionRef<'a>) -> Bounds<'a>
        ensures { bounds_view result
            ≡ record { lower = Bound.After version.entry; upper = Bound.Unbounded } }
    {
        Bounds {
            lower: Bound::After(version),
            upper: Bound::Unbounded,
        }
    }

    /// `<version`
    #[inline(always)]
    pub fn below(version: VersionRef<'a>) -> Bounds<'a>
        ensures { bounds_view result
            ≡ record { lower = Bound.Unbounded; upper = Bound.Before version.entry } }
    {
        Bounds {
            lower: Bound::Unbounded,
            upper: Bound::Before(version),
        }
    }

    /// `<=version`
    #[inline(always)]
    pub fn at_most(version: VersionRef<'a>) -> Bounds<'a>
        ensures { bounds_view result
            ≡ record { lower = Bound.Unbounded; upper = Bound.After version.entry } }
    {
        Bounds {
            lower: Bound::Unbounded,
            upper: Bound::After(version),
        }
    }

    /// `>=first <end`
    #[inline(always)]
    pub fn between(first: VersionRef<'a>, end: VersionRef<'a>) -> Bounds<'a>
        ensures { bounds_view result
            ≡ record { lower = Bound.Before first.entry; upper = Bound.Before end.entry } }
    {
        Bounds {
            lower: Bound::Before(first),
            upper: Bound::Before(end),
        }
    }

    /// `>=first <=last`
    #[inline(always)]
    pub fn through(first: VersionRef<'a>, last: VersionRef<'a>) -> Bounds<'a>
        ensures { bounds_view result
            ≡ record { lower = Bound.Before first.entry; upper = Bound.After last.entry } }
    {
        Bounds {
            lower: Bound::Before(first),
            upper: Bound::After(last),
        }
    }

    /// `>=major.0.0 <(major+1).0.0-0`
    #[inline(always)]
    pub fn whole_major(major: u64) -> Bounds<'a>
        requires { major ≤ MAX_SAFE_INTEGER }
        ensures { bounds_view result ≡ record {
          lower = Bound.Before (release_value major 0 0);
          upper = Bound.Before (lowest (major + 1) 0 0);
        } }
    {
        Bounds::between(release(major, 0, 0), lowest(major + 1, 0, 0))
    }

    /// `>=major.minor.0 <major.(minor+1).0-0`
    #[inline(always)]
    pub fn whole_minor(major: u64, minor: u64) -> Bounds<'a>
        requires { minor ≤ MAX_SAFE_INTEGER }
        ensures { bounds_view result ≡ record {
          lower = Bound.Before (release_value major minor 0);
          upper = Bound.Before (lowest major (minor + 1) 0);
        } }
    {
        Bounds::between(release(major, minor, 0), lowest(major, minor + 1, 0))
    }
}
