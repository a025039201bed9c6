// Whether one range is part of another, and whether two accept the same versions.

ghost use Rattle.std.specs.Prelude.{◌<◌, ◌↔◌, ◌⊎◌};
ghost use Rattle.nodejs_semver.specs.Words.{IfOk, IsTrue, OnErr, difference};
ghost use Rattle.nodejs_semver.specs.Words.{false, is_some, length, true};
ghost use Rattle.nodejs_semver.specs.Ranges.Subsets.{AcceptSame, IsSubset, MayTryOne};

use crate::RangeOf;
use crate::range::least::{Beyond, consider_all};
use semver_core::VersionPoint;
use std::alloc::{AllocError, Global};
use std::slice::from_ref;

impl<V: VersionPoint> RangeOf<V> {
    /// Whether the other range accepts by `satisfies` every version that this one accepts. Where it
    /// does not, `least_beyond` returns the smallest version that shows it.
    ///
    /// Fails only if allocation fails, which happens only where this range has a lower bound `>v`
    /// of a pre-release v, or the other an upper bound `<=v` of one: then v with one more
    /// identifier is made to try it. Of many intervals an index is made too. As measured, time then
    /// grows with n log n for n intervals of both, or with n squared where there is no memory for
    /// the index.
    ///
    /// node-semver's `subset` answers false where no version shows it, as of `>=1 <3` in `1 || 2`.
    ///
    /// ```rust
    /// let narrow = Range::parse(alloc, ">=1 <3")?;
    /// let wide = Range::parse(alloc, "1 || 2")?;
    /// assert!(rt; narrow.is_subset(alloc, &wide) == Ok(true));
    /// ```
    pub fn is_subset<W: VersionPoint>(
        &self,
        alloc: Global,
        other: &RangeOf<W>,
    ) -> Result<bool, AllocError>
        ensures subset { IfOk result (λ r. IsTrue r ↔ IsSubset false self.now other.now) }
        ensures memory { OnErr result (MayTryOne self.now other.now) }
    {
        let (kept, removed) = (from_ref(self), other.items());
        let search = Beyond::new(alloc, kept, removed, false);
        let mut found = None;
        consider_all(alloc, &search, &mut found, kept, removed)?;
        Ok(found.is_none())
    }

    /// Whether the other range accepts every version that this one accepts, with pre-releases
    /// included, as `satisfies_with_prerelease` does. It fails only where `difference` does.
    pub fn is_subset_with_prerelease(
        &self,
        alloc: Global,
        other: &RangeOf<V>,
    ) -> Result<bool, AllocError>
        ensures subset { IfOk result (λ r. IsTrue r ↔ IsSubset true self.now other.now) }
        ensures memory { OnErr result
            (IsTrue (is_some (difference self.now other.now)) ⊎ (1 < length other.now)) }
    {
        match self.difference(alloc, other)? {
            None => Ok(true),
            Some(left) => Ok(left.min_version_with_prerelease(alloc)?.is_none()),
        }
    }

    /// Whether both ranges accept the same versions by `satisfies`, however they are written:
    /// `>=1 <3` and `1 || 2` do. It fails only where `is_subset` does, of one or of the other.
    pub fn accepts_same<W: VersionPoint>(
        &self,
        alloc: Global,
        other: &RangeOf<W>,
    ) -> Result<bool, AllocError>
        ensures same { IfOk result (λ r. IsTrue r ↔ AcceptSame false self.now other.now) }
        ensures memory { OnErr result
            (MayTryOne self.now other.now ⊎ MayTryOne other.now self.now) }
    {
        if !self.is_subset(alloc, other)? {
            return Ok(false);
        }
        other.is_subset(alloc, self)
    }

    /// Whether both ranges accept the same versions with pre-releases included. It fails only
    /// where `difference` does, of one or of the other.
    pub fn accepts_same_with_prerelease(
        &self,
        alloc: Global,
        other: &RangeOf<V>,
    ) -> Result<bool, AllocError>
        ensures same { IfOk result (λ r. IsTrue r ↔ AcceptSame true self.now other.now) }
        ensures memory { OnErr result (IsTrue (is_some (difference self.now other.now))
            ⊎ IsTrue (is_some (difference other.now self.now))
            ⊎ (1 < length self.now) ⊎ (1 < length other.now)) }
    {
        if !self.is_subset_with_prerelease(alloc, other)? {
            return Ok(false);
        }
        other.is_subset_with_prerelease(alloc, self)
    }
}
