// A shorter range with the same answers about given versions.

ghost use Rattle.std.specs.Prelude.{◌≡◌, ◌≤◌};
ghost use Rattle.nodejs_semver.specs.Words.{All, IfOk, OnErr, TakesMemory};
ghost use Rattle.nodejs_semver.specs.Words.{accepts, false, length, map};
ghost use Rattle.nodejs_semver.specs.{Internal.Questions.is_used, Ranges.Simple.simplified};

use crate::RangeOf;
use crate::range::gate::accepts_one;
use crate::range::unions::push_copy;
use semver_core::cuts::Interval;
use semver_core::{VersionPoint, Versioned};
use smallvec::SmallVec;
use std::alloc::{AllocError, Global};

impl<V: VersionPoint> RangeOf<V> {
    /// A range that answers about each of these versions as this one does by `satisfies`, with as
    /// many intervals or fewer: those that accept one of the versions. Where none does, it is a
    /// copy of this range. About other versions it may answer otherwise. Fails only if allocation
    /// fails, which happens only where the result has more than one interval, or a bound with build
    /// metadata or with a pre-release other than `0` alone.
    ///
    /// node-semver's `simplifyRange` may change the answers: of 1.0.0 and `>=2.0.0 <3.0.0` it makes
    /// the empty text, which accepts 1.0.0.
    ///
    /// ```rust
    /// let versions = [VersionRef::parse("2.1.0")?];
    /// let range = Range::parse(alloc, "^1 || ^2 || ^3")?;
    /// let simple = range.simplify(alloc, &versions).ok();
    /// assert!(rt; simple == Range::parse(alloc, "^2").ok());
    /// ```
    ///
    /// Time grows with the number of intervals times that of the versions.
    pub fn simplify<W: Versioned>(
        &self,
        alloc: Global,
        versions: &[W],
    ) -> Result<RangeOf<V>, AllocError>
        ensures list { IfOk result (λ r. r ≡ simplified (map W.value versions.now) self.now) }
        // It answers the same about each of the versions.
        ensures same { IfOk result (λ r. All (λ v.
            accepts r v false ≡ accepts self.now v false) (map W.value versions.now)) }
        ensures shorter { IfOk result (λ r. length r ≤ length self.now) }
        ensures memory { OnErr result
            (TakesMemory (simplified (map W.value versions.now) self.now)) }
    {
        let mut used = SmallVec::new(alloc);
        let intervals = self.items();
        for interval in intervals {
            if is_used(interval, versions) {
                push_copy(alloc, &mut used, interval)?;
            }
        }
        match RangeOf::of_intervals(used) {
            Some(range) => Ok(range),
            None => self.copy(alloc),
        }
    }
}

// Whether the interval accepts one of the versions.
fn is_used<V: VersionPoint, W: Versioned>(interval: &Interval<V>, versions: &[W]) -> bool
    ensures { result ≡ is_used V.value W.value versions.now interval.now }
{
    versions
        .iter()
        .any(|version| accepts_one(interval, version, false))
}
