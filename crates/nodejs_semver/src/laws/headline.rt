// The headline of this crate. It rests on the contracts of the public calls alone.

ghost use Rattle.std.specs.Prelude.{◌&&◌, ◌↔◌, ◌≡◌, ◌⊎◌, [], false, IfOk, IfSome, IsTrue, List};
ghost use Rattle.nodejs_semver.specs.Words.{accepts, IsLeastOf, least_build, Means, not, OnOk};
ghost use Rattle.nodejs_semver.specs.Words.{RefusedOnlyIf, Span, true, unwrap_or, VersionValue};
ghost use Rattle.nodejs_semver.specs.Words.{Writes};

use crate::{Allocated, Failure, MAX_SAFE_INTEGER, Range, RangeOf, SemverError, Version};
use semver_core::{VersionPoint, Versioned};
use std::alloc::Global;

/// What the public calls return for two texts. No range stands for the empty set.
#[derive(Debug, Drop)]
pub struct Findings {
    /// The range of the first text.
    pub first: Range,
    /// What both ranges have in common.
    pub both: Option<Range>,
    /// What the first range has and the second does not.
    pub first_alone: Option<Range>,
    /// The smallest version that the first range accepts.
    pub least: Option<Version>,
}

/// The headline, for all texts a and b and every version: `Range::parse` accepts exactly the valid
/// range texts, those with a meaning. With pre-releases included a's range accepts exactly
/// what a writes, `intersect` exactly what both texts write, and `difference` exactly what a writes
/// and b does not; no range stands for the empty set. `min_version` is the smallest version that
/// `satisfies` accepts, with the build of the bound from which it comes, and `None` exactly if
/// there is none.
///
/// `Range::satisfies_with_prerelease` returns what `accepts` says here, and `satisfies` the same
/// with false for the flag.
pub fn headline(alloc: Global, a: &str, b: &str) -> Result<Findings, Failure<SemverError>>
    ensures read { OnOk result ((Means MAX_SAFE_INTEGER a.now [] → ⊥)
        × (Means MAX_SAFE_INTEGER b.now [] → ⊥)) }
    // The one other error is a failed allocation.
    ensures refused { RefusedOnlyIf result
        (Means MAX_SAFE_INTEGER a.now [] ⊎ Means MAX_SAFE_INTEGER b.now []) }
    ensures first { IfOk result (λ found. (v : VersionValue) →
        IsTrue (accepts found.first v true) ↔ Writes MAX_SAFE_INTEGER a.now v) }
    ensures both { IfOk result (λ found. (v : VersionValue) →
        IsTrue (accepts (unwrap_or found.both []) v true)
        ↔ (Writes MAX_SAFE_INTEGER a.now v × Writes MAX_SAFE_INTEGER b.now v)) }
    ensures first_alone { IfOk result (λ found. (v : VersionValue) →
        IsTrue (accepts (unwrap_or found.first_alone []) v true)
        ↔ (Writes MAX_SAFE_INTEGER a.now v × (Writes MAX_SAFE_INTEGER b.now v → ⊥))) }
    ensures least { IfOk result (λ found. (list : List (Span VersionValue))
        → Means MAX_SAFE_INTEGER a.now list → IsLeastOf (λ v. accepts list v false) found.least) }
    ensures build { IfOk result (λ found. (list : List (Span VersionValue))
        → Means MAX_SAFE_INTEGER a.now list
        → IfSome found.least (λ v. v.build ≡ least_build list v)) }
{
    let first = Range::parse(alloc, a)?;
    let second = Range::parse(alloc, b)?;
    Ok(findings_of(alloc, first, &second)?)
}

// What the public calls return for two ranges.
fn findings_of(alloc: Global, first: Range, other: &Range) -> Allocated<Findings>
    ensures first { IfOk result (λ found. found.first ≡ first) }
    ensures both { IfOk result (λ found. (v : VersionValue) →
        accepts (unwrap_or found.both []) v true
        ≡ (accepts first v true && accepts other.now v true)) }
    ensures first_alone { IfOk result (λ found. (v : VersionValue) →
        accepts (unwrap_or found.first_alone []) v true
        ≡ (accepts first v true && not (accepts other.now v true))) }
    ensures least { IfOk result (λ found. IsLeastOf (λ v. accepts first v false) found.least) }
    ensures build { IfOk result (λ found.
        IfSome found.least (λ v. v.build ≡ least_build first v)) }
{
    let both = first.intersect(alloc, other)?;
    let first_alone = first.difference(alloc, other)?;
    let least = first.min_version(alloc)?;
    Ok(Findings {
        first,
        both,
        first_alone,
        least,
    })
}

/// What the public calls return for two texts and one version.
#[derive(Debug, Drop)]
pub struct FindingsAt {
    /// Whether the first range accepts the version, with pre-releases included.
    pub in_first: bool,
    /// Whether what both ranges have in common accepts it, with pre-releases included.
    pub in_both: bool,
    /// Whether what the first range has and the second does not accepts it, so too.
    pub in_first_alone: bool,
    /// The smallest version that the first range accepts.
    pub least: Option<Version>,
}

/// The headline at one version, by the results of `Range::satisfies_with_prerelease`.
pub fn headline_at(
    alloc: Global,
    a: &str,
    b: &str,
    version: &Version,
) -> Result<FindingsAt, Failure<SemverError>>
    ensures read { OnOk result ((Means MAX_SAFE_INTEGER a.now [] → ⊥)
        × (Means MAX_SAFE_INTEGER b.now [] → ⊥)) }
    ensures refused { RefusedOnlyIf result
        (Means MAX_SAFE_INTEGER a.now [] ⊎ Means MAX_SAFE_INTEGER b.now []) }
    ensures first { IfOk result (λ found.
        IsTrue found.in_first ↔ Writes MAX_SAFE_INTEGER a.now version.now) }
    ensures both { IfOk result (λ found.
        IsTrue found.in_both
        ↔ (Writes MAX_SAFE_INTEGER a.now version.now
        × Writes MAX_SAFE_INTEGER b.now version.now)) }
    ensures first_alone { IfOk result (λ found.
        IsTrue found.in_first_alone
        ↔ (Writes MAX_SAFE_INTEGER a.now version.now
        × (Writes MAX_SAFE_INTEGER b.now version.now → ⊥))) }
    ensures least { IfOk result (λ found. (list : List (Span VersionValue))
        → Means MAX_SAFE_INTEGER a.now list → IsLeastOf (λ v. accepts list v false) found.least) }
    ensures build { IfOk result (λ found. (list : List (Span VersionValue))
        → Means MAX_SAFE_INTEGER a.now list
        → IfSome found.least (λ v. v.build ≡ least_build list v)) }
{
    let found = headline(alloc, a, b)?;
    Ok(FindingsAt {
        in_first: found.first.satisfies_with_prerelease(version, true),
        in_both: is_in(found.both, version),
        in_first_alone: is_in(found.first_alone, version),
        least: found.least,
    })
}

// Whether there is a range that accepts the version, with pre-releases included.
pub(super) fn is_in<V: VersionPoint, W: Versioned>(range: Option<RangeOf<V>>, version: &W) -> bool
    ensures { result ≡ accepts (unwrap_or range []) (W.value version.now) true }
{
    match range {
        None => false,
        Some(range) => range.satisfies_with_prerelease(version, true),
    }
}
