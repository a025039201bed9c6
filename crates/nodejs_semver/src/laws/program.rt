// The headline over the calls that the program makes, which borrow the texts.

ghost use Rattle.std.specs.Prelude.{◌&&◌, ◌↔◌, ◌∷◌, ◌≡◌, ◌⊎◌, []};
ghost use Rattle.nodejs_semver.specs.Words.{accepts, false, IfOk, IfSome, IsLeastOf, IsOk, IsTrue};
ghost use Rattle.nodejs_semver.specs.Words.{least_build, List, MAX_SAFE_INTEGER, Means, not};
ghost use Rattle.nodejs_semver.specs.Words.{NoValue, OnOk, Parses, RefusedOnlyIf, Span, true};
ghost use Rattle.nodejs_semver.specs.Words.{VersionValue, Writes};

use crate::laws::headline::{FindingsAt, is_in};
use crate::{Failure, MAX_SAFE_INTEGER, RangeRef, SemverError, VersionRef};
use semver_core::laws::one_reading;
use std::alloc::Global;

/// The headline from three texts, over the calls that the program makes: two range texts a and b
/// and a version text v. It answers exactly if each of them is valid, unless an allocation fails.
/// With pre-releases included a's range accepts v's version exactly if a writes it, the
/// intersection exactly if both texts write it, and the difference exactly if a writes it and b
/// does not. The least version is the smallest one that `satisfies` accepts, with the
/// build that `min_version` says.
pub fn headline_of_texts<'t>(
    alloc: Global,
    a: &'t str,
    b: &'t str,
    v: &str,
) -> Result<FindingsAt, Failure<SemverError>>
    ensures read { OnOk result ((Means MAX_SAFE_INTEGER a.now [] → ⊥)
        × (Means MAX_SAFE_INTEGER b.now [] → ⊥)
        × ((w : VersionValue) × Parses MAX_SAFE_INTEGER v.now w)) }
    // The one other error is a failed allocation.
    ensures refused { RefusedOnlyIf result (Means MAX_SAFE_INTEGER a.now []
        ⊎ Means MAX_SAFE_INTEGER b.now [] ⊎ NoValue (Parses MAX_SAFE_INTEGER v.now)) }
    ensures first { IfOk result (λ found. (w : VersionValue) → Parses MAX_SAFE_INTEGER v.now w
        → IsTrue found.in_first ↔ Writes MAX_SAFE_INTEGER a.now w) }
    ensures both { IfOk result (λ found. (w : VersionValue) → Parses MAX_SAFE_INTEGER v.now w
        → IsTrue found.in_both
        ↔ (Writes MAX_SAFE_INTEGER a.now w × Writes MAX_SAFE_INTEGER b.now w)) }
    ensures first_alone { IfOk result (λ found. (w : VersionValue)
        → Parses MAX_SAFE_INTEGER v.now w
        → IsTrue found.in_first_alone
        ↔ (Writes MAX_SAFE_INTEGER a.now w × (Writes MAX_SAFE_INTEGER b.now w → ⊥))) }
    ensures least { IfOk result (λ found. (list : List (Span VersionValue))
        → Means MAX_SAFE_INTEGER a.now list → IsLeastOf (λ w. accepts list w false) found.least) }
    ensures build { IfOk result (λ found. (list : List (Span VersionValue))
        → Means MAX_SAFE_INTEGER a.now list
        → IfSome found.least (λ w. w.build ≡ least_build list w)) }
{
    one_reading(v);
    let version = VersionRef::parse(v)?;
    let first = RangeRef::parse(alloc, a)?;
    let second = RangeRef::parse(alloc, b)?;
    findings_at(alloc, &first, &second, &version)
}

// What the calls return for two ranges and a version.
fn findings_at<'t>(
    alloc: Global,
    first: &RangeRef<'t>,
    second: &RangeRef<'t>,
    version: &VersionRef<'_>,
) -> Result<FindingsAt, Failure<SemverError>>
    ensures refused { RefusedOnlyIf result ⊥ }
    ensures first { IfOk result (λ found. found.in_first ≡ accepts first.now version.now true) }
    ensures both { IfOk result (λ found. found.in_both
        ≡ (accepts first.now version.now true && accepts second.now version.now true)) }
    ensures first_alone { IfOk result (λ found. found.in_first_alone
        ≡ (accepts first.now version.now true && not (accepts second.now version.now true))) }
    ensures least { IfOk result (λ found. IsLeastOf (λ w. accepts first.now w false) found.least) }
    ensures build { IfOk result (λ found.
        IfSome found.least (λ w. w.build ≡ least_build first.now w)) }
{
    let in_both = is_in(first.intersect(alloc, second)?, version);
    let in_first_alone = is_in(first.difference(alloc, second)?, version);
    let least = first.min_version(alloc)?;
    Ok(FindingsAt {
        in_first: first.satisfies_with_prerelease(version, true),
        in_both,
        in_first_alone,
        least,
    })
}

/// Whether the version of a version text is in the set that a range text writes, by the calls that
/// the program makes. Of a range text that means one interval it always answers: no memory is
/// taken, so that no premise on memory is left.
pub fn membership(alloc: Global, a: &str, v: &str) -> Result<bool, Failure<SemverError>>
    ensures answered { (s : Span VersionValue) (w : VersionValue)
        → Means MAX_SAFE_INTEGER a.now (s ∷ []) → Parses MAX_SAFE_INTEGER v.now w → IsOk result }
    ensures member { IfOk result (λ is_in. (w : VersionValue) → Parses MAX_SAFE_INTEGER v.now w
        → IsTrue is_in ↔ Writes MAX_SAFE_INTEGER a.now w) }
    ensures refused { RefusedOnlyIf result (Means MAX_SAFE_INTEGER a.now []
        ⊎ NoValue (Parses MAX_SAFE_INTEGER v.now)) }
{
    one_reading(v);
    let version = VersionRef::parse(v)?;
    let range = RangeRef::parse(alloc, a)?;
    Ok(range.satisfies_with_prerelease(&version, true))
}
