// What the comparisons of the program say, in the words of the definitions, and laws of the orders.

ghost use Rattle.std.specs.Prelude.{◌||◌, ◌++◌, ◌&&◌, ◌≡◌, ◌↔◌, ◌<◌, ◌+◌, ◌-◌, ◌^◌, ◌∷◌};
ghost use Rattle.semver_core.specs.Words.{has_numeric, IsLeastVersion, release_value, VersionValue};
ghost use Rattle.semver_core.specs.Words.{ℕ, bound_eq, IsVersion, Overflow, precedence, raise_last};
ghost use Rattle.semver_core.specs.Words.{asked, id_cmp, id_view, is_kept, IsTrue, length, Numeric};
ghost use Rattle.semver_core.specs.Words.{build_order, Equal, false, is_le, Less, List, true, []};
ghost use Rattle.semver_core.specs.Words.{Id};

use crate::cuts::{Interval, Point};
use crate::{Identifier, Version};
use std::cmp::Ordering;

/// How two identifiers compare: numbers by value and below all texts, texts by their bytes. `==`
/// holds exactly where they tie.
pub fn identifiers_in_order(first: &Identifier, second: &Identifier) -> (Ordering, bool)
    ensures order { result.0 ≡ id_cmp (id_view first.now) (id_view second.now) }
    ensures equal { IsTrue result.1
        ↔ (id_cmp (id_view first.now) (id_view second.now) ≡ Equal) }
{
    (first.cmp(second), first == second)
}

/// How two versions compare: by SemVer 2.0.0, item 11. `==` holds exactly where they tie, so build
/// metadata counts in neither.
pub fn versions_in_order(first: &Version, second: &Version) -> (Ordering, bool)
    ensures order { result.0 ≡ precedence first.now second.now }
    ensures equal { IsTrue result.1 ↔ (precedence first.now second.now ≡ Equal) }
{
    (first.cmp(second), first == second)
}

/// `==` of intervals: both lower bounds are of one kind and at equal points, and so are both upper
/// bounds.
pub fn intervals_equal<V: Point>(first: &Interval<V>, second: &Interval<V>) -> bool
    ensures { result ≡ (bound_eq V.eq first.now.lower second.now.lower
        && bound_eq V.eq first.now.upper second.now.upper) }
{
    first == second
}

/// The order of versions is total, and two versions tie in it exactly where their numbers and their
/// pre-releases are equal.
///
/// The smallest version is 0.0.0-0: it is not above any version. Nothing lies between a pre-release
/// and the one with one more identifier, the number 0, nor between a release and the pre-release 0
/// of the next patch, if there is one.
///
/// How `inc` goes on with a pre-release list, by dividing it: the last number of a list rises by
/// one, which overflows at the greatest number of 64 bits; what stands before it and behind it
/// stays. A list is kept under an identifier exactly if it is what the identifier matches, a
/// number, and any rest.
///
/// A caller that needs these facts in a proof calls this function, which does nothing at run time.
#[tactic(auto, using(crate::proofs::Increments::LastNumber::inc_laws))]
pub fn order_and_increments()
    ensures reflexive { (v : VersionValue) → is_le (precedence v v) ≡ true }
    ensures antisymmetric { (v w : VersionValue) → is_le (precedence v w) ≡ true
        → is_le (precedence w v) ≡ true → precedence v w ≡ Equal }
    ensures transitive { (u v w : VersionValue) → is_le (precedence u v) ≡ true
        → is_le (precedence v w) ≡ true → is_le (precedence u w) ≡ true }
    ensures total { (v w : VersionValue) →
        (is_le (precedence v w) || is_le (precedence w v)) ≡ true }
    ensures tied { (v w : VersionValue) → (precedence v w ≡ Equal)
        ↔ ((v.major ≡ w.major) × (v.minor ≡ w.minor) × (v.patch ≡ w.patch)
        × (v.pre_release ≡ w.pre_release)) }
    ensures first { (v : VersionValue) → is_le (precedence
        (record (release_value 0 0 0) { pre_release = Numeric 0 ∷ [] }) v) ≡ true }
    ensures pre_release { (v : VersionValue) → IsVersion v → 0 < length v.pre_release
        → IsLeastVersion (λ w. precedence v w ≡ Less)
        (record v { pre_release = v.pre_release ++ Numeric 0 ∷ [] }) }
    ensures release { (v : VersionValue) → IsVersion v → v.pre_release ≡ []
        → v.patch < 2 ^ 64 - 1
        → IsLeastVersion (λ w. precedence v w ≡ Less)
        (record v { patch = v.patch + 1; pre_release = Numeric 0 ∷ [] }) }
    ensures raised { (front back : List Id) (n : ℕ) → has_numeric back ≡ false → n < 2 ^ 64 - 1
        → raise_last (front ++ Numeric n ∷ back) ≡ Ok (front ++ Numeric (n + 1) ∷ back) }
    ensures overflow { (front back : List Id) → has_numeric back ≡ false
        → raise_last (front ++ Numeric (2 ^ 64 - 1) ∷ back) ≡ Err Overflow }
    ensures kept { (id : List ℕ) (list : List Id) → IsTrue (is_kept id list)
        ↔ ((n : ℕ) × (rest : List Id) × (list ≡ asked id ∷ Numeric n ∷ rest)) }
{}

/// The order of `cmp_build` is total, and two versions tie in it exactly where they are the
/// same value, builds included.
///
/// A caller that needs these facts in a proof calls this function, which does nothing at run time.
pub fn order_with_builds()
    ensures tied { (v w : VersionValue) → (build_order v w ≡ Equal) ↔ (v ≡ w) }
    ensures antisymmetric { (v w : VersionValue) → is_le (build_order v w) ≡ true
        → is_le (build_order w v) ≡ true → v ≡ w }
    ensures transitive { (u v w : VersionValue) → is_le (build_order u v) ≡ true
        → is_le (build_order v w) ≡ true → is_le (build_order u w) ≡ true }
    ensures total { (v w : VersionValue) →
        (is_le (build_order v w) || is_le (build_order w v)) ≡ true }
{}
