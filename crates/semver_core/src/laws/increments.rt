// What the table of `inc` says: the least versions.

ghost use Rattle.std.specs.Prelude.{◌≡◌, ◌+◌, ◌-◌, ◌^◌, ◌<◌};
ghost use Rattle.semver_core.specs.Words.{codes, IdentifierBase, IsLeastOrOverflow, IsLeastVersion};
ghost use Rattle.semver_core.specs.Words.{[], answer_of_inc, has_numeric, is_release, VersionValue};
ghost use Rattle.semver_core.specs.Words.{IsOkAnd, IsPlain, IsVersion, Less, precedence, unwrap_or};
ghost use Rattle.semver_core.specs.Words.{ℕ, false, List, Option, true};

/// What the table says of each word, which is what `Version::inc` and `VersionRef::inc` return.
///
/// `patch`, `minor` and `major` are the least release above in the same major and minor, the least
/// one above with patch 0 in the same major, and the least one above with minor and patch 0.
/// Without identifier and with base 0, `premajor`, `preminor` and `prepatch` are the least version
/// of the next major, minor and patch, and `prerelease` is the least version above, if the patch of
/// a release can rise and a pre-release has no number. Each of the first six is `Overflow` exactly
/// where there is no such version.
///
/// Without an identifier the version rises, except by `pre` from a release. The build is kept.
///
/// A caller that needs these facts in a proof calls this function, which does nothing at run time.
/// Their premise, that a version is one, is a clause of each accessor of a version.
#[tactic(auto, using(std::proofs::lemmas::Grind::common_steps))]
pub fn least_increments()
    ensures patch { (v : VersionValue) (id : Option (List ℕ)) (base : Option IdentifierBase)
        → IsVersion v
        → IsLeastOrOverflow (λ w. (precedence v w ≡ Less) × (w.pre_release ≡ [])
        × (w.major ≡ v.major) × (w.minor ≡ v.minor)) (answer_of_inc v (codes "patch") id base) }
    ensures minor { (v : VersionValue) (id : Option (List ℕ)) (base : Option IdentifierBase)
        → IsVersion v
        → IsLeastOrOverflow (λ w. (precedence v w ≡ Less) × (w.pre_release ≡ [])
        × (w.major ≡ v.major) × (w.patch ≡ 0)) (answer_of_inc v (codes "minor") id base) }
    ensures major { (v : VersionValue) (id : Option (List ℕ)) (base : Option IdentifierBase)
        → IsVersion v
        → IsLeastOrOverflow (λ w. (precedence v w ≡ Less) × (w.pre_release ≡ [])
        × (w.minor ≡ 0) × (w.patch ≡ 0)) (answer_of_inc v (codes "major") id base) }
    ensures premajor { (v : VersionValue) (id : Option (List ℕ)) (base : Option IdentifierBase)
        → IsVersion v → IsPlain id base
        → IsLeastOrOverflow (λ w. w.major ≡ v.major + 1)
        (answer_of_inc v (codes "premajor") id base) }
    ensures preminor { (v : VersionValue) (id : Option (List ℕ)) (base : Option IdentifierBase)
        → IsVersion v → IsPlain id base
        → IsLeastOrOverflow (λ w. (w.major ≡ v.major) × (w.minor ≡ v.minor + 1))
        (answer_of_inc v (codes "preminor") id base) }
    ensures prepatch { (v : VersionValue) (id : Option (List ℕ)) (base : Option IdentifierBase)
        → IsVersion v → IsPlain id base
        → IsLeastOrOverflow
        (λ w. (w.major ≡ v.major) × (w.minor ≡ v.minor) × (w.patch ≡ v.patch + 1))
        (answer_of_inc v (codes "prepatch") id base) }
    ensures prerelease { (v : VersionValue) (id : Option (List ℕ)) (base : Option IdentifierBase)
        → IsVersion v → IsPlain id base
        → (is_release v ≡ true → v.patch < 2 ^ 64 - 1)
        → (is_release v ≡ false → has_numeric v.pre_release ≡ false)
        → IsOkAnd (answer_of_inc v (codes "prerelease") id base)
        (IsLeastVersion (λ w. precedence v w ≡ Less)) }
    ensures above { (v w : VersionValue) (word : List ℕ) (id : Option (List ℕ))
        (base : Option IdentifierBase)
        → unwrap_or id [] ≡ [] → (word ≡ codes "pre" → is_release v ≡ false)
        → answer_of_inc v word id base ≡ Ok w → precedence v w ≡ Less }
    ensures build { (v w : VersionValue) (word : List ℕ) (id : Option (List ℕ))
        (base : Option IdentifierBase)
        → answer_of_inc v word id base ≡ Ok w → w.build ≡ v.build }
{}
