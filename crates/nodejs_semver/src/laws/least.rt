// Whose build the smallest version of a range has.

ghost use Rattle.std.specs.Prelude.{◌++◌, ◌∷◌, ◌≡◌};
ghost use Rattle.nodejs_semver.specs.Words.{[], accepts, begins_with, false, least_build, List};
ghost use Rattle.nodejs_semver.specs.Words.{Some, Span, true, version_eq, VersionValue};

/// Whose build `Range::min_version` returns: of the intervals the first one counts that accepts the
/// version. If its lower bound is the one from which the version comes, the build is that of this
/// bound (`bound`), and else there is none (`none`). A version comes from `>=v` if it equals v, and
/// from `>v` if it is the next patch of a release v, or a pre-release v with one more identifier,
/// the number 0.
///
/// A caller that needs these facts in a proof calls this function, which does nothing at run time.
pub fn build_of_the_least()
    ensures bound { (front back : List (Span VersionValue)) (s : Span VersionValue)
        (v x : VersionValue) → accepts front v false ≡ false → accepts (s ∷ []) v false ≡ true
        → begins_with s.lower ≡ Some x → version_eq x v ≡ true
        → least_build (front ++ s ∷ back) v ≡ x.build }
    ensures none { (front back : List (Span VersionValue)) (s : Span VersionValue)
        (v : VersionValue) → accepts front v false ≡ false → accepts (s ∷ []) v false ≡ true
        → ((x : VersionValue) → begins_with s.lower ≡ Some x → version_eq x v ≡ false)
        → least_build (front ++ s ∷ back) v ≡ [] }
{}
