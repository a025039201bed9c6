// What is said of what `diagnosis` returns.

ghost use Rattle.std.specs.Prelude.{◌↔◌, ◌≡◌};
ghost use Rattle.nodejs_semver.specs.Words.{[], AreAlike, IsExact, IsFlaw, IsUtf8, IsWhollyIgnored};
ghost use Rattle.nodejs_semver.specs.Words.{List, Means, Span, VersionFlaw, VersionValue, ℕ};

/// A version text has one flaw at most (`one`), and none where it is one version as a whole
/// (`exact`). So `version_flaw` returns the flaw of the text, and nothing else would be right.
pub fn one_flaw()
    ensures one { (limit : ℕ) (text : List ℕ) (f g : VersionFlaw)
        → IsFlaw limit text f → IsFlaw limit text g → f ≡ g }
    ensures exact { (limit : ℕ) (text : List ℕ) (f : VersionFlaw)
        → IsExact limit text → IsFlaw limit text f → ⊥ }
{}

/// What ignored words are to a range text.
///
/// - `same`: the text means the same without them: another text means the same intervals if it has,
///   piece by piece between the bars, the same other words, and no word only where this has none.
///   So `foo 1.2.3 || bar` means what `1.2.3 || baz` does, but `1.2.3 ||` is `*` too.
/// - `rejected`: a text is rejected exactly if each of its pieces has words and all words are
///   ignored. So `foo` is, and `foo ||` is `*`.
pub fn ignored_words_mean_nothing()
    ensures same { (limit : ℕ) (text other : List ℕ) (list : List (Span VersionValue))
        → IsUtf8 text → IsUtf8 other → AreAlike limit text other
        → Means limit text list → Means limit other list }
    ensures rejected { (limit : ℕ) (text : List ℕ) → IsUtf8 text
        → Means limit text [] ↔ IsWhollyIgnored limit text }
{}
