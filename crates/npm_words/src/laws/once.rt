// A text has one reading.

ghost use Rattle.npm_words.specs.Coerced.{IsCoerced, IsLeftmost, IsNumberIn, IsRightmost};
ghost use Rattle.npm_words.specs.Words.{Comparison, HasAlternativesIn, IsVersionText, List};
ghost use Rattle.npm_words.specs.Words.{MAX_SAFE_INTEGER, VersionValue, [], is_identifier_char};
ghost use Rattle.{npm_words.specs.Words.{list_all, true, version_text, ℕ}, std.specs.Prelude.Bool};
ghost use Rattle.std.specs.Prelude.{IsUtf8, ◌==◌, ◌||◌, ◌≡◌};

/// In node-semver's strict reading a text is one version at most, and what this version prints
/// without its build is a text that is the same version without its build, of letters, digits,
/// hyphens, dots and plus signs. A range text has one list of alternatives at most, strictly and
/// loosely. In any text at most one version is found from the left, and one from the right.
///
/// A caller that needs these facts in a proof calls this function, which does nothing at run time.
pub fn npm_reads_once()
    ensures version { (limit : ℕ) (text : List ℕ) (v w : VersionValue)
        → IsVersionText limit text v → IsVersionText limit text w → v ≡ w }
    ensures printed { (text : List ℕ) (v : VersionValue) → IsUtf8 text
        → IsVersionText MAX_SAFE_INTEGER text v → let w = record v { build = [] } in
        IsVersionText MAX_SAFE_INTEGER (version_text w) w
        × (list_all (λ c. is_identifier_char c || (c == 46 || c == 43)) (version_text w)
        ≡ true) }
    ensures alternatives { (loose : Bool) (limit : ℕ) (include : Bool) (text : List ℕ)
        (a b : List (List Comparison)) → IsUtf8 text
        → HasAlternativesIn loose limit include text a
        → HasAlternativesIn loose limit include text b → a ≡ b }
    ensures leftmost { (included loose : Bool) (text : List ℕ) (v w : VersionValue)
        → IsCoerced included IsLeftmost (IsNumberIn loose) text v
        → IsCoerced included IsLeftmost (IsNumberIn loose) text w → v ≡ w }
    ensures rightmost { (included loose : Bool) (text : List ℕ) (v w : VersionValue)
        → IsCoerced included IsRightmost (IsNumberIn loose) text v
        → IsCoerced included IsRightmost (IsNumberIn loose) text w → v ≡ w }
{}
