// The range of a text as npm reads it.

ghost use Rattle.npm_reading.specs.Ranges.{IsRangeIn, intervals_in};
ghost use Rattle.{npm_words.specs.Table.Comparison, semver_core.specs.Cuts.Span};
ghost use Rattle.{semver_core.specs.Values.Versions.VersionValue, std.specs.Prelude.{Bool, List}};
ghost use Rattle.std.specs.{Prelude.{ℕ, ◌≡◌}, Str.IsUtf8};
ghost use Rattle.nodejs_semver.specs.Ranges.Gate as Gate;
ghost use Rattle.npm_words.specs.Alternatives as Npm;

/// The range of a text as npm reads it, which is the intervals of the text's alternatives
/// (`IsRangeIn`).
///
/// - `accepted`: the intervals of alternatives accept the versions that the alternatives accept.
/// - `once`: a text has one range at most.
///
/// A caller that needs these facts in a proof calls this function, which does nothing at run time.
pub fn npm_intervals()
    ensures accepted { (include : Bool) (alternatives : List (List Comparison)) (v : VersionValue)
        → Gate.accepts (intervals_in include alternatives) v include
        ≡ Npm.accepts include alternatives v }
    ensures once { (loose : Bool) (limit : ℕ) (include : Bool) (text : List ℕ)
        (a b : List (Span VersionValue)) → IsUtf8 text → IsRangeIn loose limit include text a
        → IsRangeIn loose limit include text b → a ≡ b }
{}
