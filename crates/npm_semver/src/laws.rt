// What follows from what the command writes for a question.

ghost use Rattle.std.specs.Prelude.{◌≡◌, ◌∷◌, ◌++◌, [], ℕ, List, None, Some, false, true};
ghost use Rattle.std.specs.Prelude.{Option, unwrap_or};
ghost use Rattle.std.specs.Str.{IsUtf8};
ghost use Rattle.std.specs.declared.cmp.Ordering.TheVariants.{Less};
ghost use Rattle.semver_core.specs.Failures.{NoValue};
ghost use Rattle.semver_core.specs.Values.Order.{precedence};
ghost use Rattle.semver_core.specs.Values.Versions.{VersionValue};
ghost use Rattle.npm_semver.specs.Arguments.{Asked, IsAsked, is_level};
ghost use Rattle.npm_semver.specs.Laws.{EachText, IsAccepted, IsLeftOut};
ghost use Rattle.npm_semver.specs.Listing.{AreListed, Entry};
ghost use Rattle.npm_semver.specs.Readings.{SomeText};
ghost use Rattle.npm_semver.specs.Responses.{IsRefused, Responds, Written, next_text};
ghost use Rattle.npm_semver.specs.Responses.{prints_as_given, records};

use npm_words::laws::npm_reads_once;
use semver_core::laws::{least_increments, whitespace_ends};

/// Asked for versions, the command succeeds exactly if some text is a version that all ranges
/// accept.
pub fn successes()
    ensures some { (q : Asked) (written : Written) → Responds (Some q) written → q.level ≡ None
        → written.is_success ≡ true → SomeText (IsAccepted q) q.versions }
    ensures none { (q : Asked) (written : Written) → Responds (Some q) written → q.level ≡ None
        → NoValue (IsRefused q) → written.is_success ≡ false → EachText (IsLeftOut q) q.versions }
{}

/// Arguments ask one question.
pub fn one_question()
    ensures { (arguments : List (List ℕ)) (one other : Option Asked) → IsAsked arguments one
        → IsAsked arguments other → one ≡ other }
{}

/// A question has one answer, that is one output and one exit status: two answers that are right
/// are the same. Range texts are UTF-8, as arguments are.
pub fn one_answer()
    ensures { (q : Asked) (one other : Written) → EachText IsUtf8 q.ranges
        → Responds (Some q) one → Responds (Some q) other → one ≡ other }
{
    npm_reads_once();
    whitespace_ends();
}

/// The answer does not depend on the order of the texts that may be versions: it stays right where
/// two neighbouring parts of them are exchanged, and it is the only one that is. With
/// `--keep-order` it does.
pub fn exchanges()
    ensures right { (q : Asked) (front a b back : List (List ℕ)) (written : Written)
        → prints_as_given q ≡ false
        → Responds (Some (record q { versions = front ++ (a ++ (b ++ back)) })) written
        → Responds (Some (record q { versions = front ++ (b ++ (a ++ back)) })) written }
    ensures same { (q : Asked) (front a b back : List (List ℕ)) (one other : Written)
        → prints_as_given q ≡ false → EachText IsUtf8 q.ranges
        → Responds (Some (record q { versions = front ++ (a ++ (b ++ back)) })) one
        → Responds (Some (record q { versions = front ++ (b ++ (a ++ back)) })) other
        → one ≡ other }
{
    npm_reads_once();
    whitespace_ends();
}

/// Asked for versions that are not coerced, as records and not as they were given, the command
/// changes nothing that it has printed itself: asked the same of its own records, it prints them
/// again.
pub fn again()
    ensures { (q : Asked) (written : Written) → EachText IsUtf8 q.versions
        → Responds (Some q) written → q.level ≡ None → q.reading.is_coerced ≡ false
        → q.reading.field ≡ None → q.is_json ≡ false → q.as_written ≡ false
        → written.refusal ≡ None
        → Responds (Some (record q { versions = records q.ends_in_nul written.output })) written }
{
    npm_reads_once();
}

/// Asked for a next version without an identifier, the command prints one that is above the version
/// that it was asked of.
pub fn next_versions()
    ensures above { (q : Asked) (level : List ℕ) (written : Written) → Responds (Some q) written
        → q.level ≡ Some level → is_level level ≡ true → unwrap_or q.identifier [] ≡ []
        → written.is_success ≡ true
        → (e : Entry) × (w : VersionValue) × AreListed q.reading [] q.versions (e ∷ [])
        × (written.output ≡ next_text q.is_json q.ends_in_nul w) × (precedence e.version w ≡ Less) }
{
    least_increments();
}
