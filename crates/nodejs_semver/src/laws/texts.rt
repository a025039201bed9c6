// What is said of range texts.

ghost use Rattle.std.specs.Prelude.{◌<◌, ◌↔◌, ◌≡◌, [], false, IfNone, IfOk, IfSome, IsUtf8};
ghost use Rattle.nodejs_semver.specs.Words.{AreRuns, AreWords, common_range, cut_bars, denotes};
ghost use Rattle.nodejs_semver.specs.Words.{is_empty, IsCommonRange, IsCutAtBars, IsLongestPartial};
ghost use Rattle.nodejs_semver.specs.Words.{IsNumber, IsPartial, IsTrim, IsWordAt, length, List};
ghost use Rattle.nodejs_semver.specs.Words.{list_all, list_holds, MAX_SAFE_INTEGER, Means, NoValue};
ghost use Rattle.nodejs_semver.specs.Words.{number_of, part_bounds, Partial, partial_front, parts};
ghost use Rattle.nodejs_semver.specs.Words.{precedence, Run, runs_of, Some, Span, true};
ghost use Rattle.nodejs_semver.specs.Words.{VersionValue, Word, word_at, words, Writes, writes, ℕ};

use crate::Range;
use crate::readers::{range_fast, range_loose};
use std::alloc::{AllocError, Global};

/// How a range text is written: each relation has one solution, which is the one that is computed.
///
/// A range text has one division at its bars (`divided`, `once`): pieces whose joining by `||` is
/// the text, of which none contains `||` and only the last may end in `|`. So `1|||2` has the
/// pieces `1` and `|2`.
///
/// - `numbers`: the number of a whole text is the decimal value of its digits, leading zeros
///   allowed, up to the limit.
/// - `partials`: a text is a partial where it is a `v` or nothing, whitespace or none and one to
///   three components joined by dots, with a pre-release and a build behind the third, as versions
///   have them. The numbers have the limit as a parameter.
/// - `longest_partials`: at the front of a text the longest partial is read: one that cuts no run
///   of digits, of which none at the front is longer.
/// - `words_at`: the word at the front of a text is one of the forms, or a malformed word where
///   none of them stands there.
/// - `words`: the words of a part, which is a trimmed text, are read one after another from the
///   left.
pub fn grammar()
    ensures divided { (text : List ℕ) → IsCutAtBars text (cut_bars false text) }
    ensures once { (text : List ℕ) (pieces : List (List ℕ)) → IsCutAtBars text pieces
        → pieces ≡ cut_bars false text }
    ensures numbers { (limit : ℕ) (text : List ℕ) (n : ℕ)
        → (number_of limit text ≡ Some n) ↔ IsNumber limit text n }
    ensures partials { (limit : ℕ) (text : List ℕ) (p : Partial) → IsUtf8 text
        → (partial_front limit text ≡ Some (p, [])) ↔ IsPartial limit text p }
    ensures longest_partials { (limit : ℕ) (text : List ℕ) (p : Partial) (rest : List ℕ)
        → IsUtf8 text
        → (partial_front limit text ≡ Some (p, rest)) ↔ IsLongestPartial limit text p rest }
    ensures words_at { (limit : ℕ) (text : List ℕ) (word : Word) (rest : List ℕ) → IsUtf8 text
        → (word_at limit text ≡ (word, rest)) ↔ IsWordAt limit text word rest }
    ensures words { (limit : ℕ) (text part : List ℕ) (list : List Word) → IsUtf8 text
        → IsTrim text part → (words limit part ≡ list) ↔ AreWords limit part list }
{}

/// What a range text means: each relation has one solution, which is the one that is computed.
///
/// The bounds of a part's words have one division into runs (`divided`, `once`): consecutive and
/// not empty, each with its lower cut below its upper cut, and none that keeps that with the first
/// word of the next one. So `>2 <1` has two runs of one word.
///
/// - `one_meaning`: a range text has one meaning: it is cut at its bars, each piece is trimmed and
///   read as words, and the bounds of these are divided into runs, whose intervals stand one after
///   another. A text of whitespace and bars alone means every version.
/// - `written`: a range text writes a version where some one of its pieces is whitespace alone, or
///   has a run of which the version satisfies all comparisons.
/// - `intervals_hold_what_is_written`: with pre-releases included, the intervals of a range text
///   hold exactly the versions that the text writes: those that satisfy, for some one run, all
///   comparisons of its words.
///
/// A common range text has a range: it denotes its intervals, of which there is one or more, and
/// some part of it is not empty (`denoted`). The common texts and their intervals are computed
/// (`read`).
pub fn meaning()
    ensures divided { (limit : ℕ) (part : List ℕ) → AreRuns precedence
        (part_bounds limit part) (runs_of precedence (part_bounds limit part)) }
    ensures once { (bounds : List (Span VersionValue)) (runs : List (Run VersionValue))
        → AreRuns precedence bounds runs → runs ≡ runs_of precedence bounds }
    ensures one_meaning { (limit : ℕ) (text : List ℕ) (list : List (Span VersionValue))
        → IsUtf8 text → (denotes limit text ≡ list) ↔ Means limit text list }
    ensures written { (limit : ℕ) (text : List ℕ) (v : VersionValue) → IsUtf8 text
        → (writes limit text v ≡ true) ↔ Writes limit text v }
    ensures intervals_hold_what_is_written { (limit : ℕ) (text : List ℕ) (v : VersionValue)
        → list_holds precedence (denotes limit text) v ≡ writes limit text v }
    ensures denoted { (limit : ℕ) (text : List ℕ) (list : List (Span VersionValue))
        → IsCommonRange limit text list
        → (denotes limit text ≡ list) × (0 < length list)
        × (list_all is_empty (parts text) ≡ false) }
    ensures read { (limit : ℕ) (text : List ℕ) (list : List (Span VersionValue))
        → (common_range limit text ≡ Some list) ↔ IsCommonRange limit text list }
{}

/// On a common text `range_fast` and `range_loose` return its range; on another `range_fast`
/// returns `None`.
pub fn both_readers(alloc: Global, text: &str) -> Result<Option<(Range, Option<Range>)>, AllocError>
    ensures same { IfOk result (λ found. IfSome found (λ both. Some both.0 ≡ both.1)) }
    ensures read { IfOk result (λ found. IfSome found (λ both.
        IsCommonRange MAX_SAFE_INTEGER text.now both.0)) }
    ensures uncommon { IfOk result (λ found.
        IfNone found (NoValue (IsCommonRange MAX_SAFE_INTEGER text.now))) }
{
    let fast = range_fast(alloc, text)?;
    let Some(fast) = fast else {
        return Ok(None);
    };
    let loose = range_loose(alloc, text)?;
    Ok(Some((fast, loose)))
}
