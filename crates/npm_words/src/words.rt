//! The words of a range text as node-semver's readings have them: a sign, marks and a partial
//! version.
//!
//! This is for the crates of this repository.

ghost use Rattle.npm_words.specs.Internal.Parts.{npm_partial_view, npm_sign_view};
ghost use Rattle.npm_words.specs.Internal.Views.{npm_sign_pair_view, signed_front_view};
ghost use Rattle.npm_words.specs.{Malformed.is_mark, Words.{comparator_view, drop_spaces, length}};
ghost use Rattle.npm_words.specs.Words.{list_all, true};
ghost use Rattle.std.specs.Prelude.{◌≡◌, ◌≤◌};
ghost use Rattle.npm_words.specs.Internal.Words as Spec;
ghost use Rattle.npm_words.specs.RangeText as Text;

use crate::partial::{Partial, Sign};
use crate::places::partial_front;
use semver_pieces::{Comparator, after_some_space, is_boundary, skip_spaces};

/// A word: its sign, its partial version, and the text of the partial with its marks.
#[derive(Drop)]
pub struct Signed<'a> {
    pub sign: Sign,
    pub partial: Partial<'a>,
    pub text: &'a [u8],
}

// The text without the `=` at its front and the whitespace behind it.
fn skip_equal(text: &[u8]) -> &[u8]
    ensures { result.now ≡ Spec.skip_equal text.now }
{
    match text {
        [b'=', rest @ ..] => skip_spaces(rest),
        _ => text,
    }
}

// The comparator behind whose first character a text stands, and what follows it: the second one
// has `=` behind it, also behind whitespace.
fn or_late(one: Comparator, two: Comparator, text: &[u8]) -> (Sign, &[u8])
    ensures { npm_sign_pair_view result ≡ Spec.or_late (comparator_view one)
        (comparator_view two) text.now (drop_spaces text.now) }
{
    if let [b'=', rest @ ..] = text {
        return (Sign::Compared(two), skip_spaces(rest));
    }
    match skip_spaces(text) {
        [b'=', rest @ ..] => (Sign::Compared(two), rest),
        rest => (Sign::Compared(one), rest),
    }
}

// What follows the `>` behind a tilde, with `=` or without it, and whitespace.
fn skip_greater(text: &[u8]) -> &[u8]
    ensures { result.now ≡ Spec.skip_greater text.now }
{
    match text {
        [b'=', rest @ ..] => skip_spaces(rest),
        _ => skip_spaces(text),
    }
}

// What follows a tilde with what may stand behind it: `>`, and one more behind whitespace.
fn skip_tilde(text: &[u8]) -> &[u8]
    ensures { result.now ≡ Spec.skip_tilde text.now (drop_spaces text.now) }
{
    if let [b'>', rest @ ..] = text {
        return match after_some_space(rest) {
            Some([b'>', rest @ ..]) => skip_greater(rest),
            _ => skip_greater(rest),
        };
    }
    match skip_spaces(text) {
        [b'>', rest @ ..] => skip_greater(rest),
        rest => skip_equal(rest),
    }
}

// The sign at the front, and what follows it and its whitespace.
#[tactic(auto, unfolding(crate::specs::Internal::Words::npm_sign))]
fn sign_front(text: &[u8]) -> (Sign, &[u8])
    ensures { npm_sign_pair_view result ≡ Spec.npm_sign text.now }
{
    match text {
        [b'>', rest @ ..] => or_late(Comparator::Above, Comparator::AtLeast, rest),
        [b'<', rest @ ..] => or_late(Comparator::Below, Comparator::AtMost, rest),
        [b'=', rest @ ..] => (Sign::Compared(Comparator::Equal), skip_spaces(rest)),
        [b'^', rest @ ..] => (Sign::Caret, skip_equal(skip_spaces(rest))),
        [b'~', rest @ ..] => (Sign::Tilde, skip_tilde(rest)),
        _ => (Sign::Compared(Comparator::Equal), text),
    }
}

// How many marks, `v` and `=`, stand at the front.
#[tactic(auto, using(crate::proofs::Grammar::PartialLaw::prefix_steps))]
pub fn marks_len(text: &[u8]) -> usize
    ensures value { result ≡ Spec.marks_len text.now }
    ensures fits { result ≤ length text.now }
{
    'marks: for at in 0..text.len() {
        if !matches!(text[at], b'v' | b'=') {
            return at;
        }
    }
    text.len()
}

// Whether these marks may stand between the sign and the partial.
fn are_marks(loose: bool, sign: Sign, partial: &Partial<'_>, marks: &[u8]) -> bool
    requires { list_all is_mark marks.now ≡ true }
    ensures { result
        ≡ Text.are_marks loose (npm_sign_view sign) (npm_partial_view partial.now) marks.now }
{
    match (sign, partial) {
        (Sign::Compared(_), Partial::Whole(_)) if !loose => matches!(marks, [] | [b'v']),
        _ => true,
    }
}

/// Whether a partial is short enough, which has this text with its marks.
#[inline(always)]
pub fn is_short(loose: bool, text: &[u8]) -> bool
    ensures { result ≡ Spec.is_short_word loose text.now }
{
    !loose
        || text[marks_len(text)..]
            .iter()
            .take_while(|byte| **byte != b'+')
            .count()
            <= 250
}

/// The word at the front, and the text behind it. Its numbers past the limit are
/// `MAX_SAFE_INTEGER + 1`.
pub fn word_front(loose: bool, text: &[u8]) -> Option<(Signed<'_>, &[u8])>
    ensures { signed_front_view result
        ≡ Spec.first_as Spec.capped_in (Spec.signed_word loose text.now) }
{
    let (sign, behind) = sign_front(text);
    let marks = marks_len(behind);
    let (partial, rest) = partial_front(loose, &behind[marks..])?;
    if !are_marks(loose, sign, &partial, &behind[..marks]) || !is_boundary(rest) {
        return None;
    }
    let text = &behind[..behind.len() - rest.len()];
    Some((
        Signed {
            sign,
            partial,
            text,
        },
        rest,
    ))
}
