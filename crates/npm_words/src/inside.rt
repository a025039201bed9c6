//! The partial versions that node-semver's loose reading finds inside a malformed word.

ghost use Rattle.npm_words.specs.Words.{None, Some, is_identifier_char, length, rest_view};
ghost use Rattle.std.specs.{List.prefix_len, Prelude.{drop, if◌then◌else◌, ◌≡◌, ◌≤◌}};
ghost use Rattle.npm_words.specs.Internal.Inside as Spec;

use semver_core::scan::{begins_identifier, is_identifier_char};
use semver_pieces::{build_front, digits_len};

// How many characters of identifiers stand at the front.
#[tactic(auto, using(crate::proofs::Grammar::PartialLaw::prefix_steps))]
fn run_len(text: &[u8]) -> usize
    ensures value { result ≡ prefix_len is_identifier_char text.now }
    ensures fits { result ≤ length text.now }
{
    'characters: for at in 0..text.len() {
        if !is_identifier_char(text[at]) {
            return at;
        }
    }
    text.len()
}

// What stands behind the identifier at the front: strictly a `0` is one.
#[tactic(auto, unfolding(crate::specs::Internal::Inside::behind_id))]
fn behind_id(strict: bool, text: &[u8]) -> &[u8]
    ensures { result.now ≡ Spec.behind_id strict text.now }
{
    match text {
        [b'0', rest @ ..] if strict => rest,
        [b'0'..=b'9', ..] => &text[digits_len(text)..],
        _ => &text[run_len(text)..],
    }
}

// What stands behind the identifiers joined by dots at the front.
#[tactic(auto, using(crate::proofs::Grammar::InsideIds::ids_steps))]
fn behind_ids(strict: bool, text: &[u8]) -> &[u8]
    ensures { result.now ≡ Spec.behind_ids (length text.now) strict text.now }
{
    let mut left = text;
    'ids: loop {
        match behind_id(strict, left) {
            [b'.', more @ ..] if begins_identifier(more) => left = more,
            rest => return rest,
        }
    }
}

// What stands behind the pre-release at the front, which stands strictly behind a `-`.
#[tactic(auto, unfolding(crate::specs::Internal::Inside::behind_pre_release))]
fn behind_pre_release(strict: bool, text: &[u8]) -> &[u8]
    ensures { result.now ≡ Spec.behind_pre_release strict text.now }
{
    match text {
        [b'-', rest @ ..] if begins_identifier(rest) => behind_ids(strict, rest),
        [b'-' | b'A'..=b'Z' | b'a'..=b'z', ..] if !strict => behind_ids(strict, text),
        _ => text,
    }
}

// What stands behind the place at the front: loosely behind the digits there, and strictly behind
// a wildcard or a number that is written strictly. Only so many digits count.
#[tactic(auto, unfolding(crate::specs::Internal::Inside::behind_place))]
fn behind_place(strict: bool, text: &[u8]) -> &[u8]
    ensures { result.now ≡ Spec.behind_place strict text.now }
{
    match text {
        [b'0' | b'x' | b'X' | b'*', rest @ ..] if strict => rest,
        _ => {
            let most = if strict { 257 } else { 256 };
            &text[digits_len(&text[..text.len().min(most)])..]
        }
    }
}

// What stands behind a dot, where a place stands there.
fn dotted_place(strict: bool, text: &[u8]) -> Option<&[u8]>
    ensures { rest_view result
        ≡ (if Spec.begins_dotted strict text.now then Some (drop 1 text.now) else None) }
{
    match text {
        [b'.', b'0'..=b'9', ..] => Some(&text[1..]),
        [b'.', b'x' | b'X' | b'*', ..] if strict => Some(&text[1..]),
        _ => None,
    }
}

// What stands behind the places at the front and behind what follows the third: strictly one to
// three places, and loosely three, or all of the text where three do not stand there.
#[tactic(auto, unfolding(crate::specs::Internal::Inside::behind_places))]
fn behind_places(strict: bool, text: &[u8]) -> &[u8]
    ensures { result.now ≡ Spec.behind_places strict text.now }
{
    let one = behind_place(strict, text);
    let Some(second) = dotted_place(strict, one) else {
        return if strict { one } else { text };
    };
    let two = behind_place(strict, second);
    match dotted_place(strict, two) {
        Some(third) => { build_front(behind_pre_release(strict, behind_place(strict, third))).1 }
        None if strict => two,
        None => text,
    }
}

// What stands behind the longer one of the two.
#[tactic(auto, unfolding(crate::specs::Internal::Inside::behind_partial))]
fn behind_partial(text: &[u8]) -> &[u8]
    ensures { result.now ≡ Spec.behind_partial text.now }
{
    let version = behind_places(false, text);
    let places = behind_places(true, text);
    if version.len() <= places.len() {
        version
    } else {
        places
    }
}

/// Whether a text ends in a partial, or has no characters.
pub fn are_inside(text: &[u8]) -> bool
    ensures { result ≡ Spec.are_inside (length text.now) text.now }
{
    let mut left = text;
    'partials: while let Some(at) = left
        .iter()
        .position(|byte| matches!(byte, b'0'..=b'9' | b'x' | b'X' | b'*'))
    {
        left = behind_partial(&left[at..]);
    }
    left.is_empty()
}
