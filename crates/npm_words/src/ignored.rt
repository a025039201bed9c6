//! The malformed words of range texts that node-semver's loose reading ignores: how far they go.
//!
//! This is for the crates of this repository.

ghost use Rattle.npm_words.specs.{Internal.Words.behind_ignored, Words.{begins, length}};
ghost use Rattle.std.specs.{Char.is_ascii_graphic, Prelude.{drop, not, ◌&&◌, ◌==◌, ◌≡◌}};
ghost use Rattle.npm_words.specs.Internal.Words as Spec;
ghost use Rattle.npm_words.specs.Malformed as Text;

use crate::inside::are_inside;
use crate::words::marks_len;
use semver_pieces::{skip_spaces, skip_to_boundary};

// Whether a number or a wildcard is at the front, or stands there behind marks.
fn begins_place(text: &[u8]) -> bool
    ensures { result ≡ Text.begins_place text.now }
{
    matches!(
        &text[marks_len(text)..],
        [b'0'..=b'9' | b'x' | b'X' | b'*', ..]
    )
}

// Whether a text ends in a comparator: in `<`, `>`, or a `=` that stands behind no mark.
fn ends_compared(text: &[u8]) -> bool
    ensures { result ≡ Spec.ends_compared text.now }
{
    let is_behind_mark = text.ends_with(b"v=") || text.ends_with(b"==");
    text.ends_with(b"<") || text.ends_with(b">") || text.ends_with(b"=") && !is_behind_mark
}

// Whether a `=` alone is at the front.
fn begins_equal(text: &[u8]) -> bool
    ensures { result ≡ (begins (λ b. b == 61) text.now
        && not (begins is_ascii_graphic (drop 1 text.now))) }
{
    match text {
        [b'=', next, ..] => !next.is_ascii_graphic(),
        _ => matches!(text, [b'=']),
    }
}

// Whether what follows a piece of a malformed word behind whitespace belongs to the word.
#[tactic(auto, unfolding(crate::specs::Internal::Words::takes_on))]
fn takes_on(piece: &[u8], rest: &[u8]) -> bool
    ensures { result ≡ Spec.takes_on piece.now rest.now }
{
    let front = &piece[..piece.len().saturating_sub(1)];
    piece.ends_with(b"^")
        || piece.ends_with(b"~")
        || ends_compared(piece) && begins_place(rest)
        || piece.ends_with(b"~>") && !begins_equal(rest)
        || piece.ends_with(b"=") && are_inside(front) && begins_place(rest)
}

/// What stands behind the malformed word at the front.
#[tactic(auto, using(crate::proofs::Grammar::Ignored::pieces_passed))]
pub fn behind_ignored(text: &[u8]) -> &[u8]
    ensures { result.now ≡ behind_ignored (length text.now) text.now }
{
    let mut rest = text;
    'pieces: loop {
        let behind = skip_to_boundary(rest);
        let next = skip_spaces(behind);
        let len = rest.len() - behind.len();
        if !takes_on(&rest[..len], next) {
            return behind;
        }
        rest = next;
    }
}
