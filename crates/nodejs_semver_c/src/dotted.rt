// The order of the identifiers that two texts spell, where they stand. Any text is taken: it is cut
// at its dots, and a piece of digits is a number.

ghost use Rattle.nodejs_semver_c.specs.Internal.Dotted.{piece_from, spelled};
ghost use Rattle.semver_core.specs.Internal.CommonReading.{grown, number_of_run};
ghost use Rattle.semver_core.specs.Text.Identifiers.{identifier_of, listed};
ghost use Rattle.semver_core.specs.Values.Order.{id_cmp, pre_cmp};
ghost use Rattle.std.specs.Cmp.Lexicographic.{slice_cmp};
ghost use Rattle.std.specs.Prelude.{◌+◌, ◌<◌, ◌≡◌, ◌≤◌, IfNone, IfSome, None, Some, drop, length};

use crate::read::MOST_BYTES;
use std::cmp::Ordering;

/// The order of the pre-releases of two texts.
#[inline(never)]
pub fn cmp_pre(text: &[u8], other: &[u8]) -> Ordering
    ensures { result ≡ pre_cmp (listed text.now) (listed other.now) }
{
    cmp_pre_texts(in_memory(text), in_memory(other))
}

/// The order of the lists of two texts, identifier by identifier.
#[inline(never)]
pub fn cmp_lists(text: &[u8], other: &[u8]) -> Ordering
    ensures { result ≡ slice_cmp id_cmp (listed text.now) (listed other.now) }
{
    cmp_texts(in_memory(text), in_memory(other))
}

// The text. Only of a caller that is not Rattle it may claim to be longer than memory; then it is
// another one, so that no byte of it is read.
#[inline(always)]
fn in_memory(text: &[u8]) -> &[u8]
    ensures { result.now ≡ text.now }
{
    if text.len() > MOST_BYTES { b"\0" } else { text }
}

#[inline(always)]
#[tactic(auto, using(crate::proofs::Cutting::ends))]
fn cmp_pre_texts(text: &[u8], other: &[u8]) -> Ordering
    ensures { result ≡ pre_cmp (listed text.now) (listed other.now) }
{
    match (text.is_empty(), other.is_empty()) {
        (true, true) => Ordering::Equal,
        (true, false) => Ordering::Greater,
        (false, true) => Ordering::Less,
        (false, false) => cmp_pieces(text, other),
    }
}

#[inline(always)]
#[tactic(auto, using(crate::proofs::Cutting::ends))]
fn cmp_texts(text: &[u8], other: &[u8]) -> Ordering
    ensures { result ≡ slice_cmp id_cmp (listed text.now) (listed other.now) }
{
    match (text.is_empty(), other.is_empty()) {
        (true, true) => Ordering::Equal,
        (true, false) => Ordering::Less,
        (false, true) => Ordering::Greater,
        (false, false) => cmp_pieces(text, other),
    }
}

// The order of two texts piece by piece. An empty text is one empty piece.
fn cmp_pieces(text: &[u8], other: &[u8]) -> Ordering
    ensures { result ≡ slice_cmp id_cmp (spelled text.now) (spelled other.now) }
{
    let mut left = text;
    let mut right = other;
    'pieces: loop {
        let (end, number) = first_piece(left);
        let (stop, value) = first_piece(right);
        let order = cmp_ids(&left[..end], number, &right[..stop], value);
        if order.is_ne() {
            return order;
        }
        match (behind(left, end), behind(right, stop)) {
            (Some(rest), Some(others)) => {
                left = rest;
                right = others;
            }
            (Some(_), None) => return Ordering::Greater,
            (None, Some(_)) => return Ordering::Less,
            (None, None) => return Ordering::Equal,
        }
    }
}

// The text behind the dot at a place, or none at the end.
#[inline(always)]
fn behind(text: &[u8], end: usize) -> Option<&[u8]>
    requires { end ≤ length text.now }
    ensures some { IfSome result (λ rest. (end < length text.now)
        × (rest.now ≡ drop (end + 1) text.now)) }
    ensures none { IfNone result (length text.now ≤ end) }
{
    match &text[end..] {
        [_, rest @ ..] => Some(rest),
        [] => None,
    }
}

// The order of two pieces, with the numbers that they write.
#[inline(always)]
#[tactic(auto, using(semver_core::proofs::Text::Digits::scanned))]
fn cmp_ids(piece: &[u8], number: Option<u64>, other: &[u8], value: Option<u64>) -> Ordering
    requires piece { number ≡ number_of_run (Some 0) piece.now }
    requires other { value ≡ number_of_run (Some 0) other.now }
    ensures { result ≡ id_cmp (identifier_of piece.now) (identifier_of other.now) }
{
    match (number, value) {
        (Some(number), Some(value)) => number.cmp(&value),
        (Some(_), None) => Ordering::Less,
        (None, Some(_)) => Ordering::Greater,
        (None, None) => piece.cmp(other),
    }
}

// Where the first piece of a text ends, and the number that it writes, if it is digits alone and
// fits.
#[inline(always)]
#[tactic(auto, using(crate::proofs::Cutting::piece_ends))]
fn first_piece(text: &[u8]) -> (usize, Option<u64>)
    ensures { result ≡ piece_from (Some 0) 0 text.now }
{
    let mut number = 0u64;
    'digits: for end in 0..text.len() {
        let byte = text[end];
        if byte == b'.' {
            return (end, Some(number));
        }
        match grown(number, byte) {
            Some(next) => number = next,
            None => return (piece_end(text, end + 1), None),
        }
    }
    (text.len(), Some(number))
}

// Where the piece ends that goes on at a place.
#[inline(always)]
#[tactic(auto, using(crate::proofs::Cutting::piece_ends))]
fn piece_end(text: &[u8], start: usize) -> usize
    requires { start ≤ length text.now }
    ensures { (result, None) ≡ piece_from None start (drop start text.now) }
{
    'bytes: for end in start..text.len() {
        if text[end] == b'.' {
            return end;
        }
    }
    text.len()
}

// The number that digits write so far, with one byte more: none where a byte is no digit, or the
// number does not fit.
#[inline(always)]
#[tactic(auto, using(semver_core::proofs::Text::Digits::grown_either))]
fn grown(value: u64, byte: u8) -> Option<u64>
    ensures { result ≡ grown (Some value) byte }
{
    if !byte.is_ascii_digit() {
        return None;
    }
    value.checked_mul(10)?.checked_add(u64::from(byte - b'0'))
}
