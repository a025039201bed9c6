// Which bytes are the key of a pre-release: nothing is allocated.

ghost use Rattle.std.specs.Prelude.{◌≡◌, ◌==◌, ◌<◌, ◌∷◌, ◌++◌, ℕ};
ghost use Rattle.semver_core.specs.Internal.KeyReading.{AreIds, GivesRest, IsIdFront, IsLow};
ghost use Rattle.semver_core.specs.Internal.KeyReading.{IsPre, IsTextFront};
ghost use Rattle.semver_core.specs.Words.{IfNone, IfSome, IsTrue, length, list_all, List};
ghost use Rattle.semver_core.specs.Words.{not, true};

use crate::keys::read::{behind_255, read_number};
use std::str;

// The bytes before the first 0, and what follows it.
fn split_at_zero(bytes: &[u8]) -> Option<(&[u8], &[u8])>
    ensures none { IfNone result (list_all (λ c. not (c == 0)) bytes.now ≡ true) }
    ensures some { IfSome result (λ f. bytes.now ≡ f.0.now ++ 0 ∷ f.1.now) }
    ensures first { IfSome result (λ f. list_all (λ c. not (c == 0)) f.0.now ≡ true) }
{
    let mut at = 0;
    'bytes: while at < bytes.len() {
        if bytes[at] == 0 {
            return Some((&bytes[..at], &bytes[at + 1..]));
        }
        at += 1;
    }
    None
}

// What follows the text at the front of bytes.
fn behind_text(bytes: &[u8]) -> Option<&[u8]>
    ensures sound { IfSome result (λ rest. IsTextFront bytes.now rest.now) }
    ensures complete { (rest : List ℕ) → IsLow rest → IsTextFront bytes.now rest
        → GivesRest result rest }
    ensures shorter { IfSome result (λ rest. length rest.now < length bytes.now) }
{
    let mut others = bytes;
    'text: loop {
        let Some((piece, rest)) = split_at_zero(others) else {
            return None;
        };
        if str::from_utf8(piece).is_err() {
            return None;
        }
        let Some(more) = behind_255(rest) else {
            return Some(rest);
        };
        others = more;
    }
}

// What follows the identifier at the front of bytes.
pub(crate) fn behind_id(bytes: &[u8]) -> Option<&[u8]>
    ensures sound { IfSome result (λ rest. IsIdFront bytes.now rest.now) }
    ensures complete { (rest : List ℕ) → IsLow rest → IsIdFront bytes.now rest
        → GivesRest result rest }
    ensures shorter { IfSome result (λ rest. length rest.now < length bytes.now) }
{
    let Some((first, tail)) = bytes.split_first() else {
        return None;
    };
    match *first {
        1 => match read_number(tail) {
            Some((_, rest)) => Some(rest),
            None => None,
        },
        2 => behind_text(tail),
        _ => None,
    }
}

// Whether the bytes are the key of a list of identifiers.
#[tactic(auto, using(crate::proofs::Encoding::Checking::ids_last))]
fn are_ids(bytes: &[u8]) -> bool
    ensures sound { IsTrue result → AreIds bytes.now }
    ensures complete { AreIds bytes.now → IsTrue result }
{
    let mut others = bytes;
    'ids: while let Some(rest) = behind_id(others) {
        others = rest;
    }
    others.len() == 1 && others[0] == 0
}

// Whether the bytes are the key of a pre-release, or of its absence.
pub(crate) fn is_pre(bytes: &[u8]) -> bool
    ensures sound { IsTrue result → IsPre bytes.now }
    ensures complete { IsPre bytes.now → IsTrue result }
{
    let Some((first, tail)) = bytes.split_first() else {
        return false;
    };
    match *first {
        0 => false,
        3 => tail.is_empty(),
        _ => are_ids(bytes),
    }
}
