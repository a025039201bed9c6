// The pre step: how the pre-release list goes on.

ghost use Rattle.std.specs.Prelude.{◌≡◌, ◌<◌, ◌==◌};
ghost use Rattle.semver_core.specs.Words.{[], bytes_eq, digits_value, false, has_numeric, length};
ghost use Rattle.semver_core.specs.Words.{is_ascii_digit, list_all, list_text, MayAllocate};
ghost use Rattle.semver_core.specs.Words.{MemoryOnlyIf, Returns, Tracks, true};
ghost use Rattle.semver_core.specs.Increments.Table as spec;

use crate::borrowed::dotted::IdRef;
use crate::identifier::are_digits;
use crate::increment::next_ids::NextIds;
use crate::increment::{IdentifierBase, IncrementError, one_more, refused_argument};
use crate::{Failure, IdentifierRef, IdentifierRefs};
use std::alloc::Global;

// The first three steps: the last number rises, and a list without a number gets one.
pub(super) fn advance<'a>(
    alloc: Global,
    ids: &IdentifierRefs<'a>,
    id: &str,
    base: IdentifierBase,
) -> Result<NextIds<'a>, Failure<IncrementError>>
    ensures value { Returns (spec.advance ids.now id.now base) result }
    ensures memory { MemoryOnlyIf result (MayAllocate (λ none. ⊥)
        (spec.advance ids.now id.now base)) }
{
    if ids.is_empty() {
        return Ok(NextIds::of(ids.copy(), Some(first_number(base)), 0));
    }
    if let Some((at, last)) = last_number(ids) {
        return Ok(NextIds::of(ids.copy(), Some(one_more(last)?), at));
    }
    if matches!(base, IdentifierBase::False) && is_text_of(id, ids) {
        return Err(refused_argument(alloc, "identifier already exists"));
    }
    Ok(NextIds::of(ids.copy(), Some(first_number(base)), ids.at_most()))
}

pub(super) fn first_number(base: IdentifierBase) -> u64
    ensures { result ≡ spec.first_number base }
{
    match base {
        IdentifierBase::False | IdentifierBase::Value(0) => 0,
        IdentifierBase::Value(_) => 1,
    }
}

// The place of the last number of a list, and the number.
#[tactic(auto, using(crate::proofs::Increments::LastNumber::tracking))]
fn last_number(ids: &IdentifierRefs<'_>) -> Option<(usize, u64)>
    ensures { Tracks ids.now [] result }
{
    let mut last = None;
    let mut others = ids.copy();
    'ids: for at in 0..ids.at_most() {
        let Some(id) = others.next_bare() else {
            break;
        };
        last = match id {
            IdRef::Numeric(number) => Some((at, number)),
            IdRef::AlphaNumeric(_) => last,
        };
    }
    last
}

// Whether a text is that of a list without numbers, its identifiers joined by dots.
fn is_text_of(text: &str, ids: &IdentifierRefs<'_>) -> bool
    requires { has_numeric ids.now ≡ false }
    ensures { result ≡ bytes_eq text.now (list_text ids.now) }
{
    let mut rest = text.as_bytes();
    let mut mark = b"".as_slice();
    let mut others = ids.copy();
    'ids: while let Some(id) = others.next() {
        let word = match id {
            IdentifierRef::AlphaNumeric(word) => word.as_bytes(),
            IdentifierRef::Numeric(_) => return false,
        };
        let Some(behind) = rest.strip_prefix(mark) else {
            return false;
        };
        let Some(behind) = behind.strip_prefix(word) else {
            return false;
        };
        rest = behind;
        mark = b".".as_slice();
    }
    rest.is_empty()
}

// Whether the identifiers begin with what the asked one matches, and then a number.
#[tactic(auto, using(crate::proofs::Increments::LastNumber::asked_matches))]
pub(super) fn is_kept(wanted: &str, ids: &NextIds<'_>) -> bool
    requires { 0 < length wanted.now }
    ensures { result ≡ spec.is_kept wanted.now ids.now }
{
    let mut others = ids.copy();
    let begins = match others.next() {
        Some(IdentifierRef::Numeric(n)) => are_digits(wanted.as_bytes()) && has_value(wanted, n),
        Some(IdentifierRef::AlphaNumeric(text)) => !are_digits(wanted.as_bytes()) && text == wanted,
        None => false,
    };
    begins && matches!(others.next(), Some(IdentifierRef::Numeric(_)))
}

#[tactic(auto, using(crate::proofs::Increments::LastNumber::value_run))]
fn has_value(digits: &str, n: u64) -> bool
    requires some { 0 < length digits.now }
    requires digits { list_all is_ascii_digit digits.now ≡ true }
    ensures { result ≡ (digits_value 10 digits.now == n) }
{
    digits.parse::<u64>().is_ok_and(|value| value == n)
}
