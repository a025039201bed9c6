// Identifiers that stand in a text, joined by dots, and their order.

ghost use Rattle.std.specs.Prelude.{◌≡◌, ◌<◌, ◌∷◌, drop};
ghost use Rattle.semver_core.specs.Words.{HasText, id_cmp, id_ref_view, identifier_of, is_listed};
ghost use Rattle.semver_core.specs.Words.{IsUtf8, length, listed, number_of_run, slice_cmp, true};

use crate::scan;
use std::cmp::Ordering;

// An identifier that borrows its text.
#[derive(Clone, Copy)]
pub(crate) enum IdRef<'a> {
    Numeric(u64),
    AlphaNumeric(&'a [u8]),
}

// The identifier that a run spells, of this number.
#[inline(always)]
#[tactic(auto, using(crate::proofs::Text::Digits::scanned))]
fn run_id(run: &[u8], number: Option<u64>) -> IdRef<'_>
    requires number { number ≡ number_of_run (Some 0) run.now }
    requires text { IsUtf8 run.now }
    ensures id { id_ref_view result ≡ identifier_of run.now }
    ensures text { HasText result }
{
    match number {
        Some(value) => IdRef::Numeric(value),
        None => IdRef::AlphaNumeric(run),
    }
}

// The text behind its first character.
#[inline(always)]
fn behind_one(text: &[u8]) -> &[u8]
    ensures { result.now ≡ drop 1 text.now }
{
    match text {
        [_, rest @ ..] => rest,
        [] => text,
    }
}

// The first identifier of a text, and the text of the others.
#[inline(always)]
#[tactic(auto, using(crate::proofs::Text::Firsts::firsts))]
pub(crate) fn first_id(text: &[u8]) -> (IdRef<'_>, &[u8])
    requires listed { is_listed text.now ≡ true }
    requires some { 0 < length text.now }
    ensures list { listed text.now ≡ id_ref_view result.0 ∷ listed result.1.now }
    ensures text { HasText result.0 }
    ensures listed { is_listed result.1.now ≡ true }
    ensures less { length result.1.now < length text.now }
{
    let (end, number) = scan::scan_run(text, 0);
    (run_id(&text[..end], number), behind_one(&text[end..]))
}

// The order of two identifiers.
#[inline(always)]
pub(crate) fn cmp_ids(a: IdRef<'_>, b: IdRef<'_>) -> Ordering
    ensures { result ≡ id_cmp (id_ref_view a.entry) (id_ref_view b.entry) }
{
    match (a, b) {
        (IdRef::Numeric(a), IdRef::Numeric(b)) => a.cmp(&b),
        (IdRef::Numeric(_), IdRef::AlphaNumeric(_)) => Ordering::Less,
        (IdRef::AlphaNumeric(_), IdRef::Numeric(_)) => Ordering::Greater,
        (IdRef::AlphaNumeric(a), IdRef::AlphaNumeric(b)) => a.cmp(b),
    }
}

// The order of the lists that two texts spell, identifier by identifier.
#[tactic(auto, using(crate::proofs::Text::Firsts::compared))]
pub(crate) fn cmp_texts(a: &[u8], b: &[u8]) -> Ordering
    requires a { is_listed a.now ≡ true }
    requires b { is_listed b.now ≡ true }
    ensures { result ≡ slice_cmp id_cmp (listed a.now) (listed b.now) }
{
    let mut left = a;
    let mut right = b;
    'ids: loop {
        match (left.is_empty(), right.is_empty()) {
            (true, true) => return Ordering::Equal,
            (true, false) => return Ordering::Less,
            (false, true) => return Ordering::Greater,
            (false, false) => {}
        }
        let (x, others) = first_id(left);
        let (y, rest) = first_id(right);
        let order = cmp_ids(x, y);
        if order.is_ne() {
            return order;
        }
        left = others;
        right = rest;
    }
}
