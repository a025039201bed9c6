// How long keys are.

ghost use Rattle.std.specs.Prelude.{◌≡◌, ◌≤◌, ◌-◌, ◌^◌, min};
ghost use Rattle.semver_core.specs.Keys.{id_key, key, number_key, pre_key};
ghost use Rattle.semver_core.specs.Words.{length, lent_id_view};

use crate::{IdentifierRef, IdentifierRefs, Versioned};

// How many bytes the key of a number has.
fn number_len(number: u64) -> usize
    ensures exact { result ≡ length (number_key number) }
    ensures small { result ≤ 9 }
{
    if number < 251 {
        1
    } else if number < 1 << 16 {
        3
    } else if number < 1 << 32 {
        5
    } else {
        9
    }
}

// How many bytes the key of an identifier has, or the greatest number if they are more.
fn id_len(id: IdentifierRef<'_>) -> usize
    ensures { result ≡ min (length (id_key (lent_id_view id.entry))) (2 ^ 64 - 1) }
{
    match id {
        IdentifierRef::Numeric(number) => 1 + number_len(number),
        IdentifierRef::AlphaNumeric(text) => {
            let mut len = 1usize;
            for byte in text.as_bytes() {
                len += if *byte == 0 { 2 } else { 1 };
            }
            len.saturating_add(1)
        }
    }
}

// How many bytes the key of a pre-release has, or the greatest number.
fn pre_len(ids: IdentifierRefs<'_>) -> usize
    ensures { result ≡ min (length (pre_key ids.entry)) (2 ^ 64 - 1) }
{
    if ids.is_empty() {
        return 1;
    }
    let mut others = ids;
    let mut len = 0usize;
    'ids: while let Some(id) = others.next() {
        len = len.saturating_add(id_len(id));
    }
    len.saturating_add(1)
}

// How many bytes the key of a version has, or the greatest number.
pub(crate) fn key_len<V: Versioned>(version: &V) -> usize
    ensures { result ≡ min (length (key (V.value version.now))) (2 ^ 64 - 1) }
{
    let numbers = number_len(version.major())
        + number_len(version.minor())
        + number_len(version.patch());
    numbers.saturating_add(pre_len(version.pre_release()))
}
