// Writing keys into room that is there.

ghost use Rattle.std.specs.Prelude.{◌≡◌, ◌≤◌, ◌+◌, ◌++◌, vec_capacity, vec_len};
ghost use Rattle.semver_core.specs.Keys.{id_key, number_key, pre_key, text_key};
ghost use Rattle.semver_core.specs.Words.{length, lent_id_view};

use crate::{IdentifierRef, IdentifierRefs};

// Adds the key of a number.
#[tactic(auto, using(std::proofs::lemmas::Grind::common_steps))]
pub(crate) fn write_number(number: u64, key: &mut Vec<u8>)
    requires { vec_len key.old + length (number_key number) ≤ vec_capacity key.old }
    ensures items { key.new.items ≡ key.old.items ++ number_key number }
    ensures len { vec_len key.new ≡ vec_len key.old + length (number_key number) }
    ensures capacity { vec_capacity key.old ≤ vec_capacity key.new }
{
    if number < 251 {
        key.push_reserved(number as u8);
    } else if number < 1 << 16 {
        key.push_reserved(251);
        let _ = key.extend_from_slice(&(number as u16).to_be_bytes());
    } else if number < 1 << 32 {
        key.push_reserved(252);
        let _ = key.extend_from_slice(&(number as u32).to_be_bytes());
    } else {
        key.push_reserved(253);
        let _ = key.extend_from_slice(&number.to_be_bytes());
    }
}

// Adds the key of a text.
fn write_text(text: &str, bytes: &mut Vec<u8>)
    requires { vec_len bytes.old + length (text_key text.now) ≤ vec_capacity bytes.old }
    ensures items { bytes.new.items ≡ bytes.old.items ++ text_key text.now }
    ensures len { vec_len bytes.new ≡ vec_len bytes.old + length (text_key text.now) }
    ensures capacity { vec_capacity bytes.old ≤ vec_capacity bytes.new }
{
    for byte in text.as_bytes() {
        bytes.push_reserved(*byte);
        if *byte == 0 {
            bytes.push_reserved(255);
        }
    }
    bytes.push_reserved(0);
}

// Adds the key of an identifier.
#[tactic(auto, using(std::proofs::lemmas::Grind::common_steps))]
fn write_id(id: IdentifierRef<'_>, key: &mut Vec<u8>)
    requires { vec_len key.old + length (id_key (lent_id_view id)) ≤ vec_capacity key.old }
    ensures items { key.new.items ≡ key.old.items ++ id_key (lent_id_view id.entry) }
    ensures len { vec_len key.new ≡ vec_len key.old + length (id_key (lent_id_view id.entry)) }
    ensures capacity { vec_capacity key.old ≤ vec_capacity key.new }
{
    match id {
        IdentifierRef::Numeric(number) => {
            key.push_reserved(1);
            write_number(number, key);
        }
        IdentifierRef::AlphaNumeric(text) => {
            key.push_reserved(2);
            write_text(text, key);
        }
    }
}

// Adds the key of a pre-release; of a release that it has none.
#[tactic(auto, using(std::proofs::lemmas::Grind::common_steps))]
pub(crate) fn write_pre(ids: IdentifierRefs<'_>, key: &mut Vec<u8>)
    requires { vec_len key.old + length (pre_key ids) ≤ vec_capacity key.old }
    ensures items { key.new.items ≡ key.old.items ++ pre_key ids.entry }
    ensures capacity { vec_capacity key.old ≤ vec_capacity key.new }
{
    if ids.is_empty() {
        key.push_reserved(3);
        return;
    }
    let mut others = ids;
    'ids: while let Some(id) = others.next() {
        write_id(id, key);
    }
    key.push_reserved(0);
}
