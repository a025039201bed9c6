// Reading the parts of keys.

ghost use Rattle.std.specs.Prelude.{◌≡◌, ◌<◌, ◌≤◌, ◌^◌, ◌∷◌, ◌++◌, ℕ, MatchOption};
ghost use Rattle.std.specs.Int.{to_be_bytes, w16, w32, w64};
ghost use Rattle.semver_core.specs.Keys.{id_key, ids_key, number_key, pre_key, text_key};
ghost use Rattle.semver_core.specs.Internal.KeyReading.{AreIds, GivesNumber, GivesNumbers};
ghost use Rattle.semver_core.specs.Internal.KeyReading.{IsIdKey, IsPre, IsTextKey, numbers_key};
ghost use Rattle.semver_core.specs.Values.Views.{id_view, ids_view};
ghost use Rattle.semver_core.specs.Words.{[], IfNone, IfOk, IfSome, List, OnErr};
ghost use Rattle.semver_core.specs.Words.{string_bytes};

use crate::keys::check::behind_id;
use crate::version::lists::{Lists, Qualifier};
use crate::{Identifier, Version};
use std::alloc::{AllocError, Global};

// A number of two bytes that does not fit one.
fn read_two(bytes: &[u8]) -> Option<(u64, &[u8])>
    ensures sound { IfSome result (λ f. (251 ≤ f.0) × (f.0 < 2 ^ 16)
        × (bytes.now ≡ to_be_bytes w16 f.0 ++ f.1.now)) }
    ensures complete { (n : ℕ) (rest : List ℕ) → 251 ≤ n → n < 2 ^ 16
        → bytes.now ≡ to_be_bytes w16 n ++ rest → GivesNumber result n rest }
{
    let Some((number, rest)) = bytes.split_first_chunk::<2>() else {
        return None;
    };
    let number = u64::from(u16::from_be_bytes(*number));
    if number < 251 {
        return None;
    }
    Some((number, rest))
}

// A number of four bytes that does not fit two.
fn read_four(bytes: &[u8]) -> Option<(u64, &[u8])>
    ensures sound { IfSome result (λ f. (2 ^ 16 ≤ f.0) × (f.0 < 2 ^ 32)
        × (bytes.now ≡ to_be_bytes w32 f.0 ++ f.1.now)) }
    ensures complete { (n : ℕ) (rest : List ℕ) → 2 ^ 16 ≤ n → n < 2 ^ 32
        → bytes.now ≡ to_be_bytes w32 n ++ rest → GivesNumber result n rest }
{
    let Some((number, rest)) = bytes.split_first_chunk::<4>() else {
        return None;
    };
    let number = u64::from(u32::from_be_bytes(*number));
    if number < 1 << 16 {
        return None;
    }
    Some((number, rest))
}

// A number of eight bytes that does not fit four.
fn read_eight(bytes: &[u8]) -> Option<(u64, &[u8])>
    ensures sound { IfSome result (λ f. (2 ^ 32 ≤ f.0) × (f.0 < 2 ^ 64)
        × (bytes.now ≡ to_be_bytes w64 f.0 ++ f.1.now)) }
    ensures complete { (n : ℕ) (rest : List ℕ) → 2 ^ 32 ≤ n → n < 2 ^ 64
        → bytes.now ≡ to_be_bytes w64 n ++ rest → GivesNumber result n rest }
{
    let Some((number, rest)) = bytes.split_first_chunk::<8>() else {
        return None;
    };
    let number = u64::from_be_bytes(*number);
    if number < 1 << 32 {
        return None;
    }
    Some((number, rest))
}

// The number at the front of bytes, and what follows.
pub(crate) fn read_number(bytes: &[u8]) -> Option<(u64, &[u8])>
    ensures sound { IfSome result (λ f. (f.0 < 2 ^ 64)
        × (bytes.now ≡ number_key f.0 ++ f.1.now)) }
    ensures complete { (n : ℕ) (rest : List ℕ) → n < 2 ^ 64
        → bytes.now ≡ number_key n ++ rest → GivesNumber result n rest }
{
    let Some((first, tail)) = bytes.split_first() else {
        return None;
    };
    let first = *first;
    if first < 251 {
        return Some((u64::from(first), tail));
    }
    match first {
        251 => read_two(tail),
        252 => read_four(tail),
        253 => read_eight(tail),
        _ => None,
    }
}

// The three numbers at the front of bytes, and what follows.
pub(crate) fn read_numbers(bytes: &[u8]) -> Option<(u64, u64, u64, &[u8])>
    ensures sound { IfSome result (λ f. (f.0 < 2 ^ 64) × (f.1 < 2 ^ 64) × (f.2 < 2 ^ 64)
        × (bytes.now ≡ numbers_key f.0 f.1 f.2 f.3.now)) }
    ensures complete { (major minor patch : ℕ) (rest : List ℕ) → major < 2 ^ 64
        → minor < 2 ^ 64 → patch < 2 ^ 64 → bytes.now ≡ numbers_key major minor patch rest
        → GivesNumbers result major minor patch rest }
{
    let Some((major, rest)) = read_number(bytes) else {
        return None;
    };
    let Some((minor, rest)) = read_number(rest) else {
        return None;
    };
    let Some((patch, rest)) = read_number(rest) else {
        return None;
    };
    Some((major, minor, patch, rest))
}

// What follows the byte 255, if bytes begin with it.
pub(crate) fn behind_255(bytes: &[u8]) -> Option<&[u8]>
    ensures { MatchOption result ((rest : List ℕ) → ¬ (bytes.now ≡ 255 ∷ rest))
        (λ rest. bytes.now ≡ 255 ∷ rest.now) }
{
    match bytes.split_first() {
        Some((255, tail)) => Some(tail),
        _ => None,
    }
}

// The text of which this is the key.
fn read_text(alloc: Global, key: &[u8]) -> Result<String, AllocError>
    requires { IsTextKey key.now }
    ensures { IfOk result (λ text. text_key (string_bytes text) ≡ key.now) }
{
    let mut text = Vec::with_capacity(alloc, key.len())?;
    for byte in key {
        if *byte < 255 {
            text.push_reserved(*byte);
        }
    }
    text.pop();
    Ok(String::from_utf8(text).unwrap())
}

// The identifier of which this is the key.
fn read_id(alloc: Global, key: &[u8]) -> Result<Identifier, AllocError>
    requires { IsIdKey key.now }
    ensures { IfOk result (λ id. id_key (id_view id) ≡ key.now) }
{
    let (first, tail) = key.split_first().unwrap();
    if *first == 1 {
        let (number, _) = read_number(tail).unwrap();
        return Ok(Identifier::Numeric(number));
    }
    Ok(Identifier::AlphaNumeric(read_text(alloc, tail)?))
}

// The identifiers of which this is the key.
fn read_ids(alloc: Global, key: &[u8]) -> Result<Vec<Identifier>, AllocError>
    requires { AreIds key.now }
    ensures { IfOk result (λ ids. ids_key (ids_view ids.items) ≡ key.now) }
{
    let mut ids = Vec::new(alloc);
    let mut others = key;
    'ids: while let Some(rest) = behind_id(others) {
        let id = read_id(alloc, &others[..others.len() - rest.len()])?;
        ids.push(id)?;
        others = rest;
    }
    Ok(ids)
}

// The version of three numbers and of the key of a pre-release, or of its absence.
pub(crate) fn read_version(
    alloc: Global,
    major: u64,
    minor: u64,
    patch: u64,
    bytes: &[u8],
) -> Result<Option<Version>, AllocError>
    requires { IsPre bytes.now }
    ensures some { IfOk result (λ found. IfSome found (λ v. (v.major ≡ major) × (v.minor ≡ minor)
        × (v.patch ≡ patch) × (pre_key v.pre_release ≡ bytes.now) × (v.build ≡ []))) }
    ensures none { IfOk result (λ found. IfNone found ⊥) }
    ensures memory { OnErr result (bytes.now ≡ pre_key [] → ⊥) }
{
    if bytes.starts_with(&[3]) {
        return Ok(Some(Version::release(major, minor, patch)));
    }
    let ids = read_ids(alloc, bytes)?;
    let pre_len = ids.len();
    let lists = Qualifier::Lists(Lists { ids, pre_len });
    Ok(Some(Version::from_parts(major, minor, patch, lists)))
}
