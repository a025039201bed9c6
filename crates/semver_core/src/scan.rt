//! The pieces that every reader of versions and ranges is made of: whitespace, numbers and
//! identifiers.
//!
//! A call on a `&str` takes a place in it, a byte index. A call on a `&[u8]` reads at the front of
//! the bytes, save `number_in`, which takes a place.

ghost use Rattle.std.specs.Prelude.{◌≡◌, ◌≤◌, ◌+◌, ◌-◌, ◌*◌, ◌<◌, ℕ, drop, IfNone, IfOk};
ghost use Rattle.semver_core.specs.Words.{false, begins, digits_end, digits_from};
ghost use Rattle.semver_core.specs.Words.{goes_on, grown, Id, id_view, identifier_of, ids_view};
ghost use Rattle.semver_core.specs.Words.{IfSome, is_identifier_char, is_whitespace, IsListAdded};
ghost use Rattle.semver_core.specs.Words.{IsAfterBlank, IsCharBoundary, IsLongestIdentifiers};
ghost use Rattle.semver_core.specs.Words.{IsPieceAt, IsTrim, IsTrue, IsUtf8, IsWholeNumber, length};
ghost use Rattle.semver_core.specs.Words.{List, list_len, NoPieceAt, number_at, OnErr};
ghost use Rattle.semver_core.specs.Words.{placed, prefix_len, run_from, take, true, utf8_valid_len};

use crate::reach::{OfText, Reach};
use crate::{Allocated, Identifier, MAX_SAFE_INTEGER};
use std::alloc::{AllocError, Global};

/// Returns the longest text at the front of some bytes, which is all of them where they are UTF-8:
/// of the bytes `31 FF` it is `1`.
#[tactic(auto, using(crate::proofs::Text::Blanks::text_fronts))]
pub fn text_front(bytes: &[u8]) -> &str
    ensures longest { result.now ≡ take (utf8_valid_len bytes.now) bytes.now }
    ensures whole { IsUtf8 bytes.now → result.now ≡ bytes.now }
{
    match bytes.utf8_chunks().next() {
        Some(chunk) => chunk.valid(),
        None => "",
    }
}

/// Whether a code point is that of a whitespace character, as `skip_whitespace` lists them.
#[inline(always)]
pub fn is_whitespace_code(code: u32) -> bool
    ensures { result ≡ is_whitespace code }
{
    matches!(code, 0x9..=0xD | 0x20 | 0xA0 | 0x1680 | 0x2000..=0x200A)
        || matches!(code, 0x2028 | 0x2029 | 0x202F | 0x205F | 0x3000 | 0xFEFF)
}

/// Returns the place behind the whitespace that begins at a place, which is that place itself if no
/// whitespace stands there.
///
/// Whitespace is what node-semver skips: tab to carriage return, the space, U+00A0, U+1680, U+2000
/// to U+200A, U+2028, U+2029, U+202F, U+205F, U+3000 and U+FEFF. A place is a byte index on a
/// character boundary. Place 0 is one by std's lemma `IsCharBoundary-start` (of
/// `Rattle.std.proofs.lemmas.Str`): the goal of a call `skip_whitespace(text, 0)` is answered by
/// `IsCharBoundary-start c.args.text.now c.utf8.text`.
#[tactic(auto, using(crate::proofs::Text::Blanks::passing))]
pub fn skip_whitespace(text: &str, at: usize) -> usize
    requires { IsCharBoundary text.now at }
    ensures { IsAfterBlank text.now at result }
{
    let mut end = at;
    'spaces: for character in text[at..].chars() {
        if !is_whitespace_code(u32::from(character)) {
            return end;
        }
        end += character.len_utf8();
    }
    end
}

/// Returns the text without the whitespace at its front and at its end: a part of the text, empty
/// if the text is whitespace alone.
///
/// Whitespace is what JavaScript's `trim` takes off, which is what `skip_whitespace` skips. U+0085,
/// U+180E and U+200B are not whitespace.
///
/// `trim(" \u{FEFF}1.x || 2 ")` is `"1.x || 2"`.
#[inline]
#[tactic(auto, using(crate::proofs::Text::Trims::trimmed))]
pub fn trim(text: &str) -> &str
    ensures middle { IsTrim text.now result.now }
{
    // Most texts are empty, or begin and end with a visible character of ASCII.
    let bytes = text.as_bytes();
    if bytes.is_empty() {
        return text;
    }
    if bytes[0].is_ascii_graphic() && bytes[bytes.len() - 1].is_ascii_graphic() {
        return text;
    }
    trim_both(text)
}

// `trim`, character by character from both ends.
#[cold]
#[inline(never)]
fn trim_both(text: &str) -> &str
    ensures middle { IsTrim text.now result.now }
{
    let start = skip_whitespace(text, 0);
    let mut rest = &text[start..];
    let mut before = rest.chars();
    'spaces: while let Some(character) = before.next_back() {
        if !is_whitespace_code(u32::from(character)) {
            return rest;
        }
        rest = before.as_str();
    }
    rest
}

/// Returns the number at a place, and the place behind it: a whole run of ASCII digits, leading
/// zeros allowed, of a value up to `MAX_SAFE_INTEGER`. A run of a greater value is not a number,
/// and it is not cut short.
///
/// The place is one before which no digit stands; at any other the run is what is left of it from
/// there on.
pub fn number(text: &str, at: usize) -> Option<(u64, usize)>
    requires { at ≤ length text.now }
    // What is found is a whole run of digits.
    ensures found { IfSome result (λ found. IsPieceAt
        (λ digits rest. IsWholeNumber MAX_SAFE_INTEGER digits rest found.0) text.now at found.1) }
    // Nothing is found only where no number begins.
    ensures none { IfNone result ((n : ℕ) →
        NoPieceAt (λ digits rest. IsWholeNumber MAX_SAFE_INTEGER digits rest n) text.now at) }
    ensures place { IfSome result (λ found. found.1 ≤ length text.now) }
{
    number_in(text.as_bytes(), at)
}

/// `number` over the bytes of a text.
#[inline(always)]
pub fn number_in(bytes: &[u8], at: usize) -> Option<(u64, usize)>
    requires { at ≤ length bytes.now }
    // What is found is a whole run of digits.
    ensures found { IfSome result (λ found. IsPieceAt
        (λ digits rest. IsWholeNumber MAX_SAFE_INTEGER digits rest found.0) bytes.now at found.1) }
    // Nothing is found only where no number begins.
    ensures none { IfNone result ((n : ℕ) →
        NoPieceAt (λ digits rest. IsWholeNumber MAX_SAFE_INTEGER digits rest n) bytes.now at) }
    ensures place { IfSome result (λ found. found.1 ≤ length bytes.now) }
{
    digits::<OfText>(bytes, at)
}

// The digit at a place, if one stands there.
#[inline(always)]
#[tactic(auto, using(crate::proofs::Text::Digits::digits_one))]
fn digit<R: Reach>(bytes: &[u8], at: usize) -> Option<u64>
    requires { R.stands bytes.now at }
    ensures some { IfSome result (λ d. (v k : ℕ) → v * 10 + d ≤ MAX_SAFE_INTEGER
        → digits_from MAX_SAFE_INTEGER v k (drop at bytes.now)
        ≡ digits_from MAX_SAFE_INTEGER (v * 10 + d) (k + 1) (drop (at + 1) bytes.now)) }
    ensures over { IfSome result (λ d. (v k : ℕ) → MAX_SAFE_INTEGER < v * 10 + d
        → digits_from MAX_SAFE_INTEGER v k (drop at bytes.now) ≡ None) }
    ensures none { IfNone result ((v k : ℕ) →
        digits_from MAX_SAFE_INTEGER v k (drop at bytes.now) ≡ digits_end v k) }
    ensures small { IfSome result (λ d. d < 10) }
    ensures place { IfSome result (λ d. R.stands bytes.now (at + 1)) }
{
    if R::inside(bytes, at) && bytes[at].is_ascii_digit() {
        Some(u64::from(bytes[at] - b'0'))
    } else {
        None
    }
}

// `number_in` as a function of the bytes. Most numbers have one digit or two.
#[inline(always)]
pub(crate) fn digits<R: Reach>(bytes: &[u8], at: usize) -> Option<(u64, usize)>
    requires { R.stands bytes.now at }
    ensures found { result ≡ number_at MAX_SAFE_INTEGER bytes.now at }
    ensures place { IfSome result (λ found. R.stands bytes.now found.1) }
{
    let Some(first) = digit::<R>(bytes, at) else {
        return None;
    };
    let Some(second) = digit::<R>(bytes, at + 1) else {
        return Some((first, at + 1));
    };
    let value = first * 10 + second;
    let Some(third) = digit::<R>(bytes, at + 2) else {
        return Some((value, at + 2));
    };
    long_number::<R>(bytes, at, at + 3, value * 10 + third)
}

// `more_digits`, inlined: room for what the call returns is made only where it is called.
#[inline(always)]
fn long_number<R: Reach>(bytes: &[u8], at: usize, next: usize, front: u64) -> Option<(u64, usize)>
    requires order { at < next }
    requires place { R.stands bytes.now next }
    requires small { front ≤ MAX_SAFE_INTEGER }
    ensures found { result ≡ placed at
        (digits_from MAX_SAFE_INTEGER front (next - at) (drop next bytes.now)) }
    ensures place { IfSome result (λ found. R.stands bytes.now found.1) }
{
    let Some((number, end)) = more_digits::<R>(bytes, at, next, front) else {
        return None;
    };
    Some((number, end))
}

// The number at a place of which these digits were read, up to another place.
#[inline(never)]
fn more_digits<R: Reach>(bytes: &[u8], at: usize, next: usize, front: u64) -> Option<(u64, usize)>
    requires order { at < next }
    requires place { R.stands bytes.now next }
    requires small { front ≤ MAX_SAFE_INTEGER }
    ensures found { result ≡ placed at
        (digits_from MAX_SAFE_INTEGER front (next - at) (drop next bytes.now)) }
    ensures place { IfSome result (λ found. R.stands bytes.now found.1) }
{
    let mut value = front;
    let mut end = next;
    'digits: while let Some(digit) = digit::<R>(bytes, end) {
        value = value * 10 + digit;
        if value > MAX_SAFE_INTEGER {
            return None;
        }
        end += 1;
    }
    Some((value, end))
}

// Each character of identifiers stands at its own place, and a space at every other place.
static IDENTIFIER_CHARS: [u8; 256] = *b"\
    \x20                               \
    \x20            -  0123456789      \
    \x20ABCDEFGHIJKLMNOPQRSTUVWXYZ     \
    \x20abcdefghijklmnopqrstuvwxyz     \
    \x20                               \
    \x20                               \
    \x20                               \
    \x20                               ";

/// Whether a byte is an ASCII letter, an ASCII digit or `-`, which identifiers are made of.
#[inline(always)]
pub fn is_identifier_char(byte: u8) -> bool
    ensures { result ≡ is_identifier_char byte }
{
    IDENTIFIER_CHARS[byte as usize] != b' '
}

/// Whether a text begins with a character of identifiers.
#[inline(always)]
pub fn begins_identifier(text: &[u8]) -> bool
    ensures { result ≡ begins is_identifier_char text.now }
{
    matches!(text, [byte, ..] if is_identifier_char(*byte))
}

/// Whether an identifier list that ends before this text would go on with it: with a character of
/// identifiers, or with a dot that such a character follows.
#[inline(always)]
pub fn goes_on(text: &[u8]) -> bool
    ensures { result ≡ goes_on text.now }
{
    list_goes_on::<OfText>(text, 0)
}

// Whether a character of identifiers stands at a place.
#[inline(always)]
#[tactic(auto, using(crate::proofs::Text::Ends::goes_at))]
pub(crate) fn begins_at<R: Reach>(bytes: &[u8], at: usize) -> bool
    requires { R.stands bytes.now at }
    ensures begins { result ≡ begins is_identifier_char (drop at bytes.now) }
    ensures place { IsTrue result → R.stands bytes.now (at + 1) }
{
    R::inside(bytes, at) && is_identifier_char(bytes[at])
}

// Whether an identifier list that ends before a place would go on there.
#[inline(always)]
#[tactic(auto, using(crate::proofs::Text::Ends::goes_at))]
fn list_goes_on<R: Reach>(bytes: &[u8], at: usize) -> bool
    requires { R.stands bytes.now at }
    ensures goes { result ≡ goes_on (drop at bytes.now) }
    ensures inside { IsTrue result → at < length bytes.now }
    ensures place { IsTrue result → R.stands bytes.now (at + 1) }
{
    R::inside(bytes, at)
        && (is_identifier_char(bytes[at]) || (bytes[at] == b'.' && begins_at::<R>(bytes, at + 1)))
}

// Where the identifiers end that begin at a place.
#[inline(always)]
#[tactic(auto, using(crate::proofs::Text::Ends::list_ends))]
pub(crate) fn list_end<R: Reach>(bytes: &[u8], start: usize) -> usize
    requires { R.stands bytes.now start }
    ensures exact { result ≡ start + list_len (drop start bytes.now) }
    ensures place { R.stands bytes.now result }
{
    let mut end = start;
    'bytes: while list_goes_on::<R>(bytes, end) {
        end += 1;
    }
    end
}

// Whether a list goes on at the end of a run, where no character of identifiers stands.
#[inline(always)]
#[tactic(auto, using(crate::proofs::Text::Digits::places))]
pub(crate) fn goes_on_at(text: &str, at: usize) -> bool
    requires place { at ≤ length text.now }
    requires stop { begins is_identifier_char (drop at text.now) ≡ false }
    ensures { result ≡ goes_on (drop at text.now) }
{
    matches!(&text.as_bytes()[at..], [b'.', byte, ..] if is_identifier_char(*byte))
}

// The number that digits write so far, with one byte more: none where a byte is no digit, or the
// number does not fit.
#[inline(always)]
#[tactic(auto, using(crate::proofs::Text::Digits::grown_either))]
fn grown(value: u64, byte: u8) -> Option<u64>
    ensures { result ≡ grown (Some value) byte }
{
    if !byte.is_ascii_digit() {
        return None;
    }
    value.checked_mul(10)?.checked_add(u64::from(byte - b'0'))
}

// Where the run ends that goes on at a place.
#[inline(always)]
#[tactic(auto, using(crate::proofs::Text::Digits::run_ends))]
pub(crate) fn run_end(bytes: &[u8], start: usize) -> usize
    requires { start ≤ length bytes.now }
    ensures { (result, None) ≡ run_from None start (drop start bytes.now) }
{
    'run: for end in start..bytes.len() {
        if !is_identifier_char(bytes[end]) {
            return end;
        }
    }
    bytes.len()
}

// Where the run that begins at a place ends, and the number that it writes. Most are letters, or a
// number up to the limit.
#[inline(always)]
#[tactic(auto, using(crate::proofs::Text::Digits::run_ends))]
pub(crate) fn scan_run(bytes: &[u8], start: usize) -> (usize, Option<u64>)
    requires place { start ≤ length bytes.now }
    requires here { begins is_identifier_char (drop start bytes.now) ≡ true }
    ensures { result ≡ run_from (Some 0) start (drop start bytes.now) }
{
    match digits::<OfText>(bytes, start) {
        Some((number, end)) if !begins_identifier(&bytes[end..]) => (end, Some(number)),
        None if !bytes[start].is_ascii_digit() => (run_end(bytes, start + 1), None),
        _ => mixed_run(bytes, start),
    }
}

// `scan_run` of any run, byte by byte.
#[inline(never)]
#[tactic(auto, using(crate::proofs::Text::Digits::run_ends))]
fn mixed_run(bytes: &[u8], start: usize) -> (usize, Option<u64>)
    requires { start ≤ length bytes.now }
    ensures { result ≡ run_from (Some 0) start (drop start bytes.now) }
{
    let mut number = 0u64;
    'digits: for end in start..bytes.len() {
        let byte = bytes[end];
        if !is_identifier_char(byte) {
            return (end, Some(number));
        }
        match grown(number, byte) {
            Some(next) => number = next,
            None => return (run_end(bytes, end + 1), None),
        }
    }
    (bytes.len(), Some(number))
}

// The identifier at a place where a run begins, by what `scan_run` found there.
#[inline(always)]
#[tactic(auto, using(crate::proofs::Text::Digits::run_facts))]
pub(crate) fn run_id(
    alloc: Global,
    text: &str,
    start: usize,
    run: (usize, Option<u64>),
) -> Allocated<Identifier>
    requires place { start ≤ length text.now }
    requires here { begins is_identifier_char (drop start text.now) ≡ true }
    requires run { run ≡ run_from (Some 0) start (drop start text.now) }
    ensures id { IfOk result (λ id. id_view id ≡ identifier_of
        (take (prefix_len is_identifier_char (drop start text.now)) (drop start text.now))) }
    ensures end { run.0 ≡ start + prefix_len is_identifier_char (drop start text.now) }
    ensures after { start ≤ run.0 }
    ensures fits { run.0 ≤ length text.now }
{
    match run.1 {
        Some(value) => Ok(Identifier::Numeric(value)),
        None => Ok(Identifier::AlphaNumeric(String::from_str(alloc, &text[start..run.0])?)),
    }
}

/// Returns the identifier list at a place, read as long as possible, and the place behind it: runs
/// of ASCII letters, digits and `-`, joined by dots. A dot that no such character follows does not
/// belong to it.
///
/// Returns `None` if no such character stands there, and then allocates nothing. Fails only if
/// allocation fails.
pub fn identifiers(
    alloc: Global,
    text: &str,
    at: usize,
) -> Result<Option<(Vec<Identifier>, usize)>, AllocError>
    requires { at ≤ length text.now }
    // What is found is the longest list there.
    ensures found { IfOk result (λ found. IfSome found (λ list.
        IsPieceAt (λ piece rest. IsLongestIdentifiers piece rest (ids_view list.0.items))
        text.now at list.1)) }
    // Nothing is found only where no list begins.
    ensures none { IfOk result (λ found. IfNone found ((ids : List Id) →
        NoPieceAt (λ piece rest. IsLongestIdentifiers piece rest ids) text.now at)) }
    ensures place { IfOk result (λ found. IfSome found (λ list. list.1 ≤ length text.now)) }
    // Allocation fails only where a list begins.
    ensures memory { OnErr result (begins is_identifier_char (drop at text.now) ≡ true) }
{
    if !begins_at::<OfText>(text.as_bytes(), at) {
        return Ok(None);
    }
    let mut list = Vec::new(alloc);
    let end = read_list(alloc, text, at, &mut list)?;
    Ok(Some((list, end)))
}

// Adds to a list the identifiers at a place where one begins.
#[inline(never)]
pub(crate) fn read_list(
    alloc: Global,
    text: &str,
    at: usize,
    list: &mut Vec<Identifier>,
) -> Allocated<usize>
    requires inside { at ≤ length text.now }
    requires here { begins is_identifier_char (drop at text.now) ≡ true }
    ensures place { IfOk result (λ end. end ≤ length text.now) }
    ensures exact { IfOk result (λ end.
        IsListAdded text.now at end (ids_view list.old.items) (ids_view list.new.items)) }
{
    read_from(alloc, text, at, scan_run(text.as_bytes(), at), list)
}

// `read_list` where `scan_run` found the first of them.
#[inline(always)]
pub(crate) fn read_from(
    alloc: Global,
    text: &str,
    at: usize,
    first: (usize, Option<u64>),
    list: &mut Vec<Identifier>,
) -> Allocated<usize>
    requires inside { at ≤ length text.now }
    requires here { begins is_identifier_char (drop at text.now) ≡ true }
    requires first { first ≡ run_from (Some 0) at (drop at text.now) }
    ensures place { IfOk result (λ end. end ≤ length text.now) }
    ensures exact { IfOk result (λ end.
        IsListAdded text.now at end (ids_view list.old.items) (ids_view list.new.items)) }
{
    let mut start = at;
    let mut run = first;
    'runs: loop {
        let id = run_id(alloc, text, start, run)?;
        list.push(id)?;
        if !goes_on_at(text, run.0) {
            return Ok(run.0);
        }
        start = run.0 + 1;
        run = scan_run(text.as_bytes(), start);
    }
}

/// How many bytes the identifiers at the front take: of `alpha.1+b` they are 7. This is for the
/// crates of this repository.
#[inline(always)]
pub fn list_len(text: &[u8]) -> usize
    ensures exact { result ≡ list_len text.now }
    ensures inside { result ≤ length text.now }
{
    list_end::<OfText>(text, 0)
}
