// What is at the front of a text: a number, a component of a partial, a list of identifiers, a
// qualifier.

ghost use Rattle.semver_core.specs.Internal.Fronts as Spec;
ghost use Rattle.std.specs.{List.prefix_len, Option.ForSome, Prelude.{◌≡◌, ◌≤◌, IfSome}};
ghost use Rattle.semver_core.specs.Words.{front_view, is_ascii_digit, is_listed, length};
ghost use Rattle.semver_core.specs.Words.{pair_view, rest_view, true};

use semver_core::MAX_SAFE_INTEGER;
use semver_core::scan::{begins_identifier, list_len, number_in};

/// Whether a text begins with `0` and a digit.
#[inline(always)]
pub fn begins_padded(text: &[u8]) -> bool
    ensures { result ≡ Spec.begins_padded text.now }
{
    matches!(text, [b'0', next, ..] if next.is_ascii_digit())
}

/// How many digits stand at the front.
#[tactic(auto, using(semver_core::proofs::Reading::Numbers::prefix_steps))]
pub fn digits_len(text: &[u8]) -> usize
    ensures value { result ≡ prefix_len is_ascii_digit text.now }
    ensures fits { result ≤ length text.now }
{
    'digits: for at in 0..text.len() {
        if !text[at].is_ascii_digit() {
            return at;
        }
    }
    text.len()
}

/// The number that the whole run of digits at the front is, if it is not above the limit, and the
/// text behind it. With `zeros` it may have leading zeros.
#[inline(always)]
#[tactic(auto, using(semver_core::proofs::Reading::Numbers::number_fronts))]
pub fn number_front(zeros: bool, text: &[u8]) -> Option<(u64, &[u8])>
    ensures value { front_view result ≡ Spec.number_with zeros MAX_SAFE_INTEGER text.now }
    ensures small { IfSome result (λ p. p.0 ≤ MAX_SAFE_INTEGER) }
{
    if !zeros && begins_padded(text) {
        return None;
    }
    let (number, end) = number_in(text, 0)?;
    Some((number, &text[end..]))
}

/// The text behind the dot at the front.
#[inline(always)]
pub fn behind_dot(text: &[u8]) -> Option<&[u8]>
    ensures { rest_view result ≡ Spec.after_byte 46 text.now }
{
    match text {
        [b'.', rest @ ..] => Some(rest),
        _ => None,
    }
}

/// Such a number behind a dot.
#[inline(always)]
#[tactic(auto, unfolding(semver_core::specs::Internal::Fronts::dotted_with))]
pub fn dotted_number(zeros: bool, text: &[u8]) -> Option<(u64, &[u8])>
    ensures value { front_view result ≡ Spec.dotted_with zeros MAX_SAFE_INTEGER text.now }
    ensures small { IfSome result (λ p. p.0 ≤ MAX_SAFE_INTEGER) }
{
    number_front(zeros, behind_dot(text)?)
}

/// A wildcard or a number, and the text behind it. The number is looked for first, since most
/// components are numbers.
#[inline(always)]
#[tactic(auto, unfolding(semver_core::specs::Internal::Fronts::component_front))]
pub fn component_front(text: &[u8]) -> Option<(Option<u64>, &[u8])>
    ensures value { front_view result ≡ Spec.component_front MAX_SAFE_INTEGER text.now }
    ensures small { IfSome result (λ p. ForSome p.0 (λ n. n ≤ MAX_SAFE_INTEGER)) }
{
    match number_front(true, text) {
        Some((number, rest)) => Some((Some(number), rest)),
        None if matches!(text, [b'x' | b'X' | b'*', ..]) => Some((None, &text[1..])),
        None => None,
    }
}

/// A wildcard or a number behind a dot.
#[inline(always)]
#[tactic(auto, unfolding(semver_core::specs::Internal::Fronts::dotted_front))]
pub fn dotted_front(text: &[u8]) -> Option<(Option<u64>, &[u8])>
    ensures value { front_view result ≡ Spec.dotted_front MAX_SAFE_INTEGER text.now }
    ensures small { IfSome result (λ p. ForSome p.0 (λ n. n ≤ MAX_SAFE_INTEGER)) }
{
    component_front(behind_dot(text)?)
}

// The identifiers at the front, and what follows them.
#[inline(never)]
fn split_list(text: &[u8]) -> (&[u8], &[u8])
    requires { Spec.begins_identifier text.now ≡ true }
    ensures listed { is_listed result.0.now ≡ true }
    ensures value { pair_view result ≡ Spec.split_list text.now }
{
    text.split_at(list_len(text))
}

/// The identifiers at the front, and what follows them.
// `split_list`, inlined: room for what the call returns is made only where it is called.
#[inline(always)]
pub fn list_front(text: &[u8]) -> (&[u8], &[u8])
    requires { Spec.begins_identifier text.now ≡ true }
    ensures listed { is_listed result.0.now ≡ true }
    ensures value { pair_view result ≡ Spec.split_list text.now }
{
    let (list, rest) = split_list(text);
    (list, rest)
}

/// The identifiers at the front of the text behind their mark, and what follows them. Where there
/// are none, the mark is not skipped either.
#[inline(always)]
#[tactic(auto, using(semver_core::proofs::Reading::IdentifierLists::short_lists))]
pub fn marked_list<'a>(text: &'a [u8], behind: &'a [u8]) -> (&'a [u8], &'a [u8])
    ensures listed { is_listed result.0.now ≡ true }
    ensures value { pair_view result ≡ Spec.marked_list text.now behind.now }
{
    if begins_identifier(behind) {
        list_front(behind)
    } else {
        (b"", text)
    }
}

/// The text of the pre-release at the front, and what follows it. Mostly there is none. With `dash`
/// it begins with a `-`, and else it may.
#[inline(always)]
#[tactic(auto, unfolding(semver_core::specs::Internal::Fronts::pre_release_front))]
pub fn pre_release_front(dash: bool, text: &[u8]) -> (&[u8], &[u8])
    ensures listed { is_listed result.0.now ≡ true }
    ensures value { pair_view result ≡ Spec.pre_release_with dash text.now }
{
    match text {
        [b'-', behind @ ..] => marked_list(text, behind),
        _ if dash => (b"", text),
        _ => marked_list(text, text),
    }
}

/// The text of the build at the front, and what follows it. Mostly there is none.
#[inline(always)]
#[tactic(auto, unfolding(semver_core::specs::Internal::Fronts::build_front))]
pub fn build_front(text: &[u8]) -> (&[u8], &[u8])
    ensures listed { is_listed result.0.now ≡ true }
    ensures value { pair_view result ≡ Spec.build_front text.now }
{
    match text {
        [b'+', behind @ ..] => marked_list(text, behind),
        _ => (b"", text),
    }
}
