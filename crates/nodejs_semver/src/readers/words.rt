// What the words of a part are made of.

ghost use Rattle.nodejs_semver.specs.Internal.Words as Spec;
ghost use Rattle.std.specs.Prelude.{◌≡◌};
ghost use Rattle.nodejs_semver.specs.Words.{comparator_front_view, greater_view};
ghost use Rattle.nodejs_semver.specs.Words.{MAX_SAFE_INTEGER, partial_front_view};
ghost use Rattle.nodejs_semver.specs.Words.{sign_pair_view, sign_view, upper_of};

use crate::readers::partial;
use crate::readers::syntax::{Partial, Sign};
use semver_core::MAX_SAFE_INTEGER;
use semver_pieces::{Comparator, after_some_space, is_boundary, skip_spaces};

// The second partial of a hyphen word, and what follows it: behind whitespace, `-` and whitespace,
// and up to a boundary.
fn upper_behind(text: &[u8]) -> Option<(Partial<'_>, &[u8])>
    ensures { partial_front_view result ≡ Spec.upper_behind MAX_SAFE_INTEGER text.now }
{
    let sign = after_some_space(text)?;
    let [b'-', gap @ ..] = sign else {
        return None;
    };
    let second = after_some_space(gap)?;
    let (upper, rest) = partial::partial_front(second)?;
    if is_boundary(rest) {
        Some((upper, rest))
    } else {
        None
    }
}

/// The second partial of the hyphen word that begins with a partial of this sign, if there is such
/// a word, and what follows it. Mostly the part ends behind the partial.
#[inline(always)]
#[tactic(auto, using(crate::proofs::Reading::WordLaw::upper_none))]
pub(crate) fn upper_of<'a>(sign: Sign, rest: &'a [u8]) -> Option<(Partial<'a>, &'a [u8])>
    ensures { partial_front_view result ≡ upper_of MAX_SAFE_INTEGER (sign_view sign) rest.now }
{
    match (sign, rest) {
        (_, []) => None,
        (Sign::Nothing, _) => upper_behind(rest),
        (Sign::Comparator(_) | Sign::Tilde(_) | Sign::Caret, _) => None,
    }
}

/// The comparator at the front, the longer one first.
#[inline(always)]
pub(crate) fn comparator_front(text: &[u8]) -> Option<(Comparator, &[u8])>
    ensures { comparator_front_view result ≡ Spec.comparator_at text.now }
{
    match text {
        [b'>', b'=', rest @ ..] => Some((Comparator::AtLeast, rest)),
        [b'>', rest @ ..] => Some((Comparator::Above, rest)),
        [b'<', b'=', rest @ ..] => Some((Comparator::AtMost, rest)),
        [b'<', rest @ ..] => Some((Comparator::Below, rest)),
        [b'=', rest @ ..] => Some((Comparator::Equal, rest)),
        _ => None,
    }
}

/// Whether `>` stands behind a tilde, and what stands behind it.
#[inline(always)]
pub(crate) fn tilde_sign(text: &[u8]) -> (bool, &[u8])
    ensures { greater_view result ≡ Spec.tilde_sign text.now }
{
    match text {
        [b'>', rest @ ..] => (true, rest),
        _ => (false, text),
    }
}

/// The sign at the front, and what follows it and its whitespace.
#[inline(always)]
pub(crate) fn sign_front(text: &[u8]) -> (Sign, &[u8])
    ensures { sign_pair_view result ≡ Spec.sign_at text.now }
{
    let (sign, rest) = match text {
        [b'~', rest @ ..] => {
            let (greater, rest) = tilde_sign(skip_spaces(rest));
            (Sign::Tilde(greater), rest)
        }
        [b'^', rest @ ..] => (Sign::Caret, rest),
        _ => match comparator_front(text) {
            Some((comparator, rest)) => (Sign::Comparator(comparator), rest),
            None => return (Sign::Nothing, text),
        },
    };
    (sign, skip_spaces(rest))
}
