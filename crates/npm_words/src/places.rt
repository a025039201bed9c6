//! The partial version at the front of a text, as node-semver's readings have it.
//!
//! This is for the crates of this repository.

ghost use Rattle.npm_words.specs.{Grammar.begins_undashed, Internal.Parts.npm_partial_view};
ghost use Rattle.npm_words.specs.{Internal.Views.npm_front_view, Words.{MAX_SAFE_INTEGER, None}};
ghost use Rattle.npm_words.specs.Words.{[], false, front_view, is_listed, pair_view, true};
ghost use Rattle.semver_core.specs.Internal.Fronts.{begins_wildcard, number_with};
ghost use Rattle.semver_core.specs.Text.Identifiers.{listed};
ghost use Rattle.std.specs.Prelude.{◌≡◌};
ghost use Rattle.npm_words.specs.Internal.Words as Spec;
ghost use Rattle.npm_words.specs.Partials as Places;

use crate::partial::Partial;
use crate::versions::is_strict_list;
use semver_core::scan::begins_identifier;
use semver_core::{MAX_SAFE_INTEGER, VersionRef};
use semver_pieces::{
    begins_padded, behind_dot, build_front, digits_len, marked_list, number_front,
    pre_release_front,
};

/// A place of a partial version: a number, or none where it is a wildcard. A number past the limit
/// is read as `MAX_SAFE_INTEGER + 1`, since only that it is past the limit matters: a comparator
/// that has such a number is not valid.
type Place = Option<u64>;

// The place at the front where no number without leading zeros stands and no wildcard.
#[inline(never)]
#[tactic(auto, using(crate::proofs::Grammar::PartialLaw::padded_places))]
fn padded_place(loose: bool, text: &[u8]) -> Option<(Place, &[u8])>
    requires no_number { number_with false MAX_SAFE_INTEGER text.now ≡ None }
    requires no_wildcard { begins_wildcard text.now ≡ false }
    ensures { front_view result ≡ Spec.first_as Spec.capped_one (Spec.place_front loose text.now) }
{
    if begins_padded(text) {
        if !loose {
            return None;
        }
        if let Some((number, rest)) = number_front(true, text) {
            return Some((Some(number), rest));
        }
    }
    let len = digits_len(text);
    if len == 0 || !loose && len > 257 {
        return None;
    }
    Some((Some(MAX_SAFE_INTEGER + 1), &text[len..]))
}

// The place at the front, and the text behind it.
#[inline(always)]
#[tactic(auto, using(crate::proofs::Grammar::PartialLaw::places_found))]
fn place_front(loose: bool, text: &[u8]) -> Option<(Place, &[u8])>
    ensures { front_view result ≡ Spec.first_as Spec.capped_one (Spec.place_front loose text.now) }
{
    match number_front(false, text) {
        Some((number, rest)) => Some((Some(number), rest)),
        None if matches!(text, [b'x' | b'X' | b'*', ..]) => Some((None, &text[1..])),
        None => padded_place(loose, text),
    }
}

// The place at the front of what stands behind a dot.
#[inline(always)]
#[tactic(auto, unfolding(crate::specs::Internal::Words::dotted_place))]
fn dotted_place(loose: bool, text: &[u8]) -> Option<(Place, &[u8])>
    ensures { front_view result ≡ Spec.first_as Spec.capped_one (Spec.dotted_place loose text.now) }
{
    place_front(loose, behind_dot(text)?)
}

// The third place at the front of what stands behind a dot. Loosely it does not take the last digit
// before a dot, which begins a pre-release.
#[inline(always)]
#[tactic(auto, unfolding(crate::specs::Internal::Words::dotted_patch))]
fn dotted_patch(loose: bool, text: &[u8]) -> Option<(Place, &[u8])>
    ensures { front_view result ≡ Spec.first_as Spec.capped_one (Spec.dotted_patch loose text.now) }
{
    let text = behind_dot(text)?;
    let digits = digits_len(text);
    match &text[digits..] {
        [b'.', ..] if loose => {
            let own = digits.saturating_sub(1);
            let (place, _) = place_front(loose, &text[..own])?;
            Some((place, &text[own..]))
        }
        _ => place_front(loose, text),
    }
}

// The partial of two places.
#[inline(always)]
fn short_partial<'a>(major: Place, minor: Place) -> Partial<'a>
    ensures { npm_partial_view result ≡ Places.partial_of major minor None [] [] }
{
    match (major, minor) {
        (None, _) => Partial::Wildcard,
        (Some(major), None) => Partial::Major(major),
        (Some(major), Some(minor)) => Partial::Minor(major, minor),
    }
}

// The partial of three places with a pre-release and a build.
#[inline(always)]
fn long_partial<'a>(
    major: Place,
    minor: Place,
    patch: Place,
    pre_release: &'a [u8],
    build: &'a [u8],
) -> Partial<'a>
    requires pre_release { is_listed pre_release.now ≡ true }
    requires build { is_listed build.now ≡ true }
    ensures { npm_partial_view result
        ≡ Places.partial_of major minor patch (listed pre_release.now) (listed build.now) }
{
    match (major, minor, patch) {
        (Some(major), Some(minor), Some(patch)) => Partial::Whole(VersionRef::from_texts(
            major,
            minor,
            patch,
            pre_release,
            build,
        )),
        _ => short_partial(major, minor),
    }
}

// Whether an identifier of a pre-release may be so long.
fn is_short_identifier(text: &[u8]) -> bool
    ensures { result ≡ Places.is_short_identifier text.now }
{
    let digits = digits_len(text);
    text.len() <= digits && digits <= 257 || digits <= 256 && text.len() <= digits + 251
}

// Whether the identifiers of a pre-release are short enough.
#[inline(always)]
fn are_short_identifiers(text: &[u8]) -> bool
    ensures { result ≡ Spec.are_short_identifiers text.now }
{
    text.split(|byte| *byte == b'.').all(is_short_identifier)
}

// Whether the identifiers of a build are short enough.
#[inline(always)]
fn are_short_builds(text: &[u8]) -> bool
    ensures { result ≡ Spec.are_short_builds text.now }
{
    text.split(|byte| *byte == b'.').all(|id| id.len() <= 250)
}

// Whether a text begins as a pre-release may without `-`, behind a wildcard or not.
#[inline(always)]
fn begins_undashed(wild: bool, text: &[u8]) -> bool
    ensures { result ≡ begins_undashed wild text.now }
{
    match text {
        [b'A'..=b'Z' | b'a'..=b'z', ..] => true,
        [b'0'..=b'9', rest @ ..] => {
            wild || matches!(rest, [b'.', behind @ ..] if begins_identifier(behind))
        }
        [b'-', rest @ ..] => !begins_identifier(rest),
        _ => false,
    }
}

// The text of the pre-release at the front, behind a wildcard or not, and what stands behind it.
#[inline(always)]
#[tactic(auto, unfolding(crate::specs::Internal::Words::pre_front))]
pub fn pre_front(loose: bool, wild: bool, text: &[u8]) -> (&[u8], &[u8])
    ensures listed { is_listed result.0.now ≡ true }
    ensures value { pair_view result ≡ Spec.pre_front loose wild text.now }
{
    if loose && begins_undashed(wild, text) {
        marked_list(text, text)
    } else {
        pre_release_front(true, text)
    }
}

// Whether a text ends here, or goes on with a space or a bar, which stand in no version.
#[inline(always)]
pub fn is_over(text: &[u8]) -> bool
    ensures { result ≡ Spec.is_over text.now }
{
    matches!(text, [] | [b' ' | b'|', ..])
}

// The partial of three places, and of what stands behind them.
#[inline(always)]
#[tactic(auto, unfolding(crate::specs::Internal::Words::qualified_partial))]
fn qualified_partial(
    loose: bool,
    major: Place,
    minor: Place,
    patch: Place,
    text: &[u8],
) -> Option<(Partial<'_>, &[u8])>
    ensures { npm_front_view result ≡ Spec.qualified_partial loose major minor patch text.now }
{
    if is_over(text) {
        return Some((long_partial(major, minor, patch, b"", b""), text));
    }
    let (pre_release, rest) = pre_front(loose, patch.is_none(), text);
    let (build, rest) = build_front(rest);
    if !(loose || is_strict_list(pre_release) && are_short_identifiers(pre_release)) {
        return None;
    }
    if !are_short_builds(build) {
        return None;
    }
    Some((long_partial(major, minor, patch, pre_release, build), rest))
}

/// The partial version at the front, and the text behind it. Its numbers past the limit are
/// `MAX_SAFE_INTEGER + 1`.
#[inline(always)]
pub fn partial_front(loose: bool, text: &[u8]) -> Option<(Partial<'_>, &[u8])>
    ensures { npm_front_view result
        ≡ Spec.first_as Spec.capped_partial (Spec.places_front loose text.now) }
{
    let (major, rest) = place_front(loose, text)?;
    let Some((minor, rest)) = dotted_place(loose, rest) else {
        return Some((short_partial(major, None), rest));
    };
    match dotted_patch(loose, rest) {
        Some((patch, rest)) => qualified_partial(loose, major, minor, patch, rest),
        None => Some((short_partial(major, minor), rest)),
    }
}
