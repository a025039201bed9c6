//! The bounds that the comparators of a word have in common, by the table of node-semver's signs.
//!
//! This is for the crates of this repository.

ghost use Rattle.npm_words.specs.{Alternatives.is_valid, Internal.Meaning.{AreRead, IsCommon}};
ghost use Rattle.npm_words.specs.Internal.{Meaning.is_zero, Parts.AreZeros};
ghost use Rattle.npm_words.specs.Internal.Parts.{are_normal, is_padded, no_build, noted};
ghost use Rattle.npm_words.specs.Internal.Parts.{npm_partial_view, npm_sign_view, within};
ghost use Rattle.npm_words.specs.{Table.{first, from, table, written_zeros}, Words.Bool};
ghost use Rattle.npm_words.specs.Words.{Comparison, List, MAX_SAFE_INTEGER, [], bounds_view};
ghost use Rattle.npm_words.specs.Words.{comparator_view, decimal, length};
ghost use Rattle.npm_words.specs.Words.{true, version_text, ℕ};
ghost use Rattle.semver_core.specs.{Values.Versions.IsVersion};
ghost use Rattle.{semver_core.specs.declared.TheConstants.MAX_LENGTH, std.specs.Prelude.nat_le};
ghost use Rattle.std.specs.Prelude.{◌+◌, ◌∷◌, ◌≡◌, ◌≤◌};
ghost use Rattle.npm_words.specs.Table as Spec;
ghost use Rattle.semver_core.specs.Text.Comparators as Words;

use crate::partial::{Numbers, Partial, Sign, within, written_zeros};
use itoa::Buffer;
use semver_core::cuts::Bound;
use semver_core::{IdentifierRef, MAX_LENGTH, VersionRef};
use semver_pieces::{Bounds, Comparator, lowest, release};

// How many characters a number prints.
#[inline(always)]
#[tactic(auto, using(crate::proofs::Grammar::Printed::decimal_room))]
fn decimal_len(number: u64) -> usize
    ensures value { result ≡ length (decimal number) }
    ensures short { result ≤ 20 }
{
    Buffer::new().format(number).len()
}

// Whether a version prints at most as many characters as a version text may have, without its
// build.
#[inline(never)]
fn prints_within(version: VersionRef<'_>) -> bool
    requires { within (Spec.first (Spec.whole version)) ≡ true }
    ensures { result ≡ nat_le (length (version_text (no_build version.entry))) MAX_LENGTH }
{
    let (major, minor, patch) = (version.major(), version.minor(), version.patch());
    let numbers = decimal_len(major) + decimal_len(minor) + decimal_len(patch) + 2;
    let mut room = MAX_LENGTH - numbers;
    let mut ids = version.pre_release();
    'ids: while let Some(id) = ids.next() {
        let taken = match id {
            IdentifierRef::Numeric(number) => 1 + decimal_len(number),
            IdentifierRef::AlphaNumeric(text) => 1 + text.len(),
        };
        if taken > room {
            return false;
        }
        room -= taken;
    }
    true
}

// Whether a version prints so few characters without its build. A release does.
#[inline(always)]
#[tactic(auto, using(crate::proofs::Grammar::Printed::bare_short))]
pub fn prints_short(version: &VersionRef<'_>) -> bool
    requires { within (Spec.first (Spec.whole version.now)) ≡ true }
    ensures { result ≡ nat_le (length (version_text (no_build version.now))) MAX_LENGTH }
{
    if version.is_release() {
        return true;
    }
    prints_within(version.copy())
}

// Whether a version is `0.0.0`, whatever its build is.
#[inline(always)]
fn is_zero(version: &VersionRef<'_>) -> bool
    ensures value { result ≡ is_zero (no_build version.now) }
    ensures valid { IsVersion version.now }
{
    version.major() == 0 && version.minor() == 0 && version.patch() == 0 && version.is_release()
}

// No bounds.
#[inline(always)]
fn open<'a>() -> Bounds<'a>
    ensures { bounds_view result ≡ record { lower = Bound.Unbounded; upper = Bound.Unbounded } }
{
    Bounds {
        lower: Bound::Unbounded,
        upper: Bound::Unbounded,
    }
}

// The lower bound of `>=version`, the build left out: without pre-releases included, `>=0.0.0` is
// no comparator, unless a zero in it is written otherwise.
#[inline(always)]
#[tactic(auto, using(crate::proofs::Grammar::Rows::lower_ends))]
fn from_version<'a>(include: bool, padded: bool, version: &VersionRef<'a>) -> Bound<VersionRef<'a>>
    requires within { within (first (Spec.whole version.now)) ≡ true }
    requires normal { are_normal (Spec.whole version.now) ≡ true }
    ensures { IsCommon include (noted padded (Spec.unbuilt Words.at_least version.now) ∷ [])
        (record { lower = result; upper = Bound.Unbounded }) }
{
    if include || padded {
        return Bound::Before(version.copy());
    }
    if is_zero(version) {
        return Bound::Unbounded;
    }
    Bound::Before(version.copy())
}

// The lower bound of `>=` of three numbers, with `-0` where pre-releases are included.
#[inline(always)]
fn from_numbers<'a>(include: bool, padded: bool, numbers: Numbers) -> Bound<VersionRef<'a>>
    requires { within numbers ≡ true }
    ensures { IsCommon include (noted padded (from include numbers) ∷ [])
        (record { lower = result; upper = Bound.Unbounded }) }
{
    if include {
        Bound::Before(lowest(numbers.0, numbers.1, numbers.2))
    } else {
        from_version(false, padded, &release(numbers.0, numbers.1, numbers.2))
    }
}

// `>=` of three numbers, where none of them is past the limit.
#[inline(always)]
#[tactic(auto, using(crate::proofs::Grammar::Rows::noted_from))]
fn from<'a>(include: bool, padded: bool, numbers: Numbers) -> Option<Bounds<'a>>
    ensures { AreRead include (noted padded (from include numbers) ∷ []) result }
{
    if within(numbers) {
        Some(Bounds {
            lower: from_numbers(include, padded, numbers),
            upper: Bound::Unbounded,
        })
    } else {
        None
    }
}

// `<` of three numbers with `-0`, where none of them is past the limit.
#[inline(always)]
pub fn under<'a>(end: Numbers) -> Option<Bounds<'a>>
    ensures { (include : Bool) → AreRead include (Spec.under end ∷ []) result }
{
    if within(end) {
        Some(Bounds::below(lowest(end.0, end.1, end.2)))
    } else {
        None
    }
}

// The lower bound of a comparator, and `<` of three numbers with `-0`, where none of these is past
// the limit.
#[inline(always)]
fn until<'a>(lower: Bound<VersionRef<'a>>, end: Numbers) -> Option<Bounds<'a>>
    ensures { (include : Bool) → (c : Comparison) → is_valid MAX_SAFE_INTEGER c ≡ true →
        IsCommon include (c ∷ []) (record { lower = lower.entry; upper = Bound.Unbounded }) →
        AreRead include (c ∷ (Spec.under end ∷ [])) result }
{
    if within(end) {
        let upper = Bound::Before(lowest(end.0, end.1, end.2));
        Some(Bounds { lower, upper })
    } else {
        None
    }
}

/// `^`. So many numbers at the front of the partial are written `0`.
#[inline(always)]
pub fn caret<'a>(include: bool, zeros: usize, partial: &Partial<'a>) -> Option<Bounds<'a>>
    requires within { within (first (npm_partial_view partial.now)) ≡ true }
    requires normal { are_normal (npm_partial_view partial.now) ≡ true }
    ensures { (text : List ℕ) → AreZeros (npm_partial_view partial.now) zeros text →
        AreRead include (table include Spec.caret (npm_partial_view partial.now) text) result }
{
    match partial {
        Partial::Wildcard => Some(open()),
        Partial::Major(_) | Partial::Minor(..) => {
            let lower = from_numbers(include, zeros < partial.zeros(), partial.first());
            until(lower, partial.next_changed(zeros))
        }
        Partial::Whole(version) => {
            if prints_short(version) {
                let lower = caret_from(include, zeros, zeros < partial.zeros(), version);
                until(lower, partial.next_changed(zeros))
            } else {
                None
            }
        }
    }
}

// The lower bound of a caret range of a whole version.
#[inline(always)]
fn caret_from<'a>(
    include: bool,
    zeros: usize,
    padded: bool,
    version: &VersionRef<'a>,
) -> Bound<VersionRef<'a>>
    requires within { within (first (Spec.whole version.now)) ≡ true }
    requires normal { are_normal (Spec.whole version.now) ≡ true }
    ensures { padded ≡ is_padded zeros (Spec.whole version.now) →
        IsCommon include (Spec.caret_from include zeros version.now ∷ [])
        (record { lower = result; upper = Bound.Unbounded }) }
{
    if include && version.is_release() && zeros > 0 {
        let numbers = (version.major(), version.minor(), version.patch());
        from_numbers(true, false, numbers)
    } else {
        from_version(include, padded, version)
    }
}

/// `~`, before a partial in which a zero is written otherwise, or not.
#[inline(always)]
pub fn tilde<'a>(include: bool, padded: bool, partial: &Partial<'a>) -> Option<Bounds<'a>>
    requires within { within (first (npm_partial_view partial.now)) ≡ true }
    requires normal { are_normal (npm_partial_view partial.now) ≡ true }
    ensures { (text : List ℕ) →
        padded ≡ is_padded (written_zeros text) (npm_partial_view partial.now) →
        AreRead include (table include Spec.tilde (npm_partial_view partial.now) text) result }
{
    match partial {
        Partial::Wildcard => Some(open()),
        Partial::Major(_) | Partial::Minor(..) => {
            let numbers = partial.first();
            let first = release(numbers.0, numbers.1, numbers.2);
            until(from_version(include, padded, &first), partial.next())
        }
        Partial::Whole(version) => {
            if prints_short(version) {
                until(from_version(include, padded, version), partial.next())
            } else {
                None
            }
        }
    }
}

// A comparator, or none, before a whole version, which has this text. Without pre-releases
// included, `>=0.0.0` is no comparator.
#[inline(always)]
pub fn whole<'a>(
    include: bool,
    comparator: Comparator,
    version: &VersionRef<'a>,
    text: &[u8],
) -> Option<Bounds<'a>>
    requires within { within (first (Spec.whole version.now)) ≡ true }
    requires normal { are_normal (Spec.whole version.now) ≡ true }
    ensures { let s = Spec.compared (comparator_view comparator) in
        AreRead include (table include s (Spec.whole version.now) text.now) result }
{
    if text.len() > MAX_LENGTH {
        return None;
    }
    match comparator {
        Comparator::AtLeast if !include && text == b"0.0.0".as_slice() => Some(open()),
        Comparator::AtLeast => Some(Bounds::at_least(version.copy())),
        Comparator::Above => Some(Bounds::above(version.copy())),
        Comparator::Equal => Some(Bounds::through(version.copy(), version.copy())),
        Comparator::AtMost => Some(Bounds::at_most(version.copy())),
        Comparator::Below => Some(Bounds::below(version.copy())),
    }
}

/// A comparator, or none, before a partial, which has this text, and in which a zero is written
/// otherwise, or not.
#[inline(always)]
pub fn compared<'a>(
    include: bool,
    padded: bool,
    comparator: Comparator,
    partial: &Partial<'a>,
    text: &[u8],
) -> Option<Bounds<'a>>
    requires within { within (first (npm_partial_view partial.now)) ≡ true }
    requires normal { are_normal (npm_partial_view partial.now) ≡ true }
    ensures { let s = Spec.compared (comparator_view comparator) in
        padded ≡ is_padded (written_zeros text.now) (npm_partial_view partial.now) →
        AreRead include (table include s (npm_partial_view partial.now) text.now) result }
{
    match partial {
        Partial::Wildcard => match comparator {
            // `<0.0.0-0`
            Comparator::Above => under((0, 0, 0)),
            Comparator::Below => under((0, 0, 0)),
            Comparator::AtLeast | Comparator::Equal | Comparator::AtMost => Some(open()),
        },
        Partial::Major(_) | Partial::Minor(..) => match comparator {
            Comparator::Equal => {
                let lower = from_numbers(include, padded, partial.first());
                until(lower, partial.next())
            }
            Comparator::AtLeast => from(include, padded, partial.first()),
            Comparator::Above => from(include, false, partial.next()),
            Comparator::Below => under(partial.first()),
            Comparator::AtMost => under(partial.next()),
        },
        Partial::Whole(version) => whole(include, comparator, version, text),
    }
}

/// The bounds that the comparators of a word have in common, those left out that do not count. None
/// where one of them is not valid: it has a number past the limit, or its version too many
/// characters. `text` is that of the partial, with its marks; so many numbers at its front are
/// written `0`.
#[inline(always)]
pub fn row_of_zeros<'a>(
    include: bool,
    zeros: usize,
    sign: Sign,
    partial: &Partial<'a>,
    text: &[u8],
) -> Option<Bounds<'a>>
    requires { are_normal (npm_partial_view partial.now) ≡ true }
    ensures { let s = npm_sign_view sign in AreZeros (npm_partial_view partial.now) zeros text.now →
        AreRead include (table include s (npm_partial_view partial.now) text.now) result }
{
    if !within(partial.first()) {
        return None;
    }
    let padded = zeros < partial.zeros();
    match sign {
        Sign::Caret => caret(include, zeros, partial),
        Sign::Tilde => tilde(include, padded, partial),
        Sign::Compared(comparator) => compared(include, padded, comparator, partial, text),
    }
}

/// The bounds that the comparators of a word have in common, as `row_of_zeros` has them: which
/// numbers are written `0` is found in the text.
#[inline(always)]
pub fn row<'a>(include: bool, sign: Sign, partial: &Partial<'a>, text: &[u8]) -> Option<Bounds<'a>>
    requires { are_normal (npm_partial_view partial.now) ≡ true }
    ensures { let s = npm_sign_view sign in
        AreRead include (table include s (npm_partial_view partial.now) text.now) result }
{
    row_of_zeros(include, written_zeros(text), sign, partial, text)
}
