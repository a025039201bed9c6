// The reader of common range texts as node-semver's strict reading has them, in one pass from the
// left.

ghost use Rattle.nodejs_semver.specs.Words.{Bool, IsTrue, OnErr, OnOk, bounds_view};
ghost use Rattle.nodejs_semver.specs.Words.{comparator_view, has_bars, interval, is_interval};
ghost use Rattle.nodejs_semver.specs.Words.{length, option_to_list, precedence, rest_view};
ghost use Rattle.npm_reading.specs.Internal.Fronts.{AreJoined, AreParts, IsLeft, IsPartAt};
ghost use Rattle.npm_reading.specs.Internal.Fronts.{IsSignAt, IsTried, IsWordAt, is_below};
ghost use Rattle.npm_words.specs.Internal.{Parts.{npm_partial_view, npm_sign_view}, Words.limited};
ghost use Rattle.npm_words.specs.{Internal.Words.places_front, Table.compared};
ghost use Rattle.std.specs.Prelude.{IfOk, IfSome, List, Some, [], false, true, ℕ, ◌++◌, ◌<◌, ◌∷◌};
ghost use Rattle.std.specs.Prelude.{◌≡◌};

use crate::Allocated;
use npm_words::pieces::{
    Partial, Sign, caret, compared, is_over, partial_front, row_of_zeros, tilde,
};
use semver_core::VersionRef;
use semver_core::cuts::{Bound, Interval};
use semver_pieces::{
    Bounds, Comparator, Found, Intervals, after_bars, dotted_number, number_front, release,
};

// The comparator at the front, and what follows it. Whitespace behind it is not skipped.
#[inline(always)]
fn comparator_front(text: &[u8]) -> (Comparator, &[u8])
    ensures { IsSignAt text.now (compared (comparator_view result.0)) result.1.now }
{
    match text {
        [b'>', b'=', rest @ ..] => (Comparator::AtLeast, rest),
        [b'>', rest @ ..] => (Comparator::Above, rest),
        [b'<', b'=', rest @ ..] => (Comparator::AtMost, rest),
        [b'<', rest @ ..] => (Comparator::Below, rest),
        [b'=', rest @ ..] => (Comparator::Equal, rest),
        _ => (Comparator::Equal, text),
    }
}

// The sign at the front, and what follows it.
#[inline(always)]
fn sign_front(text: &[u8]) -> (Sign, &[u8])
    ensures { IsSignAt text.now (npm_sign_view result.0) result.1.now }
{
    match text {
        [b'^', rest @ ..] => (Sign::Caret, rest),
        [b'~', rest @ ..] => (Sign::Tilde, rest),
        _ => {
            let (comparator, rest) = comparator_front(text);
            (Sign::Compared(comparator), rest)
        }
    }
}

// What follows a partial of which only the numbers were read, where a wildcard or no more stands
// behind these, and then the text ends or goes on with a space or a bar.
#[inline(always)]
fn after_numbers(text: &[u8]) -> Option<&[u8]>
    ensures { IfSome result (λ rest. IsLeft text.now rest.now) }
{
    match text {
        [b'.', b'x' | b'X' | b'*', rest @ ..] if is_over(rest) => Some(rest),
        _ if is_over(text) => Some(text),
        _ => None,
    }
}

// The partial at the front, and what follows it, where it has no identifiers, stands alone or
// begins with a number, and the text ends behind it or goes on with a space or a bar.
#[inline(always)]
#[tactic(auto, using(crate::proofs::Grammar::CommonReads::short_fronts))]
fn short_front(text: &[u8]) -> Option<(Partial<'_>, &[u8])>
    ensures { IfSome result (λ p. Some (npm_partial_view p.0, p.1.now)
        ≡ limited (places_front false text.now)) }
{
    let Some((major, rest)) = number_front(false, text) else {
        if matches!(text, [b'x' | b'X' | b'*', ..]) && is_over(&text[1..]) {
            return Some((Partial::Wildcard, &text[1..]));
        }
        return None;
    };
    let Some((minor, rest)) = dotted_number(false, rest) else {
        return Some((Partial::Major(major), after_numbers(rest)?));
    };
    let Some((patch, rest)) = dotted_number(false, rest) else {
        return Some((Partial::Minor(major, minor), after_numbers(rest)?));
    };
    if is_over(rest) {
        Some((Partial::Whole(release(major, minor, patch)), rest))
    } else {
        None
    }
}

// The bounds of the word at the front, and what follows it.
#[inline(never)]
fn word(include: bool, text: &[u8]) -> Option<(Bounds<'_>, &[u8])>
    ensures { IfSome result (λ w. IsWordAt include text.now (bounds_view w.0) w.1.now) }
{
    let (sign, behind) = sign_front(text);
    let (partial, rest) = partial_front(false, behind)?;
    let piece = &behind[..behind.len() - rest.len()];
    let bounds = row_of_zeros(include, partial.zeros(), sign, &partial, piece)?;
    Some((bounds, rest))
}

// The bounds of the comparison at the front, a comparator and a short partial, and what follows it.
#[inline(always)]
#[tactic(auto, using(crate::proofs::Grammar::CommonReads::words_found))]
fn comparison(include: bool, text: &[u8]) -> Option<(Bounds<'_>, &[u8])>
    ensures { IfSome result (λ w. IsWordAt include text.now (bounds_view w.0) w.1.now) }
{
    let (comparator, behind) = comparator_front(text);
    let (partial, rest) = short_front(behind)?;
    let piece = &behind[..behind.len() - rest.len()];
    let bounds = compared(include, false, comparator, &partial, piece)?;
    Some((bounds, rest))
}

// The word that stands behind a space, where it has a comparator.
#[inline(always)]
fn second_word(text: &[u8]) -> Option<&[u8]>
    ensures { IfSome result (λ word. text.now ≡ 32 ∷ word.now) }
{
    match text {
        [b' ', word @ ..] if matches!(word, [b'<' | b'=' | b'>', ..]) => Some(word),
        _ => None,
    }
}

// The bounds of two words, of which the first has no upper bound and the second no lower one.
#[inline(always)]
fn joined<'a>(first: Bounds<'a>, second: Bounds<'a>) -> Option<Bounds<'a>>
    ensures { IfSome result (λ b. AreJoined (bounds_view first.entry) (bounds_view second.entry)
        (bounds_view b)) }
{
    match (first.upper, second.lower) {
        (Bound::Unbounded, Bound::Unbounded) => Some(Bounds {
            lower: first.lower,
            upper: second.upper,
        }),
        _ => None,
    }
}

// Whether the numbers of a version are below those of another one.
#[inline(always)]
fn is_below(one: &VersionRef<'_>, other: &VersionRef<'_>) -> bool
    ensures { result ≡ is_below one.now other.now }
{
    one.major() < other.major()
        || one.major() == other.major()
            && (one.minor() < other.minor()
                || one.minor() == other.minor() && one.patch() < other.patch())
}

// Whether bounds are seen to be in order by their numbers.
#[inline(always)]
fn are_ordered(bounds: &Bounds<'_>) -> bool
    ensures { IsTrue result → is_interval precedence (bounds_view bounds.now) ≡ true }
{
    match (&bounds.lower, &bounds.upper) {
        (Bound::Unbounded, _) | (_, Bound::Unbounded) => true,
        (Bound::Before(one), Bound::Before(other)) => is_below(one, other),
        (Bound::Before(one), Bound::After(other)) => !is_below(other, one) && other.is_release(),
        _ => false,
    }
}

// Adds the interval of two bounds, where the lower cut is below the upper one.
#[cold]
#[inline(never)]
fn push_between<'a>(bounds: Bounds<'a>, found: &mut Intervals<VersionRef<'a>>) -> Allocated<()>
    ensures added { let o = interval precedence (bounds_view bounds.entry) in
        OnOk result (found.new.items ≡ found.old.items ++ option_to_list o) }
    ensures memory { OnErr result (0 < length found.old.items) }
{
    if let Some(interval) = Interval::new(bounds.lower, bounds.upper) {
        found.add(interval)?;
    }
    Ok(())
}

// Adds the interval of a part that has these bounds, where the lower cut is below the upper one,
// and returns what follows the part. Mostly the numbers say that it is.
#[inline(always)]
fn push_read<'a>(
    bounds: Option<Bounds<'a>>,
    rest: &'a [u8],
    found: &mut Intervals<VersionRef<'a>>,
) -> Allocated<Option<&'a [u8]>>
    ensures added { (include : Bool) → (text : List ℕ) →
        IfSome bounds.entry (λ b. IsPartAt include text (bounds_view b) rest.now) →
        IfOk result (λ after. IsTried include text (rest_view after) found.old.items
        found.new.items) }
    ensures memory { OnErr result (0 < length found.old.items) }
{
    let Some(bounds) = bounds else {
        return Ok(None);
    };
    if are_ordered(&bounds) {
        found.add(Interval::of_ordered(bounds.lower, bounds.upper))?;
    } else {
        push_between(bounds, found)?;
    }
    Ok(Some(rest))
}

// Adds the interval of the part at the front, and returns what follows it: one word, or two with a
// space between them.
#[inline(never)]
#[tactic(auto, using(crate::proofs::Grammar::CommonReads::parts_found))]
fn push_any<'a>(
    include: bool,
    text: &'a [u8],
    found: &mut Intervals<VersionRef<'a>>,
) -> Allocated<Option<&'a [u8]>>
    ensures added { IfOk result (λ rest. IsTried include text.now (rest_view rest) found.old.items
        found.new.items) }
    ensures memory { OnErr result (0 < length found.old.items) }
{
    let Some((first, rest)) = word(include, text) else {
        return Ok(None);
    };
    let Some(behind) = second_word(rest) else {
        return push_read(Some(first), rest, found);
    };
    let Some((second, rest)) = word(include, behind) else {
        return Ok(None);
    };
    push_read(joined(first, second), rest, found)
}

// Adds the interval of the part at the front, and returns what follows it: one comparison, or two
// with a space between them.
#[tactic(auto, using(crate::proofs::Grammar::CommonReads::parts_found))]
fn push_comparisons<'a>(
    include: bool,
    text: &'a [u8],
    found: &mut Intervals<VersionRef<'a>>,
) -> Allocated<Option<&'a [u8]>>
    ensures added { IfOk result (λ rest. IsTried include text.now (rest_view rest) found.old.items
        found.new.items) }
    ensures memory { OnErr result (0 < length found.old.items) }
{
    let Some((first, rest)) = comparison(include, text) else {
        return Ok(None);
    };
    let Some(behind) = second_word(rest) else {
        return push_read(Some(first), rest, found);
    };
    let Some((second, rest)) = comparison(include, behind) else {
        return Ok(None);
    };
    push_read(joined(first, second), rest, found)
}

// Adds the interval of a short partial behind a sign, and returns what follows it. The sign is
// known where this is called, so that each sign has a row of its own.
#[inline(always)]
#[tactic(auto, using(crate::proofs::Grammar::CommonReads::words_found))]
fn push_signed<'a>(
    include: bool,
    sign: Sign,
    text: &'a [u8],
    found: &mut Intervals<VersionRef<'a>>,
) -> Allocated<Option<&'a [u8]>>
    ensures added { (signed : List ℕ) → IsSignAt signed (npm_sign_view sign) text.now →
        IfOk result (λ rest. IsTried include signed (rest_view rest) found.old.items
        found.new.items) }
    ensures memory { OnErr result (0 < length found.old.items) }
{
    let Some((partial, rest)) = short_front(text) else {
        return Ok(None);
    };
    let piece = &text[..text.len() - rest.len()];
    let bounds = match sign {
        Sign::Caret => caret(include, partial.zeros(), &partial),
        Sign::Tilde => tilde(include, false, &partial),
        Sign::Compared(comparator) => compared(include, false, comparator, &partial, piece),
    };
    push_read(bounds, rest, found)
}

// Adds the interval of the part at the front where its partials are short ones.
#[inline(always)]
fn push_short<'a>(
    include: bool,
    text: &'a [u8],
    found: &mut Intervals<VersionRef<'a>>,
) -> Allocated<Option<&'a [u8]>>
    ensures added { IfOk result (λ rest. IsTried include text.now (rest_view rest) found.old.items
        found.new.items) }
    ensures memory { OnErr result (0 < length found.old.items) }
{
    match text {
        [b'^', rest @ ..] => push_signed(include, Sign::Caret, rest, found),
        [b'~', rest @ ..] => push_signed(include, Sign::Tilde, rest, found),
        [b'<' | b'=' | b'>', ..] => push_comparisons(include, text, found),
        _ => push_signed(include, Sign::Compared(Comparator::Equal), text, found),
    }
}

// Adds the interval of the part at the front. Mostly its partials are short ones. Words with `v` in
// front are not read here, so that none begins with a letter before `x`, as tags like `latest` do.
#[inline(always)]
fn push_part<'a>(
    include: bool,
    text: &'a [u8],
    found: &mut Intervals<VersionRef<'a>>,
) -> Allocated<Option<&'a [u8]>>
    ensures added { IfOk result (λ rest. IsTried include text.now (rest_view rest) found.old.items
        found.new.items) }
    ensures memory { OnErr result (0 < length found.old.items) }
{
    match push_short(include, text, found)? {
        Some(rest) => Ok(Some(rest)),
        None if matches!(text, [b'a'..=b'w', ..]) => Ok(None),
        None => push_any(include, text, found),
    }
}

/// Adds the intervals of a common text to an empty list, one for each part whose cuts meet, and
/// returns whether the text is one. If it is not, the list may hold some of them.
///
/// Most ranges in manifests are common texts: `^1.2.3`, `~1.2`, `1.x`, `>=1.2.3 <2.0.0`, and these
/// with `||` between them and one space or none on each side of that.
#[inline(always)]
pub(crate) fn read_common<'a>(
    include: bool,
    text: &'a [u8],
    found: &mut Intervals<VersionRef<'a>>,
) -> Allocated<bool>
    requires { found.old.items ≡ [] }
    ensures read { IfOk result (λ there. IsTrue there → AreParts include text.now found.new.items) }
    ensures memory { OnErr result (has_bars text.now ≡ true) }
{
    let mut rest = text;
    'parts: loop {
        let Some(behind) = push_part(include, rest, found)? else {
            return Ok(false);
        };
        if behind.is_empty() {
            return Ok(true);
        }
        let Some(next) = after_bars(behind) else {
            return Ok(false);
        };
        found.reserve_for(next)?;
        rest = next;
    }
}
