// The reader of common range texts, in one pass from the left.

ghost use Rattle.nodejs_semver.specs.Internal.CommonFronts as Spec;
ghost use Rattle.std.specs.Prelude.{◌<◌, ◌≡◌, ◌≤◌, ◌||◌, ◌⊎◌, [], IfNone, IfOk, IfSome};
ghost use Rattle.nodejs_semver.specs.Internal.Fronts.{is_wildcard};
ghost use Rattle.nodejs_semver.specs.Words.{AreCommonParts, begins, bounds_front_view, bounds_view};
ghost use Rattle.nodejs_semver.specs.Words.{common_fronts, ends_field, length};
ghost use Rattle.nodejs_semver.specs.Words.{has_bars, hyphen, is_ascii_digit, is_interval};
ghost use Rattle.nodejs_semver.specs.Words.{IsCommonRange, table};
ghost use Rattle.nodejs_semver.specs.Words.{IsFalse, IsTrue, List, MAX_SAFE_INTEGER, Means};
ghost use Rattle.nodejs_semver.specs.Words.{None, NoValue, OnErr, partial_front_view, partial_view};
ghost use Rattle.nodejs_semver.specs.Words.{passed_view, precedence, Some, Span};
ghost use Rattle.nodejs_semver.specs.Words.{table_view, TakesMemory, true, VersionValue};

use crate::range::owned::owned_range;
use crate::readers::intervals::{between, ordered};
use crate::readers::syntax::{Partial, Sign};
use crate::readers::{partial, table, words};
use crate::{Allocated, Range, RangeRef};
use semver_core::cuts::{Bound, Interval};
use semver_core::readers::triple_front;
use semver_core::{MAX_SAFE_INTEGER, VersionRef};
use semver_pieces::{Bounds, Found, after_bars};
use smallvec::SmallVec;
use std::alloc::{AllocError, Global};

/// Where a common text stands, which says how the partials in it are read.
pub(crate) trait Place {
    /// The partial at the front. Neither `v` nor whitespace is skipped before it.
    fn bare_front(text: &[u8]) -> Option<(Partial<'_>, &[u8])>
        ensures { partial_front_view result ≡ Spec.bare_front MAX_SAFE_INTEGER text.now };
}

/// The text is all that there is.
pub(crate) struct Alone;

impl Place for Alone {
    #[inline(always)]
    #[tactic(auto, unfolding(crate::specs::Internal::CommonFronts::bare_front))]
    fn bare_front(text: &[u8]) -> Option<(Partial<'_>, &[u8])> {
        let (major, rest) = partial::component_front(text)?;
        Some(partial::minor_front(major, rest))
    }
}

/// Lines follow the text, of which the last mostly ends with a line feed. Most partials have three
/// numbers.
pub(crate) struct InLines;

impl Place for InLines {
    #[inline(always)]
    #[tactic(auto, unfolding(crate::specs::Internal::CommonFronts::bare_front))]
    fn bare_front(text: &[u8]) -> Option<(Partial<'_>, &[u8])> {
        match triple_front(text) {
            Some((major, minor, patch, rest)) => Some(partial::qualified(
                Some(major),
                Some(minor),
                Some(patch),
                rest,
            )),
            None if begins_component(text) => rare_front(text),
            None => None,
        }
    }
}

// `bare_front` of a text that does not begin with three numbers.
#[inline(never)]
fn components_front(text: &[u8]) -> Option<(Partial<'_>, &[u8])>
    ensures { partial_front_view result ≡ Spec.bare_front MAX_SAFE_INTEGER text.now }
{
    Alone::bare_front(text)
}

// `components_front`, inlined: room for what the call returns is made only where it is called.
#[inline(always)]
fn rare_front(text: &[u8]) -> Option<(Partial<'_>, &[u8])>
    ensures { partial_front_view result ≡ Spec.bare_front MAX_SAFE_INTEGER text.now }
{
    let (partial, rest) = components_front(text)?;
    Some((partial, rest))
}

// Whether a text begins as a component does.
#[inline(always)]
fn begins_component(text: &[u8]) -> bool
    ensures { result ≡ begins (λ b. is_wildcard b || is_ascii_digit b) text.now }
{
    matches!(text, [b'0'..=b'9' | b'*' | b'X' | b'x', ..])
}

// The bounds of a comparator and a partial.
#[inline(always)]
#[tactic(auto, unfolding(crate::specs::Internal::CommonFronts::comparison_front))]
fn comparison<P: Place>(text: &[u8]) -> Option<(Bounds<'_>, &[u8])>
    ensures { bounds_front_view result
        ≡ Spec.word_read MAX_SAFE_INTEGER (Spec.comparison_front MAX_SAFE_INTEGER text.now) }
{
    let (comparator, rest) = words::comparator_front(text)?;
    let (partial, rest) = P::bare_front(rest)?;
    let bounds = table::compare(comparator, &partial)?;
    Some((bounds, rest))
}

// What the intervals of two pairs of bounds have in common.
#[cold]
#[inline(never)]
fn common_interval<'a>(first: Bounds<'a>, second: Bounds<'a>) -> Option<Interval<VersionRef<'a>>>
    ensures { result ≡ Spec.both_of (bounds_view first.entry) (bounds_view second.entry) }
{
    between(first)?.into_intersection(between(second)?).ok()
}

// Adds the interval of a part, if it has one, and returns what follows the part.
#[inline(always)]
fn push<'a, S: Found<'a>>(
    interval: Option<Interval<VersionRef<'a>>>,
    rest: &'a [u8],
    found: &mut S,
) -> Allocated<Option<&'a [u8]>>
    requires { S.has_room found.old }
    ensures added { IfOk result (λ after. passed_view after (S.items found.new)
        ≡ Spec.passed (S.items found.old) (Spec.part_read rest.now interval.entry)) }
    ensures full { OnErr result (S.room ≤ 0) }
{
    let Some(interval) = interval else {
        return Ok(None);
    };
    found.add_reserved(interval)?;
    Ok(Some(rest))
}

// Adds the interval of a rare part, as `push` does.
#[cold]
#[inline(never)]
fn push_rare<'a, S: Found<'a>>(
    interval: Option<Interval<VersionRef<'a>>>,
    rest: &'a [u8],
    found: &mut S,
) -> Allocated<Option<&'a [u8]>>
    requires { S.has_room found.old }
    ensures added { IfOk result (λ after. passed_view after (S.items found.new)
        ≡ Spec.passed (S.items found.old) (Spec.part_read rest.now interval.entry)) }
    ensures full { OnErr result (S.room ≤ 0) }
{
    push(interval, rest, found)
}

// Adds what two comparisons have in common, where that is an interval. Mostly the first one has a
// lower bound and the second an upper one.
#[tactic(auto, using(crate::proofs::Everyday::Parts::half_open))]
fn push_both<'a, S: Found<'a>>(
    one: Bounds<'a>,
    two: Bounds<'a>,
    rest: &'a [u8],
    found: &mut S,
) -> Allocated<Option<&'a [u8]>>
    requires { S.has_room found.old }
    ensures added { let both = Spec.both_of (bounds_view one.entry) (bounds_view two.entry) in
        IfOk result (λ after. passed_view after (S.items found.new)
        ≡ Spec.passed (S.items found.old) (Spec.part_read rest.now both)) }
    ensures full { OnErr result (S.room ≤ 0) }
{
    match (&one.upper, &two.lower) {
        (Bound::Unbounded, Bound::Unbounded) => {
            push(Interval::new(one.lower, two.upper), rest, found)
        }
        _ => push_rare(common_interval(one, two), rest, found),
    }
}

// Adds the interval of one comparison, or of two, and returns what follows them.
#[tactic(auto, unfolding(crate::specs::Internal::CommonFronts::comparisons_front))]
fn push_comparisons<'a, P: Place, S: Found<'a>>(
    text: &'a [u8],
    found: &mut S,
) -> Allocated<Option<&'a [u8]>>
    requires { S.has_room found.old }
    ensures added { IfOk result (λ rest. passed_view rest (S.items found.new)
        ≡ Spec.passed (S.items found.old) (Spec.comparisons_front MAX_SAFE_INTEGER text.now)) }
    ensures full { OnErr result (S.room ≤ 0) }
{
    let Some((first, rest)) = comparison::<P>(text) else {
        return Ok(None);
    };
    if !matches!(rest, [b' ', b'<' | b'=' | b'>', ..]) {
        return push(between(first), rest, found);
    }
    match comparison::<P>(&rest[1..]) {
        Some((second, rest)) => push_both(first, second, rest, found),
        None => Ok(None),
    }
}

// Adds the interval of a word that has these bounds, and returns what follows the word. The bounds
// are known to be in order.
#[inline(always)]
fn push_word<'a, S: Found<'a>>(
    bounds: Option<Bounds<'a>>,
    rest: &'a [u8],
    found: &mut S,
) -> Allocated<Option<&'a [u8]>>
    requires room { S.has_room found.old }
    requires bounds { IfSome bounds (λ b. is_interval precedence (bounds_view b) ≡ true) }
    ensures added { IfOk result (λ after. passed_view after (S.items found.new)
        ≡ Spec.passed (S.items found.old) (Spec.part_read rest.now (table_view bounds.entry))) }
    ensures full { OnErr result (S.room ≤ 0) }
{
    let Some(bounds) = bounds else {
        return Ok(None);
    };
    found.add_reserved(ordered(bounds))?;
    Ok(Some(rest))
}

// Adds the interval of what stands behind a tilde, and returns what follows it.
#[tactic(auto, unfolding(crate::specs::Internal::CommonFronts::tilde_front))]
fn push_tilde<'a, P: Place, S: Found<'a>>(
    text: &'a [u8],
    found: &mut S,
) -> Allocated<Option<&'a [u8]>>
    requires { S.has_room found.old }
    ensures added { IfOk result (λ rest. passed_view rest (S.items found.new)
        ≡ Spec.passed (S.items found.old)
        (Spec.word_read MAX_SAFE_INTEGER (Spec.tilde_front MAX_SAFE_INTEGER text.now))) }
    ensures full { OnErr result (S.room ≤ 0) }
{
    let (greater, rest) = words::tilde_sign(text);
    let Some((partial, rest)) = P::bare_front(rest) else {
        return Ok(None);
    };
    push_word(table::tilde(greater, &partial), rest, found)
}

// Adds the interval of what stands behind a caret, and returns what follows it.
#[tactic(auto, unfolding(crate::specs::Internal::CommonFronts::caret_front))]
fn push_caret<'a, P: Place, S: Found<'a>>(
    text: &'a [u8],
    found: &mut S,
) -> Allocated<Option<&'a [u8]>>
    requires { S.has_room found.old }
    ensures added { IfOk result (λ rest. passed_view rest (S.items found.new)
        ≡ Spec.passed (S.items found.old)
        (Spec.word_read MAX_SAFE_INTEGER (Spec.caret_front MAX_SAFE_INTEGER text.now))) }
    ensures full { OnErr result (S.room ≤ 0) }
{
    let Some((partial, rest)) = P::bare_front(text) else {
        return Ok(None);
    };
    push_word(table::caret(&partial), rest, found)
}

// Adds the interval from a partial to the one at the front, and returns what follows it.
#[inline(never)]
fn push_hyphen<'a, P: Place, S: Found<'a>>(
    lower: Partial<'a>,
    text: &'a [u8],
    found: &mut S,
) -> Allocated<Option<&'a [u8]>>
    requires { S.has_room found.old }
    ensures added { IfOk result (λ rest. passed_view rest (S.items found.new)
        ≡ Spec.passed (S.items found.old)
        (Spec.word_read MAX_SAFE_INTEGER
        (Spec.upper_front MAX_SAFE_INTEGER (partial_view lower.entry) text.now))) }
    ensures full { OnErr result (S.room ≤ 0) }
{
    match P::bare_front(text) {
        Some((upper, rest)) => push(between(table::hyphen(&lower, &upper)), rest, found),
        None => Ok(None),
    }
}

// Adds the interval of one partial, or of two with a dash between them, and returns what follows.
#[tactic(auto, unfolding(crate::specs::Internal::CommonFronts::partials_front))]
fn push_partials<'a, P: Place, S: Found<'a>>(
    text: &'a [u8],
    found: &mut S,
) -> Allocated<Option<&'a [u8]>>
    requires { S.has_room found.old }
    ensures added { IfOk result (λ rest. passed_view rest (S.items found.new)
        ≡ Spec.passed (S.items found.old)
        (Spec.word_read MAX_SAFE_INTEGER (Spec.partials_front MAX_SAFE_INTEGER text.now))) }
    ensures full { OnErr result (S.room ≤ 0) }
{
    let Some((partial, rest)) = P::bare_front(text) else {
        return Ok(None);
    };
    match rest {
        [b' ', b'-', b' ', second @ ..] => push_hyphen::<P, S>(partial, second, found),
        _ => push_word(table::plain(&partial), rest, found),
    }
}

// Adds the interval of the part at the front, and returns what follows the part.
#[inline(always)]
#[tactic(auto, unfolding(crate::specs::Internal::CommonFronts::part_front))]
fn push_part<'a, P: Place, S: Found<'a>>(
    text: &'a [u8],
    found: &mut S,
) -> Allocated<Option<&'a [u8]>>
    requires { S.has_room found.old }
    ensures added { IfOk result (λ rest. passed_view rest (S.items found.new)
        ≡ Spec.passed (S.items found.old) (Spec.part_front MAX_SAFE_INTEGER text.now)) }
    ensures full { OnErr result (S.room ≤ 0) }
{
    match text {
        [] => Ok(None),
        [b'<' | b'=' | b'>', ..] => push_comparisons::<P, S>(text, found),
        [b'~', rest @ ..] => push_tilde::<P, S>(rest, found),
        [b'^', rest @ ..] => push_caret::<P, S>(rest, found),
        _ => push_partials::<P, S>(text, found),
    }
}

/// The interval of the caret or tilde at the front and the partial behind it, and what follows the
/// partial, which begins with `;`. `None` may be returned for others.
#[inline(always)]
pub(crate) fn signed_front(text: &[u8]) -> Option<(Interval<VersionRef<'_>>, &[u8])>
    ensures part { IfSome result (λ found.
        Spec.part_front MAX_SAFE_INTEGER text.now ≡ Some (found.0, found.1.now)) }
    ensures more { IfSome result (λ found. 0 < length found.1.now) }
    ensures ends { IfSome result (λ found. ends_field found.1.now ≡ true) }
{
    let (sign, behind) = match text {
        [b'^', behind @ ..] => (Sign::Caret, behind),
        [b'~', behind @ ..] => (Sign::Tilde(false), behind),
        _ => return None,
    };
    let (partial, rest) = InLines::bare_front(behind)?;
    if !matches!(rest, [b';', ..]) {
        return None;
    }
    let bounds = table::signed(sign, &partial)?;
    Some((ordered(bounds), rest))
}

/// Adds the intervals of the common parts at the front to an empty list, one for each, and returns
/// what follows them. It returns `None` exactly where no such parts stand there; then the list may
/// hold some intervals. Its versions may have builds.
#[inline(always)]
pub(crate) fn read_front<'a, P: Place, S: Found<'a>>(
    text: &'a [u8],
    found: &mut S,
) -> Allocated<Option<&'a [u8]>>
    requires empty { S.items found.old ≡ [] }
    requires room { S.has_room found.old }
    ensures some { IfOk result (λ rest. IfSome rest (λ rest.
        common_fronts MAX_SAFE_INTEGER text.now ≡ Some (S.items found.new, rest.now))) }
    ensures none { IfOk result (λ rest.
        IfNone rest (common_fronts MAX_SAFE_INTEGER text.now ≡ None)) }
    ensures memory { OnErr result ((S.room ≤ 0) ⊎ (has_bars text.now ≡ true)) }
{
    let mut rest = text;
    'parts: loop {
        let Some(behind) = push_part::<P, S>(rest, found)? else {
            return Ok(None);
        };
        let Some(next) = after_bars(behind) else {
            return Ok(Some(behind));
        };
        found.reserve_for(next)?;
        rest = next;
    }
}

/// Adds the intervals of common parts, one for each, to an empty list. It returns `false` exactly
/// where the text is none; then the list may hold some of them. Its versions may have builds.
#[inline(always)]
pub(crate) fn read_common<'a, P: Place, S: Found<'a>>(
    text: &'a [u8],
    found: &mut S,
) -> Allocated<bool>
    requires empty { S.items found.old ≡ [] }
    requires room { S.has_room found.old }
    ensures some { IfOk result (λ there. IsTrue there
        → AreCommonParts MAX_SAFE_INTEGER text.now (S.items found.new)) }
    ensures none { IfOk result (λ there. IsFalse there
        → NoValue (AreCommonParts MAX_SAFE_INTEGER text.now)) }
    ensures memory { OnErr result ((S.room ≤ 0) ⊎ (has_bars text.now ≡ true)) }
{
    match read_front::<P, S>(text, found)? {
        Some(rest) => Ok(rest.is_empty()),
        None => Ok(false),
    }
}

// Whether a `+` stands in a text.
fn has_plus(text: &str) -> bool
    ensures { result ≡ Spec.has_plus text.now }
{
    text.as_bytes().contains(&b'+')
}

/// Reads a common range text in one pass. It returns `None` exactly where the text is not one; the
/// error is an allocation failure.
///
/// Most ranges in manifests are common texts. Their parts are separated by `||`, with one space or
/// none on each side. Each part is one word, such as `^1.2.3`, `~1.2`, `1.x` or `1.0.0 - 2.0.0`, or
/// two comparisons separated by one space whose intervals meet, such as `>=1.0.0 <2.0.0`. No
/// version in the text begins with `v` or has build metadata, and there is no other whitespace.
/// `foo 1.2.3`, `v1.2.3` and `> 1` are not common texts; `Range::parse` reads them too.
pub fn range_fast(alloc: Global, text: &str) -> Result<Option<Range>, AllocError>
    // What is read is the meaning of a common text, which is what the text means.
    ensures some { IfOk result (λ found. IfSome found (λ range.
        IsCommonRange MAX_SAFE_INTEGER text.now range)) }
    ensures denoted { IfOk result (λ found. IfSome found (λ range.
        Means MAX_SAFE_INTEGER text.now range)) }
    // Nothing is read only where the text is not a common one.
    ensures none { IfOk result (λ found.
        IfNone found (NoValue (IsCommonRange MAX_SAFE_INTEGER text.now))) }
    // Allocation fails only where the text has bars, or is a common one of which a bound has
    // identifiers.
    ensures memory { OnErr result ((has_bars text.now ≡ true) ⊎ ((r : List (Span VersionValue))
        × IsCommonRange MAX_SAFE_INTEGER text.now r × TakesMemory r)) }
{
    if has_plus(text) {
        return Ok(None);
    }
    let mut found = SmallVec::new(alloc);
    if !read_common::<Alone, _>(text.as_bytes(), &mut found)? {
        return Ok(None);
    }
    owned_range(alloc, RangeRef::of_intervals(found))
}
