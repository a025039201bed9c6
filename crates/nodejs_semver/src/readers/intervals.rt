// The intervals of a part. Memory is taken only where a list of intervals grows.

ghost use Rattle.std.specs.Prelude.{◌++◌, ◌<◌, ◌∷◌, ◌≡◌, IfOk, length, List};
ghost use Rattle.nodejs_semver.specs.Words.{bounds_view, interval, is_interval};
ghost use Rattle.nodejs_semver.specs.Words.{joined_from, MAX_SAFE_INTEGER, next_at, next_view};
ghost use Rattle.nodejs_semver.specs.Words.{OnErr, OnOk, part_bounds, part_intervals, precedence};
ghost use Rattle.nodejs_semver.specs.Words.{read_at, space_len, Span, true, VersionValue};
ghost use Rattle.nodejs_semver.specs.Words.{word_view};

use crate::Allocated;
use crate::diagnosis::IgnoredKind;
use crate::readers::{partial, table, words};
use semver_core::VersionRef;
use semver_core::cuts::Interval;
use semver_pieces::{Bounds, Found, Intervals, is_boundary, skip_spaces, skip_to_boundary};

/// The interval of two bounds, where the lower cut is below the upper one.
pub(crate) fn between(bounds: Bounds<'_>) -> Option<Interval<VersionRef<'_>>>
    ensures { result ≡ interval precedence (bounds_view bounds.entry) }
{
    Interval::new(bounds.lower, bounds.upper)
}

/// The interval of two bounds that are in order.
#[inline(always)]
pub(crate) fn ordered(bounds: Bounds<'_>) -> Interval<VersionRef<'_>>
    requires { is_interval precedence (bounds_view bounds) ≡ true }
    ensures { result ≡ bounds_view bounds.entry }
{
    Interval::of_ordered(bounds.lower, bounds.upper)
}

/// The interval of the word at the front, or why the word is ignored, and the text behind the word.
#[inline(always)]
pub(crate) fn word_front(text: &[u8]) -> (Result<Interval<VersionRef<'_>>, IgnoredKind>, &[u8])
    ensures { word_view result ≡ read_at MAX_SAFE_INTEGER text.now }
{
    let (sign, rest) = words::sign_front(text);
    let Some((partial, rest)) = partial::partial_front(rest) else {
        return (Err(IgnoredKind::Malformed), skip_to_boundary(text));
    };
    if let Some((upper, rest)) = words::upper_of(sign, rest) {
        let interval = between(table::hyphen(&partial, &upper));
        return (interval.ok_or(IgnoredKind::WithoutBounds), rest);
    }
    if !is_boundary(rest) {
        return (Err(IgnoredKind::Malformed), skip_to_boundary(text));
    }
    match table::signed(sign, &partial) {
        Some(bounds) => (Ok(ordered(bounds)), rest),
        None => (Err(IgnoredKind::WithoutBounds), rest),
    }
}

// The interval of the word at the front, where it has one, and the text behind the word and its
// whitespace.
#[inline(always)]
fn next_interval(text: &[u8]) -> (Option<Interval<VersionRef<'_>>>, &[u8])
    ensures { next_view result.0 result.1 ≡ next_at MAX_SAFE_INTEGER text.now }
{
    let (word, rest) = word_front(text);
    (word.ok(), skip_spaces(rest))
}

// The running interval with one more: the intersection of both, or the next one alone, and then the
// running one is finished.
fn meet_or_finish<'a>(
    running: Interval<VersionRef<'a>>,
    next: Interval<VersionRef<'a>>,
    finished: &mut Intervals<VersionRef<'a>>,
) -> Allocated<Interval<VersionRef<'a>>>
    ensures joined { IfOk result (λ kept. (rest : List (Span VersionValue)) →
        finished.new.items ++ joined_from precedence kept rest
        ≡ finished.old.items ++ joined_from precedence running.entry (next.entry ∷ rest)) }
    ensures memory { OnErr result (0 < length finished.old.items) }
{
    match running.into_intersection(next) {
        Ok(common) => Ok(common),
        Err((running, next)) => {
            finished.add(running)?;
            Ok(next)
        }
    }
}

/// Adds the intervals of a part that whitespace does not begin. Most parts have one word, or one
/// behind words without an interval.
pub(crate) fn read_part<'a>(part: &'a [u8], found: &mut Intervals<VersionRef<'a>>) -> Allocated<()>
    requires { space_len part.now ≡ 0 }
    ensures added { OnOk result (found.new.items ≡ found.old.items
        ++ part_intervals MAX_SAFE_INTEGER part.now) }
    ensures memory { OnErr result
        (1 < length (found.old.items ++ part_intervals MAX_SAFE_INTEGER part.now)) }
{
    let mut rest = part;
    'words: while !rest.is_empty() {
        let (next, after) = next_interval(rest);
        if let Some(first) = next {
            if after.is_empty() {
                return found.add(first);
            }
            return read_words(first, after, found);
        }
        rest = after;
    }
    Ok(())
}

// Adds the intervals of the words that follow the first one with an interval.
#[inline(never)]
fn read_words<'a>(
    first: Interval<VersionRef<'a>>,
    text: &'a [u8],
    found: &mut Intervals<VersionRef<'a>>,
) -> Allocated<()>
    requires { space_len text.now ≡ 0 }
    ensures added { OnOk result (found.new.items ≡ found.old.items
        ++ joined_from precedence first.entry (part_bounds MAX_SAFE_INTEGER text.now)) }
    ensures memory { OnErr result (1 < length (found.old.items
        ++ joined_from precedence first.entry (part_bounds MAX_SAFE_INTEGER text.now))) }
{
    let mut running = first;
    let mut rest = text;
    'words: while !rest.is_empty() {
        let (next, after) = next_interval(rest);
        rest = after;
        if let Some(next) = next {
            running = meet_or_finish(running, next, found)?;
        }
    }
    found.add(running)
}
