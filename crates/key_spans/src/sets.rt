//! Unions, intersections and differences of lists of spans, each by one sweep over both lists.
//!
//! ```rust
//! use key_spans::{key_spans, sets};
//! use nodejs_semver::Range;
//! use std::test::Fail;
//!
//! fn what_both_accept(rt: HostRuntime) -> Result<(), Fail> {
//!     let alloc = rt.alloc();
//!     let carets = key_spans(alloc, &Range::parse(alloc, "^1 || ^3")?, false)?;
//!     let tildes = key_spans(alloc, &Range::parse(alloc, "~1.2 || ^2")?, false)?;
//!     let both = sets::intersection(alloc, &carets, &tildes)?;
//!     assert!(rt; both == key_spans(alloc, &Range::parse(alloc, "~1.2")?, false)?);
//!     Ok(())
//! }
//! ```

ghost use Rattle.std.specs.Prelude.{◌≡◌, ◌≤◌, ◌+◌, ◌&&◌, ◌||◌, [], IfOk, length, not, OnOk};
ghost use Rattle.std.specs.Prelude.{option_map};
ghost use Rattle.std.specs.Cmp.Lexicographic.{slice_cmp};
ghost use Rattle.std.specs.Ordering.{nat_cmp};
ghost use Rattle.key_spans.specs.Internal.Pieces.{stretches};
ghost use Rattle.key_spans.specs.Internal.Ends.{after, ends, first_end, IsByKind, IsSwept};
ghost use Rattle.key_spans.specs.Internal.Ends.{is_odd, keeps, least, turned};
ghost use Rattle.key_spans.specs.Spans.{IsCombined};

use crate::canon::Part;
use crate::{KeySpan, spans_of};
use std::alloc::{AllocError, Global};
use std::marker::Model;

/// The spans of the versions of one of two lists. Both lists are such as `key_spans` returns, with
/// the same flag, and so is the result. There are at most as many spans as in both together.
///
/// Fails only if allocation fails.
///
/// ```rust
/// let ones = key_spans(alloc, &Range::parse(alloc, "1.x")?, false)?;
/// let twos = key_spans(alloc, &Range::parse(alloc, "2.x")?, false)?;
/// let both = sets::union(alloc, &ones, &twos)?;
/// assert!(rt; both == key_spans(alloc, &Range::parse(alloc, ">=1.0.0 <3.0.0")?, false)?);
/// ```
pub fn union(
    alloc: Global,
    first: &[KeySpan],
    second: &[KeySpan],
) -> Result<Vec<KeySpan>, AllocError>
    ensures exact { IfOk result (λ spans.
        IsCombined (λ x y. x || y) first.now second.now spans.items) }
    ensures few { IfOk result (λ spans.
        length spans.items ≤ length first.now + length second.now) }
{
    combined(alloc, Operation::Union, first, second)
}

/// The spans of the versions of both lists. Both lists are such as `key_spans` returns, with the
/// same flag, and so is the result: it has no span exactly where the lists have no version in
/// common. There are at most as many spans as in both together.
///
/// Without pre-releases included this is exact, which `Range::intersect` is not: of `>=1.2.3-a` and
/// `<2.0.0` it accepts 1.2.3-b, and the second range does not. Fails only if allocation fails.
pub fn intersection(
    alloc: Global,
    first: &[KeySpan],
    second: &[KeySpan],
) -> Result<Vec<KeySpan>, AllocError>
    ensures exact { IfOk result (λ spans.
        IsCombined (λ x y. x && y) first.now second.now spans.items) }
    ensures few { IfOk result (λ spans.
        length spans.items ≤ length first.now + length second.now) }
{
    combined(alloc, Operation::Intersection, first, second)
}

/// The spans of the versions of the first list that are not of the second. Both lists are such as
/// `key_spans` returns, with the same flag, and so is the result: it has no span exactly where each
/// version of the first list is one of the second. There are at most as many spans as in both
/// together.
///
/// Without pre-releases included this is exact, which `Range::difference` is not. Fails only if
/// allocation fails.
pub fn difference(
    alloc: Global,
    first: &[KeySpan],
    second: &[KeySpan],
) -> Result<Vec<KeySpan>, AllocError>
    ensures exact { IfOk result (λ spans.
        IsCombined (λ x y. x && not y) first.now second.now spans.items) }
    ensures few { IfOk result (λ spans.
        length spans.items ≤ length first.now + length second.now) }
{
    combined(alloc, Operation::Difference, first, second)
}

// Which keys two sets make together.
#[derive(Clone, Copy)]
enum Operation {
    Union,
    Intersection,
    Difference,
}

impl Operation {
    // Whether a key is kept, by whether it is in each set.
    fn keeps(self, first: bool, second: bool) -> bool
        ensures { result ≡ keeps self first second }
    {
        match self {
            Operation::Union => first || second,
            Operation::Intersection => first && second,
            Operation::Difference => first && !second,
        }
    }
}

// The operation on the spans of each kind.
fn combined(
    alloc: Global,
    operation: Operation,
    first: &[KeySpan],
    second: &[KeySpan],
) -> Result<Vec<KeySpan>, AllocError>
    ensures exact { IfOk result (λ spans.
        IsCombined (keeps operation) first.now second.now spans.items) }
    ensures few { IfOk result (λ spans.
        length spans.items ≤ length first.now + length second.now) }
{
    let (releases, others) = by_kind(first);
    let (second_releases, second_others) = by_kind(second);
    let releases = swept(alloc, operation, releases, second_releases)?;
    let others = swept(alloc, operation, others, second_others)?;
    spans_of(alloc, releases, others)
}

// The spans of releases, and the others after them.
fn by_kind(spans: &[KeySpan]) -> (&[KeySpan], &[KeySpan])
    ensures { IsByKind spans.now result.0.now result.1.now }
{
    spans.split_at(spans.partition_point(|span| span.releases_only))
}

// The parts of the keys that are kept, found by going up both sets from end to end.
fn swept<'s>(
    alloc: Global,
    operation: Operation,
    first: &'s [KeySpan],
    second: &'s [KeySpan],
) -> Result<Vec<Part>, AllocError>
    ensures { IfOk result (λ parts. IsSwept (slice_cmp nat_cmp) (keeps operation)
        (stretches first.now) (stretches second.now) parts.items) }
{
    let (mut one, mut other) = (Walk::of(first), Walk::of(second));
    let mut found = Outline::new(alloc);
    'ends: while let Some(place) = lesser(one.end(), other.end()) {
        one.pass(place);
        other.pass(place);
        found.turn(
            alloc,
            place,
            operation.keeps(one.is_inside(), other.is_inside()),
        )?;
    }
    Ok(found.parts)
}

// The lesser of two ends, where there are any.
fn lesser<'s>(one: Option<&'s [u8]>, other: Option<&'s [u8]>) -> Option<&'s [u8]>
    ensures { option_map (λ place. place.now) result ≡ least (slice_cmp nat_cmp)
        (option_map (λ place. place.now) one.entry) (option_map (λ place. place.now) other.entry) }
{
    match (one, other) {
        (Some(first), Some(second)) if second.cmp(first).is_lt() => Some(second),
        (Some(first), _) => Some(first),
        (None, second) => second,
    }
}

// A way up a set, from end to end.
#[derive(Drop)]
struct Walk<'s> {
    // The spans that have ends to come.
    spans: &'s [KeySpan],
    // Whether the start of the first of them was passed.
    is_inside: bool,
}

// In clauses, the ends to come.
impl<'s> Model for Walk<'s> {
    ghost use Rattle.std.specs.Prelude.{◌≡◌, List, ℕ};
    ghost use Rattle.key_spans.specs.Internal.Pieces.{stretches};
    ghost use Rattle.key_spans.specs.Internal.Ends.{ends_left, is_odd};

    ghost Value = { List (List ℕ) };

    ghost view = { λ w. ends_left w.is_inside (stretches w.spans.now) };

    ghost invariant = { λ w. w.is_inside ≡ is_odd (ends_left w.is_inside (stretches w.spans.now)) };
}

impl<'s> Walk<'s> {
    fn of(spans: &'s [KeySpan]) -> Walk<'s>
        ensures { result ≡ ends (stretches spans.now) }
    {
        Walk {
            spans,
            is_inside: false,
        }
    }

    // Whether the next end is a stop.
    fn is_inside(&self) -> bool
        ensures { result ≡ is_odd self.now }
    {
        self.is_inside
    }

    // The next end.
    fn end(&self) -> Option<&'s [u8]>
        ensures { option_map (λ place. place.now) result ≡ first_end self.now }
    {
        match self.spans.first() {
            None => None,
            Some(span) if self.is_inside => Some(span.stop.as_slice()),
            Some(span) => Some(span.start.as_slice()),
        }
    }

    // Passes the next end, if it is this place.
    fn pass(&mut self, place: &[u8])
        ensures { self.new ≡ after (slice_cmp nat_cmp) place.now self.old }
    {
        let Some(end) = self.end() else { return };
        if end.cmp(place).is_eq() {
            if self.is_inside {
                self.spans = &self.spans[1..];
            }
            self.is_inside = !self.is_inside;
        }
    }
}

// The ends of a set that is made from below: its parts, and the start of one that has no stop yet.
#[derive(Drop)]
struct Outline<'s> {
    parts: Vec<Part>,
    start: Option<&'s [u8]>,
}

// In clauses, the ends.
impl<'s> Model for Outline<'s> {
    ghost use Rattle.std.specs.Prelude.{◌++◌, List, option_map, ℕ};
    ghost use Rattle.std.specs.Option.{option_to_list};
    ghost use Rattle.key_spans.specs.Internal.Ends.{ends};

    ghost Value = { List (List ℕ) };

    ghost view = { λ o. ends o.parts.items
        ++ option_to_list (option_map (λ place. place.now) o.start) };
}

impl<'s> Outline<'s> {
    fn new(alloc: Global) -> Outline<'s>
        ensures { result ≡ [] }
    {
        Outline {
            parts: Vec::new(alloc),
            start: None,
        }
    }

    // The set holds what begins at the place, or it does not.
    fn turn(&mut self, alloc: Global, place: &'s [u8], is_kept: bool) -> Result<(), AllocError>
        ensures { OnOk result (self.new ≡ turned is_kept place.now self.old) }
    {
        match self.start {
            None if is_kept => self.start = Some(place),
            Some(start) if !is_kept => {
                self.parts.push(Part::between(alloc, start, place)?)?;
                self.start = None;
            }
            _ => {}
        }
        Ok(())
    }
}
