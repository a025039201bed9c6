// Intervals put in order, so that whether one of them accepts a version, or says all of another,
// is found by search. What asks so about many makes an index first, and asks the list itself where
// there is no memory for one. So the index changes no answer.

ghost use Rattle.std.specs.{List.Sorted.IsPermutation, Prelude.{◌++◌, ◌≡◌}};
ghost use Rattle.nodejs_semver.specs.Internal.Index as spec;
ghost use Rattle.nodejs_semver.specs.Words.{bound_of, IfOk, OnOk, spans_of};
ghost use Rattle.nodejs_semver.specs.Words.{IfSome, List, list_any, Span, span_of, VersionValue};
ghost use Rattle.nodejs_semver.specs.Internal.Candidates.{wanted};
ghost use Rattle.nodejs_semver.specs.Ranges.Unions.{says_all};

use crate::range::gate::{is_past_lower, is_past_upper};
use crate::range::neighbours::bare_release;
use crate::readers::release;
use crate::{Allocated, RangeOf};
use semver_core::cuts::{Bound, Interval};
use semver_core::{VersionPoint, VersionRef, Versioned};
use std::alloc::Global;
use std::cmp::Ordering;
use std::marker::Model;

// How many intervals make an index cost less than going through them for each question.
const MANY: usize = 128;

// An interval with the numbers of the versions that it is asked about.
#[derive(Drop)]
struct Entry<'a, V: VersionPoint> {
    numbers: VersionRef<'static>,
    interval: &'a Interval<V>,
}

impl<'a, V: VersionPoint> Model for Entry<'a, V> {
    ghost use Rattle.nodejs_semver.specs.Internal.Index as spec;
    ghost use Rattle.nodejs_semver.specs.Words.{span_of};

    ghost Value = { spec.Entry };

    ghost view = { λ e. (e.numbers, span_of V.value e.interval.now) };
}

// Entries in order, each with the upper bound furthest up of those of the same numbers up to it.
#[derive(Drop)]
struct Ordered<'a, V: VersionPoint> {
    entries: Vec<Entry<'a, V>>,
    ends: Vec<&'a Bound<V>>,
}

impl<'a, V: VersionPoint> Model for Ordered<'a, V> {
    ghost use Rattle.nodejs_semver.specs.Internal.Index as spec;
    ghost use Rattle.nodejs_semver.specs.Words.{List};

    ghost Value = { List spec.Entry };

    ghost view = { λ o. o.entries.items };

    ghost invariant = { λ o. spec.AreInOrder o.entries.items
        × spec.HaveEnds V.value o.entries.items o.ends.items };
}

// Which versions a list of intervals accepts, pre-releases not being included.
#[derive(Drop)]
pub(crate) struct Index<'a, V: VersionPoint> {
    releases: Ordered<'a, V>,
    pre_releases: Ordered<'a, V>,
}

impl<'a, V: VersionPoint> Model for Index<'a, V> {
    ghost use Rattle.nodejs_semver.specs.Internal.Index as spec;

    ghost Value = { spec.Indexed };

    ghost view = { λ i. (i.releases, i.pre_releases) };
}

// The indexes of ranges, and of intervals that are removed.
#[derive(Drop)]
pub(crate) struct Indexes<'a, V: VersionPoint, W: VersionPoint> {
    kept: Vec<Index<'a, V>>,
    removed: Index<'a, W>,
}

impl<'a, V: VersionPoint> Entry<'a, V> {
    // By their numbers, and of the same numbers by where they begin.
    fn place_cmp(&self, other: &Entry<'a, V>) -> Ordering
        ensures { result ≡ spec.place_cmp self.now other.now }
    {
        self.numbers
            .cmp_precedence(&other.numbers)
            .then(cmp_lower(self.interval.lower(), other.interval.lower()))
    }

    // Whether its place is not above that of an interval of these numbers that begins with the
    // version.
    fn is_upto<N: Versioned, W: Versioned>(&self, numbers: &N, version: &W) -> bool
        ensures { result ≡ spec.is_upto (N.value numbers.now)
            (spec.begins_past (W.value version.now)) self.now }
    {
        match self.numbers.cmp_precedence(numbers) {
            Ordering::Less => true,
            Ordering::Equal => is_past_lower(self.interval.lower(), version),
            Ordering::Greater => false,
        }
    }

    // Whether its place is not above that of an interval of these numbers that begins at the bound.
    fn is_upto_bound(&self, numbers: &VersionRef<'_>, bound: &Bound<V>) -> bool
        ensures { result ≡ spec.is_upto numbers.now
            (spec.begins_upto (bound_of V.value bound.now)) self.now }
    {
        match self.numbers.cmp_precedence(numbers) {
            Ordering::Less => true,
            Ordering::Equal => cmp_lower(self.interval.lower(), bound).is_le(),
            Ordering::Greater => false,
        }
    }

    // Whether it is of these numbers, and its upper bound is not as far up as this one.
    fn ends_below(&self, numbers: &VersionRef<'_>, end: &Bound<V>) -> bool
        ensures { result
            ≡ spec.ends_below self.now numbers.now (bound_of V.value end.now) }
    {
        self.numbers.cmp_precedence(numbers).is_eq() && is_further_up(end, self.interval.upper())
    }
}

// The order of two lower bounds, by the versions that they are.
fn cmp_lower<V: VersionPoint>(bound: &Bound<V>, other: &Bound<V>) -> Ordering
    ensures { result ≡ spec.lower_order (bound_of V.value bound.now) (bound_of V.value other.now) }
{
    bound.cmp_lower(other)
}

// Whether the first upper bound is further up than the second.
fn is_further_up<V: VersionPoint>(bound: &Bound<V>, other: &Bound<V>) -> bool
    ensures { result
        ≡ spec.is_further_up (bound_of V.value bound.now) (bound_of V.value other.now) }
{
    bound.cmp_upper(other).is_gt()
}

// The upper bounds furthest up.
fn ends_of<'a, V: VersionPoint>(
    alloc: Global,
    entries: &[Entry<'a, V>],
) -> Allocated<Vec<&'a Bound<V>>>
    requires { spec.AreInOrder entries.now }
    ensures { IfOk result (λ ends. spec.HaveEnds V.value entries.now ends.items) }
{
    let mut ends = Vec::with_capacity(alloc, entries.len())?;
    for entry in entries {
        let mut end = entry.interval.upper();
        if let Some(last) = ends.len().checked_sub(1) {
            let (before, furthest) = (&entries[last], ends[last]);
            if entry.ends_below(&before.numbers, furthest) {
                end = furthest;
            }
        }
        ends.push(end)?;
    }
    Ok(ends)
}

impl<'a, V: VersionPoint> Ordered<'a, V> {
    fn of(alloc: Global, mut entries: Vec<Entry<'a, V>>) -> Allocated<Ordered<'a, V>>
        ensures { IfOk result (λ found. IsPermutation entries.entry.items found) }
    {
        entries.sort_unstable_by(|one, other| one.place_cmp(other));
        let ends = ends_of(alloc, &entries)?;
        Ok(Ordered { entries, ends })
    }

    // Whether one of the entries of these numbers covers the interval.
    fn cover(&self, numbers: &VersionRef<'_>, interval: &Interval<V>) -> bool
        ensures { result
            ≡ spec.entries_cover self.now numbers.now (span_of V.value interval.now) }
    {
        let lower = interval.lower();
        let past = self
            .entries
            .partition_point(|entry| entry.is_upto_bound(numbers, lower));
        let Some(last) = past.checked_sub(1) else {
            return false;
        };
        self.entries[last].numbers.cmp_precedence(numbers).is_eq()
            && !is_further_up(interval.upper(), self.ends[last])
    }

    // Whether one of the entries of these numbers holds the version.
    fn hold<N: Versioned, W: Versioned>(&self, numbers: &N, version: &W) -> bool
        ensures { result
            ≡ spec.entries_hold self.now (N.value numbers.now) (W.value version.now) }
    {
        let past = self
            .entries
            .partition_point(|entry| entry.is_upto(numbers, version));
        let Some(last) = past.checked_sub(1) else {
            return false;
        };
        self.entries[last].numbers.cmp_precedence(numbers).is_eq()
            && !is_past_upper(self.ends[last], version)
    }
}

// The release of the numbers of the pre-release that the bound has.
fn named<V: Versioned>(bound: &Bound<V>) -> Option<VersionRef<'static>>
    ensures { result ≡ spec.named (bound_of V.value bound.now) }
{
    match bound {
        Bound::Before(version) | Bound::After(version) if !version.is_release() => {
            Some(bare_release(version))
        }
        _ => None,
    }
}

// Puts the interval at the end for these numbers.
fn push_named<'a, V: VersionPoint>(
    entries: &mut Vec<Entry<'a, V>>,
    interval: &'a Interval<V>,
    bound: &Bound<V>,
) -> Allocated<()>
    ensures { OnOk result (entries.new.items ≡ entries.old.items
        ++ spec.named_entries (span_of V.value interval.now) (bound_of V.value bound.now)) }
{
    if let Some(numbers) = named(bound) {
        entries.push(Entry { numbers, interval })?;
    }
    Ok(())
}

impl<'a, V: VersionPoint> Index<'a, V> {
    pub(crate) fn of(alloc: Global, intervals: &'a [Interval<V>]) -> Allocated<Index<'a, V>>
        ensures { IfOk result (spec.IsIndexOf (spans_of V.value intervals.now)) }
    {
        let (mut releases, mut pre_releases) = (Vec::new(alloc), Vec::new(alloc));
        for interval in intervals {
            let numbers = release(0, 0, 0);
            releases.push(Entry { numbers, interval })?;
            push_named(&mut pre_releases, interval, interval.lower())?;
            push_named(&mut pre_releases, interval, interval.upper())?;
        }
        let releases = Ordered::of(alloc, releases)?;
        let pre_releases = Ordered::of(alloc, pre_releases)?;
        Ok(Index {
            releases,
            pre_releases,
        })
    }

    // The index, where there are many intervals, and memory for it.
    pub(crate) fn of_many(alloc: Global, intervals: &'a [Interval<V>]) -> Option<Index<'a, V>>
        ensures { IfSome result (spec.IsIndexOf (spans_of V.value intervals.now)) }
    {
        if intervals.len() < MANY {
            return None;
        }
        Index::of(alloc, intervals).ok()
    }

    // Whether one of the intervals says all of the other one. Returns `None` where the bounds of
    // that have pre-releases of different numbers, which the order does not help to find.
    pub(crate) fn say_all(&self, other: &Interval<V>) -> Option<bool>
        ensures { IfSome result (λ answer. (ss : List (Span VersionValue)) →
            spec.IsIndexOf ss self.now
            → answer ≡ list_any (λ s. says_all s (span_of V.value other.now)) ss) }
    {
        match (named(other.lower()), named(other.upper())) {
            (None, None) => Some(self.releases.cover(&release(0, 0, 0), other)),
            (Some(numbers), None) => Some(self.pre_releases.cover(&numbers, other)),
            (None, Some(numbers)) => Some(self.pre_releases.cover(&numbers, other)),
            (Some(numbers), Some(others)) => {
                if numbers.cmp_precedence(&others).is_eq() {
                    return Some(self.pre_releases.cover(&numbers, other));
                }
                None
            }
        }
    }

    pub(crate) fn accepts<W: Versioned>(&self, version: &W) -> bool
        ensures { result ≡ spec.lets_pass self.now (W.value version.now) }
    {
        if version.is_release() {
            self.releases.hold(&release(0, 0, 0), version)
        } else {
            self.pre_releases.hold(&bare_release(version), version)
        }
    }
}

impl<'a, V: VersionPoint, W: VersionPoint> Indexes<'a, V, W> {
    // The indexes, where there are many intervals, and memory for indexes of them.
    pub(crate) fn of_many(
        alloc: Global,
        kept: &'a [RangeOf<V>],
        removed: &'a [Interval<W>],
    ) -> Option<Indexes<'a, V, W>>
        ensures { IfSome result (λ i. (v : VersionValue) → spec.wants i.kept.items i.removed v
            ≡ wanted kept.now (spans_of W.value removed.now) v) }
    {
        let mut count = removed.len();
        for range in kept {
            count = count.saturating_add(range.items().len());
        }
        if count < MANY {
            return None;
        }
        Indexes::of(alloc, kept, removed).ok()
    }

    fn of(
        alloc: Global,
        ranges: &'a [RangeOf<V>],
        removed: &'a [Interval<W>],
    ) -> Allocated<Indexes<'a, V, W>>
        ensures { IfOk result (λ i. (v : VersionValue) → spec.wants i.kept.items i.removed v
            ≡ wanted ranges.now (spans_of W.value removed.now) v) }
    {
        let mut kept = Vec::with_capacity(alloc, ranges.len())?;
        for range in ranges {
            kept.push(Index::of(alloc, range.items())?)?;
        }
        let removed = Index::of(alloc, removed)?;
        Ok(Indexes { kept, removed })
    }

    // Whether each range accepts the version, and no interval that is removed.
    pub(crate) fn want<C: Versioned>(&self, version: &C) -> bool
        ensures { result ≡ spec.wants self.now.kept.items self.now.removed (C.value version.now) }
    {
        self.kept.iter().all(|index| index.accepts(version)) && !self.removed.accepts(version)
    }
}
