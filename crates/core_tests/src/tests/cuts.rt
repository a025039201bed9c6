// Intervals of versions, whose bounds are releases here: `1` is 1.0.0.

use super::hash_of;
use semver_core::Version;
use semver_core::cuts::{Bound, Interval};
use std::alloc::{AllocError, Global};

fn release(major: u8) -> Version {
    Version::from((major, 0, 0))
}

// An end of an interval, at a release.
#[derive(Clone, Copy)]
enum End {
    Open,
    Before(u8),
    After(u8),
}

fn bound(end: End) -> Bound<Version> {
    match end {
        End::Open => Bound::Unbounded,
        End::Before(major) => Bound::Before(release(major)),
        End::After(major) => Bound::After(release(major)),
    }
}

fn is_bound(bound: &Bound<Version>, end: End) -> bool {
    match (bound, end) {
        (Bound::Unbounded, End::Open) => true,
        (Bound::Before(version), End::Before(major)) => version.major() == u64::from(major),
        (Bound::After(version), End::After(major)) => version.major() == u64::from(major),
        (_, _) => false,
    }
}

fn between(lower: End, upper: End) -> Option<Interval<Version>> {
    Interval::new(bound(lower), bound(upper))
}

// `>=from <to`
fn from_to(from: u8, to: u8) -> Option<Interval<Version>> {
    between(End::Before(from), End::Before(to))
}

// Whether the interval is the one from the first number to the second.
fn spans(interval: &Interval<Version>, ends: (u8, u8)) -> bool {
    is_bound(interval.lower(), End::Before(ends.0))
        && is_bound(interval.upper(), End::Before(ends.1))
}

// What is asked of one interval.
#[derive(Clone, Copy)]
enum Question {
    // Whether it has the ends that it was made of.
    Ends,
    Contains(u8),
    Copies,
    // Whether it equals the one between two numbers.
    Equals((u8, u8)),
    // Whether the copy of its lower end is that end.
    CopiesLower,
}

// Whether there is an interval between the ends, and the answer is yes.
fn is_true(alloc: Global, lower: End, upper: End, question: Question) -> bool {
    match between(lower, upper) {
        Some(interval) => answer(alloc, &interval, lower, upper, question),
        None => false,
    }
}

fn answer(
    alloc: Global,
    interval: &Interval<Version>,
    lower: End,
    upper: End,
    question: Question,
) -> bool {
    match question {
        Question::Ends => is_bound(interval.lower(), lower) && is_bound(interval.upper(), upper),
        Question::Contains(major) => interval.contains(&release(major)),
        Question::Copies => copies_equal(alloc, interval),
        Question::Equals(ends) => equals(interval, ends),
        Question::CopiesLower => copies_to(alloc, interval.lower(), lower),
    }
}

// Whether the interval is the one between two numbers, or there is none where none is wanted.
fn is_wanted(interval: &Option<Interval<Version>>, wanted: Option<(u8, u8)>) -> bool {
    match (interval, wanted) {
        (Some(interval), Some(ends)) => spans(interval, ends),
        (None, None) => true,
        (_, _) => false,
    }
}

// Two ends, and whether they make an interval.
const ENDS: &[(End, End, bool)] = &[
    (End::Before(1), End::Before(1), false),
    (End::After(1), End::After(1), false),
    (End::After(1), End::Before(1), false),
    (End::Before(1), End::After(1), true),
    (End::Before(1), End::After(2), true),
    (End::Open, End::Open, true),
];

#[test]
fn new_wants_the_lower_cut_below_the_upper_one(rt: HostRuntime) {
    for &(lower, upper, wanted) in ENDS {
        assert!(rt; is_true(rt.alloc(), lower, upper, Question::Ends) == wanted);
    }
}

// The ends of an interval, a release, and whether it lies between them.
const POINTS: &[(End, End, u8, bool)] = &[
    (End::Before(1), End::Before(2), 0, false),
    (End::Before(1), End::Before(2), 1, true),
    (End::Before(1), End::Before(2), 2, false),
    (End::After(1), End::After(2), 1, false),
    (End::After(1), End::After(2), 2, true),
    (End::After(1), End::After(2), 3, false),
    (End::Before(1), End::After(1), 1, true),
    (End::Before(1), End::After(1), 2, false),
    (End::Open, End::Open, 0, true),
];

#[test]
fn contains_the_points_between_the_cuts(rt: HostRuntime) {
    for &(lower, upper, major, wanted) in POINTS {
        let contains = Question::Contains(major);
        assert!(rt;
            is_true(rt.alloc(), lower, upper, contains) == wanted,
            "{major}"
        );
    }
}

// Whether the copy equals the interval and hashes alike.
fn copies_equal(alloc: Global, interval: &Interval<Version>) -> bool {
    match interval.copy(alloc) {
        Ok(copy) => copy == *interval && hash_of(&copy) == hash_of(interval),
        Err(_) => false,
    }
}

fn equals(interval: &Interval<Version>, ends: (u8, u8)) -> bool {
    match from_to(ends.0, ends.1) {
        Some(other) => *interval == other,
        None => false,
    }
}

fn copies_to(alloc: Global, bound: &Bound<Version>, end: End) -> bool {
    match bound.copy(alloc) {
        Ok(copy) => is_bound(&copy, end),
        Err(_) => false,
    }
}

#[test]
fn copy_is_equal_and_hashes_alike(rt: HostRuntime) {
    let (lower, upper) = (End::Before(1), End::Before(2));
    assert!(rt; is_true(rt.alloc(), lower, upper, Question::Copies));
    assert!(rt; is_true(rt.alloc(), lower, upper, Question::Equals((1, 2))));
    assert!(rt; !is_true(rt.alloc(), lower, upper, Question::Equals((1, 3))));
    assert!(rt; is_true(rt.alloc(), lower, upper, Question::CopiesLower));
}

// Two intervals, what both hold, and what the second leaves of the first below it and above it.
struct Pair {
    first: (u8, u8),
    second: (u8, u8),
    both: Option<(u8, u8)>,
    below: Option<(u8, u8)>,
    above: Option<(u8, u8)>,
}

const PAIRS: &[Pair] = &[
    Pair {
        first: (1, 3),
        second: (2, 4),
        both: Some((2, 3)),
        below: Some((1, 2)),
        above: None,
    },
    Pair {
        first: (1, 3),
        second: (3, 4),
        both: None,
        below: Some((1, 3)),
        above: None,
    },
    Pair {
        first: (1, 5),
        second: (2, 3),
        both: Some((2, 3)),
        below: Some((1, 2)),
        above: Some((3, 5)),
    },
    Pair {
        first: (1, 5),
        second: (5, 6),
        both: None,
        below: Some((1, 5)),
        above: None,
    },
];

// What is asked of a pair.
#[derive(Clone, Copy)]
enum Call {
    Intersect,
    Clip,
    Subtract,
    Sides,
    Meets,
    Reaches,
    Covers,
}

// Whether the call gives what the pair says.
fn agrees(alloc: Global, call: Call, pair: &Pair) -> bool {
    match from_to(pair.first.0, pair.first.1) {
        Some(first) => agrees_on(alloc, call, pair, &first),
        None => false,
    }
}

fn agrees_on(alloc: Global, call: Call, pair: &Pair, first: &Interval<Version>) -> bool {
    match from_to(pair.second.0, pair.second.1) {
        Some(second) => holds(alloc, call, pair, first, &second),
        None => false,
    }
}

fn holds(
    alloc: Global,
    call: Call,
    pair: &Pair,
    first: &Interval<Version>,
    second: &Interval<Version>,
) -> bool {
    match call {
        Call::Intersect => is_common(first.intersect(alloc, second), pair.both),
        Call::Clip => is_common(first.clip(alloc, second), pair.both),
        Call::Subtract => subtracts(alloc, pair, first, second),
        Call::Sides => has_sides(alloc, pair, first, second),
        Call::Meets => first.meets(second) == pair.both.is_some(),
        Call::Reaches => first.reaches(second) == pair.both.is_some(),
        Call::Covers => first.covers(second) == (pair.both == Some(pair.second)),
    }
}

fn is_common(
    found: Result<Option<Interval<Version>>, AllocError>,
    wanted: Option<(u8, u8)>,
) -> bool {
    match found {
        Ok(both) => is_wanted(&both, wanted),
        Err(_) => false,
    }
}

fn subtracts(
    alloc: Global,
    pair: &Pair,
    first: &Interval<Version>,
    second: &Interval<Version>,
) -> bool {
    match first.subtract(alloc, second) {
        Ok(rest) => is_wanted(&rest.0, pair.below) && is_wanted(&rest.1, pair.above),
        Err(_) => false,
    }
}

// Of intervals that do not meet nothing is asked here.
fn has_sides(
    alloc: Global,
    pair: &Pair,
    first: &Interval<Version>,
    second: &Interval<Version>,
) -> bool {
    !first.meets(second)
        || (is_common(first.left_below(alloc, second), pair.below)
            && is_common(first.left_above(alloc, second), pair.above))
}

#[test]
fn intersect_keeps_what_both_hold(rt: HostRuntime) {
    for pair in PAIRS {
        assert!(rt; agrees(rt.alloc(), Call::Intersect, pair));
    }
}

#[test]
fn clip_keeps_what_both_hold(rt: HostRuntime) {
    for pair in PAIRS {
        assert!(rt; agrees(rt.alloc(), Call::Clip, pair));
    }
}

#[test]
fn subtract_leaves_what_lies_below_and_above(rt: HostRuntime) {
    for pair in PAIRS {
        assert!(rt; agrees(rt.alloc(), Call::Subtract, pair));
    }
}

#[test]
fn each_side_leaves_what_lies_there(rt: HostRuntime) {
    for pair in PAIRS {
        assert!(rt; agrees(rt.alloc(), Call::Sides, pair));
    }
}

#[test]
fn meets_where_both_hold_something(rt: HostRuntime) {
    for pair in PAIRS {
        assert!(rt; agrees(rt.alloc(), Call::Meets, pair));
        assert!(rt; agrees(rt.alloc(), Call::Reaches, pair));
    }
}

// Whether this interval covers the other, and the other does not cover it.
fn only_covers(interval: &Interval<Version>, ends: (u8, u8)) -> bool {
    match from_to(ends.0, ends.1) {
        Some(other) => interval.covers(&other) && !other.covers(interval),
        None => false,
    }
}

fn all_covers(ends: (u8, u8)) -> bool {
    only_covers(&Interval::default(), ends)
}

#[test]
fn covers_where_the_other_lies_within(rt: HostRuntime) {
    for pair in PAIRS {
        assert!(rt; agrees(rt.alloc(), Call::Covers, pair));
    }
    assert!(rt; all_covers((1, 2)));
}
