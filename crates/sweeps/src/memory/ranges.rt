// The calls on ranges and on intervals.

use crate::memory::ample::Calls;
use crate::memory::{borrowed, json, texts};
use nodejs_semver::cuts::{Interval, Point};
use nodejs_semver::laws::headline::{headline, headline_at};
use nodejs_semver::laws::{both_readers, headline_of_texts, membership, printed_in_field};
use nodejs_semver::readers::{is_blank, range_fast, range_loose};
use nodejs_semver::{Range, Version};
use std::alloc::{AllocError, Global};

/// The ranges beside which each range is asked.
pub const OTHERS: &[&str] = &["*", "^1.5.0-b+c || 3.2.x || ^7.0.0-0", "<0.0.0-0"];

// What stands behind each interval.
const BEHIND: &[&str] = &["", "+b", " foo", " 1"];

// A beginning of a range, and the letter that goes on: in one identifier, in one malformed word, in
// one number, and in whitespace.
const BEGINNINGS: &[(&str, char)] = &[
    ("^1.2.3-", 'a'),
    ("1.2.3+", 'a'),
    ("2.0.0-b - 1.0.0-", 'a'),
    ("1 f", 'o'),
    ("^0", '0'),
    ("^1", '1'),
    ("^9007199254740991 ", ' '),
    ("||1", ' '),
    ("1", '|'),
];

// Ranges that accept no version.
const EMPTY: &[&str] = &[
    "<0.0.0",
    ">1.0.0 <1.0.1-0",
    "<0.0.0||>1.0.0 <1.0.1-0||>1.0.0-a <1.0.0-a.0",
];

/// Makes each call on ranges about ranges of so many intervals.
pub fn ask_counts(alloc: Global, calls: &mut Calls, from: u32, to: u32) -> Result<(), AllocError> {
    for count in from..=to {
        ask_many(alloc, calls, count as usize)?;
    }
    Ok(())
}

// Makes each call about ranges of so many intervals, with and without build metadata.
fn ask_many(alloc: Global, calls: &mut Calls, count: usize) -> Result<(), AllocError> {
    for &behind in BEHIND {
        ask_found(alloc, calls, texts::range(alloc, count, behind))?;
    }
    Ok(())
}

/// Makes each call on ranges about ranges of so many bytes.
pub fn ask_long(alloc: Global, calls: &mut Calls, length: usize) -> Result<(), AllocError> {
    for &(beginning, letter) in BEGINNINGS {
        ask_found(alloc, calls, texts::long(alloc, beginning, letter, length))?;
    }
    Ok(())
}

/// Makes each call on ranges about ranges that accept no version.
pub fn ask_empty(alloc: Global, calls: &mut Calls) -> Result<(), AllocError> {
    for &text in EMPTY {
        ask(alloc, calls, text)?;
    }
    Ok(())
}

// Makes each call on ranges about that of a text, if there is one.
fn ask_found(
    alloc: Global,
    calls: &mut Calls,
    text: Result<String, AllocError>,
) -> Result<(), AllocError> {
    match text {
        Ok(text) => ask(alloc, calls, &text),
        Err(error) => Err(error),
    }
}

// Makes each call on ranges about that of a text.
fn ask(alloc: Global, calls: &mut Calls, text: &str) -> Result<(), AllocError> {
    calls.tried(headline(alloc, text, "^3 || 5.x"))?;
    headline_of_version(alloc, calls, text, "1.2.3+b")?;
    calls.tried(headline_of_texts(alloc, text, "^3 || 5.x", "1.2.3+b"))?;
    calls.tried(membership(alloc, text, "1.2.3+b"))?;
    calls.found(both_readers(alloc, text))?;
    calls.found(range_fast(alloc, text))?;
    borrowed::ask_range(alloc, calls, text)?;
    if !is_blank(text) {
        calls.found(range_loose(alloc, text))?;
    }
    match calls.answered(Range::parse(alloc, text)) {
        Ok(Some(range)) => about(alloc, calls, &range),
        Ok(None) => Ok(()),
        Err(error) => Err(error),
    }
}

fn headline_of_version(
    alloc: Global,
    calls: &mut Calls,
    text: &str,
    version: &str,
) -> Result<(), AllocError> {
    match calls.answered(Version::parse(alloc, version)) {
        Ok(Some(version)) => calls.tried(headline_at(alloc, text, "^3 || 5.x", &version)),
        Ok(None) => Ok(()),
        Err(error) => Err(error),
    }
}

// Makes each call on a range.
fn about(alloc: Global, calls: &mut Calls, range: &Range) -> Result<(), AllocError> {
    calls.asked(range.copy(alloc))?;
    calls.found(range.min_version(alloc))?;
    calls.found(range.min_version_with_prerelease(alloc))?;
    calls.asked(printed_in_field(alloc, range, 101, 1))?;
    json::ask_range(alloc, calls, range)?;
    for &other in OTHERS {
        beside(alloc, calls, range, other)?;
    }
    Ok(())
}

// Makes each call on two ranges, in both orders.
fn beside(alloc: Global, calls: &mut Calls, one: &Range, other: &str) -> Result<(), AllocError> {
    match calls.answered(Range::parse(alloc, other)) {
        Ok(Some(other)) => both_orders(alloc, calls, one, &other),
        Ok(None) => Ok(()),
        Err(error) => Err(error),
    }
}

fn both_orders(
    alloc: Global,
    calls: &mut Calls,
    one: &Range,
    other: &Range,
) -> Result<(), AllocError> {
    pair(alloc, calls, one, other)?;
    pair(alloc, calls, other, one)
}

// Makes each call on two ranges, and on their first intervals.
fn pair(alloc: Global, calls: &mut Calls, one: &Range, other: &Range) -> Result<(), AllocError> {
    calls.found(one.intersect(alloc, other))?;
    calls.found(one.difference(alloc, other))?;
    calls.found(one.least_beyond(alloc, other))?;
    calls.asked(one.union(alloc, other))?;
    calls.asked(one.is_subset(alloc, other))?;
    calls.asked(one.is_subset_with_prerelease(alloc, other))?;
    least_of(alloc, calls, &[one, other])?;
    least_of(alloc, calls, &[one, other, one])?;
    match (one.intervals().first(), other.intervals().first()) {
        (Some(one), Some(other)) => intervals(alloc, calls, one, other),
        _ => Ok(()),
    }
}

// The least version of these ranges.
fn least_of(alloc: Global, calls: &mut Calls, ranges: &[&Range]) -> Result<(), AllocError> {
    let mut copies = Vec::new(alloc);
    for range in ranges {
        copies.push(range.copy(alloc)?)?;
    }
    calls.found(Range::least_of_all(alloc, &copies))
}

// Makes each call on two intervals.
fn intervals<V: Point>(
    alloc: Global,
    calls: &mut Calls,
    one: &Interval<V>,
    other: &Interval<V>,
) -> Result<(), AllocError> {
    calls.asked(one.lower().copy(alloc))?;
    calls.asked(one.copy(alloc))?;
    calls.found(one.intersect(alloc, other))?;
    calls.found(one.clip(alloc, other))?;
    calls.found(one.left_below(alloc, other))?;
    calls.found(one.left_above(alloc, other))?;
    calls.found_two(one.subtract(alloc, other))
}
