// The calls on ranges and on intervals.

use crate::calls::show::{Both, Outcome, found, no_values, read, show};
use crate::calls::{borrowed, laws};
use nodejs_semver::cuts::{Bound, Interval};
use nodejs_semver::readers::{is_blank, range_fast, range_loose};
use nodejs_semver::{Range, Version};
use std::alloc::{AllocError, Global};
use std::io;

const THREE: &str = ">=1.2.3-a.1.b+c.2.d <2.0.0 || ~2.3.4-b || >=5.0.0-c <7.0.0-d+e";

// Three intervals of a text that the fast reader reads: it has no builds.
const COMMON: &str = "^1.2.3-a.1.b || ~2.3.4-b || >=5.0.0-c <7.0.0-d";

const FIVE: &str = "1.3.0 || 1.5.0 || 2.3.5 || >=5.1.0-c <5.2.0 || >=6.0.0-e";

/// Makes each call on ranges and on intervals.
pub fn show_all(rt: &impl Print, alloc: Global) -> io::Result<()> {
    for text in [THREE, FIVE, COMMON, "^1.2.3", "foo", "||"] {
        show(rt, "Range::parse", read(Range::parse(alloc, text)), &text)?;
        readers(rt, alloc, text)?;
    }
    show(rt, "Range::any", Outcome::from(Range::any(alloc)), &"*")?;
    for (one, other) in [(THREE, THREE), (THREE, FIVE), (FIVE, THREE)] {
        algebra(rt, alloc, one, other)?;
    }
    choices(rt, alloc, THREE)?;
    borrowed::show_all(rt, alloc, THREE, FIVE)?;
    laws::show_all(rt, alloc, THREE, FIVE)?;
    for (one, other) in [
        ("1.0.0-a.1.b+c.2.d", "2.0.0-b.1.c+d.2.e"),
        ("1.5.0-c.1.d+e.2.f", "3.0.0-d.1.e+f.2.g"),
    ] {
        intervals(rt, alloc, one, other)?;
    }
    Ok(())
}

fn readers(rt: &impl Print, alloc: Global, text: &str) -> io::Result<()> {
    if !is_blank(text) {
        show(rt, "range_loose", found(range_loose(alloc, text)), &text)?;
    }
    show(rt, "range_fast", found(range_fast(alloc, text)), &text)
}

fn algebra(rt: &impl Print, alloc: Global, one: &str, other: &str) -> io::Result<()> {
    match Range::parse(alloc, one) {
        Ok(one) => beside(rt, alloc, one, other),
        Err(_) => no_values(rt, "algebra"),
    }
}

fn beside(rt: &impl Print, alloc: Global, one: Range, other: &str) -> io::Result<()> {
    match Range::parse(alloc, other) {
        Ok(other) => pair(rt, alloc, &[one, other]),
        Err(_) => no_values(rt, "algebra"),
    }
}

fn pair(rt: &impl Print, alloc: Global, ranges: &[Range; 2]) -> io::Result<()> {
    let one = &ranges[0];
    let other = &ranges[1];
    let both = Both { one, other };
    show(
        rt,
        "Range::intersect",
        found(one.intersect(alloc, other)),
        &both,
    )?;
    show(
        rt,
        "Range::difference",
        found(one.difference(alloc, other)),
        &both,
    )?;
    show(
        rt,
        "Range::least_beyond",
        found(one.least_beyond(alloc, other)),
        &both,
    )?;
    show(
        rt,
        "Range::least_of_all",
        found(Range::least_of_all(alloc, ranges)),
        &both,
    )?;
    as_sets(rt, alloc, &both)
}

fn as_sets(rt: &impl Print, alloc: Global, both: &Both<'_, Range>) -> io::Result<()> {
    let (one, other) = (both.one, both.other);
    let versions = [Version::from((1u64, 5, 0))];
    show(
        rt,
        "Range::union",
        Outcome::from(one.union(alloc, other)),
        both,
    )?;
    show(
        rt,
        "Range::simplify",
        Outcome::from(one.simplify(alloc, &versions)),
        both,
    )?;
    for call in SUBSETS {
        let answer = answer_of(alloc, one, other, call);
        show(rt, call, Outcome::from(answer), both)?;
    }
    Ok(())
}

const SUBSETS: &[&str] = &[
    "Range::is_subset",
    "Range::is_subset_with_prerelease",
    "Range::accepts_same",
    "Range::accepts_same_with_prerelease",
];

fn answer_of(alloc: Global, one: &Range, other: &Range, call: &str) -> Result<bool, AllocError> {
    match call {
        "Range::is_subset" => one.is_subset(alloc, other),
        "Range::is_subset_with_prerelease" => one.is_subset_with_prerelease(alloc, other),
        "Range::accepts_same" => one.accepts_same(alloc, other),
        _ => one.accepts_same_with_prerelease(alloc, other),
    }
}

fn choices(rt: &impl Print, alloc: Global, text: &str) -> io::Result<()> {
    match Range::parse(alloc, text) {
        Ok(range) => choices_of(rt, alloc, &range),
        Err(_) => no_values(rt, "choices"),
    }
}

fn choices_of(rt: &impl Print, alloc: Global, range: &Range) -> io::Result<()> {
    show(rt, "Range::copy", Outcome::from(range.copy(alloc)), range)?;
    show(
        rt,
        "Range::min_version",
        found(range.min_version(alloc)),
        range,
    )?;
    show(
        rt,
        "Range::min_version_with_prerelease",
        found(range.min_version_with_prerelease(alloc)),
        range,
    )
}

// `>=lower <upper`
fn interval(alloc: Global, lower: &str, upper: &str) -> Option<Interval<Version>> {
    let lower = Version::parse(alloc, lower).ok()?;
    let upper = Version::parse(alloc, upper).ok()?;
    Interval::new(Bound::Before(lower), Bound::Before(upper))
}

fn intervals(rt: &impl Print, alloc: Global, lower: &str, upper: &str) -> io::Result<()> {
    let Some(one) = interval(alloc, lower, upper) else {
        return no_values(rt, "intervals");
    };
    let Some(other) = interval(alloc, "1.2.0-x.1.y+z.2.w", "1.9.0-y.2.z+w.3.v") else {
        return no_values(rt, "intervals");
    };
    show_interval(rt, "Interval::copy", one.copy(alloc).map(Some), lower)?;
    match one.lower().copy(alloc) {
        Ok(bound) => show_bound(rt, "Bound::copy", &bound, lower)?,
        Err(_) => println!(rt; "Bound::copy: memory from {lower}")?,
    }
    show_interval(
        rt,
        "Interval::intersect",
        one.intersect(alloc, &other),
        lower,
    )?;
    show_interval(rt, "Interval::clip", one.clip(alloc, &other), lower)?;
    show_interval(
        rt,
        "Interval::left_below",
        one.left_below(alloc, &other),
        lower,
    )?;
    show_interval(
        rt,
        "Interval::left_above",
        one.left_above(alloc, &other),
        lower,
    )?;
    match one.subtract(alloc, &other) {
        Ok((below, above)) => {
            show_interval(rt, "Interval::subtract, below", Ok(below), lower)?;
            show_interval(rt, "Interval::subtract, above", Ok(above), lower)?;
        }
        Err(_) => println!(rt; "Interval::subtract: memory from {lower}")?,
    }
    show_interval(rt, "the first interval", Ok(Some(one)), lower)?;
    show_interval(rt, "the second interval", Ok(Some(other)), lower)
}

fn show_bound(
    rt: &impl Print,
    call: &str,
    bound: &Bound<Version>,
    borrowed: &str,
) -> io::Result<()> {
    match bound {
        Bound::Unbounded => println!(rt; "{call}: unbounded from {borrowed}"),
        Bound::Before(version) => println!(rt; "{call}: before {version} from {borrowed}"),
        Bound::After(version) => println!(rt; "{call}: after {version} from {borrowed}"),
    }
}

fn show_interval(
    rt: &impl Print,
    call: &str,
    found: Result<Option<Interval<Version>>, AllocError>,
    borrowed: &str,
) -> io::Result<()> {
    match found {
        Ok(Some(interval)) => {
            show_bound(rt, call, interval.lower(), borrowed)?;
            show_bound(rt, call, interval.upper(), borrowed)
        }
        Ok(None) => println!(rt; "{call}: nothing from {borrowed}"),
        Err(_) => println!(rt; "{call}: memory from {borrowed}"),
    }
}
