// One range for one set of versions: ranges that are made of spans of keys, and how they print.

use crate::tests::found_prints;
use key_spans::{KeySpan, key_spans, ranges, sets};
use nodejs_semver::{Range, Version};
use semver_core::cuts::{Bound, Interval};
use std::test::Fail;

// Whether the simplified range of a text prints as the other text.
fn is_simplified(rt: HostRuntime, text: &str, include: bool, simple: &str) -> Result<bool, Fail> {
    let range = Range::parse(rt.alloc(), text)?;
    let found = ranges::simplified(rt.alloc(), &range, include)?;
    Ok(found_prints(rt.alloc(), found, simple))
}

// The examples of the two functions.
#[test]
fn what_is_left_of_a_range(rt: HostRuntime) -> Result<(), Fail> {
    let alloc = rt.alloc();
    let ones = key_spans(alloc, &Range::parse(alloc, "1.x")?, false)?;
    let beta = key_spans(alloc, &Range::parse(alloc, "<1.5.0-beta")?, false)?;
    let left = sets::difference(alloc, &ones, &beta)?;
    let range = ranges::from_spans(alloc, &left)?;
    assert_eq!(rt; range, Some(Range::parse(alloc, ">=1.5.0 <2.0.0")?));
    Ok(())
}

#[test]
fn one_range_for_one_set(rt: HostRuntime) -> Result<(), Fail> {
    let alloc = rt.alloc();
    let range = Range::parse(alloc, ">=1.2.3-beta.2 <1.5.0 || ^1.4")?;
    let simple = ranges::simplified(alloc, &range, false)?;
    let text = ">=1.2.3 <2.0.0 || >=1.2.3-beta.2 <1.2.3";
    assert_eq!(rt; simple, Some(Range::parse(alloc, text)?));
    let nothing = ranges::simplified(alloc, &Range::parse(alloc, "<0.0.0-0")?, false)?;
    assert!(rt; nothing.is_none());
    Ok(())
}

// Whether a range accepts nothing.
fn is_nothing(rt: HostRuntime, text: &str, include: bool) -> Result<bool, Fail> {
    let range = Range::parse(rt.alloc(), text)?;
    Ok(ranges::simplified(rt.alloc(), &range, include)?.is_none())
}

#[test]
fn by_the_gate(rt: HostRuntime) -> Result<(), Fail> {
    assert!(rt; is_simplified(rt, "^1.2.3", false, ">=1.2.3 <2.0.0")?);
    assert!(rt; is_simplified(rt, "1.x || 2.x || >=1.5", false, ">=1.0.0")?);
    assert!(rt; is_simplified(rt, "<=1.2.3", false, ">=0.0.0 <1.2.4")?);
    assert!(rt; is_simplified(rt, ">1.2.3", false, ">=1.2.4")?);
    assert!(rt; is_simplified(rt, "1.2.3", false, ">=1.2.3 <1.2.4")?);
    assert!(rt; is_simplified(rt, "^3 || ^1", false, ">=1.0.0 <2.0.0||>=3.0.0 <4.0.0")?);
    Ok(())
}

#[test]
fn with_pre_releases_of_bounds(rt: HostRuntime) -> Result<(), Fail> {
    let both = ">=1.2.3 <2.0.0||>=1.2.3-beta.2 <1.2.3";
    assert!(rt; is_simplified(rt, ">=1.2.3-beta.2 <2.0.0", false, both)?);
    let own = ">=1.0.0 <1.2.3||>=1.2.3-0 <1.2.3-rc.1.0";
    assert!(rt; is_simplified(rt, ">=1.0.0 <=1.2.3-rc.1", false, own)?);
    Ok(())
}

#[test]
fn with_pre_releases_included(rt: HostRuntime) -> Result<(), Fail> {
    assert!(rt; is_simplified(rt, "^1.2.3", true, ">=1.2.3 <2.0.0-0")?);
    assert!(rt; is_simplified(rt, "<=1.2.3", true, ">=0.0.0-0 <1.2.4-0")?);
    assert!(rt; is_simplified(rt, "1.2.3-rc || >1.2.3-rc", true, ">=1.2.3-rc")?);
    Ok(())
}

// No text has a number above the limit, so these bounds stay behind the greatest one below it.
#[test]
fn at_the_limit(rt: HostRuntime) -> Result<(), Fail> {
    let above = ">1.2.9007199254740991";
    assert!(rt; is_simplified(rt, above, false, above)?);
    assert!(rt; is_simplified(rt, above, true, above)?);
    let upto = ">=1.2.3 <=1.2.9007199254740991";
    assert!(rt; is_simplified(rt, upto, false, upto)?);
    assert!(rt; is_simplified(rt, upto, true, upto)?);
    Ok(())
}

#[test]
fn nothing(rt: HostRuntime) -> Result<(), Fail> {
    assert!(rt; is_nothing(rt, "<0.0.0-0", false)?);
    assert!(rt; is_nothing(rt, "<0.0.0-0", true)?);
    assert!(rt; is_nothing(rt, ">1.2.3-alpha <1.2.3-alpha.0", false)?);
    Ok(())
}

// A span with this start and stop.
fn span(rt: HostRuntime, start: &[u8], stop: &[u8], releases_only: bool) -> Result<KeySpan, Fail> {
    Ok(KeySpan {
        start: start.to_vec(rt.alloc())?,
        stop: stop.to_vec(rt.alloc())?,
        releases_only,
    })
}

// Whether a list of one span is that of no range.
fn is_of_none(rt: HostRuntime, start: &[u8], stop: &[u8]) -> Result<bool, Fail> {
    let spans = [span(rt, start, stop, false)?];
    Ok(ranges::from_spans(rt.alloc(), &spans)?.is_none())
}

#[test]
fn no_range(rt: HostRuntime) -> Result<(), Fail> {
    assert!(rt; ranges::from_spans(rt.alloc(), &[])?.is_none());
    // Bytes that are no key, a stop at the start, and a number that no bound of a range has.
    assert!(rt; is_of_none(rt, &[1, 2, 3], &[255])?);
    assert!(rt; is_of_none(rt, &[1, 2, 3, 3], &[254])?);
    assert!(rt; is_of_none(rt, &[1, 2, 3, 3], &[1, 2, 3, 3])?);
    assert!(rt; is_of_none(rt, &[253, 1, 0, 0, 0, 0, 0, 0, 0, 0, 0, 3], &[255])?);
    Ok(())
}

// A range that no text spells: its bound is after the greatest number of a bound.
fn past_the_greatest(rt: HostRuntime) -> Result<Option<Range>, Fail> {
    let greatest = Version::from((1u64, 2, 9007199254740992));
    let mut intervals = Vec::new(rt.alloc());
    if let Some(interval) = Interval::new(Bound::After(greatest), Bound::Unbounded) {
        intervals.push(interval)?;
    }
    match Range::from_intervals(intervals) {
        Ok(range) => Ok(ranges::simplified(rt.alloc(), &range, true)?),
        Err(_) => Ok(None),
    }
}

#[test]
fn past_the_greatest_bound(rt: HostRuntime) -> Result<(), Fail> {
    let found = past_the_greatest(rt)?;
    assert!(rt; found_prints(rt.alloc(), found, ">1.2.9007199254740992"));
    Ok(())
}

// Whether the range of the spans of a text has these spans again.
fn is_of_its_spans(rt: HostRuntime, text: &str, include: bool) -> Result<bool, Fail> {
    let range = Range::parse(rt.alloc(), text)?;
    let spans = key_spans(rt.alloc(), &range, include)?;
    match ranges::from_spans(rt.alloc(), &spans)? {
        Some(again) => Ok(key_spans(rt.alloc(), &again, include)?.as_slice() == spans.as_slice()),
        None => Ok(false),
    }
}

#[test]
fn spans_and_back(rt: HostRuntime) -> Result<(), Fail> {
    assert!(rt; is_of_its_spans(rt, ">=1.2.3-beta.2 <2.0.0 || ~3.1", false)?);
    assert!(rt; is_of_its_spans(rt, ">=1.2.3-beta.2 <2.0.0 || ~3.1", true)?);
    assert!(rt; is_of_its_spans(rt, "^9007199254740991 || ~1.9007199254740991", false)?);
    Ok(())
}
