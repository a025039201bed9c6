// Unions, intersections and differences of spans of keys, beside the ranges that accept the same.

use key_spans::{KeySpan, key_spans, sets};
use nodejs_semver::Range;
use std::test::Fail;

// The spans of what the text of a range accepts.
fn spans_of(rt: HostRuntime, text: &str, include: bool) -> Result<Vec<KeySpan>, Fail> {
    let range = Range::parse(rt.alloc(), text)?;
    Ok(key_spans(rt.alloc(), &range, include)?)
}

#[test]
fn touching_spans_are_joined(rt: HostRuntime) -> Result<(), Fail> {
    let one = spans_of(rt, "1.x || 4.x", false)?;
    let other = spans_of(rt, "2.x", false)?;
    let all = spans_of(rt, ">=1.0.0 <3.0.0 || 4.x", false)?;
    assert!(rt; sets::union(rt.alloc(), &one, &other)?.as_slice() == all.as_slice());
    Ok(())
}

#[test]
fn what_both_accept(rt: HostRuntime) -> Result<(), Fail> {
    let one = spans_of(rt, "^1 || ^3", false)?;
    let other = spans_of(rt, "~1.2 || ^2", false)?;
    let both = spans_of(rt, "~1.2", false)?;
    assert!(rt; sets::intersection(rt.alloc(), &one, &other)?.as_slice() == both.as_slice());
    Ok(())
}

// `<2.0.0` accepts no pre-release of 1.2.3, which the range of both texts in one accepts.
#[test]
fn what_both_accept_of_pre_releases(rt: HostRuntime) -> Result<(), Fail> {
    let one = spans_of(rt, ">=1.2.3-a", false)?;
    let other = spans_of(rt, "<2.0.0", false)?;
    let both = spans_of(rt, ">=1.2.3 <2.0.0", false)?;
    assert!(rt; sets::intersection(rt.alloc(), &one, &other)?.as_slice() == both.as_slice());
    Ok(())
}

#[test]
fn what_is_left(rt: HostRuntime) -> Result<(), Fail> {
    let one = spans_of(rt, ">=1.2.3-a", false)?;
    let other = spans_of(rt, "^1.2.3-b", false)?;
    let left = spans_of(rt, ">=1.2.3-a <1.2.3-b || >=2.0.0", false)?;
    assert!(rt; sets::difference(rt.alloc(), &one, &other)?.as_slice() == left.as_slice());
    Ok(())
}

#[test]
fn what_is_left_with_pre_releases(rt: HostRuntime) -> Result<(), Fail> {
    let one = spans_of(rt, "*", true)?;
    let other = spans_of(rt, "<1.0.0", true)?;
    let left = spans_of(rt, ">=1.0.0", true)?;
    assert!(rt; sets::difference(rt.alloc(), &one, &other)?.as_slice() == left.as_slice());
    Ok(())
}

#[test]
fn nothing_is_left(rt: HostRuntime) -> Result<(), Fail> {
    let one = spans_of(rt, "^1.2.3", false)?;
    let other = spans_of(rt, "1.x || 2.x", false)?;
    assert!(rt; sets::difference(rt.alloc(), &one, &other)?.is_empty());
    Ok(())
}
