// The spans of keys of a range: the rows of the page on keys.

use key_spans::{KeySpan, key_spans};
use nodejs_semver::Range;
use std::hash::{DefaultHasher, Hash, Hasher};
use std::test::Fail;

// Whether there is a span, and it is this one.
fn is_span(span: Option<&KeySpan>, start: &[u8], stop: &[u8], releases_only: bool) -> bool {
    match span {
        Some(span) => span.start.as_slice() == start
            && span.stop.as_slice() == stop
            && span.releases_only == releases_only,
        None => false,
    }
}

#[test]
fn a_caret(rt: HostRuntime) -> Result<(), Fail> {
    let range = Range::parse(rt.alloc(), "^1.2.3")?;
    let spans = key_spans(rt.alloc(), &range, false)?;
    assert!(rt; spans.len() == 1);
    assert!(rt; is_span(spans.first(), &[1, 2, 3, 3], &[2, 0, 0, 3], true));
    Ok(())
}

#[test]
fn a_caret_with_pre_releases(rt: HostRuntime) -> Result<(), Fail> {
    let range = Range::parse(rt.alloc(), "^1.2.3")?;
    let spans = key_spans(rt.alloc(), &range, true)?;
    assert!(rt; spans.len() == 1);
    assert!(rt; is_span(spans.first(), &[1, 2, 3, 3], &[2, 0, 0, 1, 0, 0], false));
    Ok(())
}

#[test]
fn a_bound_that_is_a_pre_release(rt: HostRuntime) -> Result<(), Fail> {
    let range = Range::parse(rt.alloc(), ">=1.2.3-beta.2 <2.0.0")?;
    let spans = key_spans(rt.alloc(), &range, false)?;
    assert!(rt; spans.len() == 2);
    assert!(rt; is_span(spans.first(), &[1, 2, 3, 3], &[2, 0, 0, 3], true));
    Ok(())
}

#[test]
fn one_span_for_touching_alternatives(rt: HostRuntime) -> Result<(), Fail> {
    let range = Range::parse(rt.alloc(), "^1.2.3 || 1.4.x")?;
    let spans = key_spans(rt.alloc(), &range, false)?;
    assert!(rt; spans.len() == 1);
    Ok(())
}

fn hash_of(spans: &[KeySpan]) -> u64 {
    let mut state = DefaultHasher::new();
    spans.hash(&mut state);
    state.finish()
}

#[test]
fn one_hash_for_one_set_of_versions(rt: HostRuntime) -> Result<(), Fail> {
    let one = key_spans(rt.alloc(), &Range::parse(rt.alloc(), ">=1 <3")?, false)?;
    let same = key_spans(rt.alloc(), &Range::parse(rt.alloc(), "2 || 1")?, false)?;
    let other = key_spans(rt.alloc(), &Range::parse(rt.alloc(), "1")?, false)?;
    assert!(rt; one.as_slice() == same.as_slice());
    assert!(rt; hash_of(&one) == hash_of(&same));
    assert!(rt; hash_of(&one) != hash_of(&other));
    Ok(())
}
