// Spans of the keys of what a range accepts that the caller keeps.

ghost use Rattle.nodejs_semver_c.specs.Internal.Pieces.{Adds};
ghost use Rattle.nodejs_semver_c.specs.KeptRanges.{OnKeptRange, RangeKept};
ghost use Rattle.nodejs_semver_c.specs.KeptSpans.{PutsSpans, TellsSpans, span_bytes, span_parts};
ghost use Rattle.std.specs.Prelude.{◌≡◌, ◌-◌, ◌≤◌, ◌^◌, ◌++◌, drop, length, map, min};

use crate::intervals::{Interval, kept_range};
use crate::kept_keys::put_key;
use crate::read::MOST_BYTES;
use crate::{NO_MEMORY, OK, TOO_LONG, TOO_SMALL};
use key_spans::{KeySpan, key_spans};
use nodejs_semver::RangeRef;
use std::alloc::Global;

/// What is told of a span of keys.
#[repr(C)]
#[derive(Clone, Copy)]
pub struct SpanParts {
    /// The length of the first bytes that the span holds.
    pub start_len: usize,
    /// The length of the first bytes above the span.
    pub stop_len: usize,
    /// Whether only the keys of releases count, whose last byte is 3.
    pub releases_only: bool,
}

/// The spans of the keys of what a range accepts: `spans` gets their parts, and `out` the bytes of
/// their ends, of each span the start and then the stop. A range accepts a version exactly where
/// the key of the version is in a span: not below its start and below its stop, byte by byte.
/// `count` gets the number of the spans, at most three for each interval, and `len` the length of
/// the bytes. If the array or the buffer is too small, these two alone are written.
///
/// Returns `OK`, `TOO_SMALL`, `BAD_VERSION`, `BAD_RANGE`, `NO_MEMORY` or `TOO_LONG`.
#[unsafe(no_mangle)]
pub extern "C" fn nodejs_semver_key_spans(
    alloc: Global,
    range: &[Interval<'_>],
    include_prerelease: bool,
    spans: &mut [SpanParts],
    count: &mut usize,
    out: &mut [u8],
    len: &mut usize,
) -> u32
    ensures { let same = RangeKept spans.old spans.new count.old count.new
        out.old out.new len.old len.new in
        OnKeptRange range.now result same (λ r. TellsSpans r include_prerelease
        spans.old spans.new count.old count.new out.old out.new len.old len.new result) }
{
    match kept_range(alloc, range) {
        Ok(range) => tell_spans(alloc, &range, include_prerelease, spans, count, out, len),
        Err(status) => status,
    }
}

fn tell_spans(
    alloc: Global,
    range: &RangeRef<'_>,
    include_prerelease: bool,
    told: &mut [SpanParts],
    count: &mut usize,
    out: &mut [u8],
    len: &mut usize,
) -> u32
    ensures { TellsSpans range.now include_prerelease told.old told.new count.old count.new
        out.old out.new len.old len.new result }
{
    match key_spans(alloc, range, include_prerelease) {
        Ok(found) => put_spans(found.as_slice(), told, count, out, len),
        Err(_) => NO_MEMORY,
    }
}

fn put_spans(
    spans: &[KeySpan],
    told: &mut [SpanParts],
    count: &mut usize,
    out: &mut [u8],
    len: &mut usize,
) -> u32
    ensures { PutsSpans spans.now told.old told.new count.old count.new
        out.old out.new len.old len.new result }
{
    let needed = counted_ends(spans);
    if needed > MOST_BYTES {
        return TOO_LONG;
    }
    *count = spans.len();
    *len = needed;
    if told.len() < spans.len() || out.len() < needed {
        return TOO_SMALL;
    }
    tell_parts(spans, told);
    let mut end = 0;
    put_ends(spans, out, &mut end);
    OK
}

fn counted_ends(spans: &[KeySpan]) -> usize
    ensures { result ≡ min (length (span_bytes spans.now)) (2 ^ 64 - 1) }
{
    let mut len = 0;
    put_ends(spans, &mut [], &mut len);
    len
}

fn put_ends(spans: &[KeySpan], out: &mut [u8], len: &mut usize)
    ensures { Adds (span_bytes spans.now) out.old out.new len.old len.new }
{
    for span in spans {
        put_key(&span.start, out, len);
        put_key(&span.stop, out, len);
    }
}

fn tell_parts(spans: &[KeySpan], told: &mut [SpanParts])
    requires { length spans.now ≤ length told.old }
    ensures { told.new ≡ map span_parts spans.now ++ drop (length spans.now) told.old }
{
    'spans: for at in 0..spans.len() {
        told[at] = told_span(&spans[at]);
    }
}

fn told_span(span: &KeySpan) -> SpanParts
    ensures { result ≡ span_parts span.now }
{
    SpanParts {
        start_len: span.start.len(),
        stop_len: span.stop.len(),
        releases_only: span.releases_only,
    }
}
