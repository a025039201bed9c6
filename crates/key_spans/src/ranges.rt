//! Ranges of lists of spans, and one range for one set of versions.
//!
//! ```rust
//! use key_spans::ranges;
//! use nodejs_semver::Range;
//! use std::test::Fail;
//!
//! fn one_range_for_one_set(rt: HostRuntime) -> Result<(), Fail> {
//!     let alloc = rt.alloc();
//!     let carets = Range::parse(alloc, "^1.2.3 || 1.4.x || <2.0.0 >=1.5.0")?;
//!     let simple = ranges::simplified(alloc, &carets, false)?;
//!     assert_eq!(rt; simple, Some(Range::parse(alloc, ">=1.2.3 <2.0.0")?));
//!     Ok(())
//! }
//! ```

ghost use Rattle.std.specs.List.{AllZip};
ghost use Rattle.std.specs.Prelude.{◌≡◌, ◌↔◌, [], Bool, false, IfNone, IfOk, IfSome, IsTrue, List};
ghost use Rattle.std.specs.Prelude.{Some, true};
ghost use Rattle.key_spans.specs.Internal.Places.{end_key};
ghost use Rattle.key_spans.specs.Ranges.{bound_at, have_one_triple, interval_of, is_next};
ghost use Rattle.key_spans.specs.Ranges.{IsIntervalOf, IsRangeOf, IsSimple};
ghost use Rattle.key_spans.specs.Spans.{HasEnds, is_some_span, IsCanonical};
ghost use Rattle.nodejs_semver.specs.Ranges.Gate.{accepts};
ghost use Rattle.nodejs_semver.specs.Ranges.View.{IsRange};
ghost use Rattle.semver_core.specs.Cuts.{Span, interval};
ghost use Rattle.semver_core.specs.Values.Order.{precedence};
ghost use Rattle.semver_core.specs.Values.Versions.{IsVersion, VersionValue};

use crate::marks::{END, lowest};
use crate::{KeySpan, key_spans};
use nodejs_semver::{MAX_SAFE_INTEGER, Range, RangeOf, Version, VersionPoint, Versioned};
use semver_core::cuts::{Bound, Interval};
use std::alloc::{AllocError, Global};

/// The range that accepts the versions of the spans: those whose keys lie in one of them. The list
/// is such as `key_spans` returns, and pre-releases are included where they were included there.
/// There is one interval for each span, in the same order.
///
/// Returns `None` exactly where there is no span, or where no range accepts just these versions: a
/// bound of a range has no number above `MAX_SAFE_INTEGER` + 1, and no identifier that its own text
/// does not spell. Of a list that `key_spans` does not return nothing is said but that a range, if
/// there is one, has the intervals that the spans name.
///
/// An interval is `>=` the version of the start and `<` that of the stop. A patch number above
/// `MAX_SAFE_INTEGER`, which no text has, is left out where the release before it serves: the range
/// prints `>1.2.9007199254740991`, which is read again, and not `>=1.2.9007199254740992`.
///
/// Fails only if allocation fails.
///
/// ```rust
/// let ones = key_spans(alloc, &Range::parse(alloc, "1.x")?, false)?;
/// let beta = key_spans(alloc, &Range::parse(alloc, "<1.5.0-beta")?, false)?;
/// let left = sets::difference(alloc, &ones, &beta)?;
/// let range = ranges::from_spans(alloc, &left)?;
/// assert_eq!(rt; range, Some(Range::parse(alloc, ">=1.5.0 <2.0.0")?));
/// ```
pub fn from_spans(alloc: Global, spans: &[KeySpan]) -> Result<Option<Range>, AllocError>
    // It accepts the versions of the spans.
    ensures exact { IfOk result (λ found. IfSome found (λ r. (include : Bool)
        → IsCanonical include spans.now → IsRangeOf include spans.now r)) }
    // There is a range, if a range accepts these versions and there are some.
    ensures none { IfOk result (λ found. IfNone found ((include : Bool)
        → IsCanonical include spans.now → (r : List (Span VersionValue))
        → IsRange MAX_SAFE_INTEGER r → IsRangeOf include spans.now r → spans.now ≡ [])) }
    ensures empty { IfOk result (λ found. spans.now ≡ [] → found ≡ None) }
    ensures intervals { IfOk result (λ found. IfSome found (AllZip IsIntervalOf spans.now)) }
{
    let mut intervals = Vec::new(alloc);
    for span in spans {
        match interval_of(alloc, span)? {
            Some(interval) => intervals.push(interval)?,
            None => return Ok(None),
        }
    }
    Ok(Range::from_intervals(intervals).ok())
}

// The interval of a span; `None` only for a span of no list such as `key_spans` returns.
fn interval_of(alloc: Global, span: &KeySpan) -> Result<Option<Interval<Version>>, AllocError>
    ensures some { IfOk result (λ found. IfSome found (IsIntervalOf span.now)) }
    ensures none { IfOk result (λ found. IfNone found ((include : Bool)
        → HasEnds include span.now → is_some_span span.now ≡ false)) }
{
    let only = span.releases_only;
    let Some(first) = Version::from_key(alloc, &span.start)? else {
        return Ok(None);
    };
    if is_end(&span.stop) {
        let lower = bound_at(first, only, true);
        return Ok(Interval::new(lower, Bound::Unbounded));
    }
    match Version::from_key(alloc, &span.stop)? {
        Some(last) => Ok(between(first, last, only)),
        None => Ok(None),
    }
}

// The interval from the first version up to the last one.
fn between(first: Version, last: Version, releases_only: bool) -> Option<Interval<Version>>
    ensures value { result ≡ interval precedence (interval_of releases_only first (Some last)) }
    ensures first { IsVersion first }
    ensures last { IsVersion last }
{
    let is_apart = !have_one_triple(&first, &last);
    let lower = bound_at(first, releases_only, is_apart);
    let upper = bound_at(last, releases_only, is_apart);
    Interval::new(lower, upper)
}

// Whether the bytes are those above all keys.
fn is_end(bytes: &[u8]) -> bool
    ensures { IsTrue result ↔ (bytes.now ≡ end_key) }
{
    bytes == END.as_slice()
}

// Whether two versions have the same three numbers.
fn have_one_triple(v: &Version, w: &Version) -> bool
    ensures { result ≡ have_one_triple v.now w.now }
{
    v.major() == w.major() && v.minor() == w.minor() && v.patch() == w.patch()
}

// The bound at a version where a span begins or stops.
fn bound_at(version: Version, releases_only: bool, is_apart: bool) -> Bound<Version>
    ensures value { result ≡ bound_at (is_next releases_only is_apart version) version }
    ensures valid { IsVersion version }
{
    let (major, minor, patch) = (version.major(), version.minor(), version.patch());
    if is_next(&version, releases_only, is_apart) && patch > MAX_SAFE_INTEGER {
        return Bound::After(Version::from((major, minor, patch - 1)));
    }
    Bound::Before(version)
}

// Whether no version of the span lies between a version and the release before it.
fn is_next(version: &Version, releases_only: bool, is_apart: bool) -> bool
    ensures { result ≡ is_next releases_only is_apart version.now }
{
    let lowest = lowest(version.major(), version.minor(), version.patch());
    releases_only || is_apart && version.cmp_precedence(&lowest).is_eq()
}

/// The range of the spans of a range: it accepts the same versions, with pre-releases included or
/// without. Returns `None` exactly where the range accepts no version.
///
/// Ranges that accept the same versions have one simplified range
/// (`laws::one_range_for_one_set`), so its text names the set.
///
/// Fails only if allocation fails.
///
/// ```rust
/// let range = Range::parse(alloc, ">=1.2.3-beta.2 <1.5.0 || ^1.4")?;
/// let simple = ranges::simplified(alloc, &range, false)?;
/// let text = ">=1.2.3 <2.0.0 || >=1.2.3-beta.2 <1.2.3";
/// assert_eq!(rt; simple, Some(Range::parse(alloc, text)?));
/// let nothing = ranges::simplified(alloc, &Range::parse(alloc, "<0.0.0-0")?, false)?;
/// assert!(rt; nothing.is_none());
/// ```
pub fn simplified<V: VersionPoint>(
    alloc: Global,
    range: &RangeOf<V>,
    include_prerelease: bool,
) -> Result<Option<Range>, AllocError>
    // It accepts the same versions.
    ensures exact { IfOk result (λ found. IfSome found (λ r. (v : VersionValue) → IsVersion v
        → accepts r v include_prerelease ≡ accepts range.now v include_prerelease)) }
    ensures simple { IfOk result (λ found. IfSome found (IsSimple include_prerelease)) }
    // There is one exactly where the range accepts a version.
    ensures some { IfOk result (λ found. IfSome found (λ r.
        (v : VersionValue) × IsVersion v × (accepts range.now v include_prerelease ≡ true))) }
    ensures none { IfOk result (λ found. IfNone found ((v : VersionValue) → IsVersion v
        → accepts range.now v include_prerelease ≡ false)) }
{
    // Proof helper: what the bounds of a range are. The call has no effect at run time.
    let _intervals = range.items();
    let spans = key_spans(alloc, range, include_prerelease)?;
    from_spans(alloc, &spans)
}
