//! Spans of keys: what a range accepts, as bytes that a database compares.
//!
//! ```rust
//! use key_spans::key_spans;
//! use nodejs_semver::Range;
//! use std::test::Fail;
//!
//! fn the_span_of_a_range(rt: HostRuntime) -> Result<(), Fail> {
//!     let alloc = rt.alloc();
//!     let range = Range::parse(alloc, "^1.2.3")?;
//!     let spans = key_spans(alloc, &range, false)?;
//!     assert_eq!(rt; spans.len(), 1);
//!     assert!(rt; spans[0].start.as_slice() == [1, 2, 3, 3].as_slice());
//!     assert!(rt; spans[0].stop.as_slice() == [2, 0, 0, 3].as_slice());
//!     assert!(rt; spans[0].releases_only);
//!     Ok(())
//! }
//! ```
#![tactic(auto)]

mod build;
mod canon;
pub mod laws;
mod marks;
pub mod ranges;
pub mod sets;

ghost use Rattle.std.specs.Prelude.{◌≡◌, ◌≤◌, ◌*◌, ◌++◌, All, false, IfOk, length, OnOk, true};
ghost use Rattle.key_spans.specs.Internal.Pieces.{all_flagged, pieces};
ghost use Rattle.key_spans.specs.Spans.{HasEnds, in_spans, is_sorted};
ghost use Rattle.nodejs_semver.specs.Ranges.Gate.{accepts};
ghost use Rattle.semver_core.specs.Keys.{key};
ghost use Rattle.semver_core.specs.Values.Versions.{IsVersion, VersionValue};

use crate::build::{Kind, parts_of};
use crate::canon::Part;
use nodejs_semver::{RangeOf, VersionPoint};
use std::alloc::{AllocError, Global};

/// The keys from `start` on that are below `stop`, byte by byte. Where `releases_only` is set, only
/// the keys of releases count, which end in the byte 3.
///
/// ```rust
/// let spans = key_spans(alloc, &Range::parse(alloc, "*")?, false)?;
/// assert!(rt; spans[0].start.as_slice() == [0, 0, 0, 3].as_slice());
/// assert!(rt; spans[0].stop.as_slice() == [255].as_slice());
/// ```
#[derive(PartialEq, Eq, Hash, Debug, Drop)]
pub struct KeySpan {
    /// The first bytes that the span holds.
    pub start: Vec<u8>,
    /// The first bytes above the span.
    pub stop: Vec<u8>,
    /// Whether only releases count.
    pub releases_only: bool,
}

/// The spans of the keys of what a range accepts: `satisfies_with_prerelease` with the same flag
/// accepts a version exactly where the key of the version lies in one of the spans.
///
/// With the flag there is one list of spans of all versions. Without it spans of releases come
/// first, and then those of the pre-releases that the range accepts. Of one kind they are sorted
/// and lie apart, and each begins and stops at the key of a version, or stops above all keys. So
/// ranges that accept the same versions have equal spans (`laws::one_list_for_one_set`), which hash
/// alike: their hash names a set of versions, as the key of a cache. A range that accepts nothing
/// has none. There are at most three for each interval of the range.
///
/// Fails only if allocation fails.
///
/// ```rust
/// let range = Range::parse(alloc, "^1.2.3 || 1.4.x")?;
/// assert_eq!(rt; key_spans(alloc, &range, false)?.len(), 1);
///
/// let range = Range::parse(alloc, ">=1.2.3-beta.2 <2.0.0")?;
/// let spans = key_spans(alloc, &range, false)?;
/// assert!(rt; spans[0].releases_only && !spans[1].releases_only);
/// assert!(rt; spans[1].stop.as_slice() == [1, 2, 3, 3].as_slice());
/// ```
pub fn key_spans<V: VersionPoint>(
    alloc: Global,
    range: &RangeOf<V>,
    include_prerelease: bool,
) -> Result<Vec<KeySpan>, AllocError>
    ensures exact { IfOk result (λ spans. (v : VersionValue) → IsVersion v
        → in_spans spans.items (key v) ≡ accepts range.now v include_prerelease) }
    ensures sorted { IfOk result (λ spans. is_sorted spans.items ≡ true) }
    ensures ends { IfOk result (λ spans. All (HasEnds include_prerelease) spans.items) }
    ensures few { IfOk result (λ spans. length spans.items ≤ 3 * length range.now) }
{
    let intervals = range.items();
    if include_prerelease {
        let versions = parts_of(alloc, Kind::Versions, intervals)?;
        return spans_of(alloc, Vec::new(alloc), versions);
    }
    let releases = parts_of(alloc, Kind::Releases, intervals)?;
    let pre_releases = parts_of(alloc, Kind::PreReleases, intervals)?;
    spans_of(alloc, releases, pre_releases)
}

// The spans of parts of releases, and then those of other parts.
fn spans_of(
    alloc: Global,
    releases: Vec<Part>,
    others: Vec<Part>,
) -> Result<Vec<KeySpan>, AllocError>
    ensures { IfOk result (λ spans. pieces spans.items
        ≡ all_flagged true releases.items ++ all_flagged false others.items) }
{
    let mut spans = Vec::new(alloc);
    add_parts(releases, true, &mut spans)?;
    add_parts(others, false, &mut spans)?;
    Ok(spans)
}

// Adds parts as spans of one kind.
fn add_parts(
    parts: Vec<Part>,
    releases_only: bool,
    spans: &mut Vec<KeySpan>,
) -> Result<(), AllocError>
    ensures { OnOk result (pieces spans.new.items
        ≡ pieces spans.old.items ++ all_flagged releases_only parts.items) }
{
    for part in parts {
        spans.push(KeySpan {
            start: part.start,
            stop: part.stop,
            releases_only,
        })?;
    }
    Ok(())
}
