// Ranges are read from their texts.

ghost use Rattle.std.specs.Prelude.{◌∷◌, ◌<◌, ◌==◌, ◌||◌, ◌↔◌, ◌≡◌, ◌≤◌, [], drop, take};
ghost use Rattle.std.specs.Prelude.{IfOk, IfSome, IsTrue};
ghost use Rattle.nodejs_semver.specs.Words.{accepts, AreCommonParts, denotes, ends_field};
ghost use Rattle.nodejs_semver.specs.Words.{false, has_bars, IsFalse, IsRange, length, List};
ghost use Rattle.nodejs_semver.specs.Words.{list_any, Means, MemoryOnlyIf, OnOk};
ghost use Rattle.nodejs_semver.specs.Words.{RefusedOnlyIf, Span, TakesMemory, true};
ghost use Rattle.nodejs_semver.specs.Words.{VersionValue, Writes};
ghost use Rattle.smallvec.specs.SmallVec.{HasRoomFor};

use crate::range::owned::owned_intervals;
use crate::readers::{Alone, InLines, Place, read_any, read_common, read_front, signed_front};
use crate::{Range, RangeOf, RangeRef};
use memchr::{memchr2, memchr3};
use semver_core::cuts::Interval;
use semver_core::{Failure, MAX_SAFE_INTEGER, SemverError, Version, VersionRef};
use semver_pieces::{Found, Intervals};
use smallvec::SmallVec;
use std::alloc::Global;

impl Range {
    /// Reads a range text of any length: parts separated by `||`, each of which is words such as
    /// `^1.2`, `>=1.0.0 <2.0.0`, `~1.2.3` or `1.0.0 - 2.0.0` (node-semver's range grammar).
    ///
    /// An empty text is [`Range::any`], and so is a text whose parts are all empty. An empty part
    /// beside other parts is one interval without bounds in its place: `1.2.3||` reads as
    /// `1.2.3||*`. A malformed word is ignored, so `foo 1.2.3` reads as `1.2.3`; a text with no
    /// empty part and no word that has bounds, such as `foo`, is rejected with `SemverError`. A
    /// number above `MAX_SAFE_INTEGER` makes its word malformed, so that `>=9007199254740991.0.0
    /// <9007199254740992.0.0-0`, which `^9007199254740991` prints, reads as
    /// `>=9007199254740991.0.0`.
    ///
    /// The one other error is an allocation failure. It is never returned for a text that is to be
    /// rejected, nor for one that means one interval whose bounds have no build metadata and no
    /// pre-release other than `0` alone, as `^1.2`, `~1.2.3`, `1.x` and `>=1.2.3 <2.0.0`.
    ///
    /// ```rust
    /// let range = Range::parse(alloc, "^1.2 || 3.0.0-rc.1")?;
    /// assert!(rt; range == Range::parse(alloc, ">=1.2.0 <2.0.0-0 || =v3.0.0-rc.1")?);
    /// assert!(rt; Range::parse(alloc, "latest").is_err());
    /// ```
    #[inline(always)]
    #[tactic(auto, using(crate::proofs::Values::spans_same))]
    pub fn parse(alloc: Global, text: &str) -> Result<Range, Failure<SemverError>>
        // The intervals are those that the text means, in order and with their builds.
        ensures ok { IfOk result (Means MAX_SAFE_INTEGER text.now) }
        ensures some { IfOk result (λ range. 0 < length range) }
        // The text is rejected only if it means none. The one other error is a failed allocation.
        ensures refused { RefusedOnlyIf result (Means MAX_SAFE_INTEGER text.now []) }
        // Allocation fails only if the text means two intervals or more, or one whose bounds take
        // memory.
        ensures memory { MemoryOnlyIf result ((r : List (Span VersionValue)) →
            Means MAX_SAFE_INTEGER text.now r → TakesMemory r) }
        // With pre-releases included, the range accepts exactly the versions that the text writes.
        ensures set { IfOk result (λ range. (v : VersionValue) →
            IsTrue (accepts range v true) ↔ Writes MAX_SAFE_INTEGER text.now v) }
    {
        let mut intervals = SmallVec::new(alloc);
        read(text, &mut intervals)?;
        Ok(RangeOf { intervals })
    }
}

// Reads the intervals of a text, one or more, into an empty list. Most texts are common ones. Where
// the reader of these fails to allocate, the text may have no interval, as `1.2.3-a_`, or only one,
// as `1.2.3||1.2.4_`. So the reader of all texts decides there too.
#[inline(never)]
fn read(text: &str, found: &mut Intervals<Version>) -> Result<(), Failure<SemverError>>
    requires empty { found.old.items ≡ [] }
    requires room { HasRoomFor found.old 1 }
    ensures read { OnOk result (found.new.items ≡ denotes MAX_SAFE_INTEGER text.now) }
    ensures some { OnOk result (0 < length found.new.items) }
    ensures refused { RefusedOnlyIf result (Means MAX_SAFE_INTEGER text.now []) }
    ensures memory { MemoryOnlyIf result ((r : List (Span VersionValue)) →
        Means MAX_SAFE_INTEGER text.now r → TakesMemory r) }
{
    match read_common::<Alone, _>(text.as_bytes(), found) {
        Ok(true) => Ok(()),
        Ok(false) | Err(_) => read_copies(text, found),
    }
}

// Reads the intervals of a text of any form in place of what the list holds: copies of those that
// borrow the text.
#[cold]
#[inline(never)]
fn read_copies(text: &str, found: &mut Intervals<Version>) -> Result<(), Failure<SemverError>>
    ensures read { OnOk result (found.new.items ≡ denotes MAX_SAFE_INTEGER text.now) }
    ensures some { OnOk result (0 < length found.new.items) }
    ensures refused { RefusedOnlyIf result (Means MAX_SAFE_INTEGER text.now []) }
    ensures memory { MemoryOnlyIf result ((r : List (Span VersionValue)) →
        Means MAX_SAFE_INTEGER text.now r → TakesMemory r) }
{
    let alloc = *found.allocator();
    let mut borrowed = SmallVec::new(alloc);
    read_loose(text, true, &mut borrowed)?;
    *found = owned_intervals(alloc, &borrowed)?;
    Ok(())
}

impl<'a> RangeRef<'a> {
    /// Reads a range text of any length, as `Range::parse` does. The range borrows the text. One
    /// interval stands inline, so that allocation fails only if the text means two or more.
    #[tactic(auto, using(crate::proofs::Values::spans_same))]
    pub fn parse(alloc: Global, text: &'a str) -> Result<RangeRef<'a>, Failure<SemverError>>
        // The intervals are those that the text means, in order and with their builds.
        ensures ok { IfOk result (Means MAX_SAFE_INTEGER text.now) }
        ensures some { IfOk result (λ range. 0 < length range) }
        // The text is rejected only if it means none. The one other error is a failed allocation.
        ensures refused { RefusedOnlyIf result (Means MAX_SAFE_INTEGER text.now []) }
        // Allocation fails only if the text means two intervals or more.
        ensures memory { MemoryOnlyIf result ((r : List (Span VersionValue)) →
            Means MAX_SAFE_INTEGER text.now r → 1 < length r) }
        // With pre-releases included, the range accepts exactly the versions that the text writes.
        ensures set { IfOk result (λ range. (v : VersionValue) →
            IsTrue (accepts range v true) ↔ Writes MAX_SAFE_INTEGER text.now v) }
    {
        let mut intervals = SmallVec::new(alloc);
        let end = read_parts::<Alone>(text.as_bytes(), &mut intervals);
        if end != Some(text.len()) {
            read_loose(text, true, &mut intervals)?;
        }
        Ok(RangeOf { intervals })
    }
}

/// Reads the range of the first field of a text where it is one word, `^` or `~` with a partial
/// such as `1.2.3` behind it, and another field follows. Returns its interval, which is kept
/// nowhere, and the place where the field ends: of `^1.2.3;1.3.0` they are that of `>=1.2.3
/// <2.0.0-0` and 6. `None` is returned for others, of which most are ranges too (see
/// `RangeReader`).
#[inline(always)]
pub fn word_field(text: &str) -> Option<(Interval<VersionRef<'_>>, usize)>
    // The field ends at the place, which is not the end of the text.
    ensures place { IfSome result (λ found. found.1 < length text.now) }
    ensures plain { IfSome result (λ found.
        list_any (λ b. b == 59 || b == 10) (take found.1 text.now) ≡ false) }
    ensures ends { IfSome result (λ found. ends_field (drop found.1 text.now) ≡ true) }
    // The interval is the only one that the field means.
    ensures means { IfSome result (λ found.
        Means MAX_SAFE_INTEGER (take found.1 text.now) (found.0 ∷ [])) }
{
    let (interval, rest) = signed_front(text.as_bytes())?;
    Some((interval, text.len() - rest.len()))
}

/// Memory that the ranges of fields are read into, one after another: it is kept from one range to
/// the next, so that reading them seldom allocates.
#[derive(Drop)]
pub struct RangeReader<'a> {
    range: RangeRef<'a>,
}

impl<'a> RangeReader<'a> {
    /// A reader that has read nothing. Nothing is allocated.
    pub fn new(alloc: Global) -> RangeReader<'a> {
        let mut intervals = SmallVec::new(alloc);
        intervals.push_reserved(Interval::default());
        let range = RangeOf { intervals };
        RangeReader { range }
    }

    /// Reads the range of the first field of a text, which ends before the first `;` or line feed
    /// or with the text. Returns the range, as `RangeRef::parse` reads it of the field, and the
    /// place where the field ends: of `^1.2.3;1.3.0` it is 6. The range stays until the next call.
    ///
    /// A common range text (see `range_fast`) is read once. One interval stands inline, so that
    /// allocation fails only if the field means two or more.
    #[inline(always)]
    pub fn read_field(
        &mut self,
        text: &'a str,
    ) -> (Result<&RangeRef<'a>, Failure<SemverError>>, usize)
        // The field ends at the place.
        ensures place { result.1 ≤ length text.now }
        ensures plain { list_any (λ b. b == 59 || b == 10) (take result.1 text.now) ≡ false }
        ensures ends { ends_field (drop result.1 text.now) ≡ true }
        // The intervals are those that the field means, in order and with their builds.
        ensures ok { IfOk result.0 (λ range.
            Means MAX_SAFE_INTEGER (take result.1 text.now) range.now) }
        ensures some { IfOk result.0 (λ range. 0 < length range.now) }
        // The field is rejected only if it means none. The one other error is a failed allocation.
        ensures refused { RefusedOnlyIf result.0
            (Means MAX_SAFE_INTEGER (take result.1 text.now) []) }
        // Allocation fails only if the field means two intervals or more.
        ensures memory { MemoryOnlyIf result.0 ((r : List (Span VersionValue)) →
            Means MAX_SAFE_INTEGER (take result.1 text.now) r → 1 < length r) }
    {
        let bytes = text.as_bytes();
        if let Some(end) = read_parts::<InLines>(bytes, &mut self.range.intervals) {
            if matches!(&bytes[end..], [] | [b';' | b'\n', ..]) {
                return (Ok(&self.range), end);
            }
        }
        let (read, end) = read_whole_field(text, &mut self.range.intervals);
        let range = &self.range;
        match read {
            Ok(()) => (Ok(range), end),
            Err(error) => (Err(error), end),
        }
    }
}

// Reads the common parts at the front in place of what the list holds, and returns where they end;
// `None` too where an allocation fails.
#[inline(never)]
fn read_parts<'a, P: Place>(text: &'a [u8], found: &mut Intervals<VersionRef<'a>>) -> Option<usize>
    ensures place { IfSome result (λ end. end ≤ length text.now) }
    ensures some { IfSome result (λ end.
        AreCommonParts MAX_SAFE_INTEGER (take end text.now) found.new.items) }
{
    found.truncate(1);
    let _ = found.pop();
    // One interval stands inline, so that this takes no memory.
    found.reserve_for(b"").ok()?;
    match read_front::<P, _>(text, found) {
        Ok(Some(rest)) => Some(text.len() - rest.len()),
        Ok(None) | Err(_) => None,
    }
}

// Where a field ends, and whether bars may stand in it. One search finds both for most fields.
#[inline(always)]
fn field_end(text: &[u8]) -> (usize, bool)
    ensures place { result.0 ≤ length text.now }
    ensures plain { list_any (λ b. b == 59 || b == 10) (take result.0 text.now) ≡ false }
    ensures ends { ends_field (drop result.0 text.now) ≡ true }
    ensures bars { IsFalse result.1 → has_bars (take result.0 text.now) ≡ false }
{
    let at = memchr3(b'|', b';', b'\n', text).unwrap_or(text.len());
    if !matches!(&text[at..], [b'|', ..]) {
        return (at, false);
    }
    (memchr2(b';', b'\n', text).unwrap_or(text.len()), true)
}

// `RangeReader::read_field` in place of what the list holds, where the end of the field is looked
// for first. Where there is an error, the list has one interval without bounds.
#[cold]
#[inline(never)]
fn read_whole_field<'a>(
    text: &'a str,
    found: &mut Intervals<VersionRef<'a>>,
) -> (Result<(), Failure<SemverError>>, usize)
    ensures place { result.1 ≤ length text.now }
    ensures plain { list_any (λ b. b == 59 || b == 10) (take result.1 text.now) ≡ false }
    ensures ends { ends_field (drop result.1 text.now) ≡ true }
    ensures ok { OnOk result.0 (Means MAX_SAFE_INTEGER (take result.1 text.now) found.new.items) }
    ensures range { IsRange MAX_SAFE_INTEGER found.new.items }
    ensures refused { RefusedOnlyIf result.0
        (Means MAX_SAFE_INTEGER (take result.1 text.now) []) }
    ensures memory { MemoryOnlyIf result.0 ((r : List (Span VersionValue)) →
        Means MAX_SAFE_INTEGER (take result.1 text.now) r → 1 < length r) }
{
    let (end, barred) = field_end(text.as_bytes());
    let read = read_loose(&text[..end], barred, found);
    if read.is_err() {
        let alloc = *found.allocator();
        *found = SmallVec::new(alloc);
        found.push_reserved(Interval::default());
    }
    (read, end)
}

// Reads the intervals of a text of any form, one or more, in place of what the list holds. It has
// bars only where it is `barred`.
#[inline(always)]
fn read_loose<'a>(
    text: &'a str,
    barred: bool,
    found: &mut Intervals<VersionRef<'a>>,
) -> Result<(), Failure<SemverError>>
    requires { IsFalse barred → has_bars text.now ≡ false }
    ensures ok { OnOk result (Means MAX_SAFE_INTEGER text.now found.new.items) }
    ensures range { OnOk result (IsRange MAX_SAFE_INTEGER found.new.items) }
    ensures refused { RefusedOnlyIf result (Means MAX_SAFE_INTEGER text.now []) }
    ensures memory { MemoryOnlyIf result ((r : List (Span VersionValue)) →
        Means MAX_SAFE_INTEGER text.now r → 1 < length r) }
{
    read_any(text, barred, found)?;
    if found.is_empty() {
        return Err(Failure::Refused(SemverError));
    }
    Ok(())
}
