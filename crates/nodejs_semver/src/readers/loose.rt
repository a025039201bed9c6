// The reader of range texts, word by word.

ghost use Rattle.std.specs.Prelude.{◌++◌, ◌<◌, ◌↔◌, ◌∷◌, ◌≡◌};
ghost use Rattle.nodejs_semver.specs.Words.{[], denotes, false, flat_map, has_bars, IfNone, IfOk};
ghost use Rattle.nodejs_semver.specs.Words.{IfSome, is_empty, IsBlankText, IsFalse, IsTrue};
ghost use Rattle.nodejs_semver.specs.Words.{later_parts, length, List, list_all, Means, OnErr};
ghost use Rattle.nodejs_semver.specs.Words.{OnOk, part_denotes, rest_view, space_len};
ghost use Rattle.nodejs_semver.specs.Words.{Span, TakesMemory, VersionValue};

use crate::range::owned::owned_range;
use crate::readers::intervals;
use crate::{Allocated, Range, RangeRef};
use semver_core::cuts::Interval;
use semver_core::scan::trim;
use semver_core::{MAX_SAFE_INTEGER, VersionRef};
use semver_pieces::{Found, Intervals, next_part};
use smallvec::SmallVec;
use std::alloc::{AllocError, Global};

/// Whether a range text is blank: each part between `||` is empty or whitespace alone, as in ` `,
/// `||` and ` || `. Such a text names the range without bounds, `Range::any`; `range_loose` reads
/// every other text.
#[tactic(auto, using(crate::proofs::Dividing::MeaningLaw::blank_text))]
pub fn is_blank(text: &str) -> bool
    ensures { IsTrue result ↔ IsBlankText text.now }
{
    are_blank(Some(text))
}

// Whether each part of a text that may be absent is blank.
fn are_blank(text: Option<&str>) -> bool
    ensures { result ≡ list_all is_empty (later_parts (rest_view text.entry)) }
{
    let mut rest = text;
    'parts: while let Some(text) = rest {
        let (part, after) = next_part(text);
        if !part.is_empty() {
            return false;
        }
        rest = after;
    }
    true
}

// Adds what a part means: one interval without bounds where it is empty, and else the intervals of
// its words.
#[inline(always)]
fn add_part<'a>(part: &'a str, found: &mut Intervals<VersionRef<'a>>) -> Allocated<()>
    requires { space_len part.now ≡ 0 }
    ensures added { OnOk result (
        found.new.items ≡ found.old.items ++ part_denotes MAX_SAFE_INTEGER part.now) }
    ensures memory { OnErr result
        (1 < length (found.old.items ++ part_denotes MAX_SAFE_INTEGER part.now)) }
{
    if part.is_empty() {
        return found.add(Interval::default());
    }
    intervals::read_part(part.as_bytes(), found)
}

// Adds to an empty list what a part means, and what each part of the text behind it means. One
// cursor goes through the text.
fn add_parts<'a>(
    first: &'a str,
    behind: Option<&'a str>,
    found: &mut Intervals<VersionRef<'a>>,
) -> Allocated<()>
    requires starts { space_len first.now ≡ 0 }
    requires empty { found.old.items ≡ [] }
    ensures added { OnOk result (found.new.items ≡ flat_map (part_denotes MAX_SAFE_INTEGER)
        (first.now ∷ later_parts (rest_view behind.entry))) }
    ensures memory { OnErr result (1 < length (flat_map (part_denotes MAX_SAFE_INTEGER)
        (first.now ∷ later_parts (rest_view behind.entry)))) }
{
    add_part(first, found)?;
    let mut rest = behind;
    'parts: while let Some(text) = rest {
        let (part, after) = next_part(text);
        add_part(part, found)?;
        rest = after;
    }
    Ok(())
}

// Adds to an empty list the intervals of a text that may have bars.
#[cold]
#[inline(never)]
fn add_all<'a>(text: &'a str, found: &mut Intervals<VersionRef<'a>>) -> Allocated<()>
    requires { found.old.items ≡ [] }
    ensures added { OnOk result (found.new.items ≡ denotes MAX_SAFE_INTEGER text.now) }
    ensures memory { OnErr result (1 < length (denotes MAX_SAFE_INTEGER text.now)) }
{
    let (part, rest) = next_part(text);
    if part.is_empty() && are_blank(rest) {
        return found.add(Interval::default());
    }
    add_parts(part, rest, found)
}

/// Reads the intervals of a range text of any length into a list, in place of what it holds. Only a
/// `barred` text is searched for bars: any other has none. Fails only if allocation fails, and then
/// the text has two intervals or more.
#[inline(always)]
pub(crate) fn read_any<'a>(
    text: &'a str,
    barred: bool,
    found: &mut Intervals<VersionRef<'a>>,
) -> Allocated<()>
    requires { IsFalse barred → has_bars text.now ≡ false }
    ensures read { OnOk result (found.new.items ≡ denotes MAX_SAFE_INTEGER text.now) }
    ensures memory { OnErr result (1 < length (denotes MAX_SAFE_INTEGER text.now)) }
{
    if !found.is_empty() {
        found.clear();
    }
    if barred {
        add_all(text, found)
    } else {
        add_part(trim(text), found)
    }
}

/// Reads a range text of any length. Returns `None` if no part has an interval; fails only if
/// allocation fails, which it does not in place of `None`, nor of one interval whose bounds have
/// neither a pre-release nor build metadata.
///
/// The text must not be blank: ask `is_blank` first. It is cut at `||`, and each part is read word
/// by word (node-semver's range grammar). An empty part is one interval without bounds. A malformed
/// word, and one without an interval in the word table, is ignored: `foo 1.2.3` is the range of
/// `1.2.3`, and `foo` has none.
pub fn range_loose(alloc: Global, text: &str) -> Result<Option<Range>, AllocError>
    requires some_part { IsBlankText text.now → ⊥ }
    ensures some { IfOk result (λ found. IfSome found (λ range.
        Means MAX_SAFE_INTEGER text.now range × (0 < length range))) }
    ensures none { IfOk result (λ found. IfNone found (Means MAX_SAFE_INTEGER text.now [])) }
    // Allocation fails only if the text means two intervals or more, or one with identifiers.
    ensures memory { OnErr result ((r : List (Span VersionValue)) →
        Means MAX_SAFE_INTEGER text.now r → TakesMemory r) }
{
    let mut found = SmallVec::new(alloc);
    let (part, rest) = next_part(text);
    add_parts(part, rest, &mut found)?;
    owned_range(alloc, RangeRef::of_intervals(found))
}
