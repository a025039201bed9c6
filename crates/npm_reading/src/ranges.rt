// The reader of range texts as node-semver has them, strictly or loosely.

ghost use Rattle.nodejs_semver.specs.Words.{IfOk, IsCutAtBars, IsRange, List, MAX_SAFE_INTEGER};
ghost use Rattle.nodejs_semver.specs.Words.{MemoryOnlyIf, NoValue, None, OnOk, RefusedOnlyIf, Some};
ghost use Rattle.nodejs_semver.specs.Words.{VersionValue, length, true, ℕ};
ghost use Rattle.npm_reading.specs.Internal.Reads.{AddsPart, IsFound, IsStep, first_valid};
ghost use Rattle.npm_reading.specs.{Internal.Reads.{valid_alternative, words_of}, Ranges.IsRangeIn};
ghost use Rattle.{npm_reading.specs.Readings.OfAccepted, npm_words.specs.Internal.Parts.are_normal};
ghost use Rattle.npm_words.specs.Internal.{Parts.npm_partial_view, Reads.valid_one, Views.end_view};
ghost use Rattle.npm_words.specs.Internal.Words.{hyphen_of, words_of_all};
ghost use Rattle.npm_words.specs.Words.{HasAlternativesIn};
ghost use Rattle.semver_core.specs.Internal.Reading.{◌>>?◌};
ghost use Rattle.std.specs.Prelude.{[], ◌<◌, ◌≡◌};
ghost use Rattle.std.specs.Str.{IsUtf8};
ghost use Rattle.nodejs_semver.specs.Ranges.Gate as Gate;

use crate::alternatives::{Alternative, set_ranged};
use crate::common::read_common;
use nodejs_semver::RangeRef;
use npm_words::Reading;
use npm_words::pieces::{End, Side, behind_ignored, hyphen_ends, is_short, word_front};
use semver_core::{Failure, SemverError, VersionRef};
use semver_pieces::{Found, Intervals, next_part, skip_spaces};
use smallvec::SmallVec;
use std::alloc::Global;

// What the alternative is with the word at the front, which is well-formed or ignored, and what
// follows it and its whitespace. Says also whether it was ignored.
#[tactic(auto, unfolding(npm_words::specs::Internal::Words::first_word))]
fn with_word<'a>(
    loose: bool,
    include: bool,
    all: Alternative<'a>,
    text: &'a [u8],
) -> Option<(Alternative<'a>, bool, &'a [u8])>
    ensures { IsStep include all.entry (first_valid loose include text.now) result }
{
    let Some((word, behind)) = word_front(loose, text) else {
        if loose {
            return Some((all, true, skip_spaces(behind_ignored(text))));
        }
        return None;
    };
    if !is_short(loose, word.text) {
        return None;
    }
    let all = all.meet(include, word.sign, &word.partial, word.text)?;
    Some((all, false, skip_spaces(behind)))
}

// The alternative of words, with whitespace between them.
fn words(loose: bool, include: bool, text: &[u8]) -> Option<Alternative<'_>>
    requires { IsUtf8 text.now }
    ensures { IsFound include (words_of loose include text.now >>? λ read.
        Some (words_of_all read)) result }
{
    let mut all = Alternative::all();
    let mut is_last_ignored = false;
    let mut rest = text;
    'words: while !rest.is_empty() {
        let (met, is_ignored, behind) = with_word(loose, include, all, rest)?;
        all = met;
        is_last_ignored = is_ignored;
        rest = behind;
    }
    Some(all.ended(is_last_ignored && word_front(loose, text).is_none()))
}

// The alternative between two ends of a hyphen range.
fn between<'a>(
    loose: bool,
    include: bool,
    lower: &End<'a>,
    upper: &End<'a>,
) -> Option<Alternative<'a>>
    requires lower { are_normal (npm_partial_view lower.now.partial) ≡ true }
    requires upper { are_normal (npm_partial_view upper.now.partial) ≡ true }
    ensures { IsFound include (hyphen_of loose include (end_view lower.now, end_view upper.now)
        >>? valid_one) result }
{
    if !lower.is_right(loose, Side::Lower) {
        return None;
    }
    if !upper.is_right(loose, Side::Upper { include }) {
        return None;
    }
    let from = Alternative::all().meet_read(lower.lower_bounds(include), false)?;
    from.meet_read(upper.upper_bounds(include), false)
}

/// The alternative that a text is, without whitespace around it.
pub(crate) fn alternative(loose: bool, include: bool, text: &[u8]) -> Option<Alternative<'_>>
    requires { IsUtf8 text.now }
    ensures { IsFound include (valid_alternative loose include text.now) result }
{
    match hyphen_ends(loose, text) {
        Some((lower, upper)) => between(loose, include, &lower, &upper),
        None => words(loose, include, text),
    }
}

// Adds the interval of the alternative that a part of the text is, where its cuts meet, unless it
// is lost. Returns whether this part or one before it is an alternative.
#[tactic(auto, using(crate::proofs::Grammar::RangeReads::parts_added))]
fn add_part<'a>(
    loose: bool,
    include: bool,
    text: &'a str,
    is_some: bool,
    found: &mut Intervals<VersionRef<'a>>,
) -> Result<bool, Failure<SemverError>>
    ensures added { IfOk result (λ some. AddsPart include
        (valid_alternative loose include text.now) is_some some found.old.items found.new.items) }
    ensures refused { RefusedOnlyIf result (valid_alternative loose include text.now ≡ None) }
    ensures memory { MemoryOnlyIf result (0 < length found.old.items) }
{
    let Some(read) = alternative(loose, include, text.as_bytes()) else {
        return Err(Failure::Refused(SemverError));
    };
    if read.is_lost {
        return Ok(is_some);
    }
    if let Some(interval) = read.interval {
        found.add(interval)?;
    }
    Ok(true)
}

// Fills a list with the intervals of the range of any text. One cursor goes through it.
#[inline(never)]
fn fill_any<'a>(
    alloc: Global,
    loose: bool,
    include: bool,
    text: &'a str,
    found: &mut Intervals<VersionRef<'a>>,
) -> Result<(), Failure<SemverError>>
    ensures ok { OnOk result (IsRangeIn loose MAX_SAFE_INTEGER include text.now found.new.items) }
    ensures range { OnOk result (IsRange MAX_SAFE_INTEGER found.new.items) }
    ensures refused { RefusedOnlyIf result
        (NoValue (HasAlternativesIn loose MAX_SAFE_INTEGER include text.now)) }
    ensures memory { MemoryOnlyIf result ((pieces : List (List ℕ)) →
        IsCutAtBars text.now pieces → 1 < length pieces) }
{
    found.clear();
    let mut is_some = false;
    let mut rest = Some(text);
    'parts: while let Some(text) = rest {
        let (part, after) = next_part(text);
        is_some = add_part(loose, include, part, is_some, found)?;
        rest = after;
    }
    if is_some {
        set_ranged(alloc, found);
        Ok(())
    } else {
        Err(Failure::Refused(SemverError))
    }
}

// Fills an empty list with the intervals of the range of a text. Most texts are common ones.
fn fill<'a>(
    alloc: Global,
    loose: bool,
    include: bool,
    text: &'a str,
    found: &mut Intervals<VersionRef<'a>>,
) -> Result<(), Failure<SemverError>>
    requires { found.old.items ≡ [] }
    ensures ok { OnOk result (IsRangeIn loose MAX_SAFE_INTEGER include text.now found.new.items) }
    ensures range { OnOk result (IsRange MAX_SAFE_INTEGER found.new.items) }
    ensures refused { RefusedOnlyIf result
        (NoValue (HasAlternativesIn loose MAX_SAFE_INTEGER include text.now)) }
    ensures memory { MemoryOnlyIf result ((pieces : List (List ℕ)) →
        IsCutAtBars text.now pieces → 1 < length pieces) }
{
    if loose || text.is_empty() || !read_common(include, text.as_bytes(), found)? {
        return fill_any(alloc, loose, include, text, found);
    }
    set_ranged(alloc, found);
    Ok(())
}

/// Reads a range text as node-semver's `Range` does.
///
/// Strictly a text is alternatives separated by `||`, each of which is nothing, words with
/// whitespace between them, such as `^1.2`, `>=1.0.0 <2` and `~1.2.3`, or one hyphen range,
/// `1.0.0 - 2.0.0` (node-semver's grammar `range.bnf`). Every other text is rejected, also those of
/// which [`RangeRef::parse`](crate::RangeRef) ignores a word: `>=1.0.0, <2.0.0`, `^01.2` and
/// `latest`.
///
/// Loosely, as `npm ls` reads the ranges of dependencies, it may also have numbers with leading
/// zeros (`^01.2.3`), a pre-release without its `-` (`1.2.3beta`), and more marks than one `v`
/// before a version (`==1.2.3`). Malformed words are ignored: `>=1.0.0, <2.0.0` is `<2.0.0`. One
/// that ends in a sign goes on after the whitespace, after a comparator only if a number or a
/// wildcard follows: `foo^ bar 1` is `1`, and `foo= 1 2` and `1.2.3-dev= 1 2` are `2`. Words
/// without comparators are no alternative if the first and the last one are malformed:
/// `latest || 1` is `1`, and `foo *` is `*`. Node-semver answers otherwise of a word that has one
/// `*` and is else a whole version, such as `>*1.2.3`, where it ignores the `*`: here the word is
/// malformed. It reads partial versions of more than 250 characters in front of their builds, for
/// which a text is rejected here.
///
/// In both readings a text is rejected for a comparator that has a number above
/// `MAX_SAFE_INTEGER`, or more than `MAX_LENGTH` characters of its version.
///
/// With pre-releases included, ask the range by `satisfies_with_prerelease(version, true)`, and
/// else by `satisfies`: so asked it accepts the versions that node-semver's range does. A
/// [`ReadRange`](crate::ReadRange) keeps the reading, and is always asked so. Where the cuts of
/// an alternative do not meet, as in `>1 <1`, that alternative accepts nothing; a range of such
/// alternatives alone prints `<0.0.0-0`. Without pre-releases included, an alternative in which no
/// comparator counts, such as `*`, leaves the others out: `* || 1.0.0-a` rejects 1.0.0-a.
///
/// The range borrows the text. One interval stands inline, so that allocation fails only for a text
/// of two alternatives or more.
///
/// ```rust
/// let strict = Reading::default();
/// let version = VersionRef::parse("3.1.4")?;
/// let range = npm_reading::range(alloc, ">=1.0.0 <2 || ~3.1", strict)?;
/// assert!(rt; range.satisfies(&version));
/// assert!(rt; npm_reading::range(alloc, ">=1.0.0, <2.0.0", strict).is_err());
/// let loose = Reading {
///     loose: true,
///     ..Reading::default()
/// };
/// let beta = VersionRef::parse("1.2.3-beta")?;
/// let range = npm_reading::range(alloc, "==1.2.3beta || ^02.1", loose)?;
/// assert!(rt; range.satisfies(&beta));
/// assert!(rt; npm_reading::range(alloc, "==1.2.3beta || ^02.1", strict).is_err());
/// ```
#[tactic(auto, using(nodejs_semver::proofs::Values::spans_same))]
pub fn range(
    alloc: Global,
    text: &str,
    reading: Reading,
) -> Result<RangeRef<'_>, Failure<SemverError>>
    // The text has alternatives, and the range is their intervals.
    ensures ok { IfOk result
        (IsRangeIn reading.loose MAX_SAFE_INTEGER reading.include_prerelease text.now) }
    // It accepts the versions that they accept.
    ensures accepted { IfOk result (λ r. OfAccepted MAX_SAFE_INTEGER
        (record { reading = reading; text = text.now }) (λ accepted. (v : VersionValue)
        → Gate.accepts r v reading.include_prerelease ≡ accepted v)) }
    // A text is rejected only if it has none. The one other error is a failed allocation.
    ensures refused { RefusedOnlyIf result (NoValue (HasAlternativesIn reading.loose
        MAX_SAFE_INTEGER reading.include_prerelease text.now)) }
    // Allocation fails only if the text has two alternatives or more.
    ensures memory { MemoryOnlyIf result ((pieces : List (List ℕ)) →
        IsCutAtBars text.now pieces → 1 < length pieces) }
{
    let mut found = SmallVec::new(alloc);
    fill(
        alloc,
        reading.loose,
        reading.include_prerelease,
        text,
        &mut found,
    )?;
    Ok(RangeRef::of_some(found))
}
