//! The hyphen ranges of node-semver's readings: two partial versions with ` - ` between them.
//!
//! This is for the crates of this repository.

ghost use Rattle.npm_words.specs.Internal.{Meaning.AreRead, Parts.{are_normal, npm_partial_view}};
ghost use Rattle.npm_words.specs.Internal.Views.{end_front_view, end_some_view, end_view};
ghost use Rattle.npm_words.specs.{Internal.Views.{hyphen_view, is_free_end}, Words.Some};
ghost use Rattle.npm_words.specs.Words.{comparator_view, length, pair_view, rest_view};
ghost use Rattle.npm_words.specs.Words.{true};
ghost use Rattle.semver_core.specs.Internal.Reading.{◌>>?◌};
ghost use Rattle.std.specs.Prelude.{drop, option_map, ◌-◌, ◌≡◌, ◌≤◌};
ghost use Rattle.npm_words.specs.Internal.Ends as Ends;
ghost use Rattle.npm_words.specs.Internal.Words as Spec;
ghost use Rattle.npm_words.specs.RangeText as Text;

use crate::comparators::{prints_short, row, under, whole};
use crate::partial::{Partial, Sign, within};
use crate::places::partial_front;
use crate::words::is_short;
use semver_core::MAX_LENGTH;
use semver_pieces::{Bounds, Comparator, after_some_space, lowest, skip_to_boundary, space_len};

/// An end of a hyphen range: the marks and the whitespace in front, its partial version, and the
/// text of that with the marks behind the last whitespace.
#[derive(Drop)]
pub struct End<'a> {
    marks: &'a [u8],
    pub partial: Partial<'a>,
    text: &'a [u8],
}

/// Which end it is, and of the upper one whether pre-releases are included.
#[derive(Clone, Copy)]
pub enum Side {
    Lower,
    Upper { include: bool },
}

// How many bytes the mark or the whitespace character at the front takes.
fn mark_len(text: &[u8]) -> usize
    ensures value { result ≡ Spec.end_len text.now }
    ensures fits { result ≤ length text.now }
{
    match text {
        [b'v' | b'=', ..] => 1,
        _ => space_len(text),
    }
}

// What follows the marks and the whitespace at the front.
pub fn skip_marks(text: &[u8]) -> &[u8]
    ensures value { result.now ≡ Spec.drop_ends text.now }
    ensures fits { length result.now ≤ length text.now }
    ensures ends { drop (length text.now - length result.now) text.now ≡ result.now }
{
    let mut left = text;
    'marks: loop {
        let len = mark_len(left);
        if len == 0 {
            return left;
        }
        left = &left[len..];
    }
}

// The marks behind the last whitespace.
fn last_marks(marks: &[u8]) -> &[u8]
    ensures value { result.now ≡ Text.last_marks marks.now }
    ensures fits { length result.now ≤ length marks.now }
{
    let mut start = marks.len();
    'marks: while start > 0 && matches!(marks[start - 1], b'v' | b'=') {
        start -= 1;
    }
    &marks[start..]
}

impl<'a> End<'a> {
    /// Whether it is short enough, and its marks may stand there.
    pub fn is_right(&self, loose: bool, side: Side) -> bool
        ensures { result ≡ Spec.is_right loose (is_free_end side) (end_view self.now) }
    {
        let is_free = match (side, &self.partial) {
            (Side::Lower, Partial::Whole(_)) => false,
            (Side::Upper { include }, Partial::Whole(version)) => include || !version.is_release(),
            _ => true,
        };
        is_short(loose, self.text) && (loose || is_free || matches!(self.marks, [] | [b'v']))
    }

    /// The bounds of it as the lower end, as `row` gives those of a word. With pre-releases
    /// included, `-0` goes to the end of the text of a release, and into its build if it has one.
    pub fn lower_bounds(&self, include: bool) -> Option<Bounds<'a>>
        requires { are_normal (npm_partial_view self.now.partial) ≡ true }
        ensures { AreRead include (Spec.lower_of include (end_view self.now)) result }
    {
        let Partial::Whole(version) = &self.partial else {
            let sign = Sign::Compared(Comparator::AtLeast);
            return row(include, sign, &self.partial, self.text);
        };
        if !within(self.partial.first()) {
            return None;
        }
        let comparator = self.comparator(Comparator::AtLeast);
        if !include || !version.is_release() {
            return whole(include, comparator, version, self.text);
        }
        if self.text.len() + 2 > MAX_LENGTH {
            return None;
        }
        if version.build().is_empty() {
            let least = lowest(version.major(), version.minor(), version.patch());
            return whole(true, comparator, &least, self.text);
        }
        whole(true, comparator, version, self.text)
    }

    /// The bounds of it as the upper end.
    pub fn upper_bounds(&self, include: bool) -> Option<Bounds<'a>>
        requires { are_normal (npm_partial_view self.now.partial) ≡ true }
        ensures { AreRead include (Spec.upper_of include (end_view self.now)) result }
    {
        let Partial::Whole(version) = &self.partial else {
            let sign = Sign::Compared(Comparator::AtMost);
            return row(include, sign, &self.partial, self.text);
        };
        if !within(self.partial.first()) {
            return None;
        }
        if version.is_release() {
            if include {
                return under((version.major(), version.minor(), version.patch() + 1));
            }
            return whole(
                include,
                self.comparator(Comparator::AtMost),
                version,
                self.text,
            );
        }
        if prints_short(version) {
            Some(Bounds::at_most(version.copy()))
        } else {
            None
        }
    }

    // The comparator by which a whole version is compared: `=` where whitespace is among the marks.
    fn comparator(&self, written: Comparator) -> Comparator
        ensures { comparator_view result
            ≡ Text.end_sign (comparator_view written) self.now.marks.now }
    {
        if self.marks.iter().all(|byte| matches!(byte, b'v' | b'=')) {
            written
        } else {
            Comparator::Equal
        }
    }
}

// An end of a hyphen range at the front, and the text behind it.
fn end_front(loose: bool, text: &[u8]) -> Option<(End<'_>, &[u8])>
    ensures { end_front_view result
        ≡ Spec.first_as Spec.capped_in (Spec.end_front loose text.now) }
{
    let behind = skip_marks(text);
    let (partial, rest) = partial_front(loose, behind)?;
    let marks = &text[..text.len() - behind.len()];
    let start = marks.len() - last_marks(marks).len();
    let text = &text[start..text.len() - rest.len()];
    Some((
        End {
            marks,
            partial,
            text,
        },
        rest,
    ))
}

// What stands behind whitespace, `-` and whitespace.
fn after_dash(text: &[u8]) -> Option<&[u8]>
    ensures { rest_view result ≡ Spec.after_dash text.now }
{
    match after_some_space(text)? {
        [b'-', gap @ ..] => after_some_space(gap),
        _ => None,
    }
}

// The end of a hyphen range that a text is.
fn whole_end(loose: bool, text: &[u8]) -> Option<End<'_>>
    ensures { end_some_view result
        ≡ (Spec.last_end loose text.now >>? λ e. Some (Spec.capped_in e)) }
{
    let (end, rest) = end_front(loose, text)?;
    if rest.is_empty() { Some(end) } else { None }
}

/// The ends of the hyphen range that the text is. Numbers past the limit are
/// `MAX_SAFE_INTEGER + 1`.
#[tactic(auto, unfolding(crate::specs::Internal::Words::hyphen_ends))]
pub fn hyphen_ends(loose: bool, text: &[u8]) -> Option<(End<'_>, End<'_>)>
    ensures { hyphen_view result ≡ (Spec.hyphen_ends loose text.now >>? λ e.
        Some (Spec.capped_in e.0, Spec.capped_in e.1)) }
{
    let (lower, rest) = end_front(loose, text)?;
    let upper = whole_end(loose, after_dash(rest)?)?;
    Some((lower, upper))
}

/// Whether a text is a lower end, strictly, and its comparators are valid.
pub fn is_lower_end(include: bool, text: &[u8]) -> bool
    ensures { result ≡ Ends.is_lower include text.now }
{
    match whole_end(false, text) {
        Some(end) => end.is_right(false, Side::Lower) && end.lower_bounds(include).is_some(),
        None => false,
    }
}

/// Whether a text is an upper end, strictly, and its comparators are valid.
pub fn is_upper_end(include: bool, text: &[u8]) -> bool
    ensures { result ≡ Ends.is_upper include text.now }
{
    let side = Side::Upper { include };
    match whole_end(false, text) {
        Some(end) => end.is_right(false, side) && end.upper_bounds(include).is_some(),
        None => false,
    }
}

/// The texts where the ends would be of a text that has the form of a hyphen range.
#[tactic(auto, unfolding(crate::specs::Internal::Ends::end_texts))]
pub fn end_texts(text: &[u8]) -> Option<(&[u8], &[u8])>
    ensures { option_map pair_view result ≡ Ends.end_texts text.now }
{
    let before = skip_to_boundary(skip_marks(text));
    let second = after_dash(before)?;
    if !skip_to_boundary(skip_marks(second)).is_empty() {
        return None;
    }
    Some((&text[..text.len() - before.len()], second))
}
