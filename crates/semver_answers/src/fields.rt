// The fields of the first line of a text, which are cut at each `;`. They are read from the left,
// and the last one ends at the line feed.

ghost use Rattle.std.specs.Prelude.{◌≡◌, ◌<◌, IfNone, IfSome, false, length, take};
ghost use Rattle.std.specs.Prelude.{slice_index};
ghost use Rattle.std.specs.List.{All};
ghost use Rattle.memchr.specs.Find.{is_byte2};
ghost use Rattle.semver_answers.specs.Internal.Ahead.{Cuts, HasFeed, IsNext};
ghost use Rattle.semver_answers.specs.Internal.Results.{ReadsRange, ReadsVersion, ReadsWord};

use memchr::{memchr, memchr2};
use nodejs_semver::cuts::Interval;
use nodejs_semver::{Failure, MAX_LENGTH, RangeReader, RangeRef, SemverError, VersionRef};

/// What stands behind a field.
#[derive(Clone, Copy)]
pub(crate) enum Behind<'t> {
    /// The text behind its `;`, which begins with the line's next field.
    Fields(&'t str),
    /// The text behind its line, which the field ends.
    Lines(&'t str),
}

// What stands behind a field that ends at a place; `None` where none ends there.
#[inline(always)]
fn mark_at(text: &str, end: usize) -> Option<Behind<'_>>
    requires inside { end < length text.now }
    requires plain { All (λ b. is_byte2 59 10 b ≡ false) (take end text.now) }
    requires feed { HasFeed text.now }
    ensures some { IfSome result (Cuts text.now (take end text.now)) }
    ensures low { IfSome result (λ behind. slice_index text.now end < 128) }
    ensures none { IfNone result (is_byte2 59 10 (slice_index text.now end) ≡ false) }
{
    match text.as_bytes()[end] {
        b';' => Some(Behind::Fields(&text[end + 1..])),
        b'\n' => Some(Behind::Lines(&text[end + 1..])),
        _ => None,
    }
}

/// The first field, and what stands behind it.
#[inline(always)]
#[tactic(auto, using(crate::proofs::Firsts::none_of_both))]
pub(crate) fn cut(text: &str) -> (&str, Behind<'_>)
    requires { HasFeed text.now }
    ensures { Cuts text.now result.0.now result.1 }
{
    let Some(end) = memchr2(b';', b'\n', text.as_bytes()) else {
        unreachable!()
    };
    match mark_at(text, end) {
        Some(behind) => (&text[..end], behind),
        None => unreachable!(),
    }
}

/// `cut` for a field that is a short word mostly, so that no call searches it.
#[inline(always)]
#[tactic(auto, using(crate::proofs::Firsts::words))]
pub(crate) fn cut_word(text: &str) -> (&str, Behind<'_>)
    requires { HasFeed text.now }
    ensures { Cuts text.now result.0.now result.1 }
{
    // Bytes above `;`, such as letters, stand at the front.
    let word = text.as_bytes();
    let mut end = 0;
    'bytes: while word[end] > b';' {
        end += 1;
    }
    match mark_at(text, end) {
        Some(behind) => (&text[..end], behind),
        None => cut(text),
    }
}

/// The text behind the first line.
#[tactic(auto, using(crate::proofs::Firsts::none_found))]
pub(crate) fn behind_line(text: &str) -> &str
    requires { HasFeed text.now }
    ensures { IsNext text.now result }
{
    match memchr(b'\n', text.as_bytes()) {
        Some(end) => &text[end + 1..],
        None => unreachable!(),
    }
}

/// The version of the first field, and what stands behind it. The field is read once, unless it is
/// no common version text.
#[inline(always)]
pub(crate) fn version_field(text: &str) -> (Result<VersionRef<'_>, SemverError>, Behind<'_>)
    requires { HasFeed text.now }
    ensures { ReadsVersion text.now result.0 result.1 }
{
    if let Some((version, end)) = VersionRef::front_of_lines(text) {
        if end <= MAX_LENGTH {
            if let Some(behind) = mark_at(text, end) {
                return (Ok(version), behind);
            }
        }
    }
    rare_version_field(text)
}

// `whole_version_field`, inlined: room for what the call returns is made only where it is called.
#[inline(always)]
fn rare_version_field(text: &str) -> (Result<VersionRef<'_>, SemverError>, Behind<'_>)
    requires { HasFeed text.now }
    ensures { ReadsVersion text.now result.0 result.1 }
{
    let (version, behind) = whole_version_field(text);
    (version, behind)
}

// `version_field` where the end of the field is looked for first.
#[cold]
#[inline(never)]
fn whole_version_field(text: &str) -> (Result<VersionRef<'_>, SemverError>, Behind<'_>)
    requires { HasFeed text.now }
    ensures { ReadsVersion text.now result.0 result.1 }
{
    let (field, behind) = cut(text);
    (VersionRef::parse(field), behind)
}

/// The range of the first field, or why there is none, and what stands behind the field. The field
/// is read once, unless it is no common range text.
#[inline(always)]
#[tactic(auto, using(crate::proofs::Firsts::words))]
pub(crate) fn range_field<'r, 't>(
    text: &'t str,
    reader: &'r mut RangeReader<'t>,
) -> (Result<&'r RangeRef<'t>, Failure<SemverError>>, Behind<'t>)
    requires { HasFeed text.now }
    ensures { ReadsRange text.now result.0 result.1 }
{
    let (range, end) = reader.read_field(text);
    match mark_at(text, end) {
        Some(behind) => (range, behind),
        None => unreachable!(),
    }
}

/// The interval of the first field, where it is one word that a caret or a tilde begins, and the
/// fields behind it. It is kept nowhere.
#[inline(always)]
#[tactic(auto, using(crate::proofs::Firsts::words))]
pub(crate) fn word_field(text: &str) -> Option<(Interval<VersionRef<'_>>, &str)>
    requires { HasFeed text.now }
    ensures { IfSome result (λ found. ReadsWord text.now found.0 found.1) }
{
    let (interval, end) = nodejs_semver::word_field(text)?;
    match mark_at(text, end) {
        Some(Behind::Fields(rest)) => Some((interval, rest)),
        _ => None,
    }
}
