// Common texts of versions, read from their bytes.

ghost use Rattle.nodejs_semver_c.specs.Internal.Common.{AreLists, IsCommonText, IsReleaseAt};
ghost use Rattle.nodejs_semver_c.specs.Internal.Common.{IsReleaseText};
ghost use Rattle.npm_words.specs.Grammar.{is_strict_list};
ghost use Rattle.npm_words.specs.Internal.Readings.{is_strict_identifier};
ghost use Rattle.std.specs.Char.{is_ascii_digit};
ghost use Rattle.std.specs.List.{list_all};
ghost use Rattle.std.specs.Prelude.{◌≡◌, IfSome, List, ℕ};

use crate::kept::Version;
use nodejs_semver::MAX_LENGTH;
use semver_pieces::{build_front, dotted_number, number_front, pre_release_front};

/// The release at the front of a text, with no mark before it and without leading zeros, and what
/// follows it. Most texts of versions begin so.
#[inline(always)]
pub fn release_front(text: &[u8]) -> Option<(Version<'_>, &[u8])>
    ensures { IfSome result (λ front. IsReleaseAt text.now front.0 front.1.now) }
{
    if text.len() > MAX_LENGTH {
        return None;
    }
    let (major, rest) = number_front(false, text)?;
    let (minor, rest) = dotted_number(false, rest)?;
    let (patch, rest) = dotted_number(false, rest)?;
    let release = Version {
        major,
        minor,
        patch,
        pre_release: b"",
        build: b"",
    };
    Some((release, rest))
}

/// The release that a whole text is, with no mark before it and without leading zeros: it is so in
/// each reading, and prints as the text. `None` is returned for others, of which some are versions.
#[inline(always)]
pub fn release(text: &[u8]) -> Option<Version<'_>>
    ensures { IfSome result (IsReleaseText text.now) }
{
    let (release, rest) = release_front(text)?;
    if !rest.is_empty() {
        return None;
    }
    Some(release)
}

/// The version of a text that a release is at the front of, where the rest is a pre-release and a
/// build.
#[inline(always)]
pub fn with_lists<'a>(release: &Version<'a>, rest: &'a [u8]) -> Option<Version<'a>>
    ensures { (text : List ℕ) → IsReleaseAt text release.now rest.now
        → IfSome result (IsCommonText text) }
{
    let (pre_release, build) = some_lists(rest)?;
    Some(Version {
        major: release.major,
        minor: release.minor,
        patch: release.patch,
        pre_release,
        build,
    })
}

// The texts of the pre-release and of the build that all of a text is.
#[inline(never)]
fn some_lists(text: &[u8]) -> Option<(&[u8], &[u8])>
    ensures { IfSome result (λ lists. AreLists text.now lists.0.now lists.1.now) }
{
    let (pre_release, rest) = pre_release_front(false, text);
    let (build, rest) = build_front(rest);
    if rest.is_empty() {
        Some((pre_release, build))
    } else {
        None
    }
}

#[inline(always)]
fn is_digits(text: &[u8]) -> bool
    ensures { result ≡ list_all is_ascii_digit text.now }
{
    text.iter().all(|byte| byte.is_ascii_digit())
}

// Whether an identifier is a text, or a number without leading zeros.
#[inline(always)]
fn is_printed_identifier(text: &[u8]) -> bool
    ensures { result ≡ is_strict_identifier text.now }
{
    match text {
        [b'0', _, ..] => !is_digits(text),
        _ => true,
    }
}

/// Whether no number among the identifiers of a text has leading zeros, so that the list prints as
/// the text.
#[inline(always)]
pub fn is_printed(text: &[u8]) -> bool
    ensures { result ≡ is_strict_list text.now }
{
    text.is_empty() || text.split(|byte| *byte == b'.').all(is_printed_identifier)
}
