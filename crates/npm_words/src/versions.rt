// Version texts as node-semver's strict reading and its loose one have them.

ghost use Rattle.npm_words.specs.{Grammar.is_strict_list, Internal.Readings.is_strict_identifier};
ghost use Rattle.npm_words.specs.{VersionText.{IsClean, IsVersionTextIn}, Words.{IfOk, IsTrue}};
ghost use Rattle.npm_words.specs.Words.{MAX_SAFE_INTEGER, NoValue, front_view, length};
ghost use Rattle.std.specs.Prelude.{IfErr, ◌↔◌, ◌≡◌};
ghost use Rattle.std.specs.{Prelude.◌≤◌, Str.chars};
ghost use Rattle.npm_words.specs.Internal.Versions as Whole;

use crate::hyphens::skip_marks;
use crate::options::Reading;
use crate::places::pre_front;
use crate::words::marks_len;
use semver_core::scan::{number_in, trim};
use semver_core::{MAX_LENGTH, SemverError, VersionRef};
use semver_pieces::{behind_dot, build_front, digits_len, number_front};

// How many digits of the run at the front a patch number has that leaves the last one before a dot.
#[inline(always)]
fn patch_len(text: &[u8]) -> usize
    ensures value { result ≡ Whole.patch_len text.now }
    ensures fits { result ≤ length text.now }
{
    let digits = digits_len(text);
    match &text[digits..] {
        [b'.', ..] => digits.saturating_sub(1),
        _ => digits,
    }
}

// The patch number, and the text that follows it. Loosely the last digit before a dot is an
// identifier of the pre-release.
#[inline(always)]
#[tactic(auto, using(crate::proofs::VersionTexts::Versions::patches))]
fn patch_front(loose: bool, text: &[u8]) -> Option<(u64, &[u8])>
    ensures { front_view result ≡ Whole.patch_front loose MAX_SAFE_INTEGER text.now }
{
    if !loose {
        return number_front(false, text);
    }
    let len = patch_len(text);
    let (number, _) = number_in(&text[..len], 0)?;
    Some((number, &text[len..]))
}

// Whether an identifier is a text, or a number without leading zeros.
#[inline(always)]
#[tactic(auto, using(crate::proofs::Grammar::PartialLaw::digits_all))]
fn is_strict_identifier(text: &[u8]) -> bool
    ensures { result ≡ is_strict_identifier text.now }
{
    match text {
        [b'0', _, ..] => digits_len(text) < text.len(),
        _ => true,
    }
}

// Whether no identifier of a text has leading zeros.
#[inline(always)]
pub fn is_strict_list(text: &[u8]) -> bool
    ensures { result ≡ is_strict_list text.now }
{
    text.split(|byte| *byte == b'.').all(is_strict_identifier)
}

// The version of three numbers and of what follows them up to the end of the text.
#[inline(always)]
#[tactic(auto, unfolding(crate::specs::Internal::Versions::qualified_version))]
fn qualified(loose: bool, major: u64, minor: u64, patch: u64, text: &[u8]) -> Option<VersionRef<'_>>
    ensures { result ≡ Whole.qualified_version loose major minor patch text.now }
{
    let (pre_release, rest) = pre_front(loose, false, text);
    let (build, rest) = build_front(rest);
    if rest.is_empty() && (loose || is_strict_list(pre_release)) {
        Some(VersionRef::from_texts(major, minor, patch, pre_release, build))
    } else {
        None
    }
}

// The version that the whole text is.
#[inline(always)]
#[tactic(auto, unfolding(crate::specs::Internal::Versions::whole_version))]
fn whole_version(loose: bool, text: &[u8]) -> Option<VersionRef<'_>>
    ensures { result ≡ Whole.whole_version loose MAX_SAFE_INTEGER text.now }
{
    let unmarked = match text {
        _ if loose => skip_marks(text),
        [b'v', rest @ ..] => rest,
        _ => text,
    };
    let (major, rest) = number_front(loose, unmarked)?;
    let (minor, rest) = number_front(loose, behind_dot(rest)?)?;
    let (patch, rest) = patch_front(loose, behind_dot(rest)?)?;
    qualified(loose, major, minor, patch, rest)
}

// The version that the whole text is, by a machine for each reading: a flag that is known when it
// is compiled costs nothing.
fn version_of(loose: bool, text: &[u8]) -> Option<VersionRef<'_>>
    ensures { result ≡ Whole.whole_version loose MAX_SAFE_INTEGER text.now }
{
    if loose {
        whole_version(true, text)
    } else {
        whole_version(false, text)
    }
}

// Whether a text has at most as many characters as a version text may have.
#[inline(always)]
#[tactic(auto, using(crate::proofs::Grammar::VersionLaw::characters_counted))]
pub fn is_short(text: &str) -> bool
    ensures { IsTrue result ↔ (length (chars text.now) ≤ MAX_LENGTH) }
{
    text.len() <= MAX_LENGTH || text.chars().count() <= MAX_LENGTH
}

/// Reads a version text as node-semver's `parse` does.
///
/// Strictly a text is `v` or nothing, three numbers joined by dots, a `-` and a pre-release, a `+`
/// and build metadata. Whitespace may stand around the version, and nothing else. Every other text
/// is rejected, also those of which [`VersionRef::parse`] reads a front: a number, or an identifier
/// of the pre-release that is a number, with a leading zero (`1.02.3`, `1.2.3-01`), a pre-release
/// without its `-` (`1.2.3beta`), and the mark `=` (`=1.2.3`).
///
/// Loosely any of `v`, `=` and whitespace may stand in front, numbers may have leading zeros, and
/// the pre-release may stand without its `-`. The patch number takes all digits that it can:
/// `1.2.34.5` is 1.2.3-4.5.
///
/// In both readings a text is rejected for a number above `MAX_SAFE_INTEGER`, the mark `V`, text
/// after the version (`1.2.3.4`), and more than `MAX_LENGTH` characters, with the whitespace around
/// the version counted. The version borrows the text: nothing is allocated. It has the numbers of
/// its build by value: [`build_text`](crate::build_text) returns the build as it is written.
///
/// ```rust
/// let strict = Reading::default();
/// let beta = VersionRef::parse("1.2.3-beta.1");
/// assert!(rt; npm_reading::version(" v1.2.3-beta.1 ", strict) == beta);
/// assert!(rt; npm_reading::version("1.2.03", strict).is_err());
/// assert!(rt; npm_reading::version("1.2.3, the second beta", strict).is_err());
/// let loose = Reading {
///     loose: true,
///     ..Reading::default()
/// };
/// assert!(rt; npm_reading::version("= v1.02.3beta", loose) == VersionRef::parse("1.2.3-beta"));
/// assert!(rt; npm_reading::version("1.2.3, the second beta", loose).is_err());
/// ```
pub fn version(text: &str, reading: Reading) -> Result<VersionRef<'_>, SemverError>
    // What is read is the version that the text is.
    ensures ok { IfOk result (λ v. IsVersionTextIn reading.loose MAX_SAFE_INTEGER text.now v) }
    // A text is rejected only if it is no version.
    ensures refused { IfErr result
        (λ _. NoValue (IsVersionTextIn reading.loose MAX_SAFE_INTEGER text.now)) }
{
    if !is_short(text) {
        return Err(SemverError);
    }
    match version_of(reading.loose, trim(text).as_bytes()) {
        Some(version) => Ok(version),
        None => Err(SemverError),
    }
}

/// Reads a version text as node-semver's `clean` does unless it is told to be loose: as
/// [`version`] does, once the whitespace around the text and then all `v` and `=` at its front are
/// taken off. Only what is left is held to `MAX_LENGTH` characters.
///
/// Rejects every other text. The version borrows the text: nothing is allocated. `clean` of
/// node-semver returns the version as a text without its build metadata.
///
/// ```rust
/// assert!(rt; npm_reading::clean(" =v1.2.3 ") == VersionRef::parse("1.2.3"));
/// assert!(rt; npm_reading::version(" =v1.2.3 ", Reading::default()).is_err());
/// assert!(rt; npm_reading::clean("=1.2.03").is_err());
/// ```
pub fn clean(text: &str) -> Result<VersionRef<'_>, SemverError>
    // What is read is the version that the text is.
    ensures ok { IfOk result (λ v. IsClean MAX_SAFE_INTEGER text.now v) }
    // A text is rejected only if it is no version.
    ensures refused { IfErr result (λ _. NoValue (IsClean MAX_SAFE_INTEGER text.now)) }
{
    let text = trim(text);
    version(&text[marks_len(text.as_bytes())..], Reading::default())
}
