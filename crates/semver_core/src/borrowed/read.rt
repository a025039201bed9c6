// Reads versions that borrow their text.

ghost use Rattle.std.specs.Prelude.{◌≡◌, ◌<◌, ℕ, drop, IfErr, IfNone, IfOk};
ghost use Rattle.semver_core.specs.Words.{begins, HasFeed, IfSome, is_identifier_char, is_listed};
ghost use Rattle.semver_core.specs.Words.{IsCommon, IsCommonFront, length, list_from, listed};
ghost use Rattle.semver_core.specs.Words.{lists_at, NoValue, Parses, take, true, VersionValue};

use crate::reach::{OfLines, OfText, Reach};
use crate::readers::{begins_lists, build_start, leading_numbers, numbers, pre_release_start};
use crate::scan::list_end;
use crate::{MAX_LENGTH, MAX_SAFE_INTEGER, SemverError, VersionRef};

// The text of the identifiers that begin at a place, and the place after them. Where there is none,
// that is the place where the list was expected.
#[inline(always)]
#[tactic(auto, using(crate::proofs::Text::Ends::lists_cut))]
fn list_from<R: Reach>(text: &str, at: usize, start: Option<usize>) -> (&[u8], usize)
    requires place { R.stands text.now at }
    requires start { IfSome start (λ start. R.stands text.now start) }
    requires begins { IfSome start (λ start.
        begins is_identifier_char (drop start text.now) ≡ true) }
    ensures found { (listed result.0.now, result.1) ≡ list_from text.now at start }
    ensures listed { is_listed result.0.now ≡ true }
    ensures place { R.stands text.now result.1 }
{
    let Some(start) = start else {
        return (b"", at);
    };
    let end = list_end::<R>(text.as_bytes(), start);
    (&text.as_bytes()[start..end], end)
}

// The texts of the pre-release and of the build at a place, and the place after them.
#[inline(never)]
fn lists_at<R: Reach>(text: &str, at: usize) -> (&[u8], &[u8], usize)
    requires { R.stands text.now at }
    ensures found { (listed result.0.now, listed result.1.now, result.2) ≡ lists_at text.now at }
    ensures pre_release { is_listed result.0.now ≡ true }
    ensures build { is_listed result.1.now ≡ true }
    ensures place { R.stands text.now result.2 }
{
    let (pre_release, next) = list_from::<R>(text, at, pre_release_start::<R>(text, at));
    let (build, end) = list_from::<R>(text, next, build_start::<R>(text, next));
    (pre_release, build, end)
}

// `lists_at`, inlined: room for what the call returns is made only where it is called.
#[inline(always)]
fn some_lists<R: Reach>(text: &str, at: usize) -> (&[u8], &[u8], usize)
    requires { R.stands text.now at }
    ensures found { (listed result.0.now, listed result.1.now, result.2) ≡ lists_at text.now at }
    ensures pre_release { is_listed result.0.now ≡ true }
    ensures build { is_listed result.1.now ≡ true }
    ensures place { R.stands text.now result.2 }
{
    let (pre_release, build, end) = lists_at::<R>(text, at);
    (pre_release, build, end)
}

// The version that a text begins with, and the place behind it.
#[inline(always)]
fn read_front<R: Reach>(text: &str) -> Option<(VersionRef<'_>, usize)>
    requires { R.stands text.now 0 }
    ensures some { IfSome result (λ found.
        IsCommonFront MAX_SAFE_INTEGER text.now found.0 found.1) }
    ensures whole { IfSome result (λ found.
        IsCommon MAX_SAFE_INTEGER (take found.1 text.now) found.0) }
    ensures none { IfNone result ((v : VersionValue) (end : ℕ) →
        IsCommonFront MAX_SAFE_INTEGER text.now v end → ⊥) }
    ensures place { IfSome result (λ found. R.stands text.now found.1) }
{
    let (major, minor, patch, end) = leading_numbers::<R>(text)?;
    if !begins_lists::<R>(text, end) {
        return Some((VersionRef::from_texts(major, minor, patch, b"", b""), end));
    }
    let (pre_release, build, end) = some_lists::<R>(text, end);
    let version = VersionRef::from_texts(major, minor, patch, pre_release, build);
    Some((version, end))
}

impl<'a> VersionRef<'a> {
    /// Reads the version at the front of a text of at most `MAX_LENGTH` bytes, as `Version::parse`
    /// reads it. The version borrows the text: nothing is allocated, and the call fails exactly
    /// where the text is longer or has no version at its front.
    ///
    /// ```rust
    /// let beta = VersionRef::parse("v1.2.3-beta.1, the second beta")?;
    /// assert!(rt; beta < VersionRef::parse("1.2.3+build")?);
    /// assert!(rt; VersionRef::parse("1.2").is_err());
    /// ```
    #[inline(always)]
    #[tactic(auto, using(crate::proofs::Text::Ends::parsed))]
    pub fn parse(text: &'a str) -> Result<VersionRef<'a>, SemverError>
        // What is read is a version of the text.
        ensures ok { IfOk result (λ v. Parses MAX_SAFE_INTEGER text.now v) }
        // The text is rejected only if it is too long or has no version at its front.
        ensures refused { IfErr result (λ _. NoValue (Parses MAX_SAFE_INTEGER text.now)) }
    {
        if text.len() > MAX_LENGTH {
            return Err(SemverError);
        }
        let Some((major, minor, patch, end)) = numbers(text) else {
            return Err(SemverError);
        };
        if end == text.len() {
            return Ok(VersionRef::from_texts(major, minor, patch, b"", b""));
        }
        let (pre_release, build, _) = some_lists::<OfText>(text, end);
        Ok(VersionRef::from_texts(major, minor, patch, pre_release, build))
    }

    /// Reads the version that a text of any length begins with, and returns it with the place
    /// behind it: `v` or nothing, three numbers joined by dots, a pre-release, build metadata, each
    /// read as long as possible. What stands behind them is not looked at, save one or two bytes.
    ///
    /// Returns `None` on every other text, also where `parse` reads a version behind `V` or
    /// whitespace. The version borrows the text, and nothing is allocated.
    ///
    /// `VersionRef::front("1.2.3-beta;1.3.0")` is 1.2.3-beta and the place 10.
    #[inline(always)]
    pub fn front(text: &'a str) -> Option<(VersionRef<'a>, usize)>
        // What is read is the version at the front, up to its end.
        ensures some { IfSome result (λ found.
            IsCommonFront MAX_SAFE_INTEGER text.now found.0 found.1) }
        // The text up to there is a common one of that version.
        ensures whole { IfSome result (λ found.
            IsCommon MAX_SAFE_INTEGER (take found.1 text.now) found.0) }
        // Nothing is read only where no such version stands at the front.
        ensures none { IfNone result ((v : VersionValue) (end : ℕ) →
            IsCommonFront MAX_SAFE_INTEGER text.now v end → ⊥) }
    {
        read_front::<OfText>(text)
    }

    /// `VersionRef::front` for a text in which a line feed stands, as lines of a file. A version
    /// ends before a line feed, so no other end of the text is looked for, which takes less time.
    ///
    /// `VersionRef::front_of_lines("1.2.3-beta;1.3.0\n")` is 1.2.3-beta and the place 10.
    #[inline(always)]
    #[tactic(auto, using(crate::proofs::Text::Digits::some_feed))]
    pub fn front_of_lines(text: &'a str) -> Option<(VersionRef<'a>, usize)>
        // A line feed stands in the text.
        requires { HasFeed text.now }
        // What is read is the version at the front, up to its end.
        ensures some { IfSome result (λ found.
            IsCommonFront MAX_SAFE_INTEGER text.now found.0 found.1) }
        // The text up to there is a common one of that version.
        ensures whole { IfSome result (λ found.
            IsCommon MAX_SAFE_INTEGER (take found.1 text.now) found.0) }
        // Nothing is read only where no such version stands at the front.
        ensures none { IfNone result ((v : VersionValue) (end : ℕ) →
            IsCommonFront MAX_SAFE_INTEGER text.now v end → ⊥) }
        // The text goes on behind it.
        ensures place { IfSome result (λ found. found.1 < length text.now) }
    {
        read_front::<OfLines>(text)
    }
}
