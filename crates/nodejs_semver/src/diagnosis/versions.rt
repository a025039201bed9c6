// What is wrong with a version text.

ghost use Rattle.std.specs.Prelude.{◌+◌, ◌↔◌, ◌≡◌, ◌≤◌, drop, false, IfErr};
ghost use Rattle.nodejs_semver.specs.Words.{begins, begins_dot, IfOk, IfSome, is_ascii_digit};
ghost use Rattle.nodejs_semver.specs.Words.{IsExact, IsFlaw, IsNumberAt, length};
ghost use Rattle.nodejs_semver.specs.Words.{MatchOption, MAX_SAFE_INTEGER, None, Some};
ghost use Rattle.nodejs_semver.specs.Words.{Stuck, triple_at, true, ℕ};

use crate::readers::{build_front, pre_release_front};
use semver_core::scan::{number_in, skip_whitespace};
use semver_core::{MAX_LENGTH, MAX_SAFE_INTEGER};

/// What a version text has to have at some place.
#[derive(Clone, Copy, PartialEq, Eq, Debug)]
pub enum Expected {
    /// A digit, with which a number begins.
    Digit,
    /// The dot between two numbers.
    Dot,
}

/// What is wrong with a version text. A place is a byte index.
#[derive(Clone, Copy, PartialEq, Eq, Debug)]
pub enum VersionFlaw {
    /// The text is longer than `MAX_LENGTH` bytes.
    TooLong,
    /// A number above `MAX_SAFE_INTEGER` begins at this place.
    NumberTooGreat { at: usize },
    /// The bytes before this place begin a version text, and this would go on with it. What stands
    /// there does not, or the text ends there.
    Expected { what: Expected, at: usize },
    /// The text has a version at its front, which `Version::parse` returns. From this place on it
    /// is ignored.
    Ignored { at: usize },
}

fn begins_digit(bytes: &[u8], at: usize) -> bool
    requires { at ≤ length bytes.now }
    ensures { result ≡ begins is_ascii_digit (drop at bytes.now) }
{
    match &bytes[at..] {
        [byte, ..] => byte.is_ascii_digit(),
        [] => false,
    }
}

// The place behind the number at a place.
#[tactic(auto, using(crate::proofs::Diagnosing::OneFlaw::number_stops))]
fn number_end(bytes: &[u8], at: usize) -> Result<usize, VersionFlaw>
    requires { at ≤ length bytes.now }
    ensures found { IfOk result (λ end. IsNumberAt MAX_SAFE_INTEGER bytes.now at end) }
    ensures stuck { IfErr result (λ flaw. (k : ℕ) → Stuck MAX_SAFE_INTEGER bytes.now k at flaw) }
{
    let what = Expected::Digit;
    match number_in(bytes, at) {
        Some((_, end)) => Ok(end),
        None if begins_digit(bytes, at) => Err(VersionFlaw::NumberTooGreat { at }),
        None => Err(VersionFlaw::Expected { what, at }),
    }
}

// The place behind the dot at a place.
fn dot_end(bytes: &[u8], at: usize) -> Result<usize, VersionFlaw>
    requires { at ≤ length bytes.now }
    ensures found { IfOk result (λ end. (end ≡ at + 1) × (begins_dot (drop at bytes.now) ≡ true)) }
    ensures place { IfOk result (λ end. end ≤ length bytes.now) }
    ensures stuck { IfErr result (λ flaw. (flaw ≡ VersionFlaw.Expected Expected.Dot at)
        × (begins_dot (drop at bytes.now) ≡ false)) }
{
    let what = Expected::Dot;
    match &bytes[at..] {
        [b'.', ..] => Ok(at + 1),
        _ => Err(VersionFlaw::Expected { what, at }),
    }
}

// The place behind three numbers with dots between them.
#[tactic(auto, using(crate::proofs::Diagnosing::OneFlaw::numbers_stop))]
fn numbers_end(bytes: &[u8], at: usize) -> Result<usize, VersionFlaw>
    requires { at ≤ length bytes.now }
    ensures place { IfOk result (λ end. end ≤ length bytes.now) }
    ensures found { IfOk result (λ end. (t : ℕ × ℕ × ℕ × ℕ)
        × (triple_at MAX_SAFE_INTEGER bytes.now at ≡ Some t) × (t.3 ≡ end)) }
    ensures stuck { IfErr result (λ flaw. Stuck MAX_SAFE_INTEGER bytes.now 2 at flaw) }
{
    let major = number_end(bytes, at)?;
    let first = dot_end(bytes, major)?;
    let minor = number_end(bytes, first)?;
    let second = dot_end(bytes, minor)?;
    let patch = number_end(bytes, second)?;
    Ok(patch)
}

// The flaw of a text that is not too long.
fn flaw_within(text: &str) -> Option<VersionFlaw>
    requires { length text.now ≤ MAX_LENGTH }
    ensures { MatchOption result (IsExact MAX_SAFE_INTEGER text.now) (λ flaw.
        IsFlaw MAX_SAFE_INTEGER text.now flaw × (IsExact MAX_SAFE_INTEGER text.now → ⊥)) }
{
    let bytes = text.as_bytes();
    let mark = usize::from(matches!(bytes, [b'v' | b'V', ..]));
    let end = match numbers_end(bytes, skip_whitespace(text, mark)) {
        Ok(end) => end,
        Err(flaw) => return Some(flaw),
    };
    let (_, behind) = pre_release_front(false, &bytes[end..]);
    let (_, ignored) = build_front(behind);
    if ignored.is_empty() {
        None
    } else {
        let at = bytes.len() - ignored.len();
        Some(VersionFlaw::Ignored { at })
    }
}

/// Returns what is wrong with a version text, or `None` if the whole text is one version, which
/// `Version::parse` then returns. Allocates nothing.
///
/// `Version::parse` rejects the text where the flaw is `TooLong`, `NumberTooGreat` or `Expected`,
/// and ignores a part of it where that is `Ignored`.
///
/// ```rust
/// assert!(rt; version_flaw("1.2.3-rc.1").is_none());
/// assert!(rt; version_flaw("5.0.0.9 oops") == Some(VersionFlaw::Ignored { at: 5 }));
/// let what = Expected::Digit;
/// assert!(rt; version_flaw("1.x") == Some(VersionFlaw::Expected { what, at: 2 }));
/// ```
#[tactic(auto, using(crate::proofs::Diagnosing::Flaws::flaws_decided))]
pub fn version_flaw(text: &str) -> Option<VersionFlaw>
    // None exactly if the whole text is one version.
    ensures none { (result ≡ None) ↔ IsExact MAX_SAFE_INTEGER text.now }
    // What is returned is a flaw of the text.
    ensures flaw { IfSome result (λ flaw. IsFlaw MAX_SAFE_INTEGER text.now flaw) }
    // A text has one flaw: no other would be right.
    ensures only { (flaw : VersionFlaw) → IsFlaw MAX_SAFE_INTEGER text.now flaw
        → result ≡ Some flaw }
{
    if text.len() > MAX_LENGTH {
        return Some(VersionFlaw::TooLong);
    }
    flaw_within(text)
}
