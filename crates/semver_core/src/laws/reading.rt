// The two constants, that a text has one version at most, whatever the limit and whichever reader
// reads it, and where its whitespace ends.

ghost use Rattle.std.specs.Prelude.{◌≡◌, ◌≤◌, ℕ, IfNone};
ghost use Rattle.semver_core.specs.Words.{IfOk, IfSome, IsAfterBlank, IsCharBoundary, IsCommon};
ghost use Rattle.semver_core.specs.Words.{IsTrim, IsUtf8, List, NoValue, Reads, VersionValue};

use crate::readers::{front_of_numbers, version_fast, version_loose};
use crate::{MAX_LENGTH, MAX_SAFE_INTEGER, Version};
use std::alloc::{AllocError, Global};

/// The values of the two constants.
pub fn constants() -> (u64, usize)
    ensures number { MAX_SAFE_INTEGER ≡ 9007199254740991 }
    ensures length { MAX_LENGTH ≡ 256 }
    ensures given { result ≡ (MAX_SAFE_INTEGER, MAX_LENGTH) }
{
    (MAX_SAFE_INTEGER, MAX_LENGTH)
}

/// Whatever the limit on numbers is, a text has one version at its front at most.
pub fn one_reading(text: &str)
    ensures { (limit : ℕ) (v w : VersionValue)
        → Reads limit text.now v → Reads limit text.now w → v ≡ w }
{
    let _ = front_of_numbers(text);
}

/// A text that is read under one limit on numbers is read as the same version under every larger
/// limit. No such law holds of ranges: a word that is malformed under the small limit may name an
/// interval under the large one.
pub fn larger_limits(text: &str)
    ensures read { (small large : ℕ) (v : VersionValue) → small ≤ large
        → Reads small text.now v → Reads large text.now v }
    ensures same { (small large : ℕ) (v w : VersionValue) → small ≤ large
        → Reads small text.now v → Reads large text.now w → w ≡ v }
{
    one_reading(text);
}

/// Whatever the limit on numbers is, the version of a common text is the version at its front.
pub fn common_reads_alike(text: &str)
    ensures { (limit : ℕ) (v w : VersionValue)
        → IsCommon limit text.now v → Reads limit text.now w → v ≡ w }
{
    one_reading(text);
}

/// Returns what `version_fast` and `version_loose` return on one text: where the first returns a
/// version, the second returns the same, which is the version at the text's front. The first
/// returns none only on a text that is no common one, and the second only on a text that has no
/// version.
///
/// Fails only if allocation fails.
#[tactic(auto, using(crate::proofs::Text::Fronts::alike))]
pub fn both_readers(
    alloc: Global,
    text: &str,
) -> Result<(Option<Version>, Option<Version>), AllocError>
    ensures same { IfOk result (λ both. IfSome both.0 (λ v. both.1 ≡ Some v)) }
    ensures read { IfOk result (λ both. IfSome both.1 (Reads MAX_SAFE_INTEGER text.now)) }
    ensures uncommon { IfOk result (λ both.
        IfNone both.0 (NoValue (IsCommon MAX_SAFE_INTEGER text.now))) }
    ensures unread { IfOk result (λ both.
        IfNone both.1 (NoValue (Reads MAX_SAFE_INTEGER text.now))) }
{
    one_reading(text);
    let fast = version_fast(alloc, text)?;
    Ok((fast, version_loose(alloc, text)?))
}

/// A text has one trimmed middle, and the whitespace at a place of it ends at one place.
pub fn whitespace_ends()
    ensures trimmed { (text : List ℕ) → IsUtf8 text → (middle : List ℕ) × IsTrim text middle }
    ensures only { (text middle other : List ℕ)
        → IsTrim text middle → IsTrim text other → middle ≡ other }
    ensures some_place { (text : List ℕ) (at : ℕ) → IsUtf8 text → IsCharBoundary text at
        → (end : ℕ) × IsAfterBlank text at end }
    ensures one_place { (text : List ℕ) (at end other : ℕ) → IsUtf8 text
        → IsAfterBlank text at end → IsAfterBlank text at other → end ≡ other }
{}
