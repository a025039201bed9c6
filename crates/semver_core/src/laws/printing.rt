// Printed versions come back.

ghost use Rattle.std.specs.Prelude.{◌≡◌, ◌<◌, ◌≤◌, ◌^◌, ℕ, IfOk, length};
ghost use Rattle.semver_core.specs.Words.{id_text, id_view, is_readable, Reads, RefusedOnlyIf};
ghost use Rattle.semver_core.specs.Words.{string_bytes, true, version_text, VersionValue};

use crate::laws::reading::one_reading;
use crate::{Failure, Identifier, MAX_LENGTH, MAX_SAFE_INTEGER, SemverError, Version};
use std::alloc::{AllocError, Global};

/// Printed versions come back: a text that is a printed version reads as that version, build
/// included, and as no other. Its numbers are at most the limit, and each of its texts is a run of
/// identifier characters that is not a number of 64 bits in digits. An `AlphaNumeric` that holds
/// `12`, or a dot, does not come back.
pub fn printed_versions_come_back(text: &str)
    ensures read { (limit : ℕ) (v : VersionValue) → limit < 2 ^ 64 → text.now ≡ version_text v
        → is_readable limit v ≡ true → Reads limit text.now v }
    ensures only { (limit : ℕ) (v w : VersionValue) → limit < 2 ^ 64 → text.now ≡ version_text v
        → is_readable limit v ≡ true → Reads limit text.now w → w ≡ v }
{
    one_reading(text);
}

/// A version that is printed and read again. It returns the version itself, build included, and
/// fails only if allocation fails.
pub fn reread(alloc: Global, version: &Version) -> Result<Version, Failure<SemverError>>
    requires readable { is_readable MAX_SAFE_INTEGER version.now ≡ true }
    requires short { length (version_text version.now) ≤ MAX_LENGTH }
    ensures same { IfOk result (λ again. again ≡ version.now) }
    ensures never_refused { RefusedOnlyIf result ⊥ }
{
    let text = version.to_string(alloc)?;
    let text = text.as_str();
    printed_versions_come_back(text);
    Version::parse(alloc, text)
}

/// Fill, width and precision change nothing of a printed version.
pub fn version_in_field(
    alloc: Global,
    version: &Version,
    width: usize,
    precision: usize,
) -> Result<String, AllocError>
    ensures { IfOk result (λ text. string_bytes text ≡ version_text version.now) }
{
    format!(in alloc; "{version:*^width$.precision$}")
}

/// Nor do they of a printed identifier, be it a number or a text.
pub fn identifier_in_field(
    alloc: Global,
    identifier: &Identifier,
    width: usize,
    precision: usize,
) -> Result<String, AllocError>
    ensures { IfOk result (λ text. string_bytes text ≡ id_text (id_view identifier.now)) }
{
    format!(in alloc; "{identifier:*^width$.precision$}")
}
