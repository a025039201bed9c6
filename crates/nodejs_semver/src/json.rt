//! Versions and ranges as JSON: the string of the printed text.

ghost use Rattle.std.specs.Prelude.{◌<◌, ◌≡◌, [], IfOk, is_some};
ghost use Rattle.nodejs_semver.specs.Words.{as_str, compact_text, HasIdentifiers, IsSomeAnd};
ghost use Rattle.nodejs_semver.specs.Words.{IsTrue, json_string, length, MAX_SAFE_INTEGER, Means};
ghost use Rattle.nodejs_semver.specs.Words.{MemoryOnlyIf, NoValue, Parses, range_text, ReadsString};
ghost use Rattle.nodejs_semver.specs.Words.{string, string_bytes, version_text, VersionValue, view};

use crate::Range;
use semver_core::{Failure, SemverError, Version};
use serde_json::Value;
use std::alloc::{AllocError, Global};

/// Returns the string of the printed version. Fails only if allocation fails.
pub fn version_to_value(alloc: Global, version: &Version) -> Result<Value, AllocError>
    ensures { IfOk result (λ value. view value ≡ string (version_text version.now)) }
{
    Ok(Value::String(version.to_string(alloc)?))
}

/// Reads the version of a JSON string, as `Version::parse` does. Returns `SemverError` if the value
/// is not a string or its text has no version; the only other error is an allocation failure.
pub fn version_from_value(alloc: Global, value: &Value) -> Result<Version, Failure<SemverError>>
    ensures reads { ReadsString (Parses MAX_SAFE_INTEGER)
        (λ text. NoValue (Parses MAX_SAFE_INTEGER text)) (as_str (view value.now)) result }
    // Allocation fails only for a string with a version that has identifiers.
    ensures memory { MemoryOnlyIf result (IsSomeAnd (as_str (view value.now)) (λ text.
        (v : VersionValue) × Parses MAX_SAFE_INTEGER text v × HasIdentifiers v)) }
{
    match value.as_str() {
        Some(text) => Version::parse(alloc, text),
        None => Err(Failure::Refused(SemverError)),
    }
}

/// Returns the compact JSON text of the printed version, quotes and escapes included. Fails only if
/// allocation fails.
pub fn version_to_json_text(alloc: Global, version: &Version) -> Result<String, AllocError>
    ensures { IfOk result (λ text.
        string_bytes text ≡ compact_text (string (version_text version.now))) }
{
    Value::String(version.to_string(alloc)?).to_string(alloc)
}

/// Reads the version of a JSON text, as `Version::parse` reads its string. Returns `SemverError` if
/// the text is not one JSON value, the value is not a string, or the string has no version; the
/// only other error is an allocation failure.
pub fn version_from_json_text(alloc: Global, text: &str) -> Result<Version, Failure<SemverError>>
    ensures reads { ReadsString (Parses MAX_SAFE_INTEGER)
        (λ text. NoValue (Parses MAX_SAFE_INTEGER text)) (json_string text.now) result }
    // Allocation fails only for a text that is not empty.
    ensures memory { MemoryOnlyIf result (0 < length text.now) }
{
    match Value::from_str(alloc, text) {
        Ok(value) => version_from_value(alloc, &value),
        Err(error) if error.is_memory() => Err(Failure::Memory(AllocError)),
        Err(_) => Err(Failure::Refused(SemverError)),
    }
}

/// Returns the string of the printed range. Fails only if allocation fails.
pub fn range_to_value(alloc: Global, range: &Range) -> Result<Value, AllocError>
    ensures { IfOk result (λ value. view value ≡ string (range_text range.now)) }
{
    Ok(Value::String(range.to_string(alloc)?))
}

/// Reads the range of a JSON string, as `Range::parse` does. Returns `SemverError` if the value is
/// not a string or its text has no range; the only other error is an allocation failure.
pub fn range_from_value(alloc: Global, value: &Value) -> Result<Range, Failure<SemverError>>
    ensures reads { ReadsString (Means MAX_SAFE_INTEGER)
        (λ text. Means MAX_SAFE_INTEGER text []) (as_str (view value.now)) result }
    // Allocation fails only for a string.
    ensures memory { MemoryOnlyIf result (IsTrue (is_some (as_str (view value.now)))) }
{
    match value.as_str() {
        Some(text) => Range::parse(alloc, text),
        None => Err(Failure::Refused(SemverError)),
    }
}

/// Returns the compact JSON text of the printed range, quotes included. Fails only if allocation
/// fails.
pub fn range_to_json_text(alloc: Global, range: &Range) -> Result<String, AllocError>
    ensures { IfOk result (λ text.
        string_bytes text ≡ compact_text (string (range_text range.now))) }
{
    Value::String(range.to_string(alloc)?).to_string(alloc)
}

/// Reads the range of a JSON text, as `Range::parse` reads its string. Returns `SemverError` if the
/// text is not one JSON value, the value is not a string, or the string has no range; the only
/// other error is an allocation failure.
pub fn range_from_json_text(alloc: Global, text: &str) -> Result<Range, Failure<SemverError>>
    ensures reads { ReadsString (Means MAX_SAFE_INTEGER)
        (λ text. Means MAX_SAFE_INTEGER text []) (json_string text.now) result }
    // Allocation fails only for a text that is not empty.
    ensures memory { MemoryOnlyIf result (0 < length text.now) }
{
    match Value::from_str(alloc, text) {
        Ok(value) => range_from_value(alloc, &value),
        Err(error) if error.is_memory() => Err(Failure::Memory(AllocError)),
        Err(_) => Err(Failure::Refused(SemverError)),
    }
}
