// The calls on JSON values and texts.

use crate::memory::ample::Calls;
use nodejs_semver::json::{
    range_from_json_text, range_from_value, range_to_json_text, range_to_value,
    version_from_json_text, version_from_value, version_to_json_text, version_to_value,
};
use nodejs_semver::{Range, Version};
use std::alloc::{AllocError, Global};

const WRONG: &[&str] = &[
    "12",
    "1.5",
    "true",
    "false",
    "[1, {}]",
    "null",
    "\"1.2",
    "{\"a\": \"^1\"} x",
];

// A function that owns a value has no exit while it owns it: each would let go of the value.

/// Makes each call on the JSON value and text of a version.
pub fn ask_version(alloc: Global, calls: &mut Calls, version: &Version) -> Result<(), AllocError> {
    version_by_value(alloc, calls, version)?;
    version_by_text(alloc, calls, version)?;
    for &wrong in WRONG {
        calls.tried(version_from_json_text(alloc, wrong))?;
    }
    Ok(())
}

fn version_by_value(alloc: Global, calls: &mut Calls, version: &Version) -> Result<(), AllocError> {
    match calls.made(version_to_value(alloc, version)) {
        Ok(value) => calls.tried(version_from_value(alloc, &value)),
        Err(error) => Err(error),
    }
}

fn version_by_text(alloc: Global, calls: &mut Calls, version: &Version) -> Result<(), AllocError> {
    match calls.made(version_to_json_text(alloc, version)) {
        Ok(text) => calls.tried(version_from_json_text(alloc, &text)),
        Err(error) => Err(error),
    }
}

/// Makes each call on the JSON value and text of a range.
pub fn ask_range(alloc: Global, calls: &mut Calls, range: &Range) -> Result<(), AllocError> {
    range_by_value(alloc, calls, range)?;
    range_by_text(alloc, calls, range)?;
    for &wrong in WRONG {
        calls.tried(range_from_json_text(alloc, wrong))?;
    }
    Ok(())
}

fn range_by_value(alloc: Global, calls: &mut Calls, range: &Range) -> Result<(), AllocError> {
    match calls.made(range_to_value(alloc, range)) {
        Ok(value) => calls.tried(range_from_value(alloc, &value)),
        Err(error) => Err(error),
    }
}

fn range_by_text(alloc: Global, calls: &mut Calls, range: &Range) -> Result<(), AllocError> {
    match calls.made(range_to_json_text(alloc, range)) {
        Ok(text) => calls.tried(range_from_json_text(alloc, &text)),
        Err(error) => Err(error),
    }
}
