// JSON values and texts of versions and ranges.

use super::{found_prints, is_refused, is_same, is_text, long_text};
use nodejs_semver::json::{
    range_from_json_text, range_from_value, range_to_json_text, range_to_value,
    version_from_json_text, version_from_value, version_to_json_text, version_to_value,
};
use nodejs_semver::{Identifier, Range, Version};
use serde_json::Value;
use std::alloc::Global;

// Whether there is a version, and its JSON text is this one.
fn writes(alloc: Global, version: Option<Version>, json: &str) -> bool {
    match version {
        Some(version) => is_text(version_to_json_text(alloc, &version), json),
        None => false,
    }
}

#[test]
fn version_to_json_text_has_quotes(rt: HostRuntime) {
    let version = Version::parse(rt.alloc(), "1.2.3-abc.123+build").ok();
    assert!(rt; writes(rt.alloc(), version, "\"1.2.3-abc.123+build\""));
}

// The list of one identifier of this text, whatever its characters.
fn one_identifier(alloc: Global, text: &str) -> Option<Vec<Identifier>> {
    match String::from_str(alloc, text) {
        Ok(text) => vec![in alloc; Identifier::AlphaNumeric(text)].ok(),
        Err(_) => None,
    }
}

// The version 1.2.3 with this text as the one identifier of its pre-release.
fn with_identifier(alloc: Global, text: &str) -> Option<Version> {
    match one_identifier(alloc, text) {
        Some(pre_release) => Version::new(alloc, 1, 2, 3, pre_release, Vec::new(alloc)).ok(),
        None => None,
    }
}

#[test]
fn version_to_json_text_escapes_quotes(rt: HostRuntime) {
    let version = with_identifier(rt.alloc(), "a\"b");
    assert!(rt; writes(rt.alloc(), version, "\"1.2.3-a\\\"b\""));
}

// JSON texts of version texts, and how the versions print.
const READ: &[(&str, &str)] = &[
    ("\"1.2.3-abc.123+build\"", "1.2.3-abc.123+build"),
    ("\"v1.2.3\"", "1.2.3"),
    ("\"\\u0031.2.3\"", "1.2.3"),
    (" \t\"1.2.3\"\n", "1.2.3"),
    ("\"1.2.3 \\ud83d\\ude00\"", "1.2.3"),
];

// Whether the JSON text is that of a version that prints as the text.
fn reads(alloc: Global, json: &str, text: &str) -> bool {
    found_prints(alloc, version_from_json_text(alloc, json).ok(), text)
}

#[test]
fn version_from_json_text_reads_the_string(rt: HostRuntime) {
    for &(json, text) in READ {
        assert!(rt; reads(rt.alloc(), json, text), "{json}");
    }
}

const REJECTED: &[&str] = &[
    "12",
    "\"1.2.3",
    "null",
    "[]",
    "1.5",
    "",
    "\"1.2.3\",",
    "\"1.2\"",
    "{\"a\":1.5}",
    "\"\\ud83d\"",
];

fn rejects(alloc: Global, json: &str) -> bool {
    is_refused(version_from_json_text(alloc, json).err())
}

#[test]
fn version_from_json_text_rejects_other_values(rt: HostRuntime) {
    for &json in REJECTED {
        assert!(rt; rejects(rt.alloc(), json), "{json}");
    }
}

fn rejects_deep(alloc: Global, depth: usize) -> bool {
    match long_text(alloc, "", "[", depth) {
        Ok(deep) => rejects(alloc, &deep),
        Err(_) => false,
    }
}

#[test]
fn version_from_json_text_rejects_deep_arrays(rt: HostRuntime) {
    assert!(rt; rejects_deep(rt.alloc(), 200));
}

// Whether the range of a text has this JSON text, and that is read as the range.
fn range_comes_back(alloc: Global, text: &str, json: &str) -> bool {
    match Range::parse(alloc, text) {
        Ok(range) => {
            is_text(range_to_json_text(alloc, &range), json)
                && is_same(range_from_json_text(alloc, json).ok(), &range)
        }
        Err(_) => false,
    }
}

#[test]
fn range_json_texts_come_back(rt: HostRuntime) {
    assert!(rt; range_comes_back(rt.alloc(), "^1.2", "\">=1.2.0 <2.0.0-0\""));
}

fn any_is_read(alloc: Global, json: &str) -> bool {
    match Range::any(alloc) {
        Ok(any) => is_same(range_from_json_text(alloc, json).ok(), &any),
        Err(_) => false,
    }
}

#[test]
fn range_from_json_text_reads_the_empty_string_as_any(rt: HostRuntime) {
    assert!(rt; any_is_read(rt.alloc(), "\"\""));
    assert!(rt; is_refused(range_from_json_text(rt.alloc(), "\"foo\"").err()));
}

// Whether the value is this string, and is read as a version of this text.
fn value_reads(alloc: Global, value: &Value, text: &str) -> bool {
    value.as_str() == Some(text) && found_prints(alloc, version_from_value(alloc, value).ok(), text)
}

fn value_comes_back(alloc: Global, version: &Version, text: &str) -> bool {
    match version_to_value(alloc, version) {
        Ok(value) => value_reads(alloc, &value, text),
        Err(_) => false,
    }
}

fn version_value_comes_back(alloc: Global, text: &str, printed: &str) -> bool {
    match Version::parse(alloc, text) {
        Ok(version) => value_comes_back(alloc, &version, printed),
        Err(_) => false,
    }
}

#[test]
fn version_values_come_back(rt: HostRuntime) {
    assert!(rt; version_value_comes_back(rt.alloc(), "v1.2.3-a", "1.2.3-a"));
    assert!(rt; is_refused(version_from_value(rt.alloc(), &Value::Null).err()));
}

// Whether the value is this string, and is read as the range.
fn value_reads_range(alloc: Global, value: &Value, range: &Range, text: &str) -> bool {
    value.as_str() == Some(text) && is_same(range_from_value(alloc, value).ok(), range)
}

fn value_of_range_comes_back(alloc: Global, range: &Range, text: &str) -> bool {
    match range_to_value(alloc, range) {
        Ok(value) => value_reads_range(alloc, &value, range, text),
        Err(_) => false,
    }
}

fn range_value_comes_back(alloc: Global, text: &str, printed: &str) -> bool {
    match Range::parse(alloc, text) {
        Ok(range) => value_of_range_comes_back(alloc, &range, printed),
        Err(_) => false,
    }
}

#[test]
fn range_values_come_back(rt: HostRuntime) {
    let printed = ">=1.0.0 <2.0.0-0||>=2.0.0 <3.0.0-0";
    assert!(rt; range_value_comes_back(rt.alloc(), "1 || 2", printed));
    assert!(rt; is_refused(range_from_value(rt.alloc(), &Value::Null).err()));
}
