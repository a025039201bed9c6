// Keys of versions: that they are written and read, and some of the vectors of data/keys.txt.

use super::{is_same, one_identifier, text_identifier};
use semver_core::{Version, VersionRef, Versioned, laws};
use std::alloc::Global;
use std::test::Fail;

// Versions, and their keys by the table of the format.
const KEYS: &[(&str, &[u8])] = &[
    ("1.2.3", &[1, 2, 3, 3]),
    ("1.2.3+build", &[1, 2, 3, 3]),
    ("250.251.255", &[250, 251, 0, 251, 251, 0, 255, 3]),
    ("65535.65536.0", &[251, 255, 255, 252, 0, 1, 0, 0, 0, 3]),
    ("4294967295.0.0", &[252, 255, 255, 255, 255, 0, 0, 3]),
    ("4294967296.0.0", &[253, 0, 0, 0, 1, 0, 0, 0, 0, 0, 0, 3]),
    (
        "9007199254740991.0.0",
        &[253, 0, 31, 255, 255, 255, 255, 255, 255, 0, 0, 3],
    ),
    ("0.0.0-0", &[0, 0, 0, 1, 0, 0]),
    ("1.10.0-rc.2", &[1, 10, 0, 2, b'r', b'c', 0, 1, 2, 0]),
    ("1.2.3-250.251", &[1, 2, 3, 1, 250, 1, 251, 0, 251, 0]),
    (
        "1.2.3-00a.-+1",
        &[1, 2, 3, 2, b'0', b'0', b'a', 0, 2, b'-', 0, 0],
    ),
];

// Bytes that are no key: too few or too many, a longer form of a number, an empty pre-release, an
// unknown mark, and a text that is no UTF-8.
const NO_KEYS: &[&[u8]] = &[
    &[],
    &[1, 2, 3],
    &[1, 2, 3, 3, 3],
    &[1, 2, 3, 0],
    &[1, 2, 251, 0, 250, 3],
    &[252, 0, 0, 255, 255, 0, 0, 3],
    &[253, 0, 0, 0, 0, 255, 255, 255, 255, 0, 0, 3],
    &[254, 0, 0, 3],
    &[1, 2, 3, 4, 0],
    &[1, 2, 3, 1, 251, 0, 1, 0],
    &[1, 2, 3, 2, 255, 0, 0],
    &[1, 2, 3, 2, b'a', 0],
];

// Whether the version of the text has this key, owned and borrowed.
fn has_key(alloc: Global, text: &str, key: &[u8]) -> bool {
    owned_has_key(alloc, text, key) && borrowed_has_key(alloc, text, key)
}

fn owned_has_key(alloc: Global, text: &str, key: &[u8]) -> bool {
    match Version::parse(alloc, text) {
        Ok(version) => match version.key(alloc) {
            Ok(bytes) => bytes.as_slice() == key,
            Err(_) => false,
        },
        Err(_) => false,
    }
}

fn borrowed_has_key(alloc: Global, text: &str, key: &[u8]) -> bool {
    match VersionRef::parse(text) {
        Ok(version) => match version.key(alloc) {
            Ok(bytes) => bytes.as_slice() == key,
            Err(_) => false,
        },
        Err(_) => false,
    }
}

// Whether the key is read as the version of the text.
fn is_read(alloc: Global, text: &str, key: &[u8]) -> bool {
    match Version::parse(alloc, text) {
        Ok(version) => is_same(Version::from_key(alloc, key).unwrap_or(None), &version),
        Err(_) => false,
    }
}

// Whether the bytes are rejected.
fn is_no_key(alloc: Global, bytes: &[u8]) -> bool {
    match Version::from_key(alloc, bytes) {
        Ok(found) => found.is_none(),
        Err(_) => false,
    }
}

#[test]
fn vectors(rt: HostRuntime) {
    let alloc = rt.alloc();
    for (text, key) in KEYS {
        assert!(rt; has_key(alloc, text, key), "{text}");
        assert!(rt; is_read(alloc, text, key), "{text}");
    }
}

#[test]
fn no_keys(rt: HostRuntime) {
    let alloc = rt.alloc();
    for bytes in NO_KEYS {
        assert!(rt; is_no_key(alloc, bytes));
    }
}

// Whether the version whose one identifier is this text has this key, and is read from it.
fn keeps(alloc: Global, text: &str, key: &[u8]) -> bool {
    match with_text(alloc, text) {
        Some(version) => {
            let written = match version.key(alloc) {
                Ok(bytes) => bytes.as_slice() == key,
                Err(_) => false,
            };
            written && is_same(Version::from_key(alloc, key).unwrap_or(None), &version)
        }
        None => false,
    }
}

// The version 1.2.3 with this text as its one identifier.
fn with_text(alloc: Global, text: &str) -> Option<Version> {
    let list = one_identifier(alloc, text_identifier(alloc, text))?;
    Version::new(alloc, 1, 2, 3, list, Vec::new(alloc)).ok()
}

#[test]
fn any_text(rt: HostRuntime) {
    let alloc = rt.alloc();
    assert!(rt; keeps(alloc, "", &[1, 2, 3, 2, 0, 0]));
    assert!(rt; keeps(alloc, "\0a\0", &[1, 2, 3, 2, 0, 255, b'a', 0, 255, 0, 0]));
    assert!(rt; keeps(alloc, "\u{e9}", &[1, 2, 3, 2, 195, 169, 0, 0]));
}

#[test]
fn law(_rt: HostRuntime) {
    laws::keys();
}
