// The calls on versions.

use crate::calls::show::{Outcome, found, no_values, read, show, show_debug};
use nodejs_semver::readers::{version_fast, version_loose};
use nodejs_semver::{Failure, Identifier, IncrementError, Version, VersionParts, VersionRef};
use semver_core::scan;
use std::alloc::Global;
use std::io;

const VERSION: &str = "1.2.3-a.1.b+c.2.d";

// Keys, and the versions that they are those of; and bytes that are no key.
const KEYS: &[(&[u8], &str)] = &[
    (b"\x01\x02\x03\x02a\0\x01\x01\x02b\0\0", "1.2.3-a.1.b"),
    (b"\x01\x02\x03\x03", "1.2.3"),
    (b"\x01\x02\x03\x02a\0", "1.2.3-a without its end"),
];

/// Makes each call on versions.
pub fn show_all(rt: &impl Print, alloc: Global) -> io::Result<()> {
    for text in [VERSION, "1.2.3", "1.2", "1.2-a.1.b"] {
        show(
            rt,
            "Version::parse",
            read(Version::parse(alloc, text)),
            &text,
        )?;
        show(
            rt,
            "version_loose",
            found(version_loose(alloc, text)),
            &text,
        )?;
        show(rt, "version_fast", found(version_fast(alloc, text)), &text)?;
        borrowed(rt, alloc, text)?;
    }
    show(
        rt,
        "Version::with_pre",
        Outcome::from(Version::with_pre(alloc, 1, 2, 3, 4)),
        &4,
    )?;
    from_texts(rt, alloc)?;
    for at in [6, 5, 1] {
        identifiers(rt, alloc, VERSION, at)?;
    }
    for &(key, text) in KEYS {
        let read = Version::from_key(alloc, key);
        show(rt, "Version::from_key", found(read), &text)?;
    }
    for text in [VERSION, "1.2.3"] {
        new(rt, alloc, text)?;
        into_parts(rt, alloc, text)?;
        copy(rt, alloc, text)?;
        parts_copy(rt, alloc, text)?;
        keys(rt, alloc, text)?;
        for (call, word) in [
            ("inc major", "major"),
            ("inc prerelease", "prerelease"),
            ("inc premajor", "premajor"),
            ("inc fake", "fake"),
        ] {
            inc(rt, alloc, text, call, word)?;
        }
    }
    errors(rt, alloc)
}

// The calls on a version that borrows its text: `to_version`, `to_list` and `inc` may allocate.
#[tactic(auto, unfolding(semver_core::specs::Text::Identifiers::is_listed))]
fn borrowed(rt: &impl Print, alloc: Global, text: &str) -> io::Result<()> {
    let call = "VersionRef::parse";
    let Ok(version) = VersionRef::parse(text) else {
        return show::<&str, &str>(rt, call, Outcome::Nothing, &text);
    };
    show(rt, call, Outcome::Value(version.copy()), &text)?;
    let identifiers = version.pre_release().len();
    show(
        rt,
        "VersionRef::pre_release",
        Outcome::Value(identifiers),
        &version,
    )?;
    let release = VersionRef::from_texts(1, 2, 3, b"", b"");
    show_debug(
        rt,
        "VersionRef::diff",
        Outcome::Value(version.diff(&release)),
        &version,
    )?;
    show(
        rt,
        "VersionRef::to_version",
        Outcome::from(version.to_version(alloc)),
        &version,
    )?;
    show_debug(
        rt,
        "IdentifierRefs::to_list",
        Outcome::from(version.pre_release().to_list(alloc)),
        &version,
    )?;
    show(
        rt,
        "VersionRef::inc",
        read(version.inc(alloc, "prerelease", Some("beta"), None)),
        &version,
    )
}

// The calls on texts of identifiers. For the pre-release 0 alone they never fail.
#[tactic(auto, unfolding(semver_core::specs::Text::Identifiers::is_listed))]
fn from_texts(rt: &impl Print, alloc: Global) -> io::Result<()> {
    let version = Version::from_texts(alloc, 1, 2, 3, b"a.1.b", b"c.2.d");
    show(rt, "Version::from_texts", Outcome::from(version), &"texts")?;
    let version = Version::from_texts(alloc, 1, 2, 3, b"0", b"");
    show(rt, "Version::from_texts", Outcome::from(version), &"0")?;
    let version = VersionRef::from_texts(1, 2, 3, b"0", b"");
    show(
        rt,
        "VersionRef::to_version",
        Outcome::from(version.to_version(alloc)),
        &version,
    )
}

fn identifiers(rt: &impl Print, alloc: Global, text: &str, at: usize) -> io::Result<()> {
    if at > text.len() {
        return no_values(rt, "scan::identifiers");
    }
    match scan::identifiers(alloc, text, at) {
        Ok(Some((list, end))) => println!(rt; "scan::identifiers: {list:?} to {end} from {text}"),
        Ok(None) => println!(rt; "scan::identifiers: nothing from {text}"),
        Err(_) => println!(rt; "scan::identifiers: memory from {text}"),
    }
}

fn parts_of(alloc: Global, text: &str) -> Option<VersionParts> {
    match Version::parse(alloc, text) {
        Ok(version) => version.into_parts(alloc).ok(),
        Err(_) => None,
    }
}

fn new(rt: &impl Print, alloc: Global, text: &str) -> io::Result<()> {
    let Some(parts) = parts_of(alloc, text) else {
        return no_values(rt, "Version::new");
    };
    match Version::new(alloc, 7, 8, 9, parts.pre_release, parts.build) {
        Ok(version) => println!(rt; "Version::new: {version} from {text}"),
        Err(parts) => println!(rt; "Version::new: memory from {parts:?}"),
    }
}

fn into_parts(rt: &impl Print, alloc: Global, text: &str) -> io::Result<()> {
    let Ok(version) = Version::parse(alloc, text) else {
        return no_values(rt, "Version::into_parts");
    };
    match version.into_parts(alloc) {
        Ok(parts) => println!(rt; "Version::into_parts: {parts:?} from {text}"),
        Err(version) => println!(rt; "Version::into_parts: memory from {version}"),
    }
}

fn copy(rt: &impl Print, alloc: Global, text: &str) -> io::Result<()> {
    let Ok(version) = Version::parse(alloc, text) else {
        return no_values(rt, "Version::copy");
    };
    show(
        rt,
        "Version::copy",
        Outcome::from(version.copy(alloc)),
        &version,
    )?;
    show_debug(
        rt,
        "Identifier::copy_list",
        Outcome::from(Identifier::copy_list(alloc, version.pre_release())),
        &version,
    )?;
    for identifier in version.build() {
        show(
            rt,
            "Identifier::copy",
            Outcome::from(identifier.copy(alloc)),
            identifier,
        )?;
    }
    Ok(())
}

fn parts_copy(rt: &impl Print, alloc: Global, text: &str) -> io::Result<()> {
    let Some(parts) = parts_of(alloc, text) else {
        return no_values(rt, "VersionParts::copy");
    };
    show_debug(
        rt,
        "VersionParts::copy",
        Outcome::from(parts.copy(alloc)),
        &text,
    )?;
    println!(rt; "VersionParts::copy left {parts:?}")
}

// The keys of a version, owned and borrowed, and added to bytes.
fn keys(rt: &impl Print, alloc: Global, text: &str) -> io::Result<()> {
    let Ok(version) = Version::parse(alloc, text) else {
        return no_values(rt, "Version::key");
    };
    show_debug(
        rt,
        "Version::key",
        Outcome::from(version.key(alloc)),
        &version,
    )?;
    let Ok(version) = VersionRef::parse(text) else {
        return no_values(rt, "VersionRef::key");
    };
    show_debug(
        rt,
        "VersionRef::key",
        Outcome::from(version.key(alloc)),
        &version,
    )
}

fn inc(rt: &impl Print, alloc: Global, text: &str, call: &str, word: &str) -> io::Result<()> {
    let Ok(version) = Version::parse(alloc, text) else {
        return no_values(rt, call);
    };
    let next = version.inc(alloc, word, Some("beta"), None);
    match next {
        Err(Failure::Refused(error)) => copy_error(rt, alloc, &error),
        next => show(rt, call, read(next), &version),
    }
}

fn copy_error(rt: &impl Print, alloc: Global, error: &IncrementError) -> io::Result<()> {
    show(
        rt,
        "IncrementError::copy",
        Outcome::from(error.copy(alloc)),
        error,
    )
}

fn errors(rt: &impl Print, alloc: Global) -> io::Result<()> {
    copy_error(rt, alloc, &IncrementError::Overflow)?;
    match String::from_str(alloc, "a/b") {
        Ok(text) => copy_error(rt, alloc, &IncrementError::InvalidIdentifier(text))?,
        Err(_) => no_values(rt, "IncrementError::copy")?,
    }
    match String::from_str(alloc, "1.2.3") {
        Ok(text) => copy_error(rt, alloc, &IncrementError::NotAPrerelease(text)),
        Err(_) => no_values(rt, "IncrementError::copy"),
    }
}
