// Versions with as many identifiers as stand inline, and with more.

use super::{found_prints, prints};
use semver_core::{Version, VersionParts};
use std::alloc::{AllocError, Global};

const IDENTIFIERS: &[usize] = &[0, 1, 2, 3, 20];

// Appends so many identifiers behind a mark, as in `-a.7.a`.
fn push_identifiers(text: &mut String, mark: char, count: usize) -> Result<(), AllocError> {
    for place in 0..count {
        text.push(if place == 0 { mark } else { '.' })?;
        text.push(if place % 2 == 0 { 'a' } else { '7' })?;
    }
    Ok(())
}

fn version_text(alloc: Global, pre_release: usize, build: usize) -> Result<String, AllocError> {
    let mut text = String::from_str(alloc, "1.2.3")?;
    push_identifiers(&mut text, '-', pre_release)?;
    push_identifiers(&mut text, '+', build)?;
    Ok(text)
}

fn parts_print(alloc: Global, parts: VersionParts, text: &str) -> bool {
    match Version::new(
        alloc,
        parts.major,
        parts.minor,
        parts.patch,
        parts.pre_release,
        parts.build,
    ) {
        Ok(version) => prints(alloc, &version, text),
        Err(_) => false,
    }
}

fn rebuilt_prints(alloc: Global, version: Version, text: &str) -> bool {
    match version.into_parts(alloc) {
        Ok(parts) => parts_print(alloc, parts, text),
        Err(_) => false,
    }
}

// Whether the version of a text prints as that text, copied and rebuilt too.
fn version_is_kept(alloc: Global, text: &str, pre_release: usize, build: usize) -> bool {
    match Version::parse(alloc, text) {
        Ok(version) => {
            version.pre_release().len() == pre_release
                && version.build().len() == build
                && prints(alloc, &version, text)
                && found_prints(alloc, version.copy(alloc).ok(), text)
                && rebuilt_prints(alloc, version, text)
        }
        Err(_) => false,
    }
}

// Whether the version of so many identifiers keeps them.
fn keeps_identifiers(alloc: Global, pre_release: usize, build: usize) -> bool {
    match version_text(alloc, pre_release, build) {
        Ok(text) => version_is_kept(alloc, &text, pre_release, build),
        Err(_) => false,
    }
}

#[test]
fn versions_keep_their_identifiers(rt: HostRuntime) {
    for &pre_release in IDENTIFIERS {
        for &build in IDENTIFIERS {
            assert!(rt;
                keeps_identifiers(rt.alloc(), pre_release, build),
                "{pre_release} and {build}"
            );
        }
    }
}
