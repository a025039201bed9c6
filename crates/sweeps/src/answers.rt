//! What the loose reading of node-semver's range texts answers, and the strict one of its version
//! texts with builds as they are written, for `bench/npm_readings`.

use nodejs_semver::{Failure, VersionRef};
use npm_reading::{ReadRange, Reading};
use std::alloc::{AllocError, Global};
use std::io;

/// Answers each question of a text by a line. A question is a range text and version texts joined
/// by `,`, with a NUL behind either. The line has an answer without pre-releases included and one
/// with them, joined by a blank: a digit for each version, 1 if the range accepts it, or `-` if the
/// range text is rejected. A text that is no version is left out.
pub fn answer_all(rt: &impl Print, alloc: Global, questions: &str) -> io::Result<()> {
    let loosely = Reading {
        loose: true,
        include_prerelease: false,
    };
    let mut fields = questions.split('\0');
    while let Some(range) = fields.next()
        && let Some(texts) = fields.next()
    {
        let versions: Vec<VersionRef<'_>> = texts
            .split(',')
            .filter_map(|text| npm_reading::version(text, loosely).ok())
            .collect(alloc)?;
        let without = answer(alloc, range, false, &versions)?;
        let with = answer(alloc, range, true, &versions)?;
        println!(rt; "{without} {with}")?;
    }
    Ok(())
}

// Which of the versions a range text accepts.
fn answer(
    alloc: Global,
    text: &str,
    include_prerelease: bool,
    versions: &[VersionRef<'_>],
) -> Result<String, AllocError> {
    let reading = Reading {
        loose: true,
        include_prerelease,
    };
    let range = match ReadRange::parse(alloc, text, reading) {
        Ok(range) => range,
        Err(Failure::Refused(_)) => return String::from_str(alloc, "-"),
        Err(Failure::Memory(error)) => return Err(error),
    };
    let mut digits = String::new(alloc);
    for version in versions {
        digits.push(if range.satisfies(version) { '1' } else { '0' })?;
    }
    Ok(digits)
}

/// Prints a line for each version text of a text, in which a NUL stands behind each: `-` if it is
/// no version in the strict reading, and else the version as it prints without its build, and then
/// `+` and the build as it is written if there is one.
pub fn show_versions(rt: &impl Print, alloc: Global, texts: &str) -> io::Result<()> {
    let Some(texts) = texts.strip_suffix('\0') else {
        return Ok(());
    };
    for text in texts.split('\0') {
        let shown = shown(alloc, text)?;
        println!(rt; "{shown}")?;
    }
    Ok(())
}

fn shown(alloc: Global, text: &str) -> Result<String, AllocError> {
    let reading = Reading::default();
    match (
        npm_reading::version(text, reading),
        npm_reading::build_text(text, reading),
    ) {
        (Ok(version), Some(build)) => with_build(alloc, &version, build),
        _ => String::from_str(alloc, "-"),
    }
}

// The version as it prints, with this text in place of its build.
fn with_build(alloc: Global, version: &VersionRef<'_>, build: &str) -> Result<String, AllocError> {
    let printed = version.to_string(alloc)?;
    let bare = before_plus(printed.as_str());
    if build.is_empty() {
        String::from_str(alloc, bare)
    } else {
        format!(in alloc; "{bare}+{build}")
    }
}

// The text in front of its first `+`, or all of it where there is none.
fn before_plus(text: &str) -> &str {
    match text.split_once('+') {
        Some((front, _)) => front,
        None => text,
    }
}
