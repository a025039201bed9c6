// The next version of one that the caller keeps.

ghost use Rattle.nodejs_semver_c.specs.Answers.{OnText};
ghost use Rattle.nodejs_semver_c.specs.Internal.Common.{IsNextRelease};
ghost use Rattle.nodejs_semver_c.specs.Kept.{OnKept};
ghost use Rattle.nodejs_semver_c.specs.KeptNext.{TellsByBase, TellsNext, TellsResult};
ghost use Rattle.nodejs_semver_c.specs.Numbers.{base_of};
ghost use Rattle.semver_core.specs.Increments.Table.{answer_of_inc};
ghost use Rattle.std.specs.Prelude.{◌≡◌, IfSome, Some};

use crate::common::is_printed;
use crate::kept::{Parts, Version, check, lent, tell, tell_printed};
use crate::versions::{base_of, next_version};
use crate::{BAD_ARGUMENT, read};
use nodejs_semver::{IdentifierBase, VersionRef};
use std::alloc::Global;

/// The next version by a word, as `minor` or `prerelease`. An empty identifier is none. The base,
/// one of `BASE_ZERO`, `BASE_ONE` and `BASE_NONE`, says what a new pre-release list begins to count
/// with. The version is told as `nodejs_semver_version_read` tells one.
///
/// An identifier that is digits, or has dots, goes into the list as one; what is told spells a
/// number, or several.
///
/// Returns `OK`, `TOO_SMALL`, `NOT_UTF8`, `BAD_VERSION`, `BAD_ARGUMENT`, `BAD_IDENTIFIER`,
/// `NOT_A_PRERELEASE`, `OVERFLOW`, `NO_MEMORY` or `TOO_LONG`.
#[unsafe(no_mangle)]
pub extern "C" fn nodejs_semver_next(
    alloc: Global,
    version: &Version<'_>,
    word: &[u8],
    identifier: &[u8],
    base: u32,
    parts: &mut Parts,
    out: &mut [u8],
) -> u32
    ensures { let same = (parts.new ≡ parts.old) × (out.new ≡ out.old) in
        OnKept version.now result same (λ v. OnText word.now result same (
        OnText identifier.now result same (TellsNext identifier.now
        (λ base. answer_of_inc v word.now (Some identifier.now) (Some base)) (base_of base)
        parts.old parts.new out.old out.new result))) }
{
    if let Err(status) = check(version) {
        return status;
    }
    if identifier.is_empty()
        && base_of(base).is_some()
        && is_printed(version.build)
        && let Some(next) = next_release(version, word)
    {
        return tell_printed(&next, parts, out);
    }
    let version = lent(version);
    let word = ok_or_return!(read::text(word));
    let identifier = ok_or_return!(read::text(identifier));
    tell_by_base(alloc, &version, word, identifier, base, parts, out)
}

// The next release by a word, of a release. `None` for the words that make a pre-release and for
// those that are none, and where a number cannot rise.
#[inline(always)]
fn next_release<'a>(version: &Version<'a>, word: &[u8]) -> Option<Version<'a>>
    ensures { IfSome result (λ next. IsNextRelease version.now word.now next) }
{
    let (major, minor, patch) = (version.major, version.minor, version.patch);
    if !version.pre_release.is_empty() {
        return None;
    }
    if word == b"major".as_slice() {
        Some(with_numbers(version, major.checked_add(1)?, 0, 0))
    } else if word == b"minor".as_slice() {
        Some(with_numbers(version, major, minor.checked_add(1)?, 0))
    } else if word == b"patch".as_slice() {
        Some(with_numbers(version, major, minor, patch.checked_add(1)?))
    } else {
        None
    }
}

// The version with these numbers.
#[inline(always)]
fn with_numbers<'a>(version: &Version<'a>, major: u64, minor: u64, patch: u64) -> Version<'a>
    ensures numbers { (result.major ≡ major) × (result.minor ≡ minor) × (result.patch ≡ patch) }
    ensures pre_release { result.pre_release ≡ version.now.pre_release }
    ensures build { result.build ≡ version.now.build }
{
    Version {
        major,
        minor,
        patch,
        pre_release: version.pre_release,
        build: version.build,
    }
}

#[inline(never)]
fn tell_by_base(
    alloc: Global,
    version: &VersionRef<'_>,
    word: &str,
    identifier: &str,
    base: u32,
    parts: &mut Parts,
    out: &mut [u8],
) -> u32
    ensures { TellsByBase
        (λ base. answer_of_inc version.now word.now (Some identifier.now) (Some base))
        (base_of base) parts.old parts.new out.old out.new result }
{
    match base_of(base) {
        Some(base) => tell_next(alloc, version, word, identifier, base, parts, out),
        None => BAD_ARGUMENT,
    }
}

fn tell_next(
    alloc: Global,
    version: &VersionRef<'_>,
    word: &str,
    identifier: &str,
    base: IdentifierBase,
    parts: &mut Parts,
    out: &mut [u8],
) -> u32
    ensures { TellsResult
        (answer_of_inc version.now word.now (Some identifier.now) (Some base))
        parts.old parts.new out.old out.new result }
{
    match next_version(alloc, version, word, identifier, base) {
        Ok(next) => tell(&next, parts, out),
        Err(status) => status,
    }
}
