// How npm reads ranges and locked versions: here alone such texts are read.
//
// `npm ls` asks node-semver's loose reading. Versions are read so. Of ranges the strict reading
// decides, which reads every range that a registry takes, and of a text that it rejects the loose
// one. A text that both reject is no range to npm. The loose reading here differs from
// node-semver's for a few texts: what npm reads in a text that may be one of them is unknown.

ghost use Rattle.lock_check.specs.Readings.{HasAlternatives, IsNpmRange, MayDiffer, has_great};
ghost use Rattle.lock_files.specs.Documents.{IsUnmarked};
ghost use Rattle.nodejs_semver.specs.Failures.{NoValue};
ghost use Rattle.npm_words.specs.Alternatives.{HasAlternativesIn};
ghost use Rattle.npm_reading.specs.Ranges.{IsRangeIn};
ghost use Rattle.npm_words.specs.VersionText.{IsLooseVersionText};
ghost use Rattle.std.specs.Prelude.{◌≡◌, ◌↔◌, IfNone, IfOk, IfSome, IsTrue, OnErr};
ghost use Rattle.std.specs.Prelude.{false, true};

use nodejs_semver::{Failure, MAX_SAFE_INTEGER, RangeRef, VersionRef};
use npm_reading::Reading;
use std::alloc::{AllocError, Global};

/// What npm reads in a text in place of a range.
#[derive(Drop)]
pub enum NpmRange<'a> {
    /// This range.
    Read(RangeRef<'a>),
    /// No range.
    Rejected,
    /// Unknown: it may be another range than the one that is read here, or none.
    Unsure,
}

/// The range that node-semver's strict reading finds in a text, or its loose one, or `None` if it
/// rejects the text. Fails only if an allocation fails, for a text with `||`.
pub fn read_range(
    alloc: Global,
    loose: bool,
    text: &str,
) -> Result<Option<RangeRef<'_>>, AllocError>
    ensures some { IfOk result (λ r. IfSome r (IsRangeIn loose MAX_SAFE_INTEGER false text.now)) }
    ensures none { IfOk result (λ r. IfNone r
        (NoValue (HasAlternativesIn loose MAX_SAFE_INTEGER false text.now))) }
    ensures memory { OnErr result (HasAlternatives text.now) }
{
    let reading = Reading {
        loose,
        include_prerelease: false,
    };
    Failure::refused_as_none(npm_reading::range(alloc, text, reading))
}

/// What npm reads in a text in place of a range. Fails only if an allocation fails, for a text with
/// `||`.
pub fn range(alloc: Global, text: &str) -> Result<NpmRange<'_>, AllocError>
    ensures read { IfOk result (IsNpmRange text.now) }
    ensures memory { OnErr result (HasAlternatives text.now) }
{
    if let Some(range) = read_range(alloc, false, text)? {
        return Ok(NpmRange::Read(range));
    }
    if may_differ(text) {
        return Ok(NpmRange::Unsure);
    }
    match read_range(alloc, true, text)? {
        Some(range) => Ok(NpmRange::Read(range)),
        None if has_great(text.as_bytes()) => Ok(NpmRange::Unsure),
        None => Ok(NpmRange::Rejected),
    }
}

// Whether node-semver's loose reading may find another range than the one here: it passes over a
// `*` in a word that is else a whole version, and counts more than 250 characters otherwise.
fn may_differ(text: &str) -> bool
    ensures { IsTrue result ↔ MayDiffer text.now }
{
    text.contains("*") || text.len() > 250
}

// Whether node-semver's loose reading may find a range where the one here rejects the text: where a
// number is 10^21 or more once it is counted up.
fn has_great(text: &[u8]) -> bool
    ensures { result ≡ has_great text.now }
{
    text.split(|byte| !byte.is_ascii_digit())
        .any(|run| run.len() > 20)
}

/// The version that is locked by a text, as node-semver's loose reading finds it, or `None` if the
/// text is no version.
pub fn version(text: &str) -> Option<VersionRef<'_>>
    ensures some { IfSome result (IsLooseVersionText MAX_SAFE_INTEGER text.now) }
    ensures none { IfNone result (NoValue (IsLooseVersionText MAX_SAFE_INTEGER text.now)) }
{
    let reading = Reading {
        loose: true,
        include_prerelease: false,
    };
    match npm_reading::version(text, reading) {
        Ok(version) => Some(version),
        Err(_) => None,
    }
}
