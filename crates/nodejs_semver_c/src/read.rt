// Texts that come from C are read.

ghost use Rattle.nodejs_semver_c.specs.Answers.{IsRangeOf, IsVersionOf};
ghost use Rattle.nodejs_semver_c.specs.Answers.{RefusesRange, RefusesText, RefusesVersion};
ghost use Rattle.nodejs_semver_c.specs.Internal.Failures.{IsFailure};
ghost use Rattle.nodejs_semver_c.specs.Kept.{kept_value};
ghost use Rattle.nodejs_semver_c.specs.KeptRanges.{kept_span};
ghost use Rattle.nodejs_semver_c.specs.Readings.{IsWide, Spells, SpellsNoRange, SpellsRange};
ghost use Rattle.nodejs_semver_c.specs.Readings.{WantsMemory, reading_of};
ghost use Rattle.semver_core.specs.Failures.{NoValue};
ghost use Rattle.semver_core.specs.Printing.Text.{version_text};
ghost use Rattle.semver_core.specs.Text.Identifiers.{is_listed};
ghost use Rattle.semver_core.specs.Values.Versions.{VersionValue};
ghost use Rattle.std.specs.Prelude.{◌∷◌, ◌≡◌, ◌⊎◌, [], IfErr, IfOk, IfSome, IsTrue, IsUtf8, false};
ghost use Rattle.std.specs.Prelude.{true};

use crate::common::{release, release_front, with_lists};
use crate::intervals::Interval;
use crate::kept::{Version, lent};
use crate::range_words::range_word;
use crate::{
    BAD_ARGUMENT, BAD_RANGE, BAD_VERSION, NO_MEMORY, NOT_UTF8, READING_NPM, READING_NPM_LOOSE,
    READING_PORT, TOO_LONG,
};
use nodejs_semver::{Failure, RangeRef, SemverError, VersionRef};
use npm_reading::Reading;
use std::alloc::Global;

// How many bytes memory may hold, and how many texts, of 16 bytes each in an array. Rattle counts
// on this, and a caller in C may pass more.
pub const MOST_BYTES: usize = 9_223_372_036_854_775_807;

pub const MOST_TEXTS: usize = 576_460_752_303_423_487;

/// The text of some bytes, or the status that rejects them.
#[inline(always)]
pub fn text(bytes: &[u8]) -> Result<&str, u32>
    ensures ok { IfOk result (λ text. (text.now ≡ bytes.now) × IsUtf8 bytes.now) }
    ensures refused { IfErr result (RefusesText bytes.now) }
{
    if bytes.len() > MOST_BYTES {
        return Err(TOO_LONG);
    }
    match str::from_utf8(bytes) {
        Ok(text) => Ok(text),
        Err(_) => Err(NOT_UTF8),
    }
}

/// By whose grammar the texts of a call are read.
#[derive(Clone, Copy)]
pub enum Grammar {
    /// As the port reads them: what is no version, or no word of a range, is ignored.
    Port,
    /// As node-semver reads them: strictly, or by its option `loose`.
    Npm {
        /// Whether the option is given.
        loose: bool,
    },
}

/// The grammar that a number of C stands for.
pub fn reading_of(reading: u32) -> Option<Grammar>
    ensures { result ≡ reading_of reading }
{
    match reading {
        READING_PORT => Some(Grammar::Port),
        READING_NPM => Some(Grammar::Npm { loose: false }),
        READING_NPM_LOOSE => Some(Grammar::Npm { loose: true }),
        _ => None,
    }
}

impl Grammar {
    #[inline(always)]
    fn spelled(self, text: &str) -> Result<VersionRef<'_>, SemverError>
        ensures ok { IfOk result (Spells self text.now) }
        ensures refused { IfErr result (λ _. NoValue (Spells self text.now)) }
    {
        match self {
            Grammar::Port => VersionRef::parse(text),
            Grammar::Npm { loose } => {
                let reading = Reading {
                    loose,
                    include_prerelease: false,
                };
                npm_reading::version(text, reading)
            }
        }
    }

    /// The range of a text, or why it is read as none.
    #[inline(always)]
    pub(crate) fn spelled_range(
        self,
        alloc: Global,
        include_prerelease: bool,
        text: &str,
    ) -> Result<RangeRef<'_>, Failure<SemverError>>
        ensures ok { IfOk result (SpellsRange self include_prerelease text.now) }
        ensures failed { IfErr result (IsFailure self include_prerelease text.now) }
    {
        match self {
            Grammar::Port => RangeRef::parse(alloc, text),
            Grammar::Npm { loose } => {
                let reading = Reading {
                    loose,
                    include_prerelease,
                };
                npm_reading::range(alloc, text, reading)
            }
        }
    }

    /// The status of a text that is read as no range.
    #[cold]
    pub(crate) fn status_of(
        self,
        include_prerelease: bool,
        text: &str,
        failure: &Failure<SemverError>,
    ) -> u32
        requires { IsFailure self include_prerelease text.now failure.now }
        ensures { ((result ≡ BAD_RANGE) × SpellsNoRange self include_prerelease text.now)
            ⊎ ((result ≡ NO_MEMORY) × WantsMemory self include_prerelease text.now) }
    {
        match failure {
            Failure::Refused(_) => BAD_RANGE,
            Failure::Memory(_) if self.rejects(include_prerelease, text) => BAD_RANGE,
            Failure::Memory(_) => NO_MEMORY,
        }
    }

    // Whether a text for which memory is missing is known to be no range.
    #[cold]
    fn rejects(self, include_prerelease: bool, text: &str) -> bool
        ensures some { IsWide self text.now
            → IsTrue result → SpellsNoRange self include_prerelease text.now }
        ensures none { IsWide self text.now
            → result ≡ false → WantsMemory self include_prerelease text.now }
    {
        match self {
            // No text is rejected that means two intervals.
            Grammar::Port => false,
            Grammar::Npm { loose: false } => {
                npm_reading::range_flaw(text, include_prerelease).is_some()
            }
            Grammar::Npm { loose: true } => false,
        }
    }
}

/// The version of a text that most versions have, or `None`. What it is depends on the reading.
#[inline(always)]
pub fn common_version(reading: u32, bytes: &[u8]) -> Option<Version<'_>>
    ensures { IfSome result (λ p. IsVersionOf reading bytes.now (kept_value p)
        × (is_listed p.pre_release.now ≡ true) × (is_listed p.build.now ≡ true)) }
{
    if reading > READING_NPM_LOOSE {
        return None;
    }
    let (release, rest) = release_front(bytes)?;
    if rest.is_empty() {
        return Some(release);
    }
    if reading == READING_PORT {
        return with_lists(&release, rest);
    }
    None
}

/// Whether a text is one of a release that prints as the text.
#[inline(always)]
pub fn is_printed_release(reading: u32, bytes: &[u8]) -> bool
    ensures { IsTrue result → (v : VersionValue) × IsVersionOf reading bytes.now v
        × (version_text v ≡ bytes.now) }
{
    reading <= READING_NPM_LOOSE && release(bytes).is_some()
}

/// The version of a text, or the status that rejects it.
#[inline(always)]
pub fn version(reading: u32, bytes: &[u8]) -> Result<VersionRef<'_>, u32>
    ensures ok { IfOk result (IsVersionOf reading bytes.now) }
    ensures refused { IfErr result (RefusesVersion reading bytes.now) }
{
    if let Some(version) = common_version(reading, bytes) {
        return Ok(lent(&version));
    }
    let version = any_version(reading, bytes)?;
    Ok(version)
}

// `version` of every text, as a call.
#[inline(never)]
fn any_version(reading: u32, bytes: &[u8]) -> Result<VersionRef<'_>, u32>
    ensures ok { IfOk result (IsVersionOf reading bytes.now) }
    ensures refused { IfErr result (RefusesVersion reading bytes.now) }
{
    let Some(reading) = reading_of(reading) else {
        return Err(BAD_ARGUMENT);
    };
    let text = text(bytes)?;
    match reading.spelled(text) {
        Ok(version) => Ok(version),
        Err(_) => Err(BAD_VERSION),
    }
}

/// The interval of a range text that most ranges have, or `None`.
#[inline(always)]
pub fn common_range(reading: u32, include_prerelease: bool, bytes: &[u8]) -> Option<Interval<'_>>
    ensures { IfSome result (λ i.
        IsRangeOf reading include_prerelease bytes.now (kept_span i ∷ [])) }
{
    if reading > READING_NPM {
        return None;
    }
    range_word(include_prerelease, bytes)
}

/// The range of a text, or the status that rejects it. npm may include pre-releases in it.
#[inline(always)]
pub fn range(
    alloc: Global,
    reading: u32,
    include_prerelease: bool,
    bytes: &[u8],
) -> Result<RangeRef<'_>, u32>
    ensures ok { IfOk result (IsRangeOf reading include_prerelease bytes.now) }
    ensures refused { IfErr result (RefusesRange reading include_prerelease bytes.now) }
{
    let Some(reading) = reading_of(reading) else {
        return Err(BAD_ARGUMENT);
    };
    let text = text(bytes)?;
    match reading.spelled_range(alloc, include_prerelease, text) {
        Ok(range) => Ok(range),
        Err(failure) => Err(reading.status_of(include_prerelease, text, &failure)),
    }
}
