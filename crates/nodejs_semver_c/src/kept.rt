// Questions about versions that the caller keeps.

ghost use Rattle.nodejs_semver_c.specs.Answers.{Kept, OnVersion, Prints};
ghost use Rattle.nodejs_semver_c.specs.Internal.Keeps.{is_character};
ghost use Rattle.nodejs_semver_c.specs.Kept.{IsKept, OnKept, PutsVersion, RefusesKept, RefusesList};
ghost use Rattle.nodejs_semver_c.specs.Kept.{TellsVersion, kept_value, list_text};
ghost use Rattle.nodejs_semver_c.specs.Numbers.{kind_number, order_number};
ghost use Rattle.semver_core.specs.Difference.{kind_between, kind_up};
ghost use Rattle.semver_core.specs.Printing.Text.{version_text};
ghost use Rattle.semver_core.specs.Text.Identifiers.{is_listed, listed};
ghost use Rattle.semver_core.specs.Values.Order.{build_order, precedence};
ghost use Rattle.semver_core.specs.declared.difference.VersionDiff.TheVariants.{Major, Minor};
ghost use Rattle.semver_core.specs.declared.difference.VersionDiff.TheVariants.{Patch, PreMajor};
ghost use Rattle.semver_core.specs.declared.difference.VersionDiff.TheVariants.{PreMinor, PrePatch};
ghost use Rattle.semver_core.specs.declared.difference.VersionDiff.TheVariants.{PreRelease};
ghost use Rattle.std.specs.Prelude.{◌&&◌, ◌++◌, ◌<◌, ◌==◌, ◌^◌, ◌≡◌, ◌⊎◌, IfErr, IfOk, OnOk};
ghost use Rattle.std.specs.Prelude.{if◌then◌else◌, length, not, true};

use crate::common::is_printed;
use crate::dotted::{cmp_lists, cmp_pre};
use crate::pieces::{put_bytes, put_ids};
use crate::print::{Printed, counted, print};
use crate::read::{self, MOST_BYTES};
use crate::versions::{kind_of, number_of};
use crate::{BAD_VERSION, OK, TOO_LONG, TOO_SMALL};
use nodejs_semver::{IdentifierRefs, VersionDiff, VersionRef, Versioned};
use semver_core::scan;
use std::cmp::Ordering;

/// A version in the memory of the caller.
#[repr(C)]
#[derive(Drop)]
pub struct Version<'a> {
    /// The first number.
    pub major: u64,
    /// The second number.
    pub minor: u64,
    /// The third number.
    pub patch: u64,
    /// The identifiers of the pre-release, joined by dots. A release has none.
    pub pre_release: &'a [u8],
    /// The identifiers of the build metadata, joined by dots.
    pub build: &'a [u8],
}

/// What is read of a version: its numbers, and how long the texts of its identifiers are.
#[repr(C)]
#[derive(Clone, Copy)]
pub struct Parts {
    /// The first number.
    pub major: u64,
    /// The second number.
    pub minor: u64,
    /// The third number.
    pub patch: u64,
    /// The length of the text of the pre-release.
    pub pre_release_len: usize,
    /// The length of the text of the build metadata.
    pub build_len: usize,
}

// Looks whether a text spells identifiers, or returns the status that rejects it. Most texts are
// empty, or the `0` below which a caret ends.
#[inline(always)]
#[tactic(auto, using(crate::proofs::Listing::short_lists))]
fn check_list(text: &[u8]) -> Result<(), u32>
    ensures ok { OnOk result (is_listed text.now ≡ true) }
    ensures refused { IfErr result (RefusesList text.now) }
{
    if text.is_empty() || is_character(text) {
        return Ok(());
    }
    check_some(text)
}

// Whether a text is one character of identifiers.
#[inline(always)]
fn is_character(text: &[u8]) -> bool
    ensures { result ≡ is_character text.now }
{
    matches!(text, [byte] if scan::is_identifier_char(*byte))
}

// `check_list` of a text that is not empty, as a call.
#[inline(never)]
#[tactic(auto, using(crate::proofs::Listing::whole_lists))]
fn check_some(text: &[u8]) -> Result<(), u32>
    requires { 0 < length text.now }
    ensures ok { OnOk result (is_listed text.now ≡ true) }
    ensures refused { IfErr result (RefusesList text.now) }
{
    if text.len() > MOST_BYTES {
        return Err(TOO_LONG);
    }
    if !scan::begins_identifier(text) || scan::list_len(text) < text.len() {
        return Err(BAD_VERSION);
    }
    Ok(())
}

/// Looks whether the texts of a version spell identifiers, or returns the status that rejects one.
#[inline(always)]
pub fn check(version: &Version<'_>) -> Result<(), u32>
    ensures ok { OnOk result (IsKept version.now (kept_value version.now)) }
    ensures refused { IfErr result (RefusesKept version.now) }
{
    check_list(version.pre_release)?;
    check_list(version.build)?;
    Ok(())
}

/// The version that the caller keeps, or the status that rejects a text of it.
#[inline(always)]
pub fn kept<'a>(version: &Version<'a>) -> Result<VersionRef<'a>, u32>
    ensures ok { IfOk result (IsKept version.now) }
    ensures refused { IfErr result (RefusesKept version.now) }
{
    check(version)?;
    Ok(lent(version))
}

/// The version that the caller keeps, whose texts spell identifiers.
#[inline(always)]
pub fn lent<'a>(version: &Version<'a>) -> VersionRef<'a>
    requires pre_release { is_listed version.now.pre_release.now ≡ true }
    requires build { is_listed version.now.build.now ≡ true }
    ensures { result ≡ kept_value version.now }
{
    VersionRef::from_texts(
        version.major,
        version.minor,
        version.patch,
        version.pre_release,
        version.build,
    )
}

/// The precedence of two versions. Their texts are looked at only where the numbers are equal.
#[inline(always)]
pub fn cmp_kept(version: &Version<'_>, other: &Version<'_>) -> Ordering
    ensures { result ≡ precedence (kept_value version.now) (kept_value other.now) }
{
    match version.major.cmp(&other.major) {
        Ordering::Equal => match version.minor.cmp(&other.minor) {
            Ordering::Equal => match version.patch.cmp(&other.patch) {
                Ordering::Equal => cmp_pre(version.pre_release, other.pre_release),
                order => order,
            },
            order => order,
        },
        order => order,
    }
}

impl<'a> Printed for IdentifierRefs<'a> {
    ghost text = { λ ids. list_text ids };

    fn put(&self, out: &mut [u8], len: &mut usize) {
        put_ids(self.copy(), out, len);
    }
}

/// Reads a version, so that it can be kept: `parts` gets its numbers and how long the texts of its
/// identifiers are, and `out` gets these texts, that of the build metadata behind that of the
/// pre-release. If the buffer is too small, `parts` alone is written.
///
/// Returns `OK`, `TOO_SMALL`, `BAD_ARGUMENT`, `NOT_UTF8`, `BAD_VERSION` or `TOO_LONG`.
#[unsafe(no_mangle)]
pub extern "C" fn nodejs_semver_version_read(
    reading: u32,
    version: &[u8],
    parts: &mut Parts,
    out: &mut [u8],
) -> u32
    ensures { let same = (parts.new ≡ parts.old) × (out.new ≡ out.old) in
        OnVersion reading version.now result same (λ v.
        TellsVersion v parts.old parts.new out.old out.new result) }
{
    if let Some(version) = read::common_version(reading, version)
        && is_printed(version.pre_release)
        && is_printed(version.build)
    {
        return tell_printed(&version, parts, out);
    }
    match read::version(reading, version) {
        Ok(version) => tell(&version, parts, out),
        Err(status) => status,
    }
}

/// Tells the parts of a version whose lists print as their texts. Mostly there are none.
#[inline(always)]
pub fn tell_printed(version: &Version<'_>, parts: &mut Parts, out: &mut [u8]) -> u32
    requires pre_release { list_text (listed version.now.pre_release.now)
        ≡ version.now.pre_release.now }
    requires build { list_text (listed version.now.build.now) ≡ version.now.build.now }
    ensures { PutsVersion (kept_value version.now) parts.old parts.new out.old out.new result }
{
    let (pre_release, build) = (version.pre_release, version.build);
    let size = pre_release.len().saturating_add(build.len());
    if size > MOST_BYTES {
        return TOO_LONG;
    }
    *parts = Parts {
        major: version.major,
        minor: version.minor,
        patch: version.patch,
        pre_release_len: pre_release.len(),
        build_len: build.len(),
    };
    if size == 0 {
        return OK;
    }
    if out.len() < size {
        return TOO_SMALL;
    }
    let mut end = 0;
    put_bytes(pre_release, out, &mut end);
    put_bytes(build, out, &mut end);
    OK
}

/// Tells the parts of a version, and puts its texts to the front of a buffer.
pub fn tell<V: Versioned>(version: &V, parts: &mut Parts, out: &mut [u8]) -> u32
    ensures { PutsVersion (V.value version.now) parts.old parts.new out.old out.new result }
{
    let (pre_release, build) = (version.pre_release(), version.build());
    let pre_release_len = counted(&pre_release);
    let build_len = counted(&build);
    let needed = pre_release_len.saturating_add(build_len);
    if needed > MOST_BYTES {
        return TOO_LONG;
    }
    *parts = Parts {
        major: version.major(),
        minor: version.minor(),
        patch: version.patch(),
        pre_release_len,
        build_len,
    };
    if out.len() < needed {
        return TOO_SMALL;
    }
    let mut end = 0;
    put_ids(pre_release, out, &mut end);
    put_ids(build, out, &mut end);
    OK
}

/// Whether the texts of a version spell identifiers: the status is `OK` or says why not.
///
/// Returns `OK`, `BAD_VERSION` or `TOO_LONG`.
#[unsafe(no_mangle)]
pub extern "C" fn nodejs_semver_check(version: &Version<'_>) -> u32
    ensures { ((result ≡ OK) × IsKept version.now (kept_value version.now))
        ⊎ RefusesKept version.now result }
{
    match check(version) {
        Ok(()) => OK,
        Err(status) => status,
    }
}

/// How the first version compares to the second: `order` gets -1, 0 or 1. Build metadata does not
/// count. Texts that spell no identifiers are compared too, cut at their dots.
///
/// Returns `OK`.
#[unsafe(no_mangle)]
pub extern "C" fn nodejs_semver_order(
    version: &Version<'_>,
    other: &Version<'_>,
    order: &mut i32,
) -> u32
    ensures { (result ≡ OK) × (order.new
        ≡ order_number (precedence (kept_value version.now) (kept_value other.now))) }
{
    *order = number_of(cmp_kept(version, other));
    OK
}

/// How the first version compares to the second: `order` gets -1, 0 or 1. Of equal versions the
/// build metadata decides, identifier by identifier. Texts that spell no identifiers are compared
/// too, cut at their dots.
///
/// Returns `OK`.
#[unsafe(no_mangle)]
pub extern "C" fn nodejs_semver_order_with_builds(
    version: &Version<'_>,
    other: &Version<'_>,
    order: &mut i32,
) -> u32
    ensures { (result ≡ OK) × (order.new
        ≡ order_number (build_order (kept_value version.now) (kept_value other.now))) }
{
    *order = number_of(match cmp_kept(version, other) {
        Ordering::Equal => cmp_lists(version.build, other.build),
        decided => decided,
    });
    OK
}

/// The kind of difference between two versions: `kind` gets one of `KIND_NONE` to
/// `KIND_PRERELEASE`. Texts that spell no identifiers are compared too, cut at their dots.
///
/// Returns `OK`.
#[unsafe(no_mangle)]
pub extern "C" fn nodejs_semver_kind(
    version: &Version<'_>,
    other: &Version<'_>,
    kind: &mut u32,
) -> u32
    ensures { (result ≡ OK) × (kind.new
        ≡ kind_number (kind_between (kept_value version.now) (kept_value other.now))) }
{
    *kind = kind_of(match cmp_kept(version, other) {
        Ordering::Less => Some(kind_up(version, other)),
        Ordering::Equal => None,
        Ordering::Greater => Some(kind_up(other, version)),
    });
    OK
}

// The kind that a version and a higher one differ by.
#[tactic(auto, using(semver_core::proofs::Text::Firsts::spelled_release))]
fn kind_up(low: &Version<'_>, high: &Version<'_>) -> VersionDiff
    ensures { result ≡ kind_up (kept_value low.now) (kept_value high.now) }
{
    match (low.pre_release.is_empty(), high.pre_release.is_empty()) {
        (false, true) => kind_released(low, high),
        (true, true) => kind_of_numbers(low, high, true),
        (_, false) => kind_of_numbers(low, high, false),
    }
}

// The kind by the first of the numbers that differs.
#[inline(always)]
fn kind_of_numbers(low: &Version<'_>, high: &Version<'_>, to_release: bool) -> VersionDiff
    ensures { result
        ≡ (if not (low.now.major == high.now.major) then (if to_release then Major else PreMajor)
        else if not (low.now.minor == high.now.minor) then (if to_release then Minor else PreMinor)
        else if not (low.now.patch == high.now.patch) then (if to_release then Patch else PrePatch)
        else PreRelease) }
{
    if low.major != high.major {
        return if to_release {
            VersionDiff::Major
        } else {
            VersionDiff::PreMajor
        };
    }
    if low.minor != high.minor {
        return if to_release {
            VersionDiff::Minor
        } else {
            VersionDiff::PreMinor
        };
    }
    if low.patch != high.patch {
        return if to_release {
            VersionDiff::Patch
        } else {
            VersionDiff::PrePatch
        };
    }
    VersionDiff::PreRelease
}

// The kind that a pre-release and a higher release differ by.
fn kind_released(low: &Version<'_>, high: &Version<'_>) -> VersionDiff
    ensures { result ≡ (if low.now.minor == 0 && low.now.patch == 0 then Major
        else if not (high.now.patch == 0) then Patch
        else if not (high.now.minor == 0) then Minor else Major) }
{
    if low.minor == 0 && low.patch == 0 {
        return VersionDiff::Major;
    }
    if high.patch != 0 {
        return VersionDiff::Patch;
    }
    if high.minor != 0 {
        return VersionDiff::Minor;
    }
    VersionDiff::Major
}

/// Prints a version.
///
/// Returns `OK`, `TOO_SMALL`, `BAD_VERSION` or `TOO_LONG`.
#[unsafe(no_mangle)]
pub extern "C" fn nodejs_semver_print(version: &Version<'_>, out: &mut [u8], len: &mut usize) -> u32
    ensures { OnKept version.now result (Kept out.old out.new len.old len.new)
        (λ v. Prints (version_text v) out.old out.new len.old len.new result) }
{
    match kept(version) {
        Ok(version) => print(&version, out, len),
        Err(status) => status,
    }
}
