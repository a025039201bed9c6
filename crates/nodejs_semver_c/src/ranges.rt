// Questions about a range.

ghost use Rattle.nodejs_semver.specs.Printing.Text.{range_text};
ghost use Rattle.nodejs_semver.specs.Ranges.Gate.{accepts};
ghost use Rattle.nodejs_semver.specs.Ranges.Least.{IsLeastOf, least_build, names_identifiers};
ghost use Rattle.nodejs_semver.specs.Ranges.Outside.{is_outside};
ghost use Rattle.nodejs_semver_c.specs.Answers.{Kept, NoMemoryOnlyIf, OnRange, OnVersion};
ghost use Rattle.nodejs_semver_c.specs.Answers.{Prints, PrintsFound};
ghost use Rattle.nodejs_semver_c.specs.Numbers.{side_of};
ghost use Rattle.semver_core.specs.Printing.Text.{version_text};
ghost use Rattle.semver_core.specs.Values.Versions.{VersionValue, is_release};
ghost use Rattle.semver_core.specs.declared.cuts.bound.Bound.TheVariants.{After};
ghost use Rattle.std.specs.List.{Any};
ghost use Rattle.std.specs.Prelude.{◌≡◌, ◌⊎◌, IfSome, Option, false, true};

use crate::asked::is_accepted;
use crate::print::{print, print_found};
use crate::read::reading_of;
use crate::{BAD_ARGUMENT, NO_MEMORY, OK, read};
use nodejs_semver::RangeRef;
use std::alloc::Global;

/// Prints the range of a text in its normal form: `^1.2` as `>=1.2.0 <2.0.0-0`.
///
/// Returns `OK`, `TOO_SMALL`, `BAD_ARGUMENT`, `NOT_UTF8`, `BAD_RANGE`, `NO_MEMORY` or `TOO_LONG`.
#[unsafe(no_mangle)]
pub extern "C" fn nodejs_semver_range_print(
    alloc: Global,
    reading: u32,
    range: &[u8],
    out: &mut [u8],
    len: &mut usize,
) -> u32
    ensures { OnRange reading false range.now result (Kept out.old out.new len.old len.new)
        (λ r. Prints (range_text r) out.old out.new len.old len.new result) }
{
    match read::range(alloc, reading, false, range) {
        Ok(range) => print(&range, out, len),
        Err(status) => status,
    }
}

/// Whether a range accepts a version. A pre-release is accepted only where a bound names one of the
/// same three numbers, unless pre-releases are included.
///
/// Returns `OK`, `BAD_ARGUMENT`, `NOT_UTF8`, `BAD_RANGE`, `BAD_VERSION`, `NO_MEMORY` or `TOO_LONG`.
#[unsafe(no_mangle)]
pub extern "C" fn nodejs_semver_range_satisfies(
    alloc: Global,
    reading: u32,
    range: &[u8],
    version: &[u8],
    include_prerelease: bool,
    answer: &mut bool,
) -> u32
    ensures { let kept = answer.new ≡ answer.old in
        OnRange reading include_prerelease range.now result kept (λ r.
        OnVersion reading version.now result kept (λ v.
        (result ≡ OK) × (answer.new ≡ accepts r v include_prerelease))) }
{
    if let Some(interval) = read::common_range(reading, include_prerelease, range)
        && let Some(version) = read::common_version(reading, version)
    {
        *answer = is_accepted(&[interval], &version, include_prerelease);
        return OK;
    }
    any_satisfies(alloc, reading, range, version, include_prerelease, answer)
}

// The same of all texts, as a call.
#[inline(never)]
fn any_satisfies(
    alloc: Global,
    reading: u32,
    range: &[u8],
    version: &[u8],
    include_prerelease: bool,
    answer: &mut bool,
) -> u32
    ensures { let kept = answer.new ≡ answer.old in
        OnRange reading include_prerelease range.now result kept (λ r.
        OnVersion reading version.now result kept (λ v.
        (result ≡ OK) × (answer.new ≡ accepts r v include_prerelease))) }
{
    let Some(grammar) = reading_of(reading) else {
        return BAD_ARGUMENT;
    };
    let text = ok_or_return!(read::text(range));
    // A range is long: it is asked where it is read.
    match &grammar.spelled_range(alloc, include_prerelease, text) {
        Ok(range) => tell_satisfies(range, reading, version, include_prerelease, answer),
        Err(failure) => grammar.status_of(include_prerelease, text, failure),
    }
}

// Whether a range accepts the version of a text.
fn tell_satisfies(
    range: &RangeRef<'_>,
    reading: u32,
    version: &[u8],
    include_prerelease: bool,
    answer: &mut bool,
) -> u32
    ensures { let kept = answer.new ≡ answer.old in
        OnVersion reading version.now result kept (λ v.
        (result ≡ OK) × (answer.new ≡ accepts range.now v include_prerelease)) }
{
    let version = ok_or_return!(read::version(reading, version));
    *answer = range.satisfies_with_prerelease(&version, include_prerelease);
    OK
}

/// Whether a version lies above a range, or below it where `above` is false: the range does not
/// accept it, and every interval of the range lies on the other side.
///
/// Returns `OK`, `BAD_ARGUMENT`, `NOT_UTF8`, `BAD_RANGE`, `BAD_VERSION`, `NO_MEMORY` or `TOO_LONG`.
#[unsafe(no_mangle)]
pub extern "C" fn nodejs_semver_range_outside(
    alloc: Global,
    reading: u32,
    range: &[u8],
    version: &[u8],
    above: bool,
    include_prerelease: bool,
    answer: &mut bool,
) -> u32
    ensures { let kept = answer.new ≡ answer.old in
        OnRange reading include_prerelease range.now result kept (λ r.
        OnVersion reading version.now result kept (λ v.
        (result ≡ OK) × (answer.new ≡ is_outside (side_of above) include_prerelease r v))) }
{
    let range = ok_or_return!(read::range(alloc, reading, include_prerelease, range));
    let version = ok_or_return!(read::version(reading, version));
    *answer = if above {
        npm_reading::gtr(&version, &range, include_prerelease)
    } else {
        npm_reading::ltr(&version, &range, include_prerelease)
    };
    OK
}

/// Prints the smallest version that a range accepts.
///
/// Returns `OK`, `NOTHING`, `TOO_SMALL`, `BAD_ARGUMENT`, `NOT_UTF8`, `BAD_RANGE`, `NO_MEMORY` or
/// `TOO_LONG`.
#[unsafe(no_mangle)]
pub extern "C" fn nodejs_semver_range_min_version(
    alloc: Global,
    reading: u32,
    range: &[u8],
    out: &mut [u8],
    len: &mut usize,
) -> u32
    ensures { let kept = Kept out.old out.new len.old len.new in
        OnRange reading false range.now result kept (λ r.
        ((found : Option VersionValue) × IsLeastOf (λ v. accepts r v false) found
        × IfSome found (λ v. v.build ≡ least_build r v)
        × PrintsFound version_text found out.old out.new len.old len.new result)
        ⊎ NoMemoryOnlyIf result kept ((names_identifiers r ≡ true)
        × (((v : VersionValue) × (accepts r v false ≡ true))
        ⊎ Any (λ s. (v : VersionValue) × (s.lower ≡ After v) × (is_release v ≡ false)) r))) }
{
    match read::range(alloc, reading, false, range) {
        Ok(range) => match range.min_version(alloc) {
            Ok(found) => print_found(found, out, len),
            Err(_) => NO_MEMORY,
        },
        Err(status) => status,
    }
}
