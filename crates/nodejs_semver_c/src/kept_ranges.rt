// Questions about ranges that the caller keeps, and versions that it keeps.

ghost use Rattle.nodejs_semver.specs.Printing.Text.{range_text};
ghost use Rattle.nodejs_semver.specs.Ranges.Algebra.{covers_one, intersection};
ghost use Rattle.nodejs_semver.specs.Ranges.Best.{IsMax, IsMin, replaces};
ghost use Rattle.nodejs_semver.specs.Ranges.Gate.{accepts};
ghost use Rattle.nodejs_semver.specs.Ranges.Outside.{is_outside};
ghost use Rattle.nodejs_semver_c.specs.Answers.{Kept, Prints};
ghost use Rattle.nodejs_semver_c.specs.Internal.Choices.{IsBestOf, is_beaten};
ghost use Rattle.nodejs_semver_c.specs.Kept.{kept_value};
ghost use Rattle.nodejs_semver_c.specs.KeptLists.{OnPlaces, OnVersions, TellsEachKept};
ghost use Rattle.nodejs_semver_c.specs.KeptLists.{TellsKeptPlace};
ghost use Rattle.nodejs_semver_c.specs.KeptRanges.{IsKeptRange, OnIntervals, OnKeptRange};
ghost use Rattle.nodejs_semver_c.specs.KeptRanges.{RefusesIntervals, TellsLeast, kept_span};
ghost use Rattle.nodejs_semver_c.specs.Numbers.{side_of};
ghost use Rattle.semver_core.specs.Values.Versions.{VersionValue};
ghost use Rattle.std.specs.Option.{option_copied, option_map};
ghost use Rattle.std.specs.Prelude.{◌++◌, ◌<◌, ◌∷◌, ◌≡◌, ◌≤◌, ◌⊎◌, [], List, Some, if◌then◌else◌};
ghost use Rattle.std.specs.Prelude.{is_some, length, map, true};

use crate::asked::{have_common, is_accepted, is_outside};
use crate::choices::Best;
use crate::intervals::{Interval, MOST_INTERVALS, check_range, kept_range};
use crate::kept::{Parts, Version, cmp_kept, tell};
use crate::print::print;
use crate::{ANSWER_NO, ANSWER_YES, NO_MEMORY, NOTHING, OK, TOO_LONG, TOO_SMALL};
use nodejs_semver::RangeRef;
use std::alloc::Global;

/// How many versions memory may hold, of 56 bytes each.
pub const MOST_VERSIONS: usize = 164_703_072_086_692_425;

/// Whether a range has these intervals: one or more, with bounds in order, of a kind that is known,
/// whose texts spell identifiers and whose numbers are at most 9007199254740992. The status is `OK`
/// or says why not.
///
/// Returns `OK`, `BAD_VERSION`, `BAD_RANGE` or `TOO_LONG`.
#[unsafe(no_mangle)]
pub extern "C" fn nodejs_semver_check_range(range: &[Interval<'_>]) -> u32
    ensures { ((result ≡ OK) × IsKeptRange range.now (map kept_span range.now))
        ⊎ RefusesIntervals range.now result }
{
    match check_range(range) {
        Ok(()) => OK,
        Err(status) => status,
    }
}

/// Whether a range accepts a version. A pre-release is accepted only where a bound names one of the
/// same three numbers, unless pre-releases are included. Neither the range nor the version is
/// checked first: `nodejs_semver_check_range` and `nodejs_semver_check` do so.
///
/// Returns `OK` or `TOO_LONG`.
#[unsafe(no_mangle)]
pub extern "C" fn nodejs_semver_accepts(
    range: &[Interval<'_>],
    version: &Version<'_>,
    include_prerelease: bool,
    answer: &mut bool,
) -> u32
    ensures { OnIntervals range.now result (answer.new ≡ answer.old)
        ((result ≡ OK) × (answer.new ≡ accepts (map kept_span range.now)
        (kept_value version.now) include_prerelease)) }
{
    if range.len() > MOST_INTERVALS {
        return TOO_LONG;
    }
    *answer = is_accepted(range, version, include_prerelease);
    OK
}

/// Which of some versions a range accepts: `answers` gets `ANSWER_NO` or `ANSWER_YES` for each, as
/// `nodejs_semver_accepts` answers. If it has room for fewer, nothing is looked at or written.
///
/// Returns `OK`, `TOO_SMALL` or `TOO_LONG`.
#[unsafe(no_mangle)]
pub extern "C" fn nodejs_semver_accepts_each(
    range: &[Interval<'_>],
    versions: &[Version<'_>],
    include_prerelease: bool,
    answers: &mut [u8],
) -> u32
    ensures { let same = answers.new ≡ answers.old in
        OnIntervals range.now result same (OnPlaces versions.now (length answers.old) result same
        ((result ≡ OK) × TellsEachKept (map kept_span range.now) include_prerelease
        versions.now answers.old answers.new)) }
{
    if range.len() > MOST_INTERVALS || versions.len() > MOST_VERSIONS {
        return TOO_LONG;
    }
    if answers.len() < versions.len() {
        return TOO_SMALL;
    }
    answer_each(range, include_prerelease, versions, answers);
    OK
}

#[inline(always)]
fn answer_each(
    range: &[Interval<'_>],
    include_prerelease: bool,
    versions: &[Version<'_>],
    answers: &mut [u8],
)
    requires { length versions.now ≤ length answers.old }
    ensures { TellsEachKept (map kept_span range.now) include_prerelease versions.now
        answers.old answers.new }
{
    'versions: for at in 0..versions.len() {
        answers[at] = answer_of(range, include_prerelease, &versions[at]);
    }
}

#[inline(always)]
fn answer_of(range: &[Interval<'_>], include_prerelease: bool, version: &Version<'_>) -> u8
    ensures { result ≡ (if accepts (map kept_span range.now) (kept_value version.now)
        include_prerelease then ANSWER_YES else ANSWER_NO) }
{
    if is_accepted(range, version, include_prerelease) {
        ANSWER_YES
    } else {
        ANSWER_NO
    }
}

/// Which of some versions is the greatest that a range accepts, the last of equal ones: `index`
/// gets its place. Neither the range nor the versions are checked first.
///
/// Returns `OK`, `NOTHING` or `TOO_LONG`.
#[unsafe(no_mangle)]
pub extern "C" fn nodejs_semver_greatest(
    range: &[Interval<'_>],
    versions: &[Version<'_>],
    include_prerelease: bool,
    index: &mut usize,
) -> u32
    ensures { let same = index.new ≡ index.old in
        OnIntervals range.now result same (OnVersions versions.now result same (TellsKeptPlace
        (IsMax (λ v. accepts (map kept_span range.now) v include_prerelease))
        versions.now index.old index.new result)) }
{
    if range.len() > MOST_INTERVALS || versions.len() > MOST_VERSIONS {
        return TOO_LONG;
    }
    best_of(Best::Max, range, include_prerelease, versions, index)
}

/// Which of some versions is the smallest that a range accepts, the first of equal ones: `index`
/// gets its place. Neither the range nor the versions are checked first.
///
/// Returns `OK`, `NOTHING` or `TOO_LONG`.
#[unsafe(no_mangle)]
pub extern "C" fn nodejs_semver_least(
    range: &[Interval<'_>],
    versions: &[Version<'_>],
    include_prerelease: bool,
    index: &mut usize,
) -> u32
    ensures { let same = index.new ≡ index.old in
        OnIntervals range.now result same (OnVersions versions.now result same (TellsKeptPlace
        (IsMin (λ v. accepts (map kept_span range.now) v include_prerelease))
        versions.now index.old index.new result)) }
{
    if range.len() > MOST_INTERVALS || versions.len() > MOST_VERSIONS {
        return TOO_LONG;
    }
    best_of(Best::Min, range, include_prerelease, versions, index)
}

#[inline(always)]
fn best_of(
    which: Best,
    range: &[Interval<'_>],
    include_prerelease: bool,
    versions: &[Version<'_>],
    index: &mut usize,
) -> u32
    ensures { TellsKeptPlace (IsBestOf which (map kept_span range.now) include_prerelease)
        versions.now index.old index.new result }
{
    let mut best = None;
    let mut place = 0;
    'versions: for at in 0..versions.len() {
        let version = &versions[at];
        if is_new_best(which, range, include_prerelease, version, best) {
            best = Some(version);
            place = at;
        }
    }
    match best {
        None => NOTHING,
        Some(_) => {
            *index = place;
            OK
        }
    }
}

// Whether a version takes the place of the best so far.
#[inline(always)]
fn is_new_best(
    which: Best,
    range: &[Interval<'_>],
    include_prerelease: bool,
    version: &Version<'_>,
    best: Option<&Version<'_>>,
) -> bool
    ensures { (list : List VersionValue)
        → IsBestOf which (map kept_span range.now) include_prerelease list
        (option_map kept_value (option_copied best.entry))
        → IsBestOf which (map kept_span range.now) include_prerelease
        (list ++ kept_value version.now ∷ []) (if result then Some (kept_value version.now)
        else option_map kept_value (option_copied best.entry)) }
{
    is_better(which, version, best) && is_accepted(range, version, include_prerelease)
}

// Whether a version is better than the best so far, if there is one.
#[inline(always)]
fn is_better(which: Best, version: &Version<'_>, best: Option<&Version<'_>>) -> bool
    ensures { result ≡ replaces (is_beaten which) (λ _. true)
        (option_map kept_value (option_copied best.entry)) (kept_value version.now) }
{
    let Some(best) = best else {
        return true;
    };
    match which {
        Best::Max => cmp_kept(best, version).is_le(),
        Best::Min => cmp_kept(version, best).is_lt(),
    }
}

/// Whether two ranges have something in common. Neither is checked first.
///
/// Returns `OK` or `TOO_LONG`.
#[unsafe(no_mangle)]
pub extern "C" fn nodejs_semver_meets(
    range: &[Interval<'_>],
    other: &[Interval<'_>],
    answer: &mut bool,
) -> u32
    ensures { let same = answer.new ≡ answer.old in
        OnIntervals range.now result same (OnIntervals other.now result same ((result ≡ OK)
        × (answer.new
        ≡ is_some (intersection (map kept_span range.now) (map kept_span other.now))))) }
{
    if range.len() > MOST_INTERVALS || other.len() > MOST_INTERVALS {
        return TOO_LONG;
    }
    *answer = have_common(range, other);
    OK
}

/// Whether some one interval of the first range covers some one interval of the second. This is not
/// a subset test.
///
/// Returns `OK`, `BAD_VERSION`, `BAD_RANGE`, `NO_MEMORY` or `TOO_LONG`.
#[unsafe(no_mangle)]
pub extern "C" fn nodejs_semver_covers(
    alloc: Global,
    range: &[Interval<'_>],
    other: &[Interval<'_>],
    answer: &mut bool,
) -> u32
    ensures { let same = answer.new ≡ answer.old in
        OnKeptRange range.now result same (λ r. OnKeptRange other.now result same (λ s.
        (result ≡ OK) × (answer.new ≡ covers_one r s))) }
{
    let range = ok_or_return!(kept_range(alloc, range));
    let other = ok_or_return!(kept_range(alloc, other));
    *answer = range.allows_all(&other);
    OK
}

/// Whether a version lies above a range, or below it where `above` is false: the range does not
/// accept it, and every interval of the range lies on the other side. Neither is checked first.
///
/// Returns `OK` or `TOO_LONG`.
#[unsafe(no_mangle)]
pub extern "C" fn nodejs_semver_lies_outside(
    range: &[Interval<'_>],
    version: &Version<'_>,
    above: bool,
    include_prerelease: bool,
    answer: &mut bool,
) -> u32
    ensures { OnIntervals range.now result (answer.new ≡ answer.old) ((result ≡ OK)
        × (answer.new ≡ is_outside (side_of above) include_prerelease
        (map kept_span range.now) (kept_value version.now))) }
{
    if range.len() > MOST_INTERVALS {
        return TOO_LONG;
    }
    *answer = is_outside(range, version, above, include_prerelease);
    OK
}

/// The smallest version that a range accepts: `parts` gets its numbers and how long its texts are,
/// and `out` these texts, that of the build metadata behind that of the pre-release. If the buffer
/// is too small, `parts` alone is written.
///
/// Returns `OK`, `NOTHING`, `TOO_SMALL`, `BAD_VERSION`, `BAD_RANGE`, `NO_MEMORY` or `TOO_LONG`.
#[unsafe(no_mangle)]
pub extern "C" fn nodejs_semver_least_version(
    alloc: Global,
    range: &[Interval<'_>],
    parts: &mut Parts,
    out: &mut [u8],
) -> u32
    ensures { let same = (parts.new ≡ parts.old) × (out.new ≡ out.old) in
        OnKeptRange range.now result same (λ r.
        TellsLeast r parts.old parts.new out.old out.new result) }
{
    match kept_range(alloc, range) {
        Ok(range) => tell_least(alloc, &range, parts, out),
        Err(status) => status,
    }
}

fn tell_least(alloc: Global, range: &RangeRef<'_>, parts: &mut Parts, out: &mut [u8]) -> u32
    ensures { TellsLeast range.now parts.old parts.new out.old out.new result }
{
    match range.min_version(alloc) {
        Ok(Some(version)) => tell(&version, parts, out),
        Ok(None) => NOTHING,
        Err(_) => NO_MEMORY,
    }
}

/// Prints a range in its normal form: `>=1.2.0 <2.0.0-0`.
///
/// Returns `OK`, `TOO_SMALL`, `BAD_VERSION`, `BAD_RANGE`, `NO_MEMORY` or `TOO_LONG`.
#[unsafe(no_mangle)]
pub extern "C" fn nodejs_semver_print_range(
    alloc: Global,
    range: &[Interval<'_>],
    out: &mut [u8],
    len: &mut usize,
) -> u32
    ensures { OnKeptRange range.now result (Kept out.old out.new len.old len.new)
        (λ r. Prints (range_text r) out.old out.new len.old len.new result) }
{
    match kept_range(alloc, range) {
        Ok(range) => print(&range, out, len),
        Err(status) => status,
    }
}
