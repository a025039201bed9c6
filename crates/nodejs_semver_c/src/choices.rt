// One range and many versions.

ghost use Rattle.nodejs_semver.specs.Ranges.Best.{IsMax, IsMin, replaces};
ghost use Rattle.nodejs_semver.specs.Ranges.Gate.{accepts};
ghost use Rattle.nodejs_semver_c.specs.Answers.{OnRange};
ghost use Rattle.nodejs_semver_c.specs.Internal.Choices.{IsBestAt, IsBestOf, is_beaten};
ghost use Rattle.nodejs_semver_c.specs.Lists.{IsAnswer, OnArray, OnRoom, TellsEach, TellsPlace};
ghost use Rattle.semver_core.specs.Values.Versions.{VersionValue};
ghost use Rattle.std.specs.Option.{option_copied};
ghost use Rattle.std.specs.Prelude.{◌≡◌, ◌≤◌, ◌++◌, ◌∷◌, [], List, Some};
ghost use Rattle.std.specs.Prelude.{false, if◌then◌else◌, length, true};

use crate::read::{self, MOST_TEXTS};
use crate::{ANSWER_NO, ANSWER_NO_VERSION, ANSWER_YES, NOTHING, OK, TOO_LONG, TOO_SMALL};
use nodejs_semver::{RangeRef, VersionRef, Versioned};
use std::alloc::Global;

/// Which of the versions that a range accepts.
#[derive(Clone, Copy)]
pub enum Best {
    Max,
    Min,
}

impl Best {
    // Whether a version takes the place of the best so far.
    #[inline(always)]
    fn is_new_best(
        self,
        range: &RangeRef<'_>,
        include_prerelease: bool,
        version: &VersionRef<'_>,
        best: Option<&VersionRef<'_>>,
    ) -> bool
        ensures { (list : List VersionValue)
            → IsBestOf self range.now include_prerelease list (option_copied best.entry)
            → IsBestOf self range.now include_prerelease (list ++ version.now ∷ [])
            (if result then Some version.now else option_copied best.entry) }
    {
        self.is_better(version, best)
            && range.satisfies_with_prerelease(version, include_prerelease)
    }

    // Whether a version is better than the best so far, if there is one.
    #[inline(always)]
    fn is_better(self, version: &VersionRef<'_>, best: Option<&VersionRef<'_>>) -> bool
        ensures { result
            ≡ replaces (is_beaten self) (λ _. true) (option_copied best.entry) version.now }
    {
        let Some(best) = best else {
            return true;
        };
        match self {
            Best::Max => best.cmp_precedence(version).is_le(),
            Best::Min => version.cmp_precedence(best).is_lt(),
        }
    }
}

/// Which of some versions is the greatest that a range accepts: `index` gets its place. Where a
/// text of `versions` is rejected, `index` gets the place of the first such text.
///
/// Returns `OK`, `NOTHING`, `BAD_ARGUMENT`, `NOT_UTF8`, `BAD_RANGE`, `BAD_VERSION`, `NO_MEMORY` or
/// `TOO_LONG`.
#[unsafe(no_mangle)]
pub extern "C" fn nodejs_semver_range_max_satisfying(
    alloc: Global,
    reading: u32,
    range: &[u8],
    versions: &[&[u8]],
    index: &mut usize,
) -> u32
    ensures { let kept = index.new ≡ index.old in
        OnArray versions.now result kept (OnRange reading false range.now result kept (λ r.
        TellsPlace (IsMax (λ v. accepts r v false)) reading versions.now
        index.old index.new result)) }
{
    if versions.len() > MOST_TEXTS {
        return TOO_LONG;
    }
    match read::range(alloc, reading, false, range) {
        Ok(range) => best_of(Best::Max, &range, reading, versions, index),
        Err(status) => status,
    }
}

/// Which of some versions is the smallest that a range accepts: `index` gets its place. Where a
/// text of `versions` is rejected, `index` gets the place of the first such text.
///
/// Returns `OK`, `NOTHING`, `BAD_ARGUMENT`, `NOT_UTF8`, `BAD_RANGE`, `BAD_VERSION`, `NO_MEMORY` or
/// `TOO_LONG`.
#[unsafe(no_mangle)]
pub extern "C" fn nodejs_semver_range_min_satisfying(
    alloc: Global,
    reading: u32,
    range: &[u8],
    versions: &[&[u8]],
    index: &mut usize,
) -> u32
    ensures { let kept = index.new ≡ index.old in
        OnArray versions.now result kept (OnRange reading false range.now result kept (λ r.
        TellsPlace (IsMin (λ v. accepts r v false)) reading versions.now
        index.old index.new result)) }
{
    if versions.len() > MOST_TEXTS {
        return TOO_LONG;
    }
    match read::range(alloc, reading, false, range) {
        Ok(range) => best_of(Best::Min, &range, reading, versions, index),
        Err(status) => status,
    }
}

fn best_of(
    which: Best,
    range: &RangeRef<'_>,
    reading: u32,
    versions: &[&[u8]],
    index: &mut usize,
) -> u32
    ensures { TellsPlace (IsBestOf which range.now false) reading versions.now
        index.old index.new result }
{
    let mut best = None;
    let mut place = 0;
    'versions: for at in 0..versions.len() {
        match read::version(reading, versions[at]) {
            Ok(version) => keep_better(which, range, false, version, at, &mut best, &mut place),
            Err(status) => {
                *index = at;
                return status;
            }
        }
    }
    match best {
        None => NOTHING,
        Some(_) => {
            *index = place;
            OK
        }
    }
}

/// Puts a version at a place in the place of the best so far, where it is better.
pub fn keep_better<'t>(
    which: Best,
    range: &RangeRef<'_>,
    include_prerelease: bool,
    version: VersionRef<'t>,
    at: usize,
    best: &mut Option<VersionRef<'t>>,
    place: &mut usize,
)
    ensures { (vs : List VersionValue) → length vs ≡ at
        → IsBestAt (IsBestOf which range.now include_prerelease) vs best.old place.old
        → IsBestAt (IsBestOf which range.now include_prerelease) (vs ++ version.entry ∷ [])
        best.new place.new }
{
    if which.is_new_best(range, include_prerelease, &version, best.as_ref()) {
        *best = Some(version);
        *place = at;
    }
}

/// Which of some versions a range accepts: `answers` gets one of `ANSWER_NO`, `ANSWER_YES` and
/// `ANSWER_NO_VERSION` for each. If it has room for fewer, nothing is read or written.
///
/// Returns `OK`, `TOO_SMALL`, `BAD_ARGUMENT`, `NOT_UTF8`, `BAD_RANGE`, `NO_MEMORY` or `TOO_LONG`.
#[unsafe(no_mangle)]
pub extern "C" fn nodejs_semver_range_satisfies_each(
    alloc: Global,
    reading: u32,
    range: &[u8],
    versions: &[&[u8]],
    include_prerelease: bool,
    answers: &mut [u8],
) -> u32
    ensures { let kept = answers.new ≡ answers.old in
        OnRoom versions.now (length answers.old) result kept (
        OnRange reading include_prerelease range.now result kept (λ r. (result ≡ OK)
        × TellsEach r include_prerelease reading versions.now answers.old answers.new)) }
{
    if versions.len() > MOST_TEXTS {
        return TOO_LONG;
    }
    if answers.len() < versions.len() {
        return TOO_SMALL;
    }
    match read::range(alloc, reading, include_prerelease, range) {
        Ok(range) => {
            answer_each(&range, include_prerelease, reading, versions, answers);
            OK
        }
        Err(status) => status,
    }
}

fn answer_each(
    range: &RangeRef<'_>,
    include_prerelease: bool,
    reading: u32,
    versions: &[&[u8]],
    answers: &mut [u8],
)
    requires { length versions.now ≤ length answers.old }
    ensures { TellsEach range.now include_prerelease reading versions.now answers.old answers.new }
{
    'versions: for at in 0..versions.len() {
        answers[at] = answer_of(range, include_prerelease, reading, versions[at]);
    }
}

fn answer_of(range: &RangeRef<'_>, include_prerelease: bool, reading: u32, version: &[u8]) -> u8
    ensures { IsAnswer range.now include_prerelease reading version.now result }
{
    match read::version(reading, version) {
        Ok(version) if range.satisfies_with_prerelease(&version, include_prerelease) => ANSWER_YES,
        Ok(_) => ANSWER_NO,
        Err(_) => ANSWER_NO_VERSION,
    }
}
