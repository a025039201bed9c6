// Ranges that are made simple for versions that the caller keeps.

ghost use Rattle.nodejs_semver_c.specs.Kept.{IsKept, RefusesKept};
ghost use Rattle.nodejs_semver_c.specs.KeptLists.{OnVersions};
ghost use Rattle.nodejs_semver_c.specs.KeptRanges.{OnKeptRange, RangeKept};
ghost use Rattle.nodejs_semver_c.specs.KeptSimple.{RefusesVersions, TellsSimple};
ghost use Rattle.nodejs_semver_c.specs.Lists.{FirstRefused};
ghost use Rattle.semver_core.specs.Values.Versions.{VersionValue};
ghost use Rattle.std.specs.List.{AllZip};
ghost use Rattle.std.specs.Prelude.{◌≡◌, ◌⊎◌, ◌≤◌, [], IfErr, IfOk, List, OnOk, length};
ghost use Rattle.std.specs.Prelude.{vec_capacity, vec_len};

use crate::intervals::{Interval, IntervalParts, kept_range, tell_range};
use crate::kept::{Version, kept};
use crate::kept_ranges::MOST_VERSIONS;
use crate::{NO_MEMORY, TOO_LONG};
use nodejs_semver::{RangeRef, VersionRef};
use std::alloc::Global;

/// A range that answers about each of some versions as a range does without pre-releases included,
/// with as many intervals or fewer: those that accept one of the versions, or all where none does.
/// It is told as `nodejs_semver_range_read` tells a range. Where a version is rejected, `index`
/// gets the place of the first such version.
///
/// Returns `OK`, `TOO_SMALL`, `BAD_VERSION`, `BAD_RANGE`, `NO_MEMORY` or `TOO_LONG`.
#[unsafe(no_mangle)]
pub extern "C" fn nodejs_semver_simplify(
    alloc: Global,
    range: &[Interval<'_>],
    versions: &[Version<'_>],
    intervals: &mut [IntervalParts],
    count: &mut usize,
    out: &mut [u8],
    len: &mut usize,
    index: &mut usize,
) -> u32
    ensures { let same = RangeKept intervals.old intervals.new count.old count.new
        out.old out.new len.old len.new in
        OnVersions versions.now result (same × (index.new ≡ index.old)) (
        OnKeptRange range.now result (same × (index.new ≡ index.old)) (λ r.
        (same × RefusesVersions versions.now index.old index.new result)
        ⊎ ((vs : List VersionValue) × AllZip IsKept versions.now vs × (index.new ≡ index.old)
        × TellsSimple vs r intervals.old intervals.new count.old count.new
        out.old out.new len.old len.new result))) }
{
    if versions.len() > MOST_VERSIONS {
        return TOO_LONG;
    }
    let range = ok_or_return!(kept_range(alloc, range));
    match kept_versions(alloc, versions, index) {
        Ok(list) => tell_simple(alloc, &range, list.as_slice(), intervals, count, out, len),
        Err(status) => status,
    }
}

fn tell_simple(
    alloc: Global,
    range: &RangeRef<'_>,
    versions: &[VersionRef<'_>],
    told: &mut [IntervalParts],
    count: &mut usize,
    out: &mut [u8],
    len: &mut usize,
) -> u32
    ensures { TellsSimple versions.now range.now told.old told.new count.old count.new
        out.old out.new len.old len.new result }
{
    match range.simplify(alloc, versions) {
        Ok(simple) => tell_range(&simple, told, count, out, len),
        Err(_) => NO_MEMORY,
    }
}

// The versions that the caller keeps, or the status that rejects the first of them.
fn kept_versions<'a>(
    alloc: Global,
    versions: &[Version<'a>],
    index: &mut usize,
) -> Result<Vec<VersionRef<'a>>, u32>
    ensures ok { OnOk result (index.new ≡ index.old) }
    ensures kept { IfOk result (λ list. AllZip IsKept versions.now list.items) }
    ensures refused { IfErr result (RefusesVersions versions.now index.old index.new) }
{
    let Ok(mut list) = Vec::with_capacity(alloc, versions.len()) else {
        return Err(fault_without_memory(versions, index));
    };
    fill(versions, &mut list, index)?;
    Ok(list)
}

// The status that rejects the first of some versions, where there is no memory for a list of them.
#[cold]
fn fault_without_memory(versions: &[Version<'_>], index: &mut usize) -> u32
    ensures { FirstRefused IsKept RefusesKept versions.now index.new result
        ⊎ ((result ≡ NO_MEMORY) × (index.new ≡ index.old)
        × ((vs : List VersionValue) × AllZip IsKept versions.now vs)) }
{
    'versions: for at in 0..versions.len() {
        if let Err(status) = kept(&versions[at]) {
            *index = at;
            return status;
        }
    }
    NO_MEMORY
}

// Puts the versions into an empty list that has room for them.
fn fill<'a>(
    versions: &[Version<'a>],
    list: &mut Vec<VersionRef<'a>>,
    index: &mut usize,
) -> Result<(), u32>
    requires empty { list.old.items ≡ [] }
    requires len { vec_len list.old ≡ 0 }
    requires room { length versions.now ≤ vec_capacity list.old }
    ensures ok { OnOk result (AllZip IsKept versions.now list.new.items
        × (index.new ≡ index.old)) }
    ensures refused { IfErr result (FirstRefused IsKept RefusesKept versions.now index.new) }
{
    'versions: for at in 0..versions.len() {
        match kept(&versions[at]) {
            Ok(version) => list.push_reserved(version),
            Err(status) => {
                *index = at;
                return Err(status);
            }
        }
    }
    Ok(())
}
