// Questions about two ranges, as the versions that they accept.

ghost use Rattle.nodejs_semver.specs.Printing.Text.{range_text};
ghost use Rattle.nodejs_semver.specs.Ranges.Subsets.{AcceptSame, IsSubset};
ghost use Rattle.nodejs_semver.specs.Ranges.Unions.{union};
ghost use Rattle.nodejs_semver.specs.Ranges.View.{TakesMemory};
ghost use Rattle.nodejs_semver_c.specs.Answers.{Kept, NoMemoryOnlyIf, OnRange, Prints};
ghost use Rattle.nodejs_semver_c.specs.Subsets.{MayTry};
ghost use Rattle.std.specs.Prelude.{◌≡◌, ◌↔◌, ◌⊎◌, IfOk, IsTrue, OnErr, false};

use crate::print::print;
use crate::{NO_MEMORY, OK, read};
use nodejs_semver::RangeRef;
use std::alloc::{AllocError, Global};

/// Prints the union of two ranges, which accepts what either accepts.
///
/// Returns `OK`, `TOO_SMALL`, `BAD_ARGUMENT`, `NOT_UTF8`, `BAD_RANGE`, `NO_MEMORY` or `TOO_LONG`.
#[unsafe(no_mangle)]
pub extern "C" fn nodejs_semver_range_union(
    alloc: Global,
    reading: u32,
    range: &[u8],
    other: &[u8],
    out: &mut [u8],
    len: &mut usize,
) -> u32
    ensures { let kept = Kept out.old out.new len.old len.new in
        OnRange reading false range.now result kept (λ r.
        OnRange reading false other.now result kept (λ s.
        Prints (range_text (union r s)) out.old out.new len.old len.new result
        ⊎ NoMemoryOnlyIf result kept (TakesMemory (union r s)))) }
{
    let range = ok_or_return!(read::range(alloc, reading, false, range));
    let other = ok_or_return!(read::range(alloc, reading, false, other));
    match range.union(alloc, &other) {
        Ok(found) => print(&found, out, len),
        Err(_) => NO_MEMORY,
    }
}

/// Whether the second range accepts every version that the first accepts.
///
/// Returns `OK`, `BAD_ARGUMENT`, `NOT_UTF8`, `BAD_RANGE`, `NO_MEMORY` or `TOO_LONG`.
#[unsafe(no_mangle)]
pub extern "C" fn nodejs_semver_range_is_subset(
    alloc: Global,
    reading: u32,
    range: &[u8],
    other: &[u8],
    include_prerelease: bool,
    answer: &mut bool,
) -> u32
    ensures { let kept = answer.new ≡ answer.old in
        OnRange reading include_prerelease range.now result kept (λ r.
        OnRange reading include_prerelease other.now result kept (λ s.
        ((result ≡ OK) × (IsTrue answer.new ↔ IsSubset include_prerelease r s))
        ⊎ NoMemoryOnlyIf result kept (MayTry include_prerelease r s))) }
{
    let range = ok_or_return!(read::range(alloc, reading, include_prerelease, range));
    let other = ok_or_return!(read::range(alloc, reading, include_prerelease, other));
    match is_subset(alloc, include_prerelease, &range, &other) {
        Ok(found) => {
            *answer = found;
            OK
        }
        Err(_) => NO_MEMORY,
    }
}

/// Whether the second range accepts what the first accepts, pre-releases included or not.
pub fn is_subset<'t>(
    alloc: Global,
    include_prerelease: bool,
    range: &RangeRef<'t>,
    other: &RangeRef<'t>,
) -> Result<bool, AllocError>
    ensures subset { IfOk result (λ found.
        IsTrue found ↔ IsSubset include_prerelease range.now other.now) }
    ensures memory { OnErr result (MayTry include_prerelease range.now other.now) }
{
    if include_prerelease {
        range.is_subset_with_prerelease(alloc, other)
    } else {
        range.is_subset(alloc, other)
    }
}

/// Whether two ranges accept the same versions, however they are written.
///
/// Returns `OK`, `BAD_ARGUMENT`, `NOT_UTF8`, `BAD_RANGE`, `NO_MEMORY` or `TOO_LONG`.
#[unsafe(no_mangle)]
pub extern "C" fn nodejs_semver_range_accepts_same(
    alloc: Global,
    reading: u32,
    range: &[u8],
    other: &[u8],
    include_prerelease: bool,
    answer: &mut bool,
) -> u32
    ensures { let kept = answer.new ≡ answer.old in
        OnRange reading include_prerelease range.now result kept (λ r.
        OnRange reading include_prerelease other.now result kept (λ s.
        ((result ≡ OK) × (IsTrue answer.new ↔ AcceptSame include_prerelease r s))
        ⊎ NoMemoryOnlyIf result kept
        (MayTry include_prerelease r s ⊎ MayTry include_prerelease s r))) }
{
    let range = ok_or_return!(read::range(alloc, reading, include_prerelease, range));
    let other = ok_or_return!(read::range(alloc, reading, include_prerelease, other));
    match accepts_same(alloc, include_prerelease, &range, &other) {
        Ok(found) => {
            *answer = found;
            OK
        }
        Err(_) => NO_MEMORY,
    }
}

fn accepts_same<'t>(
    alloc: Global,
    include_prerelease: bool,
    range: &RangeRef<'t>,
    other: &RangeRef<'t>,
) -> Result<bool, AllocError>
    ensures same { IfOk result (λ found.
        IsTrue found ↔ AcceptSame include_prerelease range.now other.now) }
    ensures memory { OnErr result (MayTry include_prerelease range.now other.now
        ⊎ MayTry include_prerelease other.now range.now) }
{
    if include_prerelease {
        range.accepts_same_with_prerelease(alloc, other)
    } else {
        range.accepts_same(alloc, other)
    }
}
