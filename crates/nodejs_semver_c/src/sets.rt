// Questions about two ranges, as sets.

ghost use Rattle.nodejs_semver.specs.Printing.Text.{range_text};
ghost use Rattle.nodejs_semver.specs.Ranges.Algebra.{covers_one, difference, intersection};
ghost use Rattle.nodejs_semver_c.specs.Answers.{Kept, NoMemoryOnlyIf, OnRange, PrintsFound};
ghost use Rattle.nodejs_semver_c.specs.Least.{PrintsBeyond};
ghost use Rattle.std.specs.Prelude.{◌≡◌, ◌⊎◌, ◌<◌, IsTrue, false, is_some, length};

use crate::print::print_found;
use crate::{NO_MEMORY, OK, read};
use nodejs_semver::RangeRef;
use std::alloc::Global;

/// Prints what two ranges have in common.
///
/// Returns `OK`, `NOTHING`, `TOO_SMALL`, `BAD_ARGUMENT`, `NOT_UTF8`, `BAD_RANGE`, `NO_MEMORY` or
/// `TOO_LONG`.
#[unsafe(no_mangle)]
pub extern "C" fn nodejs_semver_range_intersect(
    alloc: Global,
    reading: u32,
    range: &[u8],
    other: &[u8],
    out: &mut [u8],
    len: &mut usize,
) -> u32
    ensures { let kept = Kept out.old out.new len.old len.new in
        OnRange reading false range.now result kept (λ r.
        OnRange reading false other.now result kept (λ s.
        PrintsFound range_text (intersection r s) out.old out.new len.old len.new result
        ⊎ NoMemoryOnlyIf result kept (IsTrue (is_some (intersection r s))))) }
{
    let range = ok_or_return!(read::range(alloc, reading, false, range));
    let other = ok_or_return!(read::range(alloc, reading, false, other));
    match range.intersect(alloc, &other) {
        Ok(found) => print_found(found, out, len),
        Err(_) => NO_MEMORY,
    }
}

/// Prints what the first range holds and the second does not.
///
/// Returns `OK`, `NOTHING`, `TOO_SMALL`, `BAD_ARGUMENT`, `NOT_UTF8`, `BAD_RANGE`, `NO_MEMORY` or
/// `TOO_LONG`.
#[unsafe(no_mangle)]
pub extern "C" fn nodejs_semver_range_difference(
    alloc: Global,
    reading: u32,
    range: &[u8],
    other: &[u8],
    out: &mut [u8],
    len: &mut usize,
) -> u32
    ensures { let kept = Kept out.old out.new len.old len.new in
        OnRange reading false range.now result kept (λ r.
        OnRange reading false other.now result kept (λ s.
        PrintsFound range_text (difference r s) out.old out.new len.old len.new result
        ⊎ NoMemoryOnlyIf result kept
        (IsTrue (is_some (difference r s)) ⊎ (1 < length s)))) }
{
    let range = ok_or_return!(read::range(alloc, reading, false, range));
    let other = ok_or_return!(read::range(alloc, reading, false, other));
    match range.difference(alloc, &other) {
        Ok(found) => print_found(found, out, len),
        Err(_) => NO_MEMORY,
    }
}

/// Prints the smallest version that the first range accepts and the second does not. There is none
/// exactly if the first range is a subset of the second.
///
/// Returns `OK`, `NOTHING`, `TOO_SMALL`, `BAD_ARGUMENT`, `NOT_UTF8`, `BAD_RANGE`, `NO_MEMORY` or
/// `TOO_LONG`.
#[unsafe(no_mangle)]
pub extern "C" fn nodejs_semver_range_least_beyond(
    alloc: Global,
    reading: u32,
    range: &[u8],
    other: &[u8],
    out: &mut [u8],
    len: &mut usize,
) -> u32
    ensures { let kept = Kept out.old out.new len.old len.new in
        OnRange reading false range.now result kept (λ r.
        OnRange reading false other.now result kept (λ s.
        PrintsBeyond r s out.old out.new len.old len.new result)) }
{
    let range = ok_or_return!(read::range(alloc, reading, false, range));
    let other = ok_or_return!(read::range(alloc, reading, false, other));
    print_beyond(alloc, &range, &other, out, len)
}

fn print_beyond(
    alloc: Global,
    range: &RangeRef<'_>,
    other: &RangeRef<'_>,
    out: &mut [u8],
    len: &mut usize,
) -> u32
    ensures { PrintsBeyond range.now other.now out.old out.new len.old len.new result }
{
    match range.least_beyond(alloc, other) {
        Ok(found) => print_found(found, out, len),
        Err(_) => NO_MEMORY,
    }
}

/// Whether some one interval of the first range covers some one interval of the second. This is not
/// a subset test.
///
/// Returns `OK`, `BAD_ARGUMENT`, `NOT_UTF8`, `BAD_RANGE`, `NO_MEMORY` or `TOO_LONG`.
#[unsafe(no_mangle)]
pub extern "C" fn nodejs_semver_range_allows_all(
    alloc: Global,
    reading: u32,
    range: &[u8],
    other: &[u8],
    answer: &mut bool,
) -> u32
    ensures { let kept = answer.new ≡ answer.old in
        OnRange reading false range.now result kept (λ r.
        OnRange reading false other.now result kept (λ s.
        (result ≡ OK) × (answer.new ≡ covers_one r s))) }
{
    let range = ok_or_return!(read::range(alloc, reading, false, range));
    let other = ok_or_return!(read::range(alloc, reading, false, other));
    *answer = range.allows_all(&other);
    OK
}

/// Whether two ranges have something in common.
///
/// Returns `OK`, `BAD_ARGUMENT`, `NOT_UTF8`, `BAD_RANGE`, `NO_MEMORY` or `TOO_LONG`.
#[unsafe(no_mangle)]
pub extern "C" fn nodejs_semver_range_allows_any(
    alloc: Global,
    reading: u32,
    range: &[u8],
    other: &[u8],
    answer: &mut bool,
) -> u32
    ensures { let kept = answer.new ≡ answer.old in
        OnRange reading false range.now result kept (λ r.
        OnRange reading false other.now result kept (λ s.
        (result ≡ OK) × (answer.new ≡ is_some (intersection r s)))) }
{
    let range = ok_or_return!(read::range(alloc, reading, false, range));
    let other = ok_or_return!(read::range(alloc, reading, false, other));
    *answer = range.allows_any(&other);
    OK
}
