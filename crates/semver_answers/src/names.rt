// The words and texts of the answers. Each is put behind the output, with a line feed.
#![tactic(auto, using(crate::proofs::Bytes::extended))]

ghost use Rattle.std.specs.Prelude.{◌≡◌, ◌++◌, OnOk, OnErr, Result};
ghost use Rattle.std.specs.Result.{IsOkAnd};
ghost use Rattle.semver_core.specs.Difference.{kind_word};
ghost use Rattle.semver_core.specs.Increments.Table as increment;
ghost use Rattle.semver_core.specs.Increments.View.{Returns};
ghost use Rattle.semver_core.specs.Printing.Text.{version_text};
ghost use Rattle.semver_core.specs.Values.Versions.{VersionValue};
ghost use Rattle.nodejs_semver.specs.Printing.Text.{range_text};
ghost use Rattle.semver_answers.specs.Lines.{ended};
ghost use Rattle.semver_answers.specs.Names.{next_text, or_none, order_word, truth_word};
ghost use Rattle.semver_answers.specs.Internal.Puts.{Extends};

use crate::output::Output;
use crate::put::ranges::put_range;
use crate::put::{put_next_version, put_version};
use nodejs_semver::{
    Failure, IncrementError, NextVersion, RangeRef, Version, VersionDiff, VersionRef, Versioned,
};
use std::alloc::AllocError;
use std::cmp::Ordering;

/// How one version compares to another.
#[inline(always)]
pub(crate) fn put_order(order: Ordering, output: &mut Output) -> Result<(), AllocError>
    ensures ok { OnOk result
        (output.new ≡ output.old ++ ended (order_word order)) }
    ensures err { OnErr result (output.new ≡ output.old) }
{
    match order {
        Ordering::Less => output.put(b"less\n"),
        Ordering::Equal => output.put(b"equal\n"),
        Ordering::Greater => output.put(b"greater\n"),
    }
}

/// Whether it is so.
#[inline(always)]
pub(crate) fn put_truth(is_so: bool, output: &mut Output) -> Result<(), AllocError>
    ensures ok { OnOk result (output.new ≡ output.old ++ ended (truth_word is_so)) }
    ensures err { OnErr result (output.new ≡ output.old) }
{
    if is_so {
        output.put(b"true\n")
    } else {
        output.put(b"false\n")
    }
}

/// The kind of a difference, or `none`.
#[inline(always)]
pub(crate) fn difference_line(kind: Option<VersionDiff>) -> &'static [u8]
    ensures { result.now ≡ ended (or_none kind_word kind) }
{
    match kind {
        Some(VersionDiff::Major) => b"major\n",
        Some(VersionDiff::Minor) => b"minor\n",
        Some(VersionDiff::Patch) => b"patch\n",
        Some(VersionDiff::PreMajor) => b"premajor\n",
        Some(VersionDiff::PreMinor) => b"preminor\n",
        Some(VersionDiff::PrePatch) => b"prepatch\n",
        Some(VersionDiff::PreRelease) => b"prerelease\n",
        None => b"none\n",
    }
}

/// A version.
#[inline(always)]
pub(crate) fn put_printed<V: Versioned>(version: &V, output: &mut Output) -> Result<(), AllocError>
    ensures ok { OnOk result
        (output.new ≡ output.old ++ ended (version_text (V.value version.now))) }
    ensures err { OnErr result (Extends output.old output.new) }
{
    put_version(version, output)?;
    output.push(b'\n')
}

/// What a call found, or `none`. The functions that ask for it then own nothing.
#[inline(always)]
pub(crate) fn put_found(
    found: Result<Option<Version>, AllocError>,
    output: &mut Output,
) -> Result<(), AllocError>
    ensures ok { OnOk result (IsOkAnd found (λ version.
        output.new ≡ output.old ++ ended (or_none version_text version))) }
    ensures err { OnErr result (Extends output.old output.new) }
{
    match found {
        Ok(Some(version)) => put_printed(&version, output),
        Ok(None) => output.put(b"none\n"),
        Err(error) => Err(error),
    }
}

/// A borrowed version, or `none`.
#[inline(always)]
pub(crate) fn put_borrowed(
    version: Option<VersionRef<'_>>,
    output: &mut Output,
) -> Result<(), AllocError>
    ensures ok { OnOk result
        (output.new ≡ output.old ++ ended (or_none version_text version.entry)) }
    ensures err { OnErr result (Extends output.old output.new) }
{
    match version {
        Some(version) => put_printed(&version, output),
        None => output.put(b"none\n"),
    }
}

/// The range that a call found, or `none`.
#[inline(always)]
pub(crate) fn put_range_found(
    found: Result<Option<RangeRef<'_>>, AllocError>,
    output: &mut Output,
) -> Result<(), AllocError>
    ensures ok { OnOk result (IsOkAnd found.entry (λ range.
        output.new ≡ output.old ++ ended (or_none range_text range))) }
    ensures err { OnErr result (Extends output.old output.new) }
{
    match found {
        Ok(Some(range)) => put_range_line(&range, output),
        Ok(None) => output.put(b"none\n"),
        Err(error) => Err(error),
    }
}

/// A range.
#[inline(always)]
pub(crate) fn put_range_line(range: &RangeRef<'_>, output: &mut Output) -> Result<(), AllocError>
    ensures ok { OnOk result
        (output.new ≡ output.old ++ ended (range_text range.now)) }
    ensures err { OnErr result (Extends output.old output.new) }
{
    put_range(range, output)?;
    output.push(b'\n')
}

/// The next version, or why there is none.
#[inline(always)]
pub(crate) fn put_next(
    next: &Result<NextVersion<'_>, Failure<IncrementError>>,
    output: &mut Output,
) -> Result<(), AllocError>
    ensures ok { OnOk result ((told : Result VersionValue increment.Fault) → Returns told next.now
        → output.new ≡ output.old ++ ended (next_text told)) }
    ensures err { OnErr result (Extends output.old output.new) }
{
    match next {
        Ok(version) => {
            put_next_version(version, output)?;
            output.push(b'\n')
        }
        Err(Failure::Refused(fault)) => {
            let line: &[u8] = match fault {
                IncrementError::InvalidIncrementArgument(_) => b"bad argument\n",
                IncrementError::InvalidIdentifier(_) => b"bad identifier\n",
                IncrementError::NotAPrerelease(_) => b"not a prerelease\n",
                IncrementError::Overflow => b"overflow\n",
            };
            output.put(line)
        }
        Err(Failure::Memory(_)) => Err(AllocError),
    }
}
