// Puts ranges behind the output, as they print.
#![tactic(auto, using(crate::proofs::Bytes::extended))]

ghost use Rattle.std.specs.Prelude.{◌≡◌, ◌++◌, OnOk, OnErr};
ghost use Rattle.nodejs_semver.specs.Printing.Text.{bounds_text, lower_text, range_text};
ghost use Rattle.nodejs_semver.specs.Printing.Text.{upper_text};
ghost use Rattle.semver_core.specs.Printing.Text.{version_text};
ghost use Rattle.semver_answers.specs.Internal.Puts.{Extends};

use crate::output::Output;
use crate::put::put_version;
use nodejs_semver::cuts::Bound;
use nodejs_semver::{RangeRef, VersionRef};
use std::alloc::AllocError;

// `put_version`, which is not inlined at each bound.
#[inline(never)]
fn put_bound(version: &VersionRef<'_>, output: &mut Output) -> Result<(), AllocError>
    ensures ok { OnOk result
        (output.new ≡ output.old ++ version_text version.now) }
    ensures err { OnErr result (Extends output.old output.new) }
{
    put_version(version, output)
}

// A lower bound: `>=v` or `>v`, and nothing where there is none.
#[inline(always)]
fn put_lower(bound: &Bound<VersionRef<'_>>, output: &mut Output) -> Result<(), AllocError>
    ensures ok { OnOk result (output.new ≡ output.old ++ lower_text bound.now) }
    ensures err { OnErr result (Extends output.old output.new) }
{
    match bound {
        Bound::Unbounded => Ok(()),
        Bound::Before(version) => {
            output.put(b">=")?;
            put_bound(version, output)
        }
        Bound::After(version) => {
            output.push(b'>')?;
            put_bound(version, output)
        }
    }
}

// An upper bound: `<v` or `<=v`, and nothing where there is none.
#[inline(always)]
fn put_upper(bound: &Bound<VersionRef<'_>>, output: &mut Output) -> Result<(), AllocError>
    ensures ok { OnOk result (output.new ≡ output.old ++ upper_text bound.now) }
    ensures err { OnErr result (Extends output.old output.new) }
{
    match bound {
        Bound::Unbounded => Ok(()),
        Bound::Before(version) => {
            output.push(b'<')?;
            put_bound(version, output)
        }
        Bound::After(version) => {
            output.put(b"<=")?;
            put_bound(version, output)
        }
    }
}

/// Two bounds, or one version where they are `>=v` and `<=w` and v equals w.
#[inline(never)]
pub(crate) fn put_bounds(
    lower: &Bound<VersionRef<'_>>,
    upper: &Bound<VersionRef<'_>>,
    output: &mut Output,
) -> Result<(), AllocError>
    ensures ok { OnOk result (output.new ≡ output.old ++ bounds_text lower.now upper.now) }
    ensures err { OnErr result (Extends output.old output.new) }
{
    match (lower, upper) {
        (Bound::Unbounded, Bound::Unbounded) => output.put(b"*"),
        (Bound::Unbounded, _) => put_upper(upper, output),
        (_, Bound::Unbounded) => put_lower(lower, output),
        (Bound::Before(v), Bound::After(w)) if v.cmp(w).is_eq() => put_bound(v, output),
        (_, _) => {
            put_lower(lower, output)?;
            output.push(b' ')?;
            put_upper(upper, output)
        }
    }
}

/// Puts a range. Where an allocation fails, a part of it may be put.
#[tactic(auto, using(crate::proofs::Bytes::extended, crate::proofs::Bytes::onward))]
pub(crate) fn put_range(range: &RangeRef<'_>, output: &mut Output) -> Result<(), AllocError>
    ensures ok { OnOk result (output.new ≡ output.old ++ range_text range.now) }
    ensures err { OnErr result (Extends output.old output.new) }
{
    let Some((first, others)) = range.intervals().split_first() else {
        return Ok(());
    };
    put_bounds(first.lower(), first.upper(), output)?;
    for interval in others {
        output.put(b"||")?;
        put_bounds(interval.lower(), interval.upper(), output)?;
    }
    Ok(())
}
