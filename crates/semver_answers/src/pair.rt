// What comes of two ranges of one interval each, printed with a line feed. No range is made of it:
// its bounds are put where they stand.

ghost use Rattle.std.specs.Prelude.{◌≡◌, ◌++◌, ◌∷◌, [], OnErr, OnOk};
ghost use Rattle.nodejs_semver.specs.Printing.Text.{bounds_text, range_text};
ghost use Rattle.semver_core.specs.Cuts.{greater_lower, lesser_upper};
ghost use Rattle.semver_core.specs.Values.Order.{precedence};
ghost use Rattle.semver_answers.specs.Internal.Parts.{combined};
ghost use Rattle.semver_answers.specs.Internal.Puts.{Extends};
ghost use Rattle.semver_answers.specs.Lines.{ended};
ghost use Rattle.semver_answers.specs.Names.{or_none};
ghost use Rattle.semver_answers.specs.declared.parts.Combination.TheVariants.{Difference};
ghost use Rattle.semver_answers.specs.declared.parts.Combination.TheVariants.{Intersection};

use crate::output::Output;
use crate::parts::Combination;
use crate::put::ranges::put_bounds;
use nodejs_semver::VersionRef;
use nodejs_semver::cuts::{Bound, Interval};
use std::alloc::AllocError;

/// The intersection or the difference of two intervals, or `none`.
#[inline(always)]
pub(crate) fn put_of_two<'b, 't>(
    asked: Combination,
    one: &'b Interval<VersionRef<'t>>,
    other: &'b Interval<VersionRef<'t>>,
    output: &mut Output,
) -> Result<(), AllocError>
    ensures ok { OnOk result (output.new ≡ output.old
        ++ ended (or_none range_text (combined asked (one.now ∷ []) (other.now ∷ [])))) }
    ensures err { OnErr result (Extends output.old output.new) }
{
    match asked {
        Combination::Intersection if !one.meets(other) => output.put(b"none\n"),
        Combination::Intersection => {
            let lower = greater_lower(one.lower(), other.lower());
            let upper = lesser_upper(one.upper(), other.upper());
            put_line(lower, upper, output)
        }
        Combination::Difference => put_left(one, other, output),
    }
}

// Two bounds, with a line feed.
#[inline(always)]
#[tactic(auto, using(crate::proofs::Bytes::extended))]
fn put_line(
    lower: &Bound<VersionRef<'_>>,
    upper: &Bound<VersionRef<'_>>,
    output: &mut Output,
) -> Result<(), AllocError>
    ensures ok { OnOk result (output.new ≡ output.old ++ ended (bounds_text lower.now upper.now)) }
    ensures err { OnErr result (Extends output.old output.new) }
{
    put_bounds(lower, upper, output)?;
    output.push(b'\n')
}

// The lower bound that is further up, the second of equal ones.
#[inline(always)]
fn greater_lower<'b, 't>(
    one: &'b Bound<VersionRef<'t>>,
    other: &'b Bound<VersionRef<'t>>,
) -> &'b Bound<VersionRef<'t>>
    ensures { result.now ≡ greater_lower precedence one.now other.now }
{
    if one.cmp_lower(other).is_gt() {
        one
    } else {
        other
    }
}

// The upper bound that is further down, the first of equal ones.
#[inline(always)]
fn lesser_upper<'b, 't>(
    one: &'b Bound<VersionRef<'t>>,
    other: &'b Bound<VersionRef<'t>>,
) -> &'b Bound<VersionRef<'t>>
    ensures { result.now ≡ lesser_upper precedence one.now other.now }
{
    if one.cmp_upper(other).is_gt() {
        other
    } else {
        one
    }
}

// What the second interval leaves of the first, or `none`.
fn put_left(
    one: &Interval<VersionRef<'_>>,
    other: &Interval<VersionRef<'_>>,
    output: &mut Output,
) -> Result<(), AllocError>
    ensures ok { OnOk result (output.new ≡ output.old
        ++ ended (or_none range_text (combined Difference (one.now ∷ []) (other.now ∷ [])))) }
    ensures err { OnErr result (Extends output.old output.new) }
{
    if !one.meets(other) {
        return put_line(one.lower(), one.upper(), output);
    }
    let is_left_below = one.lower().cmp_lower(other.lower()).is_lt();
    let is_left_above = other.upper().cmp_upper(one.upper()).is_lt();
    match (is_left_below, is_left_above) {
        (false, false) => output.put(b"none\n"),
        (true, false) => put_line(one.lower(), other.lower(), output),
        (false, true) => put_line(other.upper(), one.upper(), output),
        (true, true) => {
            put_bounds(one.lower(), other.lower(), output)?;
            output.put(b"||")?;
            put_line(other.upper(), one.upper(), output)
        }
    }
}
