// How ranges print.

ghost use Rattle.std.specs.Prelude.{◌++◌, ◌≡◌};
ghost use Rattle.nodejs_semver.specs.Words.{bound_of, DisplaysStyledOnOk, is_eq, lower_text};
ghost use Rattle.nodejs_semver.specs.Words.{range_text, Some, span_of, span_text};
ghost use Rattle.nodejs_semver.specs.Words.{upper_text, version_text};

use crate::RangeOf;
use semver_core::cuts::{Bound, Interval};
use semver_core::{VersionPoint, Versioned};
use std::fmt;

// A sign and a version.
fn write_signed<V: Versioned, W: fmt::Write>(
    sign: &str,
    version: &V,
    f: &mut fmt::Formatter<W>,
) -> fmt::Result
    ensures { DisplaysStyledOnOk W.write_str_gives f.old result
        (Some (sign.now ++ version_text (V.value version.now))) f.new }
{
    f.write_str(sign)?;
    version.print(f)
}

// A lower bound: `>=v` or `>v`, and nothing where there is none.
fn write_lower<V: Versioned, W: fmt::Write>(
    bound: &Bound<V>,
    f: &mut fmt::Formatter<W>,
) -> fmt::Result
    ensures { DisplaysStyledOnOk W.write_str_gives f.old result
        (Some (lower_text (bound_of V.value bound.now))) f.new }
{
    match bound {
        Bound::Unbounded => Ok(()),
        Bound::Before(version) => write_signed(">=", version, f),
        Bound::After(version) => write_signed(">", version, f),
    }
}

// An upper bound: `<v` or `<=v`, and nothing where there is none.
fn write_upper<V: Versioned, W: fmt::Write>(
    bound: &Bound<V>,
    f: &mut fmt::Formatter<W>,
) -> fmt::Result
    ensures { DisplaysStyledOnOk W.write_str_gives f.old result
        (Some (upper_text (bound_of V.value bound.now))) f.new }
{
    match bound {
        Bound::Unbounded => Ok(()),
        Bound::Before(version) => write_signed("<", version, f),
        Bound::After(version) => write_signed("<=", version, f),
    }
}

// Whether the versions are equal. It is not inlined: `write_interval` then takes less.
#[inline(never)]
fn are_equal<V: VersionPoint>(v: &V, w: &V) -> bool
    ensures { result ≡ is_eq (V.cmp v.now w.now) }
{
    v.cmp(w).is_eq()
}

// An interval: its bounds, or one version where they are `>=v` and `<=w` and v equals w.
fn write_interval<V: VersionPoint, W: fmt::Write>(
    interval: &Interval<V>,
    f: &mut fmt::Formatter<W>,
) -> fmt::Result
    ensures { DisplaysStyledOnOk W.write_str_gives f.old result
        (Some (span_text (span_of V.value interval.now))) f.new }
{
    let (lower, upper) = (interval.lower(), interval.upper());
    match (lower, upper) {
        (Bound::Unbounded, Bound::Unbounded) => f.write_str("*"),
        (Bound::Unbounded, _) => write_upper(upper, f),
        (_, Bound::Unbounded) => write_lower(lower, f),
        (Bound::Before(v), Bound::After(w)) if are_equal(v, w) => v.print(f),
        (_, _) => {
            write_lower(lower, f)?;
            f.write_str(" ")?;
            write_upper(upper, f)
        }
    }
}

/// A range prints its intervals joined by `||`, as in `>=1.2.0 <2.0.0-0||>=3.0.0-rc`. An interval
/// prints `*` without bounds, its bound where it has one, `v` where the bounds are `>=v` and `<=w`
/// and v equals w (the build of v is shown), and else its two bounds with a space between them. It
/// is the same text under each width, fill and precision.
///
/// `Range::parse` reads an equal range from this text where no interval is `*` and no number is
/// above `MAX_SAFE_INTEGER`, as `laws::printed_ranges_come_back` says. Two texts are read as other
/// ranges. `*` is read as `>=0.0.0`. And a range may have the number `MAX_SAFE_INTEGER + 1`, which
/// is read nowhere: `^9007199254740991` prints `>=9007199254740991.0.0 <9007199254740992.0.0-0`,
/// whose second word is malformed and so is ignored, without an error, when the text is read again.
/// What is read is `>=9007199254740991.0.0`, a wider range.
impl<V: VersionPoint> fmt::Display for RangeOf<V> {
    ghost output = { λ r. Some (range_text r) };

    ghost styled_output = { λ r _. Some (range_text r) };

    fn fmt<W: fmt::Write>(&self, f: &mut fmt::Formatter<W>) -> fmt::Result {
        let intervals = self.items();
        let mut separator = "";
        for interval in intervals {
            f.write_str(separator)?;
            write_interval(interval, f)?;
            separator = "||";
        }
        Ok(())
    }
}
