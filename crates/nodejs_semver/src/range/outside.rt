// Versions that lie above or below a range.

ghost use Rattle.nodejs_semver.specs.Ranges.Outside as spec;
ghost use Rattle.nodejs_semver.specs.declared.range.outside.OutsideDirection.TheVariants as side;
ghost use Rattle.std.specs.Prelude.{◌≡◌};
ghost use Rattle.nodejs_semver.specs.Words.{lies_above, lies_below, Ok, span_of};

use crate::RangeOf;
use crate::range::gate::{accepts, is_past_lower, is_past_upper};
use semver_core::cuts::{Bound, Interval};
use semver_core::{VersionPoint, Versioned};
use std::fmt;
use thiserror::Error;

/// A side of a range, for `Range::outside`.
#[derive(Clone, Copy, PartialEq, Eq, Hash, Debug)]
pub enum OutsideDirection {
    /// Above the range, written `>`.
    Higher,
    /// Below the range, written `<`.
    Lower,
}

/// Writes `>` for `Higher` and `<` for `Lower`. Width, fill and precision change nothing.
impl fmt::Display for OutsideDirection {
    ghost use Rattle.nodejs_semver.specs.Ranges.Outside.{direction_char};
    ghost use Rattle.std.specs.Prelude.{Some, [], ◌∷◌};

    ghost output = { λ direction. Some (direction_char direction ∷ []) };

    ghost styled_output = { λ direction _. Some (direction_char direction ∷ []) };

    fn fmt<W: fmt::Write>(&self, f: &mut fmt::Formatter<W>) -> fmt::Result {
        f.write_str(match self {
            OutsideDirection::Higher => ">",
            OutsideDirection::Lower => "<",
        })
    }
}

/// Reads `>` and `<`, and rejects every other character with `RangeError::InvalidOutsideDirection`.
impl TryFrom<char> for OutsideDirection {
    type Error = RangeError;

    ghost try_from_gives = { λ c r. r ≡ spec.direction_of c };

    fn try_from(c: char) -> Result<OutsideDirection, RangeError> {
        match c {
            '>' => Ok(OutsideDirection::Higher),
            '<' => Ok(OutsideDirection::Lower),
            _ => Err(RangeError::InvalidOutsideDirection(c)),
        }
    }
}

/// The errors of questions about a range.
#[derive(Clone, Copy, PartialEq, Eq, Debug, Error)]
pub enum RangeError {
    /// The character names no side of a range.
    #[error("outside() only supports checking whether a version is above or below a range, \
             found `{0}`")]
    InvalidOutsideDirection(char),
    /// Kept for callers that match on it: no call returns it.
    #[error("outside() could not determine comparator bounds for this range")]
    MissingComparatorBounds,
}

impl<V: VersionPoint> RangeOf<V> {
    /// Whether the version lies outside the range on this side: the range does not accept it (the
    /// flag says whether pre-releases are included), and every interval lies on the other side. It
    /// never returns an error.
    ///
    /// For `Higher` every interval must have an upper bound, and a lower cut that is not after the
    /// version. For `Lower` every interval must have no bound at all, or a lower bound and an upper
    /// cut that is not before the version. So 2.0.0-beta is above `1` though its upper bound is
    /// `<2.0.0-0`, and 0.7.2-beta is below the range without bounds, which does not accept it.
    pub fn outside<W: Versioned>(
        &self,
        version: &W,
        direction: OutsideDirection,
        include_prerelease: bool,
    ) -> Result<bool, RangeError>
        ensures { result
            ≡ Ok (spec.is_outside direction include_prerelease self.now (W.value version.now)) }
    {
        let intervals = self.items();
        if accepts(intervals, version, include_prerelease) {
            return Ok(false);
        }
        Ok(
            intervals
                .iter()
                .all(|interval| lies_opposite(interval, version, direction)),
        )
    }
}

// Whether the interval lies on the other side of the version.
fn lies_opposite<V: VersionPoint, W: Versioned>(
    interval: &Interval<V>,
    version: &W,
    direction: OutsideDirection,
) -> bool
    ensures { result
        ≡ elim direction [
          | side.Higher ↦ lies_below (span_of V.value interval.now) (W.value version.now)
          | side.Lower ↦ lies_above (span_of V.value interval.now) (W.value version.now)
        ] }
{
    match (direction, interval.lower(), interval.upper()) {
        (OutsideDirection::Higher, _, Bound::Unbounded) => false,
        (OutsideDirection::Higher, lower, _) => is_past_lower(lower, version),
        (OutsideDirection::Lower, Bound::Unbounded, upper) => matches!(upper, Bound::Unbounded),
        (OutsideDirection::Lower, _, upper) => !is_past_upper(upper, version),
    }
}
