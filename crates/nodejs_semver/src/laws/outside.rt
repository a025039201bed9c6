// What `Range::outside` says of the cuts of the intervals.

ghost use Rattle.std.specs.Prelude.{◌≡◌};
ghost use Rattle.nodejs_semver.specs.Words.{Higher, is_past, list_all, Lower, lower_cut, not, Ok};
ghost use Rattle.nodejs_semver.specs.Words.{precedence, upper_cut};

use crate::{OutsideDirection, Range, RangeError, Version};

/// With pre-releases included the cuts alone decide: `Range::outside` is true for `Higher` exactly
/// where the version lies after every interval's upper cut, and for `Lower` exactly where it lies
/// before every interval's lower cut.
pub fn outside_by_cuts(
    range: &Range,
    version: &Version,
    direction: OutsideDirection,
) -> Result<bool, RangeError>
    ensures higher { direction ≡ Higher → result
        ≡ Ok (list_all (λ s. is_past precedence (upper_cut s.upper) version.now) range.now) }
    ensures lower { direction ≡ Lower → result
        ≡ Ok (list_all (λ s. not (is_past precedence (lower_cut s.lower) version.now)) range.now) }
{
    // Proof helper: the bounds of a range are those of intervals. The call has no effect at run
    // time.
    let _intervals = range.intervals();
    range.outside(version, direction, true)
}
