// Equality and hash of ranges.

ghost use Rattle.nodejs_semver.specs.Words.{partial_equiv_from_equiv, range_alike, range_eq};
ghost use Rattle.nodejs_semver.specs.Words.{range_equiv, range_writes};

use crate::{Range, RangeRef};
use std::hash::{Hash, Hasher};

/// Equality of the lists of intervals.
impl PartialEq for Range {
    ghost eq = { range_eq };

    ghost laws = { partial_equiv_from_equiv range_equiv };

    /// Whether both have as many intervals, and each equals the one in its place. Build metadata
    /// does not count.
    fn eq(&self, other: &Range) -> bool {
        self.intervals() == other.intervals()
    }
}

/// Equality is reflexive, symmetric and transitive.
impl Eq for Range {
    ghost laws = { range_equiv };
}

/// The intervals, so that equal ranges hash alike.
impl Hash for Range {
    ghost hash_input = { range_writes };

    ghost respects_eq = { range_alike };

    fn hash<H: Hasher>(&self, state: &mut H) {
        self.intervals().hash(state);
    }
}

/// Equality of the lists of intervals, as that of `Range`.
impl<'a> PartialEq for RangeRef<'a> {
    ghost eq = { range_eq };

    ghost laws = { partial_equiv_from_equiv range_equiv };

    fn eq(&self, other: &RangeRef<'a>) -> bool {
        self.intervals() == other.intervals()
    }
}

/// Equality is reflexive, symmetric and transitive.
impl<'a> Eq for RangeRef<'a> {
    ghost laws = { range_equiv };
}

/// The intervals: the same as those of an equal `Range`.
impl<'a> Hash for RangeRef<'a> {
    ghost hash_input = { range_writes };

    ghost respects_eq = { range_alike };

    fn hash<H: Hasher>(&self, state: &mut H) {
        self.intervals().hash(state);
    }
}
