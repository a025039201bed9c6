//! Pieces of the readers, for the crates of this repository that read range texts with them.

pub use crate::comparators::{caret, compared, row, row_of_zeros, tilde};
pub use crate::hyphens::{End, Side, hyphen_ends};
pub use crate::ignored::behind_ignored;
pub use crate::malformed_words::malformed_part;
pub use crate::partial::{Partial, Sign};
pub use crate::places::{is_over, partial_front};
pub use crate::words::{is_short, word_front};
