//! Pieces for the crates of this repository that make ranges of other readings.

pub use crate::range::best::{greatest, least};
