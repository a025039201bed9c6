//! Laws of the words that contracts speak in. Each is the contract of a function that does nothing,
//! or hardly anything, else; no caller needs this module.

mod alike;
mod ranges;

pub use crate::laws::alike::{npm_reads_alike, satisfied_alike};
pub use crate::laws::ranges::npm_intervals;
