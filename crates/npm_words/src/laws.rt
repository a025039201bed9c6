//! Laws of the words that contracts speak in. Each is the contract of a function that does nothing,
//! or hardly anything, else; no caller needs this module.

mod once;

pub use crate::laws::once::npm_reads_once;
