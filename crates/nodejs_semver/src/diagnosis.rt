//! What is wrong with a version text, what of it is ignored, and which words of a range text are.
//!
//! The grammar is lenient: `5.0.0.9 oops` is the version 5.0.0, and `>=1.0.0, <2.0.0` is the range
//! `<2.0.0`. `parse` does not say so; the calls here do. They allocate nothing.

mod messages;
mod ranges;
mod unread;
mod versions;

pub use crate::diagnosis::ranges::{IgnoredKind, IgnoredWord, IgnoredWords, ignored_words};
pub use crate::diagnosis::versions::{Expected, VersionFlaw, version_flaw};
