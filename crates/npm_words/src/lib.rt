//! Version texts and the words of range texts as npm's own library, node-semver, reads them.
//!
//! `npm_reading` passes on what users call.
#![tactic(auto)]

mod builds;
mod coerced;
mod comparators;
mod flaws;
mod hyphens;
mod ignored;
mod inside;
pub mod laws;
mod malformed_words;
mod messages;
mod options;
mod partial;
pub mod pieces;
mod places;
mod versions;
mod words;

pub use crate::builds::build_text;
pub use crate::coerced::{coerce, coerce_with};
pub use crate::flaws::{Flaw, Wrong, version_flaw};
pub use crate::options::{Coercion, Reading};
pub use crate::versions::{clean, version};
