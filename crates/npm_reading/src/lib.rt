//! What npm's own library, node-semver, answers and the port does not, beside the port.
//!
//! Its reading of texts is the strict one, which npm uses, beside the lenient one of
//! [`VersionRef::parse`](crate::VersionRef) and [`Range::parse`](crate::Range): a version text has
//! no leading zeros, one `v` in front at most, a `-` before its pre-release, and nothing after it.
//! [`version_flaw`] says what is wrong with another text, and where. A [`Reading`] says whether a
//! text is read loosely in place of strictly, and a [`Coercion`] what is looked for in any text.
//!
//! A version lies above or below a range by name, and [`build_text`] returns a build as it is
//! written.
#![tactic(auto)]

mod alternatives;
mod common;
pub mod laws;
mod messages;
mod range_flaws;
mod ranges;
mod readings;
mod sides;

pub use crate::range_flaws::{RangeFlaw, range_flaw};
pub use crate::ranges::range;
pub use crate::readings::ReadRange;
pub use crate::sides::{gtr, ltr};
pub use npm_words::{
    Coercion, Flaw, Reading, Wrong, build_text, clean, coerce, coerce_with, version, version_flaw,
};
use std::alloc::AllocError;

/// What a private function that allocates returns: its result, or the allocation failure.
pub(crate) type Allocated<T> = Result<T, AllocError>;
