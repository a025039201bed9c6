//! Versions as npm reads, orders and prints them, and intervals over any order.
//!
//! Allocating functions take the allocator and report allocation failure in their error type.
#![tactic(auto)]

mod borrowed;
pub mod cuts;
mod difference;
mod error;
mod identifier;
mod increment;
mod keys;
pub mod laws;
mod print;
mod reach;
pub mod readers;
mod version;

pub use crate::borrowed::VersionRef;
pub use crate::borrowed::identifier::IdentifierRef;
pub use crate::borrowed::identifiers::IdentifierRefs;
pub use crate::difference::{ReleaseType, VersionDiff};
pub use crate::error::{Failure, NegativeNumber, SemverError};
pub use crate::identifier::Identifier;
pub use crate::increment::next::NextVersion;
pub use crate::increment::next_ids::NextIds;
pub use crate::increment::{IdentifierBase, IncrementError};
pub use crate::version::Version;
pub use crate::version::accepts::{Accepts, AcceptsRef};
pub use crate::version::parts::VersionParts;
pub use crate::version::precedence::cmp_build;
pub use crate::version::versioned::{VersionPoint, Versioned};
use std::alloc::AllocError;

pub mod scan;

/// The greatest number that is read from a text: JavaScript's `Number.MAX_SAFE_INTEGER`, 2^53 - 1.
pub const MAX_SAFE_INTEGER: u64 = 9_007_199_254_740_991;

/// The length of the longest text that `Version::parse` reads, in bytes.
pub const MAX_LENGTH: usize = 256;

/// What a private function that allocates returns: its result, or the allocation failure.
pub(crate) type Allocated<T> = Result<T, AllocError>;
