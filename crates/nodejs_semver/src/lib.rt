//! npm's versions and ranges: reads them, compares them, computes with ranges as sets, and finds
//! the best, the smallest and the next version.
//!
//! ```rust
//! use nodejs_semver::{Range, Version};
//! use std::test::Fail;
//!
//! fn the_best_of_two_versions(rt: HostRuntime) -> Result<(), Fail> {
//!     let alloc = rt.alloc();
//!     let range = Range::parse(alloc, "^1.2.3 || >=3.0.0-rc.1")?;
//!     let beta = Version::parse(alloc, "1.3.0-beta")?;
//!     assert!(rt; !range.satisfies(&beta));
//!
//!     let versions = [Version::from((1u64, 2, 9)), beta];
//!     assert_eq!(rt; range.max_satisfying(&versions), Some(&versions[0]));
//!
//!     let smallest = range.min_version(alloc)?;
//!     assert_eq!(rt; smallest, Some(Version::from((1u64, 2, 3))));
//!     Ok(())
//! }
//! ```
//!
//! Allocating functions take the allocator and report allocation failure in their error type:
//! `AllocError`, or [`Failure`] where the function may also reject its input. A caller's own
//! contract cites the definitions that the contracts here name; `docs/CALLING.md` of the repository
//! shows how.
#![tactic(auto)]

pub mod diagnosis;
pub mod json;
pub mod laws;
pub mod pieces;
mod range;
pub mod readers;

pub use crate::range::best::newest_release;
pub use crate::range::gate::interval_accepts;
pub use crate::range::{
    OutsideDirection, Range, RangeError, RangeOf, RangeReader, RangeRef, word_field,
};
pub use semver_core::{
    Accepts, AcceptsRef, Failure, Identifier, IdentifierBase, IdentifierRef, IdentifierRefs,
    IncrementError, MAX_LENGTH, MAX_SAFE_INTEGER, NegativeNumber, NextIds, NextVersion,
    ReleaseType, SemverError, Version, VersionDiff, VersionParts, VersionPoint, VersionRef,
    Versioned, cmp_build, cuts,
};
use std::alloc::AllocError;

/// What a private function that allocates returns: its result, or the allocation failure.
pub(crate) type Allocated<T> = Result<T, AllocError>;
