//! The index of a package in a registry: its versions in order, and the newest that a range
//! accepts.

ghost use Rattle.nodejs_semver.specs.Order.{precedence};
ghost use Rattle.nodejs_semver.specs.Ranges.Gate.{accepts};
ghost use Rattle.std.specs.Ordering.{is_le};
ghost use Rattle.std.specs.Prelude.{◌≡◌, ◌<◌, All, Contains, IfNone, IfOk, IfSome, IsPermutation};
ghost use Rattle.std.specs.Prelude.{IsSorted, OnErr, false, length, true};

use nodejs_semver::{Range, Version};
use std::alloc::AllocError;

/// The versions of a package: those that are listed, in order, and those that were withdrawn.
#[derive(Drop)]
pub struct Index {
    /// The versions that may be installed, the oldest first.
    pub listed: Vec<Version>,
    /// The versions that were published and may not be installed any more.
    pub withdrawn: Vec<Version>,
    ghost in_order: { IsSorted precedence listed.items },
}

impl Index {
    /// The index of these versions, which are put in order. Fails only if allocation fails, which
    /// happens only where there are two or more to put in order.
    pub fn new(mut listed: Vec<Version>, withdrawn: Vec<Version>) -> Result<Index, AllocError>
        ensures listed { IfOk result (λ index. IsPermutation listed.items index.listed.items) }
        ensures withdrawn { IfOk result (λ index. index.withdrawn ≡ withdrawn) }
        ensures memory { OnErr result (1 < length listed.items) }
    {
        if listed.len() > 1 {
            listed.sort()?;
        }
        Ok(Index { listed, withdrawn })
    }

    /// The newest of the listed versions that the range accepts. Returns `None` exactly if it
    /// accepts none of them.
    pub fn newest(&self, range: &Range) -> Option<&Version>
        ensures member { IfSome result (λ v. Contains self.now.listed.items v.now) }
        ensures accepted { IfSome result (λ v. accepts range.now v.now false ≡ true) }
        ensures newest { IfSome result (λ v. All (λ w. accepts range.now w false ≡ true
            → is_le (precedence w v.now) ≡ true) self.now.listed.items) }
        ensures none { IfNone result
            (All (λ w. accepts range.now w false ≡ false) self.now.listed.items) }
    {
        range.max_satisfying(&self.listed)
    }
}
