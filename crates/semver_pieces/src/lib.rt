//! Pieces of the readers of range texts, for the crates of this repository that read other grammars
//! of ranges. Each reads at the front of the bytes of a text.
//!
//! They are no part of what the library promises its other callers: their contracts name
//! definitions that serve proofs, and those may change with the readers.
#![tactic(auto)]

mod bars;
mod boundaries;
mod bounds;
mod found;
mod fronts;
mod messages;
mod spaces;

pub use crate::bars::{after_bars, cut_part, next_part};
pub use crate::boundaries::{after_some_space, is_boundary, skip_to_boundary};
pub use crate::bounds::{Bounds, Comparator, lowest, release};
pub use crate::found::{Found, Intervals, owned_interval};
pub use crate::fronts::{
    begins_padded, behind_dot, build_front, component_front, digits_len, dotted_front,
    dotted_number, list_front, marked_list, number_front, pre_release_front,
};
pub use crate::messages::write_at;
pub use crate::spaces::{skip_spaces, space_len};
