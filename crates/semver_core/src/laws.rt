//! Laws over the definitions alone. Each is the contract of a function that does nothing, or hardly
//! anything, else; no caller needs this module.

mod increments;
mod key_order;
mod order;
mod printing;
mod reading;

pub use crate::laws::increments::least_increments;
pub use crate::laws::key_order::keys;
pub use crate::laws::order::{
    identifiers_in_order, intervals_equal, order_and_increments, order_with_builds,
    versions_in_order,
};
pub use crate::laws::printing::{
    identifier_in_field, printed_versions_come_back, reread, version_in_field,
};
pub use crate::laws::reading::{
    both_readers, common_reads_alike, constants, larger_limits, one_reading, whitespace_ends,
};
