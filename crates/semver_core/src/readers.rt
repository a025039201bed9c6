//! The readers of version texts. They have no limit of length.

mod fast;
mod loose;

pub use crate::readers::fast::{triple_front, version_fast};
pub(crate) use crate::readers::fast::{leading_numbers, numbers};
pub use crate::readers::loose::version_loose;
pub(crate) use crate::readers::loose::{
    begins_lists, build_start, front_of_numbers, pre_release_start,
};
