//! The readers of version and range texts. They have no limit of length.

mod fast;
mod intervals;
mod loose;
mod partial;
mod syntax;
mod table;
mod words;

pub use crate::readers::fast::range_fast;
pub(crate) use crate::readers::fast::{
    Alone, InLines, Place, read_common, read_front, signed_front,
};
pub(crate) use crate::readers::intervals::word_front;
pub(crate) use crate::readers::loose::read_any;
pub use crate::readers::loose::{is_blank, range_loose};
pub use semver_core::readers::{version_fast, version_loose};
pub(crate) use semver_pieces::{
    Bounds, Comparator, Found, after_bars, after_some_space, build_front, cut_part, is_boundary,
    lowest, marked_list, next_part, pre_release_front, release, skip_spaces, skip_to_boundary,
    space_len,
};
