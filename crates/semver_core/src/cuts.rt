//! Intervals over any totally ordered type. A cut is a place just before or just after a point, or
//! an end of the line; an interval is what lies between two cuts, the lower one below the upper
//! one.

mod bound;
mod cut_order;
mod interval;

pub use crate::cuts::bound::{Bound, Point};
pub use crate::cuts::interval::Interval;
