//! Each call that allocates, once for each of a few values.

mod borrowed;
mod laws;
mod ranges;
mod show;
mod texts;
mod versions;

use std::alloc::Global;
use std::io;

/// Makes each call that allocates, and prints one line for each: what it returned and what it
/// borrowed, or `memory` in place of what it returned.
pub fn show_all(rt: &impl Print, alloc: Global) -> io::Result<()> {
    versions::show_all(rt, alloc)?;
    ranges::show_all(rt, alloc)?;
    texts::show_all(rt, alloc)
}
