mod ends;
mod errors;
mod laws;
mod newest;
mod packages;
mod run;

use std::alloc::{AllocError, Global};

// The text that begins so and goes on with another so many times.
fn long_text(alloc: Global, head: &str, rest: &str, count: usize) -> Result<String, AllocError> {
    let mut text = String::from_str(alloc, head)?;
    for _ in 0..count {
        text.push_str(rest)?;
    }
    Ok(text)
}
