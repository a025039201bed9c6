// Ranges with as many intervals as stand inline, and with more.

use super::{found_prints, is_text};
use nodejs_semver::Range;
use std::alloc::{AllocError, Global};
use std::fmt::Write;

const INTERVALS: &[usize] = &[1, 2, 20];

// So many versions, as in `0.0.0||1.0.0`.
fn range_text(alloc: Global, count: usize) -> Result<String, AllocError> {
    let mut text = String::new(alloc);
    for major in 0..count {
        if major > 0 {
            text.push_str("||")?;
        }
        write!(text, "{major}.0.0")?;
    }
    Ok(text)
}

// Whether the range of a text prints as that text, copied too.
fn range_is_kept(alloc: Global, text: &str) -> bool {
    match Range::parse(alloc, text) {
        Ok(range) => {
            is_text(range.to_string(alloc), text)
                && found_prints(alloc, range.copy(alloc).ok(), text)
        }
        Err(_) => false,
    }
}

fn keeps_intervals(alloc: Global, count: usize) -> bool {
    match range_text(alloc, count) {
        Ok(text) => range_is_kept(alloc, &text),
        Err(_) => false,
    }
}

#[test]
fn ranges_keep_their_intervals(rt: HostRuntime) {
    for &count in INTERVALS {
        assert!(rt; keeps_intervals(rt.alloc(), count), "{count}");
    }
}
