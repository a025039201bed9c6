use anyhow::Result;
use nodejs_semver::{Failure, Version};
use npm_reading::{ReadRange, Reading};
use std::alloc::Global;

// The range of a text, as npm reads it.
fn range(alloc: Global, text: &str) -> Result<ReadRange<'_>> {
    match ReadRange::parse(alloc, text, Reading::default()) {
        Ok(range) => Ok(range),
        Err(Failure::Refused(error)) => Err(error.into()),
        Err(Failure::Memory(error)) => Err(error.into()),
    }
}

#[test]
fn a_range_or_an_error(rt: HostRuntime) {
    match range(rt.alloc(), "^1.2.3 || >=3") {
        Ok(range) => assert!(rt; range.satisfies(&Version::from((1u64, 9, 0)))),
        Err(_) => assert!(rt; false),
    }
    assert!(rt; range(rt.alloc(), ">=1.0.0, <2.0.0").is_err());
}
