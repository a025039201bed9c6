// The order that counts builds.

use semver_core::{Version, cmp_build};
use std::alloc::Global;
use std::cmp::Ordering;

fn is_ordered(alloc: Global, first: &Version, second: &str, order: Ordering) -> bool {
    match Version::parse(alloc, second) {
        Ok(second) => cmp_build(first, &second) == order,
        Err(_) => false,
    }
}

fn orders(alloc: Global, first: &str, second: &str, order: Ordering) -> bool {
    match Version::parse(alloc, first) {
        Ok(first) => is_ordered(alloc, &first, second, order),
        Err(_) => false,
    }
}

const ORDERED: &[(&str, &str, Ordering)] = &[
    ("1.0.0", "1.0.0+1", Ordering::Less),
    ("1.0.0+9", "1.0.0+10", Ordering::Less),
    ("1.0.0+1", "1.0.0+1.a", Ordering::Less),
    ("1.0.0+1.a", "1.0.0+a", Ordering::Less),
    ("1.0.0+01", "1.0.0+1", Ordering::Equal),
    ("1.0.0+01", "1.0.0+1.a", Ordering::Less),
    ("1.0.0+1", "1.0.0-a+2", Ordering::Greater),
];

#[test]
fn builds_count_last(rt: HostRuntime) {
    for &(first, second, order) in ORDERED {
        assert!(rt;
            orders(rt.alloc(), first, second, order),
            "{first}, {second}"
        );
    }
}
