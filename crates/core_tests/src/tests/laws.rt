// Each law that is a function, called once, and what it returns.

use semver_core::cuts::Interval;
use semver_core::{Identifier, Version, laws};
use std::alloc::Global;
use std::cmp::Ordering;

#[test]
fn laws_of_texts_of_versions(rt: HostRuntime) {
    laws::whitespace_ends();
    laws::order_and_increments();
    laws::least_increments();
    laws::one_reading("1.2.3");
    laws::larger_limits("1.2.900719925474099");
    laws::common_reads_alike("1.2.3-a");
    laws::printed_versions_come_back("1.2.3");
    assert!(rt; laws::constants() == (9_007_199_254_740_991, 256));
}

fn everything_equals_itself() -> bool {
    let all = Interval::<Version>::default();
    laws::intervals_equal(&all, &all)
}

fn ranks(alloc: Global, text: &str, release: &Version) -> Option<(Ordering, bool)> {
    match Version::parse(alloc, text) {
        Ok(version) => Some(laws::versions_in_order(&version, release)),
        Err(_) => None,
    }
}

// How the version of a text ranks beside 1.2.3.
fn ranks_beside_a_release(alloc: Global, text: &str) -> Option<(Ordering, bool)> {
    ranks(alloc, text, &Version::from((1u8, 2, 3)))
}

#[test]
fn laws_of_the_order(rt: HostRuntime) {
    assert!(rt; everything_equals_itself());
    let (one, two) = (&Identifier::Numeric(1), &Identifier::Numeric(2));
    assert!(rt; laws::identifiers_in_order(one, two) == (Ordering::Less, false));
    let ranked = ranks_beside_a_release(rt.alloc(), "1.2.3+a");
    assert!(rt; ranked == Some((Ordering::Equal, true)));
}
