// The set algebra of ranges. The program's lines `and` and `minus` ask more of it.

use super::found_prints;
use nodejs_semver::Range;
use std::alloc::Global;

// What two ranges give.
#[derive(Clone, Copy)]
enum Given {
    // What the first answers to `allows_all` and to `allows_any` of the second.
    Allowed(bool, bool),
    // What both hold prints so.
    Both(&'static str),
    // What the second leaves of the first prints so.
    Rest(&'static str),
}

fn gives_of(alloc: Global, first: &Range, second: &Range, given: Given) -> bool {
    match given {
        Given::Allowed(all, any) => {
            first.allows_all(second) == all && first.allows_any(second) == any
        }
        Given::Both(text) => intersects_to(alloc, first, second, text),
        Given::Rest(text) => leaves(alloc, first, second, text),
    }
}

fn intersects_to(alloc: Global, first: &Range, second: &Range, text: &str) -> bool {
    match first.intersect(alloc, second) {
        Ok(both) => found_prints(alloc, both, text),
        Err(_) => false,
    }
}

fn leaves(alloc: Global, first: &Range, second: &Range, text: &str) -> bool {
    match first.difference(alloc, second) {
        Ok(rest) => found_prints(alloc, rest, text),
        Err(_) => false,
    }
}

fn second_gives(alloc: Global, first: &Range, second: &str, given: Given) -> bool {
    match Range::parse(alloc, second) {
        Ok(second) => gives_of(alloc, first, &second, given),
        Err(_) => false,
    }
}

// Whether the ranges of two texts give this.
fn gives(alloc: Global, first: &str, second: &str, given: Given) -> bool {
    match Range::parse(alloc, first) {
        Ok(first) => second_gives(alloc, &first, second, given),
        Err(_) => false,
    }
}

// Two texts, whether the first range `allows_all` of the second, and whether it `allows_any` of it.
const ALLOWED: &[(&str, &str, bool, bool)] = &[
    ("2 - 8", "4 - 5", true, true),
    ("2 - 8", "1 - 4", false, true),
    ("2 - 8", "5 - 9", false, true),
    ("1.2.3 || >4", ">3", false, true),
    ("1.2.3 || >4", "1.9.4 || 2 - 3", false, false),
    (">=1.2.3", "0.1 || 1.4", true, true),
    (">=1.2.3", "0.1 || <1.2.0", false, false),
];

#[test]
fn allows_all_and_allows_any_ask_for_one_pair(rt: HostRuntime) {
    for &(these, others, all, any) in ALLOWED {
        assert!(rt;
            gives(rt.alloc(), these, others, Given::Allowed(all, any)),
            "{these} and {others}"
        );
    }
}

const FIRST: &str = "<1 || 3 - 4";

const SECOND: &str = "0.5 - 3.5.0";

#[test]
fn intersect_keeps_every_pair(rt: HostRuntime) {
    let both = Given::Both(">=0.5.0 <1.0.0||>=3.0.0 <=3.5.0");
    assert!(rt; gives(rt.alloc(), FIRST, SECOND, both));
}

#[test]
fn difference_takes_every_interval_away(rt: HostRuntime) {
    let rest = Given::Rest("<0.5.0||>3.5.0 <5.0.0-0");
    assert!(rt; gives(rt.alloc(), FIRST, SECOND, rest));
}
