// Questions about ranges: unions, subsets, and simpler ranges.

use super::prints;
use nodejs_semver::{Range, Version};
use std::alloc::{AllocError, Global};

// A question about two ranges, and its answer.
#[derive(Clone, Copy)]
enum Asked {
    // The union prints so.
    Union(&'static str),
    // Whether the second accepts what the first accepts, without pre-releases and with them.
    Subset(bool, bool),
    // Whether both accept the same, without pre-releases and with them.
    Same(bool, bool),
}

fn union_prints(alloc: Global, first: &Range, second: &Range, text: &str) -> bool {
    match first.union(alloc, second) {
        Ok(union) => prints(alloc, &union, text),
        Err(_) => false,
    }
}

fn says(answer: Result<bool, AllocError>, expected: bool) -> bool {
    match answer {
        Ok(answer) => answer == expected,
        Err(_) => false,
    }
}

fn answers_so(alloc: Global, first: &Range, second: &Range, asked: Asked) -> bool {
    match asked {
        Asked::Union(text) => union_prints(alloc, first, second, text),
        Asked::Subset(without, with) => {
            says(first.is_subset(alloc, second), without)
                && says(first.is_subset_with_prerelease(alloc, second), with)
        }
        Asked::Same(without, with) => {
            says(first.accepts_same(alloc, second), without)
                && says(first.accepts_same_with_prerelease(alloc, second), with)
        }
    }
}

fn second_answers(alloc: Global, first: &Range, second: &str, asked: Asked) -> bool {
    match Range::parse(alloc, second) {
        Ok(second) => answers_so(alloc, first, &second, asked),
        Err(_) => false,
    }
}

fn ranges_answer(alloc: Global, first: &str, second: &str, asked: Asked) -> bool {
    match Range::parse(alloc, first) {
        Ok(first) => second_answers(alloc, &first, second, asked),
        Err(_) => false,
    }
}

const RANGES: &[(&str, &str, Asked)] = &[
    (
        "^1.2",
        "^1.4 || 2.0.0-rc.1",
        Asked::Union(">=1.2.0 <2.0.0-0||2.0.0-rc.1"),
    ),
    (">=1.0.0", "1.2.3", Asked::Union(">=1.0.0")),
    // The first range covers the second, and does not accept its one version.
    (">=1.0.0", "1.2.3-a", Asked::Union(">=1.0.0||1.2.3-a")),
    // They touch, and joined would not accept 2.0.0-b.
    (
        ">=1.0.0 <2.0.0-a",
        ">=2.0.0-a",
        Asked::Union(">=1.0.0 <2.0.0-a||>=2.0.0-a"),
    ),
    (">=1 <3", "1 || 2", Asked::Subset(true, false)),
    ("1 || 2", ">=1 <3", Asked::Subset(true, true)),
    (">1.0.0 <1.0.1-0", "2", Asked::Subset(true, true)),
    // With pre-releases included the second holds 1.2.3-a too.
    (">=1.2.3-a", ">=1.0.0", Asked::Subset(false, true)),
    ("^1", ">=1.0.0 <2.0.0", Asked::Same(true, false)),
    ("1.x || 1.2.3", "1.2.3 || 1.x", Asked::Same(true, true)),
    ("^1", "^1.1", Asked::Same(false, false)),
];

#[test]
fn sets_by_name(rt: HostRuntime) {
    for &(first, second, asked) in RANGES {
        assert!(rt;
            ranges_answer(rt.alloc(), first, second, asked),
            "{first}, {second}"
        );
    }
}

fn simple_prints(alloc: Global, range: &Range, versions: &[Version], text: &str) -> bool {
    match range.simplify(alloc, versions) {
        Ok(simple) => prints(alloc, &simple, text),
        Err(_) => false,
    }
}

fn simplifies(alloc: Global, range: &str, versions: &[Version], text: &str) -> bool {
    match Range::parse(alloc, range) {
        Ok(range) => simple_prints(alloc, &range, versions, text),
        Err(_) => false,
    }
}

#[test]
fn simpler_ranges_answer_alike(rt: HostRuntime) {
    let versions = [Version::from((1u64, 0, 0)), Version::from((2u64, 1, 0))];
    let range = ">=5.0.0 || ^2 || 1.0.0";
    assert!(rt; simplifies(rt.alloc(), range, &versions, ">=2.0.0 <3.0.0-0||1.0.0"));
    // None is accepted, and so the range stays.
    assert!(rt; simplifies(rt.alloc(), ">=3.0.0 <4.0.0", &versions, ">=3.0.0 <4.0.0"));
}
