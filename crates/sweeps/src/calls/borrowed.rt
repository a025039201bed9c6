// The calls on ranges that borrow their text.

use crate::calls::show::{Both, Outcome, found, no_values, read, show, show_debug};
use nodejs_semver::{OutsideDirection, RangeRef, VersionRef};
use std::alloc::Global;
use std::io;

// One interval, which stands inline.
const LONE: &str = "^1.2.3-a.1.b";

/// Makes each call on borrowed ranges, about the ranges of two texts where it is about two.
pub fn show_all(rt: &impl Print, alloc: Global, one: &str, other: &str) -> io::Result<()> {
    for text in [LONE, one, "foo", "||"] {
        show(
            rt,
            "RangeRef::parse",
            read(RangeRef::parse(alloc, text)),
            &text,
        )?;
    }
    questions(rt, alloc, LONE)?;
    algebra(rt, alloc, one, other)?;
    choices(rt, alloc, one)
}

// The calls that allocate nothing.
fn questions(rt: &impl Print, alloc: Global, text: &str) -> io::Result<()> {
    match RangeRef::parse(alloc, text) {
        Ok(range) => answers(rt, &range, "1.2.3-b.2", "1.3.0-b.2"),
        Err(_) => no_values(rt, "questions"),
    }
}

fn answers<'a>(
    rt: &impl Print,
    range: &RangeRef<'a>,
    beta: &'a str,
    next: &'a str,
) -> io::Result<()> {
    let (Ok(beta), Ok(next)) = (VersionRef::parse(beta), VersionRef::parse(next)) else {
        return no_values(rt, "questions");
    };
    let answers = [
        ("RangeRef::satisfies", range.satisfies(&beta)),
        (
            "RangeRef::satisfies_with_prerelease",
            range.satisfies_with_prerelease(&next, true),
        ),
        ("VersionRef::satisfies", next.satisfies(range)),
        (
            "VersionRef::satisfies_with_prerelease",
            next.satisfies_with_prerelease(range, true),
        ),
        (
            "RangeRef::outside",
            range.outside(&beta, OutsideDirection::Higher, false) == Ok(true),
        ),
        // The borrow checker takes no reference twice in one call.
        ("RangeRef::allows_all", range.allows_all(&*range)),
        ("RangeRef::allows_any", range.allows_any(&*range)),
        ("RangeRef::eq", *range == *range),
    ];
    for (call, answer) in answers {
        show(rt, call, Outcome::Value(answer), range)?;
    }
    let versions = [beta, next];
    show_debug(
        rt,
        "RangeRef::max_satisfying",
        Outcome::Value(range.max_satisfying(&versions).is_some()),
        range,
    )?;
    show_debug(
        rt,
        "RangeRef::min_satisfying",
        Outcome::Value(range.min_satisfying(&versions).is_some()),
        range,
    )
}

fn algebra(rt: &impl Print, alloc: Global, one: &str, other: &str) -> io::Result<()> {
    match RangeRef::parse(alloc, one) {
        Ok(one) => beside(rt, alloc, &one, other),
        Err(_) => no_values(rt, "borrowed algebra"),
    }
}

fn beside<'a>(
    rt: &impl Print,
    alloc: Global,
    one: &RangeRef<'a>,
    other: &'a str,
) -> io::Result<()> {
    match RangeRef::parse(alloc, other) {
        Ok(other) => pair(rt, alloc, one, &other),
        Err(_) => no_values(rt, "borrowed algebra"),
    }
}

fn pair<'a>(
    rt: &impl Print,
    alloc: Global,
    one: &RangeRef<'a>,
    other: &RangeRef<'a>,
) -> io::Result<()> {
    let both = Both { one, other };
    show(
        rt,
        "RangeRef::intersect",
        found(one.intersect(alloc, other)),
        &both,
    )?;
    show(
        rt,
        "RangeRef::difference",
        found(one.difference(alloc, other)),
        &both,
    )?;
    show(
        rt,
        "RangeRef::least_beyond",
        found(one.least_beyond(alloc, other)),
        &both,
    )
}

fn choices(rt: &impl Print, alloc: Global, text: &str) -> io::Result<()> {
    match RangeRef::parse(alloc, text) {
        Ok(range) => choices_of(rt, alloc, &range),
        Err(_) => no_values(rt, "borrowed choices"),
    }
}

fn choices_of(rt: &impl Print, alloc: Global, range: &RangeRef<'_>) -> io::Result<()> {
    show(
        rt,
        "RangeRef::to_range",
        Outcome::from(range.to_range(alloc)),
        range,
    )?;
    show(
        rt,
        "RangeRef::min_version",
        found(range.min_version(alloc)),
        range,
    )?;
    show(
        rt,
        "RangeRef::min_version_with_prerelease",
        found(range.min_version_with_prerelease(alloc)),
        range,
    )
}
