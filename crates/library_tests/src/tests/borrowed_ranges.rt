// Ranges that borrow their text.

use super::{hash_of, is_same, prints};
use nodejs_semver::{
    OutsideDirection, Range, RangeReader, RangeRef, SemverError, Version, VersionRef,
    interval_accepts, word_field,
};
use std::alloc::Global;

// A range text and its printed text.
const PRINTED: &[(&str, &str)] = &[
    ("^1.2", ">=1.2.0 <2.0.0-0"),
    ("foo 1.2.3", "1.2.3"),
    ("1.2.3 ||", "1.2.3||*"),
    (">2 <1", ">=3.0.0||<1.0.0"),
    ("", "*"),
];

// Whether the range that owns what this one borrows equals that of the text.
fn owned_equals(alloc: Global, range: &RangeRef<'_>, text: &str) -> bool {
    match range.to_range(alloc) {
        Ok(owned) => is_same(Range::parse(alloc, text).ok(), &owned),
        Err(_) => false,
    }
}

fn reads_as(alloc: Global, text: &str, printed: &str) -> bool {
    match RangeRef::parse(alloc, text) {
        Ok(range) => prints(alloc, &range, printed) && owned_equals(alloc, &range, text),
        Err(_) => false,
    }
}

#[test]
fn borrowed_ranges_read_and_print_as_owned_ones(rt: HostRuntime) {
    for &(text, printed) in PRINTED {
        assert!(rt; reads_as(rt.alloc(), text, printed), "{text}");
    }
    assert!(rt; RangeRef::parse(rt.alloc(), "latest").is_err());
}

// The versions of which a range accepts some.
fn versions<'a>() -> Result<[VersionRef<'a>; 4], SemverError> {
    Ok([
        VersionRef::parse("1.2.3-b")?,
        VersionRef::parse("1.3.0-b")?,
        VersionRef::parse("1.3.0")?,
        VersionRef::parse("2.0.0")?,
    ])
}

fn accepts<'a>(range: &RangeRef<'a>, versions: &[VersionRef<'a>; 4]) -> bool {
    range.satisfies(&versions[0])
        && !range.satisfies(&versions[1])
        && range.satisfies_with_prerelease(&versions[1], true)
        && range.outside(&versions[3], OutsideDirection::Higher, false) == Ok(true)
        && versions[0].satisfies(range)
        && !versions[1].satisfies(range)
        && versions[1].satisfies_with_prerelease(range, true)
}

fn chooses<'a>(range: &RangeRef<'a>, versions: &[VersionRef<'a>; 4]) -> bool {
    range.max_satisfying(versions) == Some(&versions[2])
        && range.min_satisfying(versions) == Some(&versions[0])
}

fn accepts_and_chooses(range: &RangeRef<'_>) -> bool {
    match versions() {
        Ok(versions) => accepts(range, &versions) && chooses(range, &versions),
        Err(_) => false,
    }
}

fn text_accepts_and_chooses(alloc: Global, text: &str) -> bool {
    match RangeRef::parse(alloc, text) {
        Ok(range) => accepts_and_chooses(&range),
        Err(_) => false,
    }
}

#[test]
fn borrowed_ranges_answer(rt: HostRuntime) {
    assert!(rt; text_accepts_and_chooses(rt.alloc(), ">=1.2.3-a <2"));
}

fn are_equal(alloc: Global, one: &str, other: &str) -> bool {
    match (RangeRef::parse(alloc, one), RangeRef::parse(alloc, other)) {
        (Ok(one), Ok(other)) => one == other && hash_of(&one) == hash_of(&other),
        _ => false,
    }
}

#[test]
fn borrowed_ranges_are_equal_by_their_bounds(rt: HostRuntime) {
    assert!(rt; are_equal(rt.alloc(), "^1.2 || 3.x", "^1.2.0||>=3.0.0 <4.0.0-0"));
    assert!(rt; are_equal(rt.alloc(), ">=1.2.3+a", ">= v1.2.3+b"));
    assert!(rt; !are_equal(rt.alloc(), ">=1.2.3", ">1.2.3"));
    assert!(rt; !are_equal(rt.alloc(), "^1.2 || 3.x", "^1.2"));
}

fn first_held(alloc: Global, text: &str) -> Option<Version> {
    let range = RangeRef::parse(alloc, text).ok()?;
    range.min_version_with_prerelease(alloc).ok()?
}

#[test]
fn borrowed_ranges_have_a_first_version(rt: HostRuntime) {
    let alloc = rt.alloc();
    assert!(rt; first_held(alloc, ">1.0.0") == Version::parse(alloc, "1.0.1-0").ok());
    assert!(rt; first_held(alloc, ">1.0.0 <1.0.1-0").is_none());
}

fn is_printed(alloc: Global, range: Option<RangeRef<'_>>, text: &str) -> bool {
    match range {
        Some(range) => prints(alloc, &range, text),
        None => false,
    }
}

fn meets<'a>(alloc: Global, one: &RangeRef<'a>, other: &RangeRef<'a>, text: &str) -> bool {
    match one.intersect(alloc, other) {
        Ok(both) => is_printed(alloc, both, text),
        Err(_) => false,
    }
}

fn leaves<'a>(alloc: Global, one: &RangeRef<'a>, other: &RangeRef<'a>, text: &str) -> bool {
    match one.difference(alloc, other) {
        Ok(left) => is_printed(alloc, left, text),
        Err(_) => false,
    }
}

fn are_sets<'a>(alloc: Global, one: &RangeRef<'a>, other: &RangeRef<'a>) -> bool {
    meets(alloc, one, other, "1.5.0")
        && leaves(alloc, one, other, ">=1.2.0 <1.5.0||>1.5.0 <2.0.0-0")
        && one.allows_all(other)
        && !other.allows_all(one)
        && other.allows_any(one)
}

fn second_is_set<'a>(alloc: Global, one: &RangeRef<'a>, other: &'a str) -> bool {
    match RangeRef::parse(alloc, other) {
        Ok(other) => are_sets(alloc, one, &other),
        Err(_) => false,
    }
}

fn texts_are_sets<'a>(alloc: Global, one: &'a str, other: &'a str) -> bool {
    match RangeRef::parse(alloc, one) {
        Ok(one) => second_is_set(alloc, &one, other),
        Err(_) => false,
    }
}

#[test]
fn borrowed_ranges_are_sets(rt: HostRuntime) {
    assert!(rt; texts_are_sets(rt.alloc(), "^1.2", "1.5.0"));
}

// Whether the first field is a word whose interval accepts the version only with pre-releases
// included, and ends at this place.
fn is_word_field(fields: &str, end: usize, version: &VersionRef<'_>) -> bool {
    match word_field(fields) {
        Some((interval, place)) => {
            place == end
                && interval_accepts(&interval, version, true)
                && !interval_accepts(&interval, version, false)
        }
        None => false,
    }
}

#[test]
fn the_word_of_the_first_field(rt: HostRuntime) -> Result<(), SemverError> {
    let version = VersionRef::parse("1.3.0-b")?;
    assert!(rt; is_word_field("^1.2.3;1.3.0-b\n", 6, &version));
    assert!(rt; is_word_field("~1.2.3-a;1.3.0\n", 8, &VersionRef::parse("1.2.4-a")?));
    assert!(rt; is_word_field("^1;", 2, &version));
    assert!(rt; word_field("^1.2.3\n").is_none());
    assert!(rt; word_field("^1.2.3 || 3;1.3.0\n").is_none());
    assert!(rt; word_field(">=1;1.3.0\n").is_none());
    Ok(())
}

// Whether the first field is a range that prints so, and ends at this place.
fn reads_field<'a>(
    alloc: Global,
    reader: &mut RangeReader<'a>,
    fields: &'a str,
    printed: &str,
    end: usize,
) -> bool {
    match reader.read_field(fields) {
        (Ok(range), place) => place == end && prints(alloc, range, printed),
        (Err(_), _) => false,
    }
}

#[test]
fn ranges_of_fields_in_the_same_memory(rt: HostRuntime) {
    let alloc = rt.alloc();
    let mut reader = RangeReader::new(alloc);
    let fields = "^1 || foo 2 || >=3;1.0.0\n";
    assert!(rt;
        reads_field(
            alloc,
            &mut reader,
            fields,
            ">=1.0.0 <2.0.0-0||>=2.0.0 <3.0.0-0||>=3.0.0",
            18
        )
    );
    assert!(rt; reads_field(alloc, &mut reader, "~1.2\n", ">=1.2.0 <1.3.0-0", 4));
    assert!(rt; reader.read_field("latest;1.0.0").0.is_err());
    assert!(rt; reads_field(alloc, &mut reader, "", "*", 0));
}
