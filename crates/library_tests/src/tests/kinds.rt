// Ranges that are asked about versions of the other kind. Nothing is copied.

use nodejs_semver::{OutsideDirection, Range, RangeRef, Version, VersionRef};
use std::alloc::Global;

// A version, whether `>=1.2.3-a <2.0.0` accepts it, also with pre-releases included, and whether it
// lies above.
const ASKED: &[(&str, bool, bool, bool)] = &[
    ("1.2.3-b", true, true, false),
    ("1.3.0-b", false, true, false),
    ("1.3.0", true, true, false),
    ("2.0.0", false, false, true),
    ("0.9.0", false, false, false),
];

// What an owned range answers about a borrowed version.
fn owned_answers(range: &Range, version: &VersionRef<'_>, wanted: (bool, bool, bool)) -> bool {
    let (accepted, included, above) = wanted;
    range.satisfies(version) == accepted
        && version.satisfies(range) == accepted
        && range.satisfies_with_prerelease(version, true) == included
        && range.outside(version, OutsideDirection::Higher, true) == Ok(above)
}

// What a borrowed range answers about an owned version.
fn borrowed_answers(range: &RangeRef<'_>, version: &Version, wanted: (bool, bool, bool)) -> bool {
    let (accepted, included, above) = wanted;
    range.satisfies(version) == accepted
        && version.satisfies(range) == accepted
        && range.satisfies_with_prerelease(version, true) == included
        && range.outside(version, OutsideDirection::Higher, true) == Ok(above)
}

fn owned_answers_text(range: &Range, version: &str, wanted: (bool, bool, bool)) -> bool {
    match VersionRef::parse(version) {
        Ok(version) => owned_answers(range, &version, wanted),
        Err(_) => false,
    }
}

fn borrowed_answers_text(alloc: Global, version: &Version, wanted: (bool, bool, bool)) -> bool {
    match RangeRef::parse(alloc, ">=1.2.3-a <2.0.0") {
        Ok(range) => borrowed_answers(&range, version, wanted),
        Err(_) => false,
    }
}

fn all_answered(range: &Range) -> bool {
    ASKED.iter().all(|&(text, one, two, three)| owned_answers_text(range, text, (one, two, three)))
}

fn text_answered(alloc: Global, text: &str, wanted: (bool, bool, bool)) -> bool {
    match Version::parse(alloc, text) {
        Ok(version) => borrowed_answers_text(alloc, &version, wanted),
        Err(_) => false,
    }
}

#[test]
fn an_owned_range_answers_about_borrowed_versions(rt: HostRuntime) {
    match Range::parse(rt.alloc(), ">=1.2.3-a <2.0.0") {
        Ok(range) => assert!(rt; all_answered(&range)),
        Err(_) => assert!(rt; false),
    }
}

#[test]
fn a_borrowed_range_answers_about_owned_versions(rt: HostRuntime) {
    for &(text, one, two, three) in ASKED {
        assert!(rt;
            text_answered(rt.alloc(), text, (one, two, three)),
            "{text}"
        );
    }
}
