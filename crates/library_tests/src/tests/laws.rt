// Each law that is a function, called once with ample memory, and what it returns.

use super::is_text;
use nodejs_semver::laws::headline::{Findings, FindingsAt, headline, headline_at};
use nodejs_semver::{OutsideDirection, Range, Version, laws};
use std::alloc::Global;

// Whether the version lies above the range, and not below it.
fn is_above(range: &Range, version: &Version) -> bool {
    laws::outside_by_cuts(range, version, OutsideDirection::Higher) == Ok(true)
        && laws::outside_by_cuts(range, version, OutsideDirection::Lower) == Ok(false)
}

fn release_is_above(alloc: Global, text: &str, release: &Version) -> bool {
    match Range::parse(alloc, text) {
        Ok(range) => is_above(&range, release),
        Err(_) => false,
    }
}

#[test]
fn outside_by_cuts_is_outside(rt: HostRuntime) {
    assert!(rt; release_is_above(rt.alloc(), "^1", &Version::from((2u8, 0, 0))));
}

fn is_printed(alloc: Global, range: &Option<Range>, text: &str) -> bool {
    match range {
        Some(range) => is_text(range.to_string(alloc), text),
        None => false,
    }
}

fn is_one_oh_oh(version: &Option<Version>) -> bool {
    match version {
        Some(version) => version.major() == 1 && version.minor() == 0 && version.patch() == 0,
        None => false,
    }
}

fn are_findings(alloc: Global, found: &Findings) -> bool {
    is_text(found.first.to_string(alloc), ">=1.0.0 <2.0.0-0")
        && is_printed(alloc, &found.both, ">=1.5.0 <2.0.0-0")
        && is_printed(alloc, &found.first_alone, ">=1.0.0 <1.5.0")
        && is_one_oh_oh(&found.least)
}

fn finds(alloc: Global, first: &str, second: &str) -> bool {
    match headline(alloc, first, second) {
        Ok(found) => are_findings(alloc, &found),
        Err(_) => false,
    }
}

#[test]
fn headline_finds_what_two_texts_say(rt: HostRuntime) {
    assert!(rt; finds(rt.alloc(), "^1", ">=1.5.0"));
}

fn are_findings_at(found: &FindingsAt) -> bool {
    found.in_first && found.in_both && !found.in_first_alone && is_one_oh_oh(&found.least)
}

fn finds_at(alloc: Global, first: &str, second: &str, version: &Version) -> bool {
    match headline_at(alloc, first, second, version) {
        Ok(found) => are_findings_at(&found),
        Err(_) => false,
    }
}

// Whether 1.6.0-1 is in both ranges.
fn finds_pre_release(alloc: Global, first: &str, second: &str) -> bool {
    match Version::with_pre(alloc, 1, 6, 0, 1) {
        Ok(version) => finds_at(alloc, first, second, &version),
        Err(_) => false,
    }
}

#[test]
fn headline_at_asks_for_one_version(rt: HostRuntime) {
    assert!(rt; finds_pre_release(rt.alloc(), "^1", ">=1.5.0"));
}

fn finds_of_texts(alloc: Global, first: &str, second: &str, version: &str) -> bool {
    match laws::headline_of_texts(alloc, first, second, version) {
        Ok(found) => are_findings_at(&found),
        Err(_) => false,
    }
}

#[test]
fn headline_of_three_texts(rt: HostRuntime) {
    assert!(rt; finds_of_texts(rt.alloc(), "^1", ">=1.5.0", "v1.6.0-1"));
    assert!(rt; !finds_of_texts(rt.alloc(), "^1", ">=1.5.0", "1.6"));
}

#[test]
fn membership_of_a_version_text(rt: HostRuntime) {
    let found = laws::membership(rt.alloc(), "^1.2.3", "1.2.4-0");
    assert!(rt; matches!(found, Ok(true)));
    let found = laws::membership(rt.alloc(), "^1.2.3", "1.2.3-0");
    assert!(rt; matches!(found, Ok(false)));
    assert!(rt; laws::membership(rt.alloc(), "latest", "1.2.3").is_err());
}
