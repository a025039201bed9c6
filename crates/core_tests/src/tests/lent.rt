// Versions that borrow their text: each call once, and that they agree with versions of their own.

use super::{hash_of, is_same, prints};
use semver_core::{
    Identifier, IdentifierRef, IdentifierRefs, Version, VersionDiff, VersionRef, Versioned,
};
use std::alloc::{AllocError, Global};
use std::cmp::Ordering;

// The chain of SemVer 2.0.0, item 11, and texts that are read as something else than they print.
const TEXTS: &[&str] = &[
    "1.0.0-alpha",
    "1.0.0-alpha.1",
    "1.0.0-alpha.beta",
    "1.0.0-beta",
    "1.0.0-beta.2",
    "1.0.0-beta.11",
    "1.0.0-rc.1",
    "1.0.0",
    "v1.2.3-alpha+build",
    "V 1.2.3-007+007 oops",
    "1.2.3-99999999999999999999",
    "1.2.3+a+b",
    "1.2.3beta",
];

const REJECTED: &[&str] = &["", "y", "1.2", " v1.2.3", "1.2.9007199254740992"];

fn gives(mut ids: IdentifierRefs<'_>, wanted: &[IdentifierRef<'_>]) -> bool {
    ids.len() == wanted.len() && wanted.iter().all(|id| ids.next() == Some(*id))
}

fn has_numbers(version: &VersionRef<'_>) -> bool {
    version.major() == 1 && version.minor() == 2 && version.patch() == 34
}

fn has_lists(version: &VersionRef<'_>) -> bool {
    let (text, number) = (
        IdentifierRef::AlphaNumeric("abc"),
        IdentifierRef::Numeric(123),
    );
    gives(version.pre_release(), &[text, number])
        && !version.pre_release().is_empty()
        && gives(version.build(), &[IdentifierRef::Numeric(1)])
}

fn copies_build(version: &VersionRef<'_>) -> bool {
    gives(version.copy().build(), &[IdentifierRef::Numeric(1)])
}

fn has_five_values(text: &str) -> bool {
    match VersionRef::parse(text) {
        Ok(version) => {
            has_numbers(&version)
                && version.is_prerelease()
                && !version.is_release()
                && has_lists(&version)
                && copies_build(&version)
        }
        Err(_) => false,
    }
}

fn has_no_pre_release(text: &str) -> bool {
    match VersionRef::parse(text) {
        Ok(version) => version.pre_release().is_empty(),
        Err(_) => false,
    }
}

#[test]
fn the_five_values(rt: HostRuntime) {
    assert!(rt; has_five_values("1.2.34-abc.123+1"));
    assert!(rt; has_no_pre_release("1.2.3+b"));
}

fn has_len(list: Result<Vec<Identifier>, AllocError>, len: usize) -> bool {
    match list {
        Ok(list) => list.len() == len,
        Err(_) => false,
    }
}

// Whether so many identifiers of a pre-release are copied.
fn copies(alloc: Global, text: &str, len: usize) -> bool {
    match VersionRef::parse(text) {
        Ok(version) => has_len(version.pre_release().to_list(alloc), len),
        Err(_) => false,
    }
}

#[test]
fn identifiers_are_copied(rt: HostRuntime) {
    assert!(rt; copies(rt.alloc(), "1.2.3-abc.123", 2));
    assert!(rt; copies(rt.alloc(), "1.2.3+b", 0));
}

// Whether a text begins with a version that prints so, up to a place.
fn begins_with(alloc: Global, text: &str, printed: &str, place: usize) -> bool {
    match VersionRef::front(text) {
        Some((version, end)) => end == place && prints(alloc, &version, printed),
        None => false,
    }
}

#[test]
fn the_version_at_the_front(rt: HostRuntime) {
    assert!(rt; begins_with(rt.alloc(), "v1.2.3-beta+b;1.3.0", "1.2.3-beta+b", 13));
    assert!(rt; begins_with(rt.alloc(), "1.2.3.4", "1.2.3", 5));
    assert!(rt; VersionRef::front("V1.2.3").is_none());
}

#[test]
fn the_version_at_the_front_of_lines(rt: HostRuntime) {
    assert!(rt; matches!(VersionRef::front_of_lines("1.2.3\n"), Some((_, 5))));
    assert!(rt;
        matches!(
            VersionRef::front_of_lines("v1.2.3-beta.10+b\n1.3.0\n"),
            Some((_, 16))
        )
    );
    assert!(rt; VersionRef::front_of_lines("1.2\n.3\n").is_none());
}

#[test]
fn texts_without_a_version_are_rejected(rt: HostRuntime) {
    for text in REJECTED {
        assert!(rt; VersionRef::parse(text).is_err(), "{text}");
    }
}

#[test]
fn identifiers_are_in_order(rt: HostRuntime) {
    let (number, text) = (
        IdentifierRef::Numeric(11),
        IdentifierRef::AlphaNumeric("2a"),
    );
    assert!(rt; number.cmp(&text) == Ordering::Less);
    assert!(rt; IdentifierRef::Numeric(2).cmp(&number) == Ordering::Less);
    assert!(rt; prints(rt.alloc(), &number, "11") && prints(rt.alloc(), &text, "2a"));
}

// Whether two versions compare, hash and differ alike, borrowed and not, and one of each kind.
fn are_alike(one: &VersionRef<'_>, other: &VersionRef<'_>, owned: (&Version, &Version)) -> bool {
    one.cmp(other) == owned.0.cmp(owned.1)
        && one.cmp(other) == one.cmp_precedence(owned.1)
        && one.cmp(other) == owned.0.cmp_precedence(other)
        && (one == other) == (owned.0 == owned.1)
        && one.diff(other) == owned.0.diff(owned.1)
        && hash_of(one) == hash_of(owned.0)
}

fn borrowed_agree(one: &str, other: &str, owned: (&Version, &Version)) -> bool {
    match (VersionRef::parse(one), VersionRef::parse(other)) {
        (Ok(one), Ok(other)) => are_alike(&one, &other, owned),
        _ => false,
    }
}

fn other_agrees(alloc: Global, one: &str, owned: &Version, other: &str) -> bool {
    match Version::parse(alloc, other) {
        Ok(owned_other) => borrowed_agree(one, other, (owned, &owned_other)),
        Err(_) => false,
    }
}

fn agree(alloc: Global, one: &str, other: &str) -> bool {
    match Version::parse(alloc, one) {
        Ok(owned) => other_agrees(alloc, one, &owned, other),
        Err(_) => false,
    }
}

#[test]
fn both_kinds_agree(rt: HostRuntime) {
    for one in TEXTS {
        for other in TEXTS {
            assert!(rt; agree(rt.alloc(), one, other), "{one} {other}");
        }
    }
}

// What is asked of two versions.
#[derive(Clone, Copy)]
enum Question {
    // Whether the first is below the second.
    Rise,
    // Whether they are equal and hash alike, without a difference.
    Same,
    // Whether they differ so, either first.
    Differ(VersionDiff),
}

fn answer(one: &VersionRef<'_>, other: &VersionRef<'_>, question: Question) -> bool {
    match question {
        Question::Rise => one < other,
        Question::Same => {
            one == other && hash_of(one) == hash_of(other) && one.diff(other) == None
        }
        Question::Differ(kind) => one.diff(other) == Some(kind) && other.diff(one) == Some(kind),
    }
}

fn is_true(one: &str, other: &str, question: Question) -> bool {
    match (VersionRef::parse(one), VersionRef::parse(other)) {
        (Ok(one), Ok(other)) => answer(&one, &other, question),
        _ => false,
    }
}

#[test]
fn the_chain_rises(rt: HostRuntime) {
    for pair in TEXTS[..8].windows(2) {
        assert!(rt; is_true(pair[0], pair[1], Question::Rise), "{}", pair[0]);
    }
}

#[test]
fn builds_do_not_count(rt: HostRuntime) {
    assert!(rt; is_true("1.2.3+a", "1.2.3+b", Question::Same));
    let differ = Question::Differ(VersionDiff::PreMinor);
    assert!(rt; is_true("1.2.3", "1.3.0-beta", differ));
}

fn borrowed_prints(alloc: Global, text: &str, printed: &str) -> bool {
    match VersionRef::parse(text) {
        Ok(version) => prints(alloc, &version, printed),
        Err(_) => false,
    }
}

// Whether the borrowed version prints as the other one.
fn owned_prints_alike(alloc: Global, version: &VersionRef<'_>, owned: &Version) -> bool {
    match owned.to_string(alloc) {
        Ok(printed) => prints(alloc, version, &printed),
        Err(_) => false,
    }
}

fn owned_is_alike(alloc: Global, version: &VersionRef<'_>, text: &str) -> bool {
    match version.to_version(alloc) {
        Ok(owned) => {
            owned_prints_alike(alloc, version, &owned)
                && is_same(Version::parse(alloc, text).ok(), &owned)
        }
        Err(_) => false,
    }
}

// Whether the version of a text prints as a version of its own, which is that of the text.
fn both_print_alike(alloc: Global, text: &str) -> bool {
    match VersionRef::parse(text) {
        Ok(version) => owned_is_alike(alloc, &version, text),
        Err(_) => false,
    }
}

#[test]
fn both_kinds_print_alike(rt: HostRuntime) {
    assert!(rt; borrowed_prints(rt.alloc(), "V 1.2.3-007.-+007.a oops", "1.2.3-7.-+7.a"));
    for text in TEXTS {
        assert!(rt; both_print_alike(rt.alloc(), text), "{text}");
    }
}

fn leads_to(
    alloc: Global,
    version: &VersionRef<'_>,
    asked: (&str, Option<&str>),
    text: &str,
) -> bool {
    match version.inc(alloc, asked.0, asked.1, None) {
        Ok(next) => prints(alloc, &next, text),
        Err(_) => false,
    }
}

fn rises(alloc: Global, text: &str, asked: (&str, Option<&str>), next: &str) -> bool {
    match VersionRef::parse(text) {
        Ok(version) => leads_to(alloc, &version, asked, next),
        Err(_) => false,
    }
}

// A list of the text goes on, is replaced by the identifier, or has no number yet.
#[test]
fn borrowed_versions_rise(rt: HostRuntime) {
    let alloc = rt.alloc();
    assert!(rt; rises(alloc, "1.2.3-rc.007+b.1", ("major", None), "2.0.0+b.1"));
    assert!(rt;
        rises(
            alloc,
            "1.2.3-rc.007+b.1",
            ("prerelease", None),
            "1.2.3-rc.8+b.1"
        )
    );
    assert!(rt;
        rises(
            alloc,
            "1.2.3-rc.7+b",
            ("prerelease", Some("a")),
            "1.2.3-a.0+b"
        )
    );
    assert!(rt; rises(alloc, "1.2.3-rc.x", ("pre", Some("rc")), "1.2.3-rc.0"));
    assert!(rt; rises(alloc, "1.2.3", ("preminor", Some("rc")), "1.3.0-rc.0"));
}
