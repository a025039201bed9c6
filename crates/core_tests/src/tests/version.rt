// Versions: what no line can ask of them.

use super::{found_prints, hash_of, prints};
use semver_core::{Identifier, NegativeNumber, Version, VersionParts};
use std::alloc::{AllocError, Global};

fn is_text(identifier: &Identifier, wanted: &str) -> bool {
    match identifier {
        Identifier::Numeric(_) => false,
        Identifier::AlphaNumeric(text) => text.as_str() == wanted,
    }
}

fn is_number(identifier: &Identifier, wanted: u64) -> bool {
    match identifier {
        Identifier::Numeric(number) => *number == wanted,
        Identifier::AlphaNumeric(_) => false,
    }
}

// What is asked of a version.
#[derive(Clone, Copy)]
enum Question<'a> {
    // Whether it is 1.2.34-abc.123+1.
    HasFiveValues,
    // Whether its pre-release is `rc` and `2-migration`.
    KeepsDashes,
    IsPrerelease,
    IsNoPrerelease,
    // Whether its copy prints so.
    Copies(&'a str),
    // Whether it equals and hashes like that of the text.
    Ties(&'a str),
    Differs(&'a str),
}

fn answer(alloc: Global, version: &Version, question: Question<'_>) -> bool {
    match question {
        Question::HasFiveValues => has_numbers(version) && has_lists(version),
        Question::KeepsDashes => keeps_dashes(version),
        Question::IsPrerelease => version.is_prerelease(),
        Question::IsNoPrerelease => !version.is_prerelease(),
        Question::Copies(text) => found_prints(alloc, version.copy(alloc).ok(), text),
        Question::Ties(text) => ties(alloc, version, text),
        Question::Differs(text) => !ties(alloc, version, text),
    }
}

// Whether the text is one of a version, and the answer is yes.
fn is_true(alloc: Global, text: &str, question: Question<'_>) -> bool {
    match Version::parse(alloc, text) {
        Ok(version) => answer(alloc, &version, question),
        Err(_) => false,
    }
}

fn has_numbers(version: &Version) -> bool {
    version.major() == 1 && version.minor() == 2 && version.patch() == 34
}

fn has_lists(version: &Version) -> bool {
    match (version.pre_release(), version.build()) {
        ([first, second], [one]) => {
            is_text(first, "abc") && is_number(second, 123) && is_number(one, 1)
        }
        _ => false,
    }
}

fn keeps_dashes(version: &Version) -> bool {
    match version.pre_release() {
        [first, second] => is_text(first, "rc") && is_text(second, "2-migration"),
        _ => false,
    }
}

#[test]
fn parse_reads_the_five_values(rt: HostRuntime) {
    assert!(rt; is_true(rt.alloc(), "1.2.34-abc.123+1", Question::HasFiveValues));
}

#[test]
fn parse_keeps_dashes_in_identifiers(rt: HostRuntime) {
    assert!(rt; is_true(rt.alloc(), "1.0.0-rc.2-migration", Question::KeepsDashes));
}

#[test]
fn is_prerelease_ignores_build_metadata(rt: HostRuntime) {
    assert!(rt; is_true(rt.alloc(), "1.0.0-rc.2-migration", Question::IsPrerelease));
    assert!(rt; is_true(rt.alloc(), "1.0.0+rc", Question::IsNoPrerelease));
}

// Whether the parts of a version, and their copy, make a version of the same text, build included.
fn comes_back(alloc: Global, text: &str) -> bool {
    match Version::parse(alloc, text) {
        Ok(version) => keeps_parts(alloc, version, text),
        Err(_) => false,
    }
}

fn keeps_parts(alloc: Global, version: Version, text: &str) -> bool {
    match version.into_parts(alloc) {
        Ok(parts) => copies_equal(alloc, &parts) && rebuilds(alloc, parts, text),
        Err(_) => false,
    }
}

fn copies_equal(alloc: Global, parts: &VersionParts) -> bool {
    match parts.copy(alloc) {
        Ok(copy) => copy == *parts,
        Err(_) => false,
    }
}

fn rebuilds(alloc: Global, parts: VersionParts, text: &str) -> bool {
    let VersionParts {
        major,
        minor,
        patch,
        pre_release,
        build,
    } = parts;
    match Version::new(alloc, major, minor, patch, pre_release, build) {
        Ok(version) => prints(alloc, &version, text),
        Err(_) => false,
    }
}

#[test]
fn new_and_into_parts_keep_the_whole_value(rt: HostRuntime) {
    assert!(rt; comes_back(rt.alloc(), "1.2.3-a.1+b"));
}

#[test]
fn copy_is_the_whole_value(rt: HostRuntime) {
    assert!(rt; is_true(rt.alloc(), "1.2.3-a.1+b", Question::Copies("1.2.3-a.1+b")));
}

// Whether this is the release 1.2.3.
fn is_one_two_three(version: Version) -> bool {
    version.major() == 1
        && version.minor() == 2
        && version.patch() == 3
        && !version.is_prerelease()
        && version.build().is_empty()
}

#[test]
fn from_makes_the_release_of_three_numbers(rt: HostRuntime) {
    assert!(rt; is_one_two_three(Version::from((1u8, 2, 3))));
    assert!(rt; is_one_two_three(Version::from((1u16, 2, 3))));
    assert!(rt; is_one_two_three(Version::from((1u32, 2, 3))));
    assert!(rt; is_one_two_three(Version::from((1u64, 2, 3))));
    assert!(rt; is_one_two_three(Version::from((1usize, 2, 3))));
}

fn is_negative(made: Result<Version, NegativeNumber>) -> bool {
    match made {
        Ok(_) => false,
        Err(NegativeNumber) => true,
    }
}

#[test]
fn try_from_rejects_negative_numbers(rt: HostRuntime) {
    assert!(rt; is_negative(Version::try_from((1i8, 2, -1))));
    assert!(rt; is_negative(Version::try_from((-1isize, 2, 1))));
}

// Whether this is the release 0.0.0.
fn is_zero(made: Result<Version, NegativeNumber>) -> bool {
    match made {
        Ok(version) => {
            version.major() == 0
                && version.minor() == 0
                && version.patch() == 0
                && !version.is_prerelease()
        }
        Err(_) => false,
    }
}

#[test]
fn try_from_makes_the_release_of_three_numbers(rt: HostRuntime) {
    assert!(rt; is_zero(Version::try_from((0i64, 0, 0))));
    assert!(rt; is_zero(Version::try_from((0i32, 0, 0))));
}

fn is_with_pre(alloc: Global, made: Result<Version, AllocError>, number: u64, text: &str) -> bool {
    match made {
        Ok(version) => has_pre(&version, number) && prints(alloc, &version, text),
        Err(_) => false,
    }
}

fn has_pre(version: &Version, number: u64) -> bool {
    match version.pre_release() {
        [one] => is_number(one, number),
        _ => false,
    }
}

#[test]
fn with_pre_has_one_number(rt: HostRuntime) {
    let made = Version::with_pre(rt.alloc(), 1, 0, 0, 7);
    assert!(rt; is_with_pre(rt.alloc(), made, 7, "1.0.0-7"));
}

#[test]
#[tactic(auto, unfolding(semver_core::specs::Text::Identifiers::is_listed))]
fn from_texts_reads_both_lists(rt: HostRuntime) {
    let version = Version::from_texts(rt.alloc(), 1, 2, 3, b"rc.1", b"a-b.007").ok();
    assert!(rt; found_prints(rt.alloc(), version, "1.2.3-rc.1+a-b.7"));
    let lowest = Version::from_texts(rt.alloc(), 2, 0, 0, b"0", b"").ok();
    assert!(rt; found_prints(rt.alloc(), lowest, "2.0.0-0"));
}

// Whether the two are equal and hash alike.
fn ties(alloc: Global, first: &Version, second: &str) -> bool {
    match Version::parse(alloc, second) {
        Ok(second) => *first == second && hash_of(first) == hash_of(&second),
        Err(_) => false,
    }
}

#[test]
fn eq_and_hash_ignore_build_metadata(rt: HostRuntime) {
    assert!(rt; is_true(rt.alloc(), "1.2.3-a+b", Question::Ties("1.2.3-a+c")));
    assert!(rt; is_true(rt.alloc(), "1.2.3-a+b", Question::Differs("1.2.3-b")));
}
