// The newest version of an index, the next release, a range within another, and releases for
// requirements.

use nodejs_semver::{Failure, Range, SemverError, Version};
use std::alloc::{AllocError, Global};
use std::fmt::{Display, Write};
use std::test::Fail;
use uses::index::Index;
use uses::release::{self, Refusal};
use uses::resolver::{Package, Pick, Release, Requirement, resolve};
use uses::subset::{self, Answer};

// A test calls helpers that each own one value and lend it, and asserts what they return.

// Whether the value prints as this text.
fn prints<T: Display>(alloc: Global, value: &T, text: &str) -> bool {
    match value.to_string(alloc) {
        Ok(printed) => printed.as_str() == text,
        Err(_) => false,
    }
}

fn versions(alloc: Global, texts: &[&str]) -> Result<Vec<Version>, Fail> {
    let mut versions = Vec::new(alloc);
    for text in texts {
        versions.push(Version::parse(alloc, text)?)?;
    }
    Ok(versions)
}

fn index(alloc: Global, listed: &[&str], withdrawn: &[&str]) -> Result<Index, Fail> {
    let listed = versions(alloc, listed)?;
    Ok(Index::new(listed, versions(alloc, withdrawn)?)?)
}

fn equals(alloc: Global, version: &Version, text: &str) -> bool {
    match Version::parse(alloc, text) {
        Ok(other) => *version == other,
        Err(_) => false,
    }
}

// Whether the version is that of the text, or there is none where none is wanted.
fn is_wanted(alloc: Global, found: Option<&Version>, wanted: Option<&str>) -> bool {
    match (found, wanted) {
        (Some(version), Some(text)) => equals(alloc, version, text),
        (None, None) => true,
        (_, _) => false,
    }
}

// Whether this is the newest version of the index that the range of a text accepts.
fn is_newest(alloc: Global, index: &Index, range: &str, wanted: Option<&str>) -> bool {
    match Range::parse(alloc, range) {
        Ok(range) => is_wanted(alloc, index.newest(&range), wanted),
        Err(_) => false,
    }
}

#[test]
fn the_newest_listed_version(rt: HostRuntime) -> Result<(), Fail> {
    let listed = ["1.4.0", "2.0.0", "1.2.3", "1.5.0-beta"];
    let index = index(rt.alloc(), &listed, &["1.9.0"])?;
    assert!(rt; is_newest(rt.alloc(), &index, "^1.2", Some("1.4.0")));
    assert!(rt; is_wanted(rt.alloc(), index.listed.first(), Some("1.2.3")));
    assert!(rt; is_newest(rt.alloc(), &index, "^3", None));
    Ok(())
}

// Whether this is the newest version of the index.
fn is_newest_of_all(alloc: Global, index: &Index, wanted: Option<&Version>) -> bool {
    match Range::any(alloc) {
        Ok(range) => index.newest(&range) == wanted,
        Err(_) => false,
    }
}

// Whether the newest of so many versions is found.
fn has_newest_of(alloc: Global, count: u64) -> Result<bool, Fail> {
    let mut listed = Vec::new(alloc);
    for patch in (0..count).rev() {
        listed.push(Version::from((1u64, 0, patch)))?;
    }
    let index = Index::new(listed, Vec::new(alloc))?;
    let newest = count.checked_sub(1).map(|patch| (1u64, 0, patch).into());
    Ok(is_newest_of_all(alloc, &index, newest.as_ref()))
}

#[test]
fn the_newest_of_many_versions(rt: HostRuntime) -> Result<(), Fail> {
    for count in 0..40u64 {
        assert!(rt; has_newest_of(rt.alloc(), count)?, "{count} versions");
    }
    Ok(())
}

// A version, a word and an identifier, and the next version or why there is none.
const RELEASES: &[(&str, &str, Option<&str>, &str)] = &[
    ("1.2.3", "minor", None, "1.3.0"),
    ("1.2.3-rc.1+b.2", "minor", None, "1.3.0+b.2"),
    ("1.2.3-alpha.1", "prerelease", Some("beta"), "1.2.3-beta.0"),
    (
        "1.2.3-b",
        "prerelease",
        Some("a"),
        "the next version would not be above the current one",
    ),
    (
        "one",
        "minor",
        None,
        "the current version is no version: write three numbers, as 1.2.3",
    ),
    (
        "1.2.3",
        "huge",
        None,
        "no next version: invalid increment argument: huge",
    ),
];

fn says(alloc: Global, next: Result<Version, Refusal>, told: &str) -> bool {
    match next {
        Ok(version) => prints(alloc, &version, told),
        Err(refusal) => prints(alloc, &refusal, told),
    }
}

#[test]
fn the_next_release(rt: HostRuntime) {
    for &(current, word, identifier, told) in RELEASES {
        let next = release::next(rt.alloc(), current, word, identifier);
        assert!(rt; says(rt.alloc(), next, told), "after {current}");
    }
}

// Two range texts, and the smallest version that the first one alone accepts.
const COMPARED: &[(&str, &str, &str)] = &[
    ("^1.2", "^1", "none"),
    ("^1", "^1.2", "1.0.0"),
    (">=1.2.3-a", ">=1.0.0", "1.2.3-a"),
];

fn answers(alloc: Global, answer: Result<Answer, Failure<SemverError>>, told: &str) -> bool {
    match answer {
        Ok(Answer::Subset) => told == "none",
        Ok(Answer::Witness(version)) => prints(alloc, &version, told),
        Err(_) => false,
    }
}

#[test]
fn a_range_within_another(rt: HostRuntime) {
    for &(first, second, told) in COMPARED {
        let answer = subset::compare(rt.alloc(), first, second);
        assert!(rt;
            answers(rt.alloc(), answer, told),
            "{first} within {second}"
        );
    }
}

// Each requirement is a package and a range text.
fn requirements(alloc: Global, asked: &[(usize, &str)]) -> Result<Vec<Requirement>, Fail> {
    let mut requirements = Vec::new(alloc);
    for (package, range) in asked {
        requirements.push(Requirement {
            package: *package,
            range: Range::parse(alloc, range)?,
        })?;
    }
    Ok(requirements)
}

fn release(alloc: Global, version: &str, asked: &[(usize, &str)]) -> Result<Release, Fail> {
    Ok(Release {
        version: Version::parse(alloc, version)?,
        requirements: requirements(alloc, asked)?,
    })
}

// Two programs, 0 and 1, that both need the library 2: the releases of each, the newest first.
const REGISTRY: &[&[(&str, &[(usize, &str)])]] = &[
    &[("2.0.0", &[(2, "^2")]), ("1.0.0", &[(2, "^1 || ^2")])],
    &[("1.0.0", &[(2, "^1.2")])],
    &[("2.0.0", &[]), ("1.3.0-beta", &[]), ("1.2.0", &[])],
];

fn package(alloc: Global, published: &[(&str, &[(usize, &str)])]) -> Result<Package, Fail> {
    let mut releases = Vec::new(alloc);
    for (version, asked) in published {
        releases.push(release(alloc, version, asked)?)?;
    }
    Ok(Package { releases })
}

fn registry(alloc: Global) -> Result<Vec<Package>, Fail> {
    let mut packages = Vec::new(alloc);
    for published in REGISTRY {
        packages.push(package(alloc, published)?)?;
    }
    Ok(packages)
}

// Whether a range text is read, and then whether the range accepts a version; without a version
// whether the text is rejected.
fn is_read(alloc: Global, text: &str, version: &str, wanted: Option<bool>) -> bool {
    match (
        Requirement::read(alloc, 0, text),
        Version::parse(alloc, version),
    ) {
        (Ok(read), Ok(version)) => wanted == Some(read.range.satisfies(&version)),
        (Err(Failure::Refused(_)), _) => wanted.is_none(),
        (_, _) => false,
    }
}

// The answers are node-semver's. `parse` answers otherwise, but for the first two.
#[test]
fn a_requirement_as_npm_reads_it(rt: HostRuntime) {
    let alloc = rt.alloc();
    assert!(rt; is_read(alloc, "^1.2", "1.3.0", Some(true)));
    assert!(rt; is_read(alloc, "^1.2", "1.3.0-beta", Some(false)));
    assert!(rt; is_read(alloc, "^*", "0.0.0", Some(true)));
    assert!(rt; is_read(alloc, "1 0", "1.1.1", Some(false)));
    assert!(rt; is_read(alloc, ">=0 || 2.0.0-a", "2.0.0-a", Some(false)));
    assert!(rt; is_read(alloc, ">=1.0.0, <2.0.0", "1.0.0", None));
    assert!(rt; is_read(alloc, "^01.2", "1.2.0", None));
}

// Requirements of the root, and the releases that are picked or why there are none.
const ASKED: &[(&[(usize, &str)], &str)] = &[
    (&[(0, "*"), (1, "*")], "0@1.0.0 1@1.0.0 2@1.2.0 "),
    (&[(0, "*")], "0@2.0.0 2@2.0.0 "),
    (
        &[(0, "^2"), (1, "*")],
        "package 2: >=2.0.0 <3.0.0-0 and >=1.2.0 <2.0.0-0 clash",
    ),
    (
        &[(2, "^3")],
        "package 2: no release satisfies >=3.0.0 <4.0.0-0",
    ),
    (&[(7, "*")], "package 7: no release satisfies >=0.0.0"),
    (&[], ""),
];

fn text_of(alloc: Global, picks: &[Option<Pick<'_>>]) -> Result<String, AllocError> {
    let mut said = String::new(alloc);
    for (number, pick) in picks.iter().enumerate() {
        if let Some(pick) = pick {
            write!(said, "{number}@{} ", pick.release.version)?;
        }
    }
    Ok(said)
}

fn picks_print(alloc: Global, picks: &[Option<Pick<'_>>], told: &str) -> bool {
    match text_of(alloc, picks) {
        Ok(said) => said.as_str() == told,
        Err(_) => false,
    }
}

fn resolves(alloc: Global, packages: &[Package], root: &[Requirement], told: &str) -> bool {
    match resolve(alloc, packages, root) {
        Ok(picks) => picks_print(alloc, &picks, told),
        Err(Failure::Refused(conflict)) => prints(alloc, &conflict, told),
        Err(Failure::Memory(_)) => false,
    }
}

fn tells(
    alloc: Global,
    packages: &[Package],
    asked: &[(usize, &str)],
    told: &str,
) -> Result<bool, Fail> {
    let root = requirements(alloc, asked)?;
    Ok(resolves(alloc, packages, &root, told))
}

#[test]
fn releases_for_all_requirements(rt: HostRuntime) -> Result<(), Fail> {
    let packages = registry(rt.alloc())?;
    for &(asked, told) in ASKED {
        assert!(rt; tells(rt.alloc(), &packages, asked, told)?, "{told}");
    }
    Ok(())
}

// Packages of one release, each of which requires the next package, and the last one the first.
fn ring(alloc: Global, count: usize, last: &str) -> Result<Vec<Package>, Fail> {
    let mut packages = Vec::new(alloc);
    for next in 1..count {
        packages.push(package(alloc, &[("1.0.0", &[(next, "^1")])])?)?;
    }
    packages.push(package(alloc, &[("1.0.0", &[(0, last)])])?)?;
    Ok(packages)
}

// How many releases are taken if the root requires the first package, or that there is no plan.
fn taken(alloc: Global, packages: &[Package]) -> Result<Option<usize>, Fail> {
    let root = requirements(alloc, &[(0, "*")])?;
    let picks = Failure::refused_as_none(resolve(alloc, packages, &root))?;
    Ok(picks.map(|picks| picks.iter().flatten().count()))
}

fn taken_of_ring(alloc: Global, count: usize, last: &str) -> Result<Option<usize>, Fail> {
    let packages = ring(alloc, count, last)?;
    taken(alloc, &packages)
}

#[test]
fn releases_of_many_packages(rt: HostRuntime) -> Result<(), Fail> {
    for count in 1..41usize {
        assert!(rt; taken_of_ring(rt.alloc(), count, "^1")? == Some(count));
        assert!(rt; taken_of_ring(rt.alloc(), count, "^2")?.is_none());
    }
    Ok(())
}
