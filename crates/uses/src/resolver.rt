//! A resolver: a release of each package that is needed, so that every requirement is met.

ghost use Rattle.nodejs_semver.specs.Cuts.{Span};
ghost use Rattle.nodejs_semver.specs.Failures.{MemoryOnlyIf, NoValue, RefusedOnlyIf};
ghost use Rattle.nodejs_semver.specs.Ranges.View.{TakesMemory};
ghost use Rattle.nodejs_semver.specs.Versions.{VersionValue};
ghost use Rattle.npm_words.specs.Alternatives.{HasAlternativesIn};
ghost use Rattle.npm_reading.specs.Ranges.{IsRangeIn};
ghost use Rattle.uses.specs.Internal.Search.{HasNoPlan, IsUnmet, NeedsAll};
ghost use Rattle.semver_core.specs.Text.Bars.{IsCutAtBars};
ghost use Rattle.std.specs.Prelude.{◌≡◌, ◌<◌, ◌⊎◌, ℕ, All, Contains, IfErr, IfNone, IfOk, IfSome};
ghost use Rattle.std.specs.Prelude.{List, None, OnErr, false, length, replicate, slice_index_or};
ghost use Rattle.uses.specs.Resolver.{ArePicked, IsConflict, IsFailure, IsMet, IsPicked};
ghost use Rattle.uses.specs.Resolver.{MeetsAll, release_at};

use nodejs_semver::{Failure, MAX_SAFE_INTEGER, Range, SemverError, Version};
use npm_reading::Reading;
use std::alloc::{AllocError, Global};
use thiserror::Error;

/// A demand for a release of a package whose version the range accepts, by `satisfies`.
#[derive(Debug, Drop)]
pub struct Requirement {
    /// The package, by its place in the registry.
    pub package: usize,
    /// The versions that will do.
    pub range: Range,
}

impl Requirement {
    /// The demand for a release of the package of this number in the range of a text, which is read
    /// as npm reads it: `^*` is any release, and a text with a malformed word, as
    /// `>=1.0.0, <2.0.0`, is rejected. Returns `Refused` only if npm's library node-semver rejects
    /// the text, and fails to allocate only for one with bars, or where copying its range takes
    /// memory.
    ///
    /// ```rust
    /// let requirement = Requirement::read(alloc, 0, "^1.2")?;
    /// ```
    pub fn read(
        alloc: Global,
        number: usize,
        text: &str,
    ) -> Result<Requirement, Failure<SemverError>>
        ensures package { IfOk result (λ q. q.package ≡ number) }
        ensures range { IfOk result (λ q. IsRangeIn false MAX_SAFE_INTEGER false text.now q.range) }
        ensures refused { RefusedOnlyIf result
            (NoValue (HasAlternativesIn false MAX_SAFE_INTEGER false text.now)) }
        ensures memory { MemoryOnlyIf result
            (((pieces : List (List ℕ)) → IsCutAtBars text.now pieces → 1 < length pieces)
            ⊎ ((r : List (Span VersionValue))
            × IsRangeIn false MAX_SAFE_INTEGER false text.now r × TakesMemory r)) }
    {
        let strict = Reading {
            loose: false,
            include_prerelease: false,
        };
        let range = npm_reading::range(alloc, text, strict)?.to_range(alloc)?;
        Ok(Requirement {
            package: number,
            range,
        })
    }
}

/// A package of a registry.
#[derive(Drop)]
pub struct Package {
    /// What was published of it, the release that is wanted most first: as a rule the newest.
    pub releases: Vec<Release>,
}

/// A version of a package, and what it requires.
#[derive(Drop)]
pub struct Release {
    pub version: Version,
    /// What has to be installed beside it.
    pub requirements: Vec<Requirement>,
}

/// A release that is taken, and a requirement that it meets.
#[derive(Clone, Copy)]
pub struct Pick<'a> {
    pub release: &'a Release,
    pub requirement: &'a Requirement,
}

/// Why no releases were found.
#[derive(Clone, Copy, Debug, Drop, Error)]
pub enum Conflict<'a> {
    /// No release of the package has a version that the range accepts.
    #[error("package {}: no release satisfies {}", .0.package, .0.range)]
    Unmatched(&'a Requirement),
    /// The release that was taken for the first requirement, the second on that package rejects.
    #[error("package {}: {} and {} clash", .0.package, .0.range, .1.range)]
    Clash(&'a Requirement, &'a Requirement),
}

/// A release for each package that is needed, at most one of a package, so that the requirements of
/// the root and of each release that is taken are met. No other package is taken. Releases are
/// taken one after another, each the first of its package that some plan takes together with those
/// taken before. Returns `Refused` only if there is no plan, with a conflict that the search found
/// on the way to one, and fails to allocate only where there are packages.
///
/// npm asks this of peer dependencies. Of other dependencies it installs several releases of one
/// package side by side, each in the folder of the package that requires it; so it may find a way
/// where there is no plan here.
pub fn resolve<'a>(
    alloc: Global,
    packages: &'a [Package],
    root: &'a [Requirement],
) -> Result<Vec<Option<Pick<'a>>>, Failure<Conflict<'a>>>
    ensures picked { IfOk result (λ picks. IsPicked packages.now root.now picks.items) }
    ensures met { IfOk result (λ picks. MeetsAll root.now (release_at picks.items)) }
    ensures first { IfOk result (λ picks. ArePicked packages.now root.now picks.items) }
    ensures failure { IfErr result (IsFailure packages.now root.now) }
{
    let mut picks = none_picked(alloc, packages.len())?;
    match search(packages, root, &mut picks) {
        Ok(()) => Ok(picks),
        Err(conflict) => Err(Failure::Refused(conflict)),
    }
}

// A place for each package, of which nothing is taken yet.
fn none_picked<'a>(alloc: Global, count: usize) -> Result<Vec<Option<Pick<'a>>>, AllocError>
    ensures items { IfOk result (λ picks. picks.items ≡ replicate count None) }
    ensures memory { OnErr result (0 < count) }
{
    if count == 0 {
        return Ok(Vec::new(alloc));
    }
    vec![in alloc; None; count]
}

// Adds picks until every requirement is met. If no picks do, it leaves them as they were.
fn search<'a>(
    packages: &'a [Package],
    root: &'a [Requirement],
    picks: &mut Vec<Option<Pick<'a>>>,
) -> Result<(), Conflict<'a>>
    requires picked { IsPicked packages.now root.now picks.old.items }
    requires first { ArePicked packages.now root.now picks.old.items }
    ensures picked { IfOk result (λ _. IsPicked packages.now root.now picks.new.items) }
    ensures first { IfOk result (λ _. ArePicked packages.now root.now picks.new.items) }
    ensures met { IfOk result (λ _. MeetsAll root.now (release_at picks.new.items)) }
    ensures same { IfErr result (λ _. picks.new.items ≡ picks.old.items) }
    ensures conflict { IfErr result (IsConflict packages.now root.now) }
    ensures none { IfErr result (λ _. HasNoPlan packages.now root.now picks.old.items) }
{
    let Some(requirement) = first_unmet(root, picks) else {
        return Ok(());
    };
    let package = requirement.package;
    if let Some(pick) = picked(picks, package) {
        return Err(Conflict::Clash(pick.requirement, requirement));
    }
    let mut conflict = None;
    if package < packages.len() {
        for release in &packages[package].releases {
            if requirement.range.satisfies(&release.version) {
                let pick = Pick {
                    release,
                    requirement,
                };
                picks[package] = Some(pick);
                match search(packages, root, picks) {
                    Ok(()) => return Ok(()),
                    Err(found) => conflict = Some(found),
                }
                picks[package] = None;
            }
        }
    }
    Err(conflict.unwrap_or(Conflict::Unmatched(requirement)))
}

// The first requirement, of the root or of a release that is taken, that is not met.
fn first_unmet<'a>(root: &'a [Requirement], picks: &[Option<Pick<'a>>]) -> Option<&'a Requirement>
    requires { NeedsAll root.now picks.now }
    ensures none { IfNone result (MeetsAll root.now (release_at picks.now)) }
    ensures some { IfSome result (λ q. IsUnmet root.now (release_at picks.now) q.now) }
{
    if let Some(requirement) = unmet_of(root, picks) {
        return Some(requirement);
    }
    for pick in picks {
        let Some(pick) = pick else { continue };
        if let Some(requirement) = unmet_of(&pick.release.requirements, picks) {
            return Some(requirement);
        }
    }
    None
}

// The first of the requirements that is not met.
fn unmet_of<'a>(asked: &'a [Requirement], picks: &[Option<Pick>]) -> Option<&'a Requirement>
    ensures none { IfNone result (All (λ q. IsMet (release_at picks.now) q) asked.now) }
    ensures some { IfSome result (λ q. Contains asked.now q.now
        × ¬ (IsMet (release_at picks.now) q.now)) }
{
    for requirement in asked {
        match picked(picks, requirement.package) {
            Some(pick) if requirement.range.satisfies(&pick.release.version) => {}
            _ => return Some(requirement),
        }
    }
    None
}

// What is taken of a package.
fn picked<'a>(picks: &[Option<Pick<'a>>], number: usize) -> Option<Pick<'a>>
    ensures { result ≡ slice_index_or picks.now number None }
{
    *picks.get(number)?
}
