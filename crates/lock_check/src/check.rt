// Compares each dependency of a lock file with the version that is locked for it.

ghost use Rattle.lock_check.specs.Internal.Found.{IsAmong};
ghost use Rattle.lock_check.specs.Internal.Overriding.{AreAllLaid, AreChosen};
ghost use Rattle.lock_check.specs.Internal.Sources.{is_page};
ghost use Rattle.lock_check.specs.Complete.{AreAllJudged, AreSingle, AreWorkspacesJudged};
ghost use Rattle.lock_check.specs.Judged.{AreFindings, AreFindingsOf, IsConflict, IsFoundFor};
ghost use Rattle.lock_check.specs.Judged.{IsLinkOfRoot, IsLockedOutcome, IsOutcome};
ghost use Rattle.lock_check.specs.Judged.{IsOwnPeer, as_wanted};
ghost use Rattle.lock_check.specs.Malformed.{AreAllTold, AreRulesTold, HasOtherRules, IsFault};
ghost use Rattle.lock_check.specs.Outcomes.{IsFolderOutcome, IsFromFile, IsFromPage};
ghost use Rattle.lock_check.specs.Outcomes.{IsFromRepository, IsInstead, IsJudged};
ghost use Rattle.lock_check.specs.Outcomes.{IsPackedOutcome, IsPlaceOutcome, IsRangeOutcome};
ghost use Rattle.lock_check.specs.Outcomes.{IsRangedOutcome, IsRegistryOutcome};
ghost use Rattle.lock_check.specs.Outcomes.{IsRepositoryOutcome, IsSpecifierOutcome, IsTagOutcome};
ghost use Rattle.lock_check.specs.Outcomes.{IsTextOutcome, IsToldOf, IsUnversioned};
ghost use Rattle.lock_check.specs.Outcomes.{IsWantedOutcome, address_of, base_by, base_of};
ghost use Rattle.lock_check.specs.Outcomes.{is_file, is_link, locked_in, place_for, version_text};
ghost use Rattle.lock_check.specs.Standing.{AreEdges};
ghost use Rattle.lock_files.specs.Edges.{AreApartEdges};
ghost use Rattle.lock_files.specs.Faults.{ArePackagesTold, Extends, HasFault, IsFieldFault};
ghost use Rattle.lock_files.specs.Faults.{IsPackageFault, OfFields};
ghost use Rattle.lock_files.specs.Lookups.{IsAt};
ghost use Rattle.std.specs.Prelude.{◌≡◌, ◌↔◌, [], All, IfOk, IsTrue, List, MatchOption};
ghost use Rattle.std.specs.Prelude.{None, OnOk, Some, codes, option_map, string_bytes, ℕ};

use crate::finding::{Finding, Outcome, Skip};
use crate::overrides::Overrides;
use crate::scopes::Scopes;
use crate::verdict::{Judgement, Verdict, judge_texts};
use lock_files::{
    Dependency, Edge, Fault, Field, Lock, Package, Requirers, Specifier, Wanted, are_read, edges,
    is_installed, is_name, is_relative, is_tag, joined, one_specifier,
};
use semver_core::scan::trim;
use std::alloc::{AllocError, Global};

/// What is found in a lock file, in the order of the packages' folders.
#[derive(Drop)]
pub struct Findings<'a> {
    /// The finding for each dependency of each package.
    pub of_dependencies: Vec<Finding<'a>>,
    /// What is malformed, so that no dependency is read of it.
    pub faults: Vec<Fault<'a>>,
    /// Which packages ask for each, if a dependency is told of.
    pub requirers: Requirers<'a>,
}

impl Findings<'_> {
    /// Whether something is told.
    pub fn are_told(&self) -> bool {
        !self.faults.is_empty() || is_any_told(&self.of_dependencies)
    }
}

// Whether one of the findings is told.
fn is_any_told(findings: &[Finding<'_>]) -> bool {
    for finding in findings {
        if finding.is_told(false) {
            return true;
        }
    }
    false
}

/// Judges each dependency of each package.
pub fn check<'a>(alloc: Global, lock: Lock<'a>) -> Result<Findings<'a>, AllocError>
    ensures each { IfOk result (λ found. AreFindings lock.entry found.of_dependencies.items) }
    ensures all { IfOk result (λ found. AreAllJudged lock.entry found.of_dependencies.items) }
    ensures single { IfOk result (λ found. AreSingle found.of_dependencies.items) }
    ensures workspaces { IfOk result (λ found. AreWorkspacesJudged lock.entry
        found.of_dependencies.items) }
    ensures malformed { IfOk result (λ found. AreAllTold lock.entry found.faults.items) }
{
    let mut faults = Vec::new(alloc);
    let edges = all_edges(alloc, lock, &mut faults)?;
    let of_dependencies = judged(alloc, lock, &edges, &mut faults)?;
    let requirers = requirers(alloc, lock, &edges, &of_dependencies)?;
    Ok(Findings {
        of_dependencies,
        faults,
        requirers,
    })
}

// The dependencies of all packages. What is malformed of these is added to `faults`, and before it
// that there is no root project.
fn all_edges<'a>(
    alloc: Global,
    lock: Lock<'a>,
    faults: &mut Vec<Fault<'a>>,
) -> Result<Vec<Edge<'a>>, AllocError>
    ensures edges { IfOk result (λ edges. AreEdges lock.entry edges.items) }
    ensures root { OnOk result (IsAt lock.entry [] None
        → HasFault faults.new.items (λ f. f ≡ Fault.NoRoot)) }
    ensures told { OnOk result (ArePackagesTold lock.entry faults.new.items) }
    ensures real { OnOk result (All (IsPackageFault lock.entry) faults.old.items
        → All (IsPackageFault lock.entry) faults.new.items) }
{
    if lock.package("").is_none() {
        faults.push(Fault::NoRoot)?;
    }
    edges(alloc, lock, faults)
}

// What is found for each of these dependencies after `overrides`. What is malformed of those is
// added to `faults`.
fn judged<'a>(
    alloc: Global,
    lock: Lock<'a>,
    edges: &[Edge<'a>],
    faults: &mut Vec<Fault<'a>>,
) -> Result<Vec<Finding<'a>>, AllocError>
    ensures each { IfOk result (λ found. AreFindingsOf lock.entry edges.now found.items) }
    ensures all { IfOk result (λ found. All (IsAmong found.items) edges.now) }
    ensures single { AreApartEdges edges.now → IfOk result (λ found. AreSingle found.items) }
    ensures kept { OnOk result (Extends faults.old.items faults.new.items) }
    ensures told { OnOk result (OfFields lock.entry [] HasOtherRules
        → HasFault faults.new.items (IsFieldFault [] (codes "overrides"))) }
    ensures inside { OnOk result (AreRulesTold lock.entry faults.new.items) }
    ensures wrong { OnOk result (All (IsFault lock.entry) faults.old.items
        → All (IsFault lock.entry) faults.new.items) }
{
    let overrides = Overrides::of(alloc, lock.package(""), faults)?;
    let scopes = Scopes::of(alloc, overrides, edges)?;
    findings_of(alloc, lock, &scopes, edges)
}

// Which packages ask for each, if one of the findings is told.
fn requirers<'a>(
    alloc: Global,
    lock: Lock<'a>,
    edges: &[Edge<'a>],
    findings: &[Finding<'_>],
) -> Result<Requirers<'a>, AllocError> {
    if is_any_told(findings) {
        Requirers::of(alloc, lock, edges)
    } else {
        Ok(Requirers::none(alloc))
    }
}

// What is found for each dependency.
fn findings_of<'a>(
    alloc: Global,
    lock: Lock<'a>,
    scopes: &Scopes<'a>,
    edges: &[Edge<'a>],
) -> Result<Vec<Finding<'a>>, AllocError>
    ensures each { IsAt lock.entry [] scopes.now.overrides.root
        → AreAllLaid scopes.now.overrides.root scopes.now.overrides.rules.items
        → AreChosen scopes.now.overrides.root scopes.now.overrides.rules.items edges.now
        scopes.now.of_edges
        → IfOk result (λ found. AreFindingsOf lock.entry edges.now found.items) }
    ensures all { IfOk result (λ found. All (IsAmong found.items) edges.now) }
    ensures single { AreApartEdges edges.now → IfOk result (λ found. AreSingle found.items) }
{
    let mut findings = Vec::new(alloc);
    for (number, edge) in edges.iter().enumerate() {
        let wanted = scopes.wanted(lock, number, *edge);
        findings.push(finding(alloc, lock, *edge, wanted)?)?;
    }
    Ok(findings)
}

// What is found for a dependency that wants this.
fn finding<'a>(
    alloc: Global,
    lock: Lock<'a>,
    edge: Edge<'a>,
    wanted: Option<Wanted<'a>>,
) -> Result<Finding<'a>, AllocError>
    ensures dependency { IfOk result (λ f. f.dependency
        ≡ as_wanted edge.entry.dependency wanted.entry) }
    ensures outcome { IfOk result (λ f. IsFoundFor lock.entry edge.entry wanted.entry f.outcome) }
{
    let Edge { dependency, locked } = edge;
    let Some(wanted) = wanted else {
        return Ok(Finding {
            dependency,
            outcome: Outcome::NoReference,
        });
    };
    let before = dependency.wanted;
    let dependency = Dependency {
        wanted,
        ..dependency
    };
    let outcome = outcome(alloc, lock, before, dependency, locked)?;
    Ok(Finding {
        dependency,
        outcome,
    })
}

// What is found for a dependency that wanted something else before the overrides.
fn outcome<'a>(
    alloc: Global,
    lock: Lock<'a>,
    before: Wanted<'a>,
    dependency: Dependency<'a>,
    locked: Option<Package<'a>>,
) -> Result<Outcome<'a>, AllocError>
    ensures { IfOk result (IsOutcome lock.entry dependency.entry before.entry locked.entry) }
{
    if is_conflict(dependency, before) {
        return Ok(Outcome::Conflict);
    }
    match locked {
        None if dependency.is_optional() => Ok(Outcome::Absent),
        None => Ok(Outcome::Missing),
        Some(locked) => locked_outcome(alloc, lock, dependency, locked),
    }
}

// Whether the overrides change what the root project itself writes.
fn is_conflict(dependency: Dependency<'_>, before: Wanted<'_>) -> bool
    ensures { IsTrue result ↔ IsConflict dependency.entry before.entry }
{
    dependency.package.folder.is_empty() && dependency.wanted.is_other_than(before)
}

// What is found of a package that is locked for a dependency.
fn locked_outcome<'a>(
    alloc: Global,
    lock: Lock<'a>,
    dependency: Dependency<'a>,
    locked: Package<'a>,
) -> Result<Outcome<'a>, AllocError>
    ensures { IfOk result (IsLockedOutcome lock.entry dependency.entry locked.entry) }
{
    let Some(package) = lock.behind(alloc, locked)? else {
        return Ok(Outcome::NoFolder);
    };
    let target = Target {
        dependency,
        locked,
        package,
        is_nested: lock.is_nested,
    };
    if target.is_own_peer() {
        return Ok(Outcome::Skipped(Skip::OwnPeer));
    }
    if !is_name(dependency.name) {
        return Ok(Outcome::Unnamed);
    }
    if target.is_link_of_root() {
        return Ok(Outcome::Skipped(Skip::Link));
    }
    target.outcome_of_either(alloc)
}

// A package that is locked for a dependency.
#[derive(Clone, Copy)]
struct Target<'a> {
    dependency: Dependency<'a>,
    locked: Package<'a>,
    // The package itself, or that to which it is a link.
    package: Package<'a>,
    // Whether the lock file holds no versions of folders.
    is_nested: bool,
}

impl<'a> Target<'a> {
    fn is_link(self) -> bool
        ensures { result ≡ is_link (locked_in self.entry) }
    {
        self.locked.is("link")
    }

    // Whether it is a peer that stands inside the package that wants it, so that npm judges it not.
    fn is_own_peer(self) -> bool
        ensures { IsTrue result ↔ IsOwnPeer self.entry.dependency self.entry.locked }
    {
        let folder = self.dependency.package.folder;
        self.dependency.field == Field::Peer
            && is_installed(folder)
            && self.locked.folder.starts_with(folder)
    }

    // Whether the root project may have it as a workspace by a pattern that is not read.
    fn is_link_of_root(self) -> bool
        ensures { IsTrue result ↔ IsLinkOfRoot self.entry.dependency self.entry.locked }
    {
        let root = self.dependency.package;
        self.is_link()
            && root.folder.is_empty()
            && self.dependency.field != Field::Workspaces
            && !are_read(root)
    }

    // What the dependency says of it, or what the package accepts instead if that is satisfied.
    fn outcome_of_either(self, alloc: Global) -> Result<Outcome<'a>, AllocError>
        ensures { IfOk result (IsJudged self.entry.dependency (locked_in self.entry)) }
    {
        let outcome = self.wanted_outcome(alloc)?;
        match self.dependency.accepted() {
            Some(accepted) if !outcome.is_satisfied() => {
                self.accepted_outcome(alloc, accepted, outcome)
            }
            _ => Ok(outcome),
        }
    }

    // What this text says of it, unless that is rejected too: then this outcome.
    fn accepted_outcome(
        self,
        alloc: Global,
        accepted: &'a str,
        outcome: Outcome<'a>,
    ) -> Result<Outcome<'a>, AllocError>
        ensures { IfOk result (IsInstead accepted.now (locked_in self.entry) outcome.entry) }
    {
        match self.text_outcome(alloc, accepted) {
            Ok(second) if !second.is_rejected() => Ok(second),
            Ok(_) => Ok(outcome),
            Err(error) => Err(error),
        }
    }

    fn wanted_outcome(self, alloc: Global) -> Result<Outcome<'a>, AllocError>
        ensures { IfOk result
            (IsWantedOutcome self.entry.dependency.wanted (locked_in self.entry)) }
    {
        self.outcome(alloc, self.dependency.wanted.specifier())
    }

    fn text_outcome(self, alloc: Global, text: &'a str) -> Result<Outcome<'a>, AllocError>
        ensures { IfOk result (IsTextOutcome text.now (locked_in self.entry)) }
    {
        self.outcome(alloc, Specifier::of(text))
    }

    fn outcome(self, alloc: Global, wanted: Specifier<'a>) -> Result<Outcome<'a>, AllocError>
        ensures { IfOk result (IsSpecifierOutcome wanted.entry (locked_in self.entry)) }
    {
        match wanted {
            Specifier::Unsupported => Ok(Outcome::Unsupported),
            Specifier::Range(text) => self.registry_outcome(alloc, text),
            Specifier::Folder(path) => self.folder_outcome(alloc, path),
            Specifier::Packed(path) => self.packed_outcome(alloc, path),
            Specifier::Page(url) if self.is_from(url) => Ok(Outcome::Satisfied),
            Specifier::Page(_) => Ok(Outcome::Elsewhere),
            Specifier::Repository(range) => self.repository_outcome(alloc, range),
        }
    }

    // Where the package comes from. A link comes from no address.
    fn resolved(self) -> Option<&'a str>
        ensures { option_map (λ t. t.now) result ≡ address_of (locked_in self.entry) }
    {
        if self.is_link() {
            None
        } else {
            self.locked.text("resolved")
        }
    }

    fn is_from(self, url: &str) -> bool
        ensures { IsTrue result ↔ (address_of (locked_in self.entry) ≡ Some url.now) }
    {
        match self.resolved() {
            Some(resolved) => resolved == url,
            None => false,
        }
    }

    // Where a path of the dependency leads, if it is read.
    fn place(self, alloc: Global, path: &str) -> Result<Option<String>, AllocError>
        ensures { IfOk result (λ place. option_map string_bytes place
            ≡ place_for path.now (locked_in self.entry)) }
    {
        match self.base() {
            Some(base) if is_relative(path) => Ok(Some(joined(alloc, base, path)?)),
            _ => Ok(None),
        }
    }

    // The folder from which the paths of the dependency lead.
    fn base(self) -> Option<&'a str>
        ensures { option_map (λ t. t.now) result ≡ base_of self.entry.dependency }
    {
        let package = self.dependency.package;
        match package.text("resolved") {
            Some(resolved) if is_file(resolved) => None,
            _ => Some(base_by(self.dependency.wanted, package.folder)),
        }
    }

    fn folder_outcome(self, alloc: Global, path: &str) -> Result<Outcome<'a>, AllocError>
        ensures { IfOk result (IsFolderOutcome path.now (locked_in self.entry)) }
    {
        if !self.is_link() {
            return Ok(Outcome::Elsewhere);
        }
        let place = self.place(alloc, path)?;
        Ok(place_outcome(place.as_deref(), self.package.folder))
    }

    fn packed_outcome(self, alloc: Global, path: &str) -> Result<Outcome<'a>, AllocError>
        ensures { IfOk result (IsPackedOutcome path.now (locked_in self.entry)) }
    {
        let Some(own) = self.file() else {
            return Ok(Outcome::Elsewhere);
        };
        let own = joined(alloc, "", own)?;
        let place = self.place(alloc, path)?;
        Ok(place_outcome(place.as_deref(), &own))
    }

    // The path of the file from which it comes.
    fn file(self) -> Option<&'a str>
        ensures { MatchOption result ((own : List ℕ) → ¬ (IsFromFile (locked_in self.entry) own))
            (λ own. IsFromFile (locked_in self.entry) own.now) }
    {
        match self.resolved() {
            Some(resolved) => resolved.strip_prefix("file:"),
            None => None,
        }
    }

    // Two addresses of repositories are not compared.
    fn repository_outcome(
        self,
        alloc: Global,
        range: Option<&'a str>,
    ) -> Result<Outcome<'a>, AllocError>
        ensures { IfOk result (IsRepositoryOutcome (option_map (λ t. t.now) range.entry)
            (locked_in self.entry)) }
    {
        if !self.is_from_repository() {
            return Ok(Outcome::Elsewhere);
        }
        match range {
            None => Ok(Outcome::Skipped(Skip::Address)),
            Some(range) => self.ranged_outcome(alloc, range),
        }
    }

    // What the range of a repository says of it.
    fn ranged_outcome(self, alloc: Global, range: &str) -> Result<Outcome<'a>, AllocError>
        ensures { IfOk result (IsRangedOutcome (Some range.now) (locked_in self.entry)) }
    {
        match self.range_outcome(alloc, range) {
            Ok(outcome) if !outcome.is_satisfied() => Ok(outcome),
            Ok(_) => Ok(Outcome::Skipped(Skip::Address)),
            Err(error) => Err(error),
        }
    }

    fn is_from_repository(self) -> bool
        ensures { IsTrue result ↔ IsFromRepository (locked_in self.entry) }
    {
        one_specifier();
        match self.resolved() {
            Some(text) => Specifier::of(text).is_repository(),
            None => false,
        }
    }

    // Whether it comes from the address of a packed package.
    fn is_from_page(self) -> bool
        ensures { IsTrue result ↔ IsFromPage (locked_in self.entry) }
    {
        one_specifier();
        match self.resolved() {
            Some(text) => is_page(Specifier::of(text)),
            None => false,
        }
    }

    // What the text of a range says of it that is asked of a registry. To npm `*` accepts every
    // locked version, pre-releases too.
    fn registry_outcome(self, alloc: Global, wanted: &str) -> Result<Outcome<'a>, AllocError>
        ensures { IfOk result (IsRegistryOutcome wanted.now (locked_in self.entry)) }
    {
        if trim(wanted) == "*" {
            return Ok(Outcome::Satisfied);
        }
        self.range_outcome(alloc, wanted)
    }

    // What a range text says of it.
    fn range_outcome(self, alloc: Global, wanted: &str) -> Result<Outcome<'a>, AllocError>
        ensures { IfOk result (IsRangeOutcome wanted.now (locked_in self.entry)) }
    {
        let judgement = judge_texts(alloc, wanted, self.version())?;
        Ok(self.told(wanted, judgement))
    }

    // What is told of this judgement of a range text.
    fn told(self, wanted: &str, judgement: Judgement) -> Outcome<'a>
        ensures { IsToldOf wanted.now judgement (locked_in self.entry) result }
    {
        match judgement {
            Judgement::NoRange => self.tag_outcome(wanted),
            Judgement::Unsure => Outcome::Skipped(Skip::Unsure),
            Judgement::NoVersion => self.unversioned(),
            Judgement::Read(Verdict::Accepted) => Outcome::Satisfied,
            Judgement::Read(Verdict::Rejected(smallest)) => Outcome::Rejected {
                version: self.version(),
                smallest,
            },
        }
    }

    // Its version, or the empty text, which is none.
    fn version(self) -> &'a str
        ensures { result.now ≡ version_text (locked_in self.entry) }
    {
        match self.package.text("version") {
            Some(version) => version,
            None => "",
        }
    }

    // What is found if its text is no version, or if there is none: npm reads the version of a
    // folder there.
    fn unversioned(self) -> Outcome<'a>
        ensures { IsUnversioned (locked_in self.entry) result }
    {
        match self.package.text("version") {
            Some(version) => Outcome::NoVersion { version },
            None if self.is_nested && self.is_link() => Outcome::Skipped(Skip::Unlocked),
            None => Outcome::Unversioned,
        }
    }

    // npm wants what a tag names to come from an address of a package.
    fn tag_outcome(self, wanted: &str) -> Outcome<'a>
        ensures { IsTagOutcome wanted.now (locked_in self.entry) result }
    {
        if !is_tag(wanted) {
            Outcome::Unread
        } else if self.is_from_page() {
            Outcome::Tagged
        } else {
            Outcome::Untraced
        }
    }
}

fn is_file(text: &str) -> bool
    ensures { result ≡ is_file text.now }
{
    text.starts_with("file:")
}

fn is_page(specifier: Specifier<'_>) -> bool
    ensures { result ≡ is_page specifier.entry }
{
    matches!(specifier, Specifier::Page(_))
}

// The paths of an override lead from the root project, and others from the package that has them.
fn base_by<'a>(wanted: Wanted<'_>, folder: &'a str) -> &'a str
    ensures { result.now ≡ base_by wanted.entry folder.now }
{
    match wanted {
        Wanted::Override(_) => "",
        Wanted::Text(_) | Wanted::Workspace(_) => folder,
    }
}

// What is found in this place where another one is wanted, if that is known.
fn place_outcome<'a>(wanted: Option<&str>, own: &str) -> Outcome<'a>
    ensures { IsPlaceOutcome (option_map (λ t. t.now) wanted.entry) own.now result }
{
    match wanted {
        None => Outcome::Skipped(Skip::Address),
        Some(place) if place == own => Outcome::Satisfied,
        Some(_) => Outcome::Elsewhere,
    }
}
