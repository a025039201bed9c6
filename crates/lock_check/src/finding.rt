// What is found for each dependency, and how it is printed.

ghost use Rattle.lock_check.specs.Findings.{AreSkips, count_of, is_same, is_same_reason};
ghost use Rattle.lock_check.specs.Findings.{is_skipped_for, is_told, kind_of, skipped_for};
ghost use Rattle.lock_check.specs.Reports.{kind_word};
ghost use Rattle.lock_check.specs.Rows.{rejected_version};
ghost use Rattle.lock_check.specs.Summary.{checked_text, counts_data, counts_text, found_text};
ghost use Rattle.lock_check.specs.Summary.{named_skips, reason_text, reasons_text, separator};
ghost use Rattle.lock_check.specs.Summary.{sizes_text, skip_words, skipped_text, skips_data};
ghost use Rattle.lock_check.specs.Summary.{summary, unchecked_text, unlocked_text};
ghost use Rattle.serde_json.specs.Data.{no_members, object as object_data};
ghost use Rattle.serde_json.specs.View.{members_view, view};
ghost use Rattle.serde_json.specs.Written.{compact_text};
ghost use Rattle.std.specs.BTreeMap.{btree_map_len};
ghost use Rattle.std.specs.Prelude.{◌≡◌, ◌<◌, ◌++◌, IfOk, OnOk, length, option_map, string_bytes};

use crate::check::Findings;
use crate::json::{put_text, write_line};
use lock_files::{Dependency, Lock, Shown};
use nodejs_semver::Version;
use nodejs_semver::diagnosis::version_flaw;
use serde_json::{Map, Value, put};
use std::alloc::{AllocError, Global};
use std::fmt;
use std::fmt::Write;

/// A dependency, and what is found for it.
#[derive(Drop)]
pub struct Finding<'a> {
    pub dependency: Dependency<'a>,
    pub outcome: Outcome<'a>,
}

/// What is found for a dependency.
#[derive(Drop)]
pub enum Outcome<'a> {
    Satisfied,
    /// A tag is wanted, and the package comes from the address of a package, as npm has it.
    Tagged,
    /// The range rejects the locked version. The smallest version that it accepts, if there is one.
    Rejected {
        version: &'a str,
        smallest: Option<Version>,
    },
    /// The locked version is not one version as a whole.
    NoVersion {
        version: &'a str,
    },
    /// The locked package has no text `version`.
    Unversioned,
    /// The range text is neither a range nor a tag nor an address.
    Unread,
    /// The range text is one that npm rejects, as a URL of a protocol that it does not read.
    Unsupported,
    /// The name is none that a package may have.
    Unnamed,
    /// The package comes from another address than the one that is wanted.
    Elsewhere,
    /// A tag is wanted, and the package does not come from the address of a package.
    Untraced,
    /// The package is a link to a folder that the lock file does not have.
    NoFolder,
    /// `overrides` changes what the root project itself depends on.
    Conflict,
    /// `overrides` puts a reference to no dependency of the root project in the place of the range.
    NoReference,
    /// No `node_modules` here or above has a package of this name.
    Missing,
    /// The same of a dependency that may be absent.
    Absent,
    /// It is not checked.
    Skipped(Skip),
}

/// Why a dependency is not checked.
#[derive(Clone, Copy, PartialEq, Eq)]
pub enum Skip {
    /// npm may read another range in its text than is read here, or none.
    Unsure,
    /// Its range text is an address that is not compared.
    Address,
    /// The package is a link that may be to a workspace.
    Link,
    /// The package is a link, and its version is not in the lock file.
    Unlocked,
    /// It is a peer that stands inside the package that wants it.
    OwnPeer,
}

/// Outcomes that are counted as one.
#[derive(Clone, Copy, PartialEq, Eq)]
pub enum Kind {
    Satisfied,
    Rejected,
    Missing,
    Absent,
    Skipped,
    /// It is none of a dependency, but a field of which none is read.
    Malformed,
}

/// How many packages and dependencies there are, and how many have each kind of outcome.
#[derive(Clone, Copy)]
pub struct Counts {
    packages: usize,
    dependencies: usize,
    satisfied: usize,
    rejected: usize,
    missing: usize,
    absent: usize,
    skipped: usize,
    skips: Skips,
    malformed: usize,
}

/// How many dependencies are skipped for each reason.
#[derive(Clone, Copy)]
struct Skips {
    unsure: usize,
    address: usize,
    link: usize,
    unlocked: usize,
    own_peer: usize,
}

impl Kind {
    /// The word for it.
    pub fn word(self) -> &'static str
        ensures { result.now ≡ kind_word self }
    {
        match self {
            Kind::Satisfied => "satisfied",
            Kind::Rejected => "rejected",
            Kind::Missing => "missing",
            Kind::Absent => "absent",
            Kind::Skipped => "skipped",
            Kind::Malformed => "malformed",
        }
    }

    fn is(self, kind: Kind) -> bool
        ensures { result ≡ is_same kind self }
    {
        self == kind
    }
}

impl Skip {
    fn is(self, skip: Skip) -> bool
        ensures { result ≡ is_same_reason skip self }
    {
        self == skip
    }

    // What is told of it.
    fn words(self) -> &'static str
        ensures { result.now ≡ skip_words self }
    {
        match self {
            Skip::Unsure => "a range text that npm may read otherwise",
            Skip::Address => "an address",
            Skip::Link => "a link that may be a workspace",
            Skip::Unlocked => "a link whose version is not in the lock file",
            Skip::OwnPeer => "a peer in its own folder",
        }
    }
}

impl<'a> Outcome<'a> {
    /// Whether the dependency is satisfied.
    pub fn is_satisfied(&self) -> bool
        ensures { result ≡ is_same Kind.Satisfied (kind_of self.now) }
    {
        self.kind().is(Kind::Satisfied)
    }

    /// Whether the dependency is rejected.
    pub fn is_rejected(&self) -> bool
        ensures { result ≡ is_same Kind.Rejected (kind_of self.now) }
    {
        self.kind().is(Kind::Rejected)
    }

    // What is told of the dependency: before the version, if that is told too.
    fn words(&self) -> &'static str {
        match self {
            Outcome::Satisfied | Outcome::Tagged => "satisfied",
            Outcome::Rejected { .. } | Outcome::NoVersion { .. } => "not ",
            Outcome::Unversioned => "not locked to a version",
            Outcome::Unread => "rejected: no range, tag or address",
            Outcome::Unsupported => "rejected: no text that npm reads",
            Outcome::Unnamed => "rejected: no name of a package",
            Outcome::Elsewhere => "rejected: locked to another place",
            Outcome::Untraced => "rejected: a tag, locked to no address of a package",
            Outcome::NoFolder => "rejected: a link to a folder that is not there",
            Outcome::Conflict => "rejected: an override of a direct dependency",
            Outcome::NoReference => "rejected: its override refers to nothing",
            Outcome::Missing => "missing",
            Outcome::Absent => "absent",
            Outcome::Skipped(_) => "skipped: ",
        }
    }

    // Whether it is skipped for this reason.
    fn is_skipped_for(&self, skip: Skip) -> bool
        ensures { result ≡ is_skipped_for skip self.now }
    {
        match self {
            Outcome::Skipped(reason) => reason.is(skip),
            _ => false,
        }
    }

    /// The locked version, where that is rejected.
    pub fn version(&self) -> Option<&'a str>
        ensures { option_map (λ t. t.now) result ≡ rejected_version self.now }
    {
        match self {
            Outcome::Rejected { version, .. } | Outcome::NoVersion { version } => Some(*version),
            _ => None,
        }
    }

    /// How it is counted.
    pub fn kind(&self) -> Kind
        ensures { result ≡ kind_of self.now }
    {
        match self {
            Outcome::Satisfied | Outcome::Tagged => Kind::Satisfied,
            Outcome::Rejected { .. }
            | Outcome::NoVersion { .. }
            | Outcome::Unversioned
            | Outcome::Unread
            | Outcome::Unsupported
            | Outcome::Unnamed
            | Outcome::Elsewhere
            | Outcome::Untraced
            | Outcome::NoFolder
            | Outcome::Conflict
            | Outcome::NoReference => Kind::Rejected,
            Outcome::Missing => Kind::Missing,
            Outcome::Absent => Kind::Absent,
            Outcome::Skipped(_) => Kind::Skipped,
        }
    }
}

impl Finding<'_> {
    /// Whether the finding is told of. If it is quiet, none is that is skipped.
    pub fn is_told(&self, is_quiet: bool) -> bool
        ensures { result ≡ is_told is_quiet (kind_of self.now.outcome) }
    {
        match self.outcome.kind() {
            Kind::Satisfied | Kind::Absent => false,
            Kind::Skipped => !is_quiet,
            Kind::Rejected | Kind::Missing | Kind::Malformed => true,
        }
    }
}

impl fmt::Display for Finding<'_> {
    fn fmt<W: fmt::Write>(&self, f: &mut fmt::Formatter<W>) -> fmt::Result {
        write!(f, "{}, {}", self.dependency, self.outcome.words())?;
        match &self.outcome {
            Outcome::Rejected {
                version,
                smallest: None,
            } => write!(f, "{}; it accepts no version", Shown(version)),
            Outcome::Rejected {
                version,
                smallest: Some(smallest),
            } => write!(f, "{}; smallest accepted: {smallest}", Shown(version)),
            Outcome::NoVersion { version } => write_no_version(f, version),
            Outcome::Skipped(reason) => f.write_str(reason.words()),
            _ => Ok(()),
        }
    }
}

// A text that is no version, and its flaw. npm rejects the mark `V`, which is none to `parse`.
fn write_no_version<W: fmt::Write>(f: &mut fmt::Formatter<W>, text: &str) -> fmt::Result {
    write!(f, "{}; no version", Shown(text))?;
    match version_flaw(text) {
        Some(flaw) => write!(f, ": {flaw}"),
        None => Ok(()),
    }
}

impl Skips {
    fn of(findings: &[Finding<'_>]) -> Skips
        ensures { AreSkips findings.now result }
    {
        Skips {
            unsure: count_skipped(findings, Skip::Unsure),
            address: count_skipped(findings, Skip::Address),
            link: count_skipped(findings, Skip::Link),
            unlocked: count_skipped(findings, Skip::Unlocked),
            own_peer: count_skipped(findings, Skip::OwnPeer),
        }
    }

    fn object(&self, alloc: Global) -> Result<Value, AllocError>
        ensures { IfOk result (λ v. view v ≡ skips_data self.now) }
    {
        let mut object = Map::new(alloc);
        self.put_all(alloc, &mut object)?;
        Ok(Value::Object(object))
    }

    // Puts them into an empty object.
    #[tactic(auto, unfolding(crate::specs::Summary::skips_data))]
    fn put_all(&self, alloc: Global, object: &mut Map<String, Value>) -> Result<(), AllocError>
        ensures { members_view object.old.entries ≡ no_members
            → OnOk result (object_data (members_view object.new.entries) ≡ skips_data self.now) }
    {
        put(
            object,
            alloc,
            Skip::Unsure.words(),
            Value::from(self.unsure),
        )?;
        put(
            object,
            alloc,
            Skip::Address.words(),
            Value::from(self.address),
        )?;
        put(object, alloc, Skip::Link.words(), Value::from(self.link))?;
        put(
            object,
            alloc,
            Skip::Unlocked.words(),
            Value::from(self.unlocked),
        )?;
        put(
            object,
            alloc,
            Skip::OwnPeer.words(),
            Value::from(self.own_peer),
        )
    }

    fn named(&self) -> [(Skip, usize); 5]
        ensures { result ≡ named_skips self.now }
    {
        [
            (Skip::Unsure, self.unsure),
            (Skip::Address, self.address),
            (Skip::Link, self.link),
            (Skip::Unlocked, self.unlocked),
            (Skip::OwnPeer, self.own_peer),
        ]
    }

    // Adds the reasons that there are, with their counts.
    fn write(&self, output: &mut String) -> Result<(), AllocError>
        ensures { OnOk result (string_bytes output.new
            ≡ string_bytes output.old ++ reasons_text self.now) }
    {
        let mut is_first = true;
        for (skip, count) in self.named() {
            if count > 0 {
                write_reason(is_first, skip, count, output)?;
                is_first = false;
            }
        }
        if !is_first {
            output.push_str(")")?;
        }
        Ok(())
    }
}

// Adds a reason with its count, behind a bracket if it is the first.
fn write_reason(
    is_first: bool,
    skip: Skip,
    count: usize,
    output: &mut String,
) -> Result<(), AllocError>
    ensures { OnOk result (string_bytes output.new
        ≡ string_bytes output.old ++ separator is_first ++ reason_text (skip, count)) }
{
    output.push_str(if is_first { " (" } else { ", " })?;
    let words = skip.words();
    write!(output, "{words}: {count}")
}

fn count_skipped(findings: &[Finding<'_>], skip: Skip) -> usize
    ensures { result ≡ skipped_for skip findings.now }
{
    let mut count = 0;
    for finding in findings {
        if finding.outcome.is_skipped_for(skip) {
            count += 1;
        }
    }
    count
}

impl Counts {
    /// How many packages and dependencies there are, and how many have each kind of outcome.
    pub fn of(lock: Lock<'_>, found: &Findings<'_>) -> Counts
        ensures packages { result.packages ≡ btree_map_len lock.entry.packages.now }
        ensures dependencies { result.dependencies ≡ length found.now.of_dependencies.items }
        ensures satisfied { result.satisfied
            ≡ count_of Kind.Satisfied found.now.of_dependencies.items }
        ensures rejected { result.rejected
            ≡ count_of Kind.Rejected found.now.of_dependencies.items }
        ensures missing { result.missing ≡ count_of Kind.Missing found.now.of_dependencies.items }
        ensures absent { result.absent ≡ count_of Kind.Absent found.now.of_dependencies.items }
        ensures skipped { result.skipped ≡ count_of Kind.Skipped found.now.of_dependencies.items }
        ensures skips { AreSkips found.now.of_dependencies.items result.skips }
        ensures malformed { result.malformed ≡ length found.now.faults.items }
    {
        let findings = &found.of_dependencies;
        Counts {
            packages: lock.packages.len(),
            dependencies: findings.len(),
            satisfied: count(findings, Kind::Satisfied),
            rejected: count(findings, Kind::Rejected),
            missing: count(findings, Kind::Missing),
            absent: count(findings, Kind::Absent),
            skipped: count(findings, Kind::Skipped),
            skips: Skips::of(findings),
            malformed: found.faults.len(),
        }
    }

    /// Writes the counts as text, or as an object of JSON, on a line. Fails only if allocation
    /// fails.
    pub fn write(&self, alloc: Global, is_json: bool, output: &mut String) -> Result<(), AllocError>
        ensures { OnOk result (string_bytes output.new
            ≡ string_bytes output.old ++ summary is_json self.now) }
    {
        if is_json {
            let text = self.object_text(alloc)?;
            write_line(&text, output)
        } else {
            self.write_text(output)
        }
    }

    fn write_text(&self, output: &mut String) -> Result<(), AllocError>
        ensures { OnOk result (string_bytes output.new
            ≡ string_bytes output.old ++ counts_text self.now) }
    {
        self.write_checked(output)?;
        self.write_unchecked(output)
    }

    fn write_checked(&self, output: &mut String) -> Result<(), AllocError>
        ensures { OnOk result (string_bytes output.new
            ≡ string_bytes output.old ++ checked_text self.now) }
    {
        self.write_sizes(output)?;
        self.write_found(output)
    }

    #[tactic(auto, unfolding(crate::specs::Summary::sizes_text))]
    fn write_sizes(&self, output: &mut String) -> Result<(), AllocError>
        ensures { OnOk result (string_bytes output.new
            ≡ string_bytes output.old ++ sizes_text self.now) }
    {
        let (packages, dependencies) = (self.packages, self.dependencies);
        write!(output, "{packages} packages, {dependencies} dependencies: ")
    }

    #[tactic(auto, unfolding(crate::specs::Summary::found_text))]
    fn write_found(&self, output: &mut String) -> Result<(), AllocError>
        ensures { OnOk result (string_bytes output.new
            ≡ string_bytes output.old ++ found_text self.now) }
    {
        let (satisfied, rejected) = (self.satisfied, self.rejected);
        write!(output, "{satisfied} satisfied, {rejected} rejected, ")
    }

    fn write_unchecked(&self, output: &mut String) -> Result<(), AllocError>
        ensures { OnOk result (string_bytes output.new
            ≡ string_bytes output.old ++ unchecked_text self.now) }
    {
        self.write_unlocked(output)?;
        self.write_skipped(output)
    }

    #[tactic(auto, unfolding(crate::specs::Summary::unlocked_text))]
    fn write_unlocked(&self, output: &mut String) -> Result<(), AllocError>
        ensures { OnOk result (string_bytes output.new
            ≡ string_bytes output.old ++ unlocked_text self.now) }
    {
        let (missing, absent, skipped) = (self.missing, self.absent, self.skipped);
        write!(
            output,
            "{missing} missing, {absent} absent, {skipped} skipped"
        )
    }

    fn write_skipped(&self, output: &mut String) -> Result<(), AllocError>
        ensures { OnOk result (string_bytes output.new
            ≡ string_bytes output.old ++ skipped_text self.now) }
    {
        self.skips.write(output)?;
        writeln!(output, ", {} malformed", self.malformed)
    }

    // The text of the object of the counts.
    fn object_text(&self, alloc: Global) -> Result<String, AllocError>
        ensures { IfOk result (λ s. string_bytes s ≡ compact_text (counts_data self.now)) }
    {
        let object = self.object(alloc)?;
        object.to_string(alloc)
    }

    fn object(&self, alloc: Global) -> Result<Value, AllocError>
        ensures { IfOk result (λ v. view v ≡ counts_data self.now) }
    {
        let mut object = Map::new(alloc);
        self.put_all(alloc, &mut object)?;
        Ok(Value::Object(object))
    }

    // Puts them into an empty object.
    #[tactic(auto, unfolding(crate::specs::Summary::counts_data))]
    fn put_all(&self, alloc: Global, object: &mut Map<String, Value>) -> Result<(), AllocError>
        ensures { members_view object.old.entries ≡ no_members
            → OnOk result (object_data (members_view object.new.entries) ≡ counts_data self.now) }
    {
        put_text(alloc, "kind", Some("summary"), object)?;
        put(object, alloc, "packages", Value::from(self.packages))?;
        put(
            object,
            alloc,
            "dependencies",
            Value::from(self.dependencies),
        )?;
        put(object, alloc, "satisfied", Value::from(self.satisfied))?;
        put(object, alloc, "rejected", Value::from(self.rejected))?;
        put(object, alloc, "missing", Value::from(self.missing))?;
        put(object, alloc, "absent", Value::from(self.absent))?;
        put(object, alloc, "skipped", Value::from(self.skipped))?;
        put(object, alloc, "malformed", Value::from(self.malformed))?;
        let skips = self.skips.object(alloc)?;
        put(object, alloc, "skipped_for", skips)
    }

    /// The exit status.
    pub fn exit_status(self) -> u8
        ensures trouble { 0 < self.malformed → result ≡ 2 }
        ensures rejected { self.malformed ≡ 0 → 0 < self.rejected → result ≡ 1 }
        ensures missing { self.malformed ≡ 0 → 0 < self.missing → result ≡ 1 }
        ensures clean { self.malformed ≡ 0 → self.rejected ≡ 0 → self.missing ≡ 0 → result ≡ 0 }
    {
        status(self.malformed, self.rejected, self.missing)
    }
}

/// The exit status for these counts: 2 if something is malformed, else 1 if a dependency is
/// rejected or missing, and else 0.
fn status(malformed: usize, rejected: usize, missing: usize) -> u8
    ensures trouble { 0 < malformed → result ≡ 2 }
    ensures rejected { malformed ≡ 0 → 0 < rejected → result ≡ 1 }
    ensures missing { malformed ≡ 0 → 0 < missing → result ≡ 1 }
    ensures clean { malformed ≡ 0 → rejected ≡ 0 → missing ≡ 0 → result ≡ 0 }
{
    if malformed > 0 {
        2
    } else if rejected > 0 || missing > 0 {
        1
    } else {
        0
    }
}

fn count(findings: &[Finding<'_>], kind: Kind) -> usize
    ensures { result ≡ count_of kind findings.now }
{
    let mut count = 0;
    for finding in findings {
        if finding.outcome.kind().is(kind) {
            count += 1;
        }
    }
    count
}
