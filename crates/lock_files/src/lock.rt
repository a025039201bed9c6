// The packages of a lock file, and what they depend on.

ghost use Rattle.lock_files.specs.Internal.Collected.{AreAllFound, AreNamed, AreOwn, AreUpto};
ghost use Rattle.lock_files.specs.Internal.Collected.{AreWorkspaces, members_in, with_first};
ghost use Rattle.lock_files.specs.Faults.{Extends, HasAllFaults, HasFaults, IsFieldFault};
ghost use Rattle.lock_files.specs.Faults.{IsNoObject, IsPackageFault};
ghost use Rattle.lock_files.specs.Internal.Patterns.{Keeps};
ghost use Rattle.lock_files.specs.Dependencies.{IsRead, accepted_by, IsDeclared, rank};
ghost use Rattle.lock_files.specs.Optional.{MayBeAbsent};
ghost use Rattle.lock_files.specs.Fields.{is_set, member_of, text_of};
ghost use Rattle.lock_files.specs.Wanted.{IsOtherThan, IsWantedAs, wanted_text};
ghost use Rattle.lock_files.specs.Lookups.{IsAt, IsBehind, IsClosest, IsInside, IsNearest};
ghost use Rattle.lock_files.specs.Lookups.{IsPackage};
ghost use Rattle.lock_files.specs.Lookups.{IsPacked, LocksIn, field_name, installed, written_in};
ghost use Rattle.lock_files.specs.declared.lock.Lock.{Lock};
ghost use Rattle.serde_json.specs.View.{members_view, view};
ghost use Rattle.std.specs.Prelude.{◌≡◌, ◌≢◌, ◌↔◌, ◌+◌, ◌++◌, [], All, IfErr, IfNone, IfOk, IfSome};
ghost use Rattle.std.specs.Prelude.{IsTrue, List, OnOk, Some, codes, option_map, true, ℕ};

use crate::fault::Fault;
use crate::folder::{is_installed, joined};
use crate::shown::Shown;
use crate::specifier::Specifier;
use serde_json::{Map, Value};
use std::alloc::{AllocError, Global};
use std::collections::BTreeSet;
use std::fmt;

/// The packages of a lock file by their folders. The folder of the root project is the empty text.
#[derive(Clone, Copy)]
pub struct Lock<'a> {
    pub packages: &'a Map<String, Value>,
    /// Whether they stood inside one another, as in lock files of version 1. These do not hold the
    /// versions of folders.
    pub is_nested: bool,
}

/// A package of a lock file.
#[derive(Clone, Copy)]
pub struct Package<'a> {
    pub folder: &'a str,
    pub fields: &'a Value,
}

/// The fields in which a package names its dependencies.
#[derive(Clone, Copy, PartialEq, Eq)]
pub enum Field {
    Development,
    Optional,
    Production,
    Peer,
    /// `requires`, in lock files of version 1.
    Requires,
    /// `workspaces`, of the root project alone.
    Workspaces,
}

/// What a dependency wants.
#[derive(Clone, Copy)]
pub enum Wanted<'a> {
    /// What stands as its range.
    Text(&'a str),
    /// What `overrides` of the root project put in its place.
    Override(&'a str),
    /// The workspace in this folder.
    Workspace(&'a str),
}

/// A dependency of a package.
#[derive(Clone, Copy)]
pub struct Dependency<'a> {
    /// The package that depends on it.
    pub package: Package<'a>,
    pub field: Field,
    pub name: &'a str,
    pub wanted: Wanted<'a>,
}

/// The dependencies of one package. Of several with one name the first counts.
#[derive(Drop)]
pub(crate) struct Dependencies<'a> {
    names: BTreeSet<&'a str>,
    first: Vec<Dependency<'a>>,
}

// A name that stands in several fields counts in the first of these, as npm has it.
const FIELDS: &[Field] = &[
    Field::Development,
    Field::Optional,
    Field::Production,
    Field::Peer,
    Field::Requires,
];

impl Field {
    fn name(self) -> &'static str
        ensures { result.now ≡ field_name self }
    {
        match self {
            Field::Development => "devDependencies",
            Field::Optional => "optionalDependencies",
            Field::Production => "dependencies",
            Field::Peer => "peerDependencies",
            Field::Requires => "requires",
            Field::Workspaces => "workspaces",
        }
    }

    // Whether it is read of the package in this folder. npm reads `devDependencies` only of
    // projects, which stand outside `node_modules`.
    fn is_read(self, folder: &str) -> bool
        ensures { IsTrue result ↔ IsRead self folder.now }
    {
        match self {
            Field::Development => !is_installed(folder),
            Field::Workspaces => false,
            Field::Optional | Field::Production | Field::Peer | Field::Requires => true,
        }
    }

    // The dependencies of this field, by their names.
    fn of<'a>(self, package: Package<'a>) -> Result<Option<&'a Map<String, Value>>, Fault<'a>>
        ensures found { IfOk result (λ found. IfSome found (λ m. members_in self
            (view «package».entry.fields.now) ≡ Some (members_view m.now.entries))) }
        ensures none { IfOk result (λ found. IfNone found (IsRead self «package».entry.folder.now
            → members_in self (view «package».entry.fields.now) ≡ None)) }
        ensures read { IfOk result (λ found. IfSome found (λ m. IsRead self
            «package».entry.folder.now)) }
        ensures absent { IfOk result (λ found. IfNone found (IsRead self «package».entry.folder.now
            → ¬ (IsNoObject (view «package».entry.fields.now) self))) }
        ensures fault { IfErr result (λ fault. members_in self (view «package».entry.fields.now)
            ≡ None) }
        ensures told { IfErr result
            (IsFieldFault «package».entry.folder.now (field_name self)) }
        ensures wrong { IfErr result (λ fault. IsRead self «package».entry.folder.now
            × IsNoObject (view «package».entry.fields.now) self) }
    {
        if !self.is_read(package.folder) {
            return Ok(None);
        }
        let Some(value) = package.fields.get(self.name()) else {
            return Ok(None);
        };
        let (folder, field) = (package.folder, self.name());
        match value.as_object() {
            Some(ranges) => Ok(Some(ranges)),
            None if self == Field::Requires => Ok(None),
            None => Err(Fault::Field { folder, field }),
        }
    }
}

impl<'a> Package<'a> {
    /// The text in this field.
    pub fn text(self, field: &str) -> Option<&'a str>
        ensures { option_map (λ t. t.now) result ≡ text_of field.now (view self.entry.fields.now) }
    {
        self.fields.get(field).and_then(Value::as_str)
    }

    /// Whether this field is `true`.
    pub fn is(self, field: &str) -> bool
        ensures { result ≡ is_set field.now (view self.entry.fields.now) }
    {
        is_set(self.fields, field)
    }

    /// The text that it writes for a dependency of this name in this field.
    pub fn written(self, field: Field, name: &str) -> Option<&'a str>
        ensures { option_map (λ t. t.now) result
            ≡ written_in field name.now (view self.entry.fields.now) }
    {
        match self.member(field.name(), name) {
            Some(text) => text.as_str(),
            None => None,
        }
    }

    /// The value of this name in this field.
    pub fn member(self, field: &str, name: &str) -> Option<&'a Value>
        ensures { option_map (λ v. view v.now) result
            ≡ member_of field.now name.now (view self.entry.fields.now) }
    {
        self.fields.get(field)?.get(name)
    }
}

impl<'a> Wanted<'a> {
    /// Whether an override changes what was wanted before.
    pub fn is_other_than(self, before: Wanted<'_>) -> bool
        ensures { IsTrue result ↔ IsOtherThan self.entry before.entry }
    {
        match (self, before) {
            (Wanted::Override(text), Wanted::Text(before)) => text != before,
            (Wanted::Override(_), _) => true,
            _ => false,
        }
    }

    /// Its text, or the folder of the workspace.
    pub fn text(self) -> &'a str
        ensures { result.now ≡ wanted_text self.entry }
    {
        match self {
            Wanted::Text(text) | Wanted::Override(text) | Wanted::Workspace(text) => text,
        }
    }

    /// What it is to npm.
    pub fn specifier(self) -> Specifier<'a>
        ensures { IsWantedAs self.entry result }
    {
        match self {
            Wanted::Text(text) | Wanted::Override(text) => Specifier::of(text),
            Wanted::Workspace(folder) => Specifier::Folder(folder),
        }
    }
}

impl<'a> Dependency<'a> {
    /// The text that its package accepts in place of what it wants.
    pub fn accepted(self) -> Option<&'a str>
        ensures { option_map (λ t. t.now) result ≡ accepted_by self.entry }
    {
        match self.package.member("acceptDependencies", self.name) {
            Some(accepted) => accepted.as_str(),
            None => None,
        }
    }

    /// Whether it may be absent.
    pub fn is_optional(self) -> bool
        ensures { MayBeAbsent (view self.entry.package.fields.now) self.entry.name.now
            self.entry.field result }
    {
        match self.field {
            Field::Development | Field::Production | Field::Requires | Field::Workspaces => false,
            Field::Optional => true,
            Field::Peer => match self.package.member("peerDependenciesMeta", self.name) {
                Some(meta) => is_set(meta, "optional"),
                None => false,
            },
        }
    }
}

impl fmt::Display for Wanted<'_> {
    fn fmt<W: fmt::Write>(&self, f: &mut fmt::Formatter<W>) -> fmt::Result {
        let (before, text, behind) = match *self {
            Wanted::Text(text) => ("", text, ""),
            Wanted::Override(text) => ("", text, " by overrides"),
            Wanted::Workspace(folder) => ("file:", folder, ""),
        };
        write!(f, "{before}{}{behind}", Shown(text))
    }
}

impl fmt::Display for Dependency<'_> {
    fn fmt<W: fmt::Write>(&self, f: &mut fmt::Formatter<W>) -> fmt::Result {
        let (folder, name) = (Shown::folder(self.package.folder), Shown(self.name));
        write!(f, "{folder} needs {name} {}", self.wanted)
    }
}

impl<'a> Dependencies<'a> {
    pub(crate) fn new(alloc: Global) -> Dependencies<'a>
        ensures empty { result.first.items ≡ [] }
        ensures named { AreNamed result }
    {
        Dependencies {
            names: BTreeSet::new(alloc),
            first: Vec::new(alloc),
        }
    }

    /// Adds a dependency, unless there is one with its name.
    pub(crate) fn add(&mut self, dependency: Dependency<'a>) -> Result<(), AllocError>
        ensures named { OnOk result (AreNamed self.old → AreNamed self.new) }
        ensures added { OnOk result (AreNamed self.old → self.new.first.items
            ≡ with_first self.old.first.items dependency.entry) }
        ensures each { OnOk result ((lock : Lock) → IsDeclared lock dependency.entry
            → All (IsDeclared lock) self.old.first.items
            → All (IsDeclared lock) self.new.first.items) }
    {
        if self.names.insert(dependency.name)? {
            self.first.push(dependency)?;
        }
        Ok(())
    }

    /// Those that count, in the order in which they were added.
    pub(crate) fn as_slice(&self) -> &[Dependency<'a>]
        ensures { result.now ≡ self.now.first.items }
    {
        self.first.as_slice()
    }
}

impl<'a> Lock<'a> {
    /// The package in this folder.
    pub fn package(self, folder: &str) -> Option<Package<'a>>
        ensures { IsAt self.entry folder.now result }
    {
        match self.packages.get_key_value(folder) {
            Some((folder, fields)) => Some(Package { folder, fields }),
            None => None,
        }
    }

    /// The package that a dependency of this name means in this folder: that of the nearest
    /// `node_modules`, here or above.
    pub fn nearest(
        self,
        alloc: Global,
        folder: &str,
        name: &str,
    ) -> Result<Option<Package<'a>>, AllocError>
        ensures { IfOk result (IsNearest self.entry folder.now name.now) }
    {
        if folder.is_empty() {
            return self.outermost(alloc, name);
        }
        match self.closest(alloc, folder, name)? {
            Some(found) => Ok(Some(found)),
            None => self.outermost(alloc, name),
        }
    }

    // The package of this name in the closest place around a folder that has one.
    fn closest(
        self,
        alloc: Global,
        folder: &str,
        name: &str,
    ) -> Result<Option<Package<'a>>, AllocError>
        ensures { IfOk result (IsClosest self.entry folder.now name.now) }
    {
        let mut place = folder;
        loop {
            if let Some(found) = self.installed(alloc, place, name)? {
                return Ok(Some(found));
            }
            match place.rsplit_once('/') {
                Some((above, _)) => place = above,
                None => return Ok(None),
            }
        }
    }

    // The package of this name that is installed in a place.
    fn installed(
        self,
        alloc: Global,
        place: &str,
        name: &str,
    ) -> Result<Option<Package<'a>>, AllocError>
        ensures { IfOk result (IsAt self.entry (installed place.now name.now)) }
    {
        let key = format!(in alloc; "{place}/node_modules/{name}")?;
        Ok(self.package(&key))
    }

    // The package of this name that is installed beside the root project.
    fn outermost(self, alloc: Global, name: &str) -> Result<Option<Package<'a>>, AllocError>
        ensures { IfOk result (IsAt self.entry (codes "node_modules/" ++ name.now)) }
    {
        let key = format!(in alloc; "node_modules/{name}")?;
        Ok(self.package(&key))
    }

    /// Whether a package comes packed in another one, or it or one around it has a lock file of its
    /// own.
    pub fn is_packed(self, package: Package<'_>) -> bool
        ensures { IsTrue result ↔ IsPacked self.entry «package».entry }
    {
        package.is("inBundle") || package.is("hasShrinkwrap") || self.is_inside(package.folder)
    }

    // Whether a package around this folder has a lock file of its own.
    fn is_inside(self, folder: &str) -> bool
        ensures { IsTrue result ↔ IsInside self.entry folder.now }
    {
        let mut place = folder;
        loop {
            if self.locks_in(place, folder) {
                return true;
            }
            match place.rsplit_once('/') {
                Some((above, _)) => place = above,
                None => return false,
            }
        }
    }

    // Whether the package in a place has a lock file of its own, and the folder is installed in it.
    fn locks_in(self, place: &str, folder: &str) -> bool
        ensures { IsTrue result ↔ LocksIn self.entry place.now folder.now }
    {
        match behind_modules(place, folder) {
            Some(_) => self.has_own_file(place),
            None => false,
        }
    }

    // Whether the package in this folder has a lock file of its own.
    fn has_own_file(self, folder: &str) -> bool
        ensures { IsTrue result ↔ ((p : Package) × IsAt self.entry folder.now (Some p)
            × (is_set (codes "hasShrinkwrap") (view p.fields.now) ≡ true)) }
    {
        match self.package(folder) {
            Some(package) => package.is("hasShrinkwrap"),
            None => false,
        }
    }

    /// The package itself, or that to whose folder it is a link, if the lock file has it.
    pub fn behind(
        self,
        alloc: Global,
        package: Package<'a>,
    ) -> Result<Option<Package<'a>>, AllocError>
        ensures { IfOk result (IsBehind self.entry «package».entry) }
    {
        if !package.is("link") {
            return Ok(Some(package));
        }
        let folder = joined(alloc, "", package.text("resolved").unwrap_or(""))?;
        Ok(self.package(&folder))
    }
}

// What stands behind a place and its `node_modules`, if the folder is of what is installed there.
fn behind_modules<'a>(place: &str, folder: &'a str) -> Option<&'a str>
    ensures some { IfSome result (λ behind.
        folder.now ≡ place.now ++ (codes "/node_modules/" ++ behind.now)) }
    ensures none { IfNone result ((behind : List ℕ)
        → folder.now ≢ place.now ++ (codes "/node_modules/" ++ behind)) }
{
    folder.strip_prefix(place)?.strip_prefix("/node_modules/")
}

// Whether this field of a value is `true`.
fn is_set(value: &Value, field: &str) -> bool
    ensures { result ≡ is_set field.now (view value.now) }
{
    value.get(field).and_then(Value::as_bool).unwrap_or(false)
}

/// Adds the dependencies of a package to those found before, which come first. What is malformed
/// is added to `faults`.
pub(crate) fn add_dependencies<'a>(
    package: Package<'a>,
    found: &mut Dependencies<'a>,
    faults: &mut Vec<Fault<'a>>,
) -> Result<(), AllocError>
    ensures each { OnOk result ((lock : Lock) → IsPackage lock «package».entry
        → All (IsDeclared lock) found.old.first.items
        → All (IsDeclared lock) found.new.first.items) }
    ensures all { OnOk result (AreWorkspaces «package».entry found.old
        → AreAllFound «package».entry found.new.first.items) }
    ensures own { OnOk result (AreWorkspaces «package».entry found.old
        → AreOwn «package».entry.folder.now found.new.first.items) }
    ensures more { OnOk result (AreWorkspaces «package».entry found.old
        → Keeps found.old.first.items found.new.first.items) }
    ensures kept { OnOk result (Extends faults.old.items faults.new.items) }
    ensures told { OnOk result (HasAllFaults faults.new.items «package».entry.folder.now
        (view «package».entry.fields.now)) }
    ensures wrong { OnOk result ((lock : Lock) → IsPackage lock «package».entry
        → All (IsPackageFault lock) faults.old.items → All (IsPackageFault lock) faults.new.items) }
{
    for &field in FIELDS {
        add_field(package, field, found, faults)?;
    }
    Ok(())
}

// Adds the dependencies of one field.
fn add_field<'a>(
    package: Package<'a>,
    field: Field,
    found: &mut Dependencies<'a>,
    faults: &mut Vec<Fault<'a>>,
) -> Result<(), AllocError>
    ensures each { OnOk result ((lock : Lock) → IsPackage lock «package».entry
        → All (IsDeclared lock) found.old.first.items
        → All (IsDeclared lock) found.new.first.items) }
    ensures all { OnOk result ((most : ℕ) → rank field ≡ most + 1
        → AreUpto «package».entry most found.old → AreUpto «package».entry (most + 1) found.new) }
    ensures more { OnOk result (AreNamed found.old
        → Keeps found.old.first.items found.new.first.items) }
    ensures kept { OnOk result (Extends faults.old.items faults.new.items) }
    ensures told { OnOk result (IsRead field «package».entry.folder.now
        → HasFaults «package».entry.folder.now (view «package».entry.fields.now) field
        faults.new.items) }
    ensures wrong { OnOk result ((lock : Lock) → IsPackage lock «package».entry
        → All (IsPackageFault lock) faults.old.items → All (IsPackageFault lock) faults.new.items) }
{
    let ranges = match field.of(package) {
        Ok(Some(ranges)) => ranges,
        Ok(None) => return Ok(()),
        Err(fault) => {
            faults.push(fault)?;
            return Ok(());
        }
    };
    for name in ranges.keys() {
        let name = name.as_str();
        let Some(range) = package.written(field, name) else {
            let folder = package.folder;
            faults.push(Fault::Range { folder, name })?;
            continue;
        };
        let wanted = Wanted::Text(range);
        found.add(Dependency {
            package,
            field,
            name,
            wanted,
        })?;
    }
    Ok(())
}
