// The workspaces of the root project.

ghost use Rattle.lock_files.specs.Internal.Collected.{AreWorkspaces, AreTextsTold};
ghost use Rattle.lock_files.specs.Faults.{Extends, IsPackageFault};
ghost use Rattle.lock_files.specs.Internal.Patterns.{AreMeantFound, AreTextsOf, Fits, HasWorkspace};
ghost use Rattle.lock_files.specs.Internal.Patterns.{IsMeantFound, IsPattern, IsRoot, Keeps, Takes};
ghost use Rattle.lock_files.specs.Lookups.{IsPackage};
ghost use Rattle.lock_files.specs.Dependencies.{IsDeclared};
ghost use Rattle.lock_files.specs.Workspaces.{AreFitting, AreRead, HasText, IsFitting, IsNoList};
ghost use Rattle.lock_files.specs.Workspaces.{IsReadItem, IsWorkspace, IsWorkspaceName, is_unread};
ghost use Rattle.lock_files.specs.Workspaces.{is_wildcard, parts, pattern_of, texts_in};
ghost use Rattle.serde_json.specs.Data.{array};
ghost use Rattle.serde_json.specs.View.{items_view, view};
ghost use Rattle.std.specs.List.{list_any};
ghost use Rattle.std.specs.Prelude.{◌≡◌, ◌↔◌, [], All, IfErr, IfNone, IfOk, IfSome, IsTrue, OnOk};
ghost use Rattle.std.specs.Prelude.{Some};

use crate::fault::Fault;
use crate::folder::{is_installed, name_of};
use crate::lock::{Dependencies, Dependency, Field, Lock, Package, Wanted};
use serde_json::Value;
use std::alloc::AllocError;

/// A text in `workspaces`.
#[derive(Clone, Copy)]
enum Pattern<'a> {
    /// One folder.
    Folder(&'a str),
    /// Folders by their parts; a part that is a star stands for any one part.
    Stars(&'a str),
    /// A pattern with other wildcards, which are not read.
    Unread,
}

impl<'a> Pattern<'a> {
    fn of(text: &'a str) -> Pattern<'a>
        ensures { IsPattern text.now result }
    {
        let text = pattern_of(text);
        if is_unread(text.as_bytes()) {
            Pattern::Unread
        } else if text.contains('*') {
            Pattern::Stars(text)
        } else {
            Pattern::Folder(text)
        }
    }

    // Whether a folder of the lock file is that of a project, but not the root project, and fits.
    fn takes(self, folder: &str) -> bool
        ensures { IsTrue result ↔ Takes self.entry folder.now }
    {
        !folder.is_empty() && !is_installed(folder) && self.fits(folder)
    }

    // Whether the folder has its parts.
    fn fits(self, folder: &str) -> bool
        ensures { IsTrue result ↔ Fits self.entry folder.now }
    {
        match self {
            Pattern::Folder(text) => text == folder,
            Pattern::Stars(text) => are_fitting(text, folder),
            Pattern::Unread => false,
        }
    }
}

// A text of `workspaces` without a dot in front and slashes around it.
fn pattern_of(text: &str) -> &str
    ensures { result.now ≡ pattern_of text.now }
{
    let text = text.strip_prefix('.').unwrap_or(text);
    text.trim_start_matches('/').trim_end_matches('/')
}

// Whether one of the parts has a wildcard and is no star alone.
fn is_unread(pattern: &[u8]) -> bool
    ensures { result ≡ is_unread pattern.now }
{
    pattern
        .split(|byte| *byte == b'/')
        .any(|part| part != b"*".as_slice() && has_wildcard(part))
}

fn has_wildcard(part: &[u8]) -> bool
    ensures { result ≡ list_any is_wildcard part.now }
{
    part.iter().any(|byte| is_wildcard(*byte))
}

fn is_wildcard(byte: u8) -> bool
    ensures { result ≡ is_wildcard byte }
{
    matches!(byte, b'*' | b'?' | b'[' | b'{' | b'(' | b'!' | b'|' | b'\\')
}

// Whether the folder has as many parts as the pattern, each of which fits.
fn are_fitting(pattern: &str, folder: &str) -> bool
    ensures { IsTrue result ↔ AreFitting (parts pattern.now) (parts folder.now) }
{
    let (mut pattern, mut folder) = (pattern, folder);
    while let Some((part, more)) = pattern.split_once('/') {
        let Some((own, below)) = folder.split_once('/') else {
            return false;
        };
        if !is_fitting(part, own) {
            return false;
        }
        pattern = more;
        folder = below;
    }
    !folder.contains('/') && is_fitting(pattern, folder)
}

fn is_fitting(part: &str, own: &str) -> bool
    ensures { IsTrue result ↔ IsFitting part.now own.now }
{
    part == "*" || part == own
}

// The patterns of the root project, if it has any.
fn patterns<'a>(root: Package<'a>) -> Result<Option<&'a Vec<Value>>, Fault<'a>>
    ensures none { IfOk result (λ list. IfNone list
        (texts_in (view root.entry.fields.now) ≡ None)) }
    ensures some { IfOk result (λ list. IfSome list (λ v. texts_in (view root.entry.fields.now)
        ≡ Some (array (items_view v.now.items)))) }
    ensures fault { IfErr result (λ fault. fault ≡ Fault.Workspaces) }
    ensures wrong { IfErr result (λ fault. IsNoList (view root.entry.fields.now)) }
{
    let Some(workspaces) = root.fields.get("workspaces") else {
        return Ok(None);
    };
    let list = match workspaces.get("packages") {
        Some(list) => list,
        None => workspaces,
    };
    match list.as_array() {
        Some(list) => Ok(Some(list)),
        None => Err(Fault::Workspaces),
    }
}

/// Whether each pattern in `workspaces` is one that is read here.
pub fn are_read(root: Package<'_>) -> bool
    ensures { IsTrue result ↔ AreRead (view root.entry.fields.now) }
{
    match patterns(root) {
        Ok(Some(list)) => list.iter().all(is_read),
        Ok(None) => true,
        Err(_) => false,
    }
}

// Whether an item is a text whose pattern is read.
fn is_read(item: &Value) -> bool
    ensures { IsTrue result ↔ IsReadItem (view item.now) }
{
    let Some(text) = item.as_str() else {
        return false;
    };
    match Pattern::of(text) {
        Pattern::Folder(_) | Pattern::Stars(_) => true,
        Pattern::Unread => false,
    }
}

/// Adds the workspaces to the dependencies of a package, if it is the root project. npm finds them
/// on the disk; here a folder that `workspaces` names counts as one that is there.
pub(crate) fn add_workspaces<'a>(
    lock: Lock<'a>,
    root: Package<'a>,
    found: &mut Dependencies<'a>,
    faults: &mut Vec<Fault<'a>>,
) -> Result<(), AllocError>
    ensures each { OnOk result (IsPackage lock.entry root.entry
        → All (IsDeclared lock.entry) found.old.first.items
        → All (IsDeclared lock.entry) found.new.first.items) }
    ensures alone { OnOk result (AreWorkspaces root.entry found.old
        → AreWorkspaces root.entry found.new) }
    ensures all { OnOk result (AreWorkspaces root.entry found.old
        → AreMeantFound lock.entry root.entry found.new.first.items) }
    ensures kept { OnOk result (Extends faults.old.items faults.new.items) }
    ensures told { OnOk result (AreTextsTold faults.new.items root.entry.folder.now
        (view root.entry.fields.now)) }
    ensures wrong { OnOk result (IsPackage lock.entry root.entry
        → All (IsPackageFault lock.entry) faults.old.items
        → All (IsPackageFault lock.entry) faults.new.items) }
{
    if !root.folder.is_empty() {
        return Ok(());
    }
    match patterns(root) {
        Ok(Some(list)) => add_items(lock, root, list, found, faults)?,
        Ok(None) => {}
        Err(fault) => faults.push(fault)?,
    }
    Ok(())
}

// Adds the workspaces that the items of this list mean.
fn add_items<'a>(
    lock: Lock<'a>,
    root: Package<'a>,
    list: &'a Vec<Value>,
    found: &mut Dependencies<'a>,
    faults: &mut Vec<Fault<'a>>,
) -> Result<(), AllocError>
    ensures each { OnOk result (AreTextsOf root.entry list.now.items → IsRoot lock.entry root.entry
        → All (IsDeclared lock.entry) found.old.first.items
        → All (IsDeclared lock.entry) found.new.first.items) }
    ensures alone { OnOk result (AreWorkspaces root.entry found.old
        → AreWorkspaces root.entry found.new) }
    ensures all { OnOk result (AreTextsOf root.entry list.now.items
        → AreWorkspaces root.entry found.old
        → AreMeantFound lock.entry root.entry found.new.first.items) }
    ensures kept { OnOk result (Extends faults.old.items faults.new.items) }
    ensures told { OnOk result (AreTextsOf root.entry list.now.items
        → AreTextsTold faults.new.items root.entry.folder.now (view root.entry.fields.now)) }
    ensures wrong { OnOk result (AreTextsOf root.entry list.now.items
        → IsRoot lock.entry root.entry
        → All (IsPackageFault lock.entry) faults.old.items
        → All (IsPackageFault lock.entry) faults.new.items) }
{
    for item in list.iter() {
        let Some(text) = item.as_str() else {
            faults.push(Fault::Workspaces)?;
            continue;
        };
        add_meant(lock, root, text, found)?;
    }
    Ok(())
}

// Adds the workspaces that a text means.
fn add_meant<'a>(
    lock: Lock<'a>,
    root: Package<'a>,
    text: &'a str,
    found: &mut Dependencies<'a>,
) -> Result<(), AllocError>
    ensures each { OnOk result (IsRoot lock.entry root.entry
        → HasText (view root.entry.fields.now) text.now
        → All (IsDeclared lock.entry) found.old.first.items
        → All (IsDeclared lock.entry) found.new.first.items) }
    ensures alone { OnOk result (AreWorkspaces root.entry found.old
        → AreWorkspaces root.entry found.new) }
    ensures more { OnOk result (AreWorkspaces root.entry found.old
        → Keeps found.old.first.items found.new.first.items) }
    ensures all { OnOk result (AreWorkspaces root.entry found.old
        → IsMeantFound lock.entry found.new.first.items root.entry.folder.now text.now) }
{
    let pattern = Pattern::of(text);
    if let Pattern::Folder(folder) = pattern {
        return add_workspace(lock, root, folder, found);
    }
    for folder in lock.packages.keys() {
        let folder = folder.as_str();
        if pattern.takes(folder) {
            add_workspace(lock, root, folder, found)?;
        }
    }
    Ok(())
}

fn add_workspace<'a>(
    lock: Lock<'a>,
    root: Package<'a>,
    folder: &'a str,
    found: &mut Dependencies<'a>,
) -> Result<(), AllocError>
    ensures each { OnOk result (IsPackage lock.entry root.entry
        → root.entry.folder.now ≡ []
        → IsWorkspace (view root.entry.fields.now) lock.entry folder.now
        → All (IsDeclared lock.entry) found.old.first.items
        → All (IsDeclared lock.entry) found.new.first.items) }
    ensures alone { OnOk result (AreWorkspaces root.entry found.old
        → AreWorkspaces root.entry found.new) }
    ensures more { OnOk result (AreWorkspaces root.entry found.old
        → Keeps found.old.first.items found.new.first.items) }
    ensures has { OnOk result (AreWorkspaces root.entry found.old
        → HasWorkspace lock.entry found.new.first.items root.entry.folder.now folder.now) }
{
    found.add(Dependency {
        package: root,
        field: Field::Workspaces,
        name: workspace_name(lock, folder),
        wanted: Wanted::Workspace(folder),
    })?;
    Ok(())
}

// The name of the workspace in a folder.
fn workspace_name<'a>(lock: Lock<'a>, folder: &'a str) -> &'a str
    ensures { IsWorkspaceName lock.entry folder.now result.now }
{
    match lock.package(folder).and_then(|it| it.text("name")) {
        Some(own) => own,
        None => name_of(folder),
    }
}
