// The dependencies of all packages of a lock file, with what is locked for them.

ghost use Rattle.lock_files.specs.Dependencies.{IsDeclared};
ghost use Rattle.lock_files.specs.Edges.{AreAllCollected, AreApartEdges, AreWorkspacesCollected};
ghost use Rattle.lock_files.specs.Edges.{AreInOrder, IsEdge, IsUpTo, is_locked_for_development};
ghost use Rattle.lock_files.specs.Faults.{ArePackagesTold, Extends, HasAllFaults, IsPackageFault};
ghost use Rattle.lock_files.specs.Internal.Collected.{AreAllFound, AreOwn, AreTextsTold};
ghost use Rattle.lock_files.specs.Internal.Collected.{IsForDevelopment, IsOneOf, IsTaken};
ghost use Rattle.lock_files.specs.Internal.Patterns.{AreMeantFound};
ghost use Rattle.lock_files.specs.Lookups.{IsPackage};
ghost use Rattle.serde_json.specs.View.{view};
ghost use Rattle.std.specs.Prelude.{◌↔◌, ◌≡◌, ◌≢◌, All, IfOk, IsTrue, List, OnOk, ℕ};

use crate::fault::Fault;
use crate::folder::is_installed;
use crate::lock::{Dependencies, Dependency, Field, Lock, Package, add_dependencies};
use crate::workspaces::add_workspaces;
use std::alloc::{AllocError, Global};

/// A dependency, and the package that is locked for it.
#[derive(Clone, Copy)]
pub struct Edge<'a> {
    pub dependency: Dependency<'a>,
    pub locked: Option<Package<'a>>,
}

/// All dependencies, in the order of the packages' folders. What is malformed in a package is added
/// to `faults`. Fails only if allocation fails.
pub fn edges<'a>(
    alloc: Global,
    lock: Lock<'a>,
    faults: &mut Vec<Fault<'a>>,
) -> Result<Vec<Edge<'a>>, AllocError>
    ensures each { IfOk result (λ edges. All (IsEdge lock.entry) edges.items) }
    ensures all { IfOk result (λ edges. AreAllCollected lock.entry edges.items) }
    ensures apart { IfOk result (λ edges. AreApartEdges edges.items) }
    ensures ordered { IfOk result (λ edges. AreInOrder edges.items) }
    ensures workspaces { IfOk result (λ edges. AreWorkspacesCollected lock.entry edges.items) }
    ensures kept { OnOk result (Extends faults.old.items faults.new.items) }
    ensures told { OnOk result (ArePackagesTold lock.entry faults.new.items) }
    ensures real { OnOk result (All (IsPackageFault lock.entry) faults.old.items
        → All (IsPackageFault lock.entry) faults.new.items) }
{
    let mut edges = Vec::new(alloc);
    for folder in lock.packages.keys() {
        if let Some(package) = lock.package(folder) {
            let found = dependencies(alloc, lock, package, faults)?;
            add_edges(alloc, lock, found.as_slice(), &mut edges)?;
        }
    }
    Ok(edges)
}

// The dependencies of a package of the lock file.
fn dependencies<'a>(
    alloc: Global,
    lock: Lock<'a>,
    package: Package<'a>,
    faults: &mut Vec<Fault<'a>>,
) -> Result<Dependencies<'a>, AllocError>
    ensures each { IsPackage lock.entry «package».entry
        → IfOk result (λ found. All (IsDeclared lock.entry) found.first.items) }
    ensures all { IfOk result (λ found. AreAllFound «package».entry found.first.items) }
    ensures own { IfOk result (λ found. AreOwn «package».entry.folder.now found.first.items) }
    ensures workspaces { IfOk result (λ found. AreMeantFound lock.entry «package».entry
        found.first.items) }
    ensures kept { OnOk result (Extends faults.old.items faults.new.items) }
    ensures told { OnOk result (HasAllFaults faults.new.items «package».entry.folder.now
        (view «package».entry.fields.now)) }
    ensures texts { OnOk result (AreTextsTold faults.new.items «package».entry.folder.now
        (view «package».entry.fields.now)) }
    ensures wrong { OnOk result (IsPackage lock.entry «package».entry
        → All (IsPackageFault lock.entry) faults.old.items
        → All (IsPackageFault lock.entry) faults.new.items) }
{
    let mut found = Dependencies::new(alloc);
    add_workspaces(lock, package, &mut found, faults)?;
    add_dependencies(package, &mut found, faults)?;
    Ok(found)
}

fn add_edges<'a>(
    alloc: Global,
    lock: Lock<'a>,
    dependencies: &[Dependency<'a>],
    edges: &mut Vec<Edge<'a>>,
) -> Result<(), AllocError>
    ensures each { OnOk result (All (IsDeclared lock.entry) dependencies.now
        → All (IsEdge lock.entry) edges.old.items → All (IsEdge lock.entry) edges.new.items) }
    ensures kept { OnOk result (Extends edges.old.items edges.new.items) }
    ensures all { OnOk result (All (IsTaken lock.entry edges.new.items) dependencies.now) }
    ensures from { OnOk result (All (IsOneOf edges.old.items dependencies.now) edges.new.items) }
    ensures apart { OnOk result ((folder : List ℕ) → AreOwn folder dependencies.now
        → All (λ e. e.dependency.package.folder.now ≢ folder) edges.old.items
        → AreApartEdges edges.old.items → AreApartEdges edges.new.items) }
    ensures ordered { OnOk result ((folder : List ℕ) → AreOwn folder dependencies.now
        → All (λ e. IsUpTo e.dependency.package.folder.now folder) edges.old.items
        → AreInOrder edges.old.items → AreInOrder edges.new.items) }
{
    for &dependency in dependencies {
        let locked = lock.nearest(alloc, dependency.package.folder, dependency.name)?;
        let edge = Edge { dependency, locked };
        if !is_of_development(edge) {
            edges.push(edge)?;
        }
    }
    Ok(())
}

// Whether npm takes a dependency in `requires` for one of development: it is locked as such, and
// the package is not. npm reads no such dependencies of what is installed.
fn is_of_development(edge: Edge<'_>) -> bool
    ensures { IsTrue result ↔ IsForDevelopment edge.entry }
{
    let Dependency { package, field, .. } = edge.dependency;
    match edge.locked {
        Some(locked) if field == Field::Requires && is_installed(package.folder) => {
            is_locked_for_development(package, locked)
        }
        _ => false,
    }
}

// Whether a package is locked for development where the one that wants it is not.
fn is_locked_for_development(package: Package<'_>, locked: Package<'_>) -> bool
    ensures { result ≡ is_locked_for_development (view «package».entry.fields.now)
        (view locked.entry.fields.now) }
{
    locked.is("dev") && !package.is("dev") && (!locked.is("optional") || package.is("optional"))
}
