// Which rules of `overrides` hold for each dependency.

ghost use Rattle.lock_check.specs.Internal.Overriding.{AreAllLaid, AreChosen, AreInTurn};
ghost use Rattle.lock_check.specs.Overrides.{IsOverridden};
ghost use Rattle.lock_check.specs.Standing.{IsAfter, IsLockedPacked, read_with};
ghost use Rattle.lock_files.specs.Lookups.{IsAt};
ghost use Rattle.lock_files.specs.declared.edge.Edge.{Edge};
ghost use Rattle.lock_files.specs.declared.lock.Package.{Package};
ghost use Rattle.std.specs.Prelude.{◌≡◌, ◌↔◌, [], IfOk, IsTrue, List, Option, slice_get};

use crate::overrides::{Overrides, Scope};
use lock_files::{Edge, Lock, Wanted};
use std::alloc::{AllocError, Global};
use std::collections::BTreeMap;

/// Where packages stand in `overrides`. Of several dependencies on one package the last that npm
/// read before decides: it reads the packages by their folders, and a dependency once both its
/// packages are read.
#[derive(Drop)]
pub struct Scopes<'a> {
    overrides: Overrides<'a>,
    // Where the package stands that is meant by the dependency of each number; none if no rule
    // holds for what depends on it.
    of_edges: BTreeMap<usize, Scope>,
}

impl<'a> Scopes<'a> {
    /// The scopes of these dependencies.
    pub(crate) fn of(
        alloc: Global,
        overrides: Overrides<'a>,
        edges: &[Edge<'a>],
    ) -> Result<Scopes<'a>, AllocError>
        ensures same { IfOk result (λ scopes. scopes.overrides ≡ overrides.entry) }
        ensures chosen { IfOk result (λ scopes. (root : Option Package)
            → AreAllLaid root overrides.entry.rules.items
            → AreChosen root overrides.entry.rules.items edges.now scopes.of_edges) }
    {
        let of_edges = scopes_of(alloc, &overrides, edges)?;
        Ok(Scopes {
            overrides,
            of_edges,
        })
    }

    /// What the dependency of this number wants, or `None` if that is a reference to no dependency
    /// of the root project. What is packed into another package is not overridden.
    pub(crate) fn wanted(&self, lock: Lock<'a>, number: usize, edge: Edge<'a>) -> Option<Wanted<'a>>
        ensures { (edges : List Edge) → IsAt lock.entry [] self.now.overrides.root
            → AreAllLaid self.now.overrides.root self.now.overrides.rules.items
            → AreChosen self.now.overrides.root self.now.overrides.rules.items edges
            self.now.of_edges
            → slice_get edges number ≡ Some edge.entry
            → IsAfter lock.entry edges number edge.entry result }
    {
        match self.of_edges.get(&number) {
            Some(inner) if !is_locked_packed(lock, edge) => {
                self.overrides.wanted(*inner, edge.dependency)
            }
            _ => Some(edge.dependency.wanted),
        }
    }
}

// Where the package stands that each dependency means, by its number.
fn scopes_of<'a>(
    alloc: Global,
    overrides: &Overrides<'a>,
    edges: &[Edge<'a>],
) -> Result<BTreeMap<usize, Scope>, AllocError>
    ensures { IfOk result (λ found. (root : Option Package)
        → AreAllLaid root overrides.now.rules.items
        → AreChosen root overrides.now.rules.items edges.now found) }
{
    let mut of_edges = BTreeMap::new(alloc);
    if overrides.is_empty() {
        return Ok(of_edges);
    }
    let mut of_packages: BTreeMap<&'a str, Scope> = BTreeMap::new(alloc);
    let order = reading_order(alloc, edges)?;
    for &(_, _, number) in &order {
        let Some(&edge) = edges.get(number) else {
            continue;
        };
        if !is_overridden(edge) {
            continue;
        }
        let around = match of_packages.get(&edge.dependency.package.folder) {
            Some(around) => *around,
            None => Scope::Top,
        };
        let inner = overrides.inner(alloc, around, edge.dependency)?;
        of_edges.insert(number, inner)?;
        if let Some(locked) = edge.locked {
            of_packages.insert(locked.folder, inner)?;
        }
    }
    Ok(of_edges)
}

// The dependencies in the order in which npm reads them, each by its turn and its number.
fn reading_order<'a>(
    alloc: Global,
    edges: &[Edge<'a>],
) -> Result<Vec<(&'a str, bool, usize)>, AllocError>
    ensures { IfOk result (λ order. AreInTurn edges.now order.items) }
{
    let mut order = Vec::new(alloc);
    for (number, edge) in edges.iter().enumerate() {
        let (folder, is_own) = turn(*edge);
        order.push((folder, is_own, number))?;
    }
    order.sort()?;
    Ok(order)
}

// The folder of the package with which a dependency is read, the later one of its two, and whether
// that is the one that wants it.
fn turn<'a>(edge: Edge<'a>) -> (&'a str, bool)
    ensures { (result.0.now, result.1) ≡ read_with edge.entry }
{
    let from = edge.dependency.package.folder;
    match edge.locked {
        Some(locked) if from < locked.folder => (locked.folder, false),
        _ => (from, true),
    }
}

// Whether rules hold for a dependency: to npm, not for one of a workspace or another folder outside
// `node_modules`, or of what is installed there.
fn is_overridden(edge: Edge<'_>) -> bool
    ensures { IsTrue result ↔ IsOverridden edge.entry.dependency }
{
    let folder = edge.dependency.package.folder;
    folder.is_empty() || folder.starts_with("node_modules/")
}

// Whether what is locked for a dependency comes packed in another package.
fn is_locked_packed(lock: Lock<'_>, edge: Edge<'_>) -> bool
    ensures { IsTrue result ↔ IsLockedPacked lock.entry edge.entry }
{
    match edge.locked {
        Some(locked) => lock.is_packed(locked),
        None => false,
    }
}
