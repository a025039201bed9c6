// Which packages ask for a package.

use crate::edge::Edge;
use crate::lock::Lock;
use std::alloc::{AllocError, Global};
use std::collections::{BTreeMap, VecDeque};

// How many names of a path are told at most, from its end.
const MOST: usize = 16;

// The dependency by which a package is reached first.
#[derive(Clone, Copy)]
struct Step<'a> {
    // The folder of the package that has it.
    above: &'a str,
    name: &'a str,
}

/// The shortest path of dependencies from the root project to each package. Of several the first
/// counts, in the order of the dependencies.
#[derive(Drop)]
pub struct Requirers<'a> {
    steps: BTreeMap<&'a str, Step<'a>>,
}

impl<'a> Requirers<'a> {
    /// No paths.
    pub fn none(alloc: Global) -> Requirers<'a> {
        Requirers {
            steps: BTreeMap::new(alloc),
        }
    }

    /// The paths along these dependencies, which stand by the folders of the packages that have
    /// them.
    pub fn of(
        alloc: Global,
        lock: Lock<'a>,
        edges: &[Edge<'a>],
    ) -> Result<Requirers<'a>, AllocError> {
        let first = first_edges(alloc, edges)?;
        let mut steps: BTreeMap<&'a str, Step<'a>> = BTreeMap::new(alloc);
        let mut unread: VecDeque<&'a str> = VecDeque::new(alloc);
        unread.push_back("")?;
        for _ in 0..u64::MAX {
            let Some(above) = unread.pop_front() else {
                break;
            };
            let start = first.get(&above).copied().unwrap_or(edges.len());
            for edge in edges.get(start..).unwrap_or(&[]) {
                if edge.dependency.package.folder != above {
                    break;
                }
                let Some(folder) = target(alloc, lock, edge)? else {
                    continue;
                };
                if !folder.is_empty() && !steps.contains_key(&folder) {
                    let name = edge.dependency.name;
                    steps.insert(folder, Step { above, name })?;
                    unread.push_back(folder)?;
                }
            }
        }
        Ok(Requirers { steps })
    }

    /// The names on the path to the package in a folder, from `root`, with ` > ` between them. Of a
    /// long path the end. `None` if no path leads there.
    pub fn path(&self, alloc: Global, folder: &'a str) -> Result<Option<String>, AllocError> {
        let mut names: Vec<&'a str> = Vec::new(alloc);
        let reached = self.add_names(folder, &mut names)?;
        let front = match reached {
            Some("") => "root",
            Some(_) => "root > ..",
            None => return Ok(None),
        };
        names.push(front)?;
        names.reverse();
        Ok(Some(names.as_slice().join(alloc, " > ")?))
    }

    // Adds the names on the path to the package in a folder, the last one first, and returns the
    // folder in which the first of them is wanted. `None` if no path leads there.
    fn add_names(
        &self,
        folder: &'a str,
        names: &mut Vec<&'a str>,
    ) -> Result<Option<&'a str>, AllocError> {
        let mut reached = folder;
        for _ in 0..MOST {
            if reached.is_empty() {
                break;
            }
            let Some(step) = self.steps.get(&reached).copied() else {
                return Ok(None);
            };
            names.push(step.name)?;
            reached = step.above;
        }
        Ok(Some(reached))
    }
}

// The number of the first dependency of each package.
fn first_edges<'a>(
    alloc: Global,
    edges: &[Edge<'a>],
) -> Result<BTreeMap<&'a str, usize>, AllocError> {
    let mut first: BTreeMap<&'a str, usize> = BTreeMap::new(alloc);
    let mut before = None;
    for (number, edge) in edges.iter().enumerate() {
        let folder = edge.dependency.package.folder;
        if before != Some(folder) {
            first.insert(folder, number)?;
        }
        before = Some(folder);
    }
    Ok(first)
}

// The folder of the package that is locked for a dependency; of a link, that to which it leads.
fn target<'a>(
    alloc: Global,
    lock: Lock<'a>,
    edge: &Edge<'a>,
) -> Result<Option<&'a str>, AllocError> {
    let Some(locked) = edge.locked else {
        return Ok(None);
    };
    Ok(lock.behind(alloc, locked)?.map(|it| it.folder))
}
