// Folders and paths as texts: no disk is asked.

ghost use Rattle.lock_files.specs.Internal.Places.{place_of};
ghost use Rattle.lock_files.specs.Lookups.{IsInstalled};
ghost use Rattle.lock_files.specs.Paths.{is_relative, is_url_sign, joined, next_place, parts};
ghost use Rattle.lock_files.specs.Paths.{place_above};
ghost use Rattle.lock_files.specs.Workspaces.{IsNameOf};
ghost use Rattle.std.specs.List.{fold, list_any};
ghost use Rattle.std.specs.Option.{MatchOption};
ghost use Rattle.std.specs.Prelude.{◌↔◌, ◌≡◌, ◌≢◌, ◌∷◌, ◌++◌, IfOk, IsTrue, List, OnOk, ℕ};
ghost use Rattle.std.specs.Prelude.{string_bytes};

use std::alloc::{AllocError, Global};

/// The folder to which a path leads from another folder, with no `.` and no `..` but at its front.
/// Both are relative to the root project, whose folder is the empty text.
pub fn joined(alloc: Global, from: &str, path: &str) -> Result<String, AllocError>
    ensures { IfOk result (λ folder. string_bytes folder ≡ joined from.now path.now) }
{
    let mut parts: Vec<&str> = Vec::new(alloc);
    go_along(&mut parts, from)?;
    go_along(&mut parts, path)?;
    parts.as_slice().join(alloc, "/")
}

// Goes on by all parts of a path.
fn go_along<'a>(place: &mut Vec<&'a str>, path: &'a str) -> Result<(), AllocError>
    ensures { OnOk result (place_of place.new.items
        ≡ fold next_place (place_of place.old.items) (parts path.now)) }
{
    for part in path.split('/') {
        go_on(place, part)?;
    }
    Ok(())
}

// Goes on by one part.
fn go_on<'a>(parts: &mut Vec<&'a str>, part: &'a str) -> Result<(), AllocError>
    ensures { OnOk result (place_of parts.new.items
        ≡ next_place (place_of parts.old.items) part.now) }
{
    match part {
        "" | "." => {}
        ".." => go_up(parts)?,
        _ => parts.push(part)?,
    }
    Ok(())
}

// Goes up from the last part, or further out if there is none to go up from.
fn go_up(parts: &mut Vec<&str>) -> Result<(), AllocError>
    ensures { OnOk result (place_of parts.new.items ≡ place_above (place_of parts.old.items)) }
{
    match parts.last() {
        Some(last) if *last != ".." => drop(parts.pop()),
        _ => parts.push("..")?,
    }
    Ok(())
}

/// Whether a path leads from a folder and has no character that means something in a URL. Other
/// paths are not read.
pub fn is_relative(path: &str) -> bool
    ensures { result ≡ is_relative path.now }
{
    !path.starts_with('/') && !path.starts_with('~') && !has_url_sign(path.as_bytes())
}

fn has_url_sign(path: &[u8]) -> bool
    ensures { result ≡ list_any is_url_sign path.now }
{
    path.iter().any(|byte| is_url_sign(*byte))
}

// Whether a byte means something in a URL.
fn is_url_sign(byte: u8) -> bool
    ensures { result ≡ is_url_sign byte }
{
    matches!(byte, b':' | b'%' | b'?' | b'#' | b'\\')
}

/// The name that npm takes for a package from its folder: its last part, behind its scope if it
/// has one.
pub fn name_of(folder: &str) -> &str
    ensures { IsNameOf folder.now result.now }
{
    let Some((above, base)) = folder.rsplit_once('/') else {
        return folder;
    };
    match above.rsplit_once('/') {
        None if above.starts_with('@') => folder,
        None => base,
        Some((front, scope)) => {
            if scope.starts_with('@') {
                behind(folder, front).unwrap_or(base)
            } else {
                base
            }
        }
    }
}

// What stands behind a front of the folder and a slash.
fn behind<'a>(folder: &'a str, front: &str) -> Option<&'a str>
    ensures { MatchOption result ((rest : List ℕ) → folder.now ≢ front.now ++ 47 ∷ rest)
        (λ rest. folder.now ≡ front.now ++ 47 ∷ rest.now) }
{
    match folder.strip_prefix(front) {
        Some(rest) => rest.strip_prefix('/'),
        None => None,
    }
}

/// Whether a package in this folder is installed as a dependency, and no project of its own.
pub fn is_installed(folder: &str) -> bool
    ensures { IsTrue result ↔ IsInstalled folder.now }
{
    folder.starts_with("node_modules/") || folder.contains("/node_modules/")
}
