// Which files are read, and what a file looks like that is no lock file of npm.

ghost use Rattle.lock_files.specs.Documents.{IsInput, IsJson, IsLockFile, IsRead, IsUnmarked};
ghost use Rattle.serde_json.specs.Find.{as_object};
ghost use Rattle.serde_json.specs.View.{view};
ghost use Rattle.std.specs.Prelude.{◌≡◌, ◌↔◌, IfOk, IfSome, IsNone, IsSome, IsTrue, string_bytes};

use crate::shown::Shown;
use anyhow::{Context, Result, bail};
use serde_json::Value;
use std::alloc::Global;
use std::io::ErrorKind;
use std::{fs, io};

// The lock files of a folder. npm reads the first of them that is there.
const LOCKS: &[&str] = &["npm-shrinkwrap.json", "package-lock.json"];

// What standard input is called.
const INPUT: &str = "standard input";

// The lock files of other programs.
const OTHERS: &[&str] = &["yarn.lock", "pnpm-lock.yaml", "bun.lock"];

/// A lock file.
#[derive(Drop)]
pub struct LockFile {
    /// Its path, as it is shown.
    pub name: String,
    pub text: String,
    pub fields: Value,
}

/// What is read.
#[derive(Drop)]
pub struct Input {
    pub lock: LockFile,
    /// The `package.json` beside it, if there is one.
    pub manifest: Option<Value>,
}

/// Reads what a path means: the files of a folder, or a lock file and the `package.json` beside it.
/// For `-` the lock file is standard input, and so it is for the path of a `package.json`.
pub fn read(rt: &HostRuntime, path: &str) -> Result<Input>
    ensures { IfOk result IsInput }
{
    if path == "-" {
        let lock = standard_input(rt)?;
        return Ok(Input {
            lock,
            manifest: None,
        });
    }
    if is_folder(rt, path) {
        in_folder(rt, path)
    } else {
        at(rt, path)
    }
}

fn is_folder(rt: &HostRuntime, path: &str) -> bool {
    match fs::metadata(rt, path) {
        Ok(metadata) => metadata.is_dir(),
        Err(_) => false,
    }
}

// The files of a folder.
fn in_folder(rt: &HostRuntime, folder: &str) -> Result<Input>
    ensures { IfOk result IsInput }
{
    for name in LOCKS {
        if let Some(lock) = lock_in(rt, folder, name)? {
            let manifest = manifest_in(rt, folder)?;
            return Ok(Input { lock, manifest });
        }
    }
    for name in OTHERS {
        let path = inside(rt, folder, name)?;
        if fs::exists(rt, path.as_str())? {
            bail!("{}: no lock file of npm, but a {name}", Shown(folder));
        }
    }
    bail!(
        "{}: no npm-shrinkwrap.json and no package-lock.json",
        Shown(folder)
    )
}

// A package.json, or a lock file and the package.json beside it.
fn at(rt: &HostRuntime, path: &str) -> Result<Input>
    ensures { IfOk result IsInput }
{
    let text = fs::read_to_string(rt, path);
    let text = text.context(format_args!("{} cannot be read", Shown(path)))?;
    let alloc = rt.alloc();
    let file = json(alloc, path, &text)?;
    if is_manifest(&file) {
        return with_manifest(rt, file);
    }
    let lock = lock_of(alloc, path, text, file)?;
    let folder = match path.rsplit_once('/') {
        Some((folder, _)) => folder,
        None => ".",
    };
    let manifest = manifest_in(rt, folder)?;
    Ok(Input { lock, manifest })
}

fn with_manifest(rt: &HostRuntime, manifest: Value) -> Result<Input>
    ensures { IsSome (as_object (view manifest)) → IfOk result IsInput }
{
    let lock = standard_input(rt)?;
    Ok(Input {
        lock,
        manifest: Some(manifest),
    })
}

fn standard_input(rt: &HostRuntime) -> Result<LockFile>
    ensures { IfOk result IsRead }
{
    let alloc = rt.alloc();
    let text = io::read_to_string(alloc, rt.stdin())?;
    lock_file(alloc, INPUT, text)
}

// The lock file of this name in a folder, if it is there.
fn lock_in(rt: &HostRuntime, folder: &str, name: &str) -> Result<Option<LockFile>>
    ensures { IfOk result (λ file. IfSome file IsRead) }
{
    let path = inside(rt, folder, name)?;
    match text_if_there(rt, &path)? {
        Some(text) => Ok(Some(lock_file(rt.alloc(), &path, text)?)),
        None => Ok(None),
    }
}

// The package.json of a folder, if it is there.
fn manifest_in(rt: &HostRuntime, folder: &str) -> Result<Option<Value>>
    ensures { IfOk result (λ m. IfSome m (λ v. IsSome (as_object (view v)))) }
{
    let path = inside(rt, folder, "package.json")?;
    let Some(text) = text_if_there(rt, &path)? else {
        return Ok(None);
    };
    let file = json(rt.alloc(), &path, &text)?;
    if !file.is_object() {
        bail!("{} is no object", Shown(&path));
    }
    Ok(Some(file))
}

fn inside(rt: &HostRuntime, folder: &str, name: &str) -> Result<String> {
    let alloc = rt.alloc();
    match folder {
        "." => Ok(format!(in alloc; "{name}")?),
        _ => Ok(format!(in alloc; "{folder}/{name}")?),
    }
}

fn text_if_there(rt: &HostRuntime, path: &str) -> Result<Option<String>> {
    match fs::read_to_string(rt, path) {
        Ok(text) => Ok(Some(text)),
        Err(error) if error.kind() == ErrorKind::NotFound => Ok(None),
        Err(error) => Err(error).context(format_args!("{} cannot be read", Shown(path))),
    }
}

fn json(alloc: Global, name: &str, text: &str) -> Result<Value>
    ensures { IfOk result (λ file. IsJson text.now (view file)) }
{
    let text = unmarked(text);
    match Value::from_str(alloc, text) {
        Ok(file) => Ok(file),
        Err(error) => match look(text) {
            Some(look) => bail!("{} is no lock file of npm: {look}", Shown(name)),
            None => Err(error).context(format_args!("{} is not JSON", Shown(name))),
        },
    }
}

// The lock file that a text is.
fn lock_file(alloc: Global, path: &str, text: String) -> Result<LockFile>
    ensures { IfOk result IsRead }
{
    let file = json(alloc, path, &text)?;
    lock_of(alloc, path, text, file)
}

// A file, if it is a lock file of npm.
fn lock_of(alloc: Global, path: &str, text: String, fields: Value) -> Result<LockFile>
    ensures { IsJson (string_bytes text) (view fields) → IfOk result IsRead }
{
    if let Some(flaw) = flaw(&fields) {
        bail!("{} is no lock file of npm: {flaw}", Shown(path));
    }
    let name = format!(in alloc; "{}", Shown(path))?;
    Ok(LockFile { name, text, fields })
}

// Why a file is no lock file of npm.
fn flaw(file: &Value) -> Option<&'static str>
    ensures { IsNone result ↔ IsLockFile (view file.now) }
{
    if !file.is_object() {
        return Some("it is no object");
    }
    let Some(version) = file.get("lockfileVersion") else {
        return Some(if is_manifest(file) {
            "it has no `lockfileVersion`, and looks like a package.json"
        } else {
            "it has no `lockfileVersion`"
        });
    };
    match version.as_u64() {
        Some(1..=3) => None,
        _ => Some("its `lockfileVersion` is not 1, 2 or 3"),
    }
}

// Whether an object looks like a package.json: nothing is locked in it.
fn is_manifest(file: &Value) -> bool
    ensures { IsTrue result → IsSome (as_object (view file.now)) }
{
    file.is_object()
        && file.get("lockfileVersion").is_none()
        && file.get("packages").is_none()
        && match file.get("dependencies").and_then(Value::as_object) {
            Some(ranges) => ranges.values().all(|range| !range.is_object()),
            None => true,
        }
}

// What a text looks like that is not JSON.
fn look(text: &str) -> Option<&'static str> {
    if begins_line(text, "<<<<<<< ") {
        Some("a merge conflict is left in it")
    } else if text.contains("# yarn lockfile v") || begins_line(text, "__metadata:") {
        Some("it looks like one of yarn")
    } else if begins_line(text, "lockfileVersion:") {
        Some("it looks like one of pnpm")
    } else {
        None
    }
}

// Whether a line of the text begins so.
fn begins_line(text: &str, front: &str) -> bool {
    text.split('\n').any(|line| line.starts_with(front))
}

/// What follows the byte order mark that some editors put at the front of a file.
pub fn unmarked(text: &str) -> &str
    ensures { IsUnmarked text.now result.now }
{
    match text.strip_prefix('\u{feff}') {
        Some(rest) => rest,
        None => text,
    }
}
