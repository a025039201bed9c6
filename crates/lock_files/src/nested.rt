// A lock file of lockfileVersion 1, whose packages stand inside one another.

ghost use Rattle.lock_files.specs.Fields.{text_of};
ghost use Rattle.lock_files.specs.Internal.Nesting.{AddsAll, AddsEntry, AddsOwn, IsBehindLast};
ghost use Rattle.lock_files.specs.Internal.Nesting.{with_link, with_target};
ghost use Rattle.lock_files.specs.Nested.{AreConverted, HasFields, IsLastPart, IsNamedIn, IsSaid};
ghost use Rattle.lock_files.specs.Nested.{IsPackedVersion, IsSource, IsVersion, SaysSource, below};
ghost use Rattle.lock_files.specs.Nested.{address_of, is_range, kept, link_to};
ghost use Rattle.lock_files.specs.Nested.{link_target, with_field};
ghost use Rattle.lock_files.specs.Paths.{joined};
ghost use Rattle.serde_json.specs.Data.{no_members, object, string};
ghost use Rattle.serde_json.specs.Find.{as_object, get};
ghost use Rattle.serde_json.specs.View.{members_view, view};
ghost use Rattle.std.specs.Prelude.{◌≡◌, ◌≢◌, ◌↔◌, ◌++◌, [], IfOk, IsTrue, List, MatchOption, OnOk};
ghost use Rattle.std.specs.Prelude.{codes, option_and_then, option_map, string_bytes, ℕ};

use crate::folder::joined;
use crate::specifier::Specifier;
use serde_json::{Map, Value, put};
use std::alloc::{AllocError, Global};

/// The packages by their folders, as a lock file of lockfileVersion 3 has them. Of the root project
/// nothing is known.
pub fn packages(
    alloc: Global,
    dependencies: &Map<String, Value>,
) -> Result<Map<String, Value>, AllocError>
    ensures { IfOk result (λ found. AreConverted (members_view dependencies.now.entries)
        (members_view found.entries)) }
{
    let mut packages: Map<String, Value> = Map::new(alloc);
    add_all(alloc, "", dependencies, &mut packages)?;
    Ok(packages)
}

// Adds the packages of the entries that stand below a folder, and of those inside them. Where
// several have one folder, the last that is added counts.
#[cycle(nested)]
fn add_all(
    alloc: Global,
    folder: &str,
    dependencies: &Map<String, Value>,
    packages: &mut Map<String, Value>,
) -> Result<(), AllocError>
    ensures { OnOk result (AddsAll folder.now (members_view dependencies.now.entries)
        (members_view packages.old.entries) (members_view packages.new.entries)) }
{
    for (name, entry) in dependencies.iter().rev() {
        add(alloc, folder, name.as_str(), entry, packages)?;
    }
    Ok(())
}

// Adds the package of an entry that stands below a folder, and those of the entries inside it.
#[cycle(nested)]
fn add(
    alloc: Global,
    folder: &str,
    name: &str,
    entry: &Value,
    packages: &mut Map<String, Value>,
) -> Result<(), AllocError>
    ensures { OnOk result (AddsEntry folder.now name.now (view entry.now)
        (members_view packages.old.entries) (members_view packages.new.entries)) }
{
    let folder = below(alloc, folder, name)?;
    let within = add_own(alloc, &folder, name, entry, packages)?;
    match entries_within(entry) {
        Some(entries) => add_all(alloc, &within, entries, packages),
        None => Ok(()),
    }
}

/// What stands in the object `dependencies` of an entry or of a lock file.
pub fn entries_within(entry: &Value) -> Option<&Map<String, Value>>
    ensures { option_map (λ m. members_view m.now.entries) result
        ≡ option_and_then as_object (get (codes "dependencies") (view entry.now)) }
{
    entry.get("dependencies").and_then(Value::as_object)
}

// Adds the package of an entry in its folder. Returns the folder below which the entries inside it
// stand.
fn add_own(
    alloc: Global,
    folder: &str,
    name: &str,
    entry: &Value,
    packages: &mut Map<String, Value>,
) -> Result<String, AllocError>
    ensures { IfOk result (λ within. AddsOwn folder.now name.now (view entry.now)
        (string_bytes within) (members_view packages.old.entries)
        (members_view packages.new.entries)) }
{
    let source = source(entry);
    match path_of(source) {
        Some(path) => add_link(alloc, folder, path, entry, packages),
        None => {
            let package = package(alloc, name, entry, source)?;
            put(packages, alloc, folder, package)?;
            String::from_str(alloc, folder)
        }
    }
}

// The path of the folder to which a link leads.
fn path_of(source: Option<Specifier<'_>>) -> Option<&str>
    ensures { option_map (λ path. joined [] path.now) result ≡ link_target source.entry }
{
    match source? {
        Specifier::Folder(path) => Some(path),
        _ => None,
    }
}

// Adds a link to a folder, and what is kept of the link in that folder. Returns it.
fn add_link(
    alloc: Global,
    folder: &str,
    path: &str,
    entry: &Value,
    packages: &mut Map<String, Value>,
) -> Result<String, AllocError>
    ensures target { IfOk result (λ target. string_bytes target ≡ joined [] path.now) }
    ensures added { OnOk result (members_view packages.new.entries ≡ with_link folder.now
        (joined [] path.now) (view entry.now) (members_view packages.old.entries)) }
{
    let target = joined(alloc, "", path)?;
    add_target(alloc, &target, entry, packages)?;
    put(packages, alloc, folder, link_to(alloc, &target)?)?;
    Ok(target)
}

// Adds what is kept of a link to this folder, unless there is a package.
fn add_target(
    alloc: Global,
    folder: &str,
    entry: &Value,
    packages: &mut Map<String, Value>,
) -> Result<(), AllocError>
    ensures { OnOk result (members_view packages.new.entries ≡ with_target folder.now
        (object (kept (view entry.now))) (members_view packages.old.entries)) }
{
    if packages.get(folder).is_none() {
        put(packages, alloc, folder, Value::Object(kept(alloc, entry)?))?;
    }
    Ok(())
}

// The folder of a package of this name below a folder.
fn below(alloc: Global, folder: &str, name: &str) -> Result<String, AllocError>
    ensures { IfOk result (λ own. string_bytes own ≡ below folder.now name.now) }
{
    if folder.is_empty() {
        return format!(in alloc; "node_modules/{name}");
    }
    format!(in alloc; "{folder}/node_modules/{name}")
}

fn text<'a>(entry: &'a Value, field: &str) -> Option<&'a str>
    ensures { option_map (λ t. t.now) result ≡ text_of field.now (view entry.now) }
{
    entry.get(field).and_then(Value::as_str)
}

// What the text in a field is.
fn specifier<'a>(entry: &'a Value, field: &str) -> Option<Specifier<'a>>
    ensures { IsSaid field.now (view entry.now) result }
{
    text(entry, field).map(Specifier::of)
}

// Where the package of an entry comes from, as npm has it: what its version is, if that says it, or
// else what its `resolved` is, or else what it was asked for by.
fn source(entry: &Value) -> Option<Specifier<'_>>
    ensures { IsSource (view entry.now) result }
{
    match specifier(entry, "version") {
        Some(version) if says_source(entry, version) => Some(version),
        _ => specifier(entry, "resolved").or(specifier(entry, "from")),
    }
}

// Whether the version of an entry says where its package comes from.
fn says_source(entry: &Value, version: Specifier<'_>) -> bool
    ensures { IsTrue result ↔ SaysSource (view entry.now) version.entry }
{
    if version.is_repository() || entry.get("integrity").is_some() {
        return true;
    }
    match specifier(entry, "from") {
        Some(from) => is_range(from),
        None => text(entry, "resolved").is_none(),
    }
}

fn is_range(specifier: Specifier<'_>) -> bool
    ensures { result ≡ is_range specifier.entry }
{
    matches!(specifier, Specifier::Range(_))
}

fn link_to(alloc: Global, folder: &str) -> Result<Value, AllocError>
    ensures { IfOk result (λ link. view link ≡ link_to folder.now) }
{
    let mut link: Map<String, Value> = Map::new(alloc);
    put(&mut link, alloc, "link", Value::Bool(true))?;
    put_text(alloc, &mut link, "resolved", Some(folder))?;
    Ok(Value::Object(link))
}

// Puts a text into a field, if there is one.
fn put_text(
    alloc: Global,
    fields: &mut Map<String, Value>,
    field: &str,
    text: Option<&str>,
) -> Result<(), AllocError>
    ensures { OnOk result (members_view fields.new.entries ≡ with_field field.now
        (option_map (λ t. string t.now) text.entry) (members_view fields.old.entries)) }
{
    match text {
        Some(text) => put(fields, alloc, field, Value::try_from_str(alloc, text)?),
        None => Ok(()),
    }
}

// The fields of an entry that are kept.
fn kept(alloc: Global, entry: &Value) -> Result<Map<String, Value>, AllocError>
    ensures { IfOk result (λ fields. members_view fields.entries ≡ kept (view entry.now)) }
{
    let mut fields: Map<String, Value> = Map::new(alloc);
    keep_all(alloc, &mut fields, entry)?;
    Ok(fields)
}

// Keeps them by the names that later versions have for them, where there are no fields yet.
fn keep_all(alloc: Global, fields: &mut Map<String, Value>, entry: &Value) -> Result<(), AllocError>
    requires { members_view fields.old.entries ≡ no_members }
    ensures { OnOk result (members_view fields.new.entries ≡ kept (view entry.now)) }
{
    keep(alloc, fields, entry, "requires", "requires")?;
    keep(alloc, fields, entry, "optional", "optional")?;
    keep(alloc, fields, entry, "dev", "dev")?;
    keep(alloc, fields, entry, "bundled", "inBundle")
}

// Keeps a field of an entry by this name, if there is one.
fn keep(
    alloc: Global,
    fields: &mut Map<String, Value>,
    entry: &Value,
    field: &str,
    name: &str,
) -> Result<(), AllocError>
    ensures { OnOk result (members_view fields.new.entries ≡ with_field name.now
        (get field.now (view entry.now)) (members_view fields.old.entries)) }
{
    match entry.get(field) {
        Some(value) => put(fields, alloc, name, value.clone()?),
        None => Ok(()),
    }
}

// A package that is no link, by where it comes from.
fn package(
    alloc: Global,
    name: &str,
    entry: &Value,
    source: Option<Specifier<'_>>,
) -> Result<Value, AllocError>
    ensures { IfOk result (λ it. HasFields name.now (view entry.now) source.entry (view it)) }
{
    let mut fields = kept(alloc, entry)?;
    put_text(alloc, &mut fields, "resolved", address(entry, source))?;
    put_text(alloc, &mut fields, "version", version(name, entry, source))?;
    Ok(Value::Object(fields))
}

fn address<'a>(entry: &'a Value, source: Option<Specifier<'a>>) -> Option<&'a str>
    ensures { option_map (λ t. t.now) result ≡ address_of (view entry.now) source.entry }
{
    match source? {
        Specifier::Page(url) => Some(url),
        Specifier::Repository(_) => text(entry, "version"),
        _ => text(entry, "resolved"),
    }
}

fn version<'a>(name: &str, entry: &'a Value, source: Option<Specifier<'a>>) -> Option<&'a str>
    ensures { IsVersion name.now (view entry.now) source.entry (option_map (λ t. t.now) result) }
{
    match source? {
        Specifier::Range(_) if entry.get("integrity").is_none() => text(entry, "version"),
        Specifier::Range(version) => Some(version),
        Specifier::Page(place) | Specifier::Packed(place) => packed_version(name, place),
        Specifier::Folder(_) | Specifier::Repository(_) | Specifier::Unsupported => None,
    }
}

// The version in the name of a packed package, as npm takes it from `NAME-VERSION.tgz`. The name is
// that in the address, if that is one of a registry, and else that of the dependency.
fn packed_version<'a>(name: &str, place: &'a str) -> Option<&'a str>
    ensures { IsPackedVersion name.now place.now (option_map (λ t. t.now) result) }
{
    let file = last_part(place);
    let name = registry_front(place, file).unwrap_or(name);
    version_in(file, last_part(name))
}

// What stands in front of `/-/` and the name of a file.
fn registry_front<'a>(place: &'a str, file: &str) -> Option<&'a str>
    ensures { MatchOption result
        ((front : List ℕ) → place.now ≢ front ++ (codes "/-/" ++ file.now))
        (λ front. place.now ≡ front.now ++ (codes "/-/" ++ file.now)) }
{
    match place.strip_suffix(file) {
        Some(above) => above.strip_suffix("/-/"),
        None => None,
    }
}

// The version in the name of a file that begins with this name.
fn version_in<'a>(file: &'a str, name: &str) -> Option<&'a str>
    ensures { IsNamedIn name.now file.now (option_map (λ t. t.now) result) }
{
    match file.strip_prefix(name) {
        Some(rest) => version_of(rest),
        None => None,
    }
}

// The version in `-VERSION.tgz`.
fn version_of(rest: &str) -> Option<&str>
    ensures { IsNamedIn [] rest.now (option_map (λ t. t.now) result) }
{
    match rest.strip_prefix('-') {
        Some(version) => version.strip_suffix(".tgz"),
        None => None,
    }
}

// What stands behind the last slash, which may be written `%2f`.
fn last_part(text: &str) -> &str
    ensures { IsLastPart text.now result.now }
{
    behind_last(behind_last(behind_last(text, "/"), "%2f"), "%2F")
}

fn behind_last<'a>(text: &'a str, slash: &str) -> &'a str
    requires { slash.now ≢ [] }
    ensures { IsBehindLast slash.now text.now result.now }
{
    match text.rsplit_once(slash) {
        Some((_, behind)) => behind,
        None => text,
    }
}
