// What is told of how dependencies stand to an index, in whichever format.

ghost use Rattle.lock_check.specs.Outlooks.{class_of, is_shown, outlook_data, outlook_text};
ghost use Rattle.lock_check.specs.Outlooks.{reason_words, told_outlook, told_outlook_row};
ghost use Rattle.semver_core.specs.Printing.Text.{version_text};
ghost use Rattle.serde_json.specs.Data.{no_members, object as object_data};
ghost use Rattle.serde_json.specs.View.{members_view, view};
ghost use Rattle.serde_json.specs.Written.{compact_text};
ghost use Rattle.std.specs.List.{flat_map};
ghost use Rattle.std.specs.Option.{option_copied};
ghost use Rattle.std.specs.Prelude.{◌≡◌, ◌++◌, IfOk, OnOk, filter, map, option_map, string_bytes};

use crate::json::{put_text, write_line};
use crate::outlook::{Class, Outlook, Totals};
use crate::raises::Latest;
use lock_files::Lines;
use nodejs_semver::VersionRef;
use serde_json::{Map, Value, put};
use std::alloc::{AllocError, Global};
use std::fmt::Write;

/// What is told of a dependency.
#[derive(Drop)]
pub struct OutlookRow<'a> {
    pub class: Class,
    /// The package that has the dependency, and the line of the lock file where its entry begins.
    pub folder: &'a str,
    pub line: usize,
    /// The dependency, what is wanted of it, and the package that a registry is asked for.
    pub name: &'a str,
    pub need: &'a str,
    pub package: &'a str,
    /// The locked version, and what it may be raised to.
    pub locked: Option<&'a str>,
    pub wanted: Option<String>,
    /// The newest version, if the range does not accept it, and why it does not.
    pub latest: Option<String>,
    pub reason: Option<&'static str>,
    pub message: String,
}

/// A row for each dependency that is outdated, in order, and unless it is quiet for each that is
/// not in the index or not looked up. Fails only if allocation fails.
pub fn outlook_rows<'a>(
    alloc: Global,
    outlooks: &[Outlook<'a, '_, '_>],
    lines: &Lines,
    is_quiet: bool,
) -> Result<Vec<OutlookRow<'a>>, AllocError>
    ensures { IfOk result (λ rows. map told_outlook_row rows.items ≡ map told_outlook
        (filter (λ o. is_shown is_quiet (class_of o.standing)) outlooks.now)) }
{
    let mut rows = Vec::new(alloc);
    add_outlooks(alloc, outlooks, lines, is_quiet, &mut rows)?;
    Ok(rows)
}

fn add_outlooks<'a>(
    alloc: Global,
    outlooks: &[Outlook<'a, '_, '_>],
    lines: &Lines,
    is_quiet: bool,
    rows: &mut Vec<OutlookRow<'a>>,
) -> Result<(), AllocError>
    ensures { OnOk result (map told_outlook_row rows.new.items
        ≡ map told_outlook_row rows.old.items ++ map told_outlook
        (filter (λ o. is_shown is_quiet (class_of o.standing)) outlooks.now)) }
{
    for outlook in outlooks {
        if outlook.standing.class().is_shown(is_quiet) {
            rows.push(row_of_outlook(alloc, *outlook, lines)?)?;
        }
    }
    Ok(())
}

fn row_of_outlook<'a>(
    alloc: Global,
    outlook: Outlook<'a, '_, '_>,
    lines: &Lines,
) -> Result<OutlookRow<'a>, AllocError>
    ensures { IfOk result (λ row. told_outlook_row row ≡ told_outlook outlook.entry) }
{
    let dependency = outlook.dependency;
    let folder = dependency.package.folder;
    let latest = outlook.standing.latest();
    let wanted = version_text(alloc, outlook.standing.wanted())?;
    let newest = newest_text(alloc, latest)?;
    let message = format!(in alloc; "{outlook}")?;
    Ok(OutlookRow {
        class: outlook.standing.class(),
        folder,
        line: lines.line(folder),
        name: dependency.name,
        need: dependency.wanted.text(),
        package: outlook.package,
        locked: outlook.locked,
        wanted,
        latest: newest,
        reason: reason_words(latest),
        message,
    })
}

fn version_text(
    alloc: Global,
    version: Option<&VersionRef<'_>>,
) -> Result<Option<String>, AllocError>
    ensures { IfOk result (λ text. option_map string_bytes text
        ≡ option_map version_text (option_copied version.entry)) }
{
    match version {
        Some(version) => {
            let text = format!(in alloc; "{version}")?;
            Ok(Some(text))
        }
        None => Ok(None),
    }
}

fn newest_text(alloc: Global, latest: Option<Latest<'_, '_>>) -> Result<Option<String>, AllocError>
    ensures { IfOk result (λ text. option_map string_bytes text
        ≡ option_map (λ l. version_text l.version.now) latest.entry) }
{
    match latest {
        Some(latest) => version_text(alloc, Some(latest.version)),
        None => Ok(None),
    }
}

fn reason_words(latest: Option<Latest<'_, '_>>) -> Option<&'static str>
    ensures { option_map (λ t. t.now) result
        ≡ option_map (λ l. reason_words l.reason) latest.entry }
{
    match latest {
        Some(latest) => Some(latest.reason.words()),
        None => None,
    }
}

/// Writes each row on a line, as text or as an object of JSON. The file is the name of the lock
/// file. Fails only if allocation fails.
pub fn write_outlooks(
    alloc: Global,
    is_json: bool,
    file: &str,
    rows: &[OutlookRow<'_>],
    output: &mut String,
) -> Result<(), AllocError>
    ensures { OnOk result (string_bytes output.new
        ≡ string_bytes output.old ++ flat_map (outlook_text is_json file.now) rows.now) }
{
    for row in rows {
        write_outlook(alloc, is_json, file, row, output)?;
    }
    Ok(())
}

fn write_outlook(
    alloc: Global,
    is_json: bool,
    file: &str,
    row: &OutlookRow<'_>,
    output: &mut String,
) -> Result<(), AllocError>
    ensures { OnOk result (string_bytes output.new
        ≡ string_bytes output.old ++ outlook_text is_json file.now row.now) }
{
    if is_json {
        let text = outlook_object_text(alloc, row)?;
        write_line(&text, output)
    } else {
        let (line, message) = (row.line, row.message.as_str());
        writeln!(output, "{file}:{line}: {message}")
    }
}

// The text of the object of a row.
fn outlook_object_text(alloc: Global, row: &OutlookRow<'_>) -> Result<String, AllocError>
    ensures { IfOk result (λ s. string_bytes s ≡ compact_text (outlook_data row.now)) }
{
    let object = outlook_object(alloc, row)?;
    object.to_string(alloc)
}

// The object of a row.
fn outlook_object(alloc: Global, row: &OutlookRow<'_>) -> Result<Value, AllocError>
    ensures { IfOk result (λ v. view v ≡ outlook_data row.now) }
{
    let mut object = Map::new(alloc);
    put_outlook(alloc, row, &mut object)?;
    Ok(Value::Object(object))
}

// Puts the members of a row into an empty object.
#[tactic(auto, unfolding(crate::specs::Outlooks::outlook_data))]
fn put_outlook(
    alloc: Global,
    row: &OutlookRow<'_>,
    object: &mut Map<String, Value>,
) -> Result<(), AllocError>
    ensures { members_view object.old.entries ≡ no_members
        → OnOk result (object_data (members_view object.new.entries) ≡ outlook_data row.now) }
{
    put_text(alloc, "kind", Some(row.class.word()), object)?;
    put_text(alloc, "folder", Some(row.folder), object)?;
    put_text(alloc, "dependency", Some(row.name), object)?;
    put_text(alloc, "need", Some(row.need), object)?;
    put_text(alloc, "package", Some(row.package), object)?;
    put_text(alloc, "locked", row.locked, object)?;
    put_text(alloc, "wanted", row.wanted.as_deref(), object)?;
    put_text(alloc, "latest", row.latest.as_deref(), object)?;
    put_text(alloc, "reason", row.reason, object)?;
    put_text(alloc, "message", Some(row.message.as_str()), object)?;
    put(object, alloc, "line", Value::from(row.line))
}

/// Writes the totals as text, or as an object of JSON, on a line. Fails only if allocation fails.
pub fn write_totals(
    alloc: Global,
    totals: Totals,
    is_json: bool,
    output: &mut String,
) -> Result<(), AllocError> {
    if is_json {
        let text = totals_object(alloc, totals)?.to_string(alloc)?;
        write_line(&text, output)
    } else {
        writeln!(output, "{totals}")
    }
}

fn totals_object(alloc: Global, totals: Totals) -> Result<Value, AllocError> {
    let mut object = Map::new(alloc);
    put_totals(alloc, totals, &mut object)?;
    Ok(Value::Object(object))
}

fn put_totals(
    alloc: Global,
    totals: Totals,
    object: &mut Map<String, Value>,
) -> Result<(), AllocError> {
    put_text(alloc, "kind", Some("summary"), object)?;
    for (name, count) in totals.named() {
        put(object, alloc, name, Value::from(count))?;
    }
    Ok(())
}
