// The program as a function of its arguments.

ghost use Rattle.std.specs.Prelude.{◌≡◌, ◌++◌, ◌∷◌, [], not, option_map, IfOk, OnOk, None, Ok};
ghost use Rattle.std.specs.Prelude.{Some};
ghost use Rattle.std.specs.Prelude.{false, map, string_bytes, true};
ghost use Rattle.std.specs.List.{flat_map};
ghost use Rattle.semver_core.specs.Failures.{NoValue};
ghost use Rattle.semver_core.specs.Increments.Table.{answer_of_inc};
ghost use Rattle.semver_core.specs.Lists.{is_empty};
ghost use Rattle.semver_core.specs.Printing.Text.{marked_list};
ghost use Rattle.npm_semver.specs.Listing.{AreListed};
ghost use Rattle.npm_semver.specs.Responses.{IsRefused, Responds, bare, ended, json};
ghost use Rattle.npm_semver.specs.Responses.{in_order, next_written, nothing_written, picked};
ghost use Rattle.npm_semver.specs.Responses.{printed_text, prints_as_given, quoted, shown};
ghost use Rattle.npm_semver.specs.Responses.{tells_why};
ghost use Rattle.npm_semver.specs.Internal.Asked.{asked_of, request_of};
ghost use Rattle.npm_semver.specs.Internal.Texts.{IsReadFor};
ghost use Rattle.npm_semver.specs.Internal.Written.{told_as, written};

use crate::entry::Entry;
use crate::help::HELP;
use crate::listing::Texts;
use crate::question::{Pick, Question, Request};
use crate::refusal::{Refusal, refusal_of};
use crate::why::told;
use nodejs_semver::{Failure, IdentifierRefs, Version, VersionRef};
use std::alloc::{AllocError, Global};

/// What the command writes, and whether it succeeds.
#[derive(Drop)]
pub struct Response<'a> {
    /// The text for standard output.
    pub output: String,
    /// Why texts are left out, for standard error, if that is asked for.
    pub told: String,
    /// Why nothing is printed, for standard error. Nothing says so where no text is a version that
    /// all ranges accept.
    pub refusal: Option<Refusal<'a>>,
    /// Whether the exit status is 0: exactly if something is printed.
    pub is_success: bool,
}

/// Returns what the command writes for a request. Fails only if allocation fails.
pub fn respond<'a>(alloc: Global, request: &Request<'a>) -> Result<Response<'a>, AllocError>
    ensures response { IfOk result (λ response.
        Responds (request_of request.now) (written response)) }
    ensures told { tells_why (request_of request.now) ≡ false
        → IfOk result (λ response. string_bytes response.told ≡ []) }
{
    match request {
        Request::Help => help(alloc),
        Request::Versions(question) => answer(alloc, question),
    }
}

// What is written for a question.
fn answer<'a>(alloc: Global, question: &Question<'a>) -> Result<Response<'a>, AllocError>
    ensures response { IfOk result (λ response.
        Responds (Some (asked_of question.now)) (written response)) }
    ensures told { question.now.is_why ≡ false
        → IfOk result (λ response. string_bytes response.told ≡ []) }
{
    let (ranges, versions) = (question.ranges.as_slice(), question.versions.as_slice());
    let mut read = Texts::of(alloc, question.reading, ranges, versions)?;
    let told = told(alloc, question, &read)?;
    let mut response = respond_to(alloc, question, &mut read)?;
    response.told = told;
    Ok(response)
}

// What is written for a question whose texts are read.
fn respond_to<'a>(
    alloc: Global,
    question: &Question<'a>,
    read: &mut Texts<'a>,
) -> Result<Response<'a>, AllocError>
    requires { IsReadFor (asked_of question.now) read.old }
    ensures { IfOk result (λ response.
        Responds (Some (asked_of question.now)) (written response)) }
{
    match refusal_of(question, read) {
        Some(refusal) => Ok(nothing(alloc, Some(refusal))),
        None => print(alloc, question, read),
    }
}

// What is written for a question that is not refused.
fn print<'a>(
    alloc: Global,
    question: &Question<'a>,
    read: &mut Texts<'a>,
) -> Result<Response<'a>, AllocError>
    requires read { IsReadFor (asked_of question.now) read.old }
    requires answered { NoValue (IsRefused (asked_of question.now)) }
    ensures { IfOk result (λ response.
        Responds (Some (asked_of question.now)) (written response)) }
{
    match question.level {
        Some(level) => increment(alloc, question, level, read),
        None => versions(alloc, question, &mut read.entries),
    }
}

fn help<'a>(alloc: Global) -> Result<Response<'a>, AllocError>
    ensures response { IfOk result (λ response. Responds None (written response)) }
    ensures told { IfOk result (λ response. string_bytes response.told ≡ []) }
{
    Ok(Response {
        output: String::from_str(alloc, HELP)?,
        told: String::new(alloc),
        refusal: None,
        is_success: true,
    })
}

// Nothing is printed.
fn nothing<'a>(alloc: Global, refusal: Option<Refusal<'a>>) -> Response<'a>
    ensures { written result ≡ nothing_written (option_map told_as refusal.entry) }
{
    Response {
        output: String::new(alloc),
        told: String::new(alloc),
        refusal,
        is_success: false,
    }
}

// The versions that are asked for.
fn versions<'a>(
    alloc: Global,
    question: &Question<'a>,
    listed: &mut Vec<Entry<'a>>,
) -> Result<Response<'a>, AllocError>
    requires answered { NoValue (IsRefused (asked_of question.now)) }
    requires level { question.now.level ≡ None }
    requires listed { let q = asked_of question.now in
        AreListed q.reading q.ranges q.versions listed.old.items }
    ensures { IfOk result (λ response.
        Responds (Some (asked_of question.now)) (written response)) }
{
    if question.prints_as_given() {
        given(alloc, question, listed)
    } else {
        list(alloc, question, listed)
    }
}

// The versions, in the order in which they were given.
fn given<'a>(
    alloc: Global,
    question: &Question<'a>,
    listed: &[Entry<'a>],
) -> Result<Response<'a>, AllocError>
    requires answered { NoValue (IsRefused (asked_of question.now)) }
    requires level { question.now.level ≡ None }
    requires order { prints_as_given (asked_of question.now) ≡ true }
    requires listed { let q = asked_of question.now in
        AreListed q.reading q.ranges q.versions listed.now }
    ensures { IfOk result (λ response.
        Responds (Some (asked_of question.now)) (written response)) }
{
    let mut output = String::new(alloc);
    write_all(question, listed, &mut output)?;
    Ok(Response {
        output,
        told: String::new(alloc),
        refusal: None,
        is_success: is_filled(listed),
    })
}

// The versions in order.
fn list<'a>(
    alloc: Global,
    question: &Question<'a>,
    listed: &mut Vec<Entry<'a>>,
) -> Result<Response<'a>, AllocError>
    requires answered { NoValue (IsRefused (asked_of question.now)) }
    requires level { question.now.level ≡ None }
    requires order { prints_as_given (asked_of question.now) ≡ false }
    requires listed { let q = asked_of question.now in
        AreListed q.reading q.ranges q.versions listed.old.items }
    ensures { IfOk result (λ response.
        Responds (Some (asked_of question.now)) (written response)) }
{
    listed.sort()?;
    let is_success = is_filled(listed);
    pick(question.pick, listed);
    put_in_order(question.is_reversed, listed);
    let mut output = String::new(alloc);
    write_all(question, listed, &mut output)?;
    Ok(Response {
        output,
        told: String::new(alloc),
        refusal: None,
        is_success,
    })
}

fn is_filled(entries: &[Entry<'_>]) -> bool
    ensures { result ≡ not (is_empty entries.now) }
{
    !entries.is_empty()
}

fn pick(pick: Pick, entries: &mut Vec<Entry<'_>>)
    ensures { entries.new.items ≡ picked pick entries.old.items }
{
    match pick {
        Pick::All => {}
        Pick::Greatest => {
            entries.reverse();
            entries.truncate(1);
        }
        Pick::Least => entries.truncate(1),
    }
}

fn put_in_order(is_reversed: bool, entries: &mut Vec<Entry<'_>>)
    ensures { entries.new.items ≡ in_order is_reversed entries.old.items }
{
    if is_reversed {
        entries.reverse();
    }
}

// The next version.
fn increment<'a>(
    alloc: Global,
    question: &Question<'a>,
    level: &str,
    read: &Texts<'a>,
) -> Result<Response<'a>, AllocError>
    requires read { IsReadFor (asked_of question.now) read.now }
    requires answered { NoValue (IsRefused (asked_of question.now)) }
    requires level { (asked_of question.now).level ≡ Some level.now }
    ensures { IfOk result (λ response.
        Responds (Some (asked_of question.now)) (written response)) }
{
    if !read.has_version {
        return Ok(nothing(alloc, None));
    }
    let ranges = question.ranges.as_slice();
    if !ranges.is_empty() {
        return Ok(nothing(alloc, Some(Refusal::NotOneVersion)));
    }
    let entries = read.entries.as_slice();
    if entries.len() != 1 {
        return Ok(nothing(alloc, Some(Refusal::NotOneVersion)));
    }
    next(alloc, question, level, &entries[0])
}

fn next<'a>(
    alloc: Global,
    question: &Question<'a>,
    level: &str,
    entry: &Entry<'a>,
) -> Result<Response<'a>, AllocError>
    ensures { IfOk result (λ response. written response ≡ next_written question.now.is_json
        question.now.ends_in_nul (answer_of_inc entry.now.version level.now
        (asked_of question.now).identifier (Some question.now.base))) }
{
    let version = &entry.version;
    match version.inc(alloc, level, question.identifier, Some(question.base)) {
        Ok(next) => found(alloc, question, next),
        Err(Failure::Refused(error)) => { Ok(nothing(alloc, Some(Refusal::NotIncremented(error)))) }
        Err(Failure::Memory(error)) => Err(error),
    }
}

fn found<'a>(
    alloc: Global,
    question: &Question<'a>,
    next: Version,
) -> Result<Response<'a>, AllocError>
    ensures { IfOk result (λ response. written response
        ≡ next_written question.now.is_json question.now.ends_in_nul (Ok next)) }
{
    let next = without_build(alloc, next)?;
    let mut output = String::new(alloc);
    if question.is_json {
        writeln!(output, "[\"{next}\"]")?;
    } else {
        write!(output, "{next}")?;
        output.push(char::from(question.end()))?;
    }
    Ok(Response {
        output,
        told: String::new(alloc),
        refusal: None,
        is_success: true,
    })
}

/// A version without its build metadata. Fails only if allocation fails.
pub fn without_build(alloc: Global, version: Version) -> Result<Version, AllocError>
    ensures { IfOk result (λ bare. bare ≡ record version { build = [] }) }
{
    let Ok(parts) = version.into_parts(alloc) else {
        return Err(AllocError);
    };
    let (major, minor, patch) = (parts.major, parts.minor, parts.patch);
    match Version::new(
        alloc,
        major,
        minor,
        patch,
        parts.pre_release,
        Vec::new(alloc),
    ) {
        Ok(bare) => Ok(bare),
        Err(_) => Err(AllocError),
    }
}

// Writes versions, or their texts, as JSON, or each as a record.
fn write_all(
    question: &Question<'_>,
    entries: &[Entry<'_>],
    output: &mut String,
) -> Result<(), AllocError>
    ensures { OnOk result (string_bytes output.new ≡ string_bytes output.old
        ++ printed_text (asked_of question.now) entries.now) }
{
    if question.is_json {
        write_json(question.as_written, entries, output)
    } else {
        write_records(question, entries, output)
    }
}

fn write_json(
    as_written: bool,
    entries: &[Entry<'_>],
    output: &mut String,
) -> Result<(), AllocError>
    ensures { OnOk result (string_bytes output.new
        ≡ string_bytes output.old ++ json (map (shown as_written) entries.now)) }
{
    let Some((first, others)) = entries.split_first() else {
        return output.push_str("[]\n");
    };
    output.push('[')?;
    write_quoted(as_written, first, output)?;
    write_others(as_written, others, output)?;
    output.push_str("]\n")
}

// Writes JSON strings, each behind a comma.
fn write_others(
    as_written: bool,
    entries: &[Entry<'_>],
    output: &mut String,
) -> Result<(), AllocError>
    ensures { OnOk result (string_bytes output.new ≡ string_bytes output.old
        ++ flat_map (λ t. 44 ∷ quoted t) (map (shown as_written) entries.now)) }
{
    for entry in entries {
        output.push(',')?;
        write_quoted(as_written, entry, output)?;
    }
    Ok(())
}

fn write_quoted(as_written: bool, entry: &Entry<'_>, output: &mut String) -> Result<(), AllocError>
    ensures { OnOk result (string_bytes output.new
        ≡ string_bytes output.old ++ quoted (shown as_written entry.now)) }
{
    output.push('"')?;
    write_shown(as_written, entry, output)?;
    output.push('"')
}

fn write_records(
    question: &Question<'_>,
    entries: &[Entry<'_>],
    output: &mut String,
) -> Result<(), AllocError>
    ensures { OnOk result (string_bytes output.new ≡ string_bytes output.old
        ++ flat_map (ended question.now.ends_in_nul)
        (map (shown question.now.as_written) entries.now)) }
{
    let end = char::from(question.end());
    for entry in entries {
        write_shown(question.as_written, entry, output)?;
        output.push(end)?;
    }
    Ok(())
}

// Writes the text of a version as it was given, or the version without its build metadata.
fn write_shown(as_written: bool, entry: &Entry<'_>, output: &mut String) -> Result<(), AllocError>
    ensures { OnOk result (string_bytes output.new
        ≡ string_bytes output.old ++ shown as_written entry.now) }
{
    if as_written {
        output.push_str(entry.text)
    } else {
        write_bare(&entry.version, output)
    }
}

// Writes a version without its build metadata.
fn write_bare(version: &VersionRef<'_>, output: &mut String) -> Result<(), AllocError>
    ensures { OnOk result (string_bytes output.new ≡ string_bytes output.old ++ bare version.now) }
{
    let (major, minor, patch) = (version.major(), version.minor(), version.patch());
    write!(output, "{major}.{minor}.{patch}")?;
    write_marked("-", version.pre_release(), output)
}

/// Writes a mark and identifiers joined by dots, or nothing where there are none.
pub fn write_marked(
    first: &'static str,
    ids: IdentifierRefs<'_>,
    output: &mut String,
) -> Result<(), AllocError>
    ensures { OnOk result (string_bytes output.new
        ≡ string_bytes output.old ++ marked_list first.now ids.entry) }
{
    let mut mark = first;
    let mut others = ids;
    'ids: while let Some(id) = others.next() {
        write!(output, "{mark}{id}")?;
        mark = ".";
    }
    Ok(())
}
