//! Checks a lock file of npm: names each dependency whose locked version its range rejects, each
//! locked version that is not one version as a whole, with the byte where it goes wrong, each range
//! text of which nothing is read, and each package that is missing or comes from another place than
//! the one that is wanted. It is meant to find what `npm ls --package-lock-only --all` finds. The
//! page `docs/LOCK_CHECK.md` of the repository says which fields it reads, what it skips and where
//! npm finds something else.
//!
//! `--help` and `--version` tell about the program. Any other argument, of which it takes one, is
//! a path. In a folder it reads `npm-shrinkwrap.json`, or else `package-lock.json`, and
//! `package.json`; of another file, which is the lock file, the `package.json` beside it. Without
//! an argument, and for `-`, the lock file is standard input; so it is too if the path is that of a
//! `package.json`. The `package.json` is the root project, as it is to npm, with its `overrides`,
//! which a lock file does not hold; a lock file of lockfileVersion 1 does not name the dependencies
//! of the root project either. Without it the root project is what the lock file has under the
//! empty folder.
//!
//! It exits with 0 if every dependency is satisfied, absent by leave or skipped, with 1 if one is
//! not, and with 2 if the check could not be made or is not whole: the input is no lock file, a
//! field of it is malformed, or reading, writing or an allocation failed. A malformed field is
//! named, and hides nothing of the other fields.
//!
//! A lock file may come from anyone. What is printed of it stands on one line, in printable ASCII:
//! all other characters, quotes and backslashes are escaped, as `\u{1b}`.
//!
//! Ranges and versions are read as npm's library node-semver reads them. A text that it rejects is
//! no range but a tag or an error, as to npm. A dependency is skipped if node-semver may find
//! another range in its text than is found here, as in `>*1.2.3`.
#![tactic(auto)]

ghost use Rattle.lock_check.specs.Answers.{IsReportOf};
ghost use Rattle.serde_json.specs.View.{view};
ghost use Rattle.std.specs.Prelude.{IfOk, option_map, string_bytes};

mod annotation;
mod check;
mod finding;
mod help;
mod index;
mod json;
mod options;
mod outlook;
mod outlook_row;
mod overrides;
mod raises;
mod reading;
mod report;
mod row;
mod scopes;
mod verdict;

use crate::check::{Findings, check};
use crate::help::{HELP, USAGE, VERSION};
use crate::index::Index;
use crate::options::{Format, Misuse, Options, Request};
use crate::outlook::{Outlook, Totals, outlooks};
use crate::outlook_row::{outlook_rows, write_outlooks, write_totals};
use crate::report::{Report, report_on, write_rows};
use crate::row::fault_rows;
use anyhow::{Context, Result, anyhow};
use lock_files::{Input, Lines, Lock, LockFile, Packages, Shown, read, unmarked};
use nodejs_semver::Failure;
use std::alloc::{AllocError, Global};
use std::io::Write;
use std::process::ExitCode;
use std::{env, fs};

// The exit status if the check could not be made, or is not whole.
const TROUBLE: u8 = 2;

fn main(rt: HostRuntime) -> Result<ExitCode> {
    let error = match run(&rt) {
        Ok(code) => return Ok(code),
        Err(error) => error,
    };
    eprintln!(rt; "Error: {error:?}")?;
    Ok(ExitCode::from(TROUBLE))
}

fn run(rt: &HostRuntime) -> Result<ExitCode> {
    let words = words(rt)?;
    match Request::of(&words) {
        Ok(request) => answer(rt, request),
        Err(misuse) => refuse(rt, misuse),
    }
}

// The arguments behind the name of the program.
fn words(rt: &HostRuntime) -> Result<Vec<String>> {
    let mut words = Vec::new(rt.alloc());
    for word in env::args(rt)?.skip(1) {
        words.push(word)?;
    }
    Ok(words)
}

// Prints what is asked for, and returns the exit status.
fn answer(rt: &HostRuntime, request: Request<'_>) -> Result<ExitCode> {
    match request {
        Request::Help => print!(rt; "{VERSION}{HELP}")?,
        Request::Version => print!(rt; "{VERSION}")?,
        Request::Check(options) => {
            let input = read(rt, options.path)?;
            return tell(rt, input, options);
        }
    }
    Ok(ExitCode::SUCCESS)
}

// Prints why nothing is asked for, and returns the exit status.
fn refuse(rt: &HostRuntime, misuse: Misuse<'_>) -> Result<ExitCode> {
    eprintln!(rt; "Error: {misuse}\n{USAGE}")?;
    Ok(ExitCode::from(TROUBLE))
}

// Prints what is found, and returns the exit status.
fn tell(rt: &HostRuntime, input: Input, options: Options<'_>) -> Result<ExitCode> {
    let Report { output, status } = match options.index {
        Some(index) => outdated(rt, input, index, options)?,
        None => report_of(rt.alloc(), input, options)?,
    };
    let mut stdout = rt.stdout();
    stdout.write_all(output.as_bytes())?;
    stdout.flush()?;
    Ok(ExitCode::from(status))
}

// The report on the lock file and the `package.json` beside it.
fn report_of(alloc: Global, input: Input, options: Options<'_>) -> Result<Report>
    ensures { IfOk result (IsReportOf (view input.lock.fields)
        (option_map view input.manifest) (string_bytes input.lock.name)
        options.entry.format options.entry.is_quiet) }
{
    let Input { lock, manifest } = input;
    let LockFile { name, text, fields } = lock;
    let packages = Packages::of(alloc, fields, manifest)?;
    let lock = packages.lock();
    Ok(report_on(alloc, lock, &name, unmarked(&text), options)?)
}

// What the locked versions may be raised to by the index at a path, and what is malformed.
fn outdated(rt: &HostRuntime, input: Input, path: &str, options: Options<'_>) -> Result<Report> {
    let Input { lock, manifest } = input;
    let LockFile { name, text, fields } = lock;
    let packages = Packages::of(rt.alloc(), fields, manifest)?;
    let index_text = index_text(rt, path)?;
    let index = index_in(rt.alloc(), unmarked(&index_text), path)?;
    let file = Outlined {
        name: &name,
        text: unmarked(&text),
        lock: packages.lock(),
    };
    Ok(outlook_report(rt.alloc(), file, &index, options)?)
}

// A lock file with its name and its text.
#[derive(Clone, Copy)]
struct Outlined<'a> {
    name: &'a str,
    text: &'a str,
    lock: Lock<'a>,
}

// The report on a lock file beside an index. Fails only if allocation fails.
fn outlook_report(
    alloc: Global,
    file: Outlined<'_>,
    index: &Index<'_>,
    options: Options<'_>,
) -> Result<Report, AllocError> {
    let findings = check(alloc, file.lock)?;
    let lines = Lines::of(alloc, file.text, file.lock.is_nested)?;
    let mut output = String::new(alloc);
    write_faults(
        alloc,
        file.name,
        &findings,
        &lines,
        options.format,
        &mut output,
    )?;
    let outlooks = outlooks(alloc, file.lock, index, &findings.of_dependencies)?;
    let totals = Totals::of(file.lock, &outlooks, findings.faults.len());
    write_outlook_rows(alloc, file.name, &outlooks, &lines, options, &mut output)?;
    if !options.is_quiet {
        write_totals(alloc, totals, options.format == Format::Json, &mut output)?;
    }
    Ok(Report {
        output,
        status: totals.exit_status(),
    })
}

// Writes what is malformed.
fn write_faults(
    alloc: Global,
    name: &str,
    findings: &Findings<'_>,
    lines: &Lines,
    format: Format,
    output: &mut String,
) -> Result<(), AllocError> {
    let faults = fault_rows(alloc, &findings.faults, lines)?;
    write_rows(alloc, format, name, &faults, output)
}

// Writes what is told of each dependency.
fn write_outlook_rows(
    alloc: Global,
    name: &str,
    outlooks: &[Outlook<'_, '_, '_>],
    lines: &Lines,
    options: Options<'_>,
    output: &mut String,
) -> Result<(), AllocError> {
    let rows = outlook_rows(alloc, outlooks, lines, options.is_quiet)?;
    write_outlooks(alloc, options.format == Format::Json, name, &rows, output)
}

// The index in a text. A line that it does not take is an error.
fn index_in<'a>(alloc: Global, text: &'a str, path: &str) -> Result<Index<'a>> {
    match Index::of(alloc, text) {
        Ok(index) => Ok(index),
        Err(Failure::Refused(line)) => Err(anyhow!("{}, {line}", Shown(path))),
        Err(Failure::Memory(error)) => Err(error.into()),
    }
}

// The text of the index at a path.
fn index_text(rt: &HostRuntime, path: &str) -> Result<String> {
    let text = fs::read_to_string(rt, path);
    text.context(format_args!("{} cannot be read", Shown(path)))
}
