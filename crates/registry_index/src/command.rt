// What the commands ask. Each returns the exit status, which tells whether there is an answer.

use crate::input::Input;
use crate::line::{key_of, refusal};
use crate::query::spans_of;
use crate::request::{Answer, Request, ask};
use crate::trouble::Trouble;
use anyhow::{Context, Result, anyhow};
use key_spans::KeySpan;
use npm_reading::range_flaw;
use sqlite::Connection;
use std::alloc::Global;
use std::fs::{self, File};
use std::io::{BufRead, BufReader, BufWriter, Write};
use std::process::ExitCode;

/// Puts the lines of a file into the index, or those of standard input for `-`, in one transaction.
pub fn load(rt: &HostRuntime, file: &str, lines: &str) -> Result<ExitCode> {
    if lines == "-" {
        return load_from(rt, file, "standard input", Input::Standard(rt.stdin()));
    }
    let input = File::open(rt, lines).context(format_args!("{lines:?} cannot be read"))?;
    load_from(rt, file, lines, Input::File(input))
}

// Puts the lines of an input into the index, which is told by this name if one of them is refused.
fn load_from(rt: &HostRuntime, file: &str, name: &str, input: Input) -> Result<ExitCode> {
    let mut lines = BufReader::new(rt.alloc(), input)?.lines(rt.alloc());
    answer(rt, file, name, Request::Load(&mut lines))
}

/// Prints the greatest version of a package that a range accepts.
pub fn best(rt: &HostRuntime, file: &str, package: &str, range: &str) -> Result<ExitCode> {
    let spans = read_spans(rt.alloc(), range)?;
    answer_of_file(rt, file, Request::Best(package, &spans))
}

/// Prints all versions of a package that a range accepts, in ascending order.
pub fn all(rt: &HostRuntime, file: &str, package: &str, range: &str) -> Result<ExitCode> {
    let spans = read_spans(rt.alloc(), range)?;
    answer_of_file(rt, file, Request::All(package, &spans))
}

/// Prints how many versions of a package are newer than one, and the newest, if it has a version.
pub fn behind(rt: &HostRuntime, file: &str, package: &str, version: &str) -> Result<ExitCode> {
    match key_of(rt.alloc(), version)? {
        Some(key) => answer_of_file(rt, file, Request::Behind(package, &key)),
        None => Err(refusal(version)),
    }
}

fn read_spans(alloc: Global, range: &str) -> Result<Vec<KeySpan>> {
    match spans_of(alloc, range)? {
        Some(spans) => Ok(spans),
        None => match range_flaw(range, false) {
            Some(why) => Err(anyhow!("{range:?} is no range: {why}")),
            None => Err(anyhow!("{range:?} is no range")),
        },
    }
}

// The answer of an index in a file that is there.
fn answer_of_file(rt: &HostRuntime, file: &str, request: Request<'_>) -> Result<ExitCode> {
    if fs::exists(rt, file)? {
        answer(rt, file, "", request)
    } else {
        Err(anyhow!("{file:?}: no such file"))
    }
}

// Prints what an index answers.
fn answer(rt: &HostRuntime, file: &str, input: &str, request: Request<'_>) -> Result<ExitCode> {
    match open_and_ask(rt, file, request) {
        Ok(answer) => print(rt, &answer),
        Err(trouble) => Err(trouble.told(file, input)),
    }
}

fn open_and_ask(rt: &HostRuntime, file: &str, request: Request<'_>) -> Result<Answer, Trouble> {
    match Connection::open(rt, file) {
        Ok(conn) => ask(rt.alloc(), conn, request),
        Err(error) => Err(Trouble::Index(error)),
    }
}

fn print(rt: &HostRuntime, answer: &Answer) -> Result<ExitCode> {
    let mut output = BufWriter::new(rt.alloc(), rt.stdout())?;
    answer.write(&mut output)?;
    output.flush()?;
    Ok(answer.status())
}
