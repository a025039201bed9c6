//! An index of the versions of packages, in a file of SQLite.
//!
//! `registry_index FILE load LINES` puts lines into the index, `best` prints the greatest version
//! of a package that a range accepts, `all` all of them, and `behind` how many versions are newer
//! than one, and the newest. The page `docs/KEYS.md` of the repository describes the table.
//!
//! It exits with 0 if it prints an answer or has loaded the lines, with 1 if the index has no such
//! version, and with 2 if something is refused or fails. Then the index is as it was.
#![tactic(auto)]

mod command;
mod index;
mod input;
mod line;
mod load;
mod query;
mod request;
mod search;
mod trouble;

use anyhow::Result;
use std::env;
use std::process::ExitCode;

const USAGE: &str = "usage: registry_index FILE load LINES
       registry_index FILE best PACKAGE RANGE
       registry_index FILE all PACKAGE RANGE
       registry_index FILE behind PACKAGE VERSION";

// The exit status if something is refused or fails.
const TROUBLE: u8 = 2;

fn main(rt: HostRuntime) -> Result<ExitCode> {
    let error = match run(&rt) {
        Ok(code) => return Ok(code),
        Err(error) => error,
    };
    eprintln!(rt; "Error: {error:#}")?;
    Ok(ExitCode::from(TROUBLE))
}

fn run(rt: &HostRuntime) -> Result<ExitCode> {
    let arguments: Vec<String> = env::args(rt)?.collect(rt.alloc())?;
    answer(rt, &arguments)
}

// Does what the arguments ask for, and returns the exit status. The first one names the program.
fn answer(rt: &HostRuntime, arguments: &[String]) -> Result<ExitCode> {
    match arguments {
        [_, file, command, lines] if command.as_str() == "load" => command::load(rt, file, lines),
        [_, file, command, package, asked] => question(rt, file, command, package, asked),
        _ => usage(rt),
    }
}

fn question(
    rt: &HostRuntime,
    file: &str,
    command: &str,
    package: &str,
    asked: &str,
) -> Result<ExitCode> {
    match command {
        "best" => command::best(rt, file, package, asked),
        "all" => command::all(rt, file, package, asked),
        "behind" => command::behind(rt, file, package, asked),
        _ => usage(rt),
    }
}

fn usage(rt: &HostRuntime) -> Result<ExitCode> {
    eprintln!(rt; "{USAGE}")?;
    Ok(ExitCode::from(TROUBLE))
}
