//! npm's command `semver`: prints the versions among its arguments that all given ranges accept, in
//! ascending order, or the next version. It exits with 0 if it prints something, and else with 1.
#![tactic(auto)]

mod arguments;
mod caret;
mod command;
mod entry;
mod help;
mod hint;
mod laws;
mod listing;
mod locale;
mod pipe;
mod question;
mod reading;
mod refusal;
mod run;
mod subcommands;
mod why;

use crate::command::Command;
use crate::locale::shows_utf8;
use crate::pipe::unless_closed;
use anyhow::Result;
use std::io::IsTerminal;
use std::process::ExitCode;
use std::{env, io};

fn main(rt: HostRuntime) -> Result<ExitCode> {
    let alloc = rt.alloc();
    let is_utf8 = shows_utf8(&rt)?;
    let arguments: Vec<String> = env::args(&rt)?.skip(1).collect(alloc)?;
    let command = Command::of(alloc, &arguments)?;
    let input = if command.reads_input() {
        io::read_to_string(alloc, rt.stdin())?
    } else {
        String::new(alloc)
    };
    let is_watched = command.asks_versions() && rt.stderr().is_terminal();
    let outcome = command.answer(alloc, &input, is_utf8)?;
    let outcome = outcome.with_hint(alloc, is_watched)?;
    eprint!(rt; "{}", outcome.errors)?;
    let written = print!(rt; "{}", outcome.output);
    unless_closed(written)?;
    Ok(ExitCode::from(outcome.status))
}
