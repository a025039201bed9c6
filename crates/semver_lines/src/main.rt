//! Answers questions about versions and ranges, one a line: reads the lines from standard input and
//! writes the answers to standard output. It takes no arguments. It exits with 0, or with 1 if
//! reading, writing or an allocation failed.
#![tactic(auto)]

use semver_answers::run::run;
use std::process::ExitCode;

fn main(rt: HostRuntime) -> ExitCode {
    match run(rt.alloc(), &mut rt.stdin(), &mut rt.stdout()) {
        Ok(()) => ExitCode::SUCCESS,
        Err(_) => ExitCode::FAILURE,
    }
}
