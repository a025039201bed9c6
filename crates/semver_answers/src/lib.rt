//! Answers questions about versions and ranges, one a line: `run::run` reads the lines from any
//! reader and writes the answers to any writer. The program `semver_lines` runs it on standard
//! input and output.
#![tactic(auto)]

mod answer;
mod best;
mod command;
mod fault;
mod fields;
mod names;
mod output;
mod pair;
mod parsed;
mod parts;
mod put;
mod question;
mod reply;
pub mod run;
