// The program as a function of its arguments, its input and the locale.

ghost use Rattle.std.specs.Prelude.{◌≡◌, ◌∷◌, ◌++◌, ℕ, List, IfNone, IfOk, IfSome, OnOk};
ghost use Rattle.std.specs.Prelude.{false, is_some, map, not, string_bytes};
ghost use Rattle.npm_semver.specs.Internal.Commands.{IsCommand, IsSaid, IsWritten, outcome};
ghost use Rattle.npm_semver.specs.Internal.Commands as Internal;
ghost use Rattle.npm_semver.specs.Internal.Said.{name_of, said};
ghost use Rattle.npm_semver.specs.Internal.Written.{written};
ghost use Rattle.npm_semver.specs.Outcomes.{IsOutcome, IsTold, has_subcommand};

use crate::question::Request;
use crate::run::{Response, respond};
use crate::subcommands::{Reply, Subcommand};
use std::alloc::{AllocError, Global};
use std::fmt::Display;

/// What the program writes, and its exit status.
#[derive(Drop)]
pub struct Outcome {
    /// The text for standard output.
    pub output: String,
    /// The text for standard error.
    pub errors: String,
    /// The exit status.
    pub status: u8,
}

impl Outcome {
    // What is written where a subcommand says this.
    fn of_reply(alloc: Global, reply: Reply<'_>) -> Result<Outcome, AllocError>
        ensures { IfOk result (λ o. IsSaid (said reply.entry) (outcome o)) }
    {
        let Reply {
            output,
            trouble,
            status,
        } = reply;
        let mut errors = String::new(alloc);
        tell(alloc, &trouble, &mut errors)?;
        let status = status.code();
        Ok(Outcome {
            output,
            errors,
            status,
        })
    }

    // What is written for a response.
    fn of_response(alloc: Global, response: Response<'_>) -> Result<Outcome, AllocError>
        ensures { IfOk result (λ o.
            IsWritten (written response.entry) (string_bytes response.entry.told) (outcome o)) }
    {
        let Response {
            output,
            told,
            refusal,
            is_success,
        } = response;
        let mut errors = told;
        tell(alloc, &refusal, &mut errors)?;
        let status = if is_success { 0 } else { 1 };
        Ok(Outcome {
            output,
            errors,
            status,
        })
    }
}

/// What the arguments behind the program's name ask.
#[derive(Drop)]
pub enum Command<'a> {
    /// A subcommand, and the words behind its name.
    Subcommand(Subcommand, &'a [String]),
    /// Versions, or the text of `--help`.
    Request(Request<'a>),
}

impl<'a> Command<'a> {
    /// What arguments ask: the first may name a subcommand. Fails only if allocation fails.
    pub fn of(alloc: Global, arguments: &'a [String]) -> Result<Command<'a>, AllocError>
        ensures { IfOk result (IsCommand (map string_bytes arguments.now)) }
    {
        match subcommand(arguments) {
            Some((subcommand, words)) => Ok(Command::Subcommand(subcommand, words)),
            None => Ok(Command::Request(Request::of(alloc, arguments)?)),
        }
    }

    /// Whether versions are asked for, and no subcommand.
    pub fn asks_versions(&self) -> bool
        ensures { (arguments : List (List ℕ)) → IsCommand arguments self.now
            → result ≡ not (has_subcommand arguments) }
    {
        matches!(self, Command::Request(_))
    }

    /// Whether the input counts.
    pub fn reads_input(&self) -> bool
        ensures { result ≡ Internal.reads_input self.now }
    {
        match self {
            Command::Subcommand(subcommand, words) => subcommand.takes_input(words),
            Command::Request(request) => request.reads_input(),
        }
    }

    /// What the program writes if this is the input. Where the locale has no UTF-8, drawings are
    /// ASCII. Fails only if allocation fails.
    pub fn answer(self, alloc: Global, input: &'a str, is_utf8: bool) -> Result<Outcome, AllocError>
        ensures { IfOk result (λ o. (arguments : List (List ℕ)) → IsCommand arguments self.entry
            → IsOutcome arguments input.now is_utf8 (outcome o)) }
    {
        match self {
            Command::Subcommand(subcommand, words) => {
                Outcome::of_reply(alloc, subcommand.reply(alloc, words, input, is_utf8)?)
            }
            Command::Request(request) => {
                let request = request.with_records(alloc, input)?;
                Outcome::of_response(alloc, respond(alloc, &request)?)
            }
        }
    }
}

/// What the program writes for the arguments behind its name, for the input, which counts only if
/// the arguments ask for it, and for a locale that has UTF-8 or has not. Fails only if allocation
/// fails.
pub fn run(
    alloc: Global,
    arguments: &[String],
    input: &str,
    is_utf8: bool,
) -> Result<Outcome, AllocError>
    ensures { IfOk result (λ o.
        IsOutcome (map string_bytes arguments.now) input.now is_utf8 (outcome o)) }
{
    let command = Command::of(alloc, arguments)?;
    command.answer(alloc, input, is_utf8)
}

// The subcommand that the first argument names, and the words behind it.
fn subcommand(arguments: &[String]) -> Option<(Subcommand, &[String])>
    ensures some { IfSome result (λ found. map string_bytes arguments.now
        ≡ name_of found.0 ∷ map string_bytes found.1.now) }
    ensures none { IfNone result (has_subcommand (map string_bytes arguments.now) ≡ false) }
{
    let (word, words) = arguments.split_first()?;
    let subcommand = Subcommand::of(word)?;
    Some((subcommand, words))
}

// Appends a line that tells an error, if there is one.
fn tell<E: Display>(alloc: Global, error: &Option<E>, errors: &mut String) -> Result<(), AllocError>
    ensures { OnOk result ((line : List ℕ) × IsTold (is_some error.now) line
        × (string_bytes errors.new ≡ string_bytes errors.old ++ line)) }
{
    let Some(error) = error else {
        return Ok(());
    };
    let mut words = String::new(alloc);
    write!(words, "{error}")?;
    errors.push_str("semver: ")?;
    errors.push_str(&words)?;
    errors.push('\n')
}
