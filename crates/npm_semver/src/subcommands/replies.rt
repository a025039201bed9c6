// What a subcommand answers, and why it does not.

ghost use Rattle.std.specs.Prelude.{◌≡◌, [], IfOk, None, Some, if◌then◌else◌, string_bytes};
ghost use Rattle.semver_core.specs.Printing.Text.{version_text};
ghost use Rattle.npm_semver.specs.Subcommands as Spec;
ghost use Rattle.npm_semver.specs.Subcommands.{say};
ghost use Rattle.npm_semver.specs.declared.subcommands.replies.Status.TheVariants.{Yes, No};
ghost use Rattle.npm_semver.specs.Internal.Said.{said, told_of};

use crate::caret::Marked;
use nodejs_semver::{IncrementError, Version};
use std::alloc::{AllocError, Global};
use thiserror::Error;

/// What the answer is: the exit status.
#[derive(Clone, Copy)]
pub enum Status {
    /// Yes, or there is an answer: 0.
    Yes,
    /// No, or there is none: 1.
    No,
    /// The question is malformed: 2.
    Malformed,
}

impl Status {
    /// The exit status, as `grep` has it.
    pub fn code(self) -> u8
        ensures { result ≡ Spec.exit_status self }
    {
        match self {
            Status::Yes => 0,
            Status::No => 1,
            Status::Malformed => 2,
        }
    }
}

/// What a subcommand writes, and its exit status.
#[derive(Drop)]
pub struct Reply<'a> {
    /// The text for standard output.
    pub output: String,
    /// What is wrong, for standard error.
    pub trouble: Option<Trouble<'a>>,
    /// The exit status.
    pub status: Status,
}

/// Why a question has no answer.
#[derive(Debug, Drop, Error)]
pub enum Trouble<'a> {
    #[error("usage: semver {0}")]
    Usage(&'static str),
    #[error("{0}")]
    NoVersion(Marked<'a>),
    #[error("{0}")]
    NoRange(Marked<'a>),
    #[error("no key of a version that npm reads: {0:?}")]
    NoKey(&'a str),
    #[error("no part: {0:?} (one of major, minor, patch, prerelease and build)")]
    NoPart(&'a str),
    #[error("no comparison: {0:?} (one of < <= = != >= > and lt le eq ne ge gt)")]
    NoRelation(&'a str),
    #[error("no column: {0:?} (names of letters, digits and _, with dots between)")]
    NoColumn(&'a str),
    #[error("no dialect: {0:?} (one of sqlite, postgres, duckdb and mysql)")]
    NoDialect(&'a str),
    #[error("no operation: {0:?} (one of and, minus and within)")]
    NoOperation(&'a str),
    #[error("no next version: {0}")]
    NotIncremented(IncrementError),
    #[error("no next version: it would not be above the given one")]
    NotAbove,
}

/// Yes or no, with what is printed.
pub fn answer<'a>(is_yes: bool, output: String) -> Reply<'a>
    ensures { said result ≡ say (string_bytes output) None (if is_yes then Yes else No) }
{
    Reply {
        output,
        trouble: None,
        status: if is_yes { Status::Yes } else { Status::No },
    }
}

/// Yes or no, and nothing is printed.
pub fn bare<'a>(alloc: Global, is_yes: bool) -> Reply<'a>
    ensures { said result ≡ Spec.reply is_yes None }
{
    answer(is_yes, String::new(alloc))
}

/// Yes or no, with a version on a line.
pub fn line<'a>(alloc: Global, is_yes: bool, version: &Version) -> Result<Reply<'a>, AllocError>
    ensures { IfOk result (λ r. said r ≡ Spec.reply is_yes (Some (version_text version.now))) }
{
    let mut output = String::new(alloc);
    writeln!(output, "{version}")?;
    Ok(answer(is_yes, output))
}

/// Nothing is printed, and this is told.
pub fn troubled<'a>(alloc: Global, status: Status, trouble: Trouble<'a>) -> Reply<'a>
    ensures { said result ≡ say [] (Some (told_of trouble.entry)) status }
{
    Reply {
        output: String::new(alloc),
        trouble: Some(trouble),
        status,
    }
}
