// The subcommands: questions that npm's program does not answer.

ghost use Rattle.std.specs.Prelude.{◌≡◌, ◌∷◌, IfNone, IfOk, IfSome, false, map};
ghost use Rattle.std.specs.Prelude.{string_bytes};
ghost use Rattle.semver_core.specs.Failures.{NoValue, RefusedOnlyIf};
ghost use Rattle.npm_semver.specs.Subcommands.{Answers, IsAnswer, IsInAscii, IsReply, is_dash};
ghost use Rattle.npm_semver.specs.Subcommands.{is_subcommand, takes_input};
ghost use Rattle.npm_semver.specs.Internal.Said.{name_of, said};

mod explanation;
mod keys;
mod pages;
mod parts;
mod ranges;
mod replies;
mod simplify;
mod spans;
mod versions;

use crate::subcommands::explanation::explain;
use crate::subcommands::keys::{key, key_lines, unkey};
use crate::subcommands::pages::{about, help};
use crate::subcommands::parts::{get, valid};
use crate::subcommands::ranges::{least, range};
pub use crate::subcommands::replies::{Reply, Status, Trouble};
use crate::subcommands::simplify::simplify;
use crate::subcommands::spans::{spans, sql};
use crate::subcommands::versions::{compare, diff, next};
use nodejs_semver::Failure;
use std::alloc::{AllocError, Global};

/// A question of its own, which the first argument names.
#[derive(Clone, Copy)]
pub enum Subcommand {
    /// How two versions compare.
    Compare,
    /// The kind of difference between two versions.
    Diff,
    /// The next version.
    Next,
    /// A range in its normal form, or an operation on two.
    Range,
    /// The smallest version that all ranges accept.
    Least,
    /// A drawing of a range.
    Explain,
    /// A part of a version.
    Get,
    /// Whether a text is a version.
    Valid,
    /// The keys of versions.
    Key,
    /// The versions of keys.
    Unkey,
    /// The spans of keys of a range.
    Spans,
    /// A condition of SQL for a range.
    Sql,
    /// The one range of a set of versions.
    Simplify,
    /// The text of `--help`.
    Help,
    /// The name of the program and its version.
    About,
}

impl Subcommand {
    /// The subcommand that a word names.
    pub fn of(word: &str) -> Option<Subcommand>
        ensures some { IfSome result (λ subcommand. name_of subcommand ≡ word.now) }
        ensures none { IfNone result (is_subcommand word.now ≡ false) }
    {
        match word {
            "compare" => Some(Subcommand::Compare),
            "diff" => Some(Subcommand::Diff),
            "next" => Some(Subcommand::Next),
            "range" => Some(Subcommand::Range),
            "least" => Some(Subcommand::Least),
            "explain" => Some(Subcommand::Explain),
            "get" => Some(Subcommand::Get),
            "valid" => Some(Subcommand::Valid),
            "key" => Some(Subcommand::Key),
            "unkey" => Some(Subcommand::Unkey),
            "spans" => Some(Subcommand::Spans),
            "sql" => Some(Subcommand::Sql),
            "simplify" => Some(Subcommand::Simplify),
            "help" => Some(Subcommand::Help),
            "about" => Some(Subcommand::About),
            _ => None,
        }
    }

    /// Whether the subcommand takes the lines of the input, with these words behind its name.
    pub fn takes_input(self, words: &[String]) -> bool
        ensures { result ≡ takes_input (name_of self ∷ map string_bytes words.now) }
    {
        match self {
            Subcommand::Key => is_dash(words),
            _ => false,
        }
    }

    /// What the subcommand prints for the words behind its name and for the input, and the exit
    /// status. Where the locale has no UTF-8, drawings are ASCII. Fails only if allocation fails.
    pub fn reply<'a>(
        self,
        alloc: Global,
        words: &'a [String],
        input: &'a str,
        is_utf8: bool,
    ) -> Result<Reply<'a>, AllocError>
        ensures { IfOk result (λ reply.
            IsReply input.now is_utf8 (name_of self ∷ map string_bytes words.now) (said reply)) }
    {
        match self.answer(alloc, words, input, is_utf8) {
            Ok(reply) => Ok(reply),
            Err(Failure::Refused(trouble)) => Ok(Reply {
                output: String::new(alloc),
                trouble: Some(trouble),
                status: Status::Malformed,
            }),
            Err(Failure::Memory(error)) => Err(error),
        }
    }

    // Answers a question that is well formed.
    #[tactic(auto, using(crate::proofs::Keyed::answers))]
    fn answer<'a>(
        self,
        alloc: Global,
        words: &'a [String],
        input: &'a str,
        is_utf8: bool,
    ) -> Result<Reply<'a>, Failure<Trouble<'a>>>
        ensures ok { IfOk result (λ reply.
            IsAnswer input.now (name_of self ∷ map string_bytes words.now) (said reply)) }
        ensures ascii { is_utf8 ≡ false → IfOk result (λ reply.
            IsInAscii (name_of self ∷ map string_bytes words.now) (said reply)) }
        ensures refused { RefusedOnlyIf result
            (NoValue (IsAnswer input.now (name_of self ∷ map string_bytes words.now))) }
    {
        if self.takes_input(words) {
            return key_lines(alloc, input);
        }
        self.answer_words(alloc, words, is_utf8)
    }

    // Answers a question that its words alone ask.
    fn answer_words<'a>(
        self,
        alloc: Global,
        words: &'a [String],
        is_utf8: bool,
    ) -> Result<Reply<'a>, Failure<Trouble<'a>>>
        ensures ok { IfOk result (λ reply.
            Answers (name_of self ∷ map string_bytes words.now) (said reply)) }
        ensures ascii { is_utf8 ≡ false → IfOk result (λ reply.
            IsInAscii (name_of self ∷ map string_bytes words.now) (said reply)) }
        ensures refused { RefusedOnlyIf result
            (NoValue (Answers (name_of self ∷ map string_bytes words.now))) }
    {
        match self {
            Subcommand::Compare => compare(alloc, words),
            Subcommand::Diff => diff(alloc, words),
            Subcommand::Next => next(alloc, words),
            Subcommand::Range => range(alloc, words),
            Subcommand::Least => least(alloc, words),
            Subcommand::Explain => explain(alloc, words, is_utf8),
            Subcommand::Get => get(alloc, words),
            Subcommand::Valid => valid(alloc, words),
            Subcommand::Key => key(alloc, words),
            Subcommand::Unkey => unkey(alloc, words),
            Subcommand::Spans => spans(alloc, words),
            Subcommand::Sql => sql(alloc, words),
            Subcommand::Simplify => simplify(alloc, words),
            Subcommand::Help => help(alloc, words),
            Subcommand::About => about(alloc, words),
        }
    }
}

// Whether `-` is the only word.
#[tactic(auto, using(crate::proofs::Keyed::no_dash))]
fn is_dash(words: &[String]) -> bool
    ensures { result ≡ is_dash (map string_bytes words.now) }
{
    match words {
        [word] => word.as_str() == "-",
        _ => false,
    }
}
