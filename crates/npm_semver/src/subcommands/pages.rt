// The subcommands that tell of the program.

ghost use Rattle.std.specs.Prelude.{◌≡◌, ◌∷◌, IfOk, codes, map, string_bytes};
ghost use Rattle.semver_core.specs.Failures.{NoValue, RefusedOnlyIf};
ghost use Rattle.npm_semver.specs.Subcommands.{Answers};
ghost use Rattle.npm_semver.specs.Internal.Said.{said};

use crate::help::HELP;
use crate::subcommands::replies::{Reply, Trouble, answer};
use nodejs_semver::Failure;
use std::alloc::Global;

/// The name of the program and its version.
pub const ABOUT: &str = "semver 1.0.0\n";

/// `help` prints the text of `--help`. Returns `Refused` exactly if there are words.
#[tactic(auto, using(crate::proofs::Keyed::pages))]
pub fn help<'a>(alloc: Global, words: &'a [String]) -> Result<Reply<'a>, Failure<Trouble<'a>>>
    ensures ok { IfOk result (λ reply.
        Answers (codes "help" ∷ map string_bytes words.now) (said reply)) }
    ensures refused { RefusedOnlyIf result
        (NoValue (Answers (codes "help" ∷ map string_bytes words.now))) }
{
    match words {
        [] => Ok(answer(true, String::from_str(alloc, HELP)?)),
        _ => Err(Failure::Refused(Trouble::Usage("help"))),
    }
}

/// `about` prints the name of the program and its version. Returns `Refused` exactly if there are
/// words.
#[tactic(auto, using(crate::proofs::Keyed::pages))]
pub fn about<'a>(alloc: Global, words: &'a [String]) -> Result<Reply<'a>, Failure<Trouble<'a>>>
    ensures ok { IfOk result (λ reply.
        Answers (codes "about" ∷ map string_bytes words.now) (said reply)) }
    ensures refused { RefusedOnlyIf result
        (NoValue (Answers (codes "about" ∷ map string_bytes words.now))) }
{
    match words {
        [] => Ok(answer(true, String::from_str(alloc, ABOUT)?)),
        _ => Err(Failure::Refused(Trouble::Usage("about"))),
    }
}
