// The subcommand that prints the one range of a set of versions.

ghost use Rattle.std.specs.Prelude.{◌≡◌, ◌∷◌, [], IfOk, codes, is_some, map, option_map};
ghost use Rattle.std.specs.Prelude.{string_bytes};
ghost use Rattle.nodejs_semver.specs.Printing.Text.{range_text};
ghost use Rattle.semver_core.specs.Failures.{NoValue, RefusedOnlyIf};
ghost use Rattle.npm_semver.specs.Internal.Said.{said};
ghost use Rattle.npm_semver.specs.Subcommands as Spec;
ghost use Rattle.npm_semver.specs.Subcommands.{Answers};

use crate::subcommands::ranges::read_range;
use crate::subcommands::replies::{Reply, Trouble, answer, bare};
use key_spans::ranges;
use nodejs_semver::{Failure, Range};
use std::alloc::{AllocError, Global};

/// `simplify R` prints a range that accepts the same versions as R, and the same text for each
/// range that does. If the range accepts no version, nothing is printed, and the answer is no.
/// Returns `Refused` exactly if there is not one word, or it is no range.
pub fn simplify<'a>(alloc: Global, words: &'a [String]) -> Result<Reply<'a>, Failure<Trouble<'a>>>
    ensures ok { IfOk result (λ reply.
        Answers (codes "simplify" ∷ map string_bytes words.now) (said reply)) }
    ensures refused { RefusedOnlyIf result
        (NoValue (Answers (codes "simplify" ∷ map string_bytes words.now))) }
{
    match words {
        [text] => simple(alloc, text),
        _ => Err(Failure::Refused(Trouble::Usage("simplify RANGE"))),
    }
}

#[tactic(auto, using(crate::proofs::Simplified::no_simplified))]
fn simple<'a>(alloc: Global, text: &'a str) -> Result<Reply<'a>, Failure<Trouble<'a>>>
    ensures ok { IfOk result (λ reply. Answers (codes "simplify" ∷ text.now ∷ []) (said reply)) }
    ensures refused { RefusedOnlyIf result
        (NoValue (Answers (codes "simplify" ∷ text.now ∷ []))) }
{
    let range = read_range(alloc, text)?;
    let found = ranges::simplified(alloc, &range, false)?;
    Ok(shown(alloc, &found)?)
}

// A range on a line, or no.
fn shown<'a>(alloc: Global, found: &Option<Range>) -> Result<Reply<'a>, AllocError>
    ensures { IfOk result (λ r.
        said r ≡ Spec.reply (is_some found.now) (option_map range_text found.now)) }
{
    let Some(range) = found else {
        return Ok(bare(alloc, false));
    };
    let mut output = String::new(alloc);
    writeln!(output, "{range}")?;
    Ok(answer(true, output))
}
