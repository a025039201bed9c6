// The subcommands on ranges: the normal form, two of them together, and the smallest version.

ghost use Rattle.std.specs.Prelude.{◌≡◌, ◌++◌, ◌∷◌, [], ℕ, List, IfNone, IfOk, IfSome, OnOk};
ghost use Rattle.std.specs.Prelude.{Some, codes, false, is_none, is_some, map, option_map};
ghost use Rattle.std.specs.Prelude.{string_bytes, true};
ghost use Rattle.semver_core.specs.Failures.{NoValue, RefusedOnlyIf};
ghost use Rattle.semver_core.specs.Printing.Text.{version_text};
ghost use Rattle.nodejs_semver.specs.Printing.Text.{range_text};
ghost use Rattle.npm_semver.specs.Subcommands as Spec;
ghost use Rattle.npm_semver.specs.Subcommands.{Answers, AreRanges, IsRange, IsShown};
ghost use Rattle.npm_semver.specs.Internal.Said.{is_operation, operation_name, said};

use crate::caret::Marked;
use crate::subcommands::replies::{Reply, Trouble, answer, bare, line};
use nodejs_semver::{Failure, RangeRef, Version};
use npm_reading::Reading;
use std::alloc::{AllocError, Global};

/// Reads a range as npm does.
#[tactic(auto, using(crate::proofs::Answered::no_range))]
pub fn read_range(alloc: Global, text: &str) -> Result<RangeRef<'_>, Failure<Trouble<'_>>>
    ensures ok { IfOk result (IsRange text.now) }
    ensures refused { RefusedOnlyIf result (NoValue (IsRange text.now)) }
{
    let strict = Reading {
        loose: false,
        include_prerelease: false,
    };
    match npm_reading::range(alloc, text, strict) {
        Ok(range) => Ok(range),
        Err(Failure::Refused(_)) => Err(Failure::Refused(Trouble::NoRange(Marked::no_range(
            text, false,
        )))),
        Err(Failure::Memory(error)) => Err(Failure::Memory(error)),
    }
}

/// `range R` prints the normal form of a range, and `range R and S` and `range R minus S` that of
/// the intersection and of the difference. If it accepts no version, nothing is printed, and the
/// answer is no. `range R within S` answers whether S accepts each version that R accepts, and else
/// prints the smallest that it does not accept. Returns `Refused` exactly if the words are none of
/// these.
pub fn range<'a>(alloc: Global, words: &'a [String]) -> Result<Reply<'a>, Failure<Trouble<'a>>>
    ensures ok { IfOk result (λ reply.
        Answers (codes "range" ∷ map string_bytes words.now) (said reply)) }
    ensures refused { RefusedOnlyIf result
        (NoValue (Answers (codes "range" ∷ map string_bytes words.now))) }
{
    match words {
        [text] => normal(alloc, text),
        [one, word, other] => together(alloc, one, word, other),
        _ => Err(Failure::Refused(Trouble::Usage("range RANGE [and|minus|within RANGE]"))),
    }
}

// The normal form of a range.
#[tactic(auto, using(crate::proofs::Answered::no_normal))]
fn normal<'a>(alloc: Global, text: &'a str) -> Result<Reply<'a>, Failure<Trouble<'a>>>
    ensures ok { IfOk result (λ reply. Answers (codes "range" ∷ text.now ∷ []) (said reply)) }
    ensures refused { RefusedOnlyIf result
        (NoValue (Answers (codes "range" ∷ text.now ∷ []))) }
{
    let range = Some(read_range(alloc, text)?);
    Ok(shown(alloc, &range)?)
}

// A range, if it accepts a version.
#[tactic(auto, using(crate::proofs::Answered::shown_none))]
fn shown<'a>(alloc: Global, found: &Option<RangeRef<'_>>) -> Result<Reply<'a>, AllocError>
    ensures { IfOk result (λ reply. IsShown found.now (said reply)) }
{
    let Some(range) = found else {
        return Ok(bare(alloc, false));
    };
    if range.min_version(alloc)?.is_none() {
        return Ok(bare(alloc, false));
    }
    Ok(printed(alloc, range)?)
}

fn printed<'a>(alloc: Global, range: &RangeRef<'_>) -> Result<Reply<'a>, AllocError>
    ensures { IfOk result (λ r. said r ≡ Spec.reply true (Some (range_text range.now))) }
{
    let mut output = String::new(alloc);
    writeln!(output, "{range}")?;
    Ok(answer(true, output))
}

// What is asked of two ranges.
#[derive(Clone, Copy)]
enum Operation {
    And,
    Minus,
    Within,
}

impl Operation {
    // The operation that a word names.
    fn of(word: &str) -> Option<Operation>
        ensures some { IfSome result (λ operation. operation_name operation ≡ word.now) }
        ensures none { IfNone result (is_operation word.now ≡ false) }
    {
        match word {
            "and" => Some(Operation::And),
            "minus" => Some(Operation::Minus),
            "within" => Some(Operation::Within),
            _ => None,
        }
    }

    // What is said of two ranges, each of any text.
    fn applied<'a, 'b>(
        self,
        alloc: Global,
        one: &RangeRef<'b>,
        other: &RangeRef<'b>,
    ) -> Result<Reply<'a>, AllocError>
        ensures { IfOk result (λ reply. (a b : List ℕ) → IsRange a one.now → IsRange b other.now
            → Answers (codes "range" ∷ a ∷ operation_name self ∷ b ∷ []) (said reply)) }
    {
        match self {
            Operation::And => and(alloc, one, other),
            Operation::Minus => minus(alloc, one, other),
            Operation::Within => within(alloc, one, other),
        }
    }
}

// An operation on the ranges of two texts.
#[tactic(auto, using(crate::proofs::Answered::no_operations))]
fn together<'a>(
    alloc: Global,
    one: &'a str,
    word: &'a str,
    other: &'a str,
) -> Result<Reply<'a>, Failure<Trouble<'a>>>
    ensures ok { IfOk result (λ reply.
        Answers (codes "range" ∷ one.now ∷ word.now ∷ other.now ∷ []) (said reply)) }
    ensures refused { RefusedOnlyIf result
        (NoValue (Answers (codes "range" ∷ one.now ∷ word.now ∷ other.now ∷ []))) }
{
    let Some(operation) = Operation::of(word) else {
        return Err(Failure::Refused(Trouble::NoOperation(word)));
    };
    let one = read_range(alloc, one)?;
    let other = read_range(alloc, other)?;
    Ok(operation.applied(alloc, &one, &other)?)
}

fn and<'a, 'b>(
    alloc: Global,
    one: &RangeRef<'b>,
    other: &RangeRef<'b>,
) -> Result<Reply<'a>, AllocError>
    ensures { IfOk result (λ reply. (a b : List ℕ) → IsRange a one.now → IsRange b other.now
        → Answers (codes "range" ∷ a ∷ codes "and" ∷ b ∷ []) (said reply)) }
{
    let both = one.intersect(alloc, other)?;
    Ok(shown(alloc, &both)?)
}

fn minus<'a, 'b>(
    alloc: Global,
    one: &RangeRef<'b>,
    other: &RangeRef<'b>,
) -> Result<Reply<'a>, AllocError>
    ensures { IfOk result (λ reply. (a b : List ℕ) → IsRange a one.now → IsRange b other.now
        → Answers (codes "range" ∷ a ∷ codes "minus" ∷ b ∷ []) (said reply)) }
{
    let rest = one.difference(alloc, other)?;
    Ok(shown(alloc, &rest)?)
}

fn within<'a, 'b>(
    alloc: Global,
    one: &RangeRef<'b>,
    other: &RangeRef<'b>,
) -> Result<Reply<'a>, AllocError>
    ensures { IfOk result (λ reply. (a b : List ℕ) → IsRange a one.now → IsRange b other.now
        → Answers (codes "range" ∷ a ∷ codes "within" ∷ b ∷ []) (said reply)) }
{
    Ok(left_out(alloc, one.least_beyond(alloc, other)?)?)
}

// Yes, or no with the version that is not within.
fn left_out<'a>(alloc: Global, least: Option<Version>) -> Result<Reply<'a>, AllocError>
    ensures { IfOk result (λ r.
        said r ≡ Spec.reply (is_none least) (option_map version_text least)) }
{
    match least {
        None => Ok(bare(alloc, true)),
        Some(version) => line(alloc, false, &version),
    }
}

/// `least R..` prints the smallest version that all ranges accept; if there is none, the answer is
/// no. Returns `Refused` exactly if there are no words, or one that is no range.
pub fn least<'a>(alloc: Global, words: &'a [String]) -> Result<Reply<'a>, Failure<Trouble<'a>>>
    ensures ok { IfOk result (λ reply.
        Answers (codes "least" ∷ map string_bytes words.now) (said reply)) }
    ensures refused { RefusedOnlyIf result
        (NoValue (Answers (codes "least" ∷ map string_bytes words.now))) }
{
    if words.is_empty() {
        return Err(Failure::Refused(Trouble::Usage("least RANGE..")));
    }
    let ranges = read_ranges(alloc, words)?;
    Ok(found(alloc, RangeRef::least_of_all(alloc, &ranges)?)?)
}

// Yes with a version, or no.
fn found<'a>(alloc: Global, least: Option<Version>) -> Result<Reply<'a>, AllocError>
    ensures { IfOk result (λ r.
        said r ≡ Spec.reply (is_some least) (option_map version_text least)) }
{
    match least {
        None => Ok(bare(alloc, false)),
        Some(version) => line(alloc, true, &version),
    }
}

fn read_ranges<'a>(
    alloc: Global,
    words: &'a [String],
) -> Result<Vec<RangeRef<'a>>, Failure<Trouble<'a>>>
    ensures ok { IfOk result (λ ranges. AreRanges (map string_bytes words.now) ranges.items) }
    ensures refused { RefusedOnlyIf result (NoValue (AreRanges (map string_bytes words.now))) }
{
    let mut ranges = Vec::new(alloc);
    for word in words {
        let range = read_range(alloc, word)?;
        push(range, &mut ranges)?;
    }
    Ok(ranges)
}

fn push<'a>(range: RangeRef<'a>, ranges: &mut Vec<RangeRef<'a>>) -> Result<(), AllocError>
    ensures { OnOk result (ranges.new.items ≡ ranges.old.items ++ range.entry ∷ []) }
{
    ranges.push(range)?;
    Ok(())
}
