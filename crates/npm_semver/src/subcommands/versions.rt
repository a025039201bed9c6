// The subcommands on versions: how two compare, how they differ, and the next one.

ghost use Rattle.std.specs.Prelude.{◌≡◌, ◌∷◌, [], IfOk, None, Some, codes, map, option_map};
ghost use Rattle.std.specs.Prelude.{string_bytes, true};
ghost use Rattle.std.specs.Option.{option_copied};
ghost use Rattle.semver_core.specs.Difference.{kind_word};
ghost use Rattle.semver_core.specs.Failures.{NoValue, RefusedOnlyIf};
ghost use Rattle.semver_core.specs.Increments.Table.{answer_of_inc};
ghost use Rattle.semver_core.specs.Increments.View.{fault_of};
ghost use Rattle.semver_core.specs.declared.TheConstants.{MAX_SAFE_INTEGER};
ghost use Rattle.npm_words.specs.VersionText.{IsVersionText};
ghost use Rattle.npm_semver.specs.Subcommands as Spec;
ghost use Rattle.npm_semver.specs.Subcommands.{Answers, HasIdentifier, next_said, relation_of, say};
ghost use Rattle.npm_semver.specs.Internal.Said.{relation, said};

use crate::caret::Marked;
use crate::run::without_build;
use crate::subcommands::replies::{Reply, Status, Trouble, answer, bare, line, troubled};
use nodejs_semver::{Failure, IncrementError, VersionDiff, VersionRef, Versioned};
use npm_reading::Reading;
use std::alloc::{AllocError, Global};
use std::cmp::Ordering;

/// A comparison that is asked for.
#[derive(Clone, Copy)]
pub enum Relation {
    Less,
    AtMost,
    Equal,
    Unequal,
    AtLeast,
    Greater,
}

impl Relation {
    // The comparison that a word names, as node-semver's `cmp` does or as a shell's `test` does.
    fn of(word: &str) -> Option<Relation>
        ensures { option_map relation result ≡ relation_of word.now }
    {
        match word {
            "<" | "lt" => Some(Relation::Less),
            "<=" | "le" => Some(Relation::AtMost),
            "=" | "==" | "eq" => Some(Relation::Equal),
            "!=" | "ne" => Some(Relation::Unequal),
            ">=" | "ge" => Some(Relation::AtLeast),
            ">" | "gt" => Some(Relation::Greater),
            _ => None,
        }
    }

    // Whether versions in this order compare so.
    fn holds(self, order: Ordering) -> bool
        ensures { result ≡ relation self order }
    {
        match self {
            Relation::Less => order.is_lt(),
            Relation::AtMost => order.is_le(),
            Relation::Equal => order.is_eq(),
            Relation::Unequal => order.is_ne(),
            Relation::AtLeast => order.is_ge(),
            Relation::Greater => order.is_gt(),
        }
    }
}

/// Reads a version as npm does.
pub fn version(text: &str) -> Result<VersionRef<'_>, Failure<Trouble<'_>>>
    ensures ok { IfOk result (λ v. IsVersionText MAX_SAFE_INTEGER text.now v) }
    ensures refused { RefusedOnlyIf result (NoValue (IsVersionText MAX_SAFE_INTEGER text.now)) }
{
    let strict = Reading {
        loose: false,
        include_prerelease: false,
    };
    match npm_reading::version(text, strict) {
        Ok(version) => Ok(version),
        Err(_) => Err(Failure::Refused(Trouble::NoVersion(Marked::no_version(text)))),
    }
}

/// `compare A B` prints the sign of the order of two versions, and `compare A OP B` answers whether
/// they compare so. Build metadata does not count. Returns `Refused` exactly if the words are none
/// of these.
pub fn compare<'a>(alloc: Global, words: &'a [String]) -> Result<Reply<'a>, Failure<Trouble<'a>>>
    ensures ok { IfOk result (λ reply.
        Answers (codes "compare" ∷ map string_bytes words.now) (said reply)) }
    ensures refused { RefusedOnlyIf result
        (NoValue (Answers (codes "compare" ∷ map string_bytes words.now))) }
{
    match words {
        [one, other] => order(alloc, one, other),
        [one, word, other] => test(alloc, one, word, other),
        _ => Err(Failure::Refused(Trouble::Usage("compare VERSION [OP] VERSION"))),
    }
}

// The order of two versions.
#[tactic(auto, using(crate::proofs::Answered::no_order, crate::proofs::Answered::no_order_of))]
fn order<'a>(alloc: Global, one: &'a str, other: &'a str) -> Result<Reply<'a>, Failure<Trouble<'a>>>
    ensures ok { IfOk result (λ reply.
        Answers (codes "compare" ∷ one.now ∷ other.now ∷ []) (said reply)) }
    ensures refused { RefusedOnlyIf result
        (NoValue (Answers (codes "compare" ∷ one.now ∷ other.now ∷ []))) }
{
    let one = version(one)?;
    let other = version(other)?;
    Ok(sign(alloc, one.cmp(&other))?)
}

// The sign of an order on a line.
fn sign<'a>(alloc: Global, order: Ordering) -> Result<Reply<'a>, AllocError>
    ensures { IfOk result (λ r. said r ≡ Spec.reply true (Some (Spec.sign order))) }
{
    let sign = match order {
        Ordering::Less => "<\n",
        Ordering::Equal => "=\n",
        Ordering::Greater => ">\n",
    };
    Ok(answer(true, String::from_str(alloc, sign)?))
}

// Whether two versions compare so.
#[tactic(auto, using(crate::proofs::Answered::no_tests))]
fn test<'a>(
    alloc: Global,
    one: &'a str,
    word: &'a str,
    other: &'a str,
) -> Result<Reply<'a>, Failure<Trouble<'a>>>
    ensures ok { IfOk result (λ reply.
        Answers (codes "compare" ∷ one.now ∷ word.now ∷ other.now ∷ []) (said reply)) }
    ensures refused { RefusedOnlyIf result
        (NoValue (Answers (codes "compare" ∷ one.now ∷ word.now ∷ other.now ∷ []))) }
{
    let Some(relation) = Relation::of(word) else {
        return Err(Failure::Refused(Trouble::NoRelation(word)));
    };
    let one = version(one)?;
    let other = version(other)?;
    Ok(bare(alloc, relation.holds(one.cmp(&other))))
}

/// `diff A B` prints the kind of difference between two versions, and nothing if they are equal.
/// Returns `Refused` exactly if the words are not two versions.
pub fn diff<'a>(alloc: Global, words: &'a [String]) -> Result<Reply<'a>, Failure<Trouble<'a>>>
    ensures ok { IfOk result (λ reply.
        Answers (codes "diff" ∷ map string_bytes words.now) (said reply)) }
    ensures refused { RefusedOnlyIf result
        (NoValue (Answers (codes "diff" ∷ map string_bytes words.now))) }
{
    match words {
        [one, other] => difference(alloc, one, other),
        _ => Err(Failure::Refused(Trouble::Usage("diff VERSION VERSION"))),
    }
}

#[tactic(auto, using(crate::proofs::Answered::no_differences))]
fn difference<'a>(
    alloc: Global,
    one: &'a str,
    other: &'a str,
) -> Result<Reply<'a>, Failure<Trouble<'a>>>
    ensures ok { IfOk result (λ reply.
        Answers (codes "diff" ∷ one.now ∷ other.now ∷ []) (said reply)) }
    ensures refused { RefusedOnlyIf result
        (NoValue (Answers (codes "diff" ∷ one.now ∷ other.now ∷ []))) }
{
    let one = version(one)?;
    let other = version(other)?;
    Ok(kind(alloc, one.diff(&other))?)
}

// A kind of difference on a line, or nothing.
fn kind<'a>(alloc: Global, kind: Option<VersionDiff>) -> Result<Reply<'a>, AllocError>
    ensures { IfOk result (λ r. said r ≡ Spec.reply true (option_map kind_word kind)) }
{
    let Some(kind) = kind else {
        return Ok(bare(alloc, true));
    };
    let mut output = String::new(alloc);
    writeln!(output, "{kind}")?;
    Ok(answer(true, output))
}

const NEXT: &str = "next LEVEL VERSION [--preid IDENTIFIER]";

/// `next LEVEL VERSION [--preid IDENTIFIER]` prints the next version. If there is none, or none
/// that is above the given one, the answer is no, and says why. Returns `Refused` exactly if the
/// words are none of these; a level or an identifier that is none is malformed too.
pub fn next<'a>(alloc: Global, words: &'a [String]) -> Result<Reply<'a>, Failure<Trouble<'a>>>
    ensures ok { IfOk result (λ reply.
        Answers (codes "next" ∷ map string_bytes words.now) (said reply)) }
    ensures refused { RefusedOnlyIf result
        (NoValue (Answers (codes "next" ∷ map string_bytes words.now))) }
{
    match words {
        [level, version, options @ ..] => next_of(alloc, level, version, options),
        _ => Err(Failure::Refused(Trouble::Usage(NEXT))),
    }
}

#[tactic(auto, using(crate::proofs::Answered::no_next, crate::proofs::Answered::no_next_options))]
fn next_of<'a>(
    alloc: Global,
    level: &'a str,
    text: &'a str,
    options: &'a [String],
) -> Result<Reply<'a>, Failure<Trouble<'a>>>
    ensures ok { IfOk result (λ reply. Answers
        (codes "next" ∷ level.now ∷ text.now ∷ map string_bytes options.now) (said reply)) }
    ensures refused { RefusedOnlyIf result (NoValue (Answers
        (codes "next" ∷ level.now ∷ text.now ∷ map string_bytes options.now))) }
{
    let identifier = identifier(options)?;
    let version = version(text)?;
    Ok(raised(alloc, &version, level, identifier)?)
}

// The identifier that is given.
fn identifier<'a>(options: &'a [String]) -> Result<Option<&'a str>, Failure<Trouble<'a>>>
    ensures ok { IfOk result (λ identifier.
        HasIdentifier (map string_bytes options.now) (option_copied identifier)) }
    ensures refused { RefusedOnlyIf result
        (NoValue (HasIdentifier (map string_bytes options.now))) }
{
    match options {
        [] => Ok(None),
        [option] => joined(option),
        [option, identifier] => behind(option, identifier),
        _ => Err(Failure::Refused(Trouble::Usage(NEXT))),
    }
}

// The identifier behind `--preid=`.
#[tactic(auto, using(crate::proofs::Answered::no_joined))]
fn joined(option: &str) -> Result<Option<&str>, Failure<Trouble<'_>>>
    ensures ok { IfOk result (λ identifier.
        HasIdentifier (option.now ∷ []) (option_copied identifier)) }
    ensures refused { RefusedOnlyIf result (NoValue (HasIdentifier (option.now ∷ []))) }
{
    match option.strip_prefix("--preid=") {
        Some(identifier) => Ok(Some(identifier)),
        None => Err(Failure::Refused(Trouble::Usage(NEXT))),
    }
}

// The identifier behind `--preid`.
#[tactic(auto, using(crate::proofs::Answered::no_behind))]
fn behind<'a>(option: &'a str, identifier: &'a str) -> Result<Option<&'a str>, Failure<Trouble<'a>>>
    ensures ok { IfOk result (λ found.
        HasIdentifier (option.now ∷ identifier.now ∷ []) (option_copied found)) }
    ensures refused { RefusedOnlyIf result
        (NoValue (HasIdentifier (option.now ∷ identifier.now ∷ []))) }
{
    match option {
        "--preid" => Ok(Some(identifier)),
        _ => Err(Failure::Refused(Trouble::Usage(NEXT))),
    }
}

// The next version after one without its build metadata, if it is above it.
fn raised<'a>(
    alloc: Global,
    version: &VersionRef<'_>,
    level: &str,
    identifier: Option<&str>,
) -> Result<Reply<'a>, AllocError>
    ensures { IfOk result (λ reply. said reply ≡ next_said version.now
        (answer_of_inc version.now level.now (option_copied identifier.entry) None)) }
{
    match version.inc(alloc, level, identifier, None) {
        Ok(next) if version.cmp_precedence(&next).is_lt() => {
            line(alloc, true, &without_build(alloc, next)?)
        }
        Ok(_) => Ok(troubled(alloc, Status::No, Trouble::NotAbove)),
        Err(Failure::Refused(error)) => Ok(not_raised(alloc, error)),
        Err(Failure::Memory(error)) => Err(error),
    }
}

// Why there is no next version: none by this level, or a level or an identifier that is none.
fn not_raised<'a>(alloc: Global, error: IncrementError) -> Reply<'a>
    ensures { let fault = fault_of error in
        said result ≡ say [] (Some (Spec.NotIncremented fault)) (Spec.status_of fault) }
{
    let status = match &error {
        IncrementError::NotAPrerelease(_) | IncrementError::Overflow => Status::No,
        _ => Status::Malformed,
    };
    troubled(alloc, status, Trouble::NotIncremented(error))
}
