// The subcommands on one version: whether a text is one, and its parts.

ghost use Rattle.std.specs.Prelude.{◌≡◌, ◌∷◌, [], IfOk, Some, codes, false, is_some, map};
ghost use Rattle.std.specs.Prelude.{option_map, string_bytes, true};
ghost use Rattle.std.specs.Fmt.{decimal};
ghost use Rattle.semver_core.specs.Failures.{NoValue, RefusedOnlyIf};
ghost use Rattle.semver_core.specs.Values.Versions.{VersionValue};
ghost use Rattle.semver_core.specs.declared.TheConstants.{MAX_SAFE_INTEGER};
ghost use Rattle.npm_words.specs.VersionText.{IsVersionText};
ghost use Rattle.npm_semver.specs.Subcommands as Spec;
ghost use Rattle.npm_semver.specs.Subcommands.{Answers, dotted, part_of};
ghost use Rattle.npm_semver.specs.Internal.Said.{part_text, said};

use crate::caret::Marked;
use crate::run::write_marked;
use crate::subcommands::replies::{Reply, Status, Trouble, answer, bare, troubled};
use crate::subcommands::versions::version;
use nodejs_semver::{Failure, IdentifierRefs, VersionRef};
use npm_reading::version_flaw;
use std::alloc::{AllocError, Global};

/// A part of a version.
#[derive(Clone, Copy)]
pub enum Part {
    Major,
    Minor,
    Patch,
    PreRelease,
    Build,
}

impl Part {
    // The part that a word names.
    fn of(word: &str) -> Option<Part>
        ensures { option_map part_text result ≡ part_of word.now }
    {
        match word {
            "major" => Some(Part::Major),
            "minor" => Some(Part::Minor),
            "patch" => Some(Part::Patch),
            "prerelease" => Some(Part::PreRelease),
            "build" => Some(Part::Build),
            _ => None,
        }
    }
}

/// `get PART V` prints a part of a version; the answer is no if it has none. Returns `Refused`
/// exactly if the words are none of these.
pub fn get<'a>(alloc: Global, words: &'a [String]) -> Result<Reply<'a>, Failure<Trouble<'a>>>
    ensures ok { IfOk result (λ reply.
        Answers (codes "get" ∷ map string_bytes words.now) (said reply)) }
    ensures refused { RefusedOnlyIf result
        (NoValue (Answers (codes "get" ∷ map string_bytes words.now))) }
{
    match words {
        [part, text] => get_of(alloc, part, text),
        _ => Err(Failure::Refused(Trouble::Usage("get PART VERSION"))),
    }
}

#[tactic(auto, using(crate::proofs::Keyed::no_parts))]
fn get_of<'a>(
    alloc: Global,
    word: &'a str,
    text: &'a str,
) -> Result<Reply<'a>, Failure<Trouble<'a>>>
    ensures ok { IfOk result (λ reply.
        Answers (codes "get" ∷ word.now ∷ text.now ∷ []) (said reply)) }
    ensures refused { RefusedOnlyIf result
        (NoValue (Answers (codes "get" ∷ word.now ∷ text.now ∷ []))) }
{
    let Some(part) = Part::of(word) else {
        return Err(Failure::Refused(Trouble::NoPart(word)));
    };
    let version = version(text)?;
    Ok(part_reply(alloc, part, &version)?)
}

// A part of a version on a line, or no.
fn part_reply<'a>(
    alloc: Global,
    part: Part,
    version: &VersionRef<'_>,
) -> Result<Reply<'a>, AllocError>
    ensures { IfOk result (λ r. said r
        ≡ Spec.reply (is_some (part_text part version.now)) (part_text part version.now)) }
{
    match part {
        Part::Major => number(alloc, version.major()),
        Part::Minor => number(alloc, version.minor()),
        Part::Patch => number(alloc, version.patch()),
        Part::PreRelease => identifiers(alloc, version.pre_release()),
        Part::Build => identifiers(alloc, version.build()),
    }
}

// A number on a line.
fn number<'a>(alloc: Global, number: u64) -> Result<Reply<'a>, AllocError>
    ensures { IfOk result (λ r. said r ≡ Spec.reply true (Some (decimal number))) }
{
    let mut output = String::new(alloc);
    writeln!(output, "{number}")?;
    Ok(answer(true, output))
}

// Identifiers on a line, or no if there are none.
fn identifiers<'a>(alloc: Global, ids: IdentifierRefs<'_>) -> Result<Reply<'a>, AllocError>
    ensures { IfOk result (λ r. said r
        ≡ Spec.reply (is_some (dotted ids.entry)) (dotted ids.entry)) }
{
    if ids.is_empty() {
        return Ok(bare(alloc, false));
    }
    let mut output = String::new(alloc);
    write_marked("", ids, &mut output)?;
    output.push('\n')?;
    Ok(answer(true, output))
}

/// `valid V` answers whether the text is a version, and tells why if not. Returns `Refused` exactly
/// if there is not one word.
pub fn valid<'a>(alloc: Global, words: &'a [String]) -> Result<Reply<'a>, Failure<Trouble<'a>>>
    ensures ok { IfOk result (λ reply.
        Answers (codes "valid" ∷ map string_bytes words.now) (said reply)) }
    ensures refused { RefusedOnlyIf result
        (NoValue (Answers (codes "valid" ∷ map string_bytes words.now))) }
{
    match words {
        [text] => Ok(validity(alloc, text)),
        _ => Err(Failure::Refused(Trouble::Usage("valid VERSION"))),
    }
}

#[tactic(auto, using(crate::proofs::Keyed::validities))]
fn validity<'a>(alloc: Global, text: &'a str) -> Reply<'a>
    ensures { Answers (codes "valid" ∷ text.now ∷ []) (said result) }
{
    if is_version(text) {
        return bare(alloc, true);
    }
    let trouble = Trouble::NoVersion(Marked::no_version(text));
    troubled(alloc, Status::No, trouble)
}

// Whether npm reads a text as a version.
fn is_version(text: &str) -> bool
    ensures some { result ≡ true
        → ((v : VersionValue) × IsVersionText MAX_SAFE_INTEGER text.now v) }
    ensures none { result ≡ false → NoValue (IsVersionText MAX_SAFE_INTEGER text.now) }
{
    version_flaw(text).is_none()
}
