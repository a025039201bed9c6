// Why nothing is answered.

ghost use Rattle.std.specs.Prelude.{◌≡◌, ◌&&◌, ◌||◌, ◌∷◌, [], IfNone, IfSome, None, is_some, not};
ghost use Rattle.std.specs.Prelude.{◌==◌, Some, option_map, take, true, false, if◌then◌else◌};
ghost use Rattle.std.specs.List.{list_all, list_any};
ghost use Rattle.semver_core.specs.Failures.{NoValue};
ghost use Rattle.semver_core.specs.Lists.{is_empty};
ghost use Rattle.npm_semver.specs.Responses as Spec;
ghost use Rattle.npm_semver.specs.Responses.{HasNoNumber, IsRefused, Names, is_plain, stands};
ghost use Rattle.npm_semver.specs.Internal.Asked.{asked_of};
ghost use Rattle.npm_semver.specs.Internal.Texts.{IsFirstLacking, IsReadFor, is_no_version};
ghost use Rattle.npm_semver.specs.Internal.Written.{name_in, told_as};

use crate::caret::Marked;
use crate::listing::Texts;
use crate::question::Question;
use crate::why::Reason;
use nodejs_semver::IncrementError;
use thiserror::Error;

/// Why nothing is printed.
#[derive(Debug, Drop, Error)]
pub enum Refusal<'a> {
    #[error("-i takes one version and no range")]
    NotOneVersion,
    #[error("--field takes the number of a field, from 1")]
    NoFieldNumber,
    #[error("a word that begins with - is no option: {0:?}")]
    UnknownOption(&'a str),
    #[error("{0}")]
    UnreadRange(Marked<'a>),
    #[error("a range is malformed, or has a word that is not read with -l")]
    UnreadLoosely,
    #[error("{0}")]
    NoVersion(Marked<'a>),
    #[error("with -c and --as-written a text has a control character, a quote or a backslash")]
    UnshownText,
    #[error("with --field a text has a line feed, or with --json a character that JSON escapes")]
    UnshownLine,
    #[error("{0}")]
    NotIncremented(IncrementError),
}

impl<'a> Refusal<'a> {
    // Some text may not be printed as it was given.
    fn unshown(question: &Question<'_>) -> Refusal<'a>
        ensures kind { told_as result ≡ Spec.UnshownText }
        ensures name { name_in result ≡ None }
    {
        match question.reading.field {
            None => Refusal::UnshownText,
            Some(_) => Refusal::UnshownLine,
        }
    }

    // A text is no range. `-l` alone does not name it.
    fn no_range(question: &Question<'a>, reason: &Reason<'a>) -> Refusal<'a>
        ensures kind { told_as result ≡ Spec.UnreadRange }
        ensures name { name_in result
            ≡ (if question.now.is_strict then Some reason.now.text else None) }
    {
        if question.is_strict {
            Refusal::UnreadRange(reason.marked(question.reading))
        } else {
            Refusal::UnreadLoosely
        }
    }
}

/// Returns why nothing is answered to a question, whose texts are read, if so: for want of a number
/// of a field, with the first word that is no option, the first text that has to be a range, or the
/// first that has to be a version.
pub fn refusal_of<'a>(question: &Question<'a>, read: &Texts<'a>) -> Option<Refusal<'a>>
    ensures some { IsReadFor (asked_of question.now) read.now → IfSome result (λ refusal.
        IsRefused (asked_of question.now) (told_as refusal)) }
    ensures named { IsReadFor (asked_of question.now) read.now → IfSome result (λ refusal.
        Names (asked_of question.now) (told_as refusal) (name_in refusal)) }
    ensures none { IsReadFor (asked_of question.now) read.now → IfNone result
        (NoValue (IsRefused (asked_of question.now))) }
{
    if has_no_number(question) {
        return Some(Refusal::NoFieldNumber);
    }
    if let Some(word) = unknown(question) {
        return Some(Refusal::UnknownOption(word));
    }
    if let Some(reason) = unread(question, read) {
        return Some(Refusal::no_range(question, reason));
    }
    if let Some(reason) = no_version(question, read) {
        return Some(Refusal::NoVersion(reason.marked(question.reading)));
    }
    if has_unshown(question) {
        return Some(Refusal::unshown(question));
    }
    None
}

// Whether a field is asked for, and by no number of one.
fn has_no_number(question: &Question<'_>) -> bool
    ensures yes { result ≡ true → HasNoNumber (asked_of question.now) }
    ensures no { result ≡ false → HasNoNumber (asked_of question.now) → ⊥ }
{
    matches!(question.reading.field, Some(0))
}

// The first word that has to be an option, and is none.
fn unknown<'a>(question: &Question<'a>) -> Option<&'a str>
    ensures { option_map (λ word. word.now) result
        ≡ (if question.now.is_strict then (asked_of question.now).unknown else None) }
{
    if question.is_strict {
        question.unknown
    } else {
        None
    }
}

// The first range text that has to be a range, and is none.
fn unread<'r, 'a>(question: &Question<'a>, read: &'r Texts<'a>) -> Option<&'r Reason<'a>>
    ensures is { is_some result ≡ ((question.now.reading.is_loose || question.now.is_strict)
        && not (is_empty read.now.no_ranges.items)) }
    ensures first { IfSome result (λ reason.
        take 1 read.now.no_ranges.items ≡ reason.now ∷ []) }
{
    if !question.reading.is_loose && !question.is_strict {
        return None;
    }
    let (first, _) = read.no_ranges.split_first()?;
    Some(first)
}

// The first text that has to be a version, and is none.
fn no_version<'r, 'a>(question: &Question<'a>, read: &'r Texts<'a>) -> Option<&'r Reason<'a>>
    ensures is { is_some result ≡ (question.now.is_strict
        && list_any is_no_version read.now.left_out.items) }
    ensures first { IfSome result (λ reason.
        IsFirstLacking read.now.left_out.items reason.now) }
{
    if question.is_strict {
        first_lacking(&read.left_out)
    } else {
        None
    }
}

// The first text of those that are told of that is no version.
fn first_lacking<'r, 'a>(left_out: &'r [Reason<'a>]) -> Option<&'r Reason<'a>>
    ensures is { is_some result ≡ list_any is_no_version left_out.now }
    ensures first { IfSome result (λ reason. IsFirstLacking left_out.now reason.now) }
{
    for reason in left_out {
        if reason.is_no_version() {
            return Some(reason);
        }
    }
    None
}

// Whether some text may be printed as it was given, and is no record or no JSON string.
fn has_unshown(question: &Question<'_>) -> bool
    ensures { result ≡ ((question.now.reading.is_coerced || is_some question.now.reading.field)
        && question.now.as_written) && not (list_all (λ t. list_all (stands
        (asked_of question.now)) t.now) question.now.versions.items) }
{
    (question.reading.is_coerced || question.reading.field.is_some())
        && question.as_written
        && !all_stand(question)
}

fn all_stand(question: &Question<'_>) -> bool
    ensures { result ≡ list_all (λ t. list_all (stands (asked_of question.now)) t.now)
        question.now.versions.items }
{
    if (question.reading.field.is_some() || question.ends_in_nul) && !question.is_json {
        lack(question.end(), &question.versions)
    } else {
        are_plain(&question.versions)
    }
}

// Whether a byte stands in none of these texts.
fn lack(end: u8, texts: &[&str]) -> bool
    ensures { result ≡ list_all (λ t. list_all (λ c. not (c == end)) t.now) texts.now }
{
    texts.iter().all(
        |text| -> bool
            ensures { result ≡ list_all (λ c. not (c == end)) text.now.now }
        { lacks(end, text.as_bytes()) },
    )
}

fn lacks(end: u8, text: &[u8]) -> bool
    ensures { result ≡ list_all (λ c. not (c == end)) text.now }
{
    text.iter().all(|byte| *byte != end)
}

fn are_plain(texts: &[&str]) -> bool
    ensures { result ≡ list_all (λ t. list_all is_plain t.now) texts.now }
{
    texts.iter().all(
        |text| -> bool
            ensures { result ≡ list_all is_plain text.now.now }
        { is_plain_text(text.as_bytes()) },
    )
}

// Whether each byte stands in a JSON string as it is.
fn is_plain_text(text: &[u8]) -> bool
    ensures { result ≡ list_all is_plain text.now }
{
    text.iter().all(
        |byte| -> bool
            ensures { result ≡ is_plain byte.now }
        { !matches!(*byte, 0..=31 | b'"' | b'\\') },
    )
}
