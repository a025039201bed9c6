//! The reader of version texts.

ghost use Rattle.std.specs.Prelude.{◌≡◌, ◌≤◌, ◌<◌, ◌+◌, ◌⊎◌, [], true, length};
ghost use Rattle.std.specs.Prelude.{drop, Some, IfOk, ◌==◌, IfSome, IfNone, IsFalse, IsTrue, OnErr};
ghost use Rattle.std.specs.Prelude.{OnSome, false};
ghost use Rattle.semver_core.specs.{Failures.NoValue, Internal.Inside.{IsFull, build_of}};
ghost use Rattle.semver_core.specs.Text.Characters.{begins};
ghost use Rattle.semver_core.specs.Internal.{Inside.pre_release_of, Reading.pre_release_at};
ghost use Rattle.semver_core.specs.Internal.Reading.{build_at, list_from, lists_at, mark_len};
ghost use Rattle.semver_core.specs.Text.VersionText.{Reads};
ghost use Rattle.semver_core.specs.Text.Characters.{is_identifier_char, IsAfterBlank};
ghost use Rattle.semver_core.specs.Values.{Versions.{VersionValue, HasIdentifiers}, Views.ids_view};

use crate::reach::{OfText, Reach};
use crate::readers::fast::numbers;
use crate::version::lists::{Lists, Qualifier};
use crate::{Allocated, Identifier, MAX_SAFE_INTEGER, Version, scan};
use std::alloc::{AllocError, Global};

// Whether a mark stands at a place.
#[inline(always)]
#[tactic(auto, using(crate::proofs::Text::Digits::places))]
pub(crate) fn stands_at<R: Reach>(bytes: &[u8], at: usize, mark: u8) -> bool
    requires { R.stands bytes.now at }
    ensures stands { result ≡ begins (λ b. b == mark) (drop at bytes.now) }
    ensures place { IsTrue result → (mark == 10) ≡ false → R.stands bytes.now (at + 1) }
{
    R::inside(bytes, at) && bytes[at] == mark
}

// Whether a pre-release or a build may begin at a place: with a character of identifiers, which `-`
// is too, or with `+`.
#[inline(always)]
#[tactic(auto, using(crate::proofs::Text::Fronts::no_lists))]
pub(crate) fn begins_lists<R: Reach>(text: &str, at: usize) -> bool
    requires { R.stands text.now at }
    ensures { IsFalse result → lists_at text.now at ≡ ([], [], at) }
{
    let bytes = text.as_bytes();
    R::inside(bytes, at) && (scan::is_identifier_char(bytes[at]) || bytes[at] == b'+')
}

// Where the identifiers of the pre-release at a place begin.
#[tactic(auto, using(crate::proofs::Text::Ends::some_found))]
pub(crate) fn pre_release_start<R: Reach>(text: &str, at: usize) -> Option<usize>
    requires { R.stands text.now at }
    ensures found { pre_release_at text.now at ≡ list_from text.now at result }
    ensures some { OnSome result (0 < length (pre_release_at text.now at).0) }
    ensures begins { IfSome result (λ start.
        begins is_identifier_char (drop start text.now) ≡ true) }
    ensures place { IfSome result (λ start. R.stands text.now start) }
{
    let start = at + usize::from(stands_at::<R>(text.as_bytes(), at, b'-'));
    if scan::begins_at::<R>(text.as_bytes(), start) {
        Some(start)
    } else {
        None
    }
}

// Where the identifiers of the build at a place begin.
#[tactic(auto, using(crate::proofs::Text::Ends::some_found))]
pub(crate) fn build_start<R: Reach>(text: &str, at: usize) -> Option<usize>
    requires { R.stands text.now at }
    ensures found { build_at text.now at ≡ list_from text.now at result }
    ensures some { OnSome result (0 < length (build_at text.now at).0) }
    ensures begins { IfSome result (λ start.
        begins is_identifier_char (drop start text.now) ≡ true) }
    ensures place { IfSome result (λ start. R.stands text.now start) }
{
    let bytes = text.as_bytes();
    if stands_at::<R>(bytes, at, b'+') && scan::begins_at::<R>(bytes, at + 1) {
        Some(at + 1)
    } else {
        None
    }
}

// The pre-release and the build at a place, and the place after them; no box where there is one
// identifier in a pre-release, or none.
#[inline(always)]
pub(crate) fn lists_at(alloc: Global, text: &str, at: usize) -> Allocated<(Qualifier, usize)>
    requires { at ≤ length text.now }
    ensures found { IfOk result (λ found.
        (pre_release_of found.0, build_of found.0, found.1) ≡ lists_at text.now at) }
    ensures full { IfOk result (λ found. IsFull found.0) }
    ensures place { IfOk result (λ found. found.1 ≤ length text.now) }
    ensures memory { OnErr result ((0 < length (lists_at text.now at).0)
        ⊎ (0 < length (lists_at text.now at).1)) }
{
    let Some(first) = pre_release_start::<OfText>(text, at) else {
        let (build, end) = build_behind(alloc, text, at, Vec::new(alloc))?;
        return Ok((build, end));
    };
    let run = scan::scan_run(text.as_bytes(), first);
    if !scan::goes_on_at(text, run.0) && build_start::<OfText>(text, run.0).is_none() {
        let id = scan::run_id(alloc, text, first, run)?;
        return Ok((Qualifier::One(id), run.0));
    }
    let mut ids = Vec::with_capacity(alloc, 4)?;
    let next = scan::read_from(alloc, text, first, run, &mut ids)?;
    let (lists, end) = build_behind(alloc, text, next, ids)?;
    Ok((lists, end))
}

// The qualifier of a pre-release and of the build metadata at a place, and the place behind it.
#[inline(always)]
fn build_behind(
    alloc: Global,
    text: &str,
    at: usize,
    pre_release: Vec<Identifier>,
) -> Allocated<(Qualifier, usize)>
    requires { at ≤ length text.now }
    ensures pre_release { IfOk result (λ found.
        pre_release_of found.0 ≡ ids_view pre_release.items) }
    ensures build { IfOk result (λ found. (build_of found.0, found.1) ≡ build_at text.now at) }
    ensures full { IfOk result (λ found. IsFull found.0) }
    ensures place { IfOk result (λ found. found.1 ≤ length text.now) }
    ensures memory { OnErr result (0 < length (build_at text.now at).0) }
{
    let mut ids = pre_release;
    let pre_len = ids.len();
    let Some(start) = build_start::<OfText>(text, at) else {
        return Ok((Qualifier::Lists(Lists { pre_len, ids }), at));
    };
    let end = scan::read_list(alloc, text, start, &mut ids)?;
    Ok((Qualifier::Lists(Lists { pre_len, ids }), end))
}

// The place behind the mark and the whitespace at the front.
#[inline(always)]
#[tactic(auto, using(crate::proofs::Text::Texts::mark_boundary))]
pub(crate) fn front_of_numbers(text: &str) -> usize
    ensures { IsAfterBlank text.now (mark_len text.now) result }
{
    let mark = usize::from(matches!(text.as_bytes(), [b'v' | b'V', ..]));
    scan::skip_whitespace(text, mark)
}

/// Reads the version at the front of a text of any length, as `Version::parse` reads it; whatever
/// follows it is ignored.
///
/// Returns `None` if the text has none. Fails only if allocation fails, which happens only where
/// the version has a pre-release or build metadata.
#[inline(always)]
#[tactic(auto, using(crate::proofs::Text::Fronts::release_read))]
pub fn version_loose(alloc: Global, text: &str) -> Result<Option<Version>, AllocError>
    // What is read is a version of the text.
    ensures some { IfOk result (λ found. IfSome found (λ v. Reads MAX_SAFE_INTEGER text.now v)) }
    // Nothing is read only where the text has none.
    ensures none { IfOk result (λ found. IfNone found (NoValue (Reads MAX_SAFE_INTEGER text.now))) }
    // Allocation fails only where the text has a version with identifiers.
    ensures memory { OnErr result
        ((v : VersionValue) × Reads MAX_SAFE_INTEGER text.now v × HasIdentifiers v) }
{
    let Some((major, minor, patch, end)) = numbers(text) else {
        return Ok(None);
    };
    if end == text.len() {
        return Ok(Some(Version::release(major, minor, patch)));
    }
    let (qualifier, _) = lists_at(alloc, text, end)?;
    Ok(Some(Version::from_parts(major, minor, patch, qualifier)))
}
