// The best of the versions of a text, one after another: no list of them is kept.

ghost use Rattle.std.specs.Option.{option_copied};
ghost use Rattle.std.specs.Prelude.{◌++◌, ◌∷◌, [], List, IfErr, IfOk, OnOk, Some, if◌then◌else◌, ℕ};
ghost use Rattle.semver_core.specs.Values.Versions.{VersionValue};
ghost use Rattle.semver_answers.specs.Internal.Ahead.{HasFeed, IsNext, fields_ahead};
ghost use Rattle.semver_answers.specs.Replies.{AreVersionsOf, IsVersionOf};
ghost use Rattle.semver_answers.specs.Internal.Results.{FindsBest, IsBestOf, IsFault};
ghost use Rattle.semver_answers.specs.Internal.Results.{ParsesVersion};

use crate::fault::Fault;
use crate::fields::{Behind, version_field};
use crate::question::AboutBest;
use nodejs_semver::{Failure, RangeRef, SemverError, VersionRef};

/// The best of the versions of the fields of a line, of those that the range accepts, and the text
/// behind the line.
pub(crate) fn best_of<'t>(
    asked: AboutBest,
    range: &RangeRef<'_>,
    texts: &'t str,
) -> Result<(Option<VersionRef<'t>>, &'t str), Failure<Fault>>
    requires { HasFeed texts.now }
    ensures best { IfOk result (λ found.
        FindsBest asked range.now (fields_ahead texts.now) found.0) }
    ensures next { IfOk result (λ found. IsNext texts.now found.1) }
    ensures fault { IfErr result (λ error. IsFault error (AreVersionsOf (fields_ahead texts.now))) }
{
    let mut best = None;
    let mut rest = texts;
    'fields: loop {
        let (version, behind) = version_field(rest);
        keep_better(asked, range, version, &mut best)?;
        match behind {
            Behind::Lines(next) => return Ok((best, next)),
            Behind::Fields(behind) => rest = behind,
        }
    }
}

// Puts the version that was parsed in the place of the best so far, where it is better.
#[inline(always)]
fn keep_better<'t>(
    asked: AboutBest,
    range: &RangeRef<'_>,
    parsed: Result<VersionRef<'t>, SemverError>,
    best: &mut Option<VersionRef<'t>>,
) -> Result<(), Failure<Fault>>
    ensures best { OnOk result ((texts : List (List ℕ)) (text : List ℕ)
        → ParsesVersion text parsed.entry
        → FindsBest asked range.now texts best.old
        → FindsBest asked range.now (texts ++ text ∷ []) best.new) }
    ensures fault { IfErr result (λ error. (text : List ℕ)
        → ParsesVersion text parsed.entry → IsFault error (IsVersionOf text)) }
{
    let Ok(version) = parsed else {
        return Err(Failure::Refused(Fault::BadVersion));
    };
    if asked.is_new_best(range, &version, best.as_ref()) {
        *best = Some(version);
    }
    Ok(())
}

impl AboutBest {
    // Whether a version takes the place of the best so far.
    #[inline(always)]
    fn is_new_best(
        self,
        range: &RangeRef<'_>,
        version: &VersionRef<'_>,
        best: Option<&VersionRef<'_>>,
    ) -> bool
        ensures { (list : List VersionValue)
            → IsBestOf self range.now list (option_copied best.entry)
            → IsBestOf self range.now (list ++ version.now ∷ [])
            (if result then Some version.now else option_copied best.entry) }
    {
        match self {
            AboutBest::Max => range.is_new_max(version, best),
            AboutBest::Min => range.is_new_min(version, best),
        }
    }
}
