// The replies to lines, each put behind the output with a line feed.
//
// The function of each kind of question reads the fields of a line from the left, in place, and is
// not inlined, so that a line pays for the locals of its own kind alone; what is said of the values
// that were read stands in the method `reply`.

ghost use Rattle.std.specs.Prelude.{◌≡◌, ◌++◌, ◌∷◌, [], IfOk, OnErr, OnOk, Some, codes};
ghost use Rattle.semver_core.specs.Increments.Table.{answer_of_inc};
ghost use Rattle.semver_answers.specs.Answers.{IsAnswer};
ghost use Rattle.semver_answers.specs.Commands.{RangeReply, RangesReply};
ghost use Rattle.semver_answers.specs.Commands.{matches, version_reply, versions_reply};
ghost use Rattle.semver_answers.specs.Internal.CommandWords.{command_word};
ghost use Rattle.semver_answers.specs.Internal.KindWords.{IsTwo, best_word, range_word};
ghost use Rattle.semver_answers.specs.Internal.KindWords.{match_word, ranges_word, versions_word};
ghost use Rattle.semver_answers.specs.Internal.Puts.{Extends};
ghost use Rattle.semver_answers.specs.Internal.Results.{AnswersFields, IsPut, IsTold, as_told};
ghost use Rattle.semver_answers.specs.Lines.{ended};
ghost use Rattle.semver_answers.specs.Internal.Ahead.{HasFeed, IsNext, fields_ahead, first_line};
ghost use Rattle.semver_answers.specs.Names.{next_text};

use crate::best::best_of;
use crate::command::Command;
use crate::fault::Fault;
use crate::fields::{Behind, range_field, version_field, word_field};
use crate::names::{
    difference_line, put_borrowed, put_found, put_next, put_order, put_printed, put_range_line,
    put_truth,
};
use crate::output::Output;
use crate::parsed::{range_of, version_of};
use crate::parts::{Combination, put_combined};
use crate::question::{
    AboutBest, AboutMatch, AboutRange, AboutRanges, AboutVersion, AboutVersions,
};
use nodejs_semver::cuts::Interval;
use nodejs_semver::{Failure, IdentifierBase, RangeReader, RangeRef, VersionRef, interval_accepts};
use std::alloc::{AllocError, Global};

/// The ranges of a line. The next line is read into the same ones, so that their memory is used
/// again.
#[derive(Drop)]
pub(crate) struct Scratch<'t> {
    range: RangeReader<'t>,
    other: RangeReader<'t>,
}

impl<'t> Scratch<'t> {
    pub(crate) fn new(alloc: Global) -> Scratch<'t> {
        Scratch {
            range: RangeReader::new(alloc),
            other: RangeReader::new(alloc),
        }
    }
}

// The text behind the line, unless an allocation failed in putting the reply.
#[inline(always)]
fn told<'t>(put: Result<(), AllocError>, next: &'t str) -> Result<&'t str, Failure<Fault>>
    ensures { result ≡ as_told put next.entry }
{
    put?;
    Ok(next)
}

/// Puts the reply to the first line of a text. Returns the text behind the line.
#[inline(always)]
pub(crate) fn reply<'t>(
    alloc: Global,
    text: &'t str,
    scratch: &mut Scratch<'t>,
    output: &mut Output,
) -> Result<&'t str, Failure<Fault>>
    requires { HasFeed text.now }
    ensures told { IsTold result output.old output.new
        (IsAnswer (first_line text.now)) }
    ensures next { IfOk result (IsNext text.now) }
{
    let Some((command, rest)) = Command::of(text) else {
        return Err(Failure::Refused(Fault::BadLine));
    };
    reply_to(alloc, command, rest, scratch, output)
}

// The reply to a line with this command and these fields behind it.
#[inline(always)]
fn reply_to<'t>(
    alloc: Global,
    command: Command,
    rest: &'t str,
    scratch: &mut Scratch<'t>,
    output: &mut Output,
) -> Result<&'t str, Failure<Fault>>
    requires { HasFeed rest.now }
    ensures told { IsTold result output.old output.new
        (AnswersFields (command_word command ∷ fields_ahead rest.now)) }
    ensures next { IfOk result (IsNext rest.now) }
{
    let Scratch { range, other } = scratch;
    match command {
        Command::Cmp => on_versions(rest, AboutVersions::Cmp, output),
        Command::Ver => on_version(alloc, rest, output),
        Command::Diff => on_versions(rest, AboutVersions::Diff, output),
        Command::Inc => on_increment(alloc, rest, output),
        Command::Range => on_range(alloc, rest, AboutRange::Print, range, output),
        Command::And => on_ranges(alloc, rest, AboutRanges::And, range, other, output),
        Command::Minus => on_ranges(alloc, rest, AboutRanges::Minus, range, other, output),
        Command::Least => on_range(alloc, rest, AboutRange::Least, range, output),
        Command::Beyond => on_ranges(alloc, rest, AboutRanges::Beyond, range, other, output),
        Command::Sat => on_match(rest, AboutMatch::Sat, range, output),
        Command::Pre => on_match(rest, AboutMatch::Pre, range, output),
        Command::Out => on_outside(rest, range, output),
        Command::Max => on_best(rest, AboutBest::Max, range, output),
        Command::Min => on_best(rest, AboutBest::Min, range, output),
    }
}

#[inline(never)]
fn on_version<'t>(
    alloc: Global,
    texts: &'t str,
    output: &mut Output,
) -> Result<&'t str, Failure<Fault>>
    requires { HasFeed texts.now }
    ensures told { IsTold result output.old output.new
        (AnswersFields (codes "ver" ∷ fields_ahead texts.now)) }
    ensures next { IfOk result (IsNext texts.now) }
{
    let (version, behind) = version_field(texts);
    let Behind::Lines(next) = behind else {
        return Err(Failure::Refused(Fault::BadLine));
    };
    let version = version_of(&version)?;
    told(AboutVersion::Ver.reply(alloc, version, output), next)
}

#[inline(never)]
fn on_increment<'t>(
    alloc: Global,
    texts: &'t str,
    output: &mut Output,
) -> Result<&'t str, Failure<Fault>>
    requires { HasFeed texts.now }
    ensures told { IsTold result output.old output.new
        (AnswersFields (codes "inc" ∷ fields_ahead texts.now)) }
    ensures next { IfOk result (IsNext texts.now) }
{
    let (version, behind) = version_field(texts);
    let Behind::Fields(rest) = behind else {
        return Err(Failure::Refused(Fault::BadLine));
    };
    let Some((asked, next)) = AboutVersion::increment(rest) else {
        return Err(Failure::Refused(Fault::BadLine));
    };
    let version = version_of(&version)?;
    told(asked.reply(alloc, version, output), next)
}

#[inline(never)]
fn on_versions<'t>(
    texts: &'t str,
    asked: AboutVersions,
    output: &mut Output,
) -> Result<&'t str, Failure<Fault>>
    requires { HasFeed texts.now }
    ensures told { IsTold result output.old output.new
        (AnswersFields (versions_word asked ∷ fields_ahead texts.now)) }
    ensures next { IfOk result (IsNext texts.now) }
{
    let (version, behind) = version_field(texts);
    let Behind::Fields(rest) = behind else {
        return Err(Failure::Refused(Fault::BadLine));
    };
    let (other, behind) = version_field(rest);
    let Behind::Lines(next) = behind else {
        return Err(Failure::Refused(Fault::BadLine));
    };
    let version = version_of(&version)?;
    let other = version_of(&other)?;
    told(asked.reply(version, other, output), next)
}

#[inline(never)]
fn on_range<'t>(
    alloc: Global,
    texts: &'t str,
    asked: AboutRange,
    range: &mut RangeReader<'t>,
    output: &mut Output,
) -> Result<&'t str, Failure<Fault>>
    requires { HasFeed texts.now }
    ensures told { IsTold result output.old output.new
        (AnswersFields (range_word asked ∷ fields_ahead texts.now)) }
    ensures next { IfOk result (IsNext texts.now) }
{
    let (read, behind) = range_field(texts, range);
    let Behind::Lines(next) = behind else {
        return Err(Failure::Refused(Fault::BadLine));
    };
    let range = range_of(&read)?;
    told(asked.reply(alloc, range, output), next)
}

#[inline(never)]
fn on_ranges<'t>(
    alloc: Global,
    texts: &'t str,
    asked: AboutRanges,
    range: &mut RangeReader<'t>,
    other: &mut RangeReader<'t>,
    output: &mut Output,
) -> Result<&'t str, Failure<Fault>>
    requires { HasFeed texts.now }
    ensures told { IsTold result output.old output.new
        (AnswersFields (ranges_word asked ∷ fields_ahead texts.now)) }
    ensures next { IfOk result (IsNext texts.now) }
{
    let (read, behind) = range_field(texts, range);
    let Behind::Fields(rest) = behind else {
        return Err(Failure::Refused(Fault::BadLine));
    };
    let (other_read, behind) = range_field(rest, other);
    let Behind::Lines(next) = behind else {
        return Err(Failure::Refused(Fault::BadLine));
    };
    let range = range_of(&read)?;
    let other = range_of(&other_read)?;
    told(asked.reply(alloc, range, other, output), next)
}

#[inline(never)]
fn on_match<'t>(
    texts: &'t str,
    asked: AboutMatch,
    range: &mut RangeReader<'t>,
    output: &mut Output,
) -> Result<&'t str, Failure<Fault>>
    requires two { IsTwo asked }
    requires feed { HasFeed texts.now }
    ensures told { IsTold result output.old output.new
        (AnswersFields (match_word asked ∷ fields_ahead texts.now)) }
    ensures next { IfOk result (IsNext texts.now) }
{
    if let Some((interval, rest)) = word_field(texts) {
        let (version, behind) = version_field(rest);
        let Behind::Lines(next) = behind else {
            return Err(Failure::Refused(Fault::BadLine));
        };
        let version = version_of(&version)?;
        return told(put_truth(asked.reply_in(&interval, version), output), next);
    }
    let (read, behind) = range_field(texts, range);
    let Behind::Fields(rest) = behind else {
        return Err(Failure::Refused(Fault::BadLine));
    };
    let (version, behind) = version_field(rest);
    let Behind::Lines(next) = behind else {
        return Err(Failure::Refused(Fault::BadLine));
    };
    let range = range_of(&read)?;
    let version = version_of(&version)?;
    told(put_truth(asked.reply(range, version), output), next)
}

#[inline(never)]
fn on_outside<'t>(
    texts: &'t str,
    range: &mut RangeReader<'t>,
    output: &mut Output,
) -> Result<&'t str, Failure<Fault>>
    requires { HasFeed texts.now }
    ensures told { IsTold result output.old output.new
        (AnswersFields (codes "out" ∷ fields_ahead texts.now)) }
    ensures next { IfOk result (IsNext texts.now) }
{
    let (read, behind) = range_field(texts, range);
    let Behind::Fields(rest) = behind else {
        return Err(Failure::Refused(Fault::BadLine));
    };
    let (version, behind) = version_field(rest);
    let Behind::Fields(side) = behind else {
        return Err(Failure::Refused(Fault::BadLine));
    };
    let Some((asked, next)) = AboutMatch::outside(side) else {
        return Err(Failure::Refused(Fault::BadLine));
    };
    let range = range_of(&read)?;
    let version = version_of(&version)?;
    told(put_truth(asked.reply(range, version), output), next)
}

#[inline(never)]
fn on_best<'t>(
    texts: &'t str,
    asked: AboutBest,
    range: &mut RangeReader<'t>,
    output: &mut Output,
) -> Result<&'t str, Failure<Fault>>
    requires { HasFeed texts.now }
    ensures told { IsTold result output.old output.new
        (AnswersFields (best_word asked ∷ fields_ahead texts.now)) }
    ensures next { IfOk result (IsNext texts.now) }
{
    let (read, behind) = range_field(texts, range);
    let Behind::Fields(versions) = behind else {
        return Err(Failure::Refused(Fault::BadLine));
    };
    let range = range_of(&read)?;
    let (best, next) = best_of(asked, range, versions)?;
    told(put_borrowed(best, output), next)
}

impl AboutVersion<'_> {
    #[inline(always)]
    fn reply(self, alloc: Global, v: &VersionRef<'_>, output: &mut Output) -> Result<(), AllocError>
        ensures ok { OnOk result
            (output.new ≡ output.old ++ ended (version_reply self.entry v.now)) }
        ensures err { OnErr result (Extends output.old output.new) }
    {
        match self {
            AboutVersion::Ver => put_printed(v, output),
            AboutVersion::Inc(word) => {
                next_of(alloc, v, word, "", IdentifierBase::Value(0), output)
            }
            AboutVersion::IncWith(word, id) => {
                next_of(alloc, v, word, id, IdentifierBase::Value(0), output)
            }
            AboutVersion::IncFrom(word, id, base) => next_of(alloc, v, word, id, base, output),
        }
    }
}

// The next version after a version, or why there is none. An empty identifier is none, and the base
// `Value(0)` is that of a line without one.
#[inline(never)]
fn next_of(
    alloc: Global,
    v: &VersionRef<'_>,
    word: &str,
    id: &str,
    base: IdentifierBase,
    output: &mut Output,
) -> Result<(), AllocError>
    ensures ok { let told = answer_of_inc v.now word.now (Some id.now) (Some base) in
        OnOk result (output.new ≡ output.old ++ ended (next_text told)) }
    ensures err { OnErr result (Extends output.old output.new) }
{
    put_next(&v.next(alloc, word, Some(id), Some(base)), output)
}

impl AboutVersions {
    #[inline(always)]
    #[tactic(auto, using(crate::proofs::Bytes::extended))]
    fn reply(
        self,
        v: &VersionRef<'_>,
        w: &VersionRef<'_>,
        output: &mut Output,
    ) -> Result<(), AllocError>
        ensures ok { OnOk result
            (output.new ≡ output.old ++ ended (versions_reply self v.now w.now)) }
        ensures err { OnErr result (Extends output.old output.new) }
    {
        match self {
            AboutVersions::Cmp => put_order(v.cmp(w), output),
            AboutVersions::Diff => output.put(difference_line(v.diff(w))),
        }
    }
}

impl AboutRange {
    #[inline(always)]
    fn reply(self, alloc: Global, r: &RangeRef<'_>, output: &mut Output) -> Result<(), AllocError>
        ensures { IsPut result output.old output.new (RangeReply self r.now) }
    {
        match self {
            AboutRange::Print => put_range_line(r, output),
            AboutRange::Least => match r.least_start() {
                Some(version) => put_printed(version, output),
                None => put_found(r.min_version(alloc), output),
            },
        }
    }
}

impl AboutRanges {
    #[inline(always)]
    fn reply<'t>(
        self,
        alloc: Global,
        r: &RangeRef<'t>,
        s: &RangeRef<'t>,
        output: &mut Output,
    ) -> Result<(), AllocError>
        ensures { IsPut result output.old output.new (RangesReply self r.now s.now) }
    {
        match self {
            AboutRanges::And => put_combined(Combination::Intersection, alloc, r, s, output),
            AboutRanges::Minus => put_combined(Combination::Difference, alloc, r, s, output),
            AboutRanges::Beyond => put_found(r.least_beyond(alloc, s), output),
        }
    }
}

impl AboutMatch {
    #[inline(always)]
    fn reply(self, r: &RangeRef<'_>, v: &VersionRef<'_>) -> bool
        ensures { result ≡ matches self r.now v.now }
    {
        match self {
            AboutMatch::Sat => r.satisfies(v),
            AboutMatch::Pre => r.satisfies_with_prerelease(v, true),
            AboutMatch::Out(direction) => match r.outside(v, direction, false) {
                Ok(is_outside) => is_outside,
                Err(_) => unreachable!(),
            },
        }
    }

    // `reply` where the range is of one interval.
    #[inline(always)]
    fn reply_in(self, interval: &Interval<VersionRef<'_>>, v: &VersionRef<'_>) -> bool
        requires { IsTwo self }
        ensures { result ≡ matches self (interval.now ∷ []) v.now }
    {
        interval_accepts(interval, v, matches!(self, AboutMatch::Pre))
    }
}
