// The answer to one line.

ghost use Rattle.std.specs.Prelude.{◌≡◌, IfOk, OnOk, OnErr, []};
ghost use Rattle.semver_answers.specs.Internal.Ahead.{HasFeed, IsNext, behind_line, first_line};
ghost use Rattle.semver_answers.specs.Internal.Steps.{GrowsByAnswer};

use crate::fault::Fault;
use crate::fields::behind_line;
use crate::output::Output;
use crate::reply::{Scratch, reply};
use nodejs_semver::Failure;
use std::alloc::{AllocError, Global};
use std::str;

/// Puts the answer to the first line of a text behind the output, with a line feed, all or nothing.
/// Returns the text behind the line. It is inlined into the loop over the lines, so that none of
/// them pays for a call and for what the call returns.
#[inline(always)]
#[tactic(auto, using(crate::proofs::Bytes::cut_back))]
pub(crate) fn answer_text<'t>(
    alloc: Global,
    text: &'t str,
    scratch: &mut Scratch<'t>,
    output: &mut Output,
) -> Result<&'t str, AllocError>
    requires { HasFeed text.now }
    ensures ok { OnOk result
        (GrowsByAnswer (first_line text.now) output.old output.new) }
    ensures next { IfOk result (IsNext text.now) }
    ensures err { OnErr result (output.new ≡ output.old) }
{
    let len = output.len();
    match reply(alloc, text, scratch, output) {
        Ok(next) => Ok(next),
        Err(Failure::Refused(fault)) => {
            output.put(fault.line())?;
            Ok(behind_line(text))
        }
        Err(Failure::Memory(error)) => {
            output.truncate(len);
            Err(error)
        }
    }
}

/// Puts the answer to a line, which a line feed ends.
#[cold]
#[inline(never)]
pub(crate) fn answer_line(alloc: Global, line: &[u8], output: &mut Output) -> Result<(), AllocError>
    requires feed { HasFeed line.now }
    requires last { behind_line line.now ≡ [] }
    ensures ok { OnOk result
        (GrowsByAnswer (first_line line.now) output.old output.new) }
    ensures err { OnErr result (output.new ≡ output.old) }
{
    match str::from_utf8(line) {
        Ok(text) => {
            answer_text(alloc, text, &mut Scratch::new(alloc), output)?;
            Ok(())
        }
        Err(_) => output.put(Fault::BadLine.line()),
    }
}
