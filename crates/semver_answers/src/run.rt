// Answers each line of an input.

ghost use Rattle.std.specs.Prelude.{◌≡◌, ◌<◌, ◌++◌, [], true, length, take};
ghost use Rattle.std.specs.Prelude.{IfSome, IfNone, IsUtf8, IfOk, IfErr, OnOk, OnErr};
ghost use Rattle.std.specs.Io.KnownBytes.{Appends, IsAtEnd};
ghost use Rattle.semver_answers.specs.Answers.{Answers};
ghost use Rattle.semver_answers.specs.Lines.{no_feed};
ghost use Rattle.semver_answers.specs.Outcome.{Ran};
ghost use Rattle.semver_answers.specs.Internal.Ahead.{HasFeed, behind_line, ends_whole, first_line};
ghost use Rattle.semver_answers.specs.Internal.Steps.{Finished, GrowsByAnswer, Stopped, Took};
ghost use Rattle.semver_answers.specs.Internal.Steps.{Turned, WritesFront};

use crate::answer::{answer_line, answer_text};
use crate::output::Output;
use crate::reply::Scratch;
use memchr::{memchr, memrchr};
use semver_core::scan::text_front;
use std::alloc::{AllocError, Global};
use std::io::{Read, Write};

/// Why a run ended before the end of its input.
#[derive(Debug, Drop)]
pub enum RunFault {
    /// The input could not be read.
    Read,
    /// The output could not be written, or accepted no byte.
    Write,
    /// An allocation failed.
    Memory,
}

// How many bytes a read asks for.
const CHUNK: usize = 65536;

// What stays from one read to the next.
#[derive(Drop)]
struct Lines {
    // The line that has not ended yet, as far as it was read.
    pending: Vec<u8>,
    // The answers that wait to be written.
    output: Output,
}

impl Lines {
    // Answers the pending line, which goes on and ends with these bytes.
    #[tactic(auto, using(crate::proofs::Firsts::longer))]
    fn end_line(&mut self, alloc: Global, end: &[u8]) -> Result<(), AllocError>
        requires pending { no_feed self.old.pending.items ≡ true }
        requires feed { HasFeed end.now }
        requires last { behind_line end.now ≡ [] }
        ensures ok { OnOk result (GrowsByAnswer (self.old.pending.items ++ first_line end.now)
            self.old.output self.new.output) }
        ensures ended { OnOk result (self.new.pending.items ≡ []) }
        ensures err { OnErr result (self.new.output ≡ self.old.output) }
    {
        if self.pending.is_empty() {
            return answer_line(alloc, end, &mut self.output);
        }
        self.pending.extend_from_slice(end)?;
        let line = self.pending.as_slice();
        answer_line(alloc, line, &mut self.output)?;
        self.pending.clear();
        Ok(())
    }

    // Answers the lines that end in a chunk. What is left of it waits in `pending`.
    fn take(&mut self, alloc: Global, chunk: &[u8]) -> Result<(), AllocError>
        requires { no_feed self.old.pending.items ≡ true }
        ensures { Took result self.old.pending.items chunk.now self.new.pending.items
            self.new.output }
    {
        self.output.truncate(0);
        // Lines at the front of what is left are checked to be UTF-8 all at once.
        let mut text = "";
        let mut rest = chunk;
        let mut scratch = Scratch::new(alloc);
        'lines: loop {
            if text.is_empty() {
                let Some((line, behind)) = first_line(rest) else {
                    return self.pending.extend_from_slice(rest);
                };
                self.end_line(alloc, line)?;
                let (front, back) = front_lines(behind);
                text = front;
                rest = back;
            } else {
                text = answer_text(alloc, text, &mut scratch, &mut self.output)?;
            }
        }
    }
}

// The first line with its line feed, and what stands behind it; `None` where there is none.
#[tactic(auto, using(crate::proofs::Firsts::alone))]
fn first_line(bytes: &[u8]) -> Option<(&[u8], &[u8])>
    ensures some { IfSome result (λ cut. bytes.now ≡ cut.0.now ++ cut.1.now) }
    ensures feed { IfSome result (λ cut. HasFeed cut.0.now) }
    ensures last { IfSome result (λ cut. behind_line cut.0.now ≡ []) }
    ensures none { IfNone result (no_feed bytes.now ≡ true) }
{
    let at = memchr(b'\n', bytes)?;
    Some((&bytes[..at + 1], &bytes[at + 1..]))
}

// The longest text at the front of some bytes that is whole lines, and what stands behind it.
#[tactic(auto, using(crate::proofs::Firsts::ends_none))]
fn front_lines(bytes: &[u8]) -> (&str, &[u8])
    ensures whole { bytes.now ≡ result.0.now ++ result.1.now }
    ensures lines { ends_whole result.0.now ≡ true }
    ensures utf8 { IsUtf8 result.0.now }
{
    let text = text_front(bytes);
    match memrchr(b'\n', text.as_bytes()) {
        Some(at) => (&text[..at + 1], &bytes[at + 1..]),
        None => ("", bytes),
    }
}

// Writes these bytes by calls of `write` alone. A call that accepts no byte is an error.
fn write_out<W: Write>(writer: &mut W, bytes: &[u8]) -> Result<(), RunFault>
    ensures ok { OnOk result (Appends (W.contents writer.old) (W.contents writer.new) bytes.now) }
    ensures err { OnErr result
        (WritesFront (W.contents writer.old) (W.contents writer.new) bytes.now) }
    ensures fault { IfErr result (λ fault. fault ≡ RunFault.Write) }
{
    let mut rest = bytes;
    'writes: while !rest.is_empty() {
        match writer.write(rest) {
            Ok(0) => return Err(RunFault::Write),
            Ok(n) => rest = &rest[n..],
            Err(_) => return Err(RunFault::Write),
        }
    }
    Ok(())
}

// The buffer that a read fills. No clause tells its length, so that no proof counts it out.
fn read_buffer(alloc: Global) -> Result<Vec<u8>, AllocError>
    ensures { IfOk result (λ buffer. 0 < length buffer.items) }
{
    Vec::from_elem(alloc, 0u8, CHUNK)
}

// One read, and the answers of the lines that end in it, which are written before the next read.
// Returns how many bytes were read.
fn turn<R: Read, W: Write>(
    alloc: Global,
    reader: &mut R,
    writer: &mut W,
    buffer: &mut [u8],
    lines: &mut Lines,
) -> Result<usize, RunFault>
    requires { no_feed lines.old.pending.items ≡ true }
    ensures ok { IfOk result (λ n.
        Turned Answers (R.remaining reader.old) (R.remaining reader.new) (W.contents writer.old)
        (W.contents writer.new)
        lines.old.pending.items lines.new.pending.items (take n buffer.new)) }
    ensures end { IfOk result (λ n.
        n ≡ 0 → 0 < length buffer.old → IsAtEnd (R.remaining reader.new)) }
    ensures fault { IfErr result
        (Stopped (R.remaining reader.old) (R.remaining reader.new) (W.contents writer.old)
        (W.contents writer.new) lines.old.pending.items) }
{
    let Ok(n) = reader.read(buffer) else {
        return Err(RunFault::Read);
    };
    let taken = lines.take(alloc, &buffer[..n]);
    write_out(writer, lines.output.as_slice())?;
    match taken {
        Ok(()) => Ok(n),
        Err(_) => Err(RunFault::Memory),
    }
}

// Answers a last line that has no line feed, if it is not empty.
fn finish<W: Write>(alloc: Global, writer: &mut W, lines: &mut Lines) -> Result<(), RunFault>
    requires { no_feed lines.old.pending.items ≡ true }
    ensures { Finished (W.contents writer.old)
        (W.contents writer.new) lines.old.pending.items result }
{
    lines.output.truncate(0);
    if lines.pending.is_empty() {
        return Ok(());
    }
    match lines.end_line(alloc, b"\n") {
        Ok(()) => write_out(writer, lines.output.as_slice()),
        Err(_) => Err(RunFault::Memory),
    }
}

/// Reads lines and writes an answer to each, with a line feed. The answers of the lines that a read
/// completed are written before the next read. A last line without a line feed counts if it is not
/// empty.
///
/// Each error of the reader or the writer ends the run at once, an interruption too, and so does a
/// write that accepts no byte. After `u64::MAX` reads the error is `Read`. Memory is allocated for
/// a chunk of the input, its answers and the longest line.
#[tactic(auto, using(crate::proofs::Steps::nothing_ran))]
pub fn run<R: Read, W: Write>(alloc: Global, reader: &mut R, writer: &mut W) -> Result<(), RunFault>
    ensures { Ran result (R.remaining reader.old) (R.remaining reader.new) (W.contents writer.old)
        (W.contents writer.new) }
{
    match read_buffer(alloc) {
        Ok(mut buffer) => {
            let mut lines = Lines {
                pending: Vec::new(alloc),
                output: Output::new(alloc),
            };
            run_turns(alloc, reader, writer, buffer.as_mut_slice(), &mut lines)
        }
        Err(_) => Err(RunFault::Memory),
    }
}

// Reads into the buffer until the end of the input. No line is pending.
fn run_turns<R: Read, W: Write>(
    alloc: Global,
    reader: &mut R,
    writer: &mut W,
    buffer: &mut [u8],
    lines: &mut Lines,
) -> Result<(), RunFault>
    requires room { 0 < length buffer.old }
    requires none { lines.old.pending.items ≡ [] }
    ensures { Ran result (R.remaining reader.old) (R.remaining reader.new) (W.contents writer.old)
        (W.contents writer.new) }
{
    'reads: for _ in 0..u64::MAX {
        let n = turn(alloc, reader, writer, buffer, lines)?;
        if n == 0 {
            return finish(alloc, writer, lines);
        }
    }
    Err(RunFault::Read)
}
