// Runs over inputs of several lines, and what a run leaves where an end fails.

use super::ends::{FailingReader, FailingWriter};
use super::long_text;
use semver_answers::run::{RunFault, run};
use std::alloc::{AllocError, Global};
use std::io::ErrorKind;
use std::test::Fail;

// Whether a run over this input meets no fault and writes just this output.
fn tells(alloc: Global, input: &[u8], output: &[u8]) -> bool {
    tells_from(alloc, FailingReader::whole(input), output)
}

// The same of a reader.
fn tells_from(alloc: Global, mut reader: FailingReader<'_>, output: &[u8]) -> bool {
    let mut writer = FailingWriter::whole(alloc);
    let ran = run(alloc, &mut reader, &mut writer);
    ran.is_ok() && writer.written.as_slice() == output
}

const LINES: &[(&str, &str)] = &[
    ("", ""),
    ("\n", "bad line\n"),
    ("\n\n", "bad line\nbad line\n"),
    ("\r\n", "bad line\n"),
    ("cmp;1.0.0;2.0.0", "less\n"),
    ("cmp;1.0.0;2.0.0\n", "less\n"),
    ("cmp;1.0.0;2.0.0\r\ncmp;2.0.0;1.0.0", "less\ngreater\n"),
    (
        "cmp;1.0.0;2.0.0\n\ncmp;1.0.0;1.0.0\n\n",
        "less\nbad line\nequal\nbad line\n",
    ),
];

#[test]
fn run_ends_a_line_at_each_line_feed(rt: HostRuntime) {
    for &(input, output) in LINES {
        assert!(rt;
            tells(rt.alloc(), input.as_bytes(), output.as_bytes()),
            "{input:?}"
        );
    }
}

// Whether a run over this input, read so many bytes a call, writes so many times these answers.
fn tells_often(alloc: Global, input: &str, step: usize, answers: &str, count: usize) -> bool {
    let rest = input.as_bytes();
    let kind = ErrorKind::ConnectionReset;
    let reader = FailingReader {
        rest,
        step,
        before: None,
        kind,
    };
    match long_text(alloc, "", answers, count) {
        Ok(output) => tells_from(alloc, reader, output.as_bytes()),
        Err(_) => false,
    }
}

// An input of more than one chunk, in which lines lie across the chunks.
#[test]
fn run_answers_a_long_input(rt: HostRuntime) -> Result<(), Fail> {
    let input = long_text(rt.alloc(), "", "cmp;1.0.0;2.0.0\ncmp;2;1\n", 10_000)?;
    let answers = "less\nbad version\n";
    assert!(rt; tells_often(rt.alloc(), &input, usize::MAX, answers, 10_000));
    Ok(())
}

// Some 3,200 reads of one byte.
#[test]
fn run_reads_byte_by_byte(rt: HostRuntime) -> Result<(), Fail> {
    let input = long_text(rt.alloc(), "", "cmp;1.0.0;2.0.0\n", 200)?;
    assert!(rt; tells_often(rt.alloc(), &input, 1, "less\n", 200));
    Ok(())
}

// The answers to one chunk take more than 130,000 bytes.
#[test]
fn run_writes_more_than_it_reads(rt: HostRuntime) -> Result<(), Fail> {
    let input = long_text(rt.alloc(), "", "range;1\n", 20_000)?;
    assert!(rt; tells_often(rt.alloc(), &input, usize::MAX, ">=1.0.0 <2.0.0-0\n", 20_000));
    Ok(())
}

fn long_line(alloc: Global) -> Result<String, AllocError> {
    let mut input = long_text(alloc, "cmp;1.0.0;", "x", 2_000_000)?;
    input.push_str("\ncmp;1.0.0;2.0.0")?;
    Ok(input)
}

// A line longer than a chunk, and one behind it.
#[test]
fn run_answers_a_long_line(rt: HostRuntime) -> Result<(), Fail> {
    let input = long_line(rt.alloc())?;
    assert!(rt; tells(rt.alloc(), input.as_bytes(), b"bad version\nless\n"));
    Ok(())
}

// The line of a range of so many alternatives, and its answer behind other text.
fn alternatives(alloc: Global, front: &str, count: usize) -> Result<String, AllocError> {
    let mut text = long_text(alloc, front, "1.2.3||", count)?;
    text.push_str("1.2.3\n")?;
    Ok(text)
}

// One answer of more than 70,000 bytes.
#[test]
fn run_writes_a_long_answer(rt: HostRuntime) -> Result<(), Fail> {
    let input = alternatives(rt.alloc(), "range;", 10_000)?;
    let output = alternatives(rt.alloc(), "", 10_000)?;
    assert!(rt; tells(rt.alloc(), input.as_bytes(), output.as_bytes()));
    Ok(())
}

// The intersection of ranges of so many intervals is printed part by part: here each alternative of
// the first range is a part. Nothing is in the first, a middle and the last one.
#[test]
fn run_writes_a_long_intersection(rt: HostRuntime) -> Result<(), Fail> {
    let input = alternatives(rt.alloc(), "and;^2||^1||^3||<2||^4;", 17_000)?;
    let output = alternatives(rt.alloc(), "", 34_001)?;
    assert!(rt; tells(rt.alloc(), input.as_bytes(), output.as_bytes()));
    Ok(())
}

// The same where no pair of many meets.
#[test]
fn run_tells_of_no_intersection(rt: HostRuntime) -> Result<(), Fail> {
    let input = alternatives(rt.alloc(), "and;^2||^3;", 17_000)?;
    assert!(rt; tells(rt.alloc(), input.as_bytes(), b"none\n"));
    Ok(())
}

// A first range of a difference, which is printed in a part of 1 alternative and parts of 2.
// Nothing is left of the first part, of some in the middle, and of the last ones.
const PARTS: &str = "minus;1.2.3||^1||^3||1.2.3||1.2.3||1.2.3||1.2.3||<1||1.2.3||1.2.3||1.2.3||\
1.2.3||1.2.3||1.2.3||1.2.3||1.2.3;";

#[test]
fn run_writes_a_difference_in_parts(rt: HostRuntime) -> Result<(), Fail> {
    let input = alternatives(rt.alloc(), PARTS, 17_000)?;
    let output = b">=1.0.0 <1.2.3||>1.2.3 <2.0.0-0||>=3.0.0 <4.0.0-0||<1.0.0\n";
    assert!(rt; tells(rt.alloc(), input.as_bytes(), output));
    Ok(())
}

// The same where nothing is left of any part.
#[test]
fn run_tells_of_no_difference(rt: HostRuntime) -> Result<(), Fail> {
    let input = alternatives(rt.alloc(), "minus;1.2.3||1.2.3||1.2.3||1.2.3;", 17_000)?;
    assert!(rt; tells(rt.alloc(), input.as_bytes(), b"none\n"));
    Ok(())
}

// A line for each command but `pre`, `min` and `ver`, and two faults; the last one has no line
// feed.
const INPUT: &[u8] = b"cmp;1.0.0-alpha;1.0.0-alpha.1\n\
sat;^1.2.3-rc.4;1.2.3-rc.5\n\
range;>2 <1\n\
and;>=1.2.3+a;>=1.2.3+b\n\
sat;^1\n\
minus;>=1.2.3;1.2.3 || 2.0.0\n\
least;>1.0.0-a\n\
beyond;>=1.2.3-a;>=1.0.0\n\
sat;^x;y\n\
max;^1;1.2.0+a;1.2.0+b;2.0.0\n\
inc;1.0.0-rc.1+build.4;prerelease;rc;false\n\
diff;2.0.0-pre;1.2.3\n\
out;0.7.x;0.7.2-beta;>";

const ANSWERS: &[u8] = b"less\n\
true\n\
>=3.0.0||<1.0.0\n\
>=1.2.3+b\n\
bad line\n\
>1.2.3 <2.0.0||>2.0.0\n\
1.0.0-a.0\n\
1.2.3-a\n\
bad range\n\
1.2.0+b\n\
1.0.0-rc.2+build.4\n\
premajor\n\
true\n";

const ANSWER_COUNT: usize = 13;

fn reader(step: usize, before: Option<usize>) -> FailingReader<'static> {
    FailingReader {
        rest: INPUT,
        step,
        before,
        kind: ErrorKind::Interrupted,
    }
}

fn writer(alloc: Global, step: usize, before: Option<usize>) -> FailingWriter {
    FailingWriter {
        written: Vec::new(alloc),
        step,
        before,
        kind: ErrorKind::Interrupted,
    }
}

// How many lines end in these bytes.
fn ended(bytes: &[u8]) -> usize {
    bytes.iter().filter(|&&byte| byte == b'\n').count()
}

// Whether just the first `told` bytes of the answers were written.
fn has_told(writer: &FailingWriter, told: usize) -> bool {
    ANSWERS.get(..told) == Some(writer.written.as_slice())
}

// Whether just the answers of the first `lines` lines were written.
fn has_answered(writer: &FailingWriter, lines: usize) -> bool {
    let written = writer.written.as_slice();
    let whole = written.is_empty() || written.ends_with(b"\n");
    whole && ANSWERS.starts_with(written) && ended(written) == lines
}

// Whether a run whose reader and writer pass so many bytes a call writes all answers. Neither end
// fails if its call `before` is behind its last one.
fn tells_all(alloc: Global, mut reader: FailingReader<'static>, mut writer: FailingWriter) -> bool {
    let ran = run(alloc, &mut reader, &mut writer);
    ran.is_ok() && has_told(&writer, ANSWERS.len())
}

// Whether a run whose reader fails at its call `k` ends with `Read` and has answered just so many
// lines.
fn stops_reading(alloc: Global, step: usize, k: usize, lines: usize) -> bool {
    let mut output = writer(alloc, usize::MAX, None);
    let ran = run(alloc, &mut reader(step, Some(k)), &mut output);
    matches!(&ran, Err(RunFault::Read)) && has_answered(&output, lines)
}

// Whether a run over this writer ends with `Write`, and the writer that it leaves.
fn stops_writing(alloc: Global, read: usize, writer: &mut FailingWriter) -> bool {
    let ran = run(alloc, &mut reader(read, None), writer);
    matches!(&ran, Err(RunFault::Write))
}

// How many bytes a read and a write pass.
const STEPS: &[(usize, usize)] = &[
    (usize::MAX, usize::MAX),
    (1, usize::MAX),
    (usize::MAX, 1),
    (1, 1),
    (7, 3),
];

#[test]
fn run_tells_the_same_a_byte_a_call(rt: HostRuntime) {
    let alloc = rt.alloc();
    for &(read, write) in STEPS {
        assert!(rt;
            tells_all(alloc, reader(read, None), writer(alloc, write, None)),
            "{read} and {write}"
        );
    }
}

#[test]
fn run_answers_whole_lines_before_a_failed_read(rt: HostRuntime) {
    let alloc = rt.alloc();
    for k in 0..=INPUT.len() {
        assert!(rt;
            stops_reading(alloc, 1, k, ended(&INPUT[..k])),
            "at read {k}"
        );
    }
    assert!(rt; stops_reading(alloc, usize::MAX, 0, 0));
    assert!(rt; stops_reading(alloc, usize::MAX, 1, ANSWER_COUNT - 1));
}

#[test]
fn run_ends_at_a_failed_write(rt: HostRuntime) {
    let alloc = rt.alloc();
    for read in [1, 5, usize::MAX] {
        for k in 0..ANSWERS.len() {
            let mut output = writer(alloc, 1, Some(k));
            assert!(rt;
                stops_writing(alloc, read, &mut output) && has_told(&output, k),
                "at write {k}"
            );
        }
    }
}

// Each line is read alone, so that each write takes a whole answer.
#[test]
fn run_ends_at_a_failed_write_of_a_whole_answer(rt: HostRuntime) {
    let alloc = rt.alloc();
    for k in 0..ANSWER_COUNT {
        let mut output = writer(alloc, usize::MAX, Some(k));
        assert!(rt;
            stops_writing(alloc, 1, &mut output) && has_answered(&output, k),
            "at write {k}"
        );
    }
}

#[test]
fn run_ends_at_a_write_that_takes_nothing(rt: HostRuntime) {
    let alloc = rt.alloc();
    for read in [1, usize::MAX] {
        let mut output = writer(alloc, 0, None);
        assert!(rt; stops_writing(alloc, read, &mut output) && has_told(&output, 0));
    }
}

// An end whose failing call never comes changes nothing.
#[test]
fn run_answers_all_where_the_failing_call_never_comes(rt: HostRuntime) {
    let alloc = rt.alloc();
    let reads = INPUT.len() + 1;
    assert!(rt;
        tells_all(
            alloc,
            reader(1, Some(reads)),
            writer(alloc, 1, Some(ANSWERS.len()))
        )
    );
    assert!(rt;
        tells_all(
            alloc,
            reader(usize::MAX, Some(2)),
            writer(alloc, usize::MAX, Some(2))
        )
    );
}
