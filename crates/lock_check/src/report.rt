// What is printed of a lock file, and the formats of it.

ghost use Rattle.lock_check.specs.Answers.{IsReport, is_json};
ghost use Rattle.lock_check.specs.Findings.{is_told, kind_of};
ghost use Rattle.lock_check.specs.Reports.{json_row, annotation, text_line, row_text};
ghost use Rattle.lock_check.specs.Rows.{told_fault, told_finding, told_row};
ghost use Rattle.lock_check.specs.Summary.{summary};
ghost use Rattle.std.specs.List.{flat_map};
ghost use Rattle.std.specs.Prelude.{◌≡◌, ◌++◌, [], if◌then◌else◌, IfOk, OnOk, filter, map};
ghost use Rattle.std.specs.Prelude.{string_bytes};

use crate::annotation::write_annotation;
use crate::check::{Findings, check};
use crate::finding::Counts;
use crate::json::write_row;
use crate::options::{Format, Options};
use crate::row::{Row, rows};
use lock_files::{Lines, Lock};
use std::alloc::{AllocError, Global};
use std::fmt::Write;

/// What is printed of a lock file, and the exit status.
#[derive(Drop)]
pub struct Report {
    pub output: String,
    pub status: u8,
}

/// The report on a lock file: each dependency of each package is judged, each finding that is told
/// of has a row, and the counts and the exit status are those of the findings. `file` is the name
/// of the lock file, and `text` its text, by which the rows tell lines. Fails only if allocation
/// fails.
pub fn report_on(
    alloc: Global,
    lock: Lock<'_>,
    file: &str,
    text: &str,
    options: Options<'_>,
) -> Result<Report, AllocError>
    ensures { IfOk result (IsReport lock.entry file.now options.entry.format
        options.entry.is_quiet) }
{
    let findings = check(alloc, lock)?;
    let counts = Counts::of(lock, &findings);
    let rows = told_rows(alloc, lock, &findings, text, options.is_quiet)?;
    let mut output = String::new(alloc);
    write_report(alloc, file, &rows, counts, options, &mut output)?;
    Ok(Report {
        output,
        status: counts.exit_status(),
    })
}

// The rows of what is told, by the text of the lock file.
fn told_rows<'a>(
    alloc: Global,
    lock: Lock<'a>,
    findings: &Findings<'a>,
    text: &str,
    is_quiet: bool,
) -> Result<Vec<Row<'a>>, AllocError>
    ensures { IfOk result (λ rows. map told_row rows.items
        ≡ map told_fault findings.now.faults.items
        ++ map told_finding (filter (λ f. is_told is_quiet (kind_of f.outcome))
        findings.now.of_dependencies.items)) }
{
    let places = if findings.are_told() { text } else { "" };
    let lines = Lines::of(alloc, places, lock.is_nested)?;
    rows(alloc, findings, &lines, is_quiet)
}

// Writes the rows, and the counts unless it is quiet.
fn write_report(
    alloc: Global,
    file: &str,
    rows: &[Row<'_>],
    counts: Counts,
    options: Options<'_>,
    output: &mut String,
) -> Result<(), AllocError>
    ensures { OnOk result (string_bytes output.new ≡ string_bytes output.old
        ++ flat_map (row_text options.entry.format file.now) rows.now
        ++ (if options.entry.is_quiet then [] else summary (is_json options.entry.format) counts)) }
{
    write_rows(alloc, options.format, file, rows, output)?;
    if !options.is_quiet {
        counts.write(alloc, options.format == Format::Json, output)?;
    }
    Ok(())
}

/// Writes each row in this format, on a line of its own. The file is the name of the lock file.
/// Fails only if allocation fails.
pub fn write_rows(
    alloc: Global,
    format: Format,
    file: &str,
    rows: &[Row<'_>],
    output: &mut String,
) -> Result<(), AllocError>
    ensures { OnOk result (string_bytes output.new
        ≡ string_bytes output.old ++ flat_map (row_text format file.now) rows.now) }
{
    for row in rows {
        write_in(alloc, format, file, row, output)?;
    }
    Ok(())
}

fn write_in(
    alloc: Global,
    format: Format,
    file: &str,
    row: &Row<'_>,
    output: &mut String,
) -> Result<(), AllocError>
    ensures { OnOk result (string_bytes output.new
        ≡ string_bytes output.old ++ row_text format file.now row.now) }
{
    match format {
        Format::Text => write_line(file, row, output),
        Format::Json => write_row(alloc, row, output),
        Format::Annotations => write_annotation(file, row, output),
    }
}

fn write_line(file: &str, row: &Row<'_>, output: &mut String) -> Result<(), AllocError>
    ensures { OnOk result (string_bytes output.new
        ≡ string_bytes output.old ++ text_line file.now row.now) }
{
    let (line, message) = (row.line, row.message.as_str());
    writeln!(output, "{file}:{line}: {message}")
}
