// Findings as commands of a workflow of GitHub, which shows them at the line of the lock file.

ghost use Rattle.lock_check.specs.Reports.{annotation, command_escaped, command_text, level_word};
ghost use Rattle.std.specs.Prelude.{◌≡◌, ◌++◌, OnOk, string_bytes};

use crate::finding::Kind;
use crate::row::Row;
use std::alloc::AllocError;
use std::fmt::Write;

/// Writes the command for a row. Fails only if allocation fails.
pub fn write_annotation(file: &str, row: &Row<'_>, output: &mut String) -> Result<(), AllocError>
    ensures { OnOk result (string_bytes output.new
        ≡ string_bytes output.old ++ annotation file.now row.now) }
{
    let (level, line) = (level(row.kind), row.line);
    write!(output, "::{level} file=")?;
    write_text(true, file, output)?;
    write!(output, ",line={line}::")?;
    write_text(false, row.message.as_str(), output)?;
    output.push('\n')
}

// How grave a finding is to GitHub.
fn level(kind: Kind) -> &'static str
    ensures { result.now ≡ level_word kind }
{
    match kind {
        Kind::Skipped => "notice",
        _ => "error",
    }
}

// Writes a text with GitHub's escapes, as that of a property or of the message.
fn write_text(is_property: bool, text: &str, output: &mut String) -> Result<(), AllocError>
    ensures { OnOk result (string_bytes output.new
        ≡ string_bytes output.old ++ command_text is_property text.now) }
{
    for letter in text.chars() {
        write_letter(is_property, letter, output)?;
    }
    Ok(())
}

fn write_letter(is_property: bool, letter: char, output: &mut String) -> Result<(), AllocError>
    ensures { OnOk result (string_bytes output.new
        ≡ string_bytes output.old ++ command_escaped is_property letter) }
{
    match letter {
        '%' => output.push_str("%25"),
        '\r' => output.push_str("%0D"),
        '\n' => output.push_str("%0A"),
        ':' if is_property => output.push_str("%3A"),
        ',' if is_property => output.push_str("%2C"),
        _ => output.push(letter),
    }
}
