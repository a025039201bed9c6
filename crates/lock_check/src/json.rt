// Findings as JSON: an object for each, on a line, in printable ASCII.

ghost use Rattle.lock_check.specs.Reports.{ascii_text, hex_digit, in_ascii, json_line, json_row};
ghost use Rattle.lock_check.specs.Reports.{pair_text, row_data, text_or_null, unit_text};
ghost use Rattle.serde_json.specs.Data.{no_members, object as object_data, put as with_member};
ghost use Rattle.serde_json.specs.View.{members_view, view};
ghost use Rattle.serde_json.specs.Written.{compact_text};
ghost use Rattle.std.specs.Prelude.{◌≡◌, ◌<◌, ◌++◌, IfOk, OnOk, option_map, string_bytes};

use crate::row::Row;
use serde_json::{Map, Value, put};
use std::alloc::{AllocError, Global};

/// Writes the object of a row, and a line feed. Fails only if allocation fails.
pub fn write_row(alloc: Global, row: &Row<'_>, output: &mut String) -> Result<(), AllocError>
    ensures { OnOk result (string_bytes output.new ≡ string_bytes output.old ++ json_row row.now) }
{
    let text = object_text(alloc, row)?;
    write_line(&text, output)
}

/// Writes a text of JSON in ASCII, and a line feed. Fails only if allocation fails.
pub fn write_line(text: &str, output: &mut String) -> Result<(), AllocError>
    ensures { OnOk result (string_bytes output.new
        ≡ string_bytes output.old ++ json_line text.now) }
{
    write_ascii(text, output)?;
    output.push('\n')
}

// The text of the object of a row.
fn object_text(alloc: Global, row: &Row<'_>) -> Result<String, AllocError>
    ensures { IfOk result (λ s. string_bytes s ≡ compact_text (row_data row.now)) }
{
    let object = object(alloc, row)?;
    object.to_string(alloc)
}

// The object of a row.
fn object(alloc: Global, row: &Row<'_>) -> Result<Value, AllocError>
    ensures { IfOk result (λ v. view v ≡ row_data row.now) }
{
    let mut object = Map::new(alloc);
    put_row(alloc, row, &mut object)?;
    Ok(Value::Object(object))
}

// Puts the members of a row into an empty object.
#[tactic(auto, unfolding(crate::specs::Reports::row_data))]
fn put_row(alloc: Global, row: &Row<'_>, object: &mut Map<String, Value>) -> Result<(), AllocError>
    ensures { members_view object.old.entries ≡ no_members
        → OnOk result (object_data (members_view object.new.entries) ≡ row_data row.now) }
{
    put_text(alloc, "kind", Some(row.kind.word()), object)?;
    put_text(alloc, "folder", Some(row.folder), object)?;
    put_text(alloc, "dependency", row.name, object)?;
    put_text(alloc, "need", row.need, object)?;
    put_text(alloc, "found", row.found, object)?;
    put_text(alloc, "path", row.path.as_deref(), object)?;
    put_text(alloc, "message", Some(row.message.as_str()), object)?;
    put(object, alloc, "line", Value::from(row.line))
}

/// Puts a text, or `null`, into an object. Fails only if allocation fails.
pub fn put_text(
    alloc: Global,
    name: &str,
    text: Option<&str>,
    object: &mut Map<String, Value>,
) -> Result<(), AllocError>
    ensures { OnOk result (members_view object.new.entries ≡ with_member name.now
        (text_or_null (option_map (λ t. t.now) text.entry)) (members_view object.old.entries)) }
{
    let value = text_or_null(alloc, text)?;
    put(object, alloc, name, value)
}

/// A text, or `null`.
pub fn text_or_null(alloc: Global, text: Option<&str>) -> Result<Value, AllocError>
    ensures { IfOk result (λ v. view v ≡ text_or_null (option_map (λ t. t.now) text.entry)) }
{
    match text {
        Some(text) => Value::try_from_str(alloc, text),
        None => Ok(Value::Null),
    }
}

// Writes a text, in which all characters but printable ASCII are escaped.
fn write_ascii(text: &str, output: &mut String) -> Result<(), AllocError>
    ensures { OnOk result (string_bytes output.new
        ≡ string_bytes output.old ++ ascii_text text.now) }
{
    for letter in text.chars() {
        write_letter(letter, output)?;
    }
    Ok(())
}

fn write_letter(letter: char, output: &mut String) -> Result<(), AllocError>
    ensures { OnOk result (string_bytes output.new ≡ string_bytes output.old ++ in_ascii letter) }
{
    let code = letter as u32;
    if code < 0x7F {
        return output.push(letter);
    }
    if code < 0x1_0000 {
        return write_unit(code, output);
    }
    write_pair(code - 0x1_0000, output)
}

// Writes the two units of a character by its number above 65536.
fn write_pair(above: u32, output: &mut String) -> Result<(), AllocError>
    ensures { OnOk result (string_bytes output.new ≡ string_bytes output.old ++ pair_text above) }
{
    write_unit(0xD800 + above / 0x400, output)?;
    write_unit(0xDC00 + above % 0x400, output)
}

// Writes a unit of UTF-16 by its number.
fn write_unit(unit: u32, output: &mut String) -> Result<(), AllocError>
    ensures { OnOk result (string_bytes output.new ≡ string_bytes output.old ++ unit_text unit) }
{
    output.push_str("\\u")?;
    output.push(hex_digit(unit / 0x1000))?;
    output.push(hex_digit(unit / 0x100))?;
    output.push(hex_digit(unit / 0x10))?;
    output.push(hex_digit(unit))
}

// The last hexadecimal digit of a number.
fn hex_digit(number: u32) -> char
    ensures value { result ≡ hex_digit number }
    ensures ascii { result < 128 }
{
    let digit = (number % 16) as u8;
    let code = if digit < 10 {
        b'0' + digit
    } else {
        b'a' - 10 + digit
    };
    code as char
}
