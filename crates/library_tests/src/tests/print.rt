// What is printed where no line asks: with a width, and read again.

use super::{is_same, is_text};
use nodejs_semver::laws::{meaning, printed_in_field, reread_range};
use nodejs_semver::{OutsideDirection, Range};
use std::alloc::Global;
use std::fmt::Display;
use std::test::Fail;

// Whether a value prints as this text in a wide field, in a narrow one with zeros, and cut to one
// character.
fn prints_as<D: Display>(alloc: Global, value: &D, text: &str) -> bool {
    match format!(in alloc; "{value:*>60}|{value:03}|{value:^.1}") {
        Ok(printed) => is_thrice(alloc, &printed, text),
        Err(_) => false,
    }
}

fn is_thrice(alloc: Global, printed: &str, text: &str) -> bool {
    match format!(in alloc; "{text}|{text}|{text}") {
        Ok(wanted) => printed == wanted.as_str(),
        Err(_) => false,
    }
}

fn range_prints_as(alloc: Global, text: &str) -> bool {
    match Range::parse(alloc, text) {
        Ok(range) => prints_as(alloc, &range, text),
        Err(_) => false,
    }
}

#[test]
fn width_fill_and_precision_change_nothing(rt: HostRuntime) {
    let text = ">=1.2.0 <2.0.0-0||<=0.5.9007199254740991";
    assert!(rt; range_prints_as(rt.alloc(), text));
    assert!(rt; prints_as(rt.alloc(), &OutsideDirection::Higher, ">"));
}

fn range_in_field(alloc: Global, text: &str, printed: &str) -> bool {
    match Range::parse(alloc, text) {
        Ok(range) => is_text(printed_in_field(alloc, &range, 60, 1), printed),
        Err(_) => false,
    }
}

#[test]
fn printed_in_field_ignores_width_and_precision(rt: HostRuntime) {
    assert!(rt; range_in_field(rt.alloc(), "^1.2", ">=1.2.0 <2.0.0-0"));
}

#[test]
fn reread_range_gives_an_equal_range(rt: HostRuntime) -> Result<(), Fail> {
    meaning();
    let range = Range::parse(rt.alloc(), ">1.2.3")?;
    assert!(rt; is_same(reread_range(rt.alloc(), &range).ok(), &range));
    Ok(())
}

// The same of a range of three intervals.
#[test]
fn reread_range_gives_three_intervals(rt: HostRuntime) -> Result<(), Fail> {
    meaning();
    let range = Range::parse(rt.alloc(), ">3||2||<1.0.0-a")?;
    assert!(rt; is_same(reread_range(rt.alloc(), &range).ok(), &range));
    Ok(())
}
