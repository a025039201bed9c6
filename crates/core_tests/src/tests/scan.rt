// Whitespace, numbers and identifiers at a place of a text.

use semver_core::scan::{identifiers, number, skip_whitespace, trim};
use std::alloc::{AllocError, Global};

// Each whitespace character before and behind the same text.
const BLANK_AROUND: &[&str] = &[
    "\u{9}1.2\u{9}",
    "\u{A}1.2\u{A}",
    "\u{B}1.2\u{B}",
    "\u{C}1.2\u{C}",
    "\u{D}1.2\u{D}",
    "\u{20}1.2\u{20}",
    "\u{A0}1.2\u{A0}",
    "\u{1680}1.2\u{1680}",
    "\u{2000}1.2\u{2000}",
    "\u{2001}1.2\u{2001}",
    "\u{2002}1.2\u{2002}",
    "\u{2003}1.2\u{2003}",
    "\u{2004}1.2\u{2004}",
    "\u{2005}1.2\u{2005}",
    "\u{2006}1.2\u{2006}",
    "\u{2007}1.2\u{2007}",
    "\u{2008}1.2\u{2008}",
    "\u{2009}1.2\u{2009}",
    "\u{200A}1.2\u{200A}",
    "\u{2028}1.2\u{2028}",
    "\u{2029}1.2\u{2029}",
    "\u{202F}1.2\u{202F}",
    "\u{205F}1.2\u{205F}",
    "\u{3000}1.2\u{3000}",
    "\u{FEFF}1.2\u{FEFF}",
];

const NO_BLANK_AROUND: &[&str] = &[
    "\u{85}1.2\u{85}",
    "\u{200B}1.2\u{200B}",
    "\u{180E}1.2\u{180E}",
];

// Texts, and what is left of them.
const TRIMMED: &[(&str, &str)] = &[
    ("", ""),
    (" ", ""),
    ("\t\r\n \u{FEFF}\u{3000} ", ""),
    (" \u{FEFF}1.x || 2 ", "1.x || 2"),
    (
        "\u{A0}\u{2028} >=1.0.0\u{FEFF}<2.0.0",
        ">=1.0.0\u{FEFF}<2.0.0",
    ),
];

#[test]
fn trim_takes_off_each_whitespace_character(rt: HostRuntime) {
    for &text in BLANK_AROUND {
        assert!(rt; trim(text) == "1.2", "{text:?}");
    }
}

#[test]
fn trim_keeps_what_is_no_whitespace(rt: HostRuntime) {
    for &text in NO_BLANK_AROUND {
        assert!(rt; trim(text) == text, "{text:?}");
    }
}

#[test]
fn trim_keeps_whitespace_inside(rt: HostRuntime) {
    for &(text, middle) in TRIMMED {
        assert!(rt; trim(text) == middle, "{text:?}");
    }
}

#[test]
fn skip_whitespace_stops_at_another_character(rt: HostRuntime) {
    assert!(rt; skip_whitespace(" \u{3000}a", 0) == 4);
}

#[test]
fn number_reads_a_whole_run(rt: HostRuntime) {
    assert!(rt; number("x12.", 1) == Some((12, 3)));
    assert!(rt; number("x12.", 0) == None);
}

// Where the identifiers at the front of a text end, if there are any.
fn identifiers_end(alloc: Global, text: &str) -> Result<Option<usize>, AllocError> {
    match identifiers(alloc, text, 0) {
        Ok(Some((_, end))) => Ok(Some(end)),
        Ok(None) => Ok(None),
        Err(error) => Err(error),
    }
}

#[test]
fn identifiers_leaves_a_last_dot(rt: HostRuntime) {
    assert!(rt; identifiers_end(rt.alloc(), "-a.1.") == Ok(Some(4)));
    assert!(rt; identifiers_end(rt.alloc(), "+") == Ok(None));
}
