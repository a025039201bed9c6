// The laws that call what allocates.

use crate::calls::show::{Both, Outcome, found, read, show};
use nodejs_semver::Range;
use nodejs_semver::laws::both_readers;
use nodejs_semver::laws::headline::{Findings, headline};
use std::alloc::Global;
use std::{fmt, io};

/// Calls the laws of two range texts.
pub fn show_all(rt: &impl Print, alloc: Global, one: &str, other: &str) -> io::Result<()> {
    let both = Both {
        one: &one,
        other: &other,
    };
    let found_of_both = match read(headline(alloc, one, other)) {
        Outcome::Value(findings) => Outcome::Value(Told(findings)),
        Outcome::Nothing => Outcome::Nothing,
        Outcome::Memory => Outcome::Memory,
    };
    show(rt, "laws::headline", found_of_both, &both)?;
    for text in [one, other] {
        let alike = found(both_readers(alloc, text).map(first_alone));
        show(rt, "laws::both_readers", alike, &text)?;
    }
    Ok(())
}

// The range of the loose reader.
fn first_alone(read: Option<(Range, Option<Range>)>) -> Option<Range> {
    match read {
        Some((range, _)) => Some(range),
        None => None,
    }
}

// The findings of the headline as a line shows them.
#[derive(Drop)]
struct Told(Findings);

impl fmt::Display for Told {
    fn fmt<W: fmt::Write>(&self, f: &mut fmt::Formatter<W>) -> fmt::Result {
        let first = &self.0.first;
        write!(f, "{first}, both ")?;
        write_or_none(&self.0.both, f)?;
        write!(f, ", first alone ")?;
        write_or_none(&self.0.first_alone, f)?;
        write!(f, ", least ")?;
        write_or_none(&self.0.least, f)
    }
}

fn write_or_none<T: fmt::Display, W: fmt::Write>(
    value: &Option<T>,
    f: &mut fmt::Formatter<W>,
) -> fmt::Result {
    match value {
        Some(value) => write!(f, "{value}"),
        None => write!(f, "none"),
    }
}
