//! The calls that allocate, with ample memory.

mod ample;
mod borrowed;
mod json;
mod numbers;
mod ranges;
mod texts;
mod versions;

use crate::memory::ample::Calls;
use nodejs_semver::MAX_SAFE_INTEGER;
use std::alloc::{AllocError, Global};
use std::{fmt, io};

/// What the values of a group have in common.
#[derive(Clone, Copy)]
pub enum Group {
    // Versions with so many identifiers, from the one count to the other.
    Identifiers(u32, u32),
    // Versions of so many bytes.
    LongVersions(u32),
    // Versions of a number.
    Number(u64),
    // Ranges of so many intervals, from the one count to the other.
    Intervals(u32, u32),
    // Ranges that accept no version.
    Empty,
    // Ranges of so many bytes.
    LongRanges(u32),
}

impl Group {
    // Makes each call about the values of the group.
    fn ask(self, alloc: Global, calls: &mut Calls) -> Result<(), AllocError> {
        match self {
            Group::Identifiers(from, to) => versions::ask_counts(alloc, calls, from, to),
            Group::LongVersions(length) => versions::ask_long(alloc, calls, length as usize),
            Group::Number(number) => numbers::ask(alloc, calls, number),
            Group::Intervals(from, to) => ranges::ask_counts(alloc, calls, from, to),
            Group::Empty => ranges::ask_empty(alloc, calls),
            Group::LongRanges(length) => ranges::ask_long(alloc, calls, length as usize),
        }
    }

    // The words of the group before its least size, between its sizes, and behind the greatest.
    fn words(&self) -> (&'static str, &'static str, &'static str) {
        match self {
            Group::Identifiers(_, _) => ("", " to ", " identifiers"),
            Group::LongVersions(_) => ("versions of ", "", " bytes"),
            Group::Number(_) => ("the number ", "", ""),
            Group::Intervals(_, _) => ("", " to ", " intervals"),
            Group::Empty => ("ranges that accept no version", "", ""),
            Group::LongRanges(_) => ("ranges of ", "", " bytes"),
        }
    }

    // Its least size, and the greatest one, if these are two.
    fn sizes(&self) -> (Option<u64>, Option<u64>) {
        match *self {
            Group::Identifiers(from, to) | Group::Intervals(from, to) => {
                let greatest = if from < to { Some(u64::from(to)) } else { None };
                (Some(u64::from(from)), greatest)
            }
            Group::LongVersions(length) | Group::LongRanges(length) => {
                (Some(u64::from(length)), None)
            }
            Group::Number(number) => (Some(number), None),
            Group::Empty => (None, None),
        }
    }
}

impl fmt::Display for Group {
    fn fmt<W: fmt::Write>(&self, f: &mut fmt::Formatter<W>) -> fmt::Result {
        let (before, between, behind) = self.words();
        match self.sizes() {
            (Some(from), Some(to)) => write!(f, "{before}{from}{between}{to}{behind}"),
            (Some(size), None) => write!(f, "{before}{size}{behind}"),
            (None, _) => f.write_str(before),
        }
    }
}

/// The groups but those of the longest texts.
pub const GROUPS: &[Group] = &[
    Group::Identifiers(1, 40),
    Group::Identifiers(1000, 1000),
    Group::LongVersions(255),
    Group::LongVersions(256),
    Group::LongVersions(257),
    // The least and the greatest numbers that a text and that a version can have.
    Group::Number(0),
    Group::Number(MAX_SAFE_INTEGER),
    Group::Number(MAX_SAFE_INTEGER + 1),
    Group::Number(u64::MAX),
    Group::Intervals(1, 40),
    Group::Intervals(1000, 1000),
    Group::Empty,
    Group::LongRanges(255),
    Group::LongRanges(256),
    Group::LongRanges(257),
];

/// The groups of the longest texts.
pub const LONG: &[Group] = &[Group::LongVersions(2_000_000), Group::LongRanges(2_000_000)];

/// Makes each call that allocates, about the values of each of these groups, and prints how many
/// calls it made. An allocation failure is an error.
pub fn sweep(rt: &impl Print, alloc: Global, groups: &[Group]) -> io::Result<()> {
    for &group in groups {
        let mut calls = Calls::new();
        group.ask(alloc, &mut calls)?;
        println!(rt; "{group}: {calls}")?;
    }
    Ok(())
}
