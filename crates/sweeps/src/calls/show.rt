// The lines that are printed.

use nodejs_semver::Failure;
use std::alloc::AllocError;
use std::fmt::{Debug, Display};
use std::{fmt, io};

/// What a call returned.
#[derive(Drop)]
pub enum Outcome<T> {
    Value(T),
    Nothing,
    Memory,
}

impl<T> From<Result<T, AllocError>> for Outcome<T> {
    fn from(returned: Result<T, AllocError>) -> Outcome<T> {
        match returned {
            Ok(value) => Outcome::Value(value),
            Err(_) => Outcome::Memory,
        }
    }
}

impl<T: Display> Display for Outcome<T> {
    fn fmt<W: fmt::Write>(&self, f: &mut fmt::Formatter<W>) -> fmt::Result {
        match self {
            Outcome::Value(value) => write!(f, "{value}"),
            Outcome::Nothing => f.write_str("nothing"),
            Outcome::Memory => f.write_str("memory"),
        }
    }
}

/// The outcome of a call that may find nothing.
pub fn found<T>(returned: Result<Option<T>, AllocError>) -> Outcome<T> {
    match returned {
        Ok(Some(value)) => Outcome::Value(value),
        Ok(None) => Outcome::Nothing,
        Err(_) => Outcome::Memory,
    }
}

/// The outcome of a call that may reject its input.
pub fn read<T, E: Drop>(returned: Result<T, Failure<E>>) -> Outcome<T> {
    match returned {
        Ok(value) => Outcome::Value(value),
        Err(Failure::Refused(_)) => Outcome::Nothing,
        Err(Failure::Memory(_)) => Outcome::Memory,
    }
}

/// Two values that a call borrowed.
#[derive(Clone, Copy)]
pub struct Both<'a, B> {
    pub one: &'a B,
    pub other: &'a B,
}

impl<'a, B: Display> Display for Both<'a, B> {
    fn fmt<W: fmt::Write>(&self, f: &mut fmt::Formatter<W>) -> fmt::Result {
        let one = self.one;
        let other = self.other;
        write!(f, "{one} and {other}")
    }
}

/// A value that has no text of its own: its `Debug` is printed.
#[derive(Drop)]
struct Debugged<T>(T);

impl<T: Debug> Display for Debugged<T> {
    fn fmt<W: fmt::Write>(&self, f: &mut fmt::Formatter<W>) -> fmt::Result {
        let value = &self.0;
        write!(f, "{value:?}")
    }
}

/// Prints what a call returned, and what it borrowed or gave back.
pub fn show<T: Display + Drop, B: Display>(
    rt: &impl Print,
    call: &str,
    outcome: Outcome<T>,
    borrowed: &B,
) -> io::Result<()> {
    println!(rt; "{call}: {outcome} from {borrowed}")
}

/// The same, of a value that has no text of its own.
pub fn show_debug<T: Debug + Drop, B: Display>(
    rt: &impl Print,
    call: &str,
    outcome: Outcome<T>,
    borrowed: &B,
) -> io::Result<()> {
    let outcome = match outcome {
        Outcome::Value(value) => Outcome::Value(Debugged(value)),
        Outcome::Nothing => Outcome::Nothing,
        Outcome::Memory => Outcome::Memory,
    };
    show(rt, call, outcome, borrowed)
}

/// Prints that the values which a call needs could not be made.
pub fn no_values(rt: &impl Print, call: &str) -> io::Result<()> {
    println!(rt; "{call}: no values")
}
