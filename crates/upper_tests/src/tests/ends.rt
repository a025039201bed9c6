// Readers and writers over memory that fail at a call of choice, or pass few bytes a call.

ghost use Rattle.std.specs.Prelude.{Some};

use std::alloc::Global;
use std::io;
use std::io::{ErrorKind, Read, Write};

/// Reads from memory, at most `step` bytes a call.
#[derive(Drop)]
pub struct FailingReader<'a> {
    pub rest: &'a [u8],
    pub step: usize,
    // How many calls come before the one that fails; none fails after it, or where this is `None`.
    pub before: Option<usize>,
    pub kind: ErrorKind,
}

impl<'a> FailingReader<'a> {
    /// A reader of which no call fails.
    pub fn whole(rest: &'a [u8]) -> FailingReader<'a> {
        FailingReader {
            rest,
            step: usize::MAX,
            before: None,
            kind: ErrorKind::ConnectionReset,
        }
    }
}

impl Read for FailingReader<'_> {
    ghost remaining = { λ r. Some r.rest.now };

    fn read(&mut self, buf: &mut [u8]) -> io::Result<usize> {
        if let Some(before) = self.before {
            self.before = before.checked_sub(1);
            if before == 0 {
                return Err(io::Error::from(self.kind));
            }
        }
        let rest = self.rest;
        let n = buf.len().min(rest.len()).min(self.step.max(1));
        buf[..n].copy_from_slice(&rest[..n]);
        self.rest = &rest[n..];
        Ok(n)
    }
}

/// Writes to memory, at most `step` bytes a call.
#[derive(Drop)]
pub struct FailingWriter {
    pub written: Vec<u8>,
    pub step: usize,
    // How many calls come before the one that fails; none fails after it, or where this is `None`.
    pub before: Option<usize>,
    pub kind: ErrorKind,
}

impl FailingWriter {
    /// A writer of which no call fails.
    pub fn whole(alloc: Global) -> FailingWriter {
        FailingWriter {
            written: Vec::new(alloc),
            step: usize::MAX,
            before: None,
            kind: ErrorKind::ConnectionReset,
        }
    }
}

impl Write for FailingWriter {
    ghost contents = { λ w. Some w.written.items };

    fn write(&mut self, buf: &[u8]) -> io::Result<usize> {
        if let Some(before) = self.before {
            self.before = before.checked_sub(1);
            if before == 0 {
                return Err(io::Error::from(self.kind));
            }
        }
        let n = buf.len().min(self.step);
        self.written.extend_from_slice(&buf[..n])?;
        Ok(n)
    }

    fn flush(&mut self) -> io::Result<()> {
        Ok(())
    }
}
