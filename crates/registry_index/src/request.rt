// What is asked of an index, and what it answers.

ghost use Rattle.std.specs.Prelude.{◌≡◌, IfOk, false};
ghost use Rattle.registry_index.specs.Searches.{IsAnswer};
ghost use Rattle.sqlite.specs.Held.{state};
ghost use Rattle.sqlite.specs.State.{HasCleanDisk};

use crate::input::Input;
use crate::load::load;
use crate::query::{ALL, BEST, NEWER, NEWEST};
use crate::search::{Found, count, first, search};
use crate::trouble::Trouble;
use key_spans::KeySpan;
use sqlite::{Alter, Connection, Error, FileStore};
use sqlite_disk::Disk;
use std::alloc::Global;
use std::io::{self, BufReader, Lines, Write};
use std::process::ExitCode;

/// What is asked of an index.
#[derive(Drop)]
pub enum Request<'a> {
    /// To put lines into it.
    Load(&'a mut Lines<BufReader<Input>>),
    /// The greatest version of a package in some spans.
    Best(&'a str, &'a [KeySpan]),
    /// All versions of a package in some spans.
    All(&'a str, &'a [KeySpan]),
    /// How many versions of a package are newer than one with a key, and the newest.
    Behind(&'a str, &'a [u8]),
}

/// What an index answers.
#[derive(Drop)]
pub enum Answer {
    Loaded,
    Best(Option<Found>),
    All(Vec<Found>),
    Behind(i64, Option<Found>),
}

/// Puts a request to an index, and closes it. This is the one call that names where an index is
/// stored: all below it is proved for any store, and not once more for that of a file.
pub fn ask<D: Disk + Drop>(
    alloc: Global,
    mut conn: Connection<FileStore<D>>,
    request: Request<'_>,
) -> Result<Answer, Trouble>
    requires { conn.in_transaction ≡ false }
{
    let answer = request.put(alloc, &mut conn);
    after_close(answer, conn.close())
}

// What an index answers once it is closed.
fn after_close(
    answer: Result<Answer, Trouble>,
    closed: Result<(), Error>,
) -> Result<Answer, Trouble> {
    match closed {
        // Only a load changes the file.
        Err(error) if matches!(answer, Ok(Answer::Loaded)) => Err(Trouble::Index(error)),
        _ => answer,
    }
}

impl Request<'_> {
    fn put<S: Alter>(self, alloc: Global, conn: &mut Connection<S>) -> Result<Answer, Trouble>
        requires { conn.old.in_transaction ≡ false }
        ensures { HasCleanDisk (state S.Store conn.new) → IfOk result
            (IsAnswer (state S.Store) self.entry conn.old conn.new) }
    {
        match self {
            Request::Load(lines) => load(alloc, conn, lines),
            Request::Best(name, spans) => {
                let mut found = search(alloc, conn, BEST, name, spans)?;
                Ok(Answer::Best(found.pop()))
            }
            Request::All(name, spans) => Ok(Answer::All(search(alloc, conn, ALL, name, spans)?)),
            Request::Behind(name, key) => {
                let newer = count(conn, NEWER, name, key)?;
                Ok(Answer::Behind(newer, first(conn, NEWEST, name)?))
            }
        }
    }
}

impl Answer {
    /// The exit status, which tells whether there is what was asked for.
    pub fn status(&self) -> ExitCode {
        let is_some = match self {
            Answer::Best(None) | Answer::Behind(_, None) => false,
            Answer::All(found) => !found.is_empty(),
            _ => true,
        };
        ExitCode::from(if is_some { 0 } else { 1 })
    }

    /// Writes what was asked for.
    pub fn write(&self, output: &mut impl Write) -> io::Result<()> {
        match self {
            Answer::Best(Some(best)) => best.write(output),
            Answer::All(found) => {
                for it in found {
                    it.write(output)?;
                }
                Ok(())
            }
            Answer::Behind(count, Some(newest)) => {
                write!(output, "{count}\t")?;
                newest.write(output)
            }
            _ => Ok(()),
        }
    }
}
