// Answers from the index.

ghost use Rattle.std.specs.Prelude.{◌≡◌, ◌∷◌, ◌++◌, [], IfOk, OnOk, map, take};
ghost use Rattle.registry_index.specs.Searches.{AreFound, IsCount, IsFirst, first_told};
ghost use Rattle.registry_index.specs.Searches.{row_of};
ghost use Rattle.sqlite.specs.Held.{state};
ghost use Rattle.sqlite.specs.State.{HasCleanDisk};
ghost use Rattle.sqlite_value.specs.declared.value.Value.TheVariants.{Blob, Text};

use key_spans::KeySpan;
use sqlite::{Alter, Connection, Error, Row, params};
use std::alloc::Global;
use std::io::{self, Write};

/// A version of the index, in the order of its key and then its text.
#[derive(PartialEq, Eq, PartialOrd, Ord, Drop)]
pub struct Found {
    key: Vec<u8>,
    version: String,
    rest: String,
}

impl Found {
    fn of(row: &Row) -> Result<Found, Error>
        ensures { IfOk result (λ found. take 3 row.now ≡ row_of found) }
    {
        let key = row.get(0)?;
        let version = row.get(1)?;
        let rest = row.get(2)?;
        Ok(Found { key, version, rest })
    }

    fn first_of(rows: &[Row]) -> Result<Option<Found>, Error>
        ensures { IfOk result (first_told rows.now) }
    {
        match rows.first() {
            Some(row) => Ok(Some(Found::of(row)?)),
            None => Ok(None),
        }
    }

    /// Writes a line of the version, and what belongs to it behind a tab.
    pub fn write(&self, output: &mut impl Write) -> io::Result<()> {
        writeln!(output, "{}\t{}", self.version, self.rest)
    }
}

/// What a query finds of a package in the spans of a range, in order.
pub fn search<S: Alter>(
    alloc: Global,
    conn: &mut Connection<S>,
    query: &str,
    name: &str,
    spans: &[KeySpan],
) -> Result<Vec<Found>, Error>
    ensures { HasCleanDisk (state S.Store conn.new) → IfOk result (λ found. AreFound
        (state S.Store) query.now name.now spans.now conn.old conn.new found.items) }
{
    let mut found = Vec::new(alloc);
    for span in spans {
        let rows = conn.query_all(
            query,
            params![name, &span.start, &span.stop, span.releases_only],
        )?;
        push_all(&rows, &mut found)?;
    }
    found.sort()?;
    Ok(found)
}

fn push_all(rows: &[Row], found: &mut Vec<Found>) -> Result<(), Error>
    ensures { OnOk result (map row_of found.new.items
        ≡ map row_of found.old.items ++ map (take 3) rows.now) }
{
    for row in rows {
        found.push(Found::of(row)?)?;
    }
    Ok(())
}

/// How many versions of a package a query counts above a key.
pub fn count<S: Alter>(
    conn: &mut Connection<S>,
    query: &str,
    name: &str,
    key: &[u8],
) -> Result<i64, Error>
    ensures counted { HasCleanDisk (state S.Store conn.new) → IfOk result (IsCount query.now
        (Text name.now ∷ Blob key.now ∷ []) (state S.Store conn.old) (state S.Store conn.new)) }
    ensures clean { HasCleanDisk (state S.Store conn.new) → HasCleanDisk (state S.Store conn.old) }
{
    let rows = conn.query_all(query, params![name, key])?;
    match rows.first() {
        Some(row) => row.get(0),
        None => Ok(0),
    }
}

/// The first version of a package that a query finds.
pub fn first<S: Alter>(
    conn: &mut Connection<S>,
    query: &str,
    name: &str,
) -> Result<Option<Found>, Error>
    ensures found { HasCleanDisk (state S.Store conn.new) → IfOk result (IsFirst query.now
        (Text name.now ∷ []) (state S.Store conn.old) (state S.Store conn.new)) }
    ensures clean { HasCleanDisk (state S.Store conn.new) → HasCleanDisk (state S.Store conn.old) }
{
    let rows = conn.query_all(query, params![name])?;
    Found::first_of(&rows)
}
