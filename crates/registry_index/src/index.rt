// The table of the index, and how lines are put into it.

ghost use Rattle.std.specs.Prelude.{◌≡◌, IfErr, IfOk, IsTrue, Ok};
ghost use Rattle.registry_index.specs.Bound.{IsRowOf};
ghost use Rattle.registry_index.specs.Lines.{IsKeyOf, IsRefused, package_in, rest_in, version_in};
ghost use Rattle.sqlite.specs.Held.{state};
ghost use Rattle.sqlite.specs.State.{ExecutesInside, HasCleanDisk};
ghost use Rattle.sqlite_value.specs.Order.{Row};

use crate::line::{Line, cut, key_of, refusal};
use crate::trouble::Trouble;
use anyhow::anyhow;
use sqlite::{Alter, Transaction, params};
use std::alloc::Global;

/// The table, if it is not there yet.
pub const TABLE: &str = "CREATE TABLE IF NOT EXISTS release (package TEXT NOT NULL, \
    key BLOB NOT NULL, version TEXT NOT NULL, rest TEXT NOT NULL) STRICT; \
    CREATE UNIQUE INDEX IF NOT EXISTS by_key ON release (package, key, version)";

/// A line, in place of one with the same package and version.
pub const INSERT: &str = "INSERT OR REPLACE INTO release (package, key, version, rest) \
    VALUES (?1, ?2, ?3, ?4)";

/// Puts what a line says into the index by a statement. Its number is told if it is refused.
pub fn add<S: Alter>(
    alloc: Global,
    tx: &mut Transaction<'_, S>,
    insertion: &str,
    number: u64,
    text: &str,
) -> Result<usize, Trouble>
    ensures row { HasCleanDisk (state S.Store tx.new.conn.now)
        → IsTrue (state S.Store tx.old.conn.now).in_transaction
        → IfOk result (λ n. (row : Row) × IsRowOf text.now row × ExecutesInside 0 insertion.now row
        (state S.Store tx.old.conn.now) (state S.Store tx.new.conn.now) (Ok n)) }
    ensures refused { IfErr result (IsRefused text.now) }
{
    let (line, key) = read(alloc, number, text)?;
    Ok(tx.execute(
        insertion,
        params![line.package, &key, line.version, line.rest],
    )?)
}

// The parts of a line and the key of its version, or why the line is refused.
fn read(alloc: Global, number: u64, text: &str) -> Result<(Line<'_>, Vec<u8>), Trouble>
    ensures key { IfOk result (λ it. IsKeyOf (version_in text.now) it.1.items) }
    ensures package { IfOk result (λ it. it.0.package.now ≡ package_in text.now) }
    ensures version { IfOk result (λ it. it.0.version.now ≡ version_in text.now) }
    ensures rest { IfOk result (λ it. it.0.rest.now ≡ rest_in text.now) }
    ensures refused { IfErr result (IsRefused text.now) }
{
    let Some(line) = cut(text) else {
        return Err(Trouble::Line(number, anyhow!("no tab behind the package")));
    };
    match key_of(alloc, line.version) {
        Ok(Some(key)) => Ok((line, key)),
        Ok(None) => Err(Trouble::Line(number, refusal(line.version))),
        Err(error) => Err(Trouble::Index(error.into())),
    }
}
