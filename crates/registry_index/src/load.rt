// Loading lines, all of them or none.

ghost use Rattle.std.specs.Prelude.{◌≡◌, false, IfOk};
ghost use Rattle.registry_index.specs.declared.request.Answer.TheVariants.{Loaded};

use crate::index::{INSERT, TABLE, add};
use crate::input::Input;
use crate::request::Answer;
use crate::trouble::Trouble;
use anyhow::anyhow;
use sqlite::{Alter, Connection};
use std::alloc::Global;
use std::io::{BufReader, Lines};

/// Puts lines into the index, in one transaction, and makes the table if it is not there yet.
pub fn load<S: Alter>(
    alloc: Global,
    conn: &mut Connection<S>,
    lines: &mut Lines<BufReader<Input>>,
) -> Result<Answer, Trouble>
    requires { conn.old.in_transaction ≡ false }
    ensures { IfOk result (λ answer. answer ≡ Loaded) }
{
    let mut tx = conn.transaction();
    tx.execute_batch(TABLE)?;
    let mut number: u64 = 0;
    for line in lines {
        number = number.saturating_add(1);
        match line {
            Ok(line) => {
                add(alloc, &mut tx, INSERT, number, &line)?;
            }
            Err(error) => return Err(Trouble::Line(number, anyhow!(error))),
        }
    }
    tx.commit()?;
    Ok(Answer::Loaded)
}
