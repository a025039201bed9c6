//! Three sweeps over the calls, for what no contract can say or a second reader can confirm. The
//! program fails where one of the last two finds a fault. Standard input says what it makes of
//! these: with nothing there it stops after the first, and with `long` after the texts of 2,000,000
//! bytes of the second, which take longer than all else and are left out without that word. With
//! `?` and questions about range texts behind it, or `+` and version texts, it makes none of them
//! and answers for these.
//!
//! The first makes each call that allocates, and prints one line for each: what it returned and
//! what it borrowed, or `memory` in place of what it returned. `tools/allocation_failures.py` runs
//! it with one allocation after another failing.
//!
//! The second makes each call that allocates, with ample memory: versions of 1 to 40 and of 1,000
//! identifiers, ranges of 1 to 40 and of 1,000 intervals, texts of up to 2,000,000 bytes, the least
//! and the greatest numbers. No contract can say that an allocation was really refused, so that a
//! body which reports a failure without one is proved. This sweep is what rejects it.
//!
//! The third asks the fast and the loose reader of versions, and those of ranges, about the same
//! texts: where the fast one returns a value, the loose one must return the same. What `diagnosis`
//! says of a text must fit too: the flaw of a version text, and the ignored words of a range text.
//! The texts are all of one to four characters over a small alphabet, and a million that a grammar
//! makes and one edit damages.
#![tactic(auto)]

mod answers;
mod calls;
mod memory;
mod readers;

use std::io::{self, Read};
use std::process::ExitCode;

fn main(rt: HostRuntime) -> io::Result<ExitCode> {
    let alloc = rt.alloc();
    // A buffer of one byte takes no memory that could be refused.
    let mut word = [0];
    let is_given = rt.stdin().read(&mut word)? > 0;
    if word == *b"?" || word == *b"+" {
        let questions = io::read_to_string(alloc, rt.stdin())?;
        if word == *b"?" {
            answers::answer_all(&rt, alloc, &questions)?;
        } else {
            answers::show_versions(&rt, alloc, &questions)?;
        }
        return Ok(ExitCode::SUCCESS);
    }
    calls::show_all(&rt, alloc)?;
    if !is_given {
        return Ok(ExitCode::SUCCESS);
    }
    if word == *b"l" {
        memory::sweep(&rt, alloc, memory::LONG)?;
        return Ok(ExitCode::SUCCESS);
    }
    memory::sweep(&rt, alloc, memory::GROUPS)?;
    Ok(if readers::sweep(&rt, alloc)? {
        ExitCode::SUCCESS
    } else {
        ExitCode::FAILURE
    })
}
