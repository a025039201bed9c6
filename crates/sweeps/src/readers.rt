//! The fast and the loose readers of versions and of ranges, and what `diagnosis` says of a text.

mod damaged;
mod grammar;
mod ignored;
mod kind;
mod short;
mod tally;

use crate::readers::kind::Kind;
use std::alloc::Global;
use std::io;

const KINDS: [Kind; 2] = [Kind::Version, Kind::Range];

/// Asks both readers of each kind about each text, and prints for each kind how many texts it asked
/// about and how many of them the fast reader read. It prints each text on which two readers
/// disagree, and returns whether there is none.
pub fn sweep(rt: &impl Print, alloc: Global) -> io::Result<bool> {
    let mut agree = true;
    for kind in KINDS {
        let tally = short::ask(rt, alloc, kind)?;
        println!(rt; "{kind} texts of 1 to 4 characters: {tally}")?;
        agree = agree && tally.agree();
    }
    for kind in KINDS {
        let tally = damaged::ask(rt, alloc, kind)?;
        println!(rt; "damaged {kind} texts: {tally}")?;
        agree = agree && tally.agree();
    }
    Ok(agree)
}
