// Each text of one to four characters over a small alphabet.

use crate::readers::kind::Kind;
use crate::readers::tally::Tally;
use std::alloc::{AllocError, Global};
use std::io;

const ALPHABET: [char; 8] = ['1', '.', 'x', '-', '>', '~', '|', ' '];

const LONGEST: usize = 4;

const TEXTS: usize = 8 + 8 * 8 + 8 * 8 * 8 + 8 * 8 * 8 * 8;

/// Asks both readers about each text of one to four characters of the alphabet.
pub fn ask(rt: &impl Print, alloc: Global, kind: Kind) -> io::Result<Tally> {
    let mut tally = Tally::new(kind);
    for number in 1..=TEXTS {
        let text = text_of(alloc, number)?;
        tally.ask(rt, alloc, &text)?;
    }
    Ok(tally)
}

// The text of a number, whose digits in base 8 stand for characters, the lowest digit first. The
// digits go from 1 to 8, not from 0: so each text is that of one number, and the numbers up to
// `TEXTS` have the texts of one to four characters.
fn text_of(alloc: Global, number: usize) -> Result<String, AllocError> {
    let mut text = String::new(alloc);
    let mut rest = number;
    for _ in 0..LONGEST {
        if rest == 0 {
            break;
        }
        rest -= 1;
        text.push(ALPHABET[rest % ALPHABET.len()])?;
        rest /= ALPHABET.len();
    }
    Ok(text)
}
