// A million texts that a grammar makes and one edit damages: of up to eight characters before the
// edit, and of up to nine behind it.

use crate::readers::grammar;
use crate::readers::kind::Kind;
use crate::readers::tally::Tally;
use rand::{Rng, RngExt, SeedableRng};
use rand_xoshiro::Xoshiro256PlusPlus;
use std::alloc::{AllocError, Global};
use std::io;

const SEED: u64 = 7;

const TEXTS: usize = 1_000_000;

// The characters that an edit puts in: those of the grammars, and some that are in none.
const CHARACTERS: [char; 24] = [
    '0', '1', '2', '9', 'x', 'X', '*', 'a', 'Z', 'v', 'V', '.', '-', '+', '<', '=', '>', '~', '^',
    '|', ' ', '\t', '\u{a0}', '\u{141}',
];

/// Asks both readers about a million damaged texts.
pub fn ask(rt: &impl Print, alloc: Global, kind: Kind) -> io::Result<Tally> {
    let mut rng = Xoshiro256PlusPlus::seed_from_u64(SEED);
    let mut tally = Tally::new(kind);
    for _ in 0..TEXTS {
        let text = grammar::text(alloc, &mut rng, kind)?;
        let text = damaged(alloc, &mut rng, &text)?;
        tally.ask(rt, alloc, &text)?;
    }
    Ok(tally)
}

// Inserts, replaces or deletes a character. One that would be replaced by itself is deleted.
fn damaged<R: Rng>(alloc: Global, rng: &mut R, text: &str) -> Result<String, AllocError> {
    let mut characters: Vec<char> = text.chars().collect(alloc)?;
    let place = rng.random_range(0..=characters.len());
    let character = CHARACTERS[rng.random_range(0..CHARACTERS.len())];
    if place == characters.len() {
        characters.push(character)?;
    } else {
        match rng.random_range(0u8..3) {
            0 => characters.insert(place, character)?,
            1 if characters[place] != character => characters[place] = character,
            _ => {
                characters.remove(place);
            }
        }
    }
    characters.iter().collect(alloc)
}
