// What lines are read from.

use std::fs::File;
use std::io::{self, Read, Stdin};

/// Standard input, or a file.
#[derive(Drop)]
pub enum Input {
    Standard(Stdin),
    File(File),
}

impl Read for Input {
    fn read(&mut self, buf: &mut [u8]) -> io::Result<usize> {
        match self {
            Input::Standard(input) => input.read(buf),
            Input::File(file) => file.read(buf),
        }
    }
}
