// The counts of one kind of texts.

use crate::readers::kind::{Comparison, Kind};
use std::alloc::Global;
use std::{fmt, io};

/// How many texts of a kind both readers were asked about, how many of them the fast reader read,
/// and on how many the two disagreed.
#[derive(Drop)]
pub struct Tally {
    kind: Kind,
    asked: u64,
    read: u64,
    disagreements: u64,
}

impl Tally {
    pub fn new(kind: Kind) -> Tally {
        Tally {
            kind,
            asked: 0,
            read: 0,
            disagreements: 0,
        }
    }

    /// Asks both readers about a text, and prints it if they disagree.
    pub fn ask(&mut self, rt: &impl Print, alloc: Global, text: &str) -> io::Result<()> {
        let comparison = self.kind.compare(alloc, text)?;
        self.asked = self.asked.saturating_add(1);
        match comparison {
            Comparison::NotRead => Ok(()),
            Comparison::ReadAlike => {
                self.read = self.read.saturating_add(1);
                Ok(())
            }
            Comparison::ReadOtherwise => {
                self.read = self.read.saturating_add(1);
                self.disagreements = self.disagreements.saturating_add(1);
                let kind = self.kind;
                println!(rt; "the readers disagree on the {kind} text {text:?}")
            }
        }
    }

    /// Whether the readers agreed on each text.
    pub fn agree(&self) -> bool {
        self.disagreements == 0
    }
}

impl fmt::Display for Tally {
    fn fmt<W: fmt::Write>(&self, f: &mut fmt::Formatter<W>) -> fmt::Result {
        let asked = self.asked;
        let read = self.read;
        let disagreements = self.disagreements;
        write!(
            f,
            "{asked} asked, {read} read by the fast reader, {disagreements} disagreements"
        )
    }
}
