// What fails while an index is open.

use anyhow::anyhow;
use sqlite::Error;

/// The index fails, or a line of a load is refused, whose number comes with the reason.
#[derive(Drop)]
pub enum Trouble {
    Index(Error),
    Line(u64, anyhow::Error),
}

impl From<Error> for Trouble {
    ghost use Rattle.std.specs.Prelude.{◌≡◌};
    ghost use Rattle.registry_index.specs.declared.trouble.Trouble.TheVariants.{Index};

    ghost from_gives = { λ error trouble. trouble ≡ Index error };

    fn from(error: Error) -> Trouble {
        Trouble::Index(error)
    }
}

impl Trouble {
    /// What is told of it: which file fails, or which line of which input.
    pub fn told(self, file: &str, input: &str) -> anyhow::Error {
        match self {
            Trouble::Index(error) => anyhow!(error).context(format_args!("{file:?}")),
            Trouble::Line(number, why) => why.context(format_args!("{input:?}, line {number}")),
        }
    }
}
