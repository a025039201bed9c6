// The errors of a line.

/// What is wrong with a line.
#[derive(Clone, Copy, PartialEq, Eq, Debug)]
pub(crate) enum Fault {
    /// The line asks no question: it is not UTF-8, its first field is not a command, or the fields
    /// behind it are not that command's.
    BadLine,
    /// `Version::parse` rejects a text.
    BadVersion,
    /// `Range::parse` rejects a text.
    BadRange,
}

impl Fault {
    ghost use Rattle.std.specs.Prelude.{◌≡◌};
    ghost use Rattle.semver_answers.specs.Lines.{ended};
    ghost use Rattle.semver_answers.specs.Names.{fault_word};

    /// The answer to the line, with a line feed.
    pub(crate) fn line(self) -> &'static [u8]
        ensures { result.now ≡ ended (fault_word self) }
    {
        match self {
            Fault::BadLine => b"bad line\n",
            Fault::BadVersion => b"bad version\n",
            Fault::BadRange => b"bad range\n",
        }
    }
}
