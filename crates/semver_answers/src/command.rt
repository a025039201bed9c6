// The commands that lines begin with.

/// The first field of a line. `Question` says what each command asks.
#[derive(Clone, Copy)]
pub(crate) enum Command {
    Cmp,
    Ver,
    Diff,
    Inc,
    Range,
    And,
    Minus,
    Least,
    Beyond,
    Sat,
    Pre,
    Out,
    Max,
    Min,
}

impl Command {
    ghost use Rattle.std.specs.Prelude.{◌≡◌, ◌≢◌, ◌++◌, ◌∷◌, ◌+◌, ℕ, List, []};
    ghost use Rattle.std.specs.Prelude.{length, drop, IfSome, IfNone};
    ghost use Rattle.semver_answers.specs.Internal.Ahead.{HasFeed, fields_ahead, behind_line};
    ghost use Rattle.semver_answers.specs.Internal.CommandWords.{command_word, IsUnknown};

    /// The command that a text begins with, and the text behind the `;` after it.
    #[inline(always)]
    pub(crate) fn of(text: &str) -> Option<(Command, &str)>
        requires { HasFeed text.now }
        ensures some { IfSome result (λ cut.
            fields_ahead text.now ≡ command_word cut.0 ∷ fields_ahead cut.1.now) }
        ensures next { IfSome result (λ cut. behind_line text.now ≡ behind_line cut.1.now) }
        ensures feed { IfSome result (λ cut. HasFeed cut.1.now) }
        ensures none { IfNone result (IsUnknown text.now) }
    {
        let (command, end) = Command::front(text.as_bytes())?;
        Some((command, &text[end..]))
    }

    // The command that a text begins with, and the place behind the `;` after it.
    #[inline(always)]
    fn front(text: &[u8]) -> Option<(Command, usize)>
        ensures some { IfSome result (λ found.
            text.now ≡ command_word found.0 ++ 59 ∷ drop found.1 text.now) }
        ensures end { IfSome result (λ found. found.1 ≡ length (command_word found.0) + 1) }
        ensures none { IfNone result (IsUnknown text.now) }
    {
        match text {
            [b'c', ..] => Command::Cmp.of_word(text, b"cmp;"),
            [b'v', ..] => Command::Ver.of_word(text, b"ver;"),
            [b'd', ..] => Command::Diff.of_word(text, b"diff;"),
            [b'i', ..] => Command::Inc.of_word(text, b"inc;"),
            [b'r', ..] => Command::Range.of_word(text, b"range;"),
            [b'a', ..] => Command::And.of_word(text, b"and;"),
            [b'l', ..] => Command::Least.of_word(text, b"least;"),
            [b'b', ..] => Command::Beyond.of_word(text, b"beyond;"),
            [b's', ..] => Command::Sat.of_word(text, b"sat;"),
            [b'p', ..] => Command::Pre.of_word(text, b"pre;"),
            [b'o', ..] => Command::Out.of_word(text, b"out;"),
            [b'm', b'a', ..] => Command::Max.of_word(text, b"max;"),
            [b'm', _, _, b'u', ..] => Command::Minus.of_word(text, b"minus;"),
            [b'm', ..] => Command::Min.of_word(text, b"min;"),
            _ => None,
        }
    }

    // The command, where a text begins with its word and a `;`.
    #[inline(always)]
    fn of_word(self, text: &[u8], word: &[u8]) -> Option<(Command, usize)>
        requires { word.now ≡ command_word self ++ 59 ∷ [] }
        ensures some { IfSome result (λ found.
            text.now ≡ command_word found.0 ++ 59 ∷ drop found.1 text.now) }
        ensures end { IfSome result (λ found. found.1 ≡ length (command_word found.0) + 1) }
        ensures none { IfNone result ((rest : List ℕ) → text.now ≢ command_word self ++ 59 ∷ rest) }
    {
        if text.starts_with(word) {
            Some((self, word.len()))
        } else {
            None
        }
    }
}
