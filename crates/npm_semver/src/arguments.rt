// The words of a command line, one after another.

ghost use Rattle.std.specs.Prelude.{◌≡◌, ◌∷◌, [], IfSome, IfNone, string_bytes, map, option_map};
ghost use Rattle.npm_semver.specs.Words.{FirstWord, value};

use std::marker::Model;

/// The words that are left. A word is cut at its first `=` where an option may stand; what is
/// behind the `=` is then the next word.
#[derive(Drop)]
pub struct Words<'a> {
    // What stood behind the `=` of the last word.
    value: Option<&'a str>,
    rest: &'a [String],
}

impl<'a> Model for Words<'a> {
    ghost use Rattle.std.specs.Prelude.{ℕ, List, string_bytes, map};
    ghost use Rattle.npm_semver.specs.Internal.Waiting.{waiting};

    ghost Value = { List (List ℕ) };

    ghost view = { λ words. waiting words.value (map string_bytes words.rest.now) };
}

impl<'a> Words<'a> {
    pub fn new(arguments: &'a [String]) -> Words<'a>
        ensures { result ≡ map string_bytes arguments.now }
    {
        Words {
            value: None,
            rest: arguments,
        }
    }

    // The next word as a whole, and the arguments behind it.
    fn next(&self) -> Option<(&'a str, &'a [String])>
        ensures some { IfSome result (λ next. self.now ≡ next.0.now ∷ map string_bytes next.1.now) }
        ensures none { IfNone result (self.now ≡ []) }
    {
        match self.value {
            Some(value) => Some((value, self.rest)),
            None => match self.rest.split_first() {
                Some((first, rest)) => Some((first.as_str(), rest)),
                None => None,
            },
        }
    }

    /// Returns the next word as a whole, which stays.
    pub fn peek(&self) -> Option<&'a str>
        ensures { option_map (λ word. word.now) result ≡ value self.now }
    {
        let (word, _) = self.next()?;
        Some(word)
    }

    /// Takes the next word as a whole: the value of an option.
    pub fn take_value(&mut self) -> Option<&'a str>
        ensures some { IfSome result (λ word. self.old ≡ word.now ∷ self.new) }
        ensures none { IfNone result (self.old ≡ []) }
        ensures end { IfNone result (self.new ≡ []) }
    {
        let (word, rest) = self.next()?;
        *self = Words { value: None, rest };
        Some(word)
    }

    /// Takes the next word up to its first `=`: an option or a version.
    pub fn take_word(&mut self) -> Option<&'a str>
        ensures some { IfSome result (λ word. FirstWord self.old word.now self.new) }
        ensures none { IfNone result (self.old ≡ []) }
    {
        let (argument, rest) = self.next()?;
        match argument.split_once('=') {
            Some((word, behind)) => {
                let value = Some(behind);
                *self = Words { value, rest };
                Some(word)
            }
            None => {
                *self = Words { value: None, rest };
                Some(argument)
            }
        }
    }
}
