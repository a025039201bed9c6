// How texts of a lock file are printed.

ghost use Rattle.std.specs.Prelude.{◌≡◌, true, false};
ghost use Rattle.lock_files.specs.Shown.{IsPlain};

use std::fmt;

/// A text that prints on one line and as printable ASCII alone: every other character, and each
/// backslash, is escaped, as `\u{1b}`.
#[derive(Clone, Copy)]
pub struct Shown<'a>(pub &'a str);

impl<'a> Shown<'a> {
    /// A folder. That of the root project is shown as a dot.
    pub fn folder(folder: &'a str) -> Shown<'a> {
        Shown(if folder.is_empty() { "." } else { folder })
    }
}

/// Whether a character is printed as it is.
pub fn is_plain(letter: char) -> bool
    ensures plain { result ≡ true → IsPlain letter }
    ensures escaped { result ≡ false → ¬ IsPlain letter }
{
    matches!(letter, ' '..='~') && letter != '\\'
}

impl fmt::Display for Shown<'_> {
    fn fmt<W: fmt::Write>(&self, f: &mut fmt::Formatter<W>) -> fmt::Result {
        for letter in self.0.chars() {
            if is_plain(letter) {
                f.write_char(letter)?;
            } else {
                write!(f, "{}", letter.escape_unicode())?;
            }
        }
        Ok(())
    }
}
