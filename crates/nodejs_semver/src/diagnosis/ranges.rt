// The words of a range text that mean nothing.

ghost use Rattle.std.specs.Prelude.{◌++◌, ◌+◌, ◌-◌, ◌<◌, ◌↔◌, ◌≡◌, ◌≤◌};
ghost use Rattle.nodejs_semver.specs.Words.{[], AreIgnored, ignored_behind, IsWhollyBounded};
ghost use Rattle.nodejs_semver.specs.Words.{item_count, left_list, left_size, length};
ghost use Rattle.nodejs_semver.specs.Words.{MAX_SAFE_INTEGER, option_list, Some, YieldsFirst};

use crate::diagnosis::unread::Unread;
use crate::readers::{cut_part, skip_spaces, word_front};
use semver_core::scan;
use std::marker::Model;

/// Why a word of a range text means nothing.
#[derive(Clone, Copy, PartialEq, Eq, Debug)]
pub enum IgnoredKind {
    /// It has none of the forms of words, as `>=1.0.0,` and `foo`.
    Malformed,
    /// It has a form that names no versions, as `^*` and the reversed hyphen range `2 - 1`.
    WithoutBounds,
}

/// A word of a range text that means nothing. A place is a byte index.
#[derive(Clone, Copy, PartialEq, Eq, Debug)]
pub struct IgnoredWord {
    /// Where the word begins.
    pub start: usize,
    /// Where it ends: the place behind its last byte.
    pub end: usize,
    pub kind: IgnoredKind,
}

/// The ignored words of a range text, from the left: what `ignored_words` returns. To a contract it
/// is the list of those that are left.
#[derive(Drop)]
pub struct IgnoredWords<'a> {
    left: Unread<'a>,
}

/// In clauses, this is the list of the words that are still to come.
impl<'a> Model for IgnoredWords<'a> {
    ghost use Rattle.std.specs.Prelude.{List};
    ghost use Rattle.nodejs_semver.specs.Internal.Ignored.{left_list};
    ghost use Rattle.nodejs_semver.specs.declared.diagnosis.ranges.IgnoredWord.{IgnoredWord};

    ghost Value = { List IgnoredWord };

    ghost view = { λ it. left_list it.left };
}

// What is left of a text that ends at a place, before any of its words is read.
fn before_words(text: &str, end: usize) -> Unread<'_>
    requires { length text.now ≤ end }
    ensures same { left_list result ≡ ignored_behind MAX_SAFE_INTEGER end (Some text.now) }
    ensures less { left_size result ≤ length text.now }
{
    let (piece, behind) = cut_part(text);
    let start = scan::skip_whitespace(piece, 0);
    let part = scan::trim(piece);
    Unread {
        part: part.as_bytes(),
        part_end: end - text.len() + start + part.len(),
        behind,
        end,
    }
}

// Reads the word at the front: returns it if it is ignored, and what is then left.
fn read_word(left: Unread<'_>) -> (Option<IgnoredWord>, Unread<'_>)
    requires { 0 < length left.part.now }
    ensures same { left_list left.entry ≡ option_list result.0 ++ left_list result.1 }
    ensures less { left_size result.1 < left_size left.entry }
{
    let (word, rest) = word_front(left.part);
    let start = left.part_end - left.part.len();
    let end = left.part_end - rest.len();
    let word = word.err().map(|kind| IgnoredWord { start, end, kind });
    let rest = Unread {
        part: skip_spaces(rest),
        part_end: left.part_end,
        behind: left.behind,
        end: left.end,
    };
    (word, rest)
}

/// Each ignored word once, from the left. It takes no memory.
impl<'a> Iterator for IgnoredWords<'a> {
    type Item = IgnoredWord;

    ghost next_gives = { YieldsFirst (λ words. words) };

    ghost remaining = { item_count (λ words. words) };

    #[tactic(auto, using(crate::proofs::Diagnosing::IgnoredParts::part_over))]
    fn next(&mut self) -> Option<IgnoredWord> {
        'words: loop {
            if self.left.part.is_empty() {
                let behind = self.left.behind?;
                self.left = before_words(behind, self.left.end);
            } else {
                let (word, rest) = read_word(self.left);
                self.left = rest;
                if word.is_some() {
                    return word;
                }
            }
        }
    }
}

/// Returns the words of a range text that mean nothing, from the left, each with its place.
/// Allocates nothing.
///
/// `Range::parse` ignores these words, so `>=1.0.0, <2.0.0` is the range `<2.0.0`. It rejects a
/// text with no empty part of which all words are such, as `foo`; but `foo ||` is the range `*`.
///
/// ```rust
/// let mut words = ignored_words(">=1.0.0, <2.0.0");
/// let (start, end, kind) = (0, 8, IgnoredKind::Malformed);
/// assert!(rt; words.next() == Some(IgnoredWord { start, end, kind }));
/// assert!(rt; words.next().is_none());
/// ```
pub fn ignored_words(text: &str) -> IgnoredWords<'_>
    // Exactly the ignored words of the text, in order.
    ensures words { AreIgnored MAX_SAFE_INTEGER text.now result }
    // None exactly if each word of the text has bounds.
    ensures none { (result ≡ []) ↔ IsWhollyBounded MAX_SAFE_INTEGER text.now }
{
    IgnoredWords {
        left: before_words(text, text.len()),
    }
}
