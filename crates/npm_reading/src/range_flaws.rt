// Which part of a range text node-semver's strict reading rejects.

ghost use Rattle.nodejs_semver.specs.Words.{IfSome, List, MAX_SAFE_INTEGER, None, Some, false};
ghost use Rattle.npm_reading.specs.RangeFlaws.{IsRangeFlaw};
ghost use Rattle.npm_words.specs.{Alternatives.HasAlternativesIn, Words.Comparison};
ghost use Rattle.std.specs.Prelude.{◌↔◌, ◌≡◌};

use crate::ranges::alternative;
use npm_words::pieces::malformed_part;
use semver_core::scan;
use semver_pieces::cut_part;

/// An alternative of a range text that is malformed, and its first malformed word, or end of a
/// hyphen range. A place is a byte index.
#[derive(Clone, Copy, PartialEq, Eq, Debug)]
pub struct RangeFlaw {
    /// Where the alternative begins.
    pub start: usize,
    /// Where it ends: the place behind its last byte.
    pub end: usize,
    /// Where the word or the end begins.
    pub word_start: usize,
    /// Where the word or the end ends.
    pub word_end: usize,
}

/// Returns the first alternative for which [`range`](crate::range) rejects a text, with what is
/// malformed in it, or `None` if it reads the text. Allocates nothing.
///
/// An alternative is what stands between bars `||`, without the whitespace around it. A word is
/// malformed also for a number above `MAX_SAFE_INTEGER`, or for a version of more than `MAX_LENGTH`
/// characters. It ends before whitespace, and the words before it are well-formed.
///
/// Where a `-` stands between two words, with whitespace around it and marks in front of each word
/// or none, they are read as the ends of a hyphen range, and the first of them that is none is
/// what is malformed, with its marks: of `1.2.3 - 01.2.3` it is `01.2.3`, and of `=1.2.3 - 2` it is
/// `=1.2.3`. Any other `-` is a malformed word: of `1 - 2 3` it is told.
///
/// ```rust
/// assert!(rt; npm_reading::range_flaw("^1.2 || >=2.0.0 <3", false).is_none());
/// let flaw = RangeFlaw {
///     start: 8,
///     end: 19,
///     word_start: 8,
///     word_end: 16,
/// };
/// assert!(rt; npm_reading::range_flaw("^1.2 || >=2.0.0, <3 || 4", false) == Some(flaw));
/// ```
pub fn range_flaw(text: &str, include_prerelease: bool) -> Option<RangeFlaw>
    // None exactly if the text has alternatives, as `range` reads them.
    ensures none { (result ≡ None) ↔ ((alternatives : List (List Comparison))
        × HasAlternativesIn false MAX_SAFE_INTEGER include_prerelease text.now alternatives) }
    // What is returned is the first alternative that is none, and what is malformed in it.
    ensures flaw { IfSome result (IsRangeFlaw MAX_SAFE_INTEGER include_prerelease text.now) }
    // A text has one such flaw: no other would be right.
    ensures only { (flaw : RangeFlaw)
        → IsRangeFlaw MAX_SAFE_INTEGER include_prerelease text.now flaw → result ≡ Some flaw }
{
    let mut rest = Some(text);
    'pieces: while let Some(left) = rest {
        let (piece, behind) = cut_part(left);
        let part = scan::trim(piece);
        let bytes = part.as_bytes();
        if alternative(false, include_prerelease, bytes).is_none() {
            let start = text.len() - left.len() + scan::skip_whitespace(piece, 0);
            let (word_start, word_end) = malformed_part(include_prerelease, bytes);
            return Some(RangeFlaw {
                start,
                end: start + part.len(),
                word_start: start + word_start,
                word_end: start + word_end,
            });
        }
        rest = behind;
    }
    None
}
