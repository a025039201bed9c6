//! npm's versions and ranges for C, and for every language that calls C.
//!
//! Each export reads its texts from the left, asks one question of `nodejs_semver` and returns a
//! status: `OK`, or why there is no answer. A text is its bytes in UTF-8; no byte 0 ends it. A text
//! that is written goes into the caller's buffer, and its length into `len`; where the buffer is
//! too small, `len` alone is written. With every other status nothing is written, unless the export
//! says otherwise. Nothing is kept between two calls.
#![tactic(auto)]

ghost use Rattle.std.specs.List.{range_with_len};
ghost use Rattle.std.specs.Prelude.{◌≡◌, ◌∷◌, []};

// What is found, or the end of the export with the status that says why there is no answer.
macro_rules! ok_or_return {
    ($asked:expr) => {
        match $asked {
            Ok(found) => found,
            Err(status) => return status,
        }
    };
}

mod asked;
mod choices;
mod common;
mod diagnosis;
mod dotted;
mod flaws;
mod found;
mod intervals;
mod kept;
mod kept_keys;
mod kept_next;
mod kept_ranges;
mod kept_sets;
mod kept_simple;
mod kept_spans;
mod messages;
mod pieces;
mod print;
mod range_words;
mod ranges;
mod read;
mod sets;
mod sort;
mod subsets;
mod versions;

/// The question is answered.
pub const OK: u32 = 0;

/// There is no such version, or no such range.
pub const NOTHING: u32 = 1;

/// The buffer is too small. The length that is needed stands in `len`.
pub const TOO_SMALL: u32 = 2;

/// A text is not UTF-8.
pub const NOT_UTF8: u32 = 3;

/// A text is no version.
pub const BAD_VERSION: u32 = 4;

/// A text is no range.
pub const BAD_RANGE: u32 = 5;

/// The reading, the status, or the word or the base of an increment is unknown, or there is nothing
/// to put into a pre-release.
pub const BAD_ARGUMENT: u32 = 6;

/// The identifier of an increment is not identifiers joined by dots.
pub const BAD_IDENTIFIER: u32 = 7;

/// `release` was asked of a version that is one.
pub const NOT_A_PRERELEASE: u32 = 8;

/// A number that was to rise is the greatest of 64 bits.
pub const OVERFLOW: u32 = 9;

/// An allocation failed.
pub const NO_MEMORY: u32 = 10;

/// A text, or an array of texts, has more bytes than there is room for in memory: 2^63 or more.
pub const TOO_LONG: u32 = 11;

/// The port's own reading: the front of a text that is a version, and the words of a range that it
/// knows. What is no such word is ignored.
pub const READING_PORT: u32 = 0;

/// npm's strict reading: whole texts, and no others. Pre-releases are not included in a range,
/// unless the function has a flag that says so.
pub const READING_NPM: u32 = 1;

/// npm's reading by node-semver's option `loose`: leading zeros, marks in front and a pre-release
/// without its `-` are read, and the words of a range that are no comparators are left out. Where
/// memory is missing, a text of several alternatives is not told from one that is no range.
pub const READING_NPM_LOOSE: u32 = 2;

/// A new pre-release list begins to count with 0.
pub const BASE_ZERO: u32 = 0;

/// A new pre-release list begins to count with 1.
pub const BASE_ONE: u32 = 1;

/// A new pre-release list has no number.
pub const BASE_NONE: u32 = 2;

/// Two versions are equal.
pub const KIND_NONE: u32 = 0;

/// Two versions differ in the major number.
pub const KIND_MAJOR: u32 = 1;

/// Two versions differ in the minor number.
pub const KIND_MINOR: u32 = 2;

/// Two versions differ in the patch number.
pub const KIND_PATCH: u32 = 3;

/// The major number differs, and the higher version is a pre-release.
pub const KIND_PREMAJOR: u32 = 4;

/// The minor number differs, and the higher version is a pre-release.
pub const KIND_PREMINOR: u32 = 5;

/// The patch number differs, and the higher version is a pre-release.
pub const KIND_PREPATCH: u32 = 6;

/// Two pre-releases of the same three numbers differ.
pub const KIND_PRERELEASE: u32 = 7;

/// No number begins at the place: a digit is expected there.
pub const FLAW_DIGIT: u32 = 0;

/// A dot is expected at the place.
pub const FLAW_DOT: u32 = 1;

/// A number above 9007199254740991 begins at the place.
pub const FLAW_NUMBER: u32 = 2;

/// The text has a version at its front, and is ignored from the place on.
pub const FLAW_IGNORED: u32 = 3;

/// The text is longer than 256 bytes, which is the place.
pub const FLAW_TOO_LONG: u32 = 4;

/// A `=`, a `V` or a further `v` stands where a number begins.
pub const WRONG_MARK: u32 = 0;

/// A number, or an identifier of the pre-release that is one, has a leading zero.
pub const WRONG_LEADING_ZERO: u32 = 1;

/// A digit makes a number greater than 9007199254740991.
pub const WRONG_NUMBER: u32 = 2;

/// A letter stands behind the numbers, where the pre-release begins with a `-`.
pub const WRONG_MISSING_HYPHEN: u32 = 3;

/// A number begins at the place: a digit is expected there.
pub const WRONG_DIGIT: u32 = 4;

/// A dot is expected at the place.
pub const WRONG_DOT: u32 = 5;

/// An identifier begins at the place: a letter, a digit or `-` is expected there.
pub const WRONG_IDENTIFIER: u32 = 6;

/// What stands before the place is a version, and this is behind it.
pub const WRONG_BEHIND: u32 = 7;

/// The text is longer than 256 characters.
pub const WRONG_TOO_LONG: u32 = 8;

/// The word has none of the forms of words.
pub const WORD_MALFORMED: u32 = 0;

/// The word has a form, but names no versions.
pub const WORD_WITHOUT_BOUNDS: u32 = 1;

/// There is no bound on this side. Its version is not looked at.
pub const BOUND_NONE: u32 = 0;

/// The version of the bound lies within the interval: `>=` below, `<=` above.
pub const BOUND_CLOSED: u32 = 1;

/// The version of the bound lies outside the interval: `>` below, `<` above.
pub const BOUND_OPEN: u32 = 2;

/// The range does not accept the version.
pub const ANSWER_NO: u8 = 0;

/// The range accepts the version.
pub const ANSWER_YES: u8 = 1;

/// The text is no version.
pub const ANSWER_NO_VERSION: u8 = 2;

/// The statuses, and the other groups of constants, are the numbers from 0 on: no two of a group
/// are equal.
pub fn constants()
    ensures statuses { OK ∷ NOTHING ∷ TOO_SMALL ∷ NOT_UTF8 ∷ BAD_VERSION ∷ BAD_RANGE
        ∷ BAD_ARGUMENT ∷ BAD_IDENTIFIER ∷ NOT_A_PRERELEASE ∷ OVERFLOW ∷ NO_MEMORY ∷ TOO_LONG
        ∷ [] ≡ range_with_len 0 12 }
    ensures readings { READING_PORT ∷ READING_NPM ∷ READING_NPM_LOOSE ∷ []
        ≡ range_with_len 0 3 }
    ensures bases { BASE_ZERO ∷ BASE_ONE ∷ BASE_NONE ∷ [] ≡ range_with_len 0 3 }
    ensures kinds { KIND_NONE ∷ KIND_MAJOR ∷ KIND_MINOR ∷ KIND_PATCH ∷ KIND_PREMAJOR
        ∷ KIND_PREMINOR ∷ KIND_PREPATCH ∷ KIND_PRERELEASE ∷ [] ≡ range_with_len 0 8 }
    ensures flaws { FLAW_DIGIT ∷ FLAW_DOT ∷ FLAW_NUMBER ∷ FLAW_IGNORED ∷ FLAW_TOO_LONG ∷ []
        ≡ range_with_len 0 5 }
    ensures wrongs { WRONG_MARK ∷ WRONG_LEADING_ZERO ∷ WRONG_NUMBER ∷ WRONG_MISSING_HYPHEN
        ∷ WRONG_DIGIT ∷ WRONG_DOT ∷ WRONG_IDENTIFIER ∷ WRONG_BEHIND ∷ WRONG_TOO_LONG ∷ []
        ≡ range_with_len 0 9 }
    ensures words { WORD_MALFORMED ∷ WORD_WITHOUT_BOUNDS ∷ [] ≡ range_with_len 0 2 }
    ensures bounds { BOUND_NONE ∷ BOUND_CLOSED ∷ BOUND_OPEN ∷ [] ≡ range_with_len 0 3 }
    ensures answers { ANSWER_NO ∷ ANSWER_YES ∷ ANSWER_NO_VERSION ∷ [] ≡ range_with_len 0 3 }
{}
