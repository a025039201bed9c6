//! What a word of node-semver's range texts is made of: a sign and a partial version.
//!
//! This is for the crates of this repository.

ghost use Rattle.npm_words.specs.{Internal.Parts.{npm_partial_view, within}, Table.{first, next}};
ghost use Rattle.npm_words.specs.Table.{next_changed, written_zeros, zeros};
ghost use Rattle.std.specs.{Char.is_ascii_digit, List.prefix_len, Prelude.{codes, drop, length}};
ghost use Rattle.std.specs.{Prelude.{not, take_while, true, ◌≡◌, ◌≤◌}, Str.bytes_eq};

use semver_core::{MAX_SAFE_INTEGER, VersionRef};
use semver_pieces::Comparator;

/// A partial version: a wildcard stands first, or one, two or three numbers are written before a
/// wildcard or the end. The numbers may be past the limit.
#[derive(Drop)]
pub enum Partial<'a> {
    Wildcard,
    Major(u64),
    Minor(u64, u64),
    Whole(VersionRef<'a>),
}

/// The sign of a word. Where none is written, it is `=`.
#[derive(Clone, Copy)]
pub enum Sign {
    Compared(Comparator),
    Caret,
    Tilde,
}

/// Three numbers, as of a release.
pub type Numbers = (u64, u64, u64);

// Where the first digit stands.
#[inline(always)]
#[tactic(auto, using(crate::proofs::Grammar::PartialLaw::prefix_steps))]
fn digit_at(text: &[u8]) -> usize
    ensures value { result ≡ prefix_len (λ b. not (is_ascii_digit b)) text.now }
    ensures fits { result ≤ length text.now }
{
    'marks: for at in 0..text.len() {
        if text[at].is_ascii_digit() {
            return at;
        }
    }
    text.len()
}

// Whether the number at the front is written `0`.
#[inline(always)]
fn begins_zero(text: &[u8]) -> bool
    ensures { result ≡ bytes_eq (take_while is_ascii_digit text.now) (codes "0") }
{
    matches!(text, [b'0', rest @ ..] if !matches!(rest, [b'0'..=b'9', ..]))
}

// What stands behind two characters, a zero and a dot.
#[inline(always)]
fn after_two(text: &[u8]) -> &[u8]
    ensures { result.now ≡ drop 2 text.now }
{
    match text {
        [_, _, rest @ ..] => rest,
        _ => b"",
    }
}

/// How many numbers at the front of a partial are written `0` in its text, which may have marks in
/// front.
#[inline(always)]
#[tactic(auto, using(crate::proofs::Grammar::Zeros::zeros_taken))]
pub fn written_zeros(text: &[u8]) -> usize
    ensures { result ≡ written_zeros text.now }
{
    let major = &text[digit_at(text)..];
    if !begins_zero(major) {
        return 0;
    }
    let minor = after_two(major);
    if !begins_zero(minor) {
        return 1;
    }
    if begins_zero(after_two(minor)) { 3 } else { 2 }
}

/// Whether none of three numbers is past the limit.
#[inline(always)]
pub fn within(numbers: Numbers) -> bool
    ensures { result ≡ within numbers }
{
    numbers.0 <= MAX_SAFE_INTEGER && numbers.1 <= MAX_SAFE_INTEGER && numbers.2 <= MAX_SAFE_INTEGER
}

impl<'a> Partial<'a> {
    /// The numbers, with zeros behind them.
    #[inline(always)]
    pub fn first(&self) -> Numbers
        ensures { result ≡ first (npm_partial_view self.now) }
    {
        match self {
            Partial::Wildcard => (0, 0, 0),
            Partial::Major(major) => (*major, 0, 0),
            Partial::Minor(major, minor) => (*major, *minor, 0),
            Partial::Whole(version) => (version.major(), version.minor(), version.patch()),
        }
    }

    /// The numbers of the next release above `M`, or above `M.m`.
    #[inline(always)]
    pub fn next(&self) -> Numbers
        requires { within (first (npm_partial_view self.now)) ≡ true }
        ensures { result ≡ next (npm_partial_view self.now) }
    {
        match self {
            Partial::Wildcard => (0, 0, 0),
            Partial::Major(major) => (*major + 1, 0, 0),
            Partial::Minor(major, minor) => (*major, *minor + 1, 0),
            Partial::Whole(version) => (version.major(), version.minor() + 1, 0),
        }
    }

    /// How many numbers at the front are 0.
    #[inline(always)]
    pub fn zeros(&self) -> usize
        ensures { result ≡ zeros (npm_partial_view self.now) }
    {
        match self {
            Partial::Major(0) => 1,
            Partial::Minor(0, 0) => 2,
            Partial::Minor(0, _) => 1,
            Partial::Whole(version) => match (version.major(), version.minor(), version.patch()) {
                (0, 0, 0) => 3,
                (0, 0, _) => 2,
                (0, _, _) => 1,
                _ => 0,
            },
            _ => 0,
        }
    }

    /// The numbers of the next release in which the first number changes that is not written `0`,
    /// or the last one written, where so many at the front are written `0`.
    #[inline(always)]
    pub fn next_changed(&self, zeros: usize) -> Numbers
        requires { within (first (npm_partial_view self.now)) ≡ true }
        ensures { result ≡ next_changed zeros (npm_partial_view self.now) }
    {
        if zeros == 0 {
            return (self.first().0 + 1, 0, 0);
        }
        match self {
            Partial::Whole(version) if zeros > 1 => (0, 0, version.patch() + 1),
            _ => self.next(),
        }
    }
}
