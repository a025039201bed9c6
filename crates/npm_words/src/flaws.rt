// Where a text stops being a version text of node-semver's strict reading.

ghost use Rattle.npm_words.specs.{Flaws.{IsFlaw, IsSpelled, IsWrong}, Words.IfSome};
ghost use Rattle.npm_words.specs.Words.{IsVersionText, MAX_SAFE_INTEGER, MatchOption, None, Some};
ghost use Rattle.npm_words.specs.Words.{VersionValue, is_ascii_digit, is_identifier_char, true};
ghost use Rattle.{semver_core.specs.Text.Characters.is_whitespace, std.specs.Char.digit_value};
ghost use Rattle.std.specs.Prelude.{◌↔◌, ◌≡◌, ◌≤◌};
ghost use Rattle.npm_words.specs.Internal.States as Spec;

use crate::versions::is_short;
use semver_core::MAX_SAFE_INTEGER;
use semver_core::scan::is_whitespace_code;

/// What is wrong with a version text of node-semver's strict reading. A place is a byte index.
#[derive(Clone, Copy, PartialEq, Eq, Debug)]
pub enum Flaw {
    /// The text is longer than `MAX_LENGTH` characters.
    TooLong,
    /// The bytes before this place begin a version text. With the character that stands there they
    /// do not; or the text ends there and is no version.
    At { wrong: Wrong, at: usize },
}

/// What is wrong at the place where a text stops being a version text.
#[derive(Clone, Copy, PartialEq, Eq, Debug)]
pub enum Wrong {
    /// A `=`, a `V` or a further `v` stands where a number begins.
    Mark,
    /// A digit goes on with the number `0`. Or an identifier of the pre-release ends that is digits
    /// with a leading zero.
    LeadingZero,
    /// A digit makes a number greater than `MAX_SAFE_INTEGER`.
    NumberTooGreat,
    /// A letter stands behind the numbers, where the pre-release begins with a `-`.
    MissingHyphen,
    /// A number begins at this place, with a digit.
    Digit,
    /// A number ends at this place, and another one follows behind a dot.
    Dot,
    /// An identifier begins at this place, with a letter, a digit or `-`.
    Identifier,
    /// What stands before this place is a version, and this is behind it.
    Behind,
}

/// What was read of a version text, which is the front of one.
#[derive(Clone, Copy)]
enum State {
    /// Whitespace, or nothing.
    Start,
    /// All before a number, behind which so many others follow.
    Digit { left: u8 },
    /// All up to digits of such a number, of this value.
    Number { left: u8, value: u64 },
    /// All before an identifier of the pre-release.
    Dash,
    /// All up to an identifier of the pre-release that is `0`.
    Zero,
    /// All up to one that is `0` and further digits.
    Padded,
    /// All up to another identifier of the pre-release.
    PreRelease,
    /// All before an identifier of the build metadata.
    Plus,
    /// All up to an identifier of the build metadata.
    Build,
    /// A version and whitespace.
    End,
}

// Whether the character is whitespace.
#[inline(always)]
fn is_whitespace(letter: char) -> bool
    ensures { result ≡ is_whitespace letter }
{
    is_whitespace_code(u32::from(letter))
}

// Whether the character is one of identifiers. It is asked of characters, and not of bytes.
fn is_identifier_char(letter: char) -> bool
    ensures { result ≡ is_identifier_char letter }
{
    letter.is_ascii_alphanumeric() || letter == '-'
}

// The value of a digit.
fn digit(letter: char) -> u64
    requires { is_ascii_digit letter ≡ true }
    ensures { result ≡ digit_value letter }
{
    u64::from(u32::from(letter)) - 48
}

// What is read with the first digit of a number.
fn begun(left: u8, letter: char) -> Option<State>
    ensures { result ≡ Spec.begun left letter }
{
    if letter.is_ascii_digit() {
        let value = digit(letter);
        Some(State::Number { left, value })
    } else {
        None
    }
}

// What is read with a further digit of a number.
fn grown(left: u8, value: u64, digit: u64) -> Option<State>
    requires { digit ≤ 9 }
    ensures { result ≡ Spec.grown MAX_SAFE_INTEGER left value digit }
{
    if value == 0 || value > (MAX_SAFE_INTEGER - digit) / 10 {
        return None;
    }
    let value = value * 10 + digit;
    Some(State::Number { left, value })
}

// What is read with the character behind a version, or behind its pre-release.
fn ended(letter: char) -> Option<State>
    ensures { result ≡ Spec.ended letter }
{
    if letter == '+' {
        Some(State::Plus)
    } else if is_whitespace(letter) {
        Some(State::End)
    } else {
        None
    }
}

// What is read with the next character, if some version text goes on with it.
#[tactic(auto, unfolding(crate::specs::Internal::States::next))]
fn next(state: State, letter: char) -> Option<State>
    ensures { result ≡ Spec.next MAX_SAFE_INTEGER state letter }
{
    match state {
        State::Start if is_whitespace(letter) => Some(State::Start),
        State::Start if letter == 'v' => Some(State::Digit { left: 2 }),
        State::Start => begun(2, letter),
        State::Digit { left } => begun(left, letter),
        State::Number { left, value } if letter.is_ascii_digit() => {
            grown(left, value, digit(letter))
        }
        State::Number { left: 0, .. } if letter == '-' => Some(State::Dash),
        State::Number { left: 0, .. } => ended(letter),
        State::Number { left, .. } if letter == '.' => Some(State::Digit { left: left - 1 }),
        State::Number { .. } => None,
        State::Dash if letter == '0' => Some(State::Zero),
        State::Zero | State::Padded if letter.is_ascii_digit() => Some(State::Padded),
        State::Plus | State::Build if is_identifier_char(letter) => Some(State::Build),
        State::Build if letter == '.' => Some(State::Plus),
        State::Build | State::End if is_whitespace(letter) => Some(State::End),
        State::Plus | State::Build | State::End => None,
        _ if is_identifier_char(letter) => Some(State::PreRelease),
        State::Dash | State::Padded => None,
        _ if letter == '.' => Some(State::Dash),
        _ => ended(letter),
    }
}

// What is wrong where what is read does not go on with the next character, or with the end.
#[tactic(auto, unfolding(crate::specs::Internal::States::wrong_at))]
fn wrong_at(state: State, next: Option<char>) -> Wrong
    ensures { result ≡ Spec.wrong_at state next }
{
    match state {
        State::Start | State::Digit { .. } => match next {
            Some('v' | 'V' | '=') => Wrong::Mark,
            _ => Wrong::Digit,
        },
        State::Number { left, value } => match next {
            Some(letter) if letter.is_ascii_digit() => match value {
                0 => Wrong::LeadingZero,
                _ => Wrong::NumberTooGreat,
            },
            _ if left > 0 => Wrong::Dot,
            Some(letter) if letter.is_ascii_alphabetic() => Wrong::MissingHyphen,
            _ => Wrong::Behind,
        },
        State::Dash | State::Plus => Wrong::Identifier,
        State::Padded => Wrong::LeadingZero,
        State::Zero | State::PreRelease | State::Build | State::End => Wrong::Behind,
    }
}

// What is wrong where a text stops being a version text, and that place.
fn stop(text: &str) -> Option<(Wrong, usize)>
    ensures { MatchOption result (IsSpelled MAX_SAFE_INTEGER text.now)
        (λ stop. IsWrong MAX_SAFE_INTEGER text.now stop.0 stop.1) }
{
    let mut state = State::Start;
    let mut at = 0;
    'letters: for letter in text.chars() {
        let Some(read) = next(state, letter) else {
            return Some((wrong_at(state, Some(letter)), at));
        };
        state = read;
        at += letter.len_utf8();
    }
    match state {
        State::Number { left: 0, .. } => None,
        State::Zero | State::PreRelease | State::Build | State::End => None,
        _ => Some((wrong_at(state, None), at)),
    }
}

/// Returns what is wrong with a version text of node-semver's strict reading, or `None` if it is
/// one, which [`version`](crate::version) then reads. Allocates nothing.
///
/// The place is where the text stops being one: with the bytes before it some version text begins,
/// and with the next character none does. Of `1.02.3` that is the place of the 2, of
/// `1.2.3-01` the end, since `1.2.3-01a` is a version.
///
/// ```rust
/// assert!(rt; npm_reading::version_flaw(" v1.2.3-rc.1 ").is_none());
/// let (wrong, at) = (Wrong::LeadingZero, 3);
/// assert!(rt; npm_reading::version_flaw("1.02.3") == Some(Flaw::At { wrong, at }));
/// let (wrong, at) = (Wrong::MissingHyphen, 5);
/// assert!(rt; npm_reading::version_flaw("1.2.3beta") == Some(Flaw::At { wrong, at }));
/// ```
pub fn version_flaw(text: &str) -> Option<Flaw>
    // None exactly if the text is a version.
    ensures none { (result ≡ None)
        ↔ ((v : VersionValue) × IsVersionText MAX_SAFE_INTEGER text.now v) }
    // What is returned is a flaw of the text.
    ensures flaw { IfSome result (λ flaw. IsFlaw MAX_SAFE_INTEGER text.now flaw) }
    // A text has one flaw: no other would be right.
    ensures only { (flaw : Flaw) → IsFlaw MAX_SAFE_INTEGER text.now flaw → result ≡ Some flaw }
{
    if !is_short(text) {
        return Some(Flaw::TooLong);
    }
    match stop(text) {
        Some((wrong, at)) => Some(Flaw::At { wrong, at }),
        None => None,
    }
}
