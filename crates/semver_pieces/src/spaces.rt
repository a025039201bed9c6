// Whitespace at the front of a text, by its bytes.

ghost use Rattle.std.specs.Prelude.{◌≡◌, ◌≤◌};
ghost use Rattle.semver_core.specs.Words.{drop_spaces, goes_on_with, is_space_of_three};
ghost use Rattle.semver_core.specs.Words.{is_space_of_two, length, space_len};

use semver_core::scan::is_whitespace_code;

// Whether a byte goes on with a character.
#[inline(always)]
fn goes_on_with(byte: u8) -> bool
    ensures { result ≡ goes_on_with byte }
{
    (0x80..=0xBF).contains(&byte)
}

#[inline(always)]
fn is_space_of_two(a: u8, b: u8) -> bool
    ensures { result ≡ is_space_of_two a b }
{
    (0xC0..=0xDF).contains(&a)
        && goes_on_with(b)
        && is_whitespace_code(u32::from(a % 32) * 64 + u32::from(b % 64))
}

#[inline(always)]
fn is_space_of_three(a: u8, b: u8, c: u8) -> bool
    ensures { result ≡ is_space_of_three a b c }
{
    (0xE0..=0xEF).contains(&a)
        && goes_on_with(b)
        && goes_on_with(c)
        && is_whitespace_code((u32::from(a % 16) * 64 + u32::from(b % 64)) * 64 + u32::from(c % 64))
}

/// How many bytes the whitespace character at the front of a text takes, and 0 where none stands
/// there.
#[inline(always)]
#[tactic(auto, unfolding(semver_core::specs::Internal::Spaces::space_len))]
pub fn space_len(text: &[u8]) -> usize
    ensures value { result ≡ space_len text.now }
    ensures fits { result ≤ length text.now }
{
    match text {
        [a, ..] if *a < 0x80 => usize::from(is_whitespace_code(u32::from(*a))),
        [a, b, ..] if is_space_of_two(*a, *b) => 2,
        [a, b, c, ..] if is_space_of_three(*a, *b, *c) => 3,
        _ => 0,
    }
}

/// The text behind the whitespace at its front. Mostly there is none, which one byte shows, or one
/// space.
#[inline(always)]
pub fn skip_spaces(text: &[u8]) -> &[u8]
    ensures { result.now ≡ drop_spaces text.now }
{
    match text {
        [] => text,
        [byte, ..] if byte.is_ascii_graphic() => text,
        [b' ', byte, ..] if byte.is_ascii_graphic() => &text[1..],
        _ => skip_some(text),
    }
}

// `skip_spaces` where there may be some.
#[inline(never)]
fn skip_some(text: &[u8]) -> &[u8]
    ensures { result.now ≡ drop_spaces text.now }
{
    let mut left = text;
    'spaces: loop {
        let len = space_len(left);
        if len == 0 {
            return left;
        }
        left = &left[len..];
    }
}
