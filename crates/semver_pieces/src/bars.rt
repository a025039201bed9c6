// The parts of a range text, one after another.

ghost use Rattle.semver_core.specs.Internal.Parts as Spec;
ghost use Rattle.std.specs.Prelude.{◌<◌, ◌∷◌, ◌≡◌};
ghost use Rattle.semver_core.specs.Words.{IfSome, length, part_view, parts, rest_view, space_len};

use semver_core::scan;

// How many bytes stand before the first `||`, or in the text where there is none.
fn bars_at(text: &[u8]) -> usize
    ensures { result ≡ Spec.bars_at text.now }
{
    'bytes: for at in 0..text.len() {
        if matches!(&text[at..], [b'|', b'|', ..]) {
            return at;
        }
    }
    text.len()
}

/// The text before the first `||`, and the text behind it, where it is there.
#[tactic(auto, using(semver_core::proofs::Dividing::BarLemmas::at_bars))]
pub fn cut_part(text: &str) -> (&str, Option<&str>)
    ensures { part_view result ≡ Spec.front_part text.now }
{
    let at = bars_at(text.as_bytes());
    if at < text.len() {
        (&text[..at], Some(&text[at + 2..]))
    } else {
        (text, None)
    }
}

/// The part at the front, trimmed, and the text behind the bars after it, where there are bars.
pub fn next_part(text: &str) -> (&str, Option<&str>)
    ensures value { result.0.now ∷ Spec.later_parts (rest_view result.1) ≡ parts text.now }
    ensures starts { space_len result.0.now ≡ 0 }
    ensures less { IfSome result.1 (λ rest. length rest.now < length text.now) }
{
    let (part, rest) = cut_part(text);
    (scan::trim(part), rest)
}

// What follows one space or none.
#[inline(always)]
fn after_gap(text: &[u8]) -> &[u8]
    ensures { result.now ≡ Spec.after_gap text.now }
{
    match text {
        [b' ', rest @ ..] => rest,
        _ => text,
    }
}

/// What follows `||`, with one space or none on each side.
#[inline(always)]
#[tactic(auto, unfolding(semver_core::specs::Internal::Parts::after_bars))]
pub fn after_bars(text: &[u8]) -> Option<&[u8]>
    ensures { rest_view result ≡ Spec.after_bars text.now }
{
    match text {
        [b' ', b'|', b'|', b' ', rest @ ..] => Some(rest),
        [b' ', b'|', b'|', rest @ ..] | [b'|', b'|', rest @ ..] => Some(after_gap(rest)),
        _ => None,
    }
}
