// Boundaries, at which words end: whitespace and the end of a text.

ghost use Rattle.semver_core.specs.Internal.Boundaries as Spec;
ghost use Rattle.std.specs.Prelude.{◌≡◌};
ghost use Rattle.semver_core.specs.Words.{is_boundary, rest_view};

use crate::spaces;

/// Whether a word may end here.
#[inline]
#[tactic(auto, unfolding(semver_core::specs::Internal::Boundaries::is_boundary))]
pub fn is_boundary(text: &[u8]) -> bool
    ensures { result ≡ is_boundary text.now }
{
    text.is_empty() || spaces::space_len(text) > 0
}

/// What follows one whitespace character or more.
#[inline(always)]
pub fn after_some_space(text: &[u8]) -> Option<&[u8]>
    ensures { rest_view result ≡ Spec.after_some_space text.now }
{
    if spaces::space_len(text) > 0 {
        Some(spaces::skip_spaces(text))
    } else {
        None
    }
}

/// What stands from the first boundary on.
pub fn skip_to_boundary(text: &[u8]) -> &[u8]
    ensures { result.now ≡ Spec.from_boundary text.now }
{
    'bytes: for at in 0..text.len() {
        if is_boundary(&text[at..]) {
            return &text[at..];
        }
    }
    &text[text.len()..]
}
