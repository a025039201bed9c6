// What is left of a range text while its words are read.

ghost use Rattle.std.specs.{Option.ForSome, Prelude.{length, ◌≡◌, ◌≤◌}};
ghost use Rattle.semver_core.specs.Internal.Spaces.{space_len};

/// What is left of a text: a part of it, and the text behind the bars that follow the part.
#[derive(Clone, Copy)]
pub(crate) struct Unread<'a> {
    /// Nothing, or a word is at its front.
    pub(crate) part: &'a [u8],
    /// Where the part ends in the text.
    pub(crate) part_end: usize,
    pub(crate) behind: Option<&'a str>,
    /// Where the text ends.
    pub(crate) end: usize,
    ghost starts: { space_len part.now ≡ 0 },
    ghost part_fits: { length part.now ≤ part_end },
    ghost behind_fits: { ForSome behind (λ text. length text.now ≤ end) },
}
