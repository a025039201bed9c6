// What a range text is made of.

ghost use Rattle.std.specs.{Option.ForSome, Prelude.{true, ◌≡◌, ◌≤◌}};
ghost use Rattle.semver_core.specs.Text.Identifiers.{is_listed};
ghost use Rattle.semver_core.specs.declared.TheConstants.{MAX_SAFE_INTEGER};

use semver_pieces::Comparator;

/// A partial as it was read. A component is None where it is absent or a wildcard; the identifiers
/// stand as their text, joined by dots.
#[derive(Clone, Copy)]
pub(crate) struct Partial<'a> {
    pub(crate) major: Option<u64>,
    pub(crate) minor: Option<u64>,
    pub(crate) patch: Option<u64>,
    pub(crate) pre_release: &'a [u8],
    pub(crate) build: &'a [u8],
    ghost major_fits: { ForSome major (λ n. n ≤ MAX_SAFE_INTEGER) },
    ghost minor_fits: { ForSome minor (λ n. n ≤ MAX_SAFE_INTEGER) },
    ghost patch_fits: { ForSome patch (λ n. n ≤ MAX_SAFE_INTEGER) },
    ghost pre_release_listed: { is_listed pre_release.now ≡ true },
    ghost build_listed: { is_listed build.now ≡ true },
}

/// What stands before the partial of a word.
#[derive(Clone, Copy)]
pub(crate) enum Sign {
    Nothing,
    Comparator(Comparator),
    /// A tilde. It is `true` where `>` stands behind it.
    Tilde(bool),
    Caret,
}
