//! How far the readers may look: up to the end of a text, or in lines, where no end is tested.

ghost use Rattle.std.specs.Prelude.{◌≡◌, ◌≤◌, ◌<◌, ◌+◌, ◌==◌, ℕ, nat_lt, slice_index};
ghost use Rattle.semver_core.specs.Words.{false, length, List};

/// How far bytes are read.
pub(crate) trait Reach {
    /// In clauses, whether a reader may stand at this place of these bytes.
    ghost stands: { List ℕ → ℕ → Type 0 };

    /// Whether a byte stands at a place.
    fn inside(bytes: &[u8], at: usize) -> bool
        requires { stands bytes.now at }
        ensures { result ≡ nat_lt at (length bytes.now) };

    /// No such place is behind the end.
    ghost within: { (bytes : List ℕ) (at : ℕ) → stands bytes at → at ≤ length bytes };

    /// A reader may pass every byte but a line feed.
    ghost next: { (bytes : List ℕ) (at : ℕ) → stands bytes at → at < length bytes
        → (slice_index bytes at == 10) ≡ false → stands bytes (at + 1) };
}

/// A text, of which the end is looked for.
pub(crate) struct OfText;

impl Reach for OfText {
    ghost use Rattle.std.specs.Prelude.{length, ◌≤◌};
    ghost use Rattle.std.proofs.Common.{arith};

    ghost stands = { λ bytes at. at ≤ length bytes };

    ghost within = { λ bytes at stands. stands };

    ghost next = { λ bytes at stands inside other. Prim.omega (arith, inside) };

    #[inline(always)]
    fn inside(bytes: &[u8], at: usize) -> bool {
        at < bytes.len()
    }
}

/// Lines, of which the last ends with a line feed. The byte of a place is there: the line feed, or
/// one that stands before it.
pub(crate) struct OfLines;

impl Reach for OfLines {
    ghost use Rattle.std.specs.Prelude.{drop, length};
    ghost use Rattle.std.proofs.{Common.{add-one, arith, inl, inr}, Math.Seq.drop-cons};
    ghost use Rattle.std.proofs.lemmas.{Bool.cases_lt, List.drop_all};
    ghost use Rattle.semver_core.specs.Text.Characters.{HasFeed};

    ghost stands = { λ bytes at. HasFeed (drop at bytes) };

    ghost within = { λ bytes at stands. elim (cases_lt at (length bytes)) [
      | inl inside ↦ Prim.omega (arith, inside)
      | inr past ↦ cc (rw (drop_all at bytes past) at stands)
    ] };

    ghost next = { λ bytes at stands inside other.
        rw (add-one at) (rw (drop-cons bytes at 0 inside, other) at stands) };

    #[inline(always)]
    #[tactic(auto, using(crate::proofs::Text::Digits::feed_inside))]
    fn inside(_bytes: &[u8], _at: usize) -> bool {
        true
    }
}
