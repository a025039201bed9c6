// The order of keys.

ghost use Rattle.std.specs.Prelude.{◌≡◌, ◌++◌, ℕ};
ghost use Rattle.std.specs.Ordering.{nat_cmp, ordering_then};
ghost use Rattle.semver_core.specs.Keys.{key};
ghost use Rattle.semver_core.specs.Words.{[], Equal, IsVersion, List, precedence, slice_cmp};
ghost use Rattle.semver_core.specs.Words.{VersionValue};

/// Keys compare byte by byte, the shorter first, as their versions do by precedence. What follows
/// them does not disturb that, so that keys may be parts of longer ones, and no key is a proper
/// front of another.
///
/// A caller that needs these facts in a proof calls this function, which does nothing at run time.
#[tactic(auto, using(crate::proofs::Encoding::Order::key_order))]
pub fn keys()
    ensures order { (v w : VersionValue) → IsVersion v → IsVersion w
        → slice_cmp nat_cmp (key v) (key w) ≡ precedence v w }
    ensures followed { (v w : VersionValue) (r s : List ℕ) → IsVersion v → IsVersion w
        → slice_cmp nat_cmp (key v ++ r) (key w ++ s)
        ≡ ordering_then (precedence v w) (slice_cmp nat_cmp r s) }
    ensures no_front { (v w : VersionValue) (r : List ℕ) → IsVersion v → IsVersion w
        → key w ≡ key v ++ r → (precedence v w ≡ Equal) × (r ≡ []) }
{}
