// The order of versions, their equality and hash, in which build metadata does not count; and an
// order that counts it.

ghost use Rattle.std.specs.Prelude.{◌≡◌};
ghost use Rattle.semver_core.specs.Words.{numbers_cmp, partial_equiv_from_equiv, precedence_total};
ghost use Rattle.semver_core.specs.Words.{eq_by_cmp_equiv, pre_cmp, version_alike, version_writes};
ghost use Rattle.semver_core.specs.Words.{build_order, fold, po, precedence, refl, Some};
ghost use Rattle.semver_core.specs.Words.{version_eq};
ghost use Rattle.std.specs.Hash as fed;

use crate::borrowed::identifiers::cmp_lists;
use crate::{Version, VersionRef, Versioned};
use std::cmp::Ordering;
use std::hash::{Hash, Hasher};

// The order of the three numbers of two versions of any kinds.
#[inline(always)]
pub(crate) fn cmp_numbers<V: Versioned, W: Versioned>(v: &V, w: &W) -> Ordering
    ensures { result ≡ numbers_cmp (V.value v.now) (W.value w.now) }
{
    match v.major().cmp(&w.major()) {
        Ordering::Equal => match v.minor().cmp(&w.minor()) {
            Ordering::Equal => v.patch().cmp(&w.patch()),
            order => order,
        },
        order => order,
    }
}

// The order of the pre-releases of two versions of any kinds.
#[inline(always)]
#[tactic(auto, using(crate::proofs::Values::Compared::pre_cases))]
pub(crate) fn cmp_pre<V: Versioned, W: Versioned>(v: &V, w: &W) -> Ordering
    ensures { result ≡ pre_cmp (V.value v.now).pre_release (W.value w.now).pre_release }
{
    let (a, b) = (v.pre_release(), w.pre_release());
    match (a.is_empty(), b.is_empty()) {
        (true, true) => Ordering::Equal,
        (true, false) => Ordering::Greater,
        (false, true) => Ordering::Less,
        (false, false) => cmp_lists(a, b),
    }
}

// `cmp_pre` of two owned versions, which is not inlined where these are compared.
#[inline(never)]
fn cmp_owned_pre(v: &Version, w: &Version) -> Ordering
    ensures { result ≡ pre_cmp v.now.pre_release w.now.pre_release }
{
    cmp_pre(v, w)
}

/// The order of two versions of any kinds that counts their builds: their precedence, and of equal
/// versions the builds identifier by identifier, as two pre-releases are compared. No build is
/// below some. So 1.0.0 < 1.0.0+1 < 1.0.0+1.a < 1.0.0+a.
///
/// It is a total order in which two versions tie exactly where they are equal in all five values
/// (`laws::order_with_builds`). node-semver's `compareBuild` is none: by it 1.0.0+1 is below
/// 1.0.0+1.a, and 1.0.0+01 ties with both. Here `+01` is the number 1.
///
/// ```rust
/// let one = VersionRef::parse("1.0.0+9")?;
/// let other = VersionRef::parse("1.0.0+10")?;
/// assert!(rt; cmp_build(&one, &other) == Ordering::Less);
/// ```
pub fn cmp_build<V: Versioned, W: Versioned>(version: &V, other: &W) -> Ordering
    ensures { result ≡ build_order (V.value version.now) (W.value other.now) }
{
    match version.cmp_precedence(other) {
        Ordering::Equal => cmp_lists(version.build(), other.build()),
        order => order,
    }
}

/// Equality of the three numbers and the pre-releases: versions are equal where they tie in the
/// order.
impl PartialEq for Version {
    ghost eq = { version_eq };

    ghost laws = { partial_equiv_from_equiv (eq_by_cmp_equiv precedence_total) };

    fn eq(&self, other: &Version) -> bool {
        self.cmp(other).is_eq()
    }
}

/// Equality is reflexive, symmetric and transitive.
impl Eq for Version {
    ghost laws = { eq_by_cmp_equiv precedence_total };
}

/// The order of `cmp`.
impl PartialOrd for Version {
    ghost partial_cmp = { λ v w. Some (precedence v w) };

    ghost laws = { po precedence_total (λ x y. refl) };

    fn partial_cmp(&self, other: &Version) -> Option<Ordering> {
        Some(self.cmp(other))
    }
}

/// The precedence of SemVer 2.0.0, item 11: the three numbers, then a pre-release below its
/// release, then the identifiers of two pre-releases one by one.
impl Ord for Version {
    ghost cmp = { precedence };

    ghost total = { precedence_total };

    ghost matches_partial_cmp = { λ v w. refl };

    ghost matches_eq = { λ v w. refl };

    #[inline(always)]
    fn cmp(&self, other: &Version) -> Ordering {
        match cmp_numbers(self, other) {
            Ordering::Equal => cmp_owned_pre(self, other),
            order => order,
        }
    }
}

/// Equality of the three numbers and the pre-releases, as that of `Version`.
impl<'a> PartialEq for VersionRef<'a> {
    ghost eq = { version_eq };

    ghost laws = { partial_equiv_from_equiv (eq_by_cmp_equiv precedence_total) };

    fn eq(&self, other: &VersionRef<'a>) -> bool {
        self.cmp(other).is_eq()
    }
}

/// Equality is reflexive, symmetric and transitive.
impl<'a> Eq for VersionRef<'a> {
    ghost laws = { eq_by_cmp_equiv precedence_total };
}

/// The order of `cmp`.
impl<'a> PartialOrd for VersionRef<'a> {
    ghost partial_cmp = { λ v w. Some (precedence v w) };

    ghost laws = { po precedence_total (λ x y. refl) };

    fn partial_cmp(&self, other: &VersionRef<'a>) -> Option<Ordering> {
        Some(self.cmp(other))
    }
}

/// The precedence of SemVer 2.0.0, item 11, as that of `Version`.
impl<'a> Ord for VersionRef<'a> {
    ghost cmp = { precedence };

    ghost total = { precedence_total };

    ghost matches_partial_cmp = { λ v w. refl };

    ghost matches_eq = { λ v w. refl };

    #[inline(always)]
    fn cmp(&self, other: &VersionRef<'a>) -> Ordering {
        self.cmp_precedence(other)
    }
}

/// The three numbers and the pre-release, so that equal versions hash alike.
impl Hash for Version {
    ghost hash_input = { version_writes };

    ghost respects_eq = { version_alike };

    fn hash<H: Hasher>(&self, state: &mut H) {
        hash_version(self, state);
    }
}

/// The three numbers and the pre-release: the same as those of an equal `Version`.
impl<'a> Hash for VersionRef<'a> {
    ghost hash_input = { version_writes };

    ghost respects_eq = { version_alike };

    fn hash<H: Hasher>(&self, state: &mut H) {
        hash_version(self, state);
    }
}

// Hashes what counts of a version, the identifiers as a slice of them is hashed.
#[tactic(auto, using(std::proofs::lemmas::Grind::common_steps))]
fn hash_version<V: Versioned, H: Hasher>(version: &V, state: &mut H)
    ensures { state.new ≡ fold H.write state.old (version_writes (V.value version.now)) }
{
    version.major().hash(state);
    version.minor().hash(state);
    version.patch().hash(state);
    let mut ids = version.pre_release();
    state.write_usize(ids.len());
    'ids: while let Some(id) = ids.next() {
        id.hash(state);
    }
}
