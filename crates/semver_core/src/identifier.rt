// Identifiers: what they are, their order, equality and hash.

ghost use Rattle.std.specs.Prelude.{◌≡◌, ◌≢◌, ◌<◌};
ghost use Rattle.semver_core.specs.Words.{ℕ, eq_by_cmp_equiv, id_alike, id_cmp, id_total, id_view};
ghost use Rattle.semver_core.specs.Words.{id_writes, ids_view, IfOk, is_eq};
ghost use Rattle.semver_core.specs.Words.{is_ascii_digit, is_listed, length};
ghost use Rattle.semver_core.specs.Words.{list_all, Numeric};
ghost use Rattle.semver_core.specs.Words.{on_equiv, on_per, on_po, on_total, OnErr};
ghost use Rattle.semver_core.specs.Words.{partial_equiv_from_equiv, po, refl, Some};

use crate::scan;
use std::alloc::{AllocError, Global};
use std::cmp::Ordering;
use std::default::MadeWith;
use std::hash::{Hash, Hasher};

/// One identifier of a pre-release or of build metadata (SemVer 2.0.0, items 9 and 10).
///
/// Identifiers have the order of SemVer 2.0.0, item 11: numbers by value and below all texts, texts
/// by their bytes.
#[derive(Debug, Drop)]
pub enum Identifier {
    /// Digits alone, of a value below 2^64.
    Numeric(u64),
    /// Any other run of ASCII letters, digits and `-`. One that is made by hand may hold any text.
    AlphaNumeric(String),
}

impl Identifier {
    /// A copy of the identifier. Fails only if allocation fails; copying a number never does.
    pub fn copy(&self, alloc: Global) -> Result<Identifier, AllocError>
        ensures whole { IfOk result (λ i. id_view i ≡ id_view self.now) }
        ensures memory { OnErr result ((n : ℕ) → id_view self.now ≢ Numeric n) }
    {
        match self {
            Identifier::Numeric(number) => Ok(Identifier::Numeric(*number)),
            Identifier::AlphaNumeric(text) => Ok(Identifier::AlphaNumeric(text.clone()?)),
        }
    }

    /// A copy of a list of identifiers, with no spare capacity. Fails only if allocation fails;
    /// copying an empty list never does.
    pub fn copy_list(alloc: Global, list: &[Identifier]) -> Result<Vec<Identifier>, AllocError>
        ensures whole { IfOk result (λ copy. ids_view copy.items ≡ ids_view list.now) }
        ensures memory { OnErr result (0 < length list.now) }
    {
        let mut copy = Vec::with_capacity(alloc, list.len())?;
        for id in list {
            copy.push(id.copy(alloc)?)?;
        }
        Ok(copy)
    }

    /// Whether a text spells a list of identifiers: it is empty, or runs of one or more ASCII
    /// letters, digits and `-` joined by dots, as `rc.1`. `Version::from_texts` requires it.
    #[tactic(auto, using(crate::proofs::Text::Ends::whole_lists))]
    pub fn is_list(text: &[u8]) -> bool
        ensures { result ≡ is_listed text.now }
    {
        text.is_empty() || (scan::begins_identifier(text) && scan::list_len(text) == text.len())
    }
}

// Whether each byte is a digit.
pub(crate) fn are_digits(text: &[u8]) -> bool
    ensures { result ≡ list_all is_ascii_digit text.now }
{
    text.iter().all(|byte| byte.is_ascii_digit())
}

/// What stands in a place of a list that is not used yet: the number 0.
impl MadeWith<Global> for Identifier {
    ghost is_made_with = { λ id. id_view id ≡ Numeric 0 };

    fn made_with(_alloc: Global) -> Identifier {
        Identifier::Numeric(0)
    }
}

/// Equality of numbers by value and of texts by their bytes.
impl PartialEq for Identifier {
    ghost eq = { λ a b. is_eq (id_cmp (id_view a) (id_view b)) };

    ghost laws = { on_per id_view (partial_equiv_from_equiv (eq_by_cmp_equiv id_total)) };

    fn eq(&self, other: &Identifier) -> bool {
        self.cmp(other).is_eq()
    }
}

/// Equality is reflexive, symmetric and transitive.
impl Eq for Identifier {
    ghost laws = { on_equiv id_view (eq_by_cmp_equiv id_total) };
}

/// The order of `cmp`.
impl PartialOrd for Identifier {
    ghost partial_cmp = { λ a b. Some (id_cmp (id_view a) (id_view b)) };

    ghost laws = { on_po id_view (po id_total (λ x y. refl)) };

    fn partial_cmp(&self, other: &Identifier) -> Option<Ordering> {
        Some(self.cmp(other))
    }
}

/// SemVer 2.0.0, item 11: numbers by value and below all texts, texts by their bytes.
impl Ord for Identifier {
    ghost cmp = { λ a b. id_cmp (id_view a) (id_view b) };

    ghost total = { on_total id_view id_total };

    ghost matches_partial_cmp = { λ a b. refl };

    ghost matches_eq = { λ a b. refl };

    fn cmp(&self, other: &Identifier) -> Ordering {
        self.as_ref().cmp(&other.as_ref())
    }
}

/// The kind and the value, so that equal identifiers hash alike.
impl Hash for Identifier {
    ghost hash_input = { λ a. id_writes (id_view a) };

    ghost respects_eq = { λ a b e. id_alike (id_view a) (id_view b) e };

    fn hash<H: Hasher>(&self, state: &mut H) {
        self.as_ref().hash(state);
    }
}
