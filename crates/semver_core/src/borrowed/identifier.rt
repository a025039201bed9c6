// Identifiers that borrow their text.

ghost use Rattle.std.specs.Prelude.{◌≡◌, ◌<◌};
ghost use Rattle.semver_core.specs.Words.{eq_by_cmp_equiv, id_alike, id_cmp, id_ref_view, id_text};
ghost use Rattle.semver_core.specs.Words.{id_total, id_view, id_writes, is_eq, lent_id_view};
ghost use Rattle.semver_core.specs.Words.{is_normal, on_equiv, on_per, on_po, on_total};
ghost use Rattle.semver_core.specs.Words.{partial_equiv_from_equiv, po, refl, Some};

use crate::borrowed::dotted::{IdRef, cmp_ids};
use crate::print::write_number;
use crate::{Identifier, scan};
use std::cmp::Ordering;
use std::fmt;
use std::hash::{Hash, Hasher};

/// An identifier that borrows its text. It has the order, the equality and the hash of
/// `Identifier`, and prints as one.
#[derive(Clone, Copy, Debug)]
pub enum IdentifierRef<'a> {
    /// Digits alone, of a value below 2^64.
    Numeric(u64),
    /// Any other run of ASCII letters, digits and `-`. That of an `Identifier` which is made by
    /// hand may hold any text.
    AlphaNumeric(&'a str),
}

impl Identifier {
    /// The identifier with its text borrowed.
    #[inline(always)]
    pub fn as_ref(&self) -> IdentifierRef<'_>
        ensures { lent_id_view result ≡ id_view self.now }
    {
        match self {
            Identifier::Numeric(number) => IdentifierRef::Numeric(*number),
            Identifier::AlphaNumeric(text) => IdentifierRef::AlphaNumeric(text),
        }
    }
}

impl<'a> IdentifierRef<'a> {
    // The identifier with the bytes of its text.
    #[inline(always)]
    pub(crate) fn bare(self) -> IdRef<'a>
        ensures { id_ref_view result ≡ lent_id_view self.entry }
    {
        match self {
            IdentifierRef::Numeric(number) => IdRef::Numeric(number),
            IdentifierRef::AlphaNumeric(text) => IdRef::AlphaNumeric(text.as_bytes()),
        }
    }

    // Whether its own text spells the identifier. A text that is made by hand may hold other
    // characters, or be that of a number.
    pub(crate) fn is_normal(self) -> bool
        ensures { result ≡ is_normal (lent_id_view self.entry) }
    {
        match self {
            IdentifierRef::Numeric(_) => true,
            IdentifierRef::AlphaNumeric(text) => {
                let bytes = text.as_bytes();
                if !scan::begins_identifier(bytes) {
                    return false;
                }
                let (end, number) = scan::scan_run(bytes, 0);
                end == bytes.len() && number.is_none()
            }
        }
    }
}

/// Equality of numbers by value and of texts by their bytes.
impl<'a> PartialEq for IdentifierRef<'a> {
    ghost eq = { λ a b. is_eq (id_cmp (lent_id_view a) (lent_id_view b)) };

    ghost laws = { on_per lent_id_view (partial_equiv_from_equiv (eq_by_cmp_equiv id_total)) };

    fn eq(&self, other: &IdentifierRef<'a>) -> bool {
        self.cmp(other).is_eq()
    }
}

/// Equality is reflexive, symmetric and transitive.
impl<'a> Eq for IdentifierRef<'a> {
    ghost laws = { on_equiv lent_id_view (eq_by_cmp_equiv id_total) };
}

/// The order of `cmp`.
impl<'a> PartialOrd for IdentifierRef<'a> {
    ghost partial_cmp = { λ a b. Some (id_cmp (lent_id_view a) (lent_id_view b)) };

    ghost laws = { on_po lent_id_view (po id_total (λ x y. refl)) };

    fn partial_cmp(&self, other: &IdentifierRef<'a>) -> Option<Ordering> {
        Some(self.cmp(other))
    }
}

/// SemVer 2.0.0, item 11: numbers by value and below all texts, texts by their bytes.
impl<'a> Ord for IdentifierRef<'a> {
    ghost cmp = { λ a b. id_cmp (lent_id_view a) (lent_id_view b) };

    ghost total = { on_total lent_id_view id_total };

    ghost matches_partial_cmp = { λ a b. refl };

    ghost matches_eq = { λ a b. refl };

    #[inline(always)]
    fn cmp(&self, other: &IdentifierRef<'a>) -> Ordering {
        cmp_ids(self.bare(), other.bare())
    }
}

/// The kind and the value, so that equal identifiers hash alike, owned or borrowed.
impl<'a> Hash for IdentifierRef<'a> {
    ghost hash_input = { λ a. id_writes (lent_id_view a) };

    ghost respects_eq = { λ a b e. id_alike (lent_id_view a) (lent_id_view b) e };

    fn hash<H: Hasher>(&self, state: &mut H) {
        match self {
            IdentifierRef::Numeric(value) => {
                state.write_u8(0);
                value.hash(state);
            }
            IdentifierRef::AlphaNumeric(text) => {
                state.write_u8(1);
                text.hash(state);
            }
        }
    }
}

/// A number prints in decimal, and a text as it is. Width, fill and precision change nothing.
impl<'a> fmt::Display for IdentifierRef<'a> {
    ghost output = { λ id. Some (id_text (lent_id_view id)) };

    ghost styled_output = { λ id _. Some (id_text (lent_id_view id)) };

    #[inline(always)]
    fn fmt<W: fmt::Write>(&self, f: &mut fmt::Formatter<W>) -> fmt::Result {
        match self {
            IdentifierRef::Numeric(number) => write_number(*number, f),
            IdentifierRef::AlphaNumeric(text) => f.write_str(text),
        }
    }
}
