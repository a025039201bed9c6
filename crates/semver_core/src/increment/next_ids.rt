// The identifiers of the next pre-release, where they stand.

ghost use Rattle.std.specs.Prelude.{◌≡◌, ◌<◌, IfOk, OnErr};
ghost use Rattle.semver_core.specs.Words.{[], begun, ids_view, is_empty, item_count};
ghost use Rattle.semver_core.specs.Words.{length, lent_id_view, YieldsFirstBy};
ghost use Rattle.semver_core.specs.Internal.Inside.{build_of, IsFull, pre_release_of};
ghost use Rattle.semver_core.specs.Internal.NextIds.{numbered};

use crate::increment::IdentifierBase;
use crate::increment::pre_release::first_number;
use crate::version::lists::{Lists, Qualifier};
use crate::{Allocated, Identifier, IdentifierRef, IdentifierRefs};
use std::alloc::Global;
use std::marker::Model;

/// The identifiers of the next pre-release, one by one. In contracts it is the list of those that
/// are left.
#[derive(Debug, Drop)]
pub struct NextIds<'a> {
    // An asked one, which comes first.
    asked: Option<&'a str>,
    ids: IdentifierRefs<'a>,
    // A number, and how many of the list come before it: it replaces the next one, and is the last
    // where there is none.
    number: Option<u64>,
    before: usize,
}

/// In clauses, the identifiers are those that are left.
impl<'a> Model for NextIds<'a> {
    ghost use Rattle.std.specs.Prelude.{List};
    ghost use Rattle.semver_core.specs.Text.Identifiers.{Id};
    ghost use Rattle.semver_core.specs.Internal.NextIds.{next_ids};

    ghost Value = { List Id };

    ghost view = { next_ids };
}

impl<'a> NextIds<'a> {
    // Those of a list, where a number may replace the one behind the first ones.
    #[inline(always)]
    pub(super) fn of(ids: IdentifierRefs<'a>, number: Option<u64>, before: usize) -> NextIds<'a>
        ensures { result ≡ numbered ids.entry number before }
    {
        NextIds {
            asked: None,
            ids,
            number,
            before,
        }
    }

    // Those that an identifier begins.
    #[inline(always)]
    pub(super) fn begun(id: &'a str, base: IdentifierBase) -> NextIds<'a>
        ensures { result ≡ begun id.now base }
    {
        NextIds {
            asked: Some(id),
            ids: IdentifierRefs::none(),
            number: match base {
                IdentifierBase::False => None,
                IdentifierBase::Value(_) => Some(first_number(base)),
            },
            before: 0,
        }
    }

    /// A copy: its identifiers stand where those of this one do.
    #[inline(always)]
    pub fn copy(&self) -> NextIds<'a>
        ensures { result ≡ self.now }
    {
        NextIds {
            asked: self.asked,
            ids: self.ids.copy(),
            number: self.number,
            before: self.before,
        }
    }

    /// Whether no identifier is left.
    #[inline(always)]
    #[tactic(auto, using(crate::proofs::Increments::LastNumber::some_numbered))]
    pub fn is_empty(&self) -> bool
        ensures { result ≡ is_empty self.now }
    {
        match (self.asked, self.number) {
            (None, None) => self.ids.is_empty(),
            _ => false,
        }
    }

    // The identifiers that are left, with texts of their own.
    pub(super) fn to_list(&self, alloc: Global) -> Allocated<Vec<Identifier>>
        ensures { IfOk result (λ list. ids_view list.items ≡ self.now) }
    {
        let mut list = Vec::new(alloc);
        let mut others = self.copy();
        'ids: while let Some(id) = others.next() {
            let own = match id {
                IdentifierRef::Numeric(number) => Identifier::Numeric(number),
                IdentifierRef::AlphaNumeric(text) => {
                    Identifier::AlphaNumeric(String::from_str(alloc, text)?)
                }
            };
            list.push(own)?;
        }
        Ok(list)
    }

    // A pre-release of these identifiers without build metadata. One that is a number takes no
    // memory.
    pub(super) fn to_qualifier(&self, alloc: Global) -> Allocated<Qualifier>
        ensures pre_release { IfOk result (λ q. pre_release_of q ≡ self.now) }
        ensures build { IfOk result (λ q. build_of q ≡ []) }
        ensures full { IfOk result (λ q. IsFull q) }
        ensures memory { OnErr result (0 < length self.now) }
    {
        if self.asked.is_none() && self.ids.is_empty() {
            return Ok(match self.number {
                Some(number) => Qualifier::One(Identifier::Numeric(number)),
                None => Qualifier::Absent,
            });
        }
        let ids = self.to_list(alloc)?;
        let pre_len = ids.len();
        Ok(Qualifier::Lists(Lists { pre_len, ids }))
    }
}

/// Each identifier once, in the order of the list.
impl<'a> Iterator for NextIds<'a> {
    type Item = IdentifierRef<'a>;

    ghost next_gives = { YieldsFirstBy lent_id_view (λ ids. ids) };

    ghost remaining = { item_count (λ ids. ids) };

    #[inline(always)]
    fn next(&mut self) -> Option<IdentifierRef<'a>> {
        if let Some(asked) = self.asked {
            self.asked = None;
            return Some(IdentifierRef::AlphaNumeric(asked));
        }
        let id = self.ids.next();
        let Some(number) = self.number else {
            return id;
        };
        if self.before > 0 && id.is_some() {
            self.before -= 1;
            return id;
        }
        self.number = None;
        Some(IdentifierRef::Numeric(number))
    }
}
