// Lists of identifiers, one by one.

ghost use Rattle.std.specs.Prelude.{◌≡◌, ◌++◌, ◌<◌, ◌≤◌, IfOk, OnErr};
ghost use Rattle.semver_core.specs.Words.{is_listed, item_count, lent_id_view, OnOk, YieldsFirstBy};
ghost use Rattle.semver_core.specs.Words.{id_cmp, id_ref_view, ids_view, is_empty, slice_cmp};
ghost use Rattle.semver_core.specs.Words.{[], HasText, IfSome, is_normal, length, list_all, listed};
ghost use Rattle.semver_core.specs.Words.{begins_padded_run, has_padded, id_text, join_with_byte};
ghost use Rattle.semver_core.specs.Words.{map, true};

use crate::borrowed::dotted::{IdRef, cmp_texts, first_id};
use crate::{Allocated, Identifier, IdentifierRef, scan};
use std::alloc::{AllocError, Global};
use std::cmp::Ordering;
use std::marker::Model;

// Where identifiers stand: as items, or joined by dots in a text.
#[derive(Clone, Copy, Debug)]
pub(crate) enum Source<'a> {
    Items(&'a [Identifier]),
    Text(&'a [u8]),
}

/// The identifiers of a list, one by one. In contracts it is the list of those that are left.
#[derive(Debug, Drop)]
pub struct IdentifierRefs<'a> {
    source: Source<'a>,
}

/// In clauses, the identifiers of a list are those that are left.
impl<'a> Model for IdentifierRefs<'a> {
    ghost use Rattle.std.specs.Prelude.{List};
    ghost use Rattle.semver_core.specs.Text.Identifiers.{Id};
    ghost use Rattle.semver_core.specs.Internal.Sources.{ids_of, IsSource};

    ghost Value = { List Id };

    ghost view = { λ ids. ids_of ids.source };

    ghost invariant = { λ ids. IsSource ids.source };
}

impl<'a> IdentifierRefs<'a> {
    // Those that stand as items.
    #[inline(always)]
    pub(crate) fn of_items(items: &'a [Identifier]) -> IdentifierRefs<'a>
        ensures { result ≡ ids_view items.now }
    {
        let source = Source::Items(items);
        IdentifierRefs { source }
    }

    // No identifier.
    #[inline(always)]
    #[tactic(auto, using(crate::proofs::Text::Ends::lists_cut))]
    pub(crate) fn none() -> IdentifierRefs<'a>
        ensures { result ≡ [] }
    {
        let source = Source::Text(b"");
        IdentifierRefs { source }
    }

    // Those that a text spells.
    #[inline(always)]
    pub(crate) fn of_text(text: &'a [u8]) -> IdentifierRefs<'a>
        requires { is_listed text.now ≡ true }
        ensures { result ≡ listed text.now }
    {
        let source = Source::Text(text);
        IdentifierRefs { source }
    }

    /// A copy: it stands where this one does.
    #[inline(always)]
    pub fn copy(&self) -> IdentifierRefs<'a>
        ensures { result ≡ self.now }
    {
        let source = self.source;
        IdentifierRefs { source }
    }

    /// How many identifiers are left.
    #[tactic(auto, using(crate::proofs::Text::Listed::listed_counts))]
    pub fn len(&self) -> usize
        ensures { result ≡ length self.now }
    {
        match self.source {
            Source::Items(items) => items.len(),
            Source::Text([]) => 0,
            Source::Text(text) => text.iter().filter(|byte| **byte == b'.').count() + 1,
        }
    }

    /// Whether no identifier is left.
    #[inline(always)]
    #[tactic(auto, using(crate::proofs::Text::Firsts::spelled_release))]
    pub fn is_empty(&self) -> bool
        ensures { result ≡ is_empty self.now }
    {
        match self.source {
            Source::Items(items) => items.is_empty(),
            Source::Text(text) => text.is_empty(),
        }
    }

    // A number that is not below that of the identifiers that are left.
    #[inline(always)]
    #[tactic(auto, using(crate::proofs::Text::Listed::listed_bounds))]
    pub(crate) fn at_most(&self) -> usize
        ensures { length self.now ≤ result }
    {
        match self.source {
            Source::Items(items) => items.len(),
            Source::Text(text) => text.len(),
        }
    }

    /// The text that the identifiers that are left print as, joined by dots, where it stands in
    /// memory as it is: mostly for those of a version that borrows its text.
    ///
    /// It returns `None` for those that stand as items, and where one of several characters begins
    /// with a 0, since a number prints without leading zeros: of `1.2.3-01`, and of `1.2.3-0a` too.
    #[inline(always)]
    #[tactic(auto, using(crate::proofs::Printing::Padded::unpadded_prints))]
    pub fn printed(&self) -> Option<&'a [u8]>
        ensures some { IfSome result (λ text.
            text.now ≡ join_with_byte 46 (map id_text self.now)) }
    {
        match self.source {
            Source::Items(_) => None,
            Source::Text(text) => {
                if has_padded(text) {
                    return None;
                }
                Some(text)
            }
        }
    }

    /// The identifiers that are left, with texts of their own. Fails only if allocation fails,
    /// which never happens where none is left.
    pub fn to_list(&self, alloc: Global) -> Result<Vec<Identifier>, AllocError>
        ensures whole { IfOk result (λ list. ids_view list.items ≡ self.now) }
        ensures memory { OnErr result (0 < length self.now) }
    {
        let mut list = Vec::new(alloc);
        if !self.is_empty() {
            self.copy_into(alloc, &mut list)?;
        }
        Ok(list)
    }

    // `next` with the bytes of the identifier, which are not tested to be a text.
    #[inline(always)]
    #[tactic(auto, using(crate::proofs::Text::Listed::listed_none))]
    pub(crate) fn next_bare(&mut self) -> Option<IdRef<'a>>
        ensures first { YieldsFirstBy id_ref_view (λ ids. ids) self.old result self.new }
        ensures text { IfSome result (λ id. HasText id) }
    {
        match self.source {
            Source::Items(items) => {
                let (first, others) = items.split_first()?;
                self.source = Source::Items(others);
                Some(first.as_ref().bare())
            }
            Source::Text([]) => None,
            Source::Text(text) => {
                let (first, others) = first_id(text);
                self.source = Source::Text(others);
                Some(first)
            }
        }
    }

    // Whether its own text spells each identifier.
    pub(crate) fn are_normal(self) -> bool
        ensures { result ≡ list_all is_normal self.entry }
    {
        let mut others = self;
        'ids: while let Some(id) = others.next() {
            if !id.is_normal() {
                return false;
            }
        }
        true
    }

    // Adds copies of the identifiers that are left to a list.
    #[inline(never)]
    #[tactic(auto, using(crate::proofs::Text::Listed::listed_read))]
    pub(crate) fn copy_into(&self, alloc: Global, list: &mut Vec<Identifier>) -> Allocated<()>
        ensures { OnOk result (ids_view list.new.items ≡ ids_view list.old.items ++ self.now) }
    {
        match self.source {
            Source::Items(items) => push_copies(alloc, items, list),
            Source::Text([]) => Ok(()),
            Source::Text(text) => {
                let _end = scan::read_list(alloc, scan::text_front(text), 0, list)?;
                Ok(())
            }
        }
    }
}

// Whether a text begins with a 0 that no dot follows, but another byte.
#[inline(always)]
fn begins_padded_run(text: &[u8]) -> bool
    ensures { result ≡ begins_padded_run text.now }
{
    matches!(text, [b'0', next, ..] if *next != b'.')
}

// Whether a piece of several bytes between the dots of a text begins with a 0.
#[inline(always)]
#[tactic(auto, using(crate::proofs::Printing::Padded::padded))]
fn has_padded(text: &[u8]) -> bool
    ensures { result ≡ has_padded text.now }
{
    if begins_padded_run(text) {
        return true;
    }
    for at in 0..text.len() {
        if text[at] == b'.' && begins_padded_run(&text[at + 1..]) {
            return true;
        }
    }
    false
}

// Adds copies of these identifiers to a list.
fn push_copies(alloc: Global, items: &[Identifier], list: &mut Vec<Identifier>) -> Allocated<()>
    ensures { OnOk result
        (ids_view list.new.items ≡ ids_view list.old.items ++ ids_view items.now) }
{
    for id in items {
        list.push(id.copy(alloc)?)?;
    }
    Ok(())
}

/// Each identifier once, in the order of the list.
impl<'a> Iterator for IdentifierRefs<'a> {
    type Item = IdentifierRef<'a>;

    ghost next_gives = { YieldsFirstBy lent_id_view (λ ids. ids) };

    ghost remaining = { item_count (λ ids. ids) };

    #[inline(always)]
    fn next(&mut self) -> Option<IdentifierRef<'a>> {
        if let Source::Items(items) = self.source {
            let (first, others) = items.split_first()?;
            self.source = Source::Items(others);
            return Some(first.as_ref());
        }
        Some(match self.next_bare()? {
            IdRef::Numeric(number) => IdentifierRef::Numeric(number),
            IdRef::AlphaNumeric(text) => IdentifierRef::AlphaNumeric(scan::text_front(text)),
        })
    }
}

// The order of two lists, identifier by identifier.
#[inline(always)]
#[tactic(auto, using(crate::proofs::Values::Compared::ids_view_cmp))]
pub(crate) fn cmp_lists(a: IdentifierRefs<'_>, b: IdentifierRefs<'_>) -> Ordering
    ensures { result ≡ slice_cmp id_cmp a.entry b.entry }
{
    match (a.source, b.source) {
        (Source::Items(items), Source::Items(others)) => items.cmp(others),
        (Source::Text(text), Source::Text(other)) => cmp_texts(text, other),
        _ => cmp_mixed(a, b),
    }
}

// The order of two lists of which one stands as items and the other in a text.
fn cmp_mixed(a: IdentifierRefs<'_>, b: IdentifierRefs<'_>) -> Ordering
    ensures { result ≡ slice_cmp id_cmp a.entry b.entry }
{
    let mut left = a;
    let mut right = b;
    'ids: loop {
        match (left.next(), right.next()) {
            (None, None) => return Ordering::Equal,
            (None, Some(_)) => return Ordering::Less,
            (Some(_), None) => return Ordering::Greater,
            (Some(x), Some(y)) => {
                let order = x.cmp(&y);
                if order.is_ne() {
                    return order;
                }
            }
        }
    }
}
