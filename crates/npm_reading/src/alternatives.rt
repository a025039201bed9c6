// What an alternative of a range text accepts: the interval that its comparators have in common.

ghost use Rattle.nodejs_semver.specs.Words.{Bool, IfSome, List, None, [], false, interval};
ghost use Rattle.nodejs_semver.specs.Words.{is_empty, true};
ghost use Rattle.npm_reading.specs.Internal.Alternatives.{NarrowedBy, ranged};
ghost use Rattle.npm_words.specs.Internal.{Alternatives.met, Meaning.{AreRead, IsNarrowed}};
ghost use Rattle.npm_words.specs.Internal.{Meaning.is_unbounded, Parts.are_normal};
ghost use Rattle.npm_words.specs.Internal.Parts.{has_no_comparators, npm_partial_view};
ghost use Rattle.npm_words.specs.{Internal.Parts.npm_sign_view, Table.table, Words.Comparison};
ghost use Rattle.std.specs.Prelude.{◌&&◌, ◌∷◌, ◌≡◌};

use npm_words::pieces::{Partial, Sign, row};
use semver_core::VersionRef;
use semver_core::cuts::{Bound, Interval};
use semver_pieces::{Bounds, Comparator, Intervals, lowest};
use smallvec::SmallVec;
use std::alloc::Global;

/// What the comparators that were read so far have in common; no interval where their cuts do not
/// meet. It is bare if there were none. It is lost, and no alternative, if it is bare and its first
/// and its last word are ignored.
#[derive(Drop)]
pub(crate) struct Alternative<'a> {
    pub(crate) interval: Option<Interval<VersionRef<'a>>>,
    is_bare: bool,
    pub(crate) is_lost: bool,
}

// What two intervals have in common.
#[inline(always)]
fn common<'a>(
    first: Option<Interval<VersionRef<'a>>>,
    second: Option<Interval<VersionRef<'a>>>,
) -> Option<Interval<VersionRef<'a>>>
    ensures { result ≡ met first.entry second.entry }
{
    first?.into_intersection(second?).ok()
}

impl<'a> Alternative<'a> {
    /// No comparator was read yet.
    pub(crate) fn all() -> Alternative<'a>
        ensures narrowed { (include : Bool) → IsNarrowed include [] result.interval }
        ensures bare { result.is_bare ≡ true }
        ensures lost { result.is_lost ≡ false }
    {
        Alternative {
            interval: Some(Interval::default()),
            is_bare: true,
            is_lost: false,
        }
    }

    /// The alternative with the comparators of one more word, whose partial has this text with its
    /// marks; none where one of the comparators is not valid.
    pub(crate) fn meet(
        self,
        include: bool,
        sign: Sign,
        partial: &Partial<'a>,
        text: &[u8],
    ) -> Option<Alternative<'a>>
        requires { are_normal (npm_partial_view partial.now) ≡ true }
        ensures narrowed { NarrowedBy include self.entry.interval
            (table include (npm_sign_view sign) (npm_partial_view partial.now) text.now) result }
        ensures bare { IfSome result (λ a. a.is_bare ≡ (self.entry.is_bare && is_empty
            (table include (npm_sign_view sign) (npm_partial_view partial.now) text.now))) }
        ensures lost { IfSome result (λ a. a.is_lost ≡ self.entry.is_lost) }
    {
        let has_no_comparators = match sign {
            Sign::Compared(Comparator::Above | Comparator::Below) => false,
            _ => matches!(partial, Partial::Wildcard),
        };
        self.meet_read(row(include, sign, partial, text), has_no_comparators)
    }

    /// The alternative with the bounds that were read of more comparators, or of none; none where
    /// one of the comparators is not valid.
    pub(crate) fn meet_read(
        self,
        read: Option<Bounds<'a>>,
        is_bare: bool,
    ) -> Option<Alternative<'a>>
        ensures narrowed { (include : Bool) → (cs : List Comparison) →
            AreRead include cs read.entry → NarrowedBy include self.entry.interval cs result }
        ensures none { read.entry ≡ None → result ≡ None }
        ensures bare { IfSome result (λ a. a.is_bare ≡ (self.entry.is_bare && is_bare)) }
        ensures lost { IfSome result (λ a. a.is_lost ≡ self.entry.is_lost) }
    {
        let bounds = read?;
        Some(Alternative {
            interval: common(self.interval, Interval::new(bounds.lower, bounds.upper)),
            is_bare: self.is_bare && is_bare,
            is_lost: self.is_lost,
        })
    }

    /// The alternative at its end: lost if it is bare and its ends are ignored.
    pub(crate) fn ended(self, are_ends_ignored: bool) -> Alternative<'a>
        ensures interval { result.interval ≡ self.entry.interval }
        ensures lost { result.is_lost ≡ (self.entry.is_bare && are_ends_ignored) }
    {
        Alternative {
            interval: self.interval,
            is_bare: self.is_bare,
            is_lost: self.is_bare && are_ends_ignored,
        }
    }
}

// Whether an interval has no bounds.
#[inline(always)]
fn is_unbounded(interval: &Interval<VersionRef<'_>>) -> bool
    ensures { result ≡ is_unbounded interval.now }
{
    matches!(
        (interval.lower(), interval.upper()),
        (Bound::Unbounded, Bound::Unbounded)
    )
}

// A list of one interval.
#[inline(always)]
fn one<'a>(alloc: Global, interval: Interval<VersionRef<'a>>) -> Intervals<VersionRef<'a>>
    ensures { result.items ≡ interval.entry ∷ [] }
{
    let mut one = SmallVec::new(alloc);
    one.push_reserved(interval);
    one
}

/// Makes the intervals of the alternatives of a text those of its range: one without bounds where
/// some alternative's has none, and `<0.0.0-0` where there is no interval.
#[inline(always)]
#[tactic(auto, using(crate::proofs::Grammar::RangeReads::ranged_one))]
pub(crate) fn set_ranged<'a>(alloc: Global, found: &mut Intervals<VersionRef<'a>>)
    ensures { found.new.items ≡ ranged found.old.items }
{
    if found.len() == 1 {
        return;
    }
    if found.iter().any(is_unbounded) {
        *found = one(alloc, Interval::default());
    } else if found.is_empty() {
        let least = Bound::Before(lowest(0, 0, 0));
        *found = one(alloc, Interval::of_ordered(Bound::Unbounded, least));
    }
}
