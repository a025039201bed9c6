// Lists of intervals that readers fill.

ghost use Rattle.std.specs.Prelude.{◌++◌, ◌<◌, ◌∷◌, ◌≡◌, ◌≤◌};
ghost use Rattle.semver_core.specs.Words.{[], has_bound, IfOk, length, List, OnErr, OnOk, passes};
ghost use Rattle.semver_core.specs.Words.{Span, takes_memory, true, VersionValue, ℕ};
ghost use Rattle.smallvec.specs.SmallVec.{HasRoomFor};

use semver_core::cuts::{Bound, Interval, Point};
use semver_core::{Version, VersionRef};
use smallvec::SmallVec;
use std::alloc::{AllocError, Global};

/// A list of intervals, of which one stands inline.
pub type Intervals<V> = SmallVec<Interval<V>, 1>;

/// A list of intervals that is filled from a text, with versions that borrow the text or with
/// versions of their own.
pub trait Found<'a> {
    /// The intervals as contracts see them.
    ghost items: { Self → List (Span VersionValue) };

    /// How many intervals it holds without an allocation.
    ghost room: { ℕ };

    /// Whether the list need not grow for one interval more.
    ghost has_room: { Self → Type 0 };

    /// Adds an interval at the end.
    fn add(&mut self, interval: Interval<VersionRef<'a>>) -> Result<(), AllocError>
        ensures added { OnOk result (items self.new ≡ items self.old ++ interval.entry ∷ []) }
        ensures memory { OnErr result (room ≤ length (items self.old)) };

    /// Adds an interval at the end of a list that need not grow.
    fn add_reserved(&mut self, interval: Interval<VersionRef<'a>>) -> Result<(), AllocError>
        requires { has_room self.old }
        ensures added { OnOk result (items self.new ≡ items self.old ++ interval.entry ∷ []) }
        ensures memory { OnErr result (room ≤ 0) };

    /// Makes room for the intervals of a text, and for one at least.
    fn reserve_for(&mut self, text: &[u8]) -> Result<(), AllocError>
        ensures same { items self.new ≡ items self.old }
        ensures room { OnOk result (has_room self.new) };
}

// The bound with a version of its own.
#[inline(always)]
#[tactic(auto, using(semver_core::proofs::Taking::taking))]
fn owned_bound(alloc: Global, bound: &Bound<VersionRef<'_>>) -> Result<Bound<Version>, AllocError>
    ensures whole { IfOk result (λ b. b ≡ bound.now) }
    ensures memory { OnErr result (passes takes_memory bound.now ≡ true) }
{
    Ok(match bound {
        Bound::Unbounded => Bound::Unbounded,
        Bound::Before(version) => Bound::Before(version.to_version(alloc)?),
        Bound::After(version) => Bound::After(version.to_version(alloc)?),
    })
}

/// Returns the interval with versions of its own. Fails only if allocation fails, which happens
/// only where a bound has build metadata or a pre-release other than `0` alone.
#[inline(always)]
pub fn owned_interval(
    alloc: Global,
    interval: &Interval<VersionRef<'_>>,
) -> Result<Interval<Version>, AllocError>
    ensures whole { IfOk result (λ i. i ≡ interval.now) }
    ensures memory { OnErr result (has_bound takes_memory interval.now ≡ true) }
{
    let lower = owned_bound(alloc, interval.lower())?;
    let upper = owned_bound(alloc, interval.upper())?;
    Ok(Interval::of_ordered(lower, upper))
}

// Adds an interval at the end. A list that outgrows its place mostly has more than two. The first
// interval stands inline.
#[inline(always)]
fn push<V: Point>(interval: Interval<V>, found: &mut Intervals<V>) -> Result<(), AllocError>
    ensures added { OnOk result (found.new.items ≡ found.old.items ++ interval ∷ []) }
    ensures memory { OnErr result (0 < length found.old.items) }
{
    if found.len() == found.capacity() {
        found.reserve(3)?;
    }
    found.push_reserved(interval);
    Ok(())
}

// Room for the intervals of a text, at most 31 at once. A part and its bars mostly take eight bytes
// or more.
#[inline(always)]
fn make_room<V: Point>(text: &[u8], found: &mut Intervals<V>) -> Result<(), AllocError>
    ensures same { found.new.items ≡ found.old.items }
    ensures room { OnOk result (HasRoomFor found.new 1) }
{
    if found.len() == found.capacity() {
        found.reserve((text.len() / 8).min(30) + 1)?;
    }
    Ok(())
}

/// Intervals that borrow the text.
impl<'a> Found<'a> for Intervals<VersionRef<'a>> {
    ghost items = { λ found. found.items };

    ghost room = { 1 };

    ghost has_room = { λ found. HasRoomFor found 1 };

    #[inline(always)]
    fn add(&mut self, interval: Interval<VersionRef<'a>>) -> Result<(), AllocError> {
        push(interval, self)
    }

    #[inline(always)]
    fn add_reserved(&mut self, interval: Interval<VersionRef<'a>>) -> Result<(), AllocError> {
        self.push_reserved(interval);
        Ok(())
    }

    #[inline(always)]
    fn reserve_for(&mut self, text: &[u8]) -> Result<(), AllocError> {
        make_room(text, self)
    }
}

/// Intervals with versions of their own, each made where it is added.
impl<'a> Found<'a> for Intervals<Version> {
    ghost items = { λ found. found.items };

    ghost room = { 0 };

    ghost has_room = { λ found. HasRoomFor found 1 };

    #[inline(always)]
    fn add(&mut self, interval: Interval<VersionRef<'a>>) -> Result<(), AllocError> {
        let alloc = *self.allocator();
        push(owned_interval(alloc, &interval)?, self)
    }

    #[inline(always)]
    fn add_reserved(&mut self, interval: Interval<VersionRef<'a>>) -> Result<(), AllocError> {
        let alloc = *self.allocator();
        self.push_reserved(owned_interval(alloc, &interval)?);
        Ok(())
    }

    #[inline(always)]
    fn reserve_for(&mut self, text: &[u8]) -> Result<(), AllocError> {
        make_room(text, self)
    }
}
