// Sets of keys as lists of parts, of which one list is canonical.

ghost use Rattle.std.specs.Prelude.{◌≡◌, ◌++◌, IfOk, OnOk};
ghost use Rattle.std.specs.Cmp.Lexicographic.{slice_cmp};
ghost use Rattle.std.specs.Ordering.{nat_cmp};
ghost use Rattle.key_spans.specs.Internal.Pieces.{IsCanonicalOf};
ghost use Rattle.key_spans.specs.Internal.Sets.{alone, joined, later, pair};

use std::alloc::{AllocError, Global};
use std::marker::Model;

// The bytes from `start` on that are below `stop`.
#[derive(Drop)]
pub(crate) struct Part {
    pub(crate) start: Vec<u8>,
    pub(crate) stop: Vec<u8>,
}

impl Model for Part {
    ghost use Rattle.std.specs.Prelude.{List, ℕ};
    ghost use Rattle.key_spans.specs.Internal.Sets.{Stretch};

    ghost Value = { Stretch (List ℕ) };

    ghost view = { λ p. record { start = p.start.items; stop = p.stop.items } };
}

impl Part {
    // A part with copies of two places.
    pub(crate) fn between(alloc: Global, start: &[u8], stop: &[u8]) -> Result<Part, AllocError>
        ensures { IfOk result (λ part. part ≡ record { start = start.now; stop = stop.now }) }
    {
        let start = start.to_vec(alloc)?;
        let stop = stop.to_vec(alloc)?;
        Ok(Part { start, stop })
    }
}

// Adds a part, if it is not empty.
fn push_any(parts: &mut Vec<Part>, part: Part) -> Result<(), AllocError>
    ensures { OnOk result (parts.new.items ≡ parts.old.items ++ alone (slice_cmp nat_cmp) part) }
{
    if part.start.cmp(&part.stop).is_lt() {
        parts.push(part)?;
    }
    Ok(())
}

// The later of two places.
fn later_of(first: Vec<u8>, second: Vec<u8>) -> Vec<u8>
    ensures { result.items ≡ later (slice_cmp nat_cmp) first.items second.items }
{
    if first.cmp(&second).is_lt() {
        second
    } else {
        first
    }
}

// Adds the last part and the next one, joined if they meet.
fn push_pair(parts: &mut Vec<Part>, last: Part, next: Part) -> Result<(), AllocError>
    ensures { OnOk result
        (parts.new.items ≡ parts.old.items ++ pair (slice_cmp nat_cmp) last next) }
{
    if last.stop.cmp(&next.start).is_lt() {
        parts.push(last)?;
        return push_any(parts, next);
    }
    parts.push(Part {
        start: last.start,
        stop: later_of(last.stop, next.stop),
    })?;
    Ok(())
}

// Puts a part behind others, which begin no later.
fn join(parts: &mut Vec<Part>, part: Part) -> Result<(), AllocError>
    ensures { OnOk result (parts.new.items ≡ joined (slice_cmp nat_cmp) parts.old.items part) }
{
    match parts.pop() {
        None => push_any(parts, part),
        Some(last) => push_pair(parts, last, part),
    }
}

// The canonical list of the keys of some parts.
pub(crate) fn canonical(alloc: Global, mut parts: Vec<Part>) -> Result<Vec<Part>, AllocError>
    ensures { IfOk result (λ found. IsCanonicalOf parts.items found.items) }
{
    parts.sort_by(|a, b| a.start.cmp(&b.start))?;
    let mut found = Vec::new(alloc);
    for part in parts {
        join(&mut found, part)?;
    }
    Ok(found)
}
