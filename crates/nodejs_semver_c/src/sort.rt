// The order of many versions.

ghost use Rattle.nodejs_semver_c.specs.Answers.{NoMemoryOnlyIf};
ghost use Rattle.nodejs_semver_c.specs.Lists.{AreVersionsOf, OnRoom, RefusesAt, TellsOrder};
ghost use Rattle.nodejs_semver_c.specs.Lists.{placed};
ghost use Rattle.semver_core.specs.Values.Versions.{VersionValue};
ghost use Rattle.std.specs.Prelude.{◌≡◌, ◌<◌, ◌≤◌, ◌⊎◌, ◌++◌, [], IfErr, List, OnOk, drop};
ghost use Rattle.std.specs.Prelude.{length, map};

use crate::read::{self, MOST_TEXTS};
use crate::{NO_MEMORY, OK, TOO_LONG, TOO_SMALL};
use nodejs_semver::VersionRef;
use std::alloc::Global;

// A version and its place.
type Placed<'t> = (VersionRef<'t>, usize);

/// The order of some versions, ascending by precedence, equal ones as they stand: `order` gets
/// their places. If it has room for fewer, nothing is read or written. Where a text is rejected,
/// `index` gets the place of the first such text.
///
/// Returns `OK`, `TOO_SMALL`, `BAD_ARGUMENT`, `NOT_UTF8`, `BAD_VERSION`, `NO_MEMORY` or `TOO_LONG`.
#[unsafe(no_mangle)]
pub extern "C" fn nodejs_semver_versions_sort(
    alloc: Global,
    reading: u32,
    versions: &[&[u8]],
    order: &mut [usize],
    index: &mut usize,
) -> u32
    ensures { let kept = (order.new ≡ order.old) × (index.new ≡ index.old) in
        OnRoom versions.now (length order.old) result kept (
        NoMemoryOnlyIf result kept (0 < length versions.now)
        ⊎ ((order.new ≡ order.old) × RefusesAt reading versions.now index.new result)
        ⊎ ((result ≡ OK) × (index.new ≡ index.old)
        × TellsOrder reading versions.now order.old order.new)) }
{
    if versions.len() > MOST_TEXTS {
        return TOO_LONG;
    }
    if order.len() < versions.len() {
        return TOO_SMALL;
    }
    let mut placed = Vec::new(alloc);
    match read_all(reading, versions, &mut placed, index) {
        Ok(()) => {
            placed.sort_unstable();
            tell_places(placed.as_slice(), order);
            OK
        }
        Err(status) => status,
    }
}

// Appends the versions of some texts, each with its place.
fn read_all<'t>(
    reading: u32,
    versions: &[&'t [u8]],
    all: &mut Vec<Placed<'t>>,
    index: &mut usize,
) -> Result<(), u32>
    requires { all.old.items ≡ [] }
    ensures ok { OnOk result ((index.new ≡ index.old) × ((vs : List VersionValue)
        × AreVersionsOf reading versions.now vs × (all.new.items ≡ placed vs))) }
    ensures refused { IfErr result (λ status. RefusesAt reading versions.now index.new status
        ⊎ NoMemoryOnlyIf status (index.new ≡ index.old) (0 < length versions.now)) }
{
    'versions: for at in 0..versions.len() {
        match read::version(reading, versions[at]) {
            Ok(version) => {
                if all.push((version, at)).is_err() {
                    return Err(NO_MEMORY);
                }
            }
            Err(status) => {
                *index = at;
                return Err(status);
            }
        }
    }
    Ok(())
}

fn tell_places(all: &[Placed<'_>], order: &mut [usize])
    requires { length all.now ≤ length order.old }
    ensures { order.new ≡ map (λ p. p.1) all.now ++ drop (length all.now) order.old }
{
    'places: for at in 0..all.len() {
        order[at] = all[at].1;
    }
}
