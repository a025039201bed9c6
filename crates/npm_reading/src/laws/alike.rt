// Range texts whose intervals are alike here and to npm.

ghost use Rattle.nodejs_semver.specs.{Ranges.Gate.accepts, Text.Meaning.Means};
ghost use Rattle.npm_reading.specs.{Alike.AreAlike, Ranges.intervals_in};
ghost use Rattle.npm_words.specs.{Alternatives.HasAlternativesIn, Table.Comparison};
ghost use Rattle.semver_core.specs.{Cuts.Span, Failures.{MemoryOnlyIf, NoValue, RefusedOnlyIf}};
ghost use Rattle.semver_core.specs.Text.Bars.{IsCutAtBars};
ghost use Rattle.semver_core.specs.{Printing.RoundTrip.is_within, Values.Versions.VersionValue};
ghost use Rattle.{semver_core.specs.declared.TheConstants.MAX_SAFE_INTEGER, std.specs.Prelude.IfOk};
ghost use Rattle.std.specs.{Prelude.{List, [], false, length, true, ℕ, ◌<◌, ◌≡◌, ◌⊎◌}, Str.IsUtf8};
ghost use Rattle.npm_words.specs.Alternatives as Npm;

use nodejs_semver::RangeRef;
use npm_words::Reading;
use semver_core::{Failure, SemverError, Version};
use std::alloc::Global;

/// Range texts of which `Range::parse` and node-semver's strict reading, as `npm_reading::range`
/// reads, have alike intervals accept the same versions in both.
///
/// Two lists of intervals are alike (`AreAlike`) if they are as long, and those at each place have
/// the same bounds, whatever their builds, or differ in form alone: `>=0.0.0` here is no lower
/// bound to node-semver, `<1.0.0` is `<1.0.0-0`, and `<=1.9007199254740991.9007199254740991` is
/// `<2.0.0-0`. The texts `^1.2.3`, `~1.2`, `1.x || >=3.0.0`, `1.0.0 - 2.3`, `<1`, `<=1`, `*` and
/// the empty one have such lists. `>=1.0.0-rc <1` has not, since node-semver accepts nothing by it,
/// nor has `^1 || *`, which is one interval to node-semver.
///
/// - `same`: if a text means a list of intervals, and has alternatives to node-semver whose
///   intervals are alike, both accept the same versions, pre-releases not being included, of those
///   with numbers up to `MAX_SAFE_INTEGER`. With greater ones they need not: 1.9007199254740992.0
///   is not in `<=1.9007199254740991.9007199254740991`.
///
/// A caller that needs this fact in a proof calls this function, which does nothing at run time.
pub fn npm_reads_alike()
    ensures same { (text : List ℕ) (list : List (Span VersionValue))
        (alternatives : List (List Comparison)) (v : VersionValue) → IsUtf8 text
        → Means MAX_SAFE_INTEGER text list
        → HasAlternativesIn false MAX_SAFE_INTEGER false text alternatives
        → AreAlike list (intervals_in false alternatives) → is_within MAX_SAFE_INTEGER v ≡ true
        → accepts list v false ≡ Npm.accepts false alternatives v }
{}

/// Whether the range that `RangeRef::parse` reads in the text satisfies the version, and whether
/// the one that `npm_reading::range` reads does.
///
/// - `here`: the first says whether the intervals that the text means accept the version.
/// - `there`: the second says whether its alternatives to node-semver do.
/// - `same`: where its intervals are alike (`npm_reads_alike`) they say the same, if no number of
///   the version is above `MAX_SAFE_INTEGER`.
pub fn satisfied_alike(
    alloc: Global,
    text: &str,
    version: &Version,
) -> Result<(bool, bool), Failure<SemverError>>
    ensures here { IfOk result (λ both. (list : List (Span VersionValue))
        → Means MAX_SAFE_INTEGER text.now list → both.0 ≡ accepts list version.now false) }
    ensures there { IfOk result (λ both. (alternatives : List (List Comparison))
        → HasAlternativesIn false MAX_SAFE_INTEGER false text.now alternatives
        → both.1 ≡ Npm.accepts false alternatives version.now) }
    ensures same { IfOk result (λ both. (list : List (Span VersionValue))
        (alternatives : List (List Comparison)) → Means MAX_SAFE_INTEGER text.now list
        → HasAlternativesIn false MAX_SAFE_INTEGER false text.now alternatives
        → AreAlike list (intervals_in false alternatives)
        → is_within MAX_SAFE_INTEGER version.now ≡ true → both.0 ≡ both.1) }
    // The one other error is a failed allocation. Where both lists are alike, neither holds.
    ensures refused { RefusedOnlyIf result (Means MAX_SAFE_INTEGER text.now []
        ⊎ NoValue (HasAlternativesIn false MAX_SAFE_INTEGER false text.now)) }
    // Allocation fails only if the text means two intervals or more, or has two alternatives.
    ensures memory { MemoryOnlyIf result
        (((list : List (Span VersionValue)) → Means MAX_SAFE_INTEGER text.now list
        → 1 < length list)
        ⊎ ((pieces : List (List ℕ)) → IsCutAtBars text.now pieces → 1 < length pieces)) }
{
    let here = RangeRef::parse(alloc, text)?;
    let strict = Reading {
        loose: false,
        include_prerelease: false,
    };
    let there = crate::range(alloc, text, strict)?;
    Ok((here.satisfies(version), there.satisfies(version)))
}
