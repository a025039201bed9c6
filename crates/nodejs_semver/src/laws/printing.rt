// Printed ranges come back.

ghost use Rattle.std.specs.Prelude.{◌<◌, ◌^◌, ◌≡◌, IfOk};
ghost use Rattle.nodejs_semver.specs.Words.{bounds_back, is_printable, IsRange, List, list_all};
ghost use Rattle.nodejs_semver.specs.Words.{map, Means, range_eq, range_text, RefusedOnlyIf, Span};
ghost use Rattle.nodejs_semver.specs.Words.{string_bytes, true, VersionValue, ℕ};

use crate::{Failure, MAX_SAFE_INTEGER, Range, SemverError};
use std::alloc::{AllocError, Global};

/// Printed ranges come back: the printed text of a range reads as an equal range where no interval
/// is `*` and no number is above the limit. Builds come back too, but where an interval prints as
/// one version, that version stands for both ends.
pub fn printed_ranges_come_back(text: &str)
    ensures equal { (limit : ℕ) (list read : List (Span VersionValue)) → limit < 2 ^ 64
        → IsRange limit list → list_all (is_printable limit) list ≡ true
        → text.now ≡ range_text list → Means limit text.now read → range_eq read list ≡ true }
    ensures builds { (limit : ℕ) (list : List (Span VersionValue)) → limit < 2 ^ 64
        → IsRange limit list → list_all (is_printable limit) list ≡ true
        → text.now ≡ range_text list
        → Means limit text.now (map (λ s. bounds_back s.lower s.upper) list) }
{
    let _ = text;
}

/// A range that is printed and read again. No interval of it is `*`, and no number is above
/// `MAX_SAFE_INTEGER`.
///
/// Returns an equal range. Its builds are those of the first range too, except that where an
/// interval prints as one version, that version stands for both ends. It prints as the same text.
/// Fails only if allocation fails.
pub fn reread_range(alloc: Global, range: &Range) -> Result<Range, Failure<SemverError>>
    requires { list_all (is_printable MAX_SAFE_INTEGER) range.now ≡ true }
    ensures equal { IfOk result (λ again. range_eq again range.now ≡ true) }
    ensures builds { IfOk result (λ again.
        again ≡ map (λ s. bounds_back s.lower s.upper) range.now) }
    ensures text { IfOk result (λ again. range_text again ≡ range_text range.now) }
    ensures never_refused { RefusedOnlyIf result ⊥ }
{
    // Proof helper: a range has an interval. The call has no effect at run time.
    let _intervals = range.intervals();
    match range.to_string(alloc) {
        Ok(text) => Range::parse(alloc, &text),
        Err(error) => Err(Failure::Memory(error)),
    }
}

/// Fill, width and precision change nothing of a printed range.
pub fn printed_in_field(
    alloc: Global,
    range: &Range,
    width: usize,
    precision: usize,
) -> Result<String, AllocError>
    ensures { IfOk result (λ text. string_bytes text ≡ range_text range.now) }
{
    format!(in alloc; "{range:*^width$.precision$}")
}
