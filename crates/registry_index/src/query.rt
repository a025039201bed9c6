// What is asked of the index.

ghost use Rattle.std.specs.Prelude.{◌≡◌, false, IfNone, IfOk, IfSome, IsSomeAnd};
ghost use Rattle.key_spans.specs.Spans.{in_spans};
ghost use Rattle.nodejs_semver.specs.Ranges.Gate.{accepts};
ghost use Rattle.npm_words.specs.Alternatives.{HasAlternativesIn};
ghost use Rattle.registry_index.specs.Bound.{AreSpansOf};
ghost use Rattle.semver_core.specs.Failures.{NoValue};
ghost use Rattle.semver_core.specs.Keys.{key};
ghost use Rattle.semver_core.specs.Values.Versions.{IsVersion, VersionValue};
ghost use Rattle.semver_core.specs.declared.TheConstants.{MAX_SAFE_INTEGER};

use key_spans::{KeySpan, key_spans};
use nodejs_semver::{Failure, RangeRef};
use npm_reading::Reading;
use semver_core::MAX_SAFE_INTEGER;
use std::alloc::{AllocError, Global};

/// All versions in a span.
pub const ALL: &str = "SELECT key, version, rest FROM release \
    WHERE package = ?1 AND key >= ?2 AND key < ?3 AND (?4 = 0 OR substr(key, -1) = x'03')";

/// The greatest version in a span.
pub const BEST: &str = "SELECT key, version, rest FROM release \
    WHERE package = ?1 AND key >= ?2 AND key < ?3 AND (?4 = 0 OR substr(key, -1) = x'03') \
    ORDER BY key DESC, version DESC LIMIT 1";

/// How many versions are newer.
pub const NEWER: &str = "SELECT count(*) FROM release WHERE package = ?1 AND key > ?2";

/// The newest version.
pub const NEWEST: &str = "SELECT key, version, rest FROM release WHERE package = ?1 \
    ORDER BY key DESC, version DESC LIMIT 1";

/// The spans of the range that npm reads in a text, or `None` if it rejects the text. Fails only if
/// allocation fails.
pub fn spans_of(alloc: Global, text: &str) -> Result<Option<Vec<KeySpan>>, AllocError>
    ensures some { IfOk result (λ r. IfSome r (λ spans. AreSpansOf text.now spans.items)) }
    ensures none { IfOk result (λ r. IfNone r
        (NoValue (HasAlternativesIn false MAX_SAFE_INTEGER false text.now))) }
{
    let reading = Reading {
        loose: false,
        include_prerelease: false,
    };
    match npm_reading::range(alloc, text, reading) {
        Ok(range) => spans_in(alloc, &range),
        Err(Failure::Refused(_)) => Ok(None),
        Err(Failure::Memory(error)) => Err(error),
    }
}

// The spans of a range.
fn spans_in(alloc: Global, range: &RangeRef<'_>) -> Result<Option<Vec<KeySpan>>, AllocError>
    ensures { IfOk result (λ r. IsSomeAnd r (λ spans. (v : VersionValue) → IsVersion v
        → in_spans spans.items (key v) ≡ accepts range.now v false)) }
{
    Ok(Some(key_spans(alloc, range, false)?))
}
