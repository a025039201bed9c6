ghost use Rattle.std.specs.Prelude.{◌≡◌, ◌↔◌, ◌⊎◌, [], IfOk, IsTrue, List, true, false, unwrap_or};
ghost use Rattle.nodejs_semver.specs.Cuts.{Span};
ghost use Rattle.nodejs_semver.specs.Failures.{NoValue, RefusedOnlyIf};
ghost use Rattle.nodejs_semver.specs.Parsing.{Parses};
ghost use Rattle.nodejs_semver.specs.Ranges.Gate.{accepts};
ghost use Rattle.nodejs_semver.specs.Text.Meaning.{Means};
ghost use Rattle.nodejs_semver.specs.Text.WrittenSet.{Writes};
ghost use Rattle.nodejs_semver.specs.Versions.{VersionValue};

use nodejs_semver::{Failure, MAX_SAFE_INTEGER, Range, SemverError, Version};
use std::alloc::Global;
use std::test::Fail;

// Whether the version of a text satisfies the range of another text.
fn admits(alloc: Global, range: &str, version: &str) -> Result<bool, Failure<SemverError>>
    ensures ok { IfOk result (λ answer. (r : List (Span VersionValue)) × (v : VersionValue)
        × Means MAX_SAFE_INTEGER range.now r × Parses MAX_SAFE_INTEGER version.now v
        × (answer ≡ accepts r v false)) }
    ensures refused { RefusedOnlyIf result (Means MAX_SAFE_INTEGER range.now []
        ⊎ NoValue (Parses MAX_SAFE_INTEGER version.now)) }
{
    let range = Range::parse(alloc, range)?;
    let version = Version::parse(alloc, version)?;
    Ok(range.satisfies(&version))
}

// What two range texts have in common, or `None` if no version is in both.
fn both(alloc: Global, one: &str, other: &str) -> Result<Option<Range>, Failure<SemverError>>
    ensures { IfOk result (λ found. (v : VersionValue) →
        IsTrue (accepts (unwrap_or found []) v true)
        ↔ (Writes MAX_SAFE_INTEGER one.now v × Writes MAX_SAFE_INTEGER other.now v)) }
{
    let one = Range::parse(alloc, one)?;
    let other = Range::parse(alloc, other)?;
    Ok(one.intersect(alloc, &other)?)
}

#[test]
fn callers_run(rt: HostRuntime) -> Result<(), Fail> {
    assert!(rt; admits(rt.alloc(), "^1.2.3", "1.9.0")?);
    let found = both(rt.alloc(), "^1.2.3", "<1.5.0")?;
    assert_eq!(rt; found, Some(Range::parse(rt.alloc(), ">=1.2.3 <1.5.0")?));
    Ok(())
}
