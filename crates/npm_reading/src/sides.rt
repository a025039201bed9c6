// Versions above and below a range, by name.

ghost use Rattle.nodejs_semver.specs.Ranges.Outside.{is_outside};
ghost use Rattle.std.specs.Prelude.{◌≡◌};
ghost use Rattle.nodejs_semver.specs.declared.range.outside.OutsideDirection.TheVariants as side;

use nodejs_semver::{OutsideDirection, RangeOf};
use semver_core::{VersionPoint, Versioned};

/// Whether the version lies above the range, as `Range::outside` says of `Higher`; the flag says
/// whether pre-releases are included. node-semver's answers differ where it drops `>=0.0.0`.
///
/// ```rust
/// let version = VersionRef::parse("2.0.0")?;
/// let range = Range::parse(alloc, "^1.2")?;
/// assert!(rt; npm_reading::gtr(&version, &range, false));
/// ```
pub fn gtr<V: VersionPoint, W: Versioned>(
    version: &W,
    range: &RangeOf<V>,
    include_prerelease: bool,
) -> bool
    ensures { result
        ≡ is_outside side.Higher include_prerelease range.now (W.value version.now) }
{
    matches!(
        range.outside(version, OutsideDirection::Higher, include_prerelease),
        Ok(true)
    )
}

/// Whether the version lies below the range, as `Range::outside` says of `Lower`; the flag says
/// whether pre-releases are included.
///
/// ```rust
/// let version = VersionRef::parse("1.1.9")?;
/// let range = Range::parse(alloc, "^1.2")?;
/// assert!(rt; npm_reading::ltr(&version, &range, false));
/// ```
pub fn ltr<V: VersionPoint, W: Versioned>(
    version: &W,
    range: &RangeOf<V>,
    include_prerelease: bool,
) -> bool
    ensures { result
        ≡ is_outside side.Lower include_prerelease range.now (W.value version.now) }
{
    matches!(
        range.outside(version, OutsideDirection::Lower, include_prerelease),
        Ok(true)
    )
}
