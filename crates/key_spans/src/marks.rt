// The keys at which the parts of an interval begin and end.

ghost use Rattle.std.specs.Prelude.{◌≡◌, false, if◌then◌else◌, IfOk};
ghost use Rattle.key_spans.specs.Internal.Places.{lowest_key, next_numbers, next_place, one_more};
ghost use Rattle.key_spans.specs.Internal.Places.{release_key};
ghost use Rattle.semver_core.specs.Keys.{key};
ghost use Rattle.semver_core.specs.Values.Versions.{is_release, lowest};

use nodejs_semver::{Version, VersionRef, Versioned};
use std::alloc::{AllocError, Global};

// Above all keys.
pub(crate) const END: [u8; 1] = [255];

// The key of a version.
pub(crate) fn key_of<V: Versioned>(alloc: Global, version: &V) -> Result<Vec<u8>, AllocError>
    ensures { IfOk result (λ bytes. bytes.items ≡ key (V.value version.now)) }
{
    let mut bytes = Vec::new(alloc);
    version.write_key(&mut bytes)?;
    Ok(bytes)
}

// The key of a pre-release with one more identifier, the number 0.
pub(crate) fn key_behind<V: Versioned>(alloc: Global, version: &V) -> Result<Vec<u8>, AllocError>
    ensures { IfOk result (λ bytes. is_release (V.value version.now) ≡ false
        → bytes.items ≡ key (one_more (V.value version.now))) }
{
    let mut bytes = key_of(alloc, version)?;
    bytes.pop();
    bytes.extend_from_slice(&[1, 0, 0])?;
    Ok(bytes)
}

// The key of the release of the three numbers.
pub(crate) fn release_key<V: Versioned>(alloc: Global, version: &V) -> Result<Vec<u8>, AllocError>
    ensures { IfOk result (λ bytes. bytes.items ≡ release_key (V.value version.now).major
        (V.value version.now).minor (V.value version.now).patch) }
{
    Version::from((version.major(), version.minor(), version.patch())).key(alloc)
}

// The least pre-release of three numbers.
pub(crate) fn lowest(major: u64, minor: u64, patch: u64) -> VersionRef<'static>
    ensures { result ≡ lowest major minor patch }
{
    VersionRef::from_texts(major, minor, patch, b"0", b"")
}

// The three numbers after those of a version; none after the greatest.
fn next_numbers<V: Versioned>(version: &V) -> Option<(u64, u64, u64)>
    ensures { result ≡ next_numbers (V.value version.now) }
{
    let (major, minor, patch) = (version.major(), version.minor(), version.patch());
    if patch < u64::MAX {
        Some((major, minor, patch + 1))
    } else if minor < u64::MAX {
        Some((major, minor + 1, 0))
    } else if major < u64::MAX {
        Some((major + 1, 0, 0))
    } else {
        None
    }
}

// The key of the release of the numbers after those of a version, or of their least pre-release.
pub(crate) fn next_key<V: Versioned>(
    alloc: Global,
    version: &V,
    is_release: bool,
) -> Result<Vec<u8>, AllocError>
    ensures { IfOk result (λ bytes. bytes.items
        ≡ next_place (if is_release then release_key else lowest_key) (V.value version.now)) }
{
    match next_numbers(version) {
        None => END.to_vec(alloc),
        Some(numbers) if is_release => Version::from(numbers).key(alloc),
        Some((major, minor, patch)) => lowest(major, minor, patch).key(alloc),
    }
}
