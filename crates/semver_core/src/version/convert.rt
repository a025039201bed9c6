// Versions from triples of numbers.

ghost use Rattle.std.specs.Prelude.{◌≡◌};
ghost use Rattle.semver_core.specs.Words.{GivesRelease, release_value};

use crate::{NegativeNumber, Version};

// The release of three numbers, none of them negative.
fn release_of(major: i64, minor: i64, patch: i64) -> Result<Version, NegativeNumber>
    ensures { GivesRelease major minor patch result }
{
    match (
        u64::try_from(major),
        u64::try_from(minor),
        u64::try_from(patch),
    ) {
        (Ok(major), Ok(minor), Ok(patch)) => Ok(Version::release(major, minor, patch)),
        _ => Err(NegativeNumber),
    }
}

/// The release of three numbers: major, minor and patch.
impl From<(u8, u8, u8)> for Version {
    ghost from_gives = { λ t v. v ≡ release_value t.0 t.1 t.2 };

    fn from((major, minor, patch): (u8, u8, u8)) -> Version {
        Version::release(u64::from(major), u64::from(minor), u64::from(patch))
    }
}

/// The release of three numbers: major, minor and patch.
impl From<(u16, u16, u16)> for Version {
    ghost from_gives = { λ t v. v ≡ release_value t.0 t.1 t.2 };

    fn from((major, minor, patch): (u16, u16, u16)) -> Version {
        Version::release(u64::from(major), u64::from(minor), u64::from(patch))
    }
}

/// The release of three numbers: major, minor and patch.
impl From<(u32, u32, u32)> for Version {
    ghost from_gives = { λ t v. v ≡ release_value t.0 t.1 t.2 };

    fn from((major, minor, patch): (u32, u32, u32)) -> Version {
        Version::release(u64::from(major), u64::from(minor), u64::from(patch))
    }
}

/// The release of three numbers: major, minor and patch. Literals need a suffix, since there is an
/// impl for each unsigned type: `Version::from((1u64, 2, 3))`.
impl From<(u64, u64, u64)> for Version {
    ghost from_gives = { λ t v. v ≡ release_value t.0 t.1 t.2 };

    fn from((major, minor, patch): (u64, u64, u64)) -> Version {
        Version::release(major, minor, patch)
    }
}

/// The release of three numbers: major, minor and patch.
impl From<(usize, usize, usize)> for Version {
    ghost from_gives = { λ t v. v ≡ release_value t.0 t.1 t.2 };

    fn from((major, minor, patch): (usize, usize, usize)) -> Version {
        Version::release(major as u64, minor as u64, patch as u64)
    }
}

/// The release of three numbers. Returns `NegativeNumber` exactly if one of them is negative.
impl TryFrom<(i8, i8, i8)> for Version {
    type Error = NegativeNumber;

    ghost try_from_gives = { λ t r. GivesRelease t.0 t.1 t.2 r };

    fn try_from((major, minor, patch): (i8, i8, i8)) -> Result<Version, NegativeNumber> {
        release_of(i64::from(major), i64::from(minor), i64::from(patch))
    }
}

/// The release of three numbers. Returns `NegativeNumber` exactly if one of them is negative.
impl TryFrom<(i16, i16, i16)> for Version {
    type Error = NegativeNumber;

    ghost try_from_gives = { λ t r. GivesRelease t.0 t.1 t.2 r };

    fn try_from((major, minor, patch): (i16, i16, i16)) -> Result<Version, NegativeNumber> {
        release_of(i64::from(major), i64::from(minor), i64::from(patch))
    }
}

/// The release of three numbers. Returns `NegativeNumber` exactly if one of them is negative.
impl TryFrom<(i32, i32, i32)> for Version {
    type Error = NegativeNumber;

    ghost try_from_gives = { λ t r. GivesRelease t.0 t.1 t.2 r };

    fn try_from((major, minor, patch): (i32, i32, i32)) -> Result<Version, NegativeNumber> {
        release_of(i64::from(major), i64::from(minor), i64::from(patch))
    }
}

/// The release of three numbers. Returns `NegativeNumber` exactly if one of them is negative.
impl TryFrom<(i64, i64, i64)> for Version {
    type Error = NegativeNumber;

    ghost try_from_gives = { λ t r. GivesRelease t.0 t.1 t.2 r };

    fn try_from((major, minor, patch): (i64, i64, i64)) -> Result<Version, NegativeNumber> {
        release_of(major, minor, patch)
    }
}

/// The release of three numbers. Returns `NegativeNumber` exactly if one of them is negative.
impl TryFrom<(isize, isize, isize)> for Version {
    type Error = NegativeNumber;

    ghost try_from_gives = { λ t r. GivesRelease t.0 t.1 t.2 r };

    fn try_from((major, minor, patch): (isize, isize, isize)) -> Result<Version, NegativeNumber> {
        release_of(major as i64, minor as i64, patch as i64)
    }
}
