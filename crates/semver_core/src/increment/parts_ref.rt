// The version that a word is asked of.

ghost use Rattle.std.specs.Prelude.{◌≡◌};
ghost use Rattle.semver_core.specs.Words.{parts_ref_value, release_value};

use crate::{IdentifierRefs, Version, VersionRef};

// The five values of a version, its identifiers where they stand.
#[derive(Drop)]
pub(super) struct PartsRef<'a> {
    pub(super) major: u64,
    pub(super) minor: u64,
    pub(super) patch: u64,
    pub(super) pre_release: IdentifierRefs<'a>,
    pub(super) build: IdentifierRefs<'a>,
}

impl<'a> PartsRef<'a> {
    #[inline(always)]
    pub(super) fn of(version: &'a Version) -> PartsRef<'a>
        ensures { parts_ref_value result ≡ version.now }
    {
        PartsRef {
            major: version.major(),
            minor: version.minor(),
            patch: version.patch(),
            pre_release: IdentifierRefs::of_items(version.pre_release()),
            build: IdentifierRefs::of_items(version.build()),
        }
    }

    // Its identifiers stand in the text that the version borrows.
    #[inline(always)]
    pub(super) fn of_ref(version: &VersionRef<'a>) -> PartsRef<'a>
        ensures { parts_ref_value result ≡ version.now }
    {
        PartsRef {
            major: version.major(),
            minor: version.minor(),
            patch: version.patch(),
            pre_release: version.pre_release(),
            build: version.build(),
        }
    }

    // The release of these numbers with the same build.
    #[inline(always)]
    pub(super) fn with_numbers(&self, major: u64, minor: u64, patch: u64) -> PartsRef<'a>
        ensures { parts_ref_value result
            ≡ record (release_value major minor patch) { build = self.now.build } }
    {
        PartsRef {
            major,
            minor,
            patch,
            pre_release: IdentifierRefs::none(),
            build: self.build.copy(),
        }
    }
}
