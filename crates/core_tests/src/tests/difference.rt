// The words of the kinds of difference.

use super::prints;
use semver_core::ReleaseType;

const WORDS: &[(ReleaseType, &str)] = &[
    (ReleaseType::Major, "major"),
    (ReleaseType::Minor, "minor"),
    (ReleaseType::Patch, "patch"),
    (ReleaseType::PreMajor, "premajor"),
    (ReleaseType::PreMinor, "preminor"),
    (ReleaseType::PrePatch, "prepatch"),
    (ReleaseType::PreRelease, "prerelease"),
];

#[test]
fn version_diff_prints_its_word(rt: HostRuntime) {
    for (kind, word) in WORDS {
        assert!(rt; prints(rt.alloc(), kind, word), "{word}");
    }
}
