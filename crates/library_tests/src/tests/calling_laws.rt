// Callers whose contracts follow from the laws of flaws and of ignored words.

ghost use Rattle.std.specs.Prelude.{◌≡◌, ℕ, IfOk, IsUtf8, List, Some};
ghost use Rattle.nodejs_semver.specs.Diagnosis.IgnoredWords.{AreAlike};
ghost use Rattle.nodejs_semver.specs.Diagnosis.VersionFlaws.{IsFlaw};
ghost use Rattle.nodejs_semver.specs.Text.Meaning.{Means};

use nodejs_semver::diagnosis::{VersionFlaw, version_flaw};
use nodejs_semver::laws::ignored_words_mean_nothing;
use nodejs_semver::{Failure, MAX_SAFE_INTEGER, Range, SemverError};
use std::alloc::Global;

// The one flaw of a version text.
fn the_flaw(text: &str) -> Option<VersionFlaw>
    ensures { (flaw : VersionFlaw) → IsFlaw MAX_SAFE_INTEGER text.now flaw → result ≡ Some flaw }
{
    version_flaw(text)
}

// The range of a text, which is also that of each text with the same words but for ignored ones.
fn range_of_all(alloc: Global, text: &str) -> Result<Range, Failure<SemverError>>
    ensures { IfOk result (λ range. (other : List ℕ) → IsUtf8 other
        → AreAlike MAX_SAFE_INTEGER text.now other → Means MAX_SAFE_INTEGER other range) }
{
    ignored_words_mean_nothing();
    Range::parse(alloc, text)
}

#[test]
fn laws_serve_callers(rt: HostRuntime) {
    assert!(rt; the_flaw("1.2.3 ") == Some(VersionFlaw::Ignored { at: 5 }));
    let range = range_of_all(rt.alloc(), "foo 1.2.3").ok();
    assert!(rt; range.is_some());
    assert!(rt; range == Range::parse(rt.alloc(), "1.2.3 bar").ok());
}
