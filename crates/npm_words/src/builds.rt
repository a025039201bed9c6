// Builds: the text of a build as it is written.

ghost use Rattle.npm_words.specs.{Builds.IsBuildText, VersionText.IsVersionTextIn};
ghost use Rattle.{npm_words.specs.Words.{MAX_SAFE_INTEGER, NoValue}, std.specs.Prelude.IfNone};
ghost use Rattle.std.specs.Prelude.{IfSome};

use crate::options::Reading;
use crate::versions::version;
use semver_core::scan::trim;

/// Returns the build metadata of a version text as it is written, without its `+`: the empty text
/// if the version has none, and `None` exactly if [`version`](crate::version) rejects the
/// text in this reading.
///
/// A version keeps the identifiers of its build by value, so that `1.0.0+001` prints `1.0.0+1`. A
/// build that names a commit or a date, as `+0123456` does, keeps its leading zeros in this text,
/// which is node-semver's `build` with dots between the identifiers. The text that is returned is
/// borrowed from the version text: nothing is allocated.
///
/// ```rust
/// let strict = Reading::default();
/// assert!(rt; npm_reading::build_text(" v1.0.0-rc.1+001.0a ", strict) == Some("001.0a"));
/// assert!(rt; npm_reading::build_text("1.0.0", strict) == Some(""));
/// assert!(rt; npm_reading::build_text("1.0+001", strict).is_none());
/// let loose = Reading {
///     loose: true,
///     ..Reading::default()
/// };
/// assert!(rt; npm_reading::build_text("= v1.02.3beta+007", loose) == Some("007"));
/// assert!(rt; npm_reading::build_text("= v1.02.3beta+007", strict).is_none());
/// ```
pub fn build_text(text: &str, reading: Reading) -> Option<&str>
    // What is returned is the build of the version that the text is, as the text has it.
    ensures some { IfSome result (λ build.
        IsBuildText (IsVersionTextIn reading.loose MAX_SAFE_INTEGER) text.now build.now) }
    // Nothing is returned only if the text is no version.
    ensures none { IfNone result
        (NoValue (IsVersionTextIn reading.loose MAX_SAFE_INTEGER text.now)) }
{
    version(text, reading).ok()?;
    match trim(text).split_once('+') {
        Some((_, behind)) => Some(behind),
        None => Some(""),
    }
}
