// Versions that are found in texts of other forms, and builds as they are written.

ghost use Rattle.nodejs_semver_c.specs.Answers.{Kept, Prints};
ghost use Rattle.nodejs_semver_c.specs.Found.{OnBuild, OnForm, released_text};
ghost use Rattle.npm_words.specs.Coerced.{IsCoercedBy};
ghost use Rattle.npm_words.specs.VersionText.{IsClean};
ghost use Rattle.semver_core.specs.Printing.Text.{version_text};
ghost use Rattle.semver_core.specs.declared.TheConstants.{MAX_SAFE_INTEGER};

use crate::print::{Text, print};
use crate::{BAD_VERSION, NOTHING, read};
use npm_reading::{Coercion, Reading};

/// Prints the version of a text that may have whitespace around it and any of `v` and `=` in front,
/// as node-semver's `clean` does: without its build metadata. The rest is read as npm reads it.
///
/// Returns `OK`, `TOO_SMALL`, `NOT_UTF8`, `BAD_VERSION` or `TOO_LONG`.
#[unsafe(no_mangle)]
pub extern "C" fn nodejs_semver_version_clean(
    version: &[u8],
    out: &mut [u8],
    len: &mut usize,
) -> u32
    ensures { let kept = Kept out.old out.new len.old len.new in
        OnForm BAD_VERSION (IsClean MAX_SAFE_INTEGER) version.now result kept
        (λ v. Prints (released_text v) out.old out.new len.old len.new result) }
{
    let text = ok_or_return!(read::text(version));
    match npm_reading::clean(text) {
        Ok(version) => print(&version.without_build(), out, len),
        Err(_) => BAD_VERSION,
    }
}

/// Prints the build metadata of a version text as it is written, without its `+`: of `1.0.0+007` it
/// is `007`, where the version itself prints as `1.0.0+7`. It is empty where the version has none.
/// The text is read as npm reads it, with node-semver's option `loose` if that is set.
///
/// Returns `OK`, `TOO_SMALL`, `NOT_UTF8`, `BAD_VERSION` or `TOO_LONG`.
#[unsafe(no_mangle)]
pub extern "C" fn nodejs_semver_version_build_text(
    version: &[u8],
    loose: bool,
    out: &mut [u8],
    len: &mut usize,
) -> u32
    ensures { OnBuild loose version.now result (Kept out.old out.new len.old len.new)
        (λ build. Prints build out.old out.new len.old len.new result) }
{
    let text = ok_or_return!(read::text(version));
    let reading = Reading {
        loose,
        include_prerelease: false,
    };
    match npm_reading::build_text(text, reading) {
        Some(build) => print(&Text(build), out, len),
        None => BAD_VERSION,
    }
}

/// Prints the version that any text has in it, as node-semver's `coerce` finds it: the leftmost
/// number, and up to two more after it that dots join. Missing numbers are 0.
///
/// With `loose` numbers may have leading zeros. With `rtl` the version is looked for from the
/// right. With `include_prerelease` it has the pre-release and the build metadata that follow its
/// numbers.
///
/// Returns `OK`, `NOTHING`, `TOO_SMALL`, `NOT_UTF8` or `TOO_LONG`.
#[unsafe(no_mangle)]
pub extern "C" fn nodejs_semver_version_coerce(
    text: &[u8],
    loose: bool,
    rtl: bool,
    include_prerelease: bool,
    out: &mut [u8],
    len: &mut usize,
) -> u32
    ensures { let kept = Kept out.old out.new len.old len.new in
        OnForm NOTHING (IsCoercedBy (record {
          loose = loose;
          rtl = rtl;
          include_prerelease = include_prerelease;
        })) text.now result kept
        (λ v. Prints (version_text v) out.old out.new len.old len.new result) }
{
    let text = ok_or_return!(read::text(text));
    let options = Coercion {
        loose,
        rtl,
        include_prerelease,
    };
    match npm_reading::coerce_with(text, options) {
        Some(version) => print(&version, out, len),
        None => NOTHING,
    }
}
