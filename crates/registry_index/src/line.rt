// A line of a load, and the key of its version.

ghost use Rattle.std.specs.Prelude.{◌≡◌, ◌↔◌, IfNone, IfOk, IfSome, None};
ghost use Rattle.semver_core.specs.Failures.{NoValue};
ghost use Rattle.npm_words.specs.VersionText.{IsVersionText};
ghost use Rattle.registry_index.specs.Lines.{HasNoTab, IsKeyOf, package_in, rest_in, version_in};
ghost use Rattle.semver_core.specs.declared.TheConstants.{MAX_SAFE_INTEGER};

use anyhow::anyhow;
use npm_reading::{Reading, version_flaw};
use semver_core::MAX_SAFE_INTEGER;
use std::alloc::{AllocError, Global};

/// The parts of a line: a version of a package, and what belongs to it.
#[derive(Clone, Copy)]
pub struct Line<'a> {
    pub package: &'a str,
    pub version: &'a str,
    pub rest: &'a str,
}

/// The parts of a line, or `None` if it has no tab. Without a second tab nothing belongs to the
/// version.
pub fn cut(line: &str) -> Option<Line<'_>>
    ensures none { (result ≡ None) ↔ HasNoTab line.now }
    ensures package { IfSome result (λ it. it.package.now ≡ package_in line.now) }
    ensures version { IfSome result (λ it. it.version.now ≡ version_in line.now) }
    ensures rest { IfSome result (λ it. it.rest.now ≡ rest_in line.now) }
{
    let Some((package, behind)) = line.split_once('\t') else {
        return None;
    };
    let (version, rest) = match behind.split_once('\t') {
        Some(parts) => parts,
        None => (behind, ""),
    };
    Some(Line {
        package,
        version,
        rest,
    })
}

/// The key of the version that npm reads in a text, or `None` if it rejects the text. Fails only if
/// allocation fails.
pub fn key_of(alloc: Global, text: &str) -> Result<Option<Vec<u8>>, AllocError>
    ensures some { IfOk result (λ r. IfSome r (λ bytes. IsKeyOf text.now bytes.items)) }
    ensures none { IfOk result (λ r. IfNone r
        (NoValue (IsVersionText MAX_SAFE_INTEGER text.now))) }
{
    let reading = Reading {
        loose: false,
        include_prerelease: false,
    };
    match npm_reading::version(text, reading) {
        Ok(version) => Ok(Some(version.key(alloc)?)),
        Err(_) => Ok(None),
    }
}

/// Why npm rejects a text as a version.
pub fn refusal(text: &str) -> anyhow::Error {
    match version_flaw(text) {
        Some(why) => anyhow!("{text:?} is no version: {why}"),
        None => anyhow!("{text:?} is no version"),
    }
}
