// How version texts and range texts are read.

ghost use Rattle.std.specs.Prelude.{◌≡◌, IfNone, IfOk, IfSome, option_map, slice_get};
ghost use Rattle.semver_core.specs.Failures.{NoValue};
ghost use Rattle.semver_core.specs.declared.TheConstants.{MAX_SAFE_INTEGER};
ghost use Rattle.npm_reading.specs.Ranges.{IsRangeIn};
ghost use Rattle.npm_semver.specs.Listing.{IsGiven};
ghost use Rattle.npm_semver.specs.Readings as Spec;
ghost use Rattle.npm_semver.specs.Readings.{HasRange, IsFoundIn, IsVersionAs, IsVersionIn};
ghost use Rattle.npm_semver.specs.Readings.{fields, part_by, strictly};

use nodejs_semver::{Failure, RangeRef, VersionRef};
use npm_reading::{Coercion, Reading};
use semver_core::scan;
use std::alloc::{AllocError, Global};

/// How the command reads texts.
#[derive(Clone, Copy)]
pub struct ReadOptions {
    /// Whether ranges accept every pre-release within their bounds, and texts that are coerced keep
    /// theirs.
    pub include_prerelease: bool,
    /// Whether range texts, and the numbers of texts that are coerced, are read loosely.
    pub is_loose: bool,
    /// Whether a version is looked for anywhere in a text.
    pub is_coerced: bool,
    /// Whether it is the one that ends last there.
    pub from_right: bool,
    /// The number of the field of a text that is read, if not all of it is; none has number 0.
    pub field: Option<usize>,
}

impl ReadOptions {
    /// The reading without any option.
    pub fn strict() -> ReadOptions
        ensures { result ≡ strictly }
    {
        ReadOptions {
            include_prerelease: false,
            is_loose: false,
            is_coerced: false,
            from_right: false,
            field: None,
        }
    }

    /// The part of a text that is read: all of it, or a field.
    pub fn part(self, text: &str) -> Option<&str>
        ensures { option_map (λ part. part.now) result ≡ part_by self.field text.now }
    {
        match self.field {
            None => Some(text),
            Some(n) => nth_field(n, text),
        }
    }

    /// The version that stands in a text.
    pub fn version(self, text: &str) -> Option<VersionRef<'_>>
        ensures some { IfSome result (IsVersionIn self text.now) }
        ensures none { IfNone result (NoValue (IsVersionIn self text.now)) }
    {
        let part = self.part(text)?;
        self.version_as(part)
    }

    /// A text as it was given: without the whitespace around it, and whole where a field is read.
    pub fn given(self, text: &str) -> &str
        ensures { IsGiven self text.now result.now }
    {
        match self.field {
            None => scan::trim(text),
            Some(_) => text,
        }
    }

    // The version that a part is.
    fn version_as(self, text: &str) -> Option<VersionRef<'_>>
        ensures some { IfSome result (IsVersionAs self text.now) }
        ensures none { IfNone result (NoValue (IsVersionAs self text.now)) }
    {
        let strict = Reading {
            loose: false,
            include_prerelease: false,
        };
        if !self.is_coerced {
            return npm_reading::version(text, strict).ok();
        }
        match self.found(text) {
            Some(version) => Some(version),
            None => npm_reading::version(text, strict).ok(),
        }
    }

    // The version that is found anywhere in a text.
    fn found(self, text: &str) -> Option<VersionRef<'_>>
        ensures some { IfSome result (IsFoundIn self text.now) }
        ensures none { IfNone result (NoValue (IsFoundIn self text.now)) }
    {
        let options = Coercion {
            loose: self.is_loose,
            rtl: self.from_right,
            include_prerelease: self.include_prerelease,
        };
        npm_reading::coerce_with(text, options)
    }

    /// The range that a text is. Fails only if allocation fails.
    pub fn range(self, alloc: Global, text: &str) -> Result<Option<RangeRef<'_>>, AllocError>
        ensures some { IfOk result (λ range. IfSome range
            (IsRangeIn self.is_loose MAX_SAFE_INTEGER self.include_prerelease text.now)) }
        ensures none { IfOk result (λ range. IfNone range (NoValue (HasRange self text.now))) }
    {
        let reading = Reading {
            loose: self.is_loose,
            include_prerelease: self.include_prerelease,
        };
        Failure::refused_as_none(npm_reading::range(alloc, text, reading))
    }
}

// The field of a number, counted from 1, if a text has so many. Blanks, which are spaces and tabs,
// stand between fields.
fn nth_field(n: usize, text: &str) -> Option<&str>
    ensures { option_map (λ part. part.now) result ≡ Spec.nth_field n text.now }
{
    let before = n.checked_sub(1)?;
    let field = field_behind(before, text.as_bytes())?;
    Some(scan::text_front(field))
}

// The field behind so many others.
fn field_behind(before: usize, text: &[u8]) -> Option<&[u8]>
    ensures { option_map (λ field. field.now) result ≡ slice_get (fields text.now) before }
{
    text.split(|byte| is_blank(*byte))
        .filter(|part| !part.is_empty())
        .nth(before)
}

fn is_blank(byte: u8) -> bool
    ensures { result ≡ Spec.is_blank byte }
{
    byte == b' ' || byte == b'\t'
}
