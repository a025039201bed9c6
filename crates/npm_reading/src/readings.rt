// Ranges with how they were read, by which they are asked.

ghost use Rattle.nodejs_semver.specs.Ranges.Best.{IsMinOf};
ghost use Rattle.nodejs_semver.specs.Words.{IfOk, IsCutAtBars, IsMax, IsMaxOf, IsMin};
ghost use Rattle.nodejs_semver.specs.Words.{List, MAX_SAFE_INTEGER, MemoryOnlyIf, NoValue};
ghost use Rattle.nodejs_semver.specs.Words.{RefusedOnlyIf, VersionValue, length, map};
ghost use Rattle.nodejs_semver.specs.Words.{option_copied, option_map, ℕ};
ghost use Rattle.npm_reading.specs.{Ranges.IsRangeIn, Readings.{HasAlternativesAs, OfAccepted}};
ghost use Rattle.npm_words.specs.Words.{Comparison};
ghost use Rattle.std.specs.Prelude.{◌<◌, ◌≡◌};
ghost use Rattle.nodejs_semver.specs.Ranges.Gate as Gate;

use crate::ranges::range;
use nodejs_semver::RangeRef;
use nodejs_semver::pieces::{greatest, least};
use npm_words::Reading;
use semver_core::{Failure, SemverError, Versioned};
use std::alloc::Global;
use std::marker::Model;

/// A range that was read as node-semver reads it, with the text and the reading. It is asked with
/// pre-releases included exactly if it was read so, which a [`RangeRef`] does not know.
#[derive(Drop)]
pub struct ReadRange<'a> {
    text: &'a str,
    reading: Reading,
    range: RangeRef<'a>,
}

/// In clauses, this is the text and how it was read.
impl<'a> Model for ReadRange<'a> {
    ghost use Rattle.npm_reading.specs.Ranges.{IsRangeIn};
    ghost use Rattle.npm_reading.specs.Readings.{ReadText};
    ghost use Rattle.semver_core.specs.declared.TheConstants.{MAX_SAFE_INTEGER};

    ghost Value = { ReadText };

    ghost view = { λ r. record { reading = r.reading; text = r.text.now } };

    ghost invariant = { λ r. IsRangeIn r.reading.loose MAX_SAFE_INTEGER
        r.reading.include_prerelease r.text.now r.range };
}

impl<'a> ReadRange<'a> {
    /// Reads a range text as [`range`](crate::range) does, and keeps the text and the reading
    /// beside the range, which borrows the text.
    ///
    /// ```rust
    /// let beta = VersionRef::parse("1.3.0-beta")?;
    /// let reading = Reading {
    ///     include_prerelease: true,
    ///     ..Reading::default()
    /// };
    /// assert!(rt; ReadRange::parse(alloc, "^1.2", reading)?.satisfies(&beta));
    /// let range = ReadRange::parse(alloc, "^1.2", Reading::default())?;
    /// assert!(rt; !range.satisfies(&beta));
    /// ```
    pub fn parse(
        alloc: Global,
        text: &'a str,
        reading: Reading,
    ) -> Result<ReadRange<'a>, Failure<SemverError>>
        // It is this text, so read, and the text has alternatives.
        ensures value { IfOk result (λ r. r ≡ record { reading = reading; text = text.now }) }
        ensures ok { IfOk result (λ r. (alternatives : List (List Comparison))
            × HasAlternativesAs MAX_SAFE_INTEGER r alternatives) }
        // A text is rejected only if it has none. The one other error is a failed allocation.
        ensures refused { RefusedOnlyIf result (NoValue (HasAlternativesAs MAX_SAFE_INTEGER
            (record { reading = reading; text = text.now }))) }
        // Allocation fails only if the text has two alternatives or more.
        ensures memory { MemoryOnlyIf result ((pieces : List (List ℕ)) →
            IsCutAtBars text.now pieces → 1 < length pieces) }
    {
        let range = range(alloc, text, reading)?;
        Ok(ReadRange {
            text,
            reading,
            range,
        })
    }

    /// The text that was read.
    pub fn text(&self) -> &'a str
        ensures { result.now ≡ self.now.text }
    {
        self.text
    }

    /// How the text was read.
    pub fn reading(&self) -> Reading
        ensures { result ≡ self.now.reading }
    {
        self.reading
    }

    /// The range without its reading, for the calls that compute with ranges. Asked by
    /// `satisfies_with_prerelease` with the flag of the reading, it accepts the same versions.
    pub fn range(&self) -> &RangeRef<'a>
        // It is the intervals of the alternatives of the text.
        ensures range { IsRangeIn self.now.reading.loose MAX_SAFE_INTEGER
            self.now.reading.include_prerelease self.now.text result.now }
        ensures accepted { OfAccepted MAX_SAFE_INTEGER self.now (λ accepted. (v : VersionValue)
            → Gate.accepts result.now v self.now.reading.include_prerelease ≡ accepted v) }
    {
        &self.range
    }

    /// Whether the range accepts this version, with pre-releases included exactly if it was read
    /// so: what node-semver's `Range.test` returns.
    pub fn satisfies<W: Versioned>(&self, version: &W) -> bool
        ensures { OfAccepted MAX_SAFE_INTEGER self.now
            (λ accepted. result ≡ accepted (W.value version.now)) }
    {
        self.range
            .satisfies_with_prerelease(version, self.reading.include_prerelease)
    }

    /// The greatest of the versions that the range accepts by `satisfies`. Returns `None` exactly
    /// where it accepts none. Of equal versions it is the last.
    pub fn max_satisfying<'v, W: Versioned>(&self, versions: &'v [W]) -> Option<&'v W>
        ensures best { OfAccepted MAX_SAFE_INTEGER self.now (λ accepted. IsMax accepted
            (map W.value versions.now) (option_map (λ v. W.value v.now) result)) }
        ensures element { OfAccepted MAX_SAFE_INTEGER self.now (λ accepted.
            IsMaxOf W.value accepted versions.now (option_copied result)) }
    {
        let include = self.reading.include_prerelease;
        greatest(self.range.items(), include, versions)
    }

    /// The smallest of the versions that the range accepts by `satisfies`. Returns `None` exactly
    /// where it accepts none. Of equal versions it is the first.
    pub fn min_satisfying<'v, W: Versioned>(&self, versions: &'v [W]) -> Option<&'v W>
        ensures best { OfAccepted MAX_SAFE_INTEGER self.now (λ accepted. IsMin accepted
            (map W.value versions.now) (option_map (λ v. W.value v.now) result)) }
        ensures element { OfAccepted MAX_SAFE_INTEGER self.now (λ accepted.
            IsMinOf W.value accepted versions.now (option_copied result)) }
    {
        let include = self.reading.include_prerelease;
        least(self.range.items(), include, versions)
    }
}
