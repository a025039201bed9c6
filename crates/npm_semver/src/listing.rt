// The texts of a question: the versions that are listed, and why others are left out.

ghost use Rattle.std.specs.Prelude.{◌≡◌, ◌++◌, ◌∷◌, [], ℕ, List, IfOk, OnOk};
ghost use Rattle.std.specs.List.{list_all};
ghost use Rattle.npm_semver.specs.Listing.{AreListed};
ghost use Rattle.npm_semver.specs.Reasons.{AreLeftOut, AreNoRanges};
ghost use Rattle.npm_semver.specs.Internal.Asked.{texts};
ghost use Rattle.npm_semver.specs.Internal.Readings.{says};
ghost use Rattle.npm_semver.specs.Internal.Texts.{Reads};

use crate::entry::Entry;
use crate::reading::ReadOptions;
use crate::why::{Kind, Reason};
use nodejs_semver::{RangeRef, VersionRef};
use std::alloc::{AllocError, Global};

/// What range texts are, and texts that may be versions, each in their order.
#[derive(Drop)]
pub struct Texts<'a> {
    /// The ranges; `None` stands for a text that is none.
    pub ranges: Vec<Option<RangeRef<'a>>>,
    /// The range texts that are no ranges.
    pub no_ranges: Vec<Reason<'a>>,
    /// The versions that all ranges accept.
    pub entries: Vec<Entry<'a>>,
    /// The texts that are no versions, and versions that not all ranges accept.
    pub left_out: Vec<Reason<'a>>,
    /// Whether some text is a version.
    pub has_version: bool,
}

impl<'a> Texts<'a> {
    /// Reads each text once. A text that is no range accepts no version. Fails only if allocation
    /// fails.
    pub fn of(
        alloc: Global,
        reading: ReadOptions,
        range_texts: &[&'a str],
        version_texts: &[&'a str],
    ) -> Result<Texts<'a>, AllocError>
        ensures no_ranges { IfOk result (λ read.
            AreNoRanges reading (texts range_texts.now) read.no_ranges.items) }
        ensures listed { IfOk result (λ read. AreListed reading
            (texts range_texts.now) (texts version_texts.now) read.entries.items) }
        ensures left_out { IfOk result (λ read. AreLeftOut reading
            (texts range_texts.now) (texts version_texts.now) read.left_out.items) }
        ensures read { IfOk result (Reads reading
            (texts range_texts.now) (texts version_texts.now)) }
    {
        let mut read = Texts {
            ranges: Vec::new(alloc),
            no_ranges: Vec::new(alloc),
            entries: Vec::new(alloc),
            left_out: Vec::new(alloc),
            has_version: false,
        };
        for &range in range_texts {
            read.push_range(alloc, reading, range)?;
        }
        for &text in version_texts {
            read.push_version(reading, text)?;
        }
        Ok(read)
    }

    // Adds a range text.
    fn push_range(
        &mut self,
        alloc: Global,
        reading: ReadOptions,
        text: &'a str,
    ) -> Result<(), AllocError>
        ensures { OnOk result ((before : List (List ℕ)) → Reads reading before [] self.old →
            Reads reading (before ++ text.now ∷ []) [] self.new) }
    {
        let Some(range) = reading.range(alloc, text)? else {
            let kind = Kind::NoRange;
            self.no_ranges.push(Reason { text, kind })?;
            self.ranges.push(None)?;
            return Ok(());
        };
        self.ranges.push(Some(range))?;
        Ok(())
    }

    // Adds a text that may be a version.
    fn push_version(&mut self, reading: ReadOptions, text: &'a str) -> Result<(), AllocError>
        ensures { OnOk result ((ranges before : List (List ℕ)) →
            Reads reading ranges before self.old →
            Reads reading ranges (before ++ text.now ∷ []) self.new) }
    {
        let Some(version) = reading.version(text) else {
            self.left_out.push(Reason::no_version(reading, text))?;
            return Ok(());
        };
        self.has_version = true;
        let given = reading.given(text);
        if !all_accept(reading.include_prerelease, &self.ranges, &version) {
            self.left_out.push(Reason::not_accepted(reading, text))?;
            return Ok(());
        }
        let text = given;
        self.entries.push(Entry { version, text })?;
        Ok(())
    }
}

// Whether each of the ranges accepts a version.
fn all_accept(
    include_prerelease: bool,
    ranges: &[Option<RangeRef<'_>>],
    version: &VersionRef<'_>,
) -> bool
    ensures { result ≡ list_all (says include_prerelease version.now) ranges.now }
{
    ranges.iter().all(
        |range| -> bool
            ensures { result ≡ says include_prerelease version.entry.now range.now }
        {
            match range {
                Some(range) => range.satisfies_with_prerelease(version, include_prerelease),
                None => false,
            }
        },
    )
}
