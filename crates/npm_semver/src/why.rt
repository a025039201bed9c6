// Why texts are left out, for a person to read.

ghost use Rattle.std.specs.Prelude.{◌≡◌, [], IfOk, false, string_bytes, unwrap_or};
ghost use Rattle.npm_semver.specs.Readings.{part_by};
ghost use Rattle.npm_semver.specs.Reasons.{lacking_in};
ghost use Rattle.npm_semver.specs.Internal.Texts.{is_no_version};
ghost use Rattle.npm_semver.specs.declared.why.Kind.TheVariants.{NotAccepted};

use crate::caret::Marked;
use crate::listing::Texts;
use crate::question::Question;
use crate::reading::ReadOptions;
use std::alloc::{AllocError, Global};
use std::marker::Model;

/// What a text is that is left out.
#[derive(Clone, Copy)]
pub enum Kind {
    /// A range text that is no range.
    NoRange,
    /// A version that some range does not accept.
    NotAccepted,
    /// A text that is no version.
    NoVersion,
    /// A text that has no such field, and so is no version.
    NoField,
}

/// A text that is left out, and why.
#[derive(Drop)]
pub struct Reason<'a> {
    pub text: &'a str,
    pub kind: Kind,
}

impl<'a> Model for Reason<'a> {
    ghost use Rattle.npm_semver.specs.Reasons.{Told};

    ghost Value = { Told };

    ghost view = { λ reason. record { text = reason.text.now; kind = reason.kind } };
}

impl<'a> Reason<'a> {
    /// A text is no version.
    pub fn no_version(reading: ReadOptions, text: &'a str) -> Reason<'a>
        ensures { result ≡ lacking_in reading text.now }
    {
        match reading.part(text) {
            Some(text) => Reason {
                text,
                kind: Kind::NoVersion,
            },
            None => Reason {
                text,
                kind: Kind::NoField,
            },
        }
    }

    /// The version that stands in a text is not accepted.
    pub fn not_accepted(reading: ReadOptions, text: &'a str) -> Reason<'a>
        ensures { result ≡ record {
          text = unwrap_or (part_by reading.field text.now) text.now;
          kind = NotAccepted;
        } }
    {
        Reason {
            text: reading.part(text).unwrap_or(text),
            kind: Kind::NotAccepted,
        }
    }

    /// Whether the text is no version.
    pub fn is_no_version(&self) -> bool
        ensures { result ≡ is_no_version self.now }
    {
        matches!(self.kind, Kind::NoVersion | Kind::NoField)
    }

    /// The text, with carets under the place where something is wrong.
    pub fn marked(&self, reading: ReadOptions) -> Marked<'a>
        ensures { result.text.now ≡ self.now.text }
    {
        let text = self.text;
        match self.kind {
            Kind::NoRange if reading.is_loose => Marked::whole("no range", text),
            Kind::NoRange => Marked::no_range(text, reading.include_prerelease),
            Kind::NotAccepted => Marked::whole("not accepted by each range", text),
            Kind::NoVersion if reading.is_coerced => Marked::whole("no version is found", text),
            Kind::NoVersion => Marked::no_version(text),
            Kind::NoField => Marked::whole("no such field", text),
        }
    }
}

/// Returns, if it is asked for, for each range text that is no range, and for each text that is no
/// version or is not accepted, a line that says so, the text, and carets under the place. In texts
/// every character that is not printable ASCII is escaped.
pub fn told(alloc: Global, question: &Question<'_>, read: &Texts<'_>) -> Result<String, AllocError>
    ensures { question.now.is_why ≡ false → IfOk result (λ told. string_bytes told ≡ []) }
{
    let mut output = String::new(alloc);
    if !question.is_why {
        return Ok(output);
    }
    for reason in read.no_ranges.as_slice() {
        write_told(question.reading, reason, &mut output)?;
    }
    for reason in read.left_out.as_slice() {
        write_told(question.reading, reason, &mut output)?;
    }
    Ok(output)
}

fn write_told(
    reading: ReadOptions,
    reason: &Reason<'_>,
    output: &mut String,
) -> Result<(), AllocError> {
    writeln!(output, "semver: {}", reason.marked(reading))
}
