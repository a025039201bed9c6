// The subcommands on keys: bytes that compare as versions do, in hexadecimal.

ghost use Rattle.std.specs.Prelude.{◌≡◌, ◌++◌, ◌∷◌, ℕ, List, IfNone, IfOk, IfSome, None};
ghost use Rattle.std.specs.Prelude.{[], Ok, OnOk, Some, codes, false, map, string_bytes, true};
ghost use Rattle.std.specs.Str.Lines.{lines};
ghost use Rattle.hex.specs.Hex.{decode_of, encode_lower};
ghost use Rattle.semver_core.specs.Failures.{NoValue, RefusedOnlyIf};
ghost use Rattle.semver_core.specs.Keys.{key};
ghost use Rattle.semver_core.specs.Printing.Text.{version_text};
ghost use Rattle.semver_core.specs.Values.Versions.{IsVersion, VersionValue};
ghost use Rattle.semver_core.specs.declared.TheConstants.{MAX_SAFE_INTEGER};
ghost use Rattle.npm_words.specs.VersionText.{IsVersionText};
ghost use Rattle.npm_semver.specs.Responses.{line};
ghost use Rattle.npm_semver.specs.Subcommands.{Answers, AreLines, HasKey, HasKeyAndText};
ghost use Rattle.npm_semver.specs.Subcommands.{HasVersion, say};
ghost use Rattle.npm_semver.specs.Internal.Asked.{texts};
ghost use Rattle.npm_semver.specs.Internal.Said.{has_row, said};
ghost use Rattle.npm_semver.specs.declared.subcommands.replies.Status.TheVariants.{Yes};

use crate::caret::Marked;
use crate::question::lines_of;
use crate::subcommands::replies::{Reply, Trouble, answer};
use hex::FromHexError;
use nodejs_semver::{Failure, Version, Versioned};
use npm_reading::Reading;
use npm_words::laws::npm_reads_once;
use std::alloc::{AllocError, Global};

/// What a line shows of a text.
#[derive(Clone, Copy)]
pub enum Row {
    /// The key of the version that it is.
    Key,
    /// The key, a tab, and the text.
    KeyAndText,
    /// The version whose key it is.
    Version,
}

/// `key V..` prints the key of each version in hexadecimal, on a line. Returns `Refused` exactly if
/// there are no words, or one that is no version.
pub fn key<'a>(alloc: Global, words: &'a [String]) -> Result<Reply<'a>, Failure<Trouble<'a>>>
    ensures ok { IfOk result (λ reply.
        Answers (codes "key" ∷ map string_bytes words.now) (said reply)) }
    ensures refused { RefusedOnlyIf result
        (NoValue (Answers (codes "key" ∷ map string_bytes words.now))) }
{
    if words.is_empty() {
        return Err(Failure::Refused(Trouble::Usage("key VERSION.. | key -")));
    }
    reply_to_words(alloc, Row::Key, words)
}

/// `unkey HEX..` prints the version of each key, on a line. Returns `Refused` exactly if there are
/// no words, or one that is not the key of a version that npm reads.
pub fn unkey<'a>(alloc: Global, words: &'a [String]) -> Result<Reply<'a>, Failure<Trouble<'a>>>
    ensures ok { IfOk result (λ reply.
        Answers (codes "unkey" ∷ map string_bytes words.now) (said reply)) }
    ensures refused { RefusedOnlyIf result
        (NoValue (Answers (codes "unkey" ∷ map string_bytes words.now))) }
{
    if words.is_empty() {
        return Err(Failure::Refused(Trouble::Usage("unkey KEY..")));
    }
    reply_to_words(alloc, Row::Version, words)
}

/// `key -` prints, for each line of the input, the key of the version that it is, a tab and the
/// line. Returns `Refused` exactly if some line is no version.
pub fn key_lines<'a>(alloc: Global, input: &'a str) -> Result<Reply<'a>, Failure<Trouble<'a>>>
    ensures ok { IfOk result (λ reply. (output : List ℕ)
        × AreLines HasKeyAndText (lines input.now) output
        × (said reply ≡ say output None Yes)) }
    ensures refused { RefusedOnlyIf result
        (NoValue (AreLines HasKeyAndText (lines input.now))) }
{
    let lines = lines_of(alloc, input)?;
    reply_to_lines(alloc, Row::KeyAndText, &lines)
}

// A line for each word.
fn reply_to_words<'a>(
    alloc: Global,
    row: Row,
    words: &'a [String],
) -> Result<Reply<'a>, Failure<Trouble<'a>>>
    ensures ok { IfOk result (λ reply. (output : List ℕ)
        × AreLines (has_row row) (map string_bytes words.now) output
        × (said reply ≡ say output None Yes)) }
    ensures refused { RefusedOnlyIf result
        (NoValue (AreLines (has_row row) (map string_bytes words.now))) }
{
    let texts = texts_of(alloc, words)?;
    reply_to_lines(alloc, row, &texts)
}

fn texts_of(alloc: Global, words: &[String]) -> Result<Vec<&str>, AllocError>
    ensures { IfOk result (λ found. texts found.items ≡ map string_bytes words.now) }
{
    let mut texts = Vec::new(alloc);
    for word in words {
        texts.push(word.as_str())?;
    }
    Ok(texts)
}

// A line for each text.
fn reply_to_lines<'a>(
    alloc: Global,
    row: Row,
    lines: &[&'a str],
) -> Result<Reply<'a>, Failure<Trouble<'a>>>
    ensures ok { IfOk result (λ reply. (output : List ℕ)
        × AreLines (has_row row) (texts lines.now) output
        × (said reply ≡ say output None Yes)) }
    ensures refused { RefusedOnlyIf result (NoValue (AreLines (has_row row) (texts lines.now))) }
{
    let mut output = String::new(alloc);
    for &text in lines {
        match push_shown(alloc, row, text, &mut output) {
            Ok(true) => output.push('\n')?,
            Ok(false) => return Err(Failure::Refused(trouble(row, text))),
            Err(error) => return Err(Failure::Memory(error)),
        }
    }
    Ok(answer(true, output))
}

// What is wrong with a text that has no line.
fn trouble<'a>(row: Row, text: &'a str) -> Trouble<'a> {
    match row {
        Row::Key | Row::KeyAndText => Trouble::NoVersion(Marked::no_version(text)),
        Row::Version => Trouble::NoKey(text),
    }
}

// Appends what the line of a text shows. Returns whether the text has one.
fn push_shown(alloc: Global, row: Row, text: &str, output: &mut String) -> Result<bool, AllocError>
    ensures some { IfOk result (λ has. has ≡ true → (shown : List ℕ) × has_row row text.now shown
        × (string_bytes output.new ≡ string_bytes output.old ++ shown)) }
    ensures none { IfOk result (λ has. has ≡ false → NoValue (has_row row text.now)) }
{
    match row {
        Row::Key => push_key(alloc, text, output),
        Row::KeyAndText => push_key_and_text(alloc, text, output),
        Row::Version => push_version_of(alloc, text, output),
    }
}

// Appends the key of the version that a text is, in hexadecimal.
fn push_key(alloc: Global, text: &str, output: &mut String) -> Result<bool, AllocError>
    ensures some { IfOk result (λ has. has ≡ true → (shown : List ℕ) × HasKey text.now shown
        × (string_bytes output.new ≡ string_bytes output.old ++ shown)) }
    ensures none { IfOk result (λ has. has ≡ false → NoValue (HasKey text.now)) }
{
    let strict = Reading {
        loose: false,
        include_prerelease: false,
    };
    let Ok(version) = npm_reading::version(text, strict) else {
        return Ok(false);
    };
    let key = version.key(alloc)?;
    write_hex(alloc, &key, output)?;
    Ok(true)
}

/// Appends bytes in hexadecimal.
pub fn write_hex(alloc: Global, bytes: &[u8], output: &mut String) -> Result<(), AllocError>
    ensures { OnOk result (string_bytes output.new
        ≡ string_bytes output.old ++ encode_lower bytes.now) }
{
    let digits = hex::encode(alloc, bytes)?;
    output.push_str(&digits)
}

// The same with the text behind it, after a tab.
fn push_key_and_text(alloc: Global, text: &str, output: &mut String) -> Result<bool, AllocError>
    ensures some { IfOk result (λ has. has ≡ true
        → (shown : List ℕ) × HasKeyAndText text.now shown
        × (string_bytes output.new ≡ string_bytes output.old ++ shown)) }
    ensures none { IfOk result (λ has. has ≡ false → NoValue (HasKeyAndText text.now)) }
{
    if !push_key(alloc, text, output)? {
        return Ok(false);
    }
    output.push('\t')?;
    output.push_str(text)?;
    Ok(true)
}

// Appends the text of the version whose key a text is, if npm reads it.
fn push_version_of(alloc: Global, text: &str, output: &mut String) -> Result<bool, AllocError>
    ensures some { IfOk result (λ has. has ≡ true → (shown : List ℕ) × HasVersion text.now shown
        × (string_bytes output.new ≡ string_bytes output.old ++ shown)) }
    ensures none { IfOk result (λ has. has ≡ false → NoValue (HasVersion text.now)) }
{
    match read_key(alloc, text)? {
        Some(version) => push_read(alloc, &version, output),
        None => Ok(false),
    }
}

// Appends the text of a version, if npm reads it.
fn push_read(alloc: Global, version: &Version, output: &mut String) -> Result<bool, AllocError>
    requires { version.now.build ≡ [] }
    ensures some { IfOk result (λ has. has ≡ true
        → IsVersionText MAX_SAFE_INTEGER (version_text version.now) version.now
        × (string_bytes output.new ≡ string_bytes output.old ++ version_text version.now)) }
    ensures none { IfOk result (λ has. has ≡ false
        → ¬ (IsVersionText MAX_SAFE_INTEGER (version_text version.now) version.now)) }
{
    let printed = version.to_string(alloc)?;
    if !is_read(&printed, version) {
        return Ok(false);
    }
    output.push_str(&printed)?;
    Ok(true)
}

// The version whose key a text is in hexadecimal.
fn read_key(alloc: Global, text: &str) -> Result<Option<Version>, AllocError>
    ensures some { IfOk result (λ found. IfSome found (λ v. decode_of text.now ≡ Ok (key v))) }
    ensures no_build { IfOk result (λ found. IfSome found (λ v. v.build ≡ [])) }
    ensures none { IfOk result (λ found. IfNone found
        ((v : VersionValue) → IsVersion v → ¬ (decode_of text.now ≡ Ok (key v)))) }
{
    match hex::decode(alloc, text.as_bytes()) {
        Ok(bytes) => Version::from_key(alloc, &bytes),
        Err(FromHexError::OutOfMemory) => Err(AllocError),
        Err(_) => Ok(None),
    }
}

// Whether npm reads a text as a version without build metadata.
fn is_read(text: &str, version: &Version) -> bool
    requires { version.now.build ≡ [] }
    ensures some { result ≡ true → IsVersionText MAX_SAFE_INTEGER text.now version.now }
    ensures none { result ≡ false → ¬ (IsVersionText MAX_SAFE_INTEGER text.now version.now) }
{
    npm_reads_once();
    let strict = Reading {
        loose: false,
        include_prerelease: false,
    };
    match npm_reading::version(text, strict) {
        Ok(read) => read.build().is_empty() && read.cmp_precedence(version).is_eq(),
        Err(_) => false,
    }
}
