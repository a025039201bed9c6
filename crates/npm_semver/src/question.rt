// What a command line asks.

ghost use Rattle.std.specs.Prelude.{◌≡◌, [], IfOk, OnOk, map, option_map, string_bytes};
ghost use Rattle.npm_semver.specs.Arguments as Spec;
ghost use Rattle.npm_semver.specs.Arguments.{IsAsked, asked_by, base_of, field_of, has_level};
ghost use Rattle.npm_semver.specs.Arguments.{left_by, level_of, nothing_asked, word_of};
ghost use Rattle.std.specs.Prelude.{◌==◌, ◌^◌, ◌∷◌, ◌++◌, Some, nat_lt, true, unwrap_or};
ghost use Rattle.std.specs.Prelude.{if◌then◌else◌};
ghost use Rattle.std.specs.Char.{is_ascii_digit};
ghost use Rattle.std.specs.List.{list_all, slice_split};
ghost use Rattle.std.specs.Str.Lines.{lines};
ghost use Rattle.std.specs.Str.Parse.{digits_value};
ghost use Rattle.semver_core.specs.Text.Characters.{begins};
ghost use Rattle.npm_semver.specs.Responses.{end_of, prints_as_given, reads_input, records};
ghost use Rattle.npm_semver.specs.Responses.{with_records, without_empty_end};
ghost use Rattle.npm_semver.specs.declared.question.Word.TheVariants as Word;
ghost use Rattle.npm_semver.specs.Internal.Asked.{asked_of, request_of, texts};
ghost use Rattle.npm_semver.specs.Internal.Records.{has_empty_end};

use crate::arguments::Words;
use crate::reading::ReadOptions;
use nodejs_semver::IdentifierBase;
use std::alloc::{AllocError, Global};

/// An option, or a text that is none: a version.
#[derive(Clone, Copy)]
pub enum Word {
    Help,
    IncludePrerelease,
    Reverse,
    Range,
    Version,
    Increment,
    Identifier,
    Base,
    Loose,
    Coerce,
    FromRight,
    FromLeft,
    Greatest,
    Least,
    KeepOrder,
    AsWritten,
    Field,
    Json,
    Strict,
    Why,
    Input,
    Nul,
    /// A word that begins with `-` and is no option.
    Unknown,
    Text,
}

impl Word {
    /// The option that a word is.
    pub fn of(word: &str) -> Word
        ensures { result ≡ word_of word.now }
    {
        match word {
            "-h" | "--help" | "-?" => Word::Help,
            "-p" | "--include-prerelease" => Word::IncludePrerelease,
            "-rv" | "-rev" | "--rev" | "--reverse" => Word::Reverse,
            "-r" | "--range" => Word::Range,
            "-v" | "--version" => Word::Version,
            "-i" | "--inc" | "--increment" => Word::Increment,
            "--preid" => Word::Identifier,
            "-n" => Word::Base,
            "-l" | "--loose" => Word::Loose,
            "-c" | "--coerce" => Word::Coerce,
            "--rtl" => Word::FromRight,
            "--ltr" => Word::FromLeft,
            "--max" => Word::Greatest,
            "--min" => Word::Least,
            "--keep-order" => Word::KeepOrder,
            "--as-written" => Word::AsWritten,
            "--field" => Word::Field,
            "--json" => Word::Json,
            "--strict" => Word::Strict,
            "--why" => Word::Why,
            "-" => Word::Input,
            "-z" => Word::Nul,
            _ if begins_with_dash(word) => Word::Unknown,
            _ => Word::Text,
        }
    }
}

fn begins_with_dash(word: &str) -> bool
    ensures { result ≡ begins (λ b. b == 45) word.now }
{
    matches!(word.as_bytes(), [b'-', ..])
}

/// Which versions are printed.
#[derive(Clone, Copy)]
pub enum Pick {
    All,
    Greatest,
    Least,
}

/// What a command line asks for.
#[derive(Drop)]
pub enum Request<'a> {
    /// The text of `--help`.
    Help,
    /// Versions.
    Versions(Question<'a>),
}

/// The versions and options of a command line.
#[derive(Drop)]
pub struct Question<'a> {
    /// The texts that may be versions.
    pub versions: Vec<&'a str>,
    /// The range texts. A `-r` behind which nothing stands has the text `undefined`, as in
    /// JavaScript, and so accepts nothing.
    pub ranges: Vec<&'a str>,
    /// The level by which the next version is asked for.
    pub level: Option<&'a str>,
    /// The identifier of its pre-release.
    pub identifier: Option<&'a str>,
    /// The number behind that.
    pub base: IdentifierBase,
    /// Whether the greatest version is printed first.
    pub is_reversed: bool,
    /// How texts are read.
    pub reading: ReadOptions,
    /// Which of the versions are printed.
    pub pick: Pick,
    /// Whether they are printed in the order in which they were given.
    pub keeps_order: bool,
    /// Whether they are printed as they were given.
    pub as_written: bool,
    /// Whether they are printed as JSON.
    pub is_json: bool,
    /// Whether a text or an option that is not read is an error.
    pub is_strict: bool,
    /// Whether it is told why texts are left out.
    pub is_why: bool,
    /// The first word that looks like an option and is none.
    pub unknown: Option<&'a str>,
    /// Whether the records of the input may be versions too.
    pub reads_input: bool,
    /// Whether a NUL byte ends each record, in place of a line feed.
    pub ends_in_nul: bool,
}

impl<'a> Question<'a> {
    fn new(alloc: Global) -> Question<'a>
        ensures { asked_of result ≡ nothing_asked }
    {
        Question {
            versions: Vec::new(alloc),
            ranges: Vec::new(alloc),
            level: None,
            identifier: None,
            base: IdentifierBase::Value(0),
            is_reversed: false,
            reading: ReadOptions::strict(),
            pick: Pick::All,
            keeps_order: false,
            as_written: false,
            is_json: false,
            is_strict: false,
            is_why: false,
            unknown: None,
            reads_input: false,
            ends_in_nul: false,
        }
    }

    // Adds what a word asks, and takes the value of an option.
    fn add(&mut self, word: Word, text: &'a str, words: &mut Words<'a>) -> Result<(), AllocError>
        ensures ok { OnOk result
            (asked_of self.new ≡ asked_by word text.now words.old (asked_of self.old)) }
        ensures left { OnOk result (words.new ≡ left_by word words.old) }
    {
        match word {
            Word::Help => {}
            Word::IncludePrerelease => self.reading.include_prerelease = true,
            Word::Reverse => self.is_reversed = true,
            Word::Range => self.ranges.push(words.take_value().unwrap_or("undefined"))?,
            Word::Version => {
                if let Some(version) = words.take_value() {
                    self.versions.push(version)?;
                }
            }
            Word::Increment => self.level = Some(take_level(words)),
            Word::Identifier => self.identifier = words.take_value(),
            Word::Base => self.base = base(words.take_value()),
            Word::Loose => self.reading.is_loose = true,
            Word::Coerce => self.reading.is_coerced = true,
            Word::FromRight => self.reading.from_right = true,
            Word::FromLeft => self.reading.from_right = false,
            Word::Greatest => self.pick = Pick::Greatest,
            Word::Least => self.pick = Pick::Least,
            Word::KeepOrder => self.keeps_order = true,
            Word::AsWritten => self.as_written = true,
            Word::Field => self.read_field(words.take_value()),
            Word::Json => self.is_json = true,
            Word::Strict => self.is_strict = true,
            Word::Why => self.is_why = true,
            Word::Input => self.reads_input = true,
            Word::Nul => self.ends_in_nul = true,
            Word::Unknown => self.add_unknown(text)?,
            Word::Text => self.versions.push(text)?,
        }
        Ok(())
    }

    // Reads the field of this number, of texts that are printed as they were given.
    fn read_field(&mut self, number: Option<&'a str>)
        ensures { let q = asked_of self.old in asked_of self.new ≡ record q {
          reading = record q.reading {
            field = Some (field_of (option_map (λ t. t.now) number.entry));
          };
          as_written = true;
        } }
    {
        self.reading.field = Some(field(number));
        self.as_written = true;
    }

    // Adds a word that looks like an option and is none.
    fn add_unknown(&mut self, word: &'a str) -> Result<(), AllocError>
        ensures { OnOk result (let q = asked_of self.old in asked_of self.new ≡ record q {
          versions = q.versions ++ word.now ∷ [];
          unknown = Some (unwrap_or q.unknown word.now);
        }) }
    {
        self.unknown = Some(self.unknown.unwrap_or(word));
        self.versions.push(word)?;
        Ok(())
    }

    /// Whether versions are printed in the order in which they were given, which a single one has
    /// not.
    pub fn prints_as_given(&self) -> bool
        ensures { result ≡ prints_as_given (asked_of self.now) }
    {
        self.keeps_order && matches!(self.pick, Pick::All)
    }

    /// The byte that ends each record that is printed.
    pub fn end(&self) -> u8
        ensures { result ≡ end_of self.now.ends_in_nul }
    {
        if self.ends_in_nul { b'\0' } else { b'\n' }
    }

    // Adds the records of the input to the texts that may be versions, if `-` asks for them.
    fn add_records(&mut self, alloc: Global, input: &'a str) -> Result<(), AllocError>
        ensures { OnOk result (asked_of self.new ≡ with_records input.now (asked_of self.old)) }
    {
        if self.reads_input {
            let records = records_of(alloc, self.ends_in_nul, input)?;
            self.versions.extend_from_slice(&records)?;
        }
        Ok(())
    }
}

// The records of the input: its lines, or what a NUL byte ends.
fn records_of(alloc: Global, ends_in_nul: bool, input: &str) -> Result<Vec<&str>, AllocError>
    ensures { IfOk result (λ found. texts found.items ≡ records ends_in_nul input.now) }
{
    if ends_in_nul {
        nul_records_of(alloc, input)
    } else {
        lines_of(alloc, input)
    }
}

// What a NUL byte ends. An empty text behind the last one is no record.
fn nul_records_of(alloc: Global, input: &str) -> Result<Vec<&str>, AllocError>
    ensures { IfOk result (λ found.
        texts found.items ≡ without_empty_end (slice_split (λ b. b == 0) input.now)) }
{
    let mut records = nul_parts_of(alloc, input)?;
    if !has_empty_end(&records) {
        return Ok(records);
    }
    let _ = records.pop();
    Ok(records)
}

// Whether the last part is empty.
fn has_empty_end(parts: &[&str]) -> bool
    ensures { result ≡ has_empty_end (texts parts.now) }
{
    match parts.last() {
        Some(last) => last.is_empty(),
        None => false,
    }
}

// What stands between NUL bytes.
fn nul_parts_of(alloc: Global, input: &str) -> Result<Vec<&str>, AllocError>
    ensures { IfOk result (λ found. texts found.items ≡ slice_split (λ b. b == 0) input.now) }
{
    input.split('\0').collect(alloc)
}

/// The lines of the input.
pub fn lines_of(alloc: Global, input: &str) -> Result<Vec<&str>, AllocError>
    ensures { IfOk result (λ found. texts found.items ≡ lines input.now) }
{
    input.lines().collect(alloc)
}

// Whether a word is a level, where it stands behind `-i`.
fn is_level(word: &str) -> bool
    ensures { result ≡ Spec.is_level word.now }
{
    matches!(
        word,
        "major" | "minor" | "patch" | "premajor" | "preminor" | "prepatch" | "prerelease"
    )
}

// The level behind `-i`, which is taken if it stands there.
fn take_level<'a>(words: &mut Words<'a>) -> &'a str
    ensures level { result.now ≡ level_of words.old }
    ensures left { words.new ≡ left_by Word.Increment words.old }
{
    match words.peek() {
        Some(word) if is_level(word) => {
            let _ = words.take_value();
            word
        }
        _ => "patch",
    }
}

// The first number behind an identifier, by the value of `-n`.
fn base(text: Option<&str>) -> IdentifierBase
    ensures { result ≡ base_of (option_map (λ t. t.now) text.entry) }
{
    match text {
        Some("false") => IdentifierBase::False,
        Some(text) if is_digits(text.as_bytes()) && !is_zeros(text.as_bytes()) => {
            IdentifierBase::Value(1)
        }
        _ => IdentifierBase::Value(0),
    }
}

// The number of a field by the value of `--field`, or 0 where that is none.
fn field(text: Option<&str>) -> usize
    ensures { result ≡ field_of (option_map (λ t. t.now) text.entry) }
{
    match text {
        Some(text) if is_digits(text.as_bytes()) => field_number(text),
        _ => 0,
    }
}

// The number that digits write, or 0 where it is too great.
fn field_number(digits: &str) -> usize
    requires { list_all is_ascii_digit digits.now ≡ true }
    ensures { result ≡ (if nat_lt (digits_value 10 digits.now) (2 ^ 64)
        then digits_value 10 digits.now else 0) }
{
    digits.parse::<usize>().unwrap_or(0)
}

fn is_digits(text: &[u8]) -> bool
    ensures { result ≡ list_all is_ascii_digit text.now }
{
    text.iter().all(|byte| byte.is_ascii_digit())
}

// Whether each byte is the digit 0.
fn is_zeros(text: &[u8]) -> bool
    ensures { result ≡ list_all (λ b. b == 48) text.now }
{
    text.iter().all(|byte| *byte == b'0')
}

impl<'a> Request<'a> {
    /// What the arguments behind the program's name ask for. Fails only if allocation fails.
    pub fn of(alloc: Global, arguments: &'a [String]) -> Result<Request<'a>, AllocError>
        ensures { IfOk result (λ request.
            IsAsked (map string_bytes arguments.now) (request_of request)) }
    {
        if arguments.is_empty() {
            return Ok(Request::Help);
        }
        let mut question = Question::new(alloc);
        let mut words = Words::new(arguments);
        'words: while let Some(text) = words.take_word() {
            let word = Word::of(text);
            if let Word::Help = word {
                return Ok(Request::Help);
            }
            question.add(word, text, &mut words)?;
        }
        Ok(Request::Versions(question))
    }

    /// Whether the records of the input may be versions.
    pub fn reads_input(&self) -> bool
        ensures { result ≡ reads_input (request_of self.now) }
    {
        match self {
            Request::Help => false,
            Request::Versions(question) => question.reads_input,
        }
    }

    /// What is asked if this is the input: its records may be versions if the arguments ask for it.
    /// Fails only if allocation fails.
    pub fn with_records(self, alloc: Global, input: &'a str) -> Result<Request<'a>, AllocError>
        ensures { IfOk result (λ request.
            request_of request ≡ option_map (with_records input.now) (request_of self.entry)) }
    {
        match self {
            Request::Help => Ok(Request::Help),
            Request::Versions(question) => {
                let mut question = question;
                question.add_records(alloc, input)?;
                Ok(Request::Versions(question))
            }
        }
    }
}
