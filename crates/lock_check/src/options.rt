// What the arguments ask for.

use lock_files::Shown;
use std::fmt;

/// How findings are written.
#[derive(Clone, Copy, PartialEq, Eq)]
pub enum Format {
    /// A line of text for each.
    Text,
    /// An object of JSON for each, on a line.
    Json,
    /// A command for each that GitHub shows at the line of the lock file.
    Annotations,
}

/// What is read, and how the findings are written.
#[derive(Clone, Copy)]
pub struct Options<'a> {
    pub format: Format,
    /// Whether skipped dependencies and the counts are left out.
    pub is_quiet: bool,
    /// The index to which the dependencies are compared, if they are.
    pub index: Option<&'a str>,
    pub path: &'a str,
}

/// What the arguments ask for.
#[derive(Clone, Copy)]
pub enum Request<'a> {
    Help,
    Version,
    Check(Options<'a>),
}

/// Why the arguments ask for nothing.
#[derive(Clone, Copy)]
pub enum Misuse<'a> {
    /// The word begins with `-`, and is none of the options.
    UnknownOption(&'a str),
    /// Two formats are asked for.
    TwoFormats,
    /// No index follows `--outdated`.
    NoIndex,
    /// The word is a second index.
    TwoIndexes(&'a str),
    /// What may be raised is asked for as commands.
    Unannotated,
    /// The word is a second path.
    TwoPaths(&'a str),
}

// What the words so far ask for.
#[derive(Drop)]
struct Asked<'a> {
    format: Option<Format>,
    is_quiet: bool,
    // Whether the next word is the index.
    wants_index: bool,
    index: Option<&'a str>,
    path: Option<&'a str>,
}

impl<'a> Asked<'a> {
    fn set_format(&mut self, format: Format) -> Result<(), Misuse<'a>> {
        let before = self.format;
        match before {
            Some(earlier) if earlier != format => Err(Misuse::TwoFormats),
            _ => {
                self.format = Some(format);
                Ok(())
            }
        }
    }

    fn set_index(&mut self, word: &'a str) -> Result<(), Misuse<'a>> {
        if word.starts_with('-') {
            return Err(Misuse::NoIndex);
        }
        if self.index.is_some() {
            return Err(Misuse::TwoIndexes(word));
        }
        self.wants_index = false;
        self.index = Some(word);
        Ok(())
    }

    fn set_path(&mut self, word: &'a str) -> Result<(), Misuse<'a>> {
        if self.path.is_some() {
            return Err(Misuse::TwoPaths(word));
        }
        self.path = Some(word);
        Ok(())
    }
}

impl<'a> Request<'a> {
    /// What the arguments ask for. Words about the program itself come before all others.
    pub fn of(words: &'a [String]) -> Result<Request<'a>, Misuse<'a>> {
        let mut asked = Asked {
            format: None,
            is_quiet: false,
            wants_index: false,
            index: None,
            path: None,
        };
        for word in words {
            match word.as_str() {
                word if asked.wants_index => asked.set_index(word)?,
                "-h" | "--help" => return Ok(Request::Help),
                "--version" => return Ok(Request::Version),
                "--json" => asked.set_format(Format::Json)?,
                "--annotate" => asked.set_format(Format::Annotations)?,
                "-q" | "--quiet" => asked.is_quiet = true,
                "--outdated" => asked.wants_index = true,
                word if is_option(word) => return Err(Misuse::UnknownOption(word)),
                word => asked.set_path(word)?,
            }
        }
        if asked.wants_index {
            return Err(Misuse::NoIndex);
        }
        if asked.index.is_some() && asked.format == Some(Format::Annotations) {
            return Err(Misuse::Unannotated);
        }
        Ok(Request::Check(Options {
            format: asked.format.unwrap_or(Format::Text),
            is_quiet: asked.is_quiet,
            index: asked.index,
            path: asked.path.unwrap_or("-"),
        }))
    }
}

// Whether a word is an option. A `-` alone is none.
fn is_option(word: &str) -> bool {
    word.starts_with('-') && word.len() > 1
}

impl fmt::Display for Misuse<'_> {
    fn fmt<W: fmt::Write>(&self, f: &mut fmt::Formatter<W>) -> fmt::Result {
        match self {
            Misuse::UnknownOption(word) => write!(f, "{} is no option", Shown(word)),
            Misuse::TwoFormats => write!(f, "--json and --annotate are two formats"),
            Misuse::NoIndex => write!(f, "--outdated wants the path of an index"),
            Misuse::TwoIndexes(word) => write!(f, "{} is a second index", Shown(word)),
            Misuse::Unannotated => write!(f, "--outdated has no --annotate"),
            Misuse::TwoPaths(word) => write!(f, "{} is a second path", Shown(word)),
        }
    }
}
