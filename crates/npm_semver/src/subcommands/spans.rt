// The subcommands on spans of keys: lines of them, and a condition of SQL.

ghost use Rattle.std.specs.Prelude.{◌≡◌, ◌++◌, ◌∷◌, [], ℕ, IfOk, List, None, OnOk, Some};
ghost use Rattle.std.specs.Prelude.{codes, false, map, if◌then◌else◌, string_bytes, true};
ghost use Rattle.std.specs.List.{flat_map};
ghost use Rattle.hex.specs.Hex.{encode_lower};
ghost use Rattle.semver_core.specs.Failures.{NoValue, RefusedOnlyIf};
ghost use Rattle.semver_core.specs.Lists.{is_empty};
ghost use Rattle.npm_semver.specs.Responses.{line};
ghost use Rattle.npm_semver.specs.Spans as Spec;
ghost use Rattle.npm_semver.specs.Spans.{AreSpansOf, HasDialect, condition, dialect_of};
ghost use Rattle.npm_semver.specs.Spans.{is_released, lies_in, literal, may_follow, span_text};
ghost use Rattle.npm_semver.specs.Subcommands.{Answers, IsRange, say};
ghost use Rattle.npm_semver.specs.Subcommands as Says;
ghost use Rattle.npm_semver.specs.Internal.Said.{said};
ghost use Rattle.npm_semver.specs.declared.subcommands.replies.Status.TheVariants.{Yes, No};

use crate::subcommands::keys::write_hex;
use crate::subcommands::ranges::read_range;
use crate::subcommands::replies::{Reply, Trouble, answer};
use key_spans::{KeySpan, key_spans};
use nodejs_semver::{Failure, RangeRef};
use std::alloc::{AllocError, Global};

/// Whose SQL a condition is.
#[derive(Clone, Copy)]
pub enum Dialect {
    /// SQLite.
    Sqlite,
    /// PostgreSQL.
    Postgres,
    /// DuckDB.
    Duckdb,
    /// MySQL.
    Mysql,
}

/// `spans R` prints the spans of the keys of what a range accepts, each on a line: its start, its
/// stop, and whether only releases count. If the range accepts no version, nothing is printed, and
/// the answer is no. Returns `Refused` exactly if there is not one word, or it is no range.
pub fn spans<'a>(alloc: Global, words: &'a [String]) -> Result<Reply<'a>, Failure<Trouble<'a>>>
    ensures ok { IfOk result (λ reply.
        Answers (codes "spans" ∷ map string_bytes words.now) (said reply)) }
    ensures refused { RefusedOnlyIf result
        (NoValue (Answers (codes "spans" ∷ map string_bytes words.now))) }
{
    let [text] = words else {
        return Err(Failure::Refused(Trouble::Usage("spans RANGE")));
    };
    match read_spans(alloc, text) {
        Ok(spans) => listed(alloc, &spans),
        Err(failure) => Err(failure),
    }
}

// The spans of the range that a text is.
fn read_spans<'a>(alloc: Global, text: &'a str) -> Result<Vec<KeySpan>, Failure<Trouble<'a>>>
    ensures ok { IfOk result (λ spans. AreSpansOf text.now spans.items) }
    ensures refused { RefusedOnlyIf result (NoValue (IsRange text.now)) }
{
    match read_range(alloc, text) {
        Ok(range) => spans_in(alloc, &range),
        Err(failure) => Err(failure),
    }
}

// The spans of a range, of any text.
#[tactic(auto, using(crate::proofs::Spans::are_spans))]
fn spans_in<'a>(alloc: Global, range: &RangeRef<'_>) -> Result<Vec<KeySpan>, Failure<Trouble<'a>>>
    ensures ok { IfOk result (λ spans. (text : List ℕ) → IsRange text range.now
        → AreSpansOf text spans.items) }
    ensures refused { RefusedOnlyIf result ⊥ }
{
    Ok(key_spans(alloc, range, false)?)
}

// A line for each span; no if there is none.
fn listed<'a>(alloc: Global, spans: &[KeySpan]) -> Result<Reply<'a>, Failure<Trouble<'a>>>
    ensures refused { RefusedOnlyIf result ⊥ }
    ensures ok { IfOk result (λ r. said r ≡ say (flat_map (λ s. line (span_text s)) spans.now) None
        (if is_empty spans.now then No else Yes)) }
{
    let mut output = String::new(alloc);
    for span in spans {
        write_line(alloc, span, &mut output)?;
    }
    Ok(answer(!spans.is_empty(), output))
}

// The line of a span.
fn write_line(alloc: Global, span: &KeySpan, output: &mut String) -> Result<(), AllocError>
    ensures { OnOk result (string_bytes output.new
        ≡ string_bytes output.old ++ line (span_text span.now)) }
{
    write_hex(alloc, &span.start, output)?;
    output.push('\t')?;
    write_hex(alloc, &span.stop, output)?;
    output.push_str(counted(span.releases_only))
}

// The end of the line of a span: which versions count, behind a tab.
fn counted(releases_only: bool) -> &'static str
    ensures { result.now
        ≡ 9 ∷ line (if releases_only then codes "releases" else codes "all") }
{
    if releases_only {
        "\treleases\n"
    } else {
        "\tall\n"
    }
}

const SQL: &str = "sql RANGE COLUMN [--dialect sqlite|postgres|duckdb|mysql]";

/// `sql R COLUMN [--dialect D]` prints a condition for a WHERE: the key in the column is that of a
/// version that the range accepts. Returns `Refused` exactly if the words are none of these, the
/// range is malformed, the column is no name, or there is no such dialect.
pub fn sql<'a>(alloc: Global, words: &'a [String]) -> Result<Reply<'a>, Failure<Trouble<'a>>>
    ensures ok { IfOk result (λ reply.
        Answers (codes "sql" ∷ map string_bytes words.now) (said reply)) }
    ensures refused { RefusedOnlyIf result
        (NoValue (Answers (codes "sql" ∷ map string_bytes words.now))) }
{
    let [text, column, options @ ..] = words else {
        return Err(Failure::Refused(Trouble::Usage(SQL)));
    };
    let dialect = dialect_in(options)?;
    if !is_column(column.as_bytes()) {
        return Err(Failure::Refused(Trouble::NoColumn(column)));
    }
    match read_spans(alloc, text) {
        Ok(spans) => printed(alloc, dialect, column, &spans),
        Err(failure) => Err(failure),
    }
}

// The dialect that is given.
#[tactic(auto, using(crate::proofs::Spans::no_behind))]
fn dialect_in<'a>(options: &'a [String]) -> Result<Dialect, Failure<Trouble<'a>>>
    ensures ok { IfOk result (λ dialect. HasDialect (map string_bytes options.now) dialect) }
    ensures refused { RefusedOnlyIf result (NoValue (HasDialect (map string_bytes options.now))) }
{
    match options {
        [] => Ok(Dialect::Sqlite),
        [option, word] if option.as_str() == "--dialect" => Dialect::of(word),
        _ => Err(Failure::Refused(Trouble::Usage(SQL))),
    }
}

// Whether a text is names with dots between.
fn is_column(text: &[u8]) -> bool
    ensures { result ≡ Spec.is_column text.now }
{
    let mut before = b'.';
    for &byte in text {
        if !may_follow(before, byte) {
            return false;
        }
        before = byte;
    }
    before != b'.'
}

// Whether a byte may follow another one in a column; the first byte follows a dot.
fn may_follow(before: u8, byte: u8) -> bool
    ensures { result ≡ may_follow before byte }
{
    match byte {
        b'_' => true,
        b'.' => before != b'.',
        _ => byte.is_ascii_alphabetic() || before != b'.' && byte.is_ascii_digit(),
    }
}

// A condition on a line.
fn printed<'a>(
    alloc: Global,
    dialect: Dialect,
    column: &str,
    spans: &[KeySpan],
) -> Result<Reply<'a>, Failure<Trouble<'a>>>
    ensures refused { RefusedOnlyIf result ⊥ }
    ensures ok { IfOk result (λ r.
        said r ≡ Says.reply true (Some (condition dialect column.now spans.now))) }
{
    let mut output = String::new(alloc);
    dialect.write_condition(alloc, column, spans, &mut output)?;
    output.push('\n')?;
    Ok(answer(true, output))
}

impl Dialect {
    // The dialect that a word names.
    fn of<'a>(word: &'a str) -> Result<Dialect, Failure<Trouble<'a>>>
        ensures ok { IfOk result (λ dialect. dialect_of word.now ≡ Some dialect) }
        ensures refused { RefusedOnlyIf result
            (NoValue (λ dialect. dialect_of word.now ≡ Some dialect)) }
    {
        match word {
            "sqlite" => Ok(Dialect::Sqlite),
            "postgres" => Ok(Dialect::Postgres),
            "duckdb" => Ok(Dialect::Duckdb),
            "mysql" => Ok(Dialect::Mysql),
            _ => Err(Failure::Refused(Trouble::NoDialect(word))),
        }
    }

    // That a column lies in one of the spans.
    fn write_condition(
        self,
        alloc: Global,
        column: &str,
        spans: &[KeySpan],
        output: &mut String,
    ) -> Result<(), AllocError>
        ensures { OnOk result (string_bytes output.new
            ≡ string_bytes output.old ++ condition self column.now spans.now) }
    {
        let Some((first, others)) = spans.split_first() else {
            return output.push_str("1 = 0");
        };
        output.push('(')?;
        self.write_span(alloc, column, first, output)?;
        self.write_others(alloc, column, others, output)?;
        output.push(')')
    }

    // The same of further spans, each behind an OR.
    fn write_others(
        self,
        alloc: Global,
        column: &str,
        spans: &[KeySpan],
        output: &mut String,
    ) -> Result<(), AllocError>
        ensures { OnOk result (string_bytes output.new ≡ string_bytes output.old
            ++ flat_map (λ s. codes " OR " ++ lies_in self column.now s) spans.now) }
    {
        for span in spans {
            output.push_str(" OR ")?;
            self.write_span(alloc, column, span, output)?;
        }
        Ok(())
    }

    // That a column lies in a span.
    fn write_span(
        self,
        alloc: Global,
        column: &str,
        span: &KeySpan,
        output: &mut String,
    ) -> Result<(), AllocError>
        ensures { OnOk result (string_bytes output.new
            ≡ string_bytes output.old ++ lies_in self column.now span.now) }
    {
        self.write_bound(alloc, column, " >= ", &span.start, output)?;
        output.push_str(" AND ")?;
        self.write_bound(alloc, column, " < ", &span.stop, output)?;
        if span.releases_only {
            output.push_str(" AND ")?;
            self.write_released(column, output)?;
        }
        Ok(())
    }

    // That a column compares so with bytes.
    fn write_bound(
        self,
        alloc: Global,
        column: &str,
        sign: &str,
        bytes: &[u8],
        output: &mut String,
    ) -> Result<(), AllocError>
        ensures { OnOk result (string_bytes output.new
            ≡ string_bytes output.old ++ column.now ++ sign.now ++ literal self bytes.now) }
    {
        output.push_str(column)?;
        output.push_str(sign)?;
        self.write_literal(alloc, bytes, output)
    }

    // Bytes as a literal.
    fn write_literal(
        self,
        alloc: Global,
        bytes: &[u8],
        output: &mut String,
    ) -> Result<(), AllocError>
        ensures { OnOk result (string_bytes output.new
            ≡ string_bytes output.old ++ literal self bytes.now) }
    {
        match self {
            Dialect::Duckdb => return write_escaped(alloc, bytes, output),
            Dialect::Postgres => output.push_str("'\\x")?,
            Dialect::Sqlite | Dialect::Mysql => output.push_str("x'")?,
        }
        write_hex(alloc, bytes, output)?;
        output.push('\'')
    }

    // That the last byte of a column is 3, as in the key of a release.
    fn write_released(self, column: &str, output: &mut String) -> Result<(), AllocError>
        ensures { OnOk result (string_bytes output.new
            ≡ string_bytes output.old ++ is_released self column.now) }
    {
        match self {
            Dialect::Postgres => {
                output.push_str("substr(")?;
                write_between(column, ", length(", column, output)?;
                output.push_str(")) = '\\x03'")
            }
            Dialect::Duckdb => write_between("hex(", column, ") LIKE '%03'", output),
            Dialect::Sqlite | Dialect::Mysql => {
                write_between("substr(", column, ", -1) = x'03'", output)
            }
        }
    }
}

// A text between two others.
fn write_between(
    before: &str,
    text: &str,
    behind: &str,
    output: &mut String,
) -> Result<(), AllocError>
    ensures { OnOk result (string_bytes output.new
        ≡ string_bytes output.old ++ (before.now ++ (text.now ++ behind.now))) }
{
    output.push_str(before)?;
    output.push_str(text)?;
    output.push_str(behind)
}

// Bytes as a literal in which each is escaped.
fn write_escaped(alloc: Global, bytes: &[u8], output: &mut String) -> Result<(), AllocError>
    ensures { OnOk result (string_bytes output.new ≡ string_bytes output.old ++ codes "'"
        ++ flat_map (λ b. codes "\\x" ++ encode_lower (b ∷ [])) bytes.now ++ codes "'::BLOB") }
{
    output.push('\'')?;
    for &byte in bytes {
        output.push_str("\\x")?;
        write_hex(alloc, &[byte], output)?;
    }
    output.push_str("'::BLOB")
}
