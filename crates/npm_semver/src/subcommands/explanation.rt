// The subcommand that draws a range for a person.

ghost use Rattle.std.specs.Prelude.{◌≡◌, ◌<◌, ◌∷◌, [], IfOk, codes, false, map, string_bytes};
ghost use Rattle.std.specs.Str.{IsAscii};
ghost use Rattle.semver_core.specs.Failures.{NoValue, RefusedOnlyIf};
ghost use Rattle.npm_semver.specs.Subcommands.{Answers, IsInAscii};
ghost use Rattle.npm_semver.specs.Internal.Drawings.{IsDrawing};
ghost use Rattle.npm_semver.specs.Internal.Said.{said};

use crate::subcommands::ranges::read_range;
use crate::subcommands::replies::{Reply, Trouble, answer};
use nodejs_semver::cuts::{Bound, Interval};
use nodejs_semver::{Failure, IdentifierRef, RangeRef, VersionRef};
use std::alloc::{AllocError, Global};

// Below the drawing, of a range that accepts no pre-release.
const RELEASES_ALONE: &str = "
● is in the range, ○ is not. A line stands for the releases between its ends.
No pre-release is accepted.
";

// Below the drawing, of a range that accepts pre-releases.
const WITH_PRE_RELEASES: &str = "
● is in the range, ○ is not. A line stands for the releases between its ends
and for the pre-releases noted at one of them. No other pre-release is accepted.
";

/// `explain R` draws a range: a line for each interval, and each version that bounds one, in
/// ascending order, with what the intervals are there. Where the locale has no UTF-8, the drawing
/// is ASCII. Returns `Refused` exactly if the words are not one range.
pub fn explain<'a>(
    alloc: Global,
    words: &'a [String],
    is_utf8: bool,
) -> Result<Reply<'a>, Failure<Trouble<'a>>>
    ensures ok { IfOk result (λ reply.
        Answers (codes "explain" ∷ map string_bytes words.now) (said reply)) }
    ensures ascii { is_utf8 ≡ false → IfOk result (λ reply.
        IsInAscii (codes "explain" ∷ map string_bytes words.now) (said reply)) }
    ensures refused { RefusedOnlyIf result
        (NoValue (Answers (codes "explain" ∷ map string_bytes words.now))) }
{
    match words {
        [text] => drawn(alloc, text, is_utf8),
        _ => Err(Failure::Refused(Trouble::Usage("explain RANGE"))),
    }
}

#[tactic(auto, using(crate::proofs::Answered::no_drawing))]
fn drawn<'a>(alloc: Global, text: &'a str, is_utf8: bool) -> Result<Reply<'a>, Failure<Trouble<'a>>>
    ensures ok { IfOk result (λ reply. Answers (codes "explain" ∷ text.now ∷ []) (said reply)) }
    ensures ascii { is_utf8 ≡ false
        → IfOk result (λ reply. IsInAscii (codes "explain" ∷ text.now ∷ []) (said reply)) }
    ensures refused { RefusedOnlyIf result
        (NoValue (Answers (codes "explain" ∷ text.now ∷ []))) }
{
    let range = read_range(alloc, text)?;
    Ok(answer(true, drawing(alloc, &range, is_utf8)?))
}

// The normal form of a range on a line, and below it the drawing.
fn drawing(alloc: Global, range: &RangeRef<'_>, is_utf8: bool) -> Result<String, AllocError>
    ensures { IfOk result (λ text. IsDrawing is_utf8 range.now (string_bytes text)) }
{
    let drawing = marked(alloc, range.intervals(), is_utf8)?;
    let mut output = String::new(alloc);
    writeln!(output, "{range}")?;
    output.push_str(&drawing)?;
    Ok(output)
}

// The drawing, by marks that the locale has.
fn marked(
    alloc: Global,
    intervals: &[Interval<VersionRef<'_>>],
    is_utf8: bool,
) -> Result<String, AllocError>
    ensures { is_utf8 ≡ false → IfOk result (λ text. IsAscii (string_bytes text)) }
{
    let mut drawing = String::new(alloc);
    write_drawing(alloc, intervals, &mut drawing)?;
    if is_utf8 {
        Ok(drawing)
    } else {
        in_ascii(alloc, &drawing)
    }
}

// A drawing by marks of ASCII.
fn in_ascii(alloc: Global, drawing: &str) -> Result<String, AllocError>
    ensures { IfOk result (λ text. IsAscii (string_bytes text)) }
{
    let mut text = String::new(alloc);
    for letter in drawing.chars() {
        text.push(ascii(letter))?;
    }
    Ok(text)
}

fn ascii(letter: char) -> char
    ensures { result < 128 }
{
    match letter {
        '●' => '*',
        '○' => 'o',
        '┃' => '|',
        '▼' => 'v',
        _ if letter.is_ascii() => letter,
        _ => '?',
    }
}

fn write_drawing(
    alloc: Global,
    intervals: &[Interval<VersionRef<'_>>],
    output: &mut String,
) -> Result<(), AllocError> {
    let mut versions = bounds(alloc, intervals)?;
    versions.sort()?;
    versions.dedup();
    write_rows(alloc, intervals, &versions, output)?;
    write_ends(alloc, intervals, output)?;
    output.push_str(legend(intervals, &versions))
}

fn write_rows(
    alloc: Global,
    intervals: &[Interval<VersionRef<'_>>],
    versions: &[VersionRef<'_>],
    output: &mut String,
) -> Result<(), AllocError> {
    for version in versions {
        write_lines(alloc, intervals, version, output)?;
        write_marks(intervals, version, output)?;
        write_version(intervals, version, output)?;
    }
    Ok(())
}

// Which intervals go on below the last version that bounds one.
fn write_ends(
    alloc: Global,
    intervals: &[Interval<VersionRef<'_>>],
    output: &mut String,
) -> Result<(), AllocError> {
    let row = ends(alloc, intervals)?;
    write!(output, "{}", row.trim_end())
}

fn ends(alloc: Global, intervals: &[Interval<VersionRef<'_>>]) -> Result<String, AllocError> {
    let mut row = String::new(alloc);
    for interval in intervals {
        row.push_str(end(interval))?;
    }
    Ok(row)
}

fn end(interval: &Interval<VersionRef<'_>>) -> &'static str {
    if is_open(interval.upper()) {
        "  ▼"
    } else {
        "   "
    }
}

fn legend(intervals: &[Interval<VersionRef<'_>>], versions: &[VersionRef<'_>]) -> &'static str {
    if versions.iter().any(|version| is_noted(intervals, version)) {
        WITH_PRE_RELEASES
    } else {
        RELEASES_ALONE
    }
}

// The versions that bound the intervals.
fn bounds<'a>(
    alloc: Global,
    intervals: &[Interval<VersionRef<'a>>],
) -> Result<Vec<VersionRef<'a>>, AllocError> {
    let mut versions = Vec::new(alloc);
    for interval in intervals {
        push_bound(interval.lower(), &mut versions)?;
        push_bound(interval.upper(), &mut versions)?;
    }
    Ok(versions)
}

fn push_bound<'a>(
    bound: &Bound<VersionRef<'a>>,
    versions: &mut Vec<VersionRef<'a>>,
) -> Result<(), AllocError> {
    if let Bound::Before(version) | Bound::After(version) = bound {
        versions.push(version.copy())?;
    }
    Ok(())
}

// The line of each interval below a version.
fn write_lines(
    alloc: Global,
    intervals: &[Interval<VersionRef<'_>>],
    version: &VersionRef<'_>,
    output: &mut String,
) -> Result<(), AllocError> {
    let row = lines(alloc, intervals, version)?;
    writeln!(output, "{}", row.trim_end())
}

fn lines(
    alloc: Global,
    intervals: &[Interval<VersionRef<'_>>],
    version: &VersionRef<'_>,
) -> Result<String, AllocError> {
    let mut row = String::new(alloc);
    for interval in intervals {
        row.push_str(line(interval, version))?;
    }
    Ok(row)
}

fn line(interval: &Interval<VersionRef<'_>>, version: &VersionRef<'_>) -> &'static str {
    if leads_to(interval, version) {
        "  ┃"
    } else {
        "   "
    }
}

// What each interval is at a version.
fn write_marks(
    intervals: &[Interval<VersionRef<'_>>],
    version: &VersionRef<'_>,
    output: &mut String,
) -> Result<(), AllocError> {
    for interval in intervals {
        output.push_str(mark(interval, version))?;
    }
    Ok(())
}

// A version behind the intervals, and which pre-releases are accepted there.
fn write_version(
    intervals: &[Interval<VersionRef<'_>>],
    version: &VersionRef<'_>,
    output: &mut String,
) -> Result<(), AllocError> {
    if !is_noted(intervals, version) {
        return writeln!(output, "  {version}");
    }
    let (major, minor, patch) = (version.major(), version.minor(), version.patch());
    writeln!(
        output,
        "  {version}  and pre-releases of {major}.{minor}.{patch}"
    )
}

// What an interval is at a version that bounds some interval.
fn mark(interval: &Interval<VersionRef<'_>>, version: &VersionRef<'_>) -> &'static str {
    let is_end = is_at(interval.lower(), version) || is_at(interval.upper(), version);
    match (is_end, interval.contains(version)) {
        (true, true) => "  ●",
        (true, false) => "  ○",
        (false, true) => "  ┃",
        (false, false) => "   ",
    }
}

// Whether the interval holds what lies just below a version that bounds some interval.
fn leads_to(interval: &Interval<VersionRef<'_>>, version: &VersionRef<'_>) -> bool {
    let begins_below = match interval.lower() {
        Bound::Unbounded => true,
        Bound::Before(lower) | Bound::After(lower) => lower < version,
    };
    let ends_below = match interval.upper() {
        Bound::Unbounded => false,
        Bound::Before(upper) | Bound::After(upper) => upper < version,
    };
    begins_below && !ends_below
}

fn is_at(bound: &Bound<VersionRef<'_>>, version: &VersionRef<'_>) -> bool {
    match bound {
        Bound::Unbounded => false,
        Bound::Before(end) | Bound::After(end) => end == version,
    }
}

fn is_open(bound: &Bound<VersionRef<'_>>) -> bool {
    matches!(bound, Bound::Unbounded)
}

// Whether an interval that a version bounds accepts pre-releases of its three numbers. Below the
// first of them there is none.
fn is_noted(intervals: &[Interval<VersionRef<'_>>], version: &VersionRef<'_>) -> bool {
    let is_end = |interval: &Interval<VersionRef<'_>>| {
        is_at(interval.lower(), version)
            || is_at(interval.upper(), version)
                && (interval.contains(version) || !is_first_pre(version))
    };
    version.is_prerelease() && intervals.iter().any(is_end)
}

// Whether the pre-release of a version is 0, the first that there is.
fn is_first_pre(version: &VersionRef<'_>) -> bool {
    let mut ids = version.pre_release();
    matches!(ids.next(), Some(IdentifierRef::Numeric(0))) && ids.is_empty()
}
