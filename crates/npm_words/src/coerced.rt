// The version that a text has anywhere in it, as node-semver's `coerce` finds it.

ghost use Rattle.npm_words.specs.Coerced.{IsCoerced, IsCoercedBy, IsLeftmost, begins_identifier_in};
ghost use Rattle.npm_words.specs.{Coerced.goes_on_in, Grammar.IsStrictNumber};
ghost use Rattle.npm_words.specs.Internal.Tuples.{BeginsAfter, IsChosenPlace};
ghost use Rattle.npm_words.specs.{Internal.Tuples.{IsLastPlace, IsStretch}, Words.IfNone};
ghost use Rattle.npm_words.specs.Words.{IfSome, MAX_SAFE_INTEGER, NoValue};
ghost use Rattle.npm_words.specs.Words.{front_view, is_ascii_digit, is_listed, length, pair_view};
ghost use Rattle.npm_words.specs.Words.{true};
ghost use Rattle.std.specs.Prelude.{drop, false, ◌+◌, ◌≡◌, ◌≤◌};
ghost use Rattle.npm_words.specs.Internal.Tuples as Spec;

use crate::options::Coercion;
use semver_core::scan::{begins_identifier, is_identifier_char};
use semver_core::{MAX_LENGTH, VersionRef};
use semver_pieces::{begins_padded, digits_len, number_front};

// How long the run of 1 to 16 digits at the front is, and 0 where none stands there.
fn run_len(text: &[u8]) -> usize
    ensures value { result ≡ Spec.run_len text.now }
    ensures fits { result ≤ length text.now }
{
    let digits = digits_len(text);
    if digits <= 16 { digits } else { 0 }
}

// How long a dot and the run of 1 to 16 digits after it are, and 0 where these do not stand there.
fn dotted_len(text: &[u8]) -> usize
    ensures value { result ≡ Spec.dotted_len text.now }
    ensures fits { result ≤ length text.now }
{
    match text {
        [b'.', rest @ ..] => match run_len(rest) {
            0 => 0,
            len => 1 + len,
        },
        _ => 0,
    }
}

// How long the longest tuple at the front is, and 0 where none stands there.
#[tactic(auto, unfolding(crate::specs::Internal::Tuples::tuple_len))]
fn tuple_len(text: &[u8]) -> usize
    ensures value { result ≡ Spec.tuple_len text.now }
    ensures fits { result ≤ length text.now }
{
    let major = run_len(text);
    if major == 0 {
        return 0;
    }
    let minor = dotted_len(&text[major..]);
    if minor == 0 {
        return major;
    }
    let patch = dotted_len(&text[major + minor..]);
    major + minor + patch
}

// How long the longest tuple at a place is, which begins with no digit of a run before it.
#[tactic(auto, using(crate::proofs::VersionTexts::Coerced::last_places))]
fn tuple_len_at(text: &[u8], at: usize) -> usize
    requires { at ≤ length text.now }
    ensures value { result ≡ Spec.tuple_len_at text.now at }
    ensures fits { at + result ≤ length text.now }
{
    if at > 0 && text[at - 1].is_ascii_digit() {
        0
    } else {
        tuple_len(&text[at..])
    }
}

// Whether a text begins with an identifier, strictly with one that has no leading zero if it is
// digits alone.
#[tactic(auto, using(crate::proofs::VersionTexts::Lists::identifier_begins))]
fn begins_identifier_in(strict: bool, text: &[u8]) -> bool
    ensures { result ≡ begins_identifier_in strict text.now }
{
    if strict && begins_padded(text) {
        begins_identifier(&text[digits_len(text)..])
    } else {
        begins_identifier(text)
    }
}

// Whether a list of identifiers, strict ones or any, that ends before this text goes on with it.
fn goes_on_in(strict: bool, text: &[u8]) -> bool
    ensures { result ≡ goes_on_in strict text.now }
{
    match text {
        [byte, rest @ ..] => is_identifier_char(*byte)
            || (*byte == b'.' && begins_identifier_in(strict, rest)),
        [] => false,
    }
}

// How far the longest list of identifiers, strict ones or any, goes from the front.
#[tactic(auto, using(crate::proofs::VersionTexts::Lists::list_lens))]
fn list_len(strict: bool, text: &[u8]) -> usize
    ensures value { result ≡ Spec.list_len_in strict text.now }
    ensures fits { result ≤ length text.now }
{
    'characters: for at in 0..text.len() {
        if !goes_on_in(strict, &text[at..]) {
            return at;
        }
    }
    text.len()
}

/// A stretch of a text, from each place of which a list goes up to its end.
#[derive(Clone, Copy)]
struct Stretch {
    from: usize,
    to: usize,
}

impl Stretch {
    const EMPTY: Stretch = Stretch { from: 0, to: 0 };

    // Where the list at a place ends. A place of the stretch is not searched again: if the places
    // that are asked for ascend, no character is passed twice.
    #[tactic(auto, using(crate::proofs::VersionTexts::Lists::stretches))]
    fn list_end(&mut self, strict: bool, text: &[u8], at: usize) -> usize
        requires inside { at ≤ length text.now }
        requires known { IsStretch strict text.now self.old }
        ensures end { result ≡ at + Spec.list_len_in strict (drop at text.now) }
        ensures fits { result ≤ length text.now }
        ensures known { IsStretch strict text.now self.new }
    {
        if at < self.from || self.to <= at {
            *self = Stretch {
                from: at,
                to: at + list_len(strict, &text[at..]),
            };
        }
        self.to
    }
}

// Where the list that follows a mark at a place ends: at that place, where none is included or
// there.
fn marked_end(
    included: bool,
    strict: bool,
    mark: u8,
    text: &[u8],
    at: usize,
    known: &mut Stretch,
) -> usize
    requires inside { at ≤ length text.now }
    requires known { IsStretch strict text.now known.old }
    ensures end { result ≡ at + Spec.marked_len included strict mark (drop at text.now) }
    ensures fits { result ≤ length text.now }
    ensures known { IsStretch strict text.now known.new }
{
    match &text[at..] {
        [first, rest @ ..] if included && *first == mark && begins_identifier_in(strict, rest) => {
            known.list_end(strict, text, at + 1)
        }
        _ => at,
    }
}

// Where the tuple at a place ends with what it goes on with, and 0 where none begins there.
fn end_at(
    included: bool,
    text: &[u8],
    at: usize,
    pre_releases: &mut Stretch,
    builds: &mut Stretch,
) -> usize
    requires inside { at ≤ length text.now }
    requires pre_releases { IsStretch true text.now pre_releases.old }
    requires builds { IsStretch false text.now builds.old }
    ensures end { result ≡ Spec.end_at included text.now at }
    ensures pre_releases { IsStretch true text.now pre_releases.new }
    ensures builds { IsStretch false text.now builds.new }
{
    let len = tuple_len_at(text, at);
    if len == 0 {
        return 0;
    }
    let end = marked_end(included, true, b'-', text, at + len, pre_releases);
    marked_end(included, false, b'+', text, end, builds)
}

// The place where the tuple begins that ends last with what it goes on with.
fn last_place(included: bool, text: &[u8]) -> Option<usize>
    ensures some { IfSome result (IsLastPlace included text.now) }
    ensures none { IfNone result (BeginsAfter text.now (length text.now)) }
{
    let mut start = 0;
    let mut end = 0;
    let mut pre_releases = Stretch::EMPTY;
    let mut builds = Stretch::EMPTY;
    'places: for at in 0..text.len() {
        let there = end_at(included, text, at, &mut pre_releases, &mut builds);
        if there > end {
            start = at;
            end = there;
        }
    }
    if end == 0 {
        return None;
    }
    Some(start)
}

// The number that follows a dot, and 0 where no dot stands.
fn next_number(zeros: bool, text: &[u8]) -> Option<(u64, &[u8])>
    ensures { front_view result ≡ Spec.next_number zeros MAX_SAFE_INTEGER text.now }
{
    match text {
        [b'.', rest @ ..] => number_front(zeros, rest),
        _ => Some((0, text)),
    }
}

// The version of a tuple, without its lists.
#[tactic(auto, unfolding(crate::specs::Internal::Tuples::tuple_release))]
fn release(zeros: bool, tuple: &[u8]) -> Option<VersionRef<'_>>
    ensures { result ≡ Spec.tuple_release zeros MAX_SAFE_INTEGER tuple.now }
{
    let (major, rest) = number_front(zeros, tuple)?;
    let (minor, rest) = next_number(zeros, rest)?;
    let (patch, _) = next_number(zeros, rest)?;
    Some(semver_pieces::release(major, minor, patch))
}

// How long `.0` for each number is that a tuple does not have.
fn absent_len(tuple: &[u8]) -> usize
    ensures { result ≡ Spec.absent_len tuple.now }
{
    match tuple.iter().filter(|byte| **byte == b'.').count() {
        0 => 4,
        1 => 2,
        _ => 0,
    }
}

// The list that follows a mark at the front, and what follows it.
fn marked_list(included: bool, strict: bool, mark: u8, text: &[u8]) -> (&[u8], &[u8])
    ensures listed { is_listed result.0.now ≡ true }
    ensures value { pair_view result ≡ Spec.marked_front included strict mark text.now }
{
    let len = marked_end(included, strict, mark, text, 0, &mut Stretch::EMPTY);
    let (marked, rest) = text.split_at(len);
    match marked {
        [_, list @ ..] => (list, rest),
        [] => (marked, rest),
    }
}

// The version of the tuple at the front and of what it goes on with.
#[tactic(auto, unfolding(crate::specs::Internal::Tuples::version_front))]
fn version_front(included: bool, zeros: bool, text: &[u8]) -> Option<VersionRef<'_>>
    ensures { result ≡ Spec.version_front included zeros MAX_SAFE_INTEGER text.now }
{
    let (tuple, behind) = text.split_at(tuple_len(text));
    let (pre_release, rest) = marked_list(included, true, b'-', behind);
    let (build, behind) = marked_list(included, false, b'+', rest);
    if text.len() - behind.len() + absent_len(tuple) > MAX_LENGTH {
        return None;
    }
    let release = release(zeros, tuple)?;
    Some(VersionRef::from_texts(
        release.major(),
        release.minor(),
        release.patch(),
        pre_release,
        build,
    ))
}

// The place where the tuple begins that is looked for.
fn chosen_place(options: Coercion, text: &[u8]) -> Option<usize>
    ensures some { IfSome result
        (IsChosenPlace options.include_prerelease options.rtl text.now) }
    ensures none { IfNone result (BeginsAfter text.now (length text.now)) }
{
    if options.rtl {
        return last_place(options.include_prerelease, text);
    }
    'places: for at in 0..text.len() {
        if tuple_len_at(text, at) > 0 {
            return Some(at);
        }
    }
    None
}

/// Returns the version that a text has anywhere in it, as node-semver's `coerce` does: the leftmost
/// number, and up to two more after it that dots join. Missing numbers are 0, and what else stands
/// in the text is ignored: `coerce("v1.2-rc.3")` is 1.2.0. [`coerce_with`] looks for another.
///
/// A number here has at most 16 digits: longer runs are ignored. Returns `None` if the text has no
/// such number, or if one of those found is above `MAX_SAFE_INTEGER` or has a leading zero. The
/// text may have any length, and is read once; nothing is allocated.
///
/// ```rust
/// assert!(rt; npm_reading::coerce("node-20.11 (LTS)") == VersionRef::parse("20.11.0").ok());
/// assert!(rt; npm_reading::coerce("01.2").is_none());
/// ```
pub fn coerce(text: &str) -> Option<VersionRef<'_>>
    // What is found is the release of the leftmost tuple of numbers.
    ensures some { IfSome result
        (IsCoerced false IsLeftmost (IsStrictNumber MAX_SAFE_INTEGER) text.now) }
    // Nothing is found only if the text has no such release.
    ensures none { IfNone result
        (NoValue (IsCoerced false IsLeftmost (IsStrictNumber MAX_SAFE_INTEGER) text.now)) }
{
    coerce_with(text, Coercion::default())
}

/// Returns the version that a text has anywhere in it, as node-semver's `coerce` does by its
/// options. Without any it is [`coerce`].
///
/// - `loose`: numbers may have leading zeros. Those of a pre-release may have none.
/// - `rtl`: from the right. Of the numbers that dots join, with what is included after them, those
///   that end last, and the longest of these: in `1.2.3.4` that is 2.3.4.
/// - `include_prerelease`: with the pre-release and the build metadata that follow the numbers:
///   `v1.2-rc.3+b` is 1.2.0-rc.3+b. A pre-release is `-` and identifiers joined by dots, and ends
///   before one that is a number with a leading zero; a build is `+` and identifiers. Each is as
///   long as it can be. Returns `None` also if the version's text, with `.0` for each missing
///   number, has more than `MAX_LENGTH` characters.
///
/// ```rust
/// let last = Coercion {
///     rtl: true,
///     ..Coercion::default()
/// };
/// let found = npm_reading::coerce_with("app-2 1.4.0", last);
/// assert!(rt; found == VersionRef::parse("1.4.0").ok());
/// let whole = Coercion {
///     include_prerelease: true,
///     ..Coercion::default()
/// };
/// let found = npm_reading::coerce_with("v1.2-rc.3 (beta)", whole);
/// assert!(rt; found == VersionRef::parse("1.2.0-rc.3").ok());
/// ```
#[tactic(auto, using(crate::proofs::VersionTexts::Coerced::absents))]
pub fn coerce_with(text: &str, options: Coercion) -> Option<VersionRef<'_>>
    // What is found is the version that the options ask for.
    ensures some { IfSome result (IsCoercedBy options text.now) }
    // Nothing is found only if the text has no such version.
    ensures none { IfNone result (NoValue (IsCoercedBy options text.now)) }
{
    let bytes = text.as_bytes();
    let at = chosen_place(options, bytes)?;
    version_front(options.include_prerelease, options.loose, &bytes[at..])
}
