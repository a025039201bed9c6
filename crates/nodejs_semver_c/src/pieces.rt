// Versions and ranges, put to the front of a buffer piece by piece.

ghost use Rattle.nodejs_semver.specs.Printing.Text.{bounds_text, lower_text};
ghost use Rattle.nodejs_semver.specs.Printing.Text.{range_text, upper_text};
ghost use Rattle.nodejs_semver_c.specs.Internal.Pieces.{Adds};
ghost use Rattle.nodejs_semver_c.specs.Kept.{list_text};
ghost use Rattle.semver_core.specs.Printing.Text.{id_text, marked_list, version_text};
ghost use Rattle.semver_core.specs.Values.Order.{version_eq};
ghost use Rattle.semver_core.specs.Values.Views.{lent_id_view};
ghost use Rattle.std.specs.Fmt.{decimal};
ghost use Rattle.std.specs.Prelude.{◌≡◌, ◌++◌};

use itoa::Buffer;
use nodejs_semver::cuts::{Bound, Interval};
use nodejs_semver::{IdentifierRef, IdentifierRefs, VersionRef, Versioned};

/// Puts a text behind the `len` bytes that were put before, if the buffer has room for all of them.
/// If it has not, the length alone grows.
#[inline(always)]
pub fn put(text: &str, out: &mut [u8], len: &mut usize)
    ensures { Adds text.now out.old out.new len.old len.new }
{
    put_bytes(text.as_bytes(), out, len);
}

/// Puts some bytes so.
#[inline(always)]
pub fn put_bytes(bytes: &[u8], out: &mut [u8], len: &mut usize)
    ensures { Adds bytes.now out.old out.new len.old len.new }
{
    let start = *len;
    let end = start.saturating_add(bytes.len());
    if end <= out.len() {
        out[start..end].copy_from_slice(bytes);
    }
    *len = end;
}

#[inline(always)]
fn put_number(number: u64, out: &mut [u8], len: &mut usize)
    ensures { Adds (decimal number) out.old out.new len.old len.new }
{
    if number < 10 {
        put_bytes(&[b'0' + number as u8], out, len);
    } else {
        put(Buffer::new().format(number), out, len);
    }
}

#[inline(always)]
fn put_identifier(id: &IdentifierRef<'_>, out: &mut [u8], len: &mut usize)
    ensures { Adds (id_text (lent_id_view id.now)) out.old out.new len.old len.new }
{
    match id {
        IdentifierRef::Numeric(number) => put_number(*number, out, len),
        IdentifierRef::AlphaNumeric(text) => put(text, out, len),
    }
}

// A mark and the identifiers joined by dots, or nothing where there are none.
#[inline(always)]
fn put_list(mark: &str, ids: IdentifierRefs<'_>, out: &mut [u8], len: &mut usize)
    ensures { Adds (marked_list mark.now ids.entry) out.old out.new len.old len.new }
{
    if !ids.is_empty() {
        put_marked(mark, ids, out, len);
    }
}

// The same out of line: mostly there are none.
#[inline(never)]
fn put_marked(mark: &str, ids: IdentifierRefs<'_>, out: &mut [u8], len: &mut usize)
    ensures { Adds (marked_list mark.now ids.entry) out.old out.new len.old len.new }
{
    let mut sign = mark;
    let mut others = ids;
    'ids: while let Some(id) = others.next() {
        put(sign, out, len);
        put_identifier(&id, out, len);
        sign = ".";
    }
}

/// Puts the identifiers of a list, joined by dots.
#[inline(always)]
pub fn put_ids(ids: IdentifierRefs<'_>, out: &mut [u8], len: &mut usize)
    ensures { Adds (list_text ids.entry) out.old out.new len.old len.new }
{
    if !ids.is_empty() {
        put_some(ids, out, len);
    }
}

// The same out of line. Mostly there is one.
#[inline(never)]
fn put_some(ids: IdentifierRefs<'_>, out: &mut [u8], len: &mut usize)
    ensures { Adds (list_text ids.entry) out.old out.new len.old len.new }
{
    let mut others = ids;
    if let Some(first) = others.next() {
        put_identifier(&first, out, len);
        put_list(".", others, out, len);
    }
}

/// Puts a version, as it prints.
pub fn put_version<V: Versioned>(version: &V, out: &mut [u8], len: &mut usize)
    ensures { Adds (version_text (V.value version.now)) out.old out.new len.old len.new }
{
    put_number(version.major(), out, len);
    put(".", out, len);
    put_number(version.minor(), out, len);
    put(".", out, len);
    put_number(version.patch(), out, len);
    put_list("-", version.pre_release(), out, len);
    put_list("+", version.build(), out, len);
}

// A sign and a version.
fn put_signed(sign: &str, version: &VersionRef<'_>, out: &mut [u8], len: &mut usize)
    ensures { Adds (sign.now ++ version_text version.now) out.old out.new len.old len.new }
{
    put(sign, out, len);
    put_version(version, out, len);
}

// A lower bound: `>=v` or `>v`, and nothing where there is none.
fn put_lower(bound: &Bound<VersionRef<'_>>, out: &mut [u8], len: &mut usize)
    ensures { Adds (lower_text bound.now) out.old out.new len.old len.new }
{
    match bound {
        Bound::Unbounded => {}
        Bound::Before(version) => put_signed(">=", version, out, len),
        Bound::After(version) => put_signed(">", version, out, len),
    }
}

// An upper bound: `<v` or `<=v`, and nothing where there is none.
fn put_upper(bound: &Bound<VersionRef<'_>>, out: &mut [u8], len: &mut usize)
    ensures { Adds (upper_text bound.now) out.old out.new len.old len.new }
{
    match bound {
        Bound::Unbounded => {}
        Bound::Before(version) => put_signed("<", version, out, len),
        Bound::After(version) => put_signed("<=", version, out, len),
    }
}

fn are_equal(v: &VersionRef<'_>, w: &VersionRef<'_>) -> bool
    ensures { result ≡ version_eq v.now w.now }
{
    v == w
}

// An interval: its bounds, or one version where they are `>=v` and `<=w` and v equals w.
fn put_interval(interval: &Interval<VersionRef<'_>>, out: &mut [u8], len: &mut usize)
    ensures { Adds (bounds_text interval.now.lower interval.now.upper)
        out.old out.new len.old len.new }
{
    let (lower, upper) = (interval.lower(), interval.upper());
    match (lower, upper) {
        (Bound::Unbounded, Bound::Unbounded) => put("*", out, len),
        (Bound::Unbounded, _) => put_upper(upper, out, len),
        (_, Bound::Unbounded) => put_lower(lower, out, len),
        (Bound::Before(v), Bound::After(w)) if are_equal(v, w) => put_version(v, out, len),
        (_, _) => {
            put_lower(lower, out, len);
            put(" ", out, len);
            put_upper(upper, out, len);
        }
    }
}

/// Puts the intervals of a range, joined by `||`.
pub fn put_range(intervals: &[Interval<VersionRef<'_>>], out: &mut [u8], len: &mut usize)
    ensures { Adds (range_text intervals.now) out.old out.new len.old len.new }
{
    let mut separator = "";
    for interval in intervals {
        put(separator, out, len);
        put_interval(interval, out, len);
        separator = "||";
    }
}
