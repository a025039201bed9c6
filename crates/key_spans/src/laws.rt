//! Theorems about lists of spans, as functions with empty bodies.

ghost use Rattle.std.specs.Prelude.{◌≡◌, ◌≤◌, All, Bool, filter, length, List, map, true};
ghost use Rattle.std.specs.Prelude.{◌<◌, ◌*◌, ◌^◌, ℕ};
ghost use Rattle.nodejs_semver.specs.Ranges.Gate.{accepts};
ghost use Rattle.key_spans.specs.Ranges.{IsSimple};
ghost use Rattle.key_spans.specs.Spans.{bytes, HasEnds, in_span, in_spans, is_sorted};
ghost use Rattle.key_spans.specs.declared.KeySpan.{KeySpan};
ghost use Rattle.semver_core.specs.Cuts.{Span};
ghost use Rattle.semver_core.specs.Keys.{key};
ghost use Rattle.semver_core.specs.Printing.RoundTrip.{is_readable};
ghost use Rattle.semver_core.specs.Printing.Text.{version_text};
ghost use Rattle.semver_core.specs.Text.Parsing.{Parses};
ghost use Rattle.semver_core.specs.Values.Versions.{IsVersion, VersionValue};

/// There is one list for one set of versions: two lists such as `key_spans` returns, both with
/// pre-releases included or both without, are equal if they hold the keys of the same versions.
pub fn one_list_for_one_set()
    ensures { (include : Bool) (xs ys : List KeySpan)
        → is_sorted xs ≡ true → All (HasEnds include) xs
        → is_sorted ys ≡ true → All (HasEnds include) ys
        → ((v : VersionValue) → IsVersion v → in_spans xs (key v) ≡ in_spans ys (key v))
        → map bytes xs ≡ map bytes ys }
{}

/// There is one range for one set of versions: two ranges such as `ranges::simplified` returns,
/// both with pre-releases included or both without, are the same in all bounds if they accept the
/// same versions. So they print as the same text.
pub fn one_range_for_one_set()
    ensures { (include : Bool) (r s : List (Span VersionValue)) → IsSimple include r
        → IsSimple include s
        → ((v : VersionValue) → IsVersion v → accepts r v include ≡ accepts s v include)
        → r ≡ s }
{}

/// The key of a version lies in one span at most of a list such as `key_spans` returns. So no
/// version is counted twice where the answers for all spans are put together.
pub fn one_span_for_one_version()
    ensures { (include : Bool) (spans : List KeySpan)
        → is_sorted spans ≡ true → All (HasEnds include) spans
        → (v : VersionValue) → IsVersion v
        → length (filter (λ s. in_span s (key v)) spans) ≤ 1 }
{}

/// Keys are short: that of a version that `Version::parse` reads from a text, which has at most 256
/// bytes, has at most 512 bytes, and that of a version that prints as a text which reads as it has
/// at most twice as many bytes as this text.
pub fn keys_of_texts_are_short()
    ensures read { (limit : ℕ) (text : List ℕ) (v : VersionValue) → limit < 2 ^ 64
        → Parses limit text v → length (key v) ≤ 512 }
    ensures printed { (limit : ℕ) (v : VersionValue) → limit < 2 ^ 64
        → is_readable limit v ≡ true → length (key v) ≤ 2 * length (version_text v) }
{}
