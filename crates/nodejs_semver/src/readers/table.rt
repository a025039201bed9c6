// The word table: the bounds of a word, by its form and the numbers of its partial.

ghost use Rattle.nodejs_semver.specs.Text.Table as Spec;
ghost use Rattle.nodejs_semver.specs.Text.WordText as Words;
ghost use Rattle.std.specs.Prelude.{◌+◌, ◌≡◌};
ghost use Rattle.nodejs_semver.specs.Words.{bounds_view, partial_view, precedence, signed_word};
ghost use Rattle.nodejs_semver.specs.Words.{comparator_view, MAX_SAFE_INTEGER, Some};
ghost use Rattle.nodejs_semver.specs.Words.{interval, sign_view, table, table_view};

use crate::readers::syntax::{Partial, Sign};
use semver_core::{MAX_SAFE_INTEGER, VersionRef};
use semver_pieces::{Bounds, Comparator, lowest, release};

// The version of a partial, with 0 for what is absent or a wildcard.
#[inline(always)]
fn version_of<'a>(partial: &Partial<'a>) -> VersionRef<'a>
    ensures { result ≡ Spec.version_of (partial_view partial.now) }
{
    VersionRef::from_texts(
        partial.major.unwrap_or(0),
        partial.minor.unwrap_or(0),
        partial.patch.unwrap_or(0),
        partial.pre_release,
        partial.build,
    )
}

/// `1.2.3`
#[inline(always)]
#[tactic(auto, unfolding(crate::specs::Text::Table::table))]
pub(crate) fn plain<'a>(partial: &Partial<'a>) -> Option<Bounds<'a>>
    ensures { table_view result ≡ table MAX_SAFE_INTEGER (Words.plain (partial_view partial.now)) }
{
    let version = version_of(partial);
    match (partial.major, partial.minor, partial.patch) {
        (None, _, _) => Some(Bounds::at_least(release(0, 0, 0))),
        (Some(major), None, _) => Some(Bounds::whole_major(major)),
        (Some(major), Some(minor), None) => Some(Bounds::whole_minor(major, minor)),
        (Some(_), Some(_), Some(_)) => Some(Bounds::through(version.copy(), version)),
    }
}

/// `~1.2.3`, and `~>1.2.3` where it is `greater`
#[inline(always)]
#[tactic(auto, unfolding(crate::specs::Text::Table::table))]
pub(crate) fn tilde<'a>(greater: bool, partial: &Partial<'a>) -> Option<Bounds<'a>>
    ensures { table_view result
        ≡ table MAX_SAFE_INTEGER (Words.tilde greater (partial_view partial.now)) }
{
    match (partial.major, partial.minor, partial.patch) {
        (Some(major), None, _) => Some(Bounds::whole_major(major)),
        (Some(major), Some(minor), None) if !greater => Some(Bounds::whole_minor(major, minor)),
        (Some(major), Some(minor), _) => {
            let version = version_of(partial).without_build();
            Some(Bounds::between(version, lowest(major, minor + 1, 0)))
        }
        (None, _, _) => None,
    }
}

/// `^0.2.3`
#[inline(always)]
#[tactic(auto, unfolding(crate::specs::Text::Table::table))]
pub(crate) fn caret<'a>(partial: &Partial<'a>) -> Option<Bounds<'a>>
    ensures { table_view result ≡ table MAX_SAFE_INTEGER (Words.caret (partial_view partial.now)) }
{
    match (partial.major, partial.minor, partial.patch) {
        (Some(major), None, None) => match major {
            0 => Some(Bounds::below(lowest(1, 0, 0))),
            _ => Some(Bounds::whole_major(major)),
        },
        (Some(major), Some(minor), None) => match major {
            0 => Some(Bounds::whole_minor(0, minor)),
            _ => Some(Bounds::between(release(major, minor, 0), lowest(major + 1, 0, 0))),
        },
        (Some(major), Some(minor), Some(patch)) => {
            let version = version_of(partial).without_build();
            match (major, minor) {
                (0, 0) => Some(Bounds::between(version, lowest(0, 0, patch + 1))),
                (0, _) => Some(Bounds::between(version, lowest(0, minor + 1, 0))),
                _ => Some(Bounds::between(version, lowest(major + 1, 0, 0))),
            }
        }
        _ => None,
    }
}

/// `1.2.3 - 2.3.4`
#[inline(always)]
#[tactic(auto, unfolding(crate::specs::Text::Table::table))]
pub(crate) fn hyphen<'a>(lower: &Partial<'a>, upper: &Partial<'a>) -> Bounds<'a>
    ensures { interval precedence (bounds_view result)
        ≡ table MAX_SAFE_INTEGER (Words.hyphen (partial_view lower.now) (partial_view upper.now)) }
{
    let first = version_of(lower);
    match (upper.major, upper.minor, upper.patch) {
        (None, None, None) => Bounds::between(first, lowest(0, 0, 0)),
        (Some(major), None, None) => Bounds::between(first, lowest(major + 1, 0, 0)),
        (Some(major), Some(minor), None) => Bounds::between(first, lowest(major, minor + 1, 0)),
        _ => Bounds::through(first, version_of(upper)),
    }
}

/// A comparator and a partial, such as `>=1.2.3`
#[inline(always)]
#[tactic(auto, unfolding(crate::specs::Text::Table::table))]
pub(crate) fn compare<'a>(comparator: Comparator, partial: &Partial<'a>) -> Option<Bounds<'a>>
    ensures { table_view result
        ≡ table MAX_SAFE_INTEGER
        (Words.compare (comparator_view comparator) (partial_view partial.now)) }
{
    match comparator {
        Comparator::AtLeast => Some(Bounds::at_least(version_of(partial))),
        Comparator::Above => match (partial.major, partial.minor, partial.patch) {
            (Some(major), Some(minor), None) => {
                Some(Bounds::at_least(release(major, minor + 1, 0)))
            }
            (Some(major), None, None) => Some(Bounds::at_least(release(major + 1, 0, 0))),
            _ => Some(Bounds::above(version_of(partial))),
        },
        // As the partial alone, where it has a number, and without the build.
        Comparator::Equal => {
            partial.major?;
            let mut unbuilt = *partial;
            unbuilt.build = b"";
            plain(&unbuilt)
        }
        Comparator::AtMost => {
            let major = partial.major.unwrap_or(0);
            match (partial.minor, partial.patch) {
                (None, None) => {
                    Some(Bounds::at_most(release(major, MAX_SAFE_INTEGER, MAX_SAFE_INTEGER)))
                }
                (Some(minor), None) => {
                    Some(Bounds::at_most(release(major, minor, MAX_SAFE_INTEGER)))
                }
                _ => Some(Bounds::at_most(version_of(partial))),
            }
        }
        Comparator::Below => match (partial.major, partial.minor, partial.patch) {
            (Some(major), Some(minor), None) => Some(Bounds::below(lowest(major, minor, 0))),
            _ => Some(Bounds::below(version_of(partial))),
        },
    }
}

/// The bounds of a word of one partial, in order.
#[inline(always)]
pub(crate) fn signed<'a>(sign: Sign, partial: &Partial<'a>) -> Option<Bounds<'a>>
    ensures { table_view result
        ≡ table MAX_SAFE_INTEGER (signed_word (sign_view sign) (partial_view partial.now)) }
{
    match sign {
        Sign::Nothing => plain(partial),
        Sign::Comparator(comparator) => compare(comparator, partial),
        Sign::Tilde(greater) => tilde(greater, partial),
        Sign::Caret => caret(partial),
    }
}
