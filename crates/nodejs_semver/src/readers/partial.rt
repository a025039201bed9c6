// A partial: a version whose components may be absent or wildcards.

ghost use Rattle.nodejs_semver.specs.Internal.Fronts as Spec;
ghost use Rattle.std.specs.Prelude.{◌≡◌, ◌≤◌, [], Some};
ghost use Rattle.nodejs_semver.specs.Words.{ForSome, MAX_SAFE_INTEGER};
ghost use Rattle.nodejs_semver.specs.Words.{partial_front_view, partial_pair_view};

use crate::readers::syntax::Partial;
use semver_core::MAX_SAFE_INTEGER;
pub(crate) use semver_pieces::component_front;
use semver_pieces::{build_front, dotted_front, pre_release_front, skip_spaces};

/// The partial of these components, with the qualifier that stands at the front.
#[inline(always)]
pub(crate) fn qualified<'a>(
    major: Option<u64>,
    minor: Option<u64>,
    patch: Option<u64>,
    text: &'a [u8],
) -> (Partial<'a>, &'a [u8])
    requires major_small { ForSome major (λ n. n ≤ MAX_SAFE_INTEGER) }
    requires minor_small { ForSome minor (λ n. n ≤ MAX_SAFE_INTEGER) }
    requires patch_small { ForSome patch (λ n. n ≤ MAX_SAFE_INTEGER) }
    ensures { partial_pair_view result
        ≡ Spec.patch_front major minor [] (Some (patch, text.now)) }
{
    let (pre_release, rest) = pre_release_front(false, text);
    let (build, rest) = build_front(rest);
    (
        Partial {
            major,
            minor,
            patch,
            pre_release,
            build,
        },
        rest,
    )
}

/// The partial at the front whose major component was read.
#[inline(always)]
#[tactic(auto, using(semver_core::proofs::Reading::IdentifierLists::short_lists))]
pub(crate) fn minor_front(major: Option<u64>, text: &[u8]) -> (Partial<'_>, &[u8])
    requires { ForSome major (λ n. n ≤ MAX_SAFE_INTEGER) }
    ensures { partial_pair_view result ≡ Spec.minor_front MAX_SAFE_INTEGER major text.now
        (Spec.dotted_front MAX_SAFE_INTEGER text.now) }
{
    let mut read = Partial {
        major,
        minor: None,
        patch: None,
        pre_release: b"",
        build: b"",
    };
    let Some((minor, behind)) = dotted_front(text) else {
        return (read, text);
    };
    read.minor = minor;
    match dotted_front(behind) {
        Some((patch, rest)) => qualified(major, minor, patch, rest),
        None => (read, behind),
    }
}

// The partial at the front, component by component.
#[inline(always)]
#[tactic(auto, unfolding(crate::specs::Internal::Fronts::partial_front))]
pub(crate) fn partial_front(text: &[u8]) -> Option<(Partial<'_>, &[u8])>
    ensures { partial_front_view result ≡ Spec.partial_front MAX_SAFE_INTEGER text.now }
{
    let mark = usize::from(matches!(text, [b'v', ..]));
    let (major, rest) = component_front(skip_spaces(&text[mark..]))?;
    Some(minor_front(major, rest))
}
