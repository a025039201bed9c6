// What lines ask about the versions and ranges of their fields.

use crate::fields::{Behind, cut_word};
use nodejs_semver::{IdentifierBase, OutsideDirection};

/// What a line asks about a version V.
#[derive(Clone, Copy)]
pub(crate) enum AboutVersion<'a> {
    /// `ver;V`: V, printed.
    Ver,
    /// `inc;V;word`: the next version after V by a word.
    Inc(&'a str),
    /// `inc;V;word;identifier`: the next version, with an identifier.
    IncWith(&'a str, &'a str),
    /// `inc;V;word;identifier;base`: the next version, with an identifier and a base, which is
    /// `false`, `0` or `1`.
    IncFrom(&'a str, &'a str, IdentifierBase),
}

/// What a line asks about two versions V and W.
#[derive(Clone, Copy)]
pub(crate) enum AboutVersions {
    /// `cmp;V;W`: how V compares to W.
    Cmp,
    /// `diff;V;W`: the kind of their difference, or `none`.
    Diff,
}

/// What a line asks about a range R.
#[derive(Clone, Copy)]
pub(crate) enum AboutRange {
    /// `range;R`: R, printed.
    Print,
    /// `least;R`: the smallest version that R accepts, or `none`.
    Least,
}

/// What a line asks about two ranges R and S.
#[derive(Clone, Copy)]
pub(crate) enum AboutRanges {
    /// `and;R;S`: their intersection, printed, or `none`.
    And,
    /// `minus;R;S`: their difference, printed, or `none`.
    Minus,
    /// `beyond;R;S`: the smallest version that R accepts and S does not, or `none`.
    Beyond,
}

/// What a line asks about a range R and a version V.
#[derive(Clone, Copy)]
pub(crate) enum AboutMatch {
    /// `sat;R;V`: whether R accepts V, by `satisfies`.
    Sat,
    /// `pre;R;V`: whether R accepts V, pre-releases included.
    Pre,
    /// `out;R;V;>` and `out;R;V;<`: whether V lies above R, or below it.
    Out(OutsideDirection),
}

/// What a line asks about a range R and some versions.
#[derive(Clone, Copy)]
pub(crate) enum AboutBest {
    /// `max;R;V;..`: the greatest of the versions that R accepts, or `none`.
    Max,
    /// `min;R;V;..`: the smallest of the versions that R accepts, or `none`.
    Min,
}

impl<'a> AboutVersion<'a> {
    ghost use Rattle.std.specs.Prelude.{◌∷◌, ℕ, List, codes, IfSome, IfNone};
    ghost use Rattle.semver_answers.specs.Commands.{Asks, Question, Version};
    ghost use Rattle.semver_answers.specs.Internal.Ahead.{HasFeed, IsNext, fields_ahead};

    /// What a line `inc` with these fields behind its version asks, and the text behind the line.
    #[inline(always)]
    pub(crate) fn increment(rest: &'a str) -> Option<(AboutVersion<'a>, &'a str)>
        requires { HasFeed rest.now }
        ensures some { IfSome result (λ found. (v : List ℕ)
            → Asks (codes "inc" ∷ v ∷ fields_ahead rest.now) (Version v found.0)) }
        ensures next { IfSome result (λ found. IsNext rest.now found.1) }
        ensures none { IfNone result ((v : List ℕ) (question : Question)
            → Asks (codes "inc" ∷ v ∷ fields_ahead rest.now) question → ⊥) }
    {
        let (word, behind) = cut_word(rest);
        let rest = match behind {
            Behind::Lines(next) => return Some((AboutVersion::Inc(word), next)),
            Behind::Fields(rest) => rest,
        };
        let (identifier, behind) = cut_word(rest);
        let rest = match behind {
            Behind::Lines(next) => return Some((AboutVersion::IncWith(word, identifier), next)),
            Behind::Fields(rest) => rest,
        };
        let (text, behind) = cut_word(rest);
        let Behind::Lines(next) = behind else {
            return None;
        };
        let base = match text {
            "false" => IdentifierBase::False,
            "0" => IdentifierBase::Value(0),
            "1" => IdentifierBase::Value(1),
            _ => return None,
        };
        Some((AboutVersion::IncFrom(word, identifier, base), next))
    }
}

impl AboutMatch {
    ghost use Rattle.std.specs.Prelude.{◌∷◌, ℕ, List, codes, IfSome, IfNone};
    ghost use Rattle.semver_answers.specs.Commands.{Asks, Match, Question};
    ghost use Rattle.semver_answers.specs.Internal.Ahead.{HasFeed, IsNext, fields_ahead};

    /// What a line `out` with these fields behind its version asks, and the text behind the line.
    #[inline(always)]
    pub(crate) fn outside(rest: &str) -> Option<(AboutMatch, &str)>
        requires { HasFeed rest.now }
        ensures some { IfSome result (λ found. (r v : List ℕ)
            → Asks (codes "out" ∷ r ∷ v ∷ fields_ahead rest.now) (Match (r, v) found.0)) }
        ensures next { IfSome result (λ found. IsNext rest.now found.1) }
        ensures none { IfNone result ((r v : List ℕ) (question : Question)
            → Asks (codes "out" ∷ r ∷ v ∷ fields_ahead rest.now) question → ⊥) }
    {
        let (side, behind) = cut_word(rest);
        let Behind::Lines(next) = behind else {
            return None;
        };
        match side {
            ">" => Some((AboutMatch::Out(OutsideDirection::Higher), next)),
            "<" => Some((AboutMatch::Out(OutsideDirection::Lower), next)),
            _ => None,
        }
    }
}
