// A version that is listed, with its text.

ghost use Rattle.std.specs.Prelude.{◌≡◌, Some, refl};
ghost use Rattle.std.specs.Cmp.{eq_by_cmp_equiv, partial_equiv_from_equiv, po};
ghost use Rattle.std.specs.Ordering.{eq_by_cmp};
ghost use Rattle.npm_semver.specs.Listing.{order};
ghost use Rattle.npm_semver.specs.Internal.EntryOrder.{order_total};

use nodejs_semver::VersionRef;
use std::cmp::Ordering;
use std::marker::Model;

/// A version, and the text that it was given as: without the whitespace around it, and whole where
/// a field is read.
#[derive(Drop)]
pub struct Entry<'a> {
    pub version: VersionRef<'a>,
    pub text: &'a str,
}

impl<'a> Model for Entry<'a> {
    ghost use Rattle.npm_semver.specs.Listing as Listing;

    ghost Value = { Listing.Entry };

    ghost view = { λ entry. record { version = entry.version; text = entry.text.now } };
}

impl<'a> PartialEq for Entry<'a> {
    ghost eq = { eq_by_cmp order };

    ghost laws = { partial_equiv_from_equiv (eq_by_cmp_equiv order_total) };

    fn eq(&self, other: &Entry<'a>) -> bool {
        self.cmp(other).is_eq()
    }
}

impl<'a> Eq for Entry<'a> {
    ghost laws = { eq_by_cmp_equiv order_total };
}

impl<'a> PartialOrd for Entry<'a> {
    ghost partial_cmp = { λ d e. Some (order d e) };

    ghost laws = { po order_total (λ d e. refl) };

    fn partial_cmp(&self, other: &Entry<'a>) -> Option<Ordering> {
        Some(self.cmp(other))
    }
}

/// By precedence, and of versions that tie by their texts.
impl<'a> Ord for Entry<'a> {
    ghost cmp = { order };

    ghost total = { order_total };

    ghost matches_partial_cmp = { λ d e. refl };

    ghost matches_eq = { λ d e. refl };

    fn cmp(&self, other: &Entry<'a>) -> Ordering {
        match self.version.cmp(&other.version) {
            Ordering::Equal => self.text.cmp(other.text),
            order => order,
        }
    }
}
