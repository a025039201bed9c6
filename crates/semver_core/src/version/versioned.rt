// What versions of every kind have in common, and what is written once for all of them.

ghost use Rattle.std.{proofs.Common.{sym, true≢false}, specs.Fmt.DisplaysStyledOnOk};
ghost use Rattle.std.specs.Prelude.{◌≡◌, Some, refl, true};
ghost use Rattle.std.specs.Prelude.{◌<◌, ◌+◌, ◌++◌, length, OnErr, OnOk, vec_capacity, vec_len};
ghost use Rattle.semver_core.specs.Keys.{key};
ghost use Rattle.semver_core.specs.Printing.{RoundTrip.is_readable, Text.version_text};
ghost use Rattle.semver_core.specs.Values.Memory.{takes_memory};
ghost use Rattle.semver_core.specs.Values.{Order.precedence, Versions.{VersionValue, is_release}};

use crate::cuts::Point;
use crate::print::{write_decimal, write_dotted, write_list};
use crate::version::precedence::{cmp_numbers, cmp_pre};
use crate::{IdentifierRefs, Version, VersionRef, keys};
use std::alloc::AllocError;
use std::cmp::Ordering;
use std::fmt;

/// A version of any kind: one that owns its identifiers, or one that borrows its text.
pub trait Versioned {
    /// The version as contracts see it.
    ghost value: { Self → VersionValue };

    /// The first number, which is raised for incompatible changes.
    fn major(&self) -> u64
        ensures { result ≡ (value self.now).major };

    /// The second number, which is raised for compatible additions.
    fn minor(&self) -> u64
        ensures { result ≡ (value self.now).minor };

    /// The third number, which is raised for compatible fixes.
    fn patch(&self) -> u64
        ensures { result ≡ (value self.now).patch };

    /// The identifiers of the pre-release, where they stand; none where the version is a release.
    fn pre_release(&self) -> IdentifierRefs<'_>
        ensures { result ≡ (value self.now).pre_release };

    /// The identifiers of the build metadata, where they stand.
    fn build(&self) -> IdentifierRefs<'_>
        ensures { result ≡ (value self.now).build };

    /// Whether the version has no pre-release.
    #[inline(always)]
    final fn is_release(&self) -> bool
        ensures { result ≡ is_release (value self.now) }
    {
        self.pre_release().is_empty()
    }

    /// The precedence of SemVer 2.0.0, item 11, of two versions of any kinds: the three numbers,
    /// then a pre-release below its release, then the identifiers of two pre-releases one by one.
    /// The identifiers are looked at only where the numbers are equal.
    #[inline(always)]
    final fn cmp_precedence<W: Versioned>(&self, other: &W) -> Ordering
        ensures { result ≡ precedence (value self.now) (W.value other.now) }
    {
        match cmp_numbers(self, other) {
            Ordering::Equal => cmp_pre(self, other),
            order => order,
        }
    }

    /// Whether the version has numbers up to the limit, and identifiers that their own texts spell:
    /// then its printed text is read as the version under this limit. Each version that was read
    /// from a text has such identifiers. An `AlphaNumeric` that is made by hand may hold `12`, or a
    /// dot.
    ///
    /// ```rust
    /// assert!(rt; VersionRef::parse("1.2.3-rc.1")?.is_readable(3));
    /// assert!(rt; !VersionRef::parse("1.2.4")?.is_readable(3));
    /// ```
    final fn is_readable(&self, limit: u64) -> bool
        ensures { result ≡ is_readable limit (value self.now) }
    {
        let has_numbers = self.major() <= limit && self.minor() <= limit && self.patch() <= limit;
        has_numbers && self.pre_release().are_normal() && self.build().are_normal()
    }

    /// Prints the version, as its `Display` does.
    final fn print<W: fmt::Write>(&self, f: &mut fmt::Formatter<W>) -> fmt::Result
        ensures { DisplaysStyledOnOk W.write_str_gives f.old result
            (Some (version_text (value self.now))) f.new }
    {
        write_dotted(self.major(), f)?;
        write_dotted(self.minor(), f)?;
        write_decimal(self.patch(), f)?;
        write_list("-", self.pre_release(), f)?;
        write_list("+", self.build(), f)
    }

    /// Adds the key of the version to bytes: the keys of two versions compare byte by byte as the
    /// versions do by precedence, and so do keys with anything after them (`laws::keys`). Build
    /// metadata does not count.
    ///
    /// Fails only if allocation fails, which happens only where the bytes have too little room for
    /// the key. Then they are as they were: room is made before anything is written.
    ///
    /// ```rust
    /// let mut bytes = Vec::from_slice(alloc, b"left-pad\0")?;
    /// VersionRef::parse("1.2.3")?.write_key(&mut bytes)?;
    /// assert!(rt; bytes.as_slice() == b"left-pad\0\x01\x02\x03\x03".as_slice());
    /// ```
    final fn write_key(&self, bytes: &mut Vec<u8>) -> Result<(), AllocError>
        ensures added { OnOk result
            (bytes.new.items ≡ bytes.old.items ++ key (value self.now)) }
        ensures unchanged { OnErr result (bytes.new.items ≡ bytes.old.items) }
        ensures memory { OnErr result
            (vec_capacity bytes.old < vec_len bytes.old + length (key (value self.now))) }
    {
        keys::write_key(self, bytes)
    }
}

/// A kind of version whose own order, that of the bounds of intervals, is the precedence of
/// versions.
pub trait VersionPoint: Versioned + Point {
    /// The order is the precedence of versions.
    ghost ordered: { (v w : Self) → Self.cmp v w ≡ precedence (Self.value v) (Self.value w) };

    /// A copy takes memory only where that of a version does.
    ghost copied: { (v : Self) → Self.takes v ≡ true → takes_memory (Self.value v) ≡ true };
}

/// A version is its own value.
impl Versioned for Version {
    ghost value = { λ v. v };

    fn major(&self) -> u64 {
        Version::major(self)
    }

    fn minor(&self) -> u64 {
        Version::minor(self)
    }

    fn patch(&self) -> u64 {
        Version::patch(self)
    }

    #[inline(always)]
    fn pre_release(&self) -> IdentifierRefs<'_> {
        IdentifierRefs::of_items(Version::pre_release(self))
    }

    #[inline(always)]
    fn build(&self) -> IdentifierRefs<'_> {
        IdentifierRefs::of_items(Version::build(self))
    }
}

impl VersionPoint for Version {
    ghost ordered = { λ v w. refl };

    ghost copied = { λ v h. h };
}

/// A borrowed version is, in clauses, the value already.
impl<'a> Versioned for VersionRef<'a> {
    ghost value = { λ v. v };

    #[inline(always)]
    fn major(&self) -> u64 {
        VersionRef::major(self)
    }

    #[inline(always)]
    fn minor(&self) -> u64 {
        VersionRef::minor(self)
    }

    #[inline(always)]
    fn patch(&self) -> u64 {
        VersionRef::patch(self)
    }

    #[inline(always)]
    fn pre_release(&self) -> IdentifierRefs<'_> {
        VersionRef::pre_release(self)
    }

    #[inline(always)]
    fn build(&self) -> IdentifierRefs<'_> {
        VersionRef::build(self)
    }
}

impl<'a> VersionPoint for VersionRef<'a> {
    ghost ordered = { λ v w. refl };

    ghost copied = { λ v h. absurd (true≢false (sym h)) };
}
