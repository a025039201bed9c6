// Keys of versions: bytes whose order, byte by byte, is the precedence of versions.

ghost use Rattle.std.specs.Prelude.{◌≡◌, ◌<◌, ◌+◌, ◌++◌};
ghost use Rattle.std.specs.Prelude.{vec_capacity, vec_len};
ghost use Rattle.semver_core.specs.Keys.{key};
ghost use Rattle.semver_core.specs.Words.{[], IfNone, IfOk, IfSome, IsVersion, length};
ghost use Rattle.semver_core.specs.Words.{OnErr, OnOk, VersionValue};

mod check;
mod length;
mod read;
mod write;

use crate::keys::check::is_pre;
use crate::keys::length::key_len;
use crate::keys::read::{read_numbers, read_version};
use crate::keys::write::{write_number, write_pre};
use crate::{Version, VersionRef, Versioned};
use std::alloc::{AllocError, Global};

// Adds the key of a version to bytes.
#[inline(never)]
#[tactic(auto, using(std::proofs::lemmas::Grind::common_steps))]
pub(crate) fn write_key<V: Versioned>(version: &V, bytes: &mut Vec<u8>) -> Result<(), AllocError>
    ensures added { OnOk result
        (bytes.new.items ≡ bytes.old.items ++ key (V.value version.now)) }
    ensures unchanged { OnErr result (bytes.new.items ≡ bytes.old.items) }
    ensures memory { OnErr result
        (vec_capacity bytes.old < vec_len bytes.old + length (key (V.value version.now))) }
{
    bytes.reserve(key_len(version))?;
    write_number(version.major(), bytes);
    write_number(version.minor(), bytes);
    write_number(version.patch(), bytes);
    write_pre(version.pre_release(), bytes);
    Ok(())
}

// The key of a version.
fn new_key<V: Versioned>(alloc: Global, version: &V) -> Result<Vec<u8>, AllocError>
    ensures { IfOk result (λ bytes. bytes.items ≡ key (V.value version.now)) }
{
    let mut bytes = Vec::new(alloc);
    write_key(version, &mut bytes)?;
    Ok(bytes)
}

impl Version {
    /// The key of the version: bytes that compare as versions do, byte by byte. Build metadata does
    /// not count. See `Versioned::write_key`, which adds it to bytes.
    ///
    /// Fails only if allocation fails.
    ///
    /// ```rust
    /// let beta = Version::parse(alloc, "1.10.0-rc.2")?.key(alloc)?;
    /// assert!(rt; beta.as_slice() == [1, 10, 0, 2, b'r', b'c', 0, 1, 2, 0].as_slice());
    /// ```
    pub fn key(&self, alloc: Global) -> Result<Vec<u8>, AllocError>
        ensures { IfOk result (λ bytes. bytes.items ≡ key self.now) }
    {
        new_key(alloc, self)
    }

    /// The version whose key these bytes are, without build metadata; `None` exactly where they are
    /// the key of no version.
    ///
    /// Fails only if allocation fails, which happens only where the bytes are the key of a
    /// pre-release: what is no key is refused before anything is allocated.
    ///
    /// ```rust
    /// let version = Version::from_key(alloc, &[1, 2, 3, 3])?;
    /// assert!(rt; version == Some(Version::parse(alloc, "1.2.3")?));
    /// assert!(rt; Version::from_key(alloc, &[1, 2, 3])?.is_none());
    /// ```
    pub fn from_key(alloc: Global, bytes: &[u8]) -> Result<Option<Version>, AllocError>
        ensures some { IfOk result (λ found. IfSome found (λ v. key v ≡ bytes.now)) }
        ensures no_build { IfOk result (λ found. IfSome found (λ v. v.build ≡ [])) }
        ensures none { IfOk result (λ found. IfNone found
            ((v : VersionValue) → IsVersion v → ¬ (key v ≡ bytes.now))) }
        ensures memory { OnErr result
            ((v : VersionValue) × IsVersion v × (key v ≡ bytes.now) × (0 < length v.pre_release)) }
    {
        let Some((major, minor, patch, rest)) = read_numbers(bytes) else {
            return Ok(None);
        };
        if !is_pre(rest) {
            return Ok(None);
        }
        read_version(alloc, major, minor, patch, rest)
    }
}

impl<'a> VersionRef<'a> {
    /// The key of the version, as `Version::key`.
    ///
    /// Fails only if allocation fails.
    ///
    /// ```rust
    /// let (nine, ten) = (VersionRef::parse("1.9.0")?, VersionRef::parse("1.10.0")?);
    /// assert!(rt; nine.key(alloc)? < ten.key(alloc)?);
    /// ```
    pub fn key(&self, alloc: Global) -> Result<Vec<u8>, AllocError>
        ensures { IfOk result (λ bytes. bytes.items ≡ key self.now) }
    {
        new_key(alloc, self)
    }
}
