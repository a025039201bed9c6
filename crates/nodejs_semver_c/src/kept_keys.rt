// Keys of versions that the caller keeps: bytes that compare as versions do.

ghost use Rattle.nodejs_semver_c.specs.Answers.{Kept};
ghost use Rattle.nodejs_semver_c.specs.Internal.Pieces.{Adds};
ghost use Rattle.nodejs_semver_c.specs.Kept.{OnKept};
ghost use Rattle.nodejs_semver_c.specs.KeptKeys.{PrintsKey};

use crate::NO_MEMORY;
use crate::kept::{Version, kept};
use crate::pieces::put_bytes;
use crate::print::{Printed, print};
use nodejs_semver::VersionRef;
use std::alloc::Global;

// The bytes of a key.
#[derive(Drop)]
struct Key {
    bytes: Vec<u8>,
}

impl Printed for Key {
    ghost text = { λ key. key.bytes.items };

    fn put(&self, out: &mut [u8], len: &mut usize) {
        put_key(&self.bytes, out, len);
    }
}

/// Puts the bytes of a key behind what was put before.
pub fn put_key(key: &Vec<u8>, out: &mut [u8], len: &mut usize)
    ensures { Adds key.now.items out.old out.new len.old len.new }
{
    put_bytes(key.as_slice(), out, len);
}

/// The key of a version: bytes that compare as versions do, byte by byte, the shorter first. Build
/// metadata does not count, and no key begins another. `out` gets the key, and `len` its length.
///
/// Returns `OK`, `TOO_SMALL`, `BAD_VERSION`, `NO_MEMORY` or `TOO_LONG`.
#[unsafe(no_mangle)]
pub extern "C" fn nodejs_semver_key(
    alloc: Global,
    version: &Version<'_>,
    out: &mut [u8],
    len: &mut usize,
) -> u32
    ensures { OnKept version.now result (Kept out.old out.new len.old len.new)
        (λ v. PrintsKey v out.old out.new len.old len.new result) }
{
    match kept(version) {
        Ok(version) => print_key(alloc, &version, out, len),
        Err(status) => status,
    }
}

fn print_key(alloc: Global, version: &VersionRef<'_>, out: &mut [u8], len: &mut usize) -> u32
    ensures { PrintsKey version.now out.old out.new len.old len.new result }
{
    match version.key(alloc) {
        Ok(bytes) => print(&Key { bytes }, out, len),
        Err(_) => NO_MEMORY,
    }
}
