// The answers that wait to be written: bytes of which the first ones count. What lies behind these
// is there already, so that most of what is put is stored behind one test, without a call.

ghost use Rattle.std.specs.Prelude.{◌≡◌, ◌≤◌, ◌<◌, ◌+◌, ◌++◌, ◌∷◌, [], length, take, OnErr, OnOk};

use std::alloc::{AllocError, Global};
use std::marker::Model;

/// Bytes, behind which more are put.
#[derive(Drop)]
pub(crate) struct Output {
    bytes: Vec<u8>,
    len: usize,
}

/// In clauses, an output is the bytes that count.
impl Model for Output {
    ghost use Rattle.std.specs.Prelude.{◌≤◌, List, ℕ, length, take};

    ghost Value = { List ℕ };

    ghost view = { λ output. take output.len output.bytes.items };

    ghost invariant = { λ output. output.len ≤ length output.bytes.items };
}

// Makes room for so many bytes more behind the first ones.
#[cold]
#[inline(never)]
fn grow(bytes: &mut Vec<u8>, len: usize, count: usize) -> Result<(), AllocError>
    requires { len ≤ length bytes.old.items }
    ensures front { take len bytes.new.items ≡ take len bytes.old.items }
    ensures longer { len ≤ length bytes.new.items }
    ensures room { OnOk result (len + count ≤ length bytes.new.items) }
{
    'room: while bytes.len() - len < count {
        bytes.extend_from_slice(&[0; 1024])?;
    }
    Ok(())
}

impl Output {
    pub(crate) fn new(alloc: Global) -> Output
        ensures { result ≡ [] }
    {
        Output {
            bytes: Vec::new(alloc),
            len: 0,
        }
    }

    #[inline(always)]
    pub(crate) fn len(&self) -> usize
        ensures { result ≡ length self.now }
    {
        self.len
    }

    pub(crate) fn as_slice(&self) -> &[u8]
        ensures { result.now ≡ self.now }
    {
        &self.bytes[..self.len]
    }

    /// Leaves so many bytes.
    #[inline(always)]
    pub(crate) fn truncate(&mut self, len: usize)
        ensures { self.new ≡ take len self.old }
    {
        if len < self.len {
            self.len = len;
        }
    }

    /// Puts some bytes, all or nothing.
    #[inline(always)]
    pub(crate) fn put(&mut self, text: &[u8]) -> Result<(), AllocError>
        ensures ok { OnOk result (self.new ≡ self.old ++ text.now) }
        ensures err { OnErr result (self.new ≡ self.old) }
    {
        let begin = self.len;
        if self.bytes.len() - begin < text.len() {
            grow(&mut self.bytes, begin, text.len())?;
        }
        let end = begin + text.len();
        self.bytes.as_mut_slice()[begin..end].copy_from_slice(text);
        self.len = end;
        Ok(())
    }

    /// Puts the first bytes of eight, all or nothing.
    #[inline(always)]
    pub(crate) fn put_front(&mut self, text: [u8; 8], count: usize) -> Result<(), AllocError>
        requires { count ≤ 8 }
        ensures ok { OnOk result (self.new ≡ self.old ++ take count text) }
        ensures err { OnErr result (self.new ≡ self.old) }
    {
        let end = self.len + count;
        self.put(&text)?;
        self.truncate(end);
        Ok(())
    }

    /// Puts a byte, or nothing.
    #[inline(always)]
    pub(crate) fn push(&mut self, byte: u8) -> Result<(), AllocError>
        ensures ok { OnOk result (self.new ≡ self.old ++ byte ∷ []) }
        ensures err { OnErr result (self.new ≡ self.old) }
    {
        let begin = self.len;
        if self.bytes.len() == begin {
            grow(&mut self.bytes, begin, 1)?;
        }
        self.bytes.as_mut_slice()[begin] = byte;
        self.len = begin + 1;
        Ok(())
    }
}
