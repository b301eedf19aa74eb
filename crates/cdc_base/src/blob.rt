//! Bytes that are shared, not copied.

ghost use Rattle.std.specs.Prelude.{◌≡◌, ◌≤◌, ◌==◌, [], length, take, drop, slice_range, IfOk};
ghost use Rattle.cdc_base.specs.Bytes.{AreBytes};

use crate::memory::Memory;
use bytes::Bytes;
use std::alloc::Global;
use std::marker::Model;

// The same bytes, each of which is one.
pub(crate) fn plain(bytes: &[u8]) -> &[u8]
    ensures value { result.now ≡ bytes.now }
    ensures each { AreBytes bytes.now }
{
    let plain = bytes;
    plain
}

/// Shared bytes, seen as the list of them. A part of a blob shares the bytes of the whole.
#[derive(Debug, Drop)]
pub struct Blob {
    bytes: Bytes,
}

impl Model for Blob {
    ghost use Rattle.std.specs.Prelude.{List, ℕ};

    ghost Value = { List ℕ };

    ghost view = { λ blob. blob.bytes };

    ghost use Rattle.cdc_base.specs.Bytes.{AreBytes};

    ghost invariant = { λ blob. AreBytes blob.bytes };
}

impl Blob {
    /// A blob over these bytes.
    pub fn from_bytes(bytes: Bytes) -> Blob
        ensures { result ≡ bytes }
    {
        let _bytes = plain(bytes.as_slice());
        Blob { bytes }
    }

    /// A blob over a copy of these bytes.
    pub fn copy_of(alloc: Global, bytes: &[u8]) -> Result<Blob, Memory>
        ensures { IfOk result (λ blob. blob ≡ bytes.now) }
    {
        Ok(Blob::from_bytes(Bytes::copy_from_slice(alloc, bytes)?))
    }

    /// No bytes, which takes no memory.
    pub fn empty() -> Blob
        ensures { result ≡ [] }
    {
        Blob {
            bytes: Bytes::new(),
        }
    }

    /// The bytes.
    pub fn bytes(&self) -> &[u8]
        ensures value { result.now ≡ self.now }
        ensures each { AreBytes self.now }
    {
        plain(self.bytes.as_slice())
    }

    /// How many bytes there are.
    pub fn len(&self) -> usize
        ensures { result ≡ length self.now }
    {
        self.bytes.len()
    }

    /// Whether there is no byte.
    pub fn is_empty(&self) -> bool
        ensures { result ≡ (length self.now == 0) }
    {
        self.bytes.is_empty()
    }

    /// The bytes `from` to `to` (not included), shared with this blob.
    pub fn part(&self, from: usize, to: usize) -> Result<Blob, Memory>
        requires ordered { from ≤ to }
        requires within { to ≤ length self.now }
        ensures { IfOk result (λ part. part ≡ slice_range self.now from to) }
    {
        Ok(Blob::from_bytes(self.bytes.slice(from..to)?))
    }

    /// Keeps the first `length` bytes, where there are more.
    pub fn truncate(&mut self, length: usize)
        ensures { self.new ≡ take length self.old }
    {
        self.bytes.truncate(length);
        let _bytes = plain(self.bytes.as_slice());
    }

    /// Drops the first `by` bytes.
    pub fn advance(&mut self, by: usize)
        requires { by ≤ length self.old }
        ensures { self.new ≡ drop by self.old }
    {
        self.bytes.advance(by);
        let _bytes = plain(self.bytes.as_slice());
    }

    /// The same bytes, shared with this blob.
    pub fn share(&self) -> Result<Blob, Memory>
        ensures { IfOk result (λ blob. blob ≡ self.now) }
    {
        Ok(Blob::from_bytes(self.bytes.clone()?))
    }
}
