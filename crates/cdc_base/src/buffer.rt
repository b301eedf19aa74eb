//! Bytes that grow.

ghost use Rattle.std.specs.Prelude.{◌≡◌, ◌≤◌, [], ◌++◌, length, take, drop, IfOk, OnOk, OnErr};
ghost use Rattle.cdc_base.specs.Bytes.{AreBytes};

use crate::blob::{Blob, plain};
use crate::memory::Memory;
use bytes::Bytes;
use std::alloc::{AllocFailed, Global};
use std::marker::Model;
use std::mem;

/// Growing bytes, seen as the list of them. They grow with no byte set before it is written, and are frozen
/// with no copy; those that are dropped at the front make room for more.
#[derive(Debug, Drop)]
pub struct Buffer {
    alloc: Global,
    bytes: Vec<u8>,
    // How many bytes at the front are dropped.
    from: usize,
}

impl Model for Buffer {
    ghost use Rattle.std.specs.Prelude.{List, ℕ};

    ghost Value = { List ℕ };

    ghost use Rattle.std.specs.Prelude.{◌≤◌, length, drop};

    ghost view = { λ buffer. drop buffer.from buffer.bytes.items };

    ghost invariant = { λ buffer. buffer.from ≤ length buffer.bytes.items };
}

// Moves the bytes from `from` on to the front.
#[tactic(auto, using(crate::proofs::Gaps::closed))]
fn close_gap(bytes: &mut Vec<u8>, from: usize)
    requires { from ≤ length bytes.old.items }
    ensures { bytes.new.items ≡ drop from bytes.old.items }
{
    let length = bytes.len();
    bytes.copy_within(from..length, 0);
    bytes.truncate(length - from);
}

impl Buffer {
    /// No bytes, which takes no memory; the allocator is kept for growth.
    pub fn new(alloc: Global) -> Buffer
        ensures { result ≡ [] }
    {
        Buffer {
            alloc,
            bytes: Vec::new(alloc),
            from: 0,
        }
    }

    /// No bytes, and room for `room` of them.
    pub fn with_room(alloc: Global, room: usize) -> Result<Buffer, Memory>
        ensures { IfOk result (λ buffer. buffer ≡ []) }
    {
        Ok(Buffer {
            alloc,
            bytes: Vec::with_capacity(alloc, room)?,
            from: 0,
        })
    }

    /// The bytes so far.
    pub fn bytes(&self) -> &[u8]
        ensures value { result.now ≡ self.now }
        ensures each { AreBytes self.now }
    {
        plain(&self.bytes[self.from..])
    }

    /// How many bytes there are.
    pub fn len(&self) -> usize
        ensures { result ≡ length self.now }
    {
        self.bytes.len() - self.from
    }

    /// Appends all bytes. On `Memory` nothing changes.
    pub fn push(&mut self, bytes: &[u8]) -> Result<(), Memory>
        ensures ok { OnOk result (self.new ≡ self.old ++ bytes.now) }
        ensures err { OnErr result (self.new ≡ self.old) }
    {
        if self.from > self.bytes.len() - self.from {
            // More is dropped than is left, so that each byte moves once at most.
            close_gap(&mut self.bytes, self.from);
            self.from = 0;
        }
        self.bytes.extend_from_slice(bytes)?;
        Ok(())
    }

    /// Makes room for `more` bytes, so that pushes of that many grow no more. The bytes stay as they are.
    pub fn reserve(&mut self, more: usize) -> Result<(), Memory>
        ensures { self.new ≡ self.old }
    {
        self.bytes.reserve(more)?;
        Ok(())
    }

    /// Drops all bytes from `to` on; the room stays.
    pub fn truncate(&mut self, to: usize)
        requires { to ≤ length self.old }
        ensures { self.new ≡ take to self.old }
    {
        self.bytes.truncate(self.from + to);
    }

    /// Drops the first `by` bytes.
    pub fn advance(&mut self, by: usize)
        requires { by ≤ length self.old }
        ensures { self.new ≡ drop by self.old }
    {
        self.from += by;
    }

    /// The first `to` bytes, to be shared, with no copy; those behind them are copied and stay. On `Memory`
    /// nothing changes.
    pub fn freeze_to(&mut self, to: usize) -> Result<Blob, Memory>
        requires { to ≤ length self.old }
        ensures front { IfOk result (λ blob. blob ≡ take to self.old) }
        ensures rest { OnOk result (self.new ≡ drop to self.old) }
        ensures err { OnErr result (self.new ≡ self.old) }
    {
        let rest = Vec::from_slice(self.alloc, &self.bytes[self.from + to..])?;
        let whole = mem::replace(&mut self.bytes, rest);
        match Bytes::from_vec(whole) {
            Ok(mut front) => {
                front.advance(self.from);
                front.truncate(to);
                self.from = 0;
                Ok(Blob::from_bytes(front))
            }
            Err(AllocFailed { value: whole }) => {
                self.bytes = whole;
                Err(Memory)
            }
        }
    }

    /// The bytes, to be shared, with no copy. On `Memory` the buffer is spent.
    pub fn freeze(self) -> Result<Blob, Memory>
        ensures { IfOk result (λ blob. blob ≡ self) }
    {
        let Buffer {
            alloc: _,
            bytes,
            from,
        } = self;
        let mut bytes = Bytes::from_vec(bytes)?;
        bytes.advance(from);
        Ok(Blob::from_bytes(bytes))
    }
}
