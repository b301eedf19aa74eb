//! The bytes of one file, with room reserved.

ghost use Rattle.std.specs.Prelude.{◌≡◌, ◌+◌, ◌≤◌, ◌<◌, ◌++◌, [], ◌∷◌, length, take, vec_len, IfOk};
ghost use Rattle.std.specs.Vec.{vec_capacity};
ghost use Rattle.cdc_outside.specs.Disk.{overwritten};

use cdc_base::Memory;
use std::alloc::Global;

/// Bytes up to a room, which no change takes memory for.
#[derive(Debug, Drop)]
pub struct MemFile {
    bytes: Vec<u8>,
    room: usize,
    ghost reserved: { room ≤ vec_capacity bytes },
    ghost within: { vec_len bytes ≤ room },
}

impl MemFile {
    /// No bytes.
    pub fn new(alloc: Global, room: usize) -> Result<MemFile, Memory>
        ensures bytes { IfOk result (λ file. file.bytes.items ≡ []) }
        ensures room { IfOk result (λ file. file.room ≡ room) }
    {
        Ok(MemFile {
            bytes: Vec::with_capacity(alloc, room)?,
            room,
        })
    }

    /// All bytes.
    pub fn bytes(&self) -> &[u8]
        ensures bytes { result.now ≡ self.now.bytes.items }
        ensures within { length result.now ≤ self.now.room }
    {
        &self.bytes
    }

    /// Writes over what stands from `at` on, and past the end.
    pub fn write(&mut self, at: usize, from: &[u8])
        requires place { at ≤ length self.old.bytes.items }
        requires fits { at + length from.now ≤ self.old.room }
        ensures bytes { self.new.bytes.items ≡ overwritten at from.now self.old.bytes.items }
        ensures room { self.new.room ≡ self.old.room }
    {
        let end = at + from.len();
        if end < self.bytes.len() {
            self.bytes[at..end].copy_from_slice(from);
            return;
        }
        self.bytes.truncate(at);
        self.bytes.extend_from_slice(from).unwrap();
    }

    /// Keeps the first bytes alone.
    pub fn cut(&mut self, to: usize)
        ensures bytes { self.new.bytes.items ≡ take to self.old.bytes.items }
        ensures room { self.new.room ≡ self.old.room }
    {
        self.bytes.truncate(to);
    }

    /// Puts other bytes in the place of those that are there.
    pub fn set(&mut self, from: &[u8])
        requires { length from.now ≤ self.old.room }
        ensures bytes { self.new.bytes.items ≡ from.now }
        ensures room { self.new.room ≡ self.old.room }
    {
        self.bytes.clear();
        self.bytes.extend_from_slice(from).unwrap();
    }

    /// Adds one byte at the end.
    pub fn push(&mut self, byte: u8)
        requires { length self.old.bytes.items < self.old.room }
        ensures bytes { self.new.bytes.items ≡ self.old.bytes.items ++ byte ∷ [] }
        ensures room { self.new.room ≡ self.old.room }
    {
        self.bytes.push_reserved(byte);
    }
}
