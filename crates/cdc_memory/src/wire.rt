//! The bytes of a link in memory.

ghost use Rattle.std.specs.Prelude.{◌≡◌, ◌≤◌, false, [], ◌++◌, length, min, vec_len, IfOk};
ghost use Rattle.std.specs.Vec.{vec_capacity};
ghost use Rattle.cdc_outside.specs.Link.{Receives};

use cdc_base::{Blob, Buffer, Memory};
use std::alloc::Global;

/// Bytes that come in, and room for those that go out.
#[derive(Debug, Drop)]
pub struct Wire {
    input: Blob,
    at: usize,
    written: Vec<u8>,
    room: usize,
    ghost within: { at ≤ length input },
    ghost reserved: { room ≤ vec_capacity written },
    ghost fits: { vec_len written ≤ room },
}

impl Wire {
    ghost use Rattle.cdc_memory.specs.Wire.{wire_input, wire_left, wire_written, wire_room, is_past_wire};

    /// These bytes are to come in; none went out, and there is room for `room`.
    pub fn new(alloc: Global, input: &[u8], room: usize) -> Result<Wire, Memory>
        ensures input { IfOk result (λ wire. wire_input wire ≡ input.now) }
        ensures left { IfOk result (λ wire. wire_left wire ≡ input.now) }
        ensures written { IfOk result (λ wire. wire_written wire ≡ []) }
        ensures room { IfOk result (λ wire. wire_room wire ≡ room) }
    {
        let mut bytes = Buffer::with_room(alloc, input.len())?;
        bytes.push(input)?;
        Ok(Wire {
            input: bytes.freeze()?,
            at: 0,
            written: Vec::with_capacity(alloc, room)?,
            room,
        })
    }

    /// All bytes that come in, shared.
    pub fn input(&self) -> Result<Blob, Memory>
        ensures { IfOk result (λ input. input ≡ wire_input self.now) }
    {
        self.input.share()
    }

    /// All that went out.
    pub fn written(&self) -> &[u8]
        ensures { result.now ≡ wire_written self.now }
    {
        &self.written
    }

    /// Puts as many bytes at the front of `into` as it takes and are still to come.
    pub fn read(&mut self, into: &mut [u8]) -> usize
        ensures read { Receives (wire_left self.old) into.new result (wire_left self.new) }
        ensures full { result ≡ min (length into.old) (length (wire_left self.old)) }
        ensures input { wire_input self.new ≡ wire_input self.old }
        ensures written { wire_written self.new ≡ wire_written self.old }
        ensures room { wire_room self.new ≡ wire_room self.old }
    {
        let left = &self.input.bytes()[self.at..];
        let read = into.len().min(left.len());
        into[..read].copy_from_slice(&left[..read]);
        self.at += read;
        read
    }

    /// Whether there is no room for these bytes.
    pub fn is_past_room(&self, bytes: &[u8]) -> bool
        ensures { result ≡ is_past_wire self.now bytes.now }
    {
        bytes.len() > self.room - self.written.len()
    }

    /// Sends all bytes.
    pub fn write(&mut self, bytes: &[u8])
        requires { is_past_wire self.old bytes.now ≡ false }
        ensures written { wire_written self.new ≡ wire_written self.old ++ bytes.now }
        ensures input { wire_input self.new ≡ wire_input self.old }
        ensures left { wire_left self.new ≡ wire_left self.old }
        ensures room { wire_room self.new ≡ wire_room self.old }
    {
        self.written.extend_from_slice(bytes).unwrap();
    }
}
