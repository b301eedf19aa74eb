//! The bytes that aren't cut yet.

ghost use Rattle.std.specs.Prelude.{◌≡◌, ◌<◌, ◌≤◌, ◌++◌, ◌^◌, [], length, drop, slice_range, IfOk, OnOk, OnErr};
ghost use Rattle.cdc_base.specs.Bytes.{AreBytes};
ghost use Rattle.cdc_cutter.specs.Pending.{pending_bytes};

use cdc_base::{Blob, Buffer, Memory};
use std::alloc::Global;

/// The bytes of a file that aren't cut yet, one behind another.
#[derive(Debug, Drop)]
pub enum Pending {
    /// As they were fed: the next piece is appended.
    Fed(Buffer),
    /// To be shared by the events that are cut from them: the next piece is joined with what is left of them.
    Shared(Blob),
}

// What is left, and a piece behind it.
fn joined(alloc: Global, rest: &Blob, piece: &[u8]) -> Result<Buffer, Memory>
    ensures { IfOk result (λ joined. joined ≡ rest.now ++ piece.now) }
{
    let room = rest.len().saturating_add(piece.len());
    let mut joined = Buffer::with_room(alloc, room)?;
    joined.push(rest.bytes())?;
    joined.push(piece)?;
    Ok(joined)
}

impl Pending {
    /// No bytes, which takes no memory.
    pub fn new(alloc: Global) -> Pending
        ensures { pending_bytes result ≡ [] }
    {
        Pending::Fed(Buffer::new(alloc))
    }

    /// All bytes.
    pub fn bytes(&self) -> &[u8]
        ensures value { result.now ≡ pending_bytes self.now }
        ensures each { AreBytes (pending_bytes self.now) }
    {
        match self {
            Pending::Fed(buffer) => buffer.bytes(),
            Pending::Shared(blob) => blob.bytes(),
        }
    }

    /// Appends a piece. A rest that is shared is less than one event where the caller fed for want of one: so each
    /// byte is moved here once, and once more at most where its event goes over the end of a piece.
    pub fn feed(&mut self, alloc: Global, piece: &[u8]) -> Result<(), Memory>
        ensures ok { OnOk result (pending_bytes self.new ≡ pending_bytes self.old ++ piece.now) }
        ensures err { OnErr result (self.new ≡ self.old) }
    {
        match self {
            Pending::Fed(buffer) => buffer.push(piece),
            Pending::Shared(rest) => {
                let joined = joined(alloc, rest, piece)?;
                *self = Pending::Fed(joined);
                Ok(())
            }
        }
    }

    /// Drops the first `by` bytes.
    pub fn advance(&mut self, by: usize)
        requires { by ≤ length (pending_bytes self.old) }
        ensures { pending_bytes self.new ≡ drop by (pending_bytes self.old) }
    {
        match self {
            Pending::Fed(buffer) => buffer.advance(by),
            Pending::Shared(blob) => blob.advance(by),
        }
    }

    /// The bytes `from` to `to` (not included), shared. All bytes stay.
    pub fn part(&mut self, from: usize, to: usize) -> Result<Blob, Memory>
        requires ordered { from ≤ to }
        requires within { to ≤ length (pending_bytes self.old) }
        ensures part { IfOk result (λ part. part ≡ slice_range (pending_bytes self.old) from to) }
        ensures kept { pending_bytes self.new ≡ pending_bytes self.old }
    {
        match self {
            Pending::Fed(buffer) => {
                let all = buffer.freeze_to(buffer.len())?;
                let part = all.part(from, to);
                *self = Pending::Shared(all);
                part
            }
            Pending::Shared(blob) => blob.part(from, to),
        }
    }
}
