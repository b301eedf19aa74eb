//! Bytes that wait to be written.

ghost use Rattle.std.specs.Prelude.{◌≡◌, ◌+◌, ◌<◌, ◌≤◌, ◌^◌, ◌⊎◌, ◌++◌, IsTrue, length, IfOk, IfErr, OnOk, OnErr};
ghost use Rattle.cdc_outside.specs.Count.{RisesOnErr};
ghost use Rattle.cdc_outside.specs.Sink.{WritesTo};
ghost use Rattle.cdc_model.specs.Output.{file_head};
ghost use Rattle.cdc_model.specs.Print.{printed_bytes, printed_length};
ghost use Rattle.cdc_writer.specs.Refusal.{HasPrintCause};

use cdc_base::{Buffer, Memory};
use cdc_model::Txn;
use cdc_outside::{Failed, Sink};
use cdc_rename::Names;
use cdc_writer::{PrintError, print, prints_have_their_length, write_head};
use std::alloc::Global;
use std::marker::Model;
use std::mem;

/// The bytes from which on a piece is full.
const PIECE: usize = 1 << 20;

/// The room of a new piece, so that most prints with which it becomes full don't move it.
const ROOM: usize = PIECE + (1 << 16);

/// Bytes in pieces of 1 MiB and what goes past it, seen as the list of them. They are never moved together.
#[derive(Debug, Drop)]
pub(crate) struct Pieces {
    alloc: Global,
    full: Vec<Buffer>,
    last: Buffer,
}

impl Model for Pieces {
    ghost use Rattle.std.specs.Prelude.{List, ℕ};
    ghost use Rattle.cdc_print.specs.Waiting.{piece_bytes};

    ghost Value = { List ℕ };

    ghost view = { λ pieces. piece_bytes pieces.full.items pieces.last };
}

impl Pieces {
    /// A file's head.
    pub fn head(alloc: Global) -> Result<Pieces, Memory>
        ensures { IfOk result (λ pieces. pieces ≡ file_head) }
    {
        let mut last = Buffer::with_room(alloc, ROOM)?;
        write_head(&mut last)?;
        Ok(Pieces {
            alloc,
            full: Vec::new(alloc),
            last,
        })
    }

    // Begins a new piece where the last one is full.
    fn make_room(&mut self) -> Result<(), Memory>
        ensures { OnOk result (self.new ≡ self.old) }
    {
        if self.last.len() < PIECE {
            return Ok(());
        }
        let next = Buffer::with_room(self.alloc, ROOM)?;
        self.full.push(mem::replace(&mut self.last, next))?;
        Ok(())
    }

    // Appends a transaction's print to the last piece, and answers its length.
    fn print_last(&mut self, txn: &Txn, names: &Names, at: u64) -> Result<u64, PrintError>
        requires { printed_length names.now txn.now ≤ 2 ^ 28 → at + printed_length names.now txn.now < 2 ^ 32 }
        ensures ok { OnOk result (self.new ≡ self.old ++ printed_bytes names.now txn.now at) }
        ensures length { IfOk result (λ bytes. bytes ≡ printed_length names.now txn.now) }
        ensures fits { OnOk result (printed_length names.now txn.now ≤ 2 ^ 28) }
        ensures err { OnErr result (self.new ≡ self.old) }
        ensures refused { IfErr result (HasPrintCause names.now txn.now) }
    {
        prints_have_their_length();
        let before = self.last.len();
        match print(self.alloc, txn, names, at, &mut self.last) {
            Ok(()) => Ok((self.last.len() - before) as u64),
            Err(error) => Err(error),
        }
    }

    /// Appends a transaction's print, which stands at `at` of its file, and answers its length. On `TooLarge` nothing
    /// changes; on `Memory` bytes may be lost.
    pub fn print(&mut self, txn: &Txn, names: &Names, at: u64) -> Result<u64, PrintError>
        requires { printed_length names.now txn.now ≤ 2 ^ 28 → at + printed_length names.now txn.now < 2 ^ 32 }
        ensures ok { OnOk result (self.new ≡ self.old ++ printed_bytes names.now txn.now at) }
        ensures length { IfOk result (λ bytes. bytes ≡ printed_length names.now txn.now) }
        ensures fits { OnOk result (printed_length names.now txn.now ≤ 2 ^ 28) }
        ensures refused { IfErr result (HasPrintCause names.now txn.now) }
        ensures kept { IfErr result (λ error. error ≡ PrintError.Memory ⊎ (self.new ≡ self.old)) }
    {
        match self.make_room() {
            Ok(()) => self.print_last(txn, names, at),
            Err(Memory) => Err(PrintError::Memory),
        }
    }

    /// Writes all bytes; or a front of them, where the sink failed.
    pub fn write_to<K: Sink>(&self, out: &mut K) -> Result<(), Failed>
        ensures ok { IsTrue K.tells → OnOk result (K.written out.new ≡ K.written out.old ++ self.now) }
        ensures err { IsTrue K.tells → OnErr result (WritesTo (K.written out.old) self.now (K.written out.new)) }
        ensures faults { RisesOnErr (K.faults out.old) (K.faults out.new) result }
    {
        for piece in self.full.as_slice() {
            match out.write(piece.bytes()) {
                Ok(()) => {}
                Err(Failed) => return Err(Failed),
            }
        }
        out.write(self.last.bytes())
    }
}
