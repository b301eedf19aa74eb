//! Bytes on their way to a file: those that are written one behind another go there in one piece.

ghost use Rattle.std.specs.Prelude.{◌≡◌, ◌+◌, ◌≤◌, ◌++◌, ◌↔◌, [], true, false, IsNone, length, vec_len, IfOk, IfSome, OnSome};
ghost use Rattle.std.specs.Vec.{vec_capacity};
ghost use Rattle.cdc_files.specs.Gathering.{GoesBehind};

use crate::opened::Opened;
use cdc_base::Memory;
use cdc_outside::DiskFile;
use std::alloc::Global;
use std::fs::OpenFile;
use std::os::unix::fs::FileExt;

/// How many bytes are gathered at most.
const ROOM: usize = 65_536;

/// Bytes of one file, from one place on, that aren't written as yet.
#[derive(Drop)]
pub struct Gathered {
    file: DiskFile,
    at: u64,
    bytes: Vec<u8>,
    ghost reserved: { 65536 ≤ vec_capacity bytes },
    ghost within: { vec_len bytes ≤ 65536 },
}

impl Gathered {
    /// Nothing, with the room for what is gathered.
    pub fn new(alloc: Global) -> Result<Gathered, Memory>
        ensures { IfOk result (λ gathered. gathered.bytes.items ≡ []) }
    {
        Ok(Gathered {
            file: DiskFile::SlotA,
            at: 0,
            bytes: Vec::with_capacity(alloc, ROOM)?,
        })
    }

    /// The file whose bytes wait here; none where nothing does.
    pub fn file(&self) -> Option<DiskFile>
        ensures some { IfSome result (λ file. file ≡ self.now.file) }
        ensures none { IsNone result ↔ (self.now.bytes.items ≡ []) }
    {
        if self.bytes.is_empty() {
            return None;
        }
        Some(self.file)
    }

    /// Whether so many bytes from a place of a file on may be gathered with what is here: right behind it, or alone.
    pub fn takes(&self, file: DiskFile, at: u64, count: usize) -> bool
        ensures taken { result ≡ true → GoesBehind self.now.file self.now.at self.now.bytes.items file at count }
        ensures refused { result ≡ false → GoesBehind self.now.file self.now.at self.now.bytes.items file at count → ⊥ }
    {
        if count > ROOM - self.bytes.len() {
            return false;
        }
        self.bytes.is_empty()
            || (self.file == file && at >= self.at && at - self.at == self.bytes.len() as u64)
    }

    /// Gathers bytes from a place of a file on. It takes no memory.
    pub fn add(&mut self, file: DiskFile, at: u64, from: &[u8])
        requires { GoesBehind self.old.file self.old.at self.old.bytes.items file at (length from.now) }
        ensures bytes { self.new.bytes.items ≡ self.old.bytes.items ++ from.now }
        ensures file { self.new.file ≡ file }
        ensures place { at ≡ self.new.at + length self.old.bytes.items }
    {
        if self.bytes.is_empty() {
            self.file = file;
            self.at = at;
        }
        self.bytes.extend_from_slice(from).unwrap();
    }

    /// Writes what is here into its file, and is empty then. Where that fails it stays, to be written by the next call.
    pub fn write_to<F: FileExt + OpenFile + Drop>(&mut self, opened: &mut Opened<F>) -> Option<()>
        ensures written { OnSome result (self.new.bytes.items ≡ []) }
        ensures left { IsNone result → self.new ≡ self.old }
    {
        opened.write(self.at, &self.bytes)?;
        self.bytes.clear();
        Some(())
    }
}
