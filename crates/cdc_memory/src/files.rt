//! The files that a source in memory holds.

ghost use Rattle.std.specs.Prelude.{◌≡◌, ◌≤◌, ◌<◌, ◌-◌, ◌^◌, length, map, min, sum, None, IfOk};
ghost use Rattle.cdc_outside.specs.Source.{behind, file_of, lowered, raised, ReadsFile};

use cdc_base::{Blob, Memory, Place};
use cdc_outside::{highest_place, lowest_place};
use std::alloc::Global;

/// Files, counted from 1, and the least and the greatest place that were asked for.
#[derive(Debug, Drop)]
pub struct MemFiles {
    files: Vec<Blob>,
    lowest: Option<Place>,
    highest: Option<Place>,
    ghost few: { length files.items < 2 ^ 32 },
    ghost fit: { sum (map length files.items) ≤ 2 ^ 54 },
}

impl MemFiles {
    /// These files; nothing was asked for.
    pub fn new(alloc: Global, files: &[Blob]) -> Result<MemFiles, Memory>
        requires few { length files.now < 2 ^ 32 }
        requires fit { sum (map length files.now) ≤ 2 ^ 54 }
        ensures files { IfOk result (λ held. held.files.items ≡ files.now) }
        ensures lowest { IfOk result (λ held. held.lowest ≡ None) }
        ensures highest { IfOk result (λ held. held.highest ≡ None) }
    {
        Ok(MemFiles {
            files: shared(alloc, files)?,
            lowest: None,
            highest: None,
        })
    }

    /// How many files there are.
    pub fn number(&self) -> u32
        ensures { result ≡ length self.now.files.items }
    {
        self.files.len() as u32
    }

    /// How many bytes a file has.
    pub fn length(&self, file: u32) -> u64
        requires first { 1 ≤ file }
        requires last { file ≤ length self.now.files.items }
        ensures { result ≡ length (file_of self.now.files.items file) }
    {
        self.files[file as usize - 1].len() as u64
    }

    /// Notes that so many bytes from a place on are asked for.
    pub fn ask(&mut self, file: u32, at: u64, count: usize)
        ensures files { self.new.files ≡ self.old.files }
        ensures lowest { self.new.lowest ≡ lowered self.old.lowest file at }
        ensures highest { self.new.highest ≡ raised self.old.highest file (behind at count) }
    {
        self.lowest = lowest_place(self.lowest, file, at);
        self.highest = highest_place(self.highest, file, at, count);
    }

    /// Puts as many bytes at the front of `into` as it takes and the file still has behind `at`.
    pub fn read(&self, file: u32, at: u64, into: &mut [u8]) -> usize
        requires first { 1 ≤ file }
        requires last { file ≤ length self.now.files.items }
        ensures read { ReadsFile (file_of self.now.files.items file) at into.new result }
        ensures full { result ≡ min (length into.old) (length (file_of self.now.files.items file) - at) }
    {
        read_bytes(self.files[file as usize - 1].bytes(), at, into)
    }

    /// The least place that was asked for.
    pub fn lowest(&self) -> Option<Place>
        ensures { result ≡ self.now.lowest }
    {
        self.lowest
    }
}

/// The same blobs, their bytes shared.
fn shared(alloc: Global, files: &[Blob]) -> Result<Vec<Blob>, Memory>
    ensures { IfOk result (λ held. held.items ≡ files.now) }
{
    let mut held = Vec::with_capacity(alloc, files.len())?;
    for file in files {
        held.push(file.share()?)?;
    }
    Ok(held)
}

/// Puts as many bytes at the front of `into` as it takes and a file of these bytes still has behind `at`.
pub fn read_bytes(bytes: &[u8], at: u64, into: &mut [u8]) -> usize
    ensures read { ReadsFile bytes.now at into.new result }
    ensures full { result ≡ min (length into.old) (length bytes.now - at) }
{
    let start = at.min(bytes.len() as u64) as usize;
    let read = into.len().min(bytes.len() - start);
    into[..read].copy_from_slice(&bytes[start..start + read]);
    read
}
