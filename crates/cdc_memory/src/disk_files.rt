//! The files of a disk in memory.

ghost use Rattle.std.specs.Prelude.{◌≡◌, ℕ, ◌+◌, ◌-◌, ◌≤◌, ◌<◌, ◌&&◌, not, true, nat_lt, [], length, take, get_or, ◌++◌, ◌∷◌, OnOk, IfOk, IfSome, MatchOption};
ghost use Rattle.cdc_outside.specs.declared.disk_file.DiskFile.{DiskFile};
ghost use Rattle.cdc_outside.specs.declared.disk_file.DiskFile.TheVariants.{Log};
ghost use Rattle.cdc_outside.specs.Disk.{same_file, with_file, overwritten};
ghost use Rattle.cdc_memory.specs.DiskFiles.{place_of, content_of};
ghost use Rattle.cdc_memory.specs.declared.mem_file.MemFile.{MemFile};

use crate::mem_file::MemFile;
use cdc_base::Memory;
use cdc_outside::DiskFile;
use std::alloc::Global;

/// Files of one room: the two slots, and the logs by their number, of which the first counts as none.
#[derive(Debug, Drop)]
pub struct DiskFiles {
    files: Vec<MemFile>,
    room: usize,
    ghost rooms: { (place : ℕ) (other : MemFile) → place < length files.items → (get_or files.items place other).room ≡ room },
}

impl DiskFiles {
    /// So many empty files.
    pub fn new(alloc: Global, number: usize, room: usize) -> Result<DiskFiles, Memory>
        ensures content { IfOk result (λ files. (file : DiskFile) → content_of files.files.items file ≡ []) }
        ensures number { IfOk result (λ files. length files.files.items ≡ number) }
        ensures room { IfOk result (λ files. files.room ≡ room) }
    {
        let mut files = Vec::with_capacity(alloc, number)?;
        for _ in 0..number {
            files.push(MemFile::new(alloc, room)?)?;
        }
        Ok(DiskFiles { files, room })
    }

    /// Where a file stands, if it is there.
    pub fn place(&self, file: DiskFile) -> Option<usize>
        ensures { MatchOption result (length self.now.files.items ≤ place_of file) (λ place. (place ≡ place_of file) × (place < length self.now.files.items)) }
    {
        let place = match file {
            DiskFile::SlotA => 0,
            DiskFile::SlotB => 1,
            DiskFile::Log(number) => number.checked_add(2)?,
        };
        if place < self.files.len() as u64 {
            Some(place as usize)
        } else {
            None
        }
    }

    /// How many files there are.
    pub fn number(&self) -> usize
        ensures { result ≡ length self.now.files.items }
    {
        self.files.len()
    }

    /// How many bytes each may have.
    pub fn room(&self) -> usize
        ensures { result ≡ self.now.room }
    {
        self.room
    }

    /// Whether a file may be written: a slot, or a log that is there, from the first one on.
    pub fn has(&self, file: DiskFile) -> bool
        ensures has { result ≡ (nat_lt (place_of file) (length self.now.files.items) && not (same_file (Log 0) file)) }
        ensures there { result ≡ true → place_of file < length self.now.files.items }
    {
        match file {
            DiskFile::Log(0) => false,
            _ => self.place(file).is_some(),
        }
    }

    /// How much room is left behind a place within a file.
    pub fn room_behind(&self, file: DiskFile, at: u64) -> u64
        requires { at ≤ length (content_of self.now.files.items file) }
        ensures left { result ≡ self.now.room - at }
        ensures within { at ≤ self.now.room }
    {
        // What is there is within the room, and so is the place.
        let _bytes = self.bytes(file);
        self.room as u64 - at
    }

    /// All bytes of a file, and none of one that isn't there.
    pub fn bytes(&self, file: DiskFile) -> &[u8]
        ensures bytes { result.now ≡ content_of self.now.files.items file }
        ensures within { length result.now ≤ self.now.room }
    {
        match self.place(file) {
            Some(place) => self.files[place].bytes(),
            None => &[],
        }
    }

    /// Writes into a file that is there, within its room.
    pub fn write(&mut self, file: DiskFile, at: usize, from: &[u8])
        requires there { place_of file < length self.old.files.items }
        requires place { at ≤ length (content_of self.old.files.items file) }
        requires fits { at + length from.now ≤ self.old.room }
        ensures content { content_of self.new.files.items ≡ with_file file (overwritten at from.now (content_of self.old.files.items file)) (content_of self.old.files.items) }
        ensures number { length self.new.files.items ≡ length self.old.files.items }
        ensures room { self.new.room ≡ self.old.room }
    {
        if let Some(place) = self.place(file) {
            self.files[place].write(at, from);
        }
    }

    /// Cuts a file, where it is there.
    pub fn cut(&mut self, file: DiskFile, to: usize)
        ensures content { content_of self.new.files.items ≡ with_file file (take to (content_of self.old.files.items file)) (content_of self.old.files.items) }
        ensures number { length self.new.files.items ≡ length self.old.files.items }
        ensures room { self.new.room ≡ self.old.room }
    {
        if let Some(place) = self.place(file) {
            self.files[place].cut(to);
        }
    }

    /// Adds a file behind the others.
    pub fn push(&mut self, file: MemFile) -> Result<(), Memory>
        requires { file.room ≡ self.old.room }
        ensures files { OnOk result (self.new.files.items ≡ self.old.files.items ++ file ∷ []) }
        ensures room { self.new.room ≡ self.old.room }
    {
        self.files.push(file)?;
        Ok(())
    }

    /// The same files once more.
    pub fn copy(&self, alloc: Global) -> Result<DiskFiles, Memory>
        ensures content { IfOk result (λ files. content_of files.files.items ≡ content_of self.now.files.items) }
        ensures number { IfOk result (λ files. length files.files.items ≡ length self.now.files.items) }
        ensures room { IfOk result (λ files. files.room ≡ self.now.room) }
    {
        let mut files = DiskFiles::new(alloc, self.files.len(), self.room)?;
        files.copy_from(self);
        Ok(files)
    }

    /// Puts the bytes of other files in the place of those that are there.
    pub fn copy_from(&mut self, other: &DiskFiles)
        requires number { length self.old.files.items ≡ length other.now.files.items }
        requires room { other.now.room ≤ self.old.room }
        ensures content { content_of self.new.files.items ≡ content_of other.now.files.items }
        ensures number { length self.new.files.items ≡ length self.old.files.items }
        ensures room { self.new.room ≡ self.old.room }
    {
        for place in 0..self.files.len() {
            self.files[place].set(other.files[place].bytes());
        }
    }
}

/// The file that stands at a place.
pub fn file_at(place: usize) -> DiskFile
    ensures { place_of result ≡ place }
{
    match place {
        0 => DiskFile::SlotA,
        1 => DiskFile::SlotB,
        _ => DiskFile::Log(place as u64 - 2),
    }
}
