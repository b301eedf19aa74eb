//! The record of what was done to a disk.

ghost use Rattle.std.specs.Prelude.{◌≡◌, ℕ, ◌+◌, ◌-◌, ◌*◌, ◌≤◌, ◌<◌, ◌==◌, ◌&&◌, ◌||◌, nat_le, nat_lt, true, false, Bool, [], ◌∷◌, ◌++◌, length, get_or, if◌then◌else◌, IfOk};
ghost use Rattle.std.specs.Vec.{vec_capacity};
ghost use Rattle.cdc_outside.specs.declared.disk_file.DiskFile.{DiskFile};
ghost use Rattle.cdc_memory.specs.declared.mem_file.MemFile.{MemFile};

use crate::mem_file::MemFile;
use cdc_base::Memory;
use cdc_outside::DiskFile;
use std::alloc::Global;

/// A step of a disk: bytes written into a file at a place, a file cut to a length, or a sync.
#[derive(Debug, Drop)]
pub enum DiskStep {
    Write(DiskFile, u64, MemFile),
    Cut(DiskFile, u64),
    Sync,
}

impl DiskStep {
    ghost use Rattle.cdc_outside.specs.Disk.{is_written, shortest};
    ghost use Rattle.cdc_memory.specs.Replay.{Holding, after_step};

    /// Whether a byte was written since the last sync, if the step comes next.
    fn written_after(&self, file: DiskFile, place: u64, written: bool) -> bool
        ensures { (holding : Holding) → written ≡ is_written place (holding.pending file) → result ≡ is_written place ((after_step holding self.now).pending file) }
    {
        match self {
            DiskStep::Write(other, at, piece) => {
                let same = is_same_file(*other, file);
                is_now_written(written, same, covers(*at, piece.bytes(), place))
            }
            DiskStep::Cut(_, _) => written,
            DiskStep::Sync => false,
        }
    }

    /// The least length since the last sync, if the step comes next.
    fn shortest_after(&self, file: DiskFile, synced: u64, least: u64) -> u64
        ensures { (holding : Holding) → least ≡ shortest synced (holding.pending file) → result ≡ shortest synced ((after_step holding self.now).pending file) }
    {
        match self {
            DiskStep::Write(_, _, _) => least,
            DiskStep::Cut(other, to) => {
                if is_same_file(*other, file) {
                    least.min(*to)
                } else {
                    least
                }
            }
            DiskStep::Sync => synced,
        }
    }
}

ghost use Rattle.cdc_outside.specs.Disk.{same_file};

/// Whether two names are of one file.
fn is_same_file(file: DiskFile, other: DiskFile) -> bool
    ensures { result ≡ same_file file other }
{
    match (file, other) {
        (DiskFile::SlotA, DiskFile::SlotA) => true,
        (DiskFile::SlotB, DiskFile::SlotB) => true,
        (DiskFile::Log(number), DiskFile::Log(other)) => number == other,
        _ => false,
    }
}

/// Whether a byte was written before, or is by a write into its file that covers it.
fn is_now_written(before: bool, same: bool, covered: bool) -> bool
    ensures { result ≡ (before || (same && covered)) }
{
    before || (same && covered)
}

/// Whether bytes that were written at a place cover another one.
fn covers(at: u64, bytes: &[u8], place: u64) -> bool
    ensures { result ≡ (nat_le at place && nat_lt place (at + length bytes.now)) }
{
    at <= place && place - at < bytes.len() as u64
}

/// The steps so far, the oldest first, with room for so many changes more. A sync is noted only behind a change,
/// so it always has room.
#[derive(Debug, Drop)]
pub struct DiskRecord {
    steps: Vec<DiskStep>,
    /// One for each change to come, with the room of a file.
    spare: Vec<MemFile>,
    room: usize,
    size: usize,
    changed: bool,
    ghost rooms: { (place : ℕ) (other : MemFile) → place < length spare.items → (get_or spare.items place other).room ≡ room },
    ghost reserved: { length steps.items + 2 * length spare.items + (if changed then 1 else 0) ≤ vec_capacity steps },
}

impl DiskRecord {
    ghost use Rattle.cdc_outside.specs.Disk.{Image, is_written, shortest};
    ghost use Rattle.cdc_memory.specs.Replay.{at_rest, after_steps};
    ghost use Rattle.cdc_memory.specs.declared.disk_record.DiskStep.TheVariants.{Write, Cut, Sync};

    /// No steps, and room for so many changes.
    pub fn new(alloc: Global, changes: usize, room: usize) -> Result<DiskRecord, Memory>
        ensures steps { IfOk result (λ noted. noted.steps.items ≡ []) }
        ensures spare { IfOk result (λ noted. length noted.spare.items ≡ changes) }
        ensures room { IfOk result (λ noted. noted.room ≡ room) }
        ensures size { IfOk result (λ noted. noted.size ≡ changes) }
        ensures changed { IfOk result (λ noted. noted.changed ≡ false) }
    {
        let steps = Vec::with_capacity(alloc, changes.checked_mul(2).ok_or(Memory)?)?;
        let mut spare = Vec::with_capacity(alloc, changes)?;
        for _ in 0..changes {
            spare.push(MemFile::new(alloc, room)?)?;
        }
        Ok(DiskRecord {
            steps,
            spare,
            room,
            size: changes,
            changed: false,
        })
    }

    /// How many changes it had room for when it was made.
    pub fn size(&self) -> usize
        ensures { result ≡ self.now.size }
    {
        self.size
    }

    /// Whether there is no room for another change.
    pub fn is_full(&self) -> bool
        ensures { result ≡ (length self.now.spare.items == 0) }
    {
        self.spare.is_empty()
    }

    /// Notes a write.
    pub fn note_write(&mut self, file: DiskFile, at: u64, from: &[u8])
        requires room { 0 < length self.old.spare.items }
        requires fits { length from.now ≤ self.old.room }
        ensures steps { (piece : MemFile) × (piece.bytes.items ≡ from.now) × (self.new.steps.items ≡ self.old.steps.items ++ Write file at piece ∷ []) }
        ensures spare { length self.new.spare.items + 1 ≡ length self.old.spare.items }
        ensures room { self.new.room ≡ self.old.room }
        ensures size { self.new.size ≡ self.old.size }
        ensures changed { self.new.changed ≡ true }
    {
        if let Some(mut piece) = self.spare.pop() {
            piece.set(from);
            self.steps.push_reserved(DiskStep::Write(file, at, piece));
            self.changed = true;
        }
    }

    /// Notes a cut.
    pub fn note_cut(&mut self, file: DiskFile, to: u64)
        requires { 0 < length self.old.spare.items }
        ensures steps { self.new.steps.items ≡ self.old.steps.items ++ Cut file to ∷ [] }
        ensures spare { length self.new.spare.items + 1 ≡ length self.old.spare.items }
        ensures room { self.new.room ≡ self.old.room }
        ensures size { self.new.size ≡ self.old.size }
        ensures changed { self.new.changed ≡ true }
    {
        if let Some(_piece) = self.spare.pop() {
            self.steps.push_reserved(DiskStep::Cut(file, to));
            self.changed = true;
        }
    }

    /// Notes a sync, where something was changed since the last one.
    pub fn note_sync(&mut self)
        ensures steps { self.new.steps.items ≡ (if self.old.changed then self.old.steps.items ++ Sync ∷ [] else self.old.steps.items) }
        ensures spare { self.new.spare.items ≡ self.old.spare.items }
        ensures room { self.new.room ≡ self.old.room }
        ensures size { self.new.size ≡ self.old.size }
        ensures changed { self.new.changed ≡ false }
    {
        if self.changed {
            self.steps.push_reserved(DiskStep::Sync);
            self.changed = false;
        }
    }

    /// Whether a byte of a file was written since the last sync.
    pub fn is_written(&self, file: DiskFile, place: u64) -> bool
        ensures { (image : Image) → result ≡ is_written place ((after_steps (at_rest image) self.now.steps.items).pending file) }
    {
        let mut written = false;
        for step in &self.steps {
            written = step.written_after(file, place, written);
        }
        written
    }

    /// The least length that a file had since the last sync, at which it had this length.
    pub fn shortest(&self, file: DiskFile, synced: u64) -> u64
        ensures { (image : Image) → result ≡ shortest synced ((after_steps (at_rest image) self.now.steps.items).pending file) }
    {
        let mut least = synced;
        for step in &self.steps {
            least = step.shortest_after(file, synced, least);
        }
        least
    }
}
