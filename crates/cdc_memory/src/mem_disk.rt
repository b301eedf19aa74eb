//! A disk in memory, which a crash may tear.

ghost use Rattle.std.specs.Prelude.{◌≡◌, ℕ, ◌+◌, ◌-◌, ◌⊎◌, min, ◌≤◌, ◌<◌, ◌++◌, [], ◌∷◌, false, true, length, take, Some, None, IfOk, OnOk, OnErr};
ghost use Rattle.cdc_outside.specs.declared.disk_file.DiskFile.{DiskFile};
ghost use Rattle.cdc_outside.specs.Count.{RisesOnErr};
ghost use Rattle.cdc_outside.specs.Disk.{Image, Wrote, CutTo, IsDurable, Begins, Elapses, with_file, overwritten};
ghost use Rattle.cdc_outside.specs.Source.{ReadsFile};
ghost use Rattle.cdc_memory.specs.Calls.{at_first, Counts};
ghost use Rattle.cdc_memory.specs.DiskFiles.{place_of, content_of};
ghost use Rattle.cdc_memory.specs.declared.mem_file.MemFile.{MemFile};
ghost use Rattle.cdc_memory.specs.declared.disk_record.DiskStep.TheVariants.{Write, Cut, Sync};
ghost use Rattle.cdc_memory.specs.Replay.{holding_of};

use crate::calls::CallPlan;
use crate::crash::left_by_crash;
use crate::disk_files::{DiskFiles, file_at};
use crate::disk_record::DiskRecord;
use crate::files::read_bytes;
use cdc_base::Memory;
use cdc_outside::{Disk, DiskFile, Failed};
use std::alloc::Global;

/// Two slots and numbered logs, each with a room, and a record of what was done to them, from which each outcome
/// of a crash can be made.
#[derive(Debug, Drop)]
pub struct MemDisk {
    /// As it was made.
    start: DiskFiles,
    /// As at the last sync.
    synced: DiskFiles,
    files: DiskFiles,
    history: DiskRecord,
    /// The call from which on every one fails.
    stop: Option<u64>,
    calls: CallPlan,
    ghost same_room: { history.room ≡ files.room },
    ghost synced_room: { files.room ≡ synced.room },
    ghost same_number: { length synced.files.items ≡ length files.files.items },
    ghost as_seen: { (file : DiskFile) → content_of files.files.items file ≡ (holding_of (content_of start.files.items) history.steps.items).seen file },
    ghost as_synced: { (file : DiskFile) → content_of synced.files.items file ≡ (holding_of (content_of start.files.items) history.steps.items).last_sync file },
    ghost still: { history.changed ≡ false → (file : DiskFile) → (holding_of (content_of start.files.items) history.steps.items).last_sync file ≡ (holding_of (content_of start.files.items) history.steps.items).seen file },
    ghost nothing: { history.changed ≡ false → (file : DiskFile) → length ((holding_of (content_of start.files.items) history.steps.items).pending file) ≡ 0 },
}

impl MemDisk {
    ghost use Rattle.cdc_memory.specs.MemDisk.{start_of, steps_of, held_by, disk_calls_of, stop_of, file_room_of, changes_left, places_of, is_stopped, bars_change, bars_write};
    ghost use Rattle.cdc_memory.specs.CrashPick.{picked};
    ghost use Rattle.cdc_memory.specs.Replay.{LeavesNow};

    /// The slots and the logs from 1 to `logs`, all empty, each with room for `room` bytes, and a record of at
    /// most `calls` changes. The k-th call (from 1, of any kind) fails for each k of `fails`. A write past the
    /// room, to log 0 or to a log that isn't there fails too, and so does a write or cut past the record's room.
    pub fn new(
        alloc: Global,
        logs: u64,
        room: usize,
        calls: usize,
        fails: &[u64],
    ) -> Result<MemDisk, Memory>
        ensures start { IfOk result (λ disk. (file : DiskFile) → start_of disk file ≡ []) }
        ensures steps { IfOk result (λ disk. steps_of disk ≡ []) }
        ensures left { IfOk result (λ disk. changes_left disk ≡ calls) }
        ensures room { IfOk result (λ disk. file_room_of disk ≡ room) }
        ensures places { IfOk result (λ disk. places_of disk ≡ logs + 3) }
        ensures calls { IfOk result (λ disk. disk_calls_of disk ≡ at_first fails.now) }
        ensures stop { IfOk result (λ disk. stop_of disk ≡ None) }
    {
        let places = logs.checked_add(3).ok_or(Memory)? as usize;
        Ok(MemDisk {
            start: DiskFiles::new(alloc, 0, 0)?,
            synced: DiskFiles::new(alloc, places, room)?,
            files: DiskFiles::new(alloc, places, room)?,
            history: DiskRecord::new(alloc, calls, room)?,
            stop: None,
            calls: CallPlan::new(alloc, fails)?,
        })
    }

    /// From this call on every call fails.
    pub fn stop_at(&mut self, call: u64)
        ensures stop { stop_of self.new ≡ Some call }
        ensures start { start_of self.new ≡ start_of self.old }
        ensures steps { steps_of self.new ≡ steps_of self.old }
        ensures left { changes_left self.new ≡ changes_left self.old }
        ensures room { file_room_of self.new ≡ file_room_of self.old }
        ensures places { places_of self.new ≡ places_of self.old }
        ensures calls { disk_calls_of self.new ≡ disk_calls_of self.old }
    {
        self.stop = Some(call);
    }

    /// How many calls failed.
    pub fn fault_count(&self) -> u64
        ensures { result ≡ (disk_calls_of self.now).faults }
    {
        self.calls.faults()
    }

    /// One outcome of a crash now, by the disk model: 0 what the last sync has, cut to the least length since; 1 what
    /// is seen; 2 what is seen, with `a5` for each byte that was written since or that the file got since; 3 the
    /// same with `01`. Other picks count modulo 4. The disk that it gives has the same room and record size, no
    /// failing call and no stop.
    pub fn after_crash(&self, alloc: Global, pick: u8) -> Result<MemDisk, Memory>
        ensures picked { IfOk result (λ disk. start_of disk ≡ picked pick (held_by self.now)) }
        ensures image { IfOk result (λ disk. LeavesNow (held_by self.now) (start_of disk)) }
        ensures steps { IfOk result (λ disk. steps_of disk ≡ []) }
        ensures room { IfOk result (λ disk. file_room_of disk ≡ file_room_of self.now) }
        ensures places { IfOk result (λ disk. places_of disk ≡ places_of self.now) }
        ensures left { IfOk result (λ disk. changes_left disk ≡ self.now.history.size) }
        ensures calls { IfOk result (λ disk. disk_calls_of disk ≡ at_first []) }
        ensures stop { IfOk result (λ disk. stop_of disk ≡ None) }
    {
        let start = self.left_by_crash(alloc, pick)?;
        Ok(MemDisk {
            synced: start.copy(alloc)?,
            files: start.copy(alloc)?,
            start,
            history: DiskRecord::new(alloc, self.history.size(), self.files.room())?,
            stop: None,
            calls: CallPlan::new(alloc, &[])?,
        })
    }

    /// The files of one outcome of a crash.
    fn left_by_crash(&self, alloc: Global, pick: u8) -> Result<DiskFiles, Memory>
        ensures content { IfOk result (λ left. (file : DiskFile) → content_of left.files.items file ≡ picked pick (held_by self.now) file) }
        ensures number { IfOk result (λ left. length left.files.items ≡ length self.now.files.files.items) }
        ensures room { IfOk result (λ left. left.room ≡ self.now.files.room) }
    {
        let room = self.files.room();
        let mut left = DiskFiles::new(alloc, 0, room)?;
        for place in 0..self.files.number() {
            let file = file_at(place);
            let bytes = left_by_crash(
                alloc,
                &self.history,
                file,
                pick,
                self.synced.bytes(file),
                self.files.bytes(file),
                room,
            )?;
            left.push(bytes)?;
        }
        Ok(left)
    }

    /// Whether the stop bars the next call.
    fn is_stopped(&self) -> bool
        ensures { result ≡ is_stopped (stop_of self.now) (disk_calls_of self.now) }
    {
        match self.stop {
            Some(call) => self.calls.reaches(call),
            None => false,
        }
    }

    /// Whether a change is barred.
    fn bars_change(&self) -> bool
        ensures barred { result ≡ bars_change self.now }
        ensures free { result ≡ false → 0 < length self.now.history.spare.items }
    {
        self.is_stopped() || self.history.is_full()
    }

    /// Whether a write is barred.
    fn bars_write(&self, file: DiskFile, at: u64, count: usize) -> bool
        requires { at ≤ length (content_of self.now.files.files.items file) }
        ensures barred { result ≡ bars_write self.now file at count }
        ensures free { result ≡ false → 0 < length self.now.history.spare.items }
        ensures there { result ≡ false → place_of file < length self.now.files.files.items }
        ensures fits { result ≡ false → at + count ≤ self.now.files.room }
    {
        self.bars_change()
            || !self.files.has(file)
            || self.files.room_behind(file, at) < count as u64
    }
}

impl Disk for MemDisk {
    ghost use Rattle.std.specs.Prelude.{refl};
    ghost use Rattle.cdc_memory.specs.Replay.{LeavesNow, LeavesSince};
    ghost use Rattle.cdc_memory.specs.MemDisk.{start_of, steps_of, held_by, disk_calls_of, stop_of, bars_change, bars_write, changes_left, is_stopped, IsSameDisk, HasSameLimits, GoesOn};
    ghost use Rattle.cdc_memory.specs.Moments.{counts_at_end, only_at_end, stays_from_rest};
    ghost use Rattle.cdc_memory.specs.Replay.{at_rest};

    ghost tells = { true };

    ghost seen = { λ disk. (held_by disk).seen };

    ghost synced = { λ disk. (held_by disk).last_sync };

    ghost pending = { λ disk. (held_by disk).pending };

    ghost may_leave = { λ disk. LeavesNow (held_by disk) };

    ghost moment = { λ disk. length (steps_of disk) };

    ghost left_since = { λ disk. LeavesSince (at_rest (start_of disk)) (steps_of disk) };

    ghost faults = { λ disk. (disk_calls_of disk).faults };

    ghost image_is = { λ disk image told may. may };

    ghost seen_may_stay = { λ disk told. stays_from_rest (start_of disk) (steps_of disk) };

    ghost counts_now = { λ disk t image told le may. counts_at_end (at_rest (start_of disk)) (steps_of disk) t image le may };

    ghost only_now = { λ disk image told left. only_at_end (at_rest (start_of disk)) (steps_of disk) image left };

    fn length(&mut self, file: DiskFile) -> Result<u64, Failed>
        ensures exact { IfOk result (λ bytes. bytes ≡ length ((held_by self.old).seen file)) }
        ensures same { IsSameDisk self.old self.new }
        ensures time { GoesOn self.old self.new }
        ensures faults { RisesOnErr (disk_calls_of self.old).faults (disk_calls_of self.new).faults result }
        ensures call { Counts (is_stopped (stop_of self.old) (disk_calls_of self.old)) (disk_calls_of self.old) (disk_calls_of self.new) result }
    {
        let barred = self.is_stopped();
        self.calls.count(barred)?;
        Ok(self.files.bytes(file).len() as u64)
    }

    fn read_at(&mut self, file: DiskFile, at: u64, into: &mut [u8]) -> Result<usize, Failed>
        ensures read { IfOk result (λ read. ReadsFile ((held_by self.old).seen file) at into.new read) }
        ensures full { IfOk result (λ read. read ≡ min (length into.old) (length ((held_by self.old).seen file) - at)) }
        ensures same { IsSameDisk self.old self.new }
        ensures time { GoesOn self.old self.new }
        ensures faults { RisesOnErr (disk_calls_of self.old).faults (disk_calls_of self.new).faults result }
        ensures call { Counts (is_stopped (stop_of self.old) (disk_calls_of self.old)) (disk_calls_of self.old) (disk_calls_of self.new) result }
    {
        let barred = self.is_stopped();
        self.calls.count(barred)?;
        Ok(read_bytes(self.files.bytes(file), at, into))
    }

    /// A write that fails writes nothing.
    fn write_at(&mut self, file: DiskFile, at: u64, from: &[u8]) -> Result<(), Failed>
        requires { at ≤ length ((held_by self.old).seen file) }
        ensures written { OnOk result ((piece : MemFile) × (piece.bytes.items ≡ from.now) × (steps_of self.new ≡ steps_of self.old ++ Write file at piece ∷ [])) }
        ensures seen { OnOk result ((held_by self.new).seen ≡ with_file file (overwritten at from.now ((held_by self.old).seen file)) (held_by self.old).seen) }
        ensures synced { (held_by self.new).last_sync ≡ (held_by self.old).last_sync }
        ensures pending { Begins file (Wrote at (length from.now)) (held_by self.old).pending (held_by self.new).pending }
        ensures time { GoesOn self.old self.new }
        ensures left { OnOk result (changes_left self.new + 1 ≡ changes_left self.old) }
        ensures limits { HasSameLimits self.old self.new }
        ensures kept { OnErr result (IsSameDisk self.old self.new) }
        ensures faults { RisesOnErr (disk_calls_of self.old).faults (disk_calls_of self.new).faults result }
        ensures call { Counts (bars_write self.old file at (length from.now)) (disk_calls_of self.old) (disk_calls_of self.new) result }
    {
        let barred = self.bars_write(file, at, from.len());
        self.calls.count(barred)?;
        self.history.note_write(file, at, from);
        self.files.write(file, at as usize, from);
        Ok(())
    }

    /// A cut that fails cuts nothing.
    fn cut(&mut self, file: DiskFile, to: u64) -> Result<(), Failed>
        requires { to ≤ length ((held_by self.old).seen file) }
        ensures cut { OnOk result (steps_of self.new ≡ steps_of self.old ++ Cut file to ∷ []) }
        ensures seen { OnOk result ((held_by self.new).seen ≡ with_file file (take to ((held_by self.old).seen file)) (held_by self.old).seen) }
        ensures synced { (held_by self.new).last_sync ≡ (held_by self.old).last_sync }
        ensures pending { Begins file (CutTo to) (held_by self.old).pending (held_by self.new).pending }
        ensures time { GoesOn self.old self.new }
        ensures left { OnOk result (changes_left self.new + 1 ≡ changes_left self.old) }
        ensures limits { HasSameLimits self.old self.new }
        ensures kept { OnErr result (IsSameDisk self.old self.new) }
        ensures faults { RisesOnErr (disk_calls_of self.old).faults (disk_calls_of self.new).faults result }
        ensures call { Counts (bars_change self.old) (disk_calls_of self.old) (disk_calls_of self.new) result }
    {
        let barred = self.bars_change();
        self.calls.count(barred)?;
        self.history.note_cut(file, to);
        self.files.cut(file, to as usize);
        Ok(())
    }

    /// A sync that fails makes nothing durable.
    fn sync(&mut self) -> Result<(), Failed>
        ensures synced { OnOk result ((steps_of self.new ≡ steps_of self.old ++ Sync ∷ []) ⊎ (steps_of self.new ≡ steps_of self.old)) }
        ensures durable { OnOk result (IsDurable (held_by self.new).seen (held_by self.new).last_sync (held_by self.new).pending) }
        ensures seen { (held_by self.new).seen ≡ (held_by self.old).seen }
        ensures crash { (image : Image) → LeavesNow (held_by self.new) image → LeavesNow (held_by self.old) image }
        ensures time { GoesOn self.old self.new }
        ensures left { changes_left self.new ≡ changes_left self.old }
        ensures limits { HasSameLimits self.old self.new }
        ensures kept { OnErr result (IsSameDisk self.old self.new) }
        ensures faults { RisesOnErr (disk_calls_of self.old).faults (disk_calls_of self.new).faults result }
        ensures call { Counts (is_stopped (stop_of self.old) (disk_calls_of self.old)) (disk_calls_of self.old) (disk_calls_of self.new) result }
    {
        let barred = self.is_stopped();
        self.calls.count(barred)?;
        self.history.note_sync();
        self.synced.copy_from(&self.files);
        Ok(())
    }
}
