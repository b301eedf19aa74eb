//! The cell: its opening, its reads and its stores.

ghost use Rattle.std.specs.Prelude.{◌≡◌, ℕ, ◌+◌, ◌≤◌, ◌<◌, ◌⊎◌, ◌++◌, [], ◌∷◌, false, Bool, IsTrue, List, length, take, drop, Some, None, IfOk, OnOk, OnErr, is_err, MatchResult};
ghost use Rattle.cdc_outside.specs.Count.{Rose, RisesOnErr};
ghost use Rattle.cdc_outside.specs.Disk.{Image, IsDurable, LeavesOnly};
ghost use Rattle.cdc_cell.specs.Reading.{IsLeftAlone};
ghost use Rattle.cdc_cell.specs.Record.{bad_slot, kept_record, IsOldOrNew, HasNewRecord, IsSlot};
ghost use Rattle.cdc_cell.specs.Slot.{head_of};
ghost use Rattle.std.specs.Prelude.{if◌then◌else◌};
ghost use Rattle.cdc_outside.specs.declared.disk_file.DiskFile.TheVariants.{SlotA, SlotB};
ghost use Rattle.cdc_cell.specs.Cell.{decided, decided_by, kept_head, opened_from};

use crate::fault::{CellFault, DiskFault};
use crate::reading::read_full;
use crate::slot::{HEAD, SlotHead, read_head, read_length};
use crate::stages::write_record;
use cdc_outside::{Disk, DiskFile};

/// What is known of the record: where it is, its number, and its payload's length.
#[derive(Clone, Copy, Debug)]
pub struct Kept {
    slot: DiskFile,
    number: u64,
    length: u64,
}

/// One record over two slots of a disk. After a failed store it isn't used again: the disk is opened anew.
#[derive(Debug, Drop)]
pub struct Cell {
    kept: Option<Kept>,
    failed: bool,
}

impl Cell {
    ghost use Rattle.cdc_cell.specs.Cell.{cell_number_of, has_failed, slot_of, length_of};

    /// A cell that knows this of its record.
    fn with(kept: Option<Kept>) -> Cell
        ensures { result ≡ record { kept = kept; failed = false } }
    {
        Cell {
            kept,
            failed: false,
        }
    }

    /// Finds the record. It changes nothing.
    pub fn open<D: Disk>(disk: &mut D) -> Result<Cell, CellFault>
        ensures decided { IsTrue D.tells → (result ≡ Err CellFault.DiskFault) ⊎ (result ≡ decided (D.seen disk.old)) }
        ensures alone { IsTrue D.tells → IsLeftAlone D.seen D.synced D.pending D.may_leave D.moment D.left_since disk.old disk.new }
        ensures works { IfOk result (λ cell. has_failed cell ≡ false) }
        ensures later { D.faults disk.old ≤ D.faults disk.new }
        ensures failed { result ≡ Err CellFault.DiskFault → Rose (D.faults disk.old) (D.faults disk.new) }
    {
        let first = read_head(disk, DiskFile::SlotA)?;
        let second = read_head(disk, DiskFile::SlotB)?;
        decide(first, second)
    }

    /// The payload's length, where a record is kept.
    pub fn length(&self) -> Option<u64>
        ensures { result ≡ length_of self.now }
    {
        match self.kept {
            Some(kept) => Some(kept.length),
            None => None,
        }
    }

    /// The record's number, and 0 where none is kept.
    pub fn number(&self) -> u64
        ensures { result ≡ cell_number_of self.now }
    {
        match self.kept {
            Some(kept) => kept.number,
            None => 0,
        }
    }

    /// The record's slot, where one is kept.
    pub fn slot(&self) -> Option<DiskFile>
        ensures { result ≡ slot_of self.now }
    {
        match self.kept {
            Some(kept) => Some(kept.slot),
            None => None,
        }
    }
}

impl Cell {
    ghost use Rattle.cdc_cell.specs.Cell.{cell_kept_of, has_failed, cell_number_of, length_of, slot_of, target_of, Knows, payload_in};

    /// Reads of the payload, from its byte `at` on. On a disk that doesn't tell its content, bytes that aren't
    /// there any more are left as they were.
    pub fn load<D: Disk>(&self, disk: &mut D, at: u64, into: &mut [u8]) -> Result<(), DiskFault>
        requires { (size : ℕ) × (length_of self.now ≡ Some size) × (at + length into.old ≤ size) }
        ensures loaded { IsTrue D.tells → Knows self.now (D.seen disk.old) → OnOk result (into.new ≡ take (length into.old) (drop at (payload_in (kept_record (D.seen disk.old))))) }
        ensures alone { IsTrue D.tells → IsLeftAlone D.seen D.synced D.pending D.may_leave D.moment D.left_since disk.old disk.new }
        ensures faults { RisesOnErr (D.faults disk.old) (D.faults disk.new) result }
    {
        match self.kept {
            Some(kept) => load_payload(disk, kept.slot, at, into),
            None => Ok(()),
        }
    }

    /// Writes the next record into the slot that doesn't hold this one. After a failed store this cell isn't used
    /// again: the disk is opened anew.
    pub fn store<D: Disk>(
        &mut self,
        disk: &mut D,
        number: u64,
        payload: &[u8],
    ) -> Result<(), DiskFault>
        requires above { cell_number_of self.old < number }
        requires works { has_failed self.old ≡ false }

        // Where nothing was pending, a crash at any moment leaves the old record or the new one.
        ensures any_moment { IsTrue D.tells → IsDurable (D.seen disk.old) (D.synced disk.old) (D.pending disk.old)
            → Knows self.old (D.seen disk.old)
            → LeavesOnly D.moment D.left_since disk.old disk.new (IsOldOrNew (target_of self.old) number payload.now (D.seen disk.old)) }
        ensures new { IsTrue D.tells → Knows self.old (D.seen disk.old)
            → OnOk result (HasNewRecord (target_of self.old) number payload.now (D.seen disk.old) (D.seen disk.new)) }
        ensures durable { IsTrue D.tells → OnOk result (IsDurable (D.seen disk.new) (D.synced disk.new) (D.pending disk.new)) }

        ensures knows { IsTrue D.tells → Knows self.old (D.seen disk.old) → OnOk result (Knows self.new (D.seen disk.new)) }
        ensures kept { OnOk result (cell_kept_of self.new ≡ Some record { slot = target_of self.old; number = number; length = length payload.now }) }
        ensures old_kept { OnErr result (cell_kept_of self.new ≡ cell_kept_of self.old) }
        ensures failed { has_failed self.new ≡ is_err result }
        ensures faults { RisesOnErr (D.faults disk.old) (D.faults disk.new) result }
    {
        let slot = self.target();
        self.failed = true;
        write_record(disk, slot, number, payload)?;
        self.failed = false;
        self.kept = Some(Kept {
            slot,
            number,
            length: payload.len() as u64,
        });
        Ok(())
    }

    /// The slot that the next store writes.
    fn target(&self) -> DiskFile
        ensures target { result ≡ target_of self.now }
        ensures slot { IsSlot result }
    {
        match self.kept {
            Some(
                Kept {
                    slot: DiskFile::SlotA,
                    ..
                },
            ) => DiskFile::SlotB,
            _ => DiskFile::SlotA,
        }
    }
}

/// Reads of a slot's payload, where the file still has these bytes.
fn load_payload<D: Disk>(
    disk: &mut D,
    slot: DiskFile,
    at: u64,
    into: &mut [u8],
) -> Result<(), DiskFault>
    ensures loaded { IsTrue D.tells → 17 + at + length into.old ≤ length (D.seen disk.old slot)
        → OnOk result (into.new ≡ take (length into.old) (drop (17 + at) (D.seen disk.old slot))) }
    ensures alone { IsTrue D.tells → IsLeftAlone D.seen D.synced D.pending D.may_leave D.moment D.left_since disk.old disk.new }
    ensures faults { RisesOnErr (D.faults disk.old) (D.faults disk.new) result }
{
    let told = read_length(disk, slot)?;
    let payload = told.saturating_sub(HEAD as u64);
    if told < HEAD as u64 || at > payload || into.len() as u64 > payload - at {
        return Ok(());
    }
    let _read = read_full(disk, slot, HEAD as u64 + at, into)?;
    Ok(())
}

/// The cell over slots with these heads.
fn decide(first: Option<SlotHead>, second: Option<SlotHead>) -> Result<Cell, CellFault>
    ensures decided { result ≡ decided_by first second }
    ensures works { IfOk result (λ cell. cell.failed ≡ false) }
{
    match (first, second) {
        (None, None) => Ok(Cell::with(None)),
        (Some(one), None) => whole(DiskFile::SlotA, one),
        (None, Some(two)) => whole(DiskFile::SlotB, two),
        (Some(one), Some(two)) => decide_both(one, two),
    }
}

/// The cell over two open slots.
fn decide_both(one: SlotHead, two: SlotHead) -> Result<Cell, CellFault>
    ensures decided { result ≡ decided_by (Some one) (Some two) }
    ensures works { IfOk result (λ cell. cell.failed ≡ false) }
{
    if one.overruns {
        return Err(CellFault::BadCell(DiskFile::SlotA));
    }
    if two.overruns || one.number == two.number {
        return Err(CellFault::BadCell(DiskFile::SlotB));
    }
    if two.number < one.number {
        whole(DiskFile::SlotA, one)
    } else {
        whole(DiskFile::SlotB, two)
    }
}

/// The cell over one open slot, whose length has to be there.
fn whole(slot: DiskFile, head: SlotHead) -> Result<Cell, CellFault>
    ensures opened { result ≡ (if head.overruns then Err (CellFault.BadCell slot) else opened_from None (Some (kept_head slot head))) }
    ensures works { IfOk result (λ cell. cell.failed ≡ false) }
{
    if head.overruns {
        return Err(CellFault::BadCell(slot));
    }
    Ok(Cell::with(Some(Kept {
        slot,
        number: head.number,
        length: head.length,
    })))
}
