//! The three steps of a store into one slot.

ghost use Rattle.std.specs.Prelude.{◌≡◌, ℕ, ◌+◌, ◌≤◌, ◌<◌, ◌^◌, ◌⊎◌, ◌++◌, [], ◌∷◌, true, false, IsTrue, length, slice_index, IfOk, OnOk};
ghost use Rattle.cdc_outside.specs.Count.{RisesOnErr};
ghost use Rattle.cdc_outside.specs.Disk.{IsDurable, LeavesOnly, OneWrite, with_file, overwritten};
ghost use Rattle.cdc_cell.specs.Reading.{IsLeftAlone};
ghost use Rattle.cdc_cell.specs.Record.{IsClosing, IsShut, IsSlot, IsReady, IsOldOrNew, HasNewRecord};
ghost use Rattle.cdc_cell.specs.Slot.{slot_head};

use crate::slot::OPEN;
use cdc_outside::{Disk, DiskFile, Failed, write_pair_through, write_through};

/// A gate of a slot that doesn't count.
const CLOSED: u8 = 0;

/// Closes the gate where it stands open or was never written. Any other byte is a closed gate, and isn't written:
/// a write may be torn into an open one, before a payload that an earlier stop tore.
pub fn close<D: Disk>(disk: &mut D, slot: DiskFile) -> Result<(), Failed>
    ensures any_moment { IsTrue D.tells → IsDurable (D.seen disk.old) (D.synced disk.old) (D.pending disk.old)
        → LeavesOnly D.moment D.left_since disk.old disk.new (IsClosing slot (D.seen disk.old)) }
    ensures shut { IsTrue D.tells → OnOk result (IsShut slot (D.seen disk.old) (D.seen disk.new)) }
    ensures durable { IsTrue D.tells → IsDurable (D.seen disk.old) (D.synced disk.old) (D.pending disk.old)
        → OnOk result (IsDurable (D.seen disk.new) (D.synced disk.new) (D.pending disk.new)) }
    ensures faults { RisesOnErr (D.faults disk.old) (D.faults disk.new) result }
{
    if stands_shut(disk, slot)? {
        return Ok(());
    }
    write_through(disk, slot, 0, &[CLOSED])
}

/// Whether a slot has a gate that stands closed.
fn stands_shut<D: Disk>(disk: &mut D, slot: DiskFile) -> Result<bool, Failed>
    ensures shut { IsTrue D.tells → IfOk result (λ stands. stands ≡ true
        → (1 ≤ length (D.seen disk.old slot)) × (slice_index (D.seen disk.old slot) 0 ≡ 1 → ⊥)) }
    ensures ajar { IsTrue D.tells → IfOk result (λ stands. stands ≡ false
        → (length (D.seen disk.old slot) ≡ 0) ⊎ (slice_index (D.seen disk.old slot) 0 ≡ 1)) }
    ensures alone { IsTrue D.tells → IsLeftAlone D.seen D.synced D.pending D.may_leave D.moment D.left_since disk.old disk.new }
    ensures faults { RisesOnErr (D.faults disk.old) (D.faults disk.new) result }
{
    let mut gate = [OPEN];
    let read = disk.read_at(slot, 0, &mut gate)?;
    Ok(read > 0 && gate[0] != OPEN)
}

/// Fills a slot behind its closed gate.
pub fn fill<D: Disk>(
    disk: &mut D,
    slot: DiskFile,
    number: u64,
    payload: &[u8],
) -> Result<(), Failed>
    requires { IsTrue D.tells → 1 ≤ length (D.seen disk.old slot) }
    ensures any_moment { IsTrue D.tells → IsDurable (D.seen disk.old) (D.synced disk.old) (D.pending disk.old)
        → LeavesOnly D.moment D.left_since disk.old disk.new (OneWrite slot 1 (16 + length payload.now) (D.seen disk.old)) }
    ensures fits { length payload.now < 2 ^ 64 }
    ensures seen { IsTrue D.tells → OnOk result (D.seen disk.new ≡ with_file slot (overwritten 1 (slot_head number (length payload.now) ++ payload.now) (D.seen disk.old slot)) (D.seen disk.old)) }
    ensures durable { IsTrue D.tells → OnOk result (IsDurable (D.seen disk.new) (D.synced disk.new) (D.pending disk.new)) }
    ensures faults { RisesOnErr (D.faults disk.old) (D.faults disk.new) result }
{
    let head = head_bytes(number, payload.len() as u64);
    write_pair_through(disk, slot, 1, &head, payload)
}

/// The number and the length, as they stand behind the gate.
#[tactic(auto, unfolding(crate::specs::Slot::slot_head))]
fn head_bytes(number: u64, length: u64) -> [u8; 16]
    ensures { result ≡ slot_head number length }
{
    let mut head = [0u8; 16];
    head[..8].copy_from_slice(&number.to_le_bytes());
    head[8..].copy_from_slice(&length.to_le_bytes());
    head
}

/// Opens the gate. What is behind it is durable already.
pub fn open_gate<D: Disk>(disk: &mut D, slot: DiskFile) -> Result<(), Failed>
    ensures any_moment { IsTrue D.tells → IsDurable (D.seen disk.old) (D.synced disk.old) (D.pending disk.old)
        → LeavesOnly D.moment D.left_since disk.old disk.new (OneWrite slot 0 1 (D.seen disk.old)) }
    ensures seen { IsTrue D.tells → OnOk result (D.seen disk.new ≡ with_file slot (overwritten 0 (1 ∷ []) (D.seen disk.old slot)) (D.seen disk.old)) }
    ensures durable { IsTrue D.tells → OnOk result (IsDurable (D.seen disk.new) (D.synced disk.new) (D.pending disk.new)) }
    ensures faults { RisesOnErr (D.faults disk.old) (D.faults disk.new) result }
{
    write_through(disk, slot, 0, &[OPEN])
}

/// Writes a record into a slot that is ready for it.
pub fn write_record<D: Disk>(
    disk: &mut D,
    slot: DiskFile,
    number: u64,
    payload: &[u8],
) -> Result<(), Failed>
    requires { IsSlot slot }

    // Where nothing was pending, a crash at any moment leaves the old record or the new one.
    ensures any_moment { IsTrue D.tells → IsDurable (D.seen disk.old) (D.synced disk.old) (D.pending disk.old)
        → IsReady slot number (D.seen disk.old)
        → LeavesOnly D.moment D.left_since disk.old disk.new (IsOldOrNew slot number payload.now (D.seen disk.old)) }
    ensures new { IsTrue D.tells → IsReady slot number (D.seen disk.old)
        → OnOk result (HasNewRecord slot number payload.now (D.seen disk.old) (D.seen disk.new)) }
    ensures durable { IsTrue D.tells → OnOk result (IsDurable (D.seen disk.new) (D.synced disk.new) (D.pending disk.new)) }
    ensures faults { RisesOnErr (D.faults disk.old) (D.faults disk.new) result }
{
    close(disk, slot)?;
    fill(disk, slot, number, payload)?;
    open_gate(disk, slot)
}
