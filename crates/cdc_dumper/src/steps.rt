//! The steps of an append and of a commit.

ghost use Rattle.std.specs.Prelude.{◌≡◌, ◌+◌, ◌-◌, ◌≤◌, ◌<◌, false, IsTrue, length, OnOk, OnErr};
ghost use Rattle.cdc_outside.specs.declared.disk_file.DiskFile.TheVariants.{Log};
ghost use Rattle.cdc_outside.specs.Count.{RisesOnErr};
ghost use Rattle.cdc_outside.specs.Disk.{Keep, IsPlaceBehind, IsWaiting, IsDurable, KeepsBelow, LeavesOnly, with_file, overwritten};
ghost use Rattle.cdc_cell.specs.Cell.{cell_number_of, has_failed, Knows};
ghost use Rattle.cdc_records.specs.KeyBytes.{IsRecordKey};
ghost use Rattle.cdc_records.specs.Front.{front_number, HasFront, IsSoundFront};
ghost use Rattle.cdc_dumper.specs.State.{keep_of, keep_alone};
ghost use Rattle.cdc_dumper.specs.Moves.{BeginsAt, front_with, SameNext, IsBeforeOrCommitted, HasCommitted};

use crate::record::{front_record, key_fits};
use cdc_cell::{Cell, DiskFault};
use cdc_model::Unit;
use cdc_outside::{Disk, DiskFile, settle, write_behind};
use cdc_records::Front;

/// Where a unit's bytes begin in its file.
pub fn starts_at(unit: &Unit) -> u64
    ensures { BeginsAt unit.now result }
{
    unit.after.length - unit.bytes.len() as u64
}

/// Writes a unit's bytes from a place of its file on.
pub fn write_unit<D: Disk>(disk: &mut D, unit: &Unit, at: u64) -> Result<(), DiskFault>
    requires { IsTrue D.tells → at ≤ length (D.seen disk.old (Log unit.now.after.file)) }
    ensures seen { IsTrue D.tells → OnOk result (D.seen disk.new
        ≡ with_file (Log unit.now.after.file) (overwritten at unit.now.bytes (D.seen disk.old (Log unit.now.after.file))) (D.seen disk.old)) }
    ensures waits { IsTrue D.tells → (keep : Keep) → IsPlaceBehind (keep (Log unit.now.after.file)) at
        → IsWaiting keep (D.seen disk.old) (D.synced disk.old) (D.pending disk.old)
        → IsWaiting keep (D.seen disk.new) (D.synced disk.new) (D.pending disk.new) }
    ensures any_moment { IsTrue D.tells → (keep : Keep) → IsPlaceBehind (keep (Log unit.now.after.file)) at
        → IsWaiting keep (D.seen disk.old) (D.synced disk.old) (D.pending disk.old)
        → LeavesOnly D.moment D.left_since disk.old disk.new (KeepsBelow keep (D.seen disk.old)) }
    ensures faults { RisesOnErr (D.faults disk.old) (D.faults disk.new) result }
{
    Ok(write_behind(disk, DiskFile::Log(unit.after.file), at, unit.bytes.bytes())?)
}

/// The Front behind one unit more.
pub fn front_after(front: &Front, unit: &Unit) -> Front
    ensures front { result ≡ front_with front.now unit.now }
    ensures key { IsRecordKey unit.now.key }
{
    key_fits(&unit.key);
    Front {
        count: unit.number,
        file: unit.after.file,
        length: unit.after.length,
        closed: unit.after.closed,
        last: Some(unit.key),
        ..*front
    }
}

/// Makes all writes durable, and stores a Front.
pub fn store_front<D: Disk>(
    cell: &mut Cell,
    disk: &mut D,
    old: &Front,
    front: &Front,
) -> Result<(), DiskFault>
    requires sound { IsSoundFront front.now }
    requires above { cell_number_of cell.old < front_number front.now }
    requires works { has_failed cell.old ≡ false }

    ensures any_moment { IsTrue D.tells → Knows cell.old (D.seen disk.old) → HasFront (D.seen disk.old) old.now
        → IsWaiting (keep_of old.now) (D.seen disk.old) (D.synced disk.old) (D.pending disk.old)
        → LeavesOnly D.moment D.left_since disk.old disk.new (IsBeforeOrCommitted old.now front.now (D.seen disk.old)) }
    ensures next_file { IsTrue D.tells → Knows cell.old (D.seen disk.old)
        → IsWaiting (keep_alone old.now) (D.seen disk.old) (D.synced disk.old) (D.pending disk.old)
        → LeavesOnly D.moment D.left_since disk.old disk.new (SameNext old.now (D.seen disk.old)) }
    ensures new { IsTrue D.tells → Knows cell.old (D.seen disk.old) → OnOk result (HasCommitted front.now (D.seen disk.old) (D.seen disk.new)) }
    ensures durable { IsTrue D.tells → OnOk result (IsDurable (D.seen disk.new) (D.synced disk.new) (D.pending disk.new)) }
    ensures knows { IsTrue D.tells → Knows cell.old (D.seen disk.old) → OnOk result (Knows cell.new (D.seen disk.new)) }
    ensures number { OnOk result (cell_number_of cell.new ≡ front_number front.now) }
    ensures old_number { OnErr result (cell_number_of cell.new ≡ cell_number_of cell.old) }
    ensures works { OnOk result (has_failed cell.new ≡ false) }
    ensures faults { RisesOnErr (D.faults disk.old) (D.faults disk.new) result }
{
    settle(disk)?;
    let record = front_record(front);
    cell.store(disk, front.count + front.first - 1, record.as_slice())
}
