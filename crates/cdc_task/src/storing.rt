//! Storing the next checkpoint.

ghost use Rattle.std.specs.Prelude.{◌≡◌, ◌≤◌, ◌<◌, false, IsTrue, IsSome, IsErrOf, OnOk, OnErr};
ghost use Rattle.cdc_outside.specs.Count.{Rose};
ghost use Rattle.cdc_outside.specs.Disk.{IsDurable, LeavesOnly};
ghost use Rattle.cdc_cell.specs.Cell.{Knows, cell_number_of, cell_kept_of, has_failed};
ghost use Rattle.cdc_records.specs.Checkpoint.{IsPoint, point_number};
ghost use Rattle.cdc_task.specs.Task.{IsOldOrNewPoint, HasNewPoint};

use crate::fault::StoreFault;
use crate::writing::write_point;
use cdc_cell::Cell;
use cdc_outside::Disk;
use cdc_records::Checkpoint;
use std::alloc::Global;

/// Stores a checkpoint in place of the kept one, as a record of the second version.
///
/// After `DiskFault` the old one or this one is kept, and the cell isn't used again: the disk is loaded anew. After `Memory`
/// nothing was written, and both are as they were.
pub fn store<D: Disk>(
    alloc: Global,
    cell: &mut Cell,
    disk: &mut D,
    checkpoint: &Checkpoint,
) -> Result<(), StoreFault>
    requires point { IsPoint checkpoint.now }
    requires named { IsSome checkpoint.now.rotation }
    requires above { cell_number_of cell.old < point_number checkpoint.now }
    requires works { has_failed cell.old ≡ false }

    // Where nothing was pending, a crash at any moment leaves the old record or this checkpoint.
    ensures any_moment { IsTrue D.tells → IsDurable (D.seen disk.old) (D.synced disk.old) (D.pending disk.old)
        → Knows cell.old (D.seen disk.old)
        → LeavesOnly D.moment D.left_since disk.old disk.new (IsOldOrNewPoint checkpoint.now (D.seen disk.old)) }
    ensures new { IsTrue D.tells → Knows cell.old (D.seen disk.old)
        → OnOk result (HasNewPoint checkpoint.now (D.seen disk.old) (D.seen disk.new)) }
    ensures durable { IsTrue D.tells → OnOk result (IsDurable (D.seen disk.new) (D.synced disk.new) (D.pending disk.new)) }
    ensures memory { IsErrOf result StoreFault.Memory → (disk.new ≡ disk.old) × (cell.new ≡ cell.old) }

    ensures knows { IsTrue D.tells → Knows cell.old (D.seen disk.old) → OnOk result (Knows cell.new (D.seen disk.new)) }
    ensures number { OnOk result (cell_number_of cell.new ≡ point_number checkpoint.now) }
    ensures old_kept { OnErr result (cell_kept_of cell.new ≡ cell_kept_of cell.old) }
    ensures works { OnOk result (has_failed cell.new ≡ false) }

    // It never fails by itself.
    ensures later { D.faults disk.old ≤ D.faults disk.new }
    ensures failed { IsErrOf result StoreFault.DiskFault → Rose (D.faults disk.old) (D.faults disk.new) }
{
    let Ok(payload) = write_point(alloc, checkpoint) else {
        return Err(StoreFault::Memory);
    };
    match cell.store(disk, checkpoint.number(), payload.bytes()) {
        Ok(()) => Ok(()),
        Err(_fault) => Err(StoreFault::DiskFault),
    }
}
