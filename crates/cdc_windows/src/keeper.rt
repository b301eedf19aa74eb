//! The task while a pass runs.

ghost use Rattle.std.specs.Prelude.{◌≡◌, ◌≤◌, ◌⊎◌, true, false, IsTrue, IsSome, OnOk};
ghost use Rattle.cdc_outside.specs.Count.{Rose};
ghost use Rattle.cdc_outside.specs.Disk.{LeavesOnly};
ghost use Rattle.cdc_cell.specs.Cell.{cell_number_of};
ghost use Rattle.cdc_records.specs.Checkpoint.{IsPoint, point_number};
ghost use Rattle.cdc_windows.specs.Keeping.{IsTaskStanding, IsStored};

use cdc_base::Memory;
use cdc_cell::Cell;
use cdc_outside::Disk;
use cdc_records::Checkpoint;
use cdc_task::{StoreFault, is_point, store};
use std::alloc::Global;

/// The task's cell, and whether its disk failed in this pass.
#[derive(Debug, Drop)]
pub struct Keeper {
    pub cell: Cell,
    pub failed: bool,
}

/// Keeps a checkpoint in place of the kept one, where the task's disk didn't fail, the checkpoint's number is above the kept
/// one's, and a record may have it. On `Memory` nothing was written.
pub(crate) fn keep<D: Disk>(
    alloc: Global,
    keeper: &mut Keeper,
    task: &mut D,
    checkpoint: &Checkpoint,
) -> Result<(), Memory>
    requires named { IsSome checkpoint.now.rotation }
    requires standing { IsTaskStanding D.tells D.seen D.synced D.pending keeper.old task.old }
    ensures standing { IsTaskStanding D.tells D.seen D.synced D.pending keeper.new task.new }
    // Whatever is done, a crash at any moment leaves what it could leave before, the old record, or this checkpoint.
    ensures any_moment { IsTrue D.tells → LeavesOnly D.moment D.left_since task.old task.new (IsStored (D.may_leave task.old) (D.seen task.old) checkpoint.now) }
    // Where the disk works on, the kept number isn't below this one's.
    ensures last { IsPoint checkpoint.now → keeper.new.failed ≡ false → OnOk result (point_number checkpoint.now ≤ cell_number_of keeper.new.cell) }
    ensures number { keeper.new.failed ≡ false → cell_number_of keeper.old.cell ≤ cell_number_of keeper.new.cell }
    ensures fails { keeper.new.failed ≡ true → (keeper.old.failed ≡ true) ⊎ Rose (D.faults task.old) (D.faults task.new) }
    ensures stays { keeper.old.failed ≡ true → keeper.new.failed ≡ true }
    ensures later { D.faults task.old ≤ D.faults task.new }
{
    if keeper.failed || checkpoint.number() <= keeper.cell.number() || !is_point(checkpoint) {
        return Ok(());
    }
    match store(alloc, &mut keeper.cell, task, checkpoint) {
        Ok(()) => Ok(()),
        Err(StoreFault::Memory) => Err(Memory),
        Err(StoreFault::DiskFault) => {
            keeper.failed = true;
            Ok(())
        }
    }
}
