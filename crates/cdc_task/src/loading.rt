//! Loading the kept checkpoint.

ghost use Rattle.std.specs.Prelude.{◌≡◌, ◌≤◌, false, IsTrue, length, IfOk, IfSome, IfErr, IsErrOf, OnOk, Some};
ghost use Rattle.cdc_outside.specs.Count.{Rose};
ghost use Rattle.cdc_outside.specs.Disk.{IsDurable, LeavesOnly};
ghost use Rattle.cdc_cell.specs.Reading.{IsLeftAlone};
ghost use Rattle.cdc_cell.specs.Cell.{Knows, length_of, payload_in, has_failed};
ghost use Rattle.cdc_cell.specs.Record.{kept_record};
ghost use Rattle.cdc_records.specs.Checkpoint.{IsPoint};
ghost use Rattle.cdc_task.specs.Task.{IsLoaded, IsKeptOr, IsOutside, IsFitting, FitsPlan};

use crate::fault::TaskFault;
use crate::point_reading::read_point;
use cdc_cell::{Cell, CellFault};
use cdc_outside::{Disk, settle};
use cdc_records::Checkpoint;
use std::alloc::Global;

/// The bytes of the kept record.
fn read_payload<D: Disk>(
    alloc: Global,
    cell: &Cell,
    disk: &mut D,
    size: u64,
) -> Result<Vec<u8>, TaskFault>
    requires { length_of cell.now ≡ Some size }
    ensures bytes { IsTrue D.tells → Knows cell.now (D.seen disk.old) → IfOk result (λ payload. payload.items ≡ payload_in (kept_record (D.seen disk.old))) }
    ensures alone { IsTrue D.tells → IsLeftAlone D.seen D.synced D.pending D.may_leave D.moment D.left_since disk.old disk.new }
    ensures only { IfErr result IsOutside }
    ensures later { D.faults disk.old ≤ D.faults disk.new }
    ensures failed { IsErrOf result TaskFault.DiskFault → Rose (D.faults disk.old) (D.faults disk.new) }
{
    let Ok(mut payload) = vec![in alloc; 0u8; size as usize] else {
        return Err(TaskFault::Memory);
    };
    if cell.load(disk, 0, &mut payload).is_err() {
        return Err(TaskFault::DiskFault);
    }
    Ok(payload)
}

/// The kept checkpoint, if there is a record.
fn kept_point<D: Disk>(
    alloc: Global,
    cell: &Cell,
    disk: &mut D,
) -> Result<Option<Checkpoint>, TaskFault>
    ensures answer { IsTrue D.tells → Knows cell.now (D.seen disk.old) → IsKeptOr (D.seen disk.old) result }
    ensures sound { IfOk result (λ found. IfSome found IsPoint) }
    ensures small { IfOk result (λ found. IfSome found (λ point. length point.nodes ≤ 256)) }
    ensures alone { IsTrue D.tells → IsLeftAlone D.seen D.synced D.pending D.may_leave D.moment D.left_since disk.old disk.new }
    ensures later { D.faults disk.old ≤ D.faults disk.new }
    ensures failed { IsErrOf result TaskFault.DiskFault → Rose (D.faults disk.old) (D.faults disk.new) }
{
    let Some(slot) = cell.slot() else {
        return Ok(None);
    };
    let Some(size) = cell.length() else {
        return Ok(None);
    };
    let payload = read_payload(alloc, cell, disk, size)?;
    match read_point(alloc, cell.number(), &payload) {
        Ok(Some(point)) => Ok(Some(point)),
        Ok(None) => Err(TaskFault::BadCell(slot)),
        Err(_memory) => Err(TaskFault::Memory),
    }
}

/// Whether the kept checkpoint is of this plan: as many nodes, and no other rotation size.
fn check_plan(kept: &Option<Checkpoint>, nodes: u32, rotation: u64) -> Result<(), TaskFault>
    requires { IfSome kept.now (λ point. length point.nodes ≤ 256) }
    ensures { IsFitting nodes rotation kept.now result }
{
    let Some(point) = kept else {
        return Ok(());
    };
    let count = point.nodes.len() as u32;
    if count != nodes {
        return Err(TaskFault::NodeCount {
            kept: count,
            given: nodes,
        });
    }
    match point.rotation {
        Some(named) if named != rotation => Err(TaskFault::Rotation {
            kept: named,
            given: rotation,
        }),
        _ => Ok(()),
    }
}

/// The cell and the kept checkpoint of a disk.
fn open_task<D: Disk>(
    alloc: Global,
    disk: &mut D,
    nodes: u32,
    rotation: u64,
) -> Result<(Cell, Option<Checkpoint>), TaskFault>
    ensures answer { IsTrue D.tells → IsLoaded (D.seen disk.old) nodes rotation result }
    ensures sound { IfOk result (λ opened. IfSome opened.1 IsPoint) }
    ensures fits { IfOk result (λ opened. FitsPlan nodes rotation opened.1) }
    ensures works { IfOk result (λ opened. has_failed opened.0 ≡ false) }
    ensures alone { IsTrue D.tells → IsLeftAlone D.seen D.synced D.pending D.may_leave D.moment D.left_since disk.old disk.new }
    ensures later { D.faults disk.old ≤ D.faults disk.new }
    ensures failed { IsErrOf result TaskFault.DiskFault → Rose (D.faults disk.old) (D.faults disk.new) }
{
    let cell = match Cell::open(disk) {
        Ok(cell) => cell,
        Err(CellFault::DiskFault) => return Err(TaskFault::DiskFault),
        Err(CellFault::BadCell(slot)) => return Err(TaskFault::BadCell(slot)),
    };
    let kept = kept_point(alloc, &cell, disk)?;
    check_plan(&kept, nodes, rotation)?;
    Ok((cell, kept))
}

/// Opens the task's disk: its cell, and the checkpoint that it keeps, if any.
///
/// It syncs before it reads, so that nothing is pending and what was read can't be lost. `BadCell` comes where a slot is
/// bad, or the record is no checkpoint's; then `NodeCount` where that has another number of nodes, then `Rotation` where it
/// names another rotation size than the plan's. A refusal leaves all content as it was. It takes memory for the record's
/// own bytes and for what they say.
pub fn load<D: Disk>(
    alloc: Global,
    disk: &mut D,
    nodes: u32,
    rotation: u64,
) -> Result<(Cell, Option<Checkpoint>), TaskFault>
    ensures answer { IsTrue D.tells → IsLoaded (D.seen disk.old) nodes rotation result }
    // A checkpoint is one that a record may have, and of this plan, whatever the disk tells.
    ensures sound { IfOk result (λ opened. IfSome opened.1 IsPoint) }
    ensures fits { IfOk result (λ opened. FitsPlan nodes rotation opened.1) }
    ensures works { IfOk result (λ opened. has_failed opened.0 ≡ false) }

    // Nothing is pending, and nothing has changed.
    ensures durable { IsTrue D.tells → OnOk result (IsDurable (D.seen disk.new) (D.synced disk.new) (D.pending disk.new)) }
    ensures seen { IsTrue D.tells → D.seen disk.new ≡ D.seen disk.old }
    ensures any_moment { IsTrue D.tells → LeavesOnly D.moment D.left_since disk.old disk.new (D.may_leave disk.old) }

    // It never fails by itself.
    ensures later { D.faults disk.old ≤ D.faults disk.new }
    ensures failed { IsErrOf result TaskFault.DiskFault → Rose (D.faults disk.old) (D.faults disk.new) }
{
    if settle(disk).is_err() {
        return Err(TaskFault::DiskFault);
    }
    open_task(alloc, disk, nodes, rotation)
}
