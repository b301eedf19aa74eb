//! Finding an output's Front, and cutting off what stands behind it.

ghost use Rattle.std.specs.Prelude.{◌≡◌, ◌+◌, ◌≤◌, ◌<◌, ◌^◌, ◌⊎◌, false, IsTrue, length, take, IfOk, IfErr, OnOk};
ghost use Rattle.cdc_outside.specs.declared.disk_file.DiskFile.TheVariants.{Log};
ghost use Rattle.cdc_outside.specs.Count.{Rose, RisesOnErr};
ghost use Rattle.cdc_outside.specs.Disk.{IsDurable, LeavesOnly, OneCut, with_file};
ghost use Rattle.cdc_cell.specs.Reading.{IsLeftAlone};
ghost use Rattle.cdc_cell.specs.Cell.{cell_number_of, has_failed, Knows};
ghost use Rattle.cdc_records.specs.Front.{front_number, HasFront};
ghost use Rattle.cdc_dumper.specs.Opening.{IsFound, IsOpenFault, IsFrontOrNone, IsTrimmed, IsTrimmedTo};

use crate::fault::OpenFault;
use crate::reading::read_front;
use crate::record::RECORD_MAX;
use cdc_cell::{Cell, CellFault, DiskFault};
use cdc_outside::{Disk, DiskFile, cut_through};
use cdc_records::Front;

/// What is found of an output.
#[derive(Debug, Drop)]
pub struct Found {
    pub cell: Cell,
    pub front: Front,
}

/// How many bytes a file has.
fn read_length<D: Disk>(disk: &mut D, file: DiskFile) -> Result<u64, DiskFault>
    ensures exact { IsTrue D.tells → IfOk result (λ told. told ≡ length (D.seen disk.old file)) }
    ensures alone { IsTrue D.tells → IsLeftAlone D.seen D.synced D.pending D.may_leave D.moment D.left_since disk.old disk.new }
    ensures faults { RisesOnErr (D.faults disk.old) (D.faults disk.new) result }
{
    Ok(disk.length(file)?)
}

/// The cell of an output.
fn open_cell<D: Disk>(disk: &mut D) -> Result<Cell, OpenFault>
    ensures knows { IsTrue D.tells → IfOk result (λ cell. Knows cell (D.seen disk.old)) }
    ensures works { IfOk result (λ cell. has_failed cell ≡ false) }
    ensures refused { IsTrue D.tells → IfErr result (λ e. IsOpenFault (D.seen disk.old) e) }
    ensures alone { IsTrue D.tells → IsLeftAlone D.seen D.synced D.pending D.may_leave D.moment D.left_since disk.old disk.new }
    ensures later { D.faults disk.old ≤ D.faults disk.new }
    ensures failed { result ≡ Err OpenFault.DiskFault → Rose (D.faults disk.old) (D.faults disk.new) }
{
    match Cell::open(disk) {
        Ok(cell) => Ok(cell),
        Err(CellFault::DiskFault) => Err(OpenFault::DiskFault),
        Err(CellFault::BadCell(slot)) => Err(OpenFault::BadCell(slot)),
    }
}

/// The Front that a cell keeps.
fn kept_front<D: Disk>(cell: &Cell, disk: &mut D) -> Result<Front, OpenFault>
    ensures number { IfOk result (λ f. cell_number_of cell.now ≡ front_number f) }
    ensures shaped { IfOk result (λ f. IsFrontOrNone f) }
    ensures found { IsTrue D.tells → Knows cell.now (D.seen disk.old) → IfOk result (λ f. HasFront (D.seen disk.old) f) }
    ensures refused { IsTrue D.tells → Knows cell.now (D.seen disk.old) → IfErr result (λ e. IsOpenFault (D.seen disk.old) e) }
    ensures alone { IsTrue D.tells → IsLeftAlone D.seen D.synced D.pending D.may_leave D.moment D.left_since disk.old disk.new }
    ensures later { D.faults disk.old ≤ D.faults disk.new }
    ensures failed { result ≡ Err OpenFault.DiskFault → Rose (D.faults disk.old) (D.faults disk.new) }
{
    let Some(slot) = cell.slot() else {
        return Ok(Front::none());
    };
    let length = cell.length().unwrap_or(0);
    if length > RECORD_MAX as u64 {
        return Err(OpenFault::BadCell(slot));
    }
    let mut bytes = [0u8; RECORD_MAX];
    let payload = &mut bytes[..length as usize];
    cell.load(disk, 0, payload)?;
    match read_front(cell.number(), payload) {
        Some(front) => Ok(front),
        None => Err(OpenFault::BadCell(slot)),
    }
}

/// Finds the cell and the Front of an output. It changes nothing.
pub fn find<D: Disk>(disk: &mut D) -> Result<Found, OpenFault>
    ensures knows { IsTrue D.tells → IfOk result (λ found. Knows found.cell (D.seen disk.old)) }
    ensures works { IfOk result (λ found. has_failed found.cell ≡ false) }
    ensures number { IfOk result (λ found. cell_number_of found.cell ≡ front_number found.front) }
    ensures shaped { IfOk result (λ found. IsFrontOrNone found.front) }
    ensures found { IsTrue D.tells → IfOk result (λ found. IsFound (D.seen disk.old) found.front) }
    ensures refused { IsTrue D.tells → IfErr result (λ e. IsOpenFault (D.seen disk.old) e) }
    ensures alone { IsTrue D.tells → IsLeftAlone D.seen D.synced D.pending D.may_leave D.moment D.left_since disk.old disk.new }
    ensures later { D.faults disk.old ≤ D.faults disk.new }
    ensures failed { result ≡ Err OpenFault.DiskFault → Rose (D.faults disk.old) (D.faults disk.new) }
{
    let cell = open_cell(disk)?;
    let front = kept_front(&cell, disk)?;
    if front.length > 0 {
        let found = read_length(disk, DiskFile::Log(front.file))?;
        if found < front.length {
            return Err(OpenFault::BadFront {
                kept: front.length,
                found,
            });
        }
    }
    Ok(Found { cell, front })
}

/// Reads an output's Front. It changes nothing, and makes nothing durable.
pub fn look<D: Disk>(disk: &mut D) -> Result<Front, OpenFault>
    ensures found { IsTrue D.tells → IfOk result (λ front. IsFound (D.seen disk.old) front) }
    ensures refused { IsTrue D.tells → IfErr result (λ e. IsOpenFault (D.seen disk.old) e) }
    ensures shaped { IfOk result (λ front. IsFrontOrNone front) }
    ensures alone { IsTrue D.tells → IsLeftAlone D.seen D.synced D.pending D.may_leave D.moment D.left_since disk.old disk.new }
    ensures later { D.faults disk.old ≤ D.faults disk.new }
    ensures failed { result ≡ Err OpenFault.DiskFault → Rose (D.faults disk.old) (D.faults disk.new) }
{
    let found = find(disk)?;
    Ok(found.front)
}

/// Cuts a file to a length, where it is longer.
fn cut_longer<D: Disk>(disk: &mut D, file: DiskFile, to: u64) -> Result<(), DiskFault>
    requires { IsTrue D.tells → to ≤ length (D.seen disk.old file) }
    ensures any_moment { IsTrue D.tells → IsDurable (D.seen disk.old) (D.synced disk.old) (D.pending disk.old)
        → LeavesOnly D.moment D.left_since disk.old disk.new (OneCut file to (D.seen disk.old)) }
    ensures seen { IsTrue D.tells → OnOk result (D.seen disk.new ≡ with_file file (take to (D.seen disk.old file)) (D.seen disk.old)) }
    ensures durable { IsTrue D.tells → IsDurable (D.seen disk.old) (D.synced disk.old) (D.pending disk.old)
        → OnOk result (IsDurable (D.seen disk.new) (D.synced disk.new) (D.pending disk.new)) }
    ensures faults { RisesOnErr (D.faults disk.old) (D.faults disk.new) result }
{
    let found = read_length(disk, file)?;
    if found <= to {
        return Ok(());
    }
    Ok(cut_through(disk, file, to)?)
}

/// Cuts off what stands behind an output's Front: in its file, and in the next.
pub fn trim<D: Disk>(disk: &mut D, front: &Front) -> Result<(), DiskFault>
    requires near { front.now.file < 2 ^ 63 }
    requires whole { IsTrue D.tells → front.now.length ≤ length (D.seen disk.old (Log front.now.file)) }
    ensures any_moment { IsTrue D.tells → IsDurable (D.seen disk.old) (D.synced disk.old) (D.pending disk.old)
        → LeavesOnly D.moment D.left_since disk.old disk.new (IsTrimmed front.now (D.seen disk.old)) }
    ensures trimmed { IsTrue D.tells → OnOk result (IsTrimmedTo front.now (D.seen disk.old) (D.seen disk.new)) }
    ensures durable { IsTrue D.tells → IsDurable (D.seen disk.old) (D.synced disk.old) (D.pending disk.old)
        → OnOk result (IsDurable (D.seen disk.new) (D.synced disk.new) (D.pending disk.new)) }
    ensures faults { RisesOnErr (D.faults disk.old) (D.faults disk.new) result }
{
    if front.file > 0 {
        cut_longer(disk, DiskFile::Log(front.file), front.length)?;
    }
    cut_longer(disk, DiskFile::Log(front.file + 1), 0)
}
