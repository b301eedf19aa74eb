//! The lines of one out.

ghost use Rattle.std.specs.Prelude.{◌≡◌, ◌<◌, ◌≤◌, ◌^◌, ◌++◌, IsTrue, length, OnOk, IsErrOf};
ghost use Rattle.std.specs.List.{concat};
ghost use Rattle.cdc_cell.specs.Reading.{IsLeftAlone};
ghost use Rattle.cdc_outside.specs.Count.{Rose};
ghost use Rattle.cdc_outside.specs.Disk.{Image};
ghost use Rattle.cdc_records.specs.Published.{published_file};
ghost use Rattle.cdc_list.specs.Lines as lines;

use crate::line::{Line, file_line, out_line};
use cdc_base::{Buffer, Memory};
use cdc_index::published_length;
use cdc_outside::Disk;
use cdc_records::Front;

/// Why the lines of an out can't be had.
#[derive(Clone, Copy, Debug, PartialEq, Eq)]
pub(crate) enum OutStop {
    /// The disk failed in this call.
    Disk,
    /// There was no memory.
    Memory,
}

/// Appends a line.
fn push_line(line: &Line, text: &mut Buffer) -> Result<(), OutStop>
    ensures ok { OnOk result (text.new ≡ text.old ++ line.now.items) }
    ensures disk { IsErrOf result OutStop.Disk → ⊥ }
{
    match text.push(line.as_slice()) {
        Ok(()) => Ok(()),
        Err(Memory) => Err(OutStop::Memory),
    }
}

/// Appends the line of a published file.
fn push_file_line<D: Disk>(
    disk: &mut D,
    out: u32,
    front: &Front,
    number: u64,
    text: &mut Buffer,
) -> Result<(), OutStop>
    ensures told { IsTrue D.tells → OnOk result (text.new ≡ text.old ++ lines.file_line out number (length (published_file front.now (D.seen disk.old) number))) }
    ensures alone { IsTrue D.tells → IsLeftAlone D.seen D.synced D.pending D.may_leave D.moment D.left_since disk.old disk.new }
    ensures failed { IsErrOf result OutStop.Disk → Rose (D.faults disk.old) (D.faults disk.new) }
    ensures later { D.faults disk.old ≤ D.faults disk.new }
{
    match published_length(disk, front, number) {
        Ok(bytes) => push_line(&file_line(out, number, bytes), text),
        Err(_) => Err(OutStop::Disk),
    }
}

/// Appends the lines of all published files.
fn push_file_lines<D: Disk>(
    disk: &mut D,
    out: u32,
    front: &Front,
    text: &mut Buffer,
) -> Result<(), OutStop>
    requires near { front.now.file < 2 ^ 63 }
    ensures told { IsTrue D.tells → (image : Image) → D.seen disk.old ≡ image
        → OnOk result (text.new ≡ text.old ++ concat (lines.file_lines out front.now.first (lines.published_lengths front.now image))) }
    ensures alone { IsTrue D.tells → IsLeftAlone D.seen D.synced D.pending D.may_leave D.moment D.left_since disk.old disk.new }
    ensures failed { IsErrOf result OutStop.Disk → Rose (D.faults disk.old) (D.faults disk.new) }
    ensures later { D.faults disk.old ≤ D.faults disk.new }
{
    let mut number = front.first;
    while number <= front.file {
        if let Err(stop) = push_file_line(disk, out, front, number, text) {
            return Err(stop);
        }
        number += 1;
    }
    Ok(())
}

/// Appends the lines of an out: those of its published files, then its own.
pub(crate) fn push_out_lines<D: Disk>(
    disk: &mut D,
    out: u32,
    front: &Front,
    text: &mut Buffer,
) -> Result<(), OutStop>
    requires near { front.now.file < 2 ^ 63 }
    ensures told { IsTrue D.tells → (image : Image) → D.seen disk.old ≡ image
        → OnOk result (text.new ≡ text.old ++ concat (lines.out_lines out (lines.listed_out front.now image))) }
    ensures alone { IsTrue D.tells → IsLeftAlone D.seen D.synced D.pending D.may_leave D.moment D.left_since disk.old disk.new }
    ensures failed { IsErrOf result OutStop.Disk → Rose (D.faults disk.old) (D.faults disk.new) }
    ensures later { D.faults disk.old ≤ D.faults disk.new }
{
    if let Err(stop) = push_file_lines(disk, out, front, text) {
        return Err(stop);
    }
    push_line(&out_line(out, front), text)
}
