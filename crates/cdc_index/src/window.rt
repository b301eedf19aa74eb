//! The part of a file that was read last.

ghost use Rattle.std.specs.Prelude.{◌≡◌, ℕ, ◌+◌, ◌-◌, ◌<◌, ◌≤◌, ◌^◌, IsTrue, length, take, drop, IfOk, OnOk, MatchOption};
ghost use Rattle.cdc_cell.specs.Reading.{IsLeftAlone};
ghost use Rattle.cdc_outside.specs.Count.{RisesOnErr};
ghost use Rattle.cdc_index.specs.Chain.{told_length};
ghost use Rattle.cdc_index.specs.Shelf.{Shows, TellsLength};

use cdc_cell::{DiskFault, read_full};
use cdc_event::{HEADER_LENGTH, number_4};
use cdc_outside::{Disk, DiskFile};

/// Where the length stands in an event's header, and the place behind it.
const LENGTH_FROM: usize = 9;

const LENGTH_TO: usize = 13;

/// A part of a file: the place of its first byte, and how many bytes it has.
#[derive(Clone, Copy)]
pub(crate) struct Part {
    pub(crate) from: u64,
    pub(crate) size: usize,
}

/// Sees to it that the window shows the header at a place, where so many bytes are left from there on.
fn show<D: Disk>(
    disk: &mut D,
    file: DiskFile,
    place: u64,
    left: u64,
    window: &mut [u8],
    part: Part,
) -> Result<Part, DiskFault>
    requires room { HEADER_LENGTH ≤ length window.old }
    requires end { place + left < 2 ^ 64 }
    requires header { HEADER_LENGTH ≤ left }
    requires before { part.from ≤ place }
    requires size { part.size ≤ length window.old }
    ensures before { IfOk result (λ now. now.from ≤ place) }
    ensures size { IfOk result (λ now. now.size ≤ length window.new) }
    ensures told { IsTrue D.tells → Shows (D.seen disk.old file) window.old part.from part.size
        → IfOk result (λ now. Shows (D.seen disk.old file) window.new now.from now.size) }
    ensures there { IsTrue D.tells → HEADER_LENGTH ≤ length (take left (drop place (D.seen disk.old file)))
        → IfOk result (λ now. place + HEADER_LENGTH ≤ now.from + now.size) }
    ensures alone { IsTrue D.tells → IsLeftAlone D.seen D.synced D.pending D.may_leave D.moment D.left_since disk.old disk.new }
    ensures faults { RisesOnErr (D.faults disk.old) (D.faults disk.new) result }
{
    if place - part.from + HEADER_LENGTH as u64 <= part.size as u64 {
        return Ok(part);
    }
    let asked = left.min(window.len() as u64) as usize;
    let size = read_full(disk, file, place, &mut window[..asked])?;
    Ok(Part { from: place, size })
}

/// The length that the event at a place tells, where so many bytes are left from there on; none where they are fewer
/// than a header.
pub(crate) fn length_at<D: Disk>(
    disk: &mut D,
    file: DiskFile,
    place: u64,
    left: u64,
    window: &mut [u8],
    part: &mut Part,
) -> Result<Option<u64>, DiskFault>
    requires room { HEADER_LENGTH ≤ length window.old }
    requires end { place + left < 2 ^ 64 }
    requires before { part.old.from ≤ place }
    requires size { part.old.size ≤ length window.old }
    ensures before { part.new.from ≤ place }
    ensures size { part.new.size ≤ length window.new }
    ensures shown { IsTrue D.tells → Shows (D.seen disk.old file) window.old part.old.from part.old.size
        → OnOk result (Shows (D.seen disk.old file) window.new part.new.from part.new.size) }
    ensures told { IsTrue D.tells → Shows (D.seen disk.old file) window.old part.old.from part.old.size
        → left ≤ length (D.seen disk.old file) - place
        → IfOk result (TellsLength (take left (drop place (D.seen disk.old file)))) }
    ensures alone { IsTrue D.tells → IsLeftAlone D.seen D.synced D.pending D.may_leave D.moment D.left_since disk.old disk.new }
    ensures faults { RisesOnErr (D.faults disk.old) (D.faults disk.new) result }
{
    if left < HEADER_LENGTH as u64 {
        return Ok(None);
    }
    let now = show(disk, file, place, left, window, *part)?;
    *part = now;
    let at = place - now.from;
    if at + HEADER_LENGTH as u64 > now.size as u64 {
        return Ok(None);
    }
    let at = at as usize;
    Ok(Some(number_4(&window[at + LENGTH_FROM..at + LENGTH_TO]) as u64))
}
