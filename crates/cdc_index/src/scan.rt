//! The walk over a file's events.

ghost use Rattle.std.specs.Prelude.{◌≡◌, ◌==◌, ◌||◌, min, IsTrue, ◌+◌, ◌-◌, ◌≤◌, ◌<◌, ◌^◌, length, take, drop, IfOk, OnOk, IsErrOf};
ghost use Rattle.std.specs.Str.{bytes_eq};
ghost use Rattle.cdc_event.specs.Event.{magic};
ghost use Rattle.cdc_cell.specs.Reading.{IsLeftAlone};
ghost use Rattle.cdc_outside.specs.Count.{Rose, RisesOnErr};
ghost use Rattle.cdc_index.specs.Shelf.{Shows, TellsBoundary, TellsEnds, TellsEvent};

use crate::shelf_fault::ShelfFault;
use crate::window::{Part, length_at};
use cdc_cell::{DiskFault, read_full};
use cdc_event::{HEADER_LENGTH, MAGIC};
use cdc_outside::{Disk, DiskFile};

/// The bytes of a file that are read at once.
const WINDOW: usize = 65_536;

/// Whether bytes begin as a log file does.
#[tactic(auto, using(crate::proofs::Windows::short_front))]
fn begins_log(bytes: &[u8]) -> bool
    ensures value { result ≡ bytes_eq (take 4 bytes.now) magic }
    ensures long { IsTrue result → 4 ≤ length bytes.now }
{
    if bytes.len() < MAGIC.len() {
        return false;
    }
    bytes[..MAGIC.len()] == MAGIC[..]
}

/// Reads the front of a file, of which so many bytes count, and answers what the window shows of it.
fn first_part<D: Disk>(
    disk: &mut D,
    file: DiskFile,
    limit: u64,
    window: &mut [u8],
) -> Result<Part, DiskFault>
    ensures start { IfOk result (λ part. part.from ≡ 0) }
    ensures size { IfOk result (λ part. part.size ≤ length window.new) }
    ensures limit { IfOk result (λ part. part.size ≤ limit) }
    ensures told { IsTrue D.tells → IfOk result (λ part. Shows (D.seen disk.old file) window.new 0 part.size) }
    ensures all { IsTrue D.tells → IfOk result (λ part. part.size ≡ min (min limit (length window.old)) (length (D.seen disk.old file))) }
    ensures alone { IsTrue D.tells → IsLeftAlone D.seen D.synced D.pending D.may_leave D.moment D.left_since disk.old disk.new }
    ensures faults { RisesOnErr (D.faults disk.old) (D.faults disk.new) result }
{
    let asked = limit.min(window.len() as u64) as usize;
    let size = read_full(disk, file, 0, &mut window[..asked])?;
    Ok(Part { from: 0, size })
}

/// Whether a place is a boundary in a file's first `limit` bytes.
pub(crate) fn scan<D: Disk>(
    disk: &mut D,
    file: DiskFile,
    limit: u64,
    at: u64,
) -> Result<bool, ShelfFault>
    ensures told { IsTrue D.tells → limit ≤ length (D.seen disk.old file) → TellsBoundary (take limit (D.seen disk.old file)) at result }
    ensures failed { IsErrOf result ShelfFault.DiskFault → Rose (D.faults disk.old) (D.faults disk.new) }
    ensures later { D.faults disk.old ≤ D.faults disk.new }
    ensures alone { IsTrue D.tells → IsLeftAlone D.seen D.synced D.pending D.may_leave D.moment D.left_since disk.old disk.new }
{
    let mut window = [0u8; WINDOW];
    match first_part(disk, file, limit, &mut window) {
        Ok(part) => {
            if begins_log(&window[..part.size]) {
                walk(disk, file, limit, at, &mut window, part)
            } else {
                Err(ShelfFault::Torn)
            }
        }
        Err(_) => Err(ShelfFault::DiskFault),
    }
}

/// The length of the event at a place, where so many bytes are left from there on; `Torn` where no whole event is there.
fn next_event<D: Disk>(
    disk: &mut D,
    file: DiskFile,
    place: u64,
    left: u64,
    window: &mut [u8],
    part: &mut Part,
) -> Result<u64, ShelfFault>
    requires room { HEADER_LENGTH ≤ length window.old }
    requires end { place + left < 2 ^ 64 }
    requires before { part.old.from ≤ place }
    requires size { part.old.size ≤ length window.old }
    ensures before { part.new.from ≤ place }
    ensures size { part.new.size ≤ length window.new }
    ensures within { IfOk result (λ size. (HEADER_LENGTH ≤ size) × (size ≤ left)) }
    ensures shown { IsTrue D.tells → Shows (D.seen disk.old file) window.old part.old.from part.old.size
        → OnOk result (Shows (D.seen disk.old file) window.new part.new.from part.new.size) }
    ensures told { IsTrue D.tells → Shows (D.seen disk.old file) window.old part.old.from part.old.size
        → left ≤ length (D.seen disk.old file) - place
        → TellsEvent (take left (drop place (D.seen disk.old file))) result }
    ensures failed { IsErrOf result ShelfFault.DiskFault → Rose (D.faults disk.old) (D.faults disk.new) }
    ensures later { D.faults disk.old ≤ D.faults disk.new }
    ensures alone { IsTrue D.tells → IsLeftAlone D.seen D.synced D.pending D.may_leave D.moment D.left_since disk.old disk.new }
{
    match length_at(disk, file, place, left, window, part) {
        Err(_) => Err(ShelfFault::DiskFault),
        Ok(None) => Err(ShelfFault::Torn),
        Ok(Some(size)) => {
            if size < HEADER_LENGTH as u64 {
                return Err(ShelfFault::Torn);
            }
            if size > left {
                return Err(ShelfFault::Torn);
            }
            Ok(size)
        }
    }
}

/// Whether a place was reached before, or is this one.
fn is_reached(before: bool, place: u64, at: u64) -> bool
    ensures { result ≡ (before || (place == at)) }
{
    before || place == at
}

/// Walks over the events behind the magic.
fn walk<D: Disk>(
    disk: &mut D,
    file: DiskFile,
    limit: u64,
    at: u64,
    window: &mut [u8],
    shown: Part,
) -> Result<bool, ShelfFault>
    requires room { HEADER_LENGTH ≤ length window.old }
    requires start { shown.from ≡ 0 }
    requires size { shown.size ≤ length window.old }
    requires magic { 4 ≤ limit }
    ensures told { IsTrue D.tells → limit ≤ length (D.seen disk.old file) → Shows (D.seen disk.old file) window.old shown.from shown.size
        → TellsEnds (take limit (D.seen disk.old file)) at result }
    ensures failed { IsErrOf result ShelfFault.DiskFault → Rose (D.faults disk.old) (D.faults disk.new) }
    ensures later { D.faults disk.old ≤ D.faults disk.new }
    ensures alone { IsTrue D.tells → IsLeftAlone D.seen D.synced D.pending D.may_leave D.moment D.left_since disk.old disk.new }
{
    let mut part = shown;
    let mut place = MAGIC.len() as u64;
    let mut found = at == place;
    while place < limit {
        match next_event(disk, file, place, limit - place, window, &mut part) {
            Ok(size) => place += size,
            Err(fault) => return Err(fault),
        }
        found = is_reached(found, place, at);
    }
    Ok(found)
}
