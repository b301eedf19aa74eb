//! The part of a published file that was read last.

ghost use Rattle.std.specs.Prelude.{◌≡◌, ℕ, ◌+◌, ◌-◌, ◌<◌, ◌≤◌, IsTrue, length, take, drop, min, IfOk, IfErr, OnOk, IsErrOf};
ghost use Rattle.cdc_cell.specs.Reading.{IsLeftAlone};
ghost use Rattle.cdc_outside.specs.Count.{Rose};
ghost use Rattle.cdc_outside.specs.Disk.{Image};
ghost use Rattle.cdc_session.specs.Reading.{WindowShows};

use crate::dump_stop::DumpStop;
use cdc_cell::read_full;
use cdc_outside::{Disk, DiskFile};

/// The bytes of a file that are read at once.
pub(crate) const WINDOW: usize = 65_536;

/// What is published of a file: the file, and how many of its bytes.
#[derive(Clone, Copy, Debug)]
pub(crate) struct Published {
    pub(crate) file: DiskFile,
    pub(crate) limit: u64,
}

/// Room for a part of a file: its bytes are the first `size`, and stand in the file from `from` on.
#[derive(Debug, Drop)]
pub(crate) struct Window {
    pub(crate) bytes: [u8; WINDOW],
    pub(crate) from: u64,
    pub(crate) size: usize,
    ghost within: { size ≤ 65536 },
}

/// A window that shows nothing.
pub(crate) fn new_window() -> Window
    ensures { result.size ≡ 0 }
{
    Window {
        bytes: [0u8; WINDOW],
        from: 0,
        size: 0,
    }
}

/// Reads a part of a file from a place on, as much as there is room for, and answers how many bytes came.
fn refill<D: Disk>(
    disk: &mut D,
    source: Published,
    place: u64,
    room: &mut [u8],
) -> Result<usize, DumpStop>
    requires { place ≤ source.limit }
    ensures within { IfOk result (λ size. size ≤ length room.old) }
    ensures reads { IsTrue D.tells → (image : Image) → D.seen disk.old ≡ image → source.limit ≤ length (image source.file)
        → IfOk result (λ size. WindowShows (image source.file) room.new place size source.limit) }
    ensures all { IsTrue D.tells → (image : Image) → D.seen disk.old ≡ image → source.limit ≤ length (image source.file)
        → IfOk result (λ size. size ≡ min (source.limit - place) (length room.old)) }
    ensures alone { IsTrue D.tells → IsLeftAlone D.seen D.synced D.pending D.may_leave D.moment D.left_since disk.old disk.new }
    ensures stop { IfErr result (λ stop. stop ≡ DumpStop.DiskFault) }
    ensures failed { IsErrOf result DumpStop.DiskFault → Rose (D.faults disk.old) (D.faults disk.new) }
    ensures later { D.faults disk.old ≤ D.faults disk.new }
{
    let asked = (source.limit - place).min(room.len() as u64) as usize;
    match read_full(disk, source.file, place, &mut room[..asked]) {
        Ok(size) => Ok(size),
        Err(_) => Err(DumpStop::DiskFault),
    }
}

/// Sees to it that the window shows so many bytes of a file from a place on, and answers where they stand in it.
pub(crate) fn locate<D: Disk>(
    disk: &mut D,
    source: Published,
    place: u64,
    need: usize,
    window: &mut Window,
) -> Result<usize, DumpStop>
    requires room { need ≤ WINDOW }
    requires there { place + need ≤ source.limit }
    ensures within { IfOk result (λ at. at + need ≤ WINDOW) }
    ensures reads { IsTrue D.tells → (image : Image) → D.seen disk.old ≡ image
        → WindowShows (image source.file) window.old.bytes window.old.from window.old.size source.limit
        → OnOk result (WindowShows (image source.file) window.new.bytes window.new.from window.new.size source.limit) }
    ensures told { IsTrue D.tells → (image : Image) → D.seen disk.old ≡ image
        → WindowShows (image source.file) window.old.bytes window.old.from window.old.size source.limit
        → IfOk result (λ at. take need (drop at window.new.bytes) ≡ take need (drop place (image source.file))) }
    ensures whole { IsTrue D.tells → (image : Image) → D.seen disk.old ≡ image
        → WindowShows (image source.file) window.old.bytes window.old.from window.old.size source.limit
        → IsErrOf result DumpStop.Torn → ⊥ }
    ensures alone { IsTrue D.tells → IsLeftAlone D.seen D.synced D.pending D.may_leave D.moment D.left_since disk.old disk.new }
    ensures failed { IsErrOf result DumpStop.DiskFault → Rose (D.faults disk.old) (D.faults disk.new) }
    ensures later { D.faults disk.old ≤ D.faults disk.new }
    ensures link { IsErrOf result DumpStop.LinkFault → ⊥ }
    ensures memory { IsErrOf result DumpStop.Memory → ⊥ }
{
    if window.from <= place && place - window.from + need as u64 <= window.size as u64 {
        return Ok((place - window.from) as usize);
    }
    let size = refill(disk, source, place, &mut window.bytes)?;
    window.from = place;
    window.size = size;
    if size < need {
        return Err(DumpStop::Torn);
    }
    Ok(0)
}
