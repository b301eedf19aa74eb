//! Places of a shelf: an output as far as it is published.

ghost use Rattle.std.specs.Prelude.{◌≡◌, ℕ, ◌+◌, ◌≤◌, ◌<◌, IsTrue, length, IsErrOf, IfOk, SomeIff};
ghost use Rattle.cdc_cell.specs.Reading.{IsLeftAlone};
ghost use Rattle.cdc_outside.specs.Count.{Rose, RisesOnErr};
ghost use Rattle.cdc_records.specs.Published.{published_file};
ghost use Rattle.cdc_index.specs.Shelf.{TellsBoundary};

use crate::scan::scan;
use crate::shelf_fault::ShelfFault;
use cdc_cell::DiskFault;
use cdc_outside::{Disk, DiskFile};
use cdc_records::Front;

/// How many bytes of a file are published: all of a file before the Front's, and of that one at most as many as the
/// Front says.
pub fn published_length<D: Disk>(disk: &mut D, front: &Front, file: u64) -> Result<u64, DiskFault>
    ensures told { IsTrue D.tells → IfOk result (λ bytes. bytes ≡ length (published_file front.now (D.seen disk.old) file)) }
    ensures alone { IsTrue D.tells → IsLeftAlone D.seen D.synced D.pending D.may_leave D.moment D.left_since disk.old disk.new }
    ensures faults { RisesOnErr (D.faults disk.old) (D.faults disk.new) result }
{
    let bytes = disk.length(DiskFile::Log(file))?;
    if file == front.file {
        Ok(bytes.min(front.length))
    } else {
        Ok(bytes)
    }
}

/// Whether a dump of a published file may begin at a place: it is 4, the place behind the magic, or the end of an
/// event in what is published of the file. The file is only read.
///
/// `Torn` comes exactly where what is published of the file isn't the magic and whole events to its end, by their
/// lengths.
pub fn is_boundary<D: Disk>(
    disk: &mut D,
    front: &Front,
    file: u64,
    at: u64,
) -> Result<bool, ShelfFault>
    requires kept { front.now.first ≤ file }
    requires published { file ≤ front.now.file }
    ensures told { IsTrue D.tells → TellsBoundary (published_file front.now (D.seen disk.old) file) at result }

    // It never fails by itself.
    ensures failed { IsErrOf result ShelfFault.DiskFault → Rose (D.faults disk.old) (D.faults disk.new) }
    ensures later { D.faults disk.old ≤ D.faults disk.new }

    ensures alone { IsTrue D.tells → IsLeftAlone D.seen D.synced D.pending D.may_leave D.moment D.left_since disk.old disk.new }
{
    match published_length(disk, front, file) {
        Ok(limit) => scan(disk, DiskFile::Log(file), limit, at),
        Err(_) => Err(ShelfFault::DiskFault),
    }
}

/// The number of the file behind one; none exactly where that one isn't below the Front's.
pub fn next_file(front: &Front, file: u64) -> Option<u64>
    ensures { SomeIff result (file < front.now.file) (file + 1) }
{
    if file < front.file {
        Some(file + 1)
    } else {
        None
    }
}
