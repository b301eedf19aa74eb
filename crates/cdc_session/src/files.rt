//! Whole files, and parts of them.

ghost use Rattle.std.specs.Prelude.{◌≡◌, ℕ, ◌+◌, ◌≤◌, ◌<◌, ◌^◌, true, false, ◌∷◌, ◌++◌, [], IsTrue, length, IfOk, IfErr, OnOk, IsErrOf};
ghost use Rattle.cdc_cell.specs.Reading.{IsLeftAlone};
ghost use Rattle.cdc_outside.specs.Count.{Rose};
ghost use Rattle.cdc_outside.specs.Disk.{Image};
ghost use Rattle.cdc_records.specs.Published.{published_file};
ghost use Rattle.cdc_index.specs.Chain.{is_whole_file, is_boundary_of};
ghost use Rattle.cdc_session.specs.Dump.{as_payloads, rotate_to, first_event, events_from, file_part, whole_payloads, dump_payloads, are_whole};
ghost use Rattle.cdc_session.specs.Packing.{Packs};
ghost use Rattle.cdc_session.specs.Shelf.{file_at, files_on};

use crate::dump_stop::DumpStop;
use crate::events::pack_part;
use crate::gathering::{Outgoing, pack};
use crate::naming::rotate_bytes;
use crate::window::{Published, new_window};
use cdc_index::{ShelfFault, is_boundary, next_file, published_length};
use cdc_outside::{Disk, DiskFile, Link};
use cdc_records::Front;
use std::alloc::Global;

/// The place behind a file's magic.
const EVENTS: u64 = 4;

/// Gathers the packet that tells a client a file and a place in it.
fn pack_rotate<L: Link>(
    alloc: Global,
    link: &mut L,
    out: &mut Outgoing,
    number: u64,
    at: u64,
) -> Result<(), DumpStop>
    ensures told { IsTrue L.tells → Packs (L.written link.old) out.old.held out.old.sequence (as_payloads (rotate_to number at ∷ []))
        (L.written link.new) out.new.held out.new.sequence result }
    ensures disk { IsErrOf result DumpStop.DiskFault → ⊥ }
    ensures torn { IsErrOf result DumpStop.Torn → ⊥ }
    ensures link_failed { IsErrOf result DumpStop.LinkFault → Rose (L.faults link.old) (L.faults link.new) }
    ensures link_later { L.faults link.old ≤ L.faults link.new }
    ensures input { L.input link.new ≡ L.input link.old }
    ensures left { L.left link.new ≡ L.left link.old }
{
    match rotate_bytes(alloc, number, at) {
        Ok(rotate) => pack(link, out, &[0], rotate.bytes()),
        Err(_) => Err(DumpStop::Memory),
    }
}

/// What is published of a file.
fn published<D: Disk>(disk: &mut D, front: &Front, number: u64) -> Result<Published, DumpStop>
    ensures file { IfOk result (λ source. source.file ≡ DiskFile.Log number) }
    ensures told { IsTrue D.tells → IfOk result (λ source. source.limit ≡ length (published_file front.now (D.seen disk.old) number)) }
    ensures alone { IsTrue D.tells → IsLeftAlone D.seen D.synced D.pending D.may_leave D.moment D.left_since disk.old disk.new }
    ensures stop { IfErr result (λ stop. stop ≡ DumpStop.DiskFault) }
    ensures failed { IsErrOf result DumpStop.DiskFault → Rose (D.faults disk.old) (D.faults disk.new) }
    ensures later { D.faults disk.old ≤ D.faults disk.new }
{
    match published_length(disk, front, number) {
        Ok(limit) => Ok(Published {
            file: DiskFile::Log(number),
            limit,
        }),
        Err(_) => Err(DumpStop::DiskFault),
    }
}

/// Gathers the packets of the published events of a file from a place on, behind its first where the place is behind it.
fn pack_published<D: Disk, L: Link>(
    disk: &mut D,
    link: &mut L,
    out: &mut Outgoing,
    front: &Front,
    number: u64,
    at: u64,
) -> Result<(), DumpStop>
    ensures told { IsTrue D.tells → IsTrue L.tells → (image : Image) → D.seen disk.old ≡ image
        → Packs (L.written link.old) out.old.held out.old.sequence
        (as_payloads (first_event at (published_file front.now image number) ++ events_from at (published_file front.now image number)))
        (L.written link.new) out.new.held out.new.sequence result }
    ensures whole { IsTrue D.tells → (image : Image) → D.seen disk.old ≡ image
        → is_whole_file (published_file front.now image number) ≡ true → is_boundary_of (published_file front.now image number) at ≡ true
        → IsErrOf result DumpStop.Torn → ⊥ }
    ensures disk_failed { IsErrOf result DumpStop.DiskFault → Rose (D.faults disk.old) (D.faults disk.new) }
    ensures disk_later { D.faults disk.old ≤ D.faults disk.new }
    ensures link_failed { IsErrOf result DumpStop.LinkFault → Rose (L.faults link.old) (L.faults link.new) }
    ensures link_later { L.faults link.old ≤ L.faults link.new }
    ensures alone { IsTrue D.tells → IsLeftAlone D.seen D.synced D.pending D.may_leave D.moment D.left_since disk.old disk.new }
    ensures input { L.input link.new ≡ L.input link.old }
    ensures left { L.left link.new ≡ L.left link.old }
{
    let source = match published(disk, front, number) {
        Ok(source) => source,
        Err(stop) => return Err(stop),
    };
    if at > source.limit {
        return Err(DumpStop::Torn);
    }
    let mut window = new_window();
    pack_part(disk, link, out, source, at, &mut window)
}

/// Gathers the packets of a file from a place on.
fn pack_file<D: Disk, L: Link>(
    alloc: Global,
    disk: &mut D,
    link: &mut L,
    out: &mut Outgoing,
    front: &Front,
    number: u64,
    at: u64,
) -> Result<(), DumpStop>
    ensures told { IsTrue D.tells → IsTrue L.tells → (image : Image) → D.seen disk.old ≡ image
        → Packs (L.written link.old) out.old.held out.old.sequence (as_payloads (file_part at (file_at front.now image number)))
        (L.written link.new) out.new.held out.new.sequence result }
    ensures whole { IsTrue D.tells → (image : Image) → D.seen disk.old ≡ image
        → is_whole_file (published_file front.now image number) ≡ true → is_boundary_of (published_file front.now image number) at ≡ true
        → IsErrOf result DumpStop.Torn → ⊥ }
    ensures disk_failed { IsErrOf result DumpStop.DiskFault → Rose (D.faults disk.old) (D.faults disk.new) }
    ensures disk_later { D.faults disk.old ≤ D.faults disk.new }
    ensures link_failed { IsErrOf result DumpStop.LinkFault → Rose (L.faults link.old) (L.faults link.new) }
    ensures link_later { L.faults link.old ≤ L.faults link.new }
    ensures alone { IsTrue D.tells → IsLeftAlone D.seen D.synced D.pending D.may_leave D.moment D.left_since disk.old disk.new }
    ensures input { L.input link.new ≡ L.input link.old }
    ensures left { L.left link.new ≡ L.left link.old }
{
    if let Err(stop) = pack_rotate(alloc, link, out, number, at) {
        return Err(stop);
    }
    pack_published(disk, link, out, front, number, at)
}

/// Sees to it that a file is whole.
fn check_whole<D: Disk>(disk: &mut D, front: &Front, number: u64) -> Result<(), DumpStop>
    requires kept { front.now.first ≤ number }
    requires published { number ≤ front.now.file }
    ensures ok { IsTrue D.tells → (image : Image) → D.seen disk.old ≡ image → OnOk result (is_whole_file (published_file front.now image number) ≡ true) }
    ensures torn { IsTrue D.tells → (image : Image) → D.seen disk.old ≡ image → IsErrOf result DumpStop.Torn → is_whole_file (published_file front.now image number) ≡ false }
    ensures alone { IsTrue D.tells → IsLeftAlone D.seen D.synced D.pending D.may_leave D.moment D.left_since disk.old disk.new }
    ensures failed { IsErrOf result DumpStop.DiskFault → Rose (D.faults disk.old) (D.faults disk.new) }
    ensures later { D.faults disk.old ≤ D.faults disk.new }
    ensures link { IsErrOf result DumpStop.LinkFault → ⊥ }
{
    match is_boundary(disk, front, number, EVENTS) {
        Ok(_) => Ok(()),
        Err(ShelfFault::DiskFault) => Err(DumpStop::DiskFault),
        Err(ShelfFault::Torn) => Err(DumpStop::Torn),
    }
}

/// Gathers the packets of a whole file, where it is one.
fn pack_whole<D: Disk, L: Link>(
    alloc: Global,
    disk: &mut D,
    link: &mut L,
    out: &mut Outgoing,
    front: &Front,
    number: u64,
) -> Result<(), DumpStop>
    requires kept { front.now.first ≤ number }
    requires published { number ≤ front.now.file }
    ensures told { IsTrue D.tells → IsTrue L.tells → (image : Image) → D.seen disk.old ≡ image
        → Packs (L.written link.old) out.old.held out.old.sequence (as_payloads (file_part 4 (file_at front.now image number)))
        (L.written link.new) out.new.held out.new.sequence result }
    ensures ok { IsTrue D.tells → (image : Image) → D.seen disk.old ≡ image → OnOk result (is_whole_file (published_file front.now image number) ≡ true) }
    ensures torn { IsTrue D.tells → (image : Image) → D.seen disk.old ≡ image → IsErrOf result DumpStop.Torn → is_whole_file (published_file front.now image number) ≡ false }
    ensures disk_failed { IsErrOf result DumpStop.DiskFault → Rose (D.faults disk.old) (D.faults disk.new) }
    ensures disk_later { D.faults disk.old ≤ D.faults disk.new }
    ensures link_failed { IsErrOf result DumpStop.LinkFault → Rose (L.faults link.old) (L.faults link.new) }
    ensures link_later { L.faults link.old ≤ L.faults link.new }
    ensures alone { IsTrue D.tells → IsLeftAlone D.seen D.synced D.pending D.may_leave D.moment D.left_since disk.old disk.new }
    ensures input { L.input link.new ≡ L.input link.old }
    ensures left { L.left link.new ≡ L.left link.old }
{
    if let Err(stop) = check_whole(disk, front, number) {
        return Err(stop);
    }
    pack_file(alloc, disk, link, out, front, number, EVENTS)
}

/// Gathers the packets of the files behind one.
fn pack_behind<D: Disk, L: Link>(
    alloc: Global,
    disk: &mut D,
    link: &mut L,
    out: &mut Outgoing,
    front: &Front,
    number: u64,
) -> Result<(), DumpStop>
    requires kept { front.now.first ≤ number }
    requires published { number ≤ front.now.file }
    requires near { front.now.file < 2 ^ 63 }
    ensures told { IsTrue D.tells → IsTrue L.tells → (image : Image) → D.seen disk.old ≡ image
        → Packs (L.written link.old) out.old.held out.old.sequence (whole_payloads (files_on front.now image (number + 1)))
        (L.written link.new) out.new.held out.new.sequence result }
    ensures ok { IsTrue D.tells → (image : Image) → D.seen disk.old ≡ image → OnOk result (are_whole (files_on front.now image (number + 1)) ≡ true) }
    ensures torn { IsTrue D.tells → (image : Image) → D.seen disk.old ≡ image → IsErrOf result DumpStop.Torn → are_whole (files_on front.now image (number + 1)) ≡ false }
    ensures disk_failed { IsErrOf result DumpStop.DiskFault → Rose (D.faults disk.old) (D.faults disk.new) }
    ensures disk_later { D.faults disk.old ≤ D.faults disk.new }
    ensures link_failed { IsErrOf result DumpStop.LinkFault → Rose (L.faults link.old) (L.faults link.new) }
    ensures link_later { L.faults link.old ≤ L.faults link.new }
    ensures alone { IsTrue D.tells → IsLeftAlone D.seen D.synced D.pending D.may_leave D.moment D.left_since disk.old disk.new }
    ensures input { L.input link.new ≡ L.input link.old }
    ensures left { L.left link.new ≡ L.left link.old }
{
    let mut file = number;
    while let Some(next) = next_file(front, file) {
        if let Err(stop) = pack_whole(alloc, disk, link, out, front, next) {
            return Err(stop);
        }
        file = next;
    }
    Ok(())
}

/// Gathers the packets of a dump from a place of a whole file on.
pub(crate) fn pack_dump<D: Disk, L: Link>(
    alloc: Global,
    disk: &mut D,
    link: &mut L,
    out: &mut Outgoing,
    front: &Front,
    number: u64,
    at: u64,
) -> Result<(), DumpStop>
    requires kept { front.now.first ≤ number }
    requires published { number ≤ front.now.file }
    requires near { front.now.file < 2 ^ 63 }
    ensures told { IsTrue D.tells → IsTrue L.tells → (image : Image) → D.seen disk.old ≡ image
        → Packs (L.written link.old) out.old.held out.old.sequence (dump_payloads at (file_at front.now image number) (files_on front.now image (number + 1)))
        (L.written link.new) out.new.held out.new.sequence result }
    ensures ok { IsTrue D.tells → (image : Image) → D.seen disk.old ≡ image → OnOk result (are_whole (files_on front.now image (number + 1)) ≡ true) }
    ensures torn { IsTrue D.tells → (image : Image) → D.seen disk.old ≡ image
        → is_whole_file (published_file front.now image number) ≡ true → is_boundary_of (published_file front.now image number) at ≡ true
        → IsErrOf result DumpStop.Torn → are_whole (files_on front.now image (number + 1)) ≡ false }
    ensures disk_failed { IsErrOf result DumpStop.DiskFault → Rose (D.faults disk.old) (D.faults disk.new) }
    ensures disk_later { D.faults disk.old ≤ D.faults disk.new }
    ensures link_failed { IsErrOf result DumpStop.LinkFault → Rose (L.faults link.old) (L.faults link.new) }
    ensures link_later { L.faults link.old ≤ L.faults link.new }
    ensures alone { IsTrue D.tells → IsLeftAlone D.seen D.synced D.pending D.may_leave D.moment D.left_since disk.old disk.new }
    ensures input { L.input link.new ≡ L.input link.old }
    ensures left { L.left link.new ≡ L.left link.old }
{
    if let Err(stop) = pack_file(alloc, disk, link, out, front, number, at) {
        return Err(stop);
    }
    pack_behind(alloc, disk, link, out, front, number)
}
