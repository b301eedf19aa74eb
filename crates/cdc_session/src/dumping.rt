//! One dump.

ghost use Rattle.std.specs.Prelude.{◌≡◌, ℕ, ◌+◌, ◌%◌, ◌≤◌, ◌<◌, ◌^◌, ◌==◌, ◌∷◌, ◌++◌, [], true, false, None, Some, IsTrue, length, OnOk, OnErr, IsErrOf, Ok};
ghost use Rattle.cdc_cell.specs.Reading.{IsLeftAlone};
ghost use Rattle.cdc_outside.specs.Count.{Rose};
ghost use Rattle.cdc_outside.specs.Disk.{Image};
ghost use Rattle.cdc_records.specs.Published.{published_file};
ghost use Rattle.cdc_dumper.specs.Opening.{IsFound, IsFrontOrNone};
ghost use Rattle.cdc_index.specs.Chain.{is_whole_file, is_boundary_of};
ghost use Rattle.cdc_session.specs.Dump.{dump_payloads, are_whole};
ghost use Rattle.cdc_session.specs.Following.{FollowsAnswer, Answered};
ghost use Rattle.cdc_session.specs.Packing.{Packs, SendsRest};
ghost use Rattle.cdc_session.specs.Ends.{session_end_by, refused_by, end_payloads};
ghost use Rattle.cdc_session.specs.Reply.{goes_on, dump_answer, shelf_answer, no_place_payload, packets_from};
ghost use Rattle.cdc_session.specs.Shelf.{Shelf, IsShelf, shelf_files, IsRefusedShelf, HasTornFile, file_at, files_on};

use crate::dump_stop::DumpStop;
use crate::files::pack_dump;
use crate::gathering::{Outgoing, flush, pack};
use crate::naming::find_file;
use crate::session_end::SessionEnd;
use cdc_base::{Blob, Buffer};
use cdc_dumper::{OpenFault, look};
use cdc_index::{ShelfFault, is_boundary};
use cdc_outside::{Disk, Link};
use cdc_packet::write_packet;
use cdc_records::Front;
use std::alloc::Global;

/// There is no such place.
const NO_PLACE: &[u8] = b"\xff\xd4\x04#HY000no such published position";

/// The end of a dump that isn't to wait for more.
const NO_MORE: &[u8] = b"\xfe\0\0\x02\0";

/// The flag of a dump that isn't to wait for more.
const NO_WAITING: u16 = 1;

/// The end of a session in which a dump was broken off.
fn end_of(stop: DumpStop) -> SessionEnd
    ensures { result ≡ session_end_by stop }
{
    match stop {
        DumpStop::LinkFault => SessionEnd::LinkFault,
        DumpStop::DiskFault => SessionEnd::DiskFault,
        DumpStop::Torn => SessionEnd::Torn,
        DumpStop::Memory => SessionEnd::Memory,
    }
}

/// Sends one payload.
pub(crate) fn send<L: Link>(link: &mut L, sequence: u8, payload: &[u8]) -> Result<(), SessionEnd>
    ensures told { IsTrue L.tells → FollowsAnswer (goes_on (payload.now ∷ [])) sequence (L.written link.old) (L.written link.new) result }
    ensures disk { IsErrOf result SessionEnd.DiskFault → ⊥ }
    ensures torn { IsErrOf result SessionEnd.Torn → ⊥ }
    ensures kept { (fault : OpenFault) → IsErrOf result (SessionEnd.Kept fault) → ⊥ }
    ensures link_failed { IsErrOf result SessionEnd.LinkFault → Rose (L.faults link.old) (L.faults link.new) }
    ensures link_later { L.faults link.old ≤ L.faults link.new }
    ensures input { L.input link.new ≡ L.input link.old }
    ensures left { L.left link.new ≡ L.left link.old }
{
    match write_packet(link, sequence, payload, &[]) {
        Ok(_) => Ok(()),
        Err(_) => Err(SessionEnd::LinkFault),
    }
}

/// Gathers the payload that ends a dump, where it isn't to wait for more.
fn pack_end<L: Link>(link: &mut L, out: &mut Outgoing, flags: u16) -> Result<(), DumpStop>
    ensures told { IsTrue L.tells → Packs (L.written link.old) out.old.held out.old.sequence (end_payloads flags)
        (L.written link.new) out.new.held out.new.sequence result }
    ensures disk { IsErrOf result DumpStop.DiskFault → ⊥ }
    ensures torn { IsErrOf result DumpStop.Torn → ⊥ }
    ensures link_failed { IsErrOf result DumpStop.LinkFault → Rose (L.faults link.old) (L.faults link.new) }
    ensures link_later { L.faults link.old ≤ L.faults link.new }
    ensures input { L.input link.new ≡ L.input link.old }
    ensures left { L.left link.new ≡ L.left link.old }
{
    if flags % 2 == NO_WAITING {
        pack(link, out, NO_MORE, &[])
    } else {
        Ok(())
    }
}

/// Sends what is held back of a dump, and its end.
fn finish<L: Link>(link: &mut L, out: &mut Outgoing, flags: u16) -> Result<(), DumpStop>
    ensures told { IsTrue L.tells → SendsRest (L.written link.old) out.old.held (packets_from out.old.sequence (end_payloads flags)) (L.written link.new) result }
    ensures disk { IsErrOf result DumpStop.DiskFault → ⊥ }
    ensures torn { IsErrOf result DumpStop.Torn → ⊥ }
    ensures link_failed { IsErrOf result DumpStop.LinkFault → Rose (L.faults link.old) (L.faults link.new) }
    ensures link_later { L.faults link.old ≤ L.faults link.new }
    ensures input { L.input link.new ≡ L.input link.old }
    ensures left { L.left link.new ≡ L.left link.old }
{
    if let Err(stop) = pack_end(link, out, flags) {
        return Err(stop);
    }
    flush(link, &mut out.held)
}

/// Sends a dump from a boundary of a whole file on.
fn send_dump<D: Disk, L: Link>(
    alloc: Global,
    disk: &mut D,
    link: &mut L,
    sequence: u8,
    front: &Front,
    number: u64,
    at: u64,
    flags: u16,
) -> Result<(), SessionEnd>
    requires kept { front.now.first ≤ number }
    requires published { number ≤ front.now.file }
    requires near { front.now.file < 2 ^ 63 }
    ensures told { IsTrue D.tells → IsTrue L.tells → (image : Image) → D.seen disk.old ≡ image
        → is_whole_file (published_file front.now image number) ≡ true → is_boundary_of (published_file front.now image number) at ≡ true
        → FollowsAnswer (dump_answer at flags (files_on front.now image number)) sequence (L.written link.old) (L.written link.new) result }
    ensures kept { (fault : OpenFault) → IsErrOf result (SessionEnd.Kept fault) → ⊥ }
    ensures torn { IsTrue D.tells → (image : Image) → D.seen disk.old ≡ image
        → is_whole_file (published_file front.now image number) ≡ true → is_boundary_of (published_file front.now image number) at ≡ true
        → IsErrOf result SessionEnd.Torn → are_whole (files_on front.now image (number + 1)) ≡ false }
    ensures disk_failed { IsErrOf result SessionEnd.DiskFault → Rose (D.faults disk.old) (D.faults disk.new) }
    ensures disk_later { D.faults disk.old ≤ D.faults disk.new }
    ensures link_failed { IsErrOf result SessionEnd.LinkFault → Rose (L.faults link.old) (L.faults link.new) }
    ensures link_later { L.faults link.old ≤ L.faults link.new }
    ensures alone { IsTrue D.tells → IsLeftAlone D.seen D.synced D.pending D.may_leave D.moment D.left_since disk.old disk.new }
    ensures input { L.input link.new ≡ L.input link.old }
    ensures left { L.left link.new ≡ L.left link.old }
{
    let mut out = Outgoing {
        held: Buffer::new(alloc),
        sequence,
    };
    if let Err(stop) = pack_dump(alloc, disk, link, &mut out, front, number, at) {
        return Err(end_of(stop));
    }
    if let Err(stop) = finish(link, &mut out, flags) {
        return Err(end_of(stop));
    }
    if flags % 2 == NO_WAITING {
        Ok(())
    } else {
        Err(SessionEnd::Closed)
    }
}

/// Answers a dump from a place of a published file on.
fn dump_file<D: Disk, L: Link>(
    alloc: Global,
    disk: &mut D,
    link: &mut L,
    sequence: u8,
    front: &Front,
    number: u64,
    at: u64,
    flags: u16,
) -> Result<(), SessionEnd>
    requires kept { front.now.first ≤ number }
    requires published { number ≤ front.now.file }
    requires near { front.now.file < 2 ^ 63 }
    ensures told { IsTrue D.tells → IsTrue L.tells → (image : Image) → D.seen disk.old ≡ image
        → FollowsAnswer (dump_answer at flags (files_on front.now image number)) sequence (L.written link.old) (L.written link.new) result }
    ensures kept { (fault : OpenFault) → IsErrOf result (SessionEnd.Kept fault) → ⊥ }
    ensures torn { IsTrue D.tells → (image : Image) → D.seen disk.old ≡ image
        → IsErrOf result SessionEnd.Torn → are_whole (files_on front.now image number) ≡ false }
    ensures disk_failed { IsErrOf result SessionEnd.DiskFault → Rose (D.faults disk.old) (D.faults disk.new) }
    ensures disk_later { D.faults disk.old ≤ D.faults disk.new }
    ensures link_failed { IsErrOf result SessionEnd.LinkFault → Rose (L.faults link.old) (L.faults link.new) }
    ensures link_later { L.faults link.old ≤ L.faults link.new }
    ensures alone { IsTrue D.tells → IsLeftAlone D.seen D.synced D.pending D.may_leave D.moment D.left_since disk.old disk.new }
    ensures input { L.input link.new ≡ L.input link.old }
    ensures left { L.left link.new ≡ L.left link.old }
{
    match is_boundary(disk, front, number, at) {
        Ok(true) => send_dump(alloc, disk, link, sequence, front, number, at, flags),
        Ok(false) => send(link, sequence, NO_PLACE),
        Err(ShelfFault::DiskFault) => Err(SessionEnd::DiskFault),
        Err(ShelfFault::Torn) => Err(SessionEnd::Torn),
    }
}

/// Answers a dump over the published files of a Front.
fn dump_front<D: Disk, L: Link>(
    alloc: Global,
    disk: &mut D,
    link: &mut L,
    sequence: u8,
    front: &Front,
    name: &Blob,
    at: u64,
    flags: u16,
) -> Result<(), SessionEnd>
    requires shaped { IsFrontOrNone front.now }
    ensures told { IsTrue D.tells → IsTrue L.tells → (image : Image) → D.seen disk.old ≡ image
        → FollowsAnswer (shelf_answer (Ok (shelf_files front.now image)) at flags name.now) sequence (L.written link.old) (L.written link.new) result }
    ensures kept { (fault : OpenFault) → IsErrOf result (SessionEnd.Kept fault) → ⊥ }
    ensures torn { IsTrue D.tells → (image : Image) → D.seen disk.old ≡ image → IsErrOf result SessionEnd.Torn
        → IsFound image front.now → HasTornFile image }
    ensures disk_failed { IsErrOf result SessionEnd.DiskFault → Rose (D.faults disk.old) (D.faults disk.new) }
    ensures disk_later { D.faults disk.old ≤ D.faults disk.new }
    ensures link_failed { IsErrOf result SessionEnd.LinkFault → Rose (L.faults link.old) (L.faults link.new) }
    ensures link_later { L.faults link.old ≤ L.faults link.new }
    ensures alone { IsTrue D.tells → IsLeftAlone D.seen D.synced D.pending D.may_leave D.moment D.left_since disk.old disk.new }
    ensures input { L.input link.new ≡ L.input link.old }
    ensures left { L.left link.new ≡ L.left link.old }
{
    match find_file(alloc, front, name.bytes()) {
        Ok(Some(number)) => dump_file(alloc, disk, link, sequence, front, number, at, flags),
        Ok(None) => send(link, sequence, NO_PLACE),
        Err(_) => Err(SessionEnd::Memory),
    }
}

/// Why a shelf is refused.
fn refusal(fault: OpenFault) -> SessionEnd
    ensures { result ≡ refused_by fault }
{
    match fault {
        OpenFault::DiskFault => SessionEnd::DiskFault,
        OpenFault::BadCell(slot) => SessionEnd::Kept(OpenFault::BadCell(slot)),
        OpenFault::BadFront { kept, found } => {
            SessionEnd::Kept(OpenFault::BadFront { kept, found })
        }
    }
}

/// Answers a dump: looks at the shelf, and sends what is asked for.
pub(crate) fn dump<D: Disk, L: Link>(
    alloc: Global,
    shelf: &mut D,
    link: &mut L,
    sequence: u8,
    name: &Blob,
    at: u64,
    flags: u16,
) -> Result<(), SessionEnd>
    ensures told { IsTrue D.tells → IsTrue L.tells → (found : Shelf) → IsShelf (D.seen shelf.old) found
        → FollowsAnswer (shelf_answer found at flags name.now) sequence (L.written link.old) (L.written link.new) result }
    ensures kept { IsTrue D.tells → (fault : OpenFault) → IsErrOf result (SessionEnd.Kept fault) → IsRefusedShelf (D.seen shelf.old) fault }
    ensures torn { IsTrue D.tells → IsErrOf result SessionEnd.Torn → HasTornFile (D.seen shelf.old) }
    ensures disk_failed { IsErrOf result SessionEnd.DiskFault → Rose (D.faults shelf.old) (D.faults shelf.new) }
    ensures disk_later { D.faults shelf.old ≤ D.faults shelf.new }
    ensures link_failed { IsErrOf result SessionEnd.LinkFault → Rose (L.faults link.old) (L.faults link.new) }
    ensures link_later { L.faults link.old ≤ L.faults link.new }
    ensures alone { IsTrue D.tells → IsLeftAlone D.seen D.synced D.pending D.may_leave D.moment D.left_since shelf.old shelf.new }
    ensures input { L.input link.new ≡ L.input link.old }
    ensures left { L.left link.new ≡ L.left link.old }
{
    match look(shelf) {
        Ok(front) => dump_front(alloc, shelf, link, sequence, &front, name, at, flags),
        Err(fault) => Err(refusal(fault)),
    }
}
