//! A payload of any length: its first bytes, then a part of a file.

ghost use Rattle.std.specs.Prelude.{◌≡◌, ℕ, ◌+◌, ◌-◌, ◌≤◌, ◌<◌, ◌∷◌, ◌++◌, [], ◌%◌, IsTrue, length, take, drop, IfOk, OnOk, IsErrOf, MatchResult};
ghost use Rattle.cdc_cell.specs.Reading.{IsLeftAlone};
ghost use Rattle.cdc_outside.specs.Count.{Rose};
ghost use Rattle.cdc_outside.specs.Disk.{Image};
ghost use Rattle.cdc_packet.specs.Packet.{packet_head};
ghost use Rattle.cdc_session.specs.Packing.{GoesOut, Breaks, Gathers, Packs};
ghost use Rattle.cdc_session.specs.Reading.{WindowShows};

use crate::dump_stop::DumpStop;
use crate::gathering::{Outgoing, gather, gather_both, pack};
use crate::window::{Published, WINDOW, Window, locate};
use cdc_base::Buffer;
use cdc_outside::{Disk, Link};
use cdc_packet::{PACKET_MAX, head_of};

/// The most bytes that stand before a part of a file in a payload.
pub(crate) const LEAD_MAX: usize = 20;

/// Gathers one piece of a file, and answers how many bytes it has.
fn copy_piece<D: Disk, L: Link>(
    disk: &mut D,
    link: &mut L,
    held: &mut Buffer,
    source: Published,
    place: u64,
    more: u64,
    window: &mut Window,
) -> Result<u64, DumpStop>
    requires some { 0 < more }
    requires there { place + more ≤ source.limit }
    ensures within { IfOk result (λ count. (count ≤ more) × (0 < count)) }
    ensures reads { IsTrue D.tells → (image : Image) → D.seen disk.old ≡ image
        → WindowShows (image source.file) window.old.bytes window.old.from window.old.size source.limit
        → OnOk result (WindowShows (image source.file) window.new.bytes window.new.from window.new.size source.limit) }
    ensures told { IsTrue D.tells → IsTrue L.tells → (image : Image) → D.seen disk.old ≡ image
        → WindowShows (image source.file) window.old.bytes window.old.from window.old.size source.limit
        → MatchResult result
        (λ count. GoesOut (L.written link.old) held.old (take count (drop place (image source.file))) (L.written link.new) held.new)
        (λ _. Breaks (L.written link.old) held.old (take more (drop place (image source.file))) (L.written link.new)) }
    ensures whole { IsTrue D.tells → (image : Image) → D.seen disk.old ≡ image
        → WindowShows (image source.file) window.old.bytes window.old.from window.old.size source.limit
        → IsErrOf result DumpStop.Torn → ⊥ }
    ensures disk_failed { IsErrOf result DumpStop.DiskFault → Rose (D.faults disk.old) (D.faults disk.new) }
    ensures disk_later { D.faults disk.old ≤ D.faults disk.new }
    ensures link_failed { IsErrOf result DumpStop.LinkFault → Rose (L.faults link.old) (L.faults link.new) }
    ensures link_later { L.faults link.old ≤ L.faults link.new }
    ensures alone { IsTrue D.tells → IsLeftAlone D.seen D.synced D.pending D.may_leave D.moment D.left_since disk.old disk.new }
    ensures input { L.input link.new ≡ L.input link.old }
    ensures left { L.left link.new ≡ L.left link.old }
{
    let count = more.min(WINDOW as u64) as usize;
    match locate(disk, source, place, count, window) {
        Ok(at) => match gather(link, held, &window.bytes[at..at + count]) {
            Ok(()) => Ok(count as u64),
            Err(stop) => Err(stop),
        },
        Err(stop) => Err(stop),
    }
}

/// Gathers a part of a file: `count` bytes from a place on.
fn copy<D: Disk, L: Link>(
    disk: &mut D,
    link: &mut L,
    held: &mut Buffer,
    source: Published,
    at: u64,
    count: u64,
    window: &mut Window,
) -> Result<(), DumpStop>
    requires there { at + count ≤ source.limit }
    ensures reads { IsTrue D.tells → (image : Image) → D.seen disk.old ≡ image
        → WindowShows (image source.file) window.old.bytes window.old.from window.old.size source.limit
        → OnOk result (WindowShows (image source.file) window.new.bytes window.new.from window.new.size source.limit) }
    ensures told { IsTrue D.tells → IsTrue L.tells → (image : Image) → D.seen disk.old ≡ image
        → WindowShows (image source.file) window.old.bytes window.old.from window.old.size source.limit
        → Gathers (L.written link.old) held.old (take count (drop at (image source.file))) (L.written link.new) held.new result }
    ensures whole { IsTrue D.tells → (image : Image) → D.seen disk.old ≡ image
        → WindowShows (image source.file) window.old.bytes window.old.from window.old.size source.limit
        → IsErrOf result DumpStop.Torn → ⊥ }
    ensures disk_failed { IsErrOf result DumpStop.DiskFault → Rose (D.faults disk.old) (D.faults disk.new) }
    ensures disk_later { D.faults disk.old ≤ D.faults disk.new }
    ensures link_failed { IsErrOf result DumpStop.LinkFault → Rose (L.faults link.old) (L.faults link.new) }
    ensures link_later { L.faults link.old ≤ L.faults link.new }
    ensures alone { IsTrue D.tells → IsLeftAlone D.seen D.synced D.pending D.may_leave D.moment D.left_since disk.old disk.new }
    ensures input { L.input link.new ≡ L.input link.old }
    ensures left { L.left link.new ≡ L.left link.old }
{
    let mut done = 0;
    while done < count {
        match copy_piece(disk, link, held, source, at + done, count - done, window) {
            Ok(size) => done += size,
            Err(stop) => return Err(stop),
        }
    }
    Ok(())
}

/// Gathers one packet: its head, its first bytes, and a part of a file.
fn pack_part<D: Disk, L: Link>(
    disk: &mut D,
    link: &mut L,
    out: &mut Outgoing,
    source: Published,
    lead: &[u8],
    at: u64,
    count: u64,
    window: &mut Window,
) -> Result<(), DumpStop>
    requires fits { length lead.now + count ≤ PACKET_MAX }
    requires there { at + count ≤ source.limit }
    ensures reads { IsTrue D.tells → (image : Image) → D.seen disk.old ≡ image
        → WindowShows (image source.file) window.old.bytes window.old.from window.old.size source.limit
        → OnOk result (WindowShows (image source.file) window.new.bytes window.new.from window.new.size source.limit) }
    ensures told { IsTrue D.tells → IsTrue L.tells → (image : Image) → D.seen disk.old ≡ image
        → WindowShows (image source.file) window.old.bytes window.old.from window.old.size source.limit
        → Gathers (L.written link.old) out.old.held
        ((packet_head (length lead.now + count) out.old.sequence ++ lead.now) ++ take count (drop at (image source.file)))
        (L.written link.new) out.new.held result }
    ensures whole { IsTrue D.tells → (image : Image) → D.seen disk.old ≡ image
        → WindowShows (image source.file) window.old.bytes window.old.from window.old.size source.limit
        → IsErrOf result DumpStop.Torn → ⊥ }
    ensures number { OnOk result (out.new.sequence ≡ (out.old.sequence + 1) % 256) }
    ensures disk_failed { IsErrOf result DumpStop.DiskFault → Rose (D.faults disk.old) (D.faults disk.new) }
    ensures disk_later { D.faults disk.old ≤ D.faults disk.new }
    ensures link_failed { IsErrOf result DumpStop.LinkFault → Rose (L.faults link.old) (L.faults link.new) }
    ensures link_later { L.faults link.old ≤ L.faults link.new }
    ensures alone { IsTrue D.tells → IsLeftAlone D.seen D.synced D.pending D.may_leave D.moment D.left_since disk.old disk.new }
    ensures input { L.input link.new ≡ L.input link.old }
    ensures left { L.left link.new ≡ L.left link.old }
{
    let head = head_of(lead.len() + count as usize, out.sequence);
    if let Err(stop) = gather_both(link, &mut out.held, &head, lead) {
        return Err(stop);
    }
    if let Err(stop) = copy(disk, link, &mut out.held, source, at, count, window) {
        return Err(stop);
    }
    out.sequence = out.sequence.wrapping_add(1);
    Ok(())
}

/// Gathers the packets of a payload of more bytes than a window shows: its first bytes, and a part of a file.
fn pack_large<D: Disk, L: Link>(
    disk: &mut D,
    link: &mut L,
    out: &mut Outgoing,
    source: Published,
    first: &[u8],
    at: u64,
    size: u64,
    window: &mut Window,
) -> Result<(), DumpStop>
    requires short { length first.now ≤ LEAD_MAX }
    requires there { at + size ≤ source.limit }
    ensures reads { IsTrue D.tells → (image : Image) → D.seen disk.old ≡ image
        → WindowShows (image source.file) window.old.bytes window.old.from window.old.size source.limit
        → OnOk result (WindowShows (image source.file) window.new.bytes window.new.from window.new.size source.limit) }
    ensures told { IsTrue D.tells → IsTrue L.tells → (image : Image) → D.seen disk.old ≡ image
        → WindowShows (image source.file) window.old.bytes window.old.from window.old.size source.limit
        → Packs (L.written link.old) out.old.held out.old.sequence ((first.now ++ take size (drop at (image source.file))) ∷ [])
        (L.written link.new) out.new.held out.new.sequence result }
    ensures whole { IsTrue D.tells → (image : Image) → D.seen disk.old ≡ image
        → WindowShows (image source.file) window.old.bytes window.old.from window.old.size source.limit
        → IsErrOf result DumpStop.Torn → ⊥ }
    ensures disk_failed { IsErrOf result DumpStop.DiskFault → Rose (D.faults disk.old) (D.faults disk.new) }
    ensures disk_later { D.faults disk.old ≤ D.faults disk.new }
    ensures link_failed { IsErrOf result DumpStop.LinkFault → Rose (L.faults link.old) (L.faults link.new) }
    ensures link_later { L.faults link.old ≤ L.faults link.new }
    ensures alone { IsTrue D.tells → IsLeftAlone D.seen D.synced D.pending D.may_leave D.moment D.left_since disk.old disk.new }
    ensures input { L.input link.new ≡ L.input link.old }
    ensures left { L.left link.new ≡ L.left link.old }
{
    let mut lead = first;
    let mut done = 0;
    loop {
        let count = ((PACKET_MAX - lead.len()) as u64).min(size - done);
        if let Err(stop) = pack_part(disk, link, out, source, lead, at + done, count, window) {
            return Err(stop);
        }
        if lead.len() as u64 + count < PACKET_MAX as u64 {
            return Ok(());
        }
        lead = &[];
        done += count;
    }
}

/// Gathers the packets of a payload: its first bytes, and a part of a file.
pub(crate) fn pack_from<D: Disk, L: Link>(
    disk: &mut D,
    link: &mut L,
    out: &mut Outgoing,
    source: Published,
    first: &[u8],
    at: u64,
    size: u64,
    window: &mut Window,
) -> Result<(), DumpStop>
    requires short { length first.now ≤ LEAD_MAX }
    requires there { at + size ≤ source.limit }
    ensures reads { IsTrue D.tells → (image : Image) → D.seen disk.old ≡ image
        → WindowShows (image source.file) window.old.bytes window.old.from window.old.size source.limit
        → OnOk result (WindowShows (image source.file) window.new.bytes window.new.from window.new.size source.limit) }
    ensures told { IsTrue D.tells → IsTrue L.tells → (image : Image) → D.seen disk.old ≡ image
        → WindowShows (image source.file) window.old.bytes window.old.from window.old.size source.limit
        → Packs (L.written link.old) out.old.held out.old.sequence ((first.now ++ take size (drop at (image source.file))) ∷ [])
        (L.written link.new) out.new.held out.new.sequence result }
    ensures whole { IsTrue D.tells → (image : Image) → D.seen disk.old ≡ image
        → WindowShows (image source.file) window.old.bytes window.old.from window.old.size source.limit
        → IsErrOf result DumpStop.Torn → ⊥ }
    ensures disk_failed { IsErrOf result DumpStop.DiskFault → Rose (D.faults disk.old) (D.faults disk.new) }
    ensures disk_later { D.faults disk.old ≤ D.faults disk.new }
    ensures link_failed { IsErrOf result DumpStop.LinkFault → Rose (L.faults link.old) (L.faults link.new) }
    ensures link_later { L.faults link.old ≤ L.faults link.new }
    ensures alone { IsTrue D.tells → IsLeftAlone D.seen D.synced D.pending D.may_leave D.moment D.left_since disk.old disk.new }
    ensures input { L.input link.new ≡ L.input link.old }
    ensures left { L.left link.new ≡ L.left link.old }
{
    if size > WINDOW as u64 {
        return pack_large(disk, link, out, source, first, at, size, window);
    }
    let size = size as usize;
    match locate(disk, source, at, size, window) {
        Ok(from) => pack(link, out, first, &window.bytes[from..from + size]),
        Err(stop) => Err(stop),
    }
}
