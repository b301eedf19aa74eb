//! The events of a published file, one behind another.

ghost use Rattle.std.specs.Prelude.{◌≡◌, ℕ, ◌+◌, ◌≤◌, ◌<◌, ◌∷◌, ◌++◌, [], true, IsTrue, length, map, take, drop, IfOk, OnOk, IsErrOf, MatchResult};
ghost use Rattle.cdc_cell.specs.Reading.{IsLeftAlone};
ghost use Rattle.cdc_outside.specs.Count.{Rose};
ghost use Rattle.cdc_outside.specs.Disk.{Image};
ghost use Rattle.cdc_index.specs.Chain.{told_length, is_chain};
ghost use Rattle.cdc_session.specs.Dump.{as_payloads, events_from, first_event, without_place};
ghost use Rattle.cdc_session.specs.Packing.{Breaks, Packed, Packs};
ghost use Rattle.cdc_session.specs.Reading.{WindowShows};
ghost use Rattle.cdc_session.specs.Reply.{packets_from};

use crate::copying::{LEAD_MAX, pack_from};
use crate::dump_stop::DumpStop;
use crate::gathering::Outgoing;
use crate::window::{Published, Window, locate};
use cdc_event::{HEADER_LENGTH, MAGIC, number_4};
use cdc_outside::{Disk, Link};

/// Where the length stands in an event's header, and the place behind it.
const LENGTH_FROM: usize = 9;

const LENGTH_TO: usize = 13;

/// The place in a header where the flags stand, behind the place behind the event.
const FLAGS_FROM: usize = 17;

/// How many bytes the event at a place has.
fn event_size<D: Disk>(
    disk: &mut D,
    source: Published,
    place: u64,
    window: &mut Window,
) -> Result<u64, DumpStop>
    requires { place ≤ source.limit }
    ensures within { IfOk result (λ size. (HEADER_LENGTH ≤ size) × (place + size ≤ source.limit)) }
    ensures reads { IsTrue D.tells → (image : Image) → D.seen disk.old ≡ image
        → WindowShows (image source.file) window.old.bytes window.old.from window.old.size source.limit
        → OnOk result (WindowShows (image source.file) window.new.bytes window.new.from window.new.size source.limit) }
    ensures told { IsTrue D.tells → (image : Image) → D.seen disk.old ≡ image
        → WindowShows (image source.file) window.old.bytes window.old.from window.old.size source.limit
        → IfOk result (λ size. size ≡ told_length (drop place (take source.limit (image source.file)))) }
    ensures whole { IsTrue D.tells → (image : Image) → D.seen disk.old ≡ image
        → WindowShows (image source.file) window.old.bytes window.old.from window.old.size source.limit
        → place < source.limit → is_chain (drop place (take source.limit (image source.file))) ≡ true → IsErrOf result DumpStop.Torn → ⊥ }
    ensures alone { IsTrue D.tells → IsLeftAlone D.seen D.synced D.pending D.may_leave D.moment D.left_since disk.old disk.new }
    ensures failed { IsErrOf result DumpStop.DiskFault → Rose (D.faults disk.old) (D.faults disk.new) }
    ensures later { D.faults disk.old ≤ D.faults disk.new }
    ensures link { IsErrOf result DumpStop.LinkFault → ⊥ }
    ensures memory { IsErrOf result DumpStop.Memory → ⊥ }
{
    let left = source.limit - place;
    if left < HEADER_LENGTH as u64 {
        return Err(DumpStop::Torn);
    }
    let at = match locate(disk, source, place, HEADER_LENGTH, window) {
        Ok(at) => at,
        Err(stop) => return Err(stop),
    };
    let size = u64::from(number_4(&window.bytes[at + LENGTH_FROM..at + LENGTH_TO]));
    if size < HEADER_LENGTH as u64 {
        return Err(DumpStop::Torn);
    }
    if size > left {
        return Err(DumpStop::Torn);
    }
    Ok(size)
}

/// Gathers the packets of the event at a place, and answers how many bytes it has.
fn pack_next<D: Disk, L: Link>(
    disk: &mut D,
    link: &mut L,
    out: &mut Outgoing,
    source: Published,
    place: u64,
    window: &mut Window,
) -> Result<u64, DumpStop>
    requires { place ≤ source.limit }
    ensures within { IfOk result (λ size. (HEADER_LENGTH ≤ size) × (place + size ≤ source.limit)) }
    ensures reads { IsTrue D.tells → (image : Image) → D.seen disk.old ≡ image
        → WindowShows (image source.file) window.old.bytes window.old.from window.old.size source.limit
        → OnOk result (WindowShows (image source.file) window.new.bytes window.new.from window.new.size source.limit) }
    ensures sized { IsTrue D.tells → (image : Image) → D.seen disk.old ≡ image
        → WindowShows (image source.file) window.old.bytes window.old.from window.old.size source.limit
        → IfOk result (λ size. size ≡ told_length (drop place (take source.limit (image source.file)))) }
    ensures told { IsTrue D.tells → IsTrue L.tells → (image : Image) → D.seen disk.old ≡ image
        → WindowShows (image source.file) window.old.bytes window.old.from window.old.size source.limit
        → MatchResult result
        (λ size. Packed (L.written link.old) out.old.held out.old.sequence ((0 ∷ take size (drop place (take source.limit (image source.file)))) ∷ []) (L.written link.new) out.new.held out.new.sequence)
        (λ _. Breaks (L.written link.old) out.old.held (packets_from out.old.sequence (as_payloads (events_from place (take source.limit (image source.file))))) (L.written link.new)) }
    ensures whole { IsTrue D.tells → (image : Image) → D.seen disk.old ≡ image
        → WindowShows (image source.file) window.old.bytes window.old.from window.old.size source.limit
        → place < source.limit → is_chain (drop place (take source.limit (image source.file))) ≡ true → IsErrOf result DumpStop.Torn → ⊥ }
    ensures disk_failed { IsErrOf result DumpStop.DiskFault → Rose (D.faults disk.old) (D.faults disk.new) }
    ensures disk_later { D.faults disk.old ≤ D.faults disk.new }
    ensures link_failed { IsErrOf result DumpStop.LinkFault → Rose (L.faults link.old) (L.faults link.new) }
    ensures link_later { L.faults link.old ≤ L.faults link.new }
    ensures alone { IsTrue D.tells → IsLeftAlone D.seen D.synced D.pending D.may_leave D.moment D.left_since disk.old disk.new }
    ensures input { L.input link.new ≡ L.input link.old }
    ensures left { L.left link.new ≡ L.left link.old }
{
    match event_size(disk, source, place, window) {
        Ok(size) => match pack_from(disk, link, out, source, &[0], place, size, window) {
            Ok(()) => Ok(size),
            Err(stop) => Err(stop),
        },
        Err(stop) => Err(stop),
    }
}

/// Gathers the packets of the events from a place on.
fn pack_events<D: Disk, L: Link>(
    disk: &mut D,
    link: &mut L,
    out: &mut Outgoing,
    source: Published,
    at: u64,
    window: &mut Window,
) -> Result<(), DumpStop>
    requires { at ≤ source.limit }
    ensures told { IsTrue D.tells → IsTrue L.tells → (image : Image) → D.seen disk.old ≡ image
        → WindowShows (image source.file) window.old.bytes window.old.from window.old.size source.limit
        → Packs (L.written link.old) out.old.held out.old.sequence (as_payloads (events_from at (take source.limit (image source.file))))
        (L.written link.new) out.new.held out.new.sequence result }
    ensures whole { IsTrue D.tells → (image : Image) → D.seen disk.old ≡ image
        → WindowShows (image source.file) window.old.bytes window.old.from window.old.size source.limit
        → is_chain (drop at (take source.limit (image source.file))) ≡ true → IsErrOf result DumpStop.Torn → ⊥ }
    ensures disk_failed { IsErrOf result DumpStop.DiskFault → Rose (D.faults disk.old) (D.faults disk.new) }
    ensures disk_later { D.faults disk.old ≤ D.faults disk.new }
    ensures link_failed { IsErrOf result DumpStop.LinkFault → Rose (L.faults link.old) (L.faults link.new) }
    ensures link_later { L.faults link.old ≤ L.faults link.new }
    ensures alone { IsTrue D.tells → IsLeftAlone D.seen D.synced D.pending D.may_leave D.moment D.left_since disk.old disk.new }
    ensures input { L.input link.new ≡ L.input link.old }
    ensures left { L.left link.new ≡ L.left link.old }
{
    let mut place = at;
    while place < source.limit {
        match pack_next(disk, link, out, source, place, window) {
            Ok(size) => place += size,
            Err(stop) => return Err(stop),
        }
    }
    Ok(())
}

/// What begins the payload of a file's first event, with 0 for the place behind it: a zero and the header.
fn first_lead<D: Disk>(
    disk: &mut D,
    source: Published,
    window: &mut Window,
) -> Result<[u8; LEAD_MAX], DumpStop>
    requires { 23 ≤ source.limit }
    ensures reads { IsTrue D.tells → (image : Image) → D.seen disk.old ≡ image
        → WindowShows (image source.file) window.old.bytes window.old.from window.old.size source.limit
        → OnOk result (WindowShows (image source.file) window.new.bytes window.new.from window.new.size source.limit) }
    ensures told { IsTrue D.tells → (image : Image) → D.seen disk.old ≡ image
        → WindowShows (image source.file) window.old.bytes window.old.from window.old.size source.limit
        → IfOk result (λ lead. lead ≡ 0 ∷ without_place (take 19 (drop 4 (image source.file)))) }
    ensures whole { IsTrue D.tells → (image : Image) → D.seen disk.old ≡ image
        → WindowShows (image source.file) window.old.bytes window.old.from window.old.size source.limit
        → IsErrOf result DumpStop.Torn → ⊥ }
    ensures alone { IsTrue D.tells → IsLeftAlone D.seen D.synced D.pending D.may_leave D.moment D.left_since disk.old disk.new }
    ensures failed { IsErrOf result DumpStop.DiskFault → Rose (D.faults disk.old) (D.faults disk.new) }
    ensures later { D.faults disk.old ≤ D.faults disk.new }
    ensures link { IsErrOf result DumpStop.LinkFault → ⊥ }
    ensures memory { IsErrOf result DumpStop.Memory → ⊥ }
{
    match locate(disk, source, MAGIC.len() as u64, HEADER_LENGTH, window) {
        Ok(at) => Ok(lead_of(&window.bytes[at..at + HEADER_LENGTH])),
        Err(stop) => Err(stop),
    }
}

/// Puts bytes into a piece at a place.
fn put(piece: &mut [u8], at: usize, bytes: &[u8])
    requires { at + length bytes.now ≤ length piece.old }
    ensures { take (at + length bytes.now) piece.new ≡ take at piece.old ++ bytes.now }
{
    piece[at..at + bytes.len()].copy_from_slice(bytes);
}

/// A zero, and a header with 0 for the place behind its event.
fn lead_of(header: &[u8]) -> [u8; LEAD_MAX]
    requires { length header.now ≡ HEADER_LENGTH }
    ensures { result ≡ 0 ∷ without_place header.now }
{
    let mut lead = [0u8; LEAD_MAX];
    put(&mut lead, 0, &[0]);
    put(&mut lead, 1, &header[..LENGTH_TO]);
    put(&mut lead, 1 + LENGTH_TO, &[0; 4]);
    put(&mut lead, 1 + FLAGS_FROM, &header[FLAGS_FROM..]);
    lead
}

/// Gathers the packets of a file's first event, with 0 for the place behind it.
fn pack_first<D: Disk, L: Link>(
    disk: &mut D,
    link: &mut L,
    out: &mut Outgoing,
    source: Published,
    window: &mut Window,
) -> Result<(), DumpStop>
    requires { 4 ≤ source.limit }
    ensures reads { IsTrue D.tells → (image : Image) → D.seen disk.old ≡ image
        → WindowShows (image source.file) window.old.bytes window.old.from window.old.size source.limit
        → OnOk result (WindowShows (image source.file) window.new.bytes window.new.from window.new.size source.limit) }
    ensures told { IsTrue D.tells → IsTrue L.tells → (image : Image) → D.seen disk.old ≡ image
        → WindowShows (image source.file) window.old.bytes window.old.from window.old.size source.limit
        → Packs (L.written link.old) out.old.held out.old.sequence (as_payloads (map without_place (take 1 (events_from 4 (take source.limit (image source.file))))))
        (L.written link.new) out.new.held out.new.sequence result }
    ensures whole { IsTrue D.tells → (image : Image) → D.seen disk.old ≡ image
        → WindowShows (image source.file) window.old.bytes window.old.from window.old.size source.limit
        → 4 < source.limit → is_chain (drop 4 (take source.limit (image source.file))) ≡ true → IsErrOf result DumpStop.Torn → ⊥ }
    ensures disk_failed { IsErrOf result DumpStop.DiskFault → Rose (D.faults disk.old) (D.faults disk.new) }
    ensures disk_later { D.faults disk.old ≤ D.faults disk.new }
    ensures link_failed { IsErrOf result DumpStop.LinkFault → Rose (L.faults link.old) (L.faults link.new) }
    ensures link_later { L.faults link.old ≤ L.faults link.new }
    ensures alone { IsTrue D.tells → IsLeftAlone D.seen D.synced D.pending D.may_leave D.moment D.left_since disk.old disk.new }
    ensures input { L.input link.new ≡ L.input link.old }
    ensures left { L.left link.new ≡ L.left link.old }
{
    let begins = MAGIC.len() as u64;
    let size = match event_size(disk, source, begins, window) {
        Ok(size) => size,
        Err(stop) => return Err(stop),
    };
    let lead = match first_lead(disk, source, window) {
        Ok(lead) => lead,
        Err(stop) => return Err(stop),
    };
    let behind = begins + HEADER_LENGTH as u64;
    pack_from(
        disk,
        link,
        out,
        source,
        &lead,
        behind,
        size - HEADER_LENGTH as u64,
        window,
    )
}

/// Gathers the packets of a file's events from a place on, behind those of its first one where the place is behind it.
pub(crate) fn pack_part<D: Disk, L: Link>(
    disk: &mut D,
    link: &mut L,
    out: &mut Outgoing,
    source: Published,
    at: u64,
    window: &mut Window,
) -> Result<(), DumpStop>
    requires { at ≤ source.limit }
    ensures told { IsTrue D.tells → IsTrue L.tells → (image : Image) → D.seen disk.old ≡ image
        → WindowShows (image source.file) window.old.bytes window.old.from window.old.size source.limit
        → Packs (L.written link.old) out.old.held out.old.sequence
        (as_payloads (first_event at (take source.limit (image source.file)) ++ events_from at (take source.limit (image source.file))))
        (L.written link.new) out.new.held out.new.sequence result }
    ensures whole { IsTrue D.tells → (image : Image) → D.seen disk.old ≡ image
        → WindowShows (image source.file) window.old.bytes window.old.from window.old.size source.limit
        → is_chain (drop 4 (take source.limit (image source.file))) ≡ true
        → is_chain (drop at (take source.limit (image source.file))) ≡ true → IsErrOf result DumpStop.Torn → ⊥ }
    ensures disk_failed { IsErrOf result DumpStop.DiskFault → Rose (D.faults disk.old) (D.faults disk.new) }
    ensures disk_later { D.faults disk.old ≤ D.faults disk.new }
    ensures link_failed { IsErrOf result DumpStop.LinkFault → Rose (L.faults link.old) (L.faults link.new) }
    ensures link_later { L.faults link.old ≤ L.faults link.new }
    ensures alone { IsTrue D.tells → IsLeftAlone D.seen D.synced D.pending D.may_leave D.moment D.left_since disk.old disk.new }
    ensures input { L.input link.new ≡ L.input link.old }
    ensures left { L.left link.new ≡ L.left link.old }
{
    if at <= MAGIC.len() as u64 {
        return pack_events(disk, link, out, source, at, window);
    }
    if let Err(stop) = pack_first(disk, link, out, source, window) {
        return Err(stop);
    }
    pack_events(disk, link, out, source, at, window)
}
