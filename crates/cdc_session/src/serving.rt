//! The session.

ghost use Rattle.std.specs.Prelude.{◌≡◌, ℕ, ◌+◌, ◌%◌, ◌≤◌, ◌<◌, ◌∷◌, ◌++◌, [], IsTrue, IsErrOf, Ok};
ghost use Rattle.cdc_cell.specs.Reading.{IsLeftAlone};
ghost use Rattle.cdc_outside.specs.Count.{Rose};
ghost use Rattle.cdc_packet.specs.Command.{command_in};
ghost use Rattle.cdc_session.specs.Ends.{end_of_packet};
ghost use Rattle.cdc_session.specs.Following.{FollowsAnswer, FollowsRequest, FollowsSession};
ghost use Rattle.cdc_session.specs.Reply.{answer_to, session_over};
ghost use Rattle.cdc_session.specs.Shelf.{Shelf, IsShelf, IsRefusedShelf, HasTornFile};

use crate::dumping::{dump, send};
use crate::session_end::SessionEnd;
use cdc_base::Buffer;
use cdc_dumper::OpenFault;
use cdc_outside::{Disk, Link};
use cdc_packet::{Command, PacketEnd, read_command, read_packet};
use std::alloc::Global;

/// The most requests of a session.
const REQUESTS_MAX: u64 = 1 << 62;

/// All is well.
const WELL: &[u8] = b"\0\0\0\x02\0\0\0";

/// There is no such command.
const UNKNOWN: &[u8] = b"\xff\x17\x04#08S01unknown command";

/// The end of a session in which no request was read.
fn end_without(end: PacketEnd) -> SessionEnd
    ensures { result ≡ end_of_packet end }
{
    match end {
        PacketEnd::Closed => SessionEnd::Closed,
        PacketEnd::Torn | PacketEnd::TooLong => SessionEnd::BadPacket,
        PacketEnd::LinkFault => SessionEnd::LinkFault,
        PacketEnd::Memory => SessionEnd::Memory,
    }
}

/// Answers a command.
fn obey<D: Disk, L: Link>(
    alloc: Global,
    shelf: &mut D,
    link: &mut L,
    sequence: u8,
    command: &Command,
) -> Result<(), SessionEnd>
    ensures told { IsTrue D.tells → IsTrue L.tells → (found : Shelf) → IsShelf (D.seen shelf.old) found
        → FollowsAnswer (answer_to found command.now) sequence (L.written link.old) (L.written link.new) result }
    ensures kept { IsTrue D.tells → (fault : OpenFault) → IsErrOf result (SessionEnd.Kept fault) → IsRefusedShelf (D.seen shelf.old) fault }
    ensures torn { IsTrue D.tells → IsErrOf result SessionEnd.Torn → HasTornFile (D.seen shelf.old) }
    ensures disk_failed { IsErrOf result SessionEnd.DiskFault → Rose (D.faults shelf.old) (D.faults shelf.new) }
    ensures disk_later { D.faults shelf.old ≤ D.faults shelf.new }
    ensures link_failed { IsErrOf result SessionEnd.LinkFault → Rose (L.faults link.old) (L.faults link.new) }
    ensures link_later { L.faults link.old ≤ L.faults link.new }
    ensures alone { IsTrue D.tells → IsLeftAlone D.seen D.synced D.pending D.may_leave D.moment D.left_since shelf.old shelf.new }
    ensures input { L.input link.new ≡ L.input link.old }
    ensures left { L.left link.new ≡ L.left link.old }
{
    match command {
        Command::Dump {
            position,
            flags,
            server: _,
            name,
        } => dump(
            alloc,
            shelf,
            link,
            sequence,
            name,
            u64::from(*position),
            *flags,
        ),
        Command::Quit => Err(SessionEnd::Quit),
        Command::Ping | Command::Register => send(link, sequence, WELL),
        Command::Unknown => send(link, sequence, UNKNOWN),
    }
}

/// Answers a request's payload.
fn answer<D: Disk, L: Link>(
    alloc: Global,
    shelf: &mut D,
    link: &mut L,
    sequence: u8,
    payload: Buffer,
) -> Result<(), SessionEnd>
    ensures told { IsTrue D.tells → IsTrue L.tells → (found : Shelf) → IsShelf (D.seen shelf.old) found
        → FollowsAnswer (answer_to found (command_in payload)) sequence (L.written link.old) (L.written link.new) result }
    ensures kept { IsTrue D.tells → (fault : OpenFault) → IsErrOf result (SessionEnd.Kept fault) → IsRefusedShelf (D.seen shelf.old) fault }
    ensures torn { IsTrue D.tells → IsErrOf result SessionEnd.Torn → HasTornFile (D.seen shelf.old) }
    ensures disk_failed { IsErrOf result SessionEnd.DiskFault → Rose (D.faults shelf.old) (D.faults shelf.new) }
    ensures disk_later { D.faults shelf.old ≤ D.faults shelf.new }
    ensures link_failed { IsErrOf result SessionEnd.LinkFault → Rose (L.faults link.old) (L.faults link.new) }
    ensures link_later { L.faults link.old ≤ L.faults link.new }
    ensures alone { IsTrue D.tells → IsLeftAlone D.seen D.synced D.pending D.may_leave D.moment D.left_since shelf.old shelf.new }
    ensures input { L.input link.new ≡ L.input link.old }
    ensures left { L.left link.new ≡ L.left link.old }
{
    let Ok(payload) = payload.freeze() else {
        return Err(SessionEnd::Memory);
    };
    match read_command(&payload) {
        Ok(command) => obey(alloc, shelf, link, sequence, &command),
        Err(_) => Err(SessionEnd::Memory),
    }
}

/// Reads a request, and answers it.
fn serve_one<D: Disk, L: Link>(alloc: Global, shelf: &mut D, link: &mut L) -> Result<(), SessionEnd>
    ensures told { IsTrue D.tells → IsTrue L.tells → (found : Shelf) (more : ℕ) → IsShelf (D.seen shelf.old) found
        → FollowsRequest found more (L.left link.old) (L.left link.new) (L.written link.old) (L.written link.new) result }
    ensures kept { IsTrue D.tells → (fault : OpenFault) → IsErrOf result (SessionEnd.Kept fault) → IsRefusedShelf (D.seen shelf.old) fault }
    ensures torn { IsTrue D.tells → IsErrOf result SessionEnd.Torn → HasTornFile (D.seen shelf.old) }
    ensures disk_failed { IsErrOf result SessionEnd.DiskFault → Rose (D.faults shelf.old) (D.faults shelf.new) }
    ensures disk_later { D.faults shelf.old ≤ D.faults shelf.new }
    ensures link_failed { IsErrOf result SessionEnd.LinkFault → Rose (L.faults link.old) (L.faults link.new) }
    ensures link_later { L.faults link.old ≤ L.faults link.new }
    ensures alone { IsTrue D.tells → IsLeftAlone D.seen D.synced D.pending D.may_leave D.moment D.left_since shelf.old shelf.new }
    ensures input { L.input link.new ≡ L.input link.old }
{
    let mut payload = Buffer::new(alloc);
    match read_packet(link, &mut payload) {
        Ok(sequence) => answer(alloc, shelf, link, sequence.wrapping_add(1), payload),
        Err(end) => Err(end_without(end)),
    }
}

/// The session of a client behind a link, over an output: reads requests one after another, and answers each.
///
/// Whatever the end, what was written is a front of the definition's reply, and all of it for `Quit`, `Closed`,
/// `BadPacket` and `Kept`. The output is looked at when a dump is asked for, and only read. No byte behind the Front
/// is sent. The memory that it takes is bounded, however long the files are.
pub fn session<D: Disk, L: Link>(alloc: Global, shelf: &mut D, link: &mut L) -> SessionEnd
    // It follows its definition over the shelf of what the disk has.
    ensures told { IsTrue D.tells → IsTrue L.tells → (found : Shelf) → IsShelf (D.seen shelf.old) found
        → FollowsSession (session_over found (L.left link.old)) (L.written link.old) (L.written link.new) result }

    // An output is refused as it is by `look`, and a file is torn as it is for `is_boundary`.
    ensures kept { IsTrue D.tells → (fault : OpenFault) → result ≡ SessionEnd.Kept fault → IsRefusedShelf (D.seen shelf.old) fault }
    ensures torn { IsTrue D.tells → result ≡ SessionEnd.Torn → HasTornFile (D.seen shelf.old) }

    // Neither fault comes by itself.
    ensures disk_failed { result ≡ SessionEnd.DiskFault → Rose (D.faults shelf.old) (D.faults shelf.new) }
    ensures disk_later { D.faults shelf.old ≤ D.faults shelf.new }
    ensures link_failed { result ≡ SessionEnd.LinkFault → Rose (L.faults link.old) (L.faults link.new) }
    ensures link_later { L.faults link.old ≤ L.faults link.new }

    ensures alone { IsTrue D.tells → IsLeftAlone D.seen D.synced D.pending D.may_leave D.moment D.left_since shelf.old shelf.new }
    ensures input { L.input link.new ≡ L.input link.old }
{
    for _served in 0..REQUESTS_MAX {
        if let Err(end) = serve_one(alloc, shelf, link) {
            return end;
        }
    }
    SessionEnd::Closed
}
