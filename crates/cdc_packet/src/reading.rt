//! Reading a request.

ghost use Rattle.std.specs.Prelude.{◌≡◌, ℕ, ◌≤◌, ◌<◌, [], ◌++◌, List, IsTrue, length, take, drop, min, IfOk, OnErr, OnOk, IsErrOf};
ghost use Rattle.cdc_event.specs.Number.{number_of};
ghost use Rattle.cdc_outside.specs.Count.{Rose, RisesOnErr};
ghost use Rattle.cdc_packet.specs.Request.{ReadsRequest, EndsWith};
ghost use Rattle.cdc_packet.specs.Pieces.{Fills, TakesPiece, TakesPayload};

use crate::packet_end::PacketEnd;
use cdc_base::Buffer;
use cdc_outside::{Failed, Link};

/// The bytes before a packet's payload.
const HEAD_LENGTH: usize = 4;

/// The most bytes of a request's payload.
const REQUEST_MAX: usize = 65_535;

/// The most bytes that one read of a payload asks for.
const PIECE: usize = 4_096;

/// Reads until the piece is full or no byte is to come, and answers how many bytes came.
fn fill<L: Link>(link: &mut L, piece: &mut [u8]) -> Result<usize, Failed>
    ensures within { IfOk result (λ read. read ≤ length piece.old) }
    ensures ok { IsTrue L.tells → IfOk result (λ read. Fills (L.left link.old) piece.new read (L.left link.new)) }
    ensures err { IsTrue L.tells → OnErr result (EndsWith (L.left link.old) (L.left link.new)) }
    ensures input { L.input link.new ≡ L.input link.old }
    ensures written { L.written link.new ≡ L.written link.old }
    ensures faults { RisesOnErr (L.faults link.old) (L.faults link.new) result }
{
    let mut filled = 0;
    while filled < piece.len() {
        let read = link.read(&mut piece[filled..])?;
        if read == 0 {
            return Ok(filled);
        }
        filled += read;
    }
    Ok(filled)
}

/// Reads one piece of a payload of which so many bytes are left, behind those that were read before it, and answers
/// how many bytes it has.
fn read_piece<L: Link>(
    link: &mut L,
    left: usize,
    piece: &mut [u8],
    into: &mut Buffer,
) -> Result<usize, PacketEnd>
    requires some { 0 < left }
    requires room { 0 < length piece.old }
    ensures within { IfOk result (λ read. read ≤ left) }
    ensures told { IsTrue L.tells → TakesPiece (L.left link.old) into.old into.new (L.left link.new) result }
    ensures grown { IfOk result (λ read. (more : List ℕ) × (into.new ≡ into.old ++ more) × (length more ≡ read)) }
    ensures same { OnErr result (into.new ≡ into.old) }
    ensures failed { IsErrOf result PacketEnd.LinkFault → Rose (L.faults link.old) (L.faults link.new) }
    ensures later { L.faults link.old ≤ L.faults link.new }
    ensures input { L.input link.new ≡ L.input link.old }
    ensures written { L.written link.new ≡ L.written link.old }
{
    let asked = left.min(piece.len());
    let Ok(read) = link.read(&mut piece[..asked]) else {
        return Err(PacketEnd::LinkFault);
    };
    if into.push(&piece[..read]).is_err() {
        return Err(PacketEnd::Memory);
    }
    Ok(read)
}

/// Reads a payload of so many bytes.
fn read_payload<L: Link>(link: &mut L, size: usize, into: &mut Buffer) -> Result<(), PacketEnd>
    ensures told { IsTrue L.tells → TakesPayload size (L.left link.old) into.old into.new (L.left link.new) result }
    ensures grown { (more : List ℕ) × (into.new ≡ into.old ++ more) × (length more ≤ size) }
    ensures failed { IsErrOf result PacketEnd.LinkFault → Rose (L.faults link.old) (L.faults link.new) }
    ensures later { L.faults link.old ≤ L.faults link.new }
    ensures input { L.input link.new ≡ L.input link.old }
    ensures written { L.written link.new ≡ L.written link.old }
{
    let mut piece = [0u8; PIECE];
    let mut taken = 0;
    while taken < size {
        match read_piece(link, size - taken, &mut piece, into) {
            Ok(0) => return Err(PacketEnd::Torn),
            Ok(read) => taken += read,
            Err(end) => return Err(end),
        }
    }
    Ok(())
}

/// Reads the next request: appends its payload to `into`, and answers its sequence number.
///
/// `Closed` comes where the bytes end before the packet, `Torn` where they end inside it, `TooLong` where its length
/// is above that of a request. On a refusal a front of the payload was appended, and no more is read than the packet.
pub fn read_packet<L: Link>(link: &mut L, into: &mut Buffer) -> Result<u8, PacketEnd>
    ensures told { IsTrue L.tells → ReadsRequest (L.left link.old) into.old into.new (L.left link.new) result }
    ensures grown { (more : List ℕ) × (into.new ≡ into.old ++ more) × (length more ≤ REQUEST_MAX) }

    // It never fails by itself.
    ensures failed { IsErrOf result PacketEnd.LinkFault → Rose (L.faults link.old) (L.faults link.new) }
    ensures later { L.faults link.old ≤ L.faults link.new }

    ensures input { L.input link.new ≡ L.input link.old }
    ensures written { L.written link.new ≡ L.written link.old }
{
    let mut head = [0u8; HEAD_LENGTH];
    let Ok(read) = fill(link, &mut head) else {
        return Err(PacketEnd::LinkFault);
    };
    if read == 0 {
        return Err(PacketEnd::Closed);
    }
    if read < HEAD_LENGTH {
        return Err(PacketEnd::Torn);
    }
    let size = size_in(head);
    if size > REQUEST_MAX {
        return Err(PacketEnd::TooLong);
    }
    match read_payload(link, size, into) {
        Ok(()) => Ok(head[3]),
        Err(end) => Err(end),
    }
}

/// The length that a packet's head tells.
#[tactic(auto, unfolding(cdc_event::specs::Number::number_of))]
fn size_in(head: [u8; HEAD_LENGTH]) -> usize
    ensures { result ≡ number_of (take 3 head) }
{
    let [low, middle, high, _sequence] = head;
    low as usize + 256 * (middle as usize) + 65_536 * (high as usize)
}
