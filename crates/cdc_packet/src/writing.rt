//! Sending a payload.

ghost use Rattle.std.specs.Prelude.{◌≡◌, ℕ, ◌+◌, ◌≤◌, ◌<◌, ◌++◌, ◌∷◌, IsTrue, length, take, OnOk, OnErr, IfOk};
ghost use Rattle.cdc_event.specs.Number.{low_first};
ghost use Rattle.cdc_outside.specs.Count.{RisesOnErr};
ghost use Rattle.cdc_outside.specs.Sink.{WritesTo};
ghost use Rattle.cdc_packet.specs.Packet.{packet_head, packet_bytes, sequence_behind};

use crate::packet_end::LinkFault;
use cdc_event::bytes_4;
use cdc_outside::{Failed, Link};

/// The most bytes of one packet's payload.
pub const PACKET_MAX: usize = 16_777_215;

/// The bytes before a packet's payload.
pub const HEAD_LENGTH: usize = 4;

/// The most bytes of a packet that is sent in one write.
const SMALL: usize = 1_024;

/// What stands before a packet's payload of so many bytes.
#[tactic(auto, unfolding(cdc_event::specs::Number::low_first))]
pub fn head_of(size: usize, sequence: u8) -> [u8; HEAD_LENGTH]
    requires { size ≤ PACKET_MAX }
    ensures { result ≡ packet_head size sequence }
{
    let [low, middle, high, _] = bytes_4(size as u32);
    [low, middle, high, sequence]
}

/// Puts bytes into a piece at a place.
fn put(piece: &mut [u8], at: usize, bytes: &[u8])
    requires { at + length bytes.now ≤ length piece.old }
    ensures { take (at + length bytes.now) piece.new ≡ take at piece.old ++ bytes.now }
{
    piece[at..at + bytes.len()].copy_from_slice(bytes);
}

/// Sends a packet that fits one piece, in one write.
fn write_small<L: Link>(
    link: &mut L,
    head: [u8; HEAD_LENGTH],
    first: &[u8],
    rest: &[u8],
) -> Result<(), Failed>
    requires { length first.now + length rest.now + HEAD_LENGTH ≤ SMALL }
    ensures ok { IsTrue L.tells → OnOk result (L.written link.new ≡ L.written link.old ++ (head ++ (first.now ++ rest.now))) }
    ensures err { IsTrue L.tells → OnErr result (WritesTo (L.written link.old) (head ++ (first.now ++ rest.now)) (L.written link.new)) }
    ensures input { L.input link.new ≡ L.input link.old }
    ensures left { L.left link.new ≡ L.left link.old }
    ensures faults { RisesOnErr (L.faults link.old) (L.faults link.new) result }
{
    let mut piece = [0u8; SMALL];
    let rest_at = HEAD_LENGTH + first.len();
    put(&mut piece, 0, &head);
    put(&mut piece, HEAD_LENGTH, first);
    put(&mut piece, rest_at, rest);
    link.write(&piece[..rest_at + rest.len()])
}

/// Sends a packet part by part.
fn write_large<L: Link>(
    link: &mut L,
    head: [u8; HEAD_LENGTH],
    first: &[u8],
    rest: &[u8],
) -> Result<(), Failed>
    ensures ok { IsTrue L.tells → OnOk result (L.written link.new ≡ L.written link.old ++ (head ++ (first.now ++ rest.now))) }
    ensures err { IsTrue L.tells → OnErr result (WritesTo (L.written link.old) (head ++ (first.now ++ rest.now)) (L.written link.new)) }
    ensures input { L.input link.new ≡ L.input link.old }
    ensures left { L.left link.new ≡ L.left link.old }
    ensures faults { RisesOnErr (L.faults link.old) (L.faults link.new) result }
{
    link.write(&head)?;
    link.write(first)?;
    link.write(rest)?;
    Ok(())
}

/// Sends one packet, whose payload is the first bytes and then the rest.
fn write_one<L: Link>(link: &mut L, sequence: u8, first: &[u8], rest: &[u8]) -> Result<(), Failed>
    requires { length first.now + length rest.now ≤ PACKET_MAX }
    ensures ok { IsTrue L.tells → OnOk result (L.written link.new
        ≡ L.written link.old ++ (packet_head (length first.now + length rest.now) sequence ++ (first.now ++ rest.now))) }
    ensures err { IsTrue L.tells → OnErr result (WritesTo (L.written link.old)
        (packet_head (length first.now + length rest.now) sequence ++ (first.now ++ rest.now)) (L.written link.new)) }
    ensures input { L.input link.new ≡ L.input link.old }
    ensures left { L.left link.new ≡ L.left link.old }
    ensures faults { RisesOnErr (L.faults link.old) (L.faults link.new) result }
{
    let size = first.len() + rest.len();
    let head = head_of(size, sequence);
    if size <= SMALL - HEAD_LENGTH {
        write_small(link, head, first, rest)
    } else {
        write_large(link, head, first, rest)
    }
}

/// Sends a payload, the first bytes and then the rest, and answers the sequence number behind its packets. A
/// payload of 16,777,215 bytes or more goes on in the next packet. On a fault a front of the packets was sent.
pub fn write_packet<L: Link>(
    link: &mut L,
    sequence: u8,
    first: &[u8],
    rest: &[u8],
) -> Result<u8, LinkFault>
    ensures ok { IsTrue L.tells → OnOk result (L.written link.new ≡ L.written link.old ++ packet_bytes sequence (first.now ++ rest.now)) }
    ensures err { IsTrue L.tells → OnErr result (WritesTo (L.written link.old) (packet_bytes sequence (first.now ++ rest.now)) (L.written link.new)) }
    ensures next { IfOk result (λ number. number ≡ sequence_behind sequence (length (first.now ++ rest.now))) }
    ensures input { L.input link.new ≡ L.input link.old }
    ensures left { L.left link.new ≡ L.left link.old }
    ensures faults { RisesOnErr (L.faults link.old) (L.faults link.new) result }
{
    let mut number = sequence;
    let mut front = first;
    let mut back = rest;
    loop {
        let from_front = PACKET_MAX.min(front.len());
        let from_back = (PACKET_MAX - from_front).min(back.len());
        let (now, later) = front.split_at(from_front);
        let (back_now, back_later) = back.split_at(from_back);
        write_one(link, number, now, back_now)?;
        number = number.wrapping_add(1);
        if from_front + from_back < PACKET_MAX {
            return Ok(number);
        }
        front = later;
        back = back_later;
    }
}
