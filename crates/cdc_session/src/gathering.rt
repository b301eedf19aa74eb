//! Packets are gathered, and sent many at a time.

ghost use Rattle.std.specs.Prelude.{◌≡◌, ◌+◌, ◌≤◌, ◌<◌, [], ◌∷◌, ◌++◌, IsTrue, length, OnOk, OnErr, IfErr, IsErrOf};
ghost use Rattle.cdc_outside.specs.Count.{Rose};
ghost use Rattle.cdc_outside.specs.Sink.{WritesTo};
ghost use Rattle.cdc_session.specs.Packing.{Gathers, Packs};

use crate::dump_stop::DumpStop;
use cdc_base::Buffer;
use cdc_outside::Link;
use cdc_packet::{PACKET_MAX, head_of};

/// The least bytes of a write, but for the last one of a reply.
const GATHERED: usize = 65_536;

/// Packets that are held back, and the sequence number of the next one.
#[derive(Debug, Drop)]
pub(crate) struct Outgoing {
    pub(crate) held: Buffer,
    pub(crate) sequence: u8,
}

/// Sends all that is held back.
pub(crate) fn flush<L: Link>(link: &mut L, held: &mut Buffer) -> Result<(), DumpStop>
    ensures ok { IsTrue L.tells → OnOk result (L.written link.new ≡ L.written link.old ++ held.old) }
    ensures err { IsTrue L.tells → OnErr result (WritesTo (L.written link.old) held.old (L.written link.new)) }
    ensures empty { OnOk result (held.new ≡ []) }
    ensures stop { IfErr result (λ stop. stop ≡ DumpStop.LinkFault) }
    ensures link_failed { IsErrOf result DumpStop.LinkFault → Rose (L.faults link.old) (L.faults link.new) }
    ensures link_later { L.faults link.old ≤ L.faults link.new }
    ensures input { L.input link.new ≡ L.input link.old }
    ensures left { L.left link.new ≡ L.left link.old }
{
    if link.write(held.bytes()).is_err() {
        return Err(DumpStop::LinkFault);
    }
    held.truncate(0);
    Ok(())
}

/// Holds bytes back behind the others, and sends all of them where they are many.
#[tactic(auto, using(crate::proofs::Sent::all_held, crate::proofs::Sent::all_sent, crate::proofs::Sent::none_sent, crate::proofs::Sent::write_broke))]
pub(crate) fn gather<L: Link>(link: &mut L, held: &mut Buffer, bytes: &[u8]) -> Result<(), DumpStop>
    ensures told { IsTrue L.tells → Gathers (L.written link.old) held.old bytes.now (L.written link.new) held.new result }
    ensures disk { IsErrOf result DumpStop.DiskFault → ⊥ }
    ensures torn { IsErrOf result DumpStop.Torn → ⊥ }
    ensures link_failed { IsErrOf result DumpStop.LinkFault → Rose (L.faults link.old) (L.faults link.new) }
    ensures link_later { L.faults link.old ≤ L.faults link.new }
    ensures input { L.input link.new ≡ L.input link.old }
    ensures left { L.left link.new ≡ L.left link.old }
{
    if held.push(bytes).is_err() {
        return Err(DumpStop::Memory);
    }
    if held.len() < GATHERED {
        return Ok(());
    }
    flush(link, held)
}

/// Gathers two pieces.
pub(crate) fn gather_both<L: Link>(
    link: &mut L,
    held: &mut Buffer,
    first: &[u8],
    more: &[u8],
) -> Result<(), DumpStop>
    ensures told { IsTrue L.tells → Gathers (L.written link.old) held.old (first.now ++ more.now) (L.written link.new) held.new result }
    ensures disk { IsErrOf result DumpStop.DiskFault → ⊥ }
    ensures torn { IsErrOf result DumpStop.Torn → ⊥ }
    ensures link_failed { IsErrOf result DumpStop.LinkFault → Rose (L.faults link.old) (L.faults link.new) }
    ensures link_later { L.faults link.old ≤ L.faults link.new }
    ensures input { L.input link.new ≡ L.input link.old }
    ensures left { L.left link.new ≡ L.left link.old }
{
    match gather(link, held, first) {
        Ok(()) => gather(link, held, more),
        Err(stop) => Err(stop),
    }
}

/// Gathers a packet's head and its payload: the first bytes, then the rest.
fn gather_packet<L: Link>(
    link: &mut L,
    held: &mut Buffer,
    head: &[u8],
    first: &[u8],
    rest: &[u8],
) -> Result<(), DumpStop>
    ensures told { IsTrue L.tells → Gathers (L.written link.old) held.old (head.now ++ (first.now ++ rest.now)) (L.written link.new) held.new result }
    ensures disk { IsErrOf result DumpStop.DiskFault → ⊥ }
    ensures torn { IsErrOf result DumpStop.Torn → ⊥ }
    ensures link_failed { IsErrOf result DumpStop.LinkFault → Rose (L.faults link.old) (L.faults link.new) }
    ensures link_later { L.faults link.old ≤ L.faults link.new }
    ensures input { L.input link.new ≡ L.input link.old }
    ensures left { L.left link.new ≡ L.left link.old }
{
    match gather(link, held, head) {
        Ok(()) => gather_both(link, held, first, rest),
        Err(stop) => Err(stop),
    }
}

/// Gathers the packet of a payload that fits into one: the first bytes, then the rest.
pub(crate) fn pack<L: Link>(
    link: &mut L,
    out: &mut Outgoing,
    first: &[u8],
    rest: &[u8],
) -> Result<(), DumpStop>
    requires { length first.now + length rest.now < PACKET_MAX }
    ensures told { IsTrue L.tells → Packs (L.written link.old) out.old.held out.old.sequence ((first.now ++ rest.now) ∷ [])
        (L.written link.new) out.new.held out.new.sequence result }
    ensures disk { IsErrOf result DumpStop.DiskFault → ⊥ }
    ensures torn { IsErrOf result DumpStop.Torn → ⊥ }
    ensures link_failed { IsErrOf result DumpStop.LinkFault → Rose (L.faults link.old) (L.faults link.new) }
    ensures link_later { L.faults link.old ≤ L.faults link.new }
    ensures input { L.input link.new ≡ L.input link.old }
    ensures left { L.left link.new ≡ L.left link.old }
{
    let head = head_of(first.len() + rest.len(), out.sequence);
    if let Err(stop) = gather_packet(link, &mut out.held, &head, first, rest) {
        return Err(stop);
    }
    out.sequence = out.sequence.wrapping_add(1);
    Ok(())
}
