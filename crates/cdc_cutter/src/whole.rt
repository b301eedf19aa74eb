//! Whole events.

ghost use Rattle.std.specs.Prelude.{◌≡◌, ◌≤◌, length, take, drop, Err, IfOk};
ghost use Rattle.cdc_event.specs.Length.{HasGoodLength};
ghost use Rattle.cdc_event.specs.Reading.{HasKnownAlgorithm};
ghost use Rattle.cdc_event.specs.declared.fault.EventFault.{EventFault};
ghost use Rattle.cdc_event.specs.declared.fault.ReadError.TheVariants.{Fault as IsFault};
ghost use Rattle.cdc_event.specs.File.{BeginsWith, IsWhole, IsFaulty};
ghost use Rattle.cdc_event.specs.File.{setting_behind as specs_setting_behind};
ghost use Rattle.cdc_event.specs.View.{body_viewed};
ghost use Rattle.cdc_cutter.specs.Pending.{pending_bytes};

use crate::pending::Pending;
use cdc_event::kind::FORMAT;
use cdc_event::{BodyView, Event, EventFault, HEADER_LENGTH, Header, ReadError, read_owned_body};

/// The setting behind an event: a format event names it, and every other leaves it.
///
/// It isn't put into its callers: there its one byte would cut the copies of a view into pieces that lie over one
/// another, which the processor reads slowly.
#[inline(never)]
pub fn setting_behind(before: u8, body: &BodyView) -> u8
    requires before { before ≤ 1 }
    requires known { HasKnownAlgorithm (body_viewed body.now) }
    ensures setting { result ≡ specs_setting_behind before (body_viewed body.now) }
    ensures known { result ≤ 1 }
{
    match body {
        BodyView::Format { checksum, .. } => *checksum,
        _ => before,
    }
}

/// The event with this header at the front of these bytes, which have as many as it counts; its byte strings share
/// them. They stay as they are.
pub fn read_piece(
    pending: &mut Pending,
    first: bool,
    header: &Header,
    checksum: u8,
) -> Result<Event, ReadError>
    requires setting { checksum ≤ 1 }
    requires length { HasGoodLength checksum header.now }
    requires begins { BeginsWith (pending_bytes pending.old) header.now (drop 19 (pending_bytes pending.old)) }
    requires whole { header.now.length ≤ length (pending_bytes pending.old) }
    ensures event { IfOk result (IsWhole first checksum (take header.now.length (pending_bytes pending.old))) }
    ensures fault { (fault : EventFault) → result ≡ Err (IsFault fault) → IsFaulty first checksum (pending_bytes pending.old) fault }
    ensures kept { pending_bytes pending.new ≡ pending_bytes pending.old }
{
    if first && header.kind != FORMAT {
        return Err(ReadError::Fault(EventFault::BadFormat));
    }
    let body = pending.part(HEADER_LENGTH, header.length as usize)?;
    read_owned_body(header, body, checksum)
}
