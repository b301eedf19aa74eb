//! What stands where an event may begin.

ghost use Rattle.std.specs.Prelude.{◌≡◌, ◌<◌, ◌≤◌, None, length, drop, IfSome, MatchResult};
ghost use Rattle.cdc_base.specs.Bytes.{AreBytes};
ghost use Rattle.cdc_event.specs.Length.{HasGoodLength};
ghost use Rattle.cdc_event.specs.File.{BeginsWith, IsFaulty};
ghost use Rattle.cdc_event.specs.View.{event_viewed};
ghost use Rattle.cdc_cutter.specs.Looks.{Sees, IsSeen};

use cdc_event::kind::FORMAT;
use cdc_event::{
    EventFault, EventView, HEADER_LENGTH, Header, check_length, read_header, read_view,
};

/// What stands where an event may begin, by its header.
#[derive(Clone, Copy, Debug)]
pub enum Look {
    /// Less than a whole event, with a good length as far as it is there.
    Unfinished,
    /// A header with a length that no event has.
    Wrong(EventFault),
    /// As many bytes as this header counts.
    Whole(Header),
}

// The header at the front of these bytes, where they have as many.
fn header_in(bytes: &[u8]) -> Option<Header>
    ensures some { IfSome result (λ header. BeginsWith bytes.now header (drop 19 bytes.now)) }
    ensures none { result ≡ None → length bytes.now < 19 }
{
    let front = bytes.first_chunk::<HEADER_LENGTH>()?;
    Some(read_header(front))
}

/// What stands at the front of these bytes.
pub fn look_at(bytes: &[u8], checksum: u8) -> Look
    requires { checksum ≤ 1 }
    ensures { Sees checksum bytes.now result }
{
    let Some(header) = header_in(bytes) else {
        return Look::Unfinished;
    };
    match check_length(&header, checksum) {
        Err(fault) => Look::Wrong(fault),
        Ok(()) if bytes.len() < header.length as usize => Look::Unfinished,
        Ok(()) => Look::Whole(header),
    }
}

/// The event with this header at the front of these bytes, which have as many as it counts, in place.
pub fn view_piece<'a>(
    bytes: &'a [u8],
    first: bool,
    header: &Header,
    checksum: u8,
) -> Result<EventView<'a>, EventFault>
    requires setting { checksum ≤ 1 }
    requires length { HasGoodLength checksum header.now }
    requires begins { BeginsWith bytes.now header.now (drop 19 bytes.now) }
    requires whole { header.now.length ≤ length bytes.now }
    requires each { AreBytes bytes.now }
    ensures { MatchResult result (λ view. IsSeen first checksum bytes.now header.now (event_viewed view)) (IsFaulty first checksum bytes.now) }
{
    if first && header.kind != FORMAT {
        return Err(EventFault::BadFormat);
    }
    read_view(
        header,
        &bytes[HEADER_LENGTH..header.length as usize],
        checksum,
    )
}
