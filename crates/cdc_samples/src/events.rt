//! Events.

ghost use Rattle.std.specs.Prelude.{◌≡◌, ◌+◌, ◌≤◌, ◌^◌, IsTrue, length};
ghost use Rattle.cdc_event.specs.Event.{body_bytes, has_kind, FitsBody, IsEvent};

use cdc_event::{Body, Event, HEADER_LENGTH, Header};

/// A header of seconds 5, server 9 and no flags.
pub fn header(kind: u8, length: u32) -> Header
    ensures kind { result.kind ≡ kind }
    ensures length { result.length ≡ length }
{
    Header {
        seconds: 5,
        kind,
        server: 9,
        length,
        next: 0,
        flags: 0,
    }
}

/// An event with this body.
pub fn event_of(kind: u8, body: Body) -> Event
    requires fits { FitsBody body }
    requires kind { IsTrue (has_kind body kind) }
    requires most { 19 + length (body_bytes body) ≤ 2 ^ 27 }
    ensures event { IsEvent result }
    ensures body { result.body ≡ body }
{
    let length = HEADER_LENGTH as u32 + body.encoded_length() as u32;
    Event {
        header: header(kind, length),
        body,
    }
}
