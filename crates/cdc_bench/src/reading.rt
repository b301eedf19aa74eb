//! Events read one after another.

ghost use Rattle.std.specs.Prelude.{◌↔◌, IsTrue};
ghost use Rattle.cdc_event.specs.Length.{HasGoodLength};

use cdc_base::{Blob, Memory};
use cdc_event::{
    Body, Event, HEADER_LENGTH, Header, ReadError, check_length, read_header, read_owned_body,
};

/// Whether an event may have its length, without a checksum behind it.
fn has_good_length(header: &Header) -> bool
    ensures { IsTrue result ↔ HasGoodLength 0 header.now }
{
    check_length(header, 0).is_ok()
}

/// The event at a byte of a log; none where none begins there.
fn event_at(log: &Blob, at: usize) -> Result<Option<Event>, Memory> {
    let Some(rest) = log.bytes().get(at..) else {
        return Ok(None);
    };
    let Some(front) = rest.first_chunk::<HEADER_LENGTH>() else {
        return Ok(None);
    };
    let header = read_header(front);
    let length = header.length as usize;
    if !has_good_length(&header) || rest.len() < length {
        return Ok(None);
    }
    let body = log.part(at + HEADER_LENGTH, at + length)?;
    if body.len() != length - HEADER_LENGTH {
        return Ok(None);
    }
    match read_owned_body(&header, body, 0) {
        Ok(event) => Ok(Some(event)),
        Err(ReadError::Fault(_)) => Ok(None),
        Err(ReadError::Memory) => Err(Memory),
    }
}

/// How many bytes a row event has, header included; none of any other event.
fn row_length(event: &Event) -> Option<usize> {
    match &event.body {
        Body::Rows { bytes } => Some(HEADER_LENGTH.saturating_add(bytes.len())),
        _ => None,
    }
}

/// Reads `count` row events, from the log's beginning again where it ends, and answers how many bytes they
/// had; none where something else stands in it.
pub fn read_events(log: &Blob, count: u64) -> Result<Option<u64>, Memory> {
    let mut at = 0;
    let mut bytes = 0_u64;
    for _ in 0..count {
        if at == log.len() {
            at = 0;
        }
        let Some(event) = event_at(log, at)? else {
            return Ok(None);
        };
        let Some(length) = row_length(&event) else {
            return Ok(None);
        };
        at = at.saturating_add(length);
        bytes = bytes.saturating_add(length as u64);
    }
    Ok(Some(bytes))
}
