//! One printed event.

ghost use Rattle.std.specs.Prelude.{◌≡◌, ◌+◌, ◌<◌, ◌^◌, ◌++◌, length, take, IfOk, OnOk, OnErr};
ghost use Rattle.cdc_model.specs.Print.{row_length, printed_event};
ghost use Rattle.cdc_writer.specs.Events.{IsPrintable};

use cdc_base::{Buffer, Memory};
use cdc_event::{Body, Event, HEADER_LENGTH, Header, header_array, write_event};
use cdc_model::RowView;

/// The server's id in every printed event.
const SERVER: u32 = 1;

// The header of a printed event of `length` bytes that stands at `at` of its file.
fn header_at(kind: u8, length: u32, seconds: u32, at: u64) -> Header
    requires { at + length < 2 ^ 32 }
    ensures { result ≡ record { seconds = seconds; kind = kind; server = 1; length = length; next = at + length; flags = 0 } }
{
    Header {
        seconds,
        kind,
        server: SERVER,
        length,
        next: (at + u64::from(length)) as u32,
        flags: 0,
    }
}

/// Appends an event that stands at `at` of its file, and answers the offset behind it.
pub(crate) fn put_event(
    kind: u8,
    body: Body,
    seconds: u32,
    at: u64,
    into: &mut Buffer,
) -> Result<u64, Memory>
    requires { IsPrintable at (kind, body) }
    ensures next { IfOk result (λ next. next ≡ at + row_length (kind, body)) }
    ensures ok { OnOk result (into.new ≡ into.old ++ printed_event at seconds (kind, body)) }
    ensures err { OnErr result (into.new ≡ into.old) }
{
    let length = HEADER_LENGTH as u32 + body.encoded_length() as u32;
    let header = header_at(kind, length, seconds, at);
    write_event(&Event { header, body }, into)?;
    Ok(at + u64::from(length))
}

/// Appends a row's event that stands at `at` of its file, as it is, and answers the offset behind it.
pub(crate) fn put_view(
    row: &RowView<'_>,
    seconds: u32,
    at: u64,
    into: &mut Buffer,
) -> Result<u64, Memory>
    requires { at + row_length row.now < 2 ^ 32 }
    ensures next { IfOk result (λ next. next ≡ at + row_length row.now) }
    ensures ok { OnOk result (into.new ≡ into.old ++ printed_event at seconds row.now) }
    ensures kept { take (length into.old) into.new ≡ into.old }
{
    let body = row.bytes();
    let length = (HEADER_LENGTH + body.len()) as u32;
    let header = header_at(row.kind(), length, seconds, at);
    into.push(&header_array(&header))?;
    into.push(body)?;
    Ok(at + u64::from(length))
}
