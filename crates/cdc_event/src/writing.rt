//! Events as bytes.

ghost use Rattle.std.specs.Prelude.{◌≡◌, ◌<◌, ◌≤◌, ◌^◌, [], ◌∷◌, ◌++◌, length, take, OnOk, OnErr};
ghost use Rattle.cdc_event.specs.Number.{low_first};
ghost use Rattle.cdc_event.specs.Event.{header_bytes, body_bytes, event_bytes, FitsBody, IsEvent};
ghost use Rattle.cdc_event.specs.declared.body.Body.TheVariants.{Format, Query, Rotate, RowsQuery, TableMap, Rows, XaPrepare, Timestamp, Skipped};

use crate::body::Body;
use crate::event::Event;
use crate::header::{FORMAT_VERSION, HEADER_LENGTH, Header};
use crate::number::{bytes_2, bytes_4, bytes_6, bytes_8};
use cdc_base::{Blob, Buffer, Memory, Xid};

/// The 19 bytes of a header.
#[tactic(auto, unfolding(crate::specs::Event::header_bytes, crate::specs::Number::low_first))]
pub fn header_array(header: &Header) -> [u8; HEADER_LENGTH]
    ensures { result ≡ header_bytes header.now }
{
    let seconds = bytes_4(header.seconds);
    let server = bytes_4(header.server);
    let length = bytes_4(header.length);
    let next = bytes_4(header.next);
    let flags = bytes_2(header.flags);
    [
        seconds[0],
        seconds[1],
        seconds[2],
        seconds[3],
        header.kind,
        server[0],
        server[1],
        server[2],
        server[3],
        length[0],
        length[1],
        length[2],
        length[3],
        next[0],
        next[1],
        next[2],
        next[3],
        flags[0],
        flags[1],
    ]
}

// The fixed part of a query event: thread, seconds, the length of the database's name, error, and the
// length of the status variables.
#[tactic(auto, unfolding(crate::specs::Number::low_first))]
fn query_head(thread: u32, seconds: u32, db: u8, error: u16, status: u16) -> [u8; 13]
    ensures { result ≡ low_first 4 thread ++ (low_first 4 seconds ++ (db ∷ (low_first 2 error ++ low_first 2 status))) }
{
    let thread = bytes_4(thread);
    let seconds = bytes_4(seconds);
    let error = bytes_2(error);
    let status = bytes_2(status);
    [
        thread[0], thread[1], thread[2], thread[3], seconds[0], seconds[1], seconds[2], seconds[3],
        db, error[0], error[1], status[0], status[1],
    ]
}

// The fixed part of a table map: the table's number, flags, and the length of the database's name.
#[tactic(auto, unfolding(crate::specs::Number::low_first))]
fn table_head(table: u64, flags: u16, db: u8) -> [u8; 9]
    ensures { result ≡ low_first 6 table ++ (low_first 2 flags ++ (db ∷ [])) }
{
    let table = bytes_6(table);
    let flags = bytes_2(flags);
    [
        table[0], table[1], table[2], table[3], table[4], table[5], flags[0], flags[1], db,
    ]
}

// The fixed part of a prepare event: one_phase, format, and the lengths of both ids.
#[tactic(auto, unfolding(crate::specs::Number::low_first))]
fn prepare_head(one_phase: u8, format: u32, gtrid: u32, bqual: u32) -> [u8; 13]
    ensures { result ≡ one_phase ∷ (low_first 4 format ++ (low_first 4 gtrid ++ low_first 4 bqual)) }
{
    let format = bytes_4(format);
    let gtrid = bytes_4(gtrid);
    let bqual = bytes_4(bqual);
    [
        one_phase, format[0], format[1], format[2], format[3], gtrid[0], gtrid[1], gtrid[2],
        gtrid[3], bqual[0], bqual[1], bqual[2], bqual[3],
    ]
}

// The body of a timestamp event.
#[tactic(auto, unfolding(crate::specs::Number::low_first))]
fn timestamp_array(class: u8, value: u64) -> [u8; 9]
    ensures { result ≡ class ∷ low_first 8 value }
{
    let value = bytes_8(value);
    [
        class, value[0], value[1], value[2], value[3], value[4], value[5], value[6], value[7],
    ]
}

// What stands between a format event's text and its list of lengths: when the log was made, and the length of a header.
#[tactic(auto, unfolding(crate::specs::Number::low_first))]
fn created_array(created: u32) -> [u8; 5]
    ensures { result ≡ low_first 4 created ++ (19 ∷ []) }
{
    let created = bytes_4(created);
    [
        created[0],
        created[1],
        created[2],
        created[3],
        HEADER_LENGTH as u8,
    ]
}

// What stands behind a format event's list of lengths: the checksum algorithm and four bytes.
#[tactic(auto, unfolding(crate::specs::Number::low_first))]
fn tail_array(checksum: u8, tail: u32) -> [u8; 5]
    ensures { result ≡ checksum ∷ low_first 4 tail }
{
    let tail = bytes_4(tail);
    [checksum, tail[0], tail[1], tail[2], tail[3]]
}

fn push_rotate(position: u64, name: &Blob, into: &mut Buffer) -> Result<(), Memory>
    ensures ok { OnOk result (into.new ≡ into.old ++ (low_first 8 position ++ name.now)) }
    ensures kept { take (length into.old) into.new ≡ into.old }
{
    into.push(&bytes_8(position))?;
    into.push(name.bytes())
}

fn push_rows_query(size: u8, text: &Blob, into: &mut Buffer) -> Result<(), Memory>
    ensures ok { OnOk result (into.new ≡ into.old ++ (size ∷ text.now)) }
    ensures kept { take (length into.old) into.new ≡ into.old }
{
    into.push(&[size])?;
    into.push(text.bytes())
}

fn push_query(
    thread: u32,
    seconds: u32,
    error: u16,
    status: &Blob,
    db: &Blob,
    text: &Blob,
    into: &mut Buffer,
) -> Result<(), Memory>
    requires status { length status.now < 2 ^ 16 }
    requires db { length db.now < 256 }
    ensures ok { OnOk result (into.new ≡ into.old ++ (low_first 4 thread ++ (low_first 4 seconds ++ (length db.now ∷ (low_first 2 error ++ (low_first 2 (length status.now) ++ (status.now ++ (db.now ++ (0 ∷ text.now))))))))) }
    ensures kept { take (length into.old) into.new ≡ into.old }
{
    into.push(&query_head(thread, seconds, db.len() as u8, error, status.len() as u16))?;
    into.push(status.bytes())?;
    into.push(db.bytes())?;
    into.push(&[0])?;
    into.push(text.bytes())
}

fn push_format(
    text: &Blob,
    created: u32,
    lengths: &Blob,
    checksum: u8,
    tail: u32,
    into: &mut Buffer,
) -> Result<(), Memory>
    ensures ok { OnOk result (into.new ≡ into.old ++ (low_first 2 4 ++ (text.now ++ (low_first 4 created ++ (19 ∷ (lengths.now ++ (checksum ∷ low_first 4 tail))))))) }
    ensures kept { take (length into.old) into.new ≡ into.old }
{
    into.push(&bytes_2(FORMAT_VERSION))?;
    into.push(text.bytes())?;
    into.push(&created_array(created))?;
    into.push(lengths.bytes())?;
    into.push(&tail_array(checksum, tail))
}

fn push_table_map(
    table: u64,
    flags: u16,
    db: &Blob,
    name: &Blob,
    rest: &Blob,
    into: &mut Buffer,
) -> Result<(), Memory>
    requires db { length db.now < 256 }
    requires name { length name.now < 256 }
    ensures ok { OnOk result (into.new ≡ into.old ++ (low_first 6 table ++ (low_first 2 flags ++ (length db.now ∷ (db.now ++ (0 ∷ (length name.now ∷ (name.now ++ (0 ∷ rest.now))))))))) }
    ensures kept { take (length into.old) into.new ≡ into.old }
{
    into.push(&table_head(table, flags, db.len() as u8))?;
    into.push(db.bytes())?;
    into.push(&[0, name.len() as u8])?;
    into.push(name.bytes())?;
    into.push(&[0])?;
    into.push(rest.bytes())
}

fn push_prepare(one_phase: u8, xid: &Xid, into: &mut Buffer) -> Result<(), Memory>
    ensures ok { OnOk result (into.new ≡ into.old ++ (one_phase ∷ (low_first 4 xid.now.format ++ (low_first 4 (length xid.now.gtrid) ++ (low_first 4 (length xid.now.bqual) ++ (xid.now.gtrid ++ xid.now.bqual)))))) }
    ensures kept { take (length into.old) into.new ≡ into.old }
{
    let gtrid = xid.gtrid.bytes();
    let bqual = xid.bqual.bytes();
    into.push(&prepare_head(
        one_phase,
        xid.format,
        gtrid.len() as u32,
        bqual.len() as u32,
    ))?;
    into.push(gtrid)?;
    into.push(bqual)
}

#[tactic(auto, unfolding(crate::specs::Event::body_bytes, crate::specs::Event::FitsBody))]
fn push_body(body: &Body, into: &mut Buffer) -> Result<(), Memory>
    requires { FitsBody body.now }
    ensures ok { OnOk result (into.new ≡ into.old ++ body_bytes body.now) }
    ensures kept { take (length into.old) into.new ≡ into.old }
{
    match body {
        Body::Format {
            text,
            created,
            lengths,
            checksum,
            tail,
        } => push_format(text, *created, lengths, *checksum, *tail, into),
        Body::Query {
            thread,
            seconds,
            error,
            status,
            db,
            text,
        } => push_query(*thread, *seconds, *error, status, db, text, into),
        Body::Rotate { position, name } => push_rotate(*position, name, into),
        Body::Xid { number } => into.push(&bytes_8(*number)),
        Body::RowsQuery { size, text } => push_rows_query(*size, text, into),
        Body::TableMap {
            table,
            flags,
            db,
            name,
            rest,
        } => push_table_map(*table, *flags, db, name, rest, into),
        Body::Rows { bytes } => into.push(bytes.bytes()),
        Body::XaPrepare { one_phase, xid } => push_prepare(*one_phase, xid, into),
        Body::Timestamp { class, value } => into.push(&timestamp_array(*class, *value)),
        Body::Skipped { bytes } => into.push(bytes.bytes()),
    }
}

/// Appends the body's bytes. On `Memory` the buffer is unchanged.
pub fn write_body(body: &Body, into: &mut Buffer) -> Result<(), Memory>
    requires { FitsBody body.now }
    ensures ok { OnOk result (into.new ≡ into.old ++ body_bytes body.now) }
    ensures err { OnErr result (into.new ≡ into.old) }
{
    let length = into.len();
    let written = push_body(body, into);
    if written.is_err() {
        into.truncate(length);
    }
    written
}

fn push_event(event: &Event, into: &mut Buffer) -> Result<(), Memory>
    requires { FitsBody event.now.body }
    ensures ok { OnOk result (into.new ≡ into.old ++ event_bytes event.now) }
    ensures kept { take (length into.old) into.new ≡ into.old }
{
    into.reserve(event.header.length as usize)?;
    into.push(&header_array(&event.header))?;
    push_body(&event.body, into)
}

/// Appends the event's bytes, the only ones that it has. On `Memory` the buffer is unchanged.
///
/// Room is made once, by the event's length field, and no byte string is copied but into the buffer.
pub fn write_event(event: &Event, into: &mut Buffer) -> Result<(), Memory>
    requires { IsEvent event.now }
    ensures ok { OnOk result (into.new ≡ into.old ++ event_bytes event.now) }
    ensures err { OnErr result (into.new ≡ into.old) }
{
    let before = into.len();
    let pushed = push_event(event, into);
    if pushed.is_err() {
        into.truncate(before);
    }
    pushed
}
