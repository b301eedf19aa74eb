//! Events from bytes.

ghost use Rattle.std.specs.Prelude.{◌≡◌, ℕ, ◌+◌, ◌<◌, ◌≤◌, ◌++◌, ◌↔◌, true, length, take, slice_range, slice_index, IfOk, OnErr, IsSome};
ghost use Rattle.cdc_event.specs.Reading.{format_at, query_at, rotate_at, xid_at, rows_query_at, table_map_at, prepare_at, timestamp_at, body_at, event_of, Gives, HasFault, HasKnownAlgorithm};
ghost use Rattle.cdc_event.specs.Reading.{fault_of as specs_fault_of};
ghost use Rattle.cdc_event.specs.Length.{HasGoodLength, kept_header, kept_bytes};
ghost use Rattle.cdc_event.specs.Event.{FitsHeader, header_bytes, is_rows_kind, Encodes};
ghost use Rattle.cdc_event.specs.declared.event.Event.{Event};
ghost use Rattle.cdc_event.specs.declared.fault.EventFault.{EventFault};
ghost use Rattle.cdc_event.specs.declared.fault.ReadError.TheVariants.{Fault};

use crate::body::Body;
use crate::event::Event;
use crate::fault::{EventFault, ReadError};
use crate::header::{FORMAT_VERSION, HEADER_LENGTH, Header, checksum_length, shortened};
use crate::kind;
use crate::number::{number_2, number_4, number_6, number_8};
use crate::offsets::*;
use cdc_base::{Blob, Memory, Xid, gtrid_of};

// A part of the first `end` bytes, shared.
fn part(body: &Blob, end: usize, from: usize, to: usize) -> Result<Blob, Memory>
    requires ordered { from ≤ to }
    requires within { to ≤ end }
    requires whole { end ≤ length body.now }
    ensures { IfOk result (λ part. part ≡ slice_range (take end body.now) from to) }
{
    body.part(from, to)
}

#[tactic(auto, unfolding(crate::specs::Reading::query_at, crate::specs::Reading::guard))]
fn read_query(body: &Blob, end: usize) -> Result<Option<Body>, Memory>
    requires { end ≤ length body.now }
    ensures read { IfOk result (λ found. found ≡ query_at (take end body.now)) }
    ensures memory { OnErr result (IsSome (query_at (take end body.now))) }
{
    let bytes = &body.bytes()[..end];
    if bytes.len() < QUERY_STATUS {
        return Ok(None);
    }
    let db_from = QUERY_STATUS + number_2(&bytes[QUERY_STATUS_LENGTH..QUERY_STATUS]) as usize;
    let zero = db_from + bytes[QUERY_DB_LENGTH] as usize;
    if bytes.len() <= zero || bytes[zero] != 0 {
        return Ok(None);
    }
    Ok(Some(Body::Query {
        thread: number_4(&bytes[0..QUERY_SECONDS]),
        seconds: number_4(&bytes[QUERY_SECONDS..QUERY_DB_LENGTH]),
        error: number_2(&bytes[QUERY_ERROR..QUERY_STATUS_LENGTH]),
        status: part(body, end, QUERY_STATUS, db_from)?,
        db: part(body, end, db_from, zero)?,
        text: part(body, end, zero + 1, end)?,
    }))
}

#[tactic(auto, unfolding(crate::specs::Reading::rotate_at, crate::specs::Reading::guard))]
fn read_rotate(body: &Blob, end: usize) -> Result<Option<Body>, Memory>
    requires { end ≤ length body.now }
    ensures read { IfOk result (λ found. found ≡ rotate_at (take end body.now)) }
    ensures memory { OnErr result (IsSome (rotate_at (take end body.now))) }
{
    let bytes = &body.bytes()[..end];
    if bytes.len() < ROTATE_NAME {
        return Ok(None);
    }
    Ok(Some(Body::Rotate {
        position: number_8(&bytes[0..ROTATE_NAME]),
        name: part(body, end, ROTATE_NAME, end)?,
    }))
}

#[tactic(auto, unfolding(crate::specs::Reading::format_at, crate::specs::Reading::guard))]
fn read_format(body: &Blob, end: usize) -> Result<Option<Body>, Memory>
    requires { end ≤ length body.now }
    ensures read { IfOk result (λ found. found ≡ format_at (take end body.now)) }
    ensures memory { OnErr result (IsSome (format_at (take end body.now))) }
{
    let bytes = &body.bytes()[..end];
    if bytes.len() < FORMAT_LEAST {
        return Ok(None);
    }
    let checksum_at = end - FORMAT_CHECKSUM_FROM_END;
    let checksum = bytes[checksum_at];
    if number_2(&bytes[0..FORMAT_TEXT]) != FORMAT_VERSION
        || bytes[FORMAT_HEADER_LENGTH] as usize != HEADER_LENGTH
        || checksum > 1
    {
        return Ok(None);
    }
    Ok(Some(Body::Format {
        text: part(body, end, FORMAT_TEXT, FORMAT_CREATED)?,
        created: number_4(&bytes[FORMAT_CREATED..FORMAT_HEADER_LENGTH]),
        lengths: part(body, end, FORMAT_LENGTHS, checksum_at)?,
        checksum,
        tail: number_4(&bytes[end - FORMAT_TAIL_FROM_END..]),
    }))
}

#[tactic(auto, unfolding(crate::specs::Reading::xid_at, crate::specs::Reading::guard))]
fn read_xid(bytes: &[u8]) -> Option<Body>
    ensures { result ≡ xid_at bytes.now }
{
    if bytes.len() != XID_LENGTH {
        return None;
    }
    Some(Body::Xid {
        number: number_8(bytes),
    })
}

#[tactic(auto, unfolding(crate::specs::Reading::rows_query_at, crate::specs::Reading::guard))]
fn read_rows_query(body: &Blob, end: usize) -> Result<Option<Body>, Memory>
    requires { end ≤ length body.now }
    ensures read { IfOk result (λ found. found ≡ rows_query_at (take end body.now)) }
    ensures memory { OnErr result (IsSome (rows_query_at (take end body.now))) }
{
    let bytes = &body.bytes()[..end];
    if bytes.len() < ROWS_QUERY_TEXT {
        return Ok(None);
    }
    Ok(Some(Body::RowsQuery {
        size: bytes[0],
        text: part(body, end, ROWS_QUERY_TEXT, end)?,
    }))
}

#[tactic(auto, unfolding(crate::specs::Reading::table_map_at, crate::specs::Reading::guard))]
fn read_table_map(body: &Blob, end: usize) -> Result<Option<Body>, Memory>
    requires { end ≤ length body.now }
    ensures read { IfOk result (λ found. found ≡ table_map_at (take end body.now)) }
    ensures memory { OnErr result (IsSome (table_map_at (take end body.now))) }
{
    let bytes = &body.bytes()[..end];
    if bytes.len() < TABLE_MAP_DB {
        return Ok(None);
    }
    let zero = TABLE_MAP_DB + bytes[TABLE_MAP_DB_LENGTH] as usize;
    if bytes.len() <= zero + 1 || bytes[zero] != 0 {
        return Ok(None);
    }
    let name_from = zero + 2;
    let last_zero = name_from + bytes[zero + 1] as usize;
    if bytes.len() <= last_zero || bytes[last_zero] != 0 {
        return Ok(None);
    }
    Ok(Some(Body::TableMap {
        table: number_6(&bytes[0..TABLE_MAP_FLAGS]),
        flags: number_2(&bytes[TABLE_MAP_FLAGS..TABLE_MAP_DB_LENGTH]),
        db: part(body, end, TABLE_MAP_DB, zero)?,
        name: part(body, end, name_from, last_zero)?,
        rest: part(body, end, last_zero + 1, end)?,
    }))
}

#[tactic(auto, unfolding(crate::specs::Reading::prepare_at, crate::specs::Reading::guard))]
fn read_prepare(bytes: &[u8]) -> Option<Body>
    ensures { result ≡ prepare_at bytes.now }
{
    if bytes.len() < PREPARE_GTRID {
        return None;
    }
    let bqual_from = PREPARE_GTRID
        + number_4(&bytes[PREPARE_GTRID_LENGTH..PREPARE_BQUAL_LENGTH]) as usize;
    if bytes.len() != bqual_from + number_4(&bytes[PREPARE_BQUAL_LENGTH..PREPARE_GTRID]) as usize {
        return None;
    }
    let gtrid = gtrid_of(&bytes[PREPARE_GTRID..bqual_from])?;
    let bqual = gtrid_of(&bytes[bqual_from..])?;
    Some(Body::XaPrepare {
        one_phase: bytes[0],
        xid: Xid {
            gtrid,
            bqual,
            format: number_4(&bytes[PREPARE_FORMAT..PREPARE_GTRID_LENGTH]),
        },
    })
}

#[tactic(auto, unfolding(crate::specs::Reading::timestamp_at, crate::specs::Reading::guard))]
fn read_timestamp(bytes: &[u8]) -> Option<Body>
    ensures { result ≡ timestamp_at bytes.now }
{
    if bytes.len() != TIMESTAMP_LENGTH {
        return None;
    }
    Some(Body::Timestamp {
        class: bytes[0],
        value: number_8(&bytes[TIMESTAMP_VALUE..]),
    })
}

// The first `end` bytes, shared.
fn front(body: &Blob, end: usize) -> Result<Blob, Memory>
    requires { end ≤ length body.now }
    ensures { IfOk result (λ front. front ≡ take end body.now) }
{
    body.part(0, end)
}

// The body of the first `end` bytes, by the event's type; none where they don't fit its layout.
#[tactic(auto, unfolding(crate::specs::Reading::body_at))]
fn read_kind(kind: u8, body: &Blob, end: usize) -> Result<Option<Body>, Memory>
    requires { end ≤ length body.now }
    ensures read { IfOk result (λ found. found ≡ body_at kind (take end body.now)) }
    ensures memory { OnErr result (IsSome (body_at kind (take end body.now))) }
{
    match kind {
        kind::QUERY => read_query(body, end),
        kind::ROTATE => read_rotate(body, end),
        kind::FORMAT => read_format(body, end),
        kind::XID => Ok(read_xid(&body.bytes()[..end])),
        kind::TABLE_MAP => read_table_map(body, end),
        kind::ROWS_QUERY => read_rows_query(body, end),
        kind::XA_PREPARE => Ok(read_prepare(&body.bytes()[..end])),
        kind::PARTIAL | kind::COMPRESSED => Ok(None),
        kind::TIMESTAMP => Ok(read_timestamp(&body.bytes()[..end])),
        kind if kind::is_rows(kind) => Ok(Some(Body::Rows {
            bytes: front(body, end)?,
        })),
        _ => Ok(Some(Body::Skipped {
            bytes: front(body, end)?,
        })),
    }
}

// What is wrong where a body is none of its type.
pub(crate) fn fault_of(kind: u8) -> EventFault
    ensures { result ≡ specs_fault_of kind }
{
    match kind {
        kind::COMPRESSED => EventFault::Compressed,
        kind::PARTIAL => EventFault::Partial,
        kind::FORMAT => EventFault::BadFormat,
        kind => EventFault::BadBody(kind),
    }
}

// The event without its checksum.
#[tactic(auto, using(crate::proofs::Kept::kept_is_front))]
fn read_kept(header: &Header, body: &Blob, checksum: u8) -> Result<Event, ReadError>
    requires length { HasGoodLength checksum header.now }
    requires whole { header.now.length ≡ 19 + length body.now }
    ensures exact { Gives result (event_of checksum header.now body.now) }
    ensures header { FitsHeader header.now }
    ensures bytes { (i : ℕ) → slice_index body.now i < 256 }
{
    let less = checksum_length(checksum, header.kind);
    let kept = shortened(*header, less);
    let bytes = body.bytes();
    match read_kind(header.kind, body, bytes.len() - less as usize)? {
        Some(body) => Ok(Event { header: kept, body }),
        None => Err(ReadError::Fault(fault_of(header.kind))),
    }
}

// The row event of a header and a body, which is kept as far as it is no checksum.
#[tactic(auto, using(crate::proofs::Kept::kept_is_front), unfolding(crate::specs::Reading::body_at))]
fn rows_event(header: &Header, mut body: Blob, checksum: u8) -> Event
    requires rows { is_rows_kind header.now.kind ≡ true }
    requires length { HasGoodLength checksum header.now }
    requires whole { header.now.length ≡ 19 + length body }
    ensures exact { event_of checksum header.now body ≡ Ok result }
    ensures header { FitsHeader header.now }
    ensures bytes { (i : ℕ) → slice_index body i < 256 }
{
    let less = checksum_length(checksum, header.kind);
    let kept = shortened(*header, less);
    let length = body.bytes().len();
    body.truncate(length - less as usize);
    Event {
        header: kept,
        body: Body::Rows { bytes: body },
    }
}

// The event without its checksum. Rows keep the body as it is; any other body is read from it.
#[tactic(auto, using(crate::proofs::Kept::kept_is_front), unfolding(crate::specs::Reading::body_at))]
fn read_moved(header: &Header, body: Blob, checksum: u8) -> Result<Event, ReadError>
    requires length { HasGoodLength checksum header.now }
    requires whole { header.now.length ≡ 19 + length body }
    ensures exact { Gives result (event_of checksum header.now body) }
    ensures header { FitsHeader header.now }
    ensures bytes { (i : ℕ) → slice_index body i < 256 }
{
    if kind::is_rows(header.kind) {
        Ok(rows_event(header, body, checksum))
    } else {
        read_kept(header, &body, checksum)
    }
}

/// The event of a header and the bytes behind it, which are given away, or the first fault of its body.
///
/// `checksum` is the setting at the event's place: the algorithm of the last format event before it in
/// its file, and 0 where there is none. Under setting 1 an event of any type but a format event loses its
/// last four bytes, unverified, and its length field is lowered by four in what is answered. The event's
/// byte strings share the bytes of `body`; none is copied, and rows keep it, so that its count of sharers isn't
/// touched. A fault takes no memory: `Memory` comes only where there is an event.
pub fn read_owned_body(header: &Header, body: Blob, checksum: u8) -> Result<Event, ReadError>
    requires setting { checksum ≤ 1 }
    requires length { HasGoodLength checksum header.now }
    requires whole { header.now.length ≡ 19 + length body }
    // What is read is spelled so.
    ensures event { IfOk result (λ event. Encodes event (header_bytes (kept_header checksum header.now) ++ kept_bytes checksum header.now.kind body)) }
    // A format event that is read names a known algorithm.
    ensures known { IfOk result (λ event. HasKnownAlgorithm event.body) }
    // What is spelled so is read, unless memory runs out.
    ensures only { (event : Event) → HasKnownAlgorithm event.body → Encodes event (header_bytes (kept_header checksum header.now) ++ kept_bytes checksum header.now.kind body) → Gives result (Ok event) }
    // A fault is answered exactly where it stands.
    ensures fault { (fault : EventFault) → (result ≡ Err (Fault fault)) ↔ HasFault header.now.kind (kept_bytes checksum header.now.kind body) fault }
    // The same as a function of the bytes.
    ensures exact { Gives result (event_of checksum header.now body) }
{
    read_moved(header, body, checksum)
}
