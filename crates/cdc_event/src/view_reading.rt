//! Events from bytes, in place.

ghost use Rattle.std.specs.Prelude.{◌≡◌, ◌+◌, ◌≤◌, length};
ghost use Rattle.std.specs.Option.{option_map};
ghost use Rattle.cdc_event.specs.Reading.{format_at, query_at, rotate_at, xid_at, rows_query_at, table_map_at, prepare_at, timestamp_at, body_at, event_of};
ghost use Rattle.cdc_event.specs.Length.{HasGoodLength};
ghost use Rattle.cdc_event.specs.View.{body_viewed, result_viewed};

use crate::fault::EventFault;
use crate::header::{FORMAT_VERSION, HEADER_LENGTH, Header, checksum_length, shortened};
use crate::kind;
use crate::number::{number_2, number_4, number_6, number_8};
use crate::offsets::*;
use crate::reading::fault_of;
use crate::view::{BodyView, EventView};
use cdc_base::GTRID_MAX;

#[tactic(auto, unfolding(crate::specs::Reading::query_at, crate::specs::Reading::guard))]
fn view_query(bytes: &[u8]) -> Option<BodyView<'_>>
    ensures { option_map body_viewed result ≡ query_at bytes.now }
{
    if bytes.len() < QUERY_STATUS {
        return None;
    }
    let db_from = QUERY_STATUS + number_2(&bytes[QUERY_STATUS_LENGTH..QUERY_STATUS]) as usize;
    let zero = db_from + bytes[QUERY_DB_LENGTH] as usize;
    if bytes.len() <= zero || bytes[zero] != 0 {
        return None;
    }
    Some(BodyView::Query {
        thread: number_4(&bytes[0..QUERY_SECONDS]),
        seconds: number_4(&bytes[QUERY_SECONDS..QUERY_DB_LENGTH]),
        error: number_2(&bytes[QUERY_ERROR..QUERY_STATUS_LENGTH]),
        status: &bytes[QUERY_STATUS..db_from],
        db: &bytes[db_from..zero],
        text: &bytes[zero + 1..],
    })
}

#[tactic(auto, unfolding(crate::specs::Reading::rotate_at, crate::specs::Reading::guard))]
fn view_rotate(bytes: &[u8]) -> Option<BodyView<'_>>
    ensures { option_map body_viewed result ≡ rotate_at bytes.now }
{
    if bytes.len() < ROTATE_NAME {
        return None;
    }
    Some(BodyView::Rotate {
        position: number_8(&bytes[0..ROTATE_NAME]),
        name: &bytes[ROTATE_NAME..],
    })
}

#[tactic(auto, unfolding(crate::specs::Reading::format_at, crate::specs::Reading::guard))]
fn view_format(bytes: &[u8]) -> Option<BodyView<'_>>
    ensures { option_map body_viewed result ≡ format_at bytes.now }
{
    if bytes.len() < FORMAT_LEAST {
        return None;
    }
    let checksum_at = bytes.len() - FORMAT_CHECKSUM_FROM_END;
    let checksum = bytes[checksum_at];
    if number_2(&bytes[0..FORMAT_TEXT]) != FORMAT_VERSION
        || bytes[FORMAT_HEADER_LENGTH] as usize != HEADER_LENGTH
        || checksum > 1
    {
        return None;
    }
    Some(BodyView::Format {
        text: &bytes[FORMAT_TEXT..FORMAT_CREATED],
        created: number_4(&bytes[FORMAT_CREATED..FORMAT_HEADER_LENGTH]),
        lengths: &bytes[FORMAT_LENGTHS..checksum_at],
        checksum,
        tail: number_4(&bytes[bytes.len() - FORMAT_TAIL_FROM_END..]),
    })
}

#[tactic(auto, unfolding(crate::specs::Reading::xid_at, crate::specs::Reading::guard))]
fn view_xid(bytes: &[u8]) -> Option<BodyView<'_>>
    ensures { option_map body_viewed result ≡ xid_at bytes.now }
{
    if bytes.len() != XID_LENGTH {
        return None;
    }
    Some(BodyView::Xid {
        number: number_8(bytes),
    })
}

#[tactic(auto, unfolding(crate::specs::Reading::rows_query_at, crate::specs::Reading::guard))]
fn view_rows_query(bytes: &[u8]) -> Option<BodyView<'_>>
    ensures { option_map body_viewed result ≡ rows_query_at bytes.now }
{
    if bytes.len() < ROWS_QUERY_TEXT {
        return None;
    }
    Some(BodyView::RowsQuery {
        size: bytes[0],
        text: &bytes[ROWS_QUERY_TEXT..],
    })
}

#[tactic(auto, unfolding(crate::specs::Reading::table_map_at, crate::specs::Reading::guard))]
fn view_table_map(bytes: &[u8]) -> Option<BodyView<'_>>
    ensures { option_map body_viewed result ≡ table_map_at bytes.now }
{
    if bytes.len() < TABLE_MAP_DB {
        return None;
    }
    let zero = TABLE_MAP_DB + bytes[TABLE_MAP_DB_LENGTH] as usize;
    if bytes.len() <= zero + 1 || bytes[zero] != 0 {
        return None;
    }
    let name_from = zero + 2;
    let last_zero = name_from + bytes[zero + 1] as usize;
    if bytes.len() <= last_zero || bytes[last_zero] != 0 {
        return None;
    }
    Some(BodyView::TableMap {
        table: number_6(&bytes[0..TABLE_MAP_FLAGS]),
        flags: number_2(&bytes[TABLE_MAP_FLAGS..TABLE_MAP_DB_LENGTH]),
        db: &bytes[TABLE_MAP_DB..zero],
        name: &bytes[name_from..last_zero],
        rest: &bytes[last_zero + 1..],
    })
}

#[tactic(auto, unfolding(crate::specs::Reading::prepare_at, crate::specs::Reading::guard))]
fn view_prepare(bytes: &[u8]) -> Option<BodyView<'_>>
    ensures { option_map body_viewed result ≡ prepare_at bytes.now }
{
    if bytes.len() < PREPARE_GTRID {
        return None;
    }
    let gtrid = number_4(&bytes[PREPARE_GTRID_LENGTH..PREPARE_BQUAL_LENGTH]) as usize;
    let bqual = number_4(&bytes[PREPARE_BQUAL_LENGTH..PREPARE_GTRID]) as usize;
    if bytes.len() != PREPARE_GTRID + gtrid + bqual || gtrid > GTRID_MAX || bqual > GTRID_MAX {
        return None;
    }
    let bqual_from = PREPARE_GTRID + gtrid;
    Some(BodyView::XaPrepare {
        one_phase: bytes[0],
        format: number_4(&bytes[PREPARE_FORMAT..PREPARE_GTRID_LENGTH]),
        gtrid: &bytes[PREPARE_GTRID..bqual_from],
        bqual: &bytes[bqual_from..],
    })
}

#[tactic(auto, unfolding(crate::specs::Reading::timestamp_at, crate::specs::Reading::guard))]
fn view_timestamp(bytes: &[u8]) -> Option<BodyView<'_>>
    ensures { option_map body_viewed result ≡ timestamp_at bytes.now }
{
    if bytes.len() != TIMESTAMP_LENGTH {
        return None;
    }
    Some(BodyView::Timestamp {
        class: bytes[0],
        value: number_8(&bytes[TIMESTAMP_VALUE..]),
    })
}

/// The body of these bytes, by the event's type, read in place; none where they don't fit its layout.
#[tactic(auto, unfolding(crate::specs::Reading::body_at))]
pub fn view_body(kind: u8, bytes: &[u8]) -> Option<BodyView<'_>>
    ensures { option_map body_viewed result ≡ body_at kind bytes.now }
{
    match kind {
        kind::QUERY => view_query(bytes),
        kind::ROTATE => view_rotate(bytes),
        kind::FORMAT => view_format(bytes),
        kind::XID => view_xid(bytes),
        kind::TABLE_MAP => view_table_map(bytes),
        kind::ROWS_QUERY => view_rows_query(bytes),
        kind::XA_PREPARE => view_prepare(bytes),
        kind::PARTIAL | kind::COMPRESSED => None,
        kind::TIMESTAMP => view_timestamp(bytes),
        kind if kind::is_rows(kind) => Some(BodyView::Rows { bytes }),
        _ => Some(BodyView::Skipped { bytes }),
    }
}

/// The event of a header and the bytes behind it, read in place, or the first fault of its body: what
/// `read_owned_body` answers, by the same definition. It takes no memory.
#[tactic(auto, using(crate::proofs::Kept::kept_is_front))]
pub fn read_view<'a>(
    header: &Header,
    bytes: &'a [u8],
    checksum: u8,
) -> Result<EventView<'a>, EventFault>
    requires setting { checksum ≤ 1 }
    requires length { HasGoodLength checksum header.now }
    requires whole { header.now.length ≡ 19 + length bytes.now }
    // The view is of the event that the bytes are, or this is their fault.
    ensures { result_viewed result ≡ event_of checksum header.now bytes.now }
{
    let less = checksum_length(checksum, header.kind);
    let kept = shortened(*header, less);
    match view_body(header.kind, &bytes[..bytes.len() - less as usize]) {
        Some(body) => Ok(EventView { header: kept, body }),
        None => Err(fault_of(header.kind)),
    }
}
