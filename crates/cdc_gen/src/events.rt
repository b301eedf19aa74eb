//! The events of a step, behind a node's log.

ghost use Rattle.std.specs.Prelude.{◌≡◌, ◌+◌, ◌^◌, ◌<◌, ◌≤◌, length, OnOk};
ghost use Rattle.cdc_event.specs.Event.{body_bytes, FitsHeader};
ghost use Rattle.cdc_query.specs.Text.{IsXa, canonical_text};
ghost use Rattle.cdc_gen.specs.Events.{unplaced, xa_body, table_body, row_body};
ghost use Rattle.cdc_gen.specs.Logs.{placed_header, with_event};
ghost use Rattle.cdc_gen.specs.Growing.{IsPlaceable};

use crate::bodies::{row, table_map, xa_query};
use cdc_base::{Buffer, Memory};
use cdc_event::{Body, Event, HEADER_LENGTH, Header, kind, write_event};
use cdc_query::Verb;
use std::alloc::Global;

/// The server's id of a node, but for its number.
const FIRST_SERVER: u32 = 100;

/// The type of a row event.
const ROWS: u8 = 30;

/// The node that writes, and when.
#[derive(Clone, Copy, Debug, PartialEq, Eq)]
pub struct Author {
    pub node: u32,
    pub seconds: u32,
}

/// The header of an event that stands at a place of a log.
#[tactic(auto, using(cdc_event::proofs::Sizes::body_size))]
fn header_at(author: &Author, kind: u8, body: &Body, at: usize) -> Header
    requires node { author.now.node ≤ 256 }
    requires body { IsPlaceable kind body.now }
    ensures fits { FitsHeader result }
    ensures own { result.kind ≡ kind }
    ensures whole { result.length ≡ 19 + length (body_bytes body.now) }
    ensures placed { at + 119 < 2 ^ 32 → result ≡ placed_header author.now.node at (unplaced author.now.seconds kind body.now) }
{
    let length = HEADER_LENGTH as u32 + body.encoded_length() as u32;
    let next = (at as u64).saturating_add(u64::from(length));
    Header {
        seconds: author.seconds,
        kind,
        server: FIRST_SERVER + author.node,
        length,
        next: next.min(u64::from(u32::MAX)) as u32,
        flags: 0,
    }
}

/// Appends an event, at its true place where the log stays below 2^32 bytes.
pub fn put_event(author: &Author, kind: u8, body: Body, log: &mut Buffer) -> Result<(), Memory>
    requires node { author.now.node ≤ 256 }
    requires body { IsPlaceable kind body }
    ensures grown { OnOk result (length log.new ≤ length log.old + 119) }
    ensures ok { length log.old + 119 < 2 ^ 32 → OnOk result (log.new ≡ with_event author.now.node log.old (unplaced author.now.seconds kind body)) }
{
    let header = header_at(author, kind, &body, log.len());
    write_event(&Event { header, body }, log)
}

/// Appends an XA statement.
pub fn put_xa(alloc: Global, author: &Author, verb: &Verb, log: &mut Buffer) -> Result<(), Memory>
    requires node { author.now.node ≤ 256 }
    requires xa { IsXa verb.now }
    requires short { length (canonical_text verb.now) ≤ 86 }
    ensures grown { OnOk result (length log.new ≤ length log.old + 119) }
    ensures ok { length log.old + 119 < 2 ^ 32 → OnOk result (log.new ≡ with_event author.now.node log.old (unplaced author.now.seconds 2 (xa_body verb.now))) }
{
    let body = xa_query(alloc, verb)?;
    put_event(author, kind::QUERY, body, log)
}

/// Appends the table map that stands before a row event.
pub fn put_table_map(author: &Author, log: &mut Buffer) -> Result<(), Memory>
    requires { author.now.node ≤ 256 }
    ensures grown { OnOk result (length log.new ≤ length log.old + 119) }
    ensures ok { length log.old + 119 < 2 ^ 32 → OnOk result (log.new ≡ with_event author.now.node log.old (unplaced author.now.seconds 19 table_body)) }
{
    put_event(author, kind::TABLE_MAP, table_map(), log)
}

/// Appends a row event of this value.
pub fn put_row(alloc: Global, author: &Author, number: u32, log: &mut Buffer) -> Result<(), Memory>
    requires { author.now.node ≤ 256 }
    ensures grown { OnOk result (length log.new ≤ length log.old + 119) }
    ensures ok { length log.old + 119 < 2 ^ 32 → OnOk result (log.new ≡ with_event author.now.node log.old (unplaced author.now.seconds 30 (row_body number))) }
{
    let body = row(alloc, number)?;
    put_event(author, ROWS, body, log)
}

/// Appends a timestamp.
pub fn put_timestamp(author: &Author, class: u8, value: u64, log: &mut Buffer) -> Result<(), Memory>
    requires { author.now.node ≤ 256 }
    ensures grown { OnOk result (length log.new ≤ length log.old + 119) }
    ensures ok { length log.old + 119 < 2 ^ 32 → OnOk result (log.new ≡ with_event author.now.node log.old (unplaced author.now.seconds 200 (Body.Timestamp class value))) }
{
    put_event(
        author,
        kind::TIMESTAMP,
        Body::Timestamp { class, value },
        log,
    )
}
