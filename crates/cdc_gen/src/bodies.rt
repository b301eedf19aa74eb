//! The bodies of a drill's events.

ghost use Rattle.std.specs.Prelude.{◌≡◌, ◌≤◌, codes, length, IfOk};
ghost use Rattle.cdc_query.specs.Text.{IsXa};
ghost use Rattle.cdc_gen.specs.Events.{branch_xid, query_body, xa_body, table_body, row_body};

use bytes::Bytes;
use cdc_base::{Blob, Buffer, Gtrid, Memory, Xid, gtrid_of};
use cdc_event::Body;
use cdc_query::{Verb, write_xa};
use std::alloc::Global;

/// The format of each branch's name.
const XID_FORMAT: u32 = 1;

/// A row event's bytes before the row's value: table 1, flags 1, no extra bytes, one column, which is present and
/// not null.
const ROW_FRONT: [u8; 13] = [1, 0, 0, 0, 0, 0, 1, 0, 2, 0, 1, 255, 0];

/// Room for a statement's text.
const TEXT_ROOM: usize = 48;

fn id_of(bytes: &[u8]) -> Gtrid
    requires { length bytes.now ≤ 64 }
    ensures { result ≡ bytes.now }
{
    match gtrid_of(bytes) {
        Some(id) => id,
        None => unreachable!(),
    }
}

/// The branch of a transaction on a node.
pub(crate) fn xid_of(number: u32, node: u32) -> Xid
    ensures { result ≡ branch_xid number node }
{
    Xid {
        gtrid: id_of(&u64::from(number).to_be_bytes()),
        bqual: id_of(&node.to_be_bytes()),
        format: XID_FORMAT,
    }
}

fn query(text: Blob) -> Body
    ensures { result ≡ query_body text }
{
    Body::Query {
        thread: 0,
        seconds: 0,
        error: 0,
        status: Blob::empty(),
        db: Blob::empty(),
        text,
    }
}

/// The statement `BEGIN`.
pub(crate) fn begin() -> Body
    ensures { result ≡ query_body (codes "BEGIN") }
{
    query(Blob::from_bytes(Bytes::from_static(b"BEGIN")))
}

/// An XA statement.
pub(crate) fn xa_query(alloc: Global, verb: &Verb) -> Result<Body, Memory>
    requires { IsXa verb.now }
    ensures { IfOk result (λ body. body ≡ xa_body verb.now) }
{
    let mut text = Buffer::with_room(alloc, TEXT_ROOM)?;
    write_xa(verb, &mut text)?;
    Ok(query(text.freeze()?))
}

/// The table map that stands before each row event.
#[tactic(auto, unfolding(crate::specs::Events::table_body))]
pub(crate) fn table_map() -> Body
    ensures { result ≡ table_body }
{
    Body::TableMap {
        table: 1,
        flags: 1,
        db: Blob::from_bytes(Bytes::from_static(b"d1")),
        name: Blob::from_bytes(Bytes::from_static(b"t1")),
        rest: Blob::from_bytes(Bytes::from_static(&[1, 3, 0, 1])),
    }
}

/// A row event that writes one row, of this value.
#[tactic(auto, using(crate::proofs::Sizes::value_bytes), unfolding(crate::specs::Events::row_body))]
pub(crate) fn row(alloc: Global, number: u32) -> Result<Body, Memory>
    ensures { IfOk result (λ body. body ≡ row_body number) }
{
    let mut bytes = Buffer::with_room(alloc, ROW_FRONT.len() + 4)?;
    bytes.push(&ROW_FRONT)?;
    bytes.push(&number.to_le_bytes())?;
    Ok(Body::Rows {
        bytes: bytes.freeze()?,
    })
}
