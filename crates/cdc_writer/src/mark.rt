//! The mark of a printed transaction: its order key as a text.

ghost use Rattle.std.specs.Prelude.{◌≡◌, ◌+◌, ◌<◌, ◌≤◌, ◌^◌, ◌++◌, length, codes, IfOk, OnOk, OnErr};
ghost use Rattle.hex.specs.Hex.{encode_lower};
ghost use Rattle.cdc_model.specs.Print.{digits, mark_text, mark_event, row_length, printed_event};

use crate::digits::push_digits;
use crate::event::put_event;
use cdc_base::{Blob, Buffer, Gtrid, Key, Memory};
use cdc_event::{Body, kind};
use hex::encode_to_slice;
use std::alloc::Global;

/// The digits of a timestamp, of a node's number and of an entry's.
const TIMESTAMP_DIGITS: usize = 19;

const NODE_DIGITS: usize = 5;

const ENTRY_DIGITS: usize = 20;

/// The most bytes of a global id's text.
const HEX_MAX: usize = 128;

fn push_hex(id: &Gtrid, into: &mut Buffer) -> Result<(), Memory>
    ensures { OnOk result (into.new ≡ into.old ++ encode_lower id.now) }
{
    let bytes = id.bytes();
    let mut text = [0; HEX_MAX];
    let text = &mut text[..2 * bytes.len()];
    match encode_to_slice(bytes, text) {
        Ok(()) => into.push(text),
        Err(_) => unreachable!(),
    }
}

fn push_shared(timestamp: u64, gtrid: &Gtrid, into: &mut Buffer) -> Result<(), Memory>
    ensures { OnOk result (into.new ≡ into.old ++ (codes "CTS::" ++ (digits 19 timestamp ++ (codes "::0::" ++ encode_lower gtrid.now)))) }
{
    into.push(b"CTS::")?;
    push_digits(TIMESTAMP_DIGITS, timestamp, into)?;
    into.push(b"::0::")?;
    push_hex(gtrid, into)
}

fn push_plain(timestamp: u64, node: u32, entry: u64, into: &mut Buffer) -> Result<(), Memory>
    ensures { OnOk result (into.new ≡ into.old ++ (codes "CTS::" ++ (digits 19 timestamp ++ (codes "::1::" ++ (digits 5 node ++ digits 20 entry))))) }
{
    into.push(b"CTS::")?;
    push_digits(TIMESTAMP_DIGITS, timestamp, into)?;
    into.push(b"::1::")?;
    push_digits(NODE_DIGITS, u64::from(node), into)?;
    push_digits(ENTRY_DIGITS, entry, into)
}

#[tactic(auto, unfolding(cdc_model::specs::Print::mark_text))]
fn push_mark(key: &Key, into: &mut Buffer) -> Result<(), Memory>
    ensures { OnOk result (into.new ≡ into.old ++ mark_text key.now) }
{
    match key {
        Key::Shared { timestamp, gtrid } => push_shared(*timestamp, gtrid, into),
        Key::Plain {
            timestamp,
            node,
            entry,
        } => push_plain(*timestamp, *node, *entry, into),
    }
}

fn text_of(alloc: Global, key: &Key) -> Result<Blob, Memory>
    ensures { IfOk result (λ text. text ≡ mark_text key.now) }
{
    let mut text = Buffer::new(alloc);
    push_mark(key, &mut text)?;
    text.freeze()
}

// The length of a mark's text.
fn text_length(key: &Key) -> u8
    ensures { result ≡ length (mark_text key.now) }
{
    match key {
        Key::Shared { gtrid, .. } => 29 + 2 * gtrid.bytes().len() as u8,
        Key::Plain { .. } => 54,
    }
}

/// The length of a mark's event.
pub(crate) fn mark_length(key: &Key) -> u64
    ensures length { result ≡ row_length (mark_event key.now) }
    ensures short { result ≤ 275 }
{
    20 + u64::from(text_length(key))
}

/// Appends a mark, and answers the offset behind it.
pub(crate) fn put_mark(
    alloc: Global,
    key: &Key,
    seconds: u32,
    at: u64,
    into: &mut Buffer,
) -> Result<u64, Memory>
    requires { at + row_length (mark_event key.now) < 2 ^ 32 }
    ensures next { IfOk result (λ next. next ≡ at + row_length (mark_event key.now)) }
    ensures ok { OnOk result (into.new ≡ into.old ++ printed_event at seconds (mark_event key.now)) }
    ensures err { OnErr result (into.new ≡ into.old) }
{
    let text = text_of(alloc, key)?;
    let size = text_length(key);
    put_event(
        kind::ROWS_QUERY,
        Body::RowsQuery { size, text },
        seconds,
        at,
        into,
    )
}
