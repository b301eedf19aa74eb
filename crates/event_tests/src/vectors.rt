//! Whole events of the format: read and written back to the same bytes; that sharing succeeds.

ghost use Rattle.std.specs.Prelude.{IfOk};
ghost use Rattle.cdc_event.specs.Event.{IsEvent};

use cdc_base::{Blob, Buffer};
use cdc_event::{Event, check_length, read_header, read_owned_body, write_event};
use cdc_samples::blobs::blob_of;
use std::alloc::Global;
use std::process::Abort;
use std::test::Fail;

/// An output file's format event, BEGIN, mark and XID; a table map, its row event, a rotation, a prepare
/// of the id g1, and its timestamp 10.
const EVENTS: &str =
    "000000000f01000000770000007b00000000000400352e372e302d63646300000000000000000000000000000000000000000000000000000000000000000000000000000000000000000013380d0008001200040404041200005f00041a08000000080808020000000a0a0a2a2a001234000000000000
05000000020100000026000000a100000000000000000000000000000000000000424547494e
050000001d0100000035000000d60000000000214354533a3a303030303030303030303030303030303031303a3a303a3a36373331
0500000010010000001b000000f100000000000100000000000000
050000001309000000270000000000000000000100000000000100026431000274310001030001
050000001e09000000240000000000000000000100000000000100020001ff0001000000
00000000040100000028000000000000002000040000000000000062696e6c6f672e303030303031
05000000260900000022000000000000000000000100000002000000000000006731
05000000c8090000001c000000000000000000010a00000000000000";

fn read(bytes: &Blob) -> Result<Event, Fail>
    ensures { IfOk result IsEvent }
{
    let Some(front) = bytes.bytes().first_chunk::<19>() else {
        return Err("no header")?;
    };
    let header = read_header(front);
    check_length(&header, 0)?;
    if header.length as usize != bytes.len() {
        return Err("another length")?;
    }
    let body = bytes.part(19, bytes.len())?;
    let event = read_owned_body(&header, body, 0)?;
    Ok(event)
}

fn check_event(rt: &impl Abort, alloc: Global, bytes: &[u8]) -> Result<(), Fail> {
    let event = read(&blob_of(alloc, bytes)?)?;
    assert_eq!(rt;
        event.body.encoded_length().saturating_add(19),
        bytes.len() as u64
    );
    let mut into = Buffer::new(alloc);
    into.push(b"before")?;
    let before = into.len();
    write_event(&event, &mut into)?;
    assert!(rt; before <= into.len());
    assert_eq!(rt; &into.bytes()[before..], bytes);
    event.body.share()?;
    Ok(())
}

#[test]
fn each_vector_is_read_and_written_back(rt: HostRuntime) -> Result<(), Fail> {
    for row in EVENTS.lines() {
        check_event(&rt, rt.alloc(), hex::decode(rt.alloc(), row)?.as_slice())?;
    }
    Ok(())
}
