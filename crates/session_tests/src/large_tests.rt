//! Sessions over memory whose packets are large, both ways.

use cdc_memory::{MemDisk, MemLink};
use cdc_outside::{DiskFile, write_through};
use cdc_session::{SessionEnd, session};
use std::alloc::Global;
use std::test::Fail;

/// What an output file begins with.
const HEAD: &str =
    "fe62696e000000000f01000000770000007b00000000000400352e372e302d63646300000000000000000000000000000000000000000000000000000000000000000000000000000000000000000013380d0008001200040404041200005f00041a08000000080808020000000a0a0a2a2a001234000000000000";

/// The slot of an output of one file, before the file's length.
const SLOT: &str = "0101000000000000001a000000000000000101000000000000000100000000000000";

/// A dump of the first file from place 123 on, to its end.
const DUMP: [u8; 15] = [11, 0, 0, 0, 0x12, 123, 0, 0, 0, 1, 0, 7, 0, 0, 0];

/// The bytes before the third packet of the reply.
const BEFORE: usize = 169;

/// Payloads: their bytes, the head of their first packet, how many of their bytes stand in it, the head of the next
/// packet, and the number behind them.
const PAYLOADS: [(usize, [u8; 4], usize, &[u8], u8); 5] = [
    (65_536, [0, 0, 1, 3], 65_536, &[], 4),
    (65_538, [2, 0, 1, 3], 65_538, &[], 4),
    (16_777_214, [0xfe, 0xff, 0xff, 3], 16_777_214, &[], 4),
    (
        16_777_215,
        [0xff, 0xff, 0xff, 3],
        16_777_215,
        &[0, 0, 0, 4],
        5,
    ),
    (
        16_777_216,
        [0xff, 0xff, 0xff, 3],
        16_777_215,
        &[1, 0, 0, 4],
        5,
    ),
];

// An event of so many bytes.
fn event_of(alloc: Global, size: usize) -> Result<Vec<u8>, Fail> {
    let mut event = vec![in alloc; 0x5au8; size]?;
    if let Some(length) = event.as_mut_slice().get_mut(9..13) {
        length.copy_from_slice(&(size as u64).to_le_bytes()[..4]);
    }
    Ok(event)
}

// An output of one file, with this event behind its head.
fn output(alloc: Global, event: &[u8]) -> Result<MemDisk, Fail> {
    let head = hex::decode(alloc, HEAD)?;
    let mut file = head.clone()?;
    file.extend_from_slice(event)?;
    let mut slot = hex::decode(alloc, SLOT)?;
    slot.extend_from_slice(&(file.len() as u64).to_le_bytes())?;
    slot.push(0)?;
    let mut disk = MemDisk::new(alloc, 1, file.len(), 10, &[])?;
    write_through(&mut disk, DiskFile::Log(1), 0, file.as_slice())?;
    write_through(&mut disk, DiskFile::SlotA, 0, slot.as_slice())?;
    Ok(disk)
}

// The packets of a dump's payload, and the one that ends the dump.
fn packets(
    alloc: Global,
    event: &[u8],
    head: [u8; 4],
    first: usize,
    next: &[u8],
    number: u8,
) -> Result<Vec<u8>, Fail> {
    let mut payload = vec![in alloc; 0u8; 1]?;
    payload.extend_from_slice(event)?;
    let (front, rest) = payload.as_slice().split_at_checked(first).ok_or("a part")?;
    let mut bytes = Vec::from_slice(alloc, &head)?;
    bytes.extend_from_slice(front)?;
    bytes.extend_from_slice(next)?;
    bytes.extend_from_slice(rest)?;
    bytes.extend_from_slice(&[5, 0, 0, number, 0xfe, 0, 0, 2, 0])?;
    Ok(bytes)
}

#[test]
fn large_events_are_sent_in_full_packets(rt: HostRuntime) -> Result<(), Fail> {
    let alloc = rt.alloc();
    for (size, head, first, next, number) in PAYLOADS {
        let event = event_of(alloc, size.saturating_sub(1))?;
        let mut disk = output(alloc, event.as_slice())?;
        let mut link = MemLink::new(alloc, &DUMP, 17_000_000, &[])?;
        let end = session(alloc, &mut disk, &mut link);
        let wanted = packets(alloc, event.as_slice(), head, first, next, number)?;
        let found = link.written().get(BEFORE..).unwrap_or(&[]);
        assert!(rt; end == SessionEnd::Closed, "{end:?} for {size}");
        assert!(rt; found == wanted.as_slice(), "the reply for {size}");
    }
    Ok(())
}

#[test]
fn long_requests_are_refused(rt: HostRuntime) -> Result<(), Fail> {
    let alloc = rt.alloc();
    // The length that a head tells, how many bytes come behind it, how many are answered.
    let rows: [([u8; 3], usize, usize); 5] = [
        ([0xff, 0xff, 0], 65_535, 28),
        ([0, 0, 1], 65_536, 0),
        ([0xfe, 0xff, 0xff], 70_000, 0),
        ([0xff, 0xff, 0xff], 70_000, 0),
        ([0xff, 0xff, 0], 65_534, 0),
    ];
    for (length, bytes, answered) in rows {
        let mut input = Vec::from_slice(alloc, &length)?;
        input.push(0)?;
        input.extend_from_slice(vec![in alloc; 0x5au8; bytes]?.as_slice())?;
        let mut disk = output(alloc, &[])?;
        let mut link = MemLink::new(alloc, input.as_slice(), 1_000, &[])?;
        let end = session(alloc, &mut disk, &mut link);
        let wanted = if answered == 0 {
            SessionEnd::BadPacket
        } else {
            SessionEnd::Closed
        };
        assert!(rt; end == wanted, "{end:?} for {bytes} bytes");
        assert!(rt;
            link.written().len() == answered,
            "the reply to {bytes} bytes"
        );
    }
    Ok(())
}
