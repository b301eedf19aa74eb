//! Sinks that fail.

use crate::call::{Room, Seen, print_into};
use crate::expected::printed;
use crate::many::many_pairs;
use crate::nodes::{ROOM, node_failing};
use cdc_samples::Log;
use std::alloc::Global;
use std::test::Fail;

// Prints one node's log to a sink with so much room, whose writes fail so.
fn print_to(alloc: Global, log: &[u8], out: usize, fails: &[u64]) -> Result<Seen, Fail> {
    let mut nodes = node_failing(alloc, log, &[])?;
    let room = Room {
        out,
        fails,
        err: 100,
    };
    print_into(alloc, &mut nodes, &room)
}

// Whether this was answered, and a front of the file of at least `least` bytes was written, for one write failed.
fn is_cut(seen: &Seen, status: u8, whole: &[u8], least: usize, line: &[u8]) -> bool {
    let written = seen.out.len();
    seen.is_front(status, whole, line)
        && written < whole.len()
        && written >= least
        && seen.out_faults == 1
}

// Whether a print to a sink that fails is told, behind at least so many bytes.
fn is_told(
    alloc: Global,
    log: &[u8],
    whole: &[u8],
    room: usize,
    fails: &[u64],
    least: usize,
) -> Result<bool, Fail> {
    let seen = print_to(alloc, log, room, fails)?;
    Ok(is_cut(&seen, 9, whole, least, b"cdc: sink\n"))
}

// 9,000 pairs print 1,098,123 bytes, which leave in pieces of at least 1 MiB.
#[test]
fn a_sink_that_fails_is_told(rt: HostRuntime) -> Result<(), Fail> {
    let log = many_pairs(rt.alloc(), 9_000)?;
    let log = log.bytes();
    let seen = print_to(rt.alloc(), log, ROOM, &[])?;
    assert_eq!(rt; seen.status, 0);
    assert_eq!(rt; seen.out.len(), 1_098_123);
    let whole = seen.out.as_slice();
    assert!(rt;
        is_told(rt.alloc(), log, whole, ROOM, &[1], 0)?,
        "first write"
    );
    assert!(rt;
        is_told(rt.alloc(), log, whole, ROOM, &[2], 1_048_576)?,
        "second write"
    );
    assert!(rt;
        is_told(rt.alloc(), log, whole, 1_098_122, &[], 1_048_576)?,
        "short room"
    );
    assert!(rt; is_told(rt.alloc(), log, whole, 0, &[], 0)?, "no room");
    Ok(())
}

// The status of a fault stays, and so does its line.
#[test]
fn a_sink_that_fails_hides_no_fault(rt: HostRuntime) -> Result<(), Fail> {
    let log = Log::of(rt.alloc(), "H P(g1) C(g1,10) X")?;
    let line = b"cdc: node 1 1:349 OutOfPlace\n";
    let whole = printed(rt.alloc(), "10:6731")?;
    let seen = print_to(rt.alloc(), log.bytes(), 241, &[])?;
    assert!(rt; seen.is(3, whole.bytes(), line));
    let seen = print_to(rt.alloc(), log.bytes(), 240, &[])?;
    assert!(rt; is_cut(&seen, 3, whole.bytes(), 0, line));
    Ok(())
}

// Where nothing is printed, nothing is written that could fail.
#[test]
fn no_transaction_needs_no_room(rt: HostRuntime) -> Result<(), Fail> {
    let log = Log::of(rt.alloc(), "H")?;
    let seen = print_to(rt.alloc(), log.bytes(), 0, &[])?;
    assert!(rt; seen.is(0, b"", b"") && seen.out_faults == 0);
    Ok(())
}
