//! Drills against values from outside.

use cdc_base::Memory;
use cdc_drill::{DrillEnd, drill};
use cdc_memory::MemSink;
use std::alloc::Global;
use std::test::Fail;

/// How many bytes a sink of these tests has room for.
const ROOM: usize = 200;

/// What a drill of 10,000 transactions on four nodes writes: three files, and a hundred transactions on one node besides.
const TEN_THOUSAND: &[u8] = b"drill 7 4 10000\nout 1 binlog.000003 724167 10100\n";

/// Seed, nodes and transactions of a drill, and what it writes.
const ROWS: [(u64, u32, u32, &[u8]); 3] = [
    (1, 1, 0, b"drill 1 1 0\nout 1 - 0 0\n"),
    (1, 1, 1, b"drill 1 1 1\nout 1 binlog.000001 328 1\n"),
    (7, 4, 10_000, TEN_THOUSAND),
];

// A drill's end and what it wrote.
#[derive(Drop)]
struct Drilled {
    end: DrillEnd,
    sink: MemSink,
}

// Runs a drill into a sink whose listed writes fail.
fn drill_into(
    alloc: Global,
    seed: u64,
    nodes: u32,
    count: u32,
    order: Option<u64>,
    fails: &[u64],
) -> Result<Drilled, Memory> {
    let mut sink = MemSink::new(alloc, ROOM, fails)?;
    let nodes = nodes.clamp(1, 256);
    let count = count.min(100_000);
    let end = drill(alloc, seed, nodes, count, order, &mut sink);
    Ok(Drilled { end, sink })
}

// Whether a drill is done and has written this.
fn writes(
    alloc: Global,
    seed: u64,
    nodes: u32,
    count: u32,
    order: Option<u64>,
    want: &[u8],
) -> Result<bool, Memory> {
    let seen = drill_into(alloc, seed, nodes, count, order, &[])?;
    Ok(seen.end == DrillEnd::Done && seen.sink.written() == want)
}

#[test]
fn drills_write_their_two_lines(rt: HostRuntime) -> Result<(), Fail> {
    for (seed, nodes, count, want) in ROWS {
        assert!(rt;
            writes(rt.alloc(), seed, nodes, count, None, want)?,
            "{seed} {nodes} {count}"
        );
    }
    Ok(())
}

#[test]
fn every_order_writes_the_same(rt: HostRuntime) -> Result<(), Fail> {
    for order in 1..11u64 {
        assert!(rt;
            writes(rt.alloc(), 7, 4, 10_000, Some(order), TEN_THOUSAND)?,
            "order {order}"
        );
    }
    Ok(())
}

#[test]
fn a_sink_that_fails_is_told(rt: HostRuntime) -> Result<(), Fail> {
    let seen = drill_into(rt.alloc(), 7, 2, 3, None, &[1])?;
    assert!(rt; seen.end == DrillEnd::Sink && seen.sink.written().is_empty());
    Ok(())
}
