//! Sources that fail.

use crate::call::{Seen, print_all};
use crate::expected::printed;
use crate::nodes::source_of;
use cdc_base::Memory;
use cdc_memory::MemSource;
use cdc_samples::Log;
use std::alloc::Global;
use std::test::Fail;

// A source of this log, which fails at this call if it is to fail.
fn source_with(alloc: Global, log: &[u8], failing: bool, call: u64) -> Result<MemSource, Memory> {
    if failing {
        return source_of(alloc, log, &[call]);
    }
    source_of(alloc, log, &[])
}

// Sources of `count` nodes with this log, of which those of the two nodes fail at one call. Nodes are counted from 1.
fn nodes_with(
    alloc: Global,
    log: &[u8],
    count: u32,
    failing: (u32, u32),
    call: u64,
) -> Result<Vec<MemSource>, Memory> {
    let mut nodes = Vec::new(alloc);
    for number in 1..=count {
        let fails = number == failing.0 || number == failing.1;
        nodes.push(source_with(alloc, log, fails, call)?)?;
    }
    Ok(nodes)
}

// Prints the logs of `count` nodes, of which one or two fail at one call.
fn print_failing(
    alloc: Global,
    log: &[u8],
    count: u32,
    failing: (u32, u32),
    call: u64,
) -> Result<Seen, Fail> {
    let mut nodes = nodes_with(alloc, log, count, failing, call)?;
    print_all(alloc, &mut nodes)
}

// Whether a call of one of two sources is behind all that it is asked for, so that nothing fails.
fn is_behind(alloc: Global, log: &[u8], node: u32, line: &[u8], call: u64) -> Result<bool, Fail> {
    let seen = print_failing(alloc, log, 2, (node, node), call)?;
    if seen.status != 0 && !seen.is(4, b"", line) {
        return Err("a failing source is told otherwise")?;
    }
    Ok(seen.status == 0)
}

// How many calls a source is asked for; behind them nothing can fail. A log of one read has three at least: the number
// of files, the length of the first and its bytes.
fn failing_calls(alloc: Global, log: &[u8], node: u32, line: &[u8]) -> Result<u64, Fail> {
    for call in 1..=100u64 {
        if is_behind(alloc, log, node, line, call)? {
            return Ok(call - 1);
        }
    }
    Err("no end of calls")?
}

#[test]
fn a_source_that_fails_at_any_call_is_told(rt: HostRuntime) -> Result<(), Fail> {
    let log = Log::of(rt.alloc(), "H P(g1) C(g1,10)")?;
    let first = failing_calls(rt.alloc(), log.bytes(), 1, b"cdc: read node 1\n")?;
    let second = failing_calls(rt.alloc(), log.bytes(), 2, b"cdc: read node 2\n")?;
    assert!(rt; first >= 3 && second == first);
    Ok(())
}

#[test]
fn the_least_failing_source_is_named(rt: HostRuntime) -> Result<(), Fail> {
    let log = Log::of(rt.alloc(), "H P(g1) C(g1,10)")?;
    for call in 1..=3u64 {
        let seen = print_failing(rt.alloc(), log.bytes(), 100, (77, 23), call)?;
        assert!(rt; seen.is(4, b"", b"cdc: read node 23\n"), "call {call}");
    }
    Ok(())
}

// Nodes 1 to 3: two whose logs have a fault, and between them one whose source fails.
#[test]
fn a_failing_source_stands_before_faults(rt: HostRuntime) -> Result<(), Fail> {
    let log = Log::of(rt.alloc(), "H P(g1) C(g1,10) X")?;
    let seen = print_failing(rt.alloc(), log.bytes(), 3, (2, 2), 3)?;
    assert!(rt; seen.is(4, b"", b"cdc: read node 2\n"));
    let seen = print_failing(rt.alloc(), log.bytes(), 3, (0, 0), 3)?;
    let want = printed(rt.alloc(), "10:6731")?;
    assert!(rt; seen.is(3, want.bytes(), b"cdc: node 1 1:349 OutOfPlace\n"));
    Ok(())
}
