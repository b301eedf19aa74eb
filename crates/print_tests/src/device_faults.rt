//! Sources and sinks that fail.

use crate::seen::{ROOM, Seen, print_to, source_in};
use cdc_print::PrintEnd;
use std::alloc::Global;
use std::test::Fail;

const LOG: &str = "H P(g1) C(g1,10)";

// Prints so many nodes with the same log, of which those that are named fail at one of their calls.
fn print_failing(
    alloc: Global,
    words: &str,
    count: u32,
    failing: &[u32],
    call: u64,
) -> Result<Seen, Fail> {
    let mut nodes = Vec::new(alloc);
    for node in 1..=count {
        let source = if failing.contains(&node) {
            source_in(alloc, words, &[call])?
        } else {
            source_in(alloc, words, &[])?
        };
        nodes.push(source)?;
    }
    Ok(print_to(alloc, &mut nodes, ROOM, &[])?)
}

// A source is asked for the number of its files, the length of the first, its bytes, and the number of files again.
#[test]
fn a_source_that_fails_is_named(rt: HostRuntime) -> Result<(), Fail> {
    for call in 1..=4u64 {
        for node in 1..=3u32 {
            let seen = print_failing(rt.alloc(), LOG, 3, &[node], call)?;
            assert!(&rt;
                seen.is(PrintEnd::Read { node }, 0),
                "node {node}, call {call}"
            );
        }
    }
    Ok(())
}

#[test]
fn the_least_of_several_is_named(rt: HostRuntime) -> Result<(), Fail> {
    for (failing, node) in [([2, 3], 2), ([3, 1], 1), ([9, 4], 4)] {
        let seen = print_failing(rt.alloc(), LOG, 10, &failing, 2)?;
        assert!(&rt; seen.is(PrintEnd::Read { node }, 0), "node {node}");
    }
    Ok(())
}

// A source that fails stands before faults of logs.
#[test]
fn a_source_stands_before_faults(rt: HostRuntime) -> Result<(), Fail> {
    let seen = print_failing(rt.alloc(), "H W", 5, &[5], 2)?;
    assert!(&rt; seen.is(PrintEnd::Read { node: 5 }, 0));
    Ok(())
}

// A sink that fails turns what is done into its own end, and leaves a fault.
#[test]
fn a_sink_that_fails_is_told(rt: HostRuntime) -> Result<(), Fail> {
    let mut nodes = Vec::new(rt.alloc());
    nodes.push(source_in(rt.alloc(), LOG, &[])?)?;
    let seen = print_to(rt.alloc(), &mut nodes, ROOM, &[1])?;
    assert!(&rt; seen.is(PrintEnd::Sink, 0));
    let mut nodes = Vec::new(rt.alloc());
    nodes.push(source_in(rt.alloc(), "H P(g1) C(g1,10) W", &[])?)?;
    let seen = print_to(rt.alloc(), &mut nodes, ROOM, &[1])?;
    let Some((node, _, _)) = seen.fault() else {
        return Err("no fault")?;
    };
    assert_eq!(&rt; node, 1);
    Ok(())
}
