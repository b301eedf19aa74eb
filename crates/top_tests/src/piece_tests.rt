//! Logs that are cut, and groups that lie over two reads.

use crate::call::{Seen, print_all};
use crate::expected::printed;
use crate::nodes::node_failing;
use cdc_base::Buffer;
use cdc_samples::{Log, NotMade};
use std::alloc::Global;
use std::test::Fail;

// Prints the log of one node.
fn print_one(alloc: Global, file: &[u8]) -> Result<Seen, Fail> {
    let mut nodes = node_failing(alloc, file, &[])?;
    print_all(alloc, &mut nodes)
}

// Whether a front of so many bytes gave what is whole in it.
fn is_whole(seen: &Seen, cut: usize, one: &[u8], two: &[u8]) -> bool {
    if cut < 349 {
        seen.is(0, b"", b"")
    } else if cut < 575 {
        seen.is(0, one, b"")
    } else {
        seen.is(0, two, b"")
    }
}

// Whether a front of a log of two transactions gives what is whole in it: the first is whole from 349 bytes on, the
// second from 575 on.
fn is_cut_right(
    alloc: Global,
    log: &[u8],
    cut: usize,
    one: &Buffer,
    two: &Buffer,
) -> Result<bool, Fail> {
    let seen = print_one(alloc, log.get(..cut).unwrap_or(log))?;
    Ok(is_whole(&seen, cut, one.bytes(), two.bytes()))
}

#[test]
fn what_is_whole_in_a_cut_log_is_printed(rt: HostRuntime) -> Result<(), Fail> {
    let log = Log::of(rt.alloc(), "H P(g1) C(g1,10) P(g2) C(g2,20)")?;
    let one = printed(rt.alloc(), "10:6731")?;
    let two = printed(rt.alloc(), "10:6731 20:6732")?;
    for cut in 0..=575 {
        let good = is_cut_right(rt.alloc(), log.bytes(), cut, &one, &two)?;
        assert!(rt; good, "{cut} bytes");
    }
    Ok(())
}

/// Zeros for events that are passed over.
const ZEROS: [u8; 65_536] = [0; 65_536];

// A log whose branch begins so many bytes before the byte 65,536: a head of 123 bytes, an event that is passed over,
// whose header has 19, then a branch of 217 bytes with a row and its commit of 84.
fn log_before(alloc: Global, before: usize) -> Result<Log, NotMade> {
    let filler = 65_536usize.saturating_sub(142).saturating_sub(before);
    let mut log = Log::new(alloc);
    log.head()?;
    log.push_event(3, ZEROS.get(..filler).unwrap_or(&[]), &[])?;
    log.prepare_row(b"g1", 1)?;
    log.commit(b"g1", 10)?;
    Ok(log)
}

// A read has at most 65,536 bytes.
#[test]
fn a_branch_lies_over_two_reads_at_each_byte(rt: HostRuntime) -> Result<(), Fail> {
    let want = printed(rt.alloc(), "10:6731+")?;
    for before in 0..=301 {
        let log = log_before(rt.alloc(), before)?;
        let seen = print_one(rt.alloc(), log.bytes())?;
        assert!(rt; seen.is(0, want.bytes(), b""), "{before} bytes");
    }
    Ok(())
}
