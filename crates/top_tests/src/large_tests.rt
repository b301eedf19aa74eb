//! A transaction that is too large.

use crate::call::print_all;
use crate::expected::printed;
use crate::nodes::node_of;
use cdc_base::{Buffer, Memory};
use cdc_memory::MemSource;
use cdc_samples::{Log, NotMade};
use std::alloc::Global;
use std::test::Fail;

/// A piece of zeros.
const ZEROS: [u8; 65_536] = [0; 65_536];

// As many zeros as the longest row event has.
fn zeros(alloc: Global) -> Result<Buffer, Memory> {
    let mut zeros = Buffer::new(alloc);
    for _piece in 0..1_025 {
        zeros.push(&ZEROS)?;
    }
    Ok(zeros)
}

// A branch g1 at 10 without rows, and the begin of g2.
fn push_front(log: &mut Log) -> Result<(), NotMade> {
    log.head()?;
    log.prepare(b"g1")?;
    log.commit(b"g1", 10)?;
    log.statement(b"XA START", b"g2", &[])
}

// Four row events, of zeros.
fn push_rows(log: &mut Log, zeros: &[u8]) -> Result<(), NotMade> {
    for size in [67_108_815usize, 67_108_815, 67_108_815, 67_108_818] {
        log.push_event(30, zeros.get(..size).unwrap_or(&[]), &[])?;
    }
    Ok(())
}

// The end of g2, and its commit at 20.
fn push_end(log: &mut Log) -> Result<(), NotMade> {
    log.statement(b"XA END", b"g2", &[])?;
    log.prepared(0, b"g2", &[])?;
    log.commit(b"g2", 20)
}

// A branch g1 at 10 without rows, and one g2 at 20 with four row events, whose print has 2^28 bytes and one more: the
// query `BEGIN` 38, the rows 76 and 268,435,263, the mark 53 and the XID 27.
fn large_log(alloc: Global) -> Result<Log, NotMade> {
    let zeros = zeros(alloc)?;
    let mut log = Log::with_room(alloc, 268_500_000)?;
    push_front(&mut log)?;
    push_rows(&mut log, zeros.bytes())?;
    push_end(&mut log)?;
    Ok(log)
}

// The source of this log.
fn large_source(alloc: Global) -> Result<MemSource, NotMade> {
    let log = large_log(alloc)?.freeze()?;
    Ok(MemSource::new(alloc, &[log], &[])?)
}

// What stands before it is written.
#[test]
fn a_transaction_that_is_too_large_is_told(rt: HostRuntime) -> Result<(), Fail> {
    let mut nodes = node_of(rt.alloc(), large_source(rt.alloc())?)?;
    let seen = print_all(rt.alloc(), &mut nodes)?;
    let want = printed(rt.alloc(), "10:6731")?;
    assert!(rt; seen.is(6, want.bytes(), b"cdc: too large 2 268435457\n"));
    Ok(())
}
