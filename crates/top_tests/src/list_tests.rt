//! `list`: what outs have published, and what hinders it.

use crate::call::{Config, Seen};
use crate::listing::{CONFIG, ONE_FILE, SHORT_SLOT, list, pair, shelf, shelves};
use std::alloc::Global;
use std::test::Fail;

/// The lines of two outs, three transactions in two files and none.
const TEXT: &[u8] =
    b"1 binlog.000001 399\n1 binlog.000002 241\nout 1 binlog.000002 241 3\nout 2 - 0 0\n";

/// A configuration whose source doesn't fail.
const READ: Config<'static> = Config {
    text: CONFIG,
    fails: &[],
};

// Lists outs without a second slot, onto a sink whose writes fail so.
fn list_onto(alloc: Global, fails: &[u64]) -> Result<Seen, Fail> {
    let mut service = shelves(alloc, &[], &[])?;
    list(alloc, &READ, &mut service, fails)
}

#[test]
fn outs_are_listed(rt: HostRuntime) -> Result<(), Fail> {
    let seen = list_onto(rt.alloc(), &[])?;
    assert!(rt; seen.is(0, TEXT, b""));
    Ok(())
}

#[test]
fn a_sink_that_fails_is_told(rt: HostRuntime) -> Result<(), Fail> {
    let seen = list_onto(rt.alloc(), &[1])?;
    assert!(rt; seen.is_front(9, TEXT, b"cdc: sink\n"));
    Ok(())
}

// Lists outs, the second one with a short slot, by a configuration whose source fails so.
fn list_short(alloc: Global, text: &[u8], fails: &[u64]) -> Result<Seen, Fail> {
    let mut service = shelves(alloc, SHORT_SLOT, &[])?;
    list(alloc, &Config { text, fails }, &mut service, &[])
}

/// Configurations that are refused, and their lines.
const REFUSED: [(&str, &str); 4] = [
    ("", "cdc: config node\n"),
    ("rotation = 255", "cdc: config rotation\n"),
    ("rotation = 256\nwindow = 1", "cdc: config window\n"),
    ("rotation", "cdc: config toml\n"),
];

#[test]
fn a_configuration_is_refused_for_its_first_key(rt: HostRuntime) -> Result<(), Fail> {
    for (config, line) in REFUSED {
        let seen = list_short(rt.alloc(), config.as_bytes(), &[])?;
        assert!(rt; seen.is(2, b"", line.as_bytes()), "{line}");
    }
    Ok(())
}

// The length is asked for, then the bytes.
#[test]
fn a_configuration_that_cannot_be_read_is_told(rt: HostRuntime) -> Result<(), Fail> {
    for call in 1..3u64 {
        let seen = list_short(rt.alloc(), CONFIG, &[call])?;
        assert!(rt; seen.is(4, b"", b"cdc: read config\n"), "call {call}");
    }
    Ok(())
}

// Whether the second out, of this slot and these files, is refused with this line.
fn is_refused(alloc: Global, slot: &[u8], lengths: &[usize], line: &[u8]) -> Result<bool, Fail> {
    let mut service = shelves(alloc, slot, lengths)?;
    let seen = list(alloc, &READ, &mut service, &[])?;
    Ok(seen.is(7, b"", line))
}

#[test]
fn an_out_that_is_refused_is_told(rt: HostRuntime) -> Result<(), Fail> {
    let line = b"cdc: kept out 2 bad cell\n";
    assert!(rt; is_refused(rt.alloc(), SHORT_SLOT, &[241], line)?);
    let line = b"cdc: kept out 2 bad front 241 240\n";
    assert!(rt; is_refused(rt.alloc(), ONE_FILE, &[240], line)?);
    let line = b"cdc: kept out 2 bad front 241 0\n";
    assert!(rt; is_refused(rt.alloc(), ONE_FILE, &[], line)?);
    Ok(())
}

// Lists two outs, the second one of which stops at this call.
fn list_stopped(alloc: Global, call: u64) -> Result<Seen, Fail> {
    let mut failing = shelf(alloc, ONE_FILE, &[241])?;
    failing.disk.stop_at(call);
    let mut service = pair(alloc, shelf(alloc, ONE_FILE, &[241])?, failing)?;
    list(alloc, &READ, &mut service, &[])
}

// Six calls look at an out, one more asks for the length of its file.
#[test]
fn a_disk_that_fails_is_told(rt: HostRuntime) -> Result<(), Fail> {
    for call in 1..8u64 {
        let seen = list_stopped(rt.alloc(), call)?;
        assert!(rt; seen.is(5, b"", b"cdc: disk out 2\n"), "call {call}");
    }
    Ok(())
}
