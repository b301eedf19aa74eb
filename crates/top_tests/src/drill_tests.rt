//! Drills by the top call, which uses no device of theirs but the sinks.

use crate::call::{Room, Seen, call_alone};
use std::alloc::Global;
use std::test::Fail;

// Calls with these words; the writes to `out` fail so.
fn call_drill(alloc: Global, words: &str, fails: &[u64]) -> Result<Seen, Fail> {
    let room = Room {
        out: 1_000,
        fails,
        err: 400,
    };
    call_alone(alloc, words, &room)
}

/// What a drill of 10,000 transactions on four nodes writes: three files, and a hundred transactions on one node besides.
const TEN_THOUSAND: &str = "drill 7 4 10000\nout 1 binlog.000003 724167 10100\n";

/// Words, and what they write.
const DRILLS: [(&str, &str); 5] = [
    ("drill 1 1 0", "drill 1 1 0\nout 1 - 0 0\n"),
    ("drill 1 1 1", "drill 1 1 1\nout 1 binlog.000001 328 1\n"),
    (
        "drill 1 1 1 --order 5",
        "drill 1 1 1\nout 1 binlog.000001 328 1\n",
    ),
    ("drill 7 4 10000", TEN_THOUSAND),
    ("drill 7 4 10000 --order 5", TEN_THOUSAND),
];

#[test]
fn drills_write_their_lines(rt: HostRuntime) -> Result<(), Fail> {
    for (words, text) in DRILLS {
        let seen = call_drill(rt.alloc(), words, &[])?;
        assert!(rt; seen.is(0, text.as_bytes(), b""), "{words}");
    }
    Ok(())
}

#[test]
fn a_drill_tells_a_sink_that_fails(rt: HostRuntime) -> Result<(), Fail> {
    let seen = call_drill(rt.alloc(), "drill 1 1 1", &[1])?;
    assert!(rt; seen.status == 9 && seen.err.as_slice() == b"cdc: sink\n".as_slice());
    Ok(())
}
