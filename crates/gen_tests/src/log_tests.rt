//! Logs and schedules against values from outside.

ghost use Rattle.std.specs.Prelude.{◌≤◌};

use cdc_base::Memory;
use cdc_gen::{LogList, logs_of, schedule_of};
use std::alloc::Global;
use std::test::Fail;

// The bytes of all logs.
fn total(logs: &LogList) -> usize {
    let mut bytes = 0usize;
    for log in logs.as_slice() {
        bytes = bytes.saturating_add(log.len());
    }
    bytes
}

// How many bytes the logs of so many nodes have together, whatever the seed.
fn size(alloc: Global, seed: u64, nodes: u32, count: u32) -> Result<usize, Memory>
    requires some { 1 ≤ nodes }
    requires nodes { nodes ≤ 256 }
    requires count { count ≤ 100000 }
{
    let logs = logs_of(alloc, seed, nodes, count)?;
    Ok(total(&logs))
}

// A log has a head of 123 bytes and a last beat of 28. A branch has a group of 75 + 39 + 36 + 73 + 44 = 267 bytes and a
// commit of 28 + 76 = 104; each hundred a beat and a transaction of 28 + 38 + 39 + 36 + 27 = 168.
#[test]
fn logs_have_the_sizes_of_their_events(rt: HostRuntime) -> Result<(), Fail> {
    let rows: [(u32, u32, usize); 8] = [
        (1, 0, 151),
        (1, 1, 151 + 371),
        (2, 1, 2 * 151 + 2 * 371),
        (4, 1, 4 * 151 + 2 * 371),
        (4, 4, 4 * 151 + 8 * 371),
        (4, 100, 4 * 151 + 200 * 371 + 168),
        (256, 5, 256 * 151 + 10 * 371),
        (3, 203, 3 * 151 + 406 * 371 + 2 * 168),
    ];
    for (nodes, count, bytes) in rows {
        let nodes = nodes.clamp(1, 256);
        let count = count.min(100_000);
        let found = size(rt.alloc(), 7, nodes, count)?;
        assert!(rt; found == bytes, "{count} on {nodes}");
    }
    Ok(())
}

// A log behind its head: transaction 1 alone on node 1, then the last beat.
const ONE: &[u8] = b"\x01\xf1\x53\x65\x02\x65\x00\x00\x00\x4b\x00\x00\x00\xc6\x00\x00\x00\x00\x00\
\x00\x00\x00\x00\x00\x00\x00\x00\x00\x00\x00\x00\x00\x00XA START X'0000000000000001',X'00000001',1\
\x01\xf1\x53\x65\x13\x65\x00\x00\x00\x27\x00\x00\x00\xed\x00\x00\x00\x00\x00\
\x01\x00\x00\x00\x00\x00\x01\x00\x02d1\x00\x02t1\x00\x01\x03\x00\x01\
\x01\xf1\x53\x65\x1e\x65\x00\x00\x00\x24\x00\x00\x00\x11\x01\x00\x00\x00\x00\
\x01\x00\x00\x00\x00\x00\x01\x00\x02\x00\x01\xff\x00\x01\x00\x00\x00\
\x01\xf1\x53\x65\x02\x65\x00\x00\x00\x49\x00\x00\x00\x5a\x01\x00\x00\x00\x00\
\x00\x00\x00\x00\x00\x00\x00\x00\x00\x00\x00\x00\x00\x00XA END X'0000000000000001',X'00000001',1\
\x01\xf1\x53\x65\x26\x65\x00\x00\x00\x2c\x00\x00\x00\x86\x01\x00\x00\x00\x00\
\x00\x01\x00\x00\x00\x08\x00\x00\x00\x04\x00\x00\x00\x00\x00\x00\x00\x00\x00\x00\x01\x00\x00\x00\x01\
\x01\xf1\x53\x65\xc8\x65\x00\x00\x00\x1c\x00\x00\x00\xa2\x01\x00\x00\x00\x00\
\x01\x0a\x00\x00\x00\x00\x00\x00\x00\
\x01\xf1\x53\x65\x02\x65\x00\x00\x00\x4c\x00\x00\x00\xee\x01\x00\x00\x00\x00\
\x00\x00\x00\x00\x00\x00\x00\x00\x00\x00\x00\x00\x00\x00XA COMMIT X'0000000000000001',X'00000001',1\
\x00\x00\x00\x00\xc8\x65\x00\x00\x00\x1c\x00\x00\x00\x0a\x02\x00\x00\x00\x00\
\x02\x0b\x00\x00\x00\x00\x00\x00\x00";

#[test]
fn one_transaction_on_one_node_byte_for_byte(rt: HostRuntime) -> Result<(), Fail> {
    let logs = logs_of(rt.alloc(), 0, 1, 1)?;
    let mut same = false;
    for log in logs.as_slice() {
        same = log.bytes().get(123..) == Some(ONE);
    }
    assert!(rt; same);
    Ok(())
}

// The first byte of a commit's timestamp, by the commit's place in the first block on one node.
fn committed(logs: &LogList, commit: usize) -> Option<u8>
    requires { commit ≤ 3 }
{
    let log = logs.get(0)?;
    log.bytes().get(123 + 4 * 267 + 104 * commit + 20).copied()
}

// The fifth draw of a seed says where the commits begin.
#[test]
fn commits_go_round(rt: HostRuntime) -> Result<(), Fail> {
    let rows: [(u64, [u8; 4]); 4] = [
        (0, [20, 30, 40, 10]),
        (1, [30, 40, 10, 20]),
        (2, [40, 10, 20, 30]),
        (3, [10, 20, 30, 40]),
    ];
    for (seed, timestamps) in rows {
        let logs = logs_of(rt.alloc(), seed, 1, 4)?;
        for commit in 0..4usize {
            let found = committed(&logs, commit);
            assert!(rt; found == Some(timestamps[commit]), "seed {seed}");
        }
    }
    Ok(())
}

// Which nodes have transaction 1.
#[test]
fn a_draw_gives_the_first_node(rt: HostRuntime) -> Result<(), Fail> {
    let rows: [(u64, u32, usize, usize); 4] = [
        (7, 4, 3, 4),
        (0, 2, 1, 2),
        (1, 256, 215, 216),
        (2, 3, 2, 3),
    ];
    for (seed, nodes, first, second) in rows {
        let logs = logs_of(rt.alloc(), seed, nodes.clamp(1, 256), 1)?;
        for (index, log) in logs.as_slice().iter().enumerate() {
            let has = log.len() > 151;
            let node = index.saturating_add(1);
            assert!(rt;
                has == (node == first || node == second),
                "seed {seed} node {node}"
            );
        }
    }
    Ok(())
}

#[test]
fn schedules_are_draws(rt: HostRuntime) -> Result<(), Fail> {
    let rows: [(u64, [u32; 3], u32); 3] = [
        (0, [167_951_807, 218_396_424, 1_299_921_937], 232_120_685),
        (1, [908_834_774, 1_093_944_153, 1_392_341_196], 824_447_505),
        (
            18_446_744_073_709_551_615,
            [1_574_552_488, 1_490_332_343, 1_207_502_677],
            1_787_277_514,
        ),
    ];
    for (order, first, last) in rows {
        let turns = schedule_of(rt.alloc(), order)?;
        assert!(rt; turns.len() == 4096 && turns.get(0..3) == Some(first.as_slice()));
        assert!(rt; turns.last().copied() == Some(last));
    }
    Ok(())
}
