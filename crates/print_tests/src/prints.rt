//! Logs without faults: how many bytes are printed.

use crate::seen::{ROOM, print_to, print_words, source_in, source_of};
use cdc_print::PrintEnd;
use cdc_samples::Log;
use std::test::Fail;

/// Logs of nodes, and the bytes of their print: a head has 123, BEGIN 38, a mark of an id of two bytes 53 and a local
/// one's 74, XID 27, a table map with its row 75, a statement of 22 bytes with its database of 2 the 33 more.
const PRINTED: [(&[&str], usize); 15] = [
    (&["H P(g1) C(g1,10)"], 241),
    (&["H"], 0),
    (&[""], 0),
    (&["H Pr(g1) C(g1,10)", "H Pr(g1) C(g1,10)"], 391),
    (&["H P(g1) P(g2) C(g2,20) C(g1,10) B(30)"], 359),
    (&["H P(g1) C(g1,10)", "H"], 0),
    (&["H P(g2) C(g2,10)", "H P(g1) C(g1,10)"], 359),
    (&["H B(10) L", "H B(10) L"], 0),
    (&["H B(10) L B(11)", "H B(10) L B(11)"], 401),
    (&["H O(g1,10)"], 316),
    (&["H P(g1) A(g1) B(10)"], 0),
    (&["H P(g1) B(10) P(g2) C(g1,10)"], 241),
    (&["H B(5) Lr Pr(g1) C(g1,10) B(11)"], 530),
    (
        &["H S(g1) D(DDL::d1::CREATE_TABLE_tt_a_INTX) E(g1) R(g1) C(g1,10)"],
        233,
    ),
    (
        &[
            "H S(g1) D(DDL::d1::CREATE_TABLE_tt_a_INTX) E(g1) R(g1) C(g1,10)",
            "H Pr(g1) C(g1,10)",
        ],
        373,
    ),
];

#[test]
fn logs_are_printed(rt: HostRuntime) -> Result<(), Fail> {
    for (logs, bytes) in PRINTED {
        let seen = print_words(rt.alloc(), logs)?;
        let first = logs.first().copied().unwrap_or("");
        assert_eq!(&rt; seen.end, PrintEnd::Done, "{first}");
        assert_eq!(&rt; seen.out.written().len(), bytes, "{first}");
    }
    Ok(())
}

/// What stands behind the head of a print of one transaction without rows, by another program.
const BEHIND: &[u8] = b"\x05\0\0\0\x02\x01\0\0\0\x26\0\0\0\xa1\0\0\0\0\0\
    \0\0\0\0\0\0\0\0\0\0\0\0\0\0BEGIN\
    \x05\0\0\0\x1d\x01\0\0\0\x35\0\0\0\xd6\0\0\0\0\0\
    \x21CTS::0000000000000000010::0::6731\
    \x05\0\0\0\x10\x01\0\0\0\x1b\0\0\0\xf1\0\0\0\0\0\
    \x01\0\0\0\0\0\0\0";

#[test]
fn one_transaction_has_its_bytes(rt: HostRuntime) -> Result<(), Fail> {
    let seen = print_words(rt.alloc(), &["H P(g1) C(g1,10)"])?;
    assert!(&rt; seen.out.written().ends_with(BEHIND));
    Ok(())
}

// 8,000 transactions of an id of four bytes, each of 122 bytes: their log is many reads, their print nearly a piece.
#[test]
fn many_transactions_are_printed(rt: HostRuntime) -> Result<(), Fail> {
    let mut log = Log::new(rt.alloc());
    log.head()?;
    for number in 0..8_000u32 {
        let id = number.to_be_bytes();
        log.prepare(&id)?;
        log.commit(&id, u64::from(number) + 1)?;
    }
    let mut nodes = Vec::new(rt.alloc());
    nodes.push(source_of(rt.alloc(), log.bytes(), &[])?)?;
    let seen = print_to(rt.alloc(), &mut nodes, ROOM, &[])?;
    assert!(&rt; seen.is(PrintEnd::Done, 123 + 8_000 * 122));
    Ok(())
}

// Node 1 has the greatest timestamp, node 256 the least; each settles at the least mark.
#[test]
fn all_256_nodes_are_read(rt: HostRuntime) -> Result<(), Fail> {
    let mut nodes = Vec::new(rt.alloc());
    for _node in 0..256u32 {
        nodes.push(source_in(rt.alloc(), "H P(g1) C(g1,10)", &[])?)?;
    }
    let seen = print_to(rt.alloc(), &mut nodes, ROOM, &[])?;
    assert!(&rt; seen.is(PrintEnd::Done, 241));
    Ok(())
}
