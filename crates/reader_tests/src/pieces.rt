//! Logs in pieces.

use crate::given::{given, source_of};
use cdc_reader::Reader;
use std::alloc::Global;
use std::test::Fail;

/// The words of a log's files, with `|` between them, and what is given: a branch as its timestamp and the last byte of its id
/// (49 for g1), or as timestamp, node and entry, with the number of the entry that committed it and how many rows it has;
/// `=` and the bound, where it has risen; and how the reading ended. Worked out by hand.
pub const LOGS: &str = "H P(g1) C(g1,10) => 10:49#2/0 =10 .whole
H P(g1) P(g2) C(g2,20) C(g1,10) B(30) => 10:49#4/0 20:50#3/0 =20 =30 .whole
H Pr(g1) C(g1,10) => 10:49#2/2 =10 .whole
H P(g1) B(10) P(g2) C(g1,10) => 10:49#4/0 =10 .whole
H P(g1) B(10) P(g2) C(g1,10) C(g2,20) => 10:49#4/0 =10 20:50#5/0 =20 .whole
H O(g1,10) Lr B(11) => 10:49#1/2 =10 10:1:2/2 =11 .whole
H B(10) L => =10 .whole
H P(g1) C(g1,10) P(g2) C(g2,10) => 10:49#2/0 =10 .1:519 Undercut 10 10
H C(g1,10) => .1:151 UnknownBranch
H P(g1) P(g1) => .1:373 DoublePrepare
H h(2,18) => .1:123 Event(ShortLength(18))
H P(g1) h(2,18) => .1:265 Event(ShortLength(18))
H P(g1) C(g1,10) S(g2) => 10:49#2/0 =10 .whole
H => .whole
H |H B(5) => =5 .whole
H P(g1) |H C(g1,10) |H B(12) => 10:49#2/0 =10 =12 .whole
H P(g1) S(g2) |H C(g1,10) => 10:49#2/0 =10 .whole
";

/// What is given of a log, read first in a piece of `first` bytes and then in pieces of `later` ones.
fn given_of(alloc: Global, words: &str, first: usize, later: usize) -> Result<String, Fail> {
    let mut source = source_of(alloc, words, &[])?;
    let mut reader = Reader::new(alloc, 1)?;
    given(alloc, &mut reader, &mut source, first, later)
}

#[test]
fn logs_are_read_whatever_the_pieces(rt: HostRuntime) -> Result<(), Fail> {
    let alloc = rt.alloc();
    for row in LOGS.lines() {
        let (words, wanted) = row.split_once("=> ").ok_or("no answer")?;
        for length in [1, 2, 7, 19, 64, 999, 4_096, 65_536] {
            let told = given_of(alloc, words, length, length)?;
            assert_eq!(&rt; told.as_str(), wanted, "{words} in pieces of {length}");
        }
    }
    Ok(())
}

/// A log with all kinds of groups, some with rows.
const LONG: &str = "H Pr(g1) O(g2,20) C(g1,10) P(g3) A(g3) B(30) Lr B(31)";

/// What it gives.
const LONG_GIVES: &str = "10:49#3/2 20:50#2/2 =20 =30 30:1:7/2 =31 .whole";

#[test]
fn a_group_lies_over_two_reads_at_every_byte(rt: HostRuntime) -> Result<(), Fail> {
    let alloc = rt.alloc();
    let mut at = 1_usize;
    for _ in 0..1_200 {
        let told = given_of(alloc, LONG, at, 65_536)?;
        assert_eq!(&rt; told.as_str(), LONG_GIVES, "{at} bytes first");
        at = at.wrapping_add(1);
    }
    Ok(())
}
