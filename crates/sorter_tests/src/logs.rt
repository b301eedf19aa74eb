//! Logs, with what is answered to their entries.

use crate::answers::{Asked, key_of};
use std::test::Fail;

/// The entries of a log, and to each the answer, the bound, and what is given then: a key as its timestamp and the last byte of
/// its id (49 for g1), or as timestamp, node and entry, and the number of the entry that committed it.
const LOGS: &str = "P:g1 P:g2 C:g2@20 C:g1@10=- 0, - 0, - 0, - 20 10:49#4 20:50#3, 
P:g1 B:10 P:g2 C:g1@10=- 0, - 0, - 0, - 10 10:49#4, 
P:g1 B:10 P:g2 C:g1@11 R:g2=- 0, - 0, - 0, - 10, - 11 11:49#4, 
O:g1@10 L: B:10 B:11=- 10 10:49#1, - 10, - 10, - 11 10:1:2#2, 
L: B:1=- 0, - 1 0:1:1#1, 
P:g1 B:30 B:20 C:g1@5=- 0, - 0, - 0, - 30 5:49#4, 
P:g1 P:g3 C:g1@8 C:g3@8 L: O:g4@9=- 0, - 0, - 0, - 8 8:49#3 8:51#4, - 8, - 9 8:1:5#5 9:52#6, 
P:g1 P:g1 C:g1@9 B:9=- 0, DoublePrepare 49 0, DoublePrepare 49 0, DoublePrepare 49 0, 
P:g1 O:g1@9 B:9=- 0, DoublePrepare 49 0, DoublePrepare 49 0, 
B:5 C:g1@9 P:g2=- 5, UnknownBranch 49 5, UnknownBranch 49 5, 
R:g1 B:9=UnknownBranch 49 0, UnknownBranch 49 0, 
B:10 P:g1 C:g1@10 C:g1@11=- 10, - 10, Undercut 10 10 10, Undercut 10 10 10, 
B:10 O:g1@10 O:g1@11=- 10, Undercut 10 10 10, Undercut 10 10 10, 
P:g1 C:g1@3 P:g1 C:g1@4=- 0, - 3 3:49#2, - 3, - 4 4:49#4, ";

#[test]
fn logs_from_their_start(rt: HostRuntime) -> Result<(), Fail> {
    for row in LOGS.lines() {
        let (words, wanted) = row.split_once("=").ok_or("no answers")?;
        let told = Asked::new(rt.alloc()).answers(1, words)?;
        assert_eq!(&rt; told.as_str(), wanted, "{words}");
    }
    Ok(())
}

/// Entries from the third on, behind `P:g1 B:10`, above the key 10 of g1: the branch of g1 is held open with the floor 0, and gives
/// nothing; what has the last key or a lesser one isn't given.
const RESTS: &str = "P:g2 C:g1@10 C:g2@30=- 0, - 10, - 30 30:50#5, 
C:g1@11 O:g2@12=- 11, - 12 12:50#4, 
P:g1=DoublePrepare 49 0, 
R:g1 P:g1 C:g1@20=- 10, - 10, - 20 20:49#5, 
R:g1 L: B:11=- 10, - 10, - 11 10:1:4#4, ";

#[test]
fn logs_from_a_restart_point(rt: HostRuntime) -> Result<(), Fail> {
    for row in RESTS.lines() {
        let (words, wanted) = row.split_once("=").ok_or("no answers")?;
        let mut sorter = Asked::resumed(rt.alloc(), 300, &key_of("10:g1")?)?;
        let told = sorter.answers(3, words)?;
        assert_eq!(&rt; told.as_str(), wanted, "{words}");
    }
    Ok(())
}
