//! Logs, with what is answered to their events.

use crate::answers::{Pair, answers};
use cdc_cutter::Cutter;
use cdc_samples::Log;
use std::test::Fail;

/// Logs that come to each column of the table: outside, behind a commit timestamp, in an XA group, behind its end, in a local
/// transaction.
const COLUMNS: &str = "H|H T(10)|H S(g1)|H S(g1) E(g1)|H Q(BEGIN)";

/// Each event with what is answered to it in each column.
const TABLE: &str =
    "05000000120900000013000000000000000000=Statement|Statement|Statement|Statement|Statement
Q(XA_RECOVER)=Statement|Statement|Statement|Statement|Statement
05000000210900000013000000000000000000=-|-|-|-|-
05000000220900000013000000000000000000=-|-|-|-|-
h(3,19)=-|BadTimestamp|-|-|-
h(35,19)=-|BadTimestamp|-|-|-
0500000004090000001b0000000000000000000400000000000000=-|BadTimestamp|-|-|-
F0=-|BadTimestamp|-|-|-
D(a)=-|BadTimestamp|-|-|-
D(DDL::d1::a)=-|BadTimestamp|-|-|-
D(DDL::d1)=-|BadTimestamp|BadDdl|-|-
D(DDL::d1::)=-|BadTimestamp|BadDdl|-|-
D(DDL::d1::COMMIT)=-|BadTimestamp|BadDdl|-|-
T(10)=-|BadTimestamp|BadTimestamp|BadTimestamp|BadTimestamp
T(9223372036854775807)=-|BadTimestamp|BadTimestamp|BadTimestamp|BadTimestamp
T(9223372036854775808)=BadTimestamp|BadTimestamp|BadTimestamp|BadTimestamp|BadTimestamp
T(0)=BadTimestamp|BadTimestamp|BadTimestamp|BadTimestamp|BadTimestamp
05000000c8090000001c000000000000000000030500000000000000=BadTimestamp|BadTimestamp|BadTimestamp|BadTimestamp|BadTimestamp
B(10)=Beat 10 1:123-151 0|BadTimestamp|BadTimestamp|BadTimestamp|BadTimestamp
Q(BEGIN)=-|BadTimestamp|OutOfPlace|OutOfPlace|OutOfPlace
S(g1)=-|-|OutOfPlace|OutOfPlace|OutOfPlace
E(g1)=OutOfPlace|BadTimestamp|-|OutOfPlace|OutOfPlace
E(g2)=OutOfPlace|BadTimestamp|XidDiffers|OutOfPlace|OutOfPlace
K(g1)=NoTimestamp|Commit 10 5 1:151-207 0|OutOfPlace|OutOfPlace|OutOfPlace
A(g1)=Rollback 1:123-181 0|BadTimestamp|OutOfPlace|OutOfPlace|OutOfPlace
Q(COMMIT)=-|BadTimestamp|OutOfPlace|OutOfPlace|Plain 5 1:161-200 0
Q(ROLLBACK)=-|BadTimestamp|OutOfPlace|OutOfPlace|-
Q(SAVEPOINT_a)=-|BadTimestamp|-|OutOfPlace|-
Q(a)=-|BadTimestamp|Statement|Statement|Statement
W=RowsOutside|BadTimestamp|-|RowsOutside|-
X=OutOfPlace|BadTimestamp|OutOfPlace|OutOfPlace|Plain 5 1:161-188 0
R(g1)=OutOfPlace|BadTimestamp|OutOfPlace|Prepare 1:231-265 0|OutOfPlace
R(g2)=OutOfPlace|BadTimestamp|OutOfPlace|XidDiffers|OutOfPlace
05000000260900000022000000000000000000010100000002000000000000006731=OutOfPlace|BadTimestamp|OutOfPlace|NoTimestamp|OutOfPlace";

#[test]
fn each_cell_of_the_table(rt: HostRuntime) -> Result<(), Fail> {
    let alloc = rt.alloc();
    for row in TABLE.lines() {
        let (event, wanted) = row.split_once("=").ok_or("no answers")?;
        for (column, wanted) in COLUMNS.split("|").zip(wanted.split("|")) {
            let words = format!(in alloc; "{column} {event}")?;
            let log = Log::of(alloc, &words)?;
            let mut cutter = Cutter::new(alloc)?;
            let mut pair = Pair::new(alloc);
            let (_, last) = answers(alloc, &mut cutter, &mut pair, log.bytes())?;
            assert_eq!(&rt; last.as_str(), wanted, "{words}");
        }
    }
    Ok(())
}

/// Logs of two files, and what is answered to all events.
const LOGS: &str = "H P(g1) C(g1,10)|H=-, -, -, Prepare 1:231-265 0, -, Commit 10 5 1:293-349 0, -, 
H O(g1,10)|H Lr=-, -, -, -, -, -, OnePhase 10 5 19:20 30:17 1:334-368 0, -, -, -, -, Plain 5 19:20 30:17 2:236-263 0, 
M F1 S(g1)+ E(g1)+ R(g1)+|M F1 T(10)+ K(g1)+=-, -, -, Prepare 1:239-277 1, -, -, Commit 10 5 2:155-215 1, 
H S(g1) D(DDL::d1::a) E(g1) R(g1)|H=-, -, -, -, Prepare 29:11 1:261-295 0, -, 
H S(g1) W D(DDL::d1::a)|H=-, -, -, -, BadDdl, BadDdl, 
H S(g1) D(DDL::d1::a) W|H=-, -, -, BadDdl, BadDdl, BadDdl, 
H S(g1) D(DDL::d1::a) D(DDL::d1::a)|H=-, -, -, BadDdl, BadDdl, 
H Q(BEGIN) W D(DDL::d1::a) D(DDL::d1) Q(ROLLBACK) Lr|H=-, -, -, -, -, -, -, -, -, -, Plain 5 19:20 30:17 1:447-474 0, -, 
H T(10) S(g1) E(g1) R(g1)|H T(10) K(g1)=-, -, -, -, BadTimestamp, BadTimestamp, BadTimestamp, BadTimestamp, 
H S(g1) W|H E(g1)=-, -, -, -, -, OutOfPlace, 
H S(g1) W E(g1)|H R(g1)=-, -, -, -, -, -, OutOfPlace, 
H T(10)|H K(g1)=-, -, -, NoTimestamp, 
H Q(BEGIN) W|H X=-, -, -, -, -, OutOfPlace, 
H S(g1) W|H S(g2) E(g2) R(g2)=-, -, -, -, -, -, -, Prepare 2:231-265 0, ";

#[test]
fn logs_of_two_files(rt: HostRuntime) -> Result<(), Fail> {
    let alloc = rt.alloc();
    for row in LOGS.lines() {
        let (files, wanted) = row.split_once("=").ok_or("no answers")?;
        let (first, second) = files.split_once("|").ok_or("no second file")?;
        let mut cutter = Cutter::new(alloc)?;
        let mut pair = Pair::new(alloc);
        let log = Log::of(alloc, first)?;
        let (mut all, _) = answers(alloc, &mut cutter, &mut pair, log.bytes())?;
        pair.file_end();
        if cutter.fed_to().file >= 1_000 {
            return Err("so many files are no test")?;
        }
        cutter.next_file();
        let log = Log::of(alloc, second)?;
        let (later, _) = answers(alloc, &mut cutter, &mut pair, log.bytes())?;
        all.push_str(&later)?;
        assert_eq!(&rt; all.as_str(), wanted, "{files}");
    }
    Ok(())
}
