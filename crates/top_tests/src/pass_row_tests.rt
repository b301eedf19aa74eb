//! Rows of `run` that were worked out by hand: what one pass publishes, and passes over logs that grow.

use crate::nodes::node_of_no_file;
use crate::pass_table::{passes, passes_in_order};
use crate::passing::{PLAIN, Settings, call_with, run};
use crate::row_tests::PROFILE;
use crate::service::Service;
use std::alloc::Global;
use std::test::Fail;

// One branch, none, two nodes, open branches, a node that holds others back, ties by id, local transactions that wait at the mark,
// faults, an event that isn't whole, a branch that stays open, rows, logs of two files, checksums.
const ROWS: &str = "H P(g1) C(g1,10)=0=binlog.000001 241 1=10:6731=
H=0=- 0 0==
=0=- 0 0==
H Pr(g1) C(g1,10)|H Pr(g1) C(g1,10)=0=binlog.000001 391 1=10:6731++=
H P(g1) P(g2) C(g2,20) C(g1,10) B(30)=0=binlog.000001 359 2=10:6731 20:6732=
H P(g1) C(g1,10)|H=0=- 0 0==
H P(g2) C(g2,10)|H P(g1) C(g1,10)=0=binlog.000001 359 2=10:6731 10:6732=
H B(10) L|H B(10) L=0=- 0 0==
H B(10) L B(11)|H B(10) L B(11)=0=binlog.000001 401 2=10@1.2 10@2.2=
H P(g1) C(g1,10) P(g2) C(g2,10)=3=binlog.000001 241 1=10:6731=node 1 1:519 Undercut 10 10
H C(g1,10)=3=- 0 0==node 1 1:151 UnknownBranch 6731,,1
H P(g1) P(g1)=3=- 0 0==node 1 1:373 DoublePrepare 6731,,1
H h(2,18)=3=- 0 0==node 1 1:123 ShortLength 18
H 050000000209000000120000008d00000000=0=- 0 0==
H P(g1) B(10) P(g2) C(g1,10)=0=binlog.000001 241 1=10:6731=
H Pr(g1) C(g1,10)|H Pr(g1) C(g1,10) C(g1,11)=3=binlog.000001 391 1=10:6731++=node 2 1:452 UnknownBranch 6731,,1
H Pr(g1) C(g1,10)=0=binlog.000001 316 1=10:6731+=
H P(g1)/H C(g1,10)=0=binlog.000001 241 1=10:6731=
M F1 S(g1)+ E(g1)+ R(g1)+ T(10)+ K(g1)+=0=binlog.000001 241 1=10:6731=
H P(g1)/M F1 T(10)+ K(g1)+=0=binlog.000001 241 1=10:6731=";

/// Whether two passes over a line's logs, one behind the other, both give what it says, into so many outs.
fn is_right(alloc: Global, settings: &Settings, outs: usize, row: &str) -> Result<bool, Fail> {
    let mut service = Service::empty(alloc, outs)?;
    let first = passes(alloc, settings, &mut service, row)?;
    let second = passes(alloc, settings, &mut service, row)?;
    Ok(first.right && second.right)
}

#[test]
fn settled_transactions_are_published(rt: HostRuntime) -> Result<(), Fail> {
    for row in ROWS.lines() {
        assert!(rt; is_right(rt.alloc(), &PLAIN, 1, row)?, "{row}");
        assert!(rt; is_right(rt.alloc(), &PLAIN, 2, row)?, "{row}");
    }
    Ok(())
}

#[test]
fn ids_of_transactions_and_checksums_are_passed_over(rt: HostRuntime) -> Result<(), Fail> {
    for log in PROFILE.lines() {
        let row = format!(in rt.alloc(); "{log}=0=binlog.000001 536 2=5@1.2* 10:6731*=")?;
        assert!(rt; is_right(rt.alloc(), &PLAIN, 1, row.as_str())?);
    }
    Ok(())
}

/// Whether a pass in this order gives what a line says, into two outs.
fn is_right_in_order(alloc: Global, row: &str, order: u64) -> Result<bool, Fail> {
    let mut service = Service::empty(alloc, 2)?;
    passes_in_order(alloc, &PLAIN, &mut service, row, order)
}

#[test]
fn every_order_publishes_the_same(rt: HostRuntime) -> Result<(), Fail> {
    for row in ROWS.lines() {
        for order in 0..10u64 {
            let right = is_right_in_order(rt.alloc(), row, order)?;
            assert!(rt; right, "order {order}: {row}");
        }
    }
    Ok(())
}

#[test]
fn a_node_of_no_file_has_no_transactions(rt: HostRuntime) -> Result<(), Fail> {
    let mut service = Service::empty(rt.alloc(), 1)?;
    for _pass in 0..2_u8 {
        let mut nodes = node_of_no_file(rt.alloc())?;
        let seen = run(rt.alloc(), &PLAIN, &mut service, &mut nodes)?;
        assert!(rt; seen.is(0, b"out 1 - 0 0\n", b""));
    }
    Ok(())
}

/// Files close from 256 bytes on.
const SHORT_FILES: Settings<'static> = Settings {
    first: "rotation = 256\n",
    last: "",
};

// Three transactions, of which two fill a file of 399 bytes.
const FILLED: &str = "H P(g1) C(g1,10)=0=binlog.000001 241 1=10:6731=
H P(g1) C(g1,10) P(g2) C(g2,20)=0=binlog.000001 399 2=10:6731 20:6732 >=
H P(g1) C(g1,10) P(g2) C(g2,20) P(g3) C(g3,30)=0=binlog.000002 241 3=10:6731 20:6732 > 30:6733=";

#[test]
fn files_are_closed_at_the_rotation_size(rt: HostRuntime) -> Result<(), Fail> {
    for row in FILLED.lines() {
        assert!(rt; is_right(rt.alloc(), &SHORT_FILES, 1, row)?, "{row}");
    }
    Ok(())
}

/// The table d1.t1 is published as shop.orders.
const RENAMED: Settings<'static> = Settings {
    first: "",
    last: "[[table]]\ndb = \"d1\"\ntable = \"t1\"\nto_db = \"shop\"\nto_table = \"orders\"\n",
};

#[test]
fn tables_are_renamed(rt: HostRuntime) -> Result<(), Fail> {
    let row = "H Pr(g1) C(g1,10)=0=binlog.000001 322 1=10:6731%=";
    assert!(rt; is_right(rt.alloc(), &RENAMED, 1, row)?);
    Ok(())
}

// Local transactions wait until the marks of both nodes have passed them.
const WAITING: &str = "H B(10) L|H B(10) L=0=- 0 0==
H B(10) L B(11)|H B(10) L=0=- 0 0==
H B(10) L B(11)|H B(10) L B(11)=0=binlog.000001 401 2=10@1.2 10@2.2=";

/// Whether passes over one service, line behind line, give what the lines say.
fn grow(alloc: Global, settings: &Settings, rows: &str) -> Result<bool, Fail> {
    let mut service = Service::empty(alloc, 1)?;
    for row in rows.lines() {
        if !passes(alloc, settings, &mut service, row)?.right {
            return Ok(false);
        }
    }
    Ok(true)
}

#[test]
fn passes_go_on_where_logs_have_grown(rt: HostRuntime) -> Result<(), Fail> {
    assert!(rt; grow(rt.alloc(), &PLAIN, WAITING)?);
    assert!(rt; grow(rt.alloc(), &SHORT_FILES, FILLED)?);
    Ok(())
}

/// Configurations that are refused, and their lines.
const REFUSED: [(&str, &str); 3] = [
    ("rotation = 255", "cdc: config rotation\n"),
    ("rotation = 256\nwindow = 4095", "cdc: config window\n"),
    ("rotation", "cdc: config toml\n"),
];

/// Whether `run` refuses a configuration with this line.
fn is_refused(alloc: Global, config: &str, line: &str) -> Result<bool, Fail> {
    let mut service = Service::empty(alloc, 1)?;
    let mut nodes = Vec::new(alloc);
    let text = config.as_bytes();
    let seen = call_with(alloc, "run c", text, &mut service, &mut nodes)?;
    Ok(seen.is(2, b"", line.as_bytes()))
}

#[test]
fn a_configuration_is_refused_for_its_first_key(rt: HostRuntime) -> Result<(), Fail> {
    for (config, line) in REFUSED {
        assert!(rt; is_refused(rt.alloc(), config, line)?, "{line}");
    }
    Ok(())
}
