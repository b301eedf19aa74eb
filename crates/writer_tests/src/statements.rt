//! A transaction of many statements.

ghost use Rattle.cdc_model.specs.Kept.{IsKeptKey};

use crate::printed::printed;
use crate::samples::add_text;
use cdc_base::{Key, Memory};
use cdc_model::BranchList;
use cdc_rename::Names;
use cdc_samples::transactions::{no_branches, shared, transaction};
use cdc_writer::PrintError;
use std::alloc::Global;
use std::test::Fail;

/// How many different statements there are, each of two branches.
const STATEMENTS: u32 = 20_000;

// Branches with the statements of all numbers, one behind another, and then all of them once more.
fn of_statements(alloc: Global, key: &Key) -> Result<BranchList, Memory>
    requires { IsKeptKey key.now }
{
    let mut branches = no_branches(alloc);
    for turn in 0..2 * STATEMENTS {
        let number = turn % STATEMENTS;
        let text = format!(in alloc; "DDL::d::{number:05}")?;
        add_text(alloc, &mut branches, key, text.as_bytes())?;
    }
    Ok(branches)
}

// How many bytes the print of a transaction of them has.
fn printed_bytes(alloc: Global) -> Result<usize, PrintError> {
    let Some(key) = shared(10, b"g1") else {
        return Err(PrintError::Memory);
    };
    let txn = transaction(1, &key, of_statements(alloc, &key)?);
    Ok(printed(alloc, &txn, &Names::new(alloc), b"")?.len())
}

// The mark has 53 bytes, and each statement's event 33 beside a database of one byte and a text of five.
#[test]
fn thousands_of_statements_are_printed_once_each(rt: HostRuntime) -> Result<(), Fail> {
    let bytes = printed_bytes(rt.alloc())?;
    assert_eq!(rt; bytes, 53 + 20_000 * 39);
    Ok(())
}
