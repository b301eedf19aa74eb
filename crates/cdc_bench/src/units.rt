//! Units made one after another.

ghost use Rattle.std.specs.Prelude.{◌≤◌, ◌^◌, IfOk};
ghost use Rattle.std.specs.List.{AllByRecursion};
ghost use Rattle.cdc_model.specs.Kept.{IsRow, IsKeptKey};

use cdc_base::{Key, Memory};
use cdc_event::HEADER_LENGTH;
use cdc_model::{RowList, RowRun, Txn};
use cdc_rename::Names;
use cdc_samples::layouts::{NO_FILE, has_room};
use cdc_samples::rows::{add_row, add_shared, map_of, value_body};
use cdc_samples::transactions::{add_branch, no_branches, shared, transaction};
use cdc_writer::{PrintError, unit};
use std::alloc::Global;

/// The most bytes of a row event.
pub const ROW_MAX: u32 = 1 << 26;

/// How many row events a branch has.
const ROWS: u32 = 10;

/// The length from which on a file is closed.
pub const ROTATION: u64 = 1 << 30;

// A branch's rows: a table map, and row events of `size` bytes.
fn branch_rows(alloc: Global, size: u32) -> Result<RowList, Memory>
    requires { size ≤ 2 ^ 26 }
    ensures { IfOk result (AllByRecursion IsRow) }
{
    let zeros = vec![in alloc; 0; (size as usize).saturating_sub(HEADER_LENGTH)]?;
    let body = value_body(alloc, zeros.as_slice())?;
    let map = map_of(alloc, b"d1", b"t1", b"\x01\x03\0\x01")?;
    let mut rows = RowRun::new(alloc);
    add_row(&mut rows, (19, map))?;
    add_shared(&mut rows, &body, ROWS)?;
    rows.finish(alloc)
}

// A transaction of this key.
fn transaction_of(alloc: Global, key: &Key, size: u32) -> Result<Txn, Memory>
    requires key { IsKeptKey key.now }
    requires size { size ≤ 2 ^ 26 }
{
    let mut branches = no_branches(alloc);
    add_branch(&mut branches, key, branch_rows(alloc, size)?)?;
    add_branch(&mut branches, key, branch_rows(alloc, size)?)?;
    Ok(transaction(1, key, branches))
}

/// A transaction of two branches, each of a table map and row events of `size` bytes, header included.
pub fn row_transaction(alloc: Global, size: u32) -> Result<Option<Txn>, Memory>
    requires { size ≤ 2 ^ 26 }
{
    match shared(10, b"g1") {
        Some(key) => Ok(Some(transaction_of(alloc, &key, size)?)),
        None => Ok(None),
    }
}

/// Makes `count` units of a transaction, each behind the one before, and answers how many bytes they had; none where
/// there is no room for one, or where it is too large.
pub fn make_units(alloc: Global, txn: &Txn, count: u64) -> Result<Option<u64>, Memory> {
    let names = Names::new(alloc);
    let mut layout = NO_FILE;
    let mut bytes = 0_u64;
    for _ in 0..count {
        if !has_room(&layout, ROTATION) {
            return Ok(None);
        }
        match unit(alloc, txn, &names, &layout, ROTATION) {
            Ok(made) => {
                bytes = bytes.saturating_add(made.bytes.len() as u64);
                layout = made.after;
            }
            Err(PrintError::TooLarge { .. }) => return Ok(None),
            Err(PrintError::Memory) => return Err(Memory),
        }
    }
    Ok(Some(bytes))
}
