//! A print of the greatest size, and one that is a byte too large, alone and as a unit.

ghost use Rattle.std.specs.Prelude.{◌≤◌, ◌^◌, IfOk};
ghost use Rattle.std.specs.List.{AllByRecursion};
ghost use Rattle.cdc_model.specs.Kept.{IsRow};

use crate::printed::{error_of, made, printed};
use crate::samples::stands_at;
use cdc_base::Memory;
use cdc_event::Body;
use cdc_model::{Layout, RowList, RowRun, Txn};
use cdc_rename::Names;
use cdc_samples::layouts::NO_FILE;
use cdc_samples::rows::{add_row, add_shared, value_body, value_row};
use cdc_samples::transactions::{add_branch, no_branches, shared, transaction};
use cdc_writer::{PrintError, print_length};
use std::alloc::Global;
use std::process::Abort;
use std::test::Fail;

/// The body of a row event of 2^20 bytes.
const LARGE: usize = (1 << 20) - 19;

// The body of a row event of so many equal bytes.
fn equal_body(alloc: Global, value: u8, count: usize) -> Result<Body, Memory>
    requires { count ≤ 2 ^ 20 }
    ensures { IfOk result (λ body. IsRow (30, body)) }
{
    let bytes = vec![in alloc; value; count]?;
    value_body(alloc, bytes.as_slice())
}

// Adds 255 rows of 2^20 bytes.
fn add_large(alloc: Global, rows: &mut RowRun) -> Result<(), Memory> {
    let large = equal_body(alloc, 7, LARGE)?;
    add_shared(rows, &large, 255)
}

// A row without bytes, the large ones, and one row more.
fn large_rows(alloc: Global, last: usize) -> Result<RowList, Memory>
    requires { last ≤ 2 ^ 20 }
    ensures { IfOk result (AllByRecursion IsRow) }
{
    let mut rows = RowRun::new(alloc);
    add_row(&mut rows, value_row(alloc, b"")?)?;
    add_large(alloc, &mut rows)?;
    add_row(&mut rows, (30, equal_body(alloc, 9, last)?))?;
    rows.finish(alloc)
}

// A transaction of these rows.
fn of_large_rows(alloc: Global, number: u64, last: usize) -> Result<Txn, Memory> {
    let Some(key) = shared(10, b"g1") else {
        return Err(Memory);
    };
    if last > 1 << 20 {
        return Err(Memory);
    }
    let mut branches = no_branches(alloc);
    add_branch(&mut branches, &key, large_rows(alloc, last)?)?;
    Ok(transaction(number, &key, branches))
}

// The first nine bytes of a print, and the last 27 of the greatest one.
const FIRST: &[u8] = b"\x05\0\0\0\x02\x01\0\0\0";

const LAST: &[u8] = b"\x05\0\0\0\x10\x01\0\0\0\x1b\0\0\0\x7b\0\0\x10\0\0\x01\0\0\0\0\0\0\0";

// 38 + 19 + 255 * 2^20 + (19 + last) + 53 + 27 = 2^28
const LAST_BODY: usize = (1 << 20) - 118 - 38;

// Why a print of a byte more is refused.
const REFUSED: PrintError = PrintError::TooLarge {
    number: 2,
    bytes: 268435457,
};

// Whether a print of 2^28 bytes is printed.
fn greatest_is_printed(alloc: Global) -> Result<bool, PrintError> {
    let names = Names::new(alloc);
    let txn = of_large_rows(alloc, 1, LAST_BODY)?;
    let buffer = printed(alloc, &txn, &names, b"")?;
    Ok(
        print_length(&txn, &names) == 268435456
            && buffer.len() == 268435456
            && stands_at(buffer.bytes(), 0, FIRST)
            && stands_at(buffer.bytes(), 268435429, LAST),
    )
}

// Whether a print of a byte more is refused, with its number and length.
fn larger_is_refused(alloc: Global) -> Result<bool, PrintError> {
    let names = Names::new(alloc);
    let txn = of_large_rows(alloc, 2, LAST_BODY + 1)?;
    let error = error_of(printed(alloc, &txn, &names, b""));
    Ok(error == Some(REFUSED) && print_length(&txn, &names) == 268435457)
}

// Whether a print of 2^28 bytes becomes a unit, behind the file's head.
fn greatest_becomes_a_unit(alloc: Global) -> Result<bool, PrintError> {
    let txn = of_large_rows(alloc, 1, LAST_BODY)?;
    let unit = made(alloc, &txn, &Names::new(alloc), &NO_FILE, 1 << 30)?;
    let bytes = unit.bytes.bytes();
    let after = Layout {
        file: 1,
        length: 268435579,
        closed: false,
    };
    Ok(
        unit.after == after
            && bytes.len() == 268435579
            && stands_at(bytes, 123, FIRST)
            && stands_at(bytes, 268435552, LAST),
    )
}

// Whether a print of a byte more becomes no unit, with its number and length.
fn larger_becomes_none(alloc: Global) -> Result<bool, PrintError> {
    let txn = of_large_rows(alloc, 2, LAST_BODY + 1)?;
    let error = error_of(made(alloc, &txn, &Names::new(alloc), &NO_FILE, 1 << 30));
    Ok(error == Some(REFUSED))
}

#[test]
fn a_print_of_the_greatest_size_is_printed(rt: HostRuntime) -> Result<(), Fail> {
    assert!(rt; greatest_is_printed(rt.alloc())?);
    Ok(())
}

#[test]
fn a_print_of_a_byte_more_is_refused(rt: HostRuntime) -> Result<(), Fail> {
    assert!(rt; larger_is_refused(rt.alloc())?);
    Ok(())
}

#[test]
fn a_unit_of_the_greatest_print_is_made(rt: HostRuntime) -> Result<(), Fail> {
    assert!(rt; greatest_becomes_a_unit(rt.alloc())?);
    Ok(())
}

#[test]
fn a_unit_of_a_byte_more_is_refused(rt: HostRuntime) -> Result<(), Fail> {
    assert!(rt; larger_becomes_none(rt.alloc())?);
    Ok(())
}
