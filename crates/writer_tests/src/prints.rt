//! Prints of small transactions.

use crate::printed::{printed, prints};
use crate::samples::{
    BARE, COLUMNS, CREATE, LONGER, NEW_MAP, NO_TEXT, OLD_MAP, OTHER, begins_with_head, local,
    rules, stands_at, transaction_of,
};
use cdc_base::{Buffer, Memory};
use cdc_rename::{Names, rename};
use cdc_samples::rows::map_of;
use cdc_writer::{PrintError, write_head};
use std::alloc::Global;
use std::process::Abort;
use std::test::Fail;

/// The mark of a local transaction: its size, then its text.
const LOCAL_MARK: &[u8] = b"\x36CTS::0000000000000000005::1::0000100000000000000000002";

/// The texts of a transaction's branches, whether one with rows comes behind, and the bytes of its print.
const LENGTHS: [(&[&[u8]], bool, u64); 8] = [
    (&[], false, 118),
    // A statement is printed once.
    (&[CREATE], false, 110),
    (&[CREATE, CREATE], false, 110),
    (&[CREATE], true, 250),
    // Different statements are all printed.
    (&[CREATE, LONGER], false, 168),
    (&[CREATE, OTHER, CREATE], false, 167),
    (&[CREATE, LONGER, CREATE], true, 308),
    (&[NO_TEXT], false, 147),
];

// Whether such a transaction's print under rules has so many bytes, told and printed, and these from place 57 on.
fn is_printed(
    alloc: Global,
    texts: &[&[u8]],
    rows: bool,
    names: &Names,
    length: u64,
    want: &[u8],
) -> Result<bool, PrintError> {
    let txn = transaction_of(alloc, 1, 10, b"g1", texts, rows)?;
    prints(alloc, &txn, names, length, 57, want)
}

// Whether a transaction without rows is printed byte for byte, behind what stands there.
fn bare_is_printed(alloc: Global) -> Result<bool, PrintError> {
    let txn = transaction_of(alloc, 1, 10, b"g1", &[], false)?;
    let buffer = printed(alloc, &txn, &Names::new(alloc), b"before")?;
    let bytes = buffer.bytes();
    Ok(bytes.len() == 124 && stands_at(bytes, 0, b"before") && stands_at(bytes, 6, BARE))
}

// Whether a head has its bytes.
fn head_is_written(alloc: Global) -> Result<bool, Memory> {
    let mut buffer = Buffer::new(alloc);
    write_head(&mut buffer)?;
    Ok(buffer.len() == 123 && begins_with_head(buffer.bytes()))
}

#[test]
fn prints_have_their_lengths(rt: HostRuntime) -> Result<(), Fail> {
    let names = Names::new(rt.alloc());
    for (texts, rows, length) in LENGTHS {
        let good = is_printed(rt.alloc(), texts, rows, &names, length, b"")?;
        assert!(rt; good, "{length} bytes");
    }
    Ok(())
}

#[test]
fn a_transaction_without_rows_is_printed_byte_for_byte(rt: HostRuntime) -> Result<(), Fail> {
    assert!(rt; bare_is_printed(rt.alloc())?);
    Ok(())
}

#[test]
fn a_local_transactions_mark_has_node_and_entry(rt: HostRuntime) -> Result<(), Fail> {
    let txn = local(rt.alloc(), 1);
    assert!(rt;
        prints(
            rt.alloc(),
            &txn,
            &Names::new(rt.alloc()),
            139,
            57,
            LOCAL_MARK
        )?
    );
    Ok(())
}

// The length of the table map's body under these rules.
fn renamed_length(alloc: Global, names: &Names) -> Result<u64, Memory> {
    let map = map_of(alloc, b"d1", b"t1", COLUMNS)?;
    Ok(rename(&map, names)?.encoded_length())
}

#[test]
fn a_table_is_printed_under_its_new_name(rt: HostRuntime) -> Result<(), Fail> {
    for (renaming, map, length) in [(false, OLD_MAP, 193), (true, NEW_MAP, 199)] {
        let names = rules(rt.alloc(), renaming)?;
        let good = is_printed(rt.alloc(), &[], true, &names, length, map)?;
        assert!(rt; good, "{length} bytes");
    }
    assert!(rt; renamed_length(rt.alloc(), &rules(rt.alloc(), true)?)? == 26);
    Ok(())
}

#[test]
fn a_file_begins_with_its_head(rt: HostRuntime) -> Result<(), Fail> {
    assert!(rt; head_is_written(rt.alloc())?);
    Ok(())
}
