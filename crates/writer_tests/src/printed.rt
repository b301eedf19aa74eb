//! What is printed of a transaction, and its unit: the large calls, each made in one place.

use crate::samples::stands_at;
use cdc_base::Buffer;
use cdc_model::{Layout, Txn, Unit};
use cdc_rename::Names;
use cdc_samples::layouts::has_room;
use cdc_writer::{PrintError, print, print_length, unit};
use std::alloc::Global;

/// The place at which transactions are printed.
const PLACE: u64 = 123;

/// What a transaction's print appends to `before`, at place 123 of its file.
pub fn printed(
    alloc: Global,
    txn: &Txn,
    names: &Names,
    before: &[u8],
) -> Result<Buffer, PrintError> {
    let mut buffer = Buffer::new(alloc);
    buffer.push(before)?;
    print(alloc, txn, names, PLACE, &mut buffer)?;
    Ok(buffer)
}

/// Whether a transaction's print has so many bytes, told and printed, and these from a place on.
pub fn prints(
    alloc: Global,
    txn: &Txn,
    names: &Names,
    length: u64,
    at: usize,
    want: &[u8],
) -> Result<bool, PrintError> {
    let buffer = printed(alloc, txn, names, b"")?;
    Ok(
        print_length(txn, names) == length
            && buffer.len() as u64 == length
            && stands_at(buffer.bytes(), at, want),
    )
}

/// The unit of a transaction behind a layout. Where there is no room behind it, none is made, as if memory were short.
pub fn made(
    alloc: Global,
    txn: &Txn,
    names: &Names,
    before: &Layout,
    rotation: u64,
) -> Result<Unit, PrintError> {
    if !has_room(before, rotation) {
        return Err(PrintError::Memory);
    }
    unit(alloc, txn, names, before, rotation)
}

/// The error of a print or of a unit; none where it is made.
pub fn error_of<T: Drop>(made: Result<T, PrintError>) -> Option<PrintError> {
    match made {
        Ok(_) => None,
        Err(error) => Some(error),
    }
}
