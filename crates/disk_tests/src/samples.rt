//! Disks with slots, and what they keep.

use cdc_cell::{Cell, CellFault};
use cdc_memory::MemDisk;
use cdc_outside::{Disk, DiskFile, write_through};
use std::alloc::Global;
use std::test::Fail;

/// An open slot with the number 5 and the payload `before`.
pub const BEFORE: &[u8] = b"\x01\x05\0\0\0\0\0\0\0\x06\0\0\0\0\0\0\0before";

/// What a store came to, and what a crash behind it leaves.
#[derive(Clone, Copy)]
pub struct Stored {
    /// Whether the store succeeded.
    pub done: bool,
    /// How often the disk had failed then.
    pub faults: u64,
    /// The number that is kept, 0 where nothing is.
    pub number: u64,
    /// The payload's first six bytes.
    pub payload: [u8; 6],
}

impl Stored {
    /// Whether the record 5 stands.
    pub fn is_old(&self) -> bool {
        self.number == 5 && self.payload == *b"before"
    }

    /// Whether the record 6 with the payload `behind` stands.
    pub fn is_new(&self) -> bool {
        self.number == 6 && self.payload == *b"behind"
    }
}

// Fills a slot that is empty.
fn put<D: Disk>(disk: &mut D, slot: DiskFile, bytes: &[u8]) -> Result<(), Fail> {
    Ok(write_through(disk, slot, 0, bytes)?)
}

/// A disk with these slots, synced and before its first call, with so much room and room for so many changes.
pub fn with_slots(
    alloc: Global,
    first: &[u8],
    second: &[u8],
    room: usize,
    changes: usize,
) -> Result<MemDisk, Fail> {
    let mut disk = MemDisk::new(alloc, 0, room, changes, &[])?;
    put(&mut disk, DiskFile::SlotA, first)?;
    put(&mut disk, DiskFile::SlotB, second)?;
    Ok(disk.after_crash(alloc, 1)?)
}

/// The number of what a disk keeps, 0 where it keeps nothing.
pub fn number_on<D: Disk>(disk: &mut D) -> Result<u64, CellFault> {
    let cell = Cell::open(disk)?;
    Ok(cell.number())
}

// Stores the record 6 with this payload over what the disk keeps.
fn store_next<D: Disk>(disk: &mut D, payload: &[u8]) -> Result<(), CellFault> {
    let mut cell = Cell::open(disk)?;
    if cell.number() < 6 {
        cell.store(disk, 6, payload)?;
    }
    Ok(())
}

/// Whether a store of the record 6 with this payload, over what the disk keeps, succeeds.
pub fn stores_next<D: Disk>(disk: &mut D, payload: &[u8]) -> bool {
    store_next(disk, payload).is_ok()
}

// The number of what a disk keeps, 0 where it keeps nothing, and the payload's first six bytes.
fn kept_on<D: Disk>(disk: &mut D) -> Result<(u64, [u8; 6]), Fail> {
    let cell = Cell::open(disk)?;
    let mut payload = [0u8; 6];
    if let Some(length) = cell.length() {
        if 6 <= length {
            cell.load(disk, 0, &mut payload)?;
        }
    }
    Ok((cell.number(), payload))
}

/// Stores the record 6 with this payload, and looks at what a crash of this kind leaves.
pub fn store_and_crash(
    alloc: Global,
    disk: &mut MemDisk,
    payload: &[u8],
    pick: u8,
) -> Result<Stored, Fail> {
    let done = stores_next(disk, payload);
    let (number, payload) = kept_on(&mut disk.after_crash(alloc, pick)?)?;
    Ok(Stored {
        done,
        faults: disk.fault_count(),
        number,
        payload,
    })
}
