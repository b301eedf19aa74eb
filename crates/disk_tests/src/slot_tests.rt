//! Slots of hostile bytes.

use crate::samples::{BEFORE, number_on, with_slots};
use cdc_cell::CellFault;
use cdc_outside::DiskFile;
use std::alloc::Global;
use std::test::Fail;

// A length of 2^64 - 1 over six bytes.
const ENDLESS: &[u8] = b"\x01\x06\0\0\0\0\0\0\0\xff\xff\xff\xff\xff\xff\xff\xffbefore";

// One byte less than it says.
const SHORT: &[u8] = b"\x01\x06\0\0\0\0\0\0\0\x06\0\0\0\0\0\0\0befor";

// A head without its last byte.
const SIXTEEN: &[u8] = b"\x01\x06\0\0\0\0\0\0\0\0\0\0\0\0\0\0";

// The number 6 and no payload, open and closed.
const SIX: &[u8] = b"\x01\x06\0\0\0\0\0\0\0\0\0\0\0\0\0\0\0";

const CLOSED: &[u8] = b"\x7f\x06\0\0\0\0\0\0\0\0\0\0\0\0\0\0\0";

// The number that a cell finds, 0 where it finds none.
fn number(alloc: Global, first: &[u8], second: &[u8]) -> Result<u64, Fail> {
    Ok(number_on(&mut with_slots(alloc, first, second, 64, 2)?)?)
}

#[test]
fn the_greater_number_of_open_slots_counts(rt: HostRuntime) -> Result<(), Fail> {
    let rows: [(&[u8], &[u8], u64); 8] = [
        (b"", b"", 0),
        (BEFORE, b"", 5),
        (b"", BEFORE, 5),
        (BEFORE, SIX, 6),
        (SIX, BEFORE, 6),
        (BEFORE, CLOSED, 5),
        (SIXTEEN, BEFORE, 5),
        (b"\x01", SIXTEEN, 0),
    ];
    for (first, second, want) in rows {
        let found = number(rt.alloc(), first, second)?;
        assert!(rt; found == want, "{found} for {want}");
    }
    Ok(())
}

// Whether a cell refuses this slot.
fn is_refused(alloc: Global, first: &[u8], second: &[u8], slot: DiskFile) -> Result<bool, Fail> {
    let opened = number_on(&mut with_slots(alloc, first, second, 64, 2)?);
    Ok(opened == Err(CellFault::BadCell(slot)))
}

#[test]
fn a_slot_that_cannot_be_is_told(rt: HostRuntime) -> Result<(), Fail> {
    let rows: [(&[u8], &[u8], DiskFile); 7] = [
        (ENDLESS, BEFORE, DiskFile::SlotA),
        (BEFORE, ENDLESS, DiskFile::SlotB),
        (SHORT, b"", DiskFile::SlotA),
        (b"", SHORT, DiskFile::SlotB),
        (SHORT, ENDLESS, DiskFile::SlotA),
        (BEFORE, BEFORE, DiskFile::SlotB),
        (SIX, SIX, DiskFile::SlotB),
    ];
    for (first, second, want) in rows {
        let refused = is_refused(rt.alloc(), first, second, want)?;
        assert!(rt; refused, "not {want:?}");
    }
    Ok(())
}
