//! Slots with a field of the Front's record out of its range, and in it.

use crate::samples::{FIRST, FIRST_FILE, VERSION_ONE, empty_disk, put};
use cdc_dumper::{Dumper, OpenFault};
use cdc_outside::DiskFile;
use std::alloc::Global;
use std::test::Fail;

// Whether an output with this record in slot B, and two files of 241 bytes, is opened; else the slot has to be named.
fn is_taken(alloc: Global, slot: &[u8]) -> Result<bool, Fail> {
    let mut disk = empty_disk(alloc, 3, 400, 16)?;
    put(&mut disk, DiskFile::SlotB, slot)?;
    put(&mut disk, DiskFile::Log(1), &FIRST_FILE)?;
    put(&mut disk, DiskFile::Log(2), &FIRST_FILE)?;
    match Dumper::open(&mut disk) {
        Ok(_dumper) => Ok(true),
        Err(OpenFault::BadCell(DiskFile::SlotB)) => Ok(false),
        Err(fault) => Err(Fail::from(fault)),
    }
}

// Whether it is, with some bytes of the record changed.
fn is_taken_with(alloc: Global, slot: &[u8], changes: &[(usize, u8)]) -> Result<bool, Fail> {
    let mut bytes = [0u8; 100];
    let length = slot.len().min(100);
    bytes[..length].copy_from_slice(&slot[..length]);
    for (at, value) in changes {
        if *at < length {
            bytes[*at] = *value;
        }
    }
    is_taken(alloc, &bytes[..length])
}

#[test]
fn each_field_out_of_its_range_is_refused(rt: HostRuntime) -> Result<(), Fail> {
    // The slot's number and the payload's length; version, count, file, length, closed; first, passed; class, id's length.
    let rows = [
        (1, 0),
        (1, 2),
        (9, 53),
        (9, 26),
        (17, 0),
        (17, 1),
        (17, 3),
        (18, 0),
        (18, 2),
        (25, 0x40),
        (26, 0),
        (26, 2),
        (33, 1),
        (34, 122),
        (42, 2),
        (42, 255),
        (43, 0),
        (43, 2),
        (50, 1),
        (51, 1),
        (58, 1),
        (67, 1),
        (67, 2),
        (68, 1),
        (68, 3),
        (68, 65),
        (68, 255),
    ];
    for (at, value) in rows {
        let taken = is_taken_with(rt.alloc(), &FIRST, &[(at, value)])?;
        assert!(rt; !taken, "byte {at} as {value}");
    }
    Ok(())
}

#[test]
fn each_field_of_the_first_version_is_refused_too(rt: HostRuntime) -> Result<(), Fail> {
    let rows = [
        (1, 0),
        (1, 2),
        (9, 25),
        (17, 0),
        (17, 2),
        (17, 3),
        (18, 0),
        (18, 2),
        (25, 0x40),
        (26, 0),
        (26, 2),
        (34, 122),
        (42, 2),
    ];
    for (at, value) in rows {
        let taken = is_taken_with(rt.alloc(), &VERSION_ONE, &[(at, value)])?;
        assert!(rt; !taken, "byte {at} as {value}");
    }
    Ok(())
}

#[test]
fn each_field_in_its_range_is_taken(rt: HostRuntime) -> Result<(), Fail> {
    // Length, closed, timestamp, id.
    for (at, value) in [(34, 123), (42, 1), (59, 11), (66, 255), (69, 0)] {
        let taken = is_taken_with(rt.alloc(), &FIRST, &[(at, value)])?;
        assert!(rt; taken, "byte {at} as {value}");
    }
    for (at, value) in [(34, 123), (42, 1)] {
        let taken = is_taken_with(rt.alloc(), &VERSION_ONE, &[(at, value)])?;
        assert!(rt; taken, "byte {at} as {value}");
    }
    Ok(())
}

// Two transactions in two files, of which the second is the first that is kept: number 3, count 2, file 2, first 2, one
// passed.
const TWO_FILES: [(usize, u8); 5] = [(1, 3), (18, 2), (26, 2), (43, 2), (51, 1)];

// Whether that is taken with one more byte changed.
fn two_are_taken_with(alloc: Global, at: usize, value: u8) -> Result<bool, Fail> {
    let mut changes = [(at, value); 6];
    changes[..5].copy_from_slice(&TWO_FILES);
    is_taken_with(alloc, &FIRST, &changes)
}

#[test]
fn dropped_files_are_in_their_range(rt: HostRuntime) -> Result<(), Fail> {
    let rows = [
        (1, 3, true),
        (1, 2, false),
        (26, 1, false),
        (26, 3, false),
        (43, 1, false),
        (51, 0, true),
        (51, 2, false),
    ];
    for (at, value, want) in rows {
        let taken = two_are_taken_with(rt.alloc(), at, value)?;
        assert!(rt; taken == want, "byte {at} as {value}");
    }
    Ok(())
}

#[test]
fn a_count_is_at_most_two_to_the_sixty_second(rt: HostRuntime) -> Result<(), Fail> {
    let most = is_taken_with(
        rt.alloc(),
        &FIRST,
        &[(1, 0), (8, 0x40), (18, 0), (25, 0x40)],
    )?;
    assert!(rt; most);
    let more = is_taken_with(
        rt.alloc(),
        &FIRST,
        &[(1, 1), (8, 0x40), (18, 1), (25, 0x40)],
    )?;
    assert!(rt; !more);
    Ok(())
}

// The record of a local transaction's key, timestamp 5, node 1, entry 2; and that of an id of 64 bytes.
const LOCAL: [u8; 80] = *b"\x01\x01\0\0\0\0\0\0\0\x3f\0\0\0\0\0\0\0\
\x02\x01\0\0\0\0\0\0\0\x01\0\0\0\0\0\0\0\xf1\0\0\0\0\0\0\0\0\x01\0\0\0\0\0\0\0\0\0\0\0\0\0\0\0\
\x05\0\0\0\0\0\0\0\x01\x01\0\0\0\x02\0\0\0\0\0\0\0";

#[test]
fn other_keys_are_taken(rt: HostRuntime) -> Result<(), Fail> {
    let local = is_taken(rt.alloc(), &LOCAL)?;
    assert!(rt; local);
    let mut longest = [0u8; 134];
    longest[..71].copy_from_slice(&FIRST);
    longest[9] = 116;
    longest[68] = 64;
    let long = is_taken(rt.alloc(), &longest[..133])?;
    assert!(rt; long);
    longest[9] = 117;
    longest[68] = 65;
    let too_long = is_taken(rt.alloc(), &longest)?;
    assert!(rt; !too_long);
    Ok(())
}
