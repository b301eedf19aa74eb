//! The first transaction of an output: published, cut off, published again, and followed by the second.

use crate::publishing::publish;
use crate::samples::{
    FIRST, FIRST_FILE, SECOND, SECOND_PRINT, VERSION_ONE, after_crash, empty_disk, looked_at, put,
    unit_behind,
};
use crate::untold_disk::UntoldDisk;
use cdc_dumper::Dumper;
use cdc_outside::{Disk, DiskFile};
use cdc_samples::blobs::blob_of;
use std::alloc::Global;
use std::test::Fail;

// Publishes one transaction more: the first on an empty output, else the second. False where a call failed.
fn publish_next(alloc: Global, disk: &mut UntoldDisk) -> Result<bool, Fail> {
    let Ok(mut dumper) = Dumper::open(disk) else {
        return Ok(false);
    };
    let ahead = dumper.appended();
    let number = ahead.count.min(1) + 1;
    let bytes = blob_of(
        alloc,
        if number == 1 {
            &FIRST_FILE
        } else {
            &SECOND_PRINT
        },
    )?;
    let Some(unit) = unit_behind(number, &ahead.layout(), bytes, false) else {
        return Ok(false);
    };
    if ahead.count > 1 {
        return Ok(false);
    }
    Ok(publish(&mut dumper, disk, &unit))
}

// Whether a file has these bytes and no more.
fn has_bytes(disk: &mut UntoldDisk, file: DiskFile, want: &[u8]) -> Result<bool, Fail> {
    let mut bytes = [0u8; 400];
    let read = disk.read_at(file, 0, &mut bytes)?;
    Ok(read <= 400 && &bytes[..read] == want)
}

// How many transactions an output has behind a crash, where publishing the first was stopped at a call. Publishing it
// again, where it isn't there, gives its file.
fn left(alloc: Global, stop: u64, pick: u8) -> Result<u64, Fail> {
    let mut disk = empty_disk(alloc, 3, 400, 16)?;
    disk.disk.stop_at(stop);
    let _done = publish_next(alloc, &mut disk)?;
    let mut left = after_crash(alloc, &disk, pick)?;
    let found = looked_at(&mut left)?;
    if found == 0 && !publish_next(alloc, &mut left)? {
        return Err(Fail::from("not published"));
    }
    if !has_bytes(&mut left, DiskFile::Log(1), &FIRST_FILE)? {
        return Err(Fail::from("another file"));
    }
    Ok(found)
}

// An opening syncs, asks for the lengths of both slots and of file 1. Publishing writes the unit and syncs; the store
// reads the gate, closes it and syncs, writes number and length, then the payload, and syncs, and opens the gate: with
// two calls for each write that is call 18, and the sync behind it call 19.
const GATE: u64 = 18;

#[test]
fn a_stop_before_the_gate_leaves_nothing(rt: HostRuntime) -> Result<(), Fail> {
    for stop in 1..GATE + 1 {
        for pick in 0..4 {
            let found = left(rt.alloc(), stop, pick)?;
            assert!(rt; found == 0, "stop {stop}, pick {pick}");
        }
    }
    Ok(())
}

#[test]
fn behind_the_gate_it_is_published_where_the_gate_is_open(rt: HostRuntime) -> Result<(), Fail> {
    for (stop, counts) in [(GATE + 1, [0, 1, 0, 1]), (GATE + 2, [1, 1, 1, 1])] {
        for (pick, want) in [
            (0, counts[0]),
            (1, counts[1]),
            (2, counts[2]),
            (3, counts[3]),
        ] {
            let found = left(rt.alloc(), stop, pick)?;
            assert!(rt; found == want, "stop {stop}, pick {pick}: {found}");
        }
    }
    Ok(())
}

// Whether the second transaction behind the first, of which a slot has this record, makes this record and 359 bytes.
fn second_is_right(alloc: Global, slot: &[u8]) -> Result<bool, Fail> {
    let mut disk = empty_disk(alloc, 3, 400, 32)?;
    put(&mut disk, DiskFile::Log(1), &FIRST_FILE)?;
    put(&mut disk, DiskFile::SlotA, slot)?;
    let mut want = [0u8; 359];
    want[..241].copy_from_slice(&FIRST_FILE);
    want[241..].copy_from_slice(&SECOND_PRINT);
    Ok(
        publish_next(alloc, &mut disk)?
            && has_bytes(&mut disk, DiskFile::Log(1), &want)?
            && has_bytes(&mut disk, DiskFile::SlotB, &SECOND)?,
    )
}

#[test]
fn the_second_behind_either_version_is_of_the_second_version(rt: HostRuntime) -> Result<(), Fail> {
    let behind_one = second_is_right(rt.alloc(), &VERSION_ONE)?;
    assert!(rt; behind_one);
    let behind_two = second_is_right(rt.alloc(), &FIRST)?;
    assert!(rt; behind_two);
    Ok(())
}

#[test]
fn the_first_has_these_bytes(rt: HostRuntime) -> Result<(), Fail> {
    let mut disk = empty_disk(rt.alloc(), 3, 400, 32)?;
    let done = publish_next(rt.alloc(), &mut disk)?;
    let slot = has_bytes(&mut disk, DiskFile::SlotA, &FIRST)?;
    let file = has_bytes(&mut disk, DiskFile::Log(1), &FIRST_FILE)?;
    assert!(rt; done && slot && file);
    Ok(())
}
