//! Outputs that are opened: what is found of them, and what stands behind the Front.

use crate::samples::{FIRST, FIRST_FILE, VERSION_ONE, after_crash, empty_disk, looked_at, put};
use crate::untold_disk::UntoldDisk;
use cdc_base::{Key, gtrid_of};
use cdc_dumper::{Dumper, OpenFault, look};
use cdc_outside::{Disk, DiskFile, Failed};
use cdc_records::Front;
use std::alloc::Global;
use std::test::Fail;

// The Front of one transaction in 241 bytes, with this last key.
fn front_with(last: Option<Key>) -> Front {
    Front {
        count: 1,
        file: 1,
        length: 241,
        closed: false,
        first: 1,
        passed: 0,
        last,
    }
}

// What an opening finds of an output that has this slot and the first file.
fn found(alloc: Global, slot: &[u8]) -> Result<Option<Front>, Fail> {
    let mut disk = empty_disk(alloc, 3, 400, 16)?;
    put(&mut disk, DiskFile::SlotB, slot)?;
    put(&mut disk, DiskFile::Log(1), &FIRST_FILE)?;
    let seen = look(&mut disk)?;
    let dumper = Dumper::open(&mut disk)?;
    let front = dumper.published();
    Ok(if front == seen { Some(front) } else { None })
}

#[test]
fn both_versions_are_found(rt: HostRuntime) -> Result<(), Fail> {
    let alloc = rt.alloc();
    let Some(gtrid) = gtrid_of(b"g1") else {
        return Err(Fail::from("no id"));
    };
    let key = Key::Shared {
        timestamp: 10,
        gtrid,
    };
    let none = found(alloc, b"")?;
    assert!(rt; none == Some(Front::none()));
    let version_one = found(alloc, &VERSION_ONE)?;
    assert!(rt; version_one == Some(front_with(None)));
    let version_two = found(alloc, &FIRST)?;
    assert!(rt; version_two == Some(front_with(Some(key))));
    Ok(())
}

// An output of one transaction with seven bytes behind its Front, five in the next file, and two in the one behind.
fn with_rests(alloc: Global, slot: &[u8]) -> Result<UntoldDisk, Fail> {
    let mut disk = empty_disk(alloc, 3, 400, 16)?;
    put(&mut disk, DiskFile::SlotA, slot)?;
    put(&mut disk, DiskFile::Log(1), &[7u8; 248])?;
    put(&mut disk, DiskFile::Log(2), b"fives")?;
    put(&mut disk, DiskFile::Log(3), b"tw")?;
    Ok(disk)
}

// The lengths of the three files.
fn lengths(disk: &mut UntoldDisk) -> Result<[u64; 3], Failed> {
    let first = disk.length(DiskFile::Log(1))?;
    let second = disk.length(DiskFile::Log(2))?;
    let third = disk.length(DiskFile::Log(3))?;
    Ok([first, second, third])
}

// The lengths that an opening leaves behind a crash.
fn lengths_left(alloc: Global, slot: &[u8], pick: u8) -> Result<[u64; 3], Fail> {
    let mut disk = with_rests(alloc, slot)?;
    let _dumper = Dumper::open(&mut disk)?;
    let mut left = after_crash(alloc, &disk, pick)?;
    Ok(lengths(&mut left)?)
}

#[test]
fn what_stands_behind_the_front_is_cut_off(rt: HostRuntime) -> Result<(), Fail> {
    for pick in 0..4 {
        let one = lengths_left(rt.alloc(), &FIRST, pick)?;
        assert!(rt; one == [241, 0, 2], "pick {pick}: {one:?}");
        let none = lengths_left(rt.alloc(), b"", pick)?;
        assert!(rt; none == [0, 5, 2], "pick {pick}: {none:?}");
    }
    Ok(())
}

// The lengths that a look leaves.
fn lengths_looked_at(alloc: Global) -> Result<[u64; 3], Fail> {
    let mut disk = with_rests(alloc, &FIRST)?;
    let count = looked_at(&mut disk)?;
    if count != 1 {
        return Err(Fail::from("not found"));
    }
    Ok(lengths(&mut disk)?)
}

#[test]
fn a_look_leaves_all_as_it_is(rt: HostRuntime) -> Result<(), Fail> {
    let left = lengths_looked_at(rt.alloc())?;
    assert!(rt; left == [248, 5, 2], "{left:?}");
    Ok(())
}

// What an opening finds can't be lost: slot and file were written and not synced before.
fn kept_count(alloc: Global, pick: u8) -> Result<u64, Fail> {
    let mut disk = empty_disk(alloc, 3, 400, 16)?;
    disk.write_at(DiskFile::SlotA, 0, &FIRST)?;
    disk.write_at(DiskFile::Log(1), 0, &FIRST_FILE)?;
    let dumper = Dumper::open(&mut disk)?;
    let mut left = after_crash(alloc, &disk, pick)?;
    let front = look(&mut left)?;
    Ok(front.count.min(dumper.published().count))
}

#[test]
fn what_was_opened_stays(rt: HostRuntime) -> Result<(), Fail> {
    for pick in 0..4 {
        let count = kept_count(rt.alloc(), pick)?;
        assert!(rt; count == 1, "pick {pick}: {count}");
    }
    Ok(())
}

// What an output with this slot and so many bytes of the first file is refused with, by an opening and by a look.
fn refusal(alloc: Global, slot: &[u8], bytes: usize) -> Result<Option<OpenFault>, Fail> {
    let mut disk = empty_disk(alloc, 3, 400, 16)?;
    put(&mut disk, DiskFile::SlotA, slot)?;
    put(&mut disk, DiskFile::Log(1), &FIRST_FILE[..bytes.min(241)])?;
    let seen = match look(&mut disk) {
        Ok(_front) => None,
        Err(fault) => Some(fault),
    };
    let refused = match Dumper::open(&mut disk) {
        Ok(_dumper) => None,
        Err(fault) => Some(fault),
    };
    Ok(if refused == seen { refused } else { None })
}

// The payload has 26 bytes by its length, and 20 are there.
const TORN: [u8; 37] =
    *b"\x01\x01\0\0\0\0\0\0\0\x1a\0\0\0\0\0\0\0\x01\x01\0\0\0\0\0\0\0\x01\0\0\0\0\0\0\0\xf1\0\0";

#[test]
fn a_slot_that_is_torn_is_refused(rt: HostRuntime) -> Result<(), Fail> {
    let refused = refusal(rt.alloc(), &TORN, 241)?;
    assert!(rt; refused == Some(OpenFault::BadCell(DiskFile::SlotA)));
    Ok(())
}

#[test]
fn a_file_that_is_too_short_is_refused_with_both_lengths(rt: HostRuntime) -> Result<(), Fail> {
    let alloc = rt.alloc();
    for found in [240, 123, 1, 0] {
        let refused = refusal(alloc, &VERSION_ONE, found)?;
        let want = OpenFault::BadFront {
            kept: 241,
            found: found as u64,
        };
        assert!(rt; refused == Some(want), "{found}: {refused:?}");
    }
    let mut endless = FIRST;
    for at in 34..42 {
        endless[at] = 255;
    }
    let refused = refusal(alloc, &endless, 241)?;
    let want = OpenFault::BadFront {
        kept: u64::MAX,
        found: 241,
    };
    assert!(rt; refused == Some(want), "{refused:?}");
    Ok(())
}
