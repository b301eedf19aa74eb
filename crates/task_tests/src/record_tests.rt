//! Records byte by byte: stored, loaded, and those of the first version.

use crate::samples::{FIRST, ROTATION, SECOND, VERSION_ONE, sample, with_slots};
use cdc_memory::MemDisk;
use cdc_outside::{Disk, DiskFile};
use cdc_records::Checkpoint;
use cdc_task::{StoreFault, load, store};
use std::alloc::Global;
use std::test::Fail;

// Stores a sample over what the disk keeps.
fn store_sample(alloc: Global, disk: &mut MemDisk, second: bool) -> Result<(), Fail> {
    let next = sample(alloc, second)?;
    let (mut cell, _kept) = load(alloc, disk, 1, ROTATION)?;
    let number = next.number();
    if number > cell.number() && cdc_task::is_point(&next) && next.rotation.is_some() {
        match store(alloc, &mut cell, disk, &next) {
            Ok(()) => return Ok(()),
            Err(StoreFault::DiskFault) => return Err(Fail::from("the disk failed")),
            Err(StoreFault::Memory) => return Err(Fail::from("no memory")),
        }
    }
    Err(Fail::from("not the next one"))
}

// Whether a slot of a disk has these bytes and no more.
fn has_bytes(disk: &mut MemDisk, file: DiskFile, want: &[u8]) -> Result<bool, Fail> {
    let mut bytes = [0u8; 128];
    let read = disk.read_at(file, 0, &mut bytes)?;
    Ok(read <= 128 && &bytes[..read] == want)
}

// Whether a checkpoint is the first sample, but for its rotation size.
fn is_first(point: &Checkpoint) -> bool {
    let nodes = point.nodes.as_slice();
    match nodes {
        [cut] => {
            point.count == 1
                && point.layout.file == 1
                && point.layout.length == 241
                && !point.layout.closed
                && cut.entry == 3
                && cut.place.file == 1
                && cut.place.at == 293
                && cut.mark == 10
                && cut.checksum == 0
                && cut.held.len() == 1
        }
        _ => false,
    }
}

#[test]
fn two_checkpoints_in_a_row_have_these_bytes(rt: HostRuntime) -> Result<(), Fail> {
    let alloc = rt.alloc();
    let mut disk = with_slots(alloc, b"", b"")?;
    store_sample(alloc, &mut disk, false)?;
    let first = has_bytes(&mut disk, DiskFile::SlotA, &FIRST)?;
    assert!(rt; first);
    store_sample(alloc, &mut disk, true)?;
    let second = has_bytes(&mut disk, DiskFile::SlotB, &SECOND)?;
    assert!(rt; second);
    Ok(())
}

#[test]
fn a_checkpoint_is_loaded_as_it_was_stored(rt: HostRuntime) -> Result<(), Fail> {
    let alloc = rt.alloc();
    let mut disk = with_slots(alloc, &FIRST, b"")?;
    let (cell, kept) = load(alloc, &mut disk, 1, ROTATION)?;
    assert!(rt; cell.number() == 4);
    let Some(point) = kept else {
        return Err(Fail::from("no checkpoint"));
    };
    assert!(rt; is_first(&point));
    assert!(rt; point.rotation == Some(ROTATION));
    Ok(())
}

#[test]
fn an_empty_disk_has_no_checkpoint(rt: HostRuntime) -> Result<(), Fail> {
    let alloc = rt.alloc();
    let mut disk = with_slots(alloc, b"", b"")?;
    let (cell, kept) = load(alloc, &mut disk, 1, ROTATION)?;
    assert!(rt; cell.number() == 0 && kept.is_none());
    Ok(())
}

// A record of the first version is of each plan, and the next store writes the second version.
#[test]
fn the_first_version_is_loaded_and_replaced(rt: HostRuntime) -> Result<(), Fail> {
    let alloc = rt.alloc();
    let mut disk = with_slots(alloc, &VERSION_ONE, b"")?;
    let (_cell, kept) = load(alloc, &mut disk, 1, 256)?;
    let Some(point) = kept else {
        return Err(Fail::from("no checkpoint"));
    };
    assert!(rt; is_first(&point));
    assert!(rt; point.rotation.is_none());
    store_sample(alloc, &mut disk, true)?;
    let second = has_bytes(&mut disk, DiskFile::SlotB, &SECOND)?;
    assert!(rt; second);
    Ok(())
}
