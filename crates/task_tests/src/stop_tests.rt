//! Stores and loads that are cut off.

use crate::samples::{FIRST, ROTATION, kept_count, sample, with_slots};
use cdc_memory::MemDisk;
use cdc_outside::{Disk, DiskFile};
use cdc_task::{StoreFault, load, store};
use std::alloc::Global;
use std::test::Fail;

// Stores the second sample over what the disk keeps; false where a call failed.
fn store_next(alloc: Global, disk: &mut MemDisk) -> Result<bool, Fail> {
    let next = sample(alloc, true)?;
    let Ok((mut cell, _kept)) = load(alloc, disk, 1, ROTATION) else {
        return Ok(false);
    };
    if next.number() > cell.number() && cdc_task::is_point(&next) && next.rotation.is_some() {
        return Ok(store(alloc, &mut cell, disk, &next).is_ok());
    }
    Err(Fail::from("not the next one"))
}

// Whether a store that was stopped at a call leaves the old checkpoint or the new one, and the new one where it succeeded.
fn is_old_or_new(alloc: Global, stop: u64, pick: u8) -> Result<bool, Fail> {
    let mut disk = with_slots(alloc, &FIRST, b"")?;
    disk.stop_at(stop);
    let done = store_next(alloc, &mut disk)?;
    let count = kept_count(alloc, &mut disk.after_crash(alloc, pick)?)?;
    Ok(count == 2 || (count == 1 && !done))
}

#[test]
fn a_stopped_store_leaves_the_old_checkpoint_or_the_new_one(rt: HostRuntime) -> Result<(), Fail> {
    for stop in 1..40 {
        for pick in 0..4 {
            let good = is_old_or_new(rt.alloc(), stop, pick)?;
            assert!(rt; good, "stop {stop}, pick {pick}");
        }
    }
    Ok(())
}

// What is loaded can't be lost: the slot was written and not synced before.
#[test]
fn what_was_loaded_stays(rt: HostRuntime) -> Result<(), Fail> {
    let alloc = rt.alloc();
    for pick in 0..4 {
        let mut disk = MemDisk::new(alloc, 0, 512, 8, &[])?;
        disk.write_at(DiskFile::SlotA, 0, &FIRST)?;
        let before = kept_count(alloc, &mut disk)?;
        let count = kept_count(alloc, &mut disk.after_crash(alloc, pick)?)?;
        assert!(rt; before == 1 && count == 1, "pick {pick}");
    }
    Ok(())
}
