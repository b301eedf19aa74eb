//! Disks that stop at each call of a run.

use crate::runs::{empty_disk, run};
use crate::units::is_unit_of;
use crate::untold_disk::UntoldDisk;
use crate::watched::Watched;
use cdc_dump_stage::DumpEnd;
use cdc_dumper::look;
use cdc_memory::MemDisk;
use std::alloc::Global;
use std::test::Fail;

/// Seven units over four files, in two windows.
const WORDS: &str = "1 2 3 4 5 . > 6 7 .";

/// An opening is four calls.
const FIRST_CALL: u64 = 5;

/// A unit is two calls and a commit thirteen, and there are seven units and four commits: before units 3 and 5, and one for each
/// End.
const CALLS: u64 = 66;

/// What a run whose disk stops at a call has left.
fn stopped_at(alloc: Global, call: u64) -> Result<Watched<UntoldDisk>, Fail> {
    let mut disk = empty_disk(alloc)?;
    disk.disk.stop_at(call);
    let mut watched = Watched::over(alloc, disk, 100)?;
    let _told = run(alloc, &mut watched, 16, WORDS)?;
    Ok(watched)
}

/// Whether the watch has the first units, so many of them, in order and each once.
fn has_first(watched: &Watched<UntoldDisk>, count: u64) -> bool {
    let units = watched.watch().units();
    for index in 0..units.len() {
        if !is_unit_of(&units[index], (index as u64).saturating_add(1)) {
            return false;
        }
    }
    units.len() as u64 == count
}

/// How many units a disk has published, where a crash comes now that leaves what was synced last.
fn kept_by(alloc: Global, disk: &MemDisk) -> Result<u64, Fail> {
    let mut left = UntoldDisk {
        disk: disk.after_crash(alloc, 0)?,
    };
    match look(&mut left) {
        Ok(front) => Ok(front.count),
        Err(fault) => Err(Fail::from(fault)),
    }
}

/// Whether the stage failed by its disk, and the watch has just the units that it told to be published, all of which a crash
/// leaves; the watch wasn't ended.
fn stops_well(alloc: Global, call: u64) -> Result<bool, Fail> {
    let watched = stopped_at(alloc, call)?;
    let published = watched.stage().published().count;
    let failed = *watched.stage().end() == DumpEnd::Disk;
    let first = has_first(&watched, published) && !watched.watch().has_ended();
    let disk = watched.into_disk();
    let left = kept_by(alloc, &disk.disk)?;
    Ok(failed && first && published < 7 && published <= left)
}

#[test]
fn nothing_is_handed_on_where_the_disk_failed(rt: HostRuntime) -> Result<(), Fail> {
    for call in FIRST_CALL..FIRST_CALL + CALLS {
        let well = stops_well(rt.alloc(), call)?;
        assert!(rt; well, "call {call}");
    }
    Ok(())
}

#[test]
fn all_are_handed_on_where_it_stops_behind_the_run(rt: HostRuntime) -> Result<(), Fail> {
    let watched = stopped_at(rt.alloc(), FIRST_CALL + CALLS)?;
    assert_eq!(&rt; *watched.stage().end(), DumpEnd::Whole);
    let all = has_first(&watched, 7);
    assert!(rt; all);
    Ok(())
}
