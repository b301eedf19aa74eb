//! Disks that stop at each call of a run.

ghost use Rattle.std.specs.Prelude.{◌≤◌};

use crate::jobs::{after_crash, empty_disk, job_over};
use crate::runs::run;
use crate::units::has_front;
use crate::untold_disk::UntoldDisk;
use cdc_dump_stage::{DumpEnd, DumpStage};
use std::alloc::Global;
use std::test::Fail;

/// Ten units over three files, in two windows.
const WORDS: &str = "1 2 3 4 5 6 . > 7 8 9 10 .";

/// An opening is four calls: a sync, and three for lengths.
const FIRST_CALL: u64 = 5;

/// A unit is two calls and a commit thirteen, and there are ten units and three commits: one before the second file, since none
/// is published then, and one for each End.
const CALLS: u64 = 59;

/// The stage and the disk behind a run whose disk stops at a call.
fn stopped_at(alloc: Global, room: usize, call: u64) -> Result<(DumpStage, UntoldDisk), Fail>
    requires { 1 ≤ room }
{
    let mut disk = empty_disk(alloc)?;
    disk.disk.stop_at(call);
    let mut job = job_over(disk, None)?;
    let _told = run(alloc, &mut job, room, WORDS)?;
    Ok(job.into_parts())
}

/// Whether each crash leaves the first units: those that were published, or all that were appended.
fn leaves_front(alloc: Global, stage: &DumpStage, disk: &UntoldDisk) -> Result<bool, Fail> {
    let (published, appended) = (stage.published().count, stage.appended().count);
    for pick in 0..4 {
        let left = after_crash(alloc, disk, pick)?;
        let (found, left) = job_over(left, None)?.into_parts();
        let mut left = left;
        let count = found.published().count;
        if (count != published && count != appended) || !has_front(&mut left, count)? {
            return Ok(false);
        }
    }
    Ok(true)
}

/// The stage must have taken the last End, the disk must have been left alone behind the call that failed, and each crash must
/// leave a front.
fn stops_well(alloc: Global, room: usize, call: u64) -> Result<bool, Fail>
    requires { 1 ≤ room }
{
    let (stage, disk) = stopped_at(alloc, room, call)?;
    let is_disk = *stage.end() == DumpEnd::Disk;
    Ok(
        is_disk
            && stage.has_ended()
            && disk.disk.fault_count() == 1
            && leaves_front(alloc, &stage, &disk)?,
    )
}

#[test]
fn a_disk_that_stops_ends_the_stage(rt: HostRuntime) -> Result<(), Fail> {
    for room in [1, 16] {
        for call in FIRST_CALL..FIRST_CALL + CALLS {
            let well = stops_well(rt.alloc(), room, call)?;
            assert!(rt; well, "call {call}, room {room}");
        }
    }
    Ok(())
}

#[test]
fn a_disk_that_stops_behind_the_run_is_whole(rt: HostRuntime) -> Result<(), Fail> {
    let (stage, disk) = stopped_at(rt.alloc(), 1, FIRST_CALL + CALLS)?;
    let mut disk = disk;
    disk.disk.stop_at(u64::MAX);
    assert_eq!(&rt; *stage.end(), DumpEnd::Whole);
    assert_eq!(&rt; stage.published().count, 10);
    let whole = has_front(&mut disk, 10)?;
    assert!(rt; whole);
    Ok(())
}
