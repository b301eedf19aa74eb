//! Groups that are published before the window's End, since they are full.

use crate::jobs::job_over;
use crate::units::unit_behind;
use crate::untold_disk::UntoldDisk;
use cdc_dump_stage::DumpJob;
use cdc_item::DumpItem;
use cdc_lane::PlainLane;
use cdc_memory::MemDisk;
use cdc_outside::LaneIn;
use cdc_samples::blobs::filled;
use cdc_turns::DumpTurns;
use std::alloc::Global;
use std::test::Fail;

/// The stage of an empty output, on a disk with room for one log file of so many bytes and for so many changes.
fn wide_job(alloc: Global, room: usize, changes: usize) -> Result<DumpJob<UntoldDisk>, Fail> {
    let disk = MemDisk::new(alloc, 1, room, changes, &[])?;
    job_over(UntoldDisk { disk }, None)
}

/// An item by way of a lane. How many units are published then.
fn give(
    job: &mut DumpJob<UntoldDisk>,
    lane: &mut PlainLane<DumpItem>,
    item: DumpItem,
) -> Result<u64, Fail> {
    let Ok(()) = lane.push(item) else {
        return Err("the lane is full")?;
    };
    let _turn = job.turn(lane);
    Ok(job.stage().published().count)
}

/// The next unit of so many bytes. How many units are published then.
fn give_unit(
    alloc: Global,
    job: &mut DumpJob<UntoldDisk>,
    lane: &mut PlainLane<DumpItem>,
    size: usize,
) -> Result<u64, Fail> {
    let front = job.stage().appended();
    let number = front.count.saturating_add(1);
    let bytes = filled(alloc, 7, size)?;
    let unit = unit_behind(number, b'g', &front.layout(), bytes, false).ok_or("no such unit")?;
    give(job, lane, DumpItem::Unit(unit))
}

/// So many units of so many bytes. Where more are published behind a unit, its number and `:` and how many.
fn give_units(
    alloc: Global,
    job: &mut DumpJob<UntoldDisk>,
    lane: &mut PlainLane<DumpItem>,
    count: u32,
    size: usize,
) -> Result<String, Fail> {
    let mut told = String::new(alloc);
    for _ in 0..count {
        let before = job.stage().published().count;
        let published = give_unit(alloc, job, lane, size)?;
        if published != before {
            let number = job.stage().appended().count;
            told.push_str(&format!(in alloc; "{number}:{published} ")?)?;
        }
    }
    Ok(told)
}

/// What is published behind units of these sizes, so many of each, and at last behind the End.
fn told_of(
    alloc: Global,
    job: &mut DumpJob<UntoldDisk>,
    sizes: &[(u32, usize)],
) -> Result<String, Fail> {
    let mut lane = PlainLane::new(alloc, 1)?;
    let mut told = String::new(alloc);
    for (count, size) in sizes {
        let more = give_units(alloc, job, &mut lane, *count, *size)?;
        told.push_str(&more)?;
    }
    let published = give(job, &mut lane, DumpItem::End)?;
    told.push_str(&format!(in alloc; "End:{published}")?)?;
    Ok(told)
}

#[test]
fn a_group_has_at_most_4096_units(rt: HostRuntime) -> Result<(), Fail> {
    let mut job = wide_job(rt.alloc(), 4_300, 4_200)?;
    let told = told_of(rt.alloc(), &mut job, &[(1, 123), (4_095, 1)])?;
    assert_eq!(&rt; told.as_str(), "4096:4096 End:4096");
    let mut job = wide_job(rt.alloc(), 4_300, 4_200)?;
    let told = told_of(rt.alloc(), &mut job, &[(1, 123), (4_096, 1)])?;
    assert_eq!(&rt; told.as_str(), "4096:4096 End:4097");
    let mut job = wide_job(rt.alloc(), 4_300, 4_200)?;
    let told = told_of(rt.alloc(), &mut job, &[(1, 123), (4_094, 1)])?;
    assert_eq!(&rt; told.as_str(), "End:4095");
    Ok(())
}

/// Eight MiB wait, one byte more doesn't.
#[test]
fn a_group_that_waits_has_at_most_eight_mebibytes(rt: HostRuntime) -> Result<(), Fail> {
    let room = 8_388_700;
    let mut job = wide_job(rt.alloc(), room, 20)?;
    let told = told_of(rt.alloc(), &mut job, &[(2, 4_194_304)])?;
    assert_eq!(&rt; told.as_str(), "End:2");
    let mut job = wide_job(rt.alloc(), room, 20)?;
    let told = told_of(rt.alloc(), &mut job, &[(2, 4_194_304), (3, 1)])?;
    assert_eq!(&rt; told.as_str(), "3:3 End:5");
    let mut job = wide_job(rt.alloc(), room, 20)?;
    let told = told_of(rt.alloc(), &mut job, &[(1, 8_388_609), (2, 1)])?;
    assert_eq!(&rt; told.as_str(), "1:1 End:3");
    Ok(())
}
