//! Ten units in groups, cut off at each call.

use crate::publishing::publish_rest;
use crate::samples::{after_crash, empty_disk};
use crate::ten::has_front;
use crate::untold_disk::UntoldDisk;
use cdc_dumper::Dumper;
use cdc_memory::MemDisk;
use std::alloc::Global;
use std::test::Fail;

// More calls than ten units take, published each by itself.
const CALLS: u64 = 200;

// How many units are published and appended when a run over a disk ends.
fn run(alloc: Global, disk: &mut UntoldDisk, group: u64) -> Result<(u64, u64), Fail> {
    let Ok(mut dumper) = Dumper::open(disk) else {
        return Ok((0, 0));
    };
    let _done = publish_rest(alloc, &mut dumper, disk, group)?;
    Ok((dumper.published().count, dumper.appended().count))
}

// Whether the files of a disk that is opened again are a front of the ten units, whole: those that were published, or
// all that were appended. And whether they are the ten once the rest was published.
fn goes_on(
    alloc: Global,
    disk: &mut UntoldDisk,
    group: u64,
    before: (u64, u64),
) -> Result<bool, Fail> {
    let Ok(mut dumper) = Dumper::open(disk) else {
        return Ok(false);
    };
    let count = dumper.published().count;
    if (count != before.0 && count != before.1) || !has_front(disk, count)? {
        return Ok(false);
    }
    Ok(publish_rest(alloc, &mut dumper, disk, group)? && has_front(disk, 10)?)
}

// Whether a run that was stopped at a call goes on behind a crash.
fn survives(alloc: Global, group: u64, stop: u64, pick: u8) -> Result<bool, Fail> {
    let mut disk = empty_disk(alloc, 3, 400, 100)?;
    disk.disk.stop_at(stop);
    let before = run(alloc, &mut disk, group)?;
    if stop == CALLS && before != (10, 10) {
        return Ok(false);
    }
    let mut left = after_crash(alloc, &disk, pick)?;
    goes_on(alloc, &mut left, group, before)
}

// The stop and the pick of a run in groups that doesn't go on, where there is one.
fn lost(alloc: Global, group: u64) -> Result<Option<(u64, u8)>, Fail> {
    for stop in 1..CALLS + 1 {
        for pick in 0..4 {
            if !survives(alloc, group, stop, pick)? {
                return Ok(Some((stop, pick)));
            }
        }
    }
    Ok(None)
}

#[test]
fn units_by_themselves_survive_each_stop(rt: HostRuntime) -> Result<(), Fail> {
    let lost = lost(rt.alloc(), 1)?;
    assert!(rt; lost.is_none(), "{lost:?}");
    Ok(())
}

#[test]
fn groups_of_two_survive_each_stop(rt: HostRuntime) -> Result<(), Fail> {
    let lost = lost(rt.alloc(), 2)?;
    assert!(rt; lost.is_none(), "{lost:?}");
    Ok(())
}

#[test]
fn groups_of_three_survive_each_stop(rt: HostRuntime) -> Result<(), Fail> {
    let lost = lost(rt.alloc(), 3)?;
    assert!(rt; lost.is_none(), "{lost:?}");
    Ok(())
}

#[test]
fn a_group_of_ten_survives_each_stop(rt: HostRuntime) -> Result<(), Fail> {
    let lost = lost(rt.alloc(), 10)?;
    assert!(rt; lost.is_none(), "{lost:?}");
    Ok(())
}

// Whether a run of which one call fails goes on where the same disk is opened again, without a crash.
fn goes_on_behind(alloc: Global, group: u64, call: u64) -> Result<bool, Fail> {
    let disk = MemDisk::new(alloc, 3, 400, 200, &[call])?;
    let mut disk = UntoldDisk { disk };
    let before = run(alloc, &mut disk, group)?;
    if disk.disk.fault_count() == 0 {
        return Ok(before == (10, 10));
    }
    Ok(before.0 < 10 && goes_on(alloc, &mut disk, group, before)?)
}

// The call of a run in groups behind whose failure it doesn't go on, where there is one.
fn lost_behind(alloc: Global, group: u64) -> Result<Option<u64>, Fail> {
    for call in 1..CALLS {
        if !goes_on_behind(alloc, group, call)? {
            return Ok(Some(call));
        }
    }
    Ok(None)
}

#[test]
fn a_failed_call_is_survived_without_a_crash(rt: HostRuntime) -> Result<(), Fail> {
    for group in [1, 2, 3, 10] {
        let lost = lost_behind(rt.alloc(), group)?;
        assert!(rt; lost.is_none(), "groups of {group}: {lost:?}");
    }
    Ok(())
}
