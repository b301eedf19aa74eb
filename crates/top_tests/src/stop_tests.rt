//! Passes that stop: a disk at each of its calls, each outcome of the crash, and a pass behind it; devices that fail once.

use crate::expected::{Files, two_files};
use crate::nodes::node_failing;
use crate::pass_table::has_both;
use crate::passing::{Settings, run};
use crate::service::{Service, disk_failing, disk_stopping};
use crate::untold_disk::UntoldDisk;
use cdc_base::Memory;
use cdc_samples::Log;
use std::alloc::Global;
use std::test::Fail;

/// Files close from 256 bytes on.
const SETTINGS: Settings<'static> = Settings {
    first: "rotation = 256\nwindow = 4096\n",
    last: "",
};

/// Three transactions: the first two fill a file of 399 bytes, which is closed; the next file has 241 bytes.
const LOG: &str = "H P(g1) C(g1,10) P(g2) C(g2,20) P(g3) C(g3,30)";

/// The transactions of both files.
const FILES: &str = "10:6731 20:6732 > 30:6733";

/// The lines of both outs behind a whole pass.
const LINES: &[u8] = b"out 1 binlog.000002 241 3\nout 2 binlog.000002 241 3\n";

/// A pass has fewer calls of each device.
const CALLS: u64 = 400;

/// A disk of a service of two outs: that of an out, or behind them that of the task.
#[derive(Clone, Copy)]
struct Which(usize);

/// How many they are.
const DISKS: usize = 3;

/// A service of two outs with a disk in the place of one of its own.
fn service_with(alloc: Global, which: Which, disk: UntoldDisk) -> Result<Service, Memory> {
    let mut service = Service::empty(alloc, 2)?;
    match service.outs.get_mut(which.0) {
        Some(out) => *out = disk,
        None => service.task = disk,
    }
    Ok(service)
}

/// How many calls of a disk failed.
fn faults_of(service: &Service, which: Which) -> u64 {
    match service.outs.get(which.0) {
        Some(out) => out.disk.fault_count(),
        None => service.task.disk.fault_count(),
    }
}

/// What a pass answers and prints over these disks, and a source whose calls fail so; its status, and whether it printed both
/// lines and nothing else.
fn pass(alloc: Global, fails: &[u64], service: &mut Service) -> Result<(u8, bool), Fail> {
    let log = Log::of(alloc, LOG)?;
    let mut nodes = node_failing(alloc, log.bytes(), fails)?;
    let seen = run(alloc, &SETTINGS, service, &mut nodes)?;
    Ok((seen.status, seen.out.as_slice() == LINES))
}

/// Whether all outs have both files.
fn are_whole(outs: &mut Vec<UntoldDisk>, wanted: &Files) -> bool {
    for out in outs {
        if !has_both(out, wanted) {
            return false;
        }
    }
    true
}

/// Whether a pass behind this outcome of a crash of these disks publishes all.
fn goes_on_from(alloc: Global, service: &Service, pick: u8, wanted: &Files) -> Result<bool, Fail> {
    let mut left = service.after_crash(alloc, pick)?;
    let whole = pass(alloc, &[], &mut left)? == (0, true);
    Ok(whole && are_whole(&mut left.outs, wanted))
}

/// Whether a pass behind each outcome of a crash of these disks publishes all.
fn goes_on(alloc: Global, service: &Service) -> Result<bool, Fail> {
    let wanted = two_files(alloc, FILES)?;
    for pick in 0..4_u8 {
        if !goes_on_from(alloc, service, pick, &wanted)? {
            return Ok(false);
        }
    }
    Ok(true)
}

/// Whether a pass came to its end with both lines, or to this status without them.
fn is_answer(status: u8, lines: bool, failed: u8) -> bool {
    if lines { status == 0 } else { status == failed }
}

/// One disk stops at this call; whether the pass came to its end before, and else whether a pass behind each crash goes on.
fn stop_at(alloc: Global, which: Which, call: u64) -> Result<(bool, bool), Fail> {
    let disk = disk_stopping(alloc, call)?;
    let mut service = service_with(alloc, which, disk)?;
    let (status, lines) = pass(alloc, &[], &mut service)?;
    if !is_answer(status, lines, 5) {
        return Err("another answer")?;
    }
    Ok((lines, goes_on(alloc, &service)?))
}

/// How many calls of a disk a pass makes before none is stopped.
fn stops_of(alloc: Global, which: Which) -> Result<u64, Fail> {
    for call in 1..CALLS {
        let (ended, whole) = stop_at(alloc, which, call)?;
        if !whole {
            return Err("something is lost or doubled")?;
        }
        if ended {
            return Ok(call - 1);
        }
    }
    Err("no end")?
}

#[test]
fn a_pass_goes_on_behind_each_stop_of_each_disk(rt: HostRuntime) -> Result<(), Fail> {
    for disk in 0..DISKS {
        let stops = stops_of(rt.alloc(), Which(disk))?;
        assert!(rt; stops > 10, "disk {disk}");
    }
    Ok(())
}

/// The call of one disk that fails alone; whether the pass came to its end without it.
fn fail_once(alloc: Global, which: Which, call: u64) -> Result<bool, Fail> {
    let disk = disk_failing(alloc, &[call])?;
    let mut service = service_with(alloc, which, disk)?;
    let (status, lines) = pass(alloc, &[], &mut service)?;
    let ended = faults_of(&service, which) == 0;
    let wanted = if ended { (0, true) } else { (5, false) };
    if (status, lines) != wanted || !goes_on(alloc, &service)? {
        return Err("another answer, or something is lost or doubled")?;
    }
    Ok(ended)
}

/// How many calls of a disk a pass makes before none fails.
fn failures_of(alloc: Global, which: Which) -> Result<u64, Fail> {
    for call in 1..CALLS {
        if fail_once(alloc, which, call)? {
            return Ok(call - 1);
        }
    }
    Err("no end")?
}

#[test]
fn a_pass_goes_on_behind_each_failure_of_each_disk(rt: HostRuntime) -> Result<(), Fail> {
    for disk in 0..DISKS {
        let failures = failures_of(rt.alloc(), Which(disk))?;
        assert!(rt; failures > 10, "disk {disk}");
    }
    Ok(())
}

/// The call of the source that fails alone; whether the pass came to its end without it.
fn fail_source(alloc: Global, call: u64) -> Result<bool, Fail> {
    let mut service = Service::empty(alloc, 2)?;
    let (status, lines) = pass(alloc, &[call], &mut service)?;
    if !goes_on(alloc, &service)? {
        return Err("something is lost or doubled")?;
    }
    if !is_answer(status, lines, 4) {
        return Err("another answer")?;
    }
    Ok(lines)
}

/// How many calls of the source a pass makes before none fails.
fn source_failures(alloc: Global) -> Result<u64, Fail> {
    for call in 1..CALLS {
        if fail_source(alloc, call)? {
            return Ok(call - 1);
        }
    }
    Err("no end")?
}

#[test]
fn a_pass_goes_on_behind_each_failure_of_its_source(rt: HostRuntime) -> Result<(), Fail> {
    let failures = source_failures(rt.alloc())?;
    assert!(rt; failures > 2, "{failures} calls");
    Ok(())
}
