//! Passes over logs of two windows, and outputs between their units and their records, whose devices stop or fail.

use crate::call::Seen;
use crate::expected::printed;
use crate::nodes::{node_failing, nodes_of};
use crate::pass_table::{gives, passes};
use crate::passing::{PLAIN, Settings, call_by, run};
use crate::service::{Service, disk_failing, disk_stopping, has_file};
use crate::untold_disk::UntoldDisk;
use cdc_outside::DiskFile;
use cdc_samples::Log;
use std::alloc::Global;
use std::test::Fail;

/// A pass has fewer calls of each device.
const CALLS: u64 = 400;

/// A pass over one transaction.
const ONE_PASS: &str = "H P(g1) C(g1,10)=0=binlog.000001 241 1=10:6731=";

/// What an output lists that has published none, this one, and another one behind it.
const NONE: &[u8] = b"out 1 - 0 0\n";

const ONE: &[u8] = b"1 binlog.000001 241\nout 1 binlog.000001 241 1\n";

const TWO: &[u8] = b"1 binlog.000001 359\nout 1 binlog.000001 359 2\n";

/// A service of this output before so many empty ones.
fn service_before(alloc: Global, out: UntoldDisk, others: usize) -> Result<Service, Fail> {
    let mut service = Service::empty(alloc, others)?;
    service.outs.insert(0, out)?;
    Ok(service)
}

/// How many transactions this list has.
fn count_in(seen: &Seen) -> Result<u64, Fail> {
    if seen.is(0, NONE, b"") {
        return Ok(0);
    }
    if seen.is(0, ONE, b"") {
        return Ok(1);
    }
    if seen.is(0, TWO, b"") {
        return Ok(2);
    }
    Err("another list")?
}

/// How many of these transactions an output lists.
fn count_of(alloc: Global, service: &mut Service) -> Result<u64, Fail> {
    let mut nodes = nodes_of(alloc, "")?;
    let seen = call_by(alloc, "list c", &PLAIN, service, &mut nodes)?;
    count_in(&seen)
}

/// Whether this output's file 1 has all bytes of the transaction.
fn has_unit(alloc: Global, service: &mut Service, out: usize) -> Result<bool, Fail> {
    let file = printed(alloc, "10:6731")?;
    let Some(out) = service.outs.get_mut(out) else {
        return Ok(false);
    };
    Ok(has_file(out, DiskFile::Log(1), file.bytes()))
}

/// What a crash of an output leaves: of how many outcomes the unit is whole, and in how many it is published.
#[derive(Clone, Copy)]
struct Left {
    whole: u64,
    published: u64,
}

impl Left {
    fn is(&self, whole: u64, published: u64) -> bool {
        self.whole == whole && self.published == published
    }
}

/// What one outcome of a crash leaves. A pass behind it publishes the transaction.
fn left_by(alloc: Global, service: &Service, pick: u8) -> Result<Left, Fail> {
    let mut left = service.after_crash(alloc, pick)?;
    let whole = has_unit(alloc, &mut left, 0)?;
    let published = count_of(alloc, &mut left)?;
    if !passes(alloc, &PLAIN, &mut left, ONE_PASS)?.right {
        return Err("something is lost or doubled")?;
    }
    Ok(Left {
        whole: u64::from(whole),
        published,
    })
}

/// What a crash of an output leaves, over all outcomes.
fn crash(alloc: Global, service: &Service) -> Result<Left, Fail> {
    let mut whole = 0u64;
    let mut published = 0u64;
    for pick in 0..4_u8 {
        let left = left_by(alloc, service, pick)?;
        whole = whole.saturating_add(left.whole);
        published = published.saturating_add(left.published);
    }
    Ok(Left { whole, published })
}

/// How a pass whose device stops or fails ended: whether it came to its end, or told so with nothing written.
#[derive(Clone, Copy)]
struct Ended {
    well: bool,
    told: bool,
}

/// How this ended, with this status and line where it didn't end well.
fn ended_by(seen: &Seen, status: u8, line: &[u8]) -> Ended {
    Ended {
        well: seen.status == 0,
        told: seen.is(status, b"", line),
    }
}

/// A pass over one transaction, and how it ended.
fn run_one(alloc: Global, service: &mut Service) -> Result<Ended, Fail> {
    let mut nodes = nodes_of(alloc, "H P(g1) C(g1,10)")?;
    let seen = run(alloc, &PLAIN, service, &mut nodes)?;
    Ok(ended_by(&seen, 5, b"cdc: disk out 1\n"))
}

/// A pass over one transaction whose output stops at this call, and what a crash behind it leaves.
fn stop_one(alloc: Global, call: u64) -> Result<(Ended, Left), Fail> {
    let mut service = service_before(alloc, disk_stopping(alloc, call)?, 0)?;
    let ended = run_one(alloc, &mut service)?;
    Ok((ended, crash(alloc, &service)?))
}

// At some stops the unit is durable and its record isn't: no outcome of a crash has the transaction.
#[test]
fn a_unit_without_its_record_is_not_published(rt: HostRuntime) -> Result<(), Fail> {
    let mut between = 0u64;
    for call in 1..CALLS {
        let (ended, left) = stop_one(rt.alloc(), call)?;
        if ended.well {
            assert!(rt; left.is(4, 4) && between > 0, "{between} stops");
            return Ok(());
        }
        assert!(rt; ended.told, "call {call}");
        assert!(rt; left.published == 0 || left.whole == 4, "call {call}");
        between = between.saturating_add(u64::from(left.is(4, 0)));
    }
    Err("no end")?
}

/// A pass over two outputs, the first one of which fails at this call: how it ended, and whether the second one has the transaction.
/// Where it didn't end well, a pass behind it publishes to both.
fn fail_beside(alloc: Global, call: u64) -> Result<(Ended, bool), Fail> {
    let mut service = service_before(alloc, disk_failing(alloc, &[call])?, 1)?;
    let ended = run_one(alloc, &mut service)?;
    let whole = has_unit(alloc, &mut service, 1)?;
    if !ended.well && !passes(alloc, &PLAIN, &mut service, ONE_PASS)?.right {
        return Err("the next pass doesn't publish to both")?;
    }
    Ok((ended, whole))
}

// One call of the first output's disk fails: the second has all that the pass published before, and a next pass brings both to the
// same.
#[test]
fn an_output_goes_on_beside_one_that_failed(rt: HostRuntime) -> Result<(), Fail> {
    let mut beside = 0u64;
    for call in 1..CALLS {
        let (ended, whole) = fail_beside(rt.alloc(), call)?;
        if ended.well {
            assert!(rt; beside > 3, "{beside} calls");
            return Ok(());
        }
        assert!(rt; ended.told, "call {call}");
        assert!(rt; whole || beside == 0, "call {call}");
        beside = beside.saturating_add(u64::from(whole));
    }
    Err("no end")?
}

/// Windows of 4,096 bytes.
const SHORT_WINDOWS: Settings<'static> = Settings {
    first: "window = 4096\n",
    last: "",
};

/// A log of two windows, each of which settles a transaction: between them is an event of 4,019 bytes that says nothing.
fn log_of_two_windows(alloc: Global) -> Result<Log, Fail> {
    let mut log = Log::of(alloc, "H P(g1) C(g1,10)")?;
    log.push_event(3, &[0; 4_000], &[])?;
    log.push(Log::of(alloc, "P(g2) C(g2,20)")?.bytes())?;
    Ok(log)
}

/// A pass over it, with a source whose calls fail so.
fn run_windows(alloc: Global, fails: &[u64], service: &mut Service) -> Result<Seen, Fail> {
    let log = log_of_two_windows(alloc)?;
    let mut nodes = node_failing(alloc, log.bytes(), fails)?;
    run(alloc, &SHORT_WINDOWS, service, &mut nodes)
}

/// Whether a pass behind it publishes both transactions.
fn both_follow(alloc: Global, service: &mut Service) -> Result<bool, Fail> {
    let log = log_of_two_windows(alloc)?;
    let mut nodes = node_failing(alloc, log.bytes(), &[])?;
    let row = "=0=binlog.000001 359 2=10:6731 20:6732=";
    gives(alloc, &SHORT_WINDOWS, service, &mut nodes, row)
}

/// The slot of the first window's checkpoint: number 4, 85 bytes; version 2, count 1, file 1 of 241 bytes, open; the key of timestamp
/// 10 and id `g1`; rotation 2^29; of one node entry 3, place 1:349, mark 10, no checksums, no branch held.
const WINDOW_POINT: &[u8] = b"\x01\x04\0\0\0\0\0\0\0\x55\0\0\0\0\0\0\0\
\x02\x01\0\0\0\0\0\0\0\x01\0\0\0\0\0\0\0\xf1\0\0\0\0\0\0\0\0\
\x0a\0\0\0\0\0\0\0\0\x02g1\0\0\0\x20\0\0\0\0\x01\0\
\x03\0\0\0\0\0\0\0\x01\0\0\0\x5d\x01\0\0\0\0\0\0\x0a\0\0\0\0\0\0\0\0\
\0\0\0\0\0\0\0\0";

/// The slot of a checkpoint of nothing: number 1, 83 bytes; count 0, file 0; the key before all others; rotation 2^29; of one node
/// entry 1, place 1:0, mark 0, no checksums, no branch held.
const START_POINT: &[u8] = b"\x01\x01\0\0\0\0\0\0\0\x53\0\0\0\0\0\0\0\
\x02\0\0\0\0\0\0\0\0\0\0\0\0\0\0\0\0\0\0\0\0\0\0\0\0\0\
\0\0\0\0\0\0\0\0\0\0\0\0\0\x20\0\0\0\0\x01\0\
\x01\0\0\0\0\0\0\0\x01\0\0\0\0\0\0\0\0\0\0\0\0\0\0\0\0\0\0\0\0\
\0\0\0\0\0\0\0\0";

/// Whether the task has the first window's checkpoint, or that of nothing, or none.
fn has_point(service: &mut Service) -> Result<bool, Fail> {
    if has_file(&mut service.task, DiskFile::SlotA, WINDOW_POINT) {
        return Ok(true);
    }
    for slot in [b"".as_slice(), START_POINT] {
        if has_file(&mut service.task, DiskFile::SlotA, slot) {
            return Ok(false);
        }
    }
    Err("another checkpoint")?
}

/// How many transactions are listed behind a pass over two windows that didn't end well. A pass behind it publishes both.
fn count_before_both(alloc: Global, service: &mut Service) -> Result<u64, Fail> {
    let count = count_of(alloc, service)?;
    if !both_follow(alloc, service)? {
        return Err("the next pass doesn't publish both")?;
    }
    Ok(count)
}

/// How a pass over two windows ended, whether the task had the first one's checkpoint, and how many transactions were listed; where
/// it ended well, neither was looked at.
#[derive(Clone, Copy)]
struct Windows {
    ended: Ended,
    point: bool,
    count: u64,
}

/// A pass over two windows that ended well.
const WELL: Windows = Windows {
    ended: Ended {
        well: true,
        told: false,
    },
    point: false,
    count: 0,
};

/// A pass over two windows whose source fails at this call.
fn fail_windows(alloc: Global, call: u64) -> Result<Windows, Fail> {
    let mut service = Service::empty(alloc, 1)?;
    let seen = run_windows(alloc, &[call], &mut service)?;
    let ended = ended_by(&seen, 4, b"cdc: read node 1\n");
    if ended.well {
        return Ok(WELL);
    }
    let point = has_point(&mut service)?;
    let count = count_before_both(alloc, &mut service)?;
    Ok(Windows {
        ended,
        point,
        count,
    })
}

// The call that fails is one before any byte, or a read: of the second window's the first window is published, with its checkpoint.
#[test]
fn what_a_window_settled_is_published_though_the_next_is_not_read(
    rt: HostRuntime,
) -> Result<(), Fail> {
    let mut behind = 0u64;
    for call in 1..CALLS {
        let windows = fail_windows(rt.alloc(), call)?;
        if windows.ended.well {
            assert!(rt; behind > 0, "{behind} calls");
            return Ok(());
        }
        assert!(rt; windows.ended.told, "call {call}");
        assert!(rt; windows.point == (windows.count > 0), "call {call}");
        behind = behind.saturating_add(windows.count);
    }
    Err("no end")?
}

/// How many transactions are listed behind the least outcome of a crash. A pass behind it publishes both.
fn count_left(alloc: Global, service: &Service) -> Result<u64, Fail> {
    let mut left = service.after_crash(alloc, 0)?;
    count_before_both(alloc, &mut left)
}

/// A pass over two windows whose output stops at this call; the list is that behind a crash.
fn stop_windows(alloc: Global, call: u64) -> Result<Windows, Fail> {
    let mut service = service_before(alloc, disk_stopping(alloc, call)?, 0)?;
    let seen = run_windows(alloc, &[], &mut service)?;
    let ended = ended_by(&seen, 5, b"cdc: disk out 1\n");
    if ended.well {
        return Ok(WELL);
    }
    let point = has_point(&mut service)?;
    let count = count_left(alloc, &service)?;
    Ok(Windows {
        ended,
        point,
        count,
    })
}

// Where the output stops in the second window, the task has the first one's checkpoint; where it stops before, it has none.
#[test]
fn a_window_keeps_its_checkpoint_though_the_output_stops_in_the_next(
    rt: HostRuntime,
) -> Result<(), Fail> {
    let mut before = 0u64;
    let mut behind = 0u64;
    for call in 1..CALLS {
        let windows = stop_windows(rt.alloc(), call)?;
        if windows.ended.well {
            assert!(rt; before > 3 && behind > 3, "{before} and {behind} stops");
            return Ok(());
        }
        assert!(rt; windows.ended.told, "call {call}");
        assert!(rt; !windows.point || windows.count > 0, "call {call}");
        assert!(rt; windows.point || behind == 0, "call {call}");
        behind = behind.saturating_add(u64::from(windows.point));
        before = before.saturating_add(u64::from(!windows.point));
    }
    Err("no end")?
}
