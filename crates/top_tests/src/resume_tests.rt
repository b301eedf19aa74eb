//! Passes that go on from what the last one kept: from where they read, what they keep, and what they refuse.

use crate::expected::printed;
use crate::listing::{ONE_FILE, SHORT_SLOT};
use crate::nodes::{node_failing, nodes_of};
use crate::pass_table::{gives, passes};
use crate::passing::{PLAIN, Settings, run};
use crate::service::{Service, disk_failing, has_file, put};
use cdc_memory::MemSource;
use cdc_outside::DiskFile;
use cdc_samples::Log;
use std::alloc::Global;
use std::test::Fail;

/// A log with a branch that stays open, so that it is read again from behind the heartbeat.
const OPEN: &str = "H P(g1) B(10) P(g2) C(g1,10)";

// The first pass over it, and one over it with the other branch's commit behind it.
const FIRST: &str = "H P(g1) B(10) P(g2) C(g1,10)=0=binlog.000001 241 1=10:6731=";

const SECOND: &str = "H P(g1) B(10) P(g2) C(g1,10) C(g2,20)=0=binlog.000001 359 2=10:6731 20:6732=";

/// The slot of the first pass's checkpoint: number 4, 101 bytes; version 2, count 1, file 1 of 241 bytes, open; the key of timestamp
/// 10 and id `g1`; rotation 2^29; of one node entry 3, place 1:293, mark 10, no checksums, and the branch `g1` of floor 0 held.
const FIRST_POINT: &[u8] = b"\x01\x04\0\0\0\0\0\0\0\x65\0\0\0\0\0\0\0\
\x02\x01\0\0\0\0\0\0\0\x01\0\0\0\0\0\0\0\xf1\0\0\0\0\0\0\0\0\
\x0a\0\0\0\0\0\0\0\0\x02g1\0\0\0\x20\0\0\0\0\x01\0\
\x03\0\0\0\0\0\0\0\x01\0\0\0\x25\x01\0\0\0\0\0\0\x0a\0\0\0\0\0\0\0\0\
\x01\0\0\0\0\0\0\0\0\0\0\0\0\0\0\0\x01\0\0\0\x02g1\0";

/// That of the second: number 8, 85 bytes; count 2, file 1 of 359 bytes, the key of timestamp 20 and id `g2`; entry 6, place 1:603,
/// mark 20, no branch held.
const SECOND_POINT: &[u8] = b"\x01\x08\0\0\0\0\0\0\0\x55\0\0\0\0\0\0\0\
\x02\x02\0\0\0\0\0\0\0\x01\0\0\0\0\0\0\0\x67\x01\0\0\0\0\0\0\0\
\x14\0\0\0\0\0\0\0\0\x02g2\0\0\0\x20\0\0\0\0\x01\0\
\x06\0\0\0\0\0\0\0\x01\0\0\0\x5b\x02\0\0\0\0\0\0\x14\0\0\0\0\0\0\0\0\
\0\0\0\0\0\0\0\0";

/// Whether a pass gives what a line says, and reads its first node from this byte on.
fn passes_from(alloc: Global, service: &mut Service, row: &str, at: u64) -> Result<bool, Fail> {
    Ok(passes(alloc, &PLAIN, service, row)?.is_from(at))
}

/// Whether a pass gives what a line says.
fn is_right(alloc: Global, service: &mut Service, row: &str) -> Result<bool, Fail> {
    Ok(passes(alloc, &PLAIN, service, row)?.right)
}

#[test]
fn a_pass_reads_on_from_the_checkpoint(rt: HostRuntime) -> Result<(), Fail> {
    let mut service = Service::empty(rt.alloc(), 1)?;
    assert!(rt; passes_from(rt.alloc(), &mut service, FIRST, 0)?);
    assert!(rt; has_file(&mut service.task, DiskFile::SlotA, FIRST_POINT));
    assert!(rt; passes_from(rt.alloc(), &mut service, SECOND, 293)?);
    assert!(rt; has_file(&mut service.task, DiskFile::SlotA, FIRST_POINT));
    assert!(rt; has_file(&mut service.task, DiskFile::SlotB, SECOND_POINT));
    Ok(())
}

#[test]
fn logs_are_read_from_their_starts_for_an_output_that_is_behind(
    rt: HostRuntime,
) -> Result<(), Fail> {
    let mut service = Service::empty(rt.alloc(), 2)?;
    assert!(rt; passes_from(rt.alloc(), &mut service, FIRST, 0)?);
    service.outs.truncate(1);
    service.outs.push(disk_failing(rt.alloc(), &[])?)?;
    assert!(rt; passes_from(rt.alloc(), &mut service, SECOND, 0)?);
    Ok(())
}

// A node behind its checkpoint, and another number of nodes.
#[test]
fn logs_that_are_not_those_of_the_checkpoint_are_refused(rt: HostRuntime) -> Result<(), Fail> {
    let mut service = Service::empty(rt.alloc(), 1)?;
    assert!(rt; is_right(rt.alloc(), &mut service, FIRST)?);
    let mut nodes = node_of_front(rt.alloc(), OPEN, 200)?;
    let row = "=7==10:6731=kept node 1 behind 1:293 1:200";
    assert!(rt; gives(rt.alloc(), &PLAIN, &mut service, &mut nodes, row)?);
    let row = "H P(g1) B(10) P(g2) C(g1,10)|H=7==10:6731=kept task nodes 1 2";
    assert!(rt; is_right(rt.alloc(), &mut service, row)?);
    assert!(rt; passes_from(rt.alloc(), &mut service, SECOND, 293)?);
    Ok(())
}

/// A node whose log is the first so many bytes of these words' log.
fn node_of_front(alloc: Global, words: &str, count: usize) -> Result<Vec<MemSource>, Fail> {
    let log = Log::of(alloc, words)?;
    let front = log.bytes().get(..count).ok_or("a shorter log")?;
    Ok(node_failing(alloc, front, &[])?)
}

/// The slot of the checkpoint behind a branch in one file and its commit in the next one, which has checksums: number 4, 85 bytes;
/// count 1, file 1 of 241 bytes, the key of timestamp 10 and id `g1`; entry 3, place 2:215, mark 10, checksums of 4 bytes.
const CHECKSUM_POINT: &[u8] = b"\x01\x04\0\0\0\0\0\0\0\x55\0\0\0\0\0\0\0\
\x02\x01\0\0\0\0\0\0\0\x01\0\0\0\0\0\0\0\xf1\0\0\0\0\0\0\0\0\
\x0a\0\0\0\0\0\0\0\0\x02g1\0\0\0\x20\0\0\0\0\x01\0\
\x03\0\0\0\0\0\0\0\x02\0\0\0\xd7\0\0\0\0\0\0\0\x0a\0\0\0\0\0\0\0\x01\
\0\0\0\0\0\0\0\0";

#[test]
fn a_checkpoint_keeps_the_checksum_setting(rt: HostRuntime) -> Result<(), Fail> {
    let mut service = Service::empty(rt.alloc(), 1)?;
    let row = "H P(g1)/M F1 T(10)+ K(g1)+=0=binlog.000001 241 1=10:6731=";
    assert!(rt; is_right(rt.alloc(), &mut service, row)?);
    assert!(rt; has_file(&mut service.task, DiskFile::SlotA, CHECKSUM_POINT));
    Ok(())
}

/// The slot of a checkpoint of version 1: number 4, 77 bytes; count 1, file 1 of 241 bytes, the key of timestamp 10 and id `g1`; of
/// one node entry 3, place 1:349, mark 10, no checksums, no branch held.
const OLD_POINT: &[u8] = b"\x01\x04\0\0\0\0\0\0\0\x4d\0\0\0\0\0\0\0\
\x01\x01\0\0\0\0\0\0\0\x01\0\0\0\0\0\0\0\xf1\0\0\0\0\0\0\0\0\
\x0a\0\0\0\0\0\0\0\0\x02g1\x01\0\
\x03\0\0\0\0\0\0\0\x01\0\0\0\x5d\x01\0\0\0\0\0\0\x0a\0\0\0\0\0\0\0\0\
\0\0\0\0\0\0\0\0";

/// The slot of a Front of version 2: number 2, 54 bytes; count 2, file 1 of 359 bytes, open, first 1, passed 0, the key of timestamp
/// 20 and id `g2`.
const SECOND_FRONT: &[u8] = b"\x01\x02\0\0\0\0\0\0\0\x36\0\0\0\0\0\0\0\
\x02\x02\0\0\0\0\0\0\0\x01\0\0\0\0\0\0\0\x67\x01\0\0\0\0\0\0\0\
\x01\0\0\0\0\0\0\0\0\0\0\0\0\0\0\0\x14\0\0\0\0\0\0\0\0\x02g2";

/// A service whose output has this slot, and so many bytes of one transaction's file.
fn service_with(alloc: Global, slot: &[u8], length: usize) -> Result<Service, Fail> {
    let mut service = Service::empty(alloc, 1)?;
    let file = printed(alloc, "10:6731")?;
    let bytes = file.bytes().get(..length).ok_or("a shorter file")?;
    for out in &mut service.outs {
        put(out, DiskFile::Log(1), bytes)?;
        put(out, DiskFile::SlotA, slot)?;
    }
    Ok(service)
}

/// A service whose output has one transaction under a Front of version 1.
fn old_service(alloc: Global) -> Result<Service, Fail> {
    service_with(alloc, ONE_FILE, 241)
}

#[test]
fn records_of_the_first_version_are_gone_on_with(rt: HostRuntime) -> Result<(), Fail> {
    let mut service = old_service(rt.alloc())?;
    put(&mut service.task, DiskFile::SlotA, OLD_POINT)?;
    let row = "H P(g1) C(g1,10) P(g2) C(g2,20)=0=binlog.000001 359 2=10:6731 20:6732=";
    assert!(rt; passes_from(rt.alloc(), &mut service, row, 349)?);
    for out in &mut service.outs {
        assert!(rt; has_file(out, DiskFile::SlotB, SECOND_FRONT));
    }
    Ok(())
}

// Other transactions than those that were published, told by the layout under a Front of version 1, and by the key under one of
// version 2.
#[test]
fn an_output_of_other_transactions_is_refused(rt: HostRuntime) -> Result<(), Fail> {
    let mut old = old_service(rt.alloc())?;
    let row = "H P(g11) C(g11,10) P(g2) C(g2,20)=7==10:6731=kept out 1 differs 1:241 1:243";
    assert!(rt; is_right(rt.alloc(), &mut old, row)?);
    let mut service = Service::empty(rt.alloc(), 1)?;
    let row = "H P(g1) C(g1,10)=0=binlog.000001 241 1=10:6731=";
    assert!(rt; is_right(rt.alloc(), &mut service, row)?);
    service.task = disk_failing(rt.alloc(), &[])?;
    let row = "H P(g2) C(g2,10)=7==10:6731=kept out 1 key 10,0,6731 10,0,6732";
    assert!(rt; is_right(rt.alloc(), &mut service, row)?);
    Ok(())
}

/// Files close from 512 bytes on.
const LONGER_FILES: Settings<'static> = Settings {
    first: "rotation = 512\n",
    last: "",
};

#[test]
fn another_rotation_size_is_refused(rt: HostRuntime) -> Result<(), Fail> {
    let mut service = Service::empty(rt.alloc(), 1)?;
    let row = "H P(g1) C(g1,10)=0=binlog.000001 241 1=10:6731=";
    assert!(rt; is_right(rt.alloc(), &mut service, row)?);
    let row = "H P(g1) C(g1,10)=7==10:6731=kept task rotation 536870912 512";
    assert!(rt; passes(rt.alloc(), &LONGER_FILES, &mut service, row)?.right);
    Ok(())
}

/// Whether an output of this slot and file is refused with this line.
fn is_refused(alloc: Global, slot: &[u8], length: usize, line: &[u8]) -> Result<bool, Fail> {
    let mut service = service_with(alloc, slot, length)?;
    let mut nodes = nodes_of(alloc, "H P(g1) C(g1,10)")?;
    let seen = run(alloc, &PLAIN, &mut service, &mut nodes)?;
    Ok(seen.is(7, b"", line))
}

// A slot that is cut short, and a file that is shorter than its Front says.
#[test]
fn an_output_that_is_broken_is_refused(rt: HostRuntime) -> Result<(), Fail> {
    let line = b"cdc: kept out 1 bad cell\n";
    assert!(rt; is_refused(rt.alloc(), SHORT_SLOT, 0, line)?);
    let line = b"cdc: kept out 1 bad front 241 240\n";
    assert!(rt; is_refused(rt.alloc(), ONE_FILE, 240, line)?);
    Ok(())
}
