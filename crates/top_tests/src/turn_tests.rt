//! Whose turn it is, by the schedule.

use crate::clocked_source::ClockedSource;
use crate::nodes::source_of;
use crate::service::disk_failing;
use crate::untold_disk::UntoldDisk;
use cdc_config::plan_of;
use cdc_gen::logs_of;
use cdc_memory::{MemDisk, MemSource};
use cdc_opening::Outcome;
use cdc_outside::{Disk, DiskFile, Failed};
use cdc_pass::run;
use std::alloc::Global;
use std::sync::Arc;
use std::sync::atomic::AtomicU64;
use std::test::Fail;

/// Two nodes, one output.
const CONFIG: &[u8] =
    b"window = 1048576\n[[node]]\nfiles = [\"n1\"]\n[[node]]\nfiles = [\"n2\"]\n[[out]]\nfolder = \"o\"\n[task]\nfolder = \"t\"\n";

/// The output's one file has fewer bytes.
const ROOM: usize = 500_000;

/// Two nodes with 1,000 transactions on both, and a local one behind each hundred.
fn clocked_nodes(alloc: Global) -> Result<Vec<ClockedSource<MemSource>>, Fail> {
    let reads = Arc::new(alloc, AtomicU64::new(0))?;
    let logs = logs_of(alloc, 7, 2, 1_000)?;
    let mut nodes = Vec::new(alloc);
    for log in logs.as_slice() {
        let source = source_of(alloc, log.bytes(), &[])?;
        nodes.push(ClockedSource::new(source, Arc::try_clone(&reads)?))?;
    }
    Ok(nodes)
}

/// What a pass came to: whether it was done, the number of each node's first read, and the output's file.
#[derive(Drop)]
struct Passed {
    done: bool,
    firsts: Vec<u64>,
    file: Vec<u8>,
}

/// All bytes of an output's first file.
fn file_of(alloc: Global, out: &mut UntoldDisk) -> Result<Vec<u8>, Fail> {
    let mut file = vec![in alloc; 0u8; ROOM]?;
    match out.read_at(DiskFile::Log(1), 0, file.as_mut_slice()) {
        Ok(read) => file.truncate(read),
        Err(Failed) => return Err("no file")?,
    }
    Ok(file)
}

/// One empty output.
fn outs_of(alloc: Global) -> Result<Vec<UntoldDisk>, Fail> {
    let disk = MemDisk::new(alloc, 2, ROOM, 4_000, &[])?;
    let mut outs = Vec::new(alloc);
    outs.push(UntoldDisk { disk })?;
    Ok(outs)
}

/// Whether a pass over these nodes, whose schedule has 1,000 times the same number, is done.
fn is_done(
    alloc: Global,
    nodes: &mut Vec<ClockedSource<MemSource>>,
    outs: &mut Vec<UntoldDisk>,
    turn: u32,
) -> Result<bool, Fail> {
    let Ok(plan) = plan_of(alloc, CONFIG) else {
        return Err("no plan")?;
    };
    if nodes.len() != plan.nodes as usize || outs.len() != plan.outs as usize {
        return Err("another plan")?;
    }
    let mut task = disk_failing(alloc, &[])?;
    let schedule = vec![in alloc; turn; 1_000]?;
    let outcome = run(alloc, &plan, nodes, outs, &mut task, schedule.as_slice());
    Ok(outcome == Outcome::Done)
}

/// The number of each node's first read, `u64::MAX` where it had none.
fn firsts_of(alloc: Global, nodes: &Vec<ClockedSource<MemSource>>) -> Result<Vec<u64>, Fail> {
    let mut firsts = Vec::new(alloc);
    for node in nodes {
        firsts.push(node.first().unwrap_or(u64::MAX))?;
    }
    Ok(firsts)
}

/// A pass whose schedule has 1,000 times the same number.
fn pass_by(alloc: Global, turn: u32) -> Result<Passed, Fail> {
    let mut nodes = clocked_nodes(alloc)?;
    let mut outs = outs_of(alloc)?;
    let done = is_done(alloc, &mut nodes, &mut outs, turn)?;
    let firsts = firsts_of(alloc, &nodes)?;
    let Some(out) = outs.get_mut(0) else {
        return Err("no output")?;
    };
    let file = file_of(alloc, out)?;
    Ok(Passed { done, firsts, file })
}

#[test]
fn the_schedule_says_who_reads_first(rt: HostRuntime) -> Result<(), Fail> {
    let first = pass_by(rt.alloc(), 0)?;
    let second = pass_by(rt.alloc(), 1)?;
    assert!(rt; first.done && second.done);
    assert!(rt; first.firsts.as_slice() == [0, 1].as_slice());
    assert!(rt; second.firsts.as_slice() == [1, 0].as_slice());
    assert!(rt; first.file.len() == 282_263 && first.file.as_slice() == second.file.as_slice());
    Ok(())
}
