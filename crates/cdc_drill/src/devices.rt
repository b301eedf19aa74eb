//! The devices of an attempt: a source a node, and disks that have nothing.

ghost use Rattle.std.specs.Prelude.{◌≡◌, ◌≤◌, ◌^◌, ℕ, List, [], ◌∷◌, length, map, IfOk};
ghost use Rattle.std.specs.List.{AllByRecursion};
ghost use Rattle.cdc_memory.specs.MemDisk.{start_of, steps_of};
ghost use Rattle.cdc_memory.specs.Source.{pure_held_files};
ghost use Rattle.cdc_drill.specs.Attempts.{IsBlankDisk, IsShortLog, one_file_each};

use crate::sizes::Sizes;
use cdc_base::{Blob, Memory};
use cdc_gen::LogList;
use cdc_memory::{MemDisk, PureSource};
use std::alloc::Global;

/// A source of one file, its bytes shared.
fn source_of(alloc: Global, log: &Blob) -> Result<PureSource, Memory>
    requires { IsShortLog log.now }
    ensures { IfOk result (λ source. pure_held_files source ≡ log.now ∷ []) }
{
    PureSource::new(alloc, &[log.share()?])
}

/// A source a node, of one log file each.
fn sources_of(alloc: Global, logs: &[Blob]) -> Result<Vec<PureSource>, Memory>
    requires { AllByRecursion IsShortLog logs.now }
    ensures { IfOk result (λ sources. map pure_held_files sources.items ≡ one_file_each logs.now) }
{
    let mut sources = Vec::with_capacity(alloc, logs.len())?;
    for log in logs {
        sources.push(source_of(alloc, log)?)?;
    }
    Ok(sources)
}

/// A disk that has nothing, with room for so many log files of so many bytes, and for so many changes.
fn fresh_disk(alloc: Global, files: u64, room: usize, changes: usize) -> Result<MemDisk, Memory>
    ensures { IfOk result IsBlankDisk }
{
    MemDisk::new(alloc, files, room, changes, &[])
}

/// The devices of an attempt.
#[derive(Debug, Drop)]
pub(crate) struct Devices {
    /// One source a node.
    pub nodes: Vec<PureSource>,
    /// The one output.
    pub outs: Vec<MemDisk>,
    pub task: MemDisk,
}

/// One output that has nothing.
fn one_out(alloc: Global, sizes: &Sizes) -> Result<Vec<MemDisk>, Memory>
    ensures fresh { IfOk result (λ outs. AllByRecursion IsBlankDisk outs.items) }
    ensures one { IfOk result (λ outs. length outs.items ≡ 1) }
{
    let mut outs = Vec::new(alloc);
    outs.push(fresh_disk(alloc, sizes.files, sizes.room, sizes.changes)?)?;
    Ok(outs)
}

/// A source a node, an output and a task that have nothing.
pub(crate) fn devices_of(alloc: Global, logs: &LogList, sizes: &Sizes) -> Result<Devices, Memory>
    requires { AllByRecursion IsShortLog logs.now }
    ensures held { IfOk result (λ devices. map pure_held_files devices.nodes.items ≡ one_file_each logs.now) }
    ensures fresh { IfOk result (λ devices. AllByRecursion IsBlankDisk devices.outs.items) }
    ensures one { IfOk result (λ devices. length devices.outs.items ≡ 1) }
    ensures task { IfOk result (λ devices. IsBlankDisk devices.task) }
{
    Ok(Devices {
        nodes: sources_of(alloc, logs.as_slice())?,
        outs: one_out(alloc, sizes)?,
        task: fresh_disk(alloc, 0, sizes.room, sizes.stores)?,
    })
}
