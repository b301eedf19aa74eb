//! The jobs of outputs: made of what was opened, and taken apart again.

ghost use Rattle.std.specs.Prelude.{◌≡◌, ◌+◌, ◌≤◌, ◌++◌, [], length, vec_capacity, IfOk, OnOk, OnErr};
ghost use Rattle.std.specs.List.{AllZip};
ghost use Rattle.cdc_dump_stage.specs.Disks.{disk_words};
ghost use Rattle.cdc_opening.specs.Lists.{AllThree};
ghost use Rattle.cdc_windows.specs.Jobs.{IsReadyOut, IsJobOf};
ghost use Rattle.cdc_windows.specs.Windows.{disks_of};

use cdc_base::{Key, Memory};
use cdc_dump_stage::{DumpJob, DumpStage};
use cdc_dumper::Dumper;
use cdc_outside::Disk;
use std::alloc::Global;

// The same start once more.
fn same_start(start: &Option<(u64, Key)>) -> Option<(u64, Key)>
    ensures { result ≡ start.now }
{
    match start {
        Some((count, key)) => Some((*count, *key)),
        None => None,
    }
}

/// The jobs of outputs that were opened, in order, where the pass goes on from a checkpoint with this count and last key, or
/// from none. It takes memory for their list; where there is none, dumpers and outputs stay where they are.
pub fn dump_jobs<D: Disk>(
    alloc: Global,
    dumpers: &mut Vec<Dumper>,
    outs: &mut Vec<D>,
    start: Option<(u64, Key)>,
) -> Result<Vec<DumpJob<D>>, Memory>
    requires many { length dumpers.old.items ≡ length outs.old.items }
    requires ready { AllZip (IsReadyOut (disk_words D.tells D.seen D.synced D.pending D.may_leave D.moment D.left_since D.faults)) dumpers.old.items outs.old.items }
    ensures jobs { IfOk result (λ jobs. AllThree (IsJobOf start) dumpers.old.items outs.old.items jobs.items) }
    ensures taken { OnOk result ((dumpers.new.items ≡ []) × (outs.new.items ≡ [])) }
    ensures kept { OnErr result ((dumpers.new.items ≡ dumpers.old.items) × (outs.new.items ≡ outs.old.items)) }
    ensures room { vec_capacity outs.new ≡ vec_capacity outs.old }
{
    let Ok(mut jobs) = Vec::with_capacity(alloc, outs.len()) else {
        return Err(Memory);
    };
    while !outs.is_empty() {
        let stage = DumpStage::new(dumpers.remove(0), same_start(&start));
        let job = DumpJob::new(stage, outs.remove(0));
        jobs.push_reserved(job);
    }
    Ok(jobs)
}

/// Gives the disks of jobs back, in order. It takes no memory.
pub fn give_back<D: Disk>(mut jobs: Vec<DumpJob<D>>, outs: &mut Vec<D>)
    requires { length outs.old.items + length jobs.items ≤ vec_capacity outs.old }
    ensures { outs.new.items ≡ outs.old.items ++ disks_of jobs.items }
{
    while !jobs.is_empty() {
        let (_stage, disk) = jobs.remove(0).into_parts();
        outs.push_reserved(disk);
    }
}
