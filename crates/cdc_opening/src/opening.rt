//! The opening of a pass.

ghost use Rattle.std.specs.Prelude.{◌≡◌, ◌↔◌, ℕ, ◌≤◌, false, IsTrue, length, map, IfOk, IfErr, IfSome, OnOk, Ok, Err};
ghost use Rattle.std.specs.List.{AllZip};
ghost use Rattle.cdc_outside.specs.Count.{Rose};
ghost use Rattle.cdc_outside.specs.Disk.{IsDurable};
ghost use Rattle.cdc_cell.specs.Cell.{has_failed};
ghost use Rattle.cdc_records.specs.Checkpoint.{IsPoint};
ghost use Rattle.cdc_task.specs.Task.{FitsPlan, GoesOnFrom, IsOpened};
ghost use Rattle.cdc_opening.specs.Answers.{AnswersDisks, AnswersLogs, published_counts, used_point};
ghost use Rattle.std.specs.Option.{option_copied};
ghost use Rattle.cdc_opening.specs.Lists.{AllThree, DeviceRoseAt};
ghost use Rattle.cdc_opening.specs.OpenOuts.{IsOutOpened, IsOutKept};
ghost use Rattle.cdc_opening.specs.OpenSources.{CanReadFrom, IsSourceKept};
ghost use Rattle.cdc_opening.specs.TaskAnswers.{IsTaskAnswer, IsDisksAnswer, IsTaskKept};

use crate::opened::Opened;
use crate::outcome::Outcome;
use crate::outs::open_outs;
use crate::sources::open_sources;
use cdc_cell::Cell;
use cdc_dumper::Dumper;
use cdc_outside::{Disk, Source};
use cdc_records::Checkpoint;
use cdc_task::{Start, TaskFault, load, resume};
use std::alloc::Global;

// Opens the task's disk.
fn open_task<D: Disk>(
    alloc: Global,
    task: &mut D,
    nodes: u32,
    rotation: u64,
) -> Result<(Cell, Option<Checkpoint>), Outcome>
    ensures opened { IsTrue D.tells → IfOk result (λ opened. IsOpened (D.seen task.old) nodes rotation opened.0 opened.1) }
    ensures sound { IfOk result (λ opened. IfSome opened.1 IsPoint) }
    ensures fits { IfOk result (λ opened. FitsPlan nodes rotation opened.1) }
    ensures works { IfOk result (λ opened. has_failed opened.0 ≡ false) }
    ensures durable { IsTrue D.tells → OnOk result (IsDurable (D.seen task.new) (D.synced task.new) (D.pending task.new)) }
    ensures refused { IfErr result (λ e. IsTaskAnswer D.tells (D.seen task.old) nodes rotation e) }
    ensures kept { IsTaskKept D.tells D.seen D.may_leave D.moment D.left_since D.faults task.old task.new }
    ensures failed { result ≡ Err Outcome.TaskDisk → Rose (D.faults task.old) (D.faults task.new) }
{
    match load(alloc, task, nodes, rotation) {
        Ok(opened) => Ok(opened),
        Err(TaskFault::DiskFault) => Err(Outcome::TaskDisk),
        Err(TaskFault::Memory) => Err(Outcome::Memory),
        Err(fault) => Err(Outcome::Task(fault)),
    }
}

// How many transactions each output has published.
fn counts_of(alloc: Global, dumpers: &[Dumper]) -> Result<Vec<u64>, Outcome>
    ensures counts { IfOk result (λ counts. counts.items ≡ published_counts dumpers.now) }
    ensures refused { IfErr result (λ e. e ≡ Outcome.Memory) }
{
    let Ok(mut counts) = Vec::with_capacity(alloc, dumpers.len()) else {
        return Err(Outcome::Memory);
    };
    for dumper in dumpers {
        let Ok(()) = counts.push(dumper.published().count) else {
            return Err(Outcome::Memory);
        };
    }
    Ok(counts)
}

// From where a pass goes on over these outputs.
fn start_of(alloc: Global, dumpers: &[Dumper], kept: Option<&Checkpoint>) -> Result<Start, Outcome>
    ensures start { IfOk result (λ start. (start ≡ Start.Cut) ↔ GoesOnFrom (option_copied kept.entry) (published_counts dumpers.now)) }
    ensures refused { IfErr result (λ e. e ≡ Outcome.Memory) }
{
    match counts_of(alloc, dumpers) {
        Ok(counts) => Ok(resume(kept, &counts)),
        Err(outcome) => Err(outcome),
    }
}

// Opens the outputs and the task, in this order.
fn open_disks<D: Disk>(
    alloc: Global,
    nodes: u32,
    rotation: u64,
    outs: &mut [D],
    task: &mut D,
) -> Result<Opened, Outcome>
    requires { length outs.old ≤ 4 }
    ensures opened { IfOk result (λ opened. AllThree (IsOutOpened D.tells D.seen D.synced D.pending) outs.old opened.dumpers.items outs.new) }
    ensures task { IsTrue D.tells → IfOk result (λ opened. IsOpened (D.seen task.old) nodes rotation opened.cell opened.kept) }
    ensures sound { IfOk result (λ opened. IfSome opened.kept IsPoint) }
    ensures fits { IfOk result (λ opened. FitsPlan nodes rotation opened.kept) }
    ensures works { IfOk result (λ opened. has_failed opened.cell ≡ false) }
    ensures durable { IsTrue D.tells → OnOk result (IsDurable (D.seen task.new) (D.synced task.new) (D.pending task.new)) }
    ensures start { IfOk result (λ opened. (opened.start ≡ Start.Cut) ↔ GoesOnFrom opened.kept (published_counts opened.dumpers.items)) }
    ensures refused { IfErr result (λ e. IsDisksAnswer D.tells (map D.seen outs.old) (D.seen task.old) nodes rotation e) }
    ensures outs_kept { AllZip (IsOutKept D.tells D.seen D.may_leave D.moment D.left_since D.faults) outs.old outs.new }
    ensures task_kept { IsTaskKept D.tells D.seen D.may_leave D.moment D.left_since D.faults task.old task.new }
    ensures out_failed { (number : ℕ) → result ≡ Err (Outcome.Disk number) → DeviceRoseAt (map D.faults outs.old) (map D.faults outs.new) number }
    ensures task_failed { result ≡ Err Outcome.TaskDisk → Rose (D.faults task.old) (D.faults task.new) }
{
    let dumpers = match open_outs(alloc, outs) {
        Ok(dumpers) => dumpers,
        Err(outcome) => return Err(outcome),
    };
    let (cell, kept) = match open_task(alloc, task, nodes, rotation) {
        Ok(opened) => opened,
        Err(outcome) => return Err(outcome),
    };
    let start = match start_of(alloc, &dumpers, kept.as_ref()) {
        Ok(start) => start,
        Err(outcome) => return Err(outcome),
    };
    Ok(Opened {
        dumpers,
        cell,
        kept,
        start,
    })
}

/// Opens a pass: each output, in order; then the task; then each source, in order. The answer is the first refusal.
///
/// An output is refused (`Open`) where its slots or its Front's file are, the task (`Task`) where its record is or isn't of
/// this plan. Where the kept checkpoint has no more transactions than each output, the pass goes on from it, and a node is
/// refused (`Behind`) where its log ends before its restart point. `Disk`, `TaskDisk` and `Read` come only where that
/// device's count rose. What was opened before a refusal stays opened: nothing that an output keeps is lost, the task and the
/// sources are as they were. It takes memory for the lists of dumpers and counts, and for the checkpoint.
pub fn open_pass<S: Source, D: Disk>(
    alloc: Global,
    rotation: u64,
    nodes: &mut [S],
    outs: &mut [D],
    task: &mut D,
) -> Result<Opened, Outcome>
    requires few_nodes { length nodes.old ≤ 256 }
    requires few_outs { length outs.old ≤ 4 }

    // Which answer comes, by what the disks and the sources hold.
    ensures disks { IsTrue D.tells → AnswersDisks (map D.seen outs.old) (D.seen task.old) (length nodes.old) rotation result }
    ensures logs { IsTrue D.tells → IsTrue S.tells → AnswersLogs (map D.seen outs.old) (D.seen task.old) (map S.held nodes.old) result }
    ensures out_failed { (number : ℕ) → result ≡ Err (Outcome.Disk number) → DeviceRoseAt (map D.faults outs.old) (map D.faults outs.new) number }
    ensures task_failed { result ≡ Err Outcome.TaskDisk → Rose (D.faults task.old) (D.faults task.new) }
    ensures node_failed { (number : ℕ) → result ≡ Err (Outcome.Read number) → DeviceRoseAt (map S.faults nodes.old) (map S.faults nodes.new) number }

    // What is opened: the outputs as their dumpers want them, the task's cell and its checkpoint, from where the pass goes on.
    ensures opened { IfOk result (λ opened. AllThree (IsOutOpened D.tells D.seen D.synced D.pending) outs.old opened.dumpers.items outs.new) }
    ensures task { IsTrue D.tells → IfOk result (λ opened. IsOpened (D.seen task.old) (length nodes.old) rotation opened.cell opened.kept) }
    ensures durable { IsTrue D.tells → OnOk result (IsDurable (D.seen task.new) (D.synced task.new) (D.pending task.new)) }
    ensures works { IfOk result (λ opened. has_failed opened.cell ≡ false) }
    ensures start { IfOk result (λ opened. (opened.start ≡ Start.Cut) ↔ GoesOnFrom opened.kept (published_counts opened.dumpers.items)) }

    // A checkpoint is one that a record may have, and of this plan, and its points are in the logs, whatever the devices tell.
    ensures sound { IfOk result (λ opened. IfSome opened.kept IsPoint) }
    ensures fits { IfOk result (λ opened. FitsPlan (length nodes.old) rotation opened.kept) }
    ensures can { IfOk result (λ opened. IfSome (used_point opened.start opened.kept) (λ point. AllZip (λ source cut. CanReadFrom (S.sizes source) cut) nodes.old point.nodes)) }

    // What is left at every answer.
    ensures outs_kept { AllZip (IsOutKept D.tells D.seen D.may_leave D.moment D.left_since D.faults) outs.old outs.new }
    ensures task_kept { IsTaskKept D.tells D.seen D.may_leave D.moment D.left_since D.faults task.old task.new }
    ensures nodes_kept { AllZip (IsSourceKept S.held S.sizes S.lowest S.highest S.faults) nodes.old nodes.new }
{
    let opened = match open_disks(alloc, nodes.len() as u32, rotation, outs, task) {
        Ok(opened) => opened,
        Err(outcome) => return Err(outcome),
    };
    match open_sources(nodes, &opened) {
        Ok(()) => Ok(opened),
        Err(outcome) => Err(outcome),
    }
}
