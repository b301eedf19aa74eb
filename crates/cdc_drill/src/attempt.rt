//! One attempt: a pass over the logs, into disks of some size.

ghost use Rattle.std.specs.Prelude.{◌≡◌, ◌≤◌, ℕ, List, length, map, IsTrue, IfSome};
ghost use Rattle.std.specs.List.{AllByRecursion};
ghost use Rattle.cdc_memory.specs.Source.{pure_held_files};
ghost use Rattle.cdc_model.specs.Records.{Transaction};
ghost use Rattle.cdc_recovery.specs.Outputs.{OutputPlan, KeepsFrom};
ghost use Rattle.cdc_recovery.specs.Growing.{Each};
ghost use Rattle.cdc_pass.specs.Starting.{output_plan};
ghost use Rattle.cdc_drill.specs.Drill.{drill_plan};
ghost use Rattle.cdc_drill.specs.Attempts.{TellsAll, IsBlankDisk, IsShortLog, IsAttempt, one_file_each};

use crate::devices::devices_of;
use crate::sizes::Sizes;
use cdc_base::{Memory, Place};
use cdc_config::Plan;
use cdc_dumper::look;
use cdc_gen::LogList;
use cdc_memory::{MemDisk, PureSource};
use cdc_model::NodeFault;
use cdc_opening::Outcome;
use cdc_outside::Disk;
use cdc_pass::run;
use cdc_records::Front;
use cdc_recovery::{image_has_one_front, no_task_is_kept, nothing_is_kept};
use std::alloc::Global;

/// How many sizes are tried.
const ATTEMPTS: u32 = 64;

/// How an attempt ended.
#[derive(Clone, Copy, Debug, PartialEq, Eq)]
pub(crate) enum Attempt {
    /// The pass was done, and this is the output's Front.
    Found(Front),
    /// The transaction with this number has a print of so many bytes.
    TooLarge {
        number: u64,
        bytes: u64,
    },
    /// The log of this node has a fault at this place.
    Node {
        node: u32,
        place: Place,
        fault: NodeFault,
    },
    /// A disk was too small.
    TooSmall,
    /// There was no memory.
    Memory,
}

/// The Front of an output, where its disk gives it.
fn front_of<D: Disk>(disk: &mut D) -> Option<Front>
    ensures { IsTrue D.tells → IfSome result (λ front. (plan : OutputPlan) (txns : List Transaction) → Each (D.may_leave disk.old) (KeepsFrom plan txns (length txns)) → TellsAll plan txns front) }
{
    image_has_one_front();
    match look(disk) {
        Ok(front) => Some(front),
        Err(_) => None,
    }
}

/// The Front of the last of some outputs.
fn last_front<D: Disk>(outs: &mut Vec<D>) -> Option<Front>
    ensures { IsTrue D.tells → IfSome result (λ front. (plan : OutputPlan) (txns : List Transaction) → AllByRecursion (λ disk. Each (D.may_leave disk) (KeepsFrom plan txns (length txns))) outs.old.items → TellsAll plan txns front) }
{
    match outs.pop() {
        Some(mut disk) => front_of(&mut disk),
        None => None,
    }
}

/// A pass over sources into disks that have nothing.
fn pass_over(
    alloc: Global,
    plan: &Plan,
    nodes: &mut Vec<PureSource>,
    outs: &mut Vec<MemDisk>,
    task: &mut MemDisk,
    turns: &[u32],
) -> Attempt
    requires many_nodes { length nodes.old.items ≡ plan.now.nodes }
    requires many_outs { length outs.old.items ≡ plan.now.outs }
    requires output { output_plan plan.now ≡ drill_plan }
    requires fresh_outs { AllByRecursion IsBlankDisk outs.old.items }
    requires fresh_task { IsBlankDisk task.old }
    ensures { IsAttempt (map pure_held_files nodes.old.items) result }
{
    nothing_is_kept();
    no_task_is_kept();
    match run(alloc, plan, nodes, outs, task, turns) {
        Outcome::Done => match last_front(outs) {
            Some(front) => Attempt::Found(front),
            None => Attempt::TooSmall,
        },
        Outcome::TooLarge { number, bytes } => Attempt::TooLarge { number, bytes },
        Outcome::Node { node, place, fault } => Attempt::Node { node, place, fault },
        Outcome::Memory => Attempt::Memory,
        // Sources in memory never fail, and nothing is refused over disks that had nothing: what is left are the disks.
        Outcome::Disk { .. }
        | Outcome::TaskDisk
        | Outcome::Read { .. }
        | Outcome::Open { .. }
        | Outcome::Task(_)
        | Outcome::Behind { .. }
        | Outcome::Differs { .. }
        | Outcome::Key { .. } => Attempt::TooSmall,
    }
}

/// One attempt, over fresh disks of these sizes.
fn try_sizes(alloc: Global, plan: &Plan, logs: &LogList, turns: &[u32], sizes: &Sizes) -> Attempt
    requires short { AllByRecursion IsShortLog logs.now }
    requires nodes { length logs.now ≡ plan.now.nodes }
    requires outs { plan.now.outs ≡ 1 }
    requires output { output_plan plan.now ≡ drill_plan }
    ensures { IsAttempt (one_file_each logs.now) result }
{
    let Ok(mut devices) = devices_of(alloc, logs, sizes) else {
        return Attempt::Memory;
    };
    pass_over(
        alloc,
        plan,
        &mut devices.nodes,
        &mut devices.outs,
        &mut devices.task,
        turns,
    )
}

/// The first of at most 64 attempts whose disks are large enough, each with disks twice as large as the one before; where none
/// is, there is no memory for them.
pub(crate) fn attempts(
    alloc: Global,
    plan: &Plan,
    logs: &LogList,
    turns: &[u32],
    first: Sizes,
) -> Attempt
    requires short { AllByRecursion IsShortLog logs.now }
    requires nodes { length logs.now ≡ plan.now.nodes }
    requires outs { plan.now.outs ≡ 1 }
    requires output { output_plan plan.now ≡ drill_plan }
    ensures { IsAttempt (one_file_each logs.now) result }
{
    let mut sizes = first;
    for _attempt in 0..ATTEMPTS {
        match try_sizes(alloc, plan, logs, turns, &sizes) {
            Attempt::TooSmall => sizes = sizes.doubled(),
            end => return end,
        }
    }
    Attempt::Memory
}
