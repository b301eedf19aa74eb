//! A pass behind its opening.

ghost use Rattle.std.specs.Prelude.{◌≡◌, ℕ, ◌+◌, ◌≤◌, ◌<◌, ◌^◌, IsTrue, List, ◌++◌, length, false, true, IfOk, OnOk, OnErr};
ghost use Rattle.std.specs.List.{AllZip, AllByRecursion};
ghost use Rattle.cdc_model.specs.declared.node_log.NodeLog.{NodeLog};
ghost use Rattle.cdc_model.specs.Transaction.{key_at};
ghost use Rattle.cdc_recovery.specs.Outputs.{OutputPlan, planned_transactions, KeepsFrom};
ghost use Rattle.cdc_recovery.specs.Growing.{Each};
ghost use Rattle.cdc_turns.specs.Joined.{nothing_for};
ghost use Rattle.cdc_dump_stage.specs.Disks.{disk_words};
ghost use Rattle.cdc_cell.specs.Cell.{has_failed, Knows};
ghost use Rattle.cdc_outside.specs.Disk.{IsDurable};
ghost use Rattle.cdc_opening.specs.Lists.{AllThree};
ghost use Rattle.cdc_opening.specs.OpenOuts.{IsOutOpened};
ghost use Rattle.std.specs.Option.{option_copied};
ghost use Rattle.cdc_windows.specs.Jobs.{IsReadyOut, StartsSoundly};
ghost use Rattle.cdc_windows.specs.Jobs as jobs_words;
ghost use Rattle.cdc_opening.specs.declared.outcome.Outcome.{Outcome as OneOutcome};
ghost use Rattle.cdc_windows.specs.Causes.{IsFirstPassCause, also_cause, causes_of_pass, IsCausedBy};
ghost use Rattle.cdc_windows.specs.Passes.{PassKeeps};
ghost use Rattle.cdc_opening.specs.Outcomes.{place_of_outcome};
ghost use Rattle.cdc_windows.specs.Rereading.{AreOver, RememberFrom};
ghost use Rattle.cdc_windows.specs.Windows.{ReadLogs, HaveRun, IsLastKept};

use crate::causes::outs_cause;
use crate::jobs::{dump_jobs, give_back};
use crate::keeper::Keeper;
use crate::parts::{MergePart, NodePart};
use crate::window::are_whole;
use crate::windows::run_windows;
use cdc_base::{Key, Memory};
use cdc_dump_stage::DumpJob;
use cdc_item::{DumpItem, NodeItem};
use cdc_opening::{Opened, Outcome};
use cdc_outside::Disk;
use cdc_records::Checkpoint;
use cdc_task::Start;
use cdc_turns::{MergeTurns, dump_lanes, node_lanes};
use std::alloc::Global;

/// How the outputs and the task came through a pass: why they ended otherwise than whole, if they did, and whether every
/// output has published all that was given.
#[derive(Clone, Copy, Debug, PartialEq, Eq)]
pub struct Passed {
    pub cause: Outcome,
    pub whole: bool,
}

// From how many transactions, and behind which key, a pass goes on.
fn pass_start(kept: Option<&Checkpoint>, start: Start) -> Option<(u64, Key)>
    ensures { result ≡ jobs_words.pass_start (option_copied kept.entry) start }
{
    match (kept, start) {
        (Some(point), Start::Cut) => Some((point.count, point.last)),
        _ => None,
    }
}

// Of two causes the one that is answered, where there is the second.
fn with_cause(first: Outcome, also: bool, cause: Outcome) -> Outcome
    ensures { (causes : List OneOutcome) → IsFirstPassCause causes first → IsFirstPassCause (causes ++ also_cause also cause) result }
{
    if also { first.earlier(cause) } else { first }
}

// Of the causes of the outputs, of the task and of want of memory the one that is answered.
fn cause_of<D: Disk>(jobs: &[DumpJob<D>], task_failed: bool, wanting: bool) -> Outcome
    requires { length jobs.now ≤ 4 }
    ensures { IsFirstPassCause (causes_of_pass jobs.now task_failed wanting) result }
{
    let outs = outs_cause(jobs);
    let disks = with_cause(outs, task_failed, Outcome::TaskDisk);
    with_cause(disks, wanting, Outcome::Memory)
}

/// Runs the windows of a pass that was opened, and gives the disks back.
///
/// The nodes' jobs and the merge job begin where `opened` says. On `Memory` nothing was done, and jobs, outputs and task are
/// as they were.
pub fn run_opened<N: NodePart, M: MergeTurns<NodeItem, DumpItem> + MergePart, D: Disk>(
    alloc: Global,
    rotation: u64,
    opened: Opened,
    nodes: &mut [N],
    merge: &mut M,
    outs: &mut Vec<D>,
    task: &mut D,
    schedule: &[u32],
) -> Result<Passed, Memory>
    requires few_nodes { length nodes.old ≤ 256 }
    requires some_outs { 1 ≤ length outs.old.items }
    requires few_outs { length outs.old.items ≤ 4 }
    requires many { length opened.dumpers.items ≡ length outs.old.items }
    requires ready { AllZip (IsReadyOut (disk_words D.tells D.seen D.synced D.pending D.may_leave D.moment D.left_since D.faults)) opened.dumpers.items outs.old.items }
    requires works { has_failed opened.cell ≡ false }
    requires knows { IsTrue D.tells → Knows opened.cell (D.seen task.old) }
    requires durable { IsTrue D.tells → IsDurable (D.seen task.old) (D.synced task.old) (D.pending task.old) }
    requires took { length (M.account.took merge.old) ≡ length nodes.old }
    requires gave { length (M.account.gave merge.old) ≡ length outs.old.items }
    requires sent { AllZip (λ node items. N.account.sent node 1 items) nodes.old (nothing_for nodes.old) }
    requires did { M.account.did merge.old 1 (nothing_for nodes.old) (nothing_for outs.old.items) }
    // Whatever logs the nodes read, if all outputs kept some of their transactions before they were opened.
    ensures keeps { IsTrue D.tells → IfOk result (λ passed. (plan : OutputPlan) (logs : List NodeLog) (from : ℕ) (olds : List D) → plan.rotation ≡ rotation
        → ReadLogs N.account M.account N.rereading M.came plan logs from nodes.old merge.old
        → AllThree (IsOutOpened D.tells D.seen D.synced D.pending) olds opened.dumpers.items outs.old.items
        → AllByRecursion (λ (disk : D). Each (D.may_leave disk) (KeepsFrom plan (planned_transactions plan logs) 0)) olds
        → StartsSoundly (planned_transactions plan logs) (jobs_words.pass_start opened.kept opened.start)
        → AllByRecursion (λ dumper. from ≤ dumper.published.count) opened.dumpers.items
        → PassKeeps (disk_words D.tells D.seen D.synced D.pending D.may_leave D.moment D.left_since D.faults) plan logs (M.came merge.new).count passed outs.old.items outs.new.items task.old task.new) }
    // What the nodes' jobs and the merge job did in all windows.
    ensures ran { OnOk result (HaveRun N.account M.account N.rereading nodes.old merge.old nodes.new merge.new) }
    // Behind want of memory in the order of answers all readings are over, and behind a refused unit all outputs are whole.
    ensures over { IfOk result (λ passed. 10 < place_of_outcome passed.cause → AreOver N.rereading nodes.new) }
    ensures whole { IfOk result (λ passed. 11 < place_of_outcome passed.cause → passed.whole ≡ true) }
    // Why the pass ended, if not by the nodes or the merge job.
    ensures cause { IfOk result (λ passed. IsCausedBy D.faults outs.old.items outs.new.items task.old task.new passed.cause) }
    ensures memory { OnErr result ((nodes.new ≡ nodes.old) × (merge.new ≡ merge.old) × (outs.new.items ≡ outs.old.items) × (task.new ≡ task.old)) }
    // Behind a refused unit in the order of answers the task has the checkpoint of where the jobs came.
    ensures last { IsTrue D.tells → IfOk result (λ passed. (plan : OutputPlan) (logs : List NodeLog) (from : ℕ)
        → ReadLogs N.account M.account N.rereading M.came plan logs from nodes.old merge.old
        → RememberFrom N.rereading (key_at (planned_transactions plan logs) from) nodes.old
        → 11 < place_of_outcome passed.cause
        → IsLastKept (disk_words D.tells D.seen D.synced D.pending D.may_leave D.moment D.left_since D.faults) N.rereading rotation nodes.new (M.came merge.new) task.new) }
    ensures later { D.faults task.old ≤ D.faults task.new }
    ensures outs_later { AllZip (λ old new. D.faults old ≤ D.faults new) outs.old.items outs.new.items }
{
    let mut ins = match node_lanes(alloc, nodes.len()) {
        Ok(lanes) => lanes,
        Err(Memory) => return Err(Memory),
    };
    let mut lanes = match dump_lanes(alloc, outs.len()) {
        Ok(lanes) => lanes,
        Err(Memory) => return Err(Memory),
    };
    let start = pass_start(opened.kept.as_ref(), opened.start);
    let Opened {
        mut dumpers,
        cell,
        ..
    } = opened;
    let mut jobs = match dump_jobs(alloc, &mut dumpers, outs, start) {
        Ok(jobs) => jobs,
        Err(Memory) => return Err(Memory),
    };
    let mut keeper = Keeper {
        cell,
        failed: false,
    };
    let stored = run_windows(
        alloc,
        rotation,
        nodes,
        &mut ins,
        merge,
        &mut lanes,
        &mut jobs,
        &mut keeper,
        task,
        schedule,
    );
    let whole = are_whole(&jobs);
    let cause = cause_of(&jobs, keeper.failed, !stored);
    give_back(jobs, outs);
    Ok(Passed { cause, whole })
}
