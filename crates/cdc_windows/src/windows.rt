//! All windows of a pass.

ghost use Rattle.std.specs.Prelude.{◌≡◌, ℕ, ◌+◌, ◌≤◌, ◌<◌, ◌^◌, ◌⊎◌, true, false, IsTrue, List, length, map};
ghost use Rattle.std.specs.List.{AllZip, AllByRecursion};
ghost use Rattle.cdc_outside.specs.Count.{Rose};
ghost use Rattle.cdc_base.specs.declared.key.Key.{Key as OneKey};
ghost use Rattle.cdc_model.specs.declared.node_log.NodeLog.{NodeLog};
ghost use Rattle.cdc_model.specs.Transaction.{key_at};
ghost use Rattle.cdc_recovery.specs.Outputs.{OutputPlan, planned_transactions};
ghost use Rattle.cdc_turns.specs.Flow.{Line, LanesFit, line_with};
ghost use Rattle.cdc_dump_stage.specs.Disks.{disk_words};
ghost use Rattle.cdc_dump_stage.specs.Standing.{IsReadyFor};
ghost use Rattle.cdc_dump_stage.specs.Job.{StagedDisk, dump_account};
ghost use Rattle.cdc_dump_stage.specs.Taking.{is_well};
ghost use Rattle.cdc_windows.specs.Keeping.{IsTaskStanding};
ghost use Rattle.cdc_windows.specs.Rereading.{AreOver, RememberFrom};
ghost use Rattle.cdc_windows.specs.Windows.{IsBegun, IsFlowing, RunsOn, HasRun, KeptWindow, ReadLogs, KeepsAll, IsOffered};
ghost use Rattle.cdc_item.specs.declared.node_item.NodeItem.{NodeItem};
ghost use Rattle.cdc_item.specs.declared.dump_item.DumpItem.{DumpItem};

use crate::keeper::Keeper;
use crate::parts::{MergePart, NodePart};
use crate::window::keep_window;
use cdc_base::Key;
use cdc_dump_stage::DumpJob;
use cdc_item::{DumpItem, NodeItem};
use cdc_lane::PlainLane;
use cdc_outside::Disk;
use cdc_turns::{MergeTurns, next_window, run};
use std::alloc::Global;

// Whether all readings are over.
fn are_over<N: NodePart>(nodes: &[N]) -> bool
    ensures { result ≡ true → AreOver N.rereading nodes.now }
{
    for node in nodes {
        if !node.is_over() {
            return false;
        }
    }
    true
}

// Lets each node drop what no later checkpoint needs.
fn forget_all<N: NodePart>(nodes: &mut [N], last: &Key)
    ensures sent { (window : ℕ) (sends : List (List NodeItem)) → AllZip (λ node items. N.account.sent node window items) nodes.old sends → AllZip (λ node items. N.account.sent node window items) nodes.new sends }
    ensures ended { map N.account.ended nodes.new ≡ map N.account.ended nodes.old }
    ensures known { RememberFrom N.rereading last.now nodes.old → RememberFrom N.rereading last.now nodes.new }
    ensures read_on { AllZip N.rereading.read_on nodes.old nodes.new }
{
    for index in 0..nodes.len() {
        nodes[index].forget(last);
    }
}

// One window, from its first turn to the checkpoint behind it; whether there was memory for that.
fn run_window<N: NodePart, M: MergeTurns<NodeItem, DumpItem> + MergePart, D: Disk>(
    alloc: Global,
    rotation: u64,
    nodes: &mut [N],
    ins: &mut [PlainLane<NodeItem>],
    merge: &mut M,
    outs: &mut [PlainLane<DumpItem>],
    dumps: &mut [DumpJob<D>],
    keeper: &mut Keeper,
    task: &mut D,
    schedule: &[u32],
    at: &mut usize,
) -> bool
    requires fits { LanesFit M.account (line_with nodes.old ins.old merge.old outs.old dumps.old) }
    requires count { length nodes.old + length dumps.old < 2 ^ 32 }
    requires place { at.old ≤ length schedule.now }
    requires standing { IsTaskStanding D.tells D.seen D.synced D.pending keeper.old task.old }
    // Where a window flows it has run to its end.
    ensures runs { (first : Line N M (StagedDisk D) NodeItem DumpItem) → (flows : IsFlowing N.account M.account (dump_account (disk_words D.tells D.seen D.synced D.pending D.may_leave D.moment D.left_since D.faults)) N.rereading first (line_with nodes.old ins.old merge.old outs.old dumps.old))
        → RunsOn N.account M.account (dump_account (disk_words D.tells D.seen D.synced D.pending D.may_leave D.moment D.left_since D.faults)) N.rereading first (line_with nodes.old ins.old merge.old outs.old dumps.old) (line_with nodes.new ins.new merge.new outs.new dumps.new) flows }
    ensures stored { IsTrue D.tells → KeptWindow (disk_words D.tells D.seen D.synced D.pending D.may_leave D.moment D.left_since D.faults) N.rereading rotation nodes.new (M.came merge.new) dumps.new task.old task.new }
    ensures standing { IsTaskStanding D.tells D.seen D.synced D.pending keeper.new task.new }
    ensures place { at.new ≤ length schedule.now }
    ensures fails { keeper.new.failed ≡ true → (keeper.old.failed ≡ true) ⊎ Rose (D.faults task.old) (D.faults task.new) }
    ensures later { D.faults task.old ≤ D.faults task.new }
    ensures known { (last : OneKey) → RememberFrom N.rereading last nodes.old → RememberFrom N.rereading last nodes.new }
    ensures last { result ≡ true → AllByRecursion (λ job. (job.stage.ended ≡ true) × (is_well job.stage.end ≡ true)) dumps.new → RememberFrom N.rereading (M.came merge.new).last nodes.new
        → keeper.new.failed ≡ false → IsOffered N.rereading rotation nodes.new (M.came merge.new) keeper.new.cell }
{
    run(nodes, ins, merge, outs, dumps, schedule, at);
    keep_window(alloc, rotation, nodes, merge, dumps, keeper, task).is_ok()
}

/// Runs all windows of a pass, until all readings are over; whether they are, and there was memory for each checkpoint.
///
/// In each window the jobs are turned in the order of the schedule, then round and round, until all have ended. Where every
/// output is whole behind it, its checkpoint is kept, if its number is above the kept one's. Whatever the schedule, and
/// whatever logs the nodes read: nothing that an output keeps is lost at any moment, each is ready for what follows what was
/// given, and the task is recoverable at every moment with a checkpoint that no output is behind.
pub fn run_windows<N: NodePart, M: MergeTurns<NodeItem, DumpItem> + MergePart, D: Disk>(
    alloc: Global,
    rotation: u64,
    nodes: &mut [N],
    ins: &mut [PlainLane<NodeItem>],
    merge: &mut M,
    outs: &mut [PlainLane<DumpItem>],
    dumps: &mut [DumpJob<D>],
    keeper: &mut Keeper,
    task: &mut D,
    schedule: &[u32],
) -> bool
    requires begun { IsBegun N.account M.account (dump_account (disk_words D.tells D.seen D.synced D.pending D.may_leave D.moment D.left_since D.faults)) (line_with nodes.old ins.old merge.old outs.old dumps.old) }
    requires count { length nodes.old + length dumps.old < 2 ^ 32 }
    requires some { 1 ≤ length dumps.old }
    requires standing { IsTaskStanding D.tells D.seen D.synced D.pending keeper.old task.old }
    ensures over { result ≡ true → AreOver N.rereading nodes.new }
    ensures ran { HasRun N.account M.account (dump_account (disk_words D.tells D.seen D.synced D.pending D.may_leave D.moment D.left_since D.faults)) N.rereading (line_with nodes.old ins.old merge.old outs.old dumps.old) (line_with nodes.new ins.new merge.new outs.new dumps.new) }
    ensures keeps { IsTrue D.tells → (plan : OutputPlan) (logs : List NodeLog) (from : ℕ) → plan.rotation ≡ rotation
        → ReadLogs N.account M.account N.rereading M.came plan logs from nodes.old merge.old
        → AllByRecursion (λ job. IsReadyFor (disk_words D.tells D.seen D.synced D.pending D.may_leave D.moment D.left_since D.faults) plan (planned_transactions plan logs) from job.stage job.disk) dumps.old
        → KeepsAll (disk_words D.tells D.seen D.synced D.pending D.may_leave D.moment D.left_since D.faults) plan logs (M.came merge.new).count dumps.old dumps.new task.old task.new }
    ensures standing { IsTaskStanding D.tells D.seen D.synced D.pending keeper.new task.new }
    ensures fails { keeper.new.failed ≡ true → (keeper.old.failed ≡ true) ⊎ Rose (D.faults task.old) (D.faults task.new) }
    ensures later { D.faults task.old ≤ D.faults task.new }
    // Behind the last window its checkpoint is kept, where all outputs are whole and the task's disk works.
    ensures last { (plan : OutputPlan) (logs : List NodeLog) (from : ℕ) → ReadLogs N.account M.account N.rereading M.came plan logs from nodes.old merge.old
        → RememberFrom N.rereading (key_at (planned_transactions plan logs) from) nodes.old
        → result ≡ true → AllByRecursion (λ job. (job.stage.ended ≡ true) × (is_well job.stage.end ≡ true)) dumps.new
        → keeper.new.failed ≡ false → IsOffered N.rereading rotation nodes.new (M.came merge.new) keeper.new.cell }
{
    let mut at = 0;
    let mut kept = run_window(
        alloc, rotation, nodes, ins, merge, outs, dumps, keeper, task, schedule, &mut at,
    );
    'windows: for _ in 0..u64::MAX {
        if are_over(nodes) {
            return kept;
        }
        let reached = merge.reached();
        forget_all(nodes, &reached.last);
        next_window(nodes, merge, dumps);
        let also = run_window(
            alloc, rotation, nodes, ins, merge, outs, dumps, keeper, task, schedule, &mut at,
        );
        if !also {
            kept = false;
        }
    }
    false
}
