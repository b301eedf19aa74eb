//! The pass.

ghost use Rattle.std.specs.Prelude.{◌≡◌, ◌⊎◌, ◌≤◌, ◌<◌, ◌+◌, ◌^◌, ℕ, false, IsTrue, List, [], length, map, IfOk, IfSome, OnErr, Err};
ghost use Rattle.std.specs.List.{AllZip, AllByRecursion};
ghost use Rattle.cdc_outside.specs.Count.{Rose};
ghost use Rattle.cdc_outside.specs.Disk.{IsDurable};
ghost use Rattle.cdc_cell.specs.Cell.{has_failed, Knows};
ghost use Rattle.cdc_model.specs.declared.node_log.NodeLog.{NodeLog};
ghost use Rattle.cdc_model.specs.Layout.{HasRoom};
ghost use Rattle.cdc_model.specs.Restart.{RestartPoint};
ghost use Rattle.cdc_dump_stage.specs.Disks.{disk_words};
ghost use Rattle.cdc_node_stage.specs.Job.{source_words};
ghost use Rattle.cdc_merge_stage.specs.Merged.{MergeDid};
ghost use Rattle.cdc_turns.specs.Joined.{nothing_for};
ghost use Rattle.cdc_records.specs.Checkpoint.{IsPoint};
ghost use Rattle.cdc_task.specs.Task.{FitsPlan};
ghost use Rattle.cdc_opening.specs.Answers.{AnswersDisks, AnswersLogs, used_point};
ghost use Rattle.cdc_opening.specs.Lists.{DeviceRoseAt};
ghost use Rattle.cdc_opening.specs.OpenSources.{CanReadFrom};
ghost use Rattle.cdc_kept.specs.Kept.{PassStart, opened_start};
ghost use Rattle.cdc_windows.specs.Jobs.{IsReadyOut, pass_start};
ghost use Rattle.cdc_headline.specs.Ending.{IsRefusedOpening};
ghost use Rattle.cdc_headline.specs.Headline.{Headline};
ghost use Rattle.cdc_headline.specs.Running.{IsPassOver, HasRunWindows, merge_start_of};
ghost use Rattle.cdc_pass.specs.Starting.{output_plan, IsClear, HasSentNothing, StagesBegin, DidNothing, WereJobsRun};

use crate::ends::{merge_cause, nodes_cause};
use crate::jobs::{give_sources, node_jobs};
use crate::stages::{first_cuts, merge_start, stages_from};
use cdc_base::{Memory, Steps};
use cdc_config::Plan;
use cdc_headline::{opening_keeps_headline, windows_keep_headline, windows_name_by_counts};
use cdc_merge_stage::{MergeStage, MergeStart};
use cdc_node_stage::NodeStage;
use cdc_opening::{Opened, Outcome, open_pass};
use cdc_outside::{Disk, Source};
use cdc_records::CutList;
use cdc_task::Start;
use cdc_windows::{SourcedNode, run_opened};
use std::alloc::Global;
use std::marker::Brand;
use std::mem;
use std::sync::ledger::{Blank, Ledger};

// Takes the points from which the nodes are read on out of what was opened.
fn take_points<S>(alloc: Global, opened: &mut Opened, nodes: &[S]) -> Result<CutList, Memory>
    ensures points { IfOk result (λ points. points ≡ (opened_start nodes.now opened.old).points) }
    ensures same { (opened.new.dumpers ≡ opened.old.dumpers) × (opened.new.cell ≡ opened.old.cell) × (opened.new.start ≡ opened.old.start) }
    ensures start { pass_start opened.new.kept opened.new.start ≡ pass_start opened.old.kept opened.old.start }
{
    match opened.start {
        Start::First => first_cuts(alloc, nodes),
        Start::Cut => match &mut opened.kept {
            Some(point) => Ok(mem::replace(&mut point.nodes, CutList::new(alloc))),
            None => first_cuts(alloc, nodes),
        },
    }
}

// Runs the windows of jobs, and tells why they ended.
fn run_jobs<L: Ledger, S: Source, D: Disk>(
    alloc: Global,
    rotation: u64,
    opened: Opened,
    jobs: &mut [SourcedNode<S>],
    merge: &mut MergeStage<L>,
    outs: &mut Vec<D>,
    task: &mut D,
    schedule: &[u32],
) -> Outcome
    requires some_nodes { 1 ≤ length jobs.old }
    requires few_nodes { length jobs.old ≤ 256 }
    requires some_outs { 1 ≤ length outs.old.items }
    requires few_outs { length outs.old.items ≤ 4 }
    requires many { length opened.dumpers.items ≡ length outs.old.items }
    requires ready { AllZip (IsReadyOut (disk_words D.tells D.seen D.synced D.pending D.may_leave D.moment D.left_since D.faults)) opened.dumpers.items outs.old.items }
    requires works { has_failed opened.cell ≡ false }
    requires knows { IsTrue D.tells → Knows opened.cell (D.seen task.old) }
    requires durable { IsTrue D.tells → IsDurable (D.seen task.old) (D.synced task.old) (D.pending task.old) }
    requires took { length merge.old.took ≡ length jobs.old }
    requires gave { length merge.old.slots ≡ length outs.old.items }
    requires begun { AllByRecursion (HasSentNothing S.tells S.held) jobs.old }
    requires merges { MergeDid 1 merge.old (nothing_for merge.old.took) (nothing_for merge.old.slots) }
    ensures ran { WereJobsRun (source_words S.tells S.held S.sizes S.lowest S.faults) (disk_words D.tells D.seen D.synced D.pending D.may_leave D.moment D.left_since D.faults) rotation opened.dumpers.items (pass_start opened.kept opened.start) jobs.old merge.old jobs.new merge.new outs.old.items outs.new.items task.old task.new result }
    ensures outs_later { AllZip (λ old new. D.faults old ≤ D.faults new) outs.old.items outs.new.items }
    ensures task_later { D.faults task.old ≤ D.faults task.new }
{
    match run_opened(alloc, rotation, opened, jobs, merge, outs, task, schedule) {
        Ok(passed) => passed
            .cause
            .earlier(nodes_cause(jobs))
            .earlier(merge_cause(merge.end())),
        Err(Memory) => Outcome::Memory,
    }
}

// A pass behind its opening, whose nodes are read on by these stages.
fn run_stages<L: Ledger, S: Source, D: Disk>(
    alloc: Global,
    plan: &Plan,
    opened: Opened,
    start: MergeStart,
    stages: Vec<NodeStage>,
    nodes: &mut Vec<S>,
    outs: &mut Vec<D>,
    task: &mut D,
    schedule: &[u32],
    blank: Blank,
) -> Outcome
    requires name { blank.name ≡ L.name }
    requires parts { blank.parts ≡ L.parts }
    requires whole { 0 < L.parts }
    requires many_nodes { length nodes.old.items ≡ plan.now.nodes }
    requires many_outs { length outs.old.items ≡ plan.now.outs }
    requires many { length opened.dumpers.items ≡ length outs.old.items }
    requires ready { AllZip (IsReadyOut (disk_words D.tells D.seen D.synced D.pending D.may_leave D.moment D.left_since D.faults)) opened.dumpers.items outs.old.items }
    requires works { has_failed opened.cell ≡ false }
    requires knows { IsTrue D.tells → Knows opened.cell (D.seen task.old) }
    requires durable { IsTrue D.tells → IsDurable (D.seen task.old) (D.synced task.old) (D.pending task.old) }
    requires room { HasRoom start.before }
    requires stages { (points : List RestartPoint) × (length points ≡ length nodes.old.items) × StagesBegin 1 start.last points stages.items }
    ensures ran { (from : PassStart) → start ≡ merge_start_of from → StagesBegin 1 start.last from.points stages.items
        → DidNothing nodes.old.items nodes.new.items outs.old.items outs.new.items task.old task.new result
        ⊎ HasRunWindows (source_words S.tells S.held S.sizes S.lowest S.faults) (disk_words D.tells D.seen D.synced D.pending D.may_leave D.moment D.left_since D.faults) (output_plan plan.now) from opened.dumpers.items (pass_start opened.kept opened.start) nodes.old.items nodes.new.items outs.old.items outs.new.items task.old task.new result }
    ensures held { map S.held nodes.new.items ≡ map S.held nodes.old.items }
    ensures nodes_later { AllZip (λ old new. S.faults old ≤ S.faults new) nodes.old.items nodes.new.items }
    ensures outs_later { AllZip (λ old new. D.faults old ≤ D.faults new) outs.old.items outs.new.items }
    ensures task_later { D.faults task.old ≤ D.faults task.new }
{
    let steps = Steps::<L>::new(blank);
    let Ok(mut merge) = MergeStage::new(
        alloc,
        plan.nodes,
        plan.outs,
        plan.rotation,
        &plan.names,
        start,
        steps,
    ) else {
        return Outcome::Memory;
    };
    let Ok(mut jobs) = node_jobs(alloc, stages, nodes, &start.last) else {
        return Outcome::Memory;
    };
    let outcome = run_jobs(
        alloc,
        plan.rotation,
        opened,
        &mut jobs,
        &mut merge,
        outs,
        task,
        schedule,
    );
    give_sources(jobs, nodes);
    outcome
}

// A pass behind its opening.
fn run_from<S: Source, D: Disk>(
    alloc: Global,
    plan: &Plan,
    mut opened: Opened,
    nodes: &mut Vec<S>,
    outs: &mut Vec<D>,
    task: &mut D,
    schedule: &[u32],
) -> Outcome
    requires many_nodes { length nodes.old.items ≡ plan.now.nodes }
    requires many_outs { length outs.old.items ≡ plan.now.outs }
    requires many { length opened.dumpers.items ≡ length outs.old.items }
    requires ready { AllZip (IsReadyOut (disk_words D.tells D.seen D.synced D.pending D.may_leave D.moment D.left_since D.faults)) opened.dumpers.items outs.old.items }
    requires works { has_failed opened.cell ≡ false }
    requires knows { IsTrue D.tells → Knows opened.cell (D.seen task.old) }
    requires durable { IsTrue D.tells → IsDurable (D.seen task.old) (D.synced task.old) (D.pending task.old) }
    requires sound { IfSome opened.kept IsPoint }
    requires fits { FitsPlan (length nodes.old.items) plan.now.rotation opened.kept }
    requires can { IfSome (used_point opened.start opened.kept) (λ point. AllZip (λ source cut. CanReadFrom (S.sizes source) cut) nodes.old.items point.nodes) }
    ensures ran { DidNothing nodes.old.items nodes.new.items outs.old.items outs.new.items task.old task.new result
        ⊎ HasRunWindows (source_words S.tells S.held S.sizes S.lowest S.faults) (disk_words D.tells D.seen D.synced D.pending D.may_leave D.moment D.left_since D.faults) (output_plan plan.now) (opened_start nodes.old.items opened) opened.dumpers.items (pass_start opened.kept opened.start) nodes.old.items nodes.new.items outs.old.items outs.new.items task.old task.new result }
    ensures held { map S.held nodes.new.items ≡ map S.held nodes.old.items }
    ensures nodes_later { AllZip (λ old new. S.faults old ≤ S.faults new) nodes.old.items nodes.new.items }
    ensures outs_later { AllZip (λ old new. D.faults old ≤ D.faults new) outs.old.items outs.new.items }
    ensures task_later { D.faults task.old ≤ D.faults task.new }
{
    let start = merge_start(&opened, nodes);
    let Ok(points) = take_points(alloc, &mut opened, nodes) else {
        return Outcome::Memory;
    };
    let Ok(stages) = stages_from(alloc, plan.window, points, &start.last) else {
        return Outcome::Memory;
    };
    run_stages::<Brand, S, D>(
        alloc,
        plan,
        opened,
        start,
        stages,
        nodes,
        outs,
        task,
        schedule,
        Blank::new(1),
    )
}

/// A pass over the logs of a plan's nodes: it opens its outputs, its task and its sources, reads the logs on from the kept
/// checkpoint where each output has its transactions, or else from their starts, and publishes what is settled to each output,
/// window by window, with a checkpoint behind each. Jobs are turned in the order of the schedule (each number modulo the number of
/// jobs: the nodes', the merging, the outputs'), then round and round.
///
/// The answer is the first of all that holds: a refusal of the opening (`Open`, `Task`, `Behind`); a disk, the task's disk or a
/// source that failed, each only where its count rose; want of memory; a unit that an output refuses (`Differs`, `Key`), never
/// over kept disks; a transaction that is too large; the fault of the least node whose log has one; done. After each of them every
/// disk is as some stop could have left it, and a later pass goes on. Sources are given back as they were, but for what was asked
/// of them.
pub fn run<S: Source, D: Disk>(
    alloc: Global,
    plan: &Plan,
    nodes: &mut Vec<S>,
    outs: &mut Vec<D>,
    task: &mut D,
    schedule: &[u32],
) -> Outcome
    requires many_nodes { length nodes.old.items ≡ plan.now.nodes }
    requires many_outs { length outs.old.items ≡ plan.now.outs }
    requires clear { IsTrue D.tells → AllByRecursion (λ disk. IsClear (D.seen disk)) outs.old.items }

    // The headline: whatever the schedule, over all logs that the sources have, and all disks that earlier passes or stops left.
    ensures headline { IsTrue D.tells → IsTrue S.tells → (logs : List NodeLog)
        → IsPassOver (source_words S.tells S.held S.sizes S.lowest S.faults) (disk_words D.tells D.seen D.synced D.pending D.may_leave D.moment D.left_since D.faults) (output_plan plan.now) logs nodes.old.items outs.old.items task.old
        → Headline (source_words S.tells S.held S.sizes S.lowest S.faults) (disk_words D.tells D.seen D.synced D.pending D.may_leave D.moment D.left_since D.faults) (output_plan plan.now) logs nodes.old.items nodes.new.items outs.old.items outs.new.items task.old task.new result }

    // A refusal of the opening comes exactly as the disks and the sources have it.
    ensures refused { IsTrue D.tells → IsTrue S.tells → IsRefusedOpening result
        → AnswersDisks (map D.seen outs.old.items) (D.seen task.old) (length nodes.old.items) plan.now.rotation (Err result)
        × AnswersLogs (map D.seen outs.old.items) (D.seen task.old) (map S.held nodes.old.items) (Err result) }

    // A device is named only where its count rose.
    ensures out_failed { (number : ℕ) → result ≡ Outcome.Disk number → DeviceRoseAt (map D.faults outs.old.items) (map D.faults outs.new.items) number }
    ensures task_failed { result ≡ Outcome.TaskDisk → Rose (D.faults task.old) (D.faults task.new) }
    ensures node_failed { (number : ℕ) → result ≡ Outcome.Read number → DeviceRoseAt (map S.faults nodes.old.items) (map S.faults nodes.new.items) number }

    // Sources hold what they held.
    ensures held { map S.held nodes.new.items ≡ map S.held nodes.old.items }

    // No count falls; so there are as many outputs and nodes as before.
    ensures nodes_later { AllZip (λ old new. S.faults old ≤ S.faults new) nodes.old.items nodes.new.items }
    ensures outs_later { AllZip (λ old new. D.faults old ≤ D.faults new) outs.old.items outs.new.items }
    ensures task_later { D.faults task.old ≤ D.faults task.new }
{
    opening_keeps_headline::<S, D>();
    windows_keep_headline::<S, D>();
    windows_name_by_counts::<S, D>();
    match open_pass(alloc, plan.rotation, nodes, outs, task) {
        Ok(opened) => run_from(alloc, plan, opened, nodes, outs, task, schedule),
        Err(outcome) => outcome,
    }
}
