//! `run`: one pass over the nodes of a configuration into its outs.

ghost use Rattle.std.specs.Prelude.{◌≡◌, ◌≤◌, ◌<◌, ◌^◌, ◌↔◌, IsTrue, length, map};
ghost use Rattle.std.specs.List.{AllZip, AllByRecursion};
ghost use Rattle.cdc_cell.specs.Reading.{IsLeftAlone};
ghost use Rattle.cdc_dump_stage.specs.Disks.{disk_words};
ghost use Rattle.cdc_headline.specs.Ending.{PublishesAll};
ghost use Rattle.cdc_list.specs.Listing.{AllLater};
ghost use Rattle.cdc_node_stage.specs.Job.{source_words};
ghost use Rattle.cdc_outside.specs.Source.{file_of};
ghost use Rattle.cdc_pass.specs.Starting.{IsClear};
ghost use Rattle.cdc_print.specs.Outcome.{NoCountFell};
ghost use Rattle.cdc_top.specs.Call.{ConfigRun, config_seen};
ghost use Rattle.cdc_top.specs.Ran.{run_call, MadePass, IsFitToRun, IsRunCall};

use crate::config::read_plan;
use crate::findings::{Findings, findings_of_pass, findings_of_run, findings_of_stop};
use cdc_base::Memory;
use cdc_config::Plan;
use cdc_gen::schedule_of;
use cdc_list::list_fronts;
use cdc_opening::Outcome;
use cdc_outside::{Disk, Sink, Source};
use cdc_pass::run;
use std::alloc::Global;

/// The turns of an order; none where no order is asked for.
fn turns_of(alloc: Global, order: Option<u64>) -> Result<Vec<u32>, Memory> {
    match order {
        Some(order) => schedule_of(alloc, order),
        None => Ok(Vec::new(alloc)),
    }
}

/// Whether a pass that ended so has published all that is settled.
fn publishes_all(outcome: &Outcome) -> bool
    ensures { IsTrue result ↔ PublishesAll outcome.now }
{
    match outcome {
        Outcome::Done | Outcome::TooLarge { .. } | Outcome::Node { .. } => true,
        Outcome::Disk { .. }
        | Outcome::TaskDisk
        | Outcome::Read { .. }
        | Outcome::Memory
        | Outcome::Open { .. }
        | Outcome::Task(_)
        | Outcome::Behind { .. }
        | Outcome::Differs { .. }
        | Outcome::Key { .. } => false,
    }
}

/// Passes over the nodes of a plan; where all was published, writes the lines of the outs.
fn pass_over<S: Source, D: Disk, K: Sink>(
    alloc: Global,
    plan: &Plan,
    turns: &[u32],
    nodes: &mut Vec<S>,
    outs: &mut Vec<D>,
    task: &mut D,
    out: &mut K,
) -> Findings
    requires many_nodes { length nodes.old.items ≡ plan.now.nodes }
    requires many_outs { length outs.old.items ≡ plan.now.outs }
    requires clear { IsTrue D.tells → AllByRecursion (λ disk. IsClear (D.seen disk)) outs.old.items }
    ensures passed { (config : ConfigRun) → MadePass (source_words S.tells S.held S.sizes S.lowest S.faults) (disk_words D.tells D.seen D.synced D.pending D.may_leave D.moment D.left_since D.faults) K.tells plan.now
        (run_call config nodes.old.items nodes.new.items outs.old.items outs.new.items task.old task.new (K.written out.old) (K.written out.new) (K.faults out.old) (K.faults out.new)) result }
    ensures held { map S.held nodes.new.items ≡ map S.held nodes.old.items }
    ensures later { NoCountFell (map S.faults nodes.old.items) (map S.faults nodes.new.items) }
    ensures outs_later { AllLater D.faults outs.old.items outs.new.items }
    ensures task_later { D.faults task.old ≤ D.faults task.new }
    ensures sink_later { K.faults out.old ≤ K.faults out.new }
{
    let outcome = run(alloc, plan, nodes, outs, task, turns);
    if publishes_all(&outcome) {
        let end = list_fronts(alloc, outs, out);
        findings_of_run(&outcome, &end)
    } else {
        findings_of_pass(&outcome)
    }
}

/// Passes over the nodes of a configuration, where it is one, and tells what was met with.
pub fn run_plan<C: Source, S: Source, D: Disk, K: Sink>(
    alloc: Global,
    order: Option<u64>,
    config: &mut C,
    nodes: &mut Vec<S>,
    outs: &mut Vec<D>,
    task: &mut D,
    out: &mut K,
) -> Findings
    requires one { length (C.sizes config.old) ≡ 1 }
    requires fit { IsFitToRun C.tells (file_of (C.held config.old) 1) (length nodes.old.items) (length outs.old.items) }
    requires clear { IsTrue D.tells → AllByRecursion (λ disk. IsClear (D.seen disk)) outs.old.items }
    ensures ran { IsRunCall (source_words S.tells S.held S.sizes S.lowest S.faults) (disk_words D.tells D.seen D.synced D.pending D.may_leave D.moment D.left_since D.faults) K.tells
        (run_call (config_seen C.tells C.held C.faults config.old config.new) nodes.old.items nodes.new.items outs.old.items outs.new.items task.old task.new (K.written out.old) (K.written out.new) (K.faults out.old) (K.faults out.new)) result }
    ensures held { map S.held nodes.new.items ≡ map S.held nodes.old.items }
    ensures config_later { C.faults config.old ≤ C.faults config.new }
    ensures config_held { C.held config.new ≡ C.held config.old }
    ensures later { NoCountFell (map S.faults nodes.old.items) (map S.faults nodes.new.items) }
    ensures outs_later { AllLater D.faults outs.old.items outs.new.items }
    ensures task_later { D.faults task.old ≤ D.faults task.new }
    ensures sink_later { K.faults out.old ≤ K.faults out.new }
{
    let plan = match read_plan(alloc, config) {
        Ok(plan) => plan,
        Err(stop) => return findings_of_stop(&stop),
    };
    match turns_of(alloc, order) {
        Ok(turns) => pass_over(alloc, &plan, turns.as_slice(), nodes, outs, task, out),
        Err(Memory) => Findings::of_want(),
    }
}
