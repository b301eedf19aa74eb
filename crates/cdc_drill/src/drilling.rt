//! The drill.

ghost use Rattle.std.specs.Prelude.{◌≡◌, ◌≤◌, length};
ghost use Rattle.std.specs.List.{AllByRecursion};
ghost use Rattle.cdc_drill.specs.Drill.{drill_nodes, drill_run, IsDrillEnd};
ghost use Rattle.cdc_drill.specs.Attempts.{IsAttempt, IsShortLog, one_file_each};

use crate::attempt::{Attempt, attempts};
use crate::drill_end::DrillEnd;
use crate::plan::plan_of;
use crate::sizes::Sizes;
use crate::text::write_text;
use cdc_base::Memory;
use cdc_gen::{LogList, logs_of, schedule_of};
use cdc_outside::Sink;
use std::alloc::Global;

/// The turns of an order; none where no order is asked for.
fn turns_of(alloc: Global, order: Option<u64>) -> Result<Vec<u32>, Memory> {
    match order {
        Some(order) => schedule_of(alloc, order),
        None => Ok(Vec::new(alloc)),
    }
}

/// Passes over logs, one a node, into an output that is as large as the work needs.
fn pass_over_logs(
    alloc: Global,
    nodes: u32,
    count: u32,
    order: Option<u64>,
    logs: &LogList,
) -> Attempt
    requires some { 1 ≤ nodes }
    requires many { nodes ≤ 256 }
    requires short { AllByRecursion IsShortLog logs.now }
    requires each { length logs.now ≡ nodes }
    ensures { IsAttempt (one_file_each logs.now) result }
{
    let Ok(turns) = turns_of(alloc, order) else {
        return Attempt::Memory;
    };
    let Ok(plan) = plan_of(alloc, nodes) else {
        return Attempt::Memory;
    };
    attempts(
        alloc,
        &plan,
        logs,
        turns.as_slice(),
        Sizes::first(logs, count),
    )
}

/// Makes the logs of a drill and passes over them.
fn run_drill(alloc: Global, seed: u64, nodes: u32, count: u32, order: Option<u64>) -> Attempt
    requires some { 1 ≤ nodes }
    requires many { nodes ≤ 256 }
    requires count { count ≤ 100000 }
    ensures { IsAttempt (drill_nodes seed nodes count) result }
{
    match logs_of(alloc, seed, nodes, count) {
        Ok(logs) => pass_over_logs(alloc, nodes, count, order, &logs),
        Err(Memory) => Attempt::Memory,
    }
}

/// Makes the logs of so many nodes with so many transactions on one and two of them from a seed, runs a pass over them, and
/// writes the line `drill SEED NODES COUNT` and the line of the output, all in one write.
///
/// The pass has one output, closes a file from 1,048,576 bytes on, and keeps a checkpoint after as many bytes of each node. Its
/// turns are drawn from the order, where there is one. Logs, output and task are in memory and as large as the work needs.
/// Only `Done` and `Sink` write.
pub fn drill<K: Sink>(
    alloc: Global,
    seed: u64,
    nodes: u32,
    count: u32,
    order: Option<u64>,
    out: &mut K,
) -> DrillEnd
    requires some { 1 ≤ nodes }
    requires many { nodes ≤ 256 }
    requires count { count ≤ 100000 }
    // How it ended, why, and what was written.
    ensures ended { IsDrillEnd K.tells (drill_run seed nodes count (K.written out.old) (K.written out.new) (K.faults out.old) (K.faults out.new)) result }
    ensures sink_later { K.faults out.old ≤ K.faults out.new }
{
    match run_drill(alloc, seed, nodes, count, order) {
        Attempt::Found(front) => write_text(alloc, seed, nodes, count, &front, out),
        Attempt::TooLarge { number, bytes } => DrillEnd::TooLarge { number, bytes },
        Attempt::Node { node, place, fault } => DrillEnd::Node { node, place, fault },
        Attempt::TooSmall | Attempt::Memory => DrillEnd::Memory,
    }
}
