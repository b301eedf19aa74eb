//! The steps of a drill, behind the logs of their nodes.

ghost use Rattle.std.specs.Prelude.{◌≡◌, ℕ, ◌+◌, ◌*◌, ◌<◌, ◌≤◌, [], ◌∷◌, ◌++◌, List, length, map, IfOk, OnOk};
ghost use Rattle.std.specs.List.{range_with_len, flat_map, AllByRecursion};
ghost use Rattle.cdc_gen.specs.declared.step.Step.{Step as OneStep};
ghost use Rattle.cdc_gen.specs.Draws.{state_after};
ghost use Rattle.cdc_gen.specs.Script.{planned, script_steps, going_round, local_steps, block_size, block_plan, block_steps};
ghost use Rattle.cdc_gen.specs.Growing.{growing_logs, IsPlanned};

use crate::draws::Draws;
use crate::step::{Planned, Step, StepKind};
use crate::writing::put_step;
use cdc_base::{Buffer, Memory};
use std::alloc::Global;

/// The most transactions of a block.
const BLOCK: u32 = 4;

/// How many logs there are.
pub fn number_of(logs: &Vec<Buffer>) -> u32
    requires { length logs.now.items ≤ 256 }
    ensures { result ≡ length logs.now.items }
{
    logs.len() as u32
}

/// Appends a step to the log of its node.
pub fn put_on(alloc: Global, logs: &mut Vec<Buffer>, step: &Step) -> Result<(), Memory>
    requires nodes { length logs.old.items ≤ 256 }
    requires first { 1 ≤ step.now.node }
    requires last { step.now.node ≤ length logs.old.items }
    requires number { step.now.number ≤ 100000 }
    ensures nodes { length logs.new.items ≡ length logs.old.items }
    ensures ok { (nodes : ℕ) (steps : List OneStep) → length steps + 1 ≤ 1000000 → logs.old.items ≡ growing_logs nodes steps
        → OnOk result (logs.new.items ≡ growing_logs nodes (steps ++ step.now ∷ [])) }
{
    put_step(alloc, step, &mut logs[step.node as usize - 1])
}

/// Appends a step of a transaction to the log of each of its nodes.
fn put_transaction(
    alloc: Global,
    logs: &mut Vec<Buffer>,
    kind: StepKind,
    plan: &Planned,
) -> Result<(), Memory>
    requires nodes { length logs.old.items ≤ 256 }
    requires plan { IsPlanned (length logs.old.items) plan.now }
    ensures nodes { length logs.new.items ≡ length logs.old.items }
    ensures ok { (nodes : ℕ) (steps : List OneStep) → length steps + 2 ≤ 1000000 → logs.old.items ≡ growing_logs nodes steps
        → OnOk result (logs.new.items ≡ growing_logs nodes (steps ++ script_steps nodes kind plan.now)) }
{
    let nodes = number_of(logs);
    let number = plan.number;
    let node = plan.first;
    put_on(alloc, logs, &Step { node, kind, number })?;
    if nodes < 2 {
        return Ok(());
    }
    let node = plan.first % nodes + 1;
    put_on(alloc, logs, &Step { node, kind, number })
}

/// Appends a step of each of these transactions, in order.
fn put_all(
    alloc: Global,
    logs: &mut Vec<Buffer>,
    kind: StepKind,
    plan: &[Planned],
) -> Result<(), Memory>
    requires nodes { length logs.old.items ≤ 256 }
    requires plan { AllByRecursion (IsPlanned (length logs.old.items)) plan.now }
    requires few { length plan.now ≤ 4 }
    ensures nodes { length logs.new.items ≡ length logs.old.items }
    ensures ok { (nodes : ℕ) (steps : List OneStep) → length steps + 2 * length plan.now ≤ 1000000 → logs.old.items ≡ growing_logs nodes steps
        → OnOk result (logs.new.items ≡ growing_logs nodes (steps ++ flat_map (script_steps nodes kind) plan.now)) }
{
    for planned in plan {
        put_transaction(alloc, logs, kind, planned)?;
    }
    Ok(())
}

/// Appends the transaction on one node that stands behind each hundred.
fn put_local_where_due(alloc: Global, logs: &mut Vec<Buffer>, number: u32) -> Result<(), Memory>
    requires nodes { length logs.old.items ≤ 256 }
    requires some { 1 ≤ length logs.old.items }
    requires first { 1 ≤ number }
    requires number { number ≤ 100000 }
    ensures nodes { length logs.new.items ≡ length logs.old.items }
    ensures ok { (nodes : ℕ) (steps : List OneStep) → length steps + 1 ≤ 1000000 → logs.old.items ≡ growing_logs nodes steps
        → OnOk result (logs.new.items ≡ growing_logs nodes (steps ++ local_steps nodes number)) }
{
    if number % 100 != 0 {
        return Ok(());
    }
    let nodes = number_of(logs);
    let node = (number / 100 - 1) % nodes + 1;
    let kind = StepKind::Local;
    put_on(alloc, logs, &Step { node, kind, number })
}

/// Plans the transactions from `first` on, by a draw each.
fn plan_block(
    alloc: Global,
    draws: &mut Draws,
    nodes: u32,
    first: u32,
    size: u32,
) -> Result<Vec<Planned>, Memory>
    requires nodes { 1 ≤ nodes }
    requires number { first + size ≤ 100001 }
    requires size { size ≤ 4 }
    ensures state { OnOk result ((seed block : ℕ) → draws.old.state ≡ state_after (5 * block) seed → draws.new.state ≡ state_after (5 * block + size) seed) }
    ensures plan { IfOk result (λ plan. (seed block : ℕ) → first ≡ 4 * block + 1 → draws.old.state ≡ state_after (5 * block) seed
        → plan.items ≡ map (planned seed nodes) (range_with_len first size)) }
    ensures planned { IfOk result (λ plan. AllByRecursion (IsPlanned nodes) plan.items) }
    ensures size { IfOk result (λ plan. length plan.items ≡ size) }
{
    let mut plan = Vec::with_capacity(alloc, size as usize)?;
    for number in first..first + size {
        let first = draws.draw() % nodes + 1;
        plan.push(Planned { number, first })?;
    }
    Ok(plan)
}

/// Appends the steps of a block.
pub fn put_block(
    alloc: Global,
    draws: &mut Draws,
    logs: &mut Vec<Buffer>,
    block: u32,
    count: u32,
) -> Result<(), Memory>
    requires nodes { length logs.old.items ≤ 256 }
    requires some { 1 ≤ length logs.old.items }
    requires block { 4 * block < count }
    requires count { count ≤ 100000 }
    ensures nodes { length logs.new.items ≡ length logs.old.items }
    ensures state { 4 * block + 4 ≤ count → OnOk result ((seed : ℕ) → draws.old.state ≡ state_after (5 * block) seed → draws.new.state ≡ state_after (5 * (block + 1)) seed) }
    ensures ok { (seed nodes : ℕ) (steps : List OneStep) → length steps + 17 ≤ 1000000 → draws.old.state ≡ state_after (5 * block) seed
        → logs.old.items ≡ growing_logs nodes steps
        → OnOk result (logs.new.items ≡ growing_logs nodes (steps ++ block_steps seed nodes count block)) }
{
    let nodes = number_of(logs);
    let size = (count - BLOCK * block).min(BLOCK);
    let plan = plan_block(alloc, draws, nodes, BLOCK * block + 1, size)?;
    let start = (draws.draw() % size) as usize;
    let whole = plan.as_slice();
    put_all(alloc, logs, StepKind::Prepare, whole)?;
    let (front, back) = whole.split_at(start);
    put_all(alloc, logs, StepKind::Commit, back)?;
    put_all(alloc, logs, StepKind::Commit, front)?;
    put_local_where_due(alloc, logs, BLOCK * block + size)
}
