//! The logs of a drill.

ghost use Rattle.std.specs.Prelude.{◌≡◌, ℕ, ◌+◌, ◌/◌, ◌≤◌, ◌^◌, [], ◌++◌, List, length, map, IfOk, OnOk};
ghost use Rattle.std.specs.List.{range_with_len, flat_map, AllByRecursion};
ghost use Rattle.cdc_gen.specs.declared.step.Step.{Step as OneStep};
ghost use Rattle.cdc_gen.specs.Script.{block_steps, end_steps};
ghost use Rattle.cdc_gen.specs.Logs.{drill_logs};
ghost use Rattle.cdc_gen.specs.Growing.{growing_logs};

use crate::block::{number_of, put_block, put_on};
use crate::draws::Draws;
use crate::head::put_head;
use crate::step::{Step, StepKind};
use cdc_base::{Blob, Buffer, Items, Memory};
use std::alloc::Global;

/// A list of log files.
pub type LogList = Items<Blob>;

/// The heads of so many logs.
fn heads(alloc: Global, nodes: u32) -> Result<Vec<Buffer>, Memory>
    ensures { IfOk result (λ logs. logs.items ≡ growing_logs nodes []) }
{
    let mut logs = Vec::with_capacity(alloc, nodes as usize)?;
    for _node in 0..nodes {
        let mut log = Buffer::new(alloc);
        put_head(&mut log)?;
        logs.push(log)?;
    }
    Ok(logs)
}

/// Appends all blocks of transactions.
fn put_blocks(alloc: Global, seed: u64, count: u32, logs: &mut Vec<Buffer>) -> Result<(), Memory>
    requires nodes { length logs.old.items ≤ 256 }
    requires some { 1 ≤ length logs.old.items }
    requires count { count ≤ 100000 }
    ensures nodes { length logs.new.items ≡ length logs.old.items }
    ensures ok { (nodes : ℕ) → logs.old.items ≡ growing_logs nodes [] → OnOk result (logs.new.items ≡ growing_logs nodes (flat_map (block_steps seed nodes count) (range_with_len 0 ((count + 3) / 4)))) }
{
    let mut draws = Draws { state: seed };
    for block in 0..(count + 3) / 4 {
        put_block(alloc, &mut draws, logs, block, count)?;
    }
    Ok(())
}

/// Appends the last beat to each log.
fn put_ends(alloc: Global, count: u32, logs: &mut Vec<Buffer>) -> Result<(), Memory>
    requires nodes { length logs.old.items ≤ 256 }
    requires count { count ≤ 100000 }
    ensures { (nodes : ℕ) (steps : List OneStep) → length steps + 256 ≤ 1000000 → logs.old.items ≡ growing_logs nodes steps
        → OnOk result (logs.new.items ≡ growing_logs nodes (steps ++ end_steps nodes count)) }
{
    let nodes = number_of(logs);
    for index in 0..nodes {
        let end = Step {
            node: index + 1,
            kind: StepKind::End,
            number: count,
        };
        put_on(alloc, logs, &end)?;
    }
    Ok(())
}

/// The same bytes, to be shared.
fn frozen(alloc: Global, logs: Vec<Buffer>) -> Result<LogList, Memory>
    ensures { IfOk result (λ list. list ≡ logs.items) }
{
    let mut list = LogList::new(alloc);
    for log in logs {
        list.push(log.freeze()?)?;
    }
    Ok(list)
}

/// The log files of so many nodes with so many transactions on one and two of them, drawn from a seed. Each has at most 2^40
/// bytes.
pub fn logs_of(alloc: Global, seed: u64, nodes: u32, count: u32) -> Result<LogList, Memory>
    requires some { 1 ≤ nodes }
    requires nodes { nodes ≤ 256 }
    requires count { count ≤ 100000 }
    ensures logs { IfOk result (λ logs. logs ≡ drill_logs seed nodes count) }
    ensures short { IfOk result (λ logs. AllByRecursion (λ log. length log ≤ 2 ^ 40) logs) }
{
    let mut logs = heads(alloc, nodes)?;
    put_blocks(alloc, seed, count, &mut logs)?;
    put_ends(alloc, count, &mut logs)?;
    frozen(alloc, logs)
}
