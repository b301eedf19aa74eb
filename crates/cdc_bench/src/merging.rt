//! Branches of so many nodes through a merger.

ghost use Rattle.std.specs.Prelude.{◌≡◌, ◌≤◌, ◌<◌, ◌^◌, length};

use crate::tally::Tally;
use cdc_base::{Gtrid, Key, Memory, Steps, first_key, gtrid_of};
use cdc_merger::Merger;
use cdc_model::{Branch, RowList};
use std::alloc::Global;
use std::sync::ledger::{Blank, Ledger};

/// The branch of a node in a round: each is a transaction of its own.
fn branch_of(round: u32, node: u32) -> Branch {
    let mixed = node.wrapping_mul(0x9e37_79b9);
    let gtrid = match gtrid_of(&mixed.to_be_bytes()) {
        Some(gtrid) => gtrid,
        None => Gtrid::empty(),
    };
    Branch {
        key: Key::Shared {
            timestamp: u64::from(round) + 1,
            gtrid,
        },
        entry: u64::from(round) + 1,
        seconds: 0,
        rows: RowList::empty(),
    }
}

// Each node gives a branch and tells a bound.
fn give_round(merger: &mut Merger, nodes: u32, round: u32) -> Result<(), Memory>
    requires { nodes ≤ length merger.old.nodes }
    ensures { length merger.new.nodes ≡ length merger.old.nodes }
{
    for index in 0..nodes {
        merger.give(index + 1, branch_of(round, index))?;
        merger.bound(index + 1, u64::from(round) + 1);
    }
    Ok(())
}

// Takes all transactions that are settled: how many, and how many branches they have.
fn taken<L: Ledger>(
    merger: &mut Merger,
    steps: &mut Steps<L>,
    tally: &mut Tally,
) -> Result<(), Memory>
    ensures { length merger.new.nodes ≡ length merger.old.nodes }
{
    for _ in 0..u64::MAX {
        let Some(txn) = merger.next(steps)? else {
            return Ok(());
        };
        tally.count = tally.count.saturating_add(1);
        tally.bytes = tally.bytes.saturating_add(txn.branches.len() as u64);
    }
    Ok(())
}

/// In so many rounds each node gives a branch and tells a bound, and all transactions that are settled are taken out. The
/// tally has the transactions, and their branches in place of bytes.
pub fn merge_rounds<L: Ledger>(
    alloc: Global,
    nodes: u32,
    rounds: u32,
    blank: Blank,
) -> Result<Tally, Memory>
    requires some { 1 ≤ nodes }
    requires few { nodes ≤ 256 }
    requires name { blank.name ≡ L.name }
    requires parts { blank.parts ≡ L.parts }
    requires whole { 0 < L.parts }
{
    let mut steps = Steps::<L>::new(blank);
    let mut merger = Merger::new(alloc, nodes, 0, &first_key())?;
    let mut tally = Tally { count: 0, bytes: 0 };
    for round in 0..rounds {
        give_round(&mut merger, nodes, round)?;
        taken(&mut merger, &mut steps, &mut tally)?;
    }
    Ok(tally)
}
