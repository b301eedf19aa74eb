//! What a key's transaction is gathered from: the nodes whose heads are the key, as the tournament leads to them.

ghost use Rattle.std.specs.Prelude.{◌≡◌, ◌≤◌, ℕ, length, map, OnOk, OnErr};
ghost use Rattle.cdc_model.specs.Feed as feed;
ghost use Rattle.cdc_merger.specs.Heads.{HasNoHead};
ghost use Rattle.cdc_merger.specs.Rounds.{heads_under, CanGather, GathersKey, TakesFew};

use crate::head::Head;
use crate::node::Node;
use crate::tournament::Tournament;
use cdc_base::{Key, Memory, Steps};
use cdc_model::BranchList;
use std::sync::ledger::Ledger;

/// Puts each node's first key that a mark settles in its place.
pub fn put_heads(nodes: &[Node], mark: u64, heads: &mut [Option<Head>])
    requires { length heads.old ≡ length nodes.now }
    ensures { heads.new ≡ heads_under mark nodes.now }
{
    for index in 0..nodes.len() {
        heads[index] = nodes[index].head_under(mark);
    }
}

/// Appends the branches of a key that wait in front of the nodes from one on, node by node, and drops them there; in their
/// places it enters what a round's mark settles behind them. On `Memory` the nodes are unchanged.
pub fn gather<L: Ledger>(
    nodes: &mut [Node],
    heads: &mut Tournament<Head>,
    round: u64,
    key: &Key,
    from: usize,
    own: &mut BranchList,
    steps: &mut Steps<L>,
) -> Result<(), Memory>
    requires from { from ≤ length nodes.old }
    requires many { length heads.old ≡ length nodes.old }
    ensures gathers { OnOk result (CanGather round key.now from nodes.old heads.old → GathersKey round key.now from nodes.old nodes.new heads.old heads.new own.old own.new) }
    ensures few { OnOk result (CanGather round key.now from nodes.old heads.old → TakesFew (length nodes.old) steps.old steps.new heads.old heads.new own.old own.new) }
    ensures many { length heads.new ≡ length heads.old }
    ensures err { OnErr result (nodes.new ≡ nodes.old) }
{
    let Some((node, head)) = heads.leading() else {
        return Ok(());
    };
    let node = node as usize;
    if node < from {
        return Ok(());
    }
    if !head.is_key(key) {
        return Ok(());
    }
    nodes[node].share_front(key, own)?;
    let next = nodes[node].head_behind(key, round);
    let _ = heads.replace(next, steps);
    gather(nodes, heads, round, key, node + 1, own, steps)?;
    nodes[node].drop_front(key);
    Ok(())
}

/// Takes all heads back.
pub fn drain<L: Ledger>(heads: &mut Tournament<Head>, steps: &mut Steps<L>)
    ensures none { HasNoHead heads.new }
    ensures many { length heads.new ≡ length heads.old }
{
    while let Some(_) = heads.leading() {
        let _ = heads.replace(None, steps);
    }
}
