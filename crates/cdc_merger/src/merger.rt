//! The merger.

ghost use Rattle.std.specs.Prelude.{◌≡◌, ◌≤◌, ◌<◌, ◌+◌, ◌-◌, ◌^◌, ℕ, List, [], length, IfOk, OnOk, OnErr, IfNone, IfSome, MatchOption};
ghost use Rattle.cdc_base.specs.declared.key.Key.{Key};
ghost use Rattle.cdc_model.specs.Records.{Transaction};
ghost use Rattle.cdc_model.specs.Feed.{NodeFeed};
ghost use Rattle.cdc_model.specs.Feed as feed;
ghost use Rattle.cdc_merger.specs.Heads.{HasNoHead, HasHead, head_count, no_heads};
ghost use Rattle.cdc_merger.specs.Rounds.{heads_under};
ghost use Rattle.cdc_merger.specs.Merging.{Merges, IsRoundOf, IsGivenInTime, GivesNext, HasCounted, CountsNext, given_branch, told_bound, no_feeds};

use crate::gather::{drain, gather, put_heads};
use crate::head::Head;
use crate::node::Node;
use crate::nodes::{first_seconds, least_bound};
use crate::tournament::{Tournament, empty_heads};
use cdc_base::{Key, Memory, Steps};
use cdc_model::{Branch, BranchList, Txn};
use std::alloc::Global;
use std::marker::Model;
use std::sync::ledger::Ledger;

/// Merges what nodes give into transactions.
///
/// Contracts see it as how many transactions it gave; what waits of each node with the bound that it told last; and the heads
/// of the round that it is in: it enters the heads that the least bound settles, gives them out, and then enters the next.
#[derive(Drop)]
pub struct Merger {
    alloc: Global,
    count: u64,
    nodes: Vec<Node>,
    heads: Tournament<Head>,
    entering: Vec<Option<Head>>,
    round: u64,
}

impl Model for Merger {
    ghost use Rattle.cdc_merger.specs.Merging.{Merging};

    ghost Value = { Merging };

    ghost use Rattle.cdc_merger.specs.Merging.{merger_seen, HasPlaces};

    ghost view = { merger_seen };

    ghost invariant = { HasPlaces };
}

// So many nodes that have given and told nothing.
fn no_nodes(alloc: Global, nodes: u32) -> Result<Vec<Node>, Memory>
    ensures { IfOk result (λ list. list.items ≡ no_feeds nodes) }
{
    let mut list = Vec::new(alloc);
    for _ in 0..nodes {
        list.push(Node::new(alloc))?;
    }
    Ok(list)
}

// The number after another, as far as numbers go.
fn one_more(count: u64) -> u64
    ensures { count < 2 ^ 64 - 1 → result ≡ count + 1 }
{
    count.saturating_add(1)
}

impl Merger {
    /// A merger of 1 to 256 nodes that has given nothing; the first transaction's number is one above `count`, and all keys
    /// are to lie above `last`.
    pub fn new(alloc: Global, nodes: u32, count: u64, last: &Key) -> Result<Merger, Memory>
        requires some { 1 ≤ nodes }
        requires few { nodes ≤ 256 }
        ensures nodes { IfOk result (λ merger. (merger.nodes ≡ no_feeds nodes) × (merger.count ≡ count) × (merger.heads ≡ no_heads Key nodes)) }
        ensures merges { IfOk result (λ merger. Merges merger count last.now (no_feeds nodes) []) }
    {
        let _ = last;
        Ok(Merger {
            alloc,
            count,
            nodes: no_nodes(alloc, nodes)?,
            heads: Tournament::new(alloc, nodes)?,
            entering: empty_heads(alloc, nodes)?,
            round: 0,
        })
    }

    /// Takes a branch of a node. On `Memory` nothing has changed, but the branch is lost.
    pub fn give(&mut self, node: u32, branch: Branch) -> Result<(), Memory>
        requires first { 1 ≤ node }
        requires within { node ≤ length self.old.nodes }
        ensures waits { OnOk result ((self.new.nodes ≡ given_branch node branch self.old.nodes) × (self.new.count ≡ self.old.count)) }
        ensures given { OnOk result ((count : ℕ) (last : Key) (feeds : List NodeFeed) (gave : List Transaction) → Merges self.old count last feeds gave → IsGivenInTime last node branch feeds → Merges self.new count last (given_branch node branch feeds) gave) }
        ensures nodes { length self.new.nodes ≡ length self.old.nodes }
        ensures heads { self.new.heads ≡ self.old.heads }
        ensures err { OnErr result (self.new ≡ self.old) }
    {
        self.nodes[node as usize - 1].give(branch)
    }

    /// Takes a bound of a node: what it gives from now on isn't settled under it.
    pub fn bound(&mut self, node: u32, bound: u64)
        requires first { 1 ≤ node }
        requires within { node ≤ length self.old.nodes }
        ensures told { (self.new.nodes ≡ told_bound node bound self.old.nodes) × (self.new.count ≡ self.old.count) }
        ensures merges { (count : ℕ) (last : Key) (feeds : List NodeFeed) (gave : List Transaction) → Merges self.old count last feeds gave → feed.least_bound feeds ≤ feed.least_bound (told_bound node bound feeds) → Merges self.new count last (told_bound node bound feeds) gave }
        ensures nodes { length self.new.nodes ≡ length self.old.nodes }
        ensures heads { self.new.heads ≡ self.old.heads }
    {
        self.nodes[node as usize - 1].tell(bound);
    }

    // Enters the heads that the least bound settles, and says that bound.
    fn enter_heads<L: Ledger>(&mut self, steps: &mut Steps<L>) -> u64
        requires { HasNoHead self.old.heads }
        ensures nodes { (self.new.nodes ≡ self.old.nodes) × (self.new.count ≡ self.old.count) × (self.new.round ≡ self.old.round) }
        ensures entered { self.new.heads ≡ heads_under result self.old.nodes }
        ensures many { length self.new.heads ≡ length self.old.heads }
        ensures few { steps.new ≤ steps.old + head_count self.new.heads }
        ensures bound { result ≡ feed.least_bound self.old.nodes }
    {
        let bound = least_bound(&self.nodes);
        put_heads(&self.nodes, bound, &mut self.entering);
        self.heads.enter(&mut self.entering, steps);
        bound
    }

    // Begins a round under the least bound, where it settles a head; else nothing changes.
    fn begin_round<L: Ledger>(&mut self, steps: &mut Steps<L>)
        requires { HasNoHead self.old.heads }
        ensures nodes { (self.new.nodes ≡ self.old.nodes) × (self.new.count ≡ self.old.count) }
        ensures entered { self.new.heads ≡ heads_under (feed.least_bound self.old.nodes) self.old.nodes }
        ensures round { HasHead self.new.heads → self.new.round ≡ feed.least_bound self.old.nodes }
        ensures none { HasNoHead self.new.heads → self.new ≡ self.old }
        ensures few { steps.new ≤ steps.old + head_count self.new.heads }
    {
        let bound = self.enter_heads(steps);
        if self.heads.least().is_some() {
            self.round = bound;
        }
    }

    // Sees to it that heads are entered, where the least bound settles one.
    fn prepare<L: Ledger>(&mut self, steps: &mut Steps<L>)
        ensures nodes { (self.new.nodes ≡ self.old.nodes) × (self.new.count ≡ self.old.count) }
        ensures none { HasNoHead self.new.heads → (self.new ≡ self.old) × HasNoHead (heads_under (feed.least_bound self.old.nodes) self.old.nodes) }
        ensures merges { (count : ℕ) (last : Key) (feeds : List NodeFeed) (gave : List Transaction) → HasHead self.new.heads → Merges self.old count last feeds gave → IsRoundOf self.new count last feeds gave }
        ensures few { steps.new + head_count self.old.heads ≤ steps.old + head_count self.new.heads }
    {
        if let Some(_) = self.heads.leading() {
            return;
        }
        self.begin_round(steps);
    }

    /// The transaction of the least key that is settled under the least bound of all nodes; none exactly where no key is. On
    /// `Memory` nothing has changed, but the round is begun anew.
    pub fn next<L: Ledger>(&mut self, steps: &mut Steps<L>) -> Result<Option<Txn>, Memory>
        ensures gives { IfOk result (λ answer. (count : ℕ) (last : Key) (feeds : List NodeFeed) (gave : List Transaction) → Merges self.old count last feeds gave → count + length gave < 2 ^ 64 - 1 → GivesNext self.old self.new count last feeds gave answer) }
        ensures counts { IfOk result (λ answer. (start count : ℕ) (last : Key) (feeds : List NodeFeed) (gave : List Transaction) → Merges self.old count last feeds gave → HasCounted self.old start steps.old gave → CountsNext self.new start steps.new gave answer) }
        ensures nodes { length self.new.nodes ≡ length self.old.nodes }
        ensures cleared { OnErr result ((count : ℕ) (last : Key) (feeds : List NodeFeed) (gave : List Transaction) → Merges self.old count last feeds gave → Merges self.new count last feeds gave) }
        ensures err { OnErr result ((self.new.nodes ≡ self.old.nodes) × (self.new.count ≡ self.old.count) × HasNoHead self.new.heads) }
    {
        self.prepare(steps);
        let Some((_, head)) = self.heads.leading() else {
            return Ok(None);
        };
        let key = head.key();
        let mut branches = BranchList::new(self.alloc);
        match gather(
            &mut self.nodes,
            &mut self.heads,
            self.round,
            &key,
            0,
            &mut branches,
            steps,
        ) {
            Ok(()) => {
                self.count = one_more(self.count);
                Ok(Some(Txn {
                    number: self.count,
                    key,
                    seconds: first_seconds(branches.as_slice()),
                    branches,
                }))
            }
            Err(Memory) => {
                drain(&mut self.heads, steps);
                Err(Memory)
            }
        }
    }
}
