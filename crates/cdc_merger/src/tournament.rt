//! A tournament of nodes by their heads.

ghost use Rattle.std.specs.Prelude.{◌≡◌, ◌≤◌, ◌<◌, ◌+◌, ◌-◌, ◌^◌, ℕ, length, map, Option, Some, None, IfOk, IfNone, IfSome, slice_set};
ghost use Rattle.cdc_merger.specs.Heads.{no_heads, HasNoHead, HasHead, head_count, LeadsWith, IsLeader};

use crate::bracket::{Bracket, bracket_of, leader, play, replay};
use cdc_base::{Memory, Ranked, Steps};
use std::alloc::Global;
use std::marker::Model;
use std::mem;
use std::sync::ledger::Ledger;

/// One head a node, or none, and which node has the least head. Heads are compared by `compare` alone.
///
/// Contracts see it as the list of its heads, node 1 first; nodes are counted from 0 here.
#[derive(Drop)]
pub struct Tournament<K: Ranked + Drop> {
    heads: Vec<Option<K>>,
    bracket: Bracket,
}

impl<K: Ranked + Drop> Model for Tournament<K> {
    ghost use Rattle.std.specs.Prelude.{List, Option};
    ghost use Rattle.cdc_merger.specs.Bracket.{IsBracketOf};

    ghost Value = { List (Option K) };

    ghost view = { λ tournament. tournament.heads.items };

    ghost invariant = { λ tournament. IsBracketOf K.order tournament.heads.items tournament.bracket };
}

/// So many places without a head.
pub fn empty_heads<K: Drop>(alloc: Global, nodes: u32) -> Result<Vec<Option<K>>, Memory>
    ensures { IfOk result (λ heads. heads.items ≡ no_heads K nodes) }
{
    let mut heads = Vec::new(alloc);
    for _ in 0..nodes {
        heads.push(None)?;
    }
    Ok(heads)
}

impl<K: Ranked + Drop> Tournament<K> {
    /// A tournament of so many nodes, 1 to 256, without heads.
    pub fn new(alloc: Global, nodes: u32) -> Result<Tournament<K>, Memory>
        requires some { 1 ≤ nodes }
        requires few { nodes ≤ 256 }
        ensures { IfOk result (λ tournament. tournament ≡ no_heads K nodes) }
    {
        let heads = empty_heads(alloc, nodes)?;
        let bracket = bracket_of(alloc, 0, nodes)?;
        Ok(Tournament { heads, bracket })
    }

    /// Takes one head a node out of `heads`, and leaves none in their places. Of m heads it makes at most m - 1 comparisons,
    /// and none where there is no head.
    pub fn enter<L: Ledger>(&mut self, heads: &mut Vec<Option<K>>, steps: &mut Steps<L>)
        requires empty { HasNoHead self.old }
        requires nodes { length heads.old.items ≡ length self.old }
        ensures entered { self.new ≡ heads.old.items }
        ensures taken { heads.new.items ≡ self.old }
        ensures counted { steps.new ≤ steps.old + (head_count heads.old.items - 1) }
    {
        mem::swap(&mut self.heads, heads);
        play(&mut self.bracket, &self.heads, steps);
    }

    /// The node of the least head and that head, the lesser node in a tie; none exactly where there is no head.
    pub fn leading(&self) -> Option<(u32, &K)>
        ensures none { IfNone result (HasNoHead self.now) }
        ensures some { IfSome result (λ found. LeadsWith K.order self.now found.0 found.1.now) }
        ensures has { IfSome result (λ found. HasHead self.now) }
    {
        let node = leader(&self.bracket);
        match &self.heads[node as usize] {
            None => None,
            Some(head) => Some((node, head)),
        }
    }

    /// The node of the least head, the lesser node in a tie; none exactly where there is no head.
    pub fn least(&self) -> Option<u32>
        ensures none { IfNone result (HasNoHead self.now) }
        ensures some { IfSome result (λ node. IsLeader K.order self.now node) }
    {
        match self.leading() {
            None => None,
            Some((node, _)) => Some(node),
        }
    }

    /// Gives the least head out, and puts another or none in its node's place. It makes at most as many comparisons as the count
    /// of nodes has binary digits.
    pub fn replace<L: Ledger>(&mut self, next: Option<K>, steps: &mut Steps<L>) -> K
        requires { HasHead self.old }
        ensures given { (node : ℕ) × LeadsWith K.order self.old node result × (self.new ≡ slice_set self.old node next) }
        ensures counted { (digits : ℕ) → length self.old < 2 ^ digits → steps.new ≤ steps.old + digits }
    {
        let node = leader(&self.bracket);
        let head = mem::replace(&mut self.heads[node as usize], next);
        replay(&mut self.bracket, &self.heads, node, steps);
        match head {
            Some(key) => key,
            None => unreachable!(),
        }
    }
}
