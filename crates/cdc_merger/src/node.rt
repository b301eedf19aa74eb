//! What waits of one node.

ghost use Rattle.std.specs.Prelude.{◌≡◌, ◌++◌, [], Some, None, if◌then◌else◌, OnOk, OnErr};
ghost use Rattle.cdc_model.specs.Branch as settled;
ghost use Rattle.cdc_model.specs.Transaction as transaction;
ghost use Rattle.cdc_merger.specs.Rounds.{head_under};
ghost use Rattle.cdc_merger.specs.Feeding.{with_branch, with_bound, front_of, behind_front, without_front, begins_with};

use crate::head::Head;
use crate::nodes::is_settled;
use cdc_base::{Key, Memory, key_cmp};
use cdc_model::{Branch, BranchList};
use std::alloc::Global;
use std::collections::VecDeque;
use std::marker::Model;

/// What waits of one node, and the bound that it told last.
#[derive(Debug, Drop)]
pub struct Node {
    waiting: VecDeque<Branch>,
    bound: u64,
}

impl Model for Node {
    ghost use Rattle.cdc_model.specs.Feed.{NodeFeed};

    ghost Value = { NodeFeed };

    ghost use Rattle.cdc_merger.specs.Feeding.{node_seen};

    ghost view = { node_seen };
}

// Whether a branch belongs to the transaction of a key.
fn has_key(key: &Key, branch: &Branch) -> bool
    ensures { result ≡ transaction.has_key key.now branch.now }
{
    key_cmp(key, &branch.key).is_eq()
}

// A branch's key, where a mark settles it.
fn settled_head(mark: u64, branch: &Branch) -> Option<Head>
    ensures { result ≡ (if settled.is_settled mark branch.now.key then Some branch.now.key else None) }
{
    if is_settled(mark, &branch.key) {
        Some(Head::new(&branch.key))
    } else {
        None
    }
}

impl Node {
    /// A node that has given and told nothing.
    pub fn new(alloc: Global) -> Node
        ensures { result ≡ record { branches = []; bound = 0 } }
    {
        Node {
            waiting: VecDeque::new(alloc),
            bound: 0,
        }
    }

    /// The bound that the node told last.
    pub fn bound(&self) -> u64
        ensures { result ≡ self.now.bound }
    {
        self.bound
    }

    /// Lets a branch wait. On `Memory` nothing has changed, but the branch is lost.
    pub fn give(&mut self, branch: Branch) -> Result<(), Memory>
        ensures ok { OnOk result (self.new ≡ with_branch branch self.old) }
        ensures err { OnErr result (self.new ≡ self.old) }
    {
        match self.waiting.push_back(branch) {
            Ok(()) => Ok(()),
            Err(_) => Err(Memory),
        }
    }

    /// Puts another bound.
    pub fn tell(&mut self, bound: u64)
        ensures { self.new ≡ with_bound bound self.old }
    {
        self.bound = bound;
    }

    /// The first key that waits, where a mark settles it.
    pub fn head_under(&self, mark: u64) -> Option<Head>
        ensures { result ≡ head_under mark self.now.branches }
    {
        match self.waiting.front() {
            Some(branch) => settled_head(mark, branch),
            None => None,
        }
    }

    /// The first key that waits behind a key's branches, where a mark settles it.
    pub fn head_behind(&self, key: &Key, mark: u64) -> Option<Head>
        ensures { result ≡ head_under mark (behind_front key.now self.now.branches) }
    {
        let mut index = 0;
        while let Some(branch) = self.waiting.get(index) {
            if !has_key(key, branch) {
                return settled_head(mark, branch);
            }
            index += 1;
        }
        None
    }

    /// Appends the branches of a key that wait in front.
    pub fn share_front(&self, key: &Key, own: &mut BranchList) -> Result<(), Memory>
        ensures { OnOk result (own.new ≡ own.old ++ front_of key.now self.now.branches) }
    {
        let mut index = 0;
        while let Some(branch) = self.waiting.get(index) {
            if !has_key(key, branch) {
                return Ok(());
            }
            own.push(branch.share()?)?;
            index += 1;
        }
        Ok(())
    }

    // Whether the first branch that waits has a key.
    fn begins_with(&self, key: &Key) -> bool
        ensures { result ≡ begins_with key.now self.now.branches }
    {
        match self.waiting.front() {
            Some(branch) => has_key(key, branch),
            None => false,
        }
    }

    /// Drops the branches of a key that wait in front.
    pub fn drop_front(&mut self, key: &Key)
        ensures { self.new ≡ without_front key.now self.old }
    {
        while self.begins_with(key) {
            let _ = self.waiting.pop_front();
        }
    }
}
