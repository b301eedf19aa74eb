//! The branches that wait.

ghost use Rattle.std.specs.Prelude.{◌≡◌, [], ◌∷◌, slice_get, OnOk, OnErr, IfSome, IfNone};
ghost use Rattle.std.specs.Option.{option_copied};
ghost use Rattle.std.specs.List.Sorted.{IsStrictlySortedBy};
ghost use Rattle.cdc_waiting.specs.Waiting.{wait_order, wait_with};

use crate::ranked_branch::RankedBranch;
use cdc_base::Memory;
use cdc_model::Branch;
use std::alloc::Global;
use std::collections::BTreeSet;
use std::marker::Model;

/// The committed branches that wait, seen as the list of them in their order. One of the same key and the same entry
/// waits once.
#[derive(Debug, Drop)]
pub struct Waiting {
    branches: BTreeSet<RankedBranch>,
}

impl Model for Waiting {
    ghost use Rattle.std.specs.Prelude.{List, map};
    ghost use Rattle.cdc_model.specs.Records.{CommittedBranch};

    ghost Value = { List CommittedBranch };

    ghost view = { λ waiting. map (λ ranked. ranked.branch) waiting.branches.keys };
}

impl Waiting {
    /// None waits.
    pub fn new(alloc: Global) -> Waiting
        ensures { result ≡ [] }
    {
        Waiting {
            branches: BTreeSet::new(alloc),
        }
    }

    /// A branch more, at its place. On `Memory` none is, and the branch is let go.
    pub fn add(&mut self, branch: Branch) -> Result<(), Memory>
        ensures ok { OnOk result (self.new ≡ wait_with self.old branch) }
        ensures err { OnErr result (self.new ≡ self.old) }
    {
        let _ = self.branches.insert(RankedBranch { branch })?;
        Ok(())
    }

    /// The first one; none exactly where none waits.
    pub fn first(&self) -> Option<&Branch>
        ensures { option_copied result ≡ slice_get self.now 0 }
    {
        match self.branches.first() {
            Some(ranked) => Some(&ranked.branch),
            None => None,
        }
    }

    /// Takes the first one out; none exactly where none waits.
    pub fn pop(&mut self) -> Option<Branch>
        ensures some { IfSome result (λ branch. self.old ≡ branch ∷ self.new) }
        ensures none { IfNone result ((self.old ≡ []) × (self.new ≡ [])) }
    {
        match self.branches.pop_first() {
            Some(ranked) => Some(ranked.branch),
            None => None,
        }
    }

    /// That they stand in their order.
    pub fn are_in_order(&self)
        ensures { IsStrictlySortedBy wait_order self.now }
    {
        let _count = self.branches.len();
    }
}
