//! From what nodes give to units.

ghost use Rattle.std.specs.Prelude.{◌≡◌, ◌+◌, ◌-◌, ◌≤◌, ◌<◌, ◌^◌, ℕ, List, [], length, IfOk, OnOk, OnErr};
ghost use Rattle.cdc_model.specs.Layout.{IsRotation, HasRoom};
ghost use Rattle.cdc_model.specs.Records.{Transaction};
ghost use Rattle.cdc_model.specs.Feed.{NodeFeed, fed_branches};
ghost use Rattle.cdc_merger.specs.Merging.{IsGivenInTime, given_branch, told_bound, no_feeds};
ghost use Rattle.cdc_merge_stage.specs.Making.{Makes, MakesNext, IsUnitMade, IsHigher, FallsBy};
ghost use Rattle.cdc_merge_stage.specs.declared.start.MergeStart.{MergeStart};

use crate::start::MergeStart;
use cdc_base::{Memory, Steps};
use cdc_merger::Merger;
use cdc_model::{Branch, Layout, Txn};
use cdc_rename::Names;
use cdc_writer::{PrintError, unit};
use std::alloc::Global;
use std::marker::Model;
use std::sync::ledger::Ledger;

/// Files and transactions are numbered no higher. Neither is reached.
const LAST_NUMBER: u64 = 1 << 62;

/// What comes next of what was given.
#[derive(Debug, Drop)]
pub(crate) enum Made {
    /// The next transaction's unit.
    Unit(cdc_model::Unit),
    /// No more is settled.
    Nothing,
    /// The next transaction's print is too large.
    TooLarge { number: u64, bytes: u64 },
    /// There was no memory, or no number for another file.
    Memory,
}

/// A merger, with where the outputs stand behind the last unit, and how many branches it was given for which no transaction
/// has come: as many more can come at most. It can be given so many branches more as there are numbers for transactions.
#[derive(Drop)]
pub(crate) struct Maker<'a, L: Ledger> {
    alloc: Global,
    merger: Merger,
    steps: Steps<L>,
    names: &'a Names,
    rotation: u64,
    before: Layout,
    credit: u64,
    room: u64,
}

impl<'a, L: Ledger> Model for Maker<'a, L> {
    ghost use Rattle.cdc_merge_stage.specs.Making.{CanPrint, MakerState};

    ghost Value = { MakerState };

    ghost view = { λ maker. record { merger = maker.merger; rules = maker.names.now; rotation = maker.rotation; before = maker.before; credit = maker.credit; room = maker.room } };

    ghost invariant = { λ maker. CanPrint maker.rotation maker.before };
}

// How many numbers there are behind a count.
fn numbers_behind(count: u64) -> u64
    ensures { result ≡ 2 ^ 62 - count }
{
    LAST_NUMBER.saturating_sub(count)
}

impl<'a, L: Ledger> Maker<'a, L> {
    /// A maker of 1 to 256 nodes that begins here.
    pub(crate) fn new(
        alloc: Global,
        nodes: u32,
        rotation: u64,
        names: &'a Names,
        start: &MergeStart,
        steps: Steps<L>,
    ) -> Result<Maker<'a, L>, Memory>
        requires some { 1 ≤ nodes }
        requires few { nodes ≤ 256 }
        requires rotation { IsRotation rotation }
        requires before { HasRoom start.now.before }
        ensures makes { IfOk result (λ maker. Makes maker start.now (no_feeds nodes) []) }
        ensures parts { IfOk result (λ maker. (maker.rules ≡ names.now) × (maker.rotation ≡ rotation) × (length maker.merger.nodes ≡ nodes) × (maker.credit ≡ 0)) }
    {
        Ok(Maker {
            alloc,
            merger: Merger::new(alloc, nodes, start.count, &start.last)?,
            steps,
            names,
            rotation,
            before: start.before,
            credit: 0,
            room: numbers_behind(start.count),
        })
    }

    /// Takes a branch of a node. On `Memory` the branch is lost.
    pub(crate) fn give(&mut self, node: u32, branch: Branch) -> Result<(), Memory>
        requires first { 1 ≤ node }
        requires within { node ≤ length self.old.merger.nodes }
        ensures given { OnOk result ((start : MergeStart) (feeds : List NodeFeed) (gave : List Transaction) → Makes self.old start feeds gave → IsGivenInTime start.last node branch feeds
            → Makes self.new start (given_branch node branch feeds) gave) }
        ensures same { (self.new.rules ≡ self.old.rules) × (self.new.rotation ≡ self.old.rotation) × (length self.new.merger.nodes ≡ length self.old.merger.nodes) }
        ensures credit { OnOk result (self.new.credit ≤ self.old.credit + 1) }
        ensures err { OnErr result (self.new.credit ≡ self.old.credit) }
    {
        if self.room == 0 {
            return Err(Memory);
        }
        self.merger.give(node, branch)?;
        self.room -= 1;
        self.credit = self.credit.saturating_add(1);
        Ok(())
    }

    /// Takes a bound of a node.
    pub(crate) fn bound(&mut self, node: u32, bound: u64)
        requires first { 1 ≤ node }
        requires within { node ≤ length self.old.merger.nodes }
        ensures told { (start : MergeStart) (feeds : List NodeFeed) (gave : List Transaction) → Makes self.old start feeds gave → IsHigher node bound feeds → Makes self.new start (told_bound node bound feeds) gave }
        ensures same { (self.new.rules ≡ self.old.rules) × (self.new.rotation ≡ self.old.rotation) × (length self.new.merger.nodes ≡ length self.old.merger.nodes) × (self.new.credit ≡ self.old.credit) }
    {
        self.merger.bound(node, bound);
    }

    // The unit of the next transaction.
    fn print(&mut self, txn: &Txn) -> Made
        requires { 0 < self.old.credit }
        ensures made { IsUnitMade self.old self.new txn.now result }
        ensures merger { self.new.merger ≡ self.old.merger }
        ensures same { (self.new.rules ≡ self.old.rules) × (self.new.rotation ≡ self.old.rotation) × (self.new.room ≡ self.old.room) }
    {
        if self.before.file >= LAST_NUMBER {
            return Made::Memory;
        }
        match unit(self.alloc, txn, self.names, &self.before, self.rotation) {
            Ok(made) => {
                self.before = made.after;
                self.credit -= 1;
                Made::Unit(made)
            }
            Err(PrintError::TooLarge { number, bytes }) => Made::TooLarge { number, bytes },
            Err(PrintError::Memory) => Made::Memory,
        }
    }

    /// What comes next of what was given: the unit of the next transaction that the least bound settles, if there is one.
    pub(crate) fn make(&mut self) -> Made
        ensures next { (start : MergeStart) (feeds : List NodeFeed) (gave : List Transaction) → Makes self.old start feeds gave → MakesNext self.old self.new start feeds gave result }
        ensures falls { FallsBy self.old.credit self.new.credit result }
        ensures same { (self.new.rules ≡ self.old.rules) × (self.new.rotation ≡ self.old.rotation) × (length self.new.merger.nodes ≡ length self.old.merger.nodes) }
    {
        if self.credit == 0 {
            return Made::Nothing;
        }
        match self.merger.next(&mut self.steps) {
            Ok(Some(txn)) => self.print(&txn),
            Ok(None) => Made::Nothing,
            Err(Memory) => Made::Memory,
        }
    }
}
