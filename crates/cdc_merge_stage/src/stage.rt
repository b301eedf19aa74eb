//! The merge stage.

ghost use Rattle.std.specs.Prelude.{◌≡◌, ◌≤◌, ◌<◌, ◌+◌, ◌^◌, ℕ, true, false, List, [], ◌∷◌, length, get_or, set, map, is_some, is_none, Some, None, IfOk, IfSome};
ghost use Rattle.cdc_model.specs.Layout.{IsRotation, HasRoom};
ghost use Rattle.cdc_turns.specs.Joined.{nothing_for};
ghost use Rattle.cdc_item.specs.declared.node_item.NodeItem.{NodeItem};
ghost use Rattle.cdc_item.specs.declared.dump_item.DumpItem.{DumpItem};
ghost use Rattle.cdc_item.specs.declared.dump_item.DumpItem.TheVariants.{End as TheEnd};
ghost use Rattle.cdc_merge_stage.specs.declared.merge_end.MergeEnd.TheVariants.{Open};
ghost use Rattle.cdc_merge_stage.specs.Merged.{MergeState, MergeDid, AreKept, IsSameMerge, merge_work, all_true, all_none, has_ended, merges_on, merge_end_again};
ghost use Rattle.cdc_merge_stage.specs.Passing.{HasAccepted, Pushes, TakesOff, AfterMake, MakeCosts, MakeLeaves, HasFilled, PushesFirst, ComesTo, Turned, IsQuiet};

use crate::maker::{Made, Maker};
use crate::merge_end::MergeEnd;
use crate::slots::{
    clear, close, fill, first_filled, is_clear, lagging, no_bounds, no_ends, no_items, put_slot,
    reset, take_slot,
};
use crate::start::MergeStart;
use cdc_base::{Key, Memory, Steps};
use cdc_item::{DumpItem, NodeItem};
use cdc_model::{Branch, Layout, Unit};
use cdc_outside::{LaneIn, LaneOut};
use cdc_rename::Names;
use cdc_turns::Turn;
use std::alloc::Global;
use std::marker::Model;
use std::sync::ledger::Ledger;

/// The merge stage: what it makes units of; where it began, and where it stands behind the last unit; which nodes' Ends have come, and the bounds that they told last;
/// the least of these bounds when it last made all that was settled under it, and how many were told since; what waits for each output's lane; whether the Ends are
/// given; and how it ended.
#[derive(Drop)]
pub struct MergeStage<'a, L: Ledger> {
    maker: Maker<'a, L>,
    start: MergeStart,
    behind: MergeStart,
    took: Vec<bool>,
    bounds: Vec<u64>,
    made_under: Option<u64>,
    told: u32,
    slots: Vec<Option<DumpItem>>,
    closing: bool,
    end: MergeEnd,
}

impl<'a, L: Ledger> Model for MergeStage<'a, L> {
    ghost use Rattle.cdc_merge_stage.specs.Merged.{MergeState, IsKeptStage};

    ghost Value = { MergeState };

    ghost view = { λ s. record { maker = s.maker; start = s.start; behind = s.behind; took = s.took.items; slots = s.slots.items; closing = s.closing; end = s.end } };

    ghost invariant = { λ s. IsKeptStage (record { maker = s.maker; start = s.start; behind = s.behind; took = s.took.items; slots = s.slots.items; closing = s.closing; end = s.end }) s.bounds.items };
}

/// How many bounds are taken before units are made again: each making looks at all nodes.
const BOUNDS_AT_ONCE: u32 = 16;

/// What came of a try to make a unit.
#[derive(Clone, Copy, Debug, PartialEq, Eq)]
pub(crate) enum MakeStep {
    /// A unit waits for each lane.
    Filled,
    /// The merging has ended.
    Ended,
    /// No more can be given of what was taken.
    Nothing,
}

impl<'a, L: Ledger> MergeStage<'a, L> {
    /// The merge stage of 1 to 256 nodes and so many outputs that begins here, under a rotation size and renaming rules.
    pub fn new(
        alloc: Global,
        nodes: u32,
        outs: u32,
        rotation: u64,
        names: &'a Names,
        start: MergeStart,
        steps: Steps<L>,
    ) -> Result<MergeStage<'a, L>, Memory>
        requires some { 1 ≤ nodes }
        requires few { nodes ≤ 256 }
        requires rotation { IsRotation rotation }
        requires before { HasRoom start.before }
        // In the first window nothing was taken or given.
        ensures begins { IfOk result (λ s. MergeDid 1 s (nothing_for s.took) (nothing_for s.slots)) }
        ensures parts { IfOk result (λ s. (s.start ≡ start) × (s.behind ≡ start) × (s.maker.rules ≡ names.now) × (s.maker.rotation ≡ rotation) × (s.end ≡ Open)) }
        ensures lanes { IfOk result (λ s. (length s.took ≡ nodes) × (length s.slots ≡ outs)) }
    {
        Ok(MergeStage {
            maker: Maker::new(alloc, nodes, rotation, names, &start, steps)?,
            start,
            behind: start,
            took: no_ends(alloc, nodes)?,
            bounds: no_bounds(alloc, nodes)?,
            made_under: None,
            told: 0,
            slots: no_items(alloc, outs)?,
            closing: false,
            end: MergeEnd::Open,
        })
    }

    /// Whether it has given each output the End of the open window.
    pub fn has_ended(&self) -> bool
        ensures { result ≡ has_ended self.now }
    {
        self.closing && is_clear(&self.slots)
    }

    /// How it ended. It isn't open where the stage has given each output the End of the open window.
    pub fn end(&self) -> MergeEnd
        ensures end { result ≡ self.now.end }
        ensures told { has_ended self.now ≡ true → merges_on result ≡ false }
    {
        self.end
    }

    /// How many transactions there are, up to the last one whose unit was made for all outputs. Each output has got it where the
    /// stage has ended.
    pub fn count(&self) -> u64
        ensures { result ≡ self.now.behind.count }
    {
        self.behind.count
    }

    /// That last transaction's key; where there is none since the start, the start's.
    pub fn last(&self) -> Key
        ensures { result ≡ self.now.behind.last }
    {
        self.behind.last
    }

    /// Where an output stands behind that last transaction's unit.
    pub fn layout(&self) -> Layout
        ensures { result ≡ self.now.behind.before }
    {
        self.behind.before
    }

    // Takes a branch of a node.
    fn accept_branch(&mut self, node: usize, branch: Branch)
        requires within { node < length self.old.took }
        ensures { HasAccepted self.old node (NodeItem.Branch branch) self.new }
    {
        if !self.end.is_open() {
            return;
        }
        if self.maker.give(node as u32 + 1, branch).is_err() {
            self.end = MergeEnd::Memory;
        }
    }

    // Takes a bound of a node.
    fn accept_bound(&mut self, node: usize, bound: u64)
        requires within { node < length self.old.took }
        ensures { HasAccepted self.old node (NodeItem.Bound bound) self.new }
    {
        self.bounds[node] = bound;
        self.told = self.told.saturating_add(1);
        if self.end.is_open() {
            self.maker.bound(node as u32 + 1, bound);
        }
    }

    // Takes a node's End.
    fn accept_end(&mut self, node: usize)
        requires within { node < length self.old.took }
        ensures { HasAccepted self.old node NodeItem.End self.new }
    {
        self.took[node] = true;
    }

    // Takes an item off a node's lane.
    fn take<I: LaneOut<NodeItem>>(&mut self, ins: &mut [I], node: usize) -> Turn
        requires within { node < length self.old.took }
        requires lanes { length ins.old ≡ length self.old.took }
        requires going { get_or self.old.took node true ≡ false }
        ensures takes { TakesOff I.moved I.empty self.old ins.old node self.new ins.new result }
    {
        match ins[node].pop() {
            None => Turn::Blocked,
            Some(NodeItem::Branch(branch)) => {
                self.accept_branch(node, branch);
                Turn::Moved
            }
            Some(NodeItem::Bound(bound)) => {
                self.accept_bound(node, bound);
                Turn::Moved
            }
            Some(NodeItem::End) => {
                self.accept_end(node);
                Turn::Moved
            }
        }
    }

    // Puts what waits for an output's lane onto it.
    fn push<O: LaneIn<DumpItem>>(&mut self, outs: &mut [O], out: usize) -> Turn
        requires within { out < length self.old.slots }
        requires lanes { length outs.old ≡ length self.old.slots }
        requires filled { is_some (get_or self.old.slots out None) ≡ true }
        ensures pushes { Pushes O.moved O.full self.old outs.old out self.new outs.new result }
    {
        let Some(item) = take_slot(&mut self.slots, out) else {
            return Turn::Blocked;
        };
        match outs[out].push(item) {
            Ok(()) => Turn::Moved,
            Err(back) => {
                put_slot(&mut self.slots, out, back);
                Turn::Blocked
            }
        }
    }

    // Lets a unit wait for each output's lane; then the stage stands behind it.
    fn fill_all(&mut self, unit: &Unit) -> MakeStep
        requires { all_none self.old.slots ≡ true }
        ensures maker { (self.new.maker ≡ self.old.maker) × (self.new.start ≡ self.old.start) × (self.new.took ≡ self.old.took) × (self.new.closing ≡ self.old.closing) }
        ensures filled { HasFilled self.old unit.now self.new result }
    {
        match fill(&mut self.slots, unit) {
            Ok(()) => {
                self.behind = MergeStart {
                    count: unit.number,
                    last: unit.key,
                    before: unit.after,
                };
                MakeStep::Filled
            }
            Err(Memory) => {
                clear(&mut self.slots);
                self.end = MergeEnd::Memory;
                MakeStep::Ended
            }
        }
    }

    // Makes the next unit, and lets it wait for each output's lane.
    fn make(&mut self) -> MakeStep
        requires merges { merges_on self.old.end ≡ true }
        requires none { all_none self.old.slots ≡ true }
        requires going { self.old.closing ≡ false }
        ensures did { (window : ℕ) (takes : List (List NodeItem)) (gives : List (List DumpItem)) → MergeDid window self.old takes gives → AfterMake window self.new takes gives result }
        ensures cost { (price : ℕ) → MakeCosts self.old self.new price result }
        ensures leaves { MakeLeaves self.old self.new result }
        ensures same { IsSameMerge self.old self.new }
        ensures took { (self.new.took ≡ self.old.took) × (self.new.closing ≡ false) }
    {
        match self.maker.make() {
            Made::Unit(unit) => self.fill_all(&unit),
            Made::Nothing => MakeStep::Nothing,
            Made::TooLarge { number, bytes } => {
                self.end = MergeEnd::TooLarge { number, bytes };
                MakeStep::Ended
            }
            Made::Memory => {
                self.end = MergeEnd::Memory;
                MakeStep::Ended
            }
        }
    }

    // Notes that all was made that is settled under the least bound of the nodes whose Ends haven't come.
    fn note_bound(&mut self)
        ensures { self.new ≡ self.old }
    {
        self.told = 0;
        self.made_under = match lagging(&self.took, &self.bounds) {
            Some(node) => Some(self.bounds[node]),
            None => None,
        };
    }

    // The node whose bound is the least, where all was made under that bound, so that no branch that comes is settled before it rises,
    // or where too few bounds were told since to begin the making anew. All that is settled is made before the Ends are given.
    fn still_lagging(&self) -> Option<usize>
        ensures { IfSome result (λ node. (node < length self.now.took) × (get_or self.now.took node true ≡ false)) }
    {
        let (bound, node) = (self.made_under?, lagging(&self.took, &self.bounds)?);
        let asks = self.told < BOUNDS_AT_ONCE || self.bounds[node] == bound;
        if asks { Some(node) } else { None }
    }

    // Gives an End to each output, once all is taken and given.
    fn close_all(&mut self)
        requires all { all_true self.old.took ≡ true }
        requires none { all_none self.old.slots ≡ true }
        requires going { self.old.closing ≡ false }
        ensures did { (window : ℕ) (takes : List (List NodeItem)) (gives : List (List DumpItem)) → MergeDid window self.old takes gives → (merges_on self.old.end ≡ true → AreKept self.old.start takes → IsQuiet self.old takes gives)
            → MergeDid window self.new takes gives }
        ensures cost { (price : ℕ) → merge_work self.new price + 1 ≤ merge_work self.old price }
        ensures same { IsSameMerge self.old self.new }
        ensures behind { self.new.behind ≡ self.old.behind }
        ensures took { (self.new.took ≡ self.old.took) × (self.new.closing ≡ true) × (self.new.slots ≡ map (λ _. Some TheEnd) self.old.slots) }
    {
        self.closing = true;
        close(&mut self.slots);
        if self.end.is_open() {
            self.end = MergeEnd::Whole;
        }
    }

    // Puts what waits for the first lane onto it.
    fn push_first<O: LaneIn<DumpItem>>(&mut self, outs: &mut [O]) -> Turn
        requires { length outs.old ≡ length self.old.slots }
        ensures pushes { PushesFirst O.moved O.full self.old outs.old self.new outs.new result }
    {
        match first_filled(&self.slots) {
            Some(out) => self.push(outs, out),
            None => Turn::Moved,
        }
    }

    // Takes an item of the node whose bound is the least; where each node's End has come, gives the Ends.
    fn take_or_close<I: LaneOut<NodeItem>, O: LaneIn<DumpItem>>(
        &mut self,
        ins: &mut [I],
        outs: &mut [O],
    ) -> Turn
        requires ins { length ins.old ≡ length self.old.took }
        requires outs { length outs.old ≡ length self.old.slots }
        requires none { all_none self.old.slots ≡ true }
        requires going { self.old.closing ≡ false }
        // Wherever the turn began, so it ends, if all that was taken was given.
        ensures turned { (before : MergeState) → ComesTo before self.old 0
            → ((window : ℕ) (takes : List (List NodeItem)) (gives : List (List DumpItem)) → MergeDid window before takes gives → merges_on self.old.end ≡ true → AreKept self.old.start takes → IsQuiet self.old takes gives)
            → Turned I.moved I.empty O.moved O.full before ins.old outs.old self.new ins.new outs.new result }
    {
        match lagging(&self.took, &self.bounds) {
            Some(node) => self.take(ins, node),
            None => {
                self.close_all();
                self.push_first(outs)
            }
        }
    }

    /// One turn: takes one item off a node's lane, or puts one onto an output's.
    ///
    /// `Moved` where it did, or recorded how the merging ended; `Blocked` where the lane that it needed was empty or full;
    /// `Done` where each output got its End before.
    pub fn turn<I: LaneOut<NodeItem>, O: LaneIn<DumpItem>>(
        &mut self,
        ins: &mut [I],
        outs: &mut [O],
    ) -> Turn
        requires ins { length self.old.took ≡ length ins.old }
        requires outs { length self.old.slots ≡ length outs.old }
        ensures { Turned I.moved I.empty O.moved O.full self.old ins.old outs.old self.new ins.new outs.new result }
    {
        if self.has_ended() {
            return Turn::Done;
        }
        if let Some(out) = first_filled(&self.slots) {
            return self.push(outs, out);
        }
        if !self.end.is_open() {
            return self.take_or_close(ins, outs);
        }
        if let Some(node) = self.still_lagging() {
            return self.take(ins, node);
        }
        match self.make() {
            MakeStep::Filled => self.push_first(outs),
            MakeStep::Ended => Turn::Moved,
            MakeStep::Nothing => {
                self.note_bound();
                self.take_or_close(ins, outs)
            }
        }
    }

    /// Opens the next window of a stage that has ended: one that was whole merges on.
    pub fn again(&mut self)
        requires { has_ended self.old ≡ true }
        ensures maker { (self.new.maker ≡ self.old.maker) × (self.new.start ≡ self.old.start) × (self.new.behind ≡ self.old.behind) }
        ensures took { self.new.took ≡ map (λ _. false) self.old.took }
        ensures slots { (self.new.slots ≡ self.old.slots) × (self.new.closing ≡ false) }
        ensures end { self.new.end ≡ merge_end_again self.old.end }
    {
        reset(&mut self.took);
        self.closing = false;
        self.made_under = None;
        self.end = self.end.reopened();
    }
}
