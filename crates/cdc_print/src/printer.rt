//! Reads, merges and prints the logs of all nodes.

ghost use Rattle.std.specs.Prelude.{◌≡◌, ◌<◌, ◌≤◌, ◌+◌, ◌-◌, ◌++◌, ◌∷◌, ℕ, List, [], length, map, true, false, IsTrue, IfOk, OnOk, OnErr};
ghost use Rattle.std.specs.List.{list_all};
ghost use Rattle.cdc_outside.specs.Count.{RisesOnErr};
ghost use Rattle.cdc_outside.specs.Sink.{WritesTo};
ghost use Rattle.cdc_merger.specs.Feeding.{changed_at};
ghost use Rattle.cdc_model.specs.Feed.{NodeFeed};
ghost use Rattle.cdc_model.specs.Records.{Transaction};
ghost use Rattle.cdc_reader.specs.Standing.{feed_by};
ghost use Rattle.cdc_print.specs.Outcome.{NoCountFell};
ghost use Rattle.cdc_print.specs.Reading.{AreNew, ends_of};
ghost use Rattle.cdc_print.specs.Reading as reading;
ghost use Rattle.cdc_print.specs.Printed.{IsPrinted};
ghost use Rattle.cdc_print.specs.declared.node.NodeReader.{NodeReader};

use crate::end::PrintEnd;
use crate::node::NodeReader;
use crate::printing::Printing;
use crate::verdict::end_by;
use cdc_base::{Memory, Steps, first_key};
use cdc_merger::Merger;
use cdc_model::{Branch, Txn, node_settled_in_order};
use cdc_outside::{Failed, Sink, Source};
use cdc_reader::Step;
use std::alloc::Global;
use std::sync::ledger::Ledger;

/// The most bytes of one read.
const PIECE: usize = 65_536;

/// The most bytes that are read and not taken yet, of all nodes together.
const PIECES: usize = 64 * PIECE;

/// The print of all logs: the readers of all nodes, what merges them, and what prints. Behind a want of memory there
/// nothing more is merged and printed (`prints`), but reading goes on, since a source that fails is told first.
#[derive(Drop)]
pub(crate) struct Printer {
    pub nodes: Vec<NodeReader>,
    pub merger: Merger,
    pub printing: Printing,
    pub prints: bool,
    pub piece: Vec<u8>,
    ghost some: { 0 < length nodes.items },
    ghost few: { length nodes.items ≤ 256 },
    ghost places: { length merger.nodes ≡ length nodes.items },
    ghost room: { 0 < length piece.items },
}

// A place for what is read of one of so many nodes: of many nodes less is read at once, since each keeps a read.
fn new_piece(alloc: Global, nodes: u32) -> Result<Vec<u8>, Memory>
    requires some { 1 ≤ nodes }
    requires few { nodes ≤ 256 }
    ensures { IfOk result (λ piece. 0 < length piece.items) }
{
    let bytes = (PIECES / nodes as usize).min(PIECE);
    Ok(vec![in alloc; 0; bytes]?)
}

// The readers of so many nodes.
fn readers(alloc: Global, nodes: u32) -> Result<Vec<NodeReader>, Memory>
    requires { nodes ≤ 256 }
    ensures many { IfOk result (λ states. length states.items ≡ nodes) }
    ensures begin { IfOk result (λ states. AreNew 1 states.items) }
{
    let mut states = Vec::new(alloc);
    for node in 0..nodes {
        states.push(NodeReader::new(alloc, node + 1)?)?;
    }
    Ok(states)
}

// Whether all readings are over.
fn all_over(nodes: &[NodeReader]) -> bool
    ensures { result ≡ list_all (λ (state : NodeReader). state.over) nodes.now }
{
    nodes.iter().all(|node| node.over)
}

// Whether a node is read before another: its reading isn't over, and the other's is or its mark is greater.
fn is_behind(node: &NodeReader, other: &NodeReader) -> bool {
    !node.over && (other.over || node.mark < other.mark)
}

// The node that is read next: of those whose reading isn't over the one with the least low-water mark.
fn next_node(nodes: &[NodeReader]) -> usize
    requires { 0 < length nodes.now }
    ensures { result < length nodes.now }
{
    let mut least = 0;
    for index in 1..nodes.len() {
        if is_behind(&nodes[index], &nodes[least]) {
            least = index;
        }
    }
    least
}

impl Printer {
    ghost use Rattle.cdc_print.specs.Running.{HasReadNothing, IsRunning, IsMergedBy, IsMergedAllBy, CanTake, Finishes, file_of_printing};

    /// Before anything is read.
    pub fn new(alloc: Global, nodes: u32) -> Result<Printer, Memory>
        requires some { 1 ≤ nodes }
        requires few { nodes ≤ 256 }
        ensures many { IfOk result (λ printer. length printer.nodes.items ≡ nodes) }
        ensures begins { IfOk result (λ printer. HasReadNothing printer nodes) }
    {
        let states = readers(alloc, nodes)?;
        let merger = Merger::new(alloc, nodes, 0, &first_key())?;
        let printing = Printing::new(alloc)?;
        let piece = new_piece(alloc, nodes)?;
        Ok(Printer {
            nodes: states,
            merger,
            printing,
            prints: true,
            piece,
        })
    }

    // Merges a branch of a node.
    fn give(&mut self, node: u32, branch: Branch)
        requires first { 1 ≤ node }
        requires within { node ≤ length self.old.nodes.items }
        ensures merges { (feeds : List NodeFeed) → IsMergedBy self.old feeds → CanTake node (Step.Branch branch) feeds → IsMergedBy self.new (changed_at (feed_by (Step.Branch branch)) (node - 1) feeds) }
        ensures nodes { self.new.nodes.items ≡ self.old.nodes.items }
    {
        if !self.prints {
            return;
        }
        match self.merger.give(node, branch) {
            Ok(()) => {}
            Err(Memory) => self.prints = false,
        }
    }

    // Merges a bound of a node.
    fn tell(&mut self, node: u32, bound: u64)
        requires first { 1 ≤ node }
        requires within { node ≤ length self.old.nodes.items }
        ensures merges { (feeds : List NodeFeed) → IsMergedBy self.old feeds → CanTake node (Step.Bound bound) feeds → IsMergedBy self.new (changed_at (feed_by (Step.Bound bound)) (node - 1) feeds) }
        ensures nodes { self.new.nodes.items ≡ self.old.nodes.items }
    {
        if self.prints {
            self.merger.bound(node, bound);
        }
    }

    // Takes what comes of a node; whether more is at hand.
    fn take(&mut self, node: u32, step: Step) -> bool
        requires first { 1 ≤ node }
        requires within { node ≤ length self.old.nodes.items }
        ensures merges { (feeds : List NodeFeed) → IsMergedBy self.old feeds → CanTake node step feeds → IsMergedBy self.new (changed_at (feed_by step) (node - 1) feeds) }
        ensures nodes { self.new.nodes.items ≡ self.old.nodes.items }
    {
        match step {
            Step::Branch(branch) => {
                self.give(node, branch);
                true
            }
            Step::Bound(bound) => {
                self.tell(node, bound);
                true
            }
            Step::Read(_) | Step::End => false,
        }
    }

    // What comes next of a node; whether more is at hand.
    fn step<S: Source>(&mut self, sources: &mut Vec<S>, index: usize) -> bool
        requires many { length sources.old.items ≡ length self.old.nodes.items }
        requires within { index < length sources.old.items }
        ensures runs { (befores : List ℕ) → IsRunning S.tells S.held S.faults befores sources.old.items self.old → IsRunning S.tells S.held S.faults befores sources.new.items self.new }
        ensures many { length self.new.nodes.items ≡ length self.old.nodes.items }
        ensures later { NoCountFell (map S.faults sources.old.items) (map S.faults sources.new.items) }
        ensures held { map S.held sources.new.items ≡ map S.held sources.old.items }
    {
        node_settled_in_order();
        let step = self.nodes[index].next(&mut sources[index], &mut self.piece);
        self.take(index as u32 + 1, step)
    }

    // Takes what is at hand of a node, up to the next read.
    fn turn<S: Source>(&mut self, sources: &mut Vec<S>, index: usize)
        requires many { length sources.old.items ≡ length self.old.nodes.items }
        requires within { index < length sources.old.items }
        ensures runs { (befores : List ℕ) → IsRunning S.tells S.held S.faults befores sources.old.items self.old → IsRunning S.tells S.held S.faults befores sources.new.items self.new }
        ensures many { length self.new.nodes.items ≡ length self.old.nodes.items }
        ensures later { NoCountFell (map S.faults sources.old.items) (map S.faults sources.new.items) }
        ensures held { map S.held sources.new.items ≡ map S.held sources.old.items }
    {
        'steps: for _ in 0..u64::MAX {
            if !self.step(sources, index) {
                return;
            }
        }
    }

    // Prints the next transaction.
    fn print(&mut self, txn: &Txn)
        ensures prints { (txns : List Transaction) → IsPrinted self.old.printing txns → self.new.prints ≡ true → IsPrinted self.new.printing (txns ++ txn.now ∷ []) }
        ensures kept { (self.new.nodes.items ≡ self.old.nodes.items) × (self.new.merger ≡ self.old.merger) }
    {
        match self.printing.print_next(txn) {
            Ok(()) => {}
            Err(Memory) => self.prints = false,
        }
    }

    // Merges and prints the next transaction that is settled; whether there may be more.
    fn settle_next<L: Ledger>(&mut self, steps: &mut Steps<L>) -> bool
        ensures more { (feeds : List NodeFeed) → IsMergedBy self.old feeds → result ≡ true → IsMergedBy self.new feeds }
        ensures all { (feeds : List NodeFeed) → IsMergedBy self.old feeds → result ≡ false → IsMergedAllBy self.new feeds }
        ensures nodes { self.new.nodes.items ≡ self.old.nodes.items }
    {
        if !self.prints {
            return false;
        }
        let answer = match self.merger.next(steps) {
            Ok(answer) => answer,
            Err(Memory) => {
                self.prints = false;
                return false;
            }
        };
        match answer {
            Some(txn) => {
                self.print(&txn);
                true
            }
            None => false,
        }
    }

    /// Merges and prints all that is settled.
    pub fn settle<L: Ledger>(&mut self, steps: &mut Steps<L>)
        ensures all { (feeds : List NodeFeed) → IsMergedBy self.old feeds → IsMergedAllBy self.new feeds }
        ensures nodes { self.new.nodes.items ≡ self.old.nodes.items }
    {
        'settled: for _ in 0..u64::MAX {
            if !self.settle_next(steps) {
                return;
            }
        }
        self.prints = false;
    }

    /// Reads all logs, and merges and prints what they settle; whether all readings are over.
    pub fn read_all<S: Source, L: Ledger>(
        &mut self,
        sources: &mut Vec<S>,
        steps: &mut Steps<L>,
    ) -> bool
        requires { length sources.old.items ≡ length self.old.nodes.items }
        ensures runs { (befores : List ℕ) → IsRunning S.tells S.held S.faults befores sources.old.items self.old → IsRunning S.tells S.held S.faults befores sources.new.items self.new }
        ensures over { result ≡ true → list_all (λ (state : NodeReader). state.over) self.new.nodes.items ≡ true }
        ensures many { length self.new.nodes.items ≡ length self.old.nodes.items }
        ensures later { NoCountFell (map S.faults sources.old.items) (map S.faults sources.new.items) }
        ensures held { map S.held sources.new.items ≡ map S.held sources.old.items }
    {
        'turns: for _ in 0..u64::MAX {
            if all_over(&self.nodes) {
                return true;
            }
            let index = next_node(&self.nodes);
            self.turn(sources, index);
            self.settle(steps);
        }
        false
    }

    // Writes the file, where it has begun.
    fn write<K: Sink>(&self, out: &mut K) -> Result<(), Failed>
        ensures ok { IsTrue K.tells → OnOk result (K.written out.new ≡ K.written out.old ++ file_of_printing self.now.printing) }
        ensures err { IsTrue K.tells → OnErr result (WritesTo (K.written out.old) (file_of_printing self.now.printing) (K.written out.new)) }
        ensures faults { RisesOnErr (K.faults out.old) (K.faults out.new) result }
    {
        if !self.printing.begun {
            return Ok(());
        }
        self.printing.pieces.write_to(out)
    }

    /// Writes what was printed, unless a source failed or memory was wanting, and says how all ended.
    pub fn finish<K: Sink>(&self, out: &mut K) -> PrintEnd
        ensures finishes { Finishes K.tells (K.written out.old) (file_of_printing self.now.printing) (K.written out.new) (K.faults out.old) (K.faults out.new) (reading.end_by (ends_of self.now.nodes.items) self.now.prints self.now.printing.beyond) result }
        ensures later { K.faults out.old ≤ K.faults out.new }
    {
        let end = end_by(&self.nodes, self.prints, self.printing.beyond);
        match end {
            PrintEnd::Done => match self.write(out) {
                Ok(()) => PrintEnd::Done,
                Err(Failed) => PrintEnd::Sink,
            },
            PrintEnd::TooLarge { .. } | PrintEnd::Fault { .. } => {
                let _ = self.write(out);
                end
            }
            PrintEnd::Read { .. } | PrintEnd::Memory | PrintEnd::Sink => end,
        }
    }
}
