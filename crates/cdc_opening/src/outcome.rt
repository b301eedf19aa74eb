//! How a pass ends.

use cdc_base::{Key, Place};
use cdc_dumper::OpenFault;
use cdc_model::{Layout, NodeFault};
use cdc_task::TaskFault;

/// How a pass ended. Nodes and outputs are counted from 1. After each of them every output and the task are as some stop
/// could have left them, so that a later pass goes on.
#[derive(Clone, Copy, Debug, PartialEq, Eq)]
pub enum Outcome {
    /// All that is settled is published by each output.
    Done,
    /// The disk of this output failed; it is the least such output.
    Disk {
        out: u32,
    },
    /// The task's disk failed.
    TaskDisk,
    /// The source of this node failed; it is the least such node.
    Read {
        node: u32,
    },
    /// There was no memory.
    Memory,
    /// The print of the transaction of this number has so many bytes, which is too large. What stands before it is
    /// published.
    TooLarge {
        number: u64,
        bytes: u64,
    },
    /// The log of this node has this fault at this place; it is the least such node. All that is settled is published.
    Node {
        node: u32,
        place: Place,
        fault: NodeFault,
    },
    /// This output can't be opened. It isn't the disk's fault, which is `Disk`.
    Open {
        out: u32,
        fault: OpenFault,
    },
    /// The task can't be opened. It is neither the disk's fault nor want of memory, which are `TaskDisk` and `Memory`.
    Task(TaskFault),
    /// The log of this node ends before the place from which it is to be read on.
    Behind {
        node: u32,
        kept: Place,
        given: Place,
    },
    /// This output stands elsewhere than where the next transaction begins.
    Differs {
        out: u32,
        kept: Layout,
        given: Layout,
    },
    /// The last transaction of this output has another key than the one of its number.
    Key {
        out: u32,
        kept: Key,
        given: Key,
    },
}

impl Outcome {
    ghost use Rattle.std.specs.Prelude.{◌≡◌, ◌⊎◌, IsTrue, ◌↔◌};
    ghost use Rattle.cdc_opening.specs.Outcomes.{place_of_outcome, number_of_outcome, ComesBefore};

    // Its place in the order of answers.
    fn place(&self) -> u32
        ensures { result ≡ place_of_outcome self.now }
    {
        match self {
            Outcome::Open { .. } => 4,
            Outcome::Task(_) => 5,
            Outcome::Behind { .. } => 6,
            Outcome::Disk { .. } => 7,
            Outcome::TaskDisk => 8,
            Outcome::Read { .. } => 9,
            Outcome::Memory => 10,
            Outcome::Differs { .. } | Outcome::Key { .. } => 11,
            Outcome::TooLarge { .. } => 12,
            Outcome::Node { .. } => 13,
            Outcome::Done => 14,
        }
    }

    // The number of the node or output that it names, or 0.
    fn number(&self) -> u32
        ensures { result ≡ number_of_outcome self.now }
    {
        match self {
            Outcome::Open { out, .. }
            | Outcome::Disk { out }
            | Outcome::Differs { out, .. }
            | Outcome::Key { out, .. } => *out,
            Outcome::Behind { node, .. } | Outcome::Read { node } | Outcome::Node { node, .. } => {
                *node
            }
            Outcome::Task(_)
            | Outcome::TaskDisk
            | Outcome::Memory
            | Outcome::TooLarge { .. }
            | Outcome::Done => 0,
        }
    }

    /// Whether it is answered before another, where both hold of a pass that was opened: a failed disk of an output, the
    /// task's disk, a failed source, want of memory, an output that differs, a transaction that is too large, a node's
    /// fault; of one kind that with the least number.
    pub fn comes_before(&self, other: &Outcome) -> bool
        ensures { IsTrue result ↔ ComesBefore self.now other.now }
    {
        let place = self.place();
        let other_place = other.place();
        place < other_place || (place == other_place && self.number() < other.number())
    }

    /// Of two causes the one that is answered: neither comes before it.
    pub fn earlier(self, other: Outcome) -> Outcome
        ensures one { (result ≡ self) ⊎ (result ≡ other) }
        ensures first { (ComesBefore self result → ⊥) × (ComesBefore other result → ⊥) }
    {
        if other.comes_before(&self) {
            other
        } else {
            self
        }
    }
}
