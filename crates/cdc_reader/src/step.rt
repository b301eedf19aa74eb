//! What a reader gives, and how a reading ends.

use cdc_base::Place;
use cdc_model::{Branch, NodeFault};

/// How the reading of a node's log ended.
#[derive(Clone, Copy, Debug, PartialEq, Eq)]
pub enum NodeEnd {
    /// It hasn't ended.
    Open,
    /// The log was read to its end, and has no fault.
    Whole,
    /// The source failed.
    Read,
    /// There was no memory.
    Memory,
    /// The log has this fault, at its place.
    Fault { place: Place, fault: NodeFault },
}

/// What comes next of a node.
#[derive(Debug, Drop)]
pub enum Step {
    /// The next settled branch.
    Branch(Branch),
    /// The node's low-water mark: all branches that it settles were given.
    Bound(u64),
    /// So many bytes were read; what they settle comes next.
    Read(usize),
    /// Nothing more: the reading is over.
    End,
}

/// How far the events at hand were taken.
#[derive(Debug, Drop)]
pub(crate) enum Advance {
    /// To the first by which this is to be given.
    Gives(Step),
    /// All of them.
    NeedsBytes,
    /// To the first that ends the reading.
    Ends(NodeEnd),
}
