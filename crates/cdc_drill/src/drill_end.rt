//! How a drill ends.

use cdc_base::Place;
use cdc_model::NodeFault;

/// How a drill ended. Nodes are counted from 1.
#[derive(Clone, Copy, Debug, PartialEq, Eq)]
pub enum DrillEnd {
    /// Both lines were written.
    Done,
    /// The transaction with this number has a print of so many bytes, told up to 2^64 - 1, which is too large.
    TooLarge {
        number: u64,
        bytes: u64,
    },
    /// The log of this node has a fault at this place, and those of all lesser nodes have none.
    Node {
        node: u32,
        place: Place,
        fault: NodeFault,
    },
    /// There was no memory.
    Memory,
    /// The sink failed.
    Sink,
}
