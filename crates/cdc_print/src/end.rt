//! How a print ends.

use cdc_base::Place;
use cdc_model::NodeFault;

/// How a print of all logs ended. Nodes are counted from 1.
#[derive(Clone, Copy, Debug, PartialEq, Eq)]
pub enum PrintEnd {
    /// The whole file was written, and no log has a fault.
    Done,
    /// The source of this node failed; it is the least such node. Nothing was written.
    Read {
        node: u32,
    },
    /// There was no memory. Nothing was written.
    Memory,
    /// The file ends before the transaction of this number, whose print has so many bytes (2^64 - 1 where they are more).
    /// What stands before it was written, or a front of that where the sink failed.
    TooLarge {
        number: u64,
        bytes: u64,
    },
    /// The log of this node has this fault at this place; it is the least such node. The file of what is settled was
    /// written, or a front of it where the sink failed.
    Fault {
        node: u32,
        place: Place,
        fault: NodeFault,
    },
    /// The sink failed, and all would be done else. A front of the file was written.
    Sink,
}
