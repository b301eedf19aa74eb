//! From where a pass goes on.

ghost use Rattle.std.specs.Prelude.{◌≡◌, ◌-◌, ◌^◌, min};
ghost use Rattle.cdc_records.specs.Checkpoint.{point_number};

use cdc_base::{Items, Key};
use cdc_model::{Layout, NodeCut};

/// A point of each node's log, in the order of the nodes.
pub type CutList = Items<NodeCut>;

/// A checkpoint: so many transactions are published by each output, and from these points the nodes are read on.
#[derive(Debug, Drop)]
pub struct Checkpoint {
    /// Transactions that are published.
    pub count: u64,
    /// Where an output of so many transactions stands.
    pub layout: Layout,
    /// The last one's key; the key before all others where there is none.
    pub last: Key,
    /// The rotation size under which they were published. None where the record is of the first version.
    pub rotation: Option<u64>,
    /// From where each node is read on.
    pub nodes: CutList,
}

impl Checkpoint {
    /// The number of its record: the count and the numbers of the entries with which the nodes go on. It stands still at
    /// the greatest number.
    pub fn number(&self) -> u64
        ensures { result ≡ min (point_number self.now) (2 ^ 64 - 1) }
    {
        let mut number = self.count;
        for cut in self.nodes.as_slice() {
            number = number.saturating_add(cut.entry);
        }
        number
    }
}
