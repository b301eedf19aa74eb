//! What a node's stage sends.

ghost use Rattle.cdc_item.specs.Item.{closes_node_window};

use cdc_model::Branch;
use cdc_turns::LaneItem;

/// An item of a node's lane.
#[derive(Debug, Drop)]
pub enum NodeItem {
    /// The next settled branch.
    Branch(Branch),
    /// The node's low-water mark: all branches that it settles were sent.
    Bound(u64),
    /// The window's end.
    End,
}

impl LaneItem for NodeItem {
    ghost is_end = { closes_node_window };
}
