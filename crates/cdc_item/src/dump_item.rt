//! What an out's stage takes.

ghost use Rattle.cdc_item.specs.Item.{closes_dump_window};

use cdc_model::Unit;
use cdc_turns::LaneItem;

/// An item of an out's lane.
#[derive(Debug, Drop)]
pub enum DumpItem {
    /// The unit of the next transaction.
    Unit(Unit),
    /// The window's end.
    End,
}

impl LaneItem for DumpItem {
    ghost is_end = { closes_dump_window };
}
