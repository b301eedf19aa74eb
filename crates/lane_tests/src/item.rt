//! What goes through the lanes.

use cdc_turns::LaneItem;

/// A number, or the End of a window.
#[derive(Clone, Copy, Debug, PartialEq, Eq)]
pub enum Item {
    Number(u32),
    End,
}

impl LaneItem for Item {
    ghost use Rattle.lane_tests.specs.Item.{is_closing};

    ghost is_end = { is_closing };
}
