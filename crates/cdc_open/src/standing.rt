//! An open branch, as the table keeps it.

use cdc_base::Place;
use cdc_model::RowList;
use std::marker::Model;

/// An open branch but for its xid: its floor, the number of its Prepare (0 where that stands before the starting point)
/// and its rows, and the place and the checksum setting (0 or 1) before its Prepare.
#[derive(Debug, Drop)]
pub struct Standing {
    pub floor: u64,
    pub entry: u64,
    pub rows: RowList,
    pub place: Place,
    pub checksum: u8,
}

impl Model for Standing {
    ghost use Rattle.cdc_open.specs.Standing.{Prepared};

    ghost Value = { Prepared };

    ghost use Rattle.cdc_open.specs.Seen.{standing_seen, IsKeptStanding};

    ghost view = { standing_seen };

    ghost invariant = { IsKeptStanding };
}
