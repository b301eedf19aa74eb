//! A point of a node's log from which it may be read again.

use cdc_base::{Items, Place, Xid};
use std::marker::Model;

/// Branches that stand open at a point, each with its floor.
pub type HeldList = Items<(Xid, u64)>;

/// A point of a node's log: the number of the entry that comes next, the place and the checksum setting (0 or 1) from
/// which it is read, the high-water mark before it, and the branches that stand open there, each with its floor.
#[derive(Debug, Drop)]
pub struct NodeCut {
    pub entry: u64,
    pub place: Place,
    pub mark: u64,
    pub checksum: u8,
    pub held: HeldList,
}

impl Model for NodeCut {
    ghost use Rattle.cdc_model.specs.Restart.{RestartPoint};

    ghost Value = { RestartPoint };

    ghost use Rattle.cdc_model.specs.NodeCuts.{cut_seen, IsKeptCut};

    ghost view = { cut_seen };

    ghost invariant = { IsKeptCut };
}
