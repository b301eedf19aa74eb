//! Where a node's reading begins, and what it has reached.

ghost use Rattle.std.specs.Prelude.{◌≡◌, IfOk};
ghost use Rattle.cdc_model.specs.Start.{beginning};

use crate::opened::{OpenList, share_opened};
use cdc_base::Memory;
use std::alloc::Global;
use std::marker::Model;

/// What a node's entries so far leave: the next entry's number, the high-water mark, the open branches.
#[derive(Debug, Drop)]
pub struct StartingPoint {
    pub entry: u64,
    pub mark: u64,
    pub opened: OpenList,
}

impl Model for StartingPoint {
    ghost use Rattle.cdc_model.specs.Records.{Start};

    ghost Value = { Start };

    ghost use Rattle.cdc_model.specs.Kept.{start_seen, IsKeptStart};

    ghost view = { start_seen };

    ghost invariant = { IsKeptStart };
}

impl StartingPoint {
    /// The start of a log: entry 1 comes next, no timestamp yet, no open branch. Takes no memory.
    pub fn beginning(alloc: Global) -> StartingPoint
        ensures { result ≡ beginning }
    {
        StartingPoint {
            entry: 1,
            mark: 0,
            opened: OpenList::new(alloc),
        }
    }

    /// An equal starting point over the same rows.
    pub fn share(&self, alloc: Global) -> Result<StartingPoint, Memory>
        ensures { IfOk result (λ shared. shared ≡ self.now) }
    {
        Ok(StartingPoint {
            entry: self.entry,
            mark: self.mark,
            opened: share_opened(alloc, self.opened.as_slice())?,
        })
    }
}
