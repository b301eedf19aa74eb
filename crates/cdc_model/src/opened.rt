//! Open branches: prepared, and not ended.

ghost use Rattle.std.specs.Prelude.{◌≡◌, IfOk};

use crate::rows::RowList;
use cdc_base::{Items, Memory, Xid};
use std::alloc::Global;
use std::marker::Model;

/// An open branch: prepared, and not ended. The floor is the high-water mark before its prepare; `entry` is
/// the prepare's number, 0 (and no rows) where the prepare stands before the starting point.
#[derive(Debug, Drop)]
pub struct Opened {
    pub xid: Xid,
    pub floor: u64,
    pub entry: u64,
    pub rows: RowList,
}

/// The open branches, in order of global id, qualifier and format.
pub type OpenList = Items<Opened>;

impl Model for Opened {
    ghost use Rattle.cdc_model.specs.Records.{OpenBranch};

    ghost Value = { OpenBranch };

    ghost use Rattle.cdc_model.specs.Kept.{opened_seen, IsKeptOpened};

    ghost view = { opened_seen };

    ghost invariant = { IsKeptOpened };
}

impl Opened {
    /// An equal open branch over the same rows.
    pub fn share(&self) -> Result<Opened, Memory>
        ensures { IfOk result (λ shared. shared ≡ self.now) }
    {
        Ok(Opened {
            xid: self.xid,
            floor: self.floor,
            entry: self.entry,
            rows: self.rows.share()?,
        })
    }
}

/// Equal open branches over the same rows.
pub(crate) fn share_opened(alloc: Global, opened: &[Opened]) -> Result<OpenList, Memory>
    ensures { IfOk result (λ shared. shared ≡ opened.now) }
{
    let mut shared = OpenList::new(alloc);
    for branch in opened {
        shared.push(branch.share()?)?;
    }
    Ok(shared)
}
