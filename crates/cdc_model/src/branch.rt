//! Committed branches.

ghost use Rattle.std.specs.Prelude.{◌≡◌, IfOk};

use crate::rows::RowList;
use cdc_base::{Items, Key, Memory};
use std::marker::Model;

/// A committed branch of a transaction: its key, the number of the entry that committed it, that entry's
/// seconds, and the rows.
#[derive(Debug, Drop)]
pub struct Branch {
    pub key: Key,
    pub entry: u64,
    pub seconds: u32,
    pub rows: RowList,
}

/// A list of branches.
pub type BranchList = Items<Branch>;

impl Model for Branch {
    ghost use Rattle.cdc_model.specs.Records.{CommittedBranch};

    ghost Value = { CommittedBranch };

    ghost use Rattle.cdc_model.specs.Kept.{branch_seen, IsKeptBranch};

    ghost view = { branch_seen };

    ghost invariant = { IsKeptBranch };
}

impl Branch {
    /// An equal branch over the same rows.
    pub fn share(&self) -> Result<Branch, Memory>
        ensures { IfOk result (λ shared. shared ≡ self.now) }
    {
        Ok(Branch {
            key: self.key,
            entry: self.entry,
            seconds: self.seconds,
            rows: self.rows.share()?,
        })
    }
}
