//! Transactions in the global order.

use crate::branch::BranchList;
use cdc_base::{Items, Key};
use std::marker::Model;

/// A transaction: its number in the global order (from 1), its key, the seconds of its first branch, and all
/// its branches by node and then by entry number.
#[derive(Debug, Drop)]
pub struct Txn {
    pub number: u64,
    pub key: Key,
    pub seconds: u32,
    pub branches: BranchList,
}

/// A list of transactions.
pub type TxnList = Items<Txn>;

impl Model for Txn {
    ghost use Rattle.cdc_model.specs.Records.{Transaction};

    ghost Value = { Transaction };

    ghost use Rattle.cdc_model.specs.Kept.{transaction_seen, IsKeptTransaction};

    ghost view = { transaction_seen };

    ghost invariant = { IsKeptTransaction };
}
