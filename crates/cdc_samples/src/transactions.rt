//! Keys, branches and transactions.

ghost use Rattle.std.specs.Prelude.{◌≡◌, ◌<◌, ◌^◌, ◌++◌, ◌∷◌, [], IfSome, OnOk, OnErr};
ghost use Rattle.std.specs.List.{AllByRecursion};
ghost use Rattle.cdc_model.specs.Kept.{IsRow, IsKeptKey};

use cdc_base::{Items, Key, Memory, gtrid_of};
use cdc_model::{Branch, BranchList, RowList, Txn};
use std::alloc::Global;

/// A key of a shared transaction; none where the id is too long.
pub fn shared(timestamp: u64, id: &[u8]) -> Option<Key>
    requires { timestamp < 2 ^ 63 }
    ensures { IfSome result IsKeptKey }
{
    let gtrid = gtrid_of(id)?;
    Some(Key::Shared { timestamp, gtrid })
}

/// No branches.
pub fn no_branches(alloc: Global) -> BranchList
    ensures { result ≡ [] }
{
    Items::new(alloc)
}

/// One branch more: that of entry 2, of seconds 5.
pub fn add_branch(branches: &mut BranchList, key: &Key, rows: RowList) -> Result<(), Memory>
    requires key { IsKeptKey key.now }
    requires rows { AllByRecursion IsRow rows }
    ensures ok { OnOk result (branches.new ≡ branches.old ++ record { key = key.now; entry = 2; seconds = 5; rows = rows } ∷ []) }
    ensures err { OnErr result (branches.new ≡ branches.old) }
{
    branches.push(Branch {
        key: *key,
        entry: 2,
        seconds: 5,
        rows,
    })
}

/// A transaction of seconds 5.
pub fn transaction(number: u64, key: &Key, branches: BranchList) -> Txn
    requires { IsKeptKey key.now }
    ensures { result ≡ record { number = number; key = key.now; seconds = 5; branches = branches } }
{
    Txn {
        number,
        key: *key,
        seconds: 5,
        branches,
    }
}
