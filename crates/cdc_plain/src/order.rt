//! The global order: from the logs of all nodes to their transactions.

ghost use Rattle.std.specs.Prelude.{◌≡◌, ◌+◌, ◌≤◌, ◌<◌, ◌^◌, length, filter, IfOk};
ghost use Rattle.std.specs.List.{AllByRecursion, sum_by};
ghost use Rattle.cdc_model.specs.Kept.{IsKeptKey};
ghost use Rattle.cdc_model.specs.Soundness.{IsCounted};
ghost use Rattle.cdc_model.specs.Transaction as transaction;

use crate::committed::add_node_branches;
use crate::settled::settled_keys;
use crate::watermark::low_water_mark;
use cdc_base::{Key, Memory, key_cmp};
use cdc_model::{Branch, BranchList, NodeLog, Txn, TxnList};
use std::alloc::Global;

/// The committed branches of all logs with keys above `last`, node 1 first.
pub fn all_branches(alloc: Global, last: &Key, logs: &[NodeLog]) -> Result<BranchList, Memory>
    requires nodes { length logs.now ≤ 256 }
    requires counted { AllByRecursion IsCounted logs.now }
    ensures { IfOk result (λ branches. branches ≡ transaction.all_branches last.now logs.now) }
{
    let mut branches = BranchList::new(alloc);
    let mut node = 1;
    for log in logs {
        add_node_branches(alloc, &mut branches, last, node, log)?;
        node += 1;
    }
    Ok(branches)
}

/// The branches of a key, in their order.
fn branches_of(alloc: Global, key: &Key, branches: &[Branch]) -> Result<BranchList, Memory>
    ensures { IfOk result (λ own. own ≡ filter (transaction.has_key key.now) branches.now) }
{
    let mut own = BranchList::new(alloc);
    for branch in branches {
        if key_cmp(key, &branch.key).is_eq() {
            own.push(branch.share()?)?;
        }
    }
    Ok(own)
}

/// The seconds of the first branch.
fn first_seconds(branches: &[Branch]) -> u32
    ensures { result ≡ transaction.first_seconds branches.now }
{
    match branches.first() {
        Some(branch) => branch.seconds,
        None => 0,
    }
}

/// The transaction of a key.
fn transaction_of(alloc: Global, branches: &[Branch], number: u64, key: &Key) -> Result<Txn, Memory>
    requires { IsKeptKey key.now }
    ensures { IfOk result (λ txn. txn ≡ transaction.transaction_of branches.now number key.now) }
{
    let own = branches_of(alloc, key, branches)?;
    Ok(Txn {
        number,
        key: *key,
        seconds: first_seconds(own.as_slice()),
        branches: own,
    })
}

/// The transactions of keys, numbered one after another.
fn transactions_of(
    alloc: Global,
    branches: &[Branch],
    number: u64,
    keys: &[Key],
) -> Result<TxnList, Memory>
    requires kept { AllByRecursion IsKeptKey keys.now }
    requires counted { number + length keys.now < 2 ^ 64 }
    ensures { IfOk result (λ txns. txns ≡ transaction.transactions_of branches.now number keys.now) }
{
    let mut txns = TxnList::new(alloc);
    let mut number = number;
    for key in keys {
        txns.push(transaction_of(alloc, branches, number, key)?)?;
        number += 1;
    }
    Ok(txns)
}

/// All transactions of the logs of all nodes whose keys are settled, in the global order: their keys lie above
/// `last`, and their numbers go on behind `count`.
pub fn ordered_transactions(
    alloc: Global,
    count: u64,
    last: &Key,
    logs: &[NodeLog],
) -> Result<TxnList, Memory>
    requires nodes { length logs.now ≤ 256 }
    requires counted { AllByRecursion IsCounted logs.now }
    requires numbered { count + transaction.entries_in logs.now < 2 ^ 63 }
    ensures { IfOk result (λ txns. txns ≡ transaction.ordered_transactions count last.now logs.now) }
{
    let branches = all_branches(alloc, last, logs)?;
    let mark = low_water_mark(alloc, logs)?;
    let keys = settled_keys(alloc, mark, branches.as_slice())?;
    transactions_of(alloc, branches.as_slice(), count + 1, keys.as_slice())
}
