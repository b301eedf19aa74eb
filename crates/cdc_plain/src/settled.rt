//! The settled keys of committed branches, in order.

ghost use Rattle.std.specs.Prelude.{◌≡◌, ◌≤◌, [], length, insert, IfOk, OnOk, MatchOption};
ghost use Rattle.std.specs.List.{AllByRecursion};
ghost use Rattle.cdc_model.specs.Kept.{IsKeptKey};
ghost use Rattle.cdc_model.specs.Branch as branch;
ghost use Rattle.cdc_model.specs.Transaction as transaction;

use cdc_base::{Items, Key, Memory, key_cmp};
use cdc_model::Branch;
use std::alloc::Global;
use std::cmp::Ordering;

/// A list of keys.
pub type KeyList = Items<Key>;

/// Whether a key is settled under a low-water mark of all nodes.
pub fn is_settled(mark: u64, key: &Key) -> bool
    ensures { result ≡ branch.is_settled mark key.now }
{
    match key {
        Key::Shared { timestamp, .. } => *timestamp <= mark,
        Key::Plain { timestamp, .. } => *timestamp < mark,
    }
}

/// The index of a new key among keys in order, or none where it is among them.
fn index_for(key: &Key, keys: &[Key]) -> Option<usize>
    ensures { MatchOption result (transaction.put key.now keys.now ≡ keys.now)
        (λ index. (index ≤ length keys.now) × (transaction.put key.now keys.now ≡ insert keys.now index key.now)) }
{
    for (index, first) in keys.iter().enumerate() {
        match key_cmp(key, first) {
            Ordering::Less => return Some(index),
            Ordering::Equal => return None,
            Ordering::Greater => {}
        }
    }
    Some(keys.len())
}

/// Puts a key at its index, unless it is there. On `Memory` the list is unchanged.
fn put(key: &Key, keys: &mut KeyList) -> Result<(), Memory>
    ensures { OnOk result (keys.new ≡ transaction.put key.now keys.old) }
{
    match index_for(key, keys.as_slice()) {
        None => Ok(()),
        Some(index) => keys.insert(index, *key),
    }
}

/// Puts the key of a branch at its index, where it is settled and not there. On `Memory` the list is unchanged.
fn add_settled(mark: u64, branch: &Branch, keys: &mut KeyList) -> Result<(), Memory>
    ensures added { OnOk result (keys.new ≡ transaction.add_settled mark keys.old branch.now) }
    ensures kept { AllByRecursion IsKeptKey keys.old → OnOk result (AllByRecursion IsKeptKey keys.new) }
{
    if !is_settled(mark, &branch.key) {
        return Ok(());
    }
    put(&branch.key, keys)
}

/// The settled keys of branches, in order, each once.
pub fn settled_keys(alloc: Global, mark: u64, branches: &[Branch]) -> Result<KeyList, Memory>
    ensures settled { IfOk result (λ keys. keys ≡ transaction.settled_keys mark branches.now) }
    ensures kept { IfOk result (λ keys. AllByRecursion IsKeptKey keys) }
{
    let mut keys = KeyList::new(alloc);
    for branch in branches {
        add_settled(mark, branch, &mut keys)?;
    }
    Ok(keys)
}
