//! What a merger gives, as a text.

ghost use Rattle.std.specs.Prelude.{◌≡◌, ◌≤◌, ◌<◌, ◌^◌, length, IfSome};
ghost use Rattle.cdc_model.specs.Kept.{IsKeptKey};

use cdc_base::{Key, Steps, gtrid_of};
use cdc_merger::Merger;
use cdc_model::{Branch, RowList, Txn};
use std::alloc::{AllocError, Global};
use std::sync::ledger::Ledger;
use std::test::Fail;

/// A shared key with an id of one letter.
pub fn shared(timestamp: u64, letter: u8) -> Option<Key>
    requires { timestamp < 2 ^ 63 }
    ensures { IfSome result (λ key. IsKeptKey key) }
{
    let gtrid = gtrid_of(&[letter])?;
    Some(Key::Shared { timestamp, gtrid })
}

/// Gives a branch without rows, of seconds one above its entry's number.
pub fn give(merger: &mut Merger, node: u32, key: &Key, entry: u32) -> Result<(), Fail>
    requires key { IsKeptKey key.now }
    requires first { 1 ≤ node }
    requires within { node ≤ length merger.old.nodes }
    ensures { length merger.new.nodes ≡ length merger.old.nodes }
{
    let branch = Branch {
        key: *key,
        entry: u64::from(entry),
        seconds: entry.saturating_add(1),
        rows: RowList::empty(),
    };
    merger.give(node, branch)?;
    Ok(())
}

// A transaction: its number, timestamp and first seconds, and the entries of its branches.
fn txn_text(alloc: Global, txn: &Txn) -> Result<String, AllocError> {
    let (number, seconds) = (txn.number, txn.seconds);
    let timestamp = match txn.key {
        Key::Shared { timestamp, .. } => timestamp,
        Key::Plain { timestamp, .. } => timestamp,
    };
    let mut text = format!(in alloc; "{number}@{timestamp}/{seconds}")?;
    for branch in txn.branches.as_slice() {
        let entry = branch.entry;
        text.push_str(&format!(in alloc; " {entry}")?)?;
    }
    text.push_str(";")?;
    Ok(text)
}

/// Appends all transactions that the merger gives now.
pub fn tell<L: Ledger>(
    alloc: Global,
    merger: &mut Merger,
    steps: &mut Steps<L>,
    text: &mut String,
) -> Result<(), Fail>
    ensures { length merger.new.nodes ≡ length merger.old.nodes }
{
    for _ in 0..1_000 {
        let Some(txn) = merger.next(steps)? else {
            return Ok(());
        };
        text.push_str(&txn_text(alloc, &txn)?)?;
    }
    Err("no end")?
}
