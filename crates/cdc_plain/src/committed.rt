//! The branches that a node's log commits.

ghost use Rattle.std.specs.Prelude.{◌≡◌, ◌+◌, ◌<◌, ◌≤◌, ◌^◌, ◌++◌, [], ◌∷◌, Some, length, reverse, IfOk, OnOk};
ghost use Rattle.std.specs.Option.{option_to_list};
ghost use Rattle.cdc_model.specs.Kept.{IsKeptKey};
ghost use Rattle.cdc_model.specs.Soundness.{IsCounted};
ghost use Rattle.cdc_model.specs.Branch as branch;
ghost use Rattle.cdc_model.specs.Transaction as transaction;

use crate::next_start::advance;
use crate::open_branches::find_open;
use crate::soundness::sound_count;
use cdc_base::{Key, Memory, key_cmp};
use cdc_model::{Branch, BranchList, Entry, EntryKind, NodeLog, Opened, StartingPoint};
use std::alloc::Global;

/// An open branch as its commit leaves it, beside the number of the entry that began it.
fn committed(key: Key, entry: u64, seconds: u32, opened: &Opened) -> Result<(u64, Branch), Memory>
    requires { IsKeptKey key }
    ensures { IfOk result (λ b. b ∷ [] ≡ branch.committed key entry seconds (Some opened.now)) }
{
    let rows = opened.rows.share()?;
    Ok((
        opened.entry,
        Branch {
            key,
            entry,
            seconds,
            rows,
        },
    ))
}

/// The branch that an entry commits, beside the number of the entry that began it, or none.
fn branch_of(
    node: u32,
    entry: &Entry,
    start: &StartingPoint,
) -> Result<Option<(u64, Branch)>, Memory>
    requires first { 1 ≤ node }
    requires last { node ≤ 256 }
    ensures { IfOk result (λ b. option_to_list b ≡ branch.branch_of node entry.now.kind start.now) }
{
    match &entry.kind {
        EntryKind::Prepare { .. } | EntryKind::Rollback { .. } | EntryKind::Beat { .. } => Ok(None),
        EntryKind::OnePhase {
            xid,
            rows,
            timestamp,
            seconds,
        } => {
            let key = Key::Shared {
                timestamp: *timestamp,
                gtrid: xid.gtrid,
            };
            let rows = rows.share()?;
            let branch = Branch {
                key,
                entry: start.entry,
                seconds: *seconds,
                rows,
            };
            Ok(Some((start.entry, branch)))
        }
        EntryKind::Commit {
            xid,
            timestamp,
            seconds,
        } => {
            let key = Key::Shared {
                timestamp: *timestamp,
                gtrid: xid.gtrid,
            };
            match find_open(start.opened.as_slice(), xid) {
                None => Ok(None),
                Some(opened) => {
                    let begun = committed(key, start.entry, *seconds, opened)?;
                    Ok(Some(begun))
                }
            }
        }
        EntryKind::Plain { rows, seconds } => {
            let key = Key::Plain {
                timestamp: start.mark,
                node,
                entry: start.entry,
            };
            let rows = rows.share()?;
            let branch = Branch {
                key,
                entry: start.entry,
                seconds: *seconds,
                rows,
            };
            Ok(Some((start.entry, branch)))
        }
    }
}

/// Whether a branch began at or behind the starting point, and its key is above the last one.
fn is_new(last: &Key, first: &StartingPoint, begun: &(u64, Branch)) -> bool
    ensures { result ≡ branch.is_new last.now first.now begun.now }
{
    first.entry <= begun.0 && key_cmp(&begun.1.key, last).is_gt()
}

/// Appends the branch that an entry commits, where it is new. On `Memory` the list is unchanged.
fn add_branch(
    branches: &mut BranchList,
    last: &Key,
    first: &StartingPoint,
    node: u32,
    entry: &Entry,
    start: &StartingPoint,
) -> Result<(), Memory>
    requires first { 1 ≤ node }
    requires last { node ≤ 256 }
    ensures { OnOk result (branches.new ≡ branches.old ++ branch.new_branches last.now first.now (branch.branch_of node entry.now.kind start.now)) }
{
    if let Some(begun) = branch_of(node, entry, start)? {
        if is_new(last, first, &begun) {
            branches.push(begun.1)?;
        }
    }
    Ok(())
}

/// Appends the branches that sound entries commit from a starting point on, with keys above `last`.
fn add_committed(
    alloc: Global,
    branches: &mut BranchList,
    last: &Key,
    node: u32,
    first: &StartingPoint,
    entries: &[Entry],
) -> Result<(), Memory>
    requires first { 1 ≤ node }
    requires last { node ≤ 256 }
    requires counted { first.now.entry + length entries.now < 2 ^ 64 }
    ensures { OnOk result (branches.new ≡ branches.old ++ branch.committed_branches last.now first.now node (reverse entries.now)) }
{
    let mut start = first.share(alloc)?;
    for entry in entries {
        add_branch(branches, last, first, node, entry, &start)?;
        advance(&mut start, entry)?;
    }
    Ok(())
}

/// Appends the branches that a node's log commits before its first unsound entry, with keys above `last`. On
/// `Memory` the list may have some of them.
pub fn add_node_branches(
    alloc: Global,
    branches: &mut BranchList,
    last: &Key,
    node: u32,
    log: &NodeLog,
) -> Result<(), Memory>
    requires first { 1 ≤ node }
    requires last { node ≤ 256 }
    requires counted { IsCounted log.now }
    ensures { OnOk result (branches.new ≡ branches.old ++ transaction.node_branches last.now (node, log.now)) }
{
    let count = sound_count(alloc, log)?;
    let sound = &log.entries.as_slice()[..count];
    add_committed(alloc, branches, last, node, &log.start, sound)
}
