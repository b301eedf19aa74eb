//! Which entries of a log are sound.

ghost use Rattle.std.specs.Prelude.{◌≡◌, ◌+◌, ◌<◌, ◌≤◌, ◌^◌, length, take, reverse, IfOk};
ghost use Rattle.cdc_model.specs.Start.{left_by};
ghost use Rattle.cdc_model.specs.Soundness.{IsCounted};
ghost use Rattle.cdc_model.specs.Soundness as soundness;

use crate::next_start::advance;
use crate::open_branches::find_open;
use cdc_base::Memory;
use cdc_model::{Entry, EntryKind, NodeLog, SortFault, StartingPoint};
use std::alloc::Global;

/// A commit timestamp must be above its branch's floor.
fn undercut(timestamp: u64, floor: u64) -> Option<SortFault>
    ensures { result ≡ soundness.undercut timestamp floor }
{
    if timestamp <= floor {
        Some(SortFault::Undercut { timestamp, floor })
    } else {
        None
    }
}

/// What makes an entry unsound behind a starting point, or none.
pub fn entry_fault(kind: &EntryKind, start: &StartingPoint) -> Option<SortFault>
    ensures { result ≡ soundness.entry_fault kind.now start.now }
{
    let opened = start.opened.as_slice();
    match kind {
        EntryKind::Prepare { xid, .. } => match find_open(opened, xid) {
            Some(_) => Some(SortFault::DoublePrepare(*xid)),
            None => None,
        },
        EntryKind::OnePhase { xid, timestamp, .. } => match find_open(opened, xid) {
            Some(_) => Some(SortFault::DoublePrepare(*xid)),
            None => undercut(*timestamp, start.mark),
        },
        EntryKind::Commit { xid, timestamp, .. } => match find_open(opened, xid) {
            Some(branch) => undercut(*timestamp, branch.floor),
            None => Some(SortFault::UnknownBranch(*xid)),
        },
        EntryKind::Rollback { xid } => match find_open(opened, xid) {
            Some(_) => None,
            None => Some(SortFault::UnknownBranch(*xid)),
        },
        EntryKind::Plain { .. } | EntryKind::Beat { .. } => None,
    }
}

/// How many entries of a log are sound, from its first on.
pub fn sound_count(alloc: Global, log: &NodeLog) -> Result<usize, Memory>
    requires { IsCounted log.now }
    ensures within { IfOk result (λ count. count ≤ length log.now.entries) }
    ensures sound { IfOk result (λ count. take count log.now.entries ≡ soundness.sound_entries log.now.start log.now.entries) }
{
    let entries = log.entries.as_slice();
    let mut start = log.start.share(alloc)?;
    for (count, entry) in entries.iter().enumerate() {
        if entry_fault(&entry.kind, &start).is_some() {
            return Ok(count);
        }
        advance(&mut start, entry)?;
    }
    Ok(entries.len())
}

/// Where entries lead from a starting point.
fn follow(alloc: Global, first: &StartingPoint, entries: &[Entry]) -> Result<StartingPoint, Memory>
    requires { first.now.entry + length entries.now < 2 ^ 64 }
    ensures { IfOk result (λ start. start ≡ left_by first.now (reverse entries.now)) }
{
    let mut start = first.share(alloc)?;
    for entry in entries {
        advance(&mut start, entry)?;
    }
    Ok(start)
}

/// Where the reading of a log stands behind its sound entries.
pub fn reached(alloc: Global, log: &NodeLog) -> Result<StartingPoint, Memory>
    requires { IsCounted log.now }
    ensures { IfOk result (λ start. start ≡ soundness.reached log.now) }
{
    let count = sound_count(alloc, log)?;
    follow(alloc, &log.start, &log.entries.as_slice()[..count])
}
