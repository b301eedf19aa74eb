//! The point from which a node's log may be read again: its number, and what stood open there.

ghost use Rattle.std.specs.Prelude.{◌≡◌, ◌≤◌, [], nat_lt, if◌then◌else◌, IfOk, OnOk};
ghost use Rattle.cdc_model.specs.NodeCuts.{AreFloors};
ghost use Rattle.cdc_model.specs.Openings.{AscendByXid};
ghost use Rattle.cdc_open.specs.Standing.{standing_of, branches_of};
ghost use Rattle.cdc_sorter.specs.Trail.{earliest, stands_open, stands_above, held_at, put_open, put_opens, put_ended, with_ended};

use crate::held_map::HeldMap;
use crate::trail::{Ended, Recent, Stand, same_stand, stand_before};
use cdc_base::{Key, Memory, Xid, key_cmp};
use cdc_model::HeldList;
use cdc_open::{OpenTable, Standing};
use std::alloc::Global;

// The earlier of two points.
fn earlier(best: Stand, other: Stand) -> Stand
    ensures { result ≡ (if nat_lt other.entry best.entry then other else best) }
{
    if other.entry < best.entry {
        other
    } else {
        best
    }
}

/// The earliest of a point and of those before the Prepares of open branches, from a first number on.
pub fn earliest_open(best: Stand, first: u64, opened: &OpenTable) -> Stand
    ensures { result ≡ earliest best (stands_open first opened.now) }
{
    let mut best = best;
    for (_, standing) in opened.iter() {
        if first <= standing.entry {
            best = earlier(best, stand_before(standing));
        }
    }
    best
}

/// The earliest of a point and of those before the entries that began branches with keys above a last one.
pub fn earliest_above(best: Stand, last: &Key, recent: &[Recent]) -> Stand
    ensures { result ≡ earliest best (stands_above last.now recent.now) }
{
    let mut best = best;
    for branch in recent {
        if key_cmp(&branch.key, last).is_gt() {
            best = earlier(best, same_stand(&branch.stand));
        }
    }
    best
}

// Adds an open branch, where it was prepared before the entry of a number.
fn add_open(held: &mut HeldMap, number: u64, xid: &Xid, standing: &Standing) -> Result<(), Memory>
    ensures { OnOk result (held.new ≡ put_open number (standing_of xid.now standing.now).branch held.old) }
{
    if standing.entry < number {
        held.put(xid, standing.floor)?;
    }
    Ok(())
}

// The open branches that were prepared before the entry of a number.
fn open_before(alloc: Global, number: u64, opened: &OpenTable) -> Result<HeldMap, Memory>
    ensures { IfOk result (λ held. held ≡ put_opens number (branches_of opened.now) []) }
{
    let mut held = HeldMap::new(alloc);
    for (key, standing) in opened.iter() {
        add_open(&mut held, number, &key.xid, standing)?;
    }
    Ok(held)
}

// Adds a branch that has ended, where it stood open before the entry of a number.
fn add_one_ended(held: &mut HeldMap, number: u64, branch: &Ended) -> Result<(), Memory>
    ensures { OnOk result (held.new ≡ put_ended number branch.now held.old) }
{
    if branch.entry < number && number <= branch.ended {
        held.put(&branch.xid, branch.floor)?;
    }
    Ok(())
}

// Adds the branches that have ended, and stood open before the entry of a number, the last one first.
fn add_ended(held: &mut HeldMap, number: u64, ended: &[Ended]) -> Result<(), Memory>
    ensures { OnOk result (held.new ≡ with_ended number ended.now held.old) }
{
    let count = ended.len();
    for index in 0..count {
        let at = count - 1 - index;
        add_one_ended(held, number, &ended[at])?;
    }
    Ok(())
}

/// The branches that stood open before the entry of a number, by xid.
pub fn held_before(
    alloc: Global,
    number: u64,
    opened: &OpenTable,
    ended: &[Ended],
) -> Result<HeldList, Memory>
    ensures pairs { AscendByXid (branches_of opened.now) → IfOk result (λ held. held ≡ held_at number (branches_of opened.now) ended.now) }
    ensures floors { IfOk result AreFloors }
{
    let mut held = open_before(alloc, number, opened)?;
    add_ended(&mut held, number, ended)?;
    held.into_list()
}
