//! Entries through a sorter, with so many branches open.

ghost use Rattle.std.specs.Prelude.{◌<◌, ◌^◌};
ghost use Rattle.cdc_model.specs.Kept.{IsKeptKind};

use crate::tally::Tally;
use cdc_base::{Gtrid, Key, Memory, Place, Xid, first_key, gtrid_of};
use cdc_model::{Entry, EntryKind, RowList};
use cdc_sorter::{SortError, Sorter};
use std::alloc::Global;

/// After so many branches the sorter is told what was merged.
const WINDOW: u32 = 4_096;

/// The name of the branch of a number: the names don't stand in the order of their numbers.
fn xid_for(number: u32) -> Option<Xid> {
    let mixed = u64::from(number).wrapping_mul(0x9e37_79b9_7f4a_7c15);
    let gtrid = gtrid_of(&mixed.to_be_bytes())?;
    Some(Xid {
        gtrid,
        bqual: Gtrid::empty(),
        format: 1,
    })
}

/// Takes an entry; false where it is refused.
fn take(sorter: &mut Sorter, kind: EntryKind) -> Result<bool, Memory>
    requires { IsKeptKind kind }
{
    let place = Place { file: 1, at: 4 };
    let taken = sorter.take(Entry {
        kind,
        at: place,
        end: place,
        checksum: 0,
    });
    match taken {
        Ok(()) => Ok(true),
        Err(SortError::Fault(_)) => Ok(false),
        Err(SortError::Memory) => Err(Memory),
    }
}

/// Prepares the branch of a number; false where it is refused.
fn prepare(sorter: &mut Sorter, number: u32) -> Result<bool, Memory> {
    match xid_for(number) {
        Some(xid) => take(
            sorter,
            EntryKind::Prepare {
                xid,
                rows: RowList::empty(),
            },
        ),
        None => Ok(false),
    }
}

/// Commits the branch of a number; false where it is refused.
fn commit(sorter: &mut Sorter, number: u32) -> Result<bool, Memory> {
    match xid_for(number) {
        Some(xid) => take(
            sorter,
            EntryKind::Commit {
                xid,
                timestamp: u64::from(number) + 1,
                seconds: 0,
            },
        ),
        None => Ok(false),
    }
}

/// Takes all settled branches out: how many, and the last one's key.
fn given(sorter: &mut Sorter, last: Key) -> (u64, Key) {
    let mut count = 0_u64;
    let mut last = last;
    for _ in 0..u64::MAX {
        match sorter.pop() {
            Some(branch) => {
                count = count.saturating_add(1);
                last = branch.key;
            }
            None => return (count, last),
        }
    }
    (count, last)
}

/// Prepares so many branches, and then `count` times commits the oldest one, prepares another and takes out what is settled;
/// none where an entry was refused. The tally has the entries, and the branches that were given in place of bytes.
pub fn sort_entries(alloc: Global, open: u32, count: u32) -> Result<Option<Tally>, Memory> {
    let mut sorter = Sorter::new(alloc, 1);
    for number in 0..open {
        if !prepare(&mut sorter, number)? {
            return Ok(None);
        }
    }
    let mut tally = Tally {
        count: u64::from(open),
        bytes: 0,
    };
    let mut last = first_key();
    for number in 0..count {
        if !commit(&mut sorter, number)? || !prepare(&mut sorter, number.wrapping_add(open))? {
            return Ok(None);
        }
        let (branches, key) = given(&mut sorter, last);
        last = key;
        tally.count = tally.count.saturating_add(2);
        tally.bytes = tally.bytes.saturating_add(branches);
        if number % WINDOW == 0 {
            sorter.forget(&last);
        }
    }
    Ok(Some(tally))
}
