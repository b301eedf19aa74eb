//! Where the reading of a node stands.

ghost use Rattle.std.specs.Prelude.{◌≡◌, ◌+◌, ◌<◌, ◌≤◌, ◌^◌, max, None, OnOk, OnErr};
ghost use Rattle.cdc_model.specs.declared.entry.EntryKind.TheVariants.{Prepare as Prepares};
ghost use Rattle.cdc_model.specs.Watermark.{node_low_water_mark};
ghost use Rattle.cdc_model.specs.Soundness as soundness;
ghost use Rattle.cdc_open.specs.Standing.{without_standing};
ghost use Rattle.cdc_sorter.specs.Trail.{reading_start, standings_behind};

use cdc_base::{Memory, Place, Xid};
use cdc_model::{EntryKind, RowList, SortFault};
use cdc_open::{OpenTable, Standing};
use std::marker::Model;

// A commit timestamp must be above its branch's floor.
fn undercut(timestamp: u64, floor: u64) -> Option<SortFault>
    ensures { result ≡ soundness.undercut timestamp floor }
{
    if timestamp <= floor {
        Some(SortFault::Undercut { timestamp, floor })
    } else {
        None
    }
}

/// Where the reading of a node stands: the number of the next entry, the high-water mark, the open branches.
#[derive(Debug, Drop)]
pub struct Position {
    pub entry: u64,
    pub mark: u64,
    pub opened: OpenTable,
}

impl Model for Position {
    ghost use Rattle.cdc_sorter.specs.Trail.{Standings};

    ghost Value = { Standings };

    ghost use Rattle.cdc_sorter.specs.Seen.{position_seen, IsKeptPosition};

    ghost view = { position_seen };

    ghost invariant = { IsKeptPosition };
}

impl Position {
    /// What makes an entry unsound here, or none.
    pub fn fault(&self, kind: &EntryKind) -> Option<SortFault>
        ensures { result ≡ soundness.entry_fault kind.now (reading_start self.now) }
    {
        match kind {
            EntryKind::Prepare { xid, .. } => match self.opened.find(xid) {
                Some(_) => Some(SortFault::DoublePrepare(*xid)),
                None => None,
            },
            EntryKind::OnePhase { xid, timestamp, .. } => match self.opened.find(xid) {
                Some(_) => Some(SortFault::DoublePrepare(*xid)),
                None => undercut(*timestamp, self.mark),
            },
            EntryKind::Commit { xid, timestamp, .. } => match self.opened.find(xid) {
                Some(standing) => undercut(*timestamp, standing.floor),
                None => Some(SortFault::UnknownBranch(*xid)),
            },
            EntryKind::Rollback { xid } => match self.opened.find(xid) {
                Some(_) => None,
                None => Some(SortFault::UnknownBranch(*xid)),
            },
            EntryKind::Plain { .. } | EntryKind::Beat { .. } => None,
        }
    }

    /// Opens a branch that isn't open, behind a place under a checksum setting; numbers of entries stop at 2^64 - 1. On
    /// `Memory` nothing has changed.
    pub fn prepare(
        &mut self,
        xid: Xid,
        rows: RowList,
        place: Place,
        checksum: u8,
    ) -> Result<(), Memory>
        requires sound { soundness.entry_fault (Prepares xid rows) (reading_start self.old) ≡ None }
        requires setting { checksum ≤ 1 }
        ensures ok { self.old.entry + 1 < 2 ^ 64 → OnOk result (self.new ≡ standings_behind (Prepares xid rows) place checksum self.old) }
        ensures err { OnErr result (self.new ≡ self.old) }
    {
        let standing = Standing {
            floor: self.mark,
            entry: self.entry,
            rows,
            place,
            checksum,
        };
        self.opened.open(&xid, standing)?;
        self.entry = self.entry.saturating_add(1);
        Ok(())
    }

    /// Goes by an entry that opens and ends no branch, under its timestamp, or 0.
    pub fn pass(&mut self, timestamp: u64)
        requires { timestamp < 2 ^ 63 }
        ensures { self.old.entry + 1 < 2 ^ 64 → self.new ≡ record { entry = self.old.entry + 1; mark = max timestamp self.old.mark; opened = self.old.opened } }
    {
        self.mark = timestamp.max(self.mark);
        self.entry = self.entry.saturating_add(1);
    }

    /// Goes by an entry that ends a branch, under its timestamp, or 0.
    pub fn end(&mut self, xid: &Xid, timestamp: u64)
        requires { timestamp < 2 ^ 63 }
        ensures { self.old.entry + 1 < 2 ^ 64 → self.new ≡ record { entry = self.old.entry + 1; mark = max timestamp self.old.mark; opened = without_standing xid.now self.old.opened } }
    {
        self.opened.end(xid);
        self.pass(timestamp);
    }

    /// The node's low-water mark: the least of its high-water mark and of the floors of its open branches.
    pub fn low(&self) -> u64
        ensures { result ≡ node_low_water_mark (reading_start self.now) }
    {
        self.opened.least(self.mark)
    }
}
