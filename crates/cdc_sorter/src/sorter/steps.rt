//! What each entry does to a sorter.

ghost use Rattle.std.specs.Prelude.{◌≡◌, ◌+◌, ◌<◌, ◌≤◌, ◌^◌, [], ◌∷◌, nat_le, ◌&&◌, None, OnOk, OnErr};
ghost use Rattle.std.specs.Ordering.{is_gt};
ghost use Rattle.cdc_base.specs.Key.{key_order};
ghost use Rattle.cdc_model.specs.declared.entry.EntryKind.TheVariants.{OnePhase, Commit, Rollback, Plain as LocalEntry};
ghost use Rattle.cdc_model.specs.Kept.{IsKeptKind, IsKeptKey};
ghost use Rattle.cdc_model.specs.Start.{find_open};
ghost use Rattle.cdc_model.specs.Soundness.{entry_fault};
ghost use Rattle.cdc_model.specs.Branch.{committed};
ghost use Rattle.cdc_sorter.specs.Waiting.{wait_with_all};
ghost use Rattle.cdc_open.specs.Standing.{branches_of, find_standing};
ghost use Rattle.cdc_sorter.specs.Trail.{reading_start, present, trail_noted, trail_closed, trail_committed, trail_back};
ghost use Rattle.cdc_sorter.specs.Sorting.{new_of, sorter_by, sorter_on};

use super::Sorter;
use crate::trail::Stand;
use cdc_base::{Key, Memory, Place, Xid, key_cmp};
use cdc_model::{Branch, EntryKind, RowList};
use cdc_waiting::Waiting;

// Whether a branch that an entry began is new: it began at or behind the first entry, and its key is above the last one.
fn is_new(last: &Key, first: u64, began: u64, key: &Key) -> bool
    ensures { result ≡ (nat_le first began && is_gt (key_order key.now last.now)) }
{
    first <= began && key_cmp(key, last).is_gt()
}

// Lets a branch wait, where it is new; its entry began at a number. On `Memory` none more waits, and the branch is let go.
fn wait_for(
    waiting: &mut Waiting,
    last: &Key,
    first: u64,
    began: u64,
    branch: Branch,
) -> Result<(), Memory>
    ensures ok { OnOk result (waiting.new ≡ wait_with_all waiting.old (new_of last.now first ((began, branch) ∷ []))) }
    ensures err { OnErr result (waiting.new ≡ waiting.old) }
{
    if is_new(last, first, began, &branch.key) {
        waiting.add(branch)?;
    }
    Ok(())
}

impl Sorter {
    // Lets a branch wait that began with an entry of a number, where it is new. On `Memory` nothing has changed.
    fn wait(&mut self, began: u64, branch: Branch) -> Result<(), Memory>
        ensures ok { OnOk result (self.new ≡ record self.old { waiting = wait_with_all self.old.waiting (new_of self.old.last self.old.first ((began, branch) ∷ [])) }) }
        ensures err { OnErr result (self.new ≡ self.old) }
    {
        wait_for(&mut self.waiting, &self.last, self.first, began, branch)
    }

    // The point before the next entry.
    pub(crate) fn present(&self) -> Stand
        ensures { result ≡ present self.now.here self.now.trail }
    {
        Stand {
            entry: self.here.entry,
            place: self.trail.place,
            mark: self.here.mark,
            checksum: self.trail.checksum,
        }
    }

    // Lets a branch wait, or goes back on the trail. On `Memory` nothing else has changed.
    fn wait_or_back(
        &mut self,
        counts: (usize, usize),
        began: u64,
        branch: Branch,
    ) -> Result<(), Memory>
        ensures ok { OnOk result (self.new ≡ record self.old { waiting = wait_with_all self.old.waiting (new_of self.old.last self.old.first ((began, branch) ∷ [])) }) }
        ensures err { OnErr result (self.new ≡ record self.old { trail = trail_back counts.0 counts.1 self.old.trail }) }
    {
        match self.wait(began, branch) {
            Ok(()) => Ok(()),
            Err(memory) => {
                self.trail.back_to(counts.0, counts.1);
                Err(memory)
            }
        }
    }

    // Takes a branch that this entry alone begins and commits. On `Memory` nothing has changed.
    fn own(&mut self, key: Key, rows: RowList, seconds: u32) -> Result<(), Memory>
        requires { IsKeptKey key }
        ensures ok { OnOk result (self.new ≡ record self.old {
          waiting = wait_with_all self.old.waiting (new_of self.old.last self.old.first ((self.old.here.entry, record { key = key; entry = self.old.here.entry; seconds = seconds; rows = rows }) ∷ []));
          trail = trail_noted self.old.trail key (present self.old.here self.old.trail);
        }) }
        ensures err { OnErr result (self.new ≡ self.old) }
    {
        let entry = self.here.entry;
        let stand = self.present();
        let counts = self.trail.counts();
        self.trail.note(&key, stand)?;
        self.wait_or_back(
            counts,
            entry,
            Branch {
                key,
                entry,
                seconds,
                rows,
            },
        )?;
        Ok(())
    }

    // Takes a sound OnePhase. On `Memory` nothing has changed.
    fn one_phase(
        &mut self,
        xid: Xid,
        rows: RowList,
        timestamp: u64,
        seconds: u32,
    ) -> Result<(), Memory>
        requires { timestamp < 2 ^ 63 }
        ensures ok { self.old.here.entry + 1 < 2 ^ 64 → OnOk result (self.new ≡ sorter_by (OnePhase xid rows timestamp seconds) self.old) }
        ensures err { OnErr result (self.new ≡ self.old) }
    {
        let key = Key::Shared {
            timestamp,
            gtrid: xid.gtrid,
        };
        self.own(key, rows, seconds)?;
        self.here.pass(timestamp);
        Ok(())
    }

    // Commits an open branch under a key, and notes it. On `Memory` nothing has changed.
    fn commit_open(&mut self, key: Key, seconds: u32, xid: &Xid) -> Result<(), Memory>
        requires { IsKeptKey key }
        ensures ok { OnOk result (self.new ≡ record self.old {
          waiting = wait_with_all self.old.waiting (new_of self.old.last self.old.first (committed key self.old.here.entry seconds (find_open xid.now (branches_of self.old.here.opened))));
          trail = trail_committed self.old.first key (find_standing xid.now self.old.here.opened) (trail_closed self.old.here.entry (find_standing xid.now self.old.here.opened) self.old.trail);
        }) }
        ensures err { OnErr result (self.new ≡ self.old) }
    {
        let entry = self.here.entry;
        let Some(standing) = self.here.opened.find(xid) else {
            return Ok(());
        };
        let began = standing.entry;
        let rows = standing.rows.share()?;
        let counts = self.trail.counts();
        self.trail.commit(self.first, entry, &key, xid, standing)?;
        self.wait_or_back(
            counts,
            began,
            Branch {
                key,
                entry,
                seconds,
                rows,
            },
        )?;
        Ok(())
    }

    // Takes a sound Commit. On `Memory` nothing has changed.
    fn commit(&mut self, xid: &Xid, timestamp: u64, seconds: u32) -> Result<(), Memory>
        requires { timestamp < 2 ^ 63 }
        ensures ok { self.old.here.entry + 1 < 2 ^ 64 → OnOk result (self.new ≡ sorter_by (Commit xid.now timestamp seconds) self.old) }
        ensures err { OnErr result (self.new ≡ self.old) }
    {
        let key = Key::Shared {
            timestamp,
            gtrid: xid.gtrid,
        };
        self.commit_open(key, seconds, xid)?;
        self.here.end(xid, timestamp);
        Ok(())
    }

    // Takes a sound Rollback. On `Memory` nothing has changed.
    fn roll_back(&mut self, xid: &Xid) -> Result<(), Memory>
        ensures ok { self.old.here.entry + 1 < 2 ^ 64 → OnOk result (self.new ≡ sorter_by (Rollback xid.now) self.old) }
        ensures err { OnErr result (self.new ≡ self.old) }
    {
        if let Some(standing) = self.here.opened.find(xid) {
            self.trail.close(self.here.entry, xid, standing)?;
        }
        self.here.end(xid, 0);
        Ok(())
    }

    // Takes a Plain. On `Memory` nothing has changed.
    fn plain(&mut self, rows: RowList, seconds: u32) -> Result<(), Memory>
        ensures ok { self.old.here.entry + 1 < 2 ^ 64 → OnOk result (self.new ≡ sorter_by (LocalEntry rows seconds) self.old) }
        ensures err { OnErr result (self.new ≡ self.old) }
    {
        let key = Key::Plain {
            timestamp: self.here.mark,
            node: self.node,
            entry: self.here.entry,
        };
        self.own(key, rows, seconds)?;
        self.here.pass(0);
        Ok(())
    }

    // Takes what a sound entry says. On `Memory` nothing has changed.
    fn follow(&mut self, kind: EntryKind) -> Result<(), Memory>
        requires kept { IsKeptKind kind }
        requires sound { entry_fault kind (reading_start self.old.here) ≡ None }
        ensures ok { self.old.here.entry + 1 < 2 ^ 64 → OnOk result (self.new ≡ sorter_by kind self.old) }
        ensures err { OnErr result (self.new ≡ self.old) }
    {
        match kind {
            EntryKind::Prepare { xid, rows } => {
                self.here
                    .prepare(xid, rows, self.trail.place, self.trail.checksum)
            }
            EntryKind::OnePhase {
                xid,
                rows,
                timestamp,
                seconds,
            } => self.one_phase(xid, rows, timestamp, seconds),
            EntryKind::Commit {
                xid,
                timestamp,
                seconds,
            } => self.commit(&xid, timestamp, seconds),
            EntryKind::Rollback { xid } => self.roll_back(&xid),
            EntryKind::Plain { rows, seconds } => self.plain(rows, seconds),
            EntryKind::Beat { timestamp } => {
                self.here.pass(timestamp);
                Ok(())
            }
        }
    }

    // Takes a sound entry, up to a place under a checksum setting. On `Memory` nothing has changed.
    pub(crate) fn go_on(&mut self, kind: EntryKind, end: Place, checksum: u8) -> Result<(), Memory>
        requires kept { IsKeptKind kind }
        requires sound { entry_fault kind (reading_start self.old.here) ≡ None }
        requires setting { checksum ≤ 1 }
        ensures ok { self.old.here.entry + 1 < 2 ^ 64 → OnOk result (self.new ≡ sorter_on kind end checksum self.old) }
        ensures err { OnErr result (self.new ≡ self.old) }
    {
        self.follow(kind)?;
        self.trail.reach(end, checksum);
        Ok(())
    }
}
