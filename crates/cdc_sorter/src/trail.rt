//! The way behind a sorter: what a point to read again from is told by.

ghost use Rattle.std.specs.Prelude.{◌≡◌, ◌<◌, ◌≤◌, ◌^◌, [], length, Some, OnOk, OnErr};
ghost use Rattle.std.specs.List.Sorted.{IsNonDecreasing};
ghost use Rattle.std.specs.Ordering.{is_gt};
ghost use Rattle.cdc_base.specs.Key.{key_order};
ghost use Rattle.cdc_open.specs.Standing.{standing_of};
ghost use Rattle.cdc_sorter.specs.Trail.{stand_prepared, ended_with, trail_noted, trail_ended, trail_committed, trail_back, trail_behind, trail_known, trail_swept, recent_above};

use crate::sweep::keep_wanted;
use cdc_base::{Key, Memory, Place, Xid, key_cmp};
use cdc_open::Standing;
use std::alloc::Global;
use std::marker::Model;

/// A point of a log without the branches that stand open there: the number of the entry that comes next, the place and
/// the checksum setting (0 or 1) from which that is read, and the high-water mark before it.
#[derive(Debug, Drop)]
pub struct Stand {
    pub entry: u64,
    pub place: Place,
    pub mark: u64,
    pub checksum: u8,
}

impl Model for Stand {
    ghost use Rattle.cdc_sorter.specs.Trail as trail;

    ghost Value = { trail.Stand };

    ghost use Rattle.cdc_sorter.specs.Seen.{stand_seen, IsKeptStand};

    ghost view = { stand_seen };

    ghost invariant = { IsKeptStand };
}

/// The point before an open branch's Prepare; its floor is the mark there.
pub fn stand_before(standing: &Standing) -> Stand
    ensures { result ≡ stand_prepared standing.now }
{
    Stand {
        entry: standing.entry,
        place: standing.place,
        mark: standing.floor,
        checksum: standing.checksum,
    }
}

/// The same point again.
pub fn same_stand(stand: &Stand) -> Stand
    ensures { result ≡ stand.now }
{
    Stand {
        entry: stand.entry,
        place: stand.place,
        mark: stand.mark,
        checksum: stand.checksum,
    }
}

/// A branch that was open and has ended: its floor, and the numbers of the entries that began and ended it.
#[derive(Debug, Drop)]
pub struct Ended {
    pub xid: Xid,
    pub floor: u64,
    pub entry: u64,
    pub ended: u64,
}

impl Model for Ended {
    ghost use Rattle.cdc_sorter.specs.Trail.{EndedBranch};

    ghost Value = { EndedBranch };

    ghost use Rattle.cdc_sorter.specs.Seen.{ended_seen, IsKeptEnded};

    ghost view = { ended_seen };

    ghost invariant = { IsKeptEnded };
}

/// A committed branch: its key, and the point before the entry that began it.
#[derive(Debug, Drop)]
pub struct Recent {
    pub key: Key,
    pub stand: Stand,
}

impl Model for Recent {
    ghost use Rattle.cdc_sorter.specs.Trail.{RecentBranch};

    ghost Value = { RecentBranch };

    ghost use Rattle.cdc_sorter.specs.Seen.{recent_seen};

    ghost view = { recent_seen };
}

// Whether a committed branch has a key above a last one.
fn is_above(branch: &Recent, last: &Key) -> bool
    ensures { result ≡ is_gt (key_order branch.now.key last.now) }
{
    key_cmp(&branch.key, last).is_gt()
}

// Keeps the committed branches with keys above a last one.
fn keep_above(recent: &mut Vec<Recent>, last: &Key)
    ensures { recent.new.items ≡ recent_above last.now recent.old.items }
{
    let mut kept = 0;
    for index in 0..recent.len() {
        let above = is_above(&recent[index], last);
        if above {
            recent.swap(kept, index);
            kept += 1;
        }
    }
    recent.truncate(kept);
}

// So many ended branches are kept without a look.
const FEW: usize = 64;

/// The place and the checksum setting (0 or 1) behind the last entry, the branches that have ended, those that were
/// committed with keys above a known one, and that key; and from how many ended branches on a look at them is due.
#[derive(Debug, Drop)]
pub struct Trail {
    pub place: Place,
    pub checksum: u8,
    ended: Vec<Ended>,
    recent: Vec<Recent>,
    pub known: Key,
    limit: usize,
}

impl Model for Trail {
    ghost use Rattle.cdc_sorter.specs.Trail as trail;

    ghost Value = { trail.Trail };

    ghost use Rattle.cdc_sorter.specs.Seen.{trail_seen, IsKeptTrail};

    ghost view = { trail_seen };

    ghost invariant = { IsKeptTrail };
}

impl Trail {
    /// Nothing has ended or was committed yet.
    pub fn new(alloc: Global, place: Place, checksum: u8, known: &Key) -> Trail
        requires { checksum ≤ 1 }
        ensures { result ≡ record { place = place; checksum = checksum; ended = []; recent = []; known = known.now } }
    {
        Trail {
            place,
            checksum,
            ended: Vec::new(alloc),
            recent: Vec::new(alloc),
            known: *known,
            limit: FEW,
        }
    }

    /// The branches that have ended.
    pub fn ended(&self) -> &[Ended]
        ensures { result.now ≡ self.now.ended }
    {
        self.ended.as_slice()
    }

    /// The committed branches with keys above the known one.
    pub fn recent(&self) -> &[Recent]
        ensures { result.now ≡ self.now.recent }
    {
        self.recent.as_slice()
    }

    /// How many branches have ended, and how many committed ones are noted.
    pub fn counts(&self) -> (usize, usize)
        ensures ended { result.0 ≡ length self.now.ended }
        ensures recent { result.1 ≡ length self.now.recent }
    {
        (self.ended.len(), self.recent.len())
    }

    /// Goes back to so many ended and so many committed branches.
    pub fn back_to(&mut self, ended: usize, recent: usize)
        ensures { self.new ≡ trail_back ended recent self.old }
    {
        self.ended.truncate(ended);
        self.recent.truncate(recent);
    }

    /// Notes a committed branch, where its key is above the known one. On `Memory` nothing has changed.
    pub fn note(&mut self, key: &Key, stand: Stand) -> Result<(), Memory>
        ensures ok { OnOk result (self.new ≡ trail_noted self.old key.now stand) }
        ensures err { OnErr result (self.new ≡ self.old) }
    {
        if key_cmp(key, &self.known).is_gt() {
            self.recent.push(Recent { key: *key, stand })?;
        }
        Ok(())
    }

    /// Notes that the branch of an xid ends with the entry of a number. On `Memory` nothing has changed.
    pub fn close(&mut self, number: u64, xid: &Xid, standing: &Standing) -> Result<(), Memory>
        ensures ok { OnOk result (self.new ≡ trail_ended self.old (ended_with number (standing_of xid.now standing.now))) }
        ensures err { OnErr result (self.new ≡ self.old) }
    {
        self.ended.push(Ended {
            xid: *xid,
            floor: standing.floor,
            entry: standing.entry,
            ended: number,
        })?;
        Ok(())
    }

    /// Notes that the branch of an xid ends with the entry of a number and is committed under a key. On `Memory` nothing
    /// has changed.
    pub fn commit(
        &mut self,
        first: u64,
        number: u64,
        key: &Key,
        xid: &Xid,
        standing: &Standing,
    ) -> Result<(), Memory>
        ensures ok { OnOk result (self.new ≡ trail_committed first key.now (Some (standing_of xid.now standing.now)) (trail_ended self.old (ended_with number (standing_of xid.now standing.now)))) }
        ensures err { OnErr result (self.new ≡ self.old) }
    {
        let (ended, recent) = (self.ended.len(), self.recent.len());
        self.close(number, xid, standing)?;
        if first <= standing.entry {
            if let Err(memory) = self.note(key, stand_before(standing)) {
                self.back_to(ended, recent);
                return Err(memory);
            }
        }
        Ok(())
    }

    /// Whether so many branches have ended that a look at them is due.
    pub fn is_due(&self) -> bool {
        self.ended.len() >= self.limit
    }

    /// Drops the ended branches that stood open before none of the entries of these numbers, in order. A look is due
    /// again where the rest has doubled and more, so that looks cost a branch a logarithm.
    pub fn sweep(&mut self, numbers: &[u64])
        requires { IsNonDecreasing numbers.now }
        ensures { self.new ≡ trail_swept numbers.now self.old }
    {
        keep_wanted(&mut self.ended, numbers);
        let twice = self.ended.len().saturating_mul(2);
        self.limit = twice.saturating_add(numbers.len()).saturating_add(FEW);
    }

    /// Goes on to the place behind an entry, under the checksum setting there.
    pub fn reach(&mut self, place: Place, checksum: u8)
        requires { checksum ≤ 1 }
        ensures { self.new ≡ trail_behind self.old place checksum }
    {
        self.place = place;
        self.checksum = checksum;
    }

    /// Forgets the committed branches with keys of at most a last one, which is the known one from then on, where it is
    /// above that.
    pub fn forget(&mut self, last: &Key)
        ensures { self.new ≡ trail_known self.old last.now }
    {
        if key_cmp(last, &self.known).is_gt() {
            keep_above(&mut self.recent, last);
            self.known = *last;
        }
    }
}
