//! The table of open branches.

ghost use Rattle.std.specs.Prelude.{◌≡◌, ℕ, [], ◌∷◌, length, map, Some, None, OnOk, OnErr, IfSome, IfNone};
ghost use Rattle.cdc_model.specs.Start.{find_open};
ghost use Rattle.cdc_model.specs.Watermark.{least};
ghost use Rattle.cdc_open.specs.Standing.{standing_of, branches_of, find_standing, without_standing, enter_standing};
ghost use Rattle.cdc_open.specs.Floors.{times_in};
ghost use Rattle.cdc_open.specs.Table.{standing_list, floors_of};

use crate::floors::Floors;
use crate::standing::Standing;
use crate::xid_key::XidKey;
use cdc_base::{Memory, Xid};
use std::alloc::Global;
use std::collections::BTreeMap;
use std::collections::btree_map::Iter;
use std::marker::Model;

// Takes the branch of an xid out, where one is open: its floor.
fn take_out(branches: &mut BTreeMap<XidKey, Standing>, xid: &Xid) -> Option<u64>
    ensures rest { standing_list branches.new.entries ≡ without_standing xid.now (standing_list branches.old.entries) }
    ensures some { IfSome result (λ floor. (number : ℕ) → times_in number (floors_of branches.old.entries) ≡ times_in number (floor ∷ floors_of branches.new.entries)) }
    ensures none { IfNone result (branches.new.entries ≡ branches.old.entries) }
{
    let _count = branches.len();
    match branches.remove(&XidKey { xid: *xid }) {
        Some(standing) => Some(standing.floor),
        None => None,
    }
}

/// The open branches, seen as the list of them in the order of their xids.
#[derive(Debug, Drop)]
pub struct OpenTable {
    branches: BTreeMap<XidKey, Standing>,
    floors: Floors,
}

impl Model for OpenTable {
    ghost use Rattle.std.specs.Prelude.{List};
    ghost use Rattle.cdc_open.specs.Standing.{StandingBranch};

    ghost Value = { List StandingBranch };

    ghost use Rattle.cdc_open.specs.Floors.{TellsTimes};
    ghost use Rattle.cdc_open.specs.Table.{standing_list, floors_of};

    ghost view = { λ table. standing_list table.branches.entries };

    ghost invariant = { λ table. TellsTimes table.floors (floors_of table.branches.entries) };
}

impl OpenTable {
    /// None is open.
    pub fn new(alloc: Global) -> OpenTable
        ensures { result ≡ [] }
    {
        OpenTable {
            branches: BTreeMap::new(alloc),
            floors: Floors::new(alloc),
        }
    }

    /// The open branch of an xid, or none.
    pub fn find(&self, xid: &Xid) -> Option<&Standing>
        ensures some { IfSome result (λ standing. find_standing xid.now self.now ≡ Some (standing_of xid.now standing.now)) }
        ensures none { IfNone result (find_standing xid.now self.now ≡ None) }
        ensures open { IfSome result (λ standing. find_open xid.now (branches_of self.now) ≡ Some (standing_of xid.now standing.now).branch) }
        ensures closed { IfNone result (find_open xid.now (branches_of self.now) ≡ None) }
    {
        self.branches.get(&XidKey { xid: *xid })
    }

    /// How many are open.
    pub fn len(&self) -> usize
        ensures { result ≡ length self.now }
    {
        self.branches.len()
    }

    /// All open branches, each behind its xid.
    pub fn iter(&self) -> Iter<'_, XidKey, Standing>
        ensures { standing_list result ≡ self.now }
    {
        self.branches.iter()
    }

    /// Opens a branch of an xid of which none is open. On `Memory` none is, and the branch is let go.
    pub fn open(&mut self, xid: &Xid, standing: Standing) -> Result<(), Memory>
        requires { find_open xid.now (branches_of self.old) ≡ None }
        ensures ok { OnOk result (self.new ≡ enter_standing (standing_of xid.now standing) self.old) }
        ensures err { OnErr result (self.new ≡ self.old) }
    {
        let _count = self.branches.len();
        let floor = standing.floor;
        self.floors.add(floor)?;
        match self.branches.insert(XidKey { xid: *xid }, standing) {
            Ok(_) => Ok(()),
            Err(_) => {
                self.floors.take(floor);
                Err(Memory)
            }
        }
    }

    /// Ends the branch of an xid, where one is open.
    pub fn end(&mut self, xid: &Xid)
        ensures { self.new ≡ without_standing xid.now self.old }
    {
        if let Some(floor) = take_out(&mut self.branches, xid) {
            self.floors.take(floor);
        }
    }

    /// The least of a mark and of the floors of the open branches.
    pub fn least(&self, mark: u64) -> u64
        ensures { result ≡ least mark (map (λ branch. branch.floor) (branches_of self.now)) }
    {
        self.floors.least(mark)
    }
}
