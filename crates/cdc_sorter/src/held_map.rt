//! Branches that stand open at a point, by their xids.

ghost use Rattle.std.specs.Prelude.{◌≡◌, ◌<◌, ◌^◌, [], IfOk, OnOk, OnErr};
ghost use Rattle.std.specs.BTreeMap.{insert_entry};
ghost use Rattle.cdc_base.specs.Xid.{xid_order};
ghost use Rattle.cdc_model.specs.NodeCuts.{AreFloors};

use cdc_base::{Memory, Xid};
use cdc_model::HeldList;
use cdc_open::XidKey;
use std::alloc::Global;
use std::collections::BTreeMap;
use std::marker::Model;

/// Xids with floors below 2^63, seen as the list of them in the order of xids.
#[derive(Drop)]
pub struct HeldMap {
    alloc: Global,
    pairs: BTreeMap<XidKey, u64>,
}

impl Model for HeldMap {
    ghost use Rattle.std.specs.Prelude.{ℕ, List};
    ghost use Rattle.cdc_base.specs.declared.xid.Xid.{Xid};
    ghost use Rattle.cdc_model.specs.NodeCuts.{AreFloors};
    ghost use Rattle.cdc_sorter.specs.Cut.{pairs_of};

    ghost Value = { List (Xid × ℕ) };

    ghost view = { λ held. pairs_of held.pairs.entries };

    ghost invariant = { λ held. AreFloors (pairs_of held.pairs.entries) };
}

impl HeldMap {
    /// None stands open.
    pub fn new(alloc: Global) -> HeldMap
        ensures { result ≡ [] }
    {
        HeldMap {
            alloc,
            pairs: BTreeMap::new(alloc),
        }
    }

    /// One more, or another floor for the same xid. On `Memory` nothing has changed.
    pub fn put(&mut self, xid: &Xid, floor: u64) -> Result<(), Memory>
        requires { floor < 2 ^ 63 }
        ensures ok { OnOk result (self.new ≡ insert_entry xid_order self.old xid.now floor) }
        ensures err { OnErr result (self.new ≡ self.old) }
    {
        let _ = self.pairs.insert(XidKey { xid: *xid }, floor)?;
        Ok(())
    }

    /// The list of them.
    pub fn into_list(self) -> Result<HeldList, Memory>
        ensures pairs { IfOk result (λ list. list ≡ self) }
        ensures floors { IfOk result AreFloors }
    {
        let mut pairs = self.pairs;
        let mut list = HeldList::new(self.alloc);
        while let Some((key, floor)) = pairs.pop_first() {
            list.push((key.xid, floor))?;
        }
        Ok(list)
    }
}
