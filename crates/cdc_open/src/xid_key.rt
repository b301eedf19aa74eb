//! Xids as keys of a map.

ghost use Rattle.std.proofs.Common.{rules, refl};
ghost use Rattle.std.specs.Cmp.{on_total, partial_order_from_own_ties};
ghost use Rattle.std.specs.Cmp.Rules.{comparing};
ghost use Rattle.std.specs.Ordering.{on, as_partial_cmp};
ghost use Rattle.cdc_base.specs.Xid.{xid_order};
ghost use Rattle.cdc_model.proofs.XidOrder.{xid_order_total};

use cdc_base::{Xid, xid_cmp};
use std::cmp::Ordering;

/// An xid as a key: keys stand in the order of xids.
#[derive(Clone, Copy, Debug, PartialEq, Eq)]
pub struct XidKey {
    pub xid: Xid,
}

impl Ord for XidKey {
    ghost cmp = { λ a b. xid_order a.xid b.xid };

    ghost total = { on_total (λ k. k.xid) xid_order_total };

    ghost matches_partial_cmp = { Prim.search (comparing, rules) };

    ghost matches_eq = { Prim.search (comparing, rules) depth 9 };

    fn cmp(&self, other: &XidKey) -> Ordering {
        xid_cmp(&self.xid, &other.xid)
    }
}

impl PartialOrd for XidKey {
    ghost partial_cmp = { as_partial_cmp (on (λ k. k.xid) xid_order) };

    ghost laws = { partial_order_from_own_ties (Prim.search (comparing, rules) depth 9) (Prim.search (comparing, rules) depth 9) };

    fn partial_cmp(&self, other: &XidKey) -> Option<Ordering> {
        Some(self.cmp(other))
    }
}
