//! The name of an XA branch.

ghost use Rattle.std.specs.Prelude.{◌≡◌};
ghost use Rattle.cdc_base.specs.Xid.{same_xid as specs_same_xid, xid_order};

use crate::gtrid::Gtrid;
use std::cmp::Ordering;

/// The name of an XA branch: global transaction id, branch qualifier, format.
#[derive(Clone, Copy, Debug, PartialEq, Eq)]
pub struct Xid {
    pub gtrid: Gtrid,
    pub bqual: Gtrid,
    pub format: u32,
}

/// Whether two xids are the same in all parts.
pub fn same_xid(a: &Xid, b: &Xid) -> bool
    ensures { result ≡ specs_same_xid a.now b.now }
{
    a == b
}

/// The order of xids: by global id, qualifier, format.
pub fn xid_cmp(a: &Xid, b: &Xid) -> Ordering
    ensures { result ≡ xid_order a.now b.now }
{
    a.gtrid
        .bytes()
        .cmp(b.gtrid.bytes())
        .then(a.bqual.bytes().cmp(b.bqual.bytes()))
        .then(a.format.cmp(&b.format))
}
