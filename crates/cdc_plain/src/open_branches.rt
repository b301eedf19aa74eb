//! The open branches of a node, in order.

ghost use Rattle.std.specs.Prelude.{◌≡◌, ◌≤◌, ◌++◌, ◌∷◌, take, drop, length, OnOk};
ghost use Rattle.std.specs.List.{position_from};
ghost use Rattle.std.specs.Option.{option_copied};
ghost use Rattle.cdc_base.specs.Xid.{same_xid};
ghost use Rattle.cdc_model.specs.Start as start;
ghost use Rattle.cdc_plain.specs.Entering.{IsIndexFor};

use cdc_base::{Memory, Xid, same_xid, xid_cmp};
use cdc_model::{OpenList, Opened};

/// The open branch of an xid, or none.
pub fn find_open<'a>(opened: &'a [Opened], xid: &Xid) -> Option<&'a Opened>
    ensures { option_copied result ≡ start.find_open xid.now opened.now }
{
    for branch in opened {
        if same_xid(xid, &branch.xid) {
            return Some(branch);
        }
    }
    None
}

/// The index of the first open branch of an xid, or none.
fn index_of(opened: &[Opened], xid: &Xid) -> Option<usize>
    ensures { result ≡ position_from (λ branch. same_xid xid.now branch.xid) 0 opened.now }
{
    for (index, branch) in opened.iter().enumerate() {
        if same_xid(xid, &branch.xid) {
            return Some(index);
        }
    }
    None
}

/// Ends the branch of an xid.
pub fn without(opened: &mut OpenList, xid: &Xid)
    ensures { opened.new ≡ start.without xid.now opened.old }
{
    while let Some(index) = index_of(opened.as_slice(), xid) {
        opened.remove(index);
    }
}

/// The index of an xid among open branches in order.
fn index_for(opened: &[Opened], xid: &Xid) -> usize
    ensures within { result ≤ length opened.now }
    ensures entered { IsIndexFor xid.now opened.now result }
{
    for (index, branch) in opened.iter().enumerate() {
        if xid_cmp(xid, &branch.xid).is_lt() {
            return index;
        }
    }
    opened.len()
}

/// Opens a branch, at its index in the order. On `Memory` the list is unchanged, and the branch is let go.
pub fn enter(opened: &mut OpenList, branch: Opened) -> Result<(), Memory>
    ensures { OnOk result (opened.new ≡ start.enter branch opened.old) }
{
    let index = index_for(opened.as_slice(), &branch.xid);
    opened.insert(index, branch)
}
