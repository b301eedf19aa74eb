//! Which checkpoints a record may have.

ghost use Rattle.std.specs.Prelude.{◌≡◌, ◌↔◌, IsTrue, map};
ghost use Rattle.cdc_base.specs.Key.{timestamp_of};
ghost use Rattle.cdc_model.specs.Openings.{AscendByXid, IsXidBelow};
ghost use Rattle.cdc_model.specs.Restart.{held_open, first_point};
ghost use Rattle.cdc_records.specs.Checkpoint.{IsCut, IsPoint, IsBeginning};
ghost use Rattle.std.specs.List.{AllByRecursion};
ghost use Rattle.cdc_task.specs.Conditions.{HasGoodLayout};

use crate::held_reading::MARK_MAX;
use cdc_base::{Key, NODES_MAX, Place, Xid, xid_cmp};
use cdc_model::{Layout, NodeCut};
use cdc_records::Checkpoint;

/// The number of a record isn't above this.
const NUMBER_MAX: u64 = 2_305_843_009_213_693_952;

/// An open file is shorter than this.
const OPEN_END: u64 = 1_073_741_824;

/// A closed file is shorter than this.
const CLOSED_END: u64 = 2_147_483_648;

/// Whether an xid stands before another.
#[tactic(auto, using(crate::proofs::Orders::is_below_is))]
fn is_below(a: &Xid, b: &Xid) -> bool
    ensures { IsTrue result ↔ IsXidBelow a.now b.now }
{
    xid_cmp(a, b).is_lt()
}

/// Whether held branches stand in order of their xids, each once.
fn is_ascending(held: &[(Xid, u64)]) -> bool
    ensures { IsTrue result ↔ AscendByXid (map held_open held.now) }
{
    for index in 1..held.len() {
        if !is_below(&held[index - 1].0, &held[index].0) {
            return false;
        }
    }
    true
}

/// Whether a point is the start of a log.
fn is_first(cut: &NodeCut) -> bool
    ensures { IsTrue result ↔ (cut.now ≡ first_point) }
{
    cut.entry == 1
        && cut.place == Place { file: 1, at: 0 }
        && cut.mark == 0
        && cut.checksum == 0
        && cut.held.is_empty()
}

/// Whether a record may have this point of a node.
fn is_cut(cut: &NodeCut) -> bool
    ensures { IsTrue result ↔ IsCut cut.now }
{
    cut.entry >= 1
        && cut.place.file >= 1
        && is_ascending(cut.held.as_slice())
        && (cut.entry != 1 || is_first(cut))
}

/// Whether a record may have these points of the nodes.
fn are_cuts(cuts: &[NodeCut]) -> bool
    ensures { IsTrue result ↔ AllByRecursion IsCut cuts.now }
{
    for cut in cuts {
        if !is_cut(cut) {
            return false;
        }
    }
    true
}

/// A key's timestamp.
fn timestamp(key: &Key) -> u64
    ensures { result ≡ timestamp_of key.now }
{
    match key {
        Key::Shared { timestamp, .. } => *timestamp,
        Key::Plain { timestamp, .. } => *timestamp,
    }
}

/// Whether a layout may stand beside a count.
fn has_good_layout(count: u64, layout: &Layout) -> bool
    ensures { IsTrue result ↔ HasGoodLayout count layout.now }
{
    let end = if layout.closed { CLOSED_END } else { OPEN_END };
    layout.file <= count && layout.length < end
}

/// Whether a checkpoint says that nothing is published.
fn is_beginning(checkpoint: &Checkpoint) -> bool
    ensures { IsTrue result ↔ IsBeginning checkpoint.now }
{
    let nothing = Layout {
        file: 0,
        length: 0,
        closed: false,
    };
    checkpoint.layout == nothing && checkpoint.last == cdc_base::first_key()
}

/// Whether a record may have this checkpoint.
pub fn is_point(checkpoint: &Checkpoint) -> bool
    ensures { IsTrue result ↔ IsPoint checkpoint.now }
{
    let nodes = checkpoint.nodes.len();
    1 <= nodes
        && nodes <= NODES_MAX
        && timestamp(&checkpoint.last) <= MARK_MAX
        && has_good_layout(checkpoint.count, &checkpoint.layout)
        && (checkpoint.count != 0 || is_beginning(checkpoint))
        && checkpoint.number() <= NUMBER_MAX
        && are_cuts(checkpoint.nodes.as_slice())
}
