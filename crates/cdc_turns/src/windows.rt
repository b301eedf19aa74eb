//! From one window to the next.

ghost use Rattle.std.specs.Prelude.{◌≡◌, ℕ, ◌+◌, true, List, length};
ghost use Rattle.std.specs.List.{All, AllZip};
ghost use Rattle.cdc_lane.specs.declared.plain.PlainLane.{PlainLane};
ghost use Rattle.cdc_turns.specs.Ends.{NextWindow};
ghost use Rattle.cdc_turns.specs.Joined.{nothing_for, AllTurned};
ghost use Rattle.cdc_turns.specs.Flow.{LanesFit, Ran, NextFlow, line_with};

use crate::dump::DumpTurns;
use crate::item::LaneItem;
use crate::merge::MergeTurns;
use crate::node::NodeTurns;

/// Opens the next window of each node's job.
fn again_nodes<T: LaneItem, N: NodeTurns<T>>(nodes: &mut [N])
    requires ended { All (λ node. N.account.ended node ≡ true) nodes.old }
    ensures next { AllZip (NextWindow N.account.sent) nodes.old nodes.new }
    ensures turned { AllZip N.account.turned nodes.old nodes.new }
{
    for index in 0..nodes.len() {
        nodes[index].again();
    }
}

/// Opens the next window of each out's job.
fn again_dumps<U: LaneItem, D: DumpTurns<U>>(dumps: &mut [D])
    requires ended { All (λ dump. D.account.ended dump ≡ true) dumps.old }
    ensures next { AllZip (NextWindow D.account.got) dumps.old dumps.new }
    ensures turned { AllTurned D.account.turned dumps.old (nothing_for dumps.old) dumps.new }
{
    for index in 0..dumps.len() {
        dumps[index].again();
    }
}

/// Opens the next window of jobs that have ended: what flowed in all windows before flows on.
pub fn next_window<T: LaneItem, U: LaneItem, N: NodeTurns<T>, M: MergeTurns<T, U>, D: DumpTurns<U>>(
    nodes: &mut [N],
    merge: &mut M,
    dumps: &mut [D],
)
    requires nodes_ended { All (λ node. N.account.ended node ≡ true) nodes.old }
    requires merge_ended { M.account.ended merge.old ≡ true }
    requires dumps_ended { All (λ dump. D.account.ended dump ≡ true) dumps.old }
    ensures flow { (window : ℕ) (ins : List (PlainLane T)) (outs : List (PlainLane U)) → LanesFit M.account (line_with nodes.old ins merge.old outs dumps.old) → (ran : Ran N.account M.account D.account window (line_with nodes.old ins merge.old outs dumps.old))
        → NextFlow N.account M.account D.account window (line_with nodes.old ins merge.old outs dumps.old) (line_with nodes.new ins merge.new outs dumps.new) ran }
    ensures fits { (ins : List (PlainLane T)) (outs : List (PlainLane U)) → LanesFit M.account (line_with nodes.old ins merge.old outs dumps.old) → LanesFit M.account (line_with nodes.new ins merge.new outs dumps.new) }
    ensures nodes { AllZip N.account.turned nodes.old nodes.new }
    ensures merge { M.account.turned merge.old merge.new }
    ensures dumps { AllTurned D.account.turned dumps.old (nothing_for dumps.old) dumps.new }
{
    again_nodes(nodes);
    merge.again();
    again_dumps(dumps);
}
