//! One turn of one job.

ghost use Rattle.std.specs.Prelude.{◌≡◌, ◌+◌, ◌<◌, ◌≤◌, false, length};
ghost use Rattle.cdc_turns.specs.Flow.{LanesFit, RestsAt, Steps, line_with, view_of};
ghost use Rattle.cdc_turns.specs.Turns.{is_move};

use crate::dump::DumpTurns;
use crate::item::LaneItem;
use crate::merge::MergeTurns;
use crate::node::NodeTurns;
use crate::turn::Turn;
use cdc_lane::PlainLane;

/// One turn of the job of a number: the nodes' jobs come first, then the merge job, then the outs' jobs.
pub(crate) fn turn_one<
    T: LaneItem,
    U: LaneItem,
    N: NodeTurns<T>,
    M: MergeTurns<T, U>,
    D: DumpTurns<U>,
>(
    nodes: &mut [N],
    ins: &mut [PlainLane<T>],
    merge: &mut M,
    outs: &mut [PlainLane<U>],
    dumps: &mut [D],
    number: usize,
) -> Turn
    requires fits { LanesFit M.account (line_with nodes.old ins.old merge.old outs.old dumps.old) }
    requires number { number < length nodes.old + 1 + length dumps.old }
    ensures steps { Steps N.account M.account D.account (line_with nodes.old ins.old merge.old outs.old dumps.old) (line_with nodes.new ins.new merge.new outs.new dumps.new) (is_move result) }
    ensures rests { is_move result ≡ false → RestsAt (view_of N.account M.account D.account (line_with nodes.new ins.new merge.new outs.new dumps.new)) number }
{
    let count = nodes.len();
    if number < count {
        return nodes[number].turn(&mut ins[number]);
    }
    if number == count {
        return merge.turn(ins, outs);
    }
    let out = number - count - 1;
    dumps[out].turn(&mut outs[out])
}
