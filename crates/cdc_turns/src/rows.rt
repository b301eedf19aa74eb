//! Turns in a row, and rounds.

ghost use Rattle.std.specs.Prelude.{◌≡◌, ℕ, ◌+◌, ◌^◌, ◌<◌, ◌≤◌, false, length};
ghost use Rattle.cdc_turns.specs.Flow.{LanesFit, RestsAt, Steps, line_with, view_of};

use crate::dump::DumpTurns;
use crate::item::LaneItem;
use crate::merge::MergeTurns;
use crate::node::NodeTurns;
use crate::single::turn_one;
use cdc_lane::PlainLane;

/// How often one job is turned before the next one is.
const TURNS_IN_A_ROW: usize = 4_096;

/// Turns one job until it rests, at most 4,096 times. Whether it moved.
fn turn_row<T: LaneItem, U: LaneItem, N: NodeTurns<T>, M: MergeTurns<T, U>, D: DumpTurns<U>>(
    nodes: &mut [N],
    ins: &mut [PlainLane<T>],
    merge: &mut M,
    outs: &mut [PlainLane<U>],
    dumps: &mut [D],
    number: usize,
) -> bool
    requires fits { LanesFit M.account (line_with nodes.old ins.old merge.old outs.old dumps.old) }
    requires number { number < length nodes.old + 1 + length dumps.old }
    ensures steps { Steps N.account M.account D.account (line_with nodes.old ins.old merge.old outs.old dumps.old) (line_with nodes.new ins.new merge.new outs.new dumps.new) result }
    ensures rests { result ≡ false → RestsAt (view_of N.account M.account D.account (line_with nodes.new ins.new merge.new outs.new dumps.new)) number }
{
    let first = turn_one(nodes, ins, merge, outs, dumps, number);
    if !first.is_move() {
        return false;
    }
    for _ in 1..TURNS_IN_A_ROW {
        let next = turn_one(nodes, ins, merge, outs, dumps, number);
        if !next.is_move() {
            return true;
        }
    }
    true
}

/// Turns each job in a row, one after another. Whether one of them moved; where none did, all rest.
pub(crate) fn turn_round<
    T: LaneItem,
    U: LaneItem,
    N: NodeTurns<T>,
    M: MergeTurns<T, U>,
    D: DumpTurns<U>,
>(
    nodes: &mut [N],
    ins: &mut [PlainLane<T>],
    merge: &mut M,
    outs: &mut [PlainLane<U>],
    dumps: &mut [D],
) -> bool
    requires fits { LanesFit M.account (line_with nodes.old ins.old merge.old outs.old dumps.old) }
    requires count { length nodes.old + length dumps.old < 2 ^ 32 }
    ensures steps { Steps N.account M.account D.account (line_with nodes.old ins.old merge.old outs.old dumps.old) (line_with nodes.new ins.new merge.new outs.new dumps.new) result }
    ensures rests { result ≡ false → (number : ℕ) → number < length nodes.new + 1 + length dumps.new → RestsAt (view_of N.account M.account D.account (line_with nodes.new ins.new merge.new outs.new dumps.new)) number }
{
    let mut moved = false;
    for number in 0..nodes.len() + 1 + dumps.len() {
        let row = turn_row(nodes, ins, merge, outs, dumps, number);
        if row {
            moved = true;
        }
    }
    moved
}
