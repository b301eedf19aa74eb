//! A window, from its first turn to its last.

ghost use Rattle.std.specs.Prelude.{◌≡◌, ℕ, ◌+◌, ◌^◌, ◌<◌, ◌≤◌, Bool, List, length};
ghost use Rattle.std.specs.List.{AllZip};
ghost use Rattle.cdc_turns.specs.Joined.{AllTurned};
ghost use Rattle.cdc_turns.specs.Flow.{LanesFit, Flow, Ran, RanOn, Steps, line_with};

use crate::dump::DumpTurns;
use crate::item::LaneItem;
use crate::merge::MergeTurns;
use crate::node::NodeTurns;
use crate::rows::turn_round;
use crate::single::turn_one;
use cdc_lane::PlainLane;

/// Whether each out's job has ended. Then all jobs have.
fn all_ended<U: LaneItem, D: DumpTurns<U>>(dumps: &[D]) -> bool {
    dumps.iter().all(|dump| dump.has_ended())
}

/// Turns in the order of the schedule from a place on, until it is used up or each out's job has ended. The place is
/// where the next window goes on.
fn turn_by_schedule<
    T: LaneItem,
    U: LaneItem,
    N: NodeTurns<T>,
    M: MergeTurns<T, U>,
    D: DumpTurns<U>,
>(
    nodes: &mut [N],
    ins: &mut [PlainLane<T>],
    merge: &mut M,
    outs: &mut [PlainLane<U>],
    dumps: &mut [D],
    schedule: &[u32],
    at: &mut usize,
)
    requires fits { LanesFit M.account (line_with nodes.old ins.old merge.old outs.old dumps.old) }
    requires count { length nodes.old + length dumps.old < 2 ^ 32 }
    requires place { at.old ≤ length schedule.now }
    ensures steps { (moved : Bool) × Steps N.account M.account D.account (line_with nodes.old ins.old merge.old outs.old dumps.old) (line_with nodes.new ins.new merge.new outs.new dumps.new) moved }
    ensures later { at.old ≤ at.new }
    ensures place { at.new ≤ length schedule.now }
{
    let stages = nodes.len() + 1 + dumps.len();
    while *at < schedule.len() && !all_ended(dumps) {
        let number = schedule[*at] as usize % stages;
        let _turn = turn_one(nodes, ins, merge, outs, dumps, number);
        *at += 1;
    }
}

/// Turns the jobs of a window until all have ended.
///
/// First one turn for each number of the schedule from `at` on, taken modulo the number of jobs (the nodes' jobs come
/// first, then the merge job, then the outs' jobs); what the window doesn't use is left for the next one, and `at` is
/// its place. Then round and round: each job is turned until it is blocked or done, at most 4,096 times, before the
/// next one is. It takes no memory.
pub fn run<T: LaneItem, U: LaneItem, N: NodeTurns<T>, M: MergeTurns<T, U>, D: DumpTurns<U>>(
    nodes: &mut [N],
    ins: &mut [PlainLane<T>],
    merge: &mut M,
    outs: &mut [PlainLane<U>],
    dumps: &mut [D],
    schedule: &[u32],
    at: &mut usize,
)
    requires fits { LanesFit M.account (line_with nodes.old ins.old merge.old outs.old dumps.old) }
    requires count { length nodes.old + length dumps.old < 2 ^ 32 }
    requires place { at.old ≤ length schedule.now }
    // Whatever the schedule, a window that flows has run to its end.
    ensures ran { (window : ℕ) → Flow N.account M.account D.account window (line_with nodes.old ins.old merge.old outs.old dumps.old) → Ran N.account M.account D.account window (line_with nodes.new ins.new merge.new outs.new dumps.new) }
    ensures fits { LanesFit M.account (line_with nodes.new ins.new merge.new outs.new dumps.new) }
    ensures nodes { AllZip N.account.turned nodes.old nodes.new }
    ensures merge { M.account.turned merge.old merge.new }
    // Each out's job is told what it took, and that is what it got besides what it had.
    ensures dumps { (taken : List (List U)) × AllTurned D.account.turned dumps.old taken dumps.new
        × ((window : ℕ) (before : Flow N.account M.account D.account window (line_with nodes.old ins.old merge.old outs.old dumps.old)) → RanOn N.account M.account D.account window (line_with nodes.old ins.old merge.old outs.old dumps.old) (line_with nodes.new ins.new merge.new outs.new dumps.new) taken before) }
    ensures later { at.old ≤ at.new }
    ensures place { at.new ≤ length schedule.now }
{
    turn_by_schedule(nodes, ins, merge, outs, dumps, schedule, at);
    loop {
        if !turn_round(nodes, ins, merge, outs, dumps) {
            return;
        }
    }
}
