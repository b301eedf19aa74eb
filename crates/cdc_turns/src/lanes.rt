//! The lanes of a pass.

ghost use Rattle.std.specs.Prelude.{◌≡◌, ◌≤◌, [], length, IfOk};
ghost use Rattle.std.specs.List.{All};
ghost use Rattle.cdc_lane.specs.Held.{held, room_of};

use cdc_base::Memory;
use cdc_lane::PlainLane;
use std::alloc::Global;

/// How many items a node's lane keeps.
pub const NODE_ROOM: usize = 16;

/// How many items an out's lane keeps.
pub const DUMP_ROOM: usize = 4;

/// So many empty lanes of one room.
fn lanes_of<T: Drop>(alloc: Global, count: usize, room: usize) -> Result<Vec<PlainLane<T>>, Memory>
    requires { 1 ≤ room }
    ensures count { IfOk result (λ lanes. length lanes.items ≡ count) }
    ensures empty { IfOk result (λ lanes. All (λ lane. held lane ≡ []) lanes.items) }
    ensures room { IfOk result (λ lanes. All (λ lane. room_of lane ≡ room) lanes.items) }
{
    let mut lanes = Vec::with_capacity(alloc, count)?;
    for _ in 0..count {
        lanes.push(PlainLane::new(alloc, room)?)?;
    }
    Ok(lanes)
}

/// An empty lane for each node.
pub fn node_lanes<T: Drop>(alloc: Global, nodes: usize) -> Result<Vec<PlainLane<T>>, Memory>
    ensures count { IfOk result (λ lanes. length lanes.items ≡ nodes) }
    ensures empty { IfOk result (λ lanes. All (λ lane. held lane ≡ []) lanes.items) }
    ensures room { IfOk result (λ lanes. All (λ lane. room_of lane ≡ NODE_ROOM) lanes.items) }
{
    lanes_of(alloc, nodes, NODE_ROOM)
}

/// An empty lane for each out.
pub fn dump_lanes<T: Drop>(alloc: Global, outs: usize) -> Result<Vec<PlainLane<T>>, Memory>
    ensures count { IfOk result (λ lanes. length lanes.items ≡ outs) }
    ensures empty { IfOk result (λ lanes. All (λ lane. held lane ≡ []) lanes.items) }
    ensures room { IfOk result (λ lanes. All (λ lane. room_of lane ≡ DUMP_ROOM) lanes.items) }
{
    lanes_of(alloc, outs, DUMP_ROOM)
}
