//! Lanes: the queues between the stages of a pass.
//!
//! A lane keeps at most so many items, in the order in which they went in. What came out, followed by what the lane
//! holds, is what went in. `PlainLane` is the lane of a pass on one thread, both its ends in one object; stages see
//! it by the traits `LaneIn` and `LaneOut` of `cdc_outside`. Called by the driver of one thread. Definitions: `Held`.
#![tactic(auto)]

mod plain;

pub use plain::PlainLane;
