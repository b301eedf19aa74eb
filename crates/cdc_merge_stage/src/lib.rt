//! The stage between the nodes and the outputs: it merges what the nodes give, and gives each output the units.
//!
//! `MergeStage::turn` takes one item off a node's lane, or puts one onto an output's. What a node gives goes to the merger;
//! each transaction that the merger gives is printed once, as a unit that all outputs share. The node whose bound is the
//! least is asked next, since no other can settle more. Once each node's End has come and all units were given, each output
//! gets an End. A transaction whose print is too large, and want of memory, end the merging: then the stage takes what
//! comes up to the Ends, and does nothing else. Called by a pass, through `MergeTurns`. Definitions: `Making`, `Merged`,
//! `Passing`; what it gives of the logs: `Settled`.
#![tactic(auto)]

mod job;
mod law;
mod maker;
mod merge_end;
mod slots;
mod stage;
mod start;

pub use law::{units_are_settled, units_continue_outputs};
pub use merge_end::MergeEnd;
pub use stage::MergeStage;
pub use start::MergeStart;
