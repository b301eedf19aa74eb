//! The driver of one thread: it turns the stages of a window in any order until all are done.
//!
//! A pass has a stage for each node, one that merges, and one for each out. Between them are lanes: one from each
//! node's stage to the merge stage, one from that to each out's stage. A job is a stage together with its device. The
//! driver sees a job by what its turns promise (`NodeTurns`, `MergeTurns`, `DumpTurns`), and knows nothing else of it.
//! `run` promises, whatever the schedule: what was sent is what was taken, and what was given is what was got, item by
//! item; each job has ended, and each lane is empty. `next_window` opens the next window. Called by a pass.
//! Definitions: `Account`, `Joined`, `Ends`, `Turns`, `Flow`.
#![tactic(auto)]

mod drive;
mod dump;
mod item;
mod lanes;
mod merge;
mod node;
mod rows;
mod single;
mod turn;
mod windows;

pub use drive::run;
pub use dump::DumpTurns;
pub use item::LaneItem;
pub use lanes::{DUMP_ROOM, NODE_ROOM, dump_lanes, node_lanes};
pub use merge::MergeTurns;
pub use node::NodeTurns;
pub use turn::Turn;
pub use windows::next_window;
