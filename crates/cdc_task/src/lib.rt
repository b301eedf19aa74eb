//! The task's checkpoint: from where a pass goes on.
//!
//! `load` syncs the task's disk, opens its cell and reads the checkpoint, of either version; `store` writes the next one,
//! of the second version, which a crash leaves old or new; `resume` tells whether a pass goes on from it. A record is
//! read as if it were a checkpoint's, and is one exactly where that has the same bytes. Called by a pass at its opening
//! and behind each window. Definitions: `Checkpoint` of cdc_records, and `Task`.
#![tactic(auto)]

mod conditions;
mod cut_reading;
mod fault;
mod fields;
mod held_reading;
mod loading;
mod point_reading;
mod start;
mod storing;
mod writing;

pub use conditions::is_point;
pub use fault::{StoreFault, TaskFault};
pub use loading::load;
pub use start::{Start, resume};
pub use storing::store;
