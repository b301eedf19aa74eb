//! The stage of an output: it takes units off its lane, and publishes those that its output doesn't have yet.
//!
//! `DumpStage::turn` takes at most one item. A unit is compared with what was appended last: one that the output has is
//! passed over, the next one is appended, and any other ends the stage (`Key`, `Differs`). All that was appended is
//! published by one commit: where 4,096 units or more than 8 MiB wait for it, where a unit's file wants it, and at each
//! End. A stage that ended otherwise than whole takes items off its lane up to the End, and does nothing else. A turn takes
//! no memory. `DumpJob` is a stage with its disk, as the driver turns it: whatever transactions the units are of, nothing
//! that the output keeps is lost at any moment. Called by a pass. Definitions: `Disks`, `Taking`, `Standing`, `Job`.
#![tactic(auto)]

mod dump_end;
mod group;
mod job;
mod law;
mod refusal;
mod stage;

pub use dump_end::DumpEnd;
pub use job::DumpJob;
pub use law::whole_outputs_keep_all;
pub use stage::DumpStage;
