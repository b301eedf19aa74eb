//! The one file of all nodes' logs: read, merged, and printed.
//!
//! `print_logs` reads the logs of 1 to 256 nodes from their sources, merges what is settled into the global order, and
//! writes the one file of it, without rotation and renaming, once every node was read: until then its bytes wait in
//! pieces. `PrintEnd` says how that ended; `IsPrintEnd` in `specs/Outcome.antt` says when each end comes and what was
//! written. A node's log is read by `cdc_reader`, merged by `cdc_merger`, printed by `cdc_writer`. The node whose
//! low-water mark is least is read next, so that what is settled leaves memory soon. Called by the command `print`.
#![tactic(auto)]

mod end;
mod laws;
mod logs;
mod node;
mod pieces;
mod printer;
mod printing;
mod verdict;

pub use end::PrintEnd;
pub use laws::{file_has_all, nodes_have_logs, one_list_of_logs, print_is_complete};
pub use logs::print_logs;
