//! The pass on one thread: window by window the jobs of the nodes, of the merging and of the outputs are turned until all
//! have ended, and a checkpoint is kept behind each window.
//!
//! `run_windows` goes over any jobs that keep the driver's traits and say, beside their turns, from where they may be read
//! again and how far they came (`NodePart`, `MergePart`); `SourcedNode` and the merge stage are such jobs over real sources.
//! Whatever the schedule and whatever transactions the units are of, nothing that an output keeps is lost at any moment, and no
//! checkpoint runs ahead of an output. Called by a pass. Definitions: `Keeping`, `Rereading`, `Windows`, `Sourced`.
#![tactic(auto)]

mod causes;
mod jobs;
mod keeper;
mod parts;
mod pass;
mod reached;
mod ready;
mod sourced;
mod window;
mod windows;

pub use causes::outs_cause;
pub use jobs::{dump_jobs, give_back};
pub use keeper::Keeper;
pub use parts::{MergePart, NodePart};
pub use pass::{Passed, run_opened};
pub use reached::Reached;
pub use ready::opened_outs_are_ready;
pub use sourced::SourcedNode;
pub use windows::run_windows;
