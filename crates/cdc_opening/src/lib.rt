//! The opening of a pass, and how a pass ends.
//!
//! `open_pass` opens each output, then the task's disk, then each source, in this order and by number, and answers the
//! first refusal. What is opened says from where the pass goes on. An `Outcome` says how a pass ended; of several causes
//! `Outcome::earlier` tells which one is answered. Called by a pass. Definitions: `Outcomes`, `OpenOuts`, `OpenSources`,
//! `Answers`.
#![tactic(auto)]

mod opened;
mod opening;
mod outcome;
mod outs;
mod sources;

pub use opened::Opened;
pub use opening::open_pass;
pub use outcome::Outcome;
