//! A pass: all that is new in the nodes' logs goes to the outputs.
//!
//! `run` opens the disks and the sources, reads the logs on from where the last pass came to, and publishes what is settled, window
//! by window, on one thread and in any order of turns. Its clause `headline` is the service's promise: at every moment a crash
//! leaves of each output the first transactions of the logs, whole and in order, none is ever lost, and where the pass is done
//! all are published. Called by the top call. Definitions: `Starting`, `Ending`, `Headline`.
#![tactic(auto)]

mod ends;
mod jobs;
mod pass;
mod stages;

pub use pass::run;
