//! A drill: one pass over logs that are made from a number, over disks in memory.
//!
//! `drill` makes the logs, runs a pass over them into one output that is as large as the work needs, and writes the drill's line
//! and the output's. Called by the top call. Definitions: `Drill` (how a drill ends), `Attempts` (how one attempt does).
#![tactic(auto)]

mod attempt;
mod devices;
mod drill_end;
mod drilling;
mod plan;
mod sizes;
mod text;

pub use drill_end::DrillEnd;
pub use drilling::drill;
