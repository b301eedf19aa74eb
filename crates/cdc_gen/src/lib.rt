//! Logs of a drill and schedules of turns, made from a number.
//!
//! `logs_of` gives the log files of some nodes with transactions on one and two of them; `schedule_of` a list of
//! numbers. The same numbers always give the same bytes, so a large input needs no file. Called by the drills of
//! the top call and by tests. Definitions: `Draws`, `Script` (what happens, in order), `Events` (the events of a
//! step), `Logs` (the files).
#![tactic(auto)]

mod block;
mod bodies;
mod draws;
mod drill;
mod events;
mod head;
mod step;
mod writing;

pub use draws::schedule_of;
pub use drill::{LogList, logs_of};
