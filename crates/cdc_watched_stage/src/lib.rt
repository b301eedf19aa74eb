//! The stage of an output that hands its units on: to a watch, in order, each behind its commit.
//!
//! `WatchedStage::turn_watched` is `DumpStage::turn`, with a watch beside it. A unit that the stage appended waits; when a
//! commit has published it, it goes on to the watch. A unit that the stage passed over or refused doesn't. Nothing is
//! copied: the unit that came off the lane is the one that waits. Where there is no room for it the watch is ended, and no
//! further unit is handed on; the output itself goes on. Called by a pass. Definitions: `Getting`, `Handing`.
#![tactic(auto)]

mod mem_watch;
mod stage;
mod waits;
mod watch;

pub use mem_watch::MemWatch;
pub use stage::WatchedStage;
pub use watch::Watch;
