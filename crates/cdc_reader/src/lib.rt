//! One node's log, read from its source: its settled branches and its low-water mark, as far as the log was read.
//!
//! A `Reader` is asked for what comes next (`next`): a settled branch, the low-water mark, that bytes were read, or
//! nothing more. It asks its source for bytes only where all that is settled was given and the mark was told, in reads
//! of at most 65,536 bytes, over all files of the log. `end` says how the reading ended, and `place` how far it came.
//! `IsReading` in `specs/Standing.antt` says what a reader stands for, over all that it may have taken and given: the
//! entries are those of the log's bytes, and what was given is a feed of their settled branches. Called by `print`.
#![tactic(auto)]

mod follower;
mod log;
mod reader;
mod step;

pub use reader::Reader;
pub use step::{NodeEnd, Step};
