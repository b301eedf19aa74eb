//! The outside, as the rest of the project sees it: traits that are handed in.
//!
//! `Source` is what is read, `Sink` is where printed bytes go; a `Door` gives each client's `Link`, and a `Salt` is
//! drawn for each login. Each trait says what a call gives, what it
//! leaves as it was, and that a call fails only where the object's count of faults rose. Devices in memory
//! stand in `cdc_memory`, adapters over real files in `cdc_files`. `read_whole` reads one file of a source.
//! `Disk` is a folder whose files a crash may tear; above its small blocks (`write_through` and its like)
//! nobody sees what is pending. `LaneIn` and `LaneOut` are the two ends of a lane between stages.
//! Definitions: `Count`, `Disk`, `Source`, `Sink`, `Link`, `Door`.
#![tactic(auto)]

mod disk;
mod disk_file;
mod door;
mod failed;
mod lane;
mod link;
mod salt;
mod sink;
mod source;
mod through;
mod whole;

pub use disk::Disk;
pub use disk_file::DiskFile;
pub use door::Door;
pub use failed::Failed;
pub use lane::{LaneIn, LaneOut};
pub use link::Link;
pub use salt::{SALT_LENGTH, Salt};
pub use sink::Sink;
pub use source::{Source, highest_place, lowest_place};
pub use through::{cut_through, settle, write_behind, write_pair_through, write_through};
pub use whole::{ReadWholeError, read_whole};
