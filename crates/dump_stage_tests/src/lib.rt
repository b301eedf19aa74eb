//! Tests of an output's stage through public functions alone: units that come off a lane, over a disk in memory.
//!
//! A run is a line of words: units by their numbers, Ends, and windows. What each turn appended and published is told as a
//! text that was worked out by hand. Units that another output has, outputs that are ahead, and disks that stop at each
//! call end it as they must.
#![tactic(auto)]

#[cfg(test)]
mod group_tests;
#[cfg(test)]
mod jobs;
#[cfg(test)]
mod run_tests;
#[cfg(test)]
mod runs;
#[cfg(test)]
mod stop_tests;
#[cfg(test)]
mod turn_tests;
#[cfg(test)]
mod units;
#[cfg(test)]
mod untold_disk;
