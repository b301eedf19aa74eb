//! Tests of the stage that hands its units on, through public functions alone: units that come off a lane, over a disk in
//! memory, with a watch in memory.
//!
//! A run is a line of words; what each turn handed on is told as a text that was worked out by hand. Behind disks that stop at
//! each call the watch has just the units that are published, in order, each once.
#![tactic(auto)]

#[cfg(test)]
mod hand_tests;
#[cfg(test)]
mod runs;
#[cfg(test)]
mod stop_tests;
#[cfg(test)]
mod units;
#[cfg(test)]
mod untold_disk;
#[cfg(test)]
mod watched;
