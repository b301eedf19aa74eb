//! Tests of disks, in memory and over a folder, and of the record that a crash leaves old or new.
//!
//! They stop a store at each of its calls and look at what a crash leaves, read slots of hostile bytes, and compare
//! what a folder holds with names and bytes that were written down by hand.
#![tactic(auto)]

#[cfg(test)]
mod barrier_tests;
#[cfg(test)]
mod folder_tests;
#[cfg(test)]
mod samples;
#[cfg(test)]
mod slot_tests;
#[cfg(test)]
mod store_tests;
