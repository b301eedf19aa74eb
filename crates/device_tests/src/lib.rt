//! Tests of the traits of the outside, the devices in memory and the adapters over files.
//!
//! They show that calls succeed with ample memory, which no clause can say, and compare what the devices give
//! with hand counts.
#![tactic(auto)]

#[cfg(test)]
mod file_tests;
#[cfg(test)]
mod odd_source;
#[cfg(test)]
mod pattern;
#[cfg(test)]
mod sink_tests;
#[cfg(test)]
mod source_tests;
#[cfg(test)]
mod whole_tests;
