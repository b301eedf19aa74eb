//! Tests of the top call over sources, disks and sinks in memory.
//!
//! They show that calls succeed with ample memory, which no clause can say, and compare what is written with bytes
//! that were typed or counted by hand.
#![tactic(auto)]

#[cfg(test)]
mod call;
#[cfg(test)]
mod clocked_source;
#[cfg(test)]
mod drill_tests;
#[cfg(test)]
mod expected;
#[cfg(test)]
mod fault_tests;
#[cfg(test)]
mod large_tests;
#[cfg(test)]
mod line_tests;
#[cfg(test)]
mod list_tests;
#[cfg(test)]
mod listing;
#[cfg(test)]
mod many;
#[cfg(test)]
mod node_tests;
#[cfg(test)]
mod nodes;
#[cfg(test)]
mod pass_row_tests;
#[cfg(test)]
mod pass_table;
#[cfg(test)]
mod passing;
#[cfg(test)]
mod piece_tests;
#[cfg(test)]
mod resume_tests;
#[cfg(test)]
mod row_tests;
#[cfg(test)]
mod service;
#[cfg(test)]
mod sink_tests;
#[cfg(test)]
mod stop_tests;
#[cfg(test)]
mod table;
#[cfg(test)]
mod turn_tests;
#[cfg(test)]
mod untold_disk;
#[cfg(test)]
mod window_tests;
#[cfg(test)]
mod word_tests;
