//! Tests of a node's stage and of the merge stage through public functions alone, over logs and lanes in memory.
//!
//! A log is read in windows of many sizes over lanes of one place and of sixteen: what is sent is the same, and each window has
//! one End. Branches and bounds of two nodes are merged by hand, in one window and in two, for two outputs; a transaction
//! that is too large in their middle ends the merging. What is wanted was worked out by hand.
#![tactic(auto)]

#[cfg(test)]
mod large;
#[cfg(test)]
mod merge_tests;
#[cfg(test)]
mod merging;
#[cfg(test)]
mod node_tests;
#[cfg(test)]
mod sent;
