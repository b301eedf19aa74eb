//! Tests of the grouper through public functions alone: each cell of the table of faults, and whole logs.
//!
//! The expected answers come from the table of the formats, the places from counting by hand.
#![tactic(auto)]

#[cfg(test)]
mod answers;
#[cfg(test)]
mod logs;
