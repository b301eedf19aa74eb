//! Tests of the drill: what is written by rows that were worked out outside, in whatever order the turns are taken, and what
//! comes of a sink that fails.
#![tactic(auto)]

#[cfg(test)]
mod row_tests;
