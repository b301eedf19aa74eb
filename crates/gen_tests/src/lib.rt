//! Tests of the generator: sizes by hand, one log byte for byte, and the first draws of some seeds.
#![tactic(auto)]

#[cfg(test)]
mod log_tests;
