//! Tests of the merger: every order of turns of three nodes, many nodes at once, and ties.
//!
//! What is expected was worked out by hand from the branches and bounds.
#![tactic(auto)]

#[cfg(test)]
mod many_nodes;
#[cfg(test)]
mod orders;
#[cfg(test)]
mod told;
