//! Tests of the listing of outputs, over disks in memory and over a folder.
//!
//! They show that calls succeed with ample memory, which no clause can say, and compare the lines with those that were
//! worked out by hand.
#![tactic(auto)]

#[cfg(test)]
mod fault_tests;
#[cfg(test)]
mod folder_tests;
#[cfg(test)]
mod line_tests;
#[cfg(test)]
mod shelves;
