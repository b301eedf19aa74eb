//! Tests of the dumper: units in groups that are cut off at each call, outputs that are opened again, records byte by byte.
//!
//! Ten units made by hand are published over three files and compared with bytes that were counted by hand. Hostile
//! slots and files that are too short are refused, each with what it is refused for.
#![tactic(auto)]

#[cfg(test)]
mod fields_tests;
#[cfg(test)]
mod first_tests;
#[cfg(test)]
mod folder_tests;
#[cfg(test)]
mod group_tests;
#[cfg(test)]
mod opening_tests;
#[cfg(test)]
mod publishing;
#[cfg(test)]
mod samples;
#[cfg(test)]
mod ten;
#[cfg(test)]
mod told_tests;
#[cfg(test)]
mod untold_disk;
