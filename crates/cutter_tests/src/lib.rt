//! Tests of the cutter through public functions alone: logs in pieces of any size, and resumed readings.
//!
//! The expected places, types and settings are counted by hand from the formats.
#![tactic(auto)]

#[cfg(test)]
mod counted;
#[cfg(test)]
mod cuts;
#[cfg(test)]
mod shown;
