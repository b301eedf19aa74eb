//! Tests of the task's checkpoint: its records byte by byte, stores that are cut off, and records that are none.
#![tactic(auto)]

#[cfg(test)]
mod hostile_tests;
#[cfg(test)]
mod plan_tests;
#[cfg(test)]
mod record_tests;
#[cfg(test)]
mod samples;
#[cfg(test)]
mod stop_tests;
