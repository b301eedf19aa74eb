//! Tests of the lanes of one thread and of the driver that turns the jobs between them, through public functions alone.
#![tactic(auto)]

mod feeder;
mod item;
mod keeper;
#[cfg(test)]
mod lanes;
mod relay;
#[cfg(test)]
mod windows;
