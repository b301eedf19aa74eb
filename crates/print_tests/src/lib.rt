//! Tests of the print of all logs, over sources and sinks in memory.
//!
//! They show that calls succeed with ample memory, which no clause can say, and compare how a print ends, how many
//! bytes it writes and the first bytes of them with what was counted by hand.
#![tactic(auto)]

#[cfg(test)]
mod device_faults;
#[cfg(test)]
mod node_faults;
#[cfg(test)]
mod prints;
#[cfg(test)]
mod seen;
