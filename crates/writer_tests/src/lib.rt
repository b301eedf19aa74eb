//! Tests of printed transactions and of table names, through public functions alone.
//!
//! Transactions and rules are made by `cdc_samples`; what is printed is compared with tables of bytes and lengths
//! that follow from the formats by hand.
#![tactic(auto)]

#[cfg(test)]
mod large;
#[cfg(test)]
mod printed;
#[cfg(test)]
mod prints;
#[cfg(test)]
mod rules;
#[cfg(test)]
mod samples;
#[cfg(test)]
mod spots;
#[cfg(test)]
mod statements;
#[cfg(test)]
mod units;
