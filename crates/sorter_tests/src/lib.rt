//! Tests of the sorter through public functions alone: small logs, entry by entry, with answers that were worked out by
//! hand from the definitions.
#![tactic(auto)]

#[cfg(test)]
mod answers;
#[cfg(test)]
mod beside;
#[cfg(test)]
mod cuts;
#[cfg(test)]
mod logs;
