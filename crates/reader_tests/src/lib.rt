//! Tests of the reader through public functions alone: one node's log in pieces of any length, sources that fail, and
//! readings from a point on.
#![tactic(auto)]

#[cfg(test)]
mod failing;
#[cfg(test)]
mod given;
#[cfg(test)]
mod pieces;
#[cfg(test)]
mod points;
