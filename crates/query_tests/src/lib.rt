//! Tests of statement texts through public functions alone.
//!
//! The expected verbs and texts follow from the grammar by hand.
#![tactic(auto)]

#[cfg(test)]
mod tests;
