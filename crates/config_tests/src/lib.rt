//! Tests of the command line and of configurations, over the public calls alone.
//!
//! They show that calls succeed with ample memory, which no clause can say, as tables of words and of texts in TOML with
//! answers that were written by hand.
#![tactic(auto)]

#[cfg(test)]
mod key_tests;
#[cfg(test)]
mod plan_tests;
#[cfg(test)]
mod shown;
#[cfg(test)]
mod size_tests;
#[cfg(test)]
mod word_tests;
