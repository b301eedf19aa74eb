//! Committed branches that wait to be given, the least key first.
//!
//! `Waiting` is seen as the list of them, by key and under one key by the number of the entry that committed them. To add
//! one and to take the first out takes time by the logarithm of how many wait.
#![tactic(auto)]

mod laws;
mod ranked_branch;
mod waiting;

pub use laws::newest_stands_behind;
pub use waiting::Waiting;
