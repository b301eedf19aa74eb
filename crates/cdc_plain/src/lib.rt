//! The plain program: from the entries of all nodes to the transactions in global order.
//!
//! Each function's contract is a definition of `cdc_model`, and its body follows that definition as plainly as it
//! can. What is written for speed has the same contracts, so that tests can compare the two. `add_node_branches` and
//! `all_branches` give the committed branches, `low_water_mark` what the logs can no longer bring, `settled_keys` what
//! is settled under it, and `ordered_transactions` all of it in one call. Called by `cdc_top`.
#![tactic(auto)]

mod committed;
mod next_start;
mod open_branches;
mod order;
mod settled;
mod soundness;
mod watermark;

pub use committed::add_node_branches;
pub use next_start::advance;
pub use order::{all_branches, ordered_transactions};
pub use settled::{KeyList, is_settled, settled_keys};
pub use soundness::{entry_fault, reached, sound_count};
pub use watermark::{low_water_mark, node_low_water_mark};
