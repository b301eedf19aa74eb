//! The readings of a pass over its sources: what its windows gave, joined to the settled transactions of the whole logs.
//!
//! A pass begins each node's job and the merge stage at restart points, and runs windows (`cdc_windows`). These laws say that
//! such jobs read the logs of their sources; that everything settled was given where all readings came to their ends, and the
//! checkpoint behind them is the last one; that a print which is too large is the logs' first one; and that a node's fault is its
//! log's. Each function ensures its law, so that the check proves it. Called by the pass. Definitions: `Begun`, `Ended`, `Laws`.
#![tactic(auto)]

mod laws;

pub use laws::{
    all_windows_give_all, ends_are_faults, jobs_read_logs, last_windows_point_is_the_last,
    too_large_is_oversized,
};
