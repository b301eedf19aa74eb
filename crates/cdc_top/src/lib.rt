//! The top call: what the program `cdc` answers to its words, over sources, disks and sinks that are handed in.
//!
//! `top` reads its words by `cdc_config`, and does what they ask: `print` by `cdc_print`, `run` by `cdc_pass` over the nodes
//! and the outs of a configuration, `list` by `cdc_list` over its outs. What the call met with, in `Findings`, decides its
//! answer by one order for all commands (`answer_of` in `specs/Order.antt`). Its clauses are the
//! service's promise; `cdc_prog` calls it over real files.
#![tactic(auto)]

mod answer;
mod config;
mod fault_line;
mod findings;
mod fitting;
mod kept_lines;
mod line;
mod list_call;
mod report;
mod run_call;
mod texts;
mod top_call;

pub use answer::Answer;
pub use fitting::fits_to_run;
pub use report::answer_without_memory;
pub use top_call::top;
