//! Names of tables: the rules under which tables are published with other names.
//!
//! `Names` keeps at most one rule a table, and finds it by a binary search. `renamed` of `cdc_event` says
//! what a rule does to a table map. Called by the printer of `cdc_writer`; filled by the reader of a plan.
#![tactic(auto)]

mod names;
mod table;

pub use names::{Names, NamesError};
pub use table::{rename, renamed_view, renamed_view_length};
