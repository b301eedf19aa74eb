//! What the command line and the configuration say: the command as a function of the words, and the plan as a
//! function of the configuration's tables.
//!
//! `command_of` reads the words behind the program's name; `plan_of` reads a text in TOML, and names the first key
//! that it refuses. Nothing here opens a file. Called by `cdc_prog` and by the top calls of `cdc_top`.
#![tactic(auto)]

mod command;
mod filing;
mod judging;
mod keys;
mod misfit;
mod number;
mod options;
mod parts;
mod plan;
mod shape;
mod texts;
mod tree;
mod verb;
mod words;

pub use command::{Command, ConfigKey, Refusal};
pub use judging::plan_of;
pub use plan::{Paths, Plan, SplitPlan, TextLists};
pub use texts::paths;
pub use words::command_of;
