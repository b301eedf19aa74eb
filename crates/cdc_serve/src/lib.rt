//! The top call of a server: what `cdc serve` answers to its words, over devices that are handed in.
//!
//! `top_serve` reads its words and its configuration by `cdc_config`, and serves its doors by `cdc_server`. Its clauses
//! are the server's promise; `cdc_prog` calls it over real files and sockets. Definitions: `Answers`, `Call`.
#![tactic(auto)]

mod answer;
mod lines;
mod serving;

pub use answer::ServeAnswer;
pub use lines::LINE_MAX;
pub use serving::top_serve;
