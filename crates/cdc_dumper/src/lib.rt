//! The dumper: an output's files as they grow, and the Front that says how much of them is published.
//!
//! `Dumper::open` makes durable what is there, finds the Front and cuts off what stands behind it. `append` writes a
//! unit's bytes behind what is published, `commit` makes all that was appended durable and stores one Front for it, and
//! `publish` is both. A crash at any moment leaves what was published before, or all that was appended. `look` only
//! reads. No call takes memory. Called by the dump stage and by sessions. Definitions: `Opening`, `State`, `Moves`.
#![tactic(auto)]

mod dumper;
mod fault;
mod finding;
mod reading;
mod record;
mod steps;

pub use dumper::Dumper;
pub use fault::OpenFault;
pub use finding::look;
