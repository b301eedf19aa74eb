//! Makers of what tests and the bench put in, in the notation of docs/FORMATS.md.
//!
//! `Log` makes the bytes of a log, by calls as `head`, `prepare` and `commit` or by words as `H P(g1) C(g1,10)`;
//! `events`, `rows`, `entries`, `transactions`, `rules` and `layouts` make values of the types that calls take. Each
//! maker says what its caller has to know of what it made: how long it is, and what the next call asks for. What is
//! expected of an input is no maker's business: it comes from tables and from counting by hand. No crate of the
//! product stands on this one.
#![tactic(auto)]

pub mod blobs;
pub mod entries;
pub mod events;
pub mod layouts;
mod log;
mod not_made;
pub mod rows;
pub mod rules;
pub mod transactions;
mod words;

pub use log::{LOG_MAX, Log};
pub use not_made::NotMade;
