//! The entries of a node's log, from its events.
//!
//! `Grouper` takes a file's events one by one and answers each: the entry that the event ends, or none where it ends
//! none, or its fault where it doesn't fit behind those before it. `cdc_model` says which events in a row make an
//! entry (`ReadsItems`), and what is wrong with one that doesn't fit (`misfit`); `HasGrouped` says what a grouper's
//! state stands for, over all events that it may have taken. Called by the reader of a node's log.
#![tactic(auto)]

mod error;
mod group;
mod grouper;
mod known;
mod laws;
mod misfit;
mod sign;
mod source;
mod step;
mod time;

pub use error::GroupError;
pub use grouper::Grouper;
pub use laws::whole_events_are_taken;
