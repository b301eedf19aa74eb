//! The sorter of a node: from the entries of its log to its settled branches, in order.
//!
//! It keeps what is open and what waits, and no entry. Its contract is over all entries that it may have taken:
//! `HoldsReading sorter reading history gave` says that it has taken a history, read from a point on, and has given
//! some branches. From there `take` leads to an entry more or to the entry's own fault, `bound` is the node's low-water
//! mark, and `pop` gives the settled branches one after another. `cut` tells the latest point from which the log may be
//! read again, for a key up to which everything was merged; `forget` drops what no later cut can want.
#![tactic(auto)]

mod cut;
mod held_map;
mod position;
mod sorter;
mod sweep;
mod trail;

pub use sorter::{SortError, Sorter, gave_is_a_front};
