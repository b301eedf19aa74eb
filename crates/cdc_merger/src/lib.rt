//! What nodes give, merged: the transactions of all nodes in the global order, as far as the bounds settle them.
//!
//! A `Merger` is given the branches of each node in order of key (`give`), and told bounds below which a node gives no more
//! (`bound`). `next` gives the transaction of the least key that the least of the bounds settles, with its branches by node.
//! The relation `Merges` in `specs/Merging.antt` says so over all that the nodes gave and told; the law on feeds of
//! `cdc_model` joins that to the settled order of all logs. A `Tournament` finds the least head of the nodes, and
//! counts its comparisons. Stages and the reader of all logs call it.
#![tactic(auto)]

mod bracket;
mod gather;
mod head;
mod merger;
mod node;
mod nodes;
mod tournament;

pub use merger::Merger;
pub use tournament::Tournament;
