//! What goes through the lanes of a pass.
//!
//! A node's lane has its settled branches and its low-water marks, an out's lane has units. On both a window is closed by
//! an End. Stages send and take them; the driver knows only which item is an End. Definitions: `Item`.
#![tactic(auto)]

mod dump_item;
mod node_item;

pub use dump_item::DumpItem;
pub use node_item::NodeItem;
