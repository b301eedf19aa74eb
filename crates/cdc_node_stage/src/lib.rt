//! The stage of a node: it reads the node's log, and sends the settled branches and low-water marks onto its lane.
//!
//! `NodeStage::turn` sends at most one item. It asks its reader for what comes next of the bytes at hand, and reads further
//! bytes only where all that is settled was sent: at most 65,536, and in a window no more than its room. Where the room is
//! used up, or the reading is over, it sends the window's End, behind all that is settled. An item that the lane has no room
//! for waits for the next turn. A turn takes no memory but the reader's. `NodeJob` is a stage with its source, as the driver
//! turns it. What was sent, whatever the windows, is one feed of the log's entries, and nothing below the point from which the
//! log is read is asked for. `cut` answers the latest point from which the log may be read again. Called by a pass.
//! Definitions: `Feeding`, `Sending`, `Turning`, `Job`.
#![tactic(auto)]

mod job;
mod reading;
mod stage;

pub use job::NodeJob;
pub use stage::NodeStage;
