//! A node's log as read.

use crate::entry::EntryList;
use crate::start::StartingPoint;

/// A node's log as read: where the reading begins, and the entries from there on, the oldest first.
#[derive(Debug, Drop)]
pub struct NodeLog {
    pub start: StartingPoint,
    pub entries: EntryList,
}
