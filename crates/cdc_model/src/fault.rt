//! What is wrong with a node's log.

use cdc_base::Xid;
use cdc_event::FileFault;

/// Why an event doesn't fit behind those before it.
#[derive(Clone, Copy, Debug, PartialEq, Eq)]
pub enum GroupFault {
    /// A commit, or a one-phase prepare, without a commit timestamp before it.
    NoTimestamp,
    /// A commit timestamp of no good value, or where none may stand; or one that nothing takes.
    BadTimestamp,
    /// A statement that changes data and leaves no row events.
    Statement,
    /// The events of one XA group name different branches.
    XidDiffers,
    /// Rows outside a group.
    RowsOutside,
    /// An event that begins, goes on or ends what isn't there.
    OutOfPlace,
    /// A statement of the whole database that isn't one, or beside other rows.
    BadDdl,
}

/// Why an entry isn't sound.
#[derive(Clone, Copy, Debug, PartialEq, Eq)]
pub enum SortFault {
    /// A prepare of a branch that is open already.
    DoublePrepare(Xid),
    /// A commit or rollback of a branch that isn't open.
    UnknownBranch(Xid),
    /// A commit timestamp that isn't above its branch's floor.
    Undercut { timestamp: u64, floor: u64 },
}

/// What ends the reading of a node's log.
#[derive(Clone, Copy, Debug, PartialEq, Eq)]
pub enum NodeFault {
    /// The bytes of a file are faulty.
    File(FileFault),
    /// An event doesn't fit behind those before it.
    Group(GroupFault),
    /// An entry isn't sound.
    Sort(SortFault),
}
