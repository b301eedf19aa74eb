//! The entries of a node's log: what its groups of events say.

use crate::rows::RowList;
use cdc_base::{Items, Place, Xid};
use std::marker::Model;

/// What an entry says. Timestamps are commit timestamps below 2^63; seconds are those of the event that
/// ends the entry.
#[derive(Debug, Drop)]
pub enum EntryKind {
    /// An XA branch is prepared.
    Prepare {
        xid: Xid,
        rows: RowList,
    },
    /// An XA branch is prepared and committed at once.
    OnePhase {
        xid: Xid,
        rows: RowList,
        timestamp: u64,
        seconds: u32,
    },
    /// A prepared branch is committed.
    Commit {
        xid: Xid,
        timestamp: u64,
        seconds: u32,
    },
    /// A prepared branch is rolled back.
    Rollback {
        xid: Xid,
    },
    /// A local transaction of the node.
    Plain {
        rows: RowList,
        seconds: u32,
    },
    /// A heartbeat: no later commit has this timestamp or a lesser one.
    Beat {
        timestamp: u64,
    },
}

/// An entry of a node's log. `at` is the start of its last event, `end` the place behind it, and `checksum`
/// the log's checksum setting there (0 or 1).
#[derive(Debug, Drop)]
pub struct Entry {
    pub kind: EntryKind,
    pub at: Place,
    pub end: Place,
    pub checksum: u8,
}

/// A list of entries.
pub type EntryList = Items<Entry>;

impl Model for Entry {
    ghost use Rattle.cdc_model.specs.Records.{LogEntry};

    ghost Value = { LogEntry };

    ghost use Rattle.cdc_model.specs.Kept.{entry_seen, IsKeptEntry};

    ghost view = { entry_seen };

    ghost invariant = { IsKeptEntry };
}
