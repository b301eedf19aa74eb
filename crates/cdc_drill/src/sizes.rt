//! How large the disks of a drill are.

use cdc_gen::LogList;

/// From how many bytes on a file is closed, and how many bytes of a log are read between two checkpoints.
pub(crate) const MEBIBYTE: u64 = 1_048_576;

/// How many bytes one file has room for: it is closed at the first end of a transaction from 1,048,576 bytes on, and one of a
/// drill has fewer than 4,096.
const ROOM: usize = 1_052_672;

/// How many changes 1,048,576 bytes of logs bring to a disk at most, beside the transactions' own: a window, a file of the output
/// and 4,096 transactions end at most once in them, and each end stores a record by four changes.
const CHANGES: usize = 16;

/// The changes that each disk has room for, beside all others.
const SPARE: usize = 64;

/// How large the disks of an attempt are.
#[derive(Clone, Copy, Debug, PartialEq, Eq)]
pub(crate) struct Sizes {
    /// Log files of the output.
    pub files: u64,
    /// Bytes that a file has room for.
    pub room: usize,
    /// Changes that the output has room to record.
    pub changes: usize,
    /// Changes that the task has room to record.
    pub stores: usize,
}

/// How many bytes logs have together, told up to 2^64 - 1.
fn total(logs: &LogList) -> u64 {
    let mut bytes = 0u64;
    for log in logs.as_slice() {
        bytes = bytes.saturating_add(log.len() as u64);
    }
    bytes
}

impl Sizes {
    /// What a drill wants of so many transactions on one or two nodes each, whose logs these are.
    ///
    /// An output has fewer bytes than the logs together, so their length says how many files and windows there can be. Each
    /// transaction is one change, and so is the local one behind each hundred.
    pub fn first(logs: &LogList, count: u32) -> Sizes {
        let files = total(logs) / MEBIBYTE + 2;
        let stores = (files as usize)
            .saturating_mul(CHANGES)
            .saturating_add(SPARE);
        let transactions = count as usize + count as usize / 100;
        Sizes {
            files,
            room: ROOM,
            changes: transactions.saturating_add(stores),
            stores,
        }
    }

    /// Twice as large.
    pub fn doubled(&self) -> Sizes {
        Sizes {
            files: self.files.saturating_mul(2),
            room: self.room.saturating_mul(2),
            changes: self.changes.saturating_mul(2),
            stores: self.stores.saturating_mul(2),
        }
    }
}
