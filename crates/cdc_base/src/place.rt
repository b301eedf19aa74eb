//! A place in a node's log.

/// The byte `at` (counted from 0) of the log file `file` (counted from 1), ordered by file, then byte.
#[derive(Clone, Copy, Debug, PartialEq, Eq, PartialOrd, Ord)]
pub struct Place {
    pub file: u32,
    pub at: u64,
}
