//! Why a dump was broken off.

/// Why a dump was broken off.
#[derive(Clone, Copy, Debug, PartialEq, Eq)]
pub enum DumpStop {
    /// The link failed. Its count of faults says so too.
    LinkFault,
    /// The disk failed. Its count of faults says so too.
    DiskFault,
    /// What is published of a file isn't the magic and whole events to its end.
    Torn,
    /// There was no memory.
    Memory,
}
