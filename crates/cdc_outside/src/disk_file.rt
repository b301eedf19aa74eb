//! The files of a disk.

/// One of the two slots of a record, or a numbered log file.
#[derive(Clone, Copy, Debug, PartialEq, Eq)]
pub enum DiskFile {
    SlotA,
    SlotB,
    Log(u64),
}
