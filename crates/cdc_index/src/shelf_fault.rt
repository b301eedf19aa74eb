//! Why nothing can be said of a published file.

/// Why nothing can be said of a published file.
#[derive(Clone, Copy, Debug, PartialEq, Eq)]
pub enum ShelfFault {
    /// The disk failed. Its count of faults says so too.
    DiskFault,
    /// What is published of the file isn't whole events to its end.
    Torn,
}
