//! How a session ended.

use cdc_dumper::OpenFault;

/// How a session ended.
#[derive(Clone, Copy, Debug, PartialEq, Eq)]
pub enum SessionEnd {
    /// The client asked for it.
    Quit,
    /// The client's bytes end between two requests, or a dump that isn't to wait for more is at its end.
    Closed,
    /// They end inside a request, or a request is too long.
    BadPacket,
    /// The link failed. Its count of faults says so too.
    LinkFault,
    /// The disk failed. Its count of faults says so too.
    DiskFault,
    /// The output is refused.
    Kept(OpenFault),
    /// What is published of a file isn't the magic and whole events to its end.
    Torn,
    /// There was no memory.
    Memory,
}
