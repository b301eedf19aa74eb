//! Why no request was read.

use cdc_outside::Failed;

/// Why no request was read.
#[derive(Clone, Copy, Debug, PartialEq, Eq)]
pub enum PacketEnd {
    /// The bytes end before the packet.
    Closed,
    /// They end inside it.
    Torn,
    /// Its length is above that of a request. Nothing behind its head was read.
    TooLong,
    /// The link failed.
    LinkFault,
    /// There was no memory for the payload.
    Memory,
}

/// The link failed in this call. Its count of faults says so too.
#[derive(Clone, Copy, Debug, PartialEq, Eq)]
pub struct LinkFault;

impl From<Failed> for LinkFault {
    fn from(_failed: Failed) -> LinkFault {
        LinkFault
    }
}
