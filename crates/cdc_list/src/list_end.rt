//! How a listing ends.

use cdc_dumper::OpenFault;

/// How a listing ended. Outs are counted from 1.
#[derive(Clone, Copy, Debug, PartialEq, Eq)]
pub enum ListEnd {
    /// All lines were written.
    Done,
    /// This out can't be opened; that its disk failed is one of the causes.
    Unopened { out: u32, fault: OpenFault },
    /// The disk of this out failed when all were opened.
    Disk { out: u32 },
    /// There was no memory.
    Memory,
    /// The sink failed.
    Sink,
}
