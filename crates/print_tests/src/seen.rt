//! Prints, and what they gave.

use cdc_base::{Buffer, Memory, Place};
use cdc_memory::{MemSink, MemSource};
use cdc_model::NodeFault;
use cdc_print::{PrintEnd, print_logs};
use cdc_samples::{Log, NotMade};
use std::alloc::Global;
use std::test::Fail;

/// The most bytes of a file and of what is written.
pub const ROOM: usize = 2_000_000;

/// How a print ended, and its sink.
#[derive(Drop)]
pub struct Seen {
    pub end: PrintEnd,
    pub out: MemSink,
}

impl Seen {
    /// Whether it ended so, and wrote so many bytes.
    pub fn is(&self, end: PrintEnd, bytes: usize) -> bool {
        self.end == end && self.out.written().len() == bytes
    }

    /// The fault that is named: its node, its place and what it is.
    pub fn fault(&self) -> Option<(u32, Place, NodeFault)> {
        match &self.end {
            PrintEnd::Fault { node, place, fault } => Some((*node, *place, *fault)),
            _ => None,
        }
    }
}

/// A source of one file, whose listed calls fail.
pub fn source_of(alloc: Global, file: &[u8], fails: &[u64]) -> Result<MemSource, Memory> {
    if file.len() > ROOM {
        return Err(Memory);
    }
    let mut bytes = Buffer::new(alloc);
    bytes.push(file)?;
    MemSource::new(alloc, &[bytes.freeze()?], fails)
}

/// A source of the log of these words, whose listed calls fail.
pub fn source_in(alloc: Global, words: &str, fails: &[u64]) -> Result<MemSource, NotMade> {
    let log = Log::of(alloc, words)?;
    Ok(source_of(alloc, log.bytes(), fails)?)
}

/// Prints all sources to a sink with so much room, whose listed calls fail.
pub fn print_to(
    alloc: Global,
    nodes: &mut Vec<MemSource>,
    room: usize,
    fails: &[u64],
) -> Result<Seen, Memory> {
    if nodes.is_empty() || nodes.len() > 256 {
        return Err(Memory);
    }
    let mut out = MemSink::new(alloc, room, fails)?;
    let end = print_logs(alloc, nodes, &mut out);
    Ok(Seen { end, out })
}

/// Prints the logs of these words, a log a node.
pub fn print_words(alloc: Global, logs: &[&str]) -> Result<Seen, Fail> {
    let mut nodes = Vec::new(alloc);
    for words in logs {
        nodes.push(source_in(alloc, words, &[])?)?;
    }
    Ok(print_to(alloc, &mut nodes, ROOM, &[])?)
}
