//! The sources of nodes.

ghost use Rattle.std.specs.Prelude.{◌≡◌, [], ◌∷◌, length, IfOk};
ghost use Rattle.cdc_memory.specs.Source.{held_files};

use cdc_base::Memory;
use cdc_memory::MemSource;
use cdc_samples::blobs::blob_of;
use cdc_samples::{Log, NotMade};
use std::alloc::Global;
use std::test::Fail;

/// The most bytes of a file and of what is written.
pub const ROOM: usize = 4_000_000;

/// A source of one file, whose listed calls fail.
pub fn source_of(alloc: Global, file: &[u8], fails: &[u64]) -> Result<MemSource, Memory>
    ensures one { IfOk result (λ source. length (held_files source) ≡ 1) }
    ensures files { IfOk result (λ source. held_files source ≡ file.now ∷ []) }
{
    if file.len() > ROOM {
        return Err(Memory);
    }
    MemSource::new(alloc, &[blob_of(alloc, file)?], fails)
}

/// One node of this source.
pub fn node_of(alloc: Global, source: MemSource) -> Result<Vec<MemSource>, Memory> {
    let mut nodes = Vec::new(alloc);
    nodes.push(source)?;
    Ok(nodes)
}

/// One node of one file, whose listed calls fail.
pub fn node_failing(alloc: Global, file: &[u8], fails: &[u64]) -> Result<Vec<MemSource>, Memory> {
    node_of(alloc, source_of(alloc, file, fails)?)
}

/// One node of no file.
pub fn node_of_no_file(alloc: Global) -> Result<Vec<MemSource>, Memory> {
    node_of(alloc, MemSource::new(alloc, &[], &[])?)
}

// A source of the log of these words.
fn source_in(alloc: Global, words: &str) -> Result<MemSource, NotMade> {
    let log = Log::of(alloc, words)?;
    Ok(source_of(alloc, log.bytes(), &[])?)
}

// A source of two files in words.
fn source_of_two(alloc: Global, first: &str, second: &str) -> Result<MemSource, NotMade> {
    let first = Log::of(alloc, first)?.freeze()?;
    let second = Log::of(alloc, second)?.freeze()?;
    Ok(MemSource::new(alloc, &[first, second], &[])?)
}

// A source of the log of these words, or of two files, with `/` between them.
fn source_between(alloc: Global, words: &str) -> Result<MemSource, NotMade> {
    match words.split_once("/") {
        Some((first, second)) => source_of_two(alloc, first, second),
        None => source_in(alloc, words),
    }
}

/// Sources of the logs of these words, one a node, with `|` between them, and `/` between two files of one node.
pub fn nodes_of(alloc: Global, logs: &str) -> Result<Vec<MemSource>, Fail> {
    let mut nodes = Vec::new(alloc);
    for words in logs.split("|") {
        nodes.push(source_between(alloc, words)?)?;
    }
    Ok(nodes)
}
