//! What the tests read, and the calls that they make of any source.

ghost use Rattle.std.specs.Prelude.{◌≡◌, length, IfOk};
ghost use Rattle.cdc_memory.specs.Source.{held_files};

use cdc_base::{Blob, Buffer, Memory};
use cdc_memory::{MemSource, PureSource};
use cdc_outside::{Failed, ReadWholeError, Source, read_whole};
use std::alloc::Global;

/// The most bytes of a file of these tests.
const LONGEST: usize = 4_000_000;

/// So many bytes: 0, 1, .. 250, and again from 0.
pub fn pattern(alloc: Global, bytes: u32) -> Result<Blob, Memory> {
    let mut text = Buffer::new(alloc);
    for place in 0..bytes {
        text.push(&[(place % 251) as u8])?;
    }
    Ok(text.freeze()?)
}

/// A source of one file of so many bytes, whose listed calls fail.
pub fn one_file(alloc: Global, bytes: u32, fails: &[u64]) -> Result<MemSource, Memory>
    ensures { IfOk result (λ source. length (held_files source) ≡ 1) }
{
    let file = pattern(alloc, bytes)?;
    if file.len() > LONGEST {
        return Err(Memory);
    }
    MemSource::new(alloc, &[file], fails)
}

/// A source of two files that never fails.
pub fn two_files(alloc: Global, first: u32, second: u32) -> Result<PureSource, Memory> {
    let first = pattern(alloc, first)?;
    let second = pattern(alloc, second)?;
    if first.len() > LONGEST || second.len() > LONGEST {
        return Err(Memory);
    }
    PureSource::new(alloc, &[first, second])
}

/// Reads from a file that the source has.
pub fn ask<S: Source>(
    source: &mut S,
    file: u32,
    at: u64,
    into: &mut [u8],
) -> Result<usize, Failed> {
    let files = source.files()?;
    if file == 0 || files < file {
        return Err(Failed);
    }
    source.read_at(file, at, into)
}

/// Reads a file that the source has whole.
pub fn read_file<S: Source>(
    alloc: Global,
    source: &mut S,
    file: u32,
) -> Result<Blob, ReadWholeError> {
    let files = source.files()?;
    if file == 0 || files < file {
        return Err(ReadWholeError::Failed);
    }
    read_whole(alloc, source, file)
}
