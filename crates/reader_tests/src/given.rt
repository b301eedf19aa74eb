//! What a reader gives of a log, as a text.

ghost use Rattle.std.specs.Prelude.{◌≡◌, ◌≤◌, ◌<◌, ◌^◌, length, IfOk};

use cdc_base::{Blob, Key, Place};
use cdc_memory::MemSource;
use cdc_model::{Branch, NodeFault, SortFault};
use cdc_reader::{NodeEnd, Reader, Step};
use cdc_samples::Log;
use std::alloc::{AllocError, Global};
use std::test::Fail;

/// The most bytes of a piece.
const PIECE: usize = 65_536;

/// No reading of a test has as many steps.
const STEPS: usize = 100_000;

/// The bytes of a file of these words.
fn file_of(alloc: Global, words: &str) -> Result<Blob, Fail>
    ensures { IfOk result (λ file. length file ≤ 2 ^ 30) }
{
    let log = Log::of(alloc, words)?;
    Ok(log.freeze()?)
}

/// A source of two files of words.
fn two_files(alloc: Global, first: &str, second: &str, fails: &[u64]) -> Result<MemSource, Fail> {
    let one = file_of(alloc, first)?;
    let two = file_of(alloc, second)?;
    Ok(MemSource::new(alloc, &[one, two], fails)?)
}

/// A source of three files of words.
fn three_files(
    alloc: Global,
    first: &str,
    second: &str,
    third: &str,
    fails: &[u64],
) -> Result<MemSource, Fail> {
    let one = file_of(alloc, first)?;
    let two = file_of(alloc, second)?;
    let three = file_of(alloc, third)?;
    Ok(MemSource::new(alloc, &[one, two, three], fails)?)
}

/// A source of one to three files of words, with `|` between them, which fails at these calls.
pub fn source_of(alloc: Global, words: &str, fails: &[u64]) -> Result<MemSource, Fail> {
    let Some((first, rest)) = words.split_once("|") else {
        let one = file_of(alloc, words)?;
        return Ok(MemSource::new(alloc, &[one], fails)?);
    };
    match rest.split_once("|") {
        Some((second, third)) => three_files(alloc, first, second, third, fails),
        None => two_files(alloc, first, rest, fails),
    }
}

/// A branch as its timestamp, the last byte of its id or its node and entry, and the entry that committed it.
fn branch_text(alloc: Global, branch: &Branch) -> Result<String, AllocError> {
    let (entry, rows) = (branch.entry, branch.rows.len());
    match branch.key {
        Key::Shared { timestamp, gtrid } => {
            let last = gtrid.bytes().last().copied().unwrap_or(0);
            format!(in alloc; "{timestamp}:{last}#{entry}/{rows} ")
        }
        Key::Plain {
            timestamp,
            node,
            entry: _,
        } => format!(in alloc; "{timestamp}:{node}:{entry}/{rows} "),
    }
}

/// Why an entry isn't sound.
fn sort_text(alloc: Global, fault: &SortFault) -> Result<String, AllocError> {
    match fault {
        SortFault::DoublePrepare(_) => format!(in alloc; "DoublePrepare"),
        SortFault::UnknownBranch(_) => format!(in alloc; "UnknownBranch"),
        SortFault::Undercut { timestamp, floor } => format!(in alloc;
            "Undercut {timestamp} {floor}"
        ),
    }
}

/// What ends the reading of a log.
fn fault_text(alloc: Global, fault: &NodeFault) -> Result<String, AllocError> {
    match fault {
        NodeFault::File(fault) => format!(in alloc; "{fault:?}"),
        NodeFault::Group(fault) => format!(in alloc; "{fault:?}"),
        NodeFault::Sort(fault) => sort_text(alloc, fault),
    }
}

/// How a reading ended.
fn end_text(alloc: Global, end: NodeEnd) -> Result<String, AllocError> {
    match end {
        NodeEnd::Open => format!(in alloc; "open"),
        NodeEnd::Whole => format!(in alloc; "whole"),
        NodeEnd::Read => format!(in alloc; "read"),
        NodeEnd::Memory => format!(in alloc; "memory"),
        NodeEnd::Fault {
            place: Place { file, at },
            fault,
        } => {
            let fault = fault_text(alloc, &fault)?;
            format!(in alloc; "{file}:{at} {fault}")
        }
    }
}

/// Appends what was given: a branch, or `=` and a bound.
fn tell(alloc: Global, text: &mut String, step: &Step) -> Result<(), AllocError> {
    let told = match step {
        Step::Branch(branch) => branch_text(alloc, branch)?,
        Step::Bound(bound) => format!(in alloc; "={bound} ")?,
        Step::Read(_) | Step::End => String::new(alloc),
    };
    text.push_str(&told)?;
    Ok(())
}

/// The text, with how the reading ended behind `.`.
fn ended(alloc: Global, text: String, end: NodeEnd) -> Result<String, AllocError> {
    let mut text = text;
    let end = end_text(alloc, end)?;
    text.push_str(".")?;
    text.push_str(&end)?;
    Ok(text)
}

/// The next step, by a piece of at most so many bytes, in the place that there is for one.
fn next_step(
    reader: &mut Reader,
    source: &mut MemSource,
    piece: &mut [u8],
    length: usize,
) -> Result<Step, Fail> {
    let most = length.min(piece.len());
    if most == 0 {
        return Err("no place for a piece")?;
    }
    Ok(reader.next(source, &mut piece[..most]))
}

/// All that a reader gives, read first in a piece of `first` bytes and then in pieces of `later` ones: branches, `=` and each
/// bound, and behind `.` how it ended. How much is read at once isn't told.
pub fn given(
    alloc: Global,
    reader: &mut Reader,
    source: &mut MemSource,
    first: usize,
    later: usize,
) -> Result<String, Fail> {
    let mut piece = vec![in alloc; 0_u8; PIECE]?;
    let mut text = String::new(alloc);
    let mut length = first;
    for _ in 0..STEPS {
        let step = next_step(reader, source, &mut piece, length)?;
        match step {
            Step::End => return Ok(ended(alloc, text, reader.end())?),
            Step::Read(_) => length = later,
            Step::Branch(_) | Step::Bound(_) => {}
        }
        tell(alloc, &mut text, &step)?;
    }
    Err("no end")?
}
