//! Passes over the lines of a table: what a pass over a line's logs answers, writes and publishes.

use crate::call::Seen;
use crate::expected::{Files, line_of, two_files};
use crate::nodes::nodes_of;
use crate::passing::{Settings, call_by, run};
use crate::service::{Service, has_file};
use crate::table::{Row, row_of};
use crate::untold_disk::UntoldDisk;
use cdc_base::Place;
use cdc_memory::MemSource;
use cdc_outside::DiskFile;
use std::alloc::Global;
use std::test::Fail;

/// Whether a pass gave what its line says, and the least byte of file 1 that its first node was asked for, `u64::MAX` where it
/// was asked for none.
#[derive(Clone, Copy)]
pub struct Passed {
    pub right: bool,
    lowest: u64,
}

impl Passed {
    /// Whether the pass gave what its line says, and read its first node from this byte of file 1 on.
    pub fn is_from(&self, at: u64) -> bool {
        self.right && self.lowest == at
    }
}

// The lines of so many outs of one front.
fn lines_of(alloc: Global, outs: usize, front: &str) -> Result<String, Fail> {
    let mut lines = String::new(alloc);
    if front.is_empty() {
        return Ok(lines);
    }
    for out in 0..outs {
        let number = out.saturating_add(1);
        let line = format!(in alloc; "out {number} {front}\n")?;
        lines.push_str(line.as_str())?;
    }
    Ok(lines)
}

/// Whether an out has both files.
pub fn has_both(out: &mut UntoldDisk, wanted: &Files) -> bool {
    has_file(out, DiskFile::Log(1), wanted.first.bytes())
        && has_file(out, DiskFile::Log(2), wanted.second.bytes())
}

// Whether each out has both files, and no third.
fn have_files(outs: &mut Vec<UntoldDisk>, wanted: &Files) -> bool {
    for out in outs {
        if !has_both(out, wanted) || !has_file(out, DiskFile::Log(3), b"") {
            return false;
        }
    }
    true
}

// Whether a pass was answered and written as a line says, of so many outs.
fn is_written(alloc: Global, outs: usize, row: &Row, seen: &Seen) -> Result<bool, Fail> {
    let lines = lines_of(alloc, outs, row.told)?;
    let line = line_of(alloc, row.line)?;
    Ok(seen.is(row.status, lines.as_bytes(), line.as_bytes()))
}

// Whether a pass over this service was seen as a line says.
fn is_seen(alloc: Global, service: &mut Service, row: &Row, seen: &Seen) -> Result<bool, Fail> {
    let written = is_written(alloc, service.outs.len(), row, seen)?;
    let files = two_files(alloc, row.prints)?;
    Ok(written && have_files(&mut service.outs, &files))
}

/// Whether a pass over these nodes gives what a line says.
pub fn gives(
    alloc: Global,
    settings: &Settings,
    service: &mut Service,
    nodes: &mut Vec<MemSource>,
    row: &str,
) -> Result<bool, Fail> {
    let row = row_of(row)?;
    let seen = run(alloc, settings, service, nodes)?;
    is_seen(alloc, service, &row, &seen)
}

// The least byte of file 1 that the first node was asked for.
fn lowest_of(nodes: &Vec<MemSource>) -> u64 {
    let Some(node) = nodes.get(0) else {
        return u64::MAX;
    };
    match node.lowest() {
        Some(Place { file: 1, at }) => at,
        _ => u64::MAX,
    }
}

/// What a pass over the logs of a line came to.
pub fn passes(
    alloc: Global,
    settings: &Settings,
    service: &mut Service,
    row: &str,
) -> Result<Passed, Fail> {
    let mut nodes = nodes_of(alloc, row_of(row)?.logs)?;
    let right = gives(alloc, settings, service, &mut nodes, row)?;
    Ok(Passed {
        right,
        lowest: lowest_of(&nodes),
    })
}

/// Whether a pass over the logs of a line gives what it says, its turns in this order.
pub fn passes_in_order(
    alloc: Global,
    settings: &Settings,
    service: &mut Service,
    row: &str,
    order: u64,
) -> Result<bool, Fail> {
    let row = row_of(row)?;
    let mut nodes = nodes_of(alloc, row.logs)?;
    let words = format!(in alloc; "run c --order {order}")?;
    let seen = call_by(alloc, words.as_str(), settings, service, &mut nodes)?;
    is_seen(alloc, service, &row, &seen)
}
