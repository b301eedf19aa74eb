//! Tables of logs with what printing them gives.

use crate::call::{Seen, print_all};
use crate::expected::{line_of, printed};
use crate::nodes::nodes_of;
use std::alloc::Global;
use std::test::Fail;

/// A line of a table: `LOGS=STATUS=TOLD=PRINTS=LINE`.
#[derive(Clone, Copy)]
pub struct Row<'a> {
    /// The words of each node's log, with `|` between them, and `/` between two files of one node.
    pub logs: &'a str,
    pub status: u8,
    /// Of `print`, how many bytes are written. Of `run`, what each out's line says behind its number, none where no line is
    /// written.
    pub told: &'a str,
    /// The transactions that are printed, or those in each out's files, in words.
    pub prints: &'a str,
    /// The line without `cdc: ` and its end; none where it is empty.
    pub line: &'a str,
}

/// The parts of a line.
pub fn row_of(row: &str) -> Result<Row<'_>, Fail> {
    let (logs, rest) = row.split_once("=").ok_or("no status")?;
    let (status, rest) = rest.split_once("=").ok_or("no length or front")?;
    let (told, rest) = rest.split_once("=").ok_or("no prints")?;
    let (prints, line) = rest.split_once("=").ok_or("no line")?;
    Ok(Row {
        logs,
        status: status.parse::<u8>()?,
        told,
        prints,
        line,
    })
}

// Whether a line's print was answered and written.
fn is_seen(alloc: Global, seen: &Seen, row: &Row) -> Result<bool, Fail> {
    let length = row.told.parse::<usize>()?;
    let want = printed(alloc, row.prints)?;
    let line = line_of(alloc, row.line)?;
    Ok(want.len() == length && seen.is(row.status, want.bytes(), line.as_bytes()))
}

/// Whether the logs of a line give what it says.
pub fn is_right(alloc: Global, row: &str) -> Result<bool, Fail> {
    let row = row_of(row)?;
    let seen = print_all(alloc, &mut nodes_of(alloc, row.logs)?)?;
    is_seen(alloc, &seen, &row)
}
