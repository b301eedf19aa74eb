//! What groupers answer to the events of a log, as a text.

ghost use Rattle.std.specs.Prelude.{◌≡◌, ◌≤◌};
ghost use Rattle.cdc_model.specs.Row.{IsRow};

use cdc_base::{Buffer, Place};
use cdc_cutter::{Cut, Cutter};
use cdc_event::{Event, write_body};
use cdc_group::{GroupError, Grouper, whole_events_are_taken};
use cdc_model::{Entry, EntryKind, RowList};
use std::alloc::{AllocError, Global};
use std::test::Fail;

/// No log of a test reaches as far.
const FAR: u64 = 1 << 40;

/// Two groupers: one takes the events as they are, one as they are seen in place.
#[derive(Debug, Drop)]
pub struct Pair {
    owned: Grouper,
    seen: Grouper,
}

/// Rows as their types and lengths.
fn rows_text(alloc: Global, rows: &RowList) -> Result<String, AllocError> {
    let mut text = String::new(alloc);
    let mut left = rows.rows();
    for _ in 0..1_000 {
        let Some(row) = left.next() else {
            return Ok(text);
        };
        let (kind, length) = (row.kind(), row.bytes().len());
        text.push_str(&format!(in alloc; " {kind}:{length}")?)?;
    }
    Ok(text)
}

/// What an entry says.
fn kind_text(alloc: Global, kind: &EntryKind) -> Result<String, AllocError> {
    match kind {
        EntryKind::Prepare { xid: _, rows } => {
            let rows = rows_text(alloc, rows)?;
            format!(in alloc; "Prepare{rows}")
        }
        EntryKind::OnePhase {
            xid: _,
            rows,
            timestamp,
            seconds,
        } => {
            let rows = rows_text(alloc, rows)?;
            format!(in alloc; "OnePhase {timestamp} {seconds}{rows}")
        }
        EntryKind::Commit {
            xid: _,
            timestamp,
            seconds,
        } => format!(in alloc; "Commit {timestamp} {seconds}"),
        EntryKind::Rollback { xid: _ } => format!(in alloc; "Rollback"),
        EntryKind::Plain { rows, seconds } => {
            let rows = rows_text(alloc, rows)?;
            format!(in alloc; "Plain {seconds}{rows}")
        }
        EntryKind::Beat { timestamp } => format!(in alloc; "Beat {timestamp}"),
    }
}

/// An answer: an entry with its place, its end and the setting there; or none; or a fault.
fn answer_text(
    alloc: Global,
    answer: &Result<Option<Entry>, GroupError>,
) -> Result<String, AllocError> {
    match answer {
        Ok(None) => format!(in alloc; "-"),
        Ok(Some(entry)) => {
            let kind = kind_text(alloc, &entry.kind)?;
            let Place { file, at } = entry.at;
            let (end, checksum) = (entry.end.at, entry.checksum);
            format!(in alloc; "{kind} {file}:{at}-{end} {checksum}")
        }
        Err(GroupError::Fault(fault)) => format!(in alloc; "{fault:?}"),
        Err(GroupError::Memory) => format!(in alloc; "memory"),
    }
}

impl Pair {
    /// At the start of a file.
    pub fn new(alloc: Global) -> Pair {
        Pair {
            owned: Grouper::new(alloc),
            seen: Grouper::new(alloc),
        }
    }

    /// At a file's end.
    pub fn file_end(&mut self) {
        self.owned.file_end();
        self.seen.file_end();
    }

    // Both take an event.
    fn take(
        &mut self,
        alloc: Global,
        at: Place,
        end: Place,
        checksum: u8,
        event: &Event,
    ) -> Result<String, Fail>
        requires { IsRow (event.now.header.kind, event.now.body) }
    {
        if at.file != end.file || checksum > 1 {
            return Err("an event over two files, or an unknown setting")?;
        }
        let mut own = Buffer::new(alloc);
        write_body(&event.body, &mut own)?;
        let seen = self
            .seen
            .take_view(at, end, checksum, &event.view(), own.bytes());
        let seen = answer_text(alloc, &seen)?;
        let owned = self.owned.take(at, end, checksum, event);
        let owned = answer_text(alloc, &owned)?;
        if seen != owned {
            return Err("another answer in place")?;
        }
        Ok(owned)
    }
}

/// The answer to the next event; none where there is none.
fn take_next(alloc: Global, cutter: &mut Cutter, pair: &mut Pair) -> Result<Option<String>, Fail> {
    whole_events_are_taken();
    match cutter.next()? {
        Cut::Event {
            at,
            end,
            event,
            checksum,
        } => {
            let told = pair.take(alloc, at, end, checksum, &event)?;
            Ok(Some(told))
        }
        Cut::Need => Ok(None),
        Cut::Fault { .. } => Err("the bytes are faulty")?,
    }
}

/// Feeds a file.
fn feed(cutter: &mut Cutter, file: &[u8]) -> Result<(), Fail> {
    if cutter.fed_to().at >= FAR || file.len() as u64 >= FAR {
        return Err("a log of this length is no test")?;
    }
    cutter.feed(file)?;
    Ok(())
}

/// The answers to the events of a file, and the last of them.
pub fn answers(
    alloc: Global,
    cutter: &mut Cutter,
    pair: &mut Pair,
    file: &[u8],
) -> Result<(String, String), Fail> {
    feed(cutter, file)?;
    let mut all = String::new(alloc);
    let mut last = String::new(alloc);
    for _ in 0..1_000 {
        match take_next(alloc, cutter, pair)? {
            Some(told) => {
                all.push_str(&told)?;
                all.push_str(", ")?;
                last = told;
            }
            None => return Ok((all, last)),
        }
    }
    Err("no end of events")?
}
