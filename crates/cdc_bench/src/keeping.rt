//! Row events cut in place from pieces, and kept in runs.

use crate::cutting::{FAR, PIECE};
use crate::tally::Tally;
use cdc_base::{Blob, Memory, Place};
use cdc_cutter::{Cutter, Peek};
use cdc_event::{BodyView, HEADER_LENGTH, LENGTH_MAX, kind};
use cdc_model::{RowList, RowRun};
use std::alloc::Global;

/// How many rows a run has when it is given away.
const RUN_ROWS: usize = 10;

/// The most bytes of a row's body.
const BODY_MAX: usize = LENGTH_MAX as usize - HEADER_LENGTH;

/// What a log's rows are kept in: a run that grows, and what was made of the full ones, where that is held.
#[derive(Drop)]
struct Keeper {
    alloc: Global,
    run: RowRun,
    holds: bool,
    held: Vec<RowList>,
}

/// What was met where an event may begin.
#[derive(Clone, Copy, Debug)]
enum Met {
    /// A row event of so many bytes, which is kept.
    Row(u64),
    /// No further whole event.
    End,
    /// Something else.
    Other,
}

// Keeps a row event's body; false where it is none, or too long.
#[tactic(auto, using(crate::proofs::Spelled::rows_spelled))]
fn push_row(run: &mut RowRun, kind: u8, bytes: &[u8]) -> Result<bool, Memory> {
    if !kind::is_rows(kind) || bytes.len() > BODY_MAX {
        return Ok(false);
    }
    run.push_bytes(kind, bytes)?;
    Ok(true)
}

// Gives a full run away.
fn give_full(keeper: &mut Keeper) -> Result<(), Memory> {
    if keeper.run.len() < RUN_ROWS {
        return Ok(());
    }
    let list = keeper.run.finish(keeper.alloc)?;
    if keeper.holds {
        keeper.held.push(list)?;
    }
    Ok(())
}

// Keeps the next event, and passes it.
fn keep_next(cutter: &mut Cutter, keeper: &mut Keeper) -> Result<Met, Memory> {
    match cutter.peek() {
        Peek::Event {
            at,
            end,
            event,
            checksum,
        } => {
            let BodyView::Rows { bytes } = event.body else {
                return Ok(Met::Other);
            };
            if !push_row(&mut keeper.run, event.header.kind, bytes)? {
                return Ok(Met::Other);
            }
            cutter.pass(end, checksum);
            give_full(keeper)?;
            Ok(Met::Row(end.at.saturating_sub(at.at)))
        }
        Peek::Need => Ok(Met::End),
        Peek::Fault { .. } => Ok(Met::Other),
    }
}

// Feeds a piece, and keeps the events that are whole then; false where something else stands there.
fn keep_piece(
    cutter: &mut Cutter,
    piece: &[u8],
    keeper: &mut Keeper,
    tally: &mut Tally,
) -> Result<bool, Memory> {
    if cutter.fed_to().at >= FAR || piece.len() > PIECE {
        return Ok(false);
    }
    cutter.feed(piece)?;
    for _ in 0..PIECE {
        match keep_next(cutter, keeper)? {
            Met::Row(bytes) => {
                tally.count = tally.count.saturating_add(1);
                tally.bytes = tally.bytes.saturating_add(bytes);
            }
            Met::End => return Ok(true),
            Met::Other => return Ok(false),
        }
    }
    Ok(false)
}

/// Keeps the row events of a log, again and again, until there were `count`; none where something else stands in it.
/// Ten rows are a run; what is made of it is held to the end, or dropped at once.
pub fn keep_events(
    alloc: Global,
    log: &Blob,
    count: u64,
    holds: bool,
) -> Result<Option<Tally>, Memory> {
    let mut cutter = Cutter::resumed(alloc, Place { file: 1, at: 4 }, 0)?;
    let mut keeper = Keeper {
        alloc,
        run: RowRun::new(alloc),
        holds,
        held: Vec::new(alloc),
    };
    let mut tally = Tally { count: 0, bytes: 0 };
    for _ in 0..count {
        for piece in log.bytes().chunks(PIECE) {
            if !keep_piece(&mut cutter, piece, &mut keeper, &mut tally)? {
                return Ok(None);
            }
        }
        if tally.count >= count {
            return Ok(Some(tally));
        }
    }
    Ok(None)
}
