//! Events cut from pieces.

use crate::tally::Tally;
use cdc_base::{Blob, Memory, Place};
use cdc_cutter::{Cut, Cutter};
use std::alloc::Global;

/// The bytes of a piece.
pub const PIECE: usize = 65_536;

/// No log is as long.
pub const FAR: u64 = 1 << 62;

/// Feeds a piece and takes the events that are whole then; false where something else stands there.
fn cut_piece(cutter: &mut Cutter, piece: &[u8], tally: &mut Tally) -> Result<bool, Memory> {
    if cutter.fed_to().at >= FAR || piece.len() > PIECE {
        return Ok(false);
    }
    cutter.feed(piece)?;
    for _ in 0..PIECE {
        match cutter.next()? {
            Cut::Event { at, end, .. } => {
                tally.count = tally.count.saturating_add(1);
                tally.bytes = tally.bytes.saturating_add(end.at.saturating_sub(at.at));
            }
            Cut::Need => return Ok(true),
            Cut::Fault { .. } => return Ok(false),
        }
    }
    Ok(false)
}

/// Cuts the events of a log, again and again, until there were `count`; none where something else stands in it.
pub fn cut_events(alloc: Global, log: &Blob, count: u64) -> Result<Option<Tally>, Memory> {
    let mut cutter = Cutter::resumed(alloc, Place { file: 1, at: 4 }, 0)?;
    let mut tally = Tally { count: 0, bytes: 0 };
    for _ in 0..count {
        for piece in log.bytes().chunks(PIECE) {
            if !cut_piece(&mut cutter, piece, &mut tally)? {
                return Ok(None);
            }
        }
        if tally.count >= count {
            return Ok(Some(tally));
        }
    }
    Ok(None)
}
