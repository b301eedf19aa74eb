//! The points of nodes from bytes.

ghost use Rattle.std.specs.Prelude.{◌≤◌, ◌-◌, length, IfOk};
ghost use Rattle.cdc_records.specs.Checkpoint.{cut_bytes, cut_list_bytes, FitsCut, FitsCutList};
ghost use Rattle.cdc_task.specs.Reading.{ReadsFront};

use crate::fields::{byte, number_2, number_4, number_8};
use crate::held_reading::{MARK_MAX, held_list};
use cdc_base::{Memory, Place};
use cdc_model::NodeCut;
use cdc_records::CutList;
use std::alloc::Global;

/// One node's point.
fn cut(alloc: Global, bytes: &[u8]) -> Result<(NodeCut, &[u8]), Memory>
    ensures reads { IfOk result (λ read. ReadsFront cut_bytes FitsCut bytes.now read.0 read.1.now) }
    ensures shorter { IfOk result (λ read. length read.1.now ≤ length bytes.now - 1) }
{
    let (entry, bytes) = number_8(bytes);
    let (file, bytes) = number_4(bytes);
    let (at, bytes) = number_8(bytes);
    let (mark, bytes) = number_8(bytes);
    let (checksum, bytes) = byte(bytes);
    let (held, rest) = held_list(alloc, bytes)?;
    let cut = NodeCut {
        entry,
        place: Place { file, at },
        mark: mark.min(MARK_MAX),
        checksum: checksum.min(1),
        held,
    };
    Ok((cut, rest))
}

/// The points of all nodes behind their number. Where there are fewer, it ends with the bytes.
pub fn cut_list(alloc: Global, bytes: &[u8]) -> Result<(CutList, &[u8]), Memory>
    ensures reads { IfOk result (λ read. ReadsFront cut_list_bytes FitsCutList bytes.now read.0 read.1.now) }
{
    let (count, mut left) = number_2(bytes);
    let mut list = CutList::new(alloc);
    let mut taken: u16 = 0;
    'points: while taken < count && !left.is_empty() {
        let (point, rest) = cut(alloc, left)?;
        list.push(point)?;
        left = rest;
        taken += 1;
    }
    Ok((list, left))
}
