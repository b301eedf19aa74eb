//! Held branches from bytes.

ghost use Rattle.std.specs.Prelude.{◌≤◌, ◌-◌, length, IfOk};
ghost use Rattle.cdc_records.specs.Checkpoint.{held_bytes, held_list_bytes, FitsHeld, FitsHeldList};
ghost use Rattle.cdc_model.specs.NodeCuts.{AreFloors};
ghost use Rattle.cdc_task.specs.Reading.{ReadsFront};

use crate::fields::{id, number_4, number_8};
use cdc_base::{Memory, Xid};
use cdc_model::HeldList;
use std::alloc::Global;

/// The greatest mark and the greatest floor.
pub const MARK_MAX: u64 = 9_223_372_036_854_775_807;

/// One held branch with its floor.
fn held(bytes: &[u8]) -> ((Xid, u64), &[u8])
    ensures reads { ReadsFront held_bytes FitsHeld bytes.now result.0 result.1.now }
    ensures floor { result.0.1 ≤ MARK_MAX }
    ensures shorter { length result.1.now ≤ length bytes.now - 1 }
{
    let (floor, bytes) = number_8(bytes);
    let (format, bytes) = number_4(bytes);
    let (gtrid, bytes) = id(bytes);
    let (bqual, rest) = id(bytes);
    let xid = Xid {
        gtrid,
        bqual,
        format,
    };
    ((xid, floor.min(MARK_MAX)), rest)
}

/// Held branches behind their number. Where there are fewer, it ends with the bytes.
pub fn held_list(alloc: Global, bytes: &[u8]) -> Result<(HeldList, &[u8]), Memory>
    ensures reads { IfOk result (λ read. ReadsFront held_list_bytes FitsHeldList bytes.now read.0 read.1.now) }
    ensures floors { IfOk result (λ read. AreFloors read.0) }
    ensures shorter { IfOk result (λ read. length read.1.now ≤ length bytes.now) }
{
    let (count, mut left) = number_8(bytes);
    let mut list = HeldList::new(alloc);
    let mut taken: u64 = 0;
    'pairs: while taken < count && !left.is_empty() {
        let (pair, rest) = held(left);
        list.push(pair)?;
        left = rest;
        taken += 1;
    }
    Ok((list, left))
}
