//! A checkpoint from the bytes of its record.

ghost use Rattle.std.specs.Prelude.{IfOk};
ghost use Rattle.cdc_records.specs.Checkpoint.{layout_bytes};
ghost use Rattle.cdc_task.specs.Reading.{ReadsFront, ReadsRotation, ReadsPoint, FitsLayout, IsReadOf};

use crate::conditions::is_point;
use crate::cut_reading::cut_list;
use crate::fields::{byte, key, number_8};
use crate::writing::write_point;
use cdc_base::Memory;
use cdc_model::Layout;
use cdc_records::Checkpoint;
use std::alloc::Global;

/// The version whose records name the rotation size.
const NAMED: u8 = 2;

/// Where an output stands.
fn layout(bytes: &[u8]) -> (Layout, &[u8])
    ensures reads { ReadsFront layout_bytes FitsLayout bytes.now result.0 result.1.now }
{
    let (file, bytes) = number_8(bytes);
    let (length, bytes) = number_8(bytes);
    let (closed, rest) = byte(bytes);
    let layout = Layout {
        file,
        length,
        closed: closed == 1,
    };
    (layout, rest)
}

/// The rotation size, where the version names one.
fn rotation(version: u8, bytes: &[u8]) -> (Option<u64>, &[u8])
    ensures reads { ReadsRotation version bytes.now result.0 result.1.now }
{
    if version != NAMED {
        return (None, bytes);
    }
    let (size, rest) = number_8(bytes);
    (Some(size), rest)
}

/// The checkpoint, where these are the bytes of one.
fn point(alloc: Global, bytes: &[u8]) -> Result<Checkpoint, Memory>
    ensures reads { IfOk result (ReadsPoint bytes.now) }
{
    let (version, bytes) = byte(bytes);
    let (count, bytes) = number_8(bytes);
    let (layout, bytes) = layout(bytes);
    let (last, bytes) = key(bytes);
    let (rotation, bytes) = rotation(version, bytes);
    let (nodes, _rest) = cut_list(alloc, bytes)?;
    Ok(Checkpoint {
        count,
        layout,
        last,
        rotation,
        nodes,
    })
}

/// The checkpoint whose record has this number and these bytes; none exactly where it is none's. What was read is written
/// again, and is the record's where that gives the same bytes. It takes memory for what it reads alone.
pub fn read_point(alloc: Global, number: u64, payload: &[u8]) -> Result<Option<Checkpoint>, Memory>
    ensures read { IfOk result (IsReadOf number payload.now) }
{
    let point = point(alloc, payload)?;
    if point.number() != number || !is_point(&point) {
        return Ok(None);
    }
    let written = write_point(alloc, &point)?;
    if written.bytes() != payload {
        return Ok(None);
    }
    Ok(Some(point))
}
