//! The bytes of a checkpoint's record.

ghost use Rattle.std.specs.Prelude.{◌≡◌, ◌≤◌, ◌<◌, ◌^◌, ◌∷◌, [], ◌++◌, length, OnOk, IfOk, IfSome};
ghost use Rattle.cdc_model.specs.NodeCuts.{AreFloors};
ghost use Rattle.cdc_task.specs.Reading.{point_front, FitsLayout};
ghost use Rattle.cdc_event.specs.Number.{low_first};
ghost use Rattle.cdc_records.specs.KeyBytes.{key_bytes, IsRecordKey};
ghost use Rattle.cdc_records.specs.Checkpoint.{counted_id, held_bytes, held_list_bytes, cut_bytes, cut_list_bytes, layout_bytes, point_bytes, FitsHeld, FitsHeldList, FitsCut, FitsCutList, FitsPoint};

use cdc_base::{Buffer, Gtrid, Key, Memory, Xid};
use cdc_model::{HeldList, Layout, NodeCut};
use cdc_records::{Checkpoint, CutList};
use std::alloc::Global;

/// A number of eight bytes.
#[tactic(auto, using(cdc_event::proofs::Numbers::low_first_8))]
fn push_8(into: &mut Buffer, number: u64) -> Result<(), Memory>
    ensures ok { OnOk result (into.new ≡ into.old ++ low_first 8 number) }
{
    into.push(&number.to_le_bytes())
}

/// A number of four bytes.
#[tactic(auto, using(cdc_event::proofs::Numbers::low_first_4))]
fn push_4(into: &mut Buffer, number: u32) -> Result<(), Memory>
    ensures ok { OnOk result (into.new ≡ into.old ++ low_first 4 number) }
{
    into.push(&number.to_le_bytes())
}

/// A number of two bytes.
#[tactic(auto, using(cdc_event::proofs::Numbers::low_first_2))]
fn push_2(into: &mut Buffer, number: u16) -> Result<(), Memory>
    ensures ok { OnOk result (into.new ≡ into.old ++ low_first 2 number) }
{
    into.push(&number.to_le_bytes())
}

/// A byte.
fn push_byte(into: &mut Buffer, byte: u8) -> Result<(), Memory>
    ensures ok { OnOk result (into.new ≡ into.old ++ byte ∷ []) }
{
    into.push(&[byte])
}

/// An id behind its length.
fn push_id(into: &mut Buffer, id: &Gtrid) -> Result<(), Memory>
    ensures ok { OnOk result (into.new ≡ into.old ++ counted_id id.now) }
    ensures fits { length id.now ≤ 64 }
{
    let bytes = id.bytes();
    push_byte(into, bytes.len() as u8)?;
    into.push(bytes)
}

/// A held branch.
fn push_held(into: &mut Buffer, held: &(Xid, u64)) -> Result<(), Memory>
    requires { held.now.1 < 2 ^ 63 }
    ensures ok { OnOk result (into.new ≡ into.old ++ held_bytes held.now) }
    ensures fits { OnOk result (FitsHeld held.now) }
{
    push_8(into, held.1)?;
    push_4(into, held.0.format)?;
    push_id(into, &held.0.gtrid)?;
    push_id(into, &held.0.bqual)
}

/// Held branches behind their number.
fn push_held_list(into: &mut Buffer, held: &HeldList) -> Result<(), Memory>
    requires { AreFloors held.now }
    ensures ok { OnOk result (into.new ≡ into.old ++ held_list_bytes held.now) }
    ensures fits { OnOk result (FitsHeldList held.now) }
{
    push_8(into, held.len() as u64)?;
    for pair in held.as_slice() {
        push_held(into, pair)?;
    }
    Ok(())
}

/// A node's point.
fn push_cut(into: &mut Buffer, cut: &NodeCut) -> Result<(), Memory>
    ensures ok { OnOk result (into.new ≡ into.old ++ cut_bytes cut.now) }
    ensures fits { OnOk result (FitsCut cut.now) }
{
    push_8(into, cut.entry)?;
    push_4(into, cut.place.file)?;
    push_8(into, cut.place.at)?;
    push_8(into, cut.mark)?;
    push_byte(into, cut.checksum)?;
    push_held_list(into, &cut.held)
}

/// The points of all nodes behind their number.
fn push_cut_list(into: &mut Buffer, cuts: &CutList) -> Result<(), Memory>
    requires { length cuts.now < 2 ^ 16 }
    ensures ok { OnOk result (into.new ≡ into.old ++ cut_list_bytes cuts.now) }
    ensures fits { OnOk result (FitsCutList cuts.now) }
{
    push_2(into, cuts.len() as u16)?;
    for cut in cuts.as_slice() {
        push_cut(into, cut)?;
    }
    Ok(())
}

/// A key.
fn push_key(into: &mut Buffer, key: &Key) -> Result<(), Memory>
    ensures ok { OnOk result (into.new ≡ into.old ++ key_bytes key.now) }
    ensures fits { OnOk result (IsRecordKey key.now) }
{
    match key {
        Key::Shared { timestamp, gtrid } => {
            push_8(into, *timestamp)?;
            push_byte(into, 0)?;
            push_id(into, gtrid)
        }
        Key::Plain {
            timestamp,
            node,
            entry,
        } => {
            push_8(into, *timestamp)?;
            push_byte(into, 1)?;
            push_4(into, *node)?;
            push_8(into, *entry)
        }
    }
}

/// Where an output stands.
fn push_layout(into: &mut Buffer, layout: &Layout) -> Result<(), Memory>
    ensures ok { OnOk result (into.new ≡ into.old ++ layout_bytes layout.now) }
    ensures fits { OnOk result (FitsLayout layout.now) }
{
    push_8(into, layout.file)?;
    push_8(into, layout.length)?;
    push_byte(into, if layout.closed { 1 } else { 0 })
}

/// The version and what stands before the nodes.
fn push_front(into: &mut Buffer, checkpoint: &Checkpoint) -> Result<(), Memory>
    ensures ok { OnOk result (into.new ≡ into.old ++ point_front checkpoint.now) }
    ensures count { OnOk result (checkpoint.now.count < 2 ^ 64) }
    ensures layout { OnOk result (FitsLayout checkpoint.now.layout) }
    ensures key { OnOk result (IsRecordKey checkpoint.now.last) }
    ensures rotation { OnOk result (IfSome checkpoint.now.rotation (λ size. size < 2 ^ 64)) }
{
    let version = if checkpoint.rotation.is_some() { 2 } else { 1 };
    push_byte(into, version)?;
    push_8(into, checkpoint.count)?;
    push_layout(into, &checkpoint.layout)?;
    push_key(into, &checkpoint.last)?;
    match checkpoint.rotation {
        Some(size) => push_8(into, size),
        None => Ok(()),
    }
}

/// The bytes of a checkpoint's record.
pub fn write_point(alloc: Global, checkpoint: &Checkpoint) -> Result<Buffer, Memory>
    requires { length checkpoint.now.nodes < 2 ^ 16 }
    ensures bytes { IfOk result (λ bytes. bytes ≡ point_bytes checkpoint.now) }
    ensures fits { OnOk result (FitsPoint checkpoint.now) }
{
    let mut bytes = Buffer::new(alloc);
    push_front(&mut bytes, checkpoint)?;
    push_cut_list(&mut bytes, &checkpoint.nodes)?;
    Ok(bytes)
}
