//! What waits for the outputs' lanes.

ghost use Rattle.std.specs.Prelude.{◌≡◌, ◌<◌, ◌≤◌, ◌+◌, ℕ, true, false, map, length, get_or, set, Some, None, is_some, is_none, IfNone, IfSome, IfOk, OnOk, nat_lt};
ghost use Rattle.std.specs.List.{All};
ghost use Rattle.cdc_item.specs.declared.dump_item.DumpItem.TheVariants.{Unit as OneUnit, End as TheEnd};
ghost use Rattle.cdc_merge_stage.specs.Merged.{all_none, all_true};
ghost use Rattle.cdc_merge_stage.specs.Passing.{IsLeastBelow};

use cdc_base::Memory;
use cdc_item::DumpItem;
use cdc_model::Unit;
use std::alloc::Global;

/// So many nodes whose End hasn't come.
pub(crate) fn no_ends(alloc: Global, nodes: u32) -> Result<Vec<bool>, Memory>
    ensures count { IfOk result (λ flags. length flags.items ≡ nodes) }
    ensures none { IfOk result (λ flags. All (λ flag. flag ≡ false) flags.items) }
{
    let mut flags = Vec::new(alloc);
    for _ in 0..nodes {
        flags.push(false)?;
    }
    Ok(flags)
}

/// So many nodes that have told no bound.
pub(crate) fn no_bounds(alloc: Global, nodes: u32) -> Result<Vec<u64>, Memory>
    ensures { IfOk result (λ bounds. length bounds.items ≡ nodes) }
{
    let mut bounds = Vec::new(alloc);
    for _ in 0..nodes {
        bounds.push(0)?;
    }
    Ok(bounds)
}

/// So many lanes for which nothing waits.
pub(crate) fn no_items(alloc: Global, outs: u32) -> Result<Vec<Option<DumpItem>>, Memory>
    ensures count { IfOk result (λ slots. length slots.items ≡ outs) }
    ensures none { IfOk result (λ slots. All (λ slot. slot ≡ None) slots.items) }
{
    let mut slots = Vec::new(alloc);
    for _ in 0..outs {
        slots.push(None)?;
    }
    Ok(slots)
}

/// The same unit, over the same bytes.
fn share(unit: &Unit) -> Result<Unit, Memory>
    ensures { IfOk result (λ shared. shared ≡ unit.now) }
{
    Ok(Unit {
        number: unit.number,
        key: unit.key,
        before: unit.before,
        after: unit.after,
        bytes: unit.bytes.share()?,
    })
}

/// The first output for whose lane something waits.
pub(crate) fn first_filled(slots: &[Option<DumpItem>]) -> Option<usize>
    ensures within { IfSome result (λ out. out < length slots.now) }
    ensures filled { IfSome result (λ out. is_some (get_or slots.now out None) ≡ true) }
    ensures none { IfNone result (all_none slots.now ≡ true) }
{
    for out in 0..slots.len() {
        if slots[out].is_some() {
            return Some(out);
        }
    }
    None
}

/// Whether nothing waits for any lane.
pub(crate) fn is_clear(slots: &[Option<DumpItem>]) -> bool
    ensures { result ≡ all_none slots.now }
{
    match first_filled(slots) {
        Some(_) => false,
        None => true,
    }
}

/// Takes what waits for an output's lane.
pub(crate) fn take_slot(slots: &mut Vec<Option<DumpItem>>, out: usize) -> Option<DumpItem>
    requires { out < length slots.old.items }
    ensures item { result ≡ get_or slots.old.items out None }
    ensures slots { slots.new.items ≡ set slots.old.items out None }
{
    slots[out].take()
}

/// Lets an item wait for an output's lane.
pub(crate) fn put_slot(slots: &mut Vec<Option<DumpItem>>, out: usize, item: DumpItem)
    requires { out < length slots.old.items }
    ensures { slots.new.items ≡ set slots.old.items out (Some item) }
{
    slots[out] = Some(item);
}

// Lets a unit wait for each lane.
fn fill_each(slots: &mut [Option<DumpItem>], unit: &Unit) -> Result<(), Memory>
    ensures filled { OnOk result (slots.new ≡ map (λ _. Some (OneUnit unit.now)) slots.old) }
{
    for out in 0..slots.len() {
        slots[out] = Some(DumpItem::Unit(share(unit)?));
    }
    Ok(())
}

// Lets nothing wait for any lane.
fn clear_each(slots: &mut [Option<DumpItem>])
    ensures { slots.new ≡ map (λ _. None) slots.old }
{
    for out in 0..slots.len() {
        slots[out] = None;
    }
}

// Lets an End wait for each lane.
fn close_each(slots: &mut [Option<DumpItem>])
    ensures { slots.new ≡ map (λ _. Some TheEnd) slots.old }
{
    for out in 0..slots.len() {
        slots[out] = Some(DumpItem::End);
    }
}

/// Lets a unit wait for each lane. On `Memory` it may wait for some.
pub(crate) fn fill(slots: &mut Vec<Option<DumpItem>>, unit: &Unit) -> Result<(), Memory>
    ensures filled { OnOk result (slots.new.items ≡ map (λ _. Some (OneUnit unit.now)) slots.old.items) }
    ensures many { length slots.new.items ≡ length slots.old.items }
{
    fill_each(slots, unit)
}

/// Lets nothing wait for any lane.
pub(crate) fn clear(slots: &mut Vec<Option<DumpItem>>)
    ensures { slots.new.items ≡ map (λ _. None) slots.old.items }
{
    clear_each(slots);
}

/// Lets an End wait for each lane.
pub(crate) fn close(slots: &mut Vec<Option<DumpItem>>)
    ensures { slots.new.items ≡ map (λ _. Some TheEnd) slots.old.items }
{
    close_each(slots);
}

// No node's End has come.
fn reset_each(took: &mut [bool])
    ensures { took.new ≡ map (λ _. false) took.old }
{
    for node in 0..took.len() {
        took[node] = false;
    }
}

/// No node's End has come.
pub(crate) fn reset(took: &mut Vec<bool>)
    ensures { took.new.items ≡ map (λ _. false) took.old.items }
{
    reset_each(took);
}

// Whether a node's bound is less than that of the one that was found, or none was found.
fn is_less(bounds: &[u64], node: usize, found: Option<usize>) -> bool
    requires within { node < length bounds.now }
    requires found { IfSome found (λ other. other < length bounds.now) }
    ensures none { IfNone found (result ≡ true) }
    ensures less { IfSome found (λ other. result ≡ nat_lt (get_or bounds.now node 0) (get_or bounds.now other 0)) }
{
    match found {
        Some(other) => bounds[node] < bounds[other],
        None => true,
    }
}

/// Of the nodes whose End hasn't come, the first with the least bound.
pub(crate) fn lagging(took: &[bool], bounds: &[u64]) -> Option<usize>
    requires { length bounds.now ≡ length took.now }
    ensures within { IfSome result (λ node. node < length took.now) }
    ensures going { IfSome result (λ node. get_or took.now node true ≡ false) }
    ensures least { IfSome result (λ node. IsLeastBelow took.now bounds.now (length took.now) node) }
    ensures none { IfNone result (all_true took.now ≡ true) }
{
    let mut found: Option<usize> = None;
    for node in 0..took.len() {
        if !took[node] && is_less(bounds, node, found) {
            found = Some(node);
        }
    }
    found
}
