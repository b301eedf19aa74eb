//! The units that wait for their commit.

ghost use Rattle.std.specs.Prelude.{◌≡◌, ◌≤◌, true, [], ◌∷◌, ◌++◌, IfSome, IfNone, OnOk, OnErr};
ghost use Rattle.cdc_item.specs.Item.{units_among};
ghost use Rattle.cdc_watched_stage.specs.Handing.{StartsBehind, HandsUpTo};

use crate::watch::Watch;
use cdc_base::Memory;
use cdc_item::DumpItem;
use cdc_model::Unit;
use std::collections::VecDeque;

/// Lets an item's unit wait behind the others. On `Memory` nothing changed.
pub(crate) fn keep(waits: &mut VecDeque<Unit>, item: DumpItem) -> Result<(), Memory>
    ensures kept { OnOk result (waits.new.items ≡ waits.old.items ++ units_among (item ∷ [])) }
    ensures full { OnErr result (waits.new.items ≡ waits.old.items) }
    ensures some { OnErr result (units_among (item ∷ []) ≡ [] → ⊥) }
{
    match item {
        DumpItem::Unit(unit) => match waits.push_back(unit) {
            Ok(()) => Ok(()),
            Err(_full) => Err(Memory),
        },
        DumpItem::End => Ok(()),
    }
}

// The first of them, where its number is up to this count.
fn next_up_to(waits: &mut VecDeque<Unit>, count: u64) -> Option<Unit>
    ensures some { IfSome result (λ unit. (waits.old.items ≡ unit ∷ waits.new.items) × (unit.number ≤ count)) }
    ensures none { IfNone result ((waits.new.items ≡ waits.old.items) × StartsBehind count waits.old.items) }
{
    let Some(first) = waits.front() else {
        return None;
    };
    if first.number > count {
        return None;
    }
    waits.pop_front()
}

/// Hands those with numbers up to a count on to a watch, in order.
pub(crate) fn hand_on<W: Watch>(waits: &mut VecDeque<Unit>, count: u64, watch: &mut W)
    ensures { HandsUpTo W.kept W.ended count waits.old.items waits.new.items watch.old watch.new }
{
    while let Some(unit) = next_up_to(waits, count) {
        watch.unit(unit);
    }
}

/// Drops all of them, and ends the watch.
pub(crate) fn give_up<W: Watch>(waits: &mut VecDeque<Unit>, watch: &mut W)
    ensures waits { waits.new.items ≡ [] }
    ensures kept { W.kept watch.new ≡ W.kept watch.old }
    ensures ended { W.ended watch.new ≡ true }
{
    waits.clear();
    watch.end();
}
