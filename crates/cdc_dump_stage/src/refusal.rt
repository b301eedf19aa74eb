//! Why an output's stage refuses a unit.

ghost use Rattle.std.specs.Prelude.{◌≡◌, ◌⊎◌, false, true, IfNone, IfSome};
ghost use Rattle.cdc_base.specs.declared.key.Key.{Key};
ghost use Rattle.cdc_dump_stage.specs.declared.dump_end.DumpEnd.TheVariants.{Key as OtherKey};
ghost use Rattle.cdc_dump_stage.specs.Taking.{HasOtherKey, IsUnitThere, IsNextUnit, IsRefusedFor, StartsAs};

use crate::dump_end::DumpEnd;
use cdc_base::Key;
use cdc_model::Unit;
use cdc_records::Front;

/// The greatest number of a unit.
const UNITS_MAX: u64 = 1 << 62;

/// The end of a stage whose output has another last key than the transaction of the same number; none where it hasn't.
pub(crate) fn other_key(front: &Front, number: u64, given: &Key) -> Option<DumpEnd>
    ensures other { IfSome result (λ end. (kept : Key) × (end ≡ OtherKey kept given.now) × HasOtherKey front.now number kept given.now) }
    ensures none { IfNone result ((kept : Key) → HasOtherKey front.now number kept given.now → ⊥) }
{
    let Some(kept) = front.last else {
        return None;
    };
    if number != front.count || kept == *given {
        return None;
    }
    Some(DumpEnd::Key {
        kept,
        given: *given,
    })
}

/// How a stage at a Front begins, where the pass goes on from a checkpoint with this count and last key.
pub(crate) fn starting_end(front: &Front, start: &Option<(u64, Key)>) -> DumpEnd
    ensures { StartsAs front.now start.now result }
{
    let Some((count, key)) = start else {
        return DumpEnd::Open;
    };
    match other_key(front, *count, key) {
        Some(end) => end,
        None => DumpEnd::Open,
    }
}

/// Whether a unit is the next one behind a Front.
fn is_next(front: &Front, unit: &Unit) -> bool
    ensures next { result ≡ true → IsNextUnit front.now unit.now }
    ensures other { result ≡ false → IsNextUnit front.now unit.now → ⊥ }
{
    front.count < UNITS_MAX && unit.number == front.count + 1 && unit.before == front.layout()
}

/// The end of a stage that refuses a unit behind a Front; none where the unit is known or the next one.
pub(crate) fn refusal(front: &Front, unit: &Unit) -> Option<DumpEnd>
    ensures refused { IfSome result (λ end. IsRefusedFor front.now unit.now end) }
    ensures taken { IfNone result (IsUnitThere front.now unit.now ⊎ IsNextUnit front.now unit.now) }
{
    if unit.number == front.count {
        return other_key(front, unit.number, &unit.key);
    }
    if unit.number < front.count || is_next(front, unit) {
        return None;
    }
    Some(DumpEnd::Differs {
        kept: front.layout(),
        given: unit.before,
    })
}
