//! The laws of growing: it is an order of runs. Each function ensures its law, so that the check proves it.

ghost use Rattle.std.specs.Prelude.{IsTrue, ℕ, List, ◌∷◌};
ghost use Rattle.cdc_model.specs.Records.{Transaction};
ghost use Rattle.cdc_recovery.specs.Outputs.{OutputPlan, planned_transactions, KeepsFrom};
ghost use Rattle.cdc_recovery.specs.Growing.{Each, Grows, OutputPass, AreInARow, EachGrows, EachKeeps};

use cdc_outside::Disk;

/// A law: an output on which nothing is done grows.
pub fn nothing_grows<D: Disk>(_disk: &D)
    ensures { IsTrue D.tells → (plan : OutputPlan) (txns : List Transaction) → Grows D.may_leave D.moment D.left_since plan txns _disk.now _disk.now }
{}

/// A law: an output that grows over one run and then over another grows over both. So it does over any list of calls, and
/// over any list of passes and stops.
pub fn growing_goes_on<D: Disk>(old: &D, mid: &D, new: &D)
    ensures { IsTrue D.tells → (plan : OutputPlan) (txns : List Transaction)
        → Grows D.may_leave D.moment D.left_since plan txns old.now mid.now
        → Grows D.may_leave D.moment D.left_since plan txns mid.now new.now
        → Grows D.may_leave D.moment D.left_since plan txns old.now new.now }
{}

/// A law: over any list of passes in which an output grows, each stopped at any of its moments and followed by the next over
/// logs that go on, no image ever keeps fewer transactions than all did at the start.
pub fn passes_and_stops_keep<D: Disk>(_disk: &D)
    ensures { IsTrue D.tells → (plan : OutputPlan) (least : ℕ) (pass : OutputPass D) (passes : List (OutputPass D))
        → Each (D.may_leave pass.begun) (KeepsFrom plan (planned_transactions plan pass.logs) least)
        → AreInARow D.may_leave D.moment D.left_since pass passes
        → EachGrows D.may_leave D.moment D.left_since plan (pass ∷ passes)
        → EachKeeps D.moment D.left_since plan least (pass ∷ passes) }
{}
