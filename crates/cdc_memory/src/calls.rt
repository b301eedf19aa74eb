//! Which calls of a device fail.

ghost use Rattle.std.specs.Prelude.{◌≡◌, ◌≤◌, ◌↔◌, false, nat_le, IsTrue, IsErr, IsOk, IfOk};
ghost use Rattle.cdc_outside.specs.Count.{Rose};
ghost use Rattle.cdc_memory.specs.Calls.{Calls, at_first, counted, is_failing, after_call};

use cdc_base::Memory;
use cdc_outside::Failed;
use std::alloc::Global;
use std::marker::Model;

/// The calls of a device so far, and the numbers of those that fail. Both counts stand still at `u64`'s end.
#[derive(Debug, Drop)]
pub struct CallPlan {
    fails: Vec<u64>,
    calls: u64,
    faults: u64,
}

impl Model for CallPlan {
    ghost use Rattle.cdc_memory.specs.Calls.{Calls};

    ghost Value = { Calls };

    ghost view = { λ plan. record { fails = plan.fails.items; calls = plan.calls; faults = plan.faults } };
}

impl CallPlan {
    /// No call so far; the k-th fails for each k of `fails`.
    pub fn new(alloc: Global, fails: &[u64]) -> Result<CallPlan, Memory>
        ensures { IfOk result (λ plan. plan ≡ at_first fails.now) }
    {
        Ok(CallPlan {
            fails: fails.to_vec(alloc)?,
            calls: 0,
            faults: 0,
        })
    }

    /// Counts one more call, which fails where it is listed, and where it is barred.
    pub fn count(&mut self, barred: bool) -> Result<(), Failed>
        ensures fails { IsErr result ↔ IsTrue (is_failing barred self.old) }
        ensures after { self.new ≡ after_call barred self.old }
        ensures later { self.old.faults ≤ self.new.faults }
        ensures rose { IsErr result → Rose self.old.faults self.new.faults }
        ensures passed { IsOk result → barred ≡ false }
    {
        self.calls = self.calls.saturating_add(1);
        if barred || self.fails.contains(&self.calls) {
            self.faults = self.faults.saturating_add(1);
            return Err(Failed);
        }
        Ok(())
    }

    /// How many calls there were.
    pub fn calls(&self) -> u64
        ensures { result ≡ self.now.calls }
    {
        self.calls
    }

    /// Whether the next call is this one or a later one.
    pub fn reaches(&self, call: u64) -> bool
        ensures { result ≡ nat_le call (counted self.now.calls) }
    {
        call <= self.calls.saturating_add(1)
    }

    /// How many calls failed.
    pub fn faults(&self) -> u64
        ensures { result ≡ self.now.faults }
    {
        self.faults
    }
}
