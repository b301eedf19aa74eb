//! Values whose comparisons are counted.

ghost use Rattle.std.specs.Prelude.{◌≡◌, ◌+◌};
ghost use Rattle.std.specs.Cmp.{IsTotalOrder};
ghost use Rattle.std.specs.declared.cmp.Ordering.{Ordering};
ghost use Rattle.cdc_base.specs.Key.{key_order};

use crate::key::{Key, key_cmp};
use crate::steps::Steps;
use std::cmp::Ordering;
use std::sync::ledger::Ledger;

/// What can be compared with its like, and in no other way than by a step that is counted.
pub trait Ranked {
    ghost order: { Self → Self → Ordering };

    /// The order of two values, for one step.
    fn compare<L: Ledger>(&self, other: &Self, steps: &mut Steps<L>) -> Ordering
        ensures answer { result ≡ order self.now other.now }
        ensures step { steps.new ≡ steps.old + 1 };

    ghost total: { IsTotalOrder order };
}

impl Ranked for Key {
    ghost order = { key_order };

    ghost use Rattle.std.specs.Cmp.Rules.{comparing};
    ghost use Rattle.std.proofs.Common.{rules};

    ghost total = { Prim.search (comparing, rules) depth 9 };

    fn compare<L: Ledger>(&self, other: &Key, steps: &mut Steps<L>) -> Ordering {
        steps.tick();
        key_cmp(self, other)
    }
}
