//! A node's first key, as the tournament compares it.

ghost use Rattle.std.specs.Prelude.{◌≡◌, true, false};
ghost use Rattle.cdc_base.specs.Key.{key_order};
ghost use Rattle.cdc_model.specs.Kept.{IsKeptKey};

use cdc_base::{Key, Ranked, Steps, key_cmp};
use std::cmp::Ordering;
use std::marker::Model;
use std::sync::ledger::Ledger;

/// The key of a branch that waits, seen as that key.
#[derive(Drop)]
pub struct Head {
    key: Key,
}

impl Model for Head {
    ghost use Rattle.cdc_base.specs.declared.key.Key.{Key};
    ghost use Rattle.cdc_model.specs.Kept.{IsKeptKey};

    ghost Value = { Key };

    ghost view = { λ head. head.key };

    ghost invariant = { λ head. IsKeptKey head.key };
}

impl Head {
    /// The head of this key.
    pub fn new(key: &Key) -> Head
        requires { IsKeptKey key.now }
        ensures { result ≡ key.now }
    {
        Head { key: *key }
    }

    /// The key.
    pub fn key(&self) -> Key
        ensures value { result ≡ self.now }
        ensures kept { IsKeptKey result }
    {
        self.key
    }

    /// Whether it is this key.
    pub fn is_key(&self, key: &Key) -> bool
        ensures same { result ≡ true → self.now ≡ key.now }
        ensures other { result ≡ false → self.now ≡ key.now → ⊥ }
    {
        key_cmp(&self.key, key).is_eq()
    }
}

impl Ranked for Head {
    ghost use Rattle.cdc_base.specs.Key.{key_order};
    ghost use Rattle.cdc_base.proofs.KeyOrder.{key_order_total};

    ghost order = { key_order };

    ghost total = { key_order_total };

    fn compare<L: Ledger>(&self, other: &Head, steps: &mut Steps<L>) -> Ordering {
        self.key.compare(&other.key, steps)
    }
}
