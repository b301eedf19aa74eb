//! The floors of open branches.

ghost use Rattle.std.specs.Prelude.{◌≡◌, ◌+◌, ◌<◌, ◌^◌, ℕ, List, [], ◌∷◌, length, OnOk, OnErr};
ghost use Rattle.cdc_model.specs.Watermark.{least};
ghost use Rattle.cdc_open.specs.Floors.{times_told, TellsTimes};

use cdc_base::Memory;
use std::alloc::Global;
use std::collections::BTreeMap;
use std::marker::Model;

/// How often each floor stands among those of the open branches: seen as the list of the floors, the least one first,
/// each with how often it stands there.
#[derive(Debug, Drop)]
pub struct Floors {
    counts: BTreeMap<u64, u64>,
}

impl Model for Floors {
    ghost use Rattle.std.specs.Prelude.{ℕ, List};

    ghost Value = { List (ℕ × ℕ) };

    ghost view = { λ floors. floors.counts.entries };
}

impl Floors {
    /// No floor.
    pub fn new(alloc: Global) -> Floors
        ensures { TellsTimes result [] }
    {
        Floors {
            counts: BTreeMap::new(alloc),
        }
    }

    // How often a floor stands there.
    fn times(&self, floor: u64) -> u64
        ensures { result ≡ times_told floor self.now }
    {
        self.counts.get(&floor).copied().unwrap_or(0)
    }

    /// A floor more. On `Memory` nothing has changed.
    pub fn add(&mut self, floor: u64) -> Result<(), Memory>
        ensures ok { OnOk result ((floors : List ℕ) → length floors + 1 < 2 ^ 64 → TellsTimes self.old floors → TellsTimes self.new (floor ∷ floors)) }
        ensures err { OnErr result (self.new ≡ self.old) }
    {
        let times = self.times(floor);
        let _ = self.counts.insert(floor, times.saturating_add(1))?;
        Ok(())
    }

    /// A floor less, of those that stand there.
    pub fn take(&mut self, floor: u64)
        ensures { (floors : List ℕ) → TellsTimes self.old (floor ∷ floors) → TellsTimes self.new floors }
    {
        let times = self.times(floor);
        if times <= 1 {
            let _ = self.counts.remove(&floor);
        } else {
            let _ = self.counts.insert(floor, times - 1);
        }
    }

    /// The least of a mark and of all floors.
    pub fn least(&self, mark: u64) -> u64
        ensures { (floors : List ℕ) → TellsTimes self.now floors → result ≡ least mark floors }
    {
        match self.counts.first_key_value() {
            Some((floor, _)) => mark.min(*floor),
            None => mark,
        }
    }
}
