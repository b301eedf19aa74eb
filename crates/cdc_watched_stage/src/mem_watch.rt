//! A watch in memory.

ghost use Rattle.std.specs.Prelude.{◌≡◌, false, []};

use crate::watch::Watch;
use cdc_model::Unit;
use std::alloc::Global;

/// A watch that keeps the units themselves, at most so many: at the next one it ends, as it does for want of memory.
#[derive(Drop)]
pub struct MemWatch {
    units: Vec<Unit>,
    most: usize,
    closed: bool,
}

impl Watch for MemWatch {
    ghost kept = { λ watch. watch.units.items };

    ghost ended = { λ watch. watch.closed };

    fn unit(&mut self, unit: Unit) {
        if self.closed || self.units.len() >= self.most {
            self.closed = true;
            return;
        }
        match self.units.push(unit) {
            Ok(()) => {}
            Err(_full) => self.closed = true,
        }
    }

    fn end(&mut self) {
        self.closed = true;
    }
}

impl MemWatch {
    /// A watch that has nothing yet.
    pub fn new(alloc: Global, most: usize) -> MemWatch
        ensures units { result.units.items ≡ [] }
        ensures most { result.most ≡ most }
        ensures going { result.closed ≡ false }
    {
        MemWatch {
            units: Vec::new(alloc),
            most,
            closed: false,
        }
    }

    /// The units that it keeps.
    pub fn units(&self) -> &[Unit]
        ensures { result.now ≡ self.now.units.items }
    {
        self.units.as_slice()
    }

    /// Whether it keeps no more.
    pub fn has_ended(&self) -> bool
        ensures { result ≡ self.now.closed }
    {
        self.closed
    }
}
