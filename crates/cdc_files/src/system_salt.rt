//! A salt over the system's random bytes.

ghost use Rattle.std.specs.Prelude.{◌≡◌, ⊤, false};

use crate::counted::counted;
use cdc_outside::{Failed, SALT_LENGTH, Salt};
use std::random::RandomSource;

/// The random bytes of the system.
#[derive(Drop)]
pub struct SystemSalt<R> {
    source: R,
    faults: u64,
}

impl<R: RandomSource + Drop> SystemSalt<R> {
    /// A salt over this source of random bytes, which has not failed.
    pub fn new(source: R) -> SystemSalt<R>
        ensures { ⟦<SystemSalt<R> as Salt>⟧.faults result ≡ 0 }
    {
        SystemSalt { source, faults: 0 }
    }

    /// How many draws failed.
    pub fn faults(&self) -> u64
        ensures { result ≡ ⟦<SystemSalt<R> as Salt>⟧.faults self.now }
    {
        self.faults
    }
}

impl<R: RandomSource + Drop> Salt for SystemSalt<R> {
    ghost tells = { false };

    ghost drawn = { λ _ _. ⊤ };

    ghost faults = { λ salt. salt.faults };

    fn draw(&mut self) -> Result<[u8; SALT_LENGTH], Failed> {
        let mut bytes = [0; SALT_LENGTH];
        let filled = self.source.fill_bytes(&mut bytes).ok();
        let drawn = filled.map(|_| bytes);
        counted(drawn, &mut self.faults)
    }
}
