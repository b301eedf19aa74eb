//! Why a part of a configuration can't be had.

use cdc_base::Memory;

/// Why a part can't be had.
#[derive(Clone, Copy, Debug, PartialEq, Eq)]
pub enum Misfit {
    /// It isn't there in its form.
    Refused,
    /// There was no memory.
    Memory,
}

impl From<Memory> for Misfit {
    ghost use Rattle.std.specs.Prelude.{◌≡◌};
    ghost use Rattle.cdc_config.specs.declared.misfit.Misfit.TheVariants.{Memory as NoMemory};

    ghost from_gives = { λ _ misfit. misfit ≡ NoMemory };

    fn from(_memory: Memory) -> Misfit {
        Misfit::Memory
    }
}
