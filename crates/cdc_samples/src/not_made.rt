//! Why something wasn't made.

use cdc_base::Memory;

/// Why a log wasn't made.
#[derive(Clone, Copy, Debug, PartialEq, Eq)]
pub enum NotMade {
    /// It would have more than `LOG_MAX` bytes.
    TooLong,
    /// A word isn't in the notation.
    Word,
    /// There was no memory.
    Memory,
}

impl From<Memory> for NotMade {
    ghost use Rattle.std.specs.Prelude.{◌≡◌};
    ghost use Rattle.cdc_samples.specs.declared.not_made.NotMade.TheVariants.{Memory as NoMemory};

    ghost from_gives = { λ _ error. error ≡ NoMemory };

    fn from(_memory: Memory) -> NotMade {
        NotMade::Memory
    }
}
